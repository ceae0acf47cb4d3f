//! What each group of candidates offers in a state: its candidates by place, which of these may come, and how many that is where
//! it can be counted without a look at each.
#![tactic(auto)]

mod ahead;
mod candidates;
mod direct;
mod due;
mod for_requests;
mod idle;
mod leaving;
mod parked;
mod posts;
mod resting;
mod routines;
mod started;

pub use ahead::next_object;
pub use candidates::{
    callback_for, completion_at, declared_end, parks, places_for, places_in, places_of_rank,
    stage_at, start_for, unparks,
};
pub use direct::{
    cleanup_offered, completion_offered, completions_len, end_offered, own_at, own_len, park_at,
    park_len,
};
pub use due::{next_due, next_startable};
pub use for_requests::{Herd, herd_at, herd_len, herd_of};
pub use idle::is_idle;
pub use leaving::{Leaving, numbered_at, numbered_len};
pub use parked::{coming_at, coming_len, is_counted};
pub use posts::{post_offered, posts_at, posts_len};
pub use resting::rests;
pub use routines::{routine_at, routines_len};
pub use started::start_offered;
