//! What may follow in a state: the groups of candidates of a plan, in their order and in blocks, the search over them, and how
//! many events they offer; whether one event is among them, without a search; what is open there, and what waits for time.
#![tactic(auto)]

mod across;
mod actor;
mod alike;
mod among;
mod blocks;
mod counts;
mod endings;
mod groups;
mod search;
mod sides;
mod stale;

pub use across::{allowed_at, any_own, first_by};
pub use actor::is_by;
pub use among::is_allowed;
pub use blocks::Blocks;
pub use counts::KeptCounts;
pub use endings::{is_open, waits_for_time};
pub use groups::blocks_of;
pub use sides::{Side, first_of, is_of};
pub use stale::Stale;
