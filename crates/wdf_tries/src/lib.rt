//! Many runs of one scenario: the run of each seed of a range, and what they come to.
//!
//! # Choices
//!
//! - **Does each run take memory anew?** No: the tries of a range share one core, which begins anew for each seed. Only
//!   the agents are made for each run; they have little. Where the lines of a scene are moved each seed has a plan of its
//!   own, and so a core of its own.
#![tactic(auto)]

mod kind;
mod moving;
mod opening;
mod range;
mod seed;
mod tried;

pub use kind::kind_of;
pub use moving::{moved_case, words_of_seed};
pub use opening::{limit_of, opened};
pub use range::{Hunted, hunt_range};
pub use seed::try_seed;
pub use tried::Case;
