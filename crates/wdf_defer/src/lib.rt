//! Work that runs later: the DPC list of each processor, the queued work items and the queued timers.
//!
//! # Choices
//!
//! - **How are the timers found that are due?** They are a set, to which each tick of the clock adds those that
//!   become due at it. For each 64 ids there is a floor, a tick before which none of their other timers is due, and one
//!   for all: most ticks look at nothing, and the others only where something becomes due. A floor that is too low
//!   costs a look, and none is too high. The set is this crate's alone: it remembers for which tick it holds, and
//!   a question that comes with another one goes over the timers. So no contract of another crate speaks of the set.
#![tactic(auto)]

mod dpcs;
mod floors;
mod reached;
mod ticks;
mod timers;
mod work_items;

pub use dpcs::Dpcs;
pub use timers::Timers;
pub use work_items::WorkItems;
