//! The whole state of the machine: a part for each piece of the framework, the agents, and counts; what is
//! asked of several parts at once; and what each deed does.
//!
//! # Choices
//!
//! - **What do the parts of the state keep twice?** Counts and lists that follow from others, so that most questions
//!   need no scan. Such are how many requests are held from a queue, what is sent to a target, which requests a
//!   power-down waits for. `crates/law_machine_base/specs/Agreement.antt` says what they keep of one another.
//! - **How does a device close?** As one deed: its queues are purged for good, and what waits in them or returns to
//!   them is to be completed with CANCELLED. Where its power-managed queues go down, what returns to them is to be
//!   completed so, as one deed too. In one deed no other rule can see a device that is closed by half.
//! - **Does a deletion reach DPC lists?** The whole subtree is taken out of them, out of the timers and out of the
//!   work items, at once. Its ids are found once, and each of the three is changed by them.
//! - **Does an agent hear of every event?** Of all but `Local` and `Log`: nobody outside sees them. So a step inside
//!   a frame changes nothing but that frame.
#![tactic(auto)]

mod acts;
mod closing;
mod giving;
mod list;
mod objects;
mod parts;
mod readers;
mod single;

pub use list::{Deeds, Lowered};
pub use parts::Parts;
pub use readers::is_with_driver_by;
