//! The laws of a trace: what a driver may rely on in every run, said by the plan and the events alone. They are
//! definitions, in `specs/`; here are the plain types of their words. `check_trace` finds the first law that a
//! list of events breaks.
//!
//! # Choices
//!
//! - **What is the end of a callback?** Each start has the number of its event, and an end has the frame on top of
//!   its processor's stack. So the end of a start is an end whose frame has that number, on whatever processor, and
//!   one that comes after the start. An end or a park on an empty stack takes nothing.
//! - **Which forward enters a queue?** One that answers SUCCESS. Another one leaves the request where it is.
//! - **What if a device's queues never went down?** Then no acknowledgement counts, as none comes after it.
//! - **What is an argument that names no object?** Such a call completes, marks or gives up nothing, and what is
//!   created under it has no parent.
//! - **How far up does the third law look?** As many parents as the plan declares objects and the list has events,
//!   and one. On a list whose parents go round in a circle it has then seen all of them.
//! - **Whose laws are those of an interrupt?** The object of the start has to be an interrupt of the plan, which says
//!   its device and level. Of another object the fourth law says nothing.
#![tactic(auto)]

mod sign;

pub use sign::{Begun, Moment, Sign, Stacked, Taking, Told};
