//! The table of spans of a run: what is drawn from where to where.
//!
//! # Choices
//!
//! - **How is a place in a run given?** By slots: event number n takes the slot n - 1, and a piece goes from a slot up to
//!   another, which isn't its own. So pieces that follow one another share no slot, and none is left between them.
//! - **How is a box cut?** Where its frame begins to wait, is parked, comes back or is woken. The pieces name their frame.
//! - **What does a request's place come from?** From the events alone, as a reader of the trace has it: where the last event
//!   that speaks of the request left it. The queue of an arrival is the one that the plan has for its type. One that its queue
//!   doesn't keep, and one that is cancelled in its queue, is on its way out.
//! - **What does the driver hold from a queue?** What it owns from it, and what it sent on and will have back.
//! - **What is D0 in a trace?** From the end of EvtDeviceD0Entry to the start of EvtDeviceD0Exit; without these callbacks from the
//!   first stage that needs power to the first that has none.
//! - **When does a request's span end?** At the event that destroys it.
#![tactic(auto)]

mod bands;
mod begun;
mod born;
mod boxes;
mod frames;
mod moves;
mod queues;
mod requests;

pub use bands::{Band, BandOf, BandPiece, Standing, pieces_of};
pub use begun::Begun;
pub use born::Birth;
pub use boxes::{FrameBox, boxes_of};
pub use frames::{Frames, Phase, Piece, Stay, frames_of};
pub use moves::Told;
pub use queues::QueuePiece;
pub use requests::{RequestPiece, RequestSpan, Requests, requests_of, spans_of};
