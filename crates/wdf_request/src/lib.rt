//! The requests: where each is, whether it is cancelable, and what is kept of it.
//!
//! # Choices
//!
//! - **When is a mark cleared?** Where a request comes to another place, but where it becomes Owned or Done: so where
//!   it enters a queue, is on its way back, is sent, or is to be completed by the framework. A completed request
//!   keeps its mark: `WdfRequestUnmarkCancelable` may still name it, and answers that the cancel came first where
//!   `EvtRequestCancel` took it.
//! - **What is kept of a request that is gone?** Nothing, if it was completed, or if the driver made it and gave it
//!   to nobody: its entry is forgotten when it is destroyed. Another one's entry stays, since it may still be at a
//!   queue or a target.
//! - **How is an arrival numbered?** By its agent, from 1. The request keeps the number. The code also has a row for
//!   each agent, by which a cancel finds its request.
#![tactic(auto)]

mod arrivals;
mod change;
mod fresh;
mod keys;
mod requests;

pub use requests::Requests;
