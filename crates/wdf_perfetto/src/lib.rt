//! A run as Chrome's trace-event JSON, which Perfetto and `chrome://tracing` open: processors are threads, callbacks slices,
//! requests spans of their own, and queues counters.
//!
//! # Choices
//!
//! - **What is a run to a viewer?** A list of [`Row`]s, each of which is one event of the format. So what is shown is one table,
//!   and its JSON another: the second is exact by contract, and the first is what tests look at.
//! - **How long is an event of a run?** A microsecond, from its slot to the next. Viewers know no events but by time.
//! - **What of a callback that is parked?** Its slice ends, and another begins where it is back. In between it is a span of its
//!   own, beside the threads.
//! - **What of bytes that aren't ASCII?** There are none in a line of a trace. One would be a question mark.
#![tactic(auto)]

mod json;
mod members;
mod row;
mod rows;
mod text;
mod titles;

pub use json::{document, perfetto};
pub use row::{Group, Row, Sort, Title, Track};
pub use rows::rows_of;
