//! The wait list of a stuck run: a line for each open thing, with the first cause that holds; where
//! several things fit, the least is named. (own)
//!
//! # Choices
//!
//! - **When is the wait list made?** When it is written: the top call goes along it line by line (`next_wait`), so that
//!   it takes no memory, and each thing is looked at once. A run that isn't stuck has none.
//! - **What does a line name whose callback finds no processor?** The cause `cpus`, and no frame: several processors
//!   may be taken, each by another frame.
//! - **Which step has a device's line?** The one whose callback runs, with the callback's frame as cause, also where
//!   `removed` alone is left after it. Else the next one.
//! - **Which request does a line name, where several would do?** The one with the least id. `behind` chooses among
//!   all that are before it in the queue. A call that waits chooses among those that it waits for. These are what is
//!   held from the queue for a stop, with what waits there for a drain, or with what returns to it for a purge; and
//!   what is at the target.
//! - **Which child does a line name?** The least of the children that have to go first and, where the parent is going
//!   too, of the younger siblings that aren't cleaned yet.
//! - **Why has a queued DPC no frame as cause?** It may start while a frame runs on its object. A timer or a work
//!   item may not.
//! - **May one request have two lines?** Yes: a made one that is at a target, and whose deletion was asked, is an
//!   open request and an open object. While the target isn't done with it, and no child and no frame keeps it, its
//!   second line names the target, also where all processors spin.
//! - **How does `scope` print?** As that word. Which lock it is shows from the queue or the object.
#![tactic(auto)]

mod deferred;
mod devices;
mod frames;
mod lines;
mod objects;
mod requests;
mod section;
mod walk;

pub use lines::wait_lines_len;
pub use walk::{WaitPlace, first_wait, next_wait};
