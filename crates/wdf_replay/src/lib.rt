//! Checks a trace: whether it is the text of a run, and else which line is the first bad one.
//!
//! # Choices
//!
//! - **What is a line?** The bytes up to and with a line feed. A last piece without one is a line too, and is no line
//!   of any text: `NotALine`. So a trace that is cut inside its last line is refused there, and one that is cut after
//!   a line is `Missing`.
//! - **In which order are the reasons tried?** First whether the line is the next one. Then whether it is the text of
//!   an event: `NotReady`, also where the run has ended or the number is another. Then whether it is the text of an
//!   ending or of a wait line: `WrongEnding`. Else `NotALine`. A line after the whole text of a run gets its reason
//!   in the same way. So `NotALine` says that no trace of the plan has such a line.
//! - **How is an event found?** The line is read to its event, whose number must be the next one. The core tests that
//!   event alone, and takes it exactly where it may follow (`Core::apply_event`). No other event is looked for,
//!   unless this one is a tick: a tick follows only where nothing else may come.
//! - **How are the lines after the events compared?** The line that comes next is printed and compared byte by byte.
//!   There is one such line at a time.
//! - **What is left on the core?** The events of the good lines, so that a caller can ask how the run is where the
//!   trace went wrong. The contract says so: after an accepted trace its run is on the core, and after a refused one
//!   the run whose lines are those before the bad one.
//! - **What does it ask of the core?** That it has no events yet, and a resolved plan: what `Core::make` gives for
//!   the plan of a text.
#![tactic(auto)]

mod refused;
mod replaying;
mod step;
mod told;
mod verdict;

pub use refused::refused_line;
pub use replaying::replay;
pub use verdict::{Verdict, Why};
