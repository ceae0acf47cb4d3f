//! The lines of a trace are read back: those of events, of the ending and of the wait list.
//!
//! # Choices
//!
//! - **What are the values?** Any `cpuN` with N below 256, any id, frame or line below 2^32, any number below 2^64,
//!   each without leading zeros. Then any name of the plan in an object, and any agent of the plan with any form of
//!   post. It doesn't matter what the machine may do.
//! - **What is a call?** One with as many arguments as its row takes, each a value or a class of the plan, whatever
//!   sort the row names. A place beyond the row's count is the number 0. So a class where no call of the machine has
//!   one is the text of an event that can't come, and not a text of none. A class is shown by its name, which on a
//!   resolved plan is the text of no value. A number has no letter, an object's word has a dot, and a status is a
//!   reserved word.
//! - **Where is there a request or an interrupt?** A start has a request exactly where the rank of its callback
//!   carries one, a stage an interrupt exactly where it is `enabled` or `disabled`.
//! - **What is the answer of a post that is no arrival and no cancel?** None: it isn't printed, so that no two events
//!   share a line.
//! - **How is a line read?** Loosely by its words: a word is taken for what its place has, and a word that names
//!   nothing is taken for any. The event so read is printed, and the text must be that line, byte for byte. So what
//!   is found is right by construction; that every event is found is a law over the definitions.
//! - **What does it rest on?** On a resolved plan. Its names are words of letters, digits and `_`, no two are one,
//!   and none is a reserved word. Apps, classes, registers and declared objects each have their own.
//! - **Which word says the event?** The third. `start` is a callback's where the fourth word is a callback, and else
//!   the Plug and Play manager's: an object's word has a dot, and a callback's has none.
//! - **Which texts are a wait line's?** Those of a form with a cause of the same row, with objects and numbers as
//!   above. The line of a waiting frame has `cpus` as its last cause. A step is any callback or any stage, and its
//!   interrupt isn't shown.
//! - **Have two wait lines one text?** An object that waits for its target prints as a request that was sent there.
//!   The test is only whether some line has the text.
#![tactic(auto)]

mod cause_word;
mod read;
mod reading;
mod told;
mod valid;
mod verb;
mod waits;

pub use read::{one_event_a_line, read_line};
pub use waits::{reads_as_ending, reads_as_wait};
