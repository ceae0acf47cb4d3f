//! What must not happen: a scenario's comments that begin with `#!` say what its writer expects of each run. They are read
//! from its text, and a run is judged by them.
//!
//! # Choices
//!
//! - **What does a pattern match?** The line of an event that begins so, word by word, after the event's number. So
//!   `fw complete` is any completion by the framework, and what a line has at its end, as the answer of a call, needn't be
//!   written. A word that a writer forgot makes a pattern match more, and `never` then says so at once; were the whole line
//!   compared, it would never match, and nobody would notice.
//! - **What does a star stand for?** Alone for any word, at the end of a word for any end of it. Elsewhere it is a byte that no
//!   line has.
//! - **Where may such a comment stand?** Where any comment may: a line's first `#` begins it. The mark is `#!` with nothing
//!   between, so `# !` is a plain comment.
//! - **What becomes of one that can't be read?** The text is refused, with the number of the line. A rule that is left out
//!   because of a slip would be kept by every run.
//! - **What has a run to do that a fault or the limit cuts short?** What is still to come isn't asked of it: `once` is broken
//!   there by a second line alone, and `after` not at all. A fault has a kind of its own already. Where the ending is one
//!   that `expect` names, the run has come to its end, and all is asked.
//! - **What do several lines `expect` say?** That the run ends as one of them says. The first is named where it doesn't.
//! - **Which broken rule is named?** The first in the text. Its kind has no number of an event, so that the runs which break
//!   one rule are one kind; of an ending that isn't expected it has the kind of that ending too.
#![tactic(auto)]

mod pattern;
mod reading;
mod rules;
mod verdict;
mod words;

pub use pattern::Pattern;
pub use reading::{ExpectError, expectations_of};
pub use rules::{Comment, Expectation, Expectations, Rule, Wanted};
pub use verdict::judged;
