//! Names to numbers: the plan that a scene has, or the first reason why it has none.
//!
//! # Choices
//!
//! - **What of running out of memory?** `resolve` answers `Memory` at any point, and says nothing of the scene then.
//! - **How do statements of branches go on?** `next` is where control goes after a statement. That is past the `end`
//!   of an `if`, and from the end of a first branch past the branch of its `else`. The end of a `repeat` is a
//!   statement, `Again`, with the `repeat`'s line; its `body` is the statement after the `repeat`.
//! - **What is the owner of a callback in a class block?** The class by its number.
//! - **What becomes of a number that doesn't fit?** There is none. `resolve` asks for a scene that has a text, as
//!   `parse` ensures, and it is proved that where nothing of it is refused each number fits its type.
//! - **How does the work grow?** With the scene. A name is found through an index. For each name and each need of a
//!   place, a declaration that meets it is known, and it is looked at before it counts. So the use of a name that is
//!   declared twice asks for no search among all declarations; that is felt only in texts that are refused, since in
//!   a plan a name has one declaration. What devices, queues and the driver are given is looked up once a block, and
//!   the variables of a callback once a callback. Posts are gathered once, and each app and each device looks through
//!   them. The way from a statement to the next reads what it passes over, the rest of a skipped block. The way from
//!   the end of an `if`'s first branch on is kept while the `if` is open. So a long `else` is read once for each `if`
//!   around it, and not for each statement that leads past it. A line `serialize` looks through all declarations for
//!   its parent's level, in at most 256 classes. `bench/resolve.py` measures texts of these shapes at growing sizes.
#![tactic(auto)]

mod agents;
mod course;
mod laws;
mod nodes;
mod objects;
mod posts;
mod resolution;
mod scripts;
mod writer;

pub use laws::{plans_are_resolved, statements_are_of_trees};
pub use resolution::resolve;
pub use wdf_refusals::limit::Limit;
pub use wdf_refusals::refusal::PlanRefusal;
