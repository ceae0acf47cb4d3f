//! The first reason why a scene has no plan, with the names that the scene declares.
//!
//! # Choices
//!
//! - **Which refusal comes first?** That of the first line that has one; of several on a line, the first in the order
//!   unknown name, given twice, wrong callback, limit, level, parent. The order is a definition, `refused` in
//!   `crates/wdf_refusals/specs/First.antt`. So the answer is one, however the code looks for it.
//! - **What does a name mean that is declared twice?** On lines that use it, for each of its declarations. A line has
//!   an unknown name only where none of them is what the place needs. So a class has no parent only where no
//!   declaration of the name is a device or a queue, and a level is incompatible only where no such declaration has a
//!   fitting one. The second declaration's own line is refused, whatever lines before it use the name.
//! - **Unknown name or no parent?** A parent that isn't declared at all is an unknown name. A parent that is
//!   declared, and nowhere as a device or a queue, and a missing parent are no parent.
//! - **Unknown class?** A class of another kind than the call makes is an unknown name.
//! - **Which line is `first`?** The first line that declares the name, also for a variable whose name is declared on
//!   a later line; 0 for a word of the language that no other line declares. For an attribute it is the first such
//!   line of its block, and for `for TYPE` and `default` the first one of the whole device.
//! - **Is a variable known before it is assigned?** Yes, where the callback assigns it on any line: variables start
//!   as 0. That holds also of a name that is a declared name too: it is known there, and its assignment is refused as
//!   given twice.
//! - **Which line counts where an attribute is given twice?** The first one, on all lines. The second one's own line
//!   is refused.
//! - **What counts as a statement?** `let`, `call`, `get`, `put`, `if`, `repeat`, `spend`, `log` and `return` of the
//!   whole text; no `else` and no `end`.
//! - **Which line is one too many?** Each line of a sort before which there is already the greatest number of its
//!   sort, so the first of them is the one that is refused. Variables: each line that assigns a variable which isn't
//!   among the first sixteen different ones of its callback. Picks: each `picks` line with which the numbers are
//!   above 200,000.
//! - **Where are too many objects refused?** At the `objects` line, for the declared objects of the whole scene and
//!   the driver object.
//! - **A `cancel` of no line?** No refusal; its answer is `none`, as that of a cancel which comes too late.
#![tactic(auto)]

pub mod first;
pub mod heritage;
pub mod limit;
pub mod names;
pub mod numbers;
pub mod part;
pub mod refusal;
pub mod twice;
pub mod unknown;
pub mod wrong;
