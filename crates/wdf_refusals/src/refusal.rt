//! Why a scene has no plan.
use crate::limit::Limit;
use thiserror::Error;

/// Why a scene has no plan. In each, `line` is the number in the text, from 1, of the line that is refused.
#[derive(Clone, Copy, Debug, PartialEq, Eq, Error)]
pub enum PlanRefusal {
    /// A name stands for nothing there.
    #[error("line {line}: unknown name")]
    UnknownName { line: u32 },
    /// A name or an attribute was given before, or a variable has the name of something declared, also further down.
    /// `first` is the number of the first line that gives it, or 0 where it is a word of the language.
    #[error("line {line}: given before in line {first}")]
    TwiceNamed { line: u32, first: u32 },
    /// A callback or an attribute isn't of its block, a block lacks the callback that it needs, or an interrupt is in a
    /// working device.
    #[error("line {line}: wrong callback")]
    WrongCallback { line: u32 },
    /// A number is out of its bounds, or the line makes one too many: `limit` is the first such bound.
    #[error("line {line}: past the limit `{}`", .limit.word())]
    OverLimit { line: u32, limit: Limit },
    /// A class is serialized under a parent of another execution level.
    #[error("line {line}: incompatible level")]
    IncompatibleLevel { line: u32 },
    /// A class needs a device or a queue as its parent.
    #[error("line {line}: no parent")]
    NoParent { line: u32 },
    /// There is no memory.
    #[error("out of memory")]
    Memory,
}
