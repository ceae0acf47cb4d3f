use wdf_base::{Callback, Name, Operator};

/// A token of a line.
#[derive(Clone, Copy)]
pub enum Token {
    /// A number, written in decimal digits.
    Number(u64),
    /// A keyword, or a name of the scenario.
    Word(Name),
    /// The name of a callback, too long for a [`Name`].
    LongName(Callback),
    /// `(`
    Open,
    /// `)`
    Close,
    /// `=`
    Assign,
    /// An operator between two operands.
    Infix(Operator),
}
