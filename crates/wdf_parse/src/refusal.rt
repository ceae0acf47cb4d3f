use thiserror::Error;

/// Why a text is no scene: the first reason, line by line.
#[derive(Clone, Copy, Debug, PartialEq, Eq, Error)]
pub enum ParseRefusal {
    /// The line has a byte that no text has.
    #[error("line {line}: a byte that no text has")]
    NotAscii { line: u32 },
    /// No token begins at this column, or a name that is too long. Columns count bytes from 1.
    #[error("line {line}, column {col}: no token")]
    BadToken { line: u32, col: u32 },
    /// The tokens are no line that may come there, or the text ends before its first three lines:
    /// then it is the line past the last.
    #[error("line {line}: no line that may be here")]
    BadLine { line: u32 },
    /// The text ends inside a block; the line opened the innermost one.
    #[error("line {line}: the block has no end")]
    Unclosed { line: u32 },
    /// The number at this column is above `u64::MAX`.
    #[error("line {line}, column {col}: the number is too large")]
    NumberTooLarge { line: u32, col: u32 },
    /// There is no memory.
    #[error("out of memory")]
    Memory,
}
