use wdf_base::Ending;

/// Why a line of a trace is refused.
#[derive(Clone, Copy)]
pub enum Why {
    /// No line feed ends the line, or it is the text of no event, of no ending and of no line of a wait list.
    NotALine,
    /// The line is that of an event that may not follow, or that has another number or another answer.
    NotReady,
    /// The line is that of an ending or of a wait list, and isn't the next line of the run's text.
    WrongEnding,
    /// The trace stops before the last line of the run's text.
    Missing,
}

/// What becomes of a trace.
#[derive(Clone, Copy)]
pub enum Verdict {
    /// The trace is the text of a run that ended so.
    Accepted(Ending),
    /// The first bad line, counted from 1.
    RefusedAt { line: usize, why: Why },
}
