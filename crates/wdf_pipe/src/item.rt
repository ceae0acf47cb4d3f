//! What goes through the pipe.
use wdf_base::Event;

/// What the workers send to the printer.
#[derive(Clone, Copy)]
pub enum Item {
    /// An event of the run, with its number, from 1.
    Numbered(usize, Event),
    /// No event follows.
    End,
}
