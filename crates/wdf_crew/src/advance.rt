//! What the workers carry on.
ghost use Rattle.std.specs.Prelude.{◌≡◌};
ghost use Rattle.wdf_turn.specs.Tokens.{IsGrown};

use crate::crew::Crew;
use wdf_turn::Chronicle;

/// What a worker's turn comes to.
#[derive(Clone, Copy, Debug, PartialEq, Eq)]
pub enum Progress {
    /// An event was added to the history.
    Added,
    /// Nothing was added: other workers' events alone may follow, or another worker has the value.
    Waits,
    /// Nothing may follow any more.
    Over,
}

/// A history that workers carry on, each by the events of its crew.
pub trait Advance: Chronicle {
    /// Adds one event at most to the history, and says what that comes to.
    fn advance(&mut self, crew: Crew) -> Progress
        ensures root { Self.root self.new ≡ Self.root self.old }
        ensures grown { IsGrown (Self.events self.old) (Self.events self.new) };

    /// Hears that the workers have had all their turns. Who waits for their end may be told here; the history stays.
    fn end(&mut self)
        ensures root { Self.root self.new ≡ Self.root self.old }
        ensures events { Self.events self.new ≡ Self.events self.old };
}
