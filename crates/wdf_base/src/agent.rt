ghost use Rattle.std.specs.Prelude.{◌≡◌};
ghost use Rattle.wdf_base.specs.Meaning.{Meaning};

use crate::event::{Event, Post};

/// Something outside the framework that acts on it: an app, a device, a target, the Plug and Play
/// manager. Its state is a fold of the events of the run. No call takes memory.
pub trait Agent: Drop {
    /// The five definitions that say what the agent is.
    ghost meaning: { Meaning Self };

    /// Tells the agent of an event of the run.
    fn feed(&mut self, event: &Event)
        ensures { self.new ≡ meaning.fold self.old event.now };

    /// The agent's next post at the present tick, if one is due.
    fn due(&self) -> Option<Post>
        ensures { result ≡ meaning.due self.now };

    /// The least later tick at which it will have a post, if any.
    fn next_time(&self) -> Option<u64>
        ensures { result ≡ meaning.next self.now };

    /// The content of a register (its number) or the level line of an interrupt (64 and the id of
    /// the interrupt): 1 or 0. It is 0 for what isn't the agent's own.
    fn value(&self, what: u32) -> u64
        ensures { result ≡ meaning.value self.now what };
}
