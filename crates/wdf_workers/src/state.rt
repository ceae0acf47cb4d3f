//! What the workers share.
ghost use Rattle.std.specs.Prelude.{◌≡◌};
ghost use Rattle.wdf_model.specs.rules.Ready.{ready};
ghost use Rattle.wdf_turn.specs.Tokens.{IsGrown};
ghost use Rattle.wdf_workers.specs.Crews.{Advances, progress_of};

use crate::crew::side_of;
use wdf_base::{Agent, Event, Plan};
use wdf_core::Core;
use wdf_crew::{Advance, Crew, Progress};
use wdf_turn::Chronicle;

/// The machine of a run that workers share. Its root is the plan, and its history is the journal.
#[derive(Drop)]
pub struct RunState<A: Agent> {
    /// The machine. It is large, and goes from worker to worker: so it is moved as a pointer.
    pub core: Box<Core<A>>,
}

impl<A: Agent> Chronicle for RunState<A> {
    type Root = Plan;

    ghost root = { λ state. state.core.value.plan };

    ghost events = { λ state. state.core.value.journal };

    fn length(&self) -> u64 {
        self.core.journal_len() as u64
    }

    fn entry(&self, k: u64) -> Event {
        self.core.journal_at(k as usize)
    }
}

impl<A: Agent> Advance for RunState<A> {
    fn advance(&mut self, crew: Crew) -> Progress {
        take_first(&mut *self.core, crew)
    }

    // Nobody waits for it.
    fn end(&mut self) {}
}

/// Takes the crew's first event among those that may follow, if there is one, and says what that comes to.
fn take_first<A: Agent>(core: &mut Core<A>, crew: Crew) -> Progress
    ensures plan { core.new.plan ≡ core.old.plan }
    ensures journal { Advances (ready core.old.plan A.meaning) crew core.old.journal core.new.journal }
    ensures progress { result ≡ progress_of crew (ready core.old.plan A.meaning core.old.journal) }
    ensures grown { IsGrown core.old.journal core.new.journal }
{
    if core.apply_first_of(side_of(crew)) {
        Progress::Added
    } else if core.any_ready() {
        Progress::Waits
    } else {
        Progress::Over
    }
}
