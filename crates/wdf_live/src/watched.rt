//! What the workers of a watched run share.
ghost use Rattle.std.specs.Prelude.{◌≡◌, ◌<◌, true, false, List, length};
ghost use Rattle.wdf_base.specs.declared.event.Event.{Event};
ghost use Rattle.wdf_turn.specs.Tokens.{IsGrown};
ghost use Rattle.crossbeam_queue.specs.Passes.{IsPassOf, ruled_capacity};
ghost use Rattle.wdf_live.specs.Slot.{HasSent};

use std::sync::Wait;
use wdf_base::{Agent, Event, Plan};
use wdf_core::Core;
use wdf_crew::{Advance, Crew, Progress};
use wdf_pipe::{Desk, Item, Pipe, PipePass};
use wdf_turn::Chronicle;
use wdf_workers::RunState;

/// The machine of a run that is watched, and the one pass that sends. It is in the turnstile, so only the seat that holds
/// the machine sends.
#[derive(Drop)]
pub struct Watched<'a, R: Wait, A: Agent> {
    /// The machine.
    pub state: RunState<A>,
    /// The pipe to the printer, and what wakes it.
    pub desk: &'a Desk<'a, R>,
    /// The pass that sends.
    pub pass: PipePass,
    /// Whether the end mark was sent. Then no event comes any more.
    pub ended: bool,
    ghost own: { IsPassOf desk.now.pipe.now pass },
    ghost room: { state.core.value.plan.limit < ruled_capacity desk.now.pipe.now },
    ghost sent: { HasSent pass state.core.value.journal ended },
}

impl<'a, R: Wait, A: Agent> Chronicle for Watched<'a, R, A> {
    // The plan, and the pipe.
    type Root = (Plan, Pipe);

    ghost root = { λ watched. (watched.state.core.value.plan, watched.desk.now.pipe.now) };

    ghost events = { λ watched. watched.state.core.value.journal };

    fn length(&self) -> u64 {
        self.state.length()
    }

    fn entry(&self, k: u64) -> Event {
        self.state.entry(k)
    }
}

impl<R: Wait, A: Agent> Advance for Watched<'_, R, A> {
    // The event that was added is sent before the machine is given back.
    fn advance(&mut self, crew: Crew) -> Progress {
        if self.ended {
            return Progress::Over;
        }
        let before = self.state.core.journal_len();
        let progress = self.state.advance(crew);
        send_new(self.desk, &self.state.core, before, &mut self.pass);
        progress
    }

    // The end mark is sent, once.
    fn end(&mut self) {
        if !self.ended {
            send_end(self.desk, &self.state.core, &mut self.pass);
            self.ended = true;
        }
    }
}

/// Sends the event that was added to a journal which had so many, if there is one.
fn send_new<R: Wait, A: Agent>(
    desk: &Desk<'_, R>,
    core: &Core<A>,
    before: usize,
    pass: &mut PipePass,
)
    requires own { IsPassOf desk.now.pipe.now pass.old }
    requires room { core.now.plan.limit < ruled_capacity desk.now.pipe.now }
    requires grown { (journal : List Event) × HasSent pass.old journal false × (before ≡ length journal) × IsGrown journal core.now.journal }
    ensures own { IsPassOf desk.now.pipe.now pass.new }
    ensures sent { HasSent pass.new core.now.journal false }
{
    if before < core.journal_len() {
        let event = core.journal_at(before);
        desk.send(pass, Item::Numbered(before + 1, event));
    }
}

/// Sends the end mark, behind a journal that was sent.
fn send_end<R: Wait, A: Agent>(desk: &Desk<'_, R>, core: &Core<A>, pass: &mut PipePass)
    requires own { IsPassOf desk.now.pipe.now pass.old }
    requires room { core.now.plan.limit < ruled_capacity desk.now.pipe.now }
    requires sent { HasSent pass.old core.now.journal false }
    ensures own { IsPassOf desk.now.pipe.now pass.new }
    ensures sent { HasSent pass.new core.now.journal true }
{
    let _events = core.journal_len();
    desk.send(pass, Item::End);
}
