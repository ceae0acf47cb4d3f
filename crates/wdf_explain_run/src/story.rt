//! The story of a run on a core.
ghost use Rattle.std.specs.Prelude.{◌≡◌, ◌-◌, IfOk, length, slice_get};
ghost use Rattle.wdf_model.specs.rules.Ready.{state_after};
ghost use Rattle.wdf_explain_run.specs.Endings.{faulted, story};

use crate::doing::top_doing;
use std::alloc::Global;
use wdf_base::{Agent, Event, Memory};
use wdf_core::Core;
use wdf_explain::{Doing, story_of};
use wdf_writing::Text;

/// What was about to be done where the run ended in a fault.
fn doing_at_end<A: Agent>(core: &Core<A>, events: &[Event]) -> Option<Doing>
    ensures { result ≡ faulted core.now.plan (state_after core.now.plan A.meaning core.now.journal) (slice_get events.now (length events.now - 1)) }
{
    match events.last() {
        Some(Event::Fault { cpu, .. }) => top_doing(core.parts(), core.indexed(), *cpu),
        _ => None,
    }
}

/// The story of the ending of the run on a core.
///
/// # Errors
///
/// [`Memory`] where memory was refused.
#[tactic(auto, unfolding(crate::specs::Endings::story))]
pub fn story_of_run<A: Agent>(alloc: Global, core: &Core<A>) -> Result<Text, Memory>
    ensures { IfOk result (λ text. text ≡ story core.now.plan A.meaning core.now.journal) }
{
    let waits = core.wait_list(alloc)?;
    let doing = doing_at_end(core, core.journal());
    story_of(
        alloc,
        core.plan(),
        core.journal(),
        core.ending(),
        waits.as_slice(),
        &doing,
    )
}
