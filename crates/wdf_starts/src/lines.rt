//! What agents show of the hardware: registers, and the level lines of interrupts.
ghost use Rattle.std.specs.Prelude.{◌≡◌, ◌<◌};
ghost use Rattle.wdf_model.specs.declared.room.TheConstants.{OBJECTS};
ghost use Rattle.wdf_model.specs.parts.Interrupts as interrupts;
ghost use Rattle.wdf_model.specs.rules.Starts as starts;

use wdf_base::{Agent, ObjectId};
use wdf_parts::Parts;
use wdf_plan_index::IndexedPlan;

/// The number from which an agent numbers the level lines of its interrupts, after its registers.
const LINES: u32 = 64;

/// A register, or the level line of an interrupt, as the agent of its device shows it; 0 where the
/// device has no agent.
pub fn shown<A: Agent>(plan: &IndexedPlan, parts: &Parts<A>, device: ObjectId, what: u32) -> u64
    ensures { result ≡ starts.shown plan.now A.meaning parts.now device.0 what }
{
    match parts.agent(plan.agent_of_device(device)) {
        Some(agent) => agent.value(what),
        None => 0,
    }
}

/// The device of an interrupt; the id 0 for what is none.
fn device_of_interrupt(plan: &IndexedPlan, i: ObjectId) -> ObjectId
    ensures { result.0 ≡ starts.device_of_interrupt plan.now i.0 }
{
    match plan.interrupt_of(i) {
        Some(interrupt) => interrupt.device,
        None => ObjectId(0),
    }
}

/// Whether the level line of an interrupt is 1.
fn line_is_up<A: Agent>(plan: &IndexedPlan, parts: &Parts<A>, i: ObjectId) -> bool
    requires { i.0 < OBJECTS }
    ensures { result ≡ starts.line_is_up plan.now A.meaning parts.now i.0 }
{
    shown(plan, parts, device_of_interrupt(plan, i), LINES + i.0) == 1
}

/// Whether the service routine of an interrupt is due: its level line is 1, and it is enabled. (KMDF)
/// The agent is asked only of an interrupt that is enabled.
pub(crate) fn isr_due<A: Agent>(plan: &IndexedPlan, parts: &Parts<A>, i: ObjectId) -> bool
    ensures { result ≡ interrupts.isr_due parts.now.interrupts i.0 (starts.line_is_up plan.now A.meaning parts.now i.0) }
{
    parts.interrupts().is_enabled(i) && line_is_up(plan, parts, i)
}
