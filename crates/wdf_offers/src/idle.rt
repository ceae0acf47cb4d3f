//! Whether nothing may come of a group, as levels and counts say without a look at its places. (own)
ghost use Rattle.std.specs.Prelude.{◌≡◌};
ghost use Rattle.wdf_offers.specs.Idle as idle;

use crate::candidates::callback_for;
use crate::parked::all_blocked;
use wdf_base::{Agent, Cpu, Irql, ObjectId, Rank, Stage, Step};
use wdf_model::Group;
use wdf_parts::Parts;
use wdf_plan_index::IndexedPlan;
use wdf_same::same_step;
use wdf_starts::level_fits;

/// The level of the scheduler, and of DPCs.
pub(crate) const DISPATCH_LEVEL: Irql = Irql(2);

/// The lowest level.
const PASSIVE_LEVEL: Irql = Irql(0);

/// The highest level of a rank's callbacks; `None` where it is that of an interrupt.
fn highest_level(rank: Rank) -> Option<Irql>
    ensures { result ≡ idle.highest_level rank }
{
    match rank {
        Rank::Isr | Rank::Sequence => None,
        Rank::Work | Rank::Cleanup | Rank::Destroy => Some(PASSIVE_LEVEL),
        _ => Some(DISPATCH_LEVEL),
    }
}

/// Whether no callback of up to this level may start on a processor.
fn is_too_high<A: Agent>(parts: &Parts<A>, cpu: Cpu, level: Option<Irql>) -> bool
    ensures { result ≡ idle.is_too_high parts.now cpu.0 level }
{
    match level {
        Some(level) => !level_fits(parts, cpu, level),
        None => false,
    }
}

/// Whether the next step of a device is that its power-managed queues have settled.
fn settles_next<A: Agent>(parts: &Parts<A>, device: ObjectId) -> bool
    ensures { result ≡ idle.settles_next parts.now device.0 }
{
    match parts.pnp().next_step(device) {
        Some(step) => same_step(
            step,
            Step::Pass {
                stage: Stage::Settled,
                interrupt: None,
            },
        ),
        None => false,
    }
}

/// Whether a queue is power-managed, and its device is between `queues_down` and `settled`.
pub(crate) fn is_stopping<A: Agent>(plan: &IndexedPlan, parts: &Parts<A>, q: ObjectId) -> bool
    ensures { result ≡ idle.is_stopping plan.now parts.now q.0 }
{
    plan.is_managed(q) && settles_next(parts, parts.tree().device(q))
}

/// Whether a callback of a rank for requests can be due on an object: EvtIoCanceledOnQueue where a request returns
/// to the queue, EvtIoStop while the queue stops, EvtIoResume where a resume is due for some request.
fn can_be_due<A: Agent>(plan: &IndexedPlan, parts: &Parts<A>, rank: Rank, object: ObjectId) -> bool
    ensures { result ≡ idle.can_be_due plan.now parts.now rank object.0 }
{
    match rank {
        Rank::CanceledOnQueue => parts.requests().returns_to(object),
        Rank::Stop => is_stopping(plan, parts, object),
        Rank::Resume => parts.power().some_resume_due(),
        _ => true,
    }
}

/// Whether nothing may come of a group, as the processor and what is counted say. No frame comes back to a
/// processor that isn't empty, nor where each parked one waits for a lock that is held. No callback starts on one
/// whose level is too high, and none for a request where none can be due.
pub fn is_idle<A: Agent>(plan: &IndexedPlan, parts: &Parts<A>, group: Group) -> bool
    ensures { result ≡ idle.is_idle plan.now parts.now group }
{
    match group {
        Group::Unparks { cpu } => !parts.cpus().is_empty(Cpu(cpu)) || all_blocked(parts),
        Group::Starts { cpu, rank } => is_too_high(parts, Cpu(cpu), highest_level(rank)),
        Group::StartsFor { cpu, rank, object } => {
            let object = ObjectId(object);
            let level = plan.callback_irql(callback_for(rank), object);
            !(level_fits(parts, Cpu(cpu), level) && can_be_due(plan, parts, rank, object))
        }
        _ => false,
    }
}
