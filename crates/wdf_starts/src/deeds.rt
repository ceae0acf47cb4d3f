//! What the start and the end of a callback do.
ghost use Rattle.std.specs.Prelude.{◌≡◌, ◌+◌, ◌<◌, ◌^◌, ◌∷◌, ◌++◌, []};
ghost use Rattle.std.specs.Option.{option_to_list};
ghost use Rattle.wdf_base.specs.Callbacks.{row_of};
ghost use Rattle.wdf_base.specs.declared.rank.Rank.TheVariants as rank;
ghost use Rattle.wdf_model.specs.rules.Deeds.{do_deeds};
ghost use Rattle.wdf_model.specs.rules.Room.{AreDoable};
ghost use Rattle.wdf_model.specs.rules.Starts as starts;

use crate::checks::handle_id;
use crate::sequences::step_of;
use crate::starts::lock_for;
use wdf_base::{
    Agent, Callback, Cpu, Frame, FrameId, Handle, Irql, LockRef, ObjectId, Rank, Status, VARIABLES,
    Value,
};
use wdf_model::Deed;
use wdf_parts::Parts;
use wdf_plan_index::IndexedPlan;

/// What a start of this rank does of its own, for a request. (KMDF)
fn effect_for(rank: Rank, o: ObjectId, r: ObjectId) -> Option<Deed>
    ensures { option_to_list result ≡ starts.effect_for rank o.0 r.0 }
{
    match rank {
        Rank::Completion => Some(Deed::ComeBack { request: r }),
        Rank::Cancel => Some(Deed::TakeCancel { request: r }),
        Rank::CanceledOnQueue => Some(Deed::Receive {
            queue: o,
            request: r,
        }),
        Rank::Stop => Some(Deed::AskStop { request: r }),
        Rank::Resume => Some(Deed::Resume { request: r }),
        Rank::Handler => Some(Deed::Present {
            queue: o,
            request: r,
        }),
        _ => None,
    }
}

/// What a start of this rank does of its own, for no request. (KMDF)
fn effect<A: Agent>(
    plan: &IndexedPlan,
    parts: &Parts<A>,
    rank: Rank,
    cpu: Cpu,
    callback: Callback,
    o: ObjectId,
) -> Option<Deed>
    ensures { option_to_list result ≡ starts.effect plan.now parts.now rank cpu.0 callback o.0 }
{
    match rank {
        Rank::Deferred => Some(Deed::TakeDpc { cpu }),
        Rank::Timed => Some(Deed::FireTimer {
            object: o,
            period: plan.period_of(parts.tree().class(o)),
        }),
        Rank::QueueState => Some(Deed::NotifyQueue { queue: o }),
        Rank::Sequence => Some(Deed::TakeStep {
            device: parts.tree().device(o),
        }),
        Rank::Work => Some(Deed::CancelWork { object: o }),
        Rank::Cleanup | Rank::Destroy => Some(Deed::Note {
            object: o,
            callback,
        }),
        _ => None,
    }
}

/// The completion status that a callback sees: that of the request in EvtRequestCompletion, else
/// SUCCESS. (KMDF)
fn status_for<A: Agent>(parts: &Parts<A>, callback: Callback, r: ObjectId) -> Status
    ensures { result ≡ starts.status_for parts.now callback r.0 }
{
    match callback {
        Callback::EvtRequestCompletion => {
            parts.targets().routine_due(r).unwrap_or(Status::Success)
        }
        _ => Status::Success,
    }
}

/// The frame that a start begins; its variables start as 0.
pub fn new_frame<A: Agent>(
    plan: &IndexedPlan,
    parts: &Parts<A>,
    callback: Callback,
    object: Handle,
    request: Option<Handle>,
) -> Frame
    ensures { result ≡ starts.new_frame plan.now parts.now callback object request }
{
    let r = handle_id(request);
    let info = parts.requests().info(r);
    Frame {
        callback,
        object,
        device: parts.handle_in(plan, parts.tree().device(object.id)),
        request,
        length: info.length,
        code: info.code,
        status: status_for(parts, callback, r),
        script: parts.script_in(plan, callback, object.id).unwrap_or(0),
        at: 0,
        variables: [Value::Num(0); VARIABLES],
        counters: [0; VARIABLES],
        until: 0,
        pending: None,
    }
}

/// What a start of this rank does for a request is done.
fn do_effect_for<A: Agent>(
    plan: &IndexedPlan,
    parts: &mut Parts<A>,
    rank: Rank,
    o: ObjectId,
    r: ObjectId,
)
    requires { AreDoable plan.now (starts.effect_for rank o.0 r.0) parts.old }
    ensures { parts.new ≡ do_deeds plan.now (starts.effect_for rank o.0 r.0) parts.old }
{
    match rank {
        Rank::Handler => parts.present(plan, o, r),
        _ => parts.do_if_any(plan, &effect_for(rank, o, r)),
    }
}

/// What a start of its rank does for no request is done.
fn do_effect_alone<A: Agent>(
    plan: &IndexedPlan,
    parts: &mut Parts<A>,
    cpu: Cpu,
    callback: Callback,
    o: ObjectId,
)
    requires { AreDoable plan.now (starts.effect plan.now parts.old (row_of callback).rank cpu.0 callback o.0) parts.old }
    ensures { parts.new ≡ do_deeds plan.now (starts.effect plan.now parts.old (row_of callback).rank cpu.0 callback o.0) parts.old }
{
    let deed = effect(plan, parts, callback.row().rank, cpu, callback, o);
    parts.do_if_any(plan, &deed);
}

/// What a start does of its own rank is done.
fn do_effect<A: Agent>(
    plan: &IndexedPlan,
    parts: &mut Parts<A>,
    cpu: Cpu,
    callback: Callback,
    o: ObjectId,
    request: Option<Handle>,
)
    requires { AreDoable plan.now (starts.start_effect plan.now parts.old cpu.0 callback o.0 request) parts.old }
    ensures { parts.new ≡ do_deeds plan.now (starts.start_effect plan.now parts.old cpu.0 callback o.0 request) parts.old }
{
    match request {
        None => do_effect_alone(plan, parts, cpu, callback, o),
        Some(request) => do_effect_for(plan, parts, callback.row().rank, o, request.id),
    }
}

/// A new frame takes the lock, if there is one.
fn take_if_any<A: Agent>(
    plan: &IndexedPlan,
    parts: &mut Parts<A>,
    frame: FrameId,
    lock: Option<LockRef>,
)
    requires { AreDoable plan.now (starts.take_if_any frame.0 lock) parts.old }
    ensures { parts.new ≡ do_deeds plan.now (starts.take_if_any frame.0 lock) parts.old }
{
    let _ = plan;
    if let Some(lock) = lock {
        parts.take_lock(lock, frame, false);
    }
}

/// The lock is given back, if there is one.
fn release_if_any<A: Agent>(plan: &IndexedPlan, parts: &mut Parts<A>, lock: Option<LockRef>)
    ensures { parts.new ≡ do_deeds plan.now (starts.release_if_any lock) parts.old }
{
    let _ = plan;
    if let Some(lock) = lock {
        parts.release_lock(lock);
    }
}

/// A frame begins, and takes its lock.
fn begin<A: Agent>(
    plan: &IndexedPlan,
    parts: &mut Parts<A>,
    cpu: Cpu,
    number: FrameId,
    frame: &Frame,
    level: Irql,
    lock: Option<LockRef>,
)
    requires { AreDoable plan.now (Deed.PushFrame cpu number frame.now level ∷ starts.take_if_any number.0 lock) parts.old }
    ensures { parts.new ≡ do_deeds plan.now (Deed.PushFrame cpu number frame.now level ∷ starts.take_if_any number.0 lock) parts.old }
{
    parts.push_frame(plan, cpu, number, frame, level);
    take_if_any(plan, parts, number, lock);
}

/// What the start of a callback does is done: what its rank does of its own, and then its frame begins and takes its
/// lock. The frame has the number of the event that comes next.
pub fn start_callback<A: Agent>(
    plan: &IndexedPlan,
    parts: &mut Parts<A>,
    cpu: Cpu,
    callback: Callback,
    object: Handle,
    request: Option<Handle>,
)
    requires number { parts.old.number + 1 < 2 ^ 32 }
    requires doable { AreDoable plan.now (starts.start_deeds plan.now parts.old cpu.0 callback object request) parts.old }
    ensures { parts.new ≡ do_deeds plan.now (starts.start_deeds plan.now parts.old cpu.0 callback object request) parts.old }
{
    let number = FrameId(parts.number() + 1);
    let frame = new_frame(plan, parts, callback, object, request);
    let level = plan.callback_irql(callback, object.id);
    let lock = lock_for(plan, parts, callback, object.id);
    do_effect(plan, parts, cpu, callback, object.id, request);
    begin(plan, parts, cpu, number, &frame, level, lock);
}

/// The result that a step of a sequence gives.
fn end_of_step<A: Agent>(
    plan: &IndexedPlan,
    parts: &Parts<A>,
    callback: Callback,
    o: ObjectId,
    value: Value,
) -> Deed
    ensures { result ∷ [] ≡ starts.end_of_step plan.now parts.now rank.Sequence callback o.0 value }
{
    Deed::EndStep {
        device: parts.tree().device(o),
        step: step_of(plan, parts, callback, o),
        result: value,
    }
}

/// A frame's lock is given back, and the frame is gone.
#[tactic(auto, using(wdf_parts::proofs::InTurn::done_after, wdf_parts::proofs::InTurn::doable_first, wdf_parts::proofs::InTurn::doable_then))]
fn leave<A: Agent>(plan: &IndexedPlan, parts: &mut Parts<A>, cpu: Cpu, lock: Option<LockRef>)
    requires { AreDoable plan.now (starts.release_if_any lock ++ Deed.PopFrame cpu ∷ []) parts.old }
    ensures { parts.new ≡ do_deeds plan.now (starts.release_if_any lock ++ Deed.PopFrame cpu ∷ []) parts.old }
{
    release_if_any(plan, parts, lock);
    parts.pop_frame(cpu);
}

/// The end of the callback of a step: its lock and its frame are gone, and its step gives its result.
fn end_step<A: Agent>(
    plan: &IndexedPlan,
    parts: &mut Parts<A>,
    cpu: Cpu,
    callback: Callback,
    o: ObjectId,
    value: Value,
    lock: Option<LockRef>,
)
    requires { AreDoable plan.now (starts.release_if_any lock ++ Deed.PopFrame cpu ∷ starts.end_of_step plan.now parts.old rank.Sequence callback o.0 value) parts.old }
    ensures { parts.new ≡ do_deeds plan.now (starts.release_if_any lock ++ Deed.PopFrame cpu ∷ starts.end_of_step plan.now parts.old rank.Sequence callback o.0 value) parts.old }
{
    let ended = end_of_step(plan, parts, callback, o, value);
    leave(plan, parts, cpu, lock);
    parts.do_deed(plan, &ended);
}

/// What the end of a callback does is done: its lock and its frame are gone, and a step of a sequence gives its result.
pub fn end_callback<A: Agent>(
    plan: &IndexedPlan,
    parts: &mut Parts<A>,
    cpu: Cpu,
    callback: Callback,
    o: ObjectId,
    value: Value,
)
    requires { AreDoable plan.now (starts.end_deeds plan.now parts.old cpu.0 callback o.0 value) parts.old }
    ensures { parts.new ≡ do_deeds plan.now (starts.end_deeds plan.now parts.old cpu.0 callback o.0 value) parts.old }
{
    let lock = lock_for(plan, parts, callback, o);
    match callback.row().rank {
        Rank::Sequence => end_step(plan, parts, cpu, callback, o, value, lock),
        _ => leave(plan, parts, cpu, lock),
    }
}
