//! The lines of objects whose deletion hasn't come to its end.
ghost use Rattle.std.specs.Prelude.{◌≡◌, ◌<◌, length, option_map};
ghost use Rattle.wdf_base.specs.declared.wait.Cause.TheVariants as cause;
ghost use Rattle.wdf_model.specs.State.{handle_in};
ghost use Rattle.wdf_model.specs.Tables.{least};
ghost use Rattle.wdf_model.specs.rules.Ready as ready;
ghost use Rattle.wdf_model.specs.rules.Waits as waits;
ghost use Rattle.wdf_waits.specs.Lines as lines;

use wdf_base::{Agent, Callback, Cause, ObjectId, OpenThing, Place, WaitLine};
use wdf_causes::{
    DISPATCH_LEVEL, PASSIVE_LEVEL, by_frame, least_lock_holder, least_on, least_waiting_for, no_cpu,
};
use wdf_maps::lesser_if;
use wdf_parts::Parts;
use wdf_plan_index::IndexedPlan;
use wdf_starts::{clean_ready, destroy_ready};

/// Whether the deletion of an object is asked and hasn't come to its end.
pub(crate) fn is_leaving<A: Agent>(parts: &Parts<A>, o: ObjectId) -> bool
    ensures { result ≡ ready.is_leaving parts.now o.0 }
{
    parts.tree().life(o).is_asked() || parts.tree().life(o).is_cleaned()
}

/// The driver holds references to an object that is cleaned up.
fn references_cause<A: Agent>(parts: &Parts<A>, o: ObjectId) -> Option<Cause>
    ensures { result ≡ waits.references_cause parts.now o.0 }
{
    let count = parts.tree().references(o);
    if parts.tree().life(o).is_cleaned() && 0 < count {
        Some(Cause::References { count })
    } else {
        None
    }
}

#[tactic(auto, using(crate::proofs::Sections::children_go_first))]
/// The least of the objects that have to go before this one.
fn least_child<A: Agent>(parts: &Parts<A>, o: ObjectId) -> Option<u32>
    requires { o.0 < length parts.now.tree.nodes }
    ensures { result ≡ least (waits.children_first parts.now o.0) }
{
    parts.tree().goes_first(o).map(|child| child.0)
}

/// A child of this object, or a younger sibling, has to go first.
fn child_cause<A: Agent>(plan: &IndexedPlan, parts: &Parts<A>, o: ObjectId) -> Option<Cause>
    requires { o.0 < length parts.now.tree.nodes }
    ensures { result ≡ option_map (λ x. cause.ByChild (handle_in plan.now parts.now x)) (least (waits.children_first parts.now o.0)) }
{
    match least_child(parts, o) {
        Some(child) => Some(Cause::ByChild {
            child: parts.handle_in(plan, ObjectId(child)),
        }),
        None => None,
    }
}

#[tactic(auto, using(wdf_maps::proofs::Leasts::least_append))]
/// The least frame that runs on an object, holds its lock or waits for it.
fn least_user<A: Agent>(parts: &Parts<A>, o: ObjectId) -> Option<u32>
    ensures { result ≡ least (waits.users parts.now o.0) }
{
    let on = least_on(parts, o);
    let holder = least_lock_holder(parts, o);
    let waiting = least_waiting_for(parts, o);
    lesser_if(lesser_if(on, holder), waiting)
}

/// The least frame that keeps an object: of one that is cleaned up only those that run on it.
fn least_user_that_keeps<A: Agent>(parts: &Parts<A>, o: ObjectId) -> Option<u32>
    ensures { result ≡ least (waits.users_that_keep parts.now o.0) }
{
    if parts.tree().life(o).is_cleaned() {
        least_on(parts, o)
    } else {
        least_user(parts, o)
    }
}

/// Whether the cleanup callback of an object could start, but for a processor.
fn cleanup_ready<A: Agent>(plan: &IndexedPlan, parts: &Parts<A>, o: ObjectId) -> bool
    ensures { result ≡ lines.cleanup_ready plan.now parts.now o.0 }
{
    clean_ready(parts, o)
        && parts.declares_in(plan, Callback::EvtCleanupCallback, o)
        && !parts.tree().started(o, Callback::EvtCleanupCallback)
}

/// Whether the destroy callback of an object could start, but for a processor.
fn end_ready<A: Agent>(plan: &IndexedPlan, parts: &Parts<A>, o: ObjectId) -> bool
    ensures { result ≡ lines.end_ready plan.now parts.now o.0 }
{
    destroy_ready(parts, o)
        && parts.declares_in(plan, Callback::EvtDestroyCallback, o)
        && !parts.tree().started(o, Callback::EvtDestroyCallback)
}

/// Whether no processor is left for the cleanup or the destroy callback of an object.
fn no_cpu_for_end<A: Agent>(plan: &IndexedPlan, parts: &Parts<A>, o: ObjectId) -> bool
    ensures { result ≡ lines.no_cpu_for_end plan.now parts.now o.0 }
{
    (cleanup_ready(plan, parts, o) || end_ready(plan, parts, o))
        && no_cpu(plan, parts, PASSIVE_LEVEL)
}

/// Whether no processor is left for the completion routine of a request.
fn no_cpu_for_routine<A: Agent>(plan: &IndexedPlan, parts: &Parts<A>, o: ObjectId) -> bool
    ensures { result ≡ lines.no_cpu_for_routine plan.now parts.now o.0 }
{
    parts.targets().routine_due(o).is_some() && no_cpu(plan, parts, DISPATCH_LEVEL)
}

/// Whether no processor is left for a callback of an object, or for the completion routine of a request.
fn object_cpus<A: Agent>(plan: &IndexedPlan, parts: &Parts<A>, o: ObjectId) -> bool
    ensures { result ≡ waits.object_cpus plan.now parts.now o.0 }
{
    no_cpu_for_end(plan, parts, o) || no_cpu_for_routine(plan, parts, o)
}

/// A request is at a target that isn't done with it.
fn at_target<A: Agent>(plan: &IndexedPlan, parts: &Parts<A>, o: ObjectId) -> Option<Cause>
    ensures { result ≡ waits.at_target plan.now parts.now o.0 }
{
    if !parts.targets().is_undone(o) {
        return None;
    }
    match parts.requests().place(o) {
        Place::Sent(t) => Some(Cause::AtTarget {
            target: parts.handle_in(plan, t),
        }),
        _ => None,
    }
}

/// Why an object doesn't come to its end.
fn object_cause<A: Agent>(plan: &IndexedPlan, parts: &Parts<A>, o: ObjectId) -> Option<Cause>
    requires { o.0 < length parts.now.tree.nodes }
    ensures { result ≡ waits.object_cause plan.now parts.now o.0 }
{
    if let Some(references) = references_cause(parts, o) {
        return Some(references);
    }
    if let Some(child) = child_cause(plan, parts, o) {
        return Some(child);
    }
    if let Some(user) = by_frame(least_user_that_keeps(parts, o)) {
        return Some(user);
    }
    if object_cpus(plan, parts, o) {
        return Some(Cause::NoCpu);
    }
    at_target(plan, parts, o)
}

/// The line of an object.
pub(crate) fn object_line<A: Agent>(plan: &IndexedPlan, parts: &Parts<A>, o: ObjectId) -> WaitLine
    requires { o.0 < length parts.now.tree.nodes }
    ensures { result ≡ waits.object_line plan.now parts.now o.0 }
{
    WaitLine {
        thing: OpenThing::Leaving {
            object: parts.handle_in(plan, o),
        },
        cause: object_cause(plan, parts, o),
    }
}
