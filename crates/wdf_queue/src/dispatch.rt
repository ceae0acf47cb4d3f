//! How the queues present their requests.

ghost use Rattle.std.specs.Prelude.{◌≡◌, ◌+◌, ◌≤◌, Some, IfOk, length, vec_capacity};
ghost use Rattle.wdf_model.specs.Plans.{as_queue};
ghost use Rattle.wdf_model.specs.parts.Queues as queues;

use std::alloc::Global;
use wdf_base::{Declared, DispatchKind, Memory, ObjectId, Plan};

/// Whether a queue presents one more request while so many are held from it. (KMDF: a sequential
/// queue one at a time, a parallel one up to its number, a manual one none of itself)
pub(crate) fn is_free_by(dispatch: DispatchKind, held: u32) -> bool
    ensures { result ≡ queues.is_free_by dispatch held }
{
    match dispatch {
        DispatchKind::Sequential => held == 0,
        DispatchKind::Parallel(most) => u64::from(held) < most,
        DispatchKind::Manual => false,
    }
}

/// How a declared object presents requests; what is no queue, as a manual queue.
fn opening_dispatch(declared: Declared) -> DispatchKind
    ensures { result ≡ queues.opening_dispatch (as_queue (Some declared)) }
{
    match declared {
        Declared::Queue(queue) => queue.dispatch,
        _ => DispatchKind::Manual,
    }
}

/// How the declared objects present requests, by id.
pub(crate) fn opening_dispatches(alloc: Global, plan: &Plan) -> Result<Vec<DispatchKind>, Memory>
    ensures { IfOk result (λ all. all.items ≡ (queues.opening_queues plan.now).dispatch) }
{
    let mut all = Vec::with_capacity(alloc, 1 + plan.declared_len() as usize)?;
    write_dispatches(&mut all, plan);
    Ok(all)
}

/// Writes how the declared objects present requests, by id.
pub(crate) fn write_dispatches(all: &mut Vec<DispatchKind>, plan: &Plan)
    requires { 1 + length plan.now.declared ≤ vec_capacity all.old }
    ensures { all.new.items ≡ (queues.opening_queues plan.now).dispatch }
{
    all.clear();
    all.push_reserved(DispatchKind::Manual);
    for k in 0..plan.declared_len() {
        all.push_reserved(opening_dispatch(plan.declared(ObjectId(k + 1))));
    }
}
