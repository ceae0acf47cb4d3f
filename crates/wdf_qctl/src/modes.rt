//! What a mode says, and the opening of the queues.

ghost use Rattle.std.specs.Prelude.{◌≡◌, ◌+◌, ◌≤◌, Some, IfOk, length, vec_capacity};
ghost use Rattle.wdf_model.specs.Plans.{as_queue};
ghost use Rattle.wdf_model.specs.parts.Control as control;

use std::alloc::Global;
use wdf_base::{Declared, Memory, ObjectId, Plan};
use wdf_model::{Mode, QueueControl};

/// The control of what is no queue.
pub(crate) const NO_CONTROL: QueueControl = QueueControl {
    device: ObjectId(0),
    mode: Mode::Purged,
    registered: false,
    due: false,
};

/// Whether a queue of this mode takes new requests. (KMDF: in Started and Stopped)
pub(crate) fn accepts_in(mode: Mode) -> bool
    ensures { result ≡ control.accepts_in mode }
{
    match mode {
        Mode::Started | Mode::Stopped => true,
        Mode::Drained | Mode::Purged => false,
    }
}

/// Whether a queue of this mode presents requests. (KMDF: in Started and Drained)
pub fn delivers_in(mode: Mode) -> bool
    ensures { result ≡ control.delivers_in mode }
{
    match mode {
        Mode::Started | Mode::Drained => true,
        Mode::Stopped | Mode::Purged => false,
    }
}

/// The control of a declared object at the opening.
fn opening_mode(declared: Declared) -> QueueControl
    ensures { result ≡ control.opening_mode (as_queue (Some declared)) }
{
    match declared {
        Declared::Queue(queue) => QueueControl {
            device: queue.device,
            mode: Mode::Started,
            registered: false,
            due: false,
        },
        _ => NO_CONTROL,
    }
}

/// The controls at the opening, by id.
pub(crate) fn opening_controls(alloc: Global, plan: &Plan) -> Result<Vec<QueueControl>, Memory>
    ensures { IfOk result (λ all. all.items ≡ (control.opening_control plan.now).controls) }
{
    let mut all = Vec::with_capacity(alloc, 1 + plan.declared_len() as usize)?;
    write_controls(&mut all, plan);
    Ok(all)
}

/// Writes the controls at the opening, by id.
pub(crate) fn write_controls(all: &mut Vec<QueueControl>, plan: &Plan)
    requires { 1 + length plan.now.declared ≤ vec_capacity all.old }
    ensures { all.new.items ≡ (control.opening_control plan.now).controls }
{
    all.clear();
    all.push_reserved(NO_CONTROL);
    for k in 0..plan.declared_len() {
        all.push_reserved(opening_mode(plan.declared(ObjectId(k + 1))));
    }
}
