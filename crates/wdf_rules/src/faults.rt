ghost use Rattle.std.specs.Prelude.{if◌then◌else◌, ◌≡◌, None, Some};
ghost use Rattle.wdf_base.specs.declared.frame.Intent.TheVariants as intent;
ghost use Rattle.wdf_model.specs.rules.Faults as faults;

use crate::arguments::{any_script_error, any_stale, any_wrong_kind};
use crate::groups::{
    forgets_made, gives_up, greatest_level, holds_lock, holds_scope, is_never_deleted,
    is_not_owned, is_stop_of, waits_for_others,
};
use crate::view::View;
use wdf_base::{Call, CallKind, FAULTS, Fault, Intent, LockRef, same_object_id};
use wdf_model::object_in;
use wdf_same::same_call_kind;

/// Whether a fault's row holds of a call.
fn call_faults<V: View>(view: &V, call: &Call, fault: Fault) -> bool
    ensures { result ≡ faults.call_faults (V.seen view.now) call.now fault }
{
    let object = object_in(call.a);
    match fault {
        Fault::StaleHandle => any_stale(view, call),
        Fault::WrongKind => any_wrong_kind(view, call) || forgets_made(view, call),
        Fault::IrqlTooHigh => greatest_level(view, call) < view.irql().0,
        Fault::NotOwned => is_not_owned(view, call, object),
        Fault::CompleteWhileMarked => gives_up(call) && view.mark(object).is_marked(),
        Fault::CompleteBeforeCancelCallback => gives_up(call) && view.mark(object).is_due(),
        Fault::MarkedTwice => {
            same_call_kind(call.kind, CallKind::WdfRequestMarkCancelableEx)
                && (view.mark(object).is_marked() || view.mark(object).is_due())
        }
        Fault::AckOutsideStop => {
            same_call_kind(call.kind, CallKind::WdfRequestStopAcknowledge)
                && (!is_stop_of(view, object) || view.acknowledged(object))
        }
        Fault::NoReferenceHeld => {
            same_call_kind(call.kind, CallKind::WdfObjectDereference)
                && view.references(object) == 0
        }
        Fault::DeleteNotAllowed => {
            same_call_kind(call.kind, CallKind::WdfObjectDelete)
                && is_never_deleted(view.kind(object))
        }
        Fault::LockHeldAlready => {
            call.kind.is_acquire() && holds_lock(view, LockRef::Object(object))
        }
        Fault::LockNotHeld => call.kind.is_release() && !view.by_call(LockRef::Object(object)),
        Fault::ReturnHoldingLock | Fault::HardwareReleased => false,
        Fault::SyncInOwnScope => {
            waits_for_others(call)
                && (same_object_id(view.frame().object.id, object) || holds_scope(view, object))
        }
        Fault::ScriptError => any_script_error(call),
    }
}

/// The fault of a call: the first row of the table that holds, none where none does.
fn fault_of_call<V: View>(view: &V, call: &Call) -> Option<Fault>
    ensures { result ≡ faults.fault_of (V.seen view.now) (intent.Do call.now) }
{
    FAULTS
        .iter()
        .copied()
        .find(|fault| call_faults(view, call, *fault))
}

/// A fault, where it holds.
fn fault_if(fault: Fault, holds: bool) -> Option<Fault>
    ensures { result ≡ (if holds then Some fault else None) }
{
    if holds { Some(fault) } else { None }
}

/// The fault of what a frame is about to do: the first row of the table that holds, none where none
/// does. (The names are own; the rules are KMDF's, but for the script errors.) What isn't a call has one row that
/// can hold, or none.
pub fn fault_of<V: View>(view: &V, intent: &Intent) -> Option<Fault>
    ensures { result ≡ faults.fault_of (V.seen view.now) intent.now }
{
    match intent {
        Intent::Do(call) => fault_of_call(view, call),
        Intent::Return(_) => fault_if(Fault::ReturnHoldingLock, view.held_by_call() > 0),
        Intent::Get(register) => fault_if(Fault::HardwareReleased, !view.hardware(*register)),
        Intent::Put { register, .. } => {
            fault_if(Fault::HardwareReleased, !view.hardware(*register))
        }
        Intent::Broken => Some(Fault::ScriptError),
        Intent::Local { .. } | Intent::Log(_) | Intent::Spend(_) => None,
    }
}
