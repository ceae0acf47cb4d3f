//! What the plan says of the names in a post.
ghost use Rattle.std.specs.Prelude.{◌≡◌, ◌==◌, ◌&&◌, Some, option_map};
ghost use Rattle.wdf_base.specs.Kinds.{declared_kind};
ghost use Rattle.wdf_base.specs.Plan.{declared_of};
ghost use Rattle.wdf_base.specs.Resolved as resolved;
ghost use Rattle.wdf_base.specs.Same as same;
ghost use Rattle.wdf_base.specs.declared.object.Kind.TheVariants as kind;

use wdf_base::{Action, Declared, Handle, Kind, ObjectId};
use wdf_plan_index::IndexedPlan;
use wdf_same::same_kind;

/// Whether a handle is that of a declared object of this kind, with its name.
pub(crate) fn is_handle(plan: &IndexedPlan, kind: Kind, object: Handle) -> bool
    ensures { result ≡ resolved.is_handle plan.now kind object }
{
    match plan.declared(object.id) {
        Some(declared) => is_of_kind(declared, kind) && declared.has_name(object.name),
        None => false,
    }
}

/// Whether a declared object is of this kind; its class says that of an object of a class.
fn is_of_kind(declared: Declared, kind: Kind) -> bool
    ensures { result ≡ same.same_option same.same_kind (declared_kind declared) (Some kind) }
{
    match declared.kind() {
        Some(other) => same_kind(other, kind),
        None => false,
    }
}

/// Whether both are none, or both the same device.
fn is_same_device(a: Option<ObjectId>, b: Option<ObjectId>) -> bool
    ensures { result ≡ same.same_option ◌==◌ (option_map (λ o. o.0) a) (option_map (λ o. o.0) b) }
{
    match (a, b) {
        (Some(a), Some(b)) => a.0 == b.0,
        (None, None) => true,
        _ => false,
    }
}

/// The device of a register, if there is such a register.
fn device_of_register(plan: &IndexedPlan, register: u32) -> Option<ObjectId>
    ensures { option_map (λ o. o.0) result ≡ resolved.device_of_register plan.now register }
{
    let plan = plan.plan();
    if register < plan.register_len() {
        Some(plan.register(register).device)
    } else {
        None
    }
}

/// The device of an interrupt, if it is one.
fn device_of_interrupt(declared: Option<Declared>) -> Option<ObjectId>
    ensures { option_map (λ o. o.0) result ≡ resolved.device_of_interrupt declared }
{
    match declared {
        Some(Declared::Interrupt(interrupt)) => Some(interrupt.device),
        _ => None,
    }
}

/// Whether an interrupt is one of this device.
fn is_own_interrupt(plan: &IndexedPlan, device: Option<ObjectId>, interrupt: Handle) -> bool
    ensures { result ≡ (resolved.is_handle plan.now kind.Interrupt interrupt && same.same_option ◌==◌ (resolved.device_of_interrupt (declared_of plan.now interrupt.id.0)) (option_map (λ o. o.0) device)) }
{
    is_handle(plan, Kind::Interrupt, interrupt)
        && is_same_device(device_of_interrupt(plan.declared(interrupt.id)), device)
}

/// Whether an action is one of this device: on its own registers and level lines. (own)
pub(crate) fn action_fits(plan: &IndexedPlan, device: Option<ObjectId>, action: Action) -> bool
    ensures { result ≡ resolved.action_fits plan.now (option_map (λ o. o.0) device) action }
{
    match action {
        Action::Set { register, .. } => {
            device.is_some() && is_same_device(device_of_register(plan, register), device)
        }
        Action::Raise { interrupt } | Action::Lower { interrupt } => {
            is_own_interrupt(plan, device, interrupt)
        }
    }
}
