//! Objects: how they are made, and their context cells.
ghost use Rattle.std.specs.Prelude.{◌≡◌};
ghost use Rattle.wdf_model.specs.Plans as plans;
ghost use Rattle.wdf_model.specs.rules.Calls as calls;

use crate::answers::{Outcome, answer, refused};
use wdf_base::{Agent, Handle, Kind, ObjectId, Status, Value};
use wdf_model::Deed;
use wdf_parts::{Deeds, Parts};
use wdf_plan_index::IndexedPlan;

/// The object that is made next, of a class.
fn new_handle<A: Agent>(plan: &IndexedPlan, parts: &Parts<A>, class: u16) -> Handle
    ensures { result ≡ calls.new_handle plan.now parts.now class }
{
    Handle {
        id: parts.tree().next_id(),
        name: plan.name_of_class(class),
    }
}

/// How an object of a kind is made. A request is more than an object.
fn creation(kind: Kind, class: u16, parent: ObjectId) -> Deed
    ensures { result ≡ calls.creation kind class parent.0 }
{
    match kind {
        Kind::Made => Deed::MakeRequest { class, parent },
        _ => Deed::Create {
            kind,
            class,
            parent,
        },
    }
}

/// An object of a class is made under a parent. (KMDF: the parent is live; own: there is room among the
/// counted objects)
pub(crate) fn create_outcome<A: Agent>(
    plan: &IndexedPlan,
    parts: &Parts<A>,
    class: u16,
    parent: ObjectId,
) -> Outcome
    ensures answer { result.answer ≡ (calls.create_outcome plan.now parts.now class parent.0).answer }
    ensures deeds { result.deeds ≡ (calls.create_outcome plan.now parts.now class parent.0).deeds }
{
    if !parts.is_live(parent) {
        refused(Status::DeletePending)
    } else if parts.tree().is_full() {
        refused(Status::InsufficientResources)
    } else {
        let handle = new_handle(plan, parts, class);
        let deed = creation(plan.kind_of_class(class), class, parent);
        answer(Value::Obj(handle), Deeds::one(deed))
    }
}

/// An object of a class is made under the parent that the class names. (KMDF)
pub(crate) fn create_as_named<A: Agent>(plan: &IndexedPlan, parts: &Parts<A>, class: u16) -> Outcome
    ensures answer { result.answer ≡ (calls.create_outcome plan.now parts.now class (plans.parent_of_class plan.now class)).answer }
    ensures deeds { result.deeds ≡ (calls.create_outcome plan.now parts.now class (plans.parent_of_class plan.now class)).deeds }
{
    create_outcome(plan, parts, class, plan.parent_of_class(class))
}
