ghost use Rattle.std.specs.Prelude.{◌≡◌, slice_get};
ghost use Rattle.wdf_base.specs.Plan.{declared_of};
ghost use Rattle.wdf_model.specs.Plans as plans;

use wdf_base::{
    Callback, ClassInfo, Declared, DeviceInfo, InterruptInfo, ObjectId, Plan, QueueInfo, TargetInfo,
};

/// What is declared under an id: `None` for the id 0, and for one that is past the declared ones.
pub fn declared_at(plan: &Plan, o: ObjectId) -> Option<Declared>
    ensures { result ≡ declared_of plan.now o.0 }
{
    if o.0 == 0 {
        None
    } else {
        plan.declared.as_slice().get(o.0 as usize - 1).copied()
    }
}

/// The device with this id; `None` where no device has it.
pub fn device_of(plan: &Plan, o: ObjectId) -> Option<DeviceInfo>
    ensures { result ≡ plans.device_of plan.now o.0 }
{
    match declared_at(plan, o) {
        Some(Declared::Device(device)) => Some(device),
        _ => None,
    }
}

/// The queue with this id; `None` where no queue has it.
pub fn queue_of(plan: &Plan, o: ObjectId) -> Option<QueueInfo>
    ensures { result ≡ plans.queue_of plan.now o.0 }
{
    match declared_at(plan, o) {
        Some(Declared::Queue(queue)) => Some(queue),
        _ => None,
    }
}

/// The interrupt with this id; `None` where no interrupt has it.
pub fn interrupt_of(plan: &Plan, o: ObjectId) -> Option<InterruptInfo>
    ensures { result ≡ plans.interrupt_of plan.now o.0 }
{
    match declared_at(plan, o) {
        Some(Declared::Interrupt(interrupt)) => Some(interrupt),
        _ => None,
    }
}

/// The target with this id; `None` where no target has it.
pub fn target_of(plan: &Plan, o: ObjectId) -> Option<TargetInfo>
    ensures { result ≡ plans.target_of plan.now o.0 }
{
    match declared_at(plan, o) {
        Some(Declared::Target(target)) => Some(target),
        _ => None,
    }
}

/// The class with a number, if there is one.
pub fn class_at(plan: &Plan, class: u16) -> Option<ClassInfo>
    ensures { result ≡ slice_get plan.now.classes class }
{
    plan.classes.as_slice().get(usize::from(class)).copied()
}

/// The number of the name of a class; 0 for what is none.
pub fn name_of_class(plan: &Plan, class: u16) -> u32
    ensures { result ≡ plans.name_of_class plan.now class }
{
    match class_at(plan, class) {
        Some(info) => info.name(),
        None => 0,
    }
}

/// The parent that a class names; the id 0 where the call that makes the object names it, and for what is no class.
pub fn parent_of_class(plan: &Plan, class: u16) -> ObjectId
    ensures { result.0 ≡ plans.parent_of_class plan.now class }
{
    match class_at(plan, class) {
        Some(ClassInfo::Deferred { parent, .. }) => parent,
        _ => ObjectId(0),
    }
}

/// Whether a declared object declares a callback. It looks through the plan's scripts.
pub fn declares(plan: &Plan, callback: Callback, o: ObjectId) -> bool
    ensures { result ≡ plans.declares plan.now callback o.0 }
{
    match declared_at(plan, o) {
        Some(object) => plan.script(callback, object).is_some(),
        None => false,
    }
}
