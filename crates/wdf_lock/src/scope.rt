//! Which lock a callback needs, and takes at its start.
ghost use Rattle.std.specs.Prelude.{◌≡◌};
ghost use Rattle.wdf_model.specs.Plans as plans;
ghost use Rattle.wdf_model.specs.parts.Locks as locks;

use wdf_base::{
    Callback, CallbackLock, ClassInfo, Declared, LockRef, ObjectId, Plan, QueueInfo, Scope,
};
use wdf_declared::{class_at, declared_at};

/// The scope lock that a callback on an object needs; None exactly where it needs none. For a
/// declared object its id says which, for one of a class its class. (KMDF: an interrupt's lock is
/// no scope lock)
pub fn scope_of(
    plan: &Plan,
    callback: Callback,
    o: ObjectId,
    declared: Option<Declared>,
) -> Option<LockRef>
    ensures { result ≡ locks.scope_of plan.now callback o.0 declared }
{
    match callback.row().lock {
        CallbackLock::NoLock | CallbackLock::InterruptLock => None,
        CallbackLock::ParentScope => parent_lock(plan, declared),
        CallbackLock::QueueLock => scope_lock(o, declared),
    }
}

/// The lock that a callback takes at its start and gives back at its end; None exactly where there
/// is none. (KMDF: an interrupt's callbacks take its lock, but for EvtInterruptDpc)
pub fn lock_of_callback(
    plan: &Plan,
    callback: Callback,
    o: ObjectId,
    declared: Option<Declared>,
) -> Option<LockRef>
    ensures { result ≡ locks.lock_of_callback plan.now callback o.0 declared }
{
    match callback.row().lock {
        CallbackLock::InterruptLock => Some(LockRef::Object(o)),
        _ => scope_of(plan, callback, o, declared),
    }
}

/// The scope lock that an object's callbacks need: a queue's, or that of a serialized object's
/// parent; None exactly where they need none.
pub fn scope_of_object(plan: &Plan, o: ObjectId, declared: Option<Declared>) -> Option<LockRef>
    ensures { result ≡ locks.scope_of_object plan.now o.0 declared }
{
    match declared {
        Some(Declared::Queue(_)) => scope_lock(o, declared),
        Some(Declared::OfClass(_)) => parent_lock(plan, declared),
        _ => None,
    }
}

/// The scope lock of a device or of a queue.
fn scope_lock(o: ObjectId, declared: Option<Declared>) -> Option<LockRef>
    ensures { result ≡ plans.scope_lock o.0 declared }
{
    match declared {
        Some(Declared::Device(device)) => scope_lock_of_device(o, device.scope),
        Some(Declared::Queue(queue)) => scope_lock_of_queue(o, &queue),
        _ => None,
    }
}

/// A device's lock, where its effective scope is the device.
fn scope_lock_of_device(device: ObjectId, scope: Scope) -> Option<LockRef>
    ensures { result ≡ plans.scope_lock_of_device device.0 scope }
{
    match scope {
        Scope::PerDevice => Some(LockRef::DeviceScope(device)),
        Scope::Unscoped | Scope::PerQueue => None,
    }
}

/// The lock that a queue's effective scope names. (KMDF)
fn scope_lock_of_queue(queue: ObjectId, info: &QueueInfo) -> Option<LockRef>
    ensures { result ≡ plans.scope_lock_of_queue queue.0 info.now info.now.scope }
{
    match info.scope {
        Scope::PerDevice => Some(LockRef::DeviceScope(info.device)),
        Scope::PerQueue => Some(LockRef::QueueScope(queue)),
        Scope::Unscoped => None,
    }
}

/// The lock of an object's parent, where the object's class is serialized. (KMDF)
fn parent_lock(plan: &Plan, declared: Option<Declared>) -> Option<LockRef>
    ensures { result ≡ locks.parent_lock plan.now declared }
{
    match declared {
        Some(Declared::OfClass(class)) => serial_lock(plan, class_at(plan, class)),
        _ => None,
    }
}

/// The scope lock of the parent that a class names, where the class is serialized.
fn serial_lock(plan: &Plan, class: Option<ClassInfo>) -> Option<LockRef>
    ensures { result ≡ plans.serial_lock plan.now class }
{
    match class {
        Some(
            ClassInfo::Deferred {
                parent,
                serialize: true,
                ..
            },
        ) => scope_lock(parent, declared_at(plan, parent)),
        _ => None,
    }
}
