//! Small tests of equality of parts of a plan. Two are one exactly where their variants and fields
//! are.
ghost use Rattle.std.specs.Prelude.{◌≡◌, ◌↔◌, IsTrue};
ghost use Rattle.wdf_base.specs.SamePlan as same;

use crate::declared::{
    Declared, DeviceInfo, DispatchKind, ExecutionLevel, InterruptInfo, QueueInfo, Scope, Serves,
    TargetInfo,
};
use crate::same::same_object_id;

/// Whether the two are one.
pub fn same_scope(a: Scope, b: Scope) -> bool
    ensures value { result ≡ same.same_scope a b }
    ensures exact { IsTrue result ↔ (a ≡ b) }
{
    a == b
}

/// Whether the two are one.
pub fn same_execution_level(a: ExecutionLevel, b: ExecutionLevel) -> bool
    ensures value { result ≡ same.same_execution_level a b }
    ensures exact { IsTrue result ↔ (a ≡ b) }
{
    a == b
}

/// Whether the two are one.
pub fn same_dispatch(a: DispatchKind, b: DispatchKind) -> bool
    ensures value { result ≡ same.same_dispatch a b }
    ensures exact { IsTrue result ↔ (a ≡ b) }
{
    a == b
}

/// Whether the two are one.
pub fn same_serves(a: Serves, b: Serves) -> bool
    ensures value { result ≡ same.same_serves a b }
    ensures exact { IsTrue result ↔ (a ≡ b) }
{
    a == b
}

/// Whether the two declared devices are one.
pub fn same_device(a: &DeviceInfo, b: &DeviceInfo) -> bool
    ensures value { result ≡ same.same_device a.now b.now }
    ensures exact { IsTrue result ↔ (a.now ≡ b.now) }
{
    a == b
}

/// Whether the two declared queues are one.
pub fn same_queue(a: &QueueInfo, b: &QueueInfo) -> bool
    ensures value { result ≡ same.same_queue a.now b.now }
    ensures exact { IsTrue result ↔ (a.now ≡ b.now) }
{
    a.name == b.name
        && same_object_id(a.device, b.device)
        && same_dispatch(a.dispatch, b.dispatch)
        && same_serves(a.serves, b.serves)
        && a.powered == b.powered
        && a.zero == b.zero
        && same_scope(a.scope, b.scope)
        && same_execution_level(a.level, b.level)
}

/// Whether the two declared interrupts are one.
pub fn same_interrupt(a: &InterruptInfo, b: &InterruptInfo) -> bool
    ensures value { result ≡ same.same_interrupt a.now b.now }
    ensures exact { IsTrue result ↔ (a.now ≡ b.now) }
{
    a == b
}

/// Whether the two declared targets are one.
pub fn same_target(a: &TargetInfo, b: &TargetInfo) -> bool
    ensures value { result ≡ same.same_target a.now b.now }
    ensures exact { IsTrue result ↔ (a.now ≡ b.now) }
{
    a == b
}

/// Whether the two are declared as one.
pub fn same_declared(a: &Declared, b: &Declared) -> bool
    ensures value { result ≡ same.same_declared a.now b.now }
    ensures exact { IsTrue result ↔ (a.now ≡ b.now) }
{
    match (a, b) {
        (Declared::Driver, Declared::Driver) => true,
        (Declared::Device(x), Declared::Device(y)) => same_device(x, y),
        (Declared::Queue(x), Declared::Queue(y)) => same_queue(x, y),
        (Declared::Interrupt(x), Declared::Interrupt(y)) => same_interrupt(x, y),
        (Declared::Target(x), Declared::Target(y)) => same_target(x, y),
        (Declared::OfClass(x), Declared::OfClass(y)) => x == y,
        _ => false,
    }
}
