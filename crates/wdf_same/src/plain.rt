//! Equality of ids, enums, values, requests and calls.
ghost use Rattle.std.specs.Prelude.{◌≡◌, ◌↔◌, IsTrue};
ghost use Rattle.wdf_base.specs.Same as same;

use wdf_base::{
    Access, Arg, Ask, Call, CallKind, Cpu, Fault, FrameId, Handle, Kind, Life, LockRef, Mark, Name,
    ObjectId, Place, RequestForm, RequestInfo, Stage, Value,
};

/// Whether the two are one.
pub fn same_cpu(a: Cpu, b: Cpu) -> bool
    ensures value { result ≡ same.same_cpu a b }
    ensures exact { IsTrue result ↔ (a ≡ b) }
{
    a == b
}

/// Whether the two are one.
pub fn same_frame_id(a: FrameId, b: FrameId) -> bool
    ensures value { result ≡ same.same_frame_id a b }
    ensures exact { IsTrue result ↔ (a ≡ b) }
{
    a == b
}

/// Whether the two are one.
pub fn same_kind(a: Kind, b: Kind) -> bool
    ensures value { result ≡ same.same_kind a b }
    ensures exact { IsTrue result ↔ (a ≡ b) }
{
    a == b
}

/// Whether the two are one.
pub fn same_life(a: Life, b: Life) -> bool
    ensures value { result ≡ same.same_life a b }
    ensures exact { IsTrue result ↔ (a ≡ b) }
{
    a == b
}

/// Whether the two are one.
pub fn same_mark(a: Mark, b: Mark) -> bool
    ensures value { result ≡ same.same_mark a b }
    ensures exact { IsTrue result ↔ (a ≡ b) }
{
    a == b
}

/// Whether the two are one.
pub fn same_request_form(a: RequestForm, b: RequestForm) -> bool
    ensures value { result ≡ same.same_request_form a b }
    ensures exact { IsTrue result ↔ (a ≡ b) }
{
    a == b
}

/// Whether the two are one.
pub fn same_call_kind(a: CallKind, b: CallKind) -> bool
    ensures value { result ≡ same.same_call_kind a b }
    ensures exact { IsTrue result ↔ (a ≡ b) }
{
    a == b
}

/// Whether the two are one.
pub fn same_ask(a: Ask, b: Ask) -> bool
    ensures value { result ≡ same.same_ask a b }
    ensures exact { IsTrue result ↔ (a ≡ b) }
{
    a == b
}

/// Whether the two are one.
pub fn same_stage(a: Stage, b: Stage) -> bool
    ensures value { result ≡ same.same_stage a b }
    ensures exact { IsTrue result ↔ (a ≡ b) }
{
    a == b
}

/// Whether the two are one.
pub fn same_access(a: Access, b: Access) -> bool
    ensures value { result ≡ same.same_access a b }
    ensures exact { IsTrue result ↔ (a ≡ b) }
{
    a == b
}

/// Whether the two are one.
pub fn same_fault(a: Fault, b: Fault) -> bool
    ensures value { result ≡ same.same_fault a b }
    ensures exact { IsTrue result ↔ (a ≡ b) }
{
    a == b
}

/// Whether the two names have the same bytes.
pub fn same_name(a: &Name, b: &Name) -> bool
    ensures value { result ≡ same.same_name a.now b.now }
    ensures exact { IsTrue result ↔ (a.now ≡ b.now) }
{
    a.bytes() == b.bytes()
}

/// Whether the two handles are one.
pub fn same_handle(a: Handle, b: Handle) -> bool
    ensures value { result ≡ same.same_handle a b }
    ensures exact { IsTrue result ↔ (a ≡ b) }
{
    a == b
}

/// Whether both are none, or both the same.
pub fn same_option_handle(a: Option<Handle>, b: Option<Handle>) -> bool
    ensures value { result ≡ same.same_option same.same_handle a b }
    ensures exact { IsTrue result ↔ (a ≡ b) }
{
    a == b
}

/// Whether both are none, or both the same.
pub fn same_option_object_id(a: Option<ObjectId>, b: Option<ObjectId>) -> bool
    ensures value { result ≡ same.same_option same.same_object_id a b }
    ensures exact { IsTrue result ↔ (a ≡ b) }
{
    a == b
}

/// Whether the two values are one.
pub fn same_value(a: Value, b: Value) -> bool
    ensures value { result ≡ same.same_value a b }
    ensures exact { IsTrue result ↔ (a ≡ b) }
{
    a == b
}

/// Whether the two places are one.
pub fn same_place(a: Place, b: Place) -> bool
    ensures value { result ≡ same.same_place a b }
    ensures exact { IsTrue result ↔ (a ≡ b) }
{
    a == b
}

/// Whether the two locks are one.
pub fn same_lock(a: LockRef, b: LockRef) -> bool
    ensures value { result ≡ same.same_lock a b }
    ensures exact { IsTrue result ↔ (a ≡ b) }
{
    a == b
}

/// Whether the two infos of requests are one.
pub fn same_request_info(a: &RequestInfo, b: &RequestInfo) -> bool
    ensures value { result ≡ same.same_request_info a.now b.now }
    ensures exact { IsTrue result ↔ (a.now ≡ b.now) }
{
    a == b
}

/// Whether the two arguments are one.
pub fn same_arg(a: Arg, b: Arg) -> bool
    ensures value { result ≡ same.same_arg a b }
    ensures exact { IsTrue result ↔ (a ≡ b) }
{
    a == b
}

/// Whether the two calls are one.
pub fn same_call(a: &Call, b: &Call) -> bool
    ensures value { result ≡ same.same_call a.now b.now }
    ensures exact { IsTrue result ↔ (a.now ≡ b.now) }
{
    same_call_kind(a.kind, b.kind)
        && a.count == b.count
        && same_arg(a.a, b.a)
        && same_arg(a.b, b.b)
        && same_arg(a.c, b.c)
}
