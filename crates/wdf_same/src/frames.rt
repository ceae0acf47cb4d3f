//! Equality of frames and of what they hold.
ghost use Rattle.std.specs.Prelude.{◌≡◌, ◌↔◌, IsTrue, nat_eq};
ghost use Rattle.std.specs.Cmp.Lexicographic.{pointwise};
ghost use Rattle.wdf_base.specs.Same as same;

use crate::plain::{same_call, same_handle, same_option_handle, same_value};
use wdf_base::{Change, Frame, Intent, Pending, VARIABLES, Value, same_callback, same_status};

/// Whether the two waiting calls are one.
pub fn same_pending(a: &Pending, b: &Pending) -> bool
    ensures value { result ≡ same.same_pending a.now b.now }
    ensures exact { IsTrue result ↔ (a.now ≡ b.now) }
{
    same_call(&a.call, &b.call) && same_value(a.answer, b.answer)
}

/// Whether both are none, or both the same.
pub fn same_option_pending(a: Option<Pending>, b: Option<Pending>) -> bool
    ensures value { result ≡ same.same_option same.same_pending a b }
    ensures exact { IsTrue result ↔ (a ≡ b) }
{
    match (a, b) {
        (Some(a), Some(b)) => same_pending(&a, &b),
        (None, None) => true,
        _ => false,
    }
}

/// Whether the two changes of a frame are one.
pub fn same_change(a: Change, b: Change) -> bool
    ensures value { result ≡ same.same_change a b }
    ensures exact { IsTrue result ↔ (a ≡ b) }
{
    a == b
}

/// Whether the two intents are one.
pub fn same_intent(a: &Intent, b: &Intent) -> bool
    ensures value { result ≡ same.same_intent a.now b.now }
    ensures exact { IsTrue result ↔ (a.now ≡ b.now) }
{
    match (a, b) {
        (
            Intent::Local { change, next },
            Intent::Local {
                change: other_change,
                next: other_next,
            },
        ) => { same_change(*change, *other_change) && *next == *other_next }
        (Intent::Log(x), Intent::Log(y)) => { same_value(*x, *y) }
        (Intent::Spend(x), Intent::Spend(y)) => { *x == *y }
        (Intent::Get(x), Intent::Get(y)) => { *x == *y }
        (
            Intent::Put { register, value },
            Intent::Put {
                register: other_register,
                value: other_value,
            },
        ) => { *register == *other_register && *value == *other_value }
        (Intent::Do(x), Intent::Do(y)) => { same_call(x, y) }
        (Intent::Return(x), Intent::Return(y)) => { same_value(*x, *y) }
        (Intent::Broken, Intent::Broken) => true,
        _ => false,
    }
}

/// Whether the variables of two frames are one.
fn same_variables(a: &[Value; VARIABLES], b: &[Value; VARIABLES]) -> bool
    ensures value { result ≡ pointwise same.same_value a.now b.now }
    ensures exact { IsTrue result ↔ (a.now ≡ b.now) }
{
    a == b
}

/// Whether the counters of two frames are one.
fn same_counters(a: &[u32; VARIABLES], b: &[u32; VARIABLES]) -> bool
    ensures value { result ≡ pointwise nat_eq a.now b.now }
    ensures exact { IsTrue result ↔ (a.now ≡ b.now) }
{
    a == b
}

/// Whether the two frames are one.
pub fn same_frame(a: &Frame, b: &Frame) -> bool
    ensures value { result ≡ same.same_frame a.now b.now }
    ensures exact { IsTrue result ↔ (a.now ≡ b.now) }
{
    same_callback(a.callback, b.callback)
        && same_handle(a.object, b.object)
        && same_handle(a.device, b.device)
        && same_option_handle(a.request, b.request)
        && a.length == b.length
        && a.code == b.code
        && same_status(a.status, b.status)
        && a.script == b.script
        && a.at == b.at
        && same_variables(&a.variables, &b.variables)
        && same_counters(&a.counters, &b.counters)
        && a.until == b.until
        && same_option_pending(a.pending, b.pending)
}
