//! Equality of the lines of a wait list.
ghost use Rattle.std.specs.Prelude.{◌≡◌, ◌↔◌, IsTrue};
ghost use Rattle.wdf_base.specs.Same as same;

use wdf_base::{Cause, OpenThing, WaitLine};

/// Whether the two open things are one.
pub fn same_open_thing(a: &OpenThing, b: &OpenThing) -> bool
    ensures value { result ≡ same.same_open_thing a.now b.now }
    ensures exact { IsTrue result ↔ (a.now ≡ b.now) }
{
    a == b
}

/// Whether the two causes are one.
pub fn same_cause(a: &Cause, b: &Cause) -> bool
    ensures value { result ≡ same.same_cause a.now b.now }
    ensures exact { IsTrue result ↔ (a.now ≡ b.now) }
{
    a == b
}

/// Whether both are none, or both the same.
pub fn same_option_cause(a: Option<Cause>, b: Option<Cause>) -> bool
    ensures value { result ≡ same.same_option same.same_cause a b }
    ensures exact { IsTrue result ↔ (a ≡ b) }
{
    a == b
}

/// Whether the two lines of a wait list are one.
pub fn same_wait_line(a: &WaitLine, b: &WaitLine) -> bool
    ensures value { result ≡ same.same_wait_line a.now b.now }
    ensures exact { IsTrue result ↔ (a.now ≡ b.now) }
{
    same_open_thing(&a.thing, &b.thing) && same_option_cause(a.cause, b.cause)
}
