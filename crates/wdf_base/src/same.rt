//! The tests of equality that the plan's look-ups need.
//!
//! # Choices
//!
//! - **How is equality of an enum without fields defined?** By the place of the variant, as the language compares it
//!   (`sameb` of the enum's own type). For structs and enums with fields: field by field, by cases. Each test is a
//!   definition into Bool with a function of the same name, which ensures both that it computes this and that it is
//!   true exactly where the two are equal.
ghost use Rattle.std.specs.Prelude.{◌≡◌, ◌↔◌, IsTrue};
ghost use Rattle.wdf_base.specs.Same as same;

use crate::{Callback, Irql, ObjectId, Status};

/// Whether the two are one.
pub fn same_object_id(a: ObjectId, b: ObjectId) -> bool
    ensures value { result ≡ same.same_object_id a b }
    ensures exact { IsTrue result ↔ (a ≡ b) }
{
    a == b
}

/// Whether the two are one.
pub fn same_irql(a: Irql, b: Irql) -> bool
    ensures value { result ≡ same.same_irql a b }
    ensures exact { IsTrue result ↔ (a ≡ b) }
{
    a == b
}

/// Whether the two are one.
pub fn same_status(a: Status, b: Status) -> bool
    ensures value { result ≡ same.same_status a b }
    ensures exact { IsTrue result ↔ (a ≡ b) }
{
    a == b
}

/// Whether the two are one.
pub fn same_callback(a: Callback, b: Callback) -> bool
    ensures value { result ≡ same.same_callback a b }
    ensures exact { IsTrue result ↔ (a ≡ b) }
{
    a == b
}
