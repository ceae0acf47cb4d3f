//! Objects of JSON, a member at a time. Each step is handed the members so far and hands them on, so that nothing is left to be
//! dropped where memory is refused.
ghost use Rattle.std.specs.Prelude.{◌≡◌, IfOk};
ghost use Rattle.serde_json.specs.Data.{put, number, unsigned, string};
ghost use Rattle.serde_json.specs.View.{view, members_view};

use serde_json::{Map, Value};
use std::alloc::Global;
use wdf_base::Memory;

/// The members of an object so far.
pub(crate) type Members = Map<String, Value>;

/// The members with one more.
pub(crate) fn with(
    alloc: Global,
    members: Members,
    key: &'static str,
    value: Value,
) -> Result<Members, Memory>
    ensures { IfOk result (λ m. members_view m.entries ≡ put key.now (view value) (members_view members.entries)) }
{
    let mut members = members;
    match serde_json::put(&mut members, alloc, key, value) {
        Ok(()) => Ok(members),
        Err(_) => Err(Memory),
    }
}

/// The members with a text more.
pub(crate) fn with_text(
    alloc: Global,
    members: Members,
    key: &'static str,
    text: &str,
) -> Result<Members, Memory>
    ensures { IfOk result (λ m. members_view m.entries ≡ put key.now (string text.now) (members_view members.entries)) }
{
    match Value::try_from_str(alloc, text) {
        Ok(value) => with(alloc, members, key, value),
        Err(_) => Err(Memory),
    }
}

/// The members with a number more.
pub(crate) fn with_number(
    alloc: Global,
    members: Members,
    key: &'static str,
    count: u64,
) -> Result<Members, Memory>
    ensures { IfOk result (λ m. members_view m.entries ≡ put key.now (number (unsigned count)) (members_view members.entries)) }
{
    with(alloc, members, key, Value::from(count))
}
