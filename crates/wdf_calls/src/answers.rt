//! What a call answers and does, and the shapes that most rows have.
ghost use Rattle.std.specs.Prelude.{◌≡◌, ◌∷◌, []};
ghost use Rattle.wdf_model.specs.Tables as tables;
ghost use Rattle.wdf_model.specs.rules.Calls as calls;

use wdf_base::{Status, Value};
use wdf_model::Deed;
use wdf_parts::Deeds;

/// What a call answers, and what it does.
#[derive(Drop)]
pub struct Outcome {
    /// The value of the call in the script; of a call that waits, the value that it gets when the wait is
    /// over.
    pub answer: Value,
    /// What the call does to the state; of a call that waits, its first part.
    pub deeds: Deeds,
}

/// A value, with this done.
pub(crate) fn answer(answer: Value, deeds: Deeds) -> Outcome
    ensures answer { result.answer ≡ answer }
    ensures deeds { result.deeds ≡ deeds }
{
    Outcome { answer, deeds }
}

/// A status, with nothing done.
pub(crate) fn refused(status: Status) -> Outcome
    ensures answer { result.answer ≡ (calls.refused status).answer }
    ensures deeds { result.deeds ≡ (calls.refused status).deeds }
{
    answer(Value::Stat(status), Deeds::none())
}

/// SUCCESS, with this done.
pub(crate) fn success(deeds: Deeds) -> Outcome
    ensures answer { result.answer ≡ (calls.success deeds).answer }
    ensures deeds { result.deeds ≡ (calls.success deeds).deeds }
{
    answer(Value::Stat(Status::Success), deeds)
}

/// SUCCESS, with one deed done.
pub(crate) fn does(deed: Deed) -> Outcome
    ensures answer { result.answer ≡ (calls.success (deed ∷ [])).answer }
    ensures deeds { result.deeds ≡ (calls.success (deed ∷ [])).deeds }
{
    success(Deeds::one(deed))
}

/// A number, with this done.
pub(crate) fn number(n: u64, deeds: Deeds) -> Outcome
    ensures answer { result.answer ≡ (calls.number n deeds).answer }
    ensures deeds { result.deeds ≡ (calls.number n deeds).deeds }
{
    answer(Value::Num(n), deeds)
}

/// 1 for true, 0 for false: what a call answers in place of a Boolean.
pub(crate) fn flag(told: bool) -> u64
    ensures { result ≡ tables.flag told }
{
    u64::from(told)
}
