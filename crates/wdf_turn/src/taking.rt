//! How a seat takes the value and gives it back.
ghost use Rattle.std.specs.Prelude.{◌≡◌};
ghost use Rattle.wdf_turn.specs.declared.token.Hold.TheVariants.{Idle};
ghost use Rattle.wdf_turn.specs.Tokens.{given, IsGrown};
ghost use Rattle.wdf_turn.specs.Turns.{token, IsSeatOf, IsHeldBy, Answers, value_of, taken_value};

use crate::chronicle::Chronicle;
use crate::held::{Attempt, Held};
use crate::plays::{LetGo, Record, Try};
use crate::seat::Seat;
use crate::turn::{HOLDER, LENGTH, Turn, VALUE};
use std::snapshot::Snapshot;

impl<T: Chronicle> Turn<T> {
    /// Tries once to take the value. It is busy only where this try found the number of another
    /// seat, which held it.
    pub fn try_take(&self, seat: &mut Seat<T>) -> Attempt<T>
        requires own { IsSeatOf self.now seat.old }
        requires idle { (token seat.old).hold ≡ Idle }
        ensures own { IsSeatOf self.now seat.new }
        ensures answers { Answers T.root T.events self.now seat.old seat.new result }
    {
        let shared = &self.shelf.shared;
        let number = u64::from(seat.number);
        let found = shared.compare_exchange::<Try>(&mut seat.place, HOLDER, 0, number);
        if found != 0 {
            return Attempt::Busy(found as u32);
        }
        let value = shared.exchange(&mut seat.place, VALUE, None).unwrap();
        Attempt::Taken(Held {
            number: seat.number,
            length: value.length(),
            taken: Snapshot::of(&value),
            value,
        })
    }

    /// Gives the value back. Its history is the one from now on.
    pub fn give(&self, seat: &mut Seat<T>, held: Held<T>)
        requires own { IsSeatOf self.now seat.old }
        requires taken { IsHeldBy T.root T.events self.now seat.old held }
        requires root { T.root (value_of held) ≡ T.root (taken_value held) }
        requires grown { IsGrown (T.events (taken_value held)) (T.events (value_of held)) }
        ensures own { IsSeatOf self.now seat.new }
        ensures given { token seat.new ≡ given (token seat.old) (T.events (taken_value held)) (T.events (value_of held)) }
    {
        let Held {
            number: _,
            value,
            length,
            taken: _taken,
        } = held;
        let shared = &self.shelf.shared;
        let after = value.length();
        let full = Some(value);
        shared.compare_exchange_with::<Record>(&mut seat.place, LENGTH, length, after, &full);
        let empty = shared.exchange(&mut seat.place, VALUE, full);
        let None = empty else { unreachable!() };
        shared.store::<LetGo>(&mut seat.place, HOLDER, 0);
    }
}
