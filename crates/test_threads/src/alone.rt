//! Nobody is in the way of a seat that is alone.
ghost use Rattle.std.specs.Prelude.{◌≡◌};
ghost use Rattle.wdf_turn.specs.declared.token.Hold.TheVariants.{Idle};
ghost use Rattle.wdf_turn.specs.Turns.{token, IsSeatOf, IsHeldBy, value_of, taken_value};

use wdf_turn::{Attempt, Chronicle, Held, Seat, Turn};

/// The first seat, before it is split, takes the value at its first try.
pub fn take_alone<T: Chronicle>(turn: &Turn<T>, seat: &mut Seat<T>) -> Held<T>
    requires own { IsSeatOf turn.now seat.old }
    requires idle { (token seat.old).hold ≡ Idle }
    requires alone { ((token seat.old).number ≡ 1) × ((token seat.old).made ≡ 1) }
    ensures own { IsSeatOf turn.now seat.new }
    ensures held { IsHeldBy T.root T.events turn.now seat.new result }
    ensures value { value_of result ≡ taken_value result }
{
    match turn.try_take(seat) {
        Attempt::Taken(held) => held,
        Attempt::Busy(_) => unreachable!(),
    }
}
