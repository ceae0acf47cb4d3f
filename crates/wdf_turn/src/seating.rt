//! How a turnstile is made, its seats split and joined, and how it is closed.
ghost use Rattle.std.specs.Prelude.{◌≡◌, ◌≢◌, ◌+◌, ◌<◌, ◌≤◌, ℕ, IfOk, IfErr, length};
ghost use mathlib.Core.List.{IsPrefix};
ghost use Rattle.wdf_turn.specs.declared.token.Hold.TheVariants.{Idle};
ghost use Rattle.wdf_turn.specs.Notes.{IsAccountOf};
ghost use Rattle.wdf_turn.specs.Tokens.{first_token, split_off, new_token, joined, looked};
ghost use Rattle.wdf_turn.specs.Turns.{token, opening, IsSeatOf};

use crate::chronicle::Chronicle;
use crate::held::Refused;
use crate::plays::{Cut, Glue, Look};
use crate::seat::Seat;
use crate::token::Terms;
use crate::turn::{LENGTH, Turn, VALUE};
use atomic_table::Table;
use std::alloc::{AllocFailed, Global};
use std::snapshot::Snapshot;

impl<T: Chronicle> Turn<T> {
    /// A turnstile with this value, for at most `seats` seats, and its first seat.
    ///
    /// # Errors
    ///
    /// The value comes back where there is no memory.
    pub fn make(alloc: Global, seats: u32, value: T) -> Result<(Turn<T>, Seat<T>), Refused<T>>
        requires { 1 ≤ seats }
        ensures own { IfOk result (λ r. IsSeatOf r.0 r.1) }
        ensures opening { IfOk result (λ r. opening r.0 ≡ value) }
        ensures first { IfOk result (λ r. token r.1 ≡ first_token T.events seats value) }
        ensures refused { IfErr result (λ r. r.value ≡ value) }
    {
        let terms = Terms {
            seats,
            opening: Snapshot::of(&value),
        };
        let length = value.length();
        let mut slots = Vec::new(alloc);
        if let Err(AllocFailed { value }) = slots.push(Some(value)) {
            slots.destroy_empty();
            return Err(Refused {
                value: value.unwrap(),
            });
        }
        match Table::new(alloc, &[0, length], slots, &terms) {
            Ok((shelf, place)) => {
                let seat = Seat {
                    place,
                    number: 1,
                    made: 1,
                    seats,
                };
                Ok((Turn { shelf }, seat))
            }
            Err(atomic_table::Refused { mut slots }) => {
                let value = slots.pop().unwrap().unwrap();
                slots.destroy_empty();
                Err(Refused { value })
            }
        }
    }

    /// A new seat, which has seen what this one has.
    pub fn split(&self, seat: &mut Seat<T>) -> Seat<T>
        requires own { IsSeatOf self.now seat.old }
        requires left { (token seat.old).made < (token seat.old).seats }
        ensures own { IsSeatOf self.now seat.new × IsSeatOf self.now result }
        ensures old { token seat.new ≡ split_off (token seat.old) }
        ensures new { token result ≡ new_token (token seat.old) }
    {
        let place = self.shelf.shared.split_seat::<Cut>(&mut seat.place);
        seat.made += 1;
        Seat {
            place,
            number: seat.made,
            made: seat.seats,
            seats: seat.seats,
        }
    }

    /// The first seat takes in what another has seen and done. The other is no seat any more.
    pub fn join(&self, seat: Seat<T>, into: &mut Seat<T>)
        requires own { IsSeatOf self.now seat × IsSeatOf self.now into.old }
        requires idle { ((token seat).number ≢ 1) × ((token seat).hold ≡ Idle) }
        requires first { (token into.old).number ≡ 1 }
        ensures own { IsSeatOf self.now into.new }
        ensures joined { (n : ℕ) × (length (token into.new).seen ≤ n)
            × (token into.new ≡ looked (joined (token into.old) (token seat)) n) }
        ensures seen { IsPrefix (token seat).seen (token into.new).seen
            × IsPrefix (token into.old).seen (token into.new).seen }
    {
        let Seat {
            place,
            number: _,
            made: _,
            seats: _,
        } = seat;
        let shared = &self.shelf.shared;
        shared.join_seat::<Glue>(&mut into.place, place);
        shared.load::<Look>(&mut into.place, LENGTH);
    }

    /// How many events the history has at this moment: at least those that the seat has seen.
    pub fn seen(&self, seat: &mut Seat<T>) -> u64
        requires own { IsSeatOf self.now seat.old }
        ensures own { IsSeatOf self.now seat.new }
        ensures looked { token seat.new ≡ looked (token seat.old) result }
        ensures enough { length (token seat.old).seen ≤ result }
    {
        self.shelf.shared.load::<Look>(&mut seat.place, LENGTH)
    }

    /// The value comes out, once all other seats are joined.
    pub fn close(self, seat: Seat<T>) -> T
        requires own { IsSeatOf self seat }
        requires last { ((token seat).number ≡ 1) × ((token seat).unjoined ≡ 0) }
        requires idle { (token seat).hold ≡ Idle }
        ensures root { T.root result ≡ T.root (opening self) }
        ensures list { IsPrefix (T.events (opening self)) (T.events result) }
        ensures seen { IsPrefix (token seat).seen (T.events result) }
        ensures own { IsAccountOf (length (T.events (opening self))) (T.events result) (token seat).own }
    {
        let Turn { shelf } = self;
        let Seat {
            place,
            number: _,
            made: _,
            seats: _,
        } = seat;
        let mut closed = shelf.close_with(place);
        let value = closed.take(VALUE);
        closed.free();
        value.unwrap()
    }
}
