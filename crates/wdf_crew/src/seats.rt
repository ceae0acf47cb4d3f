//! The seats of the workers: made before the run, and joined after it.
ghost use Rattle.std.specs.Prelude.{◌≡◌, ◌-◌, ◌≤◌, ℕ, [], vec_capacity};
ghost use Rattle.wdf_turn.specs.Tokens.{first_token};
ghost use Rattle.wdf_turn.specs.Turns.{IsSeatOf, token, opening};
ghost use Rattle.wdf_crew.specs.Rows.{IsFirst, IsIdleSeat, IsRow};

use wdf_turn::{Chronicle, Seat, Turn};

/// Splits a seat off for each worker but one, whose seat is the first.
pub fn seat_workers<T: Chronicle>(
    turn: &Turn<T>,
    mut first: Seat<T>,
    seats: &mut Vec<Seat<T>>,
    workers: u32,
)
    requires own { IsSeatOf turn.now first }
    requires first { token first ≡ first_token T.events workers (opening turn.now) }
    requires some { 1 ≤ workers }
    requires empty { seats.old.items ≡ [] }
    requires room { workers ≤ vec_capacity seats.old }
    ensures { IsRow turn.now (workers - 1) seats.new.items }
{
    for _made in 1..workers {
        let seat = turn.split(&mut first);
        seats.push_reserved(seat);
    }
    seats.push_reserved(first);
}

/// Joins all other seats into the first.
pub fn join_workers<T: Chronicle>(turn: &Turn<T>, mut seats: Vec<Seat<T>>) -> Seat<T>
    requires { (others : ℕ) × IsRow turn.now others seats.items }
    ensures idle { IsIdleSeat turn.now result }
    ensures first { IsFirst 0 result }
{
    let mut first = seats.pop().unwrap();
    'join: while let Some(seat) = seats.pop() {
        turn.join(seat, &mut first);
    }
    seats.destroy_empty();
    first
}
