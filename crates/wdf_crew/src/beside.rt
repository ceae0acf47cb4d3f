//! The workers beside other work.
ghost use Rattle.std.specs.Prelude.{◌≡◌, ℕ, length};
ghost use Rattle.std.specs.Thread.{IsSend, IsSync};
ghost use mathlib.Core.List.{IsPrefix};
ghost use Rattle.wdf_crew.specs.Calls.{ChangesItems, TakesItems};
ghost use Rattle.wdf_crew.specs.Rows.{IsRow};
ghost use Rattle.wdf_turn.specs.Turns.{opening};

use crate::advance::Advance;
use crate::seats::join_workers;
use crate::shared::work_row;
use crate::worker::Shift;
use std::thread::{Threads, join_mut};
use wdf_turn::{Gate, Seat, Turn};

/// What the workers make of the value in all their turns, and beside them another call, until both have ended.
pub fn worked_beside<
    R: Threads + Sync,
    T: Advance + Send,
    G: Gate + Sync,
    F: FnMut() -> B + Send,
    B: Send,
>(rt: &R, turn: Turn<T>, mut seats: Vec<Seat<T>>, shift: Shift, gate: &G, other: &mut F) -> (T, B)
    requires row { (others : ℕ) × IsRow turn others seats.items }
    requires may { F.pre other.old }
    ensures root { T.root result.0 ≡ T.root (opening turn) }
    ensures list { IsPrefix (T.events (opening turn)) (T.events result.0) }
    ensures other { F.step other.old result.1 other.new }
{
    let made = row_beside(rt, &turn, seats.as_mut_slice(), shift, gate, other);
    let first = join_workers(&turn, seats);
    (turn.close(first), made)
}

/// Has the workers of a row do their turns, and beside them makes another call, until both have ended.
fn row_beside<
    R: Threads + Sync,
    T: Advance + Send,
    G: Gate + Sync,
    F: FnMut() -> B + Send,
    B: Send,
>(rt: &R, turn: &Turn<T>, seats: &mut [Seat<T>], shift: Shift, gate: &G, other: &mut F) -> B
    requires row { (others : ℕ) × IsRow turn.now others seats.old }
    requires may { F.pre other.old }
    ensures count { length seats.new ≡ length seats.old }
    ensures row { (others : ℕ) × IsRow turn.now others seats.new }
    ensures other { F.step other.old result other.new }
{
    let work = |seats: &mut [Seat<T>]|
        requires bounds { IsSync R.row × IsSend T.row × IsSync G.row }
        requires row { (others : ℕ) × IsRow turn.now others seats.now }
        ensures count { length seats.exit.now ≡ length seats.entry.now }
        ensures row { (others : ℕ) × IsRow turn.entry.now others seats.exit.now }
    { work_row(rt, turn, seats, shift, gate) };
    both(rt, other, &work, seats)
}

/// Makes two calls beside one another. Where no thread can be made, the first one is made last.
fn both<R: Threads, F: FnMut() -> B + Send, B: Send, X, H: Fn(&mut [X])>(
    rt: &R,
    other: &mut F,
    work: &H,
    items: &mut [X],
) -> B
    requires may { F.pre other.old }
    requires work { TakesItems H.Fn work.now items.old }
    ensures other { F.step other.old result other.new }
    ensures work { ChangesItems H.Fn work.now items.old items.new }
{
    let (made, ()) = join_mut(
        rt,
        other,
        &mut ||
            requires { TakesItems H.Fn work.now items.now }
            ensures { ChangesItems H.Fn work.entry.now items.entry.now items.exit.now }
        { call_at(work, items) },
    );
    made
}

/// Makes the call on the items.
fn call_at<X, H: Fn(&mut [X])>(work: &H, items: &mut [X])
    requires { TakesItems H.Fn work.now items.old }
    ensures { ChangesItems H.Fn work.now items.old items.new }
{
    work(items);
}
