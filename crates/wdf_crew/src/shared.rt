//! A value among workers: it is seated, worked on, and comes out again.
ghost use Rattle.std.specs.Prelude.{◌≡◌, ◌-◌, ◌≤◌, ℕ, IfOk, length};
ghost use mathlib.Core.List.{IsPrefix};
ghost use Rattle.wdf_turn.specs.Turns.{opening};
ghost use Rattle.wdf_crew.specs.Rows.{IsRow};

use crate::advance::Advance;
use crate::seats::{join_workers, seat_workers};
use crate::worker::{Shift, tell_end, work_all};
use std::alloc::Global;
use std::thread::Threads;
use wdf_base::Memory;
use wdf_turn::{Gate, Seat, Turn};

/// Shares a value among workers until their turns are over, and answers what they made of it. The clauses say that it has
/// the same root and that its history begins with the given one. No clause says that a worker had a turn.
///
/// # Errors
///
/// [`Memory`], with the value dropped, where memory for the seats or for the turnstile was refused.
pub fn share<R: Threads + Sync, T: Advance + Send + Drop, G: Gate + Sync>(
    rt: &R,
    alloc: Global,
    value: T,
    shift: Shift,
    gate: &G,
) -> Result<T, Memory>
    ensures root { IfOk result (λ after. T.root after ≡ T.root value) }
    ensures list { IfOk result (λ after. IsPrefix (T.events value) (T.events after)) }
{
    let (turn, seats) = seated(alloc, value, shift.workers())?;
    Ok(worked(rt, turn, seats, shift, gate))
}

/// A turnstile with the value, and a seat for each worker.
///
/// # Errors
///
/// [`Memory`], with the value dropped, where memory for the seats or for the turnstile was refused.
pub fn seated<T: Advance + Drop>(
    alloc: Global,
    value: T,
    workers: u32,
) -> Result<(Turn<T>, Vec<Seat<T>>), Memory>
    requires { 1 ≤ workers }
    ensures opening { IfOk result (λ r. opening r.0 ≡ value) }
    ensures row { IfOk result (λ r. IsRow r.0 (workers - 1) r.1.items) }
{
    let mut seats = Vec::with_capacity(alloc, workers as usize)?;
    match Turn::make(alloc, workers, value) {
        Ok((turn, first)) => {
            seat_workers(&turn, first, &mut seats, workers);
            Ok((turn, seats))
        }
        Err(_) => {
            seats.destroy_empty();
            Err(Memory)
        }
    }
}

/// Has the workers of a row do their turns, and tells the value of their end.
pub fn work_row<R: Threads + Sync, T: Advance + Send, G: Gate + Sync>(
    rt: &R,
    turn: &Turn<T>,
    seats: &mut [Seat<T>],
    shift: Shift,
    gate: &G,
)
    requires { (others : ℕ) × IsRow turn.now others seats.old }
    ensures count { length seats.new ≡ length seats.old }
    ensures row { (others : ℕ) × IsRow turn.now others seats.new }
{
    work_all(rt, turn, seats, shift, gate);
    tell_end(turn, &mut seats[0]);
}

/// What the workers make of the value in all their turns.
pub fn worked<R: Threads + Sync, T: Advance + Send, G: Gate + Sync>(
    rt: &R,
    turn: Turn<T>,
    mut seats: Vec<Seat<T>>,
    shift: Shift,
    gate: &G,
) -> T
    requires { (others : ℕ) × IsRow turn others seats.items }
    ensures root { T.root result ≡ T.root (opening turn) }
    ensures list { IsPrefix (T.events (opening turn)) (T.events result) }
{
    work_row(rt, &turn, seats.as_mut_slice(), shift, gate);
    let first = join_workers(&turn, seats);
    turn.close(first)
}
