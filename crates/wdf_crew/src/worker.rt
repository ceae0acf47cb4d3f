//! What a worker does.
ghost use Rattle.std.specs.Prelude.{◌≡◌, ◌+◌, ◌<◌, ℕ, All, length, slice_index_or};
ghost use Rattle.wdf_crew.specs.Rows.{IsIdleSeat, IsSameSeat};

use crate::advance::{Advance, Progress};
use crate::crew::{Crew, crew_of};
use std::thread;
use std::thread::Threads;
use wdf_turn::{Attempt, Gate, Seat, Turn};

/// What all workers of a run know: how many processors the machine has, and how many turns each has.
#[derive(Clone, Copy, Debug)]
pub struct Shift {
    /// How many processors the machine has.
    pub processors: u8,
    /// How many turns each worker has.
    pub turns: u32,
}

impl Shift {
    /// How many workers the run has: one for each processor, one for the framework and the clock, and one for all agents.
    pub fn workers(self) -> u32
        ensures { result ≡ self.processors + 2 }
    {
        u32::from(self.processors) + 2
    }
}

/// How often, at most, a worker whose turn added nothing looks whether the history has grown, before its next turn.
const LOOKS: u32 = 100;

/// The same for a worker that didn't get the value: who has it gives it back soon, and it may be that nobody else can go on.
const BUSY_LOOKS: u32 = 61;

/// After so many turns that found nothing to add, and in which nobody added anything, a worker leaves in the next. What it
/// leaves, the caller does.
const VAIN_TURNS: u32 = 32;

/// A turn: one try to take the value, one event at most, and the value goes back. `None` where another worker has it.
fn take_turn<T: Advance>(turn: &Turn<T>, seat: &mut Seat<T>, crew: Crew) -> Option<Progress>
    requires { IsIdleSeat turn.now seat.old }
    ensures idle { IsIdleSeat turn.now seat.new }
    ensures same { IsSameSeat seat.old seat.new }
{
    match turn.try_take(seat) {
        Attempt::Busy(_) => None,
        Attempt::Taken(mut held) => {
            let progress = held.value_mut().advance(crew);
            turn.give(seat, held);
            Some(progress)
        }
    }
}

/// Lets other threads run until the history is longer than this, and answers true; false where it was looked at that often
/// in vain. So a worker that has nothing to do keeps the value from no other, and uses its turns up slowly. No clause
/// says that it looks.
fn await_growth<T: Advance, G: Gate>(
    turn: &Turn<T>,
    seat: &mut Seat<T>,
    length: u64,
    looks: u32,
    gate: &G,
) -> bool
    requires { IsIdleSeat turn.now seat.old }
    ensures idle { IsIdleSeat turn.now seat.new }
    ensures same { IsSameSeat seat.old seat.new }
{
    for look in 0..looks {
        gate.rest(look);
        if turn.seen(seat) > length {
            return true;
        }
    }
    false
}

/// A turn, and after one that added nothing the wait for the next. It comes to `Added` where the history has grown, by
/// this worker or by another; and to `None` where it hasn't, and the worker didn't get the value.
fn turn_and_wait<T: Advance, G: Gate>(
    turn: &Turn<T>,
    seat: &mut Seat<T>,
    crew: Crew,
    gate: &G,
) -> Option<Progress>
    requires { IsIdleSeat turn.now seat.old }
    ensures idle { IsIdleSeat turn.now seat.new }
    ensures same { IsSameSeat seat.old seat.new }
{
    let length = turn.seen(seat);
    let progress = take_turn(turn, seat, crew);
    let looks = match progress {
        None => BUSY_LOOKS,
        Some(Progress::Waits) => LOOKS,
        Some(_) => return progress,
    };
    if await_growth(turn, seat, length, looks, gate) {
        Some(Progress::Added)
    } else {
        progress
    }
}

/// All turns of a worker, or fewer: it leaves where nothing may follow any more, or where nobody has added anything for
/// so many of its turns. It passes the gate before each. The clauses say only that its seat is idle again, and the same.
fn work<T: Advance, G: Gate>(
    turn: &Turn<T>,
    seat: &mut Seat<T>,
    worker: usize,
    shift: Shift,
    gate: &G,
)
    requires { IsIdleSeat turn.now seat.old }
    ensures idle { IsIdleSeat turn.now seat.new }
    ensures same { IsSameSeat seat.old seat.new }
{
    let crew = crew_of(worker, shift.processors);
    let number = u32::try_from(worker).unwrap_or(u32::MAX);
    let mut vain = 0;
    for k in 0..shift.turns {
        gate.pass(number, k);
        match turn_and_wait(turn, seat, crew, gate) {
            Some(Progress::Added) => vain = 0,
            Some(Progress::Waits) if vain < VAIN_TURNS => vain += 1,
            None => {}
            Some(_) => return,
        }
    }
}

/// How often, at most, the value is tried for when it has to hear of the end. No worker has it then, so the first try is
/// the last; no clause says so.
const LAST_TRIES: u32 = u32::MAX;

/// Tells the value that the workers have had all their turns.
pub fn tell_end<T: Advance>(turn: &Turn<T>, seat: &mut Seat<T>)
    requires { IsIdleSeat turn.now seat.old }
    ensures idle { IsIdleSeat turn.now seat.new }
    ensures same { IsSameSeat seat.old seat.new }
{
    for _ in 0..LAST_TRIES {
        if is_told(turn, seat) {
            return;
        }
    }
}

/// Tries once to tell it, and answers whether it heard.
fn is_told<T: Advance>(turn: &Turn<T>, seat: &mut Seat<T>) -> bool
    requires { IsIdleSeat turn.now seat.old }
    ensures idle { IsIdleSeat turn.now seat.new }
    ensures same { IsSameSeat seat.old seat.new }
{
    match turn.try_take(seat) {
        Attempt::Busy(_) => false,
        Attempt::Taken(mut held) => {
            held.value_mut().end();
            turn.give(seat, held);
            true
        }
    }
}

/// Has each seat's worker do its turns, in a thread of its own where one can be made. The clauses say only that each seat is
/// idle again, and the same.
pub fn work_all<R: Threads + Sync, T: Advance + Send, G: Gate + Sync>(
    rt: &R,
    turn: &Turn<T>,
    seats: &mut [Seat<T>],
    shift: Shift,
    gate: &G,
)
    requires some { 0 < length seats.old }
    requires idle { All (IsIdleSeat turn.now) seats.old }
    ensures count { length seats.new ≡ length seats.old }
    ensures each { (k : ℕ) (d : _) → k < length seats.old → IsIdleSeat turn.now (slice_index_or seats.new k d)
        × IsSameSeat (slice_index_or seats.old k d) (slice_index_or seats.new k d) }
{
    let workers = seats.len();
    let each = |worker: usize, seat: &mut Seat<T>|
        requires { IsIdleSeat turn.now seat.now }
        ensures { IsIdleSeat turn.entry.now seat.exit.now × IsSameSeat seat.entry.now seat.exit.now }
    { work(turn, seat, worker, shift, gate) };
    thread::for_each_mut(rt, seats, workers, &each);
}
