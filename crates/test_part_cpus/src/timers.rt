//! Timers and their ticks.
use crate::trials::{Part, Wrong, wrong_in};
use std::alloc::Global;
use wdf_base::{Memory, ObjectId, Plan};
use wdf_defer::Timers;
use wdf_model::OBJECTS;

const ONE: ObjectId = ObjectId(7);

const OTHER: ObjectId = ObjectId(5);

/// What happens to the timers, and what is read of them, with the answer that is due.
#[derive(Clone, Copy)]
pub enum Act {
    /// A timer starts at a tick, and is due after so many. Whether it was queued.
    Start(ObjectId, u64, u64, bool),
    /// A timer is stopped. Whether it was queued.
    Stop(ObjectId, bool),
    /// Whether the callback of a timer with this period may start at a tick. Then it does.
    Fire(ObjectId, u64, u64, bool),
    /// Whether a timer is queued.
    IsQueued(ObjectId, bool),
    /// Whether a timer is due at a tick.
    Due(ObjectId, u64, bool),
    /// The least due tick.
    Next(Option<u64>),
    /// Whether some timer is due later than at a tick.
    Later(u64, bool),
    /// The queued timers and their ticks.
    Holds(&'static [(ObjectId, u64)]),
}

/// A timer is due after its ticks, and not a tick before. A new start moves its tick. At its start
/// it leaves the queue where it has no period.
static ONCE: [Act; 19] = [
    Act::Next(None),
    Act::Start(ONE, 3, 10, false),
    Act::Due(ONE, 12, false),
    Act::Later(12, true),
    Act::Due(ONE, 13, true),
    Act::Later(13, false),
    Act::Start(ONE, 4, 2, true),
    Act::Later(6, false),
    Act::Start(OTHER, 4, 5, false),
    Act::Next(Some(6)),
    Act::Later(8, true),
    Act::Fire(ONE, 5, 0, false),
    Act::Fire(ONE, 6, 0, true),
    Act::IsQueued(ONE, false),
    Act::Next(Some(9)),
    Act::Stop(OTHER, true),
    Act::Stop(OTHER, false),
    Act::Next(None),
    Act::Holds(&[]),
];

/// The due tick of a periodic timer grows by its period. No timer waits for more than 1,000,000
/// ticks.
static AGAIN: [Act; 9] = [
    Act::Start(ONE, 0, 2, false),
    Act::Start(OTHER, 5, u64::MAX, false),
    Act::Fire(ONE, 4, 7, true),
    Act::IsQueued(ONE, true),
    Act::Next(Some(9)),
    Act::Stop(ONE, true),
    Act::Later(1_000_004, true),
    Act::Later(1_000_005, false),
    Act::Holds(&[(OTHER, 1_000_005)]),
];

/// Whether these timers are queued, with these ticks.
fn holds(timers: &Timers, due: &[(ObjectId, u64)]) -> bool {
    let mut at = 0;
    for (o, tick) in due {
        if at >= timers.len() {
            return false;
        }
        let timed = timers.at(at);
        if timed.timer != *o || timed.tick != *tick {
            return false;
        }
        at += 1;
    }
    at == timers.len()
}

/// The callback of a timer starts, if its tick is reached; whether it is.
fn fires(timers: &mut Timers, o: ObjectId, now: u64, period: u64) -> bool {
    let due = now < 1000 && period < 1000 && timers.timer_due(o, now);
    if due {
        timers.fired(o, period);
    }
    due
}

impl Part for Timers {
    type Act = Act;

    fn does(&mut self, act: Act) -> bool {
        match act {
            Act::Start(o, now, ticks, due) => {
                o.0 < OBJECTS && now < 1000 && self.start(o, now, ticks) == due
            }
            Act::Stop(o, due) => self.stop(o) == due,
            Act::Fire(o, now, period, due) => fires(self, o, now, period) == due,
            Act::IsQueued(o, due) => self.is_timer_queued(o) == due,
            Act::Due(o, now, due) => self.timer_due(o, now) == due,
            Act::Next(due) => self.next_timer() == due,
            Act::Later(now, due) => self.any_later_timer(now) == due,
            Act::Holds(due) => holds(self, due),
        }
    }
}

/// What is wrong in the cases.
pub fn wrong(alloc: Global, plan: &Plan) -> Result<Wrong, Memory> {
    for (name, acts) in [("once", ONCE.as_slice()), ("again", AGAIN.as_slice())] {
        let wrong = match Timers::make(alloc, plan) {
            Ok(timers) => wrong_in(timers, acts),
            Err(memory) => return Err(memory),
        };
        if let Some(place) = wrong {
            return Ok(Some((name, place)));
        }
    }
    Ok(None)
}
