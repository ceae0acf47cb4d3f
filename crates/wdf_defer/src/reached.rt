//! The timers whose due tick is reached: which become so as a tick passes. Timers of 64 ids are passed over at once where none
//! of them becomes due.
ghost use Rattle.std.specs.Prelude.{◌≡◌, ℕ, ◌*◌, ◌+◌, ◌/◌, ◌<◌, ◌≤◌, length};
ghost use Rattle.wdf_model.specs.declared.room.TheConstants.{OBJECTS};
ghost use Rattle.wdf_defer.specs.Reached.{Adds, AreReached, HaveRoom, IsFloor, IsLeast, told_below};

use crate::floors::{BLOCK, Floors, NEVER};
use crate::ticks::DueTicks;
use wdf_base::ObjectId;
use wdf_model::OBJECTS;
use wdf_sets::IdSet;

/// The queued timers of the block of an id are among the reached where their due tick is. The answer is a tick before which
/// none of the others is due.
fn reach_block(queued: &IdSet, ticks: &DueTicks, reached: &mut IdSet, o: ObjectId, now: u64) -> u64
    requires object { o.0 < OBJECTS }
    requires room { HaveRoom queued.now reached.old }
    ensures adds { Adds queued.now ticks.now (o.0 / 64) now reached.old reached.new }
    ensures floor { IsFloor queued.now ticks.now (o.0 / 64) now result }
    ensures room { length reached.new ≡ length reached.old }
{
    let start = o.0 / BLOCK * BLOCK;
    let mut floor = NEVER;
    let mut at = start;
    'search: while let Some(timer) = queued.next(at, start + BLOCK) {
        let tick = ticks.of(ObjectId(timer));
        if tick <= now {
            reached.put(timer, true);
        } else {
            floor = floor.min(tick);
        }
        at = timer + 1;
    }
    floor
}

/// The same, where the timers of the block may not have been told yet. It is looked at only where one of them becomes due.
fn reach_if_any(
    queued: &IdSet,
    ticks: &DueTicks,
    reached: &mut IdSet,
    floors: &mut Floors,
    o: ObjectId,
    now: u64,
) -> u64
    requires object { o.0 < OBJECTS }
    requires room { HaveRoom queued.now reached.old }
    ensures reached { (seen : ℕ) → seen ≤ now → AreReached queued.now ticks.now reached.old floors.old (told_below (64 * (o.0 / 64)) now seen)
        → AreReached queued.now ticks.now reached.new floors.new (told_below (64 * (o.0 / 64) + 64) now seen) × IsFloor queued.now ticks.now (o.0 / 64) now result }
    ensures room { length reached.new ≡ length reached.old }
{
    let floor = floors.of(o);
    if now < floor {
        return floor;
    }
    let floor = reach_block(queued, ticks, reached, o, now);
    floors.put(o, floor);
    floor
}

/// The same for all queued timers.
pub(crate) fn reach_all(
    queued: &IdSet,
    ticks: &DueTicks,
    reached: &mut IdSet,
    floors: &mut Floors,
    now: u64,
) -> u64
    requires room { HaveRoom queued.now reached.old }
    ensures reached { (seen : ℕ) → seen ≤ now → AreReached queued.now ticks.now reached.old floors.old (λ o. seen)
        → AreReached queued.now ticks.now reached.new floors.new (λ o. now) × IsLeast queued.now ticks.now OBJECTS now result }
    ensures room { length reached.new ≡ length reached.old }
{
    let mut least = NEVER;
    let mut at = 0;
    'search: while let Some(timer) = queued.next(at, OBJECTS) {
        let floor = reach_if_any(queued, ticks, reached, floors, ObjectId(timer), now);
        least = least.min(floor);
        at = timer / BLOCK * BLOCK + BLOCK;
    }
    least
}
