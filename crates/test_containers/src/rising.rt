//! Entries come in any order, stay by rising id, and are taken out by id.
ghost use Rattle.std.specs.Prelude.{◌≡◌};

use std::test::Fail;
use wdf_base::ObjectId;
use wdf_maps::Rising;
use wdf_model::Timed;

/// What happens to timers, for four of which there is room, and what is read of them, with the answer that is due.
#[derive(Clone, Copy)]
enum Act {
    /// A timer with its tick. Whether it takes the place of one.
    Put(u32, u64, bool),
    /// A timer is taken out. Whether it is there.
    Remove(u32, bool),
    /// The timers and their ticks, in the order of the list.
    Holds(&'static [(u32, u64)]),
    /// The tick of a timer.
    Get(u32, Option<u64>),
    /// How many there are.
    Len(u32),
    /// The timer at a place.
    At(u32, u32),
}

static ACTS: [Act; 13] = [
    Act::Put(7, 70, false),
    Act::Put(3, 30, false),
    Act::Put(5, 50, false),
    Act::Holds(&[(3, 30), (5, 50), (7, 70)]),
    // One with an id that is there takes its place.
    Act::Put(5, 51, true),
    Act::Holds(&[(3, 30), (5, 51), (7, 70)]),
    Act::Get(5, Some(51)),
    Act::Get(4, None),
    Act::Remove(3, true),
    Act::Remove(3, false),
    Act::Len(2),
    Act::At(0, 5),
    Act::Holds(&[(5, 51), (7, 70)]),
];

/// Puts a timer, where there is room for it; whether the answer is this.
fn puts(timers: &mut Rising<Timed>, timer: u32, tick: u64, due: bool) -> bool
    requires { timers.old.room ≡ 4 }
    ensures { timers.new.room ≡ 4 }
{
    let entry = Timed {
        timer: ObjectId(timer),
        tick,
    };
    timers.len() < 4 && timers.put(entry) == due
}

/// Whether a timer is this, with this tick.
fn is_timer(found: &Timed, due: (u32, u64)) -> bool {
    found.timer.0 == due.0 && found.tick == due.1
}

/// Whether these are the timers and their ticks.
fn holds(timers: &[Timed], due: &[(u32, u64)]) -> bool {
    if timers.len() != due.len() {
        return false;
    }
    for (found, wanted) in timers.iter().zip(due) {
        if !is_timer(found, *wanted) {
            return false;
        }
    }
    true
}

/// The tick of a timer.
fn tick_of(timers: &Rising<Timed>, timer: u32) -> Option<u64> {
    match timers.get(ObjectId(timer)) {
        Some(found) => Some(found.tick),
        None => None,
    }
}

/// Does an act; whether it may come, and the answer is the due one.
fn does(timers: &mut Rising<Timed>, act: Act) -> bool
    requires { timers.old.room ≡ 4 }
    ensures { timers.new.room ≡ 4 }
{
    match act {
        Act::Put(timer, tick, due) => puts(timers, timer, tick, due),
        Act::Remove(timer, due) => timers.remove(ObjectId(timer)) == due,
        Act::Holds(due) => holds(timers.as_slice(), due),
        Act::Get(timer, due) => tick_of(timers, timer) == due,
        Act::Len(due) => timers.len() == due,
        Act::At(k, due) => k < timers.len() && timers.at(k).timer.0 == due,
    }
}

/// The place of the first act that isn't as due.
fn first_wrong(timers: &mut Rising<Timed>, acts: &[Act]) -> Option<usize>
    requires { timers.old.room ≡ 4 }
{
    'all: for at in 0..acts.len() {
        if !does(timers, acts[at]) {
            return Some(at);
        }
    }
    None
}

#[test]
fn entries_rise(rt: HostRuntime) -> Result<(), Fail> {
    let mut timers = Rising::make(rt.alloc(), 4)?;
    assert_eq!(rt; first_wrong(&mut timers, &ACTS), None);
    Ok(())
}
