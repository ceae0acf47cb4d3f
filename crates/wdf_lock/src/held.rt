//! Lists of what is held.
ghost use Rattle.std.specs.Prelude.{◌≡◌, ◌+◌, ◌<◌, ◌≤◌, ◌^◌, Some, count_by, filter, find, not, vec_capacity};
ghost use Rattle.wdf_model.specs.declared.entries.Held.{Held};
ghost use Rattle.wdf_model.specs.Tables.{entry, flag, put};
ghost use Rattle.wdf_lock.specs.Holds.{IsHoldAt, is_of, uncounted};

use wdf_base::{FrameId, LockRef};
use wdf_maps::{entry_at, put_at};
use wdf_model::Held;
use wdf_same::same_lock;

#[tactic(auto, using(crate::proofs::Finding::found_here, crate::proofs::Finding::not_here))]
/// The hold of a lock, if it is held.
pub(crate) fn find_hold(all: &[Held], lock: LockRef) -> Option<Held>
    ensures { result ≡ find (is_of lock) all.now }
{
    for held in all {
        if same_lock(held.lock, lock) {
            return Some(*held);
        }
    }
    None
}

/// The place of the last hold of a lock that is held.
fn last_hold(all: &[Held], lock: LockRef) -> usize
    requires { 1 ≤ count_by (is_of lock) all.now }
    ensures { IsHoldAt lock all.now result }
{
    let mut place = all.len() - 1;
    while !same_lock(all[place].lock, lock) {
        place -= 1;
    }
    place
}

/// Takes the hold of a lock away, which is held once. What was taken last is found first.
pub(crate) fn drop_hold(all: &mut Vec<Held>, lock: LockRef)
    requires { count_by (is_of lock) all.old.items ≡ 1 }
    ensures items { all.new.items ≡ filter (λ (h : Held). not (is_of lock h)) all.old.items }
    ensures capacity { vec_capacity all.new ≡ vec_capacity all.old }
{
    let place = last_hold(all, lock);
    all.remove(place);
}

/// A frame holds a lock more, by a call or not.
pub(crate) fn count_call(calls: &mut Vec<u32>, f: FrameId, by_call: bool)
    requires room { f.0 < vec_capacity calls.old }
    requires fits { entry 0 calls.old.items f.0 + 1 < 2 ^ 32 }
    ensures counted { calls.new.items ≡ put 0 calls.old.items f.0 (entry 0 calls.old.items f.0 + flag by_call) }
    ensures room { vec_capacity calls.old ≤ vec_capacity calls.new }
{
    let count = entry_at(calls, 0, f.0);
    put_at(calls, 0, f.0, count + u32::from(by_call));
}

/// A frame holds a lock less: the one of this hold.
pub(crate) fn uncount_call(calls: &mut Vec<u32>, held: Held)
    requires room { held.frame.0 < vec_capacity calls.old }
    requires counted { flag held.by_call ≤ entry 0 calls.old.items held.frame.0 }
    ensures counted { calls.new.items ≡ uncounted (Some held) calls.old.items }
    ensures room { vec_capacity calls.old ≤ vec_capacity calls.new }
{
    let count = entry_at(calls, 0, held.frame.0);
    put_at(calls, 0, held.frame.0, count - u32::from(held.by_call));
}
