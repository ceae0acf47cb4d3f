//! Locks that frames hold.
use crate::trials::{Part, Wrong, wrong_in};
use std::alloc::Global;
use wdf_base::{FrameId, LockRef, Memory, ObjectId, Plan};
use wdf_lock::Locks;
use wdf_model::{EVENTS, FRAMES};

const SPIN: LockRef = LockRef::Object(ObjectId(7));

const SCOPE: LockRef = LockRef::QueueScope(ObjectId(7));

const OF_DEVICE: LockRef = LockRef::DeviceScope(ObjectId(7));

const ONE: FrameId = FrameId(1);

const OTHER: FrameId = FrameId(2);

/// What happens to the locks, and what is read of them, with the answer that is due.
#[derive(Clone, Copy)]
pub enum Act {
    /// A frame takes a free lock, by a call or not.
    Take(LockRef, FrameId, bool),
    Release(LockRef),
    /// The frame that holds a lock.
    Holder(LockRef, Option<FrameId>),
    /// Whether no lock counts as free.
    NoneIsFree(bool),
    /// How many locks are held.
    Held(usize),
    /// Whether a frame holds a lock, and whether by a call.
    Holds(FrameId, LockRef, bool, bool),
    /// How many locks a frame holds by calls.
    ByCall(FrameId, u32),
}

/// Locks are told apart by what they are of. A frame holds what it took until it is released, by a
/// call or from the start of its callback.
static ACTS: [Act; 20] = [
    Act::Holder(SPIN, None),
    Act::Take(SPIN, ONE, true),
    Act::Holder(SPIN, Some(ONE)),
    Act::Holder(SCOPE, None),
    Act::Take(SCOPE, ONE, false),
    Act::Holder(SCOPE, Some(ONE)),
    Act::Holder(OF_DEVICE, None),
    Act::Take(OF_DEVICE, OTHER, true),
    Act::Holder(OF_DEVICE, Some(OTHER)),
    Act::NoneIsFree(true),
    Act::Held(3),
    Act::ByCall(ONE, 1),
    Act::Holds(OTHER, SCOPE, false, false),
    Act::Holds(ONE, SPIN, true, true),
    Act::Holds(ONE, SCOPE, true, false),
    Act::Release(SPIN),
    Act::Holder(SPIN, None),
    Act::ByCall(ONE, 0),
    Act::ByCall(OTHER, 1),
    Act::Holds(ONE, SCOPE, true, false),
];

/// Whether a lock is held by this frame, or free where it is none.
fn is_held_by(locks: &Locks, lock: LockRef, due: Option<FrameId>) -> bool {
    locks.holder(lock) == due
        && locks.is_free_lock(lock) == due.is_none()
        && locks.is_free_if_any(Some(lock)) == due.is_none()
}

/// Whether what is read of the locks is as due.
fn is_so(locks: &Locks, act: Act) -> bool {
    match act {
        Act::Holder(lock, due) => is_held_by(locks, lock, due),
        Act::NoneIsFree(due) => locks.is_free_if_any(None) == due,
        Act::Held(due) => locks.held_len() == due,
        Act::Holds(f, lock, due, by_call) => {
            locks.holds(f, lock) == due && locks.holds_by_call(f, lock) == by_call
        }
        Act::ByCall(f, due) => locks.held_by_call(f) == due,
        _ => false,
    }
}

/// A frame takes a lock, if it may; whether it may.
fn takes(locks: &mut Locks, lock: LockRef, f: FrameId, by_call: bool) -> bool {
    let may = locks.is_free_lock(lock) && f.0 < FRAMES && locks.held_len() < EVENTS as usize;
    if may {
        locks.take(lock, f, by_call);
    }
    may
}

impl Part for Locks {
    type Act = Act;

    fn does(&mut self, act: Act) -> bool {
        match act {
            Act::Take(lock, f, by_call) => takes(self, lock, f, by_call),
            Act::Release(lock) => {
                self.release(lock);
                true
            }
            _ => is_so(self, act),
        }
    }
}

/// What is wrong with the acts, from the opening on.
pub fn wrong(alloc: Global, plan: &Plan) -> Result<Wrong, Memory> {
    let locks = Locks::make(alloc, plan)?;
    match wrong_in(locks, &ACTS) {
        Some(place) => Ok(Some(("locks", place))),
        None => Ok(None),
    }
}
