ghost use Rattle.std.specs.Prelude.{◌≡◌, ◌<◌, ◌≤◌, true, count_by, length, option_map, IfOk, MatchOption};
ghost use Rattle.wdf_model.specs.declared.room.TheConstants.{OBJECTS};
ghost use Rattle.wdf_sets.specs.Nexts.{IsNext, NoneFrom};
ghost use Rattle.wdf_model.specs.parts.Locks as locks;
ghost use Rattle.wdf_lock.specs.Holds.{is_locked, is_of};

use crate::held::{count_call, drop_hold, find_hold, uncount_call};
use crate::holders::{Holders, lock_id};
use std::alloc::Global;
use std::marker::Model;
use wdf_base::{FrameId, LockRef, Memory, ObjectId, Plan};
use wdf_maps::{entry_at, object_at};
use wdf_model::{EVENTS, FRAMES, Held, OBJECTS};

/// The locks that are held, and by whom.
#[derive(Drop)]
pub struct Locks {
    /// What is held, in the order in which it was taken.
    held: Vec<Held>,
    /// The hold of each lock.
    holders: Holders,
    /// How many locks a frame took by calls, by the frame's number.
    calls: Vec<u32>,
}

impl Model for Locks {
    ghost use Rattle.wdf_model.specs.parts.Locks.{Locks as Holding};

    ghost Value = { Holding };

    ghost use Rattle.wdf_lock.specs.Kept.{locks_in, IsSound};

    ghost view = { locks_in };

    ghost invariant = { IsSound };
}

impl Locks {
    /// No lock is held. It takes all the memory that the locks of a run need.
    pub fn make(alloc: Global, _plan: &Plan) -> Result<Locks, Memory>
        ensures { IfOk result (λ l. l ≡ locks.no_locks) }
    {
        Ok(Locks {
            held: Vec::with_capacity(alloc, EVENTS as usize)?,
            holders: Holders::make(alloc)?,
            calls: Vec::with_capacity(alloc, FRAMES as usize)?,
        })
    }

    /// No lock is held once more.
    pub fn begin_again(&mut self)
        ensures { self.new ≡ locks.no_locks }
    {
        self.held.clear();
        self.holders.clear();
        self.calls.clear();
    }

    /// How many locks are held.
    pub fn held_len(&self) -> usize
        ensures { result ≡ length self.now.held }
    {
        self.held.len()
    }

    /// The hold of a lock; None where it is free.
    fn hold_of(&self, lock: LockRef) -> Option<Held>
        ensures value { result ≡ locks.hold_of self.now lock }
        ensures once { count_by (is_of lock) self.now.held ≤ 1 }
    {
        if lock_id(lock) < OBJECTS {
            self.holders.of(lock)
        } else {
            find_hold(&self.held, lock)
        }
    }

    /// The frame that holds a lock; None exactly where it is free.
    pub fn holder(&self, lock: LockRef) -> Option<FrameId>
        ensures { option_map (λ f. f.0) result ≡ locks.holder self.now lock }
    {
        self.hold_of(lock).map(|held| held.frame)
    }

    /// Whether nobody holds a lock.
    pub fn is_free_lock(&self, lock: LockRef) -> bool
        ensures { result ≡ locks.is_free_lock self.now lock }
    {
        self.hold_of(lock).is_none()
    }

    /// Whether nobody holds a lock, where there is one.
    pub fn is_free_if_any(&self, lock: Option<LockRef>) -> bool
        ensures { result ≡ locks.is_free_if_any self.now lock }
    {
        match lock {
            Some(lock) => self.is_free_lock(lock),
            None => true,
        }
    }

    /// The first object from an id on whose lock is held.
    pub fn next_locked(&self, from: ObjectId) -> Option<ObjectId>
        ensures { MatchOption result (NoneFrom (is_locked self.now) from.0 OBJECTS) (λ o. IsNext (is_locked self.now) from.0 OBJECTS o.0) }
    {
        object_at(self.holders.next_taken(from.0))
    }

    /// Whether this frame holds a lock.
    pub fn holds(&self, f: FrameId, lock: LockRef) -> bool
        ensures { result ≡ locks.holds self.now f.0 lock }
    {
        match self.hold_of(lock) {
            Some(held) => held.frame.0 == f.0,
            None => false,
        }
    }

    /// Whether this frame took a lock by a call, and holds it.
    pub fn holds_by_call(&self, f: FrameId, lock: LockRef) -> bool
        ensures { result ≡ locks.holds_by_call self.now f.0 lock }
    {
        match self.hold_of(lock) {
            Some(held) => held.frame.0 == f.0 && held.by_call,
            None => false,
        }
    }

    /// How many locks a frame holds that it took by calls.
    pub fn held_by_call(&self, f: FrameId) -> u32
        ensures { result ≡ locks.held_by_call self.now f.0 }
    {
        entry_at(&self.calls, 0, f.0)
    }

    /// A frame takes a lock that is free, by a call or at the start of its callback.
    pub fn take(&mut self, lock: LockRef, f: FrameId, by_call: bool)
        requires free { locks.is_free_lock self.old lock ≡ true }
        requires frame { f.0 < FRAMES }
        requires room { length self.old.held < EVENTS }
        ensures { self.new ≡ locks.take self.old lock f.0 by_call }
    {
        let held = Held {
            lock,
            frame: f,
            by_call,
        };
        self.held.push_reserved(held);
        self.holders.set(lock, Some(held));
        count_call(&mut self.calls, f, by_call);
    }

    /// A lock is free again. Nothing changes where it was free.
    pub fn release(&mut self, lock: LockRef)
        ensures { self.new ≡ locks.release self.old lock }
    {
        if let Some(held) = self.hold_of(lock) {
            drop_hold(&mut self.held, lock);
            self.holders.set(lock, None);
            uncount_call(&mut self.calls, held);
        }
    }
}
