ghost use Rattle.std.specs.Prelude.{◌≡◌, ◌<◌, IfOk, MatchOption, None};
ghost use Rattle.wdf_model.specs.Tables.{put};
ghost use Rattle.wdf_model.specs.declared.room.TheConstants.{OBJECTS};
ghost use Rattle.wdf_sets.specs.Nexts.{IsNext, NoneFrom};
ghost use Rattle.wdf_lock.specs.Holders.{held_at, is_taken, lock_id, no_holders, with_hold};

use std::alloc::Global;
use std::marker::Model;
use wdf_base::{LockRef, Memory};
use wdf_maps::{entry_at, put_at};
use wdf_model::{Held, OBJECTS};
use wdf_sets::IdSet;

/// The hold of each lock, by the id of its object. Locks of ids that no object can have aren't kept.
#[derive(Drop)]
pub(crate) struct Holders {
    objects: Vec<Option<Held>>,
    devices: Vec<Option<Held>>,
    queues: Vec<Option<Held>>,
    /// The objects whose lock is held.
    taken: IdSet,
}

impl Model for Holders {
    ghost use Rattle.wdf_lock.specs.Holders.{Holds};

    ghost Value = { Holds };

    ghost use Rattle.wdf_lock.specs.InHolders.{holds_in, HasRoom};

    ghost view = { holds_in };

    ghost invariant = { HasRoom };
}

impl Holders {
    /// No lock is held.
    pub(crate) fn make(alloc: Global) -> Result<Holders, Memory>
        ensures { IfOk result (λ h. h ≡ no_holders) }
    {
        Ok(Holders {
            objects: Vec::with_capacity(alloc, OBJECTS as usize)?,
            devices: Vec::with_capacity(alloc, OBJECTS as usize)?,
            queues: Vec::with_capacity(alloc, OBJECTS as usize)?,
            taken: IdSet::make(alloc, OBJECTS)?,
        })
    }

    /// No lock is held any more.
    pub(crate) fn clear(&mut self)
        ensures { self.new ≡ no_holders }
    {
        self.objects.clear();
        self.devices.clear();
        self.queues.clear();
        self.taken.clear();
    }

    /// The hold of a lock that is kept; None where it is free.
    pub(crate) fn of(&self, lock: LockRef) -> Option<Held>
        ensures { result ≡ held_at self.now lock }
    {
        match lock {
            LockRef::Object(o) => entry_at(&self.objects, None, o.0),
            LockRef::DeviceScope(o) => entry_at(&self.devices, None, o.0),
            LockRef::QueueScope(o) => entry_at(&self.queues, None, o.0),
        }
    }

    /// The first object from an id on whose lock is held.
    pub(crate) fn next_taken(&self, from: u32) -> Option<u32>
        ensures { MatchOption result (NoneFrom (is_taken self.now) from OBJECTS) (λ o. IsNext (is_taken self.now) from OBJECTS o) }
    {
        self.taken.next(from, OBJECTS)
    }

    /// Says who holds the lock of an object.
    fn set_object(&mut self, o: u32, held: Option<Held>)
        requires { o < OBJECTS }
        ensures { self.new ≡ record self.old { objects = put None self.old.objects o held } }
    {
        self.taken.put(o, held.is_some());
        put_at(&mut self.objects, None, o, held);
    }

    /// Says who holds a lock, if it is kept.
    pub(crate) fn set(&mut self, lock: LockRef, held: Option<Held>)
        ensures { self.new ≡ with_hold self.old lock held }
    {
        if lock_id(lock) < OBJECTS {
            match lock {
                LockRef::Object(o) => self.set_object(o.0, held),
                LockRef::DeviceScope(o) => put_at(&mut self.devices, None, o.0, held),
                LockRef::QueueScope(o) => put_at(&mut self.queues, None, o.0, held),
            }
        }
    }
}

/// The id of the object that a lock is of.
pub(crate) fn lock_id(lock: LockRef) -> u32
    ensures { result ≡ lock_id lock }
{
    match lock {
        LockRef::Object(o) | LockRef::DeviceScope(o) | LockRef::QueueScope(o) => o.0,
    }
}
