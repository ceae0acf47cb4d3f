ghost use Rattle.std.specs.Prelude.{◌≡◌, ◌<◌, ◌&&◌, IfOk, MatchOption, None, [], is_some, length, nat_lt, not, option_map, slice_get};
ghost use Rattle.wdf_model.specs.parts.Targets as targets;
ghost use Rattle.wdf_maps.specs.Places.{entry_of};
ghost use Rattle.wdf_sets.specs.Nexts.{IsNext, NoneFrom};
ghost use Rattle.wdf_target.specs.Finished.{done_at, done_in, has_done};
ghost use Rattle.wdf_target.specs.Target.{request_id};

use std::alloc::Global;
use std::marker::Model;
use wdf_base::{Memory, ObjectId, Status, TargetInfo};
use wdf_maps::Rising;
use wdf_model::{OBJECTS, Sending};

/// An I/O target. For an object that is none it is stopped, and holds nothing.
#[derive(Drop)]
pub(crate) struct Target {
    /// The most requests that it holds.
    depth: u64,
    stopped: bool,
    sent: Rising<Sending>,
    /// Once more those that it is done with and that come back, so that none of the others is looked at for them.
    done: Rising<Sending>,
}

impl Model for Target {
    ghost use Rattle.wdf_model.specs.parts.Targets.{Target};

    ghost Value = { Target };

    ghost use Rattle.wdf_target.specs.Target.{target_in, IsSound};

    ghost view = { target_in };

    ghost invariant = { IsSound };
}

/// Whether a target is stopped at the opening: what is no target is.
fn opening_stopped(info: Option<TargetInfo>) -> bool
    ensures { result ≡ (targets.opening_target info).stopped }
{
    match info {
        Some(_) => false,
        None => true,
    }
}

impl Target {
    /// A target that has nothing. On [`Memory`] nothing is made.
    fn make(alloc: Global, depth: u64, stopped: bool) -> Result<Target, Memory>
        ensures { IfOk result (λ made. made ≡ record { depth = depth; stopped = stopped; sent = [] }) }
    {
        let room = depth.min(u64::from(OBJECTS)) as u32;
        Ok(Target {
            depth,
            stopped,
            sent: Rising::make(alloc, room)?,
            done: Rising::make(alloc, room)?,
        })
    }

    /// A declared target as it is at the opening. On [`Memory`] nothing is made.
    pub(crate) fn open(alloc: Global, info: Option<TargetInfo>) -> Result<Target, Memory>
        ensures { IfOk result (λ made. made ≡ targets.opening_target info) }
    {
        match info {
            Some(info) => Target::make(alloc, info.depth, false),
            None => Target::make(alloc, 0, true),
        }
    }

    /// The target as it is at the opening once more, where it has the declared depth.
    pub(crate) fn begin_again(&mut self, info: Option<TargetInfo>)
        requires { self.old.depth ≡ (targets.opening_target info).depth }
        ensures { self.new ≡ targets.opening_target info }
    {
        self.stopped = opening_stopped(info);
        self.sent.clear();
        self.done.clear();
    }

    /// How many requests it holds.
    pub(crate) fn len(&self) -> u32
        ensures { result ≡ length self.now.sent }
    {
        self.sent.len()
    }

    /// The k-th request that it holds, by rising id from 0.
    pub(crate) fn at(&self, k: u32) -> Sending
        requires { k < length self.now.sent }
        ensures { slice_get self.now.sent k ≡ Some result }
    {
        self.sent.at(k)
    }

    /// What it has of a request, if it has it.
    pub(crate) fn sending(&self, r: ObjectId) -> Option<Sending>
        ensures { result ≡ entry_of request_id self.now.sent r.0 }
    {
        self.sent.get(r)
    }

    /// Whether it takes one more request.
    pub(crate) fn takes_more(&self) -> bool
        ensures { result ≡ (not self.now.stopped && nat_lt (length self.now.sent) self.now.depth) }
    {
        !self.stopped && u64::from(self.sent.len()) < self.depth
    }

    /// It takes no more requests, or takes them again.
    pub(crate) fn set_stopped(&mut self, stopped: bool)
        ensures { self.new ≡ record self.old { stopped = stopped } }
    {
        self.stopped = stopped;
    }

    /// Takes one more request, to come back or not.
    pub(crate) fn add(&mut self, r: ObjectId, forget: bool)
        requires there { r.0 < OBJECTS }
        requires free { entry_of request_id self.old.sent r.0 ≡ None }
        requires room { length self.old.sent < self.old.depth }
        ensures { self.new ≡ record self.old { sent = targets.sending_in_order (targets.new_sending r.0 forget) self.old.sent } }
    {
        self.sent.put(Sending {
            request: r,
            forgotten: forget,
            outcome: None,
        });
    }

    /// It is done with a request. One that is forgotten leaves. The answer says whether it still has it.
    pub(crate) fn finish(&mut self, r: ObjectId, status: Status) -> bool
        ensures done { self.new ≡ targets.target_done r.0 status self.old }
        ensures it { is_some (entry_of request_id self.new.sent r.0) ≡ result }
    {
        let Some(sending) = self.sent.get(r) else {
            return false;
        };
        if sending.forgotten {
            self.remove(r);
            return false;
        }
        let finished = Sending {
            outcome: Some(status),
            ..sending
        };
        let _within = self.sent.len();
        self.sent.put(finished);
        self.done.put(finished);
        true
    }

    /// Lets a request go.
    pub(crate) fn remove(&mut self, r: ObjectId)
        ensures { self.new ≡ targets.without_sending r.0 self.old }
    {
        self.sent.remove(r);
        self.done.remove(r);
    }

    /// Whether it is done with a request that comes back.
    pub(crate) fn has_done(&self) -> bool
        ensures { result ≡ has_done self.now }
    {
        self.done.len() > 0
    }

    /// How many requests it is done with that come back.
    pub(crate) fn done_len(&self) -> u32
        ensures { result ≡ length (done_in self.now) }
    {
        self.done.len()
    }

    /// The k-th of these, by rising id from 0; `None` exactly where there are fewer.
    pub(crate) fn nth_done(&self, k: u32) -> Option<ObjectId>
        ensures { option_map (λ r. r.0) result ≡ slice_get (done_in self.now) k }
    {
        if k < self.done.len() {
            Some(self.done.at(k).request)
        } else {
            None
        }
    }

    /// The first place from one on, by rising id from 0, of a request that it is done with and that comes back.
    pub(crate) fn next_done(&self, from: u32) -> Option<u32>
        ensures { MatchOption result (NoneFrom (done_at self.now) from (length self.now.sent)) (λ k. IsNext (done_at self.now) from (length self.now.sent) k) }
    {
        if from >= self.sent.len() {
            return None;
        }
        let lesser = self.done.before(self.sent.at(from).request.0);
        if lesser >= self.done.len() {
            return None;
        }
        let place = self.sent.before(self.done.at(lesser).request.0);
        Some(place)
    }
}
