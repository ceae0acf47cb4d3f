//! The requests for which a callback of a queue is due: how many, and which.

ghost use Rattle.std.specs.Prelude.{◌≡◌, ◌≤◌, MatchOption, count_by, find, length, nat_le, option_map, slice_get};
ghost use Rattle.std.specs.List.{list_any};
ghost use Rattle.wdf_maps.specs.Counts.{is_at};
ghost use Rattle.wdf_model.specs.declared.room.TheConstants.{OBJECTS};
ghost use Rattle.wdf_sets.specs.Nexts.{IsNext, NoneFrom};
ghost use Rattle.wdf_request.specs.Closing.{due_requests};
ghost use Rattle.wdf_request.specs.ForQueues.{due_from, has_due, has_returning, returning_requests, returning_to};
ghost use Rattle.wdf_request.specs.Keys as keys;

use super::{Requests, is_for};
use crate::keys::{due_queue, returning_queue};
use wdf_base::ObjectId;
use wdf_maps::object_at;
use wdf_model::{OBJECTS, Request};

/// How many requests return to a queue, by a look at all of them.
fn count_returning(all: &[Request], q: ObjectId) -> usize
    ensures value { result ≡ count_by (λ r. is_at q.0 (keys.returning_queue r.place)) all.now }
    ensures small { result ≤ length all.now }
{
    all.iter()
        .filter(|request| is_for(q, returning_queue(request.place)))
        .count()
}

/// For how many requests from a queue EvtRequestCancel is due, by a look at all of them.
fn count_due(all: &[Request], q: ObjectId) -> usize
    ensures value { result ≡ count_by (λ r. is_at q.0 (keys.due_queue r)) all.now }
    ensures small { result ≤ length all.now }
{
    all.iter()
        .filter(|request| is_for(q, due_queue(request)))
        .count()
}

impl Requests {
    /// How many requests are Returning, to whatever queue.
    pub fn returning_len(&self) -> u32
        ensures { result ≡ length (returning_requests self.now) }
    {
        self.returns.len()
    }

    /// The k-th of them, by rising id from 0; `None` exactly where there are fewer.
    pub fn returning_at(&self, k: u32) -> Option<ObjectId>
        ensures { option_map (λ r. r.0) result ≡ slice_get (returning_requests self.now) k }
    {
        object_at(self.returns.at(k))
    }

    /// The first of them from an id on.
    pub fn next_returning(&self, from: ObjectId) -> Option<ObjectId>
        ensures { option_map (λ r. r.0) result ≡ find (nat_le from.0) (returning_requests self.now) }
    {
        object_at(self.returns.from(from.0))
    }

    /// How many requests are Returning to a queue.
    pub fn returning_to_len(&self, q: ObjectId) -> u32
        ensures { result ≡ length (returning_to self.now q.0) }
    {
        if q.0 < OBJECTS {
            self.returning.of(q)
        } else {
            count_returning(&self.all, q) as u32
        }
    }

    /// The first queue from an id on to which some request is Returning. It doesn't look at the others.
    pub fn next_returning_to(&self, from: ObjectId) -> Option<ObjectId>
        ensures { MatchOption result (NoneFrom (has_returning self.now) from.0 OBJECTS) (λ q. IsNext (has_returning self.now) from.0 OBJECTS q.0) }
    {
        self.returning.next(from)
    }

    /// For how many requests EvtRequestCancel is due, of whatever queue.
    pub fn due_len(&self) -> u32
        ensures { result ≡ length (due_requests self.now) }
    {
        self.due.len()
    }

    /// The k-th of them, by rising id from 0; `None` exactly where there are fewer.
    pub fn due_at(&self, k: u32) -> Option<ObjectId>
        ensures { option_map (λ r. r.0) result ≡ slice_get (due_requests self.now) k }
    {
        object_at(self.due.at(k))
    }

    /// For how many requests that the driver has from a queue EvtRequestCancel is due. Those that it sent aren't
    /// among them.
    pub fn due_from_len(&self, q: ObjectId) -> u32
        ensures { result ≡ length (due_from self.now q.0) }
    {
        if q.0 < OBJECTS {
            self.due_held.of(q)
        } else {
            count_due(&self.all, q) as u32
        }
    }

    /// The first queue from an id on from which the driver has some request for which EvtRequestCancel is due. It doesn't
    /// look at the others.
    pub fn next_due_from(&self, from: ObjectId) -> Option<ObjectId>
        ensures { MatchOption result (NoneFrom (has_due self.now) from.0 OBJECTS) (λ q. IsNext (has_due self.now) from.0 OBJECTS q.0) }
    {
        self.due_held.next(from)
    }

    /// Whether EvtRequestCancel is due for some request that is Sent.
    #[tactic(auto, using(wdf_maps::proofs::Counting::any_counted))]
    pub fn some_due_sent(&self) -> bool
        ensures { result ≡ list_any keys.is_due_sent self.now.all }
    {
        self.due_sent > 0
    }
}
