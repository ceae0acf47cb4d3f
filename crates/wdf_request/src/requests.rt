ghost use Rattle.std.specs.Prelude.{◌≡◌, ◌<◌, ◌≤◌, ◌==◌, [], IfOk, MatchOption, find, length, max, nat_le, option_map, slice_get, vec_capacity};
ghost use Rattle.std.specs.List.{list_any};
ghost use Rattle.wdf_base.specs.Places.{is_returning_to, is_sent_to};
ghost use Rattle.wdf_model.specs.Tables.{put};
ghost use Rattle.wdf_model.specs.parts.Requests as requests;
ghost use Rattle.wdf_model.specs.parts.Requests.{no_request};
ghost use Rattle.wdf_model.specs.rules.Ready.{is_open_request};
ghost use Rattle.wdf_model.specs.rules.Starts.{is_unfinished_at};
ghost use Rattle.wdf_maps.specs.Counts.{is_at};
ghost use Rattle.wdf_model.specs.declared.room.TheConstants.{OBJECTS};
ghost use Rattle.wdf_sets.specs.Nexts.{IsNext, NoneFrom};
ghost use Rattle.wdf_request.specs.Closing.{closing_requests, due_requests, is_out};
ghost use Rattle.wdf_request.specs.Fresh.{AreEmpty, HaveNone};

mod closing;
mod for_queues;

use crate::arrivals::Arrivals;
use crate::change::{
    NO_REQUEST, answer_of_mark, cancelled, forgotten, marked, moved, unmarked, with_mark,
};
use crate::fresh::{FreshCounts, FreshSets};
use crate::keys::{
    due_queue, due_sent_flag, is_back, open_flag, returning_queue, sent_target, unfinished_device,
};
use std::alloc::Global;
use std::marker::Model;
use wdf_base::{Mark, Memory, ObjectId, Place, Plan, RequestInfo, Status};
use wdf_maps::{Counts, entry_at, object_at, put_at};
use wdf_model::{EVENTS, OBJECTS, Request};
use wdf_sets::IdSet;
use wdf_tally::Tally;

/// Where each request is, whether it is cancelable, and what is kept of it. What is no request, or
/// is gone, is Done. Each call but [`Requests::make`] takes no memory.
#[derive(Drop)]
pub struct Requests {
    /// By id, as far as a request came.
    all: Vec<Request>,
    /// How many requests arrived.
    arrived: u32,
    /// How many are Returning to each queue.
    returning: Tally,
    /// How many are Sent to each target.
    sent: Counts,
    /// How many arrived at each device and aren't done.
    unfinished: Counts,
    /// How many keep the run from its end.
    open_count: u32,
    /// Those that the framework will complete.
    closing: IdSet,
    /// Those for which EvtRequestCancel is due.
    due: IdSet,
    /// Those that are Sent.
    sendings: IdSet,
    /// Those that are Returning to some queue.
    returns: IdSet,
    /// For how many that the driver has from each queue EvtRequestCancel is due.
    due_held: Tally,
    /// For how many that are Sent EvtRequestCancel is due.
    due_sent: u32,
    /// Which each arrival made.
    arrivals: Arrivals,
}

impl Model for Requests {
    ghost use Rattle.wdf_model.specs.parts.Requests.{Requests};

    ghost Value = { Requests };

    ghost use Rattle.wdf_request.specs.Requests.{requests_in, IsSound};

    ghost view = { requests_in };

    ghost invariant = { IsSound };
}

impl Requests {
    /// No request yet. It takes all memory that the requests of the plan's run need.
    pub fn make(alloc: Global, plan: &Plan) -> Result<Requests, Memory>
        ensures { IfOk result (λ made. made ≡ requests.no_requests) }
    {
        let all = Vec::with_capacity(alloc, OBJECTS as usize)?;
        let arrivals = Arrivals::make(alloc, plan)?;
        let counts = FreshCounts::make(alloc)?;
        let sets = FreshSets::make(alloc)?;
        Ok(Requests::of_none(all, counts, sets, arrivals))
    }

    /// No request yet, over this memory.
    fn of_none(
        all: Vec<Request>,
        counts: FreshCounts,
        sets: FreshSets,
        arrivals: Arrivals,
    ) -> Requests
        requires entries { all.items ≡ [] }
        requires room { OBJECTS ≤ vec_capacity all }
        requires counts { HaveNone counts }
        requires sets { AreEmpty sets }
        ensures { result ≡ requests.no_requests }
    {
        Requests {
            all,
            arrived: 0,
            returning: counts.returning,
            sent: counts.sent,
            unfinished: counts.unfinished,
            open_count: 0,
            closing: sets.closing,
            due: sets.due,
            sendings: sets.sendings,
            returns: sets.returns,
            due_held: counts.due_held,
            due_sent: 0,
            arrivals,
        }
    }

    /// No request once more.
    pub fn begin_again(&mut self)
        ensures { self.new ≡ requests.no_requests }
    {
        self.all.clear();
        self.arrived = 0;
        self.returning.clear();
        self.sent.clear();
        self.unfinished.clear();
        self.open_count = 0;
        self.closing.clear();
        self.due.clear();
        self.sendings.clear();
        self.returns.clear();
        self.due_held.clear();
        self.due_sent = 0;
        self.arrivals.clear();
    }

    /// Past the id of the last request that came.
    pub fn len(&self) -> u32
        ensures { result ≡ length self.now.all }
    {
        self.all.len() as u32
    }

    /// Whether no request came.
    pub fn is_empty(&self) -> bool
        ensures { result ≡ (length self.now.all == 0) }
    {
        self.all.is_empty()
    }

    /// How many requests arrived.
    pub fn arrived(&self) -> u32
        ensures { result ≡ self.now.arrived }
    {
        self.arrived
    }

    /// What is kept of a request, its place among it.
    pub fn request(&self, r: ObjectId) -> Request
        ensures { result ≡ requests.request_of self.now r.0 }
    {
        entry_at(&self.all, NO_REQUEST, r.0)
    }

    /// Where a request is: Done for what is none.
    pub fn place(&self, r: ObjectId) -> Place
        ensures { result ≡ requests.place_of self.now r.0 }
    {
        self.request(r).place
    }

    /// What is kept of a request beside its place.
    pub fn info(&self, r: ObjectId) -> RequestInfo
        ensures { result ≡ requests.info_of self.now r.0 }
    {
        self.request(r).info
    }

    /// Whether a request is that of an agent's arrival with this number, from 1.
    fn is_arrival(&self, agent: u16, k: u32, r: ObjectId) -> bool
        ensures { result ≡ requests.is_arrival self.now agent k r.0 }
    {
        let info = self.info(r);
        k > 0 && info.agent == agent && info.arrival == k
    }

    /// The request of an agent's arrival with this number, from 1, if that made one. Only where an
    /// agent had more arrivals than its lines give, or one number twice, it goes over the requests.
    pub fn arrival_of(&self, agent: u16, k: u32) -> Option<ObjectId>
        ensures { option_map (λ r. r.0) result ≡ requests.arrival_of self.now agent k }
    {
        if !self.arrivals.is_sure(agent, k) {
            return self.find_arrival(agent, k);
        }
        let slot = self.arrivals.slot(agent, k);
        if slot == 0 {
            return None;
        }
        let r = ObjectId(slot - 1);
        if self.is_arrival(agent, k, r) {
            Some(r)
        } else {
            None
        }
    }

    /// The same, over all requests.
    fn find_arrival(&self, agent: u16, k: u32) -> Option<ObjectId>
        ensures { option_map (λ r. r.0) result ≡ requests.arrival_of self.now agent k }
    {
        for id in 0..self.len() {
            if self.is_arrival(agent, k, ObjectId(id)) {
                return Some(ObjectId(id));
            }
        }
        None
    }

    /// Whether some request is Returning to a queue.
    pub fn returns_to(&self, q: ObjectId) -> bool
        ensures { result ≡ list_any (λ r. is_returning_to q.0 r.place) self.now.all }
    {
        if q.0 < OBJECTS {
            self.returning.of(q) > 0
        } else {
            self.all
                .iter()
                .any(|request| is_for(q, returning_queue(request.place)))
        }
    }

    /// Whether some request is Sent to a target.
    pub fn sent_to(&self, t: ObjectId) -> bool
        ensures { result ≡ list_any (λ r. is_sent_to t.0 r.place) self.now.all }
    {
        if t.0 < OBJECTS {
            self.sent.of(t) > 0
        } else {
            self.all
                .iter()
                .any(|request| is_for(t, sent_target(request.place)))
        }
    }

    /// Whether some request that arrived at a device isn't done.
    pub fn unfinished_at(&self, device: ObjectId) -> bool
        ensures { result ≡ list_any (is_unfinished_at device.0) self.now.all }
    {
        if device.0 < OBJECTS {
            self.unfinished.of(device) > 0
        } else {
            self.all
                .iter()
                .any(|request| is_for(device, unfinished_device(*request)))
        }
    }

    /// Whether some request keeps the run from its end: it arrived and isn't done, or the driver
    /// made it and it is sent.
    #[tactic(auto, using(wdf_maps::proofs::Counting::any_counted))]
    pub fn some_open(&self) -> bool
        ensures { result ≡ list_any is_open_request self.now.all }
    {
        self.open_count > 0
    }

    /// How many requests the framework will complete.
    pub fn closing_len(&self) -> u32
        ensures { result ≡ length (closing_requests self.now) }
    {
        self.closing.len()
    }

    /// The k-th request that the framework will complete, by rising id from 0; `None` exactly where there
    /// are fewer.
    pub fn closing_at(&self, k: u32) -> Option<ObjectId>
        ensures { option_map (λ r. r.0) result ≡ slice_get (closing_requests self.now) k }
    {
        object_at(self.closing.at(k))
    }

    /// The first request from an id on that the framework will complete.
    pub fn next_closing(&self, from: ObjectId) -> Option<ObjectId>
        ensures { option_map (λ r. r.0) result ≡ find (nat_le from.0) (closing_requests self.now) }
    {
        object_at(self.closing.from(from.0))
    }

    /// The first request from an id on for which EvtRequestCancel is due.
    pub fn next_due(&self, from: ObjectId) -> Option<ObjectId>
        ensures { option_map (λ r. r.0) result ≡ find (nat_le from.0) (due_requests self.now) }
    {
        object_at(self.due.from(from.0))
    }

    /// The first request from an id on that is Sent.
    pub fn next_sent(&self, from: ObjectId) -> Option<ObjectId>
        ensures { MatchOption result (NoneFrom (is_out self.now) from.0 OBJECTS) (λ r. IsNext (is_out self.now) from.0 OBJECTS r.0) }
    {
        object_at(self.sendings.next(from.0, OBJECTS))
    }

    /// Writes what is kept of a request.
    fn write(&mut self, r: ObjectId, request: Request)
        requires there { r.0 < max (length self.old.all) OBJECTS }
        ensures done { self.new ≡ record self.old { all = put no_request self.old.all r.0 request } }
        ensures size { r.0 < length self.old.all → length self.new.all ≡ length self.old.all }
        ensures there { r.0 < length self.new.all }
        ensures longer { length self.old.all ≤ length self.new.all }
    {
        let old = entry_at(&self.all, NO_REQUEST, r.0);
        self.returning
            .moves(returning_queue(old.place), returning_queue(request.place));
        self.sent
            .moves(sent_target(old.place), sent_target(request.place));
        self.unfinished
            .moves(unfinished_device(old), unfinished_device(request));
        self.open_count = self.open_count + open_flag(request) - open_flag(old);
        self.closing.put(r.0, request.place.is_closing());
        self.due.put(r.0, request.info.mark.is_due());
        self.sendings.put(r.0, request.place.is_sent());
        self.returns.put(r.0, is_back(request.place));
        self.due_held.moves(due_queue(&old), due_queue(&request));
        self.due_sent = self.due_sent + due_sent_flag(&request) - due_sent_flag(&old);
        let info = &request.info;
        self.arrivals.note(info.agent, info.arrival, r.0);
        put_at(&mut self.all, NO_REQUEST, r.0, request);
    }

    /// A request is there from now on. It counts as arrived where it has a number among an agent's
    /// arrivals.
    pub fn arrive(&mut self, r: ObjectId, place: Place, info: RequestInfo)
        requires room { r.0 < OBJECTS }
        requires few { self.old.arrived < EVENTS }
        ensures done { self.new ≡ requests.arrive self.old r.0 place info }
        ensures there { r.0 < length self.new.all }
        ensures longer { length self.old.all ≤ length self.new.all }
    {
        self.write(r, Request { place, info });
        if info.arrival > 0 {
            self.arrived += 1;
        }
    }

    /// A request comes to another place. Its mark is none again, but where it becomes Owned or Done. Where
    /// it becomes Owned from a queue, that is its origin. (KMDF)
    pub fn move_to(&mut self, r: ObjectId, place: Place)
        requires there { r.0 < length self.old.all }
        ensures done { self.new ≡ requests.move_to self.old r.0 place }
        ensures size { length self.new.all ≡ length self.old.all }
    {
        self.write(r, moved(place, self.request(r)));
    }

    /// A request is completed.
    pub fn complete(&mut self, r: ObjectId)
        requires there { r.0 < length self.old.all }
        ensures done { self.new ≡ requests.complete self.old r.0 }
        ensures size { length self.new.all ≡ length self.old.all }
    {
        self.move_to(r, Place::Done);
    }

    /// A request becomes cancelable: SUCCESS, or CANCELLED, and nothing changes, where it is
    /// cancelled. (KMDF: WdfRequestMarkCancelableEx)
    pub fn mark(&mut self, r: ObjectId) -> Status
        requires there { r.0 < length self.old.all }
        ensures answer { result ≡ requests.mark_answer self.old r.0 }
        ensures done { self.new ≡ requests.mark self.old r.0 }
        ensures size { length self.new.all ≡ length self.old.all }
    {
        let request = self.request(r);
        self.write(r, marked(request));
        if request.info.cancelled {
            Status::Cancelled
        } else {
            Status::Success
        }
    }

    /// A request is no longer cancelable: SUCCESS where it was; CANCELLED, and nothing changes,
    /// where EvtRequestCancel is due or has started; else INVALID_DEVICE_REQUEST. (KMDF:
    /// WdfRequestUnmarkCancelable)
    pub fn unmark(&mut self, r: ObjectId) -> Status
        requires there { r.0 < length self.old.all }
        ensures answer { result ≡ requests.unmark_answer self.old r.0 }
        ensures done { self.new ≡ requests.unmark self.old r.0 }
        ensures size { length self.new.all ≡ length self.old.all }
    {
        let request = self.request(r);
        self.write(r, unmarked(request));
        answer_of_mark(request.info.mark)
    }

    /// A request is cancelled; EvtRequestCancel is due where it was cancelable. (KMDF)
    pub fn cancel(&mut self, r: ObjectId)
        requires there { r.0 < length self.old.all }
        ensures done { self.new ≡ requests.cancel self.old r.0 }
        ensures size { length self.new.all ≡ length self.old.all }
    {
        self.write(r, cancelled(self.request(r)));
    }

    /// EvtRequestCancel starts for a request.
    pub fn take_cancel(&mut self, r: ObjectId)
        requires there { r.0 < length self.old.all }
        ensures done { self.new ≡ requests.take_cancel self.old r.0 }
        ensures size { length self.new.all ≡ length self.old.all }
    {
        self.write(r, with_mark(Mark::Taken, self.request(r)));
    }

    /// The object of a request is gone: nothing is kept of it, where the framework is done with it.
    #[tactic(auto, using(wdf_model::proofs::Maps::put_within))]
    pub fn forget(&mut self, r: ObjectId)
        ensures done { self.new ≡ requests.forget self.old r.0 }
        ensures size { length self.new.all ≡ length self.old.all }
    {
        if r.0 < self.len() {
            self.write(r, forgotten(self.request(r)));
        }
    }
}

/// Whether an id is this one.
fn is_for(id: ObjectId, key: Option<ObjectId>) -> bool
    ensures { result ≡ is_at id.0 key }
{
    key == Some(id)
}
