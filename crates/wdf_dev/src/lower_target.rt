ghost use Rattle.std.specs.Prelude.{◌≡◌, ◌≤◌, ◌==◌, map, filter, not, slice_get, vec_capacity, IfOk};
ghost use Rattle.wdf_model.specs.declared.entries.SentRequest.{SentRequest};
ghost use Rattle.std.specs.List.{filter_map, position_or_len};
ghost use Rattle.wdf_model.specs.Tables as tables;
ghost use Rattle.wdf_model.specs.agents.LowerTarget as target;
ghost use Rattle.wdf_model.specs.State as state;
ghost use Rattle.wdf_dev.specs.Ahead.{ahead_of_sent};

use crate::ahead::Ahead;
use std::alloc::Global;
use std::marker::Model;
use wdf_base::{
    Arg, Call, CallKind, Event, Handle, Memory, ObjectId, Plan, Post, Status, Value, same_object_id,
};
use wdf_declared::target_of;
use wdf_model::{SentRequest, object_in};
use wdf_same::same_value;

/// The driver below: it keeps what is sent to it in order, each for a stated time. (own)
#[derive(Drop)]
pub struct LowerTarget {
    /// Its number among the agents.
    agent: u16,
    /// The target object.
    target: ObjectId,
    /// The ticks that a request takes.
    delay: u64,
    /// The status with which a request is done.
    status: Status,
    /// The most requests that it keeps.
    depth: u64,
    /// What it keeps, in the order of the sends.
    sent: Vec<SentRequest>,
    /// The tick that the clock shows.
    clock: u64,
    /// What these requests have before them. It changes only with them and with the clock.
    ahead: Ahead,
}

impl Model for LowerTarget {
    ghost use Rattle.std.specs.Prelude.{◌≡◌, ◌≤◌, vec_capacity};
    ghost use Rattle.wdf_model.specs.agents.LowerTarget.{LowerTarget};
    ghost use Rattle.wdf_dev.specs.Ahead.{ahead_of_sent};

    ghost Value = { LowerTarget };

    ghost view = { λ s. record { agent = s.agent; target = s.target.0; delay = s.delay; status = s.status; depth = s.depth; sent = s.sent.items; clock = s.clock } };

    ghost invariant = { λ s. record { room : s.depth ≤ vec_capacity s.sent; ahead : s.ahead ≡ ahead_of_sent s.clock s.sent.items } };
}

/// The object that an argument names.
pub fn handle_in(argument: Arg) -> Option<Handle>
    ensures { result ≡ target.handle_in_arg argument }
{
    match argument {
        Arg::Val(Value::Obj(handle)) => Some(handle),
        _ => None,
    }
}

/// Whether a request is due: some ticks after its send, and at once where it is to be cancelled.
fn is_due(now: u64, sent: &SentRequest) -> bool
    ensures { result ≡ target.is_due_sent now sent.now }
{
    sent.told || sent.tick <= now
}

/// Whether an argument names this object.
pub fn names(argument: Arg, o: ObjectId) -> bool
    ensures { result ≡ (state.object_in argument == o.0) }
{
    same_object_id(object_in(argument), o)
}

/// A request as it is to be cancelled, if it is this one.
fn told_one(sent: SentRequest, r: ObjectId) -> SentRequest
    ensures { result ≡ target.told_one r.0 sent }
{
    SentRequest {
        told: sent.told || same_object_id(sent.request.id, r),
        ..sent
    }
}

/// The target is told to cancel a request, if it is there.
fn tell_one(sent: &mut [SentRequest], r: ObjectId)
    ensures { sent.new ≡ map (target.told_one r.0) sent.old }
{
    for k in 0..sent.len() {
        sent[k] = told_one(sent[k], r);
    }
}

/// The target is told to cancel all that is there.
fn tell_all(sent: &mut [SentRequest])
    ensures { sent.new ≡ map target.told_any sent.old }
{
    for k in 0..sent.len() {
        sent[k] = SentRequest {
            told: true,
            ..sent[k]
        };
    }
}

/// The status with which a request is done: that of its target, or CANCELLED.
fn final_status(own: Status, sent: SentRequest) -> Status
    ensures { result ≡ target.final_status own sent }
{
    if sent.told { Status::Cancelled } else { own }
}

/// The tick at which a request is due later, none where it is due.
fn later(now: u64, sent: &SentRequest) -> Option<u64>
    ensures { result ≡ target.later_sent now sent.now }
{
    if is_due(now, sent) {
        None
    } else {
        Some(sent.tick)
    }
}

/// The least of the ticks at which requests are due later.
fn least_later(now: u64, sent: &[SentRequest]) -> Option<u64>
    ensures { result ≡ tables.least (filter_map (target.later_sent now) sent.now) }
{
    sent.iter().filter_map(|request| later(now, request)).min()
}

/// The place of the first request that is due, or how many there are where none is.
fn first_due(now: u64, sent: &[SentRequest]) -> usize
    ensures { result ≡ position_or_len (target.is_due_sent now) sent.now }
{
    for (at, request) in sent.iter().enumerate() {
        if is_due(now, request) {
            return at;
        }
    }
    sent.len()
}

/// The request at a place, if there is one.
fn sent_at(sent: &[SentRequest], place: usize) -> Option<SentRequest>
    ensures { result ≡ slice_get sent.now place }
{
    sent.get(place).copied()
}

/// What requests have before them.
fn ahead_of(now: u64, sent: &[SentRequest]) -> Ahead
    ensures { result ≡ ahead_of_sent now sent.now }
{
    Ahead {
        first: first_due(now, sent),
        next: least_later(now, sent),
    }
}

/// Takes a request away.
fn drop_request(sent: &mut Vec<SentRequest>, r: ObjectId)
    ensures items { sent.new.items ≡ filter (λ (s : SentRequest). not (s.request.id.0 == r.0)) sent.old.items }
    ensures capacity { vec_capacity sent.new ≡ vec_capacity sent.old }
{
    sent.retain(|request| !same_object_id(request.request.id, r));
}

impl LowerTarget {
    /// The agent of a declared target, with nothing sent to it. One that isn't declared takes
    /// nothing. [`Memory`] comes also where its depth doesn't fit `usize`.
    pub fn make(alloc: Global, plan: &Plan, o: ObjectId, agent: u16) -> Result<LowerTarget, Memory>
        ensures { IfOk result (λ made. made ≡ target.target_at plan.now o.0 agent) }
    {
        let (delay, status, depth) = match target_of(plan, o) {
            Some(info) => (info.delay, info.status, info.depth),
            None => (0, Status::Success, 0),
        };
        let Ok(room) = usize::try_from(depth) else {
            return Err(Memory);
        };
        Ok(LowerTarget {
            agent,
            target: o,
            delay,
            status,
            depth,
            sent: Vec::with_capacity(alloc, room)?,
            clock: 0,
            ahead: ahead_of(0, &[]),
        })
    }

    /// Takes notice of an event of the run.
    pub fn feed(&mut self, event: &Event)
        ensures { self.new ≡ target.target_after self.old event.now }
    {
        match event {
            Event::Did { call, answer, .. } => self.note_call(call, *answer),
            Event::Waiting { call, .. } => self.note_wait(call),
            Event::Posted {
                agent,
                post,
                answer,
            } => self.note_post(*agent, post, *answer),
            Event::Tick { time } => self.note_time(*time),
            _ => {}
        }
    }

    /// The clock moves.
    fn note_time(&mut self, time: u64)
        ensures { self.new ≡ record self.old { clock = time } }
    {
        self.clock = time;
        self.ahead = ahead_of(time, self.sent.as_slice());
    }

    /// Takes notice of a call that was answered.
    fn note_call(&mut self, call: &Call, answer: Value)
        ensures { self.new ≡ target.target_called self.old call.now answer }
    {
        match call.kind {
            CallKind::WdfRequestSend => self.note_send(call, answer),
            CallKind::WdfRequestCancelSentRequest => self.note_cancel(call, answer),
            CallKind::WdfIoTargetStop => self.note_stop(call),
            _ => {}
        }
    }

    /// Takes notice of a call that waits.
    fn note_wait(&mut self, call: &Call)
        ensures { self.new ≡ target.target_awaited self.old call.now }
    {
        if matches!(call.kind, CallKind::WdfIoTargetStop) {
            self.note_stop(call);
        }
    }

    /// A request was sent, if it was to this target and went.
    fn note_send(&mut self, call: &Call, answer: Value)
        ensures { self.new ≡ target.send_called self.old call.now answer }
    {
        if names(call.b, self.target) && same_value(answer, Value::Num(1)) {
            self.keep(handle_in(call.a));
        }
    }

    /// The driver asked for the cancel of a request that is at its target.
    fn note_cancel(&mut self, call: &Call, answer: Value)
        ensures { self.new ≡ target.cancel_called self.old call.now answer }
    {
        if same_value(answer, Value::Num(1)) {
            self.cancel(object_in(call.a));
        }
    }

    /// The driver stopped a target; the action 0 cancels what was sent to it.
    fn note_stop(&mut self, call: &Call)
        ensures { self.new ≡ target.stop_called self.old call.now }
    {
        if names(call.a, self.target) && call.b.is_number(0) {
            self.cancel_all();
        }
    }

    /// Takes notice of a post: its own says that a request is done, a cancel may reach what it keeps.
    fn note_post(&mut self, agent: u16, post: &Post, answer: Option<Handle>)
        ensures { self.new ≡ target.target_posted self.old agent post.now answer }
    {
        match post {
            Post::Done { request, .. } => {
                if agent == self.agent {
                    self.let_go(request.id);
                }
            }
            Post::Cancel { .. } => {
                if let Some(request) = answer {
                    self.cancel(request.id);
                }
            }
            _ => {}
        }
    }

    /// Keeps one request more, while it keeps fewer than its depth.
    fn keep(&mut self, request: Option<Handle>)
        ensures { self.new ≡ target.with_sent self.old request }
    {
        if let Some(request) = request {
            if (self.sent.len() as u64) < self.depth {
                self.sent.push_reserved(SentRequest {
                    request,
                    tick: self.clock.saturating_add(self.delay),
                    told: false,
                });
                self.ahead = ahead_of(self.clock, self.sent.as_slice());
            }
        }
    }

    /// A request is to be cancelled, if it is here.
    fn cancel(&mut self, r: ObjectId)
        ensures { self.new ≡ target.told self.old r.0 }
    {
        tell_one(self.sent.as_mut_slice(), r);
        self.ahead = ahead_of(self.clock, self.sent.as_slice());
    }

    /// All that is here is to be cancelled.
    fn cancel_all(&mut self)
        ensures { self.new ≡ target.told_all self.old }
    {
        tell_all(self.sent.as_mut_slice());
        self.ahead = ahead_of(self.clock, self.sent.as_slice());
    }

    /// A request is here no more.
    fn let_go(&mut self, r: ObjectId)
        ensures { self.new ≡ target.without_request self.old r.0 }
    {
        drop_request(&mut self.sent, r);
        self.ahead = ahead_of(self.clock, self.sent.as_slice());
    }

    /// The first request that is due, as done with its status, or with CANCELLED.
    pub fn due(&self) -> Option<Post>
        ensures { result ≡ target.target_due self.now }
    {
        match sent_at(self.sent.as_slice(), self.ahead.first) {
            Some(sent) => Some(Post::Done {
                request: sent.request,
                status: final_status(self.status, sent),
            }),
            None => None,
        }
    }

    /// The least later tick at which a request is due.
    pub fn next_time(&self) -> Option<u64>
        ensures { result ≡ target.target_next self.now }
    {
        self.ahead.next
    }
}
