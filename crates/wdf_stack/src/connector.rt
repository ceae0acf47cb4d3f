ghost use Rattle.std.specs.Prelude.{◌≡◌, ◌==◌, ◌-◌, count_by, length, sum_by, IfOk};
ghost use Rattle.wdf_base.specs.declared.declared.PostLine.{PostLine};
ghost use Rattle.wdf_base.specs.declared.script.AgentInfo.{AgentInfo};
ghost use Rattle.wdf_base.specs.Posts as posts;
ghost use Rattle.wdf_model.specs.Plans.{first_device_agent};
ghost use Rattle.wdf_model.specs.agents.Connector as connector;
ghost use Rattle.wdf_model.specs.agents.LowerTarget as target;

use crate::chains::device_handle;
use crate::line::Line;
use std::alloc::Global;
use std::marker::Model;
use wdf_base::{
    AgentInfo, Arg, Call, CallKind, Event, Handle, Memory, ObjectId, Plan, Post, PostLine, Status,
    Value,
};
use wdf_declared::target_of;
use wdf_dev::{handle_in, names};
use wdf_maps::Rising;
use wdf_model::{Arrival, object_in};
use wdf_same::same_value;

/// The most requests that arrive in one run.
const ARRIVALS: u32 = 4096;

/// A connector: a target that is connected to the device below. What is sent to it arrives there, and is done as that device
/// completes it. (own)
#[derive(Drop)]
pub struct Connector {
    /// Its number among the agents.
    agent: u16,
    /// The target object.
    target: ObjectId,
    /// The device below.
    lower: Handle,
    /// The agents before this number are the Plug and Play manager and the apps.
    first: usize,
    /// How many arrivals connectors may still post.
    room: u64,
    /// How many arrivals it has posted.
    posted: u64,
    /// What the requests ask for that arrived.
    arrivals: Rising<Arrival>,
    /// What was sent to it and isn't done, in the order of the sends, as many as its depth.
    line: Line,
}

impl Model for Connector {
    ghost use Rattle.std.specs.Prelude.{◌≡◌};
    ghost use Rattle.wdf_model.specs.agents.Connector.{Connector};

    ghost Value = { Connector };

    ghost view = { λ s. record { agent = s.agent; target = s.target.0; lower = s.lower; depth = s.line.room; first = s.first; room = s.room; posted = s.posted; arrivals = s.arrivals.entries; sent = s.line.sent } };

    ghost invariant = { λ s. s.arrivals.room ≡ 4096 };
}

/// How many requests some lines post.
fn requests_in(lines: &[PostLine]) -> usize
    ensures { result ≡ count_by (λ (l : PostLine). posts.is_request l.post) lines.now }
{
    lines.iter().filter(|line| line.post.is_request()).count()
}

/// How many arrivals connectors may post: as many as may arrive in one run, but for those that the apps post.
fn room_beside(agents: &[AgentInfo]) -> u64
    ensures { result ≡ 4096 - sum_by (λ (a : AgentInfo). count_by (λ (l : PostLine). posts.is_request l.post) a.posts) agents.now }
{
    let mut room = u64::from(ARRIVALS);
    for agent in agents {
        room = room.saturating_sub(requests_in(agent.posts.as_slice()) as u64);
    }
    room
}

/// A request as it is asked of the device below.
fn passed_down(lower: Handle, post: &Post) -> Post
    ensures { result ≡ connector.passed_down lower post.now }
{
    match post {
        Post::Read { length, .. } => Post::Read {
            device: lower,
            length: *length,
        },
        Post::Write { length, .. } => Post::Write {
            device: lower,
            length: *length,
        },
        Post::Control { code, length, .. } => Post::Control {
            device: lower,
            code: *code,
            length: *length,
        },
        other => *other,
    }
}

impl Connector {
    /// The connector of a target to a device, with nothing sent to it. [`Memory`] comes also where its depth doesn't fit
    /// 16 bits.
    pub fn make(
        alloc: Global,
        plan: &Plan,
        o: ObjectId,
        lower: u32,
        agent: u16,
        first: usize,
    ) -> Result<Connector, Memory>
        requires first { first ≡ first_device_agent plan.now }
        ensures { IfOk result (λ made. made ≡ connector.connector_at plan.now o.0 lower agent) }
    {
        let depth = match target_of(plan, o) {
            Some(info) => info.depth,
            None => 0,
        };
        let Ok(depth) = u16::try_from(depth) else {
            return Err(Memory);
        };
        Ok(Connector {
            agent,
            target: o,
            lower: device_handle(plan, lower),
            first,
            room: room_beside(&plan.agents.as_slice()[..first - 1]),
            posted: 0,
            arrivals: Rising::make(alloc, ARRIVALS)?,
            line: Line::make(alloc, depth)?,
        })
    }

    /// Takes notice of an event of the run.
    pub fn feed(&mut self, event: &Event)
        ensures { self.new ≡ connector.connector_after self.old event.now }
    {
        match event {
            Event::Did { call, answer, .. } => self.note_call(call, *answer),
            Event::Waiting { call, .. } => self.note_wait(call),
            Event::Posted {
                agent,
                post,
                answer,
            } => self.note_post(*agent, post, *answer),
            Event::Complete { request, status } => self.note_completion(request.id, *status),
            _ => {}
        }
    }

    /// Takes notice of a call that was answered.
    fn note_call(&mut self, call: &Call, answer: Value)
        ensures { self.new ≡ connector.connector_called self.old call.now answer }
    {
        match call.kind {
            CallKind::WdfRequestSend => self.note_send(call, answer),
            CallKind::WdfRequestCancelSentRequest => self.note_cancel(call, answer),
            CallKind::WdfIoTargetStop => self.note_stop(call),
            CallKind::WdfRequestComplete => self.note_complete(object_in(call.a), call.b),
            _ => {}
        }
    }

    /// Takes notice of a call that waits.
    fn note_wait(&mut self, call: &Call)
        ensures { self.new ≡ connector.connector_awaited self.old call.now }
    {
        if matches!(call.kind, CallKind::WdfIoTargetStop) {
            self.note_stop(call);
        }
    }

    /// A request was sent, if it was to this target and went.
    fn note_send(&mut self, call: &Call, answer: Value)
        ensures { self.new ≡ connector.send_called self.old call.now answer }
    {
        if names(call.b, self.target) && same_value(answer, Value::Num(1)) {
            self.keep(handle_in(call.a));
        }
    }

    /// The driver asked for the cancel of a request that is at its target.
    fn note_cancel(&mut self, call: &Call, answer: Value)
        ensures { self.new ≡ connector.cancel_called self.old call.now answer }
    {
        if same_value(answer, Value::Num(1)) {
            self.cancel(object_in(call.a));
        }
    }

    /// The driver stopped a target; the action 0 cancels what was sent to it.
    fn note_stop(&mut self, call: &Call)
        ensures { self.new ≡ connector.stop_called self.old call.now }
    {
        if names(call.a, self.target) && call.b.is_number(0) {
            self.line.cancel_all();
        }
    }

    /// The driver completed a request with the status of an argument.
    fn note_complete(&mut self, x: ObjectId, status: Arg)
        ensures { self.new ≡ connector.completed_by self.old x.0 status }
    {
        if let Arg::Val(Value::Stat(status)) = status {
            self.note_completion(x, status);
        }
    }

    /// A request is completed.
    fn note_completion(&mut self, x: ObjectId, status: Status)
        ensures { self.new ≡ connector.with_completed self.old x.0 status }
    {
        self.line.complete(x, status);
    }

    /// Takes notice of a post.
    fn note_post(&mut self, agent: u16, post: &Post, answer: Option<Handle>)
        ensures { self.new ≡ connector.connector_posted self.old agent post.now answer }
    {
        match post {
            Post::Read { .. } | Post::Write { .. } | Post::Control { .. } => {
                self.note_arrival(agent, post, answer);
            }
            Post::Cancel { arrival } => self.note_posted_cancel(agent, *arrival, answer),
            Post::Done { request, .. } => {
                if agent == self.agent {
                    self.let_go(request.id);
                }
            }
            _ => {}
        }
    }

    /// An arrival is posted: what it asks for is kept, that of a connector takes room, and its own is of a request here.
    fn note_arrival(&mut self, agent: u16, post: &Post, answer: Option<Handle>)
        ensures { self.new ≡ connector.arrival_posted self.old agent post.now answer }
    {
        self.keep_arrival(post, answer);
        if usize::from(agent) >= self.first {
            self.room = self.room.saturating_sub(1);
        }
        if agent == self.agent {
            self.posted = self.posted.saturating_add(1);
            self.line.arrive(self.posted, answer);
        }
    }

    /// Keeps what a request asks for that arrived, while it keeps fewer than 4,096.
    fn keep_arrival(&mut self, post: &Post, answer: Option<Handle>)
        ensures { self.new ≡ connector.keep_arrival self.old post.now answer }
    {
        if let Some(request) = answer {
            if self.arrivals.len() < ARRIVALS {
                let _ = self.arrivals.put(Arrival {
                    request: request.id,
                    post: passed_down(self.lower, post),
                });
            }
        }
    }

    /// A cancel is posted: it may reach what is here, and one of its own was passed on.
    fn note_posted_cancel(&mut self, agent: u16, arrival: u64, answer: Option<Handle>)
        ensures { self.new ≡ connector.cancel_posted self.old agent arrival answer }
    {
        if let Some(request) = answer {
            self.cancel(request.id);
        }
        if agent == self.agent {
            self.line.pass_on(arrival);
        }
    }

    /// What a request asks for of the device below.
    fn post_for(&self, r: ObjectId) -> Post
        ensures { result ≡ connector.post_for self.now r.0 }
    {
        match self.arrivals.get(r) {
            Some(arrival) => arrival.post,
            None => Post::Control {
                device: self.lower,
                code: 0,
                length: 0,
            },
        }
    }

    /// Keeps one request more, while it keeps fewer than its depth.
    fn keep(&mut self, request: Option<Handle>)
        ensures { self.new ≡ connector.with_sent self.old request }
    {
        if let Some(request) = request {
            if self.line.has_room() {
                let post = self.post_for(request.id);
                self.line.push(request, post);
            }
        }
    }

    /// A request is cancelled, if it is here.
    fn cancel(&mut self, r: ObjectId)
        ensures { self.new ≡ connector.cancelled self.old r.0 }
    {
        self.line.cancel(r);
    }

    /// A request is here no more.
    fn let_go(&mut self, r: ObjectId)
        ensures { self.new ≡ connector.without_request self.old r.0 }
    {
        self.line.let_go(r);
    }

    /// The post for the first request that has one, in the order of the sends.
    pub fn due(&self) -> Option<Post>
        ensures { result ≡ connector.connector_due self.now }
    {
        self.line.post(self.room)
    }
}
