ghost use Rattle.std.specs.Prelude.{◌≡◌, ◌+◌, ◌<◌, ◌^◌, ◌==◌, ◌&&◌, ◌||◌, false, length, nat_le, not, vec_capacity};
ghost use Rattle.wdf_base.specs.Callbacks.{is_query};
ghost use Rattle.wdf_model.specs.Tables.{entry, flag, put};
ghost use Rattle.wdf_model.specs.agents.IdlePolicy as model;
ghost use Rattle.wdf_idle.specs.Parts.{acted, arrived, asked, numbered, posted, staged};

use std::marker::Model;
use wdf_base::{
    Access, Action, Ask, Call, CallKind, Callback, Event, Handle, ObjectId, Post, Stage, Status,
    Value, same_object_id,
};
use wdf_maps::{entry_at, put_at};
use wdf_model::object_in;
use wdf_same::same_value;

/// The most requests that arrive in a run. (own)
const ARRIVALS: u32 = 4_096;

/// A device that takes part: what the policy knows of it. (own)
#[derive(Drop)]
pub struct IdleDevice {
    pub(crate) device: Handle,
    /// After how many idle ticks it goes to sleep.
    pub(crate) timeout: u64,
    /// The number of its register IDLE_HOLD, if it has one.
    pub(crate) hold_register: Option<u32>,
    /// The ids of the objects of a run are below this.
    pub(crate) room: u64,
    /// It is Working, and nothing is asked of it.
    pub(crate) awake: bool,
    /// It is Sleeping, and nothing is asked of it.
    pub(crate) asleep: bool,
    /// Whether it was awake when something was last asked of it.
    pub(crate) was_awake: bool,
    /// Whether it was asleep then.
    pub(crate) was_asleep: bool,
    /// By a request's id, whether it has arrived for the device and isn't completed.
    pub(crate) pending: Vec<bool>,
    /// How many requests are pending.
    pub(crate) count: u32,
    /// The tick at which it last became awake, the last pending request was completed, or the hold ended.
    pub(crate) since: u64,
    /// The driver keeps it awake.
    pub(crate) hold: bool,
}

impl Model for IdleDevice {
    ghost use Rattle.std.specs.Prelude.{◌≡◌, ◌≤◌, vec_capacity};
    ghost use Rattle.wdf_model.specs.agents.IdlePolicy as model;

    ghost Value = { model.IdleDevice };

    ghost view = { λ s. record {
      device = s.device;
      timeout = s.timeout;
      hold_register = s.hold_register;
      room = s.room;
      awake = s.awake;
      asleep = s.asleep;
      was_awake = s.was_awake;
      was_asleep = s.was_asleep;
      pending = s.pending.items;
      since = s.since;
      hold = s.hold;
    } };

    ghost invariant = { λ s. record { counted : s.count ≡ model.count_of s.pending.items; room : s.room ≤ vec_capacity s.pending } };
}

/// How many bits there are with one more, which may be there already.
fn with_one(count: u32, bits: &[bool], id: u32) -> u32
    requires { count + 1 < 2 ^ 32 }
    ensures { result + flag (entry false bits.now id) ≡ count + 1 }
{
    if entry_at(bits, false, id) {
        count
    } else {
        count + 1
    }
}

/// A bit that is there is taken away.
#[tactic(auto, using(wdf_model::proofs::Maps::put_within))]
fn clear(bits: &mut Vec<bool>, id: u32)
    requires { id < length bits.old.items }
    ensures bits { bits.new.items ≡ put false bits.old.items id false }
    ensures room { vec_capacity bits.new ≡ vec_capacity bits.old }
{
    bits[id as usize] = false;
}

/// Whether a post takes a working device away.
pub fn ends_awake(ask: Ask) -> bool
    ensures { result ≡ model.ends_awake ask }
{
    matches!(
        ask,
        Ask::Sleep | Ask::Rebalance | Ask::Remove | Ask::Surprise
    )
}

/// Whether a post takes a sleeping device away.
pub fn ends_asleep(ask: Ask) -> bool
    ensures { result ≡ model.ends_asleep ask }
{
    matches!(ask, Ask::Wake | Ask::Remove | Ask::Surprise)
}

/// Whether the driver of a sleeping device may refuse by this callback what is asked.
fn is_removal_query(callback: Callback) -> bool
    ensures { result ≡ model.is_removal_query callback }
{
    matches!(callback, Callback::EvtDeviceQueryRemove)
}

impl IdleDevice {
    /// Takes notice of an event of the run, at this tick.
    pub fn feed(&mut self, now: u64, event: &Event)
        ensures { self.new ≡ model.idle_after now event.now self.old }
    {
        let was_awake = self.awake;
        let was_used = self.count > 0;
        let was_held = self.hold;
        self.change(event);
        if self.starts_anew(was_awake, was_used, was_held) {
            self.since = now;
        }
    }

    /// Whether it became awake, the last pending request was completed, or the hold ended.
    fn starts_anew(&self, was_awake: bool, was_used: bool, was_held: bool) -> bool
        ensures { result ≡ ((not was_awake && self.now.awake) || (was_used && model.count_of self.now.pending == 0) || (was_held && not self.now.hold)) }
    {
        (!was_awake && self.awake) || (was_used && self.count == 0) || (was_held && !self.hold)
    }

    /// An event changes each part by itself.
    #[tactic(auto, using(crate::proofs::Changes::by_stage, crate::proofs::Changes::by_post))]
    fn change(&mut self, event: &Event)
        ensures { self.new ≡ model.changed self.old event.now }
    {
        match event {
            Event::Stage { device, stage, .. } => self.note_stage(*device, *stage),
            Event::Posted { post, answer, .. } => self.note_post(post, *answer),
            Event::End {
                callback,
                object,
                value,
                ..
            } => self.note_end(*callback, *object, *value),
            Event::Register {
                access,
                register,
                value,
                ..
            } => match access {
                Access::Write => self.note_number(*register, *value),
                Access::Read => {}
            },
            Event::Did { call, .. } => self.note_call(call),
            Event::Complete { request, .. } => self.complete(request.id),
            _ => {}
        }
    }

    /// Whether a handle is that of this device.
    fn is(&self, device: Handle) -> bool
        ensures { result ≡ model.is_of self.now device }
    {
        same_object_id(device.id, self.device.id)
    }

    /// A device passes a stage.
    fn note_stage(&mut self, device: Handle, stage: Stage)
        ensures { self.new ≡ staged self.old device stage }
    {
        match stage {
            Stage::Working => self.awake = self.awake || self.is(device),
            Stage::Sleeping => self.asleep = self.asleep || self.is(device),
            _ => {}
        }
    }

    /// Something is posted.
    fn note_post(&mut self, post: &Post, answer: Option<Handle>)
        ensures { self.new ≡ posted self.old post.now answer }
    {
        match post {
            Post::Ask { ask, device } => self.note_ask(*ask, *device),
            Post::Act { action } => self.note_action(*action),
            Post::Read { device, .. } | Post::Write { device, .. } | Post::Control { device, .. } =>
                self.note_arrival(*device, answer),
            _ => {}
        }
    }

    /// Something is asked of a device.
    fn note_ask(&mut self, ask: Ask, device: Handle)
        ensures { self.new ≡ asked self.old device ask }
    {
        if self.is(device) {
            self.was_awake = self.awake;
            self.was_asleep = self.asleep;
            self.awake = self.awake && !ends_awake(ask);
            self.asleep = self.asleep && !ends_asleep(ask);
        }
    }

    /// A device does something.
    fn note_action(&mut self, action: Action)
        ensures { self.new ≡ acted self.old action }
    {
        if let Action::Set { register, value } = action {
            self.note_number(register, value);
        }
    }

    /// A register takes a number.
    fn note_number(&mut self, register: u32, value: u64)
        ensures { self.new ≡ numbered self.old register value }
    {
        if self.hold_register == Some(register) {
            self.hold = value != 0;
        }
    }

    /// A callback ended.
    fn note_end(&mut self, callback: Callback, object: Handle, value: Value)
        ensures { self.new ≡ record self.old {
          awake = self.old.awake || (self.old.was_awake && is_query callback && model.is_refusal self.old object value);
          asleep = self.old.asleep || (self.old.was_asleep && model.is_removal_query callback && model.is_refusal self.old object value);
        } }
    {
        let refused = self.is(object) && !same_value(value, Value::Stat(Status::Success));
        self.awake = self.awake || (self.was_awake && callback.is_query() && refused);
        self.asleep = self.asleep || (self.was_asleep && is_removal_query(callback) && refused);
    }

    /// A call was answered.
    fn note_call(&mut self, call: &Call)
        ensures { self.new ≡ record self.old { pending = model.pending_after_call self.old.pending call.now } }
    {
        if matches!(call.kind, CallKind::WdfRequestComplete) {
            self.complete(object_in(call.a));
        }
    }

    /// A request arrived for a device, or none did.
    fn note_arrival(&mut self, device: Handle, answer: Option<Handle>)
        ensures { self.new ≡ arrived self.old device answer }
    {
        if let Some(request) = answer {
            if self.is(device) {
                self.keep(request.id);
            }
        }
    }

    /// A request is pending.
    fn keep(&mut self, request: ObjectId)
        ensures { self.new ≡ record self.old { pending = model.with_arrival self.old request.0 } }
    {
        if u64::from(request.0) < self.room && self.count < ARRIVALS {
            self.count = with_one(self.count, self.pending.as_slice(), request.0);
            put_at(&mut self.pending, false, request.0, true);
        }
    }

    /// A request is pending no more.
    fn complete(&mut self, request: ObjectId)
        ensures { self.new ≡ record self.old { pending = model.with_completion self.old.pending request.0 } }
    {
        if entry_at(self.pending.as_slice(), false, request.0) {
            self.count -= 1;
            clear(&mut self.pending, request.0);
        }
    }

    /// Whether it sleeps while a request is pending.
    fn is_wanted(&self) -> bool
        ensures { result ≡ model.is_wanted self.now }
    {
        self.asleep && self.count > 0
    }

    /// Whether nobody uses it, and nobody keeps it awake.
    fn is_idle(&self) -> bool
        ensures { result ≡ model.is_idle self.now }
    {
        self.awake && self.count == 0 && !self.hold
    }

    /// Whether its idle ticks are over, counted from where it may be idle.
    fn is_over(&self, now: u64) -> bool
        ensures { result ≡ nat_le (self.now.since + self.now.timeout) now }
    {
        self.since <= now && self.timeout <= now - self.since
    }

    /// What is due for it at this tick.
    pub fn post(&self, now: u64) -> Option<Post>
        ensures { result ≡ model.idle_post now self.now }
    {
        if self.is_wanted() {
            Some(Post::Ask {
                ask: Ask::Wake,
                device: self.device,
            })
        } else if self.is_idle() && self.is_over(now) {
            Some(Post::Ask {
                ask: Ask::Sleep,
                device: self.device,
            })
        } else {
            None
        }
    }

    /// The later tick at which it will have been idle long enough, if it is idle.
    pub fn later_sleep(&self, now: u64) -> Option<u64>
        ensures { result ≡ model.later_sleep now self.now }
    {
        if self.is_idle() && !self.is_over(now) {
            Some(self.since.saturating_add(self.timeout))
        } else {
            None
        }
    }
}
