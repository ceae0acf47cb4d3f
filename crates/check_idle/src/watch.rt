ghost use Rattle.std.specs.Prelude.{◌≡◌, ◌==◌, ◌+◌, ◌&&◌, ◌||◌, codes, false, filter, is_some, nat_le, not, OnOk, Some};
ghost use Rattle.wdf_laws.specs.Laws.{works_at_opening};
ghost use Rattle.wdf_model.specs.Plans.{device_of};
ghost use Rattle.wdf_model.specs.agents.IdlePolicy.{opening_value};
ghost use Rattle.law_idle.specs.Idling.{hold_register};
ghost use Rattle.law_idle.specs.Law.{is_sent_to_sleep, is_sleep_of, is_wake_of, is_woken_by_line};
ghost use Rattle.check_past.specs.Past.{before};
ghost use Rattle.check_idle.specs.Watched as watched;

use crate::rest::{Rest, is_id};
use check_past::Past;
use check_signs::{arrived, arrived_at, completed};
use std::alloc::Global;
use std::marker::Model;
use wdf_base::{Access, Action, Ask, DeviceInfo, Event, Memory, ObjectId, Plan, Post};
use wdf_declared::device_of;
use wdf_idle::{opening_value, register_named, timeout_of};
use wdf_laws::Sign;

/// What is kept of a device with a register `IDLE_TIMEOUT`.
#[derive(Drop)]
pub struct Watch {
    device: u32,
    /// The plan declares it: so the law asks of it at each tick.
    declared: bool,
    /// After how many idle ticks it goes to sleep, 0 where it takes no part.
    timeout: u64,
    /// The number of its register `IDLE_HOLD`, if it has one.
    hold_register: Option<u32>,
    /// A line of the block `pnp` puts it to sleep.
    sent: bool,
    /// A line of the block `pnp` wakes it.
    called: bool,
    awake: Rest,
    asleep: Rest,
    /// The requests that arrived for it and aren't completed.
    pending: Vec<u32>,
    /// The driver keeps it awake.
    held: bool,
    /// The tick since which it may be idle.
    since: u64,
}

impl Model for Watch {
    ghost use Rattle.check_idle.specs.Watched.{Watched};

    ghost Value = { Watched };

    ghost view = { λ w. record {
      device = w.device;
      declared = w.declared;
      timeout = w.timeout;
      hold_register = w.hold_register;
      sent = w.sent;
      called = w.called;
      awake = w.awake;
      asleep = w.asleep;
      pending = w.pending.items;
      held = w.held;
      since = w.since;
    } };
}

/// Whether the plan declares the device.
fn is_declared(plan: &Plan, device: u32) -> bool
    ensures { result ≡ is_some (device_of plan.now device) }
{
    device_of(plan, ObjectId(device)).is_some()
}

/// Whether a device works at the opening.
fn works(device: Option<DeviceInfo>) -> bool
    ensures { result ≡ works_at_opening device }
{
    match device {
        Some(info) => info.working,
        None => false,
    }
}

/// A device that works at the opening is awake there.
fn awake_at_opening(plan: &Plan, device: u32) -> Rest
    ensures { result ≡ record { now = works_at_opening (device_of plan.now device); before = false } }
{
    Rest {
        current: works(device_of(plan, ObjectId(device))),
        earlier: false,
    }
}

/// The number of the device's register `IDLE_HOLD`, if it has one.
fn hold_register(plan: &Plan, device: u32) -> Option<u32>
    ensures { result ≡ hold_register plan.now device }
{
    register_named(plan, ObjectId(device), "IDLE_HOLD".as_bytes())
}

/// Whether the driver keeps the device awake at the opening.
fn is_held_at_opening(plan: &Plan, device: u32) -> bool
    ensures { result ≡ not (opening_value plan.now device (codes "IDLE_HOLD") == 0) }
{
    opening_value(plan, ObjectId(device), "IDLE_HOLD".as_bytes()) != 0
}

fn is_sleep(post: &Post, device: u32) -> bool
    ensures { result ≡ is_sleep_of device post.now }
{
    match post {
        Post::Ask { ask, device: asked } => match ask {
            Ask::Sleep => asked.id.0 == device,
            _ => false,
        },
        _ => false,
    }
}

fn is_wake(post: &Post, device: u32) -> bool
    ensures { result ≡ is_wake_of device post.now }
{
    match post {
        Post::Ask { ask, device: asked } => match ask {
            Ask::Wake => asked.id.0 == device,
            _ => false,
        },
        _ => false,
    }
}

/// Whether a line of the block `pnp` puts the device to sleep.
fn is_sent(plan: &Plan, device: u32) -> bool
    ensures { result ≡ is_sent_to_sleep plan.now device }
{
    plan.pnp
        .as_slice()
        .iter()
        .any(|line| is_sleep(&line.post, device))
}

/// Whether a line of the block `pnp` wakes it.
fn is_called(plan: &Plan, device: u32) -> bool
    ensures { result ≡ is_woken_by_line plan.now device }
{
    plan.pnp
        .as_slice()
        .iter()
        .any(|line| is_wake(&line.post, device))
}

/// The request that an event brings to a device.
fn arrival_for(device: u32, event: &Event) -> Option<u32>
    ensures { result ≡ watched.arrival_for device event.now }
{
    if is_id(device, arrived_at(event)) {
        arrived(event)
    } else {
        None
    }
}

fn drop_request(pending: &mut Vec<u32>, done: u32)
    ensures { pending.new.items ≡ filter (λ r. not (r == done)) pending.old.items }
{
    pending.retain(|request| *request != done);
}

impl Watch {
    /// A device before the first event.
    pub fn open(alloc: Global, plan: &Plan, device: u32) -> Watch
        ensures { result ≡ watched.opened plan.now device }
    {
        Watch {
            device,
            declared: is_declared(plan, device),
            timeout: timeout_of(plan, ObjectId(device)),
            hold_register: hold_register(plan, device),
            sent: is_sent(plan, device),
            called: is_called(plan, device),
            awake: awake_at_opening(plan, device),
            asleep: Rest {
                current: false,
                earlier: false,
            },
            pending: Vec::new(alloc),
            held: is_held_at_opening(plan, device),
            since: 0,
        }
    }

    /// Takes notice of an event that comes after those that were read, at this tick.
    pub fn feed(&mut self, past: &Past, now: u64, event: &Event) -> Result<(), Memory>
        ensures { OnOk result (self.new ≡ watched.watched_after (before past.now) now event.now self.old) }
    {
        let was_awake = self.awake.current;
        let was_used = self.is_used();
        let was_held = self.held;
        self.stir(past, event)?;
        if self.starts_anew(was_awake, was_used, was_held) {
            self.since = now;
        }
        Ok(())
    }

    /// An event changes each part by itself.
    fn stir(&mut self, past: &Past, event: &Event) -> Result<(), Memory>
        ensures { OnOk result (self.new ≡ watched.stirred (before past.now) event.now self.old) }
    {
        self.awake = self.awake.awake_after(self.device, event);
        self.asleep = self.asleep.asleep_after(self.device, event);
        self.held = self.held_after(event);
        self.note_arrival(past, arrival_for(self.device, event))?;
        self.note_completion(completed(event));
        Ok(())
    }

    /// Whether it became awake, its last pending request was completed, or its hold ended.
    fn starts_anew(&self, was_awake: bool, was_used: bool, was_held: bool) -> bool
        ensures { result ≡ ((not was_awake && self.now.awake.now) || (was_used && not (watched.is_used self.now)) || (was_held && not self.now.held)) }
    {
        (!was_awake && self.awake.current)
            || (was_used && !self.is_used())
            || (was_held && !self.held)
    }

    /// A request that arrives is pending, if it isn't completed by the events that were read.
    fn note_arrival(&mut self, past: &Past, arrival: Option<u32>) -> Result<(), Memory>
        ensures { OnOk result (self.new ≡ record self.old { pending = watched.with_arrival (before past.now) arrival self.old.pending }) }
    {
        match arrival {
            Some(request) => self.keep(past, request),
            None => Ok(()),
        }
    }

    fn keep(&mut self, past: &Past, request: u32) -> Result<(), Memory>
        ensures { OnOk result (self.new ≡ record self.old { pending = watched.with_arrival (before past.now) (Some request) self.old.pending }) }
    {
        if !past.ever(Sign::Completion(request)) {
            self.pending.push(request)?;
        }
        Ok(())
    }

    /// A request that is completed is pending no more.
    fn note_completion(&mut self, completion: Option<u32>)
        ensures { self.new ≡ record self.old { pending = watched.without_completed completion self.old.pending } }
    {
        match completion {
            Some(request) => drop_request(&mut self.pending, request),
            None => {}
        }
    }

    /// Whether the driver keeps it awake after a register took a number.
    fn held_with(&self, register: u32, value: u64) -> bool
        ensures { result ≡ watched.held_with self.now.hold_register self.now.held register value }
    {
        if self.hold_register == Some(register) {
            value != 0
        } else {
            self.held
        }
    }

    fn held_by_action(&self, action: Action) -> bool
        ensures { result ≡ watched.held_by_action self.now.hold_register self.now.held action }
    {
        match action {
            Action::Set { register, value } => self.held_with(register, value),
            _ => self.held,
        }
    }

    fn held_by_post(&self, post: &Post) -> bool
        ensures { result ≡ watched.held_by_post self.now.hold_register self.now.held post.now }
    {
        match post {
            Post::Act { action } => self.held_by_action(*action),
            _ => self.held,
        }
    }

    /// Whether the driver keeps it awake after an event.
    fn held_after(&self, event: &Event) -> bool
        ensures { result ≡ watched.held_after self.now.hold_register event.now self.now.held }
    {
        match event {
            Event::Register {
                access,
                register,
                value,
                ..
            } => match access {
                Access::Write => self.held_with(*register, *value),
                Access::Read => self.held,
            },
            Event::Posted { post, .. } => self.held_by_post(post),
            _ => self.held,
        }
    }

    /// Whether a request is pending.
    fn is_used(&self) -> bool
        ensures { result ≡ watched.is_used self.now }
    {
        !self.pending.as_slice().is_empty()
    }

    /// Whether nobody uses it, and nobody keeps it awake.
    fn is_idle(&self) -> bool
        ensures { result ≡ watched.is_idle self.now }
    {
        self.awake.current && !self.is_used() && !self.held
    }

    /// Whether it sleeps while a request is pending.
    fn is_wanted(&self) -> bool
        ensures { result ≡ (self.now.asleep.now && watched.is_used self.now) }
    {
        self.asleep.current && self.is_used()
    }

    /// Whether its idle ticks are over, counted from where it may be idle.
    fn is_over(&self, now: u64) -> bool
        ensures { result ≡ nat_le (self.now.since + self.now.timeout) now }
    {
        self.since <= now && self.timeout <= now - self.since
    }

    /// Whether this is the very tick at which they are over.
    fn is_due(&self, now: u64) -> bool
        ensures { result ≡ (now == self.now.since + self.now.timeout) }
    {
        self.since <= now && self.timeout == now - self.since
    }

    fn keeps_ask(&self, now: u64, ask: Ask) -> bool
        ensures { result ≡ watched.keeps_ask now ask self.now }
    {
        match ask {
            Ask::Sleep => self.sent || (self.is_idle() && self.is_due(now)),
            Ask::Wake => self.called || self.is_wanted(),
            _ => true,
        }
    }

    fn keeps_post(&self, now: u64, post: &Post) -> bool
        ensures { result ≡ watched.keeps_post now post.now self.now }
    {
        match post {
            Post::Ask { ask, device } => device.id.0 != self.device || self.keeps_ask(now, *ask),
            _ => true,
        }
    }

    fn rests_well(&self, now: u64) -> bool
        ensures { result ≡ watched.rests_well now self.now }
    {
        !self.is_wanted() && !(self.is_idle() && self.is_over(now))
    }

    fn keeps_event(&self, now: u64, event: &Event) -> bool
        ensures { result ≡ watched.keeps_event now event.now self.now }
    {
        match event {
            Event::Tick { .. } => !self.declared || self.rests_well(now),
            Event::Posted { post, .. } => self.keeps_post(now, post),
            _ => true,
        }
    }

    /// Whether an event that comes at this tick keeps the law of this device.
    pub fn keeps(&self, now: u64, event: &Event) -> bool
        ensures { result ≡ watched.keeps now event.now self.now }
    {
        self.timeout == 0 || self.keeps_event(now, event)
    }
}
