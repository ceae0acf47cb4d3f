ghost use Rattle.std.specs.Prelude.{◌≡◌, ◌≤◌, ◌<◌, length, map, slice_get, Some, IfOk};
ghost use Rattle.std.specs.List.{filter_map, position_or_len};
ghost use Rattle.wdf_model.specs.declared.entries.DeviceAction.{DeviceAction};
ghost use Rattle.wdf_model.specs.Tables as tables;
ghost use Rattle.wdf_model.specs.agents.Device as model;
ghost use Rattle.wdf_dev.specs.Actions.{is_due};
ghost use Rattle.wdf_dev.specs.Ahead.{ahead_of_actions};

use crate::ahead::Ahead;
use crate::device_lines::{actions_of, registers_of, room_for};
use std::alloc::Global;
use std::marker::Model;
use wdf_base::{Access, Action, Event, Memory, ObjectId, Plan, Post, WhenLine};
use wdf_maps::{entry_at, put_at};
use wdf_model::DeviceAction;
use wdf_same::same_access;

/// A device: its registers, the level lines of its interrupts, and its actions. (own)
#[derive(Drop)]
pub struct Device {
    /// Its number among the agents.
    agent: u16,
    /// By the register's number; none for one of another device.
    registers: Vec<Option<u64>>,
    /// By the interrupt's id, whether its level line is 1.
    raised: Vec<bool>,
    /// Its actions, in the order of the text.
    actions: Vec<DeviceAction>,
    /// The tick that the clock shows.
    clock: u64,
    /// What its actions have before them. It changes only with them and with the clock.
    ahead: Ahead,
}

impl Model for Device {
    ghost use Rattle.std.specs.Prelude.{◌≡◌, vec_capacity};
    ghost use Rattle.wdf_model.specs.agents.Device as model;
    ghost use Rattle.wdf_dev.specs.Actions.{IsWithin};
    ghost use Rattle.wdf_dev.specs.Ahead.{ahead_of_actions};

    ghost Value = { model.Device };

    ghost view = { λ s. record { agent = s.agent; registers = s.registers.items; raised = s.raised.items; actions = s.actions.items; clock = s.clock } };

    ghost invariant = { λ s. record { within : IsWithin (vec_capacity s.raised) s.actions.items; ahead : s.ahead ≡ ahead_of_actions s.clock s.actions.items } };
}

/// Whether a tick is reached, if there is one.
fn is_due(now: u64, tick: Option<u64>) -> bool
    ensures { result ≡ model.is_due_at now tick }
{
    tick.is_some_and(|tick| tick <= now)
}

/// A tick that is later, if there is one.
fn later(now: u64, tick: Option<u64>) -> Option<u64>
    ensures { result ≡ model.later_tick now tick }
{
    match tick {
        Some(tick) if now < tick => Some(tick),
        _ => None,
    }
}

/// Whether an access to a register triggers an action.
fn triggers(access: Access, k: u32, trigger: Option<WhenLine>) -> bool
    ensures { result ≡ model.triggers access k trigger }
{
    match trigger {
        Some(when) => same_access(when.access, access) && when.register == k,
        None => false,
    }
}

/// The ticks between a trigger and its action.
fn delay_of(trigger: Option<WhenLine>) -> u64
    ensures { result ≡ model.delay_of trigger }
{
    match trigger {
        Some(when) => when.after,
        None => 0,
    }
}

/// An action after an access: one that it triggers with a delay is due that much later.
fn set_off(access: Access, k: u32, now: u64, action: DeviceAction) -> DeviceAction
    ensures { result ≡ model.set_off access k now action }
{
    let delay = delay_of(action.trigger);
    if triggers(access, k, action.trigger) && delay > 0 {
        DeviceAction {
            tick: Some(now.saturating_add(delay)),
            ..action
        }
    } else {
        action
    }
}

/// What an access to a register sets off.
fn set_off_all(access: Access, k: u32, now: u64, actions: &mut [DeviceAction])
    ensures { actions.new ≡ map (model.set_off access k now) actions.old }
{
    for at in 0..actions.len() {
        actions[at] = set_off(access, k, now, actions[at]);
    }
}

/// The place of the first action that is due, or how many actions there are where none is.
fn first_due(now: u64, actions: &[DeviceAction]) -> usize
    ensures place { result ≡ position_or_len (is_due now) actions.now }
    ensures within { result ≤ length actions.now }
{
    for (at, action) in actions.iter().enumerate() {
        if is_due(now, action.tick) {
            return at;
        }
    }
    actions.len()
}

/// The least later tick of the actions.
fn least_later(now: u64, actions: &[DeviceAction]) -> Option<u64>
    ensures { result ≡ tables.least (filter_map (λ (l : DeviceAction). model.later_tick now l.tick) actions.now) }
{
    actions
        .iter()
        .filter_map(|action| later(now, action.tick))
        .min()
}

/// The action at a place, if there is one.
fn action_at(actions: &[DeviceAction], place: usize) -> Option<DeviceAction>
    ensures { result ≡ slice_get actions.now place }
{
    actions.get(place).copied()
}

/// What actions have before them.
fn ahead_of(now: u64, actions: &[DeviceAction]) -> Ahead
    ensures { result ≡ ahead_of_actions now actions.now }
{
    Ahead {
        first: first_due(now, actions),
        next: least_later(now, actions),
    }
}

impl Device {
    /// A declared device before its first event. It takes room for the level line of each interrupt that
    /// an action names. On [`Memory`] nothing is made.
    pub fn make(alloc: Global, plan: &Plan, device: ObjectId, agent: u16) -> Result<Device, Memory>
        requires { agent ≤ length plan.now.agents }
        ensures { IfOk result (λ made. made ≡ model.device_at plan.now device.0 agent) }
    {
        let actions = actions_of(alloc, plan, device, agent)?;
        let ahead = ahead_of(0, actions.as_slice());
        Ok(Device {
            agent,
            registers: registers_of(alloc, plan, device)?,
            raised: Vec::with_capacity(alloc, room_for(actions.as_slice()))?,
            actions,
            clock: 0,
            ahead,
        })
    }

    /// Takes notice of an event of the run.
    pub fn feed(&mut self, event: &Event)
        ensures { self.new ≡ model.device_after self.old event.now }
    {
        match event {
            Event::Register {
                access,
                register,
                value,
                ..
            } => {
                if self.own_register(*register).is_some() {
                    self.note_access(*access, *register, *value);
                }
            }
            Event::Posted { agent, .. } => {
                if *agent == self.agent {
                    self.note_post();
                }
            }
            Event::Tick { time } => self.note_time(*time),
            _ => {}
        }
    }

    /// The clock moves.
    fn note_time(&mut self, time: u64)
        ensures { self.new ≡ record self.old { clock = time } }
    {
        self.clock = time;
        self.ahead = ahead_of(time, self.actions.as_slice());
    }

    /// Takes notice of an access to a register of its own; a write stores its value first.
    fn note_access(&mut self, access: Access, k: u32, value: u64)
        ensures { self.new ≡ model.accessed access k (model.stored access k value self.old) }
    {
        if matches!(access, Access::Write) {
            self.store(k, value);
        }
        self.trigger(access, k);
    }

    /// What a register of its own holds, none for another.
    fn own_register(&self, k: u32) -> Option<u64>
        ensures { result ≡ model.own_register self.now k }
    {
        entry_at(self.registers.as_slice(), None, k)
    }

    /// A register of its own takes a value.
    fn store(&mut self, k: u32, value: u64)
        ensures { self.new ≡ model.with_register self.old k value }
    {
        if self.own_register(k).is_some() {
            self.registers[k as usize] = Some(value);
        }
    }

    /// An action of its own takes effect.
    fn act(&mut self, at: usize)
        requires { at < length self.old.actions }
        ensures { (a : DeviceAction) → slice_get self.old.actions at ≡ Some a → self.new ≡ model.act_on self.old a.action }
    {
        match self.actions[at].action {
            Action::Set { register, value } => self.store(register, value),
            Action::Raise { interrupt } => put_at(&mut self.raised, false, interrupt.id.0, true),
            Action::Lower { interrupt } => put_at(&mut self.raised, false, interrupt.id.0, false),
        }
    }

    /// An action that an access triggers takes effect at once, if it has no delay.
    fn act_at_once(&mut self, access: Access, k: u32, at: usize)
        requires { at < length self.old.actions }
        ensures { (a : DeviceAction) → slice_get self.old.actions at ≡ Some a → self.new ≡ model.at_once access k self.old a }
    {
        let trigger = self.actions[at].trigger;
        if triggers(access, k, trigger) && delay_of(trigger) == 0 {
            self.act(at);
        }
    }

    /// What an access to a register triggers.
    fn trigger(&mut self, access: Access, k: u32)
        ensures { self.new ≡ model.accessed access k self.old }
    {
        for at in 0..self.actions.len() {
            self.act_at_once(access, k, at);
        }
        set_off_all(access, k, self.clock, self.actions.as_mut_slice());
        self.ahead = ahead_of(self.clock, self.actions.as_slice());
    }

    /// The first action that is due takes effect, and is due no more.
    fn note_post(&mut self)
        ensures { self.new ≡ model.posted_action self.old (model.due_action self.old) }
    {
        let at = self.ahead.first;
        if at < self.actions.len() {
            self.actions[at].tick = None;
            self.ahead = ahead_of(self.clock, self.actions.as_slice());
            self.act(at);
        }
    }

    /// The first action that is due, as a post.
    pub fn due(&self) -> Option<Post>
        ensures { result ≡ model.device_due self.now }
    {
        match action_at(self.actions.as_slice(), self.ahead.first) {
            Some(due) => Some(Post::Act { action: due.action }),
            None => None,
        }
    }

    /// The least later tick of its actions.
    pub fn next_time(&self) -> Option<u64>
        ensures { result ≡ model.device_next self.now }
    {
        self.ahead.next
    }

    /// A register by its number, an interrupt's level line by 64 and its id; 0 for what isn't its own.
    pub fn value(&self, what: u32) -> u64
        ensures { result ≡ model.device_value self.now what }
    {
        if what < 64 {
            self.own_register(what).unwrap_or(0)
        } else {
            u64::from(entry_at(self.raised.as_slice(), false, what - 64))
        }
    }
}
