ghost use Rattle.std.specs.Prelude.{◌≡◌, false, map, option_map, slice_get, unwrap_or, IfOk};
ghost use Rattle.wdf_model.specs.Plans as plans;
ghost use Rattle.wdf_model.specs.Plans.{devices_of, targets_of};
ghost use Rattle.wdf_model.specs.agents.Chains as chains;
ghost use Rattle.wdf_model.specs.agents.StackManager as manager;
ghost use Rattle.wdf_model.specs.parts.Pnp as pnp;

use crate::chains::{above, below, device_handle};
use std::alloc::Global;
use std::marker::Model;
use wdf_base::{
    Ask, Callback, Event, Handle, Items, MANY, Memory, ObjectId, Plan, Post, PostLine, Stage,
    Value, same_object_id,
};
use wdf_declared::device_of;
use wdf_model::{AskPost, Phase, StackDevice};

/// The stack manager: it posts each line for the whole chain of the line's device, a post when the one before has ended. It is
/// agent 0, in place of the Plug and Play manager. (own)
#[derive(Drop)]
pub struct StackManager {
    /// What its lines post.
    lines: Items<PostLine, MANY>,
    /// How many of them it has begun.
    begun: u32,
    /// The devices by id.
    devices: Vec<StackDevice>,
    /// The next post of the line under way.
    rest: Option<AskPost>,
    /// The post whose end it waits for.
    awaited: Option<AskPost>,
    /// The tick that the clock shows.
    clock: u64,
}

impl Model for StackManager {
    ghost use Rattle.wdf_model.specs.agents.StackManager.{StackManager};

    ghost Value = { StackManager };

    ghost view = { λ s. record { lines = s.lines; begun = s.begun; devices = s.devices.items; rest = s.rest; awaited = s.awaited; clock = s.clock } };
}

/// The handle of a device that is there.
fn handle_if_any(plan: &Plan, device: Option<u32>) -> Option<Handle>
    ensures { result ≡ option_map (chains.device_handle plan.now) device }
{
    match device {
        Some(device) => Some(device_handle(plan, device)),
        None => None,
    }
}

/// How far a device has come at the opening.
fn opening_phase(plan: &Plan, device: u32) -> Phase
    ensures { result ≡ pnp.opening_phase (unwrap_or (option_map (λ i. i.working) (plans.device_of plan.now device)) false) }
{
    match device_of(plan, ObjectId(device)) {
        Some(info) if info.working => Phase::Working,
        _ => Phase::Off,
    }
}

/// A device as it is at the opening.
fn stack_device(plan: &Plan, devices: &[u32], targets: &[u32], device: u32) -> StackDevice
    requires devices { devices.now ≡ devices_of plan.now }
    requires targets { targets.now ≡ targets_of plan.now }
    ensures { result ≡ manager.stack_device plan.now device }
{
    StackDevice {
        device: device_handle(plan, device),
        above: handle_if_any(plan, above(plan, devices, targets, device)),
        below: handle_if_any(plan, below(plan, devices, targets, device)),
        phase: opening_phase(plan, device),
    }
}

/// The devices as they are at the opening.
fn stack_devices(
    alloc: Global,
    plan: &Plan,
    devices: &[u32],
    targets: &[u32],
) -> Result<Vec<StackDevice>, Memory>
    requires devices { devices.now ≡ devices_of plan.now }
    requires targets { targets.now ≡ targets_of plan.now }
    ensures { IfOk result (λ made. made.items ≡ map (manager.stack_device plan.now) devices.now) }
{
    let mut made = Vec::new(alloc);
    for device in devices {
        made.push(stack_device(plan, devices, targets, *device))?;
    }
    Ok(made)
}

/// The posts of the Plug and Play block.
fn lines_of(alloc: Global, plan: &Plan) -> Result<Items<PostLine, MANY>, Memory>
    ensures { IfOk result (λ lines. lines ≡ plan.now.pnp) }
{
    let mut lines = Items::new(alloc);
    for k in 0..plan.post_len(0) {
        lines.push(plan.post(0, k))?;
    }
    Ok(lines)
}

/// Whether a list of posts goes from the bottom up.
fn goes_up(ask: Ask) -> bool
    ensures { result ≡ manager.goes_up ask }
{
    matches!(ask, Ask::Start | Ask::Wake)
}

/// Whether a post is for its device alone.
fn is_alone(ask: Ask) -> bool
    ensures { result ≡ manager.is_alone ask }
{
    matches!(ask, Ask::Rebalance)
}

/// What is known of a device.
fn known(devices: &[StackDevice], device: ObjectId) -> Option<StackDevice>
    ensures { result ≡ manager.known devices.now device.0 }
{
    for known in devices {
        if same_object_id(known.device.id, device) {
            return Some(*known);
        }
    }
    None
}

/// The device above one, if there is one.
fn above_in(devices: &[StackDevice], device: ObjectId) -> Option<Handle>
    ensures { result ≡ manager.above_in devices.now device.0 }
{
    let known = known(devices, device)?;
    known.above
}

/// The device below one, if there is one.
fn below_in(devices: &[StackDevice], device: ObjectId) -> Option<Handle>
    ensures { result ≡ manager.below_in devices.now device.0 }
{
    let known = known(devices, device)?;
    known.below
}

/// How far a device has come.
fn phase_in(devices: &[StackDevice], device: ObjectId) -> Phase
    ensures { result ≡ manager.phase_in devices.now device.0 }
{
    match known(devices, device) {
        Some(known) => known.phase,
        None => Phase::Removed,
    }
}

/// The device after one in the order of a list.
fn follower(devices: &[StackDevice], ask: Ask, device: ObjectId) -> Option<Handle>
    ensures { result ≡ manager.follower devices.now ask device.0 }
{
    if is_alone(ask) {
        None
    } else if goes_up(ask) {
        above_in(devices, device)
    } else {
        below_in(devices, device)
    }
}

/// The device before one in the order of a list.
fn leader(devices: &[StackDevice], ask: Ask, device: ObjectId) -> Option<Handle>
    ensures { result ≡ manager.leader devices.now ask device.0 }
{
    if is_alone(ask) {
        None
    } else if goes_up(ask) {
        below_in(devices, device)
    } else {
        above_in(devices, device)
    }
}

/// The first device of a line's list, in at most so many steps.
fn first_in(devices: &[StackDevice], ask: Ask, steps: usize, device: Handle) -> Handle
    ensures { result ≡ manager.first_in devices.now ask steps device }
{
    let mut first = device;
    for _step in 0..steps {
        match leader(devices, ask, first.id) {
            Some(before) => first = before,
            None => return first,
        }
    }
    first
}

/// The first post of a line's list.
fn first_post(devices: &[StackDevice], post: &Post) -> Option<AskPost>
    ensures { result ≡ manager.first_post devices.now post.now }
{
    match post {
        Post::Ask { ask, device } => Some(AskPost {
            ask: *ask,
            device: first_in(devices, *ask, devices.len(), *device),
        }),
        _ => None,
    }
}

/// The post after one in its list.
fn post_after(devices: &[StackDevice], ask: Ask, device: Handle) -> Option<AskPost>
    ensures { result ≡ manager.post_after devices.now ask device }
{
    match follower(devices, ask, device.id) {
        Some(device) => Some(AskPost { ask, device }),
        None => None,
    }
}

/// Whether a post changes nothing of a device in this phase.
fn changes_nothing(phase: Phase, ask: Ask) -> bool
    ensures { result ≡ manager.changes_nothing phase ask }
{
    !matches!(
        (phase, ask),
        (Phase::Off, Ask::Start | Ask::Remove | Ask::Surprise)
            | (
                Phase::Working,
                Ask::Sleep | Ask::Rebalance | Ask::Remove | Ask::Surprise
            )
            | (Phase::Sleeping, Ask::Wake | Ask::Remove | Ask::Surprise)
    )
}

/// Whether a post that left its device in this phase drops the rest of its list.
fn drops(ask: Ask, phase: Phase) -> bool
    ensures { result ≡ manager.drops ask phase }
{
    goes_up(ask) && !matches!(phase, Phase::Working)
}

/// The phase that a stage gives.
fn phase_of_stage(stage: Stage) -> Option<Phase>
    ensures { result ≡ manager.phase_of_stage stage }
{
    match stage {
        Stage::Working => Some(Phase::Working),
        Stage::Sleeping => Some(Phase::Sleeping),
        Stage::Removed => Some(Phase::Removed),
        _ => None,
    }
}

/// One device as it comes to a phase, if it is this one.
fn with_phase_one(known: StackDevice, device: ObjectId, phase: Phase) -> StackDevice
    ensures { result ≡ manager.with_phase_one device.0 phase known }
{
    if same_object_id(known.device.id, device) {
        StackDevice { phase, ..known }
    } else {
        known
    }
}

/// A device comes to a phase.
fn set_phase(devices: &mut [StackDevice], device: ObjectId, phase: Phase)
    ensures { devices.new ≡ map (manager.with_phase_one device.0 phase) devices.old }
{
    for k in 0..devices.len() {
        devices[k] = with_phase_one(devices[k], device, phase);
    }
}

impl StackManager {
    /// The manager before its first line.
    pub fn make(
        alloc: Global,
        plan: &Plan,
        devices: &[u32],
        targets: &[u32],
    ) -> Result<StackManager, Memory>
        requires devices { devices.now ≡ devices_of plan.now }
        requires targets { targets.now ≡ targets_of plan.now }
        ensures { IfOk result (λ made. made ≡ manager.stack_manager_at plan.now) }
    {
        Ok(StackManager {
            lines: lines_of(alloc, plan)?,
            begun: 0,
            devices: stack_devices(alloc, plan, devices, targets)?,
            rest: None,
            awaited: None,
            clock: 0,
        })
    }

    /// Takes notice of an event of the run.
    pub fn feed(&mut self, event: &Event)
        ensures { self.new ≡ manager.stack_manager_after self.old event.now }
    {
        match event {
            Event::Posted { agent, post, .. } => self.note_post(*agent, post),
            Event::Stage { device, stage, .. } => {
                self.note_phase(device.id, phase_of_stage(*stage));
            }
            Event::End {
                callback,
                object,
                value,
                ..
            } => self.note_query(*callback, object.id, *value),
            Event::Tick { time } => self.clock = *time,
            _ => {}
        }
    }

    /// Takes notice of a post, if it is its own.
    fn note_post(&mut self, agent: u16, post: &Post)
        ensures { self.new ≡ manager.manager_posted self.old agent post.now }
    {
        if let Post::Ask { ask, device } = post {
            if agent == 0 {
                self.note_ask(*ask, *device);
            }
        }
    }

    /// It has posted: it goes on in the list, and waits for the end of the post where that changes something.
    fn note_ask(&mut self, ask: Ask, device: Handle)
        ensures { self.new ≡ manager.asked self.old ask device }
    {
        let phase = phase_in(self.devices.as_slice(), device.id);
        self.begin_post(ask, device);
        if changes_nothing(phase, ask) {
            self.end_post(drops(ask, phase));
        }
    }

    /// A post begins, and with the first one of a list a line.
    fn begin_post(&mut self, ask: Ask, device: Handle)
        ensures { self.new ≡ manager.with_post self.old ask device }
    {
        if self.rest.is_none() && self.begun < self.lines.len() {
            self.begun += 1;
        }
        self.rest = post_after(self.devices.as_slice(), ask, device);
        self.awaited = Some(AskPost { ask, device });
    }

    /// The post that it waits for has ended.
    fn end_post(&mut self, dropped: bool)
        ensures { self.new ≡ manager.ended self.old dropped }
    {
        if dropped {
            self.rest = None;
        }
        self.awaited = None;
    }

    /// Whether it waits for a post to this device.
    fn awaits(&self, device: ObjectId) -> bool
        ensures { result ≡ manager.awaits self.now device.0 }
    {
        match self.awaited {
            Some(post) => same_object_id(post.device.id, device),
            None => false,
        }
    }

    /// Whether what it waits for drops the rest in this phase.
    fn awaited_drops(&self, phase: Phase) -> bool
        ensures { result ≡ manager.awaited_drops self.now phase }
    {
        match self.awaited {
            Some(post) => drops(post.ask, phase),
            None => false,
        }
    }

    /// A device comes to a phase, which ends a post to it.
    fn note_phase(&mut self, device: ObjectId, phase: Option<Phase>)
        ensures { self.new ≡ manager.came_to self.old device.0 phase }
    {
        if let Some(phase) = phase {
            set_phase(self.devices.as_mut_slice(), device, phase);
            if self.awaits(device) {
                self.end_post(self.awaited_drops(phase));
            }
        }
    }

    /// A callback ends; a refused query ends its post and drops the rest.
    fn note_query(&mut self, callback: Callback, device: ObjectId, value: Value)
        ensures { self.new ≡ manager.query_ended self.old callback device.0 value }
    {
        if callback.is_query() && !value.is_success() && self.awaits(device) {
            self.end_post(true);
        }
    }

    /// The line that it begins next.
    fn next_line(&self) -> Option<PostLine>
        ensures { result ≡ slice_get self.now.lines self.now.begun }
    {
        self.lines.as_slice().get(self.begun as usize).copied()
    }

    /// The first post of the next line, if that line's tick is reached.
    fn due_of_line(&self) -> Option<AskPost>
        ensures { result ≡ manager.due_of_line self.now (slice_get self.now.lines self.now.begun) }
    {
        let line = self.next_line()?;
        if line.tick <= self.clock {
            first_post(self.devices.as_slice(), &line.post)
        } else {
            None
        }
    }

    /// The next post: of the line under way, else of the next line.
    fn next_post(&self) -> Option<AskPost>
        ensures { result ≡ manager.next_post self.now }
    {
        match self.rest {
            Some(post) => Some(post),
            None => self.due_of_line(),
        }
    }

    /// The next post, unless it waits for the end of one.
    pub fn due(&self) -> Option<Post>
        ensures { result ≡ manager.stack_manager_due self.now }
    {
        if self.awaited.is_some() {
            return None;
        }
        match self.next_post() {
            Some(post) => Some(Post::Ask {
                ask: post.ask,
                device: post.device,
            }),
            None => None,
        }
    }

    /// The tick of the next line, if that is later.
    pub fn next_time(&self) -> Option<u64>
        ensures { result ≡ manager.stack_manager_next self.now }
    {
        let line = self.next_line()?;
        if self.clock < line.tick {
            Some(line.tick)
        } else {
            None
        }
    }
}
