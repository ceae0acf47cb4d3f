//! All lanes of a run, and where a slot is across the picture.
ghost use Rattle.std.specs.Prelude.{◌<◌, ◌^◌, length};

use crate::lanes::Lanes;
use crate::level::declared_at;
use std::alloc::Global;
use wdf_base::{Declared, Event, Handle, Memory, ObjectId, Plan};
use wdf_spans::{FrameBox, Frames, QueuePiece, boxes_of, frames_of, requests_of, spans_of};

/// Past so many events shapes of a pixel or two are merged into blocks.
pub const MERGED_FROM: u32 = 5_000;

/// How far across the picture a slot is.
#[derive(Clone, Copy)]
pub(crate) struct Scale {
    /// How many slots there are.
    pub(crate) slots: u32,
    /// How wide the picture of them is.
    pub(crate) width: u32,
}

impl Scale {
    /// The scale of a run of so many events: wide where there are few, and a picture of fixed width where there are many.
    pub(crate) fn of(events: u32) -> Scale {
        let width = if events <= 60 {
            events.saturating_mul(52)
        } else if events <= 400 {
            events.saturating_mul(28)
        } else if events <= MERGED_FROM {
            events.saturating_mul(12)
        } else {
            6_000
        };
        Scale {
            slots: events,
            width: width.max(60),
        }
    }

    /// Where a slot begins.
    pub(crate) fn x(&self, slot: u32) -> u64 {
        let slots = u64::from(self.slots.max(1));
        u64::from(slot) * u64::from(self.width) / slots
    }
}

/// The handle of a declared object.
fn handle_of(id: u32, name: u32) -> Handle {
    Handle {
        id: ObjectId(id),
        name,
    }
}

/// What callbacks ran in a run: their frames, and a box for each start.
#[derive(Drop)]
struct Ran {
    frames: Frames,
    boxes: Vec<FrameBox>,
}

fn ran_in(alloc: Global, events: &[Event]) -> Result<Ran, Memory>
    requires { length events.now < 2 ^ 32 }
{
    let frames = frames_of(alloc, events)?;
    let boxes = boxes_of(alloc, events, &frames)?;
    Ok(Ran { frames, boxes })
}

/// Adds the lanes of the processors.
fn add_cpus(
    alloc: Global,
    plan: &Plan,
    events: &[Event],
    ran: &Ran,
    lanes: &mut Lanes,
) -> Result<(), Memory> {
    for cpu in 0..plan.cpus() {
        lanes.cpu(alloc, plan, cpu, events, &ran.frames, ran.boxes.as_slice())?;
    }
    Ok(())
}

/// Adds the lanes of the devices.
fn add_devices(
    alloc: Global,
    plan: &Plan,
    events: &[Event],
    ran: &Ran,
    lanes: &mut Lanes,
) -> Result<(), Memory>
    requires { length events.now < 2 ^ 32 }
{
    for o in 0..plan.declared_len() {
        if let Some(Declared::Device(device)) = declared_at(plan, o + 1) {
            let object = handle_of(o + 1, device.name);
            lanes.device(alloc, plan, object, &device, events, ran.boxes.as_slice())?;
        }
    }
    Ok(())
}

/// Adds the lanes of the processors and the devices.
fn add_callbacks(
    alloc: Global,
    plan: &Plan,
    events: &[Event],
    lanes: &mut Lanes,
) -> Result<(), Memory>
    requires { length events.now < 2 ^ 32 }
{
    let ran = ran_in(alloc, events)?;
    add_cpus(alloc, plan, events, &ran, lanes)?;
    add_devices(alloc, plan, events, &ran, lanes)
}

/// Adds the lanes of the queues.
fn add_queues(
    alloc: Global,
    plan: &Plan,
    events: &[Event],
    pieces: &[QueuePiece],
    lanes: &mut Lanes,
) -> Result<(), Memory>
    requires { length events.now < 2 ^ 32 }
{
    for o in 0..plan.declared_len() {
        if let Some(Declared::Queue(queue)) = declared_at(plan, o + 1) {
            let object = handle_of(o + 1, queue.name);
            lanes.queue(alloc, object, queue.device, events, pieces)?;
        }
    }
    Ok(())
}

/// Adds the lanes of the queues and of the requests.
fn add_requests(
    alloc: Global,
    plan: &Plan,
    events: &[Event],
    lanes: &mut Lanes,
) -> Result<(), Memory>
    requires { length events.now < 2 ^ 32 }
{
    let requests = requests_of(alloc, plan, events)?;
    add_queues(alloc, plan, events, requests.queue_pieces(), lanes)?;
    let spans = spans_of(alloc, events, &requests)?;
    lanes.requests(alloc, events.len(), spans.as_slice(), &requests)
}

/// Adds all lanes of a run, from top to bottom.
fn add_lanes(alloc: Global, plan: &Plan, events: &[Event], lanes: &mut Lanes) -> Result<(), Memory>
    requires { length events.now < 2 ^ 32 }
{
    lanes.clock(events)?;
    add_callbacks(alloc, plan, events, lanes)?;
    add_requests(alloc, plan, events, lanes)?;
    lanes.columns(events)?;
    lanes.fault(events)
}

/// All lanes of a run, from top to bottom.
///
/// # Errors
///
/// [`Memory`] where memory was refused.
pub(crate) fn lanes_of(alloc: Global, plan: &Plan, events: &[Event]) -> Result<Lanes, Memory>
    requires { length events.now < 2 ^ 32 }
{
    let mut lanes = Lanes::new(alloc);
    add_lanes(alloc, plan, events, &mut lanes)?;
    Ok(lanes)
}
