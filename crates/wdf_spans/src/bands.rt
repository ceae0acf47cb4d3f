//! The bands of a run: what holds of a device or a queue, from where to where.
ghost use Rattle.std.specs.Prelude.{◌≡◌, ◌^◌, ◌<◌, length, IfOk};
ghost use Rattle.wdf_spans.specs.Bands.{is_about, phase_by_stage, power_by_stage, delivery_by_stage, mode_by_stage, by_stage, by_start, by_end, by_call, told_by_call, told, number, turned, next, piece, pieces_of, opening, device_band, queue_band};
ghost use Rattle.wdf_spans.specs.Words.{standing_word};

use std::alloc::Global;
use wdf_base::{Arg, Call, CallKind, Callback, Event, Memory, ObjectId, Stage, Status, Value};

/// What is told of a device or of a queue.
#[derive(Clone, Copy)]
pub enum Band {
    /// Which phase a device is in.
    Phase,
    /// Whether a device has power, which is D0.
    Power,
    /// Whether the power-managed queues of a device are up.
    Delivery,
    /// The mode of a queue.
    Mode,
}

/// What holds of it.
#[derive(Clone, Copy, PartialEq, Eq)]
pub enum Standing {
    Off,
    Working,
    Sleeping,
    Removed,
    Powered,
    Unpowered,
    QueuesUp,
    QueuesDown,
    Started,
    Stopped,
    Drained,
    Purged,
    /// Purged for good, since its device is closed.
    Closed,
}

impl Standing {
    /// Its word.
    pub fn word(self) -> &'static str
        ensures { result.now ≡ standing_word self }
    {
        match self {
            Standing::Off => "off",
            Standing::Working => "working",
            Standing::Sleeping => "sleeping",
            Standing::Removed => "removed",
            Standing::Powered => "D0",
            Standing::Unpowered => "no power",
            Standing::QueuesUp => "queues up",
            Standing::QueuesDown => "queues down",
            Standing::Started => "started",
            Standing::Stopped => "stopped",
            Standing::Drained => "drained",
            Standing::Purged => "purged",
            Standing::Closed => "closed",
        }
    }

    /// The place of a standing in their list.
    fn number(self) -> u8
        ensures { result ≡ number self }
    {
        match self {
            Standing::Off => 0,
            Standing::Working => 1,
            Standing::Sleeping => 2,
            Standing::Removed => 3,
            Standing::Powered => 4,
            Standing::Unpowered => 5,
            Standing::QueuesUp => 6,
            Standing::QueuesDown => 7,
            Standing::Started => 8,
            Standing::Stopped => 9,
            Standing::Drained => 10,
            Standing::Purged => 11,
            Standing::Closed => 12,
        }
    }
}

/// A band of one device or queue.
#[derive(Clone, Copy)]
pub struct BandOf {
    pub band: Band,
    /// The device or the queue.
    pub object: ObjectId,
    /// The device itself, or that of the queue.
    pub device: ObjectId,
    /// What holds before the first event.
    pub opening: Standing,
}

impl BandOf {
    /// What holds of a device before the first event: one that works at the opening has power, and its queues are up.
    fn opening(band: Band, working: bool) -> Standing
        ensures { result ≡ opening band working }
    {
        match band {
            Band::Phase => {
                if working {
                    Standing::Working
                } else {
                    Standing::Off
                }
            }
            Band::Power => {
                if working {
                    Standing::Powered
                } else {
                    Standing::Unpowered
                }
            }
            Band::Delivery => {
                if working {
                    Standing::QueuesUp
                } else {
                    Standing::QueuesDown
                }
            }
            Band::Mode => Standing::Started,
        }
    }

    /// A band of a device, which works at the opening or doesn't.
    pub fn of_device(band: Band, device: ObjectId, working: bool) -> BandOf
        ensures { result ≡ device_band band device working }
    {
        BandOf {
            band,
            object: device,
            device,
            opening: BandOf::opening(band, working),
        }
    }

    /// The mode of a queue of a device.
    pub fn of_queue(queue: ObjectId, device: ObjectId) -> BandOf
        ensures { result ≡ queue_band queue device }
    {
        BandOf {
            band: Band::Mode,
            object: queue,
            device,
            opening: Standing::Started,
        }
    }
}

/// A piece of a band, from a slot up to another.
#[derive(Clone, Copy)]
pub struct BandPiece {
    pub standing: Standing,
    pub from: u32,
    pub to: u32,
}

/// Whether an argument is the object with this id.
fn is_about(argument: Arg, object: ObjectId) -> bool
    ensures { result ≡ is_about argument object }
{
    match argument {
        Arg::Val(Value::Obj(handle)) => handle.id.0 == object.0,
        _ => false,
    }
}

fn phase_by_stage(stage: Stage) -> Option<Standing>
    ensures { result ≡ phase_by_stage stage }
{
    match stage {
        Stage::Working => Some(Standing::Working),
        Stage::Sleeping => Some(Standing::Sleeping),
        Stage::Removed => Some(Standing::Removed),
        _ => None,
    }
}

fn power_by_stage(stage: Stage) -> Option<Standing>
    ensures { result ≡ power_by_stage stage }
{
    match stage {
        Stage::Enabled | Stage::QueuesUp => Some(Standing::Powered),
        Stage::Sleeping | Stage::NoHardware | Stage::Removed => Some(Standing::Unpowered),
        _ => None,
    }
}

fn delivery_by_stage(stage: Stage) -> Option<Standing>
    ensures { result ≡ delivery_by_stage stage }
{
    match stage {
        Stage::QueuesUp => Some(Standing::QueuesUp),
        Stage::QueuesDown => Some(Standing::QueuesDown),
        _ => None,
    }
}

fn mode_by_stage(stage: Stage) -> Option<Standing>
    ensures { result ≡ mode_by_stage stage }
{
    match stage {
        Stage::Closed => Some(Standing::Closed),
        _ => None,
    }
}

/// What a stage of its device tells of a band.
fn by_stage(band: Band, stage: Stage) -> Option<Standing>
    ensures { result ≡ by_stage band stage }
{
    match band {
        Band::Phase => phase_by_stage(stage),
        Band::Power => power_by_stage(stage),
        Band::Delivery => delivery_by_stage(stage),
        Band::Mode => mode_by_stage(stage),
    }
}

/// What the start of a callback of its object tells of a band.
fn by_start(band: Band, callback: Callback) -> Option<Standing>
    ensures { result ≡ by_start band callback }
{
    match band {
        Band::Power => match callback {
            Callback::EvtDeviceD0Exit => Some(Standing::Unpowered),
            _ => None,
        },
        _ => None,
    }
}

/// What the end of a callback of its object tells of a band.
fn by_end(band: Band, callback: Callback, value: Value) -> Option<Standing>
    ensures { result ≡ by_end band callback value }
{
    match band {
        Band::Power => match callback {
            Callback::EvtDeviceD0Entry => match value {
                Value::Stat(Status::Success) => Some(Standing::Powered),
                _ => None,
            },
            _ => None,
        },
        _ => None,
    }
}

/// What a call on its object tells of a band.
fn by_call(band: Band, kind: CallKind) -> Option<Standing>
    ensures { result ≡ by_call band kind }
{
    match band {
        Band::Mode => match kind {
            CallKind::WdfIoQueueStart => Some(Standing::Started),
            CallKind::WdfIoQueueStop | CallKind::WdfIoQueueStopSynchronously => {
                Some(Standing::Stopped)
            }
            CallKind::WdfIoQueueDrain | CallKind::WdfIoQueueDrainSynchronously => {
                Some(Standing::Drained)
            }
            CallKind::WdfIoQueuePurge | CallKind::WdfIoQueuePurgeSynchronously => {
                Some(Standing::Purged)
            }
            _ => None,
        },
        _ => None,
    }
}

/// What a call tells of a band, where it is on its object.
fn told_by_call(of: &BandOf, call: &Call) -> Option<Standing>
    ensures { result ≡ told_by_call of.now call.now }
{
    if is_about(call.a, of.object) {
        by_call(of.band, call.kind)
    } else {
        None
    }
}

/// What an event tells of a band.
fn told(of: &BandOf, event: &Event) -> Option<Standing>
    ensures { result ≡ told of.now event.now }
{
    match *event {
        Event::Stage { device, stage, .. } => {
            if device.id.0 == of.device.0 {
                by_stage(of.band, stage)
            } else {
                None
            }
        }
        Event::Start {
            callback,
            object,
            ..
        } => {
            if object.id.0 == of.object.0 {
                by_start(of.band, callback)
            } else {
                None
            }
        }
        Event::End {
            callback,
            object,
            value,
            ..
        } => {
            if object.id.0 == of.object.0 {
                by_end(of.band, callback, value)
            } else {
                None
            }
        }
        Event::Did { call, .. } => told_by_call(of, &call),
        Event::Waiting { call, .. } => told_by_call(of, &call),
        _ => None,
    }
}

/// What is told, where it is other than what holds.
fn turned(standing: Standing, told: Option<Standing>) -> Option<Standing>
    ensures { result ≡ turned standing told }
{
    match told {
        Some(other) => {
            if standing.number() == other.number() {
                None
            } else {
                Some(other)
            }
        }
        None => None,
    }
}

/// What holds of a band from an event on, where it is other than before. A queue that is closed stays so.
pub(crate) fn next(of: &BandOf, standing: Standing, event: &Event) -> Option<Standing>
    ensures { result ≡ next of.now standing event.now }
{
    match standing {
        Standing::Closed => None,
        _ => turned(standing, told(of, event)),
    }
}

/// A piece of a band.
fn piece(standing: Standing, from: u32, to: u32) -> BandPiece
    ensures { result ≡ piece standing from to }
{
    BandPiece { standing, from, to }
}

/// The pieces of a band in a run, in their order. One that no slot is in is there too.
///
/// # Errors
///
/// [`Memory`] where memory was refused.
pub fn pieces_of(alloc: Global, of: &BandOf, events: &[Event]) -> Result<Vec<BandPiece>, Memory>
    requires { length events.now < 2 ^ 32 }
    ensures { IfOk result (λ pieces. pieces.items ≡ pieces_of of.now events.now) }
{
    let mut pieces = Vec::new(alloc);
    let mut standing = of.opening;
    let mut since: u32 = 0;
    for k in 0..events.len() {
        match next(of, standing, &events[k]) {
            Some(other) => {
                pieces.push(piece(standing, since, k as u32))?;
                standing = other;
                since = k as u32;
            }
            None => {}
        }
    }
    pieces.push(piece(standing, since, events.len() as u32))?;
    Ok(pieces)
}
