//! The lanes of devices and queues.
ghost use Rattle.std.specs.Prelude.{◌<◌, ◌^◌, length};

use crate::cpus::callback_shape;
use crate::lanes::{Lanes, TALL};
use crate::level::declared_at;
use crate::shape::{Label, LaneName, Look, Shape};
use std::alloc::Global;
use wdf_base::{Declared, DeviceInfo, Event, Handle, Memory, ObjectId, Plan, Rank};
use wdf_spans::{Band, BandOf, BandPiece, FrameBox, QueuePiece, Standing, pieces_of};

/// The height of a narrow row.
const NARROW: u32 = 14;

/// The shape of a piece of a band.
fn band_shape(piece: &BandPiece, about: u32, y: u32, height: u32) -> Shape {
    let look = Look::Band(piece.standing);
    let mut shape = Shape::plain(look, piece.from, piece.to, y, height);
    shape.about = about;
    shape.label = Label::Word(piece.standing.word());
    if piece.from == 0 {
        // What holds before the first event has no line.
        shape.number = 0;
    }
    shape
}

/// Whether a callback is a step of a sequence of this device.
fn is_step_of(plan: &Plan, one: &FrameBox, device: u32) -> bool {
    if !matches!(one.begun.callback.row().rank, Rank::Sequence) {
        return false;
    }
    let object = one.begun.object.id.0;
    match declared_at(plan, object) {
        Some(Declared::Interrupt(interrupt)) => interrupt.device.0 == device,
        _ => object == device,
    }
}

/// The most requests that wait or are held at a time in pieces of this queue.
fn most_of(queue: u32, pieces: &[QueuePiece]) -> u32 {
    let mut most: u32 = 1;
    for piece in pieces {
        if piece.queue == queue {
            most = most.max(piece.waiting).max(piece.held);
        }
    }
    most
}

/// How many hundredths a count is of the greatest one, at least 20.
fn share_of(count: u32, most: u32) -> u32 {
    let share = u64::from(count) * 100 / u64::from(most.max(1));
    share.min(100).max(20) as u32
}

impl Lanes {
    /// Adds the lane of a device: D0 behind all, its phase, the steps of its sequences, its queues up or down.
    pub(crate) fn device(
        &mut self,
        alloc: Global,
        plan: &Plan,
        object: Handle,
        device: &DeviceInfo,
        events: &[Event],
        boxes: &[FrameBox],
    ) -> Result<(), Memory>
        requires { length events.now < 2 ^ 32 }
    {
        let y = self.lane(LaneName::Object("device ", object), 76)?;
        let working = device.working;
        let power = BandOf::of_device(Band::Power, object.id, working);
        self.power(alloc, &power, events, y)?;
        let phase = BandOf::of_device(Band::Phase, object.id, working);
        self.band(alloc, &phase, events, y.saturating_add(15), TALL)?;
        self.steps(plan, object.id.0, boxes, y.saturating_add(35))?;
        self.stages(object.id.0, events, y.saturating_add(35))?;
        let delivery = BandOf::of_device(Band::Delivery, object.id, working);
        self.band(alloc, &delivery, events, y.saturating_add(56), NARROW)
    }

    /// Adds the pieces of a band.
    fn band(
        &mut self,
        alloc: Global,
        of: &BandOf,
        events: &[Event],
        y: u32,
        height: u32,
    ) -> Result<(), Memory>
        requires { length events.now < 2 ^ 32 }
    {
        let pieces = pieces_of(alloc, of, events)?;
        for piece in &pieces {
            self.shape(band_shape(piece, of.object.0, y, height))?;
        }
        Ok(())
    }

    /// Shades the lane of a device where it has power.
    fn power(&mut self, alloc: Global, of: &BandOf, events: &[Event], y: u32) -> Result<(), Memory>
        requires { length events.now < 2 ^ 32 }
    {
        let pieces = pieces_of(alloc, of, events)?;
        for piece in &pieces {
            if matches!(piece.standing, Standing::Powered) {
                self.shape(band_shape(piece, of.object.0, y, 74))?;
            }
        }
        Ok(())
    }

    /// Adds the callbacks of a device's sequences.
    fn steps(
        &mut self,
        plan: &Plan,
        device: u32,
        boxes: &[FrameBox],
        y: u32,
    ) -> Result<(), Memory> {
        for one in boxes {
            if is_step_of(plan, one, device) {
                let from = one.begun.number.saturating_sub(1);
                self.shape(callback_shape(plan, &one.begun, from, one.to, y))?;
            }
        }
        Ok(())
    }

    /// Adds the stages that the framework passes for a device.
    fn stages(&mut self, id: u32, events: &[Event], y: u32) -> Result<(), Memory> {
        let mut at: u32 = 0;
        for event in events {
            let next = at.saturating_add(1);
            if let Event::Stage { device, stage, .. } = *event {
                if device.id.0 == id {
                    let mut shape = Shape::plain(Look::Stage, at, next, y, TALL);
                    shape.about = id;
                    shape.label = Label::Word(stage.word());
                    self.shape(shape)?;
                }
            }
            at = next;
        }
        Ok(())
    }

    /// Adds the lane of a queue: its mode, how many requests wait, how many the driver holds.
    pub(crate) fn queue(
        &mut self,
        alloc: Global,
        object: Handle,
        device: ObjectId,
        events: &[Event],
        pieces: &[QueuePiece],
    ) -> Result<(), Memory>
        requires { length events.now < 2 ^ 32 }
    {
        let y = self.lane(LaneName::Object("queue ", object), 50)?;
        let mode = BandOf::of_queue(object.id, device);
        self.band(alloc, &mode, events, y, NARROW)?;
        let most = most_of(object.id.0, pieces);
        for piece in pieces {
            if piece.queue == object.id.0 {
                self.counts(piece, most, y.saturating_add(16))?;
            }
        }
        Ok(())
    }

    /// Adds how many requests wait in a queue in a piece, and how many are held.
    fn counts(&mut self, piece: &QueuePiece, most: u32, y: u32) -> Result<(), Memory> {
        if piece.waiting > 0 {
            let mut shape = Shape::plain(Look::InQueue, piece.from, piece.to, y, 15);
            shape.about = piece.queue;
            shape.filled = share_of(piece.waiting, most);
            shape.label = Label::Count {
                word: "waiting",
                count: piece.waiting,
            };
            self.shape(shape)?;
        }
        if piece.held > 0 {
            let low = y.saturating_add(16);
            let mut shape = Shape::plain(Look::FromQueue, piece.from, piece.to, low, 15);
            shape.about = piece.queue;
            shape.filled = share_of(piece.held, most);
            shape.label = Label::Count {
                word: "held",
                count: piece.held,
            };
            self.shape(shape)?;
        }
        Ok(())
    }
}
