//! The lanes of a picture from top to bottom, and the shapes in them.
ghost use Rattle.std.specs.Prelude.{◌<◌, ◌^◌, length};

use crate::shape::{Label, Lane, LaneName, Look, Shape};
use std::alloc::Global;
use wdf_base::{Event, Memory};

/// The height of one row of a lane.
pub(crate) const ROW: u32 = 20;

/// The height of a shape in it.
pub(crate) const TALL: u32 = 18;

/// The lanes and shapes of a picture.
#[derive(Drop)]
pub(crate) struct Lanes {
    pub(crate) lanes: Vec<Lane>,
    /// What is drawn first, so that it lies behind the rest.
    pub(crate) behind: Vec<Shape>,
    pub(crate) shapes: Vec<Shape>,
    pub(crate) height: u32,
}

/// The label of a span of time, and the event that began it.
fn time_shape(time: u64, number: u32, from: u32, to: u32, y: u32) -> Shape {
    let mut shape = Shape::plain(Look::Time, from, to, y, TALL);
    shape.number = number;
    shape.label = Label::Tick(time);
    shape
}

impl Lanes {
    /// No lane.
    pub(crate) fn new(alloc: Global) -> Lanes {
        Lanes {
            lanes: Vec::new(alloc),
            behind: Vec::new(alloc),
            shapes: Vec::new(alloc),
            height: 0,
        }
    }

    /// Adds a lane of this height below the others, and answers where it begins.
    pub(crate) fn lane(&mut self, name: LaneName, height: u32) -> Result<u32, Memory> {
        let y = self.height;
        self.lanes.push(Lane { name, y, height })?;
        self.height = y.saturating_add(height);
        Ok(y)
    }

    /// Adds a shape, where a slot is in it.
    pub(crate) fn shape(&mut self, shape: Shape) -> Result<(), Memory> {
        if shape.from < shape.to {
            self.shapes.push(shape)?;
        }
        Ok(())
    }

    /// Adds the lane of the clock: from tick to tick.
    pub(crate) fn clock(&mut self, events: &[Event]) -> Result<(), Memory> {
        let y = self.lane(LaneName::Word("clock"), ROW)?;
        let mut at: u32 = 0;
        let mut since: u32 = 0;
        let mut number: u32 = 0;
        let mut now: u64 = 0;
        for event in events {
            let next = at.saturating_add(1);
            if let Event::Tick { time } = *event {
                self.shape(time_shape(now, number, since, at, y))?;
                since = at;
                number = next;
                now = time;
            }
            at = next;
        }
        self.shape(time_shape(now, number, since, at, y))
    }

    /// Marks each tick over the whole height, behind the rest.
    pub(crate) fn columns(&mut self, events: &[Event]) -> Result<(), Memory> {
        let mut at: u32 = 0;
        for event in events {
            let next = at.saturating_add(1);
            if let Event::Tick { .. } = *event {
                self.behind
                    .push(Shape::plain(Look::Column, at, next, 0, self.height))?;
            }
            at = next;
        }
        Ok(())
    }

    /// Adds the fault, where the run ends in one: over the whole height, with a lane for its name.
    pub(crate) fn fault(&mut self, events: &[Event]) -> Result<(), Memory>
        requires { length events.now < 2 ^ 32 }
    {
        let Some(Event::Fault { fault, line, .. }) = events.last() else {
            return Ok(());
        };
        let total = events.len() as u32;
        self.lane(LaneName::Word("fault"), ROW)?;
        let mut shape = Shape::plain(Look::Fault, total.saturating_sub(1), total, 0, self.height);
        shape.label = Label::Fault {
            fault: *fault,
            line: *line,
        };
        self.shape(shape)
    }
}

/// The first row that is free from a slot on; the next new row where none is.
pub(crate) fn free_row(free: &[u32], from: u32) -> usize {
    match free.iter().position(|slot| *slot <= from) {
        Some(row) => row,
        None => free.len(),
    }
}
