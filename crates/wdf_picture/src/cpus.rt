//! The lanes of the processors: callbacks as nested boxes, and below them the threads of parked callbacks.
use crate::lanes::{Lanes, ROW, TALL, free_row};
use crate::level::level_of;
use crate::shape::{Label, LaneName, Look, Role, Shape};
use std::alloc::Global;
use wdf_base::{Event, Handle, Memory, Plan};
use wdf_spans::{Begun, FrameBox, Frames, Phase, Piece, Stay};

/// The most rows of a processor's boxes.
const ROWS: u32 = 64;

/// The height of a parked thread, and of its row.
const THREAD: u32 = 8;

const THREAD_ROW: u32 = 10;

/// The most rows of parked threads. Where more are there at a time, the last row has the rest.
const THREADS: usize = 32;

/// Where the lane of a processor is.
#[derive(Clone, Copy, Debug)]
struct Place {
    y: u32,
    /// How many rows its boxes have.
    rows: u32,
}

impl Place {
    /// Where the row of a box is that has so many below it.
    fn row(&self, depth: u32) -> u32 {
        self.y.saturating_add(depth.min(ROWS).saturating_mul(ROW))
    }

    /// Where a row of threads is.
    fn thread(&self, row: usize) -> u32 {
        self.row(self.rows)
            .saturating_add((row.min(THREADS) as u32).saturating_mul(THREAD_ROW))
    }
}

/// The label of a callback.
fn label_of(plan: &Plan, begun: &Begun) -> Label {
    Label::Callback {
        callback: begun.callback,
        object: begun.object,
        request: begun.request,
        level: level_of(plan, begun.callback, begun.object),
    }
}

fn look_of(level: u8) -> Look {
    match level {
        0 | 1 => Look::Passive,
        2 => Look::Dispatch,
        _ => Look::High,
    }
}

/// A callback from a slot up to another.
pub(crate) fn callback_shape(plan: &Plan, begun: &Begun, from: u32, to: u32, y: u32) -> Shape {
    let level = level_of(plan, begun.callback, begun.object);
    let mut shape = Shape::plain(look_of(level), from, to, y, TALL);
    shape.about = begun.object.id.0;
    shape.with = id_of(begun.request);
    shape.label = label_of(plan, begun);
    shape
}

fn id_of(object: Option<Handle>) -> u32 {
    match object {
        Some(object) => object.id.0,
        None => 0,
    }
}

/// The start of a frame.
fn begun_at(events: &[Event], frame: u32) -> Option<Begun> {
    if frame == 0 {
        return None;
    }
    match events.get(frame as usize - 1) {
        Some(
            Event::Start {
                cpu,
                callback,
                object,
                request,
            },
        ) => Some(Begun {
            number: frame,
            cpu: *cpu,
            callback: *callback,
            object: *object,
            request: *request,
        }),
        _ => None,
    }
}

/// How many rows a processor's boxes need: one more than its deepest frame has frames below it.
fn rows_of(cpu: u8, pieces: &[Piece]) -> u32 {
    let mut rows: u32 = 1;
    for piece in pieces {
        if piece.cpu.0 == cpu {
            rows = rows.max(piece.depth.saturating_add(1));
        }
    }
    rows.min(ROWS)
}

/// A piece of a frame in which it is parked, and the row of its thread.
#[derive(Clone, Copy)]
struct Thread {
    piece: Piece,
    row: usize,
}

/// The parked threads of a processor, in as few rows as the order of their ends allows.
#[derive(Drop)]
struct Threads {
    threads: Vec<Thread>,
    /// For each row the slot from which it is free.
    free: Vec<u32>,
}

impl Threads {
    /// Gives a parked piece the first free row, or the last one where all are taken.
    fn take(&mut self, piece: Piece) -> Result<(), Memory> {
        let row = free_row(self.free.as_slice(), piece.from).min(THREADS - 1);
        if row < self.free.len() {
            self.free[row] = piece.to;
        } else {
            self.free.push(piece.to)?;
        }
        self.threads.push(Thread { piece, row })?;
        Ok(())
    }

    /// The height of all rows.
    fn height(&self) -> u32 {
        (self.free.len().min(THREADS) as u32).saturating_mul(THREAD_ROW)
    }
}

/// The parked threads of a processor.
fn threads_of(alloc: Global, cpu: u8, pieces: &[Piece]) -> Result<Threads, Memory> {
    let mut threads = Threads {
        threads: Vec::new(alloc),
        free: Vec::new(alloc),
    };
    for piece in pieces {
        if piece.cpu.0 == cpu && matches!(piece.phase, Phase::Parked) {
            threads.take(*piece)?;
        }
    }
    Ok(threads)
}

impl Lanes {
    /// Adds the lane of a processor.
    pub(crate) fn cpu(
        &mut self,
        alloc: Global,
        plan: &Plan,
        cpu: u8,
        events: &[Event],
        frames: &Frames,
        boxes: &[FrameBox],
    ) -> Result<(), Memory> {
        let rows = rows_of(cpu, frames.pieces());
        let threads = threads_of(alloc, cpu, frames.pieces())?;
        let height = rows
            .saturating_mul(ROW)
            .saturating_add(threads.height())
            .saturating_add(4);
        let y = self.lane(LaneName::Cpu(cpu), height)?;
        let place = Place { y, rows };
        self.boxes(plan, cpu, boxes, place)?;
        self.stays(plan, cpu, events, frames.stays(), place)?;
        self.pieces(cpu, events, frames, place)?;
        self.threads(events, threads.threads.as_slice(), place)
    }

    /// Adds the boxes of the starts on a processor, up to where each frame first leaves it.
    fn boxes(
        &mut self,
        plan: &Plan,
        cpu: u8,
        boxes: &[FrameBox],
        place: Place,
    ) -> Result<(), Memory> {
        for one in boxes {
            if one.begun.cpu.0 == cpu {
                let from = one.begun.number.saturating_sub(1);
                let y = place.row(one.depth);
                let mut shape = callback_shape(plan, &one.begun, from, one.stay, y);
                shape.role = Role::Frame;
                self.shape(shape)?;
            }
        }
        Ok(())
    }

    /// Adds a box for each later stay on a processor: one of a frame that was parked, and is back.
    fn stays(
        &mut self,
        plan: &Plan,
        cpu: u8,
        events: &[Event],
        stays: &[Stay],
        place: Place,
    ) -> Result<(), Memory> {
        for stay in stays {
            if stay.cpu.0 == cpu && stay.from >= stay.frame {
                if let Some(begun) = begun_at(events, stay.frame) {
                    let y = place.row(stay.depth);
                    self.shape(callback_shape(plan, &begun, stay.from, stay.to, y))?;
                }
            }
        }
        Ok(())
    }

    /// Adds where frames wait on a processor, and their calls.
    fn pieces(
        &mut self,
        cpu: u8,
        events: &[Event],
        frames: &Frames,
        place: Place,
    ) -> Result<(), Memory> {
        for piece in frames.pieces() {
            if piece.cpu.0 == cpu {
                if let Some(begun) = begun_at(events, piece.frame) {
                    self.piece(piece, &begun, place.row(piece.depth))?;
                }
            }
        }
        Ok(())
    }

    /// Adds what a frame does in a piece, where its box doesn't show it: it waits, or makes a call.
    fn piece(&mut self, piece: &Piece, begun: &Begun, y: u32) -> Result<(), Memory> {
        let mut shape = match piece.phase {
            Phase::Waiting => Shape::plain(Look::Waiting, piece.from, piece.to, y, TALL),
            Phase::Calling => {
                let low = y.saturating_add(14);
                Shape::plain(Look::Calling, piece.from, piece.to, low, 4)
            }
            _ => return Ok(()),
        };
        shape.about = begun.object.id.0;
        shape.with = id_of(begun.request);
        self.shape(shape)
    }

    /// Adds the threads of frames that are parked, each up to where its frame comes back.
    fn threads(
        &mut self,
        events: &[Event],
        threads: &[Thread],
        place: Place,
    ) -> Result<(), Memory> {
        for thread in threads {
            let piece = thread.piece;
            let y = place.thread(thread.row);
            let mut shape = Shape::plain(Look::Parked, piece.from, piece.to, y, THREAD);
            // The line of a thread is that of the park.
            shape.number = piece.from;
            if let Some(begun) = begun_at(events, piece.frame) {
                shape.about = begun.object.id.0;
                shape.with = id_of(begun.request);
            }
            self.shape(shape)?;
        }
        Ok(())
    }
}
