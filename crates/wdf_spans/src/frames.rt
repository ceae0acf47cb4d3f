//! Which frame is on top of each processor, event by event, and the pieces into which frames are cut.
ghost use Rattle.std.specs.Prelude.{◌<◌, ◌^◌, ◌-◌, length};

use std::alloc::Global;
use wdf_base::{Cpu, Event, Memory};

/// What a frame does in a piece.
#[derive(Clone, Copy, PartialEq, Eq)]
pub enum Phase {
    Running,
    Waiting,
    Parked,
    /// A framework call that was answered at once. It lies within a piece in which the frame runs.
    Calling,
}

/// A piece of a frame.
#[derive(Clone, Copy)]
pub struct Piece {
    /// The number of the frame.
    pub frame: u32,
    /// The processor on which it is, or which it left.
    pub cpu: Cpu,
    /// How many frames are below it there.
    pub depth: u32,
    pub phase: Phase,
    pub from: u32,
    pub to: u32,
}

/// A stay of a frame on a processor, from its start or from where it comes back, to where it ends or leaves.
#[derive(Clone, Copy)]
pub struct Stay {
    /// The number of the frame.
    pub frame: u32,
    pub cpu: Cpu,
    /// How many frames are below it.
    pub depth: u32,
    pub from: u32,
    pub to: u32,
}

/// How a frame is at an event.
#[derive(Clone, Copy)]
struct Row {
    /// The frame below it on its processor, 0 for none.
    below: u32,
    depth: u32,
    cpu: Cpu,
    phase: Phase,
    /// Since which slot it does that.
    since: u32,
    /// How many frames were below it at its start.
    base: u32,
    /// The slot at which it first left its processor or ended, 0 before that.
    stay: u32,
    /// Since which slot it is on its processor.
    come: u32,
    is_open: bool,
    /// Whether it has left its processor.
    is_away: bool,
}

/// The row of what is no frame.
const BLANK: Row = Row {
    below: 0,
    depth: 0,
    cpu: Cpu(0),
    phase: Phase::Running,
    since: 0,
    base: 0,
    stay: 0,
    come: 0,
    is_open: false,
    is_away: false,
};

/// The most processors that a number of eight bits has.
const CPUS: usize = 256;

/// The frames of a run and their pieces.
#[derive(Drop)]
pub struct Frames {
    /// The frame on top of each processor, 0 for none.
    tops: [u32; CPUS],
    /// A row for each event by its number, which is the number of the frame where the event is a start.
    rows: Vec<Row>,
    pieces: Vec<Piece>,
    stays: Vec<Stay>,
}

impl Frames {
    /// The frames before the first event.
    fn new(alloc: Global) -> Result<Frames, Memory> {
        let mut rows = Vec::new(alloc);
        rows.push(BLANK)?;
        Ok(Frames {
            tops: [0; CPUS],
            rows,
            pieces: Vec::new(alloc),
            stays: Vec::new(alloc),
        })
    }

    /// The pieces of all frames.
    pub fn pieces(&self) -> &[Piece] {
        self.pieces.as_slice()
    }

    /// The stays of all frames, in the order of their ends.
    pub fn stays(&self) -> &[Stay] {
        self.stays.as_slice()
    }

    /// The slot after the last of a frame.
    pub fn end(&self, frame: u32) -> u32 {
        self.row(frame).since
    }

    /// The slot at which a frame first left its processor, or after which it ended.
    pub fn stay(&self, frame: u32) -> u32 {
        self.row(frame).stay
    }

    /// How many frames were below a frame at its start.
    pub fn base(&self, frame: u32) -> u32 {
        self.row(frame).base
    }

    fn row(&self, frame: u32) -> Row {
        match self.rows.as_slice().get(frame as usize) {
            Some(row) => *row,
            None => BLANK,
        }
    }

    fn put(&mut self, frame: u32, row: Row) {
        let at = frame as usize;
        if at < self.rows.len() {
            self.rows[at] = row;
        }
    }

    fn top(&self, cpu: Cpu) -> u32 {
        self.tops[cpu.0 as usize]
    }

    /// Ends the piece of a frame before this slot.
    fn cut(&mut self, frame: u32, at: u32) -> Result<(), Memory> {
        let row = self.row(frame);
        if row.is_open && row.since < at {
            self.pieces.push(Piece {
                frame,
                cpu: row.cpu,
                depth: row.depth,
                phase: row.phase,
                from: row.since,
                to: at,
            })?;
        }
        Ok(())
    }

    /// From this slot on a frame does this.
    fn turn(&mut self, frame: u32, phase: Phase, at: u32) -> Result<(), Memory> {
        self.cut(frame, at)?;
        let mut row = self.row(frame);
        row.phase = phase;
        row.since = at;
        self.put(frame, row);
        Ok(())
    }

    /// A frame leaves its processor or ends, with the slot before this one. The first time it does so is kept.
    fn leave(&mut self, frame: u32, at: u32) -> Result<(), Memory> {
        let mut row = self.row(frame);
        if row.is_away || !row.is_open {
            return Ok(());
        }
        if row.stay == 0 {
            row.stay = at;
        }
        row.is_away = true;
        self.put(frame, row);
        self.stays.push(Stay {
            frame,
            cpu: row.cpu,
            depth: row.depth,
            from: row.come,
            to: at,
        })?;
        Ok(())
    }

    /// Puts a frame on top of a processor, from this slot on.
    fn push(&mut self, cpu: Cpu, frame: u32, at: u32) {
        let below = self.top(cpu);
        let mut row = self.row(frame);
        row.below = below;
        row.depth = self.depth_above(below);
        row.cpu = cpu;
        row.come = at;
        row.is_away = false;
        self.put(frame, row);
        self.tops[cpu.0 as usize] = frame;
    }

    /// How many frames are below one that comes on top of this.
    fn depth_above(&self, below: u32) -> u32 {
        if below == 0 {
            0
        } else {
            self.row(below).depth.saturating_add(1)
        }
    }

    /// Takes a frame off its processor, where it is on top.
    fn pop(&mut self, cpu: Cpu, frame: u32) {
        if self.top(cpu) == frame {
            self.tops[cpu.0 as usize] = self.row(frame).below;
        }
    }

    /// A frame begins at this slot.
    fn start(&mut self, cpu: Cpu, frame: u32, at: u32) {
        let mut row = BLANK;
        row.since = at;
        row.base = self.depth_above(self.top(cpu));
        row.is_open = true;
        self.put(frame, row);
        self.push(cpu, frame, at);
    }

    /// The frame on top of a processor ends with the slot before this one.
    fn end_top(&mut self, cpu: Cpu, at: u32) -> Result<(), Memory> {
        let frame = self.top(cpu);
        self.turn(frame, Phase::Running, at)?;
        self.leave(frame, at)?;
        let mut row = self.row(frame);
        row.is_open = false;
        self.put(frame, row);
        self.pop(cpu, frame);
        Ok(())
    }

    /// The frame on top of a processor makes a call in this slot.
    fn call(&mut self, cpu: Cpu, at: u32, next: u32) -> Result<(), Memory> {
        let frame = self.top(cpu);
        let depth = self.row(frame).depth;
        self.pieces.push(Piece {
            frame,
            cpu,
            depth,
            phase: Phase::Calling,
            from: at,
            to: next,
        })?;
        Ok(())
    }

    /// Takes the event in this slot.
    fn take(&mut self, at: u32, event: &Event) -> Result<(), Memory>
        requires { at < 2 ^ 32 - 1 }
    {
        let next = at + 1;
        self.rows.push(BLANK)?;
        match *event {
            Event::Start { cpu, .. } => {
                self.start(cpu, next, at);
                Ok(())
            }
            Event::Waiting { cpu, .. } => self.turn(self.top(cpu), Phase::Waiting, at),
            Event::Woke { cpu, .. } => self.turn(self.top(cpu), Phase::Running, at),
            Event::Park { cpu, frame } => {
                self.pop(cpu, frame.0);
                self.turn(frame.0, Phase::Parked, next)?;
                self.leave(frame.0, next)
            }
            Event::Unpark { cpu, frame } => {
                self.turn(frame.0, Phase::Waiting, at)?;
                self.push(cpu, frame.0, at);
                Ok(())
            }
            Event::Did { cpu, .. } => self.call(cpu, at, next),
            Event::End { cpu, .. } => self.end_top(cpu, next),
            _ => Ok(()),
        }
    }

    /// Ends the open pieces with the run.
    fn finish(&mut self, total: u32) -> Result<(), Memory> {
        for frame in 0..total {
            let number = frame + 1;
            if self.row(number).is_open {
                self.turn(number, Phase::Running, total)?;
                self.leave(number, total)?;
            }
        }
        Ok(())
    }
}

/// The frames of a run, with their pieces.
///
/// # Errors
///
/// [`Memory`] where memory was refused.
pub fn frames_of(alloc: Global, events: &[Event]) -> Result<Frames, Memory>
    requires { length events.now < 2 ^ 32 }
{
    let mut frames = Frames::new(alloc)?;
    for at in 0..events.len() {
        frames.take(at as u32, &events[at])?;
    }
    frames.finish(events.len() as u32)?;
    Ok(frames)
}
