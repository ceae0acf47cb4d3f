//! How many requests wait in each queue, how many the driver holds from it, and its mode.
use crate::bands::{BandOf, Standing, next};
use std::alloc::Global;
use wdf_base::{Declared, Event, Memory, ObjectId, Plan};

/// A piece of a queue's time, in which as many requests wait in it and as many are held from it.
#[derive(Clone, Copy)]
pub struct QueuePiece {
    /// The id of the queue.
    pub queue: u32,
    pub waiting: u32,
    pub held: u32,
    pub from: u32,
    pub to: u32,
}

/// The queues at which a request counts, 0 for none.
#[derive(Clone, Copy)]
pub(crate) struct Counted {
    /// Where it waits.
    pub waits: u32,
    /// From which the driver holds it.
    pub held: u32,
}

/// A queue, as far as its pieces are told.
#[derive(Clone, Copy)]
struct Row {
    /// The piece that is open.
    piece: QueuePiece,
    mode: Standing,
    /// The device of the queue, 0 for what is no queue.
    device: u32,
}

/// What is no queue.
const BLANK: Row = Row {
    piece: QueuePiece {
        queue: 0,
        waiting: 0,
        held: 0,
        from: 0,
        to: 0,
    },
    mode: Standing::Started,
    device: 0,
};

/// The counts of all queues.
#[derive(Drop)]
pub(crate) struct Queues {
    /// A row for each declared object by its id. Those of queues alone are used.
    rows: Vec<Row>,
    declared: u32,
    pieces: Vec<QueuePiece>,
}

/// The row of what is declared with this id, before the first event.
fn opening(id: u32, declared: Declared) -> Row {
    let mut row = BLANK;
    if let Declared::Queue(queue) = declared {
        row.device = queue.device.0;
        row.piece.queue = id;
    }
    row
}

impl Queues {
    /// The queues before the first event.
    pub(crate) fn new(alloc: Global, plan: &Plan) -> Result<Queues, Memory> {
        let declared = plan.declared_len();
        let mut rows = Vec::new(alloc);
        rows.push(BLANK)?;
        for o in 0..declared {
            rows.push(opening(o + 1, plan.declared(ObjectId(o + 1))))?;
        }
        Ok(Queues {
            rows,
            declared,
            pieces: Vec::new(alloc),
        })
    }

    pub(crate) fn pieces(&self) -> &[QueuePiece] {
        self.pieces.as_slice()
    }

    /// How many objects are declared.
    pub(crate) fn declared(&self) -> u32 {
        self.declared
    }

    fn row(&self, queue: u32) -> Row {
        match self.rows.as_slice().get(queue as usize) {
            Some(row) => *row,
            None => BLANK,
        }
    }

    fn put(&mut self, queue: u32, row: Row) {
        let at = queue as usize;
        if at < self.rows.len() {
            self.rows[at] = row;
        }
    }

    /// The device of a queue, 0 for what is no queue.
    pub(crate) fn device(&self, queue: u32) -> u32 {
        self.row(queue).device
    }

    /// How many requests wait in a queue.
    pub(crate) fn waiting(&self, queue: u32) -> u32 {
        self.row(queue).piece.waiting
    }

    /// Whether a queue accepts requests.
    pub(crate) fn accepts(&self, queue: u32) -> bool {
        matches!(self.row(queue).mode, Standing::Started | Standing::Stopped)
    }

    /// Whether what comes back to a queue is cancelled in it.
    pub(crate) fn is_purged(&self, queue: u32) -> bool {
        matches!(self.row(queue).mode, Standing::Purged | Standing::Closed)
    }

    /// A queue is given its mode, where an event does so, and it is answered whether it is Purged by that.
    pub(crate) fn hear(&mut self, queue: u32, event: &Event) -> bool {
        let mut row = self.row(queue);
        if row.device == 0 {
            return false;
        }
        let of = BandOf::of_queue(ObjectId(queue), ObjectId(row.device));
        match next(&of, row.mode, event) {
            Some(mode) => {
                row.mode = mode;
                self.put(queue, row);
                matches!(mode, Standing::Purged | Standing::Closed)
            }
            None => false,
        }
    }

    /// Ends the piece of a queue before this slot, and goes on with these counts.
    fn turn(&mut self, queue: u32, waiting: u32, held: u32, at: u32) -> Result<(), Memory> {
        let mut row = self.row(queue);
        if row.device == 0 {
            return Ok(());
        }
        let mut piece = row.piece;
        if piece.from < at {
            piece.to = at;
            self.pieces.push(piece)?;
        }
        row.piece = QueuePiece {
            queue,
            waiting,
            held,
            from: at,
            to: at,
        };
        self.put(queue, row);
        Ok(())
    }

    /// A request no longer counts at these queues.
    pub(crate) fn leave(&mut self, counted: Counted, at: u32) -> Result<(), Memory> {
        let piece = self.row(counted.waits).piece;
        self.turn(
            counted.waits,
            piece.waiting.saturating_sub(1),
            piece.held,
            at,
        )?;
        let piece = self.row(counted.held).piece;
        self.turn(
            counted.held,
            piece.waiting,
            piece.held.saturating_sub(1),
            at,
        )
    }

    /// A request counts at these queues.
    pub(crate) fn enter(&mut self, counted: Counted, at: u32) -> Result<(), Memory> {
        let piece = self.row(counted.waits).piece;
        self.turn(
            counted.waits,
            piece.waiting.saturating_add(1),
            piece.held,
            at,
        )?;
        let piece = self.row(counted.held).piece;
        self.turn(
            counted.held,
            piece.waiting,
            piece.held.saturating_add(1),
            at,
        )
    }

    /// Ends the open pieces with the run.
    pub(crate) fn finish(&mut self, total: u32) -> Result<(), Memory> {
        for k in 0..self.declared {
            self.turn(k + 1, 0, 0, total)?;
        }
        Ok(())
    }
}
