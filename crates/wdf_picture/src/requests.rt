//! The lane of all requests: each from its arrival to its destruction, with its places.
ghost use Rattle.std.specs.Prelude.{◌<◌, ◌^◌};

use crate::lanes::{Lanes, ROW, free_row};
use crate::shape::{Label, LaneName, Look, Role, Shape};
use std::alloc::Global;
use wdf_base::{Handle, Memory};
use wdf_spans::{RequestPiece, RequestSpan, Requests};

/// The height of the row of a request.
const THIN: u32 = 16;

/// The most rows of requests. Where more are there at a time, the last row has the rest.
const ROWS: usize = 256;

/// The rows in which the spans of requests are drawn.
#[derive(Drop)]
struct RequestRows {
    /// The row of each request by the number of its birth.
    rows: Vec<u32>,
    /// For each row the slot from which it is free.
    free: Vec<u32>,
}

impl RequestRows {
    /// Where the row of a request is, in a lane from here on.
    fn place(&self, birth: u32, y: u32) -> u32 {
        let row = match self.rows.as_slice().get(birth as usize) {
            Some(row) => *row,
            None => 0,
        };
        y.saturating_add(row.saturating_mul(THIN))
    }

    /// The height of all rows.
    fn height(&self) -> u32 {
        (self.free.len().min(ROWS) as u32).saturating_mul(THIN)
    }

    /// Gives a span the first free row, or the last one where all are taken.
    fn take(&mut self, span: &RequestSpan) -> Result<(), Memory> {
        let number = span.birth.number as usize;
        let row = free_row(self.free.as_slice(), span.birth.number.saturating_sub(1)).min(ROWS - 1);
        if row < self.free.len() {
            self.free[row] = span.to;
        } else {
            self.free.push(span.to)?;
        }
        if number < self.rows.len() {
            self.rows[number] = row as u32;
        }
        Ok(())
    }
}

/// The rows of these spans of a run of so many events.
fn rows_of_spans(alloc: Global, spans: &[RequestSpan], events: usize) -> Result<RequestRows, Memory>
    requires { events < 2 ^ 32 }
{
    let mut rows = RequestRows {
        rows: vec![in alloc; 0; events + 1]?,
        free: Vec::new(alloc),
    };
    for span in spans {
        rows.take(span)?;
    }
    Ok(rows)
}

impl Lanes {
    /// Adds the lane of all requests, in as few rows as they need.
    pub(crate) fn requests(
        &mut self,
        alloc: Global,
        events: usize,
        spans: &[RequestSpan],
        requests: &Requests,
    ) -> Result<(), Memory>
        requires { events < 2 ^ 32 }
    {
        let rows = rows_of_spans(alloc, spans, events)?;
        let height = rows.height().saturating_add(6).max(ROW);
        let y = self.lane(LaneName::Word("requests"), height)?;
        for piece in requests.pieces() {
            self.request(piece, rows.place(piece.birth, y))?;
        }
        for cancel in requests.cancels() {
            let low = rows.place(requests.birth(cancel.1), y);
            self.cancel(cancel.0, cancel.1, low)?;
        }
        Ok(())
    }

    /// Adds the mark of a cancel.
    fn cancel(&mut self, at: u32, request: Handle, y: u32) -> Result<(), Memory> {
        let mut shape = Shape::plain(Look::Cancel, at, at.saturating_add(1), y, 14);
        shape.about = request.id.0;
        shape.label = Label::Word("cancel");
        self.shape(shape)
    }

    /// Adds a piece of a request's span.
    fn request(&mut self, piece: &RequestPiece, y: u32) -> Result<(), Memory> {
        let mut shape = Shape::plain(Look::Place(piece.told), piece.from, piece.to, y, 14);
        if piece.from.saturating_add(1) == piece.birth {
            shape.role = Role::Request;
        }
        shape.about = piece.request.id.0;
        shape.label = Label::Request {
            request: piece.request,
            told: piece.told,
        };
        self.shape(shape)
    }
}
