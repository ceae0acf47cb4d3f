//! The spans of requests, and how many of them wait in each queue.
ghost use Rattle.std.specs.Prelude.{◌≡◌, ◌^◌, ◌-◌, ◌<◌, length, map, IfOk};
ghost use Rattle.wdf_spans.specs.Births.{births_from};

use crate::born::{Birth, birth_by, request_born};
use crate::moves::{Move, Told, Way, id_in, move_by};
use crate::queues::{Counted, QueuePiece, Queues};
use std::alloc::Global;
use wdf_base::{Event, Handle, Memory, Plan};

/// A request from its birth to its destruction.
#[derive(Clone, Copy)]
pub struct RequestSpan {
    pub birth: Birth,
    /// The slot after its last: that of its destruction, or the last of the run where it is still there.
    pub to: u32,
}

/// A piece of a request's span, in which it is at one place.
#[derive(Clone, Copy)]
pub struct RequestPiece {
    /// The number of the request's birth.
    pub birth: u32,
    pub request: Handle,
    pub told: Told,
    pub from: u32,
    pub to: u32,
}

/// How an object that is a request is at an event.
#[derive(Clone, Copy)]
struct Row {
    request: Handle,
    birth: u32,
    told: Told,
    /// The queue that it is in, or from which the driver got it; 0 for none.
    queue: u32,
    /// Since which slot it is there; once it is gone, the slot after its last.
    since: u32,
    is_there: bool,
    is_cancelled: bool,
    /// Whether the driver gave it up when it sent it.
    is_forgotten: bool,
}

/// The row of what is no request.
const BLANK: Row = Row {
    request: Handle {
        id: wdf_base::ObjectId(0),
        name: 0,
    },
    birth: 0,
    told: Told::Done,
    queue: 0,
    since: 0,
    is_there: false,
    is_cancelled: false,
    is_forgotten: false,
};

impl Row {
    /// The queues at which it counts.
    fn counted(&self) -> Counted {
        let queue = self.queue;
        match self.told {
            Told::Queued => Counted {
                waits: queue,
                held: 0,
            },
            Told::Owned => Counted {
                waits: 0,
                held: queue,
            },
            Told::Sent => Counted {
                waits: 0,
                held: if self.is_forgotten { 0 } else { queue },
            },
            _ => Counted { waits: 0, held: 0 },
        }
    }

    /// The row of a request that comes into a queue, which keeps it or not.
    fn into_queue(&self, queue: u32, keeps: bool) -> Row {
        Row {
            queue,
            told: if keeps { Told::Queued } else { Told::Returning },
            ..*self
        }
    }

    /// The row of a request at another place.
    fn at(&self, told: Told) -> Row {
        Row { told, ..*self }
    }

    /// The row of a request that is cancelled: one that waits leaves its queue.
    fn cancelled(&self) -> Row {
        let told = match self.told {
            Told::Queued => Told::Returning,
            other => other,
        };
        Row {
            told,
            is_cancelled: true,
            ..*self
        }
    }
}

/// What is told of the requests of a run.
#[derive(Drop)]
pub struct Requests {
    /// A row for each object by its id. An event makes at most one object, so there is a row for each.
    rows: Vec<Row>,
    queues: Queues,
    pieces: Vec<RequestPiece>,
    cancels: Vec<(u32, Handle)>,
}

impl Requests {
    /// The requests before the first of so many events.
    fn new(alloc: Global, plan: &Plan, events: usize) -> Result<Requests, Memory>
        requires { events < 2 ^ 32 }
    {
        let declared = plan.declared_len();
        Ok(Requests {
            rows: vec![in alloc; BLANK; declared as usize + events + 1]?,
            queues: Queues::new(alloc, plan)?,
            pieces: Vec::new(alloc),
            cancels: Vec::new(alloc),
        })
    }

    /// The pieces of all spans.
    pub fn pieces(&self) -> &[RequestPiece] {
        self.pieces.as_slice()
    }

    /// The pieces of the time of all queues.
    pub fn queue_pieces(&self) -> &[QueuePiece] {
        self.queues.pieces()
    }

    /// The slots in which requests were cancelled, with the request of each.
    pub fn cancels(&self) -> &[(u32, Handle)] {
        self.cancels.as_slice()
    }

    /// The number of the birth of a request.
    pub fn birth(&self, request: Handle) -> u32 {
        self.row(request.id.0).birth
    }

    /// The slot after the last of a request.
    fn end(&self, request: Handle) -> u32 {
        self.row(request.id.0).since
    }

    fn row(&self, id: u32) -> Row {
        self.row_at(id as usize)
    }

    fn row_at(&self, at: usize) -> Row {
        match self.rows.as_slice().get(at) {
            Some(row) => *row,
            None => BLANK,
        }
    }

    fn put(&mut self, id: u32, row: Row) {
        let at = id as usize;
        if at < self.rows.len() {
            self.rows[at] = row;
        }
    }

    /// Ends the piece of a request before this slot.
    fn cut(&mut self, row: Row, at: u32) -> Result<(), Memory> {
        if row.is_there && row.since < at {
            self.pieces.push(RequestPiece {
                birth: row.birth,
                request: row.request,
                told: row.told,
                from: row.since,
                to: at,
            })?;
        }
        Ok(())
    }

    /// A request comes to be in this slot.
    fn begin(&mut self, request: Handle, at: u32, number: u32) {
        let mut row = BLANK;
        row.request = request;
        row.birth = number;
        row.told = Told::Returning;
        row.since = at;
        row.is_there = true;
        self.put(request.id.0, row);
    }

    /// The row of a request after it went a way.
    fn gone_by(&self, row: Row, way: Way) -> Row {
        match way {
            Way::Arrives(None) => row.at(Told::Returning),
            Way::Arrives(Some(queue)) => row.into_queue(queue.0, self.queues.accepts(queue.0)),
            Way::Presented(queue) => Row {
                queue: queue.0,
                told: Told::Owned,
                ..row
            },
            Way::Comes => row.at(Told::Owned),
            Way::Requeued => {
                let keeps = !row.is_cancelled && !self.queues.is_purged(row.queue);
                row.into_queue(row.queue, keeps)
            }
            Way::Forwarded(queue) => row.into_queue(queue.0, !row.is_cancelled),
            Way::Sent { forgotten } => Row {
                told: Told::Sent,
                is_forgotten: forgotten,
                ..row
            },
            Way::Finished => {
                if row.is_forgotten {
                    row.at(Told::Returning)
                } else {
                    row
                }
            }
            Way::Cancelled => row.cancelled(),
            Way::Completed => row.at(Told::Done),
        }
    }

    /// A request is told otherwise from this slot on: a piece begins where its place is another.
    fn change(&mut self, old: Row, new: Row, at: u32) -> Result<(), Memory> {
        let mut row = new;
        if old.told != new.told || old.queue != new.queue {
            self.cut(old, at)?;
            row.since = at;
        }
        self.put(row.request.id.0, row);
        self.queues.leave(old.counted(), at)?;
        self.queues.enter(row.counted(), at)
    }

    /// A request goes a way, from this slot on.
    fn go(&mut self, step: Move, at: u32) -> Result<(), Memory> {
        let row = self.row(step.request.id.0);
        if matches!(step.way, Way::Cancelled) {
            self.cancels.push((at, step.request))?;
        }
        let new = self.gone_by(row, step.way);
        self.change(row, new, at)
    }

    /// What waits in a queue is cancelled in it.
    fn purge(&mut self, queue: u32, at: u32) -> Result<(), Memory> {
        if self.queues.waiting(queue) == 0 {
            return Ok(());
        }
        for id in 0..self.rows.len() {
            let row = self.row_at(id);
            if row.is_there && row.queue == queue && matches!(row.told, Told::Queued) {
                self.change(row, row.cancelled(), at)?;
            }
        }
        Ok(())
    }

    /// A queue hears of an event, which may give it another mode.
    fn hear(&mut self, queue: u32, event: &Event, at: u32) -> Result<(), Memory> {
        if self.queues.hear(queue, event) {
            self.purge(queue, at)
        } else {
            Ok(())
        }
    }

    /// The queues of a device hear of a stage.
    fn hear_stage(&mut self, device: u32, event: &Event, at: u32) -> Result<(), Memory> {
        for k in 0..self.queues.declared() {
            if self.queues.device(k + 1) == device {
                self.hear(k + 1, event, at)?;
            }
        }
        Ok(())
    }

    /// The queues that an event speaks of hear of it.
    fn hear_of(&mut self, event: &Event, at: u32) -> Result<(), Memory> {
        match *event {
            Event::Did { call, .. } | Event::Waiting { call, .. } => match id_in(call.a) {
                Some(id) => self.hear(id.0, event, at),
                None => Ok(()),
            },
            Event::Stage { device, .. } => self.hear_stage(device.id.0, event, at),
            _ => Ok(()),
        }
    }

    /// An object is gone with the slot before this one.
    fn gone(&mut self, object: Handle, at: u32) -> Result<(), Memory> {
        let mut row = self.row(object.id.0);
        self.cut(row, at)?;
        row.since = at;
        row.is_there = false;
        self.put(object.id.0, row);
        Ok(())
    }

    /// Takes what an event tells of requests.
    fn take(&mut self, plan: &Plan, at: u32, event: &Event) -> Result<(), Memory>
        requires { at < 2 ^ 32 - 1 }
    {
        let next = at + 1;
        if let Some(request) = request_born(event) {
            self.begin(request, at, next);
        }
        if let Some(step) = move_by(plan, event) {
            self.go(step, at)?;
        }
        self.hear_of(event, at)?;
        if let Event::Destroy { object } = *event {
            self.gone(object, next)?;
        }
        Ok(())
    }

    /// Ends the piece of the object with this id with the run, where it is a request that is still there.
    fn finish_row(&mut self, at: usize, total: u32) -> Result<(), Memory> {
        let mut row = self.row_at(at);
        if row.is_there {
            self.cut(row, total)?;
            row.since = total;
            self.put(row.request.id.0, row);
        }
        Ok(())
    }

    /// Ends the pieces of requests that are still there with the run.
    fn finish(&mut self, total: u32) -> Result<(), Memory> {
        for at in 0..self.rows.len() {
            self.finish_row(at, total)?;
        }
        self.queues.finish(total)
    }
}

/// What is told of the requests of a run.
///
/// # Errors
///
/// [`Memory`] where memory was refused.
pub fn requests_of(alloc: Global, plan: &Plan, events: &[Event]) -> Result<Requests, Memory>
    requires { length events.now < 2 ^ 32 }
{
    let mut requests = Requests::new(alloc, plan, events.len())?;
    for at in 0..events.len() {
        requests.take(plan, at as u32, &events[at])?;
    }
    requests.finish(events.len() as u32)?;
    Ok(requests)
}

/// The span of a request.
fn span_of(birth: Birth, requests: &Requests) -> RequestSpan
    ensures { result.birth ≡ birth }
{
    RequestSpan {
        birth,
        to: requests.end(birth.request),
    }
}

/// The spans of requests, in the order of their births.
///
/// # Errors
///
/// [`Memory`] where memory was refused.
pub fn spans_of(
    alloc: Global,
    events: &[Event],
    requests: &Requests,
) -> Result<Vec<RequestSpan>, Memory>
    requires { length events.now < 2 ^ 32 }
    // Each request that came to be has exactly one span, and there is no other.
    ensures { IfOk result (λ spans. map (λ s. s.birth) spans.items ≡ births_from 1 events.now) }
{
    let mut spans = Vec::new(alloc);
    for k in 0..events.len() {
        let number = k as u32 + 1;
        match birth_by(number, &events[k]) {
            Some(birth) => spans.push(span_of(birth, requests))?,
            None => {}
        }
    }
    Ok(spans)
}
