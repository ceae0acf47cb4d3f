//! The rows of a run: what a viewer is told.
ghost use Rattle.std.specs.Prelude.{◌<◌, ◌^◌, length};

use crate::row::{Group, Row, Sort, Title, Track};
use std::alloc::Global;
use wdf_base::{Cpu, Declared, DeviceInfo, Event, Handle, Memory, ObjectId, Plan};
use wdf_spans::{
    Band, BandOf, Frames, Phase, Piece, QueuePiece, RequestPiece, RequestSpan, Requests, Stay,
    frames_of, pieces_of, requests_of, spans_of,
};

/// The rows of a run that are written so far.
#[derive(Drop)]
struct Rows {
    rows: Vec<Row>,
}

/// The track of a processor.
fn cpu_track(cpu: Cpu) -> Track {
    Track {
        group: Group::Processors,
        number: u32::from(cpu.0),
    }
}

/// The track of a device.
fn device_track(device: ObjectId) -> Track {
    Track {
        group: Group::Devices,
        number: device.0,
    }
}

/// The callback of a frame, and its object.
fn title_at(events: &[Event], frame: u32) -> Title {
    if frame == 0 {
        return Title::Waits;
    }
    match events.get(frame as usize - 1) {
        Some(
            Event::Start {
                callback,
                object,
                ..
            },
        ) => Title::Callback {
            callback: *callback,
            object: *object,
        },
        _ => Title::Waits,
    }
}

/// The call that an event makes.
fn call_at(events: &[Event], slot: u32) -> Title {
    match events.get(slot as usize) {
        Some(Event::Did { call, .. }) => Title::Call(call.kind),
        _ => Title::Waits,
    }
}

/// The slice of a frame's stay on a processor. Of a later stay the line is that of its coming back.
fn stay_row(events: &[Event], stay: &Stay) -> Row {
    Row::Slice {
        track: cpu_track(stay.cpu),
        title: title_at(events, stay.frame),
        from: stay.from,
        to: stay.to,
        number: stay.from.saturating_add(1),
    }
}

/// The slice of a piece in which a frame does this.
fn piece_row(piece: &Piece, title: Title) -> Row {
    Row::Slice {
        track: cpu_track(piece.cpu),
        title,
        from: piece.from,
        to: piece.to,
        number: piece.from.saturating_add(1),
    }
}

impl Rows {
    fn add(&mut self, row: Row) -> Result<(), Memory> {
        self.rows.push(row)?;
        Ok(())
    }

    /// Adds the names of the groups.
    fn groups(&mut self) -> Result<(), Memory> {
        self.add(Row::Names(Group::Processors))?;
        self.add(Row::Names(Group::Devices))?;
        self.add(Row::Names(Group::Queues))?;
        self.add(Row::Names(Group::Requests))
    }

    /// Adds the names of the processors.
    fn cpus(&mut self, plan: &Plan) -> Result<(), Memory> {
        for cpu in 0..plan.cpus() {
            self.add(Row::Name {
                track: cpu_track(Cpu(cpu)),
                title: Title::Cpu(Cpu(cpu)),
            })?;
        }
        Ok(())
    }

    /// Adds the slices of callbacks.
    fn stays(&mut self, events: &[Event], stays: &[Stay]) -> Result<(), Memory> {
        for stay in stays {
            self.add(stay_row(events, stay))?;
        }
        Ok(())
    }

    /// Adds the span of a callback that is parked.
    fn parked(&mut self, events: &[Event], piece: &Piece) -> Result<(), Memory> {
        let title = title_at(events, piece.frame);
        self.add(Row::Begin {
            sort: Sort::Parked,
            key: piece.frame,
            title,
            at: piece.from,
            number: piece.from,
        })?;
        self.add(Row::Finish {
            sort: Sort::Parked,
            key: piece.frame,
            title,
            at: piece.to,
        })
    }

    /// Adds what a callback does in a piece.
    fn piece(&mut self, events: &[Event], piece: &Piece) -> Result<(), Memory> {
        match piece.phase {
            Phase::Running => Ok(()),
            Phase::Waiting => self.add(piece_row(piece, Title::Waits)),
            Phase::Calling => self.add(piece_row(piece, call_at(events, piece.from))),
            Phase::Parked => self.parked(events, piece),
        }
    }

    /// Adds what callbacks do: where they wait, their calls, where they are parked.
    fn pieces(&mut self, events: &[Event], pieces: &[Piece]) -> Result<(), Memory> {
        for piece in pieces {
            self.piece(events, piece)?;
        }
        Ok(())
    }

    /// Adds the phases of a device.
    fn phases(
        &mut self,
        alloc: Global,
        device: ObjectId,
        working: bool,
        events: &[Event],
    ) -> Result<(), Memory>
        requires { length events.now < 2 ^ 32 }
    {
        let of = BandOf::of_device(Band::Phase, device, working);
        let pieces = pieces_of(alloc, &of, events)?;
        for piece in &pieces {
            if piece.from < piece.to {
                self.add(Row::Slice {
                    track: device_track(device),
                    title: Title::Standing(piece.standing),
                    from: piece.from,
                    to: piece.to,
                    number: if piece.from == 0 {
                        0
                    } else {
                        piece.from.saturating_add(1)
                    },
                })?;
            }
        }
        Ok(())
    }

    /// Adds a device: its name and its phases.
    fn device(
        &mut self,
        alloc: Global,
        id: ObjectId,
        info: &DeviceInfo,
        events: &[Event],
    ) -> Result<(), Memory>
        requires { length events.now < 2 ^ 32 }
    {
        self.add(Row::Name {
            track: device_track(id),
            title: Title::Object(Handle {
                id,
                name: info.name,
            }),
        })?;
        self.phases(alloc, id, info.working, events)
    }

    /// Adds the devices.
    fn devices(&mut self, alloc: Global, plan: &Plan, events: &[Event]) -> Result<(), Memory>
        requires { length events.now < 2 ^ 32 }
    {
        for o in 0..plan.declared_len() {
            let id = ObjectId(o + 1);
            if let Declared::Device(info) = plan.declared(id) {
                self.device(alloc, id, &info, events)?;
            }
        }
        Ok(())
    }

    /// Adds the moments of the run: stages of devices, ticks, the fault.
    fn moments(&mut self, events: &[Event]) -> Result<(), Memory> {
        let mut at: u32 = 0;
        for event in events {
            let number = at.saturating_add(1);
            match *event {
                Event::Stage { device, stage, .. } => self.add(Row::Mark {
                    track: device_track(device.id),
                    title: Title::Stage(stage),
                    at,
                    number,
                })?,
                Event::Tick { time } => self.add(Row::Clock { time, at })?,
                Event::Fault { cpu, fault, .. } => self.add(Row::Mark {
                    track: cpu_track(cpu),
                    title: Title::Fault(fault),
                    at,
                    number,
                })?,
                _ => {}
            }
            at = number;
        }
        Ok(())
    }

    /// Adds the begins of the spans of requests.
    fn begins(&mut self, spans: &[RequestSpan]) -> Result<(), Memory> {
        for span in spans {
            self.add(Row::Begin {
                sort: Sort::Request,
                key: span.birth.number,
                title: Title::Object(span.birth.request),
                at: span.birth.number.saturating_sub(1),
                number: span.birth.number,
            })?;
        }
        Ok(())
    }

    /// Adds the places of a request in a piece, within its span.
    fn place(&mut self, piece: &RequestPiece) -> Result<(), Memory> {
        let title = Title::Place(piece.told);
        self.add(Row::Begin {
            sort: Sort::Request,
            key: piece.birth,
            title,
            at: piece.from,
            number: piece.from.saturating_add(1),
        })?;
        self.add(Row::Finish {
            sort: Sort::Request,
            key: piece.birth,
            title,
            at: piece.to,
        })
    }

    /// Adds the places of requests, and the moments at which they are cancelled.
    fn places(&mut self, requests: &Requests) -> Result<(), Memory> {
        for piece in requests.pieces() {
            self.place(piece)?;
        }
        for cancel in requests.cancels() {
            self.add(Row::Moment {
                sort: Sort::Request,
                key: requests.birth(cancel.1),
                title: Title::Cancel,
                at: cancel.0,
                number: cancel.0.saturating_add(1),
            })?;
        }
        Ok(())
    }

    /// Adds the ends of the spans of requests.
    fn ends(&mut self, spans: &[RequestSpan]) -> Result<(), Memory> {
        for span in spans {
            self.add(Row::Finish {
                sort: Sort::Request,
                key: span.birth.number,
                title: Title::Object(span.birth.request),
                at: span.to,
            })?;
        }
        Ok(())
    }

    /// Adds the counts of queues.
    fn counts(&mut self, plan: &Plan, pieces: &[QueuePiece]) -> Result<(), Memory> {
        for piece in pieces {
            if piece.queue > 0 && piece.queue <= plan.declared_len() {
                let id = ObjectId(piece.queue);
                if let Declared::Queue(queue) = plan.declared(id) {
                    self.add(Row::Counts {
                        queue: Handle {
                            id,
                            name: queue.name,
                        },
                        waiting: piece.waiting,
                        held: piece.held,
                        at: piece.from,
                    })?;
                }
            }
        }
        Ok(())
    }

    /// Adds the spans of requests, and what happens within them.
    fn spans(&mut self, spans: &[RequestSpan], requests: &Requests) -> Result<(), Memory> {
        self.begins(spans)?;
        self.places(requests)?;
        self.ends(spans)
    }

    /// Adds the requests and the queues.
    fn requests(&mut self, alloc: Global, plan: &Plan, events: &[Event]) -> Result<(), Memory>
        requires { length events.now < 2 ^ 32 }
    {
        let requests = requests_of(alloc, plan, events)?;
        let spans = spans_of(alloc, events, &requests)?;
        self.spans(spans.as_slice(), &requests)?;
        self.counts(plan, requests.queue_pieces())
    }

    /// Adds the callbacks, and what they do.
    fn callbacks(&mut self, alloc: Global, events: &[Event]) -> Result<(), Memory>
        requires { length events.now < 2 ^ 32 }
    {
        let frames: Frames = frames_of(alloc, events)?;
        self.stays(events, frames.stays())?;
        self.pieces(events, frames.pieces())
    }

    /// Adds all rows of a run.
    fn run(&mut self, alloc: Global, plan: &Plan, events: &[Event]) -> Result<(), Memory>
        requires { length events.now < 2 ^ 32 }
    {
        self.groups()?;
        self.cpus(plan)?;
        self.callbacks(alloc, events)?;
        self.devices(alloc, plan, events)?;
        self.moments(events)?;
        self.requests(alloc, plan, events)
    }
}

/// The rows of a run.
///
/// # Errors
///
/// [`Memory`] where memory was refused.
pub fn rows_of(alloc: Global, plan: &Plan, events: &[Event]) -> Result<Vec<Row>, Memory>
    requires { length events.now < 2 ^ 32 }
{
    let mut rows = Rows {
        rows: Vec::new(alloc),
    };
    rows.run(alloc, plan, events)?;
    Ok(rows.rows)
}
