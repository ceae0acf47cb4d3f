//! Frames on two processors, and their levels.
use crate::trials::{Part, Wrong, wrong_in};
use std::alloc::Global;
use wdf_base::{
    Arg, Call, CallKind, Callback, Cpu, Frame, FrameId, Handle, Irql, Memory, ObjectId, Pending,
    Plan, Status, VARIABLES, Value,
};
use wdf_cpu::Cpus;
use wdf_model::{EVENTS, FRAMES};

const DEVICE: ObjectId = ObjectId(2);

const TIMER: ObjectId = ObjectId(7);

const LOCK: ObjectId = ObjectId(8);

/// A call on the lock that waits.
const WAITS: Pending = Pending {
    call: Call {
        kind: CallKind::WdfWaitLockAcquire,
        count: 1,
        a: Arg::Val(Value::Obj(Handle { id: LOCK, name: 1 })),
        b: Arg::Val(Value::Num(0)),
        c: Arg::Val(Value::Num(0)),
    },
    answer: Value::Num(0),
};

/// What happens on the processors, and what is read of them, with the answer that is due. Processors
/// and frames are named by their numbers.
#[derive(Clone, Copy)]
pub enum Act {
    /// A frame of a callback on an object begins on a processor, with the level of its callback.
    Push(u8, u32, Callback, ObjectId, u8),
    /// The top frame of a processor, which is of this callback on this object, ends.
    Pop(u8, Callback, ObjectId),
    /// The top frame of a processor parks.
    Park(u8),
    /// A parked frame goes on, on a processor.
    Unpark(u8, u32),
    /// A frame of EvtWorkItem on the timer goes on: it waits for the lock or not, and spends until a
    /// tick.
    Change(u32, bool, u64),
    /// A frame holds a level more.
    Raise(u32, u8),
    /// A frame gives a level up.
    Lower(u32, u8),
    /// This holds.
    Is(Fact),
}

/// What is read, with the answer that is due.
#[derive(Clone, Copy)]
pub enum Fact {
    /// The frames of a processor, from the top on.
    Stack(u8, &'static [u32]),
    /// The parked frames.
    Parked(&'static [u32]),
    /// Whether a frame is parked.
    IsParked(u32, bool),
    /// The frames that run or are parked.
    Live(&'static [u32]),
    /// Whether a frame runs or is parked.
    IsLive(u32, bool),
    /// All frames that run or are parked are below a number that is above this one.
    EndsAbove(u32),
    /// How many frames are on an object.
    On(ObjectId, u32),
    /// Whether a callback runs on the device.
    Runs(Callback, bool),
    /// Whether a frame waits for an object.
    WaitedFor(ObjectId, bool),
    /// Whether a frame spends at a tick.
    Spends(u64, bool),
    /// The level of a processor.
    Level(u8, u8),
    /// The level of a frame.
    FrameLevel(u32, u8),
    /// The least frame above one.
    Above(u32, Option<u32>),
}

/// What happens on two processors that are empty.
struct Case {
    name: &'static str,
    acts: &'static [Act],
}

static CASES: [Case; 4] = [
    Case {
        name: "a frame is counted on its object from its start to its end, also while it is parked",
        acts: &[
            Act::Is(Fact::On(TIMER, 0)),
            Act::Push(0, 3, Callback::EvtTimerFunc, TIMER, 2),
            Act::Push(1, 5, Callback::EvtTimerFunc, TIMER, 2),
            Act::Is(Fact::On(TIMER, 2)),
            Act::Is(Fact::Runs(Callback::EvtTimerFunc, true)),
            Act::Is(Fact::Runs(Callback::EvtDpcFunc, false)),
            Act::Park(0),
            Act::Is(Fact::On(TIMER, 2)),
            Act::Pop(1, Callback::EvtTimerFunc, TIMER),
            Act::Is(Fact::Stack(1, &[])),
            Act::Is(Fact::On(TIMER, 1)),
            Act::Is(Fact::IsLive(3, true)),
            Act::Is(Fact::IsLive(5, false)),
            Act::Is(Fact::On(ObjectId(4_000_000), 0)),
        ],
    },
    Case {
        name: "the parked frames rise by number, and one goes on on any processor",
        acts: &[
            Act::Push(0, 4, Callback::EvtWorkItem, TIMER, 0),
            Act::Push(1, 2, Callback::EvtWorkItem, TIMER, 0),
            Act::Park(0),
            Act::Park(1),
            Act::Is(Fact::Stack(0, &[])),
            Act::Is(Fact::Parked(&[2, 4])),
            Act::Is(Fact::Stack(1, &[])),
            Act::Is(Fact::IsParked(4, true)),
            Act::Unpark(1, 4),
            Act::Is(Fact::Parked(&[2])),
            Act::Is(Fact::IsParked(4, false)),
            Act::Is(Fact::EndsAbove(4)),
            Act::Is(Fact::Stack(1, &[4])),
            Act::Is(Fact::Live(&[4, 2])),
        ],
    },
    Case {
        name: "a frame waits for the first argument of its call, and spends until its tick",
        acts: &[
            Act::Push(0, 1, Callback::EvtWorkItem, TIMER, 0),
            Act::Change(1, true, 0),
            Act::Is(Fact::WaitedFor(LOCK, true)),
            Act::Is(Fact::WaitedFor(TIMER, false)),
            Act::Is(Fact::Spends(8, false)),
            Act::Change(1, false, 9),
            Act::Is(Fact::WaitedFor(LOCK, false)),
            Act::Is(Fact::WaitedFor(TIMER, false)),
            Act::Is(Fact::Spends(8, true)),
            Act::Is(Fact::Spends(9, false)),
            Act::Change(1, false, 0),
            Act::Is(Fact::WaitedFor(LOCK, false)),
            Act::Is(Fact::Spends(8, false)),
            Act::Is(Fact::Spends(9, false)),
        ],
    },
    // A processor's level is 0 where it is empty, else the greatest of its top frame's level and of
    // the levels that this frame holds.
    Case {
        name: "the top frame alone makes the level",
        acts: &[
            Act::Is(Fact::Level(0, 0)),
            Act::Push(0, 1, Callback::EvtWorkItem, DEVICE, 0),
            Act::Is(Fact::Level(0, 0)),
            Act::Raise(1, 2),
            Act::Raise(1, 2),
            Act::Is(Fact::Level(0, 2)),
            Act::Push(0, 2, Callback::EvtInterruptIsr, DEVICE, 5),
            Act::Is(Fact::Level(0, 5)),
            Act::Is(Fact::FrameLevel(1, 2)),
            Act::Is(Fact::Above(1, Some(2))),
            Act::Is(Fact::Above(2, None)),
            Act::Pop(0, Callback::EvtInterruptIsr, DEVICE),
            Act::Lower(1, 2),
            Act::Is(Fact::Level(0, 2)),
            Act::Lower(1, 7),
            Act::Lower(1, 2),
            Act::Is(Fact::Level(0, 0)),
        ],
    },
];

/// A frame of a callback on an object of the device.
fn frame(callback: Callback, id: ObjectId) -> Frame {
    Frame {
        callback,
        object: Handle { id, name: 1 },
        device: Handle {
            id: DEVICE,
            name: 1,
        },
        request: None,
        length: 0,
        code: 0,
        status: Status::Success,
        script: 0,
        at: 0,
        variables: [Value::Num(0); VARIABLES],
        counters: [0; VARIABLES],
        until: 0,
        pending: None,
    }
}

/// A frame that waits for the lock, or doesn't, and spends until a tick.
fn going(waits: bool, until: u64) -> Frame {
    let mut frame = frame(Callback::EvtWorkItem, TIMER);
    frame.until = until;
    if waits {
        frame.pending = Some(WAITS);
    }
    frame
}

/// Whether a processor has these frames.
fn is_stack(cpus: &Cpus, cpu: Cpu, due: &[u32]) -> bool {
    for (place, f) in due.iter().enumerate() {
        if cpus.stack_at(cpu, place) != Some(FrameId(*f)) {
            return false;
        }
    }
    cpus.stack_len(cpu) == due.len()
        && cpus.stack_at(cpu, due.len()).is_none()
        && cpus.is_empty(cpu) == due.is_empty()
        && cpus.top(cpu) == cpus.stack_at(cpu, 0)
}

/// Whether these frames are parked.
fn are_parked(cpus: &Cpus, due: &[u32]) -> bool {
    for (place, f) in due.iter().enumerate() {
        if cpus.parked_at(place) != Some(FrameId(*f)) {
            return false;
        }
    }
    cpus.parked_len() == due.len() && cpus.parked_at(due.len()).is_none()
}

/// Whether these frames run or are parked.
fn are_live(cpus: &Cpus, due: &[u32]) -> bool {
    for (place, f) in due.iter().enumerate() {
        if place >= cpus.live_len() || cpus.live_at(place) != FrameId(*f) {
            return false;
        }
    }
    cpus.live_len() == due.len()
}

/// Whether so many frames are on an object.
fn are_on(cpus: &Cpus, o: ObjectId, due: u32) -> bool {
    cpus.frames_on(o) == due && cpus.nobody_on(o) == (due == 0)
}

/// Whether what is read of one frame or one processor is as due.
fn holds_of_one(cpus: &Cpus, fact: Fact) -> bool {
    match fact {
        Fact::Stack(cpu, due) => is_stack(cpus, Cpu(cpu), due),
        Fact::IsParked(f, due) => cpus.is_parked(FrameId(f)) == due,
        Fact::IsLive(f, due) => cpus.is_live(FrameId(f)) == due,
        Fact::Level(cpu, due) => cpus.irql(Cpu(cpu)) == Irql(due),
        Fact::FrameLevel(f, due) => cpus.frame_level(FrameId(f)) == Irql(due),
        Fact::Above(f, due) => cpus.least_above(FrameId(f)) == due.map(FrameId),
        _ => false,
    }
}

/// Whether a fact holds.
fn holds(cpus: &Cpus, fact: Fact) -> bool {
    match fact {
        Fact::Parked(due) => are_parked(cpus, due),
        Fact::Live(due) => are_live(cpus, due),
        Fact::EndsAbove(f) => f < cpus.live_end(),
        Fact::On(o, due) => are_on(cpus, o, due),
        Fact::Runs(callback, due) => cpus.is_running(callback, DEVICE) == due,
        Fact::WaitedFor(o, due) => cpus.is_waited_for(o) == due,
        Fact::Spends(time, due) => cpus.any_spends(time) == due,
        _ => holds_of_one(cpus, fact),
    }
}

/// A frame begins, if it may; whether it may.
fn pushes(cpus: &mut Cpus, cpu: Cpu, f: FrameId, frame: Frame, level: Irql) -> bool {
    let may = usize::from(cpu.0) < cpus.cpu_len() && f.0 < FRAMES && !cpus.is_live(f);
    if may {
        cpus.push(cpu, f, frame, level);
    }
    may
}

/// The top frame of a processor ends; whether there is one, and it is this.
fn pops(cpus: &mut Cpus, cpu: Cpu, due: Frame) -> bool {
    if usize::from(cpu.0) >= cpus.cpu_len() {
        return false;
    }
    let Some(f) = cpus.top(cpu) else {
        return false;
    };
    let is_due = *cpus.frame(f) == due;
    cpus.pop(cpu);
    is_due
}

/// The top frame of a processor parks; whether the processor is there.
fn parks(cpus: &mut Cpus, cpu: Cpu) -> bool {
    let there = usize::from(cpu.0) < cpus.cpu_len();
    if there {
        cpus.park(cpu);
    }
    there
}

/// A parked frame goes on; whether it is parked.
fn unparks(cpus: &mut Cpus, cpu: Cpu, f: FrameId) -> bool {
    let may = usize::from(cpu.0) < cpus.cpu_len() && cpus.is_parked(f);
    if may {
        cpus.unpark(cpu, f);
    }
    may
}

/// A frame changes; whether it is there, and then is this.
fn changes(cpus: &mut Cpus, f: FrameId, frame: Frame) -> bool {
    let there = (f.0 as usize) < cpus.frame_len();
    if there {
        cpus.change(f, frame);
    }
    there && *cpus.frame(f) == frame
}

/// A frame's levels change; whether they may.
fn relevels(cpus: &mut Cpus, act: Act) -> bool {
    match act {
        Act::Raise(f, level) if f < FRAMES && cpus.level_len() < EVENTS as usize => {
            cpus.raise(FrameId(f), Irql(level));
        }
        Act::Lower(f, level) if f < FRAMES => cpus.lower(FrameId(f), Irql(level)),
        _ => return false,
    }
    true
}

impl Part for Cpus {
    type Act = Act;

    fn does(&mut self, act: Act) -> bool {
        match act {
            Act::Push(cpu, f, callback, o, level) => {
                pushes(self, Cpu(cpu), FrameId(f), frame(callback, o), Irql(level))
            }
            Act::Pop(cpu, callback, o) => pops(self, Cpu(cpu), frame(callback, o)),
            Act::Park(cpu) => parks(self, Cpu(cpu)),
            Act::Unpark(cpu, f) => unparks(self, Cpu(cpu), FrameId(f)),
            Act::Change(f, waits, until) => changes(self, FrameId(f), going(waits, until)),
            Act::Is(fact) => holds(self, fact),
            _ => relevels(self, act),
        }
    }
}

/// What is wrong in the cases.
pub fn wrong(alloc: Global, plan: &Plan) -> Result<Wrong, Memory> {
    for case in &CASES {
        let wrong = match Cpus::make(alloc, plan) {
            Ok(cpus) => wrong_in(cpus, case.acts),
            Err(memory) => return Err(memory),
        };
        if let Some(place) = wrong {
            return Ok(Some((case.name, place)));
        }
    }
    Ok(None)
}
