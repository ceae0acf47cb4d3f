//! Two are one where no field differs: no two of a table are.
use wdf_base::{
    Access, Action, Actor, Arg, Ask, Call, CallKind, Callback, Cause, Change, Cpu, Ending, Event,
    Fault, Frame, FrameId, Handle, Intent, Kind, Life, LockRef, Mark, Name, ObjectId, OpenThing,
    Pending, Place, Post, RequestForm, RequestInfo, Stage, Status, Step, VARIABLES, Value,
    WaitLine,
};
use wdf_same::*;

const DEVICE: Handle = Handle {
    id: ObjectId(2),
    name: 2,
};

const QUEUE: Handle = Handle {
    id: ObjectId(3),
    name: 3,
};

const CPU: Cpu = Cpu(0);

const ZERO: Value = Value::Num(0);

const DELETE: Call = Call {
    kind: CallKind::WdfObjectDelete,
    count: 1,
    a: Arg::Val(Value::Obj(DEVICE)),
    b: Arg::Val(ZERO),
    c: Arg::Val(ZERO),
};

const INFO: RequestInfo = RequestInfo {
    device: ObjectId(2),
    form: RequestForm::Read,
    length: 16,
    code: 0,
    origin: None,
    agent: 1,
    arrival: 1,
    mark: Mark::Unmarked,
    cancelled: false,
    received: false,
};

const FRAME: Frame = Frame {
    callback: Callback::EvtIoRead,
    object: QUEUE,
    device: DEVICE,
    request: None,
    length: 0,
    code: 0,
    status: Status::Success,
    script: 0,
    at: 0,
    variables: [ZERO; VARIABLES],
    counters: [0; VARIABLES],
    until: 0,
    pending: None,
};

const PENDING: Pending = Pending {
    call: DELETE,
    answer: ZERO,
};

/// Whether the variants of kinds, lives, marks, forms and calls are told apart.
fn kinds_are_apart() -> bool {
    let send = CallKind::WdfRequestSend;
    same_kind(Kind::Dpc, Kind::Dpc)
        && !same_kind(Kind::Dpc, Kind::Timer)
        && same_life(Life::Asked, Life::Asked)
        && !same_life(Life::Asked, Life::Cleaned)
        && same_mark(Mark::Due, Mark::Due)
        && !same_mark(Mark::Due, Mark::Taken)
        && same_request_form(RequestForm::Read, RequestForm::Read)
        && !same_request_form(RequestForm::Read, RequestForm::Write)
        && same_call_kind(send, send)
        && !same_call_kind(send, CallKind::WdfRequestRequeue)
}

/// Whether the variants of asks, stages, accesses, faults, actors and endings are told apart.
fn stages_are_apart() -> bool {
    let fault = Ending::Fault(Fault::NotOwned);
    same_ask(Ask::Wake, Ask::Wake)
        && !same_ask(Ask::Wake, Ask::Sleep)
        && same_stage(Stage::Quiet, Stage::Quiet)
        && !same_stage(Stage::Quiet, Stage::Settled)
        && same_access(Access::Read, Access::Read)
        && !same_access(Access::Read, Access::Write)
        && same_fault(Fault::NotOwned, Fault::NotOwned)
        && !same_fault(Fault::NotOwned, Fault::WrongKind)
        && same_actor(Actor::Clock, Actor::Clock)
        && !same_actor(Actor::Cpu(0), Actor::Agent(0))
        && same_ending(Ending::Stuck, Ending::Stuck)
        && !same_ending(fault, Ending::Fault(Fault::WrongKind))
}

const RENAMED: Handle = Handle {
    id: ObjectId(2),
    name: 4,
};

/// Whether ids and handles are told apart.
fn ids_are_apart() -> bool {
    let id = Some(ObjectId(2));
    same_cpu(CPU, CPU)
        && !same_cpu(CPU, Cpu(1))
        && same_frame_id(FrameId(7), FrameId(7))
        && !same_frame_id(FrameId(7), FrameId(8))
        && same_handle(DEVICE, DEVICE)
        && !same_handle(DEVICE, RENAMED)
        && same_option_handle(Some(DEVICE), Some(DEVICE))
        && !same_option_handle(Some(DEVICE), None)
        && same_option_object_id(id, id)
        && !same_option_object_id(id, Some(ObjectId(3)))
}

/// Whether places and locks are told apart.
fn places_are_apart() -> bool {
    let queued = Place::Queued(ObjectId(2));
    let lock = LockRef::Object(ObjectId(2));
    same_place(queued, queued)
        && !same_place(queued, Place::Returning(ObjectId(2)))
        && same_lock(lock, lock)
        && !same_lock(lock, LockRef::DeviceScope(ObjectId(2)))
}

/// Whether values, names and arguments are told apart.
fn values_are_apart() -> bool {
    let name = Name::new(b"D");
    same_value(Value::Obj(DEVICE), Value::Obj(DEVICE))
        && !same_value(Value::Obj(DEVICE), Value::Obj(RENAMED))
        && !same_value(ZERO, Value::Stat(Status::Success))
        && same_name(&name, &name)
        && !same_name(&name, &Name::new(b"DD"))
        && same_arg(Arg::Class(0), Arg::Class(0))
        && !same_arg(Arg::Class(0), Arg::Val(ZERO))
}

/// Whether calls and what is kept of a request are told apart.
fn calls_are_apart() -> bool {
    let mut of_queue = DELETE;
    of_queue.a = Arg::Val(Value::Obj(QUEUE));
    let mut received = INFO;
    received.received = true;
    same_call(&DELETE, &DELETE)
        && !same_call(&DELETE, &of_queue)
        && same_request_info(&INFO, &INFO)
        && !same_request_info(&INFO, &received)
}

/// Whether calls that wait, and what a frame comes to next, are told apart.
fn intents_are_apart() -> bool {
    let mut one = PENDING;
    one.answer = Value::Num(1);
    let count = Change::Count { depth: 0, left: 1 };
    same_pending(&PENDING, &PENDING)
        && !same_pending(&PENDING, &one)
        && same_option_pending(None, None)
        && !same_option_pending(Some(PENDING), None)
        && same_change(count, count)
        && !same_change(count, Change::Count { depth: 0, left: 2 })
        && same_intent(&Intent::Broken, &Intent::Broken)
        && !same_intent(&Intent::Log(ZERO), &Intent::Return(ZERO))
}

/// Whether frames are told apart.
fn frames_are_apart() -> bool {
    let mut later = FRAME;
    later.until = 1;
    same_frame(&FRAME, &FRAME) && !same_frame(&FRAME, &later)
}

static ACTIONS: [Action; 3] = [
    Action::Set {
        register: 0,
        value: 1,
    },
    Action::Raise { interrupt: QUEUE },
    Action::Lower { interrupt: QUEUE },
];

static STEPS: [Step; 3] = [
    Step::Pass {
        stage: Stage::Enabled,
        interrupt: Some(QUEUE),
    },
    Step::Pass {
        stage: Stage::Enabled,
        interrupt: None,
    },
    Step::Run {
        callback: Callback::EvtDeviceD0Exit,
        interrupt: None,
    },
];

static POSTS: [Post; 5] = [
    Post::Read {
        device: DEVICE,
        length: 16,
    },
    Post::Write {
        device: DEVICE,
        length: 16,
    },
    Post::Control {
        device: DEVICE,
        code: 1,
        length: 16,
    },
    Post::Cancel { arrival: 1 },
    Post::Done {
        request: QUEUE,
        status: Status::Success,
    },
];

static EVENTS: [Event; 6] = [
    Event::Register {
        cpu: CPU,
        access: Access::Read,
        register: 3,
        value: 5,
    },
    Event::Register {
        cpu: CPU,
        access: Access::Write,
        register: 3,
        value: 5,
    },
    Event::Did {
        cpu: CPU,
        call: DELETE,
        answer: ZERO,
    },
    Event::Woke {
        cpu: CPU,
        call: DELETE,
        answer: ZERO,
    },
    Event::Cleanup { object: DEVICE },
    Event::Destroy { object: DEVICE },
];

/// Whether no two of the actions are one.
fn actions_are_apart() -> bool {
    for (j, a) in ACTIONS.iter().enumerate() {
        for (k, b) in ACTIONS.iter().enumerate() {
            if same_action(*a, *b) != (j == k) {
                return false;
            }
        }
    }
    true
}

/// Whether no two of the steps are one.
fn steps_are_apart() -> bool {
    for (j, a) in STEPS.iter().enumerate() {
        for (k, b) in STEPS.iter().enumerate() {
            if same_step(*a, *b) != (j == k) {
                return false;
            }
        }
    }
    true
}

/// Whether no two of the posts are one.
fn posts_are_apart() -> bool {
    for (j, a) in POSTS.iter().enumerate() {
        for (k, b) in POSTS.iter().enumerate() {
            if same_post(a, b) != (j == k) {
                return false;
            }
        }
    }
    true
}

/// Whether no two of the events are one.
fn events_are_apart() -> bool {
    for (j, a) in EVENTS.iter().enumerate() {
        for (k, b) in EVENTS.iter().enumerate() {
            if same_event(a, b) != (j == k) {
                return false;
            }
        }
    }
    true
}

static THINGS: [OpenThing; 4] = [
    OpenThing::Waiting {
        frame: FrameId(4),
        callback: Callback::EvtIoRead,
        object: QUEUE,
    },
    OpenThing::Waiting {
        frame: FrameId(5),
        callback: Callback::EvtIoRead,
        object: QUEUE,
    },
    OpenThing::Leaving { object: QUEUE },
    OpenThing::Deferred { object: QUEUE },
];

static CAUSES: [Cause; 4] = [
    Cause::Manual,
    Cause::References { count: 1 },
    Cause::References { count: 2 },
    Cause::ByChild { child: QUEUE },
];

/// Whether no two of the things are one.
fn things_are_apart() -> bool {
    for (j, a) in THINGS.iter().enumerate() {
        for (k, b) in THINGS.iter().enumerate() {
            if same_open_thing(a, b) != (j == k) {
                return false;
            }
        }
    }
    true
}

/// Whether no two of the causes are one.
fn causes_are_apart() -> bool {
    for (j, a) in CAUSES.iter().enumerate() {
        for (k, b) in CAUSES.iter().enumerate() {
            if same_cause(a, b) != (j == k) {
                return false;
            }
        }
    }
    true
}

/// Whether lines of a wait list are told apart.
fn lines_are_apart() -> bool {
    let full = Some(Cause::Full);
    let line = WaitLine {
        thing: OpenThing::Asking { device: DEVICE },
        cause: full,
    };
    let mut other = line;
    other.cause = None;
    same_option_cause(full, full)
        && !same_option_cause(full, None)
        && same_wait_line(&line, &line)
        && !same_wait_line(&line, &other)
}

#[test]
fn plain_values_are_told_apart(rt: HostRuntime) {
    assert!(rt; kinds_are_apart() && stages_are_apart());
    assert!(rt; ids_are_apart() && places_are_apart());
    assert!(rt; values_are_apart() && calls_are_apart());
    assert!(rt; intents_are_apart() && frames_are_apart());
}

#[test]
fn no_two_of_a_table_are_one(rt: HostRuntime) {
    assert!(rt; actions_are_apart() && steps_are_apart());
    assert!(rt; posts_are_apart() && events_are_apart());
    assert!(rt; things_are_apart() && causes_are_apart() && lines_are_apart());
}
