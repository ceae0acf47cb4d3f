//! The lines of endings and of wait lists.
use crate::objects::{D, IRQ, L, Q, REQ, T, TM};
use crate::plan as names;
use wdf_base::{
    Callback, Cause, Ending, Fault, FrameId, Handle, ObjectId, OpenThing, Plan, Stage, Step,
    WaitLine,
};
use wdf_lines::{ending_line, wait_line};
use wdf_trace::{reads_as_ending, reads_as_wait};

/// Objects of the worked runs.
const REQ_4: Handle = Handle {
    id: ObjectId(4),
    name: names::REQ,
};

const X_5: Handle = Handle {
    id: ObjectId(5),
    name: names::X,
};

const Y_6: Handle = Handle {
    id: ObjectId(6),
    name: names::Y,
};

const L_3: Handle = Handle {
    id: ObjectId(3),
    name: names::L,
};

const L_4: Handle = Handle {
    id: ObjectId(4),
    name: names::L,
};

/// Endings after some events.
static ENDINGS: [(usize, Ending, &str); 22] = [
    (0, Ending::Finished, "finished 0"),
    (100, Ending::Limit, "limit 100"),
    (6, Ending::Finished, "finished 6"),
    (4, Ending::Finished, "finished 4"),
    (12, Ending::Finished, "finished 12"),
    (10, Ending::Finished, "finished 10"),
    (
        6,
        Ending::Fault(Fault::CompleteBeforeCancelCallback),
        "fault 6",
    ),
    (4, Ending::Fault(Fault::NotOwned), "fault 4"),
    (5, Ending::Fault(Fault::StaleHandle), "fault 5"),
    (5, Ending::Finished, "finished 5"),
    (11, Ending::Finished, "finished 11"),
    (14, Ending::Finished, "finished 14"),
    (19, Ending::Finished, "finished 19"),
    (20, Ending::Finished, "finished 20"),
    (16, Ending::Finished, "finished 16"),
    (61, Ending::Finished, "finished 61"),
    (6, Ending::Stuck, "stuck 6"),
    (38, Ending::Finished, "finished 38"),
    (13, Ending::Finished, "finished 13"),
    (50, Ending::Limit, "limit 50"),
    (29, Ending::Stuck, "stuck 29"),
    (161, Ending::Finished, "finished 161"),
];

/// Texts that are no ending's line.
const NO_ENDINGS: [&str; 6] = [
    "finished",
    "finished 04",
    "limit 9 ",
    "running 4",
    " 4",
    "stuck x",
];

/// Whether an ending has this line, and the line is told from others; a run that goes on has none.
fn is_ending(events: usize, ending: Ending, text: &str) -> bool {
    matches!(ending, Ending::Running)
        || ending_line(events, ending).bytes() == text.as_bytes()
            && reads_as_ending(text.as_bytes())
}

/// The first ending, or other text, that isn't as it should be.
pub fn wrong_endings() -> Option<&'static str> {
    for (events, ending, text) in &ENDINGS {
        if !is_ending(*events, *ending, text) {
            return Some(*text);
        }
    }
    for text in NO_ENDINGS {
        if reads_as_ending(text.as_bytes()) {
            return Some(text);
        }
    }
    None
}

/// Lines of a wait list.
static WAITS: [(WaitLine, &str); 15] = [
    (
        WaitLine {
            thing: OpenThing::Owned { request: REQ_4 },
            cause: None,
        },
        "req.4 owned",
    ),
    (
        WaitLine {
            thing: OpenThing::Sequence {
                device: D,
                step: Step::Pass {
                    stage: Stage::Settled,
                    interrupt: None,
                },
            },
            cause: Some(Cause::ByRequest { request: REQ_4 }),
        },
        "D.2 settled waits request req.4",
    ),
    (
        WaitLine {
            thing: OpenThing::Waiting {
                frame: FrameId(13),
                callback: Callback::EvtWorkItem,
                object: X_5,
            },
            cause: Some(Cause::ByLock {
                lock: L_4,
                frame: FrameId(18),
            }),
        },
        "frame 13 EvtWorkItem X.5 waits lock L.4 of frame 18",
    ),
    (
        WaitLine {
            thing: OpenThing::Waiting {
                frame: FrameId(18),
                callback: Callback::EvtWorkItem,
                object: Y_6,
            },
            cause: Some(Cause::ByLock {
                lock: L_3,
                frame: FrameId(13),
            }),
        },
        "frame 18 EvtWorkItem Y.6 waits lock L.3 of frame 13",
    ),
    (
        WaitLine {
            thing: OpenThing::Waiting {
                frame: FrameId(18),
                callback: Callback::EvtWorkItem,
                object: TM,
            },
            cause: Some(Cause::ByLock {
                lock: L,
                frame: FrameId(13),
            }),
        },
        "frame 18 EvtWorkItem TM.7 waits lock L.6 of frame 13",
    ),
    (
        WaitLine {
            thing: OpenThing::Owned { request: REQ },
            cause: None,
        },
        "req.8 owned",
    ),
    (
        WaitLine {
            thing: OpenThing::Sent {
                request: REQ,
                target: T,
            },
            cause: None,
        },
        "req.8 sent T.5",
    ),
    (
        WaitLine {
            thing: OpenThing::Queued {
                request: REQ,
                queue: Q,
            },
            cause: Some(Cause::Behind { request: REQ }),
        },
        "req.8 queued Q.3 behind req.8",
    ),
    (
        WaitLine {
            thing: OpenThing::Returning {
                request: REQ,
                queue: Q,
            },
            cause: Some(Cause::ScopeHeld),
        },
        "req.8 returning Q.3 scope",
    ),
    (
        WaitLine {
            thing: OpenThing::Sequence {
                device: D,
                step: Step::Pass {
                    stage: Stage::Settled,
                    interrupt: None,
                },
            },
            cause: Some(Cause::ByRequest { request: REQ }),
        },
        "D.2 settled waits request req.8",
    ),
    (
        WaitLine {
            thing: OpenThing::Sequence {
                device: D,
                step: Step::Run {
                    callback: Callback::EvtInterruptEnable,
                    interrupt: Some(IRQ),
                },
            },
            cause: Some(Cause::NoCpu),
        },
        "D.2 EvtInterruptEnable waits cpus",
    ),
    (
        WaitLine {
            thing: OpenThing::Leaving { object: L },
            cause: Some(Cause::References { count: 1 }),
        },
        "L.6 references 1",
    ),
    (
        WaitLine {
            thing: OpenThing::Leaving { object: L },
            cause: Some(Cause::AtTarget { target: T }),
        },
        "L.6 sent T.5",
    ),
    (
        WaitLine {
            thing: OpenThing::Deferred { object: TM },
            cause: Some(Cause::ByFrame { frame: FrameId(13) }),
        },
        "TM.7 queued frame 13",
    ),
    (
        WaitLine {
            thing: OpenThing::Asking { device: D },
            cause: None,
        },
        "pnp waits D.2",
    ),
];

/// Texts that are no line of a wait list.
const NO_WAITS: [&str; 8] = [
    "req.8 owned scope",
    "req.8 queued Q.3",
    "req.8 queued Q.3 references 1",
    "L.6 full",
    "TM.7 queued full",
    "pnp waits D",
    "D.2 settled waits",
    "frame 013 EvtWorkItem TM.7 waits cpus",
];

/// The first line of a wait list, or other text, that isn't as it should be.
pub fn wrong_waits(plan: &Plan) -> Option<&'static str> {
    for (wait, text) in &WAITS {
        let is_written = wait_line(plan, wait).bytes() == text.as_bytes();
        if !is_written || !reads_as_wait(plan, text.as_bytes()) {
            return Some(*text);
        }
    }
    for text in NO_WAITS {
        if reads_as_wait(plan, text.as_bytes()) {
            return Some(text);
        }
    }
    None
}
