//! The wait lists of the runs that are stuck.
use wdf_base::{Callback, Cause, FrameId, Handle, ObjectId, OpenThing, Stage, Step, WaitLine};

/// Requests.
const REQ_4: Handle = Handle {
    id: ObjectId(4),
    name: 1,
};

const REQ_9: Handle = Handle {
    id: ObjectId(9),
    name: 1,
};

/// Of the run `leaked_reference`.
const O_5: Handle = Handle {
    id: ObjectId(5),
    name: 2,
};

/// Of the run `never_acknowledged`.
const D_2: Handle = Handle {
    id: ObjectId(2),
    name: 2,
};

/// Of the run `blocked_dpc`.
const Q_3: Handle = Handle {
    id: ObjectId(3),
    name: 6,
};

const LOCK_5: Handle = Handle {
    id: ObjectId(5),
    name: 2,
};

const LOCK_6: Handle = Handle {
    id: ObjectId(6),
    name: 2,
};

const C_7: Handle = Handle {
    id: ObjectId(7),
    name: 4,
};

const W_8: Handle = Handle {
    id: ObjectId(8),
    name: 3,
};

/// Of the run `deadlock`.
const L_3: Handle = Handle {
    id: ObjectId(3),
    name: 2,
};

const L_4: Handle = Handle {
    id: ObjectId(4),
    name: 2,
};

const X_5: Handle = Handle {
    id: ObjectId(5),
    name: 3,
};

const Y_6: Handle = Handle {
    id: ObjectId(6),
    name: 4,
};

/// The lines of each list in their order, as `law_machine_worked` states them, each with its run.
static WAITS: [(&str, WaitLine); 10] = [
    (
        "leaked_reference",
        WaitLine {
            thing: OpenThing::Leaving { object: O_5 },
            cause: Some(Cause::References { count: 1 }),
        },
    ),
    (
        "never_acknowledged",
        WaitLine {
            thing: OpenThing::Owned { request: REQ_4 },
            cause: None,
        },
    ),
    (
        "never_acknowledged",
        WaitLine {
            thing: OpenThing::Sequence {
                device: D_2,
                step: Step::Pass {
                    stage: Stage::Settled,
                    interrupt: None,
                },
            },
            cause: Some(Cause::ByRequest { request: REQ_4 }),
        },
    ),
    (
        "blocked_dpc",
        WaitLine {
            thing: OpenThing::Waiting {
                frame: FrameId(2),
                callback: Callback::EvtIoRead,
                object: Q_3,
            },
            cause: Some(Cause::ByLock {
                lock: LOCK_6,
                frame: FrameId(13),
            }),
        },
    ),
    (
        "blocked_dpc",
        WaitLine {
            thing: OpenThing::Waiting {
                frame: FrameId(13),
                callback: Callback::EvtWorkItem,
                object: W_8,
            },
            cause: Some(Cause::ByLock {
                lock: LOCK_5,
                frame: FrameId(2),
            }),
        },
    ),
    (
        "blocked_dpc",
        WaitLine {
            thing: OpenThing::Owned { request: REQ_4 },
            cause: None,
        },
    ),
    (
        "blocked_dpc",
        WaitLine {
            thing: OpenThing::Queued {
                request: REQ_9,
                queue: Q_3,
            },
            cause: Some(Cause::Full),
        },
    ),
    (
        "blocked_dpc",
        WaitLine {
            thing: OpenThing::Deferred { object: C_7 },
            cause: Some(Cause::ScopeHeld),
        },
    ),
    (
        "deadlock",
        WaitLine {
            thing: OpenThing::Waiting {
                frame: FrameId(13),
                callback: Callback::EvtWorkItem,
                object: X_5,
            },
            cause: Some(Cause::ByLock {
                lock: L_4,
                frame: FrameId(18),
            }),
        },
    ),
    (
        "deadlock",
        WaitLine {
            thing: OpenThing::Waiting {
                frame: FrameId(18),
                callback: Callback::EvtWorkItem,
                object: Y_6,
            },
            cause: Some(Cause::ByLock {
                lock: L_3,
                frame: FrameId(13),
            }),
        },
    ),
];

/// The k-th line of a run's wait list, from 0.
pub fn wait_at(run: &str, k: usize) -> Option<&'static WaitLine> {
    let mut left = k;
    for (of, wait) in &WAITS {
        if *of == run {
            if left == 0 {
                return Some(wait);
            }
            left -= 1;
        }
    }
    None
}

/// How many lines a run's wait list has.
pub fn waits_len(run: &str) -> usize {
    for k in 0..WAITS.len() {
        if wait_at(run, k).is_none() {
            return k;
        }
    }
    WAITS.len()
}
