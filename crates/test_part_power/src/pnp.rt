//! The lists of steps, and what a failure makes of them.
use crate::plans::*;
use crate::trials::Wrong;
use std::alloc::Global;
use wdf_base::*;
use wdf_model::Phase;
use wdf_pnp::Pnp;

/// What happens to the device.
#[derive(Clone, Copy)]
enum Act {
    /// A post of the Plug and Play manager.
    Asked(Ask),
    /// These stages are passed.
    Passes(&'static [Stage]),
    /// This callback of the device runs, and ends with SUCCESS.
    Runs(Callback),
    /// Both interrupts are enabled: first the one with EvtInterruptDisable, then the other.
    Enables,
    /// Both are disabled, in reverse order.
    Disables,
    /// This callback runs, and ends with UNSUCCESSFUL.
    Fails(Callback),
    /// So many steps are left.
    Left(usize),
    /// Whether the next step is the one after `queues_up`.
    FollowsQueuesUp(bool),
}

/// What happens to a device that is off, stretch by stretch, and the phase in which it then rests.
struct Case {
    name: &'static str,
    acts: &'static [&'static [Act]],
    phase: Phase,
}

const HARD: Act = Act::Passes(&[Stage::Hardware]);

const PREPARED: Act = Act::Runs(Callback::EvtDevicePrepareHardware);

const ENTERED: Act = Act::Runs(Callback::EvtDeviceD0Entry);

const QUEUES_UP: Act = Act::Passes(&[Stage::QueuesUp]);

const BEGUN: Act = Act::Runs(Callback::EvtDeviceSelfManagedIoInit);

const WORKING: Act = Act::Passes(&[Stage::Working]);

const QUEUES_DOWN: Act = Act::Passes(&[Stage::QueuesDown, Stage::Settled]);

const QUIET: Act = Act::Passes(&[Stage::Quiet]);

const LEFT: Act = Act::Runs(Callback::EvtDeviceD0Exit);

const RELEASED: Act = Act::Runs(Callback::EvtDeviceReleaseHardware);

const REMOVED: Act = Act::Passes(&[Stage::NoHardware, Stage::Closed, Stage::Removed]);

/// A device starts, up to its power and its interrupts.
const POWERED: &[Act] = &[
    Act::Asked(Ask::Start),
    HARD,
    PREPARED,
    ENTERED,
    Act::Enables,
];

/// A device that has power works for the first time.
const BEGINS: &[Act] = &[QUEUES_UP, BEGUN, WORKING];

/// A working device loses its power.
const POWERED_DOWN: &[Act] = &[QUEUES_DOWN, Act::Disables, QUIET, LEFT];

static CASES: [Case; 9] = [
    Case {
        name: "nothing was asked",
        acts: &[],
        phase: Phase::Off,
    },
    Case {
        name: "start, sleep, wake; a second start or wake changes nothing",
        acts: &[
            &[
                Act::Asked(Ask::Start),
                Act::Left(10),
                HARD,
                PREPARED,
                ENTERED,
                Act::Enables,
                Act::FollowsQueuesUp(false),
                QUEUES_UP,
                Act::FollowsQueuesUp(true),
                BEGUN,
                Act::FollowsQueuesUp(false),
                WORKING,
            ],
            &[
                Act::Asked(Ask::Start),
                Act::Asked(Ask::Wake),
                Act::Asked(Ask::Sleep),
                Act::Left(8),
            ],
            POWERED_DOWN,
            &[
                Act::Passes(&[Stage::Sleeping]),
                Act::Asked(Ask::Wake),
                ENTERED,
                Act::Enables,
                QUEUES_UP,
                Act::FollowsQueuesUp(true),
                WORKING,
            ],
        ],
        phase: Phase::Working,
    },
    Case {
        name: "a rebalance that is refused, and one that isn't",
        acts: &[
            POWERED,
            BEGINS,
            &[
                Act::Asked(Ask::Rebalance),
                Act::Fails(Callback::EvtDeviceQueryStop),
                Act::Asked(Ask::Rebalance),
                Act::Runs(Callback::EvtDeviceQueryStop),
            ],
            POWERED_DOWN,
            &[
                RELEASED,
                Act::Passes(&[Stage::NoHardware, Stage::Hardware]),
                PREPARED,
                ENTERED,
                Act::Enables,
                QUEUES_UP,
                WORKING,
            ],
        ],
        phase: Phase::Working,
    },
    Case {
        name: "a removal after a power-down; a removed device stays so",
        acts: &[
            POWERED,
            BEGINS,
            &[
                Act::Asked(Ask::Remove),
                Act::Runs(Callback::EvtDeviceQueryRemove),
            ],
            POWERED_DOWN,
            &[RELEASED, REMOVED, Act::Asked(Ask::Start)],
        ],
        phase: Phase::Removed,
    },
    Case {
        name: "a sleeping device is removed without power, and isn't asked",
        acts: &[
            POWERED,
            BEGINS,
            &[Act::Asked(Ask::Sleep)],
            POWERED_DOWN,
            &[
                Act::Passes(&[Stage::Sleeping]),
                Act::Asked(Ask::Surprise),
                RELEASED,
                REMOVED,
            ],
        ],
        phase: Phase::Removed,
    },
    Case {
        name: "no hardware: there is nothing to release",
        acts: &[&[
            Act::Asked(Ask::Start),
            HARD,
            Act::Fails(Callback::EvtDevicePrepareHardware),
            REMOVED,
        ]],
        phase: Phase::Removed,
    },
    Case {
        name: "no power: no interrupt was enabled",
        acts: &[&[
            Act::Asked(Ask::Start),
            HARD,
            PREPARED,
            Act::Fails(Callback::EvtDeviceD0Entry),
            RELEASED,
            REMOVED,
        ]],
        phase: Phase::Removed,
    },
    Case {
        name: "a device that is off is removed at once",
        acts: &[&[
            Act::Asked(Ask::Sleep),
            Act::Asked(Ask::Remove),
            Act::Passes(&[Stage::Closed, Stage::Removed]),
        ]],
        phase: Phase::Removed,
    },
    Case {
        name: "the results of other callbacks are ignored",
        acts: &[
            POWERED,
            &[
                QUEUES_UP,
                Act::Fails(Callback::EvtDeviceSelfManagedIoInit),
                WORKING,
            ],
        ],
        phase: Phase::Working,
    },
];

const FIRST_HANDLE: Option<Handle> = Some(Handle { id: FIRST, name: 3 });

const SECOND_HANDLE: Option<Handle> = Some(Handle {
    id: SECOND,
    name: 4,
});

static ENABLES: [Step; 4] = [
    Step::Run {
        callback: Callback::EvtInterruptEnable,
        interrupt: FIRST_HANDLE,
    },
    Step::Pass {
        stage: Stage::Enabled,
        interrupt: FIRST_HANDLE,
    },
    Step::Run {
        callback: Callback::EvtInterruptEnable,
        interrupt: SECOND_HANDLE,
    },
    Step::Pass {
        stage: Stage::Enabled,
        interrupt: SECOND_HANDLE,
    },
];

static DISABLES: [Step; 3] = [
    Step::Pass {
        stage: Stage::Disabled,
        interrupt: SECOND_HANDLE,
    },
    Step::Pass {
        stage: Stage::Disabled,
        interrupt: FIRST_HANDLE,
    },
    Step::Run {
        callback: Callback::EvtInterruptDisable,
        interrupt: FIRST_HANDLE,
    },
];

/// Takes the next step, whose callback ends with a status; whether it is this one.
fn takes(pnp: &mut Pnp, step: Step, status: Status) -> bool {
    let is_next = pnp.next_step(DEVICE) == Some(step) && pnp.busy(DEVICE);
    if !is_next || pnp.device_len() <= DEVICE.0 as usize {
        return false;
    }
    pnp.taken(DEVICE);
    let running = pnp.running_step(DEVICE);
    match step {
        Step::Run { .. } => {
            pnp.ended(DEVICE, step, Value::Stat(status));
            running == Some(step) && !pnp.is_running_step(DEVICE)
        }
        Step::Pass { .. } => running.is_none(),
    }
}

/// Takes these steps.
fn takes_all(pnp: &mut Pnp, steps: &[Step]) -> bool {
    for step in steps {
        if !takes(pnp, *step, Status::Success) {
            return false;
        }
    }
    true
}

/// Passes these stages.
fn passes(pnp: &mut Pnp, stages: &[Stage]) -> bool {
    for stage in stages {
        let step = Step::Pass {
            stage: *stage,
            interrupt: None,
        };
        if !takes(pnp, step, Status::Success) {
            return false;
        }
    }
    true
}

/// Runs a callback of the device.
fn runs(pnp: &mut Pnp, callback: Callback, status: Status) -> bool {
    let step = Step::Run {
        callback,
        interrupt: None,
    };
    takes(pnp, step, status)
}

/// A post comes, if no sequence is under way.
fn asked(pnp: &mut Pnp, ask: Ask) -> bool {
    if pnp.busy(DEVICE) || pnp.device_len() <= DEVICE.0 as usize {
        return false;
    }
    pnp.ask(DEVICE, ask);
    true
}

/// Does an act; whether it comes as it should.
fn does(pnp: &mut Pnp, act: Act) -> bool {
    match act {
        Act::Asked(ask) => asked(pnp, ask),
        Act::Passes(stages) => passes(pnp, stages),
        Act::Runs(callback) => runs(pnp, callback, Status::Success),
        Act::Fails(callback) => runs(pnp, callback, Status::Unsuccessful),
        Act::Enables => takes_all(pnp, &ENABLES),
        Act::Disables => takes_all(pnp, &DISABLES),
        Act::Left(steps) => pnp.steps_left(DEVICE) == steps,
        Act::FollowsQueuesUp(follows) => pnp.follows_queues_up(DEVICE) == follows,
    }
}

/// Whether what is no device is removed, and has no step.
fn is_no_device(pnp: &Pnp, o: ObjectId) -> bool {
    pnp.phase(o) == Phase::Removed && pnp.next_step(o).is_none()
}

/// Whether no step is left, and the device rests in this phase.
fn rests(pnp: &Pnp, phase: Phase) -> bool {
    pnp.next_step(DEVICE).is_none()
        && pnp.steps_left(DEVICE) == 0
        && !pnp.busy(DEVICE)
        && pnp.phase(DEVICE) == phase
        && is_no_device(pnp, DRIVER)
        && is_no_device(pnp, ObjectId(77))
}

/// Does acts one after the other; whether each comes as it should.
fn does_all(pnp: &mut Pnp, acts: &[Act]) -> bool {
    for act in acts {
        if !does(pnp, *act) {
            return false;
        }
    }
    true
}

/// The place of the first stretch with an act that doesn't come as it should.
fn first_wrong(pnp: &mut Pnp, acts: &[&[Act]]) -> Option<usize> {
    for (place, stretch) in acts.iter().enumerate() {
        if !does_all(pnp, stretch) {
            return Some(place);
        }
    }
    None
}

/// What is wrong in a case: the place of a stretch that doesn't come as it should, or the number of
/// stretches where the device doesn't rest as it should after them.
fn wrong_in(mut pnp: Pnp, case: &Case) -> Option<usize> {
    match first_wrong(&mut pnp, case.acts) {
        None if rests(&pnp, case.phase) => None,
        None => Some(case.acts.len()),
        wrong => wrong,
    }
}

/// What is wrong in the cases, after the opening of the plan with interrupts.
pub fn wrong(alloc: Global, plan: &Plan) -> Result<Wrong, Memory> {
    for case in &CASES {
        let wrong = match Pnp::make(alloc, plan) {
            Ok(pnp) => wrong_in(pnp, case),
            Err(memory) => return Err(memory),
        };
        if let Some(place) = wrong {
            return Ok(Some((case.name, place)));
        }
    }
    Ok(None)
}
