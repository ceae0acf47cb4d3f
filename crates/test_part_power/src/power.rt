//! What is held from power-managed queues, and what the stages do to it.
use crate::plans::*;
use crate::trials::Wrong;
use std::alloc::Global;
use wdf_base::*;
use wdf_model::OBJECTS;
use wdf_power::Power;

/// A request that is held from the queue that declares EvtIoResume.
const RESUMED: ObjectId = ObjectId(10);

/// A request that is held from the other queue.
const OTHER: ObjectId = ObjectId(12);

/// A request that is held from the other device's queue.
const FAR: ObjectId = ObjectId(14);

/// No request.
const NOTHING: ObjectId = ObjectId(11);

/// What happens to the devices, and what is read of them, with the answer that is due.
#[derive(Clone, Copy)]
enum Act {
    /// The device passes a stage.
    Pass(Stage),
    /// The driver holds a request from a queue.
    Hold(ObjectId, ObjectId),
    /// It gives a request up.
    GiveUp(ObjectId),
    /// It acknowledges a stop.
    Acknowledge(ObjectId),
    /// EvtIoStop starts for a request.
    AskStop(ObjectId),
    /// EvtIoResume starts for a request.
    Resume(ObjectId),
    /// This holds.
    Is(Fact),
}

/// What is read, with the answer that is due.
#[derive(Clone, Copy)]
enum Fact {
    /// Whether the queues of a device are up, and whether it has its hardware.
    Powered(ObjectId, bool, bool),
    /// How many requests of the device are unsettled, and whether a resume is due.
    Unsettled(u32, bool),
    /// The least unsettled request of a device.
    Least(ObjectId, Option<ObjectId>),
    /// Whether some resume of a device is due.
    AnyResume(ObjectId, bool),
    /// Whether a request is held.
    Held(ObjectId, bool),
    /// Whether its stop is acknowledged.
    Acknowledged(ObjectId, bool),
    /// Whether its stop was asked.
    StopAsked(ObjectId, bool),
    /// Whether its resume is due.
    ResumeDue(ObjectId, bool),
}

/// What happens to the devices from the opening on.
struct Case {
    name: &'static str,
    acts: &'static [Act],
}

static CASES: [Case; 6] = [
    Case {
        name: "a working device has power",
        acts: &[
            Act::Is(Fact::Powered(DEVICE, true, true)),
            Act::Is(Fact::Powered(DRIVER, false, false)),
            Act::Is(Fact::Powered(ObjectId(77), false, false)),
            Act::Is(Fact::Unsettled(0, false)),
        ],
    },
    Case {
        name: "hardware and queues come and go",
        acts: &[
            Act::Pass(Stage::QueuesDown),
            Act::Is(Fact::Powered(DEVICE, false, true)),
            Act::Pass(Stage::Settled),
            Act::Is(Fact::Powered(DEVICE, false, true)),
            Act::Pass(Stage::NoHardware),
            Act::Is(Fact::Powered(DEVICE, false, false)),
            Act::Pass(Stage::Hardware),
            Act::Is(Fact::Powered(DEVICE, false, true)),
            Act::Pass(Stage::QueuesUp),
            Act::Is(Fact::Powered(DEVICE, true, true)),
            Act::Pass(Stage::Working),
            Act::Is(Fact::Powered(DEVICE, true, true)),
        ],
    },
    Case {
        name: "what is held settles when it is acknowledged",
        acts: &[
            Act::Hold(OTHER, SECOND),
            Act::Hold(RESUMED, FIRST),
            Act::Is(Fact::Held(RESUMED, true)),
            Act::Is(Fact::Held(NOTHING, false)),
            Act::Is(Fact::Unsettled(2, false)),
            Act::Is(Fact::Least(DEVICE, Some(RESUMED))),
            Act::Acknowledge(RESUMED),
            Act::Is(Fact::Acknowledged(RESUMED, true)),
            Act::Is(Fact::Unsettled(1, false)),
            Act::Is(Fact::Least(DEVICE, Some(OTHER))),
            Act::GiveUp(OTHER),
            Act::Is(Fact::Held(OTHER, false)),
            Act::Is(Fact::Unsettled(0, false)),
            Act::Is(Fact::Least(DEVICE, None)),
        ],
    },
    Case {
        name: "resumes are due where they are declared",
        acts: &[
            Act::Hold(RESUMED, FIRST),
            Act::Acknowledge(RESUMED),
            Act::AskStop(RESUMED),
            Act::Is(Fact::StopAsked(RESUMED, true)),
            Act::Hold(OTHER, SECOND),
            Act::Acknowledge(OTHER),
            Act::AskStop(OTHER),
            Act::Is(Fact::StopAsked(OTHER, true)),
            Act::Pass(Stage::QueuesUp),
            Act::Is(Fact::Held(RESUMED, true)),
            Act::Is(Fact::Acknowledged(RESUMED, false)),
            Act::Is(Fact::StopAsked(RESUMED, false)),
            Act::Is(Fact::Held(OTHER, true)),
            Act::Is(Fact::Acknowledged(OTHER, false)),
            Act::Is(Fact::StopAsked(OTHER, false)),
            Act::Is(Fact::ResumeDue(RESUMED, true)),
            Act::Is(Fact::ResumeDue(OTHER, false)),
            Act::Is(Fact::Unsettled(2, true)),
            Act::Resume(RESUMED),
            Act::Is(Fact::ResumeDue(RESUMED, false)),
            Act::Is(Fact::Unsettled(2, false)),
        ],
    },
    Case {
        name: "what is held from another device's queue stays as it is",
        acts: &[
            Act::Hold(FAR, OTHER_QUEUE),
            Act::Hold(OTHER, SECOND),
            Act::Acknowledge(FAR),
            Act::AskStop(FAR),
            Act::Is(Fact::Unsettled(1, false)),
            Act::Is(Fact::Least(OTHER_DEVICE, None)),
            Act::Pass(Stage::QueuesDown),
            Act::Pass(Stage::QueuesUp),
            Act::Is(Fact::Acknowledged(FAR, true)),
            Act::Is(Fact::StopAsked(FAR, true)),
            Act::Is(Fact::ResumeDue(FAR, false)),
            Act::Is(Fact::AnyResume(OTHER_DEVICE, false)),
            Act::Is(Fact::Powered(OTHER_DEVICE, false, false)),
        ],
    },
    // What was acknowledged, asked or due ends where the driver gives the request up, and doesn't
    // come back with it.
    Case {
        name: "a request begins anew",
        acts: &[
            Act::Hold(RESUMED, FIRST),
            Act::Pass(Stage::QueuesUp),
            Act::Acknowledge(RESUMED),
            Act::AskStop(RESUMED),
            Act::Is(Fact::Unsettled(0, true)),
            Act::GiveUp(RESUMED),
            Act::Is(Fact::Held(RESUMED, false)),
            Act::Is(Fact::Unsettled(0, false)),
            Act::Hold(RESUMED, FIRST),
            Act::Is(Fact::Acknowledged(RESUMED, false)),
            Act::Is(Fact::StopAsked(RESUMED, false)),
            Act::Is(Fact::ResumeDue(RESUMED, false)),
            Act::Is(Fact::Unsettled(1, false)),
        ],
    },
];

/// Whether a fact holds.
fn holds(power: &Power, fact: Fact) -> bool {
    match fact {
        Fact::Powered(d, up, hardware) => power.queues_up(d) == up
            && power.has_hardware(d) == hardware,
        Fact::Unsettled(count, due) => {
            power.unsettled(DEVICE) == count && power.any_resume_due(DEVICE) == due
        }
        Fact::Least(d, due) => power.least_unsettled(d) == due,
        Fact::AnyResume(d, due) => power.any_resume_due(d) == due,
        Fact::Held(r, due) => power.is_held(r) == due,
        Fact::Acknowledged(r, due) => power.acknowledged(r) == due,
        Fact::StopAsked(r, due) => power.stop_was_asked(r) == due,
        Fact::ResumeDue(r, due) => power.resume_due(r) == due,
    }
}

/// The device passes a stage, if it is there; whether it is.
fn passes(power: &mut Power, stage: Stage) -> bool {
    let there = (DEVICE.0 as usize) < power.device_len();
    let step = Step::Pass {
        stage,
        interrupt: None,
    };
    if there {
        power.advance(DEVICE, step);
    }
    there
}

/// Does an act; whether it may come, and the answer is the due one.
fn does(power: &mut Power, act: Act) -> bool {
    match act {
        Act::Pass(stage) => return passes(power, stage),
        Act::Is(fact) => return holds(power, fact),
        Act::Hold(r, q) if r.0 < OBJECTS => power.held_more(r, q),
        Act::GiveUp(r) if r.0 < OBJECTS => power.held_less(r),
        Act::Acknowledge(r) if r.0 < OBJECTS => power.acknowledge(r),
        Act::AskStop(r) if r.0 < OBJECTS => power.stop_asked(r),
        Act::Resume(r) if r.0 < OBJECTS => power.resumed(r),
        _ => return false,
    }
    true
}

/// The place of the first act that isn't as due.
fn first_wrong(power: &mut Power, acts: &[Act]) -> Option<usize> {
    for (place, act) in acts.iter().enumerate() {
        if !does(power, *act) {
            return Some(place);
        }
    }
    None
}

/// The same in what is made for it.
fn wrong_in(mut power: Power, acts: &[Act]) -> Option<usize> {
    first_wrong(&mut power, acts)
}

/// What is wrong in the cases, after the opening of the plan with queues.
pub fn wrong(alloc: Global, plan: &Plan) -> Result<Wrong, Memory> {
    for case in &CASES {
        let wrong = match Power::make(alloc, plan) {
            Ok(power) => wrong_in(power, case.acts),
            Err(memory) => return Err(memory),
        };
        if let Some(place) = wrong {
            return Ok(Some((case.name, place)));
        }
    }
    Ok(None)
}
