//! What is sent to the targets.
ghost use Rattle.std.specs.Prelude.{◌≡◌, ◌<◌, length};

use crate::plans::{DEVICE, FIRST, SECOND};
use crate::trials::Wrong;
use std::alloc::Global;
use wdf_base::{Memory, ObjectId, Plan, Status};
use wdf_model::OBJECTS;
use wdf_target::Targets;

/// Requests.
const ONE: ObjectId = ObjectId(12);

const OTHER: ObjectId = ObjectId(10);

const THIRD: ObjectId = ObjectId(11);

/// What happens to the targets, and what is read of them, with the answer that is due.
#[derive(Clone, Copy)]
enum Act {
    /// A request is sent, to be forgotten or not. Whether the target takes it.
    Send(ObjectId, ObjectId, bool, bool),
    Stop(ObjectId),
    Start(ObjectId),
    /// A target is done with a request.
    Done(ObjectId, Status),
    /// A completion routine starts.
    Back(ObjectId),
    /// Whether a target takes more.
    TakesMore(ObjectId, bool),
    /// The first target holds these requests.
    Holds(&'static [ObjectId]),
    /// What is no target takes and holds nothing.
    IsNone(ObjectId),
    /// Whether a request is sent.
    Sent(ObjectId, bool),
    /// Whether a request is forgotten.
    Forgotten(ObjectId, bool),
    /// Whether the target is still to be done with a request.
    Undone(ObjectId, bool),
    /// The status with which the routine of a request is due.
    Routine(ObjectId, Option<Status>),
    /// Of the first target's requests the routine is due for these, and for none of another target.
    Finished(&'static [ObjectId]),
}

/// A target takes requests while it isn't stopped and holds fewer than its depth. What is no target
/// takes none.
static TAKEN: [Act; 19] = [
    Act::IsNone(ObjectId(0)),
    Act::IsNone(DEVICE),
    Act::IsNone(ObjectId(5)),
    Act::IsNone(ObjectId(77)),
    Act::Send(FIRST, ONE, false, true),
    Act::TakesMore(FIRST, true),
    Act::Send(FIRST, OTHER, true, true),
    Act::TakesMore(FIRST, false),
    Act::Send(FIRST, THIRD, false, false),
    Act::Holds(&[OTHER, ONE]),
    Act::TakesMore(SECOND, true),
    Act::Stop(SECOND),
    Act::Send(SECOND, THIRD, false, false),
    Act::Sent(THIRD, false),
    Act::Start(SECOND),
    Act::Send(SECOND, THIRD, false, true),
    Act::Sent(THIRD, true),
    Act::TakesMore(SECOND, false),
    Act::Holds(&[OTHER, ONE]),
];

/// A target holds a request with which it is done until the completion routine starts. One that is
/// forgotten has no routine, and leaves at once.
static DONE: [Act; 21] = [
    Act::Send(FIRST, ONE, false, true),
    Act::Send(FIRST, OTHER, true, true),
    Act::Forgotten(ONE, false),
    Act::Forgotten(OTHER, true),
    Act::Undone(ONE, true),
    Act::Routine(ONE, None),
    Act::Finished(&[]),
    Act::Done(ONE, Status::Cancelled),
    Act::Undone(ONE, false),
    Act::Routine(ONE, Some(Status::Cancelled)),
    Act::Finished(&[ONE]),
    Act::Holds(&[OTHER, ONE]),
    Act::Done(OTHER, Status::Success),
    Act::Routine(OTHER, None),
    Act::Sent(OTHER, false),
    Act::Finished(&[ONE]),
    Act::Holds(&[ONE]),
    Act::Back(ONE),
    Act::Sent(ONE, false),
    Act::Finished(&[]),
    Act::Holds(&[]),
];

/// The requests whose completion routine is due rise by id, also where the target is done with them in another order. A stop
/// changes nothing of that.
static FINISHED: [Act; 11] = [
    Act::Send(FIRST, OTHER, false, true),
    Act::Send(FIRST, ONE, false, true),
    Act::Done(ONE, Status::Success),
    Act::Finished(&[ONE]),
    Act::Done(OTHER, Status::Cancelled),
    Act::Finished(&[OTHER, ONE]),
    Act::Stop(FIRST),
    Act::Finished(&[OTHER, ONE]),
    Act::Back(OTHER),
    Act::Finished(&[ONE]),
    Act::Holds(&[ONE]),
];

/// Sends a request that no target holds; whether the target takes it.
fn sends(targets: &mut Targets, t: ObjectId, r: ObjectId, forget: bool) -> bool
    ensures { length targets.new.targets ≡ length targets.old.targets }
{
    r.0 < OBJECTS && !targets.is_sent(r) && targets.send(t, r, forget)
}

/// Whether the requests of the first target are these.
fn holds(targets: &Targets, due: &[ObjectId]) -> bool {
    let mut at = 0;
    for r in due {
        if at >= targets.pending(FIRST) || targets.sent_at(FIRST, at).request != *r {
            return false;
        }
        at += 1;
    }
    at == targets.pending(FIRST)
}

/// Whether of the requests of the first target the completion routine is due for these, and for none of another target.
fn are_finished(targets: &Targets, due: &[ObjectId]) -> bool {
    let mut at = 0;
    for r in due {
        if at >= targets.finished_len(FIRST) || targets.nth_finished(FIRST, at) != Some(*r) {
            return false;
        }
        at += 1;
    }
    at == targets.finished_len(FIRST)
        && targets.none_finished() == due.is_empty()
        && targets.next_with_finished(FIRST.0 + 1, 5).is_none()
}

/// Whether what is read of the targets is as due.
fn is_so(targets: &Targets, act: Act) -> bool {
    match act {
        Act::TakesMore(t, due) => targets.takes_more(t) == due,
        Act::Holds(due) => holds(targets, due),
        Act::IsNone(t) => !targets.takes_more(t) && targets.pending(t) == 0,
        Act::Sent(r, due) => targets.is_sent(r) == due,
        Act::Forgotten(r, due) => targets.is_forgotten(r) == due,
        Act::Undone(r, due) => targets.is_undone(r) == due,
        Act::Routine(r, due) => targets.routine_due(r) == due,
        Act::Finished(due) => are_finished(targets, due),
        _ => false,
    }
}

/// Does an act; whether it may come, and the answer is the due one.
fn does(targets: &mut Targets, act: Act) -> bool
    requires { length targets.old.targets ≡ 5 }
    ensures { length targets.new.targets ≡ 5 }
{
    match act {
        Act::Send(t, r, forget, due) => return sends(targets, t, r, forget) == due,
        Act::Stop(t) if t.0 < 5 => targets.stop(t),
        Act::Start(t) if t.0 < 5 => targets.start(t),
        Act::Done(r, status) => targets.done(r, status),
        Act::Back(r) => targets.back(r),
        _ => return is_so(targets, act),
    }
    true
}

/// The place of the first act that isn't as due.
fn first_wrong(targets: &mut Targets, acts: &[Act]) -> Option<usize>
    requires { length targets.old.targets ≡ 5 }
{
    'all: for at in 0..acts.len() {
        if !does(targets, acts[at]) {
            return Some(at);
        }
    }
    None
}

/// The same in what is made for it.
fn wrong_in(mut targets: Targets, acts: &[Act]) -> Option<usize>
    requires { length targets.targets ≡ 5 }
{
    first_wrong(&mut targets, acts)
}

/// What is wrong in the cases, after the opening of the plan with targets, which declares four
/// objects.
pub fn wrong(alloc: Global, plan: &Plan) -> Result<Wrong, Memory> {
    if plan.declared_len() != 4 {
        return Ok(Some(("a plan with targets", 0)));
    }
    for (name, acts) in [
        ("taken", TAKEN.as_slice()),
        ("done", DONE.as_slice()),
        ("finished", FINISHED.as_slice()),
    ] {
        let wrong = match Targets::make(alloc, plan) {
            Ok(targets) => wrong_in(targets, acts),
            Err(memory) => return Err(memory),
        };
        if let Some(place) = wrong {
            return Ok(Some((name, place)));
        }
    }
    Ok(None)
}
