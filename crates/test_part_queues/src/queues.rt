//! What waits in queues, and what is held from them.
ghost use Rattle.std.specs.Prelude.{◌≡◌, ◌<◌, ◌≤◌, ◌+◌, IfOk, length};
ghost use Rattle.wdf_model.specs.parts.Queues.{held_in};

use crate::plans::{MANUAL, PARALLEL, SEQUENTIAL};
use crate::trials::Wrong;
use std::alloc::Global;
use wdf_base::{Memory, ObjectId, Plan};
use wdf_model::{EVENTS, OBJECTS};
use wdf_queue::Queues;

/// What happens to the queues, and what is read of them, with the answer that is due. Requests are
/// named by their ids.
#[derive(Clone, Copy)]
enum Act {
    /// A request that waits nowhere enters at the tail.
    Enter(ObjectId, u32),
    /// A request that waits nowhere enters at the head.
    Requeue(ObjectId, u32),
    /// The front of a queue is taken.
    Take(ObjectId, Option<u32>),
    /// The driver holds a request more from a queue.
    Hold(ObjectId),
    /// The driver holds a request less from a queue.
    LetGo(ObjectId),
    /// A cancelled request leaves the queue in which it waits. Whether it waits in one.
    TakeCancelled(u32, bool),
    /// Nothing waits in a queue any more.
    Clear(ObjectId),
    /// The requests that wait in a queue.
    Waiting(ObjectId, &'static [u32]),
    /// Whether a request waits.
    IsWaiting(u32, bool),
    /// The request after one.
    After(u32, Option<u32>),
    /// How many requests are held from a queue, and whether it is free.
    Held(ObjectId, u32, bool),
}

static IN_ORDER: [Act; 9] = [
    Act::Enter(MANUAL, 10),
    Act::Enter(MANUAL, 11),
    Act::Enter(MANUAL, 12),
    Act::Waiting(PARALLEL, &[]),
    Act::Requeue(MANUAL, 13),
    Act::Waiting(MANUAL, &[13, 10, 11, 12]),
    Act::After(10, Some(11)),
    Act::After(12, None),
    Act::After(14, None),
];

/// A cancelled request leaves its list, and the others keep their order.
static CANCELLED: [Act; 11] = [
    Act::Enter(MANUAL, 10),
    Act::Enter(MANUAL, 11),
    Act::Enter(MANUAL, 12),
    Act::TakeCancelled(11, true),
    Act::TakeCancelled(11, false),
    Act::IsWaiting(11, false),
    Act::After(10, Some(12)),
    Act::Enter(PARALLEL, 11),
    Act::Clear(MANUAL),
    Act::Waiting(MANUAL, &[]),
    Act::Waiting(PARALLEL, &[11]),
];

/// A sequential queue is free with nothing held from it, a parallel one with fewer than its number,
/// a manual one never.
static HELD: [Act; 13] = [
    Act::Enter(SEQUENTIAL, 10),
    Act::Held(SEQUENTIAL, 0, true),
    Act::Take(SEQUENTIAL, Some(10)),
    Act::Held(SEQUENTIAL, 1, false),
    Act::Take(SEQUENTIAL, None),
    Act::Held(SEQUENTIAL, 1, false),
    Act::LetGo(SEQUENTIAL),
    Act::Held(SEQUENTIAL, 0, true),
    Act::Hold(PARALLEL),
    Act::Held(PARALLEL, 1, true),
    Act::Hold(PARALLEL),
    Act::Held(PARALLEL, 2, false),
    Act::Held(MANUAL, 0, false),
];

/// The queues at the opening of a plan with five declared objects.
fn opening(alloc: Global, plan: &Plan) -> Result<Queues, Memory>
    ensures ids { IfOk result (λ queues. length queues.dispatch ≡ 6) }
    ensures held { IfOk result (λ queues. held_in queues ≡ 0) }
{
    if plan.declared_len() == 5 {
        Queues::make(alloc, plan)
    } else {
        Err(Memory)
    }
}

/// Whether these requests wait in a queue.
fn waits(queues: &Queues, q: ObjectId, due: &[u32]) -> bool {
    let mut at = 0;
    for id in due {
        if queues.waiting_at(q, at) != Some(ObjectId(*id)) || at > 99 {
            return false;
        }
        at += 1;
    }
    queues.len(q) == at
        && queues.waiting_at(q, at).is_none()
        && queues.is_empty(q) == due.is_empty()
        && queues.front(q) == queues.waiting_at(q, 0)
}

/// Whether what is read of the queues is as due.
fn is_so(queues: &Queues, act: Act) -> bool {
    match act {
        Act::Waiting(q, due) => waits(queues, q, due),
        Act::IsWaiting(r, due) => queues.is_waiting(ObjectId(r)) == due,
        Act::After(r, due) => queues.next_waiting(ObjectId(r)) == due.map(ObjectId),
        Act::Held(q, due, free) => queues.held_count(q) == due && queues.is_free(q) == free,
        _ => false,
    }
}

/// A request enters a queue, or leaves it where it is cancelled; whether it may.
fn moves(queues: &mut Queues, act: Act) -> bool
    requires { length queues.old.dispatch ≡ 6 }
    ensures there { length queues.new.dispatch ≡ 6 }
    ensures held { held_in queues.new ≡ held_in queues.old }
{
    match act {
        Act::Enter(q, r) if q.0 < 6 && r < OBJECTS && !queues.is_waiting(ObjectId(r)) => {
            queues.enter(q, ObjectId(r));
        }
        Act::Requeue(q, r) if q.0 < 6 && r < OBJECTS && !queues.is_waiting(ObjectId(r)) => {
            queues.requeue(q, ObjectId(r));
        }
        Act::TakeCancelled(r, due) => return queues.take_cancelled(ObjectId(r)) == due,
        Act::Clear(q) if q.0 < 6 => queues.clear(q),
        _ => return is_so(queues, act),
    }
    true
}

/// Does an act; whether it may come, and the answer is the due one.
fn does(queues: &mut Queues, act: Act) -> bool
    requires there { length queues.old.dispatch ≡ 6 }
    requires few { held_in queues.old < EVENTS }
    ensures there { length queues.new.dispatch ≡ 6 }
    ensures held { held_in queues.new ≤ held_in queues.old + 1 }
{
    match act {
        Act::Take(q, due) if q.0 < 6 => return queues.take(q) == due.map(ObjectId),
        Act::Hold(q) if q.0 < 6 => queues.hold(q),
        Act::LetGo(q) if q.0 < 6 => queues.let_go(q),
        _ => return moves(queues, act),
    }
    true
}

/// The place of the first act that isn't as due.
fn first_wrong(queues: &mut Queues, acts: &[Act]) -> Option<usize>
    requires there { length queues.old.dispatch ≡ 6 }
    requires none { held_in queues.old ≡ 0 }
{
    'all: for at in 0..acts.len() {
        if at > 99 || !does(queues, acts[at]) {
            return Some(at);
        }
    }
    None
}

/// The same in what is made for it.
fn wrong_in(mut queues: Queues, acts: &[Act]) -> Option<usize>
    requires there { length queues.dispatch ≡ 6 }
    requires none { held_in queues ≡ 0 }
{
    first_wrong(&mut queues, acts)
}

/// What is wrong in the cases.
pub fn wrong(alloc: Global, plan: &Plan) -> Result<Wrong, Memory> {
    for (name, acts) in [
        ("in order", IN_ORDER.as_slice()),
        ("cancelled", CANCELLED.as_slice()),
        ("held", HELD.as_slice()),
    ] {
        let wrong = match opening(alloc, plan) {
            Ok(queues) => wrong_in(queues, acts),
            Err(memory) => return Err(memory),
        };
        if let Some(place) = wrong {
            return Ok(Some((name, place)));
        }
    }
    Ok(None)
}
