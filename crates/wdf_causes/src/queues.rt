//! The least request of a queue's waiting list, and of a part of it.
ghost use Rattle.std.specs.Prelude.{◌≡◌, ◌==◌, not, take_while, true};
ghost use Rattle.wdf_maps.specs.Places.{rises};
ghost use Rattle.wdf_model.specs.Tables.{least};
ghost use Rattle.wdf_model.specs.parts.Queues.{waiting_in};
ghost use Rattle.wdf_model.specs.rules.Waits as waits;

use wdf_base::{Agent, ObjectId};
use wdf_maps::lesser_if;
use wdf_model::OBJECTS;
use wdf_parts::Parts;
use wdf_queue::Queues;

#[tactic(auto, using(crate::proofs::OnFrames::waiting_at_first, crate::proofs::OnFrames::waiting_after, crate::proofs::OnFrames::waiting_at_last, crate::proofs::OnFrames::waiting_at_end, crate::proofs::Rising::first_is_least))]
/// The least request that waits in a queue.
fn least_waiting_in(queues: &Queues, q: ObjectId) -> Option<u32>
    ensures { result ≡ least (waiting_in queues.now q.0) }
{
    if queues.is_rising(q) {
        return Some(queues.front(q)?.0);
    }
    let mut least = None;
    let mut next = queues.front(q);
    for _ in 0..queues.len(q) {
        match next {
            Some(r) => {
                least = lesser_if(least, Some(r.0));
                next = queues.next_waiting(r);
            }
            None => return least,
        }
    }
    least
}

#[tactic(auto, using(crate::proofs::Rising::nobody_ahead, crate::proofs::Rising::first_stops))]
/// The least request that is ahead of one in a queue whose requests rise: the front, unless that is the one.
fn front_ahead_in(queues: &Queues, q: ObjectId, r: ObjectId) -> Option<u32>
    requires { rises (λ x. x) 0 OBJECTS (waiting_in queues.now q.0) ≡ true }
    ensures { result ≡ least (take_while (λ x. not (x == r.0)) (waiting_in queues.now q.0)) }
{
    let front = queues.front(q)?;
    if front.0 == r.0 {
        return None;
    }
    Some(front.0)
}

#[tactic(auto, using(crate::proofs::OnFrames::ahead_at_first, crate::proofs::OnFrames::ahead_after, crate::proofs::OnFrames::ahead_here, crate::proofs::OnFrames::ahead_at_last, crate::proofs::OnFrames::ahead_at_end))]
/// The least request that is ahead of one in a queue: of all where that one doesn't wait there.
fn least_ahead_in(queues: &Queues, q: ObjectId, r: ObjectId) -> Option<u32>
    ensures { result ≡ least (take_while (λ x. not (x == r.0)) (waiting_in queues.now q.0)) }
{
    if queues.is_rising(q) {
        return front_ahead_in(queues, q, r);
    }
    let mut least = None;
    let mut next = queues.front(q);
    for _ in 0..queues.len(q) {
        match next {
            Some(ahead) => {
                if ahead.0 == r.0 {
                    return least;
                }
                least = lesser_if(least, Some(ahead.0));
                next = queues.next_waiting(ahead);
            }
            None => return least,
        }
    }
    least
}

/// The least request that waits in a queue.
pub fn least_waiting<A: Agent>(parts: &Parts<A>, q: ObjectId) -> Option<u32>
    ensures { result ≡ least (waiting_in parts.now.queues q.0) }
{
    least_waiting_in(parts.queues(), q)
}

/// The least request that is ahead of one in a queue.
pub fn least_ahead<A: Agent>(parts: &Parts<A>, q: ObjectId, r: ObjectId) -> Option<u32>
    ensures { result ≡ least (waits.ahead parts.now q.0 r.0) }
{
    least_ahead_in(parts.queues(), q, r)
}
