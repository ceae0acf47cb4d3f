//! The next object for which a callback of a rank for requests may be due. None of those before it needs a look. (own)
ghost use Rattle.std.specs.Prelude.{◌≡◌, MatchOption};
ghost use Rattle.wdf_model.specs.declared.room.TheConstants.{OBJECTS};
ghost use Rattle.wdf_target.specs.Finished.{has_finished};
ghost use Rattle.wdf_sets.specs.Nexts.{IsNext, NoneFrom};
ghost use Rattle.wdf_offers.specs.Ahead as ahead;
ghost use Rattle.wdf_offers.specs.Leaving.{IsSettled};

use crate::for_requests::{Herd, herd_of};
use wdf_base::{Agent, ObjectId, Rank};
use wdf_model::OBJECTS;
use wdf_parts::Parts;
use wdf_plan_index::IndexedPlan;

impl Herd {
    /// True only where the callback is due on no queue for which none is counted.
    fn goes_by_counts<A: Agent>(self, parts: &Parts<A>) -> bool
        ensures { result ≡ ahead.goes_by_counts self parts.now }
    {
        match self {
            Herd::Cancel => !parts.requests().some_due_sent(),
            Herd::Resume => parts.power().resuming_from_len(ObjectId(0)) == 0,
            Herd::Return | Herd::Stop => true,
        }
    }

    /// The first queue from one on for which some request is counted.
    fn next_counted<A: Agent>(self, parts: &Parts<A>, from: ObjectId) -> Option<ObjectId>
        ensures { MatchOption result (NoneFrom (ahead.has_counted self parts.now) from.0 OBJECTS)
            (λ q. IsNext (ahead.has_counted self parts.now) from.0 OBJECTS q.0) }
    {
        match self {
            Herd::Cancel => parts.requests().next_due_from(from),
            Herd::Return => parts.requests().next_returning_to(from),
            Herd::Stop => parts.power().next_unasked_from(from),
            Herd::Resume => parts.power().next_resuming_from(from),
        }
    }

    /// The first queue from one on on which the callback may be due, or the end of all ids where it is due on none.
    fn next_queue<A: Agent>(self, parts: &Parts<A>, from: u32) -> u32
        ensures { NoneFrom (ahead.may_be_due_on parts.now (Some self)) from result }
    {
        if !self.goes_by_counts(parts) {
            return from;
        }
        match self.next_counted(parts, ObjectId(from)) {
            Some(q) => q.0,
            None => OBJECTS,
        }
    }
}

/// The same by the herd of a rank. It is from itself where its callbacks aren't counted by queue.
fn next_of_herd<A: Agent>(parts: &Parts<A>, herd: Option<Herd>, from: u32) -> u32
    ensures { NoneFrom (ahead.may_be_due_on parts.now herd) from result }
{
    match herd {
        Some(herd) => herd.next_queue(parts, from),
        None => from,
    }
}

/// The first target from one on that has a request whose completion routine is due, or the end of all ids where none has.
fn next_target<A: Agent>(parts: &Parts<A>, from: u32) -> u32
    ensures { NoneFrom (has_finished parts.now.targets) from result }
{
    match parts.targets().next_with_finished(from, OBJECTS) {
        Some(t) => t,
        None => OBJECTS,
    }
}

/// The same by a rank, of any object.
fn next_by_rank<A: Agent>(parts: &Parts<A>, rank: Rank, from: u32) -> u32
    ensures { NoneFrom (ahead.may_be_due parts.now rank) from result }
{
    match rank {
        Rank::Completion => next_target(parts, from),
        _ => next_of_herd(parts, herd_of(rank), from),
    }
}

/// An id such that nothing may come of a rank for the objects from one on below it, on whatever processor. It is the first
/// object for which a request is counted, or the end of all ids where there is none; and `from` itself where the counts
/// don't tell. No object is looked at.
pub fn next_object<A: Agent>(plan: &IndexedPlan, parts: &Parts<A>, rank: Rank, from: u32) -> u32
    requires settled { IsSettled plan.now parts.now }
    ensures due { NoneFrom (ahead.may_be_due parts.now rank) from result }
    ensures nothing { ahead.NothingFor plan.now A.meaning parts.now rank from result }
{
    let _ = plan;
    next_by_rank(parts, rank, from)
}
