//! Whether no callback of a rank for requests starts on a processor, on whatever object. (own)
ghost use Rattle.std.specs.Prelude.{ℕ, ◌≡◌, [], IsTrue};
ghost use Rattle.wdf_model.specs.declared.enums.Group.TheVariants as group;
ghost use Rattle.wdf_offers.specs.Leaving.{IsSettled};
ghost use Rattle.wdf_offers.specs.Resting as resting;
ghost use Rattle.wdf_offers.specs.Search as search;

use crate::for_requests::{Herd, herd_of};
use crate::idle::DISPATCH_LEVEL;
use wdf_base::{Agent, Cpu, Rank};
use wdf_parts::Parts;
use wdf_plan_index::IndexedPlan;
use wdf_starts::level_fits;

/// Whether no request is counted for whatever queue. It isn't said of a rank whose callbacks aren't counted by queue.
fn none_counted<A: Agent>(parts: &Parts<A>, herd: Option<Herd>) -> bool
    ensures { result ≡ resting.none_counted parts.now herd }
{
    match herd {
        Some(herd) => herd.whole_len(parts) == 0,
        None => false,
    }
}

/// Whether the callbacks of a rank are due for no request, as one part says: no completion routine is due at any target; or none
/// is counted for which the callback could be due. Of EvtIoStop what is counted is held and not yet asked to stop, and it is
/// due for none also where no device has a step left, so that none is about to pass `settled`.
fn none_due<A: Agent>(parts: &Parts<A>, rank: Rank) -> bool
    ensures { result ≡ resting.none_due parts.now rank }
{
    match rank {
        Rank::Completion => parts.targets().none_finished(),
        Rank::Stop => none_counted(parts, herd_of(rank)) || parts.pnp().none_stepping(),
        _ => none_counted(parts, herd_of(rank)),
    }
}

/// Whether the callbacks of a rank rest on a processor: it is at DISPATCH_LEVEL or above, at which none for a request
/// starts; or they are due for no request. Then nothing may come of the groups of the rank for whatever object, and none
/// of them needs a look.
pub fn rests<A: Agent>(plan: &IndexedPlan, parts: &Parts<A>, cpu: Cpu, rank: Rank) -> bool
    requires settled { IsSettled plan.now parts.now }
    ensures tested { result ≡ resting.rests parts.now cpu.0 rank }
    ensures none { IsTrue result → (o : ℕ) → search.offered_from plan.now A.meaning parts.now (group.StartsFor cpu.0 rank o) 0 ≡ [] }
{
    let _ = plan;
    !level_fits(parts, cpu, DISPATCH_LEVEL) || none_due(parts, rank)
}
