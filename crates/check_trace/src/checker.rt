//! The checker: the first law that is broken.
ghost use Rattle.std.specs.Prelude.{◌≡◌, ◌↔◌, ◌<◌, IfOk, IsNone, Some};
ghost use Rattle.wdf_laws.specs.First as first;
ghost use Rattle.wdf_laws.specs.First.{IsFirstBroken};
ghost use Rattle.check_past.specs.Past.{before};
ghost use Rattle.law_trace_all.specs.Kept.{KeepsLaws};

use crate::laws::{keeps_cancels, keeps_cleanups, keeps_completions, keeps_ends, keeps_scopes};
use crate::order::keeps_order;
use crate::power::{keeps_interrupts, keeps_queues, keeps_requests};
use check_past::{Frames, Past, event_at};
use std::alloc::Global;
use wdf_base::{Event, Memory, Plan};

/// The least number of a law that an event breaks after those that were read.
fn broken_by(past: &Past, frames: &Frames, event: &Event) -> Option<u8>
    ensures { result ≡ first.broken_by past.now.plan past.now.all (before past.now) frames.now event.now }
{
    if !keeps_completions(past, event) {
        Some(1)
    } else if !keeps_scopes(past, frames, event) {
        Some(2)
    } else if !keeps_cleanups(past, event) {
        Some(3)
    } else if !keeps_interrupts(past, frames, event) {
        Some(4)
    } else if !keeps_queues(past, event) {
        Some(5)
    } else if !keeps_requests(past, event) {
        Some(6)
    } else if !keeps_cancels(past, event) {
        Some(7)
    } else if !keeps_order(past, event) {
        Some(8)
    } else if !keeps_ends(past, event) {
        Some(9)
    } else {
        None
    }
}

/// The first law that is broken, with its place.
fn first_broken(alloc: Global, plan: &Plan, events: &[Event]) -> Result<Option<(u8, usize)>, Memory>
    ensures { IfOk result (λ found. IsFirstBroken plan.now events.now found) }
{
    let mut frames = Frames::make(alloc);
    let mut past = Past::open(alloc, plan, events)?;
    for k in 0..events.len() {
        let event = event_at(events, k);
        match broken_by(&past, &frames, event) {
            Some(law) => return Ok(Some((law, k + 1))),
            None => {}
        }
        frames.step(event)?;
        past = past.step(alloc)?;
    }
    Ok(None)
}

/// The first law that is broken, and the place of the event that breaks it, counted from 1; None exactly where no law is
/// broken. It is the least place, and there the least number.
///
/// # Errors
///
/// [`Memory`] where memory was refused. Nothing is said of the list then.
pub fn check(alloc: Global, plan: &Plan, events: &[Event]) -> Result<Option<(u8, usize)>, Memory>
    // A law that is broken is the first one. Where it is none, no law is broken at any place.
    ensures first { IfOk result (λ found. IsFirstBroken plan.now events.now found) }
    // It is none exactly where the list keeps the nine laws, in the words of the headline of `wdf_serve`.
    ensures kept { IfOk result (λ found. IsNone found ↔ KeepsLaws plan.now events.now) }
{
    first_broken(alloc, plan, events)
}
