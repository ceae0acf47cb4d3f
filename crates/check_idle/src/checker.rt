//! The first event that breaks the law.
ghost use Rattle.std.specs.Prelude.{◌≡◌, ◌↔◌, ◌<◌, IfOk, IsNone, Some};
ghost use Rattle.wdf_base.specs.Resolved.{IsResolved};
ghost use Rattle.wdf_model.specs.rules.Ready.{IsRunOf};
ghost use Rattle.wdf_idle.specs.Agents.{idle_meaning};
ghost use Rattle.law_idle.specs.First.{first_break};
ghost use Rattle.law_idle.specs.Idling.{time_step};
ghost use Rattle.law_idle.specs.Law.{KeepsIdleLaw};
ghost use Rattle.check_idle.specs.First.{IsFirstBreak};

use crate::watches::{any_breaks, feed_all, open_all};
use check_past::{Past, event_at};
use std::alloc::Global;
use wdf_base::{Event, Memory, Plan};

/// The tick after an event.
fn time_after(now: u64, event: &Event) -> u64
    ensures { result ≡ time_step now event.now }
{
    match event {
        Event::Tick { time } => *time,
        _ => now,
    }
}

/// The place of the first event that breaks the law.
fn first_broken(alloc: Global, plan: &Plan, events: &[Event]) -> Result<Option<usize>, Memory>
    ensures { IfOk result (IsFirstBreak plan.now events.now) }
{
    let mut watches = open_all(alloc, plan)?;
    let mut past = Past::open(alloc, plan, events)?;
    let mut now = 0;
    for k in 0..events.len() {
        let event = event_at(events, k);
        if any_breaks(watches.as_slice(), now, event) {
            return Ok(Some(k + 1));
        }
        feed_all(&mut watches, &past, now, event)?;
        now = time_after(now, event);
        past = past.step(alloc)?;
    }
    Ok(None)
}

/// The place of the first event that breaks the law on idle runs, counted from 1; None exactly where each event keeps it.
/// So it is none of a run of the program's agents for `idle`.
///
/// # Errors
///
/// [`Memory`] where memory was refused. Nothing is said of the list then.
pub fn check(alloc: Global, plan: &Plan, events: &[Event]) -> Result<Option<usize>, Memory>
    ensures first { IfOk result (λ found. found ≡ first_break plan.now events.now) }
    // It is none exactly where the list keeps the law, in the words of the headline of `wdf_serve`.
    ensures kept { IfOk result (λ found. IsNone found ↔ KeepsIdleLaw plan.now events.now) }
    // The agents of `idle` make no list in which something is found.
    ensures runs { IfOk result (λ found. IsResolved plan.now → IsRunOf plan.now idle_meaning events.now → IsNone found) }
{
    first_broken(alloc, plan, events)
}
