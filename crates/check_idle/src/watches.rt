ghost use Rattle.std.specs.Prelude.{◌≡◌, map, not, IfOk, OnOk};
ghost use Rattle.std.specs.List.{filter_map, list_all};
ghost use Rattle.check_past.specs.Past.{before};
ghost use Rattle.check_idle.specs.Watched as watched;
ghost use Rattle.check_idle.specs.Timed as timed;

use crate::watch::Watch;
use check_past::Past;
use std::alloc::Global;
use wdf_base::{Event, Memory, Plan, RegisterInfo};
use wdf_idle::is_register_named;

/// The device that a register gives a timeout, before the first event.
fn opened_by(alloc: Global, plan: &Plan, register: &RegisterInfo) -> Option<Watch>
    ensures { result ≡ timed.opened_by plan.now register.now }
{
    if is_register_named(plan, register.device, "IDLE_TIMEOUT".as_bytes(), register) {
        Some(Watch::open(alloc, plan, register.device.0))
    } else {
        None
    }
}

/// The devices with a timeout, before the first event.
pub fn open_all(alloc: Global, plan: &Plan) -> Result<Vec<Watch>, Memory>
    ensures { IfOk result (λ all. all.items ≡ filter_map (timed.opened_by plan.now) plan.now.registers) }
{
    let mut all = Vec::new(alloc);
    for k in 0..plan.register_len() {
        let info = plan.register(k);
        if let Some(watch) = opened_by(alloc, plan, &info) {
            all.push(watch)?;
        }
    }
    Ok(all)
}

/// Each takes notice of an event that comes after those that were read, at this tick.
fn feed_each(watches: &mut [Watch], past: &Past, now: u64, event: &Event) -> Result<(), Memory>
    ensures { OnOk result (watches.new ≡ map (watched.watched_after (before past.now) now event.now) watches.old) }
{
    for watch in watches.iter_mut() {
        watch.feed(past, now, event)?;
    }
    Ok(())
}

/// The same of all that are kept.
pub fn feed_all(
    watches: &mut Vec<Watch>,
    past: &Past,
    now: u64,
    event: &Event,
) -> Result<(), Memory>
    ensures { OnOk result (watches.new.items ≡ map (watched.watched_after (before past.now) now event.now) watches.old.items) }
{
    feed_each(watches.as_mut_slice(), past, now, event)
}

/// Whether an event that comes at this tick keeps the law of each.
fn all_keep(watches: &[Watch], now: u64, event: &Event) -> bool
    ensures { result ≡ list_all (watched.keeps now event.now) watches.now }
{
    watches.iter().all(|watch| watch.keeps(now, event))
}

/// Whether it breaks the law of one of them.
pub fn any_breaks(watches: &[Watch], now: u64, event: &Event) -> bool
    ensures { result ≡ not (list_all (watched.keeps now event.now) watches.now) }
{
    !all_keep(watches, now, event)
}
