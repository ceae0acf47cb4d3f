//! Lists by device and by queue, and what each queue has presented.
ghost use Rattle.std.specs.Prelude.{◌≡◌, ℕ, [], OnOk};
ghost use Rattle.wdf_laws.specs.Events as told;
ghost use Rattle.check_past.specs.Maps as maps;
ghost use Rattle.check_past.specs.Groups as groups;
ghost use Rattle.check_past.specs.Order as order;

use crate::maps::{Numbers, add, number_at, put};
use crate::shown::Shown;
use check_signs::{arrived, arrived_at, taken};
use std::alloc::Global;
use std::collections::HashMap;
use wdf_base::{Event, Memory, ObjectId, Plan, QueueInfo};
use wdf_declared::queue_of;
use wdf_laws::Taking;

/// What is kept of requests by device and by queue.
#[derive(Drop)]
pub struct Lists {
    /// By device, the requests that arrived for it.
    pub arrivals: HashMap<u32, Vec<u32>>,
    /// By device, the takings from the queues whose power it manages.
    pub takings: HashMap<u32, Vec<Taking>>,
    /// By queue, the greatest number of an entry at the tail, of those that were presented.
    pub tail_entries: Numbers,
    /// By queue, the number of the last presentation of one that entered at the tail.
    pub tail_numbers: Numbers,
    /// By queue, the presentations of those that entered at the head.
    pub heads: HashMap<u32, Vec<Shown>>,
}

impl Lists {
    /// Nothing was read.
    pub fn make(alloc: Global) -> Lists
        ensures arrivals { result.arrivals.entries ≡ [] }
        ensures takings { result.takings.entries ≡ [] }
        ensures tail_entries { result.tail_entries.entries ≡ [] }
        ensures tail_numbers { result.tail_numbers.entries ≡ [] }
        ensures heads { result.heads.entries ≡ [] }
    {
        Lists {
            arrivals: HashMap::new(alloc),
            takings: HashMap::new(alloc),
            tail_entries: HashMap::new(alloc),
            tail_numbers: HashMap::new(alloc),
            heads: HashMap::new(alloc),
        }
    }

    /// One event more, with the presentation that it is.
    pub fn step(
        &mut self,
        alloc: Global,
        plan: &Plan,
        event: &Event,
        shown: Option<Shown>,
    ) -> Result<(), Memory>
        ensures arrivals { OnOk result ((d : ℕ) → maps.group_at self.new.arrivals d ≡ groups.with_arrival d (told.arrived_at event.now) (told.arrived event.now) (maps.group_at self.old.arrivals d)) }
        ensures takings { OnOk result ((d : ℕ) → maps.group_at self.new.takings d ≡ groups.with_taking plan.now d (told.taken event.now) (maps.group_at self.old.takings d)) }
        ensures tail_entries { OnOk result ((q : ℕ) → maps.number_at self.new.tail_entries q ≡ order.with_entry q shown (maps.number_at self.old.tail_entries q)) }
        ensures tail_numbers { OnOk result ((q : ℕ) → maps.number_at self.new.tail_numbers q ≡ order.with_number q shown (maps.number_at self.old.tail_numbers q)) }
        ensures heads { OnOk result ((q : ℕ) → maps.group_at self.new.heads q ≡ order.with_head q shown (maps.group_at self.old.heads q)) }
    {
        add_arrival(alloc, &mut self.arrivals, event)?;
        add_taking(alloc, plan, &mut self.takings, event)?;
        keep_entry(&mut self.tail_entries, shown)?;
        keep_number(&mut self.tail_numbers, shown)?;
        keep_head(alloc, &mut self.heads, shown)?;
        Ok(())
    }
}

/// Adds the request that an event brings to those of its device.
fn add_arrival(
    alloc: Global,
    arrivals: &mut HashMap<u32, Vec<u32>>,
    event: &Event,
) -> Result<(), Memory>
    ensures { OnOk result ((d : ℕ) → maps.group_at arrivals.new d ≡ groups.with_arrival d (told.arrived_at event.now) (told.arrived event.now) (maps.group_at arrivals.old d)) }
{
    match arrived(event) {
        Some(request) => add(alloc, arrivals, arrived_at(event), request),
        None => Ok(()),
    }
}

/// The device that manages the power of a queue.
fn manager(queue: Option<QueueInfo>) -> Option<u32>
    ensures { result ≡ groups.manager queue }
{
    match queue {
        Some(q) => { if q.powered { Some(q.device.0) } else { None } }
        None => None,
    }
}

/// Adds the taking that an event is to those of the device that manages its queue.
fn add_taking(
    alloc: Global,
    plan: &Plan,
    takings: &mut HashMap<u32, Vec<Taking>>,
    event: &Event,
) -> Result<(), Memory>
    ensures { OnOk result ((d : ℕ) → maps.group_at takings.new d ≡ groups.with_taking plan.now d (told.taken event.now) (maps.group_at takings.old d)) }
{
    match taken(event) {
        Some(taking) => {
            let device = manager(queue_of(plan, ObjectId(taking.queue)));
            add(alloc, takings, device, taking)
        }
        None => Ok(()),
    }
}

fn tail_queue(shown: &Shown) -> Option<u32>
    ensures { result ≡ order.tail_queue shown.now }
{
    if !shown.at_head {
        Some(shown.queue)
    } else {
        None
    }
}

fn head_queue(shown: &Shown) -> Option<u32>
    ensures { result ≡ order.head_queue shown.now }
{
    if shown.at_head {
        Some(shown.queue)
    } else {
        None
    }
}

/// Keeps the entry of a presentation, where it is at the tail and the greatest.
fn keep_entry(tail_entries: &mut Numbers, shown: Option<Shown>) -> Result<(), Memory>
    ensures { OnOk result ((q : ℕ) → maps.number_at tail_entries.new q ≡ order.with_entry q shown (maps.number_at tail_entries.old q)) }
{
    match shown {
        Some(s) => {
            let greatest = number_at(tail_entries, s.queue).max(s.entry);
            put(tail_entries, tail_queue(&s), greatest)
        }
        None => Ok(()),
    }
}

/// Keeps the number of a presentation, where the entry was at the tail.
fn keep_number(tail_numbers: &mut Numbers, shown: Option<Shown>) -> Result<(), Memory>
    ensures { OnOk result ((q : ℕ) → maps.number_at tail_numbers.new q ≡ order.with_number q shown (maps.number_at tail_numbers.old q)) }
{
    match shown {
        Some(s) => put(tail_numbers, tail_queue(&s), s.number),
        None => Ok(()),
    }
}

/// Keeps a presentation, where the entry was at the head.
fn keep_head(
    alloc: Global,
    heads: &mut HashMap<u32, Vec<Shown>>,
    shown: Option<Shown>,
) -> Result<(), Memory>
    ensures { OnOk result ((q : ℕ) → maps.group_at heads.new q ≡ order.with_head q shown (maps.group_at heads.old q)) }
{
    match shown {
        Some(s) => add(alloc, heads, head_queue(&s), s),
        None => Ok(()),
    }
}
