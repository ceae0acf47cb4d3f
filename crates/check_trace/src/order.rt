//! The law on the order in which a queue presents.
ghost use Rattle.std.specs.Prelude.{◌≡◌, Some};
ghost use Rattle.std.specs.List.{list_any};
ghost use Rattle.wdf_laws.specs.Laws as laws;
ghost use Rattle.check_trace.specs.Order as order;
ghost use Rattle.check_past.specs.Past.{before};

use check_past::{Past, Shown};
use check_signs::presented;
use wdf_base::Event;
use wdf_laws::{Sign, Taking};

/// Whether a request waited from its entry to its presentation, at the entry with this number too.
fn covers(entry: usize, shown: &Shown) -> bool
    ensures { result ≡ order.covers entry shown.now }
{
    shown.entry <= entry && entry < shown.number
}

fn any_covers(entry: usize, heads: &[Shown]) -> bool
    ensures { result ≡ list_any (order.covers entry) heads.now }
{
    heads.iter().any(|shown| covers(entry, shown))
}

/// Whether a request whose last entry has this number, at the head or at the tail, may be presented next.
fn is_next(past: &Past, queue: u32, entry: usize, at_head: bool) -> bool
    ensures { result ≡ order.is_next past.now.all queue past.now.number entry at_head }
{
    entry == 0
        || (if at_head {
            past.tail_number(queue) <= entry && !any_covers(entry, past.heads(queue))
        } else {
            past.tail_entry(queue) < entry
        })
}

fn is_in_turn(past: &Past, later: Taking) -> bool
    ensures { result ≡ laws.is_presented_in_turn (before past.now) (Some later) }
{
    let entry = past.last(Sign::Entry(later.request));
    let at_head = past.stands(Sign::AtHead(later.request), Sign::Entry(later.request));
    is_next(past, later.queue, entry, at_head)
}

fn is_presented_in_turn(past: &Past, presented: Option<Taking>) -> bool
    ensures { result ≡ laws.is_presented_in_turn (before past.now) presented }
{
    match presented {
        Some(later) => is_in_turn(past, later),
        None => true,
    }
}

/// A queue presents from its head.
pub fn keeps_order(past: &Past, event: &Event) -> bool
    ensures { result ≡ laws.law_8 (before past.now) event.now }
{
    is_presented_in_turn(past, presented(event))
}
