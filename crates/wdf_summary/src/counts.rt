//! How many requests arrived in a run, and how many completions it has.
ghost use Rattle.std.specs.Prelude.{◌≡◌, ◌≤◌, length};
ghost use Rattle.wdf_summary.specs.Counts.{arrivals, completions};

use crate::events::{is_arrival, is_completion};
use wdf_base::Agent;
use wdf_core::Core;

/// How many requests arrived.
pub fn arrivals<A: Agent>(core: &Core<A>) -> usize
    ensures value { result ≡ arrivals core.now.journal }
    ensures few { result ≤ length core.now.journal }
{
    let mut count = 0;
    for k in 0..core.journal_len() {
        if is_arrival(&core.journal_at(k)) {
            count += 1;
        }
    }
    count
}

/// How many completions there were.
pub fn completions<A: Agent>(core: &Core<A>) -> usize
    ensures value { result ≡ completions core.now.journal }
    ensures few { result ≤ length core.now.journal }
{
    let mut count = 0;
    for k in 0..core.journal_len() {
        if is_completion(&core.journal_at(k)) {
            count += 1;
        }
    }
    count
}
