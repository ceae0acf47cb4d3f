//! The sum of tables.
ghost use Rattle.std.specs.Prelude.{◌≡◌, ◌+◌, ◌==◌, ◌||◌, ◌<◌, ◌≤◌, ◌^◌, ℕ, List, IfErr, IfOk, length, not};
ghost use Rattle.wdf_sum.specs.Lines.{count_of};
ghost use Rattle.wdf_sum.specs.Sums.{IsNoSum, IsReadWhole, IsSumOf};

use crate::joined::first_of;
use crate::refused::{Bad, Why};
use crate::tables::{Tables, read_tables};
use std::alloc::Global;
use wdf_table::Tally;

/// What tables come to.
#[derive(Drop)]
pub struct Sum {
    /// The rows of the kinds that came.
    pub tally: Tally,
    /// The first seed.
    pub from: u64,
    /// How many seeds there are, from that one on.
    pub count: u64,
    /// How many events their runs have together.
    pub events: u64,
}

/// Whether there is no table, or the last one has no last line.
fn is_open(tables: &Tables) -> bool
    ensures { result ≡ (length tables.now.ends.items == 0 || not (tables.now.seeds == tables.now.count)) }
{
    tables.ends.is_empty() || tables.seeds != tables.count
}

/// What lines of tables come to that were all of an input, if they end with a table.
fn closed(tables: Tables, number: usize) -> Result<Sum, Bad>
    requires { count_of tables.ends.items ≡ tables.count }
    ensures sum { (input : List ℕ) → IsReadWhole input tables number → IfOk result (IsSumOf input) }
    ensures none { (input : List ℕ) → IsReadWhole input tables number → IfErr result (IsNoSum input) }
    ensures some { (input : List ℕ) → IsReadWhole input tables number → IfOk result (λ sum. 0 < sum.count) }
    ensures fits { (input : List ℕ) → IsReadWhole input tables number → IfOk result (λ sum. sum.from + sum.count ≤ 2 ^ 64) }
{
    if is_open(&tables) {
        return Err(Bad::AtLine {
            line: number,
            why: Why::Missing,
        });
    }
    match first_of(tables.ends) {
        Ok(from) => Ok(Sum {
            tally: tables.tally,
            from,
            count: tables.count,
            events: tables.events,
        }),
        Err(bad) => Err(bad),
    }
}

/// The sum of the tables in a text.
///
/// # Errors
///
/// [`Bad`] says the first line that is wrong, and why; or that memory was refused.
pub fn sum_of(alloc: Global, text: &[u8]) -> Result<Sum, Bad>
    ensures sum { IfOk result (IsSumOf text.now) }
    ensures none { IfErr result (IsNoSum text.now) }
    ensures some { IfOk result (λ sum. 0 < sum.count) }
    ensures fits { IfOk result (λ sum. sum.from + sum.count ≤ 2 ^ 64) }
{
    match read_tables(alloc, text) {
        Ok((tables, number)) => closed(tables, number),
        Err(bad) => Err(bad),
    }
}
