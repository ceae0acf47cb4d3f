//! The ranges of tables as one range.
ghost use Rattle.std.specs.Prelude.{◌≡◌, ◌+◌, ◌<◌, ◌^◌, IfErr, IfNone, IfOk, IfSome};
ghost use Rattle.wdf_sum.specs.Lines.{count_of};
ghost use Rattle.wdf_sum.specs.Sums.{AreJoined, AreNoRange, Follow, IsApart, IsBreak, IsNoRangeFrom, seeds_cmp};

use crate::line::Seeds;
use crate::refused::{Bad, Why};
use std::cmp::Ordering;

impl Seeds {
    /// Which of two ranges comes first: the one with the lesser first seed, else the one in the earlier line.
    fn compare(&self, other: &Seeds) -> Ordering
        ensures { result ≡ seeds_cmp self.now other.now }
    {
        match self.from.cmp(&other.from) {
            Ordering::Equal => self.line.cmp(&other.line),
            by_seed => by_seed,
        }
    }

    /// Why the range doesn't begin so many seeds after this one, if it doesn't.
    fn why_apart(&self, from: u64, done: u64) -> Option<Why>
        ensures fits { IfNone result (self.now.from ≡ from + done) }
        ensures apart { IfSome result (IsApart (from + done) self.now) }
    {
        if self.from < from {
            return Some(Why::CountedTwice);
        }
        let place = self.from - from;
        if place == done {
            None
        } else if place > done {
            Some(Why::Gap)
        } else {
            Some(Why::CountedTwice)
        }
    }
}

/// Whether each of these ranges begins where those before it end, and the first of them here.
fn follow(ends: &[Seeds], from: u64) -> Result<(), Bad>
    requires { count_of ends.now < 2 ^ 64 }
    ensures follow { IfOk result (λ _. Follow from ends.now) }
    ensures broken { IfErr result (IsBreak from ends.now) }
{
    let mut done = 0;
    for k in 0..ends.len() {
        match ends[k].why_apart(from, done) {
            Some(why) => {
                return Err(Bad::AtLine {
                    line: ends[k].line,
                    why,
                });
            }
            None => done += ends[k].count,
        }
    }
    Ok(())
}

/// The first seed of ranges in their order, if they are one range.
fn first_of_ordered(ends: &[Seeds]) -> Result<u64, Bad>
    requires { count_of ends.now < 2 ^ 64 }
    ensures joined { IfOk result (λ from. Follow from ends.now) }
    ensures apart { IfErr result (IsNoRangeFrom ends.now) }
{
    let Some(first) = ends.first() else {
        return Ok(0);
    };
    match follow(ends, first.from) {
        Ok(()) => Ok(first.from),
        Err(bad) => Err(bad),
    }
}

/// The first seed of ranges, if they are one range in some order.
pub(crate) fn first_of(mut ends: Vec<Seeds>) -> Result<u64, Bad>
    requires { count_of ends.items < 2 ^ 64 }
    ensures joined { IfOk result (λ from. AreJoined from ends.items) }
    ensures apart { IfErr result (AreNoRange ends.items) }
{
    ends.sort_unstable_by(|a, b| a.compare(b));
    first_of_ordered(ends.as_slice())
}
