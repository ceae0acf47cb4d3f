//! The lines of tables, taken one after the other.
ghost use Rattle.std.specs.Prelude.{◌≡◌, ◌≤◌, ◌∷◌, ◌++◌, [], List, IfErr, IfOk, OnOk};
ghost use Rattle.wdf_sum.specs.declared.line.TableLine.{TableLine};
ghost use Rattle.wdf_table.specs.Tables.{all_seeds};
ghost use Rattle.wdf_sum.specs.Lines.{IsTableEnd, line_text};
ghost use Rattle.wdf_sum.specs.Sums.{IsBadEnd, IsBadNext, IsBadRow, IsNoSum, IsReadAs, IsReadWhole};

use crate::line::{Seeds, TableLine, read_line};
use crate::refused::{Bad, Why};
use std::alloc::Global;
use wdf_base::Memory;
use wdf_run_text::line_at;
use wdf_table::{Row, Tally};

/// What the lines of tables so far come to.
#[derive(Drop)]
pub struct Tables {
    /// The rows of the kinds that came.
    pub tally: Tally,
    /// What the last lines of the tables say, in their order.
    pub ends: Vec<Seeds>,
    /// How many seeds the rows count.
    pub seeds: u64,
    /// How many seeds the tables have by their last lines.
    pub count: u64,
    /// How many events these have.
    pub events: u64,
}

/// Adds what the last line of a table says.
fn push_end(ends: &mut Vec<Seeds>, end: Seeds) -> Result<(), Memory>
    ensures { OnOk result (ends.new.items ≡ ends.old.items ++ end ∷ []) }
{
    ends.push(end)?;
    Ok(())
}

impl Tables {
    /// No lines.
    fn new(alloc: Global) -> Tables
        ensures { IsReadAs [] result }
    {
        Tables {
            tally: Tally::new(alloc),
            ends: Vec::new(alloc),
            seeds: 0,
            count: 0,
            events: 0,
        }
    }

    /// Takes the row of a kind.
    fn take_row(&mut self, row: Row, line: usize) -> Result<(), Bad>
        requires { all_seeds self.old.tally ≡ self.old.seeds }
        ensures taken { OnOk result ((lines : List TableLine) → IsReadAs lines self.old → IsReadAs (lines ++ TableLine.OfKind row ∷ []) self.new) }
        ensures bad { IfErr result (IsBadRow self.old row line) }
    {
        match self.seeds.checked_add(row.count) {
            Some(seeds) => {
                self.tally.add(row)?;
                self.seeds = seeds;
                Ok(())
            }
            None => Err(Bad::AtLine {
                line,
                why: Why::TooMany,
            }),
        }
    }

    /// Takes the last line of a table.
    fn take_end(&mut self, end: Seeds) -> Result<(), Bad>
        requires { self.old.count ≤ self.old.seeds }
        ensures taken { OnOk result ((lines : List TableLine) → IsTableEnd end → IsReadAs lines self.old → IsReadAs (lines ++ TableLine.Last end ∷ []) self.new) }
        ensures bad { IfErr result (IsBadEnd self.old end) }
    {
        if self.seeds - self.count != end.count {
            return Err(Bad::AtLine {
                line: end.line,
                why: Why::WrongCount,
            });
        }
        match self.events.checked_add(end.events) {
            Some(events) => {
                push_end(&mut self.ends, end)?;
                self.count = self.seeds;
                self.events = events;
                Ok(())
            }
            None => Err(Bad::AtLine {
                line: end.line,
                why: Why::TooMany,
            }),
        }
    }

    /// Takes the next line.
    fn take_line(&mut self, alloc: Global, line: &[u8], number: usize) -> Result<(), Bad>
        requires seeds { all_seeds self.old.tally ≡ self.old.seeds }
        requires not_more { self.old.count ≤ self.old.seeds }
        ensures taken { OnOk result ((lines : List TableLine) → IsReadAs lines self.old → (l : TableLine) × (line_text l ≡ line.now) × IsReadAs (lines ++ l ∷ []) self.new) }
        ensures bad { IfErr result (λ bad. (lines : List TableLine) → IsReadAs lines self.old → IsBadNext lines line.now number bad) }
    {
        match read_line(alloc, line, number)? {
            Some(TableLine::OfKind(row)) => self.take_row(row, number),
            Some(TableLine::Last(end)) => self.take_end(end),
            None => Err(Bad::AtLine {
                line: number,
                why: Why::NotALine,
            }),
        }
    }
}

/// What the lines of an input come to, and the number of the line after them.
pub(crate) fn read_tables(alloc: Global, text: &[u8]) -> Result<(Tables, usize), Bad>
    ensures read { IfOk result (λ (tables, number). IsReadWhole text.now tables number) }
    ensures bad { IfErr result (IsNoSum text.now) }
{
    let mut tables = Tables::new(alloc);
    let mut at = 0;
    let mut number = 1;
    while at < text.len() {
        let line = line_at(text, at);
        match tables.take_line(alloc, line, number) {
            Ok(()) => {}
            Err(bad) => return Err(bad),
        }
        at += line.len();
        number += 1;
    }
    Ok((tables, number))
}
