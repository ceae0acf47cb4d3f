//! A line of a table.
ghost use Rattle.std.specs.Prelude.{◌≡◌, ◌≢◌, ◌+◌, ◌==◌, ◌&&◌, ◌<◌, ◌≤◌, ◌^◌, ℕ, List, IfNone, IfOk, IfSome, MatchOption, length, nat_lt, true};
ghost use Rattle.wdf_table.specs.declared.row.Row.{Row};
ghost use Rattle.wdf_sum.specs.declared.line.Seeds.{Seeds};
ghost use Rattle.wdf_sum.specs.declared.line.TableLine.{TableLine};
ghost use Rattle.wdf_run_text.specs.Lines.{fed};
ghost use Rattle.wdf_sum.specs.Lines.{IsLineOf, IsSmallEnd, IsTableEnd, IsTableLine, IsTableRow, end_words, line_text, row_words};

use crate::digits::{after, number_before};
use std::alloc::Global;
use wdf_base::Memory;
use wdf_run_text::text_of_line;
use wdf_table::Row;
use wdf_writing::Text;

/// What the last line of a table says.
#[derive(Clone, Copy)]
pub struct Seeds {
    /// The first seed.
    pub from: u64,
    /// How many seeds there are, from that one on.
    pub count: u64,
    /// How many events their runs have together.
    pub events: u64,
    /// The number of the line in the input, counted from 1. The line doesn't say it.
    pub line: usize,
}

/// A line of a table.
#[derive(Drop)]
pub enum TableLine {
    /// The line of a kind.
    OfKind(Row),
    /// The last line.
    Last(Seeds),
}

/// The numbers of a row, and its kind.
#[derive(Clone, Copy)]
pub(crate) struct RowParts<'a> {
    pub count: u64,
    pub seed: u64,
    pub events: u64,
    pub kind: &'a [u8],
}

/// The parts of the row whose line this is, without its line feed.
fn row_parts(text: &[u8]) -> Option<RowParts<'_>>
    ensures found { IfSome result (λ it. text.now ≡ row_words it.count it.seed it.events it.kind.now) }
    ensures each { (count seed events : ℕ) (kind : List ℕ) → count < 2 ^ 64 → seed < 2 ^ 64 → events < 2 ^ 64 → text.now ≡ row_words count seed events kind
        → MatchOption result ⊥ (λ it. (it.count ≡ count) × (it.seed ≡ seed) × (it.events ≡ events) × (it.kind.now ≡ kind)) }
{
    let count = number_before(text, b" seeds, seed ")?;
    let seed = number_before(count.rest, b" in ")?;
    let events = number_before(seed.rest, b" events: ")?;
    Some(RowParts {
        count: count.number,
        seed: seed.number,
        events: events.number,
        kind: events.rest,
    })
}

/// The row of these parts.
fn row_of(alloc: Global, parts: &RowParts<'_>) -> Result<Row, Memory>
    ensures { IfOk result (λ row. (row.count ≡ parts.now.count) × (row.seed ≡ parts.now.seed) × (row.events ≡ parts.now.events) × (row.kind ≡ parts.now.kind.now)) }
{
    let mut kind = Text::new(alloc);
    kind.push(parts.kind)?;
    Ok(Row {
        kind,
        count: parts.count,
        seed: parts.seed,
        events: parts.events,
    })
}

/// Whether so many seeds from one on end with another.
fn is_range(from: u64, to: u64, count: u64) -> bool
    ensures value { result ≡ (nat_lt 0 count && to + 1 == from + count) }
    ensures fits { result ≡ true → from + count ≤ 2 ^ 64 }
{
    count > 0 && to >= from && to - from == count - 1
}

/// The numbers of a table's last line.
#[derive(Clone, Copy)]
pub(crate) struct EndParts<'a> {
    pub from: u64,
    pub to: u64,
    pub count: u64,
    pub events: u64,
    pub rest: &'a [u8],
}

/// The numbers of the last line of a table, and what comes after them.
fn end_parts(text: &[u8]) -> Option<EndParts<'_>>
    ensures found { IfSome result (λ it. text.now ≡ end_words it.from it.to it.count it.events it.rest.now) }
    ensures each { (from to count events : ℕ) (rest : List ℕ) → from < 2 ^ 64 → to < 2 ^ 64 → count < 2 ^ 64 → events < 2 ^ 64 → text.now ≡ end_words from to count events rest
        → MatchOption result ⊥ (λ it. (it.from ≡ from) × (it.to ≡ to) × (it.count ≡ count) × (it.events ≡ events) × (it.rest.now ≡ rest)) }
{
    let front = after(text, b"seeds ")?;
    let from = number_before(front, b" to ")?;
    let to = number_before(from.rest, b": ")?;
    let count = number_before(to.rest, b" runs, ")?;
    let events = number_before(count.rest, b" events")?;
    Some(EndParts {
        from: from.number,
        to: to.number,
        count: count.number,
        events: events.number,
        rest: events.rest,
    })
}

/// Whether these are the numbers of a table's last line, and nothing comes after them.
fn is_end(parts: &EndParts<'_>) -> bool
    ensures value { result ≡ (length parts.now.rest.now == 0 && (nat_lt 0 parts.now.count && parts.now.to + 1 == parts.now.from + parts.now.count)) }
    ensures fits { result ≡ true → parts.now.from + parts.now.count ≤ 2 ^ 64 }
{
    parts.rest.is_empty() && is_range(parts.from, parts.to, parts.count)
}

/// What the last line of a table says, where this is one, without its line feed.
fn end_of(text: &[u8], line: usize) -> Option<Seeds>
    ensures found { IfSome result (λ s. IsTableEnd s × (line_text (TableLine.Last s) ≡ fed text.now) × (s.line ≡ line)) }
    ensures none { IfNone result ((s : Seeds) → IsSmallEnd s → line_text (TableLine.Last s) ≢ fed text.now) }
{
    match end_parts(text) {
        Some(parts) => {
            if is_end(&parts) {
                Some(Seeds {
                    from: parts.from,
                    count: parts.count,
                    events: parts.events,
                    line,
                })
            } else {
                None
            }
        }
        None => None,
    }
}

/// The row whose line this is, without its line feed.
fn row_in(alloc: Global, text: &[u8]) -> Result<Option<Row>, Memory>
    ensures found { IfOk result (λ it. IfSome it (λ row. line_text (TableLine.OfKind row) ≡ fed text.now)) }
    ensures none { IfOk result (λ it. IfNone it ((row : Row) → IsTableRow row → line_text (TableLine.OfKind row) ≢ fed text.now)) }
{
    match row_parts(text) {
        Some(parts) => {
            if parts.count == 0 {
                return Ok(None);
            }
            let row = row_of(alloc, &parts)?;
            Ok(Some(row))
        }
        None => Ok(None),
    }
}

/// The line of a table that this text is, where it is one.
fn line_of(alloc: Global, text: &[u8], line: usize) -> Result<Option<TableLine>, Memory>
    ensures found { IfOk result (λ it. IfSome it (IsLineOf (fed text.now) line)) }
    ensures none { IfOk result (λ it. IfNone it ((l : TableLine) → IsTableLine l → line_text l ≢ fed text.now)) }
{
    match end_of(text, line) {
        Some(seeds) => Ok(Some(TableLine::Last(seeds))),
        None => match row_in(alloc, text)? {
            Some(row) => Ok(Some(TableLine::OfKind(row))),
            None => Ok(None),
        },
    }
}

/// The line of a table that this is, with its line feed, where it is one. Its number is this one.
pub(crate) fn read_line(
    alloc: Global,
    line: &[u8],
    number: usize,
) -> Result<Option<TableLine>, Memory>
    ensures found { IfOk result (λ it. IfSome it (IsLineOf line.now number)) }
    ensures none { IfOk result (λ it. IfNone it ((l : TableLine) → IsTableLine l → line_text l ≢ line.now)) }
{
    match text_of_line(line) {
        Some(text) => line_of(alloc, text, number),
        None => Ok(None),
    }
}
