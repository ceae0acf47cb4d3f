ghost use Rattle.std.specs.Prelude.{◌≡◌, ◌+◌, ◌-◌, ◌<◌, ◌≤◌, ◌^◌, ◌++◌, IfOk, OnOk};
ghost use Rattle.std.specs.Option.{option_copied};
ghost use Rattle.wdf_table.specs.Lines.{has_status, kind_status, row_lines, row_text, table_status, table_text, total_text, worse, worst_row};

use crate::row::Row;
use crate::tally::Tally;
use std::alloc::Global;
use wdf_base::Memory;
use wdf_exit::Exit;
use wdf_writing::Text;

/// The status of a run of a kind.
fn kind_status(kind: &[u8]) -> u8
    ensures { result ≡ kind_status kind.now }
{
    if kind.starts_with(b"broken: ") {
        Exit::Broken as u8
    } else if kind.starts_with(b"fault ") {
        Exit::Fault as u8
    } else if kind.starts_with(b"stuck") {
        Exit::Stuck as u8
    } else if kind.starts_with(b"limit") {
        Exit::Limit as u8
    } else {
        Exit::Fine as u8
    }
}

/// The worse of two statuses: 1, then 3, 4 and 5, then 0.
fn worse(a: u8, b: u8) -> u8
    ensures { result ≡ worse a b }
{
    if a == Exit::Fine as u8 {
        b
    } else if b == Exit::Fine as u8 {
        a
    } else {
        a.min(b)
    }
}

/// Whether a row is of a kind with this status.
fn has_status(status: u8, row: &Row) -> bool
    ensures { result ≡ has_status status row.now }
{
    kind_status(row.kind.bytes()) == status
}

/// Adds the line of a row.
fn push_row(out: &mut Text, row: &Row) -> Result<(), Memory>
    ensures { OnOk result (out.new ≡ out.old ++ row_text row.now) }
{
    out.push_number(row.count)?;
    out.push(b" seeds, seed ")?;
    out.push_number(row.seed)?;
    out.push(b" in ")?;
    out.push_number(row.events)?;
    out.push(b" events: ")?;
    out.push(row.kind.bytes())?;
    out.push(b"\n")
}

/// Adds a line for each row.
fn push_rows(out: &mut Text, rows: &[Row]) -> Result<(), Memory>
    ensures { OnOk result (out.new ≡ out.old ++ row_lines rows.now) }
{
    for row in rows {
        push_row(out, row)?;
    }
    Ok(())
}

/// Adds the last line of a table.
fn push_total(out: &mut Text, from: u64, count: u64, events: u64) -> Result<(), Memory>
    requires some { 0 < count }
    requires fits { from + count ≤ 2 ^ 64 }
    ensures { OnOk result (out.new ≡ out.old ++ total_text from count events) }
{
    out.push(b"seeds ")?;
    out.push_number(from)?;
    out.push(b" to ")?;
    out.push_number(from + (count - 1))?;
    out.push(b": ")?;
    out.push_number(count)?;
    out.push(b" runs, ")?;
    out.push_number(events)?;
    out.push(b" events\n")
}

impl Tally {
    /// What is written of the rows: a line for each, and the last line, for so many seeds from this one on whose runs have
    /// so many events.
    ///
    /// # Errors
    ///
    /// [`Memory`] where memory was refused.
    pub fn text(&self, alloc: Global, from: u64, count: u64, events: u64) -> Result<Text, Memory>
        requires some { 0 < count }
        requires fits { from + count ≤ 2 ^ 64 }
        ensures { IfOk result (λ text. text ≡ table_text self.now from count events) }
    {
        let mut out = Text::new(alloc);
        push_rows(&mut out, self.rows())?;
        push_total(&mut out, from, count, events)?;
        Ok(out)
    }

    /// The status of the worst kind.
    fn worst(&self) -> u8
        ensures { result ≡ table_status self.now }
    {
        self.rows().iter().fold(
            Exit::Fine as u8,
            |status, row| worse(status, kind_status(row.kind.bytes())),
        )
    }

    /// The status of the rows: that of the worst kind, and 0 where each run finished or ended as expected.
    pub fn status(&self) -> u8
        ensures value { result ≡ table_status self.now }
        ensures small { result ≤ 5 }
    {
        self.worst()
    }
    /// The first row of the worst kind.
    #[tactic(auto, unfolding(crate::specs::Lines::worst_row))]
    pub fn worst_row(&self) -> Option<&Row>
        ensures { option_copied result ≡ worst_row self.now }
    {
        let status = self.worst();
        self.rows().iter().find(|row| has_status(status, row))
    }
}
