ghost use Rattle.std.specs.Prelude.{◌≡◌, ◌+◌, ◌<◌, ◌^◌, ◌++◌, ◌∷◌, [], List, OnOk, position};
ghost use Rattle.wdf_table.specs.declared.row.Row.{Row};
ghost use Rattle.wdf_table.specs.Rows.{is_of};
ghost use Rattle.wdf_table.specs.Tables.{IsTallyOf, IsTableOf, all_seeds};

use crate::row::Row;
use std::alloc::Global;
use std::marker::Model;
use wdf_base::Memory;

/// The rows of the kinds that have come. Contracts see them as a list.
#[derive(Drop)]
pub struct Tally {
    rows: Vec<Row>,
}

impl Model for Tally {
    ghost use Rattle.std.specs.Prelude.{List};
    ghost use Rattle.wdf_table.specs.declared.row.Row.{Row};

    ghost Value = { List Row };

    ghost view = { λ tally. tally.rows.items };
}

impl Tally {
    /// No rows.
    pub fn new(alloc: Global) -> Tally
        ensures rows { result ≡ [] }
        ensures tally { IsTallyOf [] result }
    {
        Tally {
            rows: Vec::new(alloc),
        }
    }

    /// The rows.
    pub fn rows(&self) -> &[Row]
        ensures { result.now ≡ self.now }
    {
        self.rows.as_slice()
    }

    /// The place of the row of a kind.
    fn place_of(&self, kind: &[u8]) -> Option<usize>
        ensures { result ≡ position (is_of kind.now) self.now }
    {
        self.rows.iter().position(|row| row.is_of(kind))
    }

    /// Adds an entry.
    ///
    /// # Errors
    ///
    /// [`Memory`] where memory was refused.
    pub fn add(&mut self, entry: Row) -> Result<(), Memory>
        requires { all_seeds self.old + entry.count < 2 ^ 64 }
        ensures tally { OnOk result ((entries : List Row) → IsTallyOf entries self.old → IsTallyOf (entries ++ entry ∷ []) self.new) }
        ensures seeds { OnOk result (all_seeds self.new ≡ all_seeds self.old + entry.count) }
    {
        match self.place_of(entry.kind.bytes()) {
            Some(place) => self.rows[place].join(&entry),
            None => self.rows.push(entry)?,
        }
        Ok(())
    }

    /// Adds what another tally counted.
    ///
    /// # Errors
    ///
    /// [`Memory`] where memory was refused.
    pub fn merge(&mut self, other: Tally) -> Result<(), Memory>
        requires { all_seeds self.old + all_seeds other < 2 ^ 64 }
        ensures tally { OnOk result ((entries others : List Row) → IsTallyOf entries self.old → IsTallyOf others other → IsTallyOf (entries ++ others) self.new) }
        ensures seeds { OnOk result (all_seeds self.new ≡ all_seeds self.old + all_seeds other) }
    {
        for row in other.rows {
            self.add(row)?;
        }
        Ok(())
    }

    /// Puts the rows in order: most seeds first, and of as many by kind.
    pub fn sort(&mut self)
        ensures { (entries : List Row) → IsTallyOf entries self.old → IsTableOf entries self.new }
    {
        self.rows.sort_unstable_by(|a, b| a.compare(b));
    }
}
