//! A law of sums.
ghost use Rattle.std.specs.Prelude.{◌++◌, List};
ghost use Rattle.wdf_table.specs.declared.row.Row.{Row};
ghost use Rattle.wdf_table.specs.Tables.{IsTallyOf};

/// What the rows of two tables come to is what the seeds of both come to: the rows of a table stand for the tries that it counts.
/// So the sum of the tables of two ranges is the table of both.
pub fn tables_of_tables()
    ensures { (entries others rows more all : List Row) → IsTallyOf entries rows → IsTallyOf others more → IsTallyOf (rows ++ more) all → IsTallyOf (entries ++ others) all }
{}
