use wdf_base::Memory;

/// Why the tables have no sum.
#[derive(Clone, Copy)]
pub enum Why {
    /// The line is no line of a table.
    NotALine,
    /// The rows of the table count another number of seeds than its last line says.
    WrongCount,
    /// With this table there are more seeds or events than a number of 64 bits says.
    TooMany,
    /// Another table has a seed of this one.
    CountedTwice,
    /// There are seeds before those of this table, and after those of the table before it, that no table has.
    Gap,
    /// The input stops before the last line of a table.
    Missing,
}

/// Why there is no sum.
#[derive(Clone, Copy)]
pub enum Bad {
    /// Memory was refused.
    NoMemory,
    /// The line, counted from 1, and what is wrong with it.
    AtLine { line: usize, why: Why },
}

impl From<Memory> for Bad {
    ghost use Rattle.std.specs.Prelude.{◌≡◌};
    ghost use Rattle.wdf_sum.specs.declared.refused.Bad.TheVariants.{NoMemory};

    ghost from_gives = { λ _ e. e ≡ NoMemory };

    fn from(_memory: Memory) -> Bad {
        Bad::NoMemory
    }
}
