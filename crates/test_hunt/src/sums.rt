//! Sums of tables, worked out by hand: what is written of them, or which line is refused and why.
use std::alloc::Global;
use wdf_base::Memory;
use wdf_sum::{Bad, Sum, Why, sum_of};

/// What is due of tables.
enum Due {
    /// The table of their sum, and its status.
    Table { text: &'static str, status: u8 },
    /// The line that is refused, and why.
    Refused { line: usize, why: Why },
}

/// Tables, and what is due of them.
struct Case {
    what: &'static str,
    tables: &'static str,
    due: Due,
}

const CASES: [Case; 18] = [
    Case {
        what: "one table is its own sum",
        tables: "2 seeds, seed 1 in 6 events: stuck: owned\n1 seeds, seed 0 in 8 events: finished\nseeds 0 to 2: 3 runs, 20 events\n",
        due: Due::Table {
            text: "2 seeds, seed 1 in 6 events: stuck: owned\n1 seeds, seed 0 in 8 events: finished\nseeds 0 to 2: 3 runs, 20 events\n",
            status: 4,
        },
    },
    Case {
        what: "the row of a kind counts the seeds of both tables and names the run of the fewest events",
        tables: "2 seeds, seed 1 in 9 events: finished\nseeds 0 to 1: 2 runs, 19 events\n3 seeds, seed 4 in 7 events: finished\nseeds 2 to 4: 3 runs, 24 events\n",
        due: Due::Table {
            text: "5 seeds, seed 4 in 7 events: finished\nseeds 0 to 4: 5 runs, 43 events\n",
            status: 0,
        },
    },
    Case {
        what: "the tables come in any order, and of two runs as short the lesser seed is named",
        tables: "3 seeds, seed 4 in 7 events: finished\nseeds 2 to 4: 3 runs, 24 events\n2 seeds, seed 1 in 7 events: finished\nseeds 0 to 1: 2 runs, 19 events\n",
        due: Due::Table {
            text: "5 seeds, seed 1 in 7 events: finished\nseeds 0 to 4: 5 runs, 43 events\n",
            status: 0,
        },
    },
    Case {
        what: "rows are put in order: a kind that is rare in each table may be the most frequent of all",
        tables: "2 seeds, seed 0 in 4 events: finished\n1 seeds, seed 2 in 5 events: limit\nseeds 0 to 2: 3 runs, 13 events\n2 seeds, seed 3 in 3 events: fault NotOwned at line 9\n2 seeds, seed 5 in 5 events: limit\nseeds 3 to 6: 4 runs, 16 events\n",
        due: Due::Table {
            text: "3 seeds, seed 2 in 5 events: limit\n2 seeds, seed 3 in 3 events: fault NotOwned at line 9\n2 seeds, seed 0 in 4 events: finished\nseeds 0 to 6: 7 runs, 29 events\n",
            status: 3,
        },
    },
    Case {
        what: "three tables, the middle one last",
        tables: "1 seeds, seed 7 in 2 events: finished\nseeds 7 to 7: 1 runs, 2 events\n1 seeds, seed 9 in 2 events: finished\nseeds 9 to 9: 1 runs, 2 events\n1 seeds, seed 8 in 1 events: finished\nseeds 8 to 8: 1 runs, 1 events\n",
        due: Due::Table {
            text: "3 seeds, seed 8 in 1 events: finished\nseeds 7 to 9: 3 runs, 5 events\n",
            status: 0,
        },
    },
    Case {
        what: "the last seed of all is in a range",
        tables: "1 seeds, seed 18446744073709551615 in 1 events: finished\nseeds 18446744073709551615 to 18446744073709551615: 1 runs, 1 events\n",
        due: Due::Table {
            text: "1 seeds, seed 18446744073709551615 in 1 events: finished\nseeds 18446744073709551615 to 18446744073709551615: 1 runs, 1 events\n",
            status: 0,
        },
    },
    Case {
        what: "no table",
        tables: "",
        due: Due::Refused {
            line: 1,
            why: Why::Missing,
        },
    },
    Case {
        what: "the last table has no last line",
        tables: "1 seeds, seed 7 in 2 events: finished\nseeds 7 to 7: 1 runs, 2 events\n1 seeds, seed 8 in 2 events: finished\n",
        due: Due::Refused {
            line: 4,
            why: Why::Missing,
        },
    },
    Case {
        what: "a line without a line feed",
        tables: "1 seeds, seed 7 in 2 events: finished\nseeds 7 to 7: 1 runs, 2 events",
        due: Due::Refused {
            line: 2,
            why: Why::NotALine,
        },
    },
    Case {
        what: "an empty line",
        tables: "1 seeds, seed 7 in 2 events: finished\n\nseeds 7 to 7: 1 runs, 2 events\n",
        due: Due::Refused {
            line: 2,
            why: Why::NotALine,
        },
    },
    Case {
        what: "a number with a zero in front",
        tables: "01 seeds, seed 7 in 2 events: finished\nseeds 7 to 7: 1 runs, 2 events\n",
        due: Due::Refused {
            line: 1,
            why: Why::NotALine,
        },
    },
    Case {
        what: "a number that is too great",
        tables: "18446744073709551616 seeds, seed 7 in 2 events: finished\nseeds 7 to 7: 1 runs, 2 events\n",
        due: Due::Refused {
            line: 1,
            why: Why::NotALine,
        },
    },
    Case {
        what: "a range whose count is another one",
        tables: "1 seeds, seed 7 in 2 events: finished\nseeds 7 to 8: 1 runs, 2 events\n",
        due: Due::Refused {
            line: 2,
            why: Why::NotALine,
        },
    },
    Case {
        what: "rows that count another number of seeds",
        tables: "1 seeds, seed 7 in 2 events: finished\nseeds 7 to 8: 2 runs, 2 events\n",
        due: Due::Refused {
            line: 2,
            why: Why::WrongCount,
        },
    },
    Case {
        what: "a table twice",
        tables: "1 seeds, seed 7 in 2 events: finished\nseeds 7 to 7: 1 runs, 2 events\n1 seeds, seed 7 in 2 events: finished\nseeds 7 to 7: 1 runs, 2 events\n",
        due: Due::Refused {
            line: 4,
            why: Why::CountedTwice,
        },
    },
    Case {
        what: "ranges that overlap, the later seeds first",
        tables: "2 seeds, seed 8 in 2 events: finished\nseeds 8 to 9: 2 runs, 4 events\n2 seeds, seed 7 in 2 events: finished\nseeds 7 to 8: 2 runs, 4 events\n",
        due: Due::Refused {
            line: 2,
            why: Why::CountedTwice,
        },
    },
    Case {
        what: "a gap",
        tables: "1 seeds, seed 7 in 2 events: finished\nseeds 7 to 7: 1 runs, 2 events\n1 seeds, seed 9 in 2 events: finished\nseeds 9 to 9: 1 runs, 2 events\n",
        due: Due::Refused {
            line: 4,
            why: Why::Gap,
        },
    },
    Case {
        what: "more events than a number says",
        tables: "1 seeds, seed 7 in 2 events: finished\nseeds 7 to 7: 1 runs, 18446744073709551615 events\n1 seeds, seed 8 in 2 events: finished\nseeds 8 to 8: 1 runs, 1 events\n",
        due: Due::Refused {
            line: 4,
            why: Why::TooMany,
        },
    },
];

/// The text of a sum is this one, and its status this one.
fn has_text(alloc: Global, sum: Sum, text: &str, status: u8) -> Result<bool, Memory> {
    if sum.count == 0 || sum.count - 1 > u64::MAX - sum.from {
        return Ok(false);
    }
    let mut tally = sum.tally;
    tally.sort();
    let written = tally.text(alloc, sum.from, sum.count, sum.events)?;
    Ok(written.is(text.as_bytes()) && tally.status() == status)
}

/// Whether two reasons are one.
fn is_same(a: Why, b: Why) -> bool {
    a as u8 == b as u8
}

/// Whether what becomes of tables is what is due.
fn is_due(alloc: Global, case: &Case) -> Result<bool, Memory> {
    match (sum_of(alloc, case.tables.as_bytes()), &case.due) {
        (Ok(sum), Due::Table { text, status }) => has_text(alloc, sum, text, *status),
        (
            Err(Bad::AtLine { line, why }),
            Due::Refused {
                line: at,
                why: reason,
            },
        ) => { Ok(line == *at && is_same(why, *reason)) }
        _ => Ok(false),
    }
}

#[test]
fn each_sum_is_the_one_that_is_due(rt: HostRuntime) {
    for case in &CASES {
        assert!(rt;
            matches!(is_due(rt.alloc(), case), Ok(true)),
            "{}",
            case.what
        );
    }
}
