ghost use Rattle.std.specs.Prelude.{◌≡◌, IfOk, length};
ghost use Rattle.wdf_table.specs.Tables.{all_seeds};

use std::alloc::Global;
use wdf_base::Memory;
use wdf_table::{Row, Tally};
use wdf_writing::Text;

/// A try: a seed, how many events its run has, and the kind in which that ends.
struct Try {
    seed: u64,
    events: u64,
    kind: &'static str,
}

/// Tries of seeds from one on, and what is due of them.
struct Case {
    what: &'static str,
    from: u32,
    events: u64,
    tries: &'static [Try],
    text: &'static str,
    status: u8,
}

const CASES: [Case; 4] = [
    Case {
        what: "each run finished: the shortest run is named",
        from: 7,
        events: 25,
        tries: &[
            Try {
                seed: 7,
                events: 9,
                kind: "finished",
            },
            Try {
                seed: 8,
                events: 7,
                kind: "finished",
            },
            Try {
                seed: 9,
                events: 9,
                kind: "finished",
            },
        ],
        text: "3 seeds, seed 8 in 7 events: finished\nseeds 7 to 9: 3 runs, 25 events\n",
        status: 0,
    },
    Case {
        what: "of two runs as short the lesser seed is named, whichever comes first",
        from: 3,
        events: 12,
        tries: &[
            Try {
                seed: 5,
                events: 4,
                kind: "limit",
            },
            Try {
                seed: 3,
                events: 4,
                kind: "limit",
            },
            Try {
                seed: 4,
                events: 4,
                kind: "limit",
            },
        ],
        text: "3 seeds, seed 3 in 4 events: limit\nseeds 3 to 5: 3 runs, 12 events\n",
        status: 5,
    },
    Case {
        what: "the most frequent kind comes first, and a fault is worse than what is stuck",
        from: 0,
        events: 30,
        tries: &[
            Try {
                seed: 0,
                events: 8,
                kind: "fault NotOwned at line 12",
            },
            Try {
                seed: 1,
                events: 6,
                kind: "stuck: owned",
            },
            Try {
                seed: 2,
                events: 6,
                kind: "stuck: owned",
            },
            Try {
                seed: 3,
                events: 10,
                kind: "finished",
            },
        ],
        text: "2 seeds, seed 1 in 6 events: stuck: owned\n1 seeds, seed 0 in 8 events: fault NotOwned at line 12\n1 seeds, seed 3 in 10 events: finished\nseeds 0 to 3: 4 runs, 30 events\n",
        status: 3,
    },
    Case {
        what: "of kinds as frequent the first in the order of bytes comes first",
        from: 1,
        events: 5,
        tries: &[
            Try {
                seed: 1,
                events: 3,
                kind: "stuck: owned; queued Q.3 full",
            },
            Try {
                seed: 2,
                events: 2,
                kind: "stuck: owned",
            },
        ],
        text: "1 seeds, seed 2 in 2 events: stuck: owned\n1 seeds, seed 1 in 3 events: stuck: owned; queued Q.3 full\nseeds 1 to 2: 2 runs, 5 events\n",
        status: 4,
    },
];

/// The tally of some tries.
fn tally_of(alloc: Global, tries: &[Try]) -> Result<Tally, Memory>
    ensures { IfOk result (λ tally. all_seeds tally ≡ length tries.now) }
{
    let mut tally = Tally::new(alloc);
    for one in tries {
        let mut kind = Text::new(alloc);
        kind.push(one.kind.as_bytes())?;
        tally.add(Row {
            kind,
            count: 1,
            seed: one.seed,
            events: one.events,
        })?;
    }
    Ok(tally)
}

/// Whether what is written of a case is what is due.
fn is_due(alloc: Global, case: &Case) -> Result<bool, Memory> {
    let mut tally = tally_of(alloc, case.tries)?;
    tally.sort();
    let count = case.tries.len() as u64;
    if count == 0 {
        return Ok(false);
    }
    let text = tally.text(alloc, u64::from(case.from), count, case.events)?;
    Ok(text.is(case.text.as_bytes()) && tally.status() == case.status)
}

#[test]
fn each_table_is_the_one_that_is_due(rt: HostRuntime) {
    for case in &CASES {
        assert!(rt;
            matches!(is_due(rt.alloc(), case), Ok(true)),
            "{}",
            case.what
        );
    }
}
