//! Runs that the words of a seed pick. What SplitMix64 gives was taken from another program.
use crate::call::{Row, STEADY, try_rows};
use std::test::Fail;

/// Four apps that cancel nothing at tick 0, and picks for `order`.
pub const FOUR_APPS: &[u8] = b"\
cpus 1\n\
limit 9\n\
objects 9\n\
app A\n\
at 0 cancel 1\n\
end\n\
app B\n\
at 0 cancel 1\n\
end\n\
app C\n\
at 0 cancel 1\n\
end\n\
app D\n\
at 0 cancel 1\n\
end\n\
order\n\
picks 2 2 1\n\
end\n\
";

/// Its run by these picks.
const BY_ORDER: &[u8] = b"\
1 C cancel 1 -> none\n\
2 D cancel 1 -> none\n\
3 B cancel 1 -> none\n\
4 A cancel 1 -> none\n\
finished 4\n\
";

/// Its run by the seed 0, whose words modulo 4, 3 and 2 are 3, 0 and 1.
const BY_SEED_0: &[u8] = b"\
1 D cancel 1 -> none\n\
2 A cancel 1 -> none\n\
3 C cancel 1 -> none\n\
4 B cancel 1 -> none\n\
finished 4\n\
";

/// Its run by the seed 9, whose words modulo 4, 3 and 2 are 0, 1 and 0.
pub const BY_SEED_9: &[u8] = b"\
1 A cancel 1 -> none\n\
2 C cancel 1 -> none\n\
3 B cancel 1 -> none\n\
4 D cancel 1 -> none\n\
finished 4\n\
";

static ROWS: [Row; 4] = [
    Row {
        name: "order",
        words: "order",
        input: &[FOUR_APPS],
        status: 0,
        text: BY_ORDER,
    },
    Row {
        name: "seed 0",
        words: "seed 0",
        input: &[FOUR_APPS],
        status: 0,
        text: BY_SEED_0,
    },
    Row {
        name: "seed 9",
        words: "seed 9",
        input: &[FOUR_APPS],
        status: 0,
        text: BY_SEED_9,
    },
    Row {
        name: "seed 00000000000000000009",
        words: "seed 00000000000000000009",
        input: &[FOUR_APPS],
        status: 0,
        text: BY_SEED_9,
    },
];

#[test]
fn a_seed_picks(rt: HostRuntime) -> Result<(), Fail> {
    try_rows(&rt, rt.alloc(), STEADY, &ROWS)
}
