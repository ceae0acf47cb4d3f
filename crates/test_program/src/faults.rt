//! Sources that fail, sinks that fail, and inputs that are too large.
use crate::call::{Outside, Row, STEADY, is_answered, is_row_answered, try_rows};
use crate::loads::ALL_DONE;
use crate::reads::{ONE_READ, ONE_READ_RUN, TWO_READS_AT_ONCE, TWO_READS_AT_ONCE_RUN};
use crate::refusals::USAGE;
use crate::replays::WHOLE;
use crate::requests::{KEPT, KEPT_RUN};
use crate::seeds::{BY_SEED_9, FOUR_APPS};
use std::alloc::Global;
use std::test::Fail;
use wdf_base::Memory;

/// The most bytes that an input may have.
const INPUT_LIMIT: usize = 1_048_576;

static READ_FAULTS: [Row; 3] = [
    Row {
        name: "a run",
        words: "order",
        input: &[ONE_READ],
        status: 12,
        text: b"read fault\n",
    },
    Row {
        name: "a run by a seed",
        words: "seed 9",
        input: &[FOUR_APPS],
        status: 12,
        text: b"read fault\n",
    },
    Row {
        name: "a text",
        words: "check",
        input: &[ONE_READ],
        status: 12,
        text: b"read fault\n",
    },
];

#[test]
fn a_failed_read_is_a_read_fault(rt: HostRuntime) -> Result<(), Fail> {
    let first = Outside {
        read_fails: Some(1),
        ..STEADY
    };
    try_rows(&rt, rt.alloc(), first, &READ_FAULTS)?;
    let after_the_text = Outside {
        read_fails: Some(2),
        piece: 4096,
        ..STEADY
    };
    try_rows(&rt, rt.alloc(), after_the_text, &READ_FAULTS)
}

#[test]
fn a_full_sink_keeps_a_front(rt: HostRuntime) -> Result<(), Fail> {
    let rows: [Row; 2] = [
        Row {
            name: "a run",
            words: "order",
            input: &[ONE_READ],
            status: 13,
            text: &ONE_READ_RUN[..40],
        },
        Row {
            name: "a text",
            words: "check",
            input: &[ONE_READ],
            status: 13,
            text: &ONE_READ[..40],
        },
    ];
    try_rows(&rt, rt.alloc(), Outside { room: 40, ..STEADY }, &rows)
}

static NOT_WRITTEN: [Row; 3] = [
    Row {
        name: "an empty text",
        words: "order",
        input: &[],
        status: 13,
        text: b"",
    },
    Row {
        name: "an empty text",
        words: "check",
        input: &[],
        status: 13,
        text: b"",
    },
    Row {
        name: "no word",
        words: "",
        input: &[],
        status: 13,
        text: b"",
    },
];

#[test]
fn a_refusal_that_is_not_written_is_a_failed_write(rt: HostRuntime) -> Result<(), Fail> {
    try_rows(
        &rt,
        rt.alloc(),
        Outside {
            write_fails: Some(1),
            ..STEADY
        },
        &NOT_WRITTEN,
    )
}

/// What is written in a number of pieces.
struct Pieces {
    row: Row,
    /// How many lines each write has: the traces are short, and each text goes in one piece. `pages` has a long trace.
    writes: &'static [u64],
}

static WRITES: [Pieces; 8] = [
    // Twelve events and the ending.
    Pieces {
        row: Row {
            name: "a run",
            words: "order",
            input: TWO_READS_AT_ONCE,
            status: 0,
            text: TWO_READS_AT_ONCE_RUN,
        },
        writes: &[13],
    },
    // Three events, the ending and a line of the wait list.
    Pieces {
        row: Row {
            name: "a stuck run",
            words: "order",
            input: &[KEPT],
            status: 4,
            text: KEPT_RUN,
        },
        writes: &[5],
    },
    // Four events and the ending.
    Pieces {
        row: Row {
            name: "a run by a seed",
            words: "seed 9",
            input: &[FOUR_APPS],
            status: 0,
            text: BY_SEED_9,
        },
        writes: &[5],
    },
    Pieces {
        row: Row {
            name: "a summary",
            words: "load 3",
            input: &[],
            status: 0,
            text: ALL_DONE,
        },
        writes: &[4],
    },
    Pieces {
        row: Row {
            name: "a text",
            words: "check",
            input: &[ONE_READ],
            status: 0,
            text: ONE_READ,
        },
        writes: &[14],
    },
    Pieces {
        row: Row {
            name: "a verdict",
            words: "replay",
            input: WHOLE,
            status: 0,
            text: b"accepted finished 12\n",
        },
        writes: &[1],
    },
    Pieces {
        row: Row {
            name: "no scene",
            words: "order",
            input: &[b"cpus 1\n"],
            status: 10,
            text: b"parse refused at line 2: BadLine\n",
        },
        writes: &[1],
    },
    Pieces {
        row: Row {
            name: "no word",
            words: "",
            input: &[],
            status: 2,
            text: USAGE,
        },
        writes: &[1],
    },
];

/// The first lines of a text.
fn first_lines(text: &'static [u8], count: u64) -> &'static [u8] {
    let mut left = count;
    for (place, byte) in text.iter().enumerate() {
        if left == 0 {
            return &text[..place];
        }
        if *byte == b'\n' {
            left -= 1;
        }
    }
    text
}

/// The status and the text that are due where the write with this number, from 1 on, fails: the lines of the writes
/// before it, or all where there is no such write.
fn due(pieces: &Pieces, fails: u64) -> (u8, &'static [u8]) {
    let mut number: u64 = 1;
    let mut before: u64 = 0;
    for lines in pieces.writes {
        if number == fails {
            return (13, first_lines(pieces.row.text, before));
        }
        number = number.saturating_add(1);
        before = before.saturating_add(*lines);
    }
    (pieces.row.status, pieces.row.text)
}

/// Lets one write fail. Whether what is written is a front as is due.
fn leaves_front(alloc: Global, pieces: &Pieces, number: u64) -> Result<bool, Memory> {
    let outside = Outside {
        write_fails: Some(number),
        ..STEADY
    };
    is_row_answered(alloc, &pieces.row, outside, due(pieces, number))
}

/// The number of the first of twenty writes that leaves no such front where it fails.
fn first_wrong_write(alloc: Global, pieces: &Pieces) -> Result<Option<u64>, Memory> {
    for number in 1..=20 {
        match leaves_front(alloc, pieces, number) {
            Ok(true) => {}
            Ok(false) => return Ok(Some(number)),
            Err(memory) => return Err(memory),
        }
    }
    Ok(None)
}

#[test]
fn a_failed_write_leaves_a_front(rt: HostRuntime) -> Result<(), Fail> {
    for pieces in &WRITES {
        assert_eq!(rt;
            first_wrong_write(rt.alloc(), pieces)?,
            None,
            "{}",
            pieces.row.name
        );
    }
    Ok(())
}

/// Whether an input with one byte too many is told, and one with as many as there may be is read.
fn is_told(alloc: Global, input: &[u8]) -> Result<bool, Memory> {
    let too_large = (14, b"input too large\n".as_slice());
    let read = (10, b"parse refused at line 1048577: BadLine\n".as_slice());
    match input.split_last() {
        Some((_, front)) => Ok(
            is_answered(alloc, "order", input, STEADY, too_large)?
                && is_answered(alloc, "order", front, STEADY, read)?,
        ),
        None => Ok(false),
    }
}

#[test]
fn an_input_over_the_limit_is_refused(rt: HostRuntime) -> Result<(), Fail> {
    let mut input = Vec::new(rt.alloc());
    input.resize(INPUT_LIMIT + 1, b'\n')?;
    assert!(rt; is_told(rt.alloc(), &input)?);
    Ok(())
}
