//! Generated scenarios run by the words of their numbers, and summed up.
use crate::call::{Outside, Row, STEADY, try_rows};
use std::test::Fail;

/// What each of the numbers tried gives.
pub const ALL_DONE: &[u8] = b"\
events 20000\n\
requests 2900\n\
completed 2900\n\
finished\n\
";

static ROWS: [Row; 2] = [
    Row {
        name: "seven",
        words: "load 7",
        input: &[],
        status: 0,
        text: ALL_DONE,
    },
    Row {
        name: "three",
        words: "load 3",
        input: &[],
        status: 0,
        text: ALL_DONE,
    },
];

#[test]
fn a_generated_run_is_summed_up(rt: HostRuntime) -> Result<(), Fail> {
    try_rows(&rt, rt.alloc(), STEADY, &ROWS)
}

#[test]
fn a_full_sink_keeps_a_front(rt: HostRuntime) -> Result<(), Fail> {
    let row = Row {
        name: "seven",
        words: "load 7",
        input: &[],
        status: 13,
        text: &ALL_DONE[..20],
    };
    try_rows(&rt, rt.alloc(), Outside { room: 20, ..STEADY }, &[row])
}
