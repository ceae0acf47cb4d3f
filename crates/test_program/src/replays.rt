//! Verdicts on traces: a scenario, a line `trace`, and a trace.
use crate::call::{Outside, Row, STEADY, call, joined, try_rows};
use crate::reads::NOTHING;
use crate::requests::KEPT;
use crate::worked::groups;
use std::alloc::Global;
use std::test::Fail;
use test_worked_texts::Worked;
use wdf_base::Memory;

/// A read is cancelled before its callback unmarks it.
pub const CANCELLED_READ: &[u8] = b"\
cpus 1\n\
limit 100\n\
objects 16\n\
device D working\n\
queue Q sequential\n\
default\n\
on EvtIoRead\n\
call m = WdfRequestMarkCancelableEx request\n\
call u = WdfRequestUnmarkCancelable request\n\
if ( u == SUCCESS )\n\
call WdfRequestComplete request SUCCESS\n\
end\n\
end\n\
on EvtRequestCancel\n\
call WdfRequestComplete request CANCELLED\n\
end\n\
end\n\
end\n\
app A\n\
at 0 read D 16\n\
at 0 cancel 1\n\
end\n\
order\n\
picks 0 0 0 1\n\
end\n\
";

/// Its trace up to the cancel.
const UP_TO_CANCEL: &[u8] = b"\
trace\n\
1 A read D.2 16 -> req.4\n\
2 cpu0 start EvtIoRead Q.3 req.4\n\
3 cpu0 call WdfRequestMarkCancelableEx req.4 -> SUCCESS\n\
4 A cancel 1 -> req.4\n\
";

/// The unmarking.
const UNMARKED: &[u8] = b"5 cpu0 call WdfRequestUnmarkCancelable req.4 -> CANCELLED\n";

/// The events after it.
const AFTER_UNMARKING: &[u8] = b"\
6 cpu0 step 10\n\
7 cpu0 end EvtIoRead Q.3 SUCCESS\n\
8 cpu0 start EvtRequestCancel Q.3 req.4\n\
9 cpu0 call WdfRequestComplete req.4 CANCELLED -> SUCCESS\n\
10 cpu0 end EvtRequestCancel Q.3 SUCCESS\n\
11 fw cleanup req.4\n\
12 fw destroy req.4\n\
";

const ENDING: &[u8] = b"finished 12\n";

/// The scenario with its whole trace.
pub const WHOLE: &[&[u8]] = &[
    CANCELLED_READ,
    UP_TO_CANCEL,
    UNMARKED,
    AFTER_UNMARKING,
    ENDING,
];

/// The device of a kept read is to sleep. Its trace without the last line of the wait list.
const ASLEEP: &[u8] = b"\
pnp\n\
at 1 sleep D\n\
end\n\
trace\n\
1 A read D.2 16 -> req.4\n\
2 cpu0 start EvtIoRead Q.3 req.4\n\
3 cpu0 end EvtIoRead Q.3 SUCCESS\n\
4 clock tick 1\n\
5 pnp sleep D.2\n\
6 fw stage D.2 queues_down\n\
stuck 6\n\
req.4 owned\n\
";

static ROWS: [Row; 10] = [
    Row {
        name: "a whole trace",
        words: "replay",
        input: WHOLE,
        status: 0,
        text: b"accepted finished 12\n",
    },
    Row {
        name: "another answer",
        words: "replay",
        input: &[
            CANCELLED_READ,
            UP_TO_CANCEL,
            b"5 cpu0 call WdfRequestUnmarkCancelable req.4 -> SUCCESS\n",
            AFTER_UNMARKING,
            ENDING,
        ],
        status: 6,
        text: b"refused at line 5: NotReady\n",
    },
    Row {
        name: "no ending",
        words: "replay",
        input: &[CANCELLED_READ, UP_TO_CANCEL, UNMARKED, AFTER_UNMARKING],
        status: 6,
        text: b"refused at line 13: Missing\n",
    },
    Row {
        name: "no line `trace`",
        words: "replay",
        input: &[CANCELLED_READ],
        status: 6,
        text: b"refused at line 1: Missing\n",
    },
    Row {
        name: "a line that is none",
        words: "replay",
        input: &[
            CANCELLED_READ,
            UP_TO_CANCEL,
            UNMARKED,
            AFTER_UNMARKING,
            ENDING,
            b"x\n",
        ],
        status: 6,
        text: b"refused at line 14: NotALine\n",
    },
    Row {
        name: "an event after the ending",
        words: "replay",
        input: &[
            CANCELLED_READ,
            UP_TO_CANCEL,
            UNMARKED,
            AFTER_UNMARKING,
            ENDING,
            b"13 fw destroy req.4\n",
        ],
        status: 6,
        text: b"refused at line 14: NotReady\n",
    },
    Row {
        name: "another number of events",
        words: "replay",
        input: &[
            CANCELLED_READ,
            UP_TO_CANCEL,
            UNMARKED,
            AFTER_UNMARKING,
            b"finished 11\n",
        ],
        status: 6,
        text: b"refused at line 13: WrongEnding\n",
    },
    Row {
        name: "a piece of a line",
        words: "replay",
        input: &[
            CANCELLED_READ,
            UP_TO_CANCEL,
            b"5 cpu0 call WdfRequestUnmarkCancelable req.4 -> CANCELLED",
        ],
        status: 6,
        text: b"refused at line 5: NotALine\n",
    },
    Row {
        name: "a stuck run",
        words: "replay",
        input: &[KEPT, ASLEEP, b"D.2 settled waits request req.4\n"],
        status: 0,
        text: b"accepted stuck 6\n",
    },
    Row {
        name: "a wait list without its last line",
        words: "replay",
        input: &[KEPT, ASLEEP],
        status: 6,
        text: b"refused at line 9: Missing\n",
    },
];

#[test]
fn the_first_bad_line_of_a_trace_is_named(rt: HostRuntime) -> Result<(), Fail> {
    try_rows(&rt, rt.alloc(), STEADY, &ROWS)
}

/// A scenario that runs to no event, and what comes after it.
static MARKS: [Row; 9] = [
    Row {
        name: "a line `trace`",
        words: "replay",
        input: &[NOTHING, b"trace\nfinished 0\n"],
        status: 0,
        text: b"accepted finished 0\n",
    },
    Row {
        name: "blanks and a comment beside it",
        words: "replay",
        input: &[NOTHING, b"\t trace \r # a run\nfinished 0\n"],
        status: 0,
        text: b"accepted finished 0\n",
    },
    Row {
        name: "comments and empty lines before it",
        words: "replay",
        input: &[NOTHING, b"# a comment\n\n \ntrace#\nfinished 0\n"],
        status: 0,
        text: b"accepted finished 0\n",
    },
    Row {
        name: "without a line feed there is no trace",
        words: "replay",
        input: &[NOTHING, b"trace"],
        status: 6,
        text: b"refused at line 1: Missing\n",
    },
    Row {
        name: "another token beside it makes another line, which is no line of a scenario",
        words: "replay",
        input: &[NOTHING, b"trace x\ntrace\nfinished 0\n"],
        status: 10,
        text: b"parse refused at line 4: BadLine\n",
    },
    Row {
        name: "a longer word makes another line, which is no line of a scenario",
        words: "replay",
        input: &[NOTHING, b"traces\ntrace\nfinished 0\n"],
        status: 10,
        text: b"parse refused at line 4: BadLine\n",
    },
    Row {
        name: "the first such line counts",
        words: "replay",
        input: &[NOTHING, b"trace\ntrace\nfinished 0\n"],
        status: 6,
        text: b"refused at line 1: NotALine\n",
    },
    Row {
        name: "the scenario is refused before the trace is",
        words: "replay",
        input: &[NOTHING, b"device D\ntrace\nx\n"],
        status: 10,
        text: b"parse refused at line 4: Unclosed\n",
    },
    Row {
        name: "a line of a trace has no blank at its end",
        words: "replay",
        input: &[NOTHING, b"trace\nfinished 0\r\n"],
        status: 6,
        text: b"refused at line 1: NotALine\n",
    },
];

#[test]
fn the_first_line_trace_parts_an_input(rt: HostRuntime) -> Result<(), Fail> {
    try_rows(&rt, rt.alloc(), STEADY, &MARKS)
}

/// Whether an input is accepted.
fn is_accepted(alloc: Global, input: &[u8]) -> Result<bool, Memory> {
    match call(alloc, "replay", input, STEADY) {
        Ok((status, sink)) => Ok(status == 0 && sink.written().starts_with(b"accepted ")),
        Err(memory) => Err(memory),
    }
}

/// Whether the trace of a run is accepted.
fn accepts(alloc: Global, run: &Worked) -> Result<bool, Memory> {
    let texts = [run.scenario.as_bytes(), b"trace\n", run.trace.as_bytes()];
    match joined(alloc, &texts) {
        Ok(input) => is_accepted(alloc, &input),
        Err(memory) => Err(memory),
    }
}

/// The name of the first run whose trace isn't accepted.
fn first_refused(alloc: Global, runs: &'static [Worked]) -> Result<Option<&'static str>, Memory> {
    for run in runs {
        match accepts(alloc, run) {
            Ok(true) => {}
            Ok(false) => return Ok(Some(run.name)),
            Err(memory) => return Err(memory),
        }
    }
    Ok(None)
}

#[test]
fn worked_runs_are_accepted(rt: HostRuntime) -> Result<(), Fail> {
    for runs in groups() {
        assert_eq!(rt; first_refused(rt.alloc(), runs)?, None);
    }
    Ok(())
}

#[test]
fn a_failed_read_is_a_read_fault(rt: HostRuntime) -> Result<(), Fail> {
    let row = Row {
        name: "a trace",
        words: "replay",
        input: WHOLE,
        status: 12,
        text: b"read fault\n",
    };
    let second = Outside {
        read_fails: Some(2),
        piece: 300,
        ..STEADY
    };
    try_rows(&rt, rt.alloc(), second, &[row])
}
