//! Runs of apps that read from a device whose queue completes each read.
use crate::call::{Outside, Row, STEADY, try_rows};
use crate::seeds::{BY_SEED_9, FOUR_APPS};
use std::test::Fail;

/// One app reads once.
pub const ONE_READ: &[u8] = b"\
cpus 1\n\
limit 100\n\
objects 16\n\
device D working\n\
queue Q sequential\n\
default\n\
on EvtIoRead\n\
call WdfRequestComplete request SUCCESS\n\
end\n\
end\n\
end\n\
app A\n\
at 0 read D 16\n\
end\n\
";

pub const ONE_READ_RUN: &[u8] = b"\
1 A read D.2 16 -> req.4\n\
2 cpu0 start EvtIoRead Q.3 req.4\n\
3 cpu0 call WdfRequestComplete req.4 SUCCESS -> SUCCESS\n\
4 cpu0 end EvtIoRead Q.3 SUCCESS\n\
5 fw cleanup req.4\n\
6 fw destroy req.4\n\
finished 6\n\
";

/// Up to a hundred events on one processor.
pub const HEAD: &[u8] = b"\
cpus 1\n\
limit 100\n\
objects 16\n\
";

/// A device whose queue completes each read.
pub const COMPLETES: &[u8] = b"\
device D working\n\
queue Q sequential\n\
default\n\
on EvtIoRead\n\
call WdfRequestComplete request SUCCESS\n\
end\n\
end\n\
end\n\
";

/// An app that reads from it once.
const READS: &[u8] = b"\
app A\n\
at 0 read D 16\n\
end\n\
";

/// An app that reads from it twice.
const READS_TWICE: &[u8] = b"\
app A\n\
at 0 read D 16\n\
at 0 read D 16\n\
end\n\
";

/// The app reads twice, and the run takes what comes first.
const TWO_READS: &[&[u8]] = &[HEAD, COMPLETES, READS_TWICE];

const TWO_READS_RUN: &[u8] = b"\
1 A read D.2 16 -> req.4\n\
2 cpu0 start EvtIoRead Q.3 req.4\n\
3 cpu0 call WdfRequestComplete req.4 SUCCESS -> SUCCESS\n\
4 cpu0 end EvtIoRead Q.3 SUCCESS\n\
5 fw cleanup req.4\n\
6 fw destroy req.4\n\
7 A read D.2 16 -> req.5\n\
8 cpu0 start EvtIoRead Q.3 req.5\n\
9 cpu0 call WdfRequestComplete req.5 SUCCESS -> SUCCESS\n\
10 cpu0 end EvtIoRead Q.3 SUCCESS\n\
11 fw cleanup req.5\n\
12 fw destroy req.5\n\
finished 12\n\
";

/// The same, and the second read is picked before the first one is presented.
pub const TWO_READS_AT_ONCE: &[&[u8]] = &[HEAD, COMPLETES, READS_TWICE, b"order\npicks 0 1\nend\n"];

pub const TWO_READS_AT_ONCE_RUN: &[u8] = b"\
1 A read D.2 16 -> req.4\n\
2 A read D.2 16 -> req.5\n\
3 cpu0 start EvtIoRead Q.3 req.4\n\
4 cpu0 call WdfRequestComplete req.4 SUCCESS -> SUCCESS\n\
5 cpu0 end EvtIoRead Q.3 SUCCESS\n\
6 cpu0 start EvtIoRead Q.3 req.5\n\
7 cpu0 call WdfRequestComplete req.5 SUCCESS -> SUCCESS\n\
8 cpu0 end EvtIoRead Q.3 SUCCESS\n\
9 fw cleanup req.4\n\
10 fw cleanup req.5\n\
11 fw destroy req.4\n\
12 fw destroy req.5\n\
finished 12\n\
";

/// The run may have four events.
const FOUR_EVENTS: &[&[u8]] = &[b"cpus 1\nlimit 4\nobjects 16\n", COMPLETES, READS];

const FOUR_EVENTS_RUN: &[u8] = b"\
1 A read D.2 16 -> req.4\n\
2 cpu0 start EvtIoRead Q.3 req.4\n\
3 cpu0 call WdfRequestComplete req.4 SUCCESS -> SUCCESS\n\
4 cpu0 end EvtIoRead Q.3 SUCCESS\n\
limit 4\n\
";

/// No app and no device.
pub const NOTHING: &[u8] = b"\
cpus 1\n\
limit 9\n\
objects 9\n\
";

/// One read on two processors.
const TWO_PROCESSORS: &[&[u8]] = &[b"cpus 2\nlimit 100\nobjects 16\n", COMPLETES, READS];

/// The callback prints the length before it completes the read.
const LOGS_FIRST: &[u8] = b"\
cpus 1\n\
limit 100\n\
objects 16\n\
device D working\n\
queue Q sequential\n\
default\n\
on EvtIoRead\n\
log length\n\
call WdfRequestComplete request SUCCESS\n\
end\n\
end\n\
end\n\
app A\n\
at 0 read D 16\n\
end\n\
";

const LOGS_FIRST_RUN: &[u8] = b"\
1 A read D.2 16 -> req.4\n\
2 cpu0 start EvtIoRead Q.3 req.4\n\
3 cpu0 log 16\n\
4 cpu0 call WdfRequestComplete req.4 SUCCESS -> SUCCESS\n\
5 cpu0 end EvtIoRead Q.3 SUCCESS\n\
6 fw cleanup req.4\n\
7 fw destroy req.4\n\
finished 7\n\
";

static PICKED: [Row; 7] = [
    Row {
        name: "one read",
        words: "order",
        input: &[ONE_READ],
        status: 0,
        text: ONE_READ_RUN,
    },
    Row {
        name: "two reads",
        words: "order",
        input: TWO_READS,
        status: 0,
        text: TWO_READS_RUN,
    },
    Row {
        name: "picks",
        words: "order",
        input: TWO_READS_AT_ONCE,
        status: 0,
        text: TWO_READS_AT_ONCE_RUN,
    },
    Row {
        name: "four events",
        words: "order",
        input: FOUR_EVENTS,
        status: 5,
        text: FOUR_EVENTS_RUN,
    },
    Row {
        name: "two processors",
        words: "order",
        input: TWO_PROCESSORS,
        status: 0,
        text: ONE_READ_RUN,
    },
    Row {
        name: "a log",
        words: "order",
        input: &[LOGS_FIRST],
        status: 0,
        text: LOGS_FIRST_RUN,
    },
    Row {
        name: "nothing",
        words: "order",
        input: &[NOTHING],
        status: 0,
        text: b"finished 0\n",
    },
];

#[test]
fn a_run_is_the_picked_one(rt: HostRuntime) -> Result<(), Fail> {
    try_rows(&rt, rt.alloc(), STEADY, &PICKED)
}

static BY_BYTES: [Row; 2] = [
    Row {
        name: "one read",
        words: "order",
        input: &[ONE_READ],
        status: 0,
        text: ONE_READ_RUN,
    },
    Row {
        name: "four apps by a seed",
        words: "seed 9",
        input: &[FOUR_APPS],
        status: 0,
        text: BY_SEED_9,
    },
];

#[test]
fn a_text_may_come_byte_by_byte(rt: HostRuntime) -> Result<(), Fail> {
    try_rows(&rt, rt.alloc(), Outside { piece: 1, ..STEADY }, &BY_BYTES)
}
