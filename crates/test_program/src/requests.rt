//! Requests: what the framework completes itself, and what the driver may do with one.
use crate::call::{Row, STEADY, try_rows};
use crate::reads::{COMPLETES, HEAD};
use std::test::Fail;

/// A read of no bytes, which the queue doesn't ask for.
const EMPTY_READ: &[&[u8]] = &[HEAD, COMPLETES, b"app A\nat 0 read D 0\nend\n"];

const EMPTY_READ_RUN: &[u8] = b"\
1 A read D.2 0 -> req.4\n\
2 fw complete req.4 SUCCESS\n\
3 fw cleanup req.4\n\
4 fw destroy req.4\n\
finished 4\n\
";

/// A read of no bytes, and a queue with `zero`.
const EMPTY_READ_ASKED: &[u8] = b"\
cpus 1\n\
limit 100\n\
objects 16\n\
device D working\n\
queue Q sequential\n\
default\n\
zero\n\
on EvtIoRead\n\
call WdfRequestComplete request SUCCESS\n\
end\n\
end\n\
end\n\
app A\n\
at 0 read D 0\n\
end\n\
";

const EMPTY_READ_ASKED_RUN: &[u8] = b"\
1 A read D.2 0 -> req.4\n\
2 cpu0 start EvtIoRead Q.3 req.4\n\
3 cpu0 call WdfRequestComplete req.4 SUCCESS -> SUCCESS\n\
4 cpu0 end EvtIoRead Q.3 SUCCESS\n\
5 fw cleanup req.4\n\
6 fw destroy req.4\n\
finished 6\n\
";

/// A read waits in a manual queue and is cancelled there.
const MANUAL: &[u8] = b"\
cpus 1\n\
limit 100\n\
objects 16\n\
device D working\n\
queue Q manual\n\
default\n\
end\n\
end\n\
app A\n\
at 0 read D 16\n\
at 0 cancel 1\n\
end\n\
";

const MANUAL_RUN: &[u8] = b"\
1 A read D.2 16 -> req.4\n\
2 A cancel 1 -> req.4\n\
3 fw complete req.4 CANCELLED\n\
4 fw cleanup req.4\n\
5 fw destroy req.4\n\
finished 5\n\
";

/// The second of two reads is cancelled while it waits.
const CANCELLED_IN_LINE: &[u8] = b"\
cpus 1\n\
limit 100\n\
objects 16\n\
device D working\n\
queue Q sequential\n\
default\n\
on EvtIoRead\n\
spend 1\n\
call WdfRequestComplete request SUCCESS\n\
end\n\
end\n\
end\n\
app A\n\
at 0 read D 16\n\
at 0 read D 16\n\
at 0 cancel 2\n\
end\n\
";

const CANCELLED_IN_LINE_RUN: &[u8] = b"\
1 A read D.2 16 -> req.4\n\
2 cpu0 start EvtIoRead Q.3 req.4\n\
3 cpu0 spend 1\n\
4 A read D.2 16 -> req.5\n\
5 A cancel 2 -> req.5\n\
6 fw complete req.5 CANCELLED\n\
7 fw cleanup req.5\n\
8 fw destroy req.5\n\
9 clock tick 1\n\
10 cpu0 call WdfRequestComplete req.4 SUCCESS -> SUCCESS\n\
11 cpu0 end EvtIoRead Q.3 SUCCESS\n\
12 fw cleanup req.4\n\
13 fw destroy req.4\n\
finished 13\n\
";

/// A request is forwarded to a queue that is drained.
const DRAINED: &[u8] = b"\
cpus 1\n\
limit 100\n\
objects 16\n\
device D working\n\
queue R sequential\n\
default\n\
on EvtIoRead\n\
call WdfIoQueueDrain M\n\
call f = WdfRequestForwardToIoQueue request M\n\
call WdfRequestComplete request f\n\
end\n\
end\n\
queue M manual\n\
on EvtIoQueueState\n\
call r = WdfIoQueueRetrieveNextRequest self\n\
call x = WdfIoQueueRetrieveNextRequest self\n\
call WdfRequestComplete r SUCCESS\n\
end\n\
end\n\
end\n\
app A\n\
at 0 read D 16\n\
end\n\
";

const DRAINED_RUN: &[u8] = b"\
1 A read D.2 16 -> req.5\n\
2 cpu0 start EvtIoRead R.3 req.5\n\
3 cpu0 call WdfIoQueueDrain M.4 -> SUCCESS\n\
4 cpu0 call WdfRequestForwardToIoQueue req.5 M.4 -> WDF_BUSY\n\
5 cpu0 call WdfRequestComplete req.5 WDF_BUSY -> SUCCESS\n\
6 cpu0 end EvtIoRead R.3 SUCCESS\n\
7 fw cleanup req.5\n\
8 fw destroy req.5\n\
finished 8\n\
";

/// The callback completes its request twice.
pub const COMPLETED_TWICE: &[u8] = b"\
cpus 1\n\
limit 100\n\
objects 16\n\
device D working\n\
queue Q sequential\n\
default\n\
on EvtIoRead\n\
call WdfRequestComplete request SUCCESS\n\
call WdfRequestComplete request SUCCESS\n\
end\n\
end\n\
end\n\
app A\n\
at 0 read D 16\n\
end\n\
";

const COMPLETED_TWICE_RUN: &[u8] = b"\
1 A read D.2 16 -> req.4\n\
2 cpu0 start EvtIoRead Q.3 req.4\n\
3 cpu0 call WdfRequestComplete req.4 SUCCESS -> SUCCESS\n\
4 cpu0 fault NotOwned 9\n\
fault 4\n\
";

/// The same, and the request is cleaned up in between.
const COMPLETED_AND_CLEANED: &[&[u8]] = &[COMPLETED_TWICE, b"order\npicks 0 0 0 1\nend\n"];

const COMPLETED_AND_CLEANED_RUN: &[u8] = b"\
1 A read D.2 16 -> req.4\n\
2 cpu0 start EvtIoRead Q.3 req.4\n\
3 cpu0 call WdfRequestComplete req.4 SUCCESS -> SUCCESS\n\
4 fw cleanup req.4\n\
5 cpu0 fault StaleHandle 9\n\
fault 5\n\
";

/// The driver keeps the request for good.
pub const KEPT: &[u8] = b"\
cpus 1\n\
limit 100\n\
objects 16\n\
device D working\n\
queue Q sequential\n\
default\n\
on EvtIoRead\n\
end\n\
end\n\
end\n\
app A\n\
at 0 read D 16\n\
end\n\
";

pub const KEPT_RUN: &[u8] = b"\
1 A read D.2 16 -> req.4\n\
2 cpu0 start EvtIoRead Q.3 req.4\n\
3 cpu0 end EvtIoRead Q.3 SUCCESS\n\
stuck 3\n\
req.4 owned\n\
";

static ROWS: [Row; 8] = [
    Row {
        name: "a read of no bytes",
        words: "order",
        input: EMPTY_READ,
        status: 0,
        text: EMPTY_READ_RUN,
    },
    Row {
        name: "a read of no bytes that is asked for",
        words: "order",
        input: &[EMPTY_READ_ASKED],
        status: 0,
        text: EMPTY_READ_ASKED_RUN,
    },
    Row {
        name: "cancelled in a manual queue",
        words: "order",
        input: &[MANUAL],
        status: 0,
        text: MANUAL_RUN,
    },
    Row {
        name: "cancelled in line",
        words: "order",
        input: &[CANCELLED_IN_LINE],
        status: 0,
        text: CANCELLED_IN_LINE_RUN,
    },
    Row {
        name: "forwarded to a drained queue",
        words: "order",
        input: &[DRAINED],
        status: 0,
        text: DRAINED_RUN,
    },
    Row {
        name: "completed twice",
        words: "order",
        input: &[COMPLETED_TWICE],
        status: 3,
        text: COMPLETED_TWICE_RUN,
    },
    Row {
        name: "completed after its cleanup",
        words: "order",
        input: COMPLETED_AND_CLEANED,
        status: 3,
        text: COMPLETED_AND_CLEANED_RUN,
    },
    Row {
        name: "kept for good",
        words: "order",
        input: &[KEPT],
        status: 4,
        text: KEPT_RUN,
    },
];

#[test]
fn requests_run_as_worked(rt: HostRuntime) -> Result<(), Fail> {
    try_rows(&rt, rt.alloc(), STEADY, &ROWS)
}
