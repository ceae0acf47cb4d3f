//! What `lint` finds in scripts.
use crate::call::{Row, STEADY, try_rows};
use crate::refusals::USAGE;
use crate::replays::CANCELLED_READ;
use crate::requests::COMPLETED_TWICE;
use std::test::Fail;

const UNTESTED: &[u8] = b"\
cpus 1\n\
limit 100\n\
objects 16\n\
device D working\n\
queue Q sequential\n\
default\n\
on EvtIoRead\n\
call m = WdfRequestMarkCancelableEx request\n\
call u = WdfRequestUnmarkCancelable request\n\
call WdfRequestComplete request SUCCESS\n\
end\n\
on EvtRequestCancel\n\
call WdfRequestComplete request CANCELLED\n\
end\n\
end\n\
end\n\
app A\n\
at 0 read D 16\n\
at 0 cancel 1\n\
end\n\
order\n\
picks 0 0 0 1\n\
end\n\
";

static ROWS: [Row; 6] = [
    Row {
        name: "a driver that looks at what its unmark answers",
        words: "lint",
        input: &[CANCELLED_READ],
        status: 0,
        text: b"clean\n",
    },
    Row {
        name: "one that does not",
        words: "lint",
        input: &[UNTESTED],
        status: 7,
        text: b"line 10 rule 4 path 8 9 10\n",
    },
    Row {
        name: "one that completes twice",
        words: "lint",
        input: &[COMPLETED_TWICE],
        status: 7,
        text: b"line 9 rule 4 path 8 9\n",
    },
    Row {
        name: "an empty text",
        words: "lint",
        input: &[],
        status: 10,
        text: b"parse refused at line 1: BadLine\n",
    },
    Row {
        name: "a name that stands for nothing",
        words: "lint",
        input: &[b"cpus 1\nlimit 9\nobjects 9\ndevice D\non EvtDeviceD0Entry\nlog x\nend\nend\n"],
        status: 11,
        text: b"plan refused at line 6: UnknownName\n",
    },
    Row {
        name: "a number after the word",
        words: "lint 1",
        input: &[CANCELLED_READ],
        status: 2,
        text: USAGE,
    },
];

#[test]
fn scripts_are_checked(rt: HostRuntime) -> Result<(), Fail> {
    try_rows(&rt, rt.alloc(), STEADY, &ROWS)
}
