//! `check` writes a scenario in canonical form.
use crate::call::{Row, STEADY, is_answered, try_rows};
use crate::processors::PASSIVE;
use crate::reads::ONE_READ;
use std::test::Fail;
use test_worked_texts::serial;

/// The scenario of one read with comments, blanks, empty lines and CR.
const ADORNED_READ: &[u8] = b"\
# a comment\n\
\n\
\t  cpus  1 \r# cpus 1\n\
\n\
\t  limit  100 \r# limit 100\n\
\n\
\t  objects  16 \r# objects 16\n\
\n\
\t  device  D  working \r# device D working\n\
\n\
\t  queue  Q  sequential \r# queue Q sequential\n\
\n\
\t  default \r# default\n\
\n\
\t  on  EvtIoRead \r# on EvtIoRead\n\
\n\
\t  call  WdfRequestComplete  request  SUCCESS \r# call WdfRequestComplete request SUCCESS\n\
\n\
\t  end \r# end\n\
\n\
\t  end \r# end\n\
\n\
\t  end \r# end\n\
\n\
\t  app  A \r# app A\n\
\n\
\t  at  0  read  D  16 \r# at 0 read D 16\n\
\n\
\t  end \r# end\n\
\n\
";

/// As deep as an expression may nest.
const SIXTEEN_PARENTHESES: &[u8] = b"\
cpus 1\n\
limit 9\n\
objects 9\n\
device D\n\
on EvtDeviceD0Entry\n\
log ( ( ( ( ( ( ( ( ( ( ( ( ( ( ( ( 1 + 1 ) + 1 ) + 1 ) + 1 ) + 1 ) + 1 ) + 1 ) + 1 ) + 1 ) + 1 ) + 1 ) + 1 ) + 1 ) + 1 ) + 1 ) + 1 )\n\
end\n\
end\n\
";

static CANONICAL: [Row; 3] = [
    Row {
        name: "one read",
        words: "check",
        input: &[ONE_READ],
        status: 0,
        text: ONE_READ,
    },
    Row {
        name: "sixteen parentheses",
        words: "check",
        input: &[SIXTEEN_PARENTHESES],
        status: 0,
        text: SIXTEEN_PARENTHESES,
    },
    Row {
        name: "a passive interrupt",
        words: "check",
        input: &[PASSIVE],
        status: 0,
        text: PASSIVE,
    },
];

#[test]
fn a_canonical_text_stays(rt: HostRuntime) -> Result<(), Fail> {
    try_rows(&rt, rt.alloc(), STEADY, &CANONICAL)?;
    let port = serial::RUNS[0].scenario.as_bytes();
    assert!(rt;
        is_answered(rt.alloc(), "check", port, STEADY, (0, port))?,
        "a serial port"
    );
    Ok(())
}

#[test]
fn comments_and_indents_go(rt: HostRuntime) -> Result<(), Fail> {
    let rows: [Row; 1] = [Row {
        name: "one read",
        words: "check",
        input: &[ADORNED_READ],
        status: 0,
        text: ONE_READ,
    }];
    try_rows(&rt, rt.alloc(), STEADY, &rows)
}
