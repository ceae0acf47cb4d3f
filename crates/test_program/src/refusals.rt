//! Words that are no form, texts that are no scene, and scenes that have no plan.
use crate::call::{Row, STEADY, is_answered, try_rows};
use crate::reads::NOTHING;
use std::alloc::Global;
use std::test::Fail;
use wdf_base::Memory;

pub const USAGE: &[u8] =
    b"usage: kmdfsim check | order | seed N | run | replay | gen N | load N | idle | stack | lint | watch\n";

static NO_SCENE: [Row; 9] = [
    Row {
        name: "an empty text",
        words: "order",
        input: &[],
        status: 10,
        text: b"parse refused at line 1: BadLine\n",
    },
    Row {
        name: "a foreign mark",
        words: "check",
        input: &[b"cpus 1\nlimit 1$0\n"],
        status: 10,
        text: b"parse refused at line 2 column 8: BadToken\n",
    },
    Row {
        name: "a number of 65 bits",
        words: "check",
        input: &[b"cpus 18446744073709551616\n"],
        status: 10,
        text: b"parse refused at line 1 column 6: NumberTooLarge\n",
    },
    Row {
        name: "an open block",
        words: "check",
        input: &[NOTHING, b"driver\n"],
        status: 10,
        text: b"parse refused at line 4: Unclosed\n",
    },
    Row {
        name: "a foreign byte",
        words: "check",
        input: &[b"\xc8"],
        status: 10,
        text: b"parse refused at line 1: NotAscii\n",
    },
    Row {
        name: "a name of 33 letters",
        words: "order",
        input: &[NOTHING, b"device aaaaaaaaaaaaaaaaaaaaaaaaaaaaaaaaa\n"],
        status: 10,
        text: b"parse refused at line 4 column 8: BadToken\n",
    },
    Row {
        name: "seventeen parentheses",
        words: "order",
        input: &[
            NOTHING,
            b"device D\non EvtDeviceD0Entry\nlog ( ( ( ( ( ( ( ( ( ( ( ( ( ( ( ( ( 1 + 1 ) + 1 ) + 1 ) + 1 ) + 1 ) + 1 ) + 1 ) + 1 ) + 1 ) + 1 ) + 1 ) + 1 ) + 1 ) + 1 ) + 1 ) + 1 ) + 1 )\n",
        ],
        status: 10,
        text: b"parse refused at line 6: BadLine\n",
    },
    Row {
        name: "a third version",
        words: "check",
        input: &[b"version 3\n"],
        status: 10,
        text: b"parse refused at line 1: BadLine\n",
    },
    Row {
        name: "a passive interrupt in version 1",
        words: "check",
        input: &[NOTHING, b"device D\ninterrupt I passive\n"],
        status: 10,
        text: b"parse refused at line 5: BadLine\n",
    },
];

static NO_PLAN: [Row; 7] = [
    Row {
        name: "a device twice",
        words: "check",
        input: &[NOTHING, b"device D\nend\ndevice D\nend\n"],
        status: 11,
        text: b"plan refused at line 6: TwiceNamed first 4\n",
    },
    Row {
        name: "a serialized DPC under a passive device",
        words: "check",
        input: &[
            NOTHING,
            b"class C dpc D\nserialize\non EvtDpcFunc\nend\nend\ndevice D\nlevel passive\nend\n",
        ],
        status: 11,
        text: b"plan refused at line 5: IncompatibleLevel\n",
    },
    Row {
        name: "a DPC class without a parent",
        words: "check",
        input: &[NOTHING, b"class C dpc\non EvtDpcFunc\nend\nend\n"],
        status: 11,
        text: b"plan refused at line 4: NoParent\n",
    },
    Row {
        name: "a queue's callback in a device",
        words: "check",
        input: &[NOTHING, b"device D\non EvtIoRead\nend\nend\n"],
        status: 11,
        text: b"plan refused at line 5: WrongCallback\n",
    },
    Row {
        name: "a variable that nothing assigns",
        words: "check",
        input: &[NOTHING, b"device D\non EvtDeviceD0Entry\nlog x\nend\nend\n"],
        status: 11,
        text: b"plan refused at line 6: UnknownName\n",
    },
    Row {
        name: "nine processors",
        words: "check",
        input: &[b"cpus 9\nlimit 9\nobjects 9\n"],
        status: 11,
        text: b"plan refused at line 1: OverLimit cpus\n",
    },
    Row {
        name: "no event allowed",
        words: "order",
        input: &[b"cpus 1\nlimit 0\nobjects 9\n"],
        status: 11,
        text: b"plan refused at line 2: OverLimit limit\n",
    },
];

#[test]
fn texts_of_no_scene_are_refused(rt: HostRuntime) -> Result<(), Fail> {
    try_rows(&rt, rt.alloc(), STEADY, &NO_SCENE)
}

#[test]
fn scenes_without_a_plan_are_refused(rt: HostRuntime) -> Result<(), Fail> {
    try_rows(&rt, rt.alloc(), STEADY, &NO_PLAN)
}

/// Words of no form.
static NO_FORM: [&str; 14] = [
    "",
    "run",
    "watch",
    "--help",
    "check check",
    "order 1",
    "seed",
    "load",
    "load 1 2",
    "replay 1",
    "seed -1",
    "seed 1 2",
    "seed 18446744073709551616",
    "seed 000000000000000000007",
];

/// The first of these words that don't get the usage line.
fn first_of_some_form(alloc: Global) -> Result<Option<&'static str>, Memory> {
    for words in &NO_FORM {
        match is_answered(alloc, words, b"", STEADY, (2, USAGE)) {
            Ok(true) => {}
            Ok(false) => return Ok(Some(*words)),
            Err(memory) => return Err(memory),
        }
    }
    Ok(None)
}

#[test]
fn words_of_no_form_get_the_usage_line(rt: HostRuntime) -> Result<(), Fail> {
    assert_eq!(rt; first_of_some_form(rt.alloc())?, None);
    Ok(())
}
