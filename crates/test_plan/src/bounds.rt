use crate::answers::{Answer, answered};
use std::alloc::Global;
use wdf_base::Memory;
use wdf_plan::{Limit, PlanRefusal};

/// A number within its bound, and the same past it.
struct Bound {
    limit: Limit,
    /// The line of the number.
    line: u32,
    /// What comes before it.
    front: &'static str,
    within: &'static str,
    past: &'static str,
    /// What comes after it.
    back: &'static str,
}

static NUMBERS: [Bound; 24] = [
    Bound {
        limit: Limit::Cpus,
        line: 1,
        front: "cpus ",
        within: "1",
        past: "0",
        back: "\nlimit 9\nobjects 9\n",
    },
    Bound {
        limit: Limit::Cpus,
        line: 1,
        front: "cpus ",
        within: "8",
        past: "9",
        back: "\nlimit 9\nobjects 9\n",
    },
    Bound {
        limit: Limit::Limit,
        line: 2,
        front: "cpus 1\nlimit ",
        within: "1",
        past: "0",
        back: "\nobjects 9\n",
    },
    Bound {
        limit: Limit::Limit,
        line: 2,
        front: "cpus 1\nlimit ",
        within: "200000",
        past: "200001",
        back: "\nobjects 9\n",
    },
    Bound {
        limit: Limit::Objects,
        line: 3,
        front: "cpus 1\nlimit 9\nobjects ",
        within: "1",
        past: "0",
        back: "\n",
    },
    Bound {
        limit: Limit::Objects,
        line: 3,
        front: "cpus 1\nlimit 9\nobjects ",
        within: "4096",
        past: "4097",
        back: "\n",
    },
    // The driver object, a device and a queue count, and no class, register or app does.
    Bound {
        limit: Limit::Objects,
        line: 3,
        front: "cpus 1\nlimit 9\nobjects ",
        within: "3",
        past: "2",
        back: "\ndevice D\nregister R 0\nqueue Q manual\nend\nend\nclass C object\nend\napp A\nend\n",
    },
    Bound {
        limit: Limit::Level,
        line: 5,
        front: "cpus 1\nlimit 9\nobjects 9\ndevice D\ninterrupt I ",
        within: "3",
        past: "2",
        back: "\non EvtInterruptIsr\nend\nend\nend\n",
    },
    Bound {
        limit: Limit::Level,
        line: 5,
        front: "cpus 1\nlimit 9\nobjects 9\ndevice D\ninterrupt I ",
        within: "12",
        past: "13",
        back: "\non EvtInterruptIsr\nend\nend\nend\n",
    },
    // A passive interrupt has no number.
    Bound {
        limit: Limit::Level,
        line: 6,
        front: "version 2\ncpus 1\nlimit 9\nobjects 9\ndevice D\ninterrupt I ",
        within: "passive",
        past: "0",
        back: "\non EvtInterruptIsr\nend\nend\nend\n",
    },
    Bound {
        limit: Limit::Parallel,
        line: 5,
        front: "cpus 1\nlimit 9\nobjects 9\ndevice D\nqueue Q parallel ",
        within: "1",
        past: "0",
        back: "\nend\nend\n",
    },
    Bound {
        limit: Limit::Parallel,
        line: 5,
        front: "cpus 1\nlimit 9\nobjects 9\ndevice D\nqueue Q parallel ",
        within: "1024",
        past: "1025",
        back: "\nend\nend\n",
    },
    Bound {
        limit: Limit::Depth,
        line: 5,
        front: "cpus 1\nlimit 9\nobjects 9\ndevice D\ntarget T 0 SUCCESS ",
        within: "1",
        past: "0",
        back: "\non EvtRequestCompletion\nend\nend\nend\n",
    },
    Bound {
        limit: Limit::Depth,
        line: 5,
        front: "cpus 1\nlimit 9\nobjects 9\ndevice D\ntarget T 0 SUCCESS ",
        within: "256",
        past: "257",
        back: "\non EvtRequestCompletion\nend\nend\nend\n",
    },
    Bound {
        limit: Limit::Ticks,
        line: 5,
        front: "cpus 1\nlimit 9\nobjects 9\ndevice D\ntarget T ",
        within: "1000000",
        past: "1000001",
        back: " SUCCESS 1\non EvtRequestCompletion\nend\nend\nend\n",
    },
    Bound {
        limit: Limit::Ticks,
        line: 5,
        front: "cpus 1\nlimit 9\nobjects 9\nclass C timer D\nperiod ",
        within: "1000000",
        past: "1000001",
        back: "\non EvtTimerFunc\nend\nend\ndevice D\nend\n",
    },
    Bound {
        limit: Limit::Ticks,
        line: 6,
        front: "cpus 1\nlimit 9\nobjects 9\ndevice D\nregister R 0\nwhen read R set R 1 after ",
        within: "1000000",
        past: "1000001",
        back: "\nend\n",
    },
    Bound {
        limit: Limit::Ticks,
        line: 6,
        front: "cpus 1\nlimit 9\nobjects 9\ndevice D\nregister R 0\nat ",
        within: "1000000",
        past: "1000001",
        back: " set R 1\nend\n",
    },
    Bound {
        limit: Limit::Ticks,
        line: 7,
        front: "cpus 1\nlimit 9\nobjects 9\ndevice D\nend\napp A\nat ",
        within: "1000000",
        past: "1000001",
        back: " read D 1\nend\n",
    },
    Bound {
        limit: Limit::Ticks,
        line: 7,
        front: "cpus 1\nlimit 9\nobjects 9\ndevice D\nend\napp A\nat ",
        within: "1000000",
        past: "1000001",
        back: " write D 1\nend\n",
    },
    Bound {
        limit: Limit::Ticks,
        line: 7,
        front: "cpus 1\nlimit 9\nobjects 9\ndevice D\nend\napp A\nat ",
        within: "1000000",
        past: "1000001",
        back: " control D 5 1\nend\n",
    },
    Bound {
        limit: Limit::Ticks,
        line: 7,
        front: "cpus 1\nlimit 9\nobjects 9\ndevice D\nend\napp A\nat ",
        within: "1000000",
        past: "1000001",
        back: " cancel 1\nend\n",
    },
    Bound {
        limit: Limit::Ticks,
        line: 7,
        front: "cpus 1\nlimit 9\nobjects 9\ndevice D\nend\npnp\nat ",
        within: "1000000",
        past: "1000001",
        back: " start D\nend\n",
    },
    // Of several limits the first is told.
    Bound {
        limit: Limit::Depth,
        line: 5,
        front: "cpus 1\nlimit 9\nobjects 9\ndevice D\ntarget T ",
        within: "0 SUCCESS 1",
        past: "1000001 SUCCESS 257",
        back: "\non EvtRequestCompletion\nend\nend\nend\n",
    },
];

/// Lines that may come so often, and one more.
struct Many {
    limit: Limit,
    /// What comes before them, after the first three lines.
    front: &'static str,
    /// The lines, before and after their number.
    before: &'static str,
    after: &'static str,
    /// How often they may come.
    bound: u32,
    /// What is one too many after them, and its line.
    more: &'static str,
    line: u32,
    back: &'static str,
}

static LINES: [Many; 8] = [
    Many {
        limit: Limit::Devices,
        front: "",
        before: "device D",
        after: "\nend\n",
        bound: 8,
        more: "device E\nend\n",
        line: 20,
        back: "",
    },
    Many {
        limit: Limit::Apps,
        front: "",
        before: "app A",
        after: "\nend\n",
        bound: 256,
        more: "app B\nend\n",
        line: 516,
        back: "",
    },
    Many {
        limit: Limit::Registers,
        front: "device D\nregister S 0\nend\ndevice E\n",
        before: "register R",
        after: " 0\n",
        bound: 63,
        more: "register T 0\n",
        line: 71,
        back: "end\n",
    },
    Many {
        limit: Limit::Classes,
        front: "",
        before: "class C",
        after: " object\nend\n",
        bound: 256,
        more: "class K dpc D\non EvtDpcFunc\nend\nend\n",
        line: 516,
        back: "device D\nend\n",
    },
    Many {
        limit: Limit::Variables,
        front: "device D\non EvtDeviceD0Exit\nlet y = 1\nend\non EvtDeviceD0Entry\n",
        before: "let x",
        after: " = 1\n",
        bound: 16,
        more: "let x0 = 2\ncall y = GetContext D 0\n",
        line: 26,
        back: "end\nend\n",
    },
    // An `else` and an `end` are no statements.
    Many {
        limit: Limit::Statements,
        front: "device D\non EvtDeviceD0Entry\nif 1\nelse\nend\nend\non EvtDeviceD0Exit\n",
        before: "spend ",
        after: "\n",
        bound: 4095,
        more: "log 1\n",
        line: 4106,
        back: "end\nend\n",
    },
    Many {
        limit: Limit::Posts,
        front: "device D\nregister R 0\nat 0 set R 1\nend\npnp\nat 0 start D\nend\napp A\n",
        before: "at 0 cancel ",
        after: "\n",
        bound: 4094,
        more: "at 0 read D 1\n",
        line: 4106,
        back: "end\n",
    },
    Many {
        limit: Limit::Picks,
        front: "order\n",
        before: "picks 0 0 0 0 0 0 0 0 0 0 0 0 0 0 0 0 0 0 0 ",
        after: "\n",
        bound: 10_000,
        more: "picks 0\n",
        line: 10_005,
        back: "end\n",
    },
];

fn refused(line: u32, limit: Limit) -> Answer {
    Answer::Refused(PlanRefusal::OverLimit { line, limit })
}

/// Three texts in a row.
fn joined(alloc: Global, front: &str, middle: &str, back: &str) -> Result<String, Memory> {
    let mut text = String::new(alloc);
    text.push_str(front)?;
    text.push_str(middle)?;
    text.push_str(back)?;
    Ok(text)
}

fn push_number(text: &mut String, number: u32) -> Result<(), Memory> {
    let mut buffer = itoa::Buffer::new();
    text.push_str(buffer.format(number))?;
    Ok(())
}

/// The lines as often as they may come.
fn push_lines(text: &mut String, many: &Many) -> Result<(), Memory> {
    for number in 0..many.bound {
        text.push_str(many.before)?;
        push_number(text, number)?;
        text.push_str(many.after)?;
    }
    Ok(())
}

/// The scenario with the lines as often as they may come, and this after them.
fn repeated(alloc: Global, many: &Many, more: &str) -> Result<String, Memory> {
    let mut text = String::new(alloc);
    text.push_str("cpus 1\nlimit 9\nobjects 99\n")?;
    text.push_str(many.front)?;
    push_lines(&mut text, many)?;
    text.push_str(more)?;
    text.push_str(many.back)?;
    Ok(text)
}

fn answer_of_number(alloc: Global, front: &str, number: &str, back: &str) -> Option<Answer> {
    let text = joined(alloc, front, number, back).ok()?;
    Some(answered(alloc, text.as_bytes()))
}

fn answer_of_lines(alloc: Global, many: &Many, more: &str) -> Option<Answer> {
    let text = repeated(alloc, many, more).ok()?;
    Some(answered(alloc, text.as_bytes()))
}

/// Whether there is a plan with the number within its bound, and none with the one past it.
fn bounds_number(alloc: Global, bound: &Bound) -> bool {
    let past = Some(refused(bound.line, bound.limit));
    answer_of_number(alloc, bound.front, bound.within, bound.back) == Some(Answer::Resolved)
        && answer_of_number(alloc, bound.front, bound.past, bound.back) == past
}

/// Whether there is a plan with the lines as often as they may come, and none with one more.
fn bounds_lines(alloc: Global, many: &Many) -> bool {
    let past = Some(refused(many.line, many.limit));
    answer_of_lines(alloc, many, "") == Some(Answer::Resolved)
        && answer_of_lines(alloc, many, many.more) == past
}

#[test]
fn numbers_and_lines_have_bounds(rt: HostRuntime) {
    for bound in &NUMBERS {
        assert!(rt;
            bounds_number(rt.alloc(), bound),
            "{:?} {:?}",
            bound.front,
            bound.past
        );
    }
    for many in &LINES {
        assert!(rt; bounds_lines(rt.alloc(), many), "{:?}", many.before);
    }
}
