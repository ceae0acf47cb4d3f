use crate::answers::Answer::{Refused, Resolved};
use crate::answers::{Answer, answered};
use std::alloc::Global;
use wdf_plan::Limit;
use wdf_plan::PlanRefusal::{
    IncompatibleLevel, NoParent, OverLimit, TwiceNamed, UnknownName, WrongCallback,
};

/// Whole texts.
static TEXTS: [(&str, Answer); 7] = [
    (
        "cpus 1\nlimit 9\nobjects 9\ndevice D\nend\ndevice D\nend\n",
        Refused(TwiceNamed { line: 6, first: 4 }),
    ),
    (
        "cpus 1\nlimit 9\nobjects 9\nclass C dpc D\nserialize\non EvtDpcFunc\nend\nend\ndevice D\nlevel passive\nend\n",
        Refused(IncompatibleLevel { line: 5 }),
    ),
    (
        "cpus 1\nlimit 9\nobjects 9\nclass C dpc\non EvtDpcFunc\nend\nend\n",
        Refused(NoParent { line: 4 }),
    ),
    (
        "cpus 1\nlimit 9\nobjects 9\ndevice D\non EvtIoRead\nend\nend\n",
        Refused(WrongCallback { line: 5 }),
    ),
    (
        "cpus 1\nlimit 9\nobjects 9\ndevice D\non EvtDeviceD0Entry\nlog x\nend\nend\n",
        Refused(UnknownName { line: 6 }),
    ),
    (
        "cpus 9\nlimit 9\nobjects 9\n",
        Refused(OverLimit {
            line: 1,
            limit: Limit::Cpus,
        }),
    ),
    // Lines are counted as the text has them.
    (
        "# a comment\n\ncpus 1\nlimit 9\nobjects 9\n\ndevice D # one\nend\n\ndevice D\nend\n",
        Refused(TwiceNamed { line: 10, first: 7 }),
    ),
];

/// What follows the first three lines: names that stand for nothing, or for something.
static NAMES: [(&str, Answer); 17] = [
    (
        "class T dpc X\non EvtDpcFunc\nend\nend\n",
        Refused(UnknownName { line: 4 }),
    ),
    (
        "class L spinlock\nend\ndevice D\non EvtDeviceD0Entry\ncall l = WdfWaitLockCreate L device\nend\nend\n",
        Refused(UnknownName { line: 8 }),
    ),
    (
        "class L spinlock\nend\ndevice D\non EvtDeviceD0Entry\ncall l = WdfSpinLockCreate L device\nend\nend\n",
        Resolved,
    ),
    (
        "device D\nregister R 0\nend\ndevice E\nregister S 0\nwhen write R set S 1 after 0\nend\n",
        Refused(UnknownName { line: 9 }),
    ),
    (
        "device D\nregister R 0\nend\ndevice E\nregister S 0\nwhen write S set R 1 after 0\nend\n",
        Refused(UnknownName { line: 9 }),
    ),
    (
        "device D\nregister R 0\nend\ndevice E\nat 0 set R 1\nend\n",
        Refused(UnknownName { line: 8 }),
    ),
    (
        "device D\ninterrupt I 3\non EvtInterruptIsr\nend\nend\nend\ndevice E\nat 0 raise I\nend\n",
        Refused(UnknownName { line: 11 }),
    ),
    // A callback reads and writes the registers of each device.
    (
        "device D\nregister R 0\nend\ndevice E\non EvtDeviceD0Entry\nget x = R\nput R x\nend\nend\n",
        Resolved,
    ),
    (
        "device D\non EvtDeviceD0Entry\nget x = D\nend\nend\n",
        Refused(UnknownName { line: 6 }),
    ),
    // A variable is its callback's, from the first line on.
    (
        "device D\non EvtDeviceD0Entry\nlet x = 1\nend\non EvtDeviceD0Exit\nlog x\nend\nend\n",
        Refused(UnknownName { line: 9 }),
    ),
    (
        "device D\non EvtDeviceD0Entry\nlog x\nif 1\nlet x = 1\nend\nend\nend\n",
        Resolved,
    ),
    (
        "device D\nregister R 0\non EvtDeviceD0Entry\nlog R\nend\nend\n",
        Refused(UnknownName { line: 7 }),
    ),
    (
        "device D\non EvtDeviceD0Entry\nlog (D == Q)\nend\nqueue Q manual\nend\nend\n",
        Resolved,
    ),
    (
        "app A\nat 0 read D 1\nend\n",
        Refused(UnknownName { line: 5 }),
    ),
    (
        "app A\nat 0 read Q 1\nend\ndevice D\nqueue Q manual\nend\nend\n",
        Refused(UnknownName { line: 5 }),
    ),
    (
        "pnp\nat 0 start A\nend\napp A\nend\n",
        Refused(UnknownName { line: 5 }),
    ),
    // The cancel of a request that no line makes is no refusal.
    ("app A\nat 0 cancel 0\nat 0 cancel 9\nend\n", Resolved),
];

/// Names and attributes that are given twice.
static TWICE: [(&str, Answer); 22] = [
    (
        "app A\nend\nclass A object\nend\n",
        Refused(TwiceNamed { line: 6, first: 4 }),
    ),
    (
        "device D\nregister D 0\nend\n",
        Refused(TwiceNamed { line: 5, first: 4 }),
    ),
    ("app req\nend\n", Refused(TwiceNamed { line: 4, first: 0 })),
    (
        "app driver\nend\n",
        Refused(TwiceNamed { line: 4, first: 0 }),
    ),
    ("app pnp\nend\n", Refused(TwiceNamed { line: 4, first: 0 })),
    (
        "app cpu12\nend\n",
        Refused(TwiceNamed { line: 4, first: 0 }),
    ),
    (
        "app SUCCESS\nend\n",
        Refused(TwiceNamed { line: 4, first: 0 }),
    ),
    (
        "app length\nend\n",
        Refused(TwiceNamed { line: 4, first: 0 }),
    ),
    ("app cpu\nend\napp cpu1x\nend\napp Req\nend\n", Resolved),
    (
        "device D\non EvtDeviceD0Entry\nlet A = 1\nend\nend\napp A\nend\n",
        Refused(TwiceNamed { line: 6, first: 9 }),
    ),
    (
        "device D\non EvtDeviceD0Entry\nlet fw = 1\nend\nend\n",
        Refused(TwiceNamed { line: 6, first: 0 }),
    ),
    // A declared name that is assigned somewhere in the callback is known there.
    (
        "device D\non EvtDeviceD0Entry\nlog A\nget A = R\nend\nregister R 0\nend\napp A\nend\n",
        Refused(TwiceNamed { line: 7, first: 11 }),
    ),
    (
        "device D\nscope device\nlevel passive\nscope none\nend\n",
        Refused(TwiceNamed { line: 7, first: 5 }),
    ),
    (
        "driver\nlevel passive\nlevel passive\nend\n",
        Refused(TwiceNamed { line: 6, first: 5 }),
    ),
    (
        "class T timer D\nperiod 1\nserialize\nperiod 2\non EvtTimerFunc\nend\nend\ndevice D\nend\n",
        Refused(TwiceNamed { line: 7, first: 5 }),
    ),
    (
        "device D\nqueue Q manual\nzero\npower off\nzero\nend\nend\n",
        Refused(TwiceNamed { line: 8, first: 6 }),
    ),
    // One queue of a device takes what no other does, and one each type of requests.
    (
        "device D\nqueue Q manual\ndefault\nend\nqueue P manual\ndefault\nend\nend\n",
        Refused(TwiceNamed { line: 9, first: 6 }),
    ),
    (
        "device D\nqueue Q manual\nfor read\nfor write\nend\nqueue P manual\nfor control\nfor write\nend\nend\n",
        Refused(TwiceNamed { line: 11, first: 7 }),
    ),
    (
        "device D\nqueue Q manual\ndefault\nend\nend\ndevice E\nqueue P manual\ndefault\nend\nend\n",
        Resolved,
    ),
    (
        "device D\non EvtDeviceD0Entry\nend\non EvtDeviceD0Exit\nend\non EvtDeviceD0Entry\nend\nend\n",
        Refused(TwiceNamed { line: 9, first: 5 }),
    ),
    (
        "device D\nqueue Q manual\nscope none\nend\nscope none\nqueue P manual\nscope none\nend\nend\n",
        Resolved,
    ),
    // Where a name is declared twice, each declaration counts on the lines that use it.
    (
        "app N\nend\napp A\nat 0 read N 1\nend\ndevice N\nend\n",
        Refused(TwiceNamed { line: 9, first: 4 }),
    ),
];

/// Callbacks, levels and parents that don't fit, and which reason comes first.
static UNFIT: [(&str, Answer); 29] = [
    (
        "class C object\nserialize\nend\n",
        Refused(WrongCallback { line: 5 }),
    ),
    (
        "class C dpc D\nperiod 1\non EvtDpcFunc\nend\nend\ndevice D\nend\n",
        Refused(WrongCallback { line: 5 }),
    ),
    (
        "class C dpc D\nend\ndevice D\nend\n",
        Refused(WrongCallback { line: 4 }),
    ),
    (
        "class C timer D\nend\ndevice D\nend\n",
        Refused(WrongCallback { line: 4 }),
    ),
    (
        "class C workitem D\non EvtDpcFunc\nend\nend\ndevice D\nend\n",
        Refused(WrongCallback { line: 4 }),
    ),
    (
        "device D\ninterrupt I 3\nend\nend\n",
        Refused(WrongCallback { line: 5 }),
    ),
    (
        "device D\ntarget T 0 SUCCESS 1\nend\nend\n",
        Refused(WrongCallback { line: 5 }),
    ),
    (
        "device D\ntarget T 0 SUCCESS 1\non EvtRequestCompletion\nend\nend\nend\n",
        Resolved,
    ),
    (
        "device D working\ninterrupt I 3\non EvtInterruptIsr\nend\nend\nend\n",
        Refused(WrongCallback { line: 5 }),
    ),
    (
        "device D\nqueue Q manual\non EvtCleanupCallback\nend\nend\nend\n",
        Refused(WrongCallback { line: 6 }),
    ),
    (
        "class C object\non EvtCleanupCallback\nend\nend\ndevice D\non EvtDestroyCallback\nend\nend\n",
        Resolved,
    ),
    // After a level or a period that is wrong comes what else is wrong with the line.
    (
        "device D\ninterrupt I 13\nend\nend\n",
        Refused(WrongCallback { line: 5 }),
    ),
    (
        "device D\ninterrupt I 13\non EvtInterruptIsr\nend\nend\nend\n",
        Refused(OverLimit {
            line: 5,
            limit: Limit::Level,
        }),
    ),
    ("class C timer\nend\n", Refused(WrongCallback { line: 4 })),
    (
        "class C dpc X\nserialize\nend\nclass C dpc\nend\n",
        Refused(UnknownName { line: 4 }),
    ),
    (
        "class C timer D\nserialize\non EvtTimerFunc\nend\nend\ndriver\nlevel passive\nend\ndevice D\nend\n",
        Refused(IncompatibleLevel { line: 5 }),
    ),
    (
        "class C timer D\nserialize\non EvtTimerFunc\nend\nend\ndriver\nlevel passive\nend\ndevice D\nlevel dispatch\nend\n",
        Resolved,
    ),
    (
        "class C workitem D\nserialize\non EvtWorkItem\nend\nend\ndevice D\nend\n",
        Refused(IncompatibleLevel { line: 5 }),
    ),
    (
        "class C workitem D\non EvtWorkItem\nend\nend\ndevice D\nend\n",
        Resolved,
    ),
    // A queue has its own level, its device's where it inherits, and else the driver's.
    (
        "class C workitem Q\nserialize\non EvtWorkItem\nend\nend\ndevice D\nqueue Q manual\nlevel passive\nend\nend\n",
        Resolved,
    ),
    (
        "class C dpc Q\nserialize\non EvtDpcFunc\nend\nend\ndevice D\nlevel passive\nqueue Q manual\nlevel inherit\nend\nend\n",
        Refused(IncompatibleLevel { line: 5 }),
    ),
    (
        "class C dpc Q\nserialize\non EvtDpcFunc\nend\nend\ndevice D\nlevel passive\nqueue Q manual\nlevel dispatch\nend\nend\n",
        Resolved,
    ),
    (
        "class C dpc A\non EvtDpcFunc\nend\nend\napp A\nend\n",
        Refused(NoParent { line: 4 }),
    ),
    (
        "class C dpc C\non EvtDpcFunc\nend\nend\n",
        Refused(NoParent { line: 4 }),
    ),
    (
        "class C dpc R\non EvtDpcFunc\nend\nend\ndevice D\nregister R 0\nend\n",
        Refused(NoParent { line: 4 }),
    ),
    (
        "class C dpc I\non EvtDpcFunc\nend\nend\ndevice D\ninterrupt I 3\non EvtInterruptIsr\nend\nend\nend\n",
        Refused(NoParent { line: 4 }),
    ),
    (
        "class C dpc Q\non EvtDpcFunc\nend\nend\ndevice D\nqueue Q manual\nend\nend\n",
        Resolved,
    ),
    // The first line with a refusal is told, whichever it is.
    (
        "class C dpc\non EvtDpcFunc\nend\nend\ndevice D\nend\ndevice D\nend\napp A\nat 0 read X 1\nend\n",
        Refused(NoParent { line: 4 }),
    ),
    (
        "app A\nat 1000001 read X 1\nend\napp A\nend\n",
        Refused(UnknownName { line: 5 }),
    ),
];

/// What becomes of the first three lines and a text after them.
fn answer_after(alloc: Global, text: &str) -> Option<Answer> {
    let mut whole = String::new(alloc);
    whole.push_str("cpus 1\nlimit 9\nobjects 99\n").ok()?;
    whole.push_str(text).ok()?;
    Some(answered(alloc, whole.as_bytes()))
}

#[test]
fn a_text_is_refused_at_its_first_mistake(rt: HostRuntime) {
    for (text, due) in &TEXTS {
        assert!(rt; answered(rt.alloc(), text.as_bytes()) == *due, "{text:?}");
    }
    for table in [NAMES.as_slice(), TWICE.as_slice(), UNFIT.as_slice()] {
        for (text, due) in table {
            assert!(rt; answer_after(rt.alloc(), text) == Some(*due), "{text:?}");
        }
    }
}
