use std::alloc::Global;
use std::test::Fail;
use wdf_parse::{ParseRefusal, TEXT_LIMIT, parse, print};

/// The refusal of a text, if it has one.
fn refusal_of(alloc: Global, text: &[u8]) -> Option<ParseRefusal> {
    if text.len() > TEXT_LIMIT {
        return None;
    }
    match parse(alloc, text) {
        Ok(_) => None,
        Err(refusal) => Some(refusal),
    }
}

/// The canonical text of a text that has a scene.
fn canonical(alloc: Global, text: &str) -> Option<Vec<u8>> {
    if text.len() > TEXT_LIMIT {
        return None;
    }
    let scene = parse(alloc, text.as_bytes()).ok()?;
    print(alloc, &scene).ok()
}

const HEAD: &str = "cpus 1\nlimit 9\nobjects 9\n";

#[test]
fn refuses_at_the_first_fault(rt: HostRuntime) -> Result<(), Fail> {
    let alloc = rt.alloc();
    for (text, refusal) in [
        ("", ParseRefusal::BadLine { line: 1 }),
        ("cpus 1\n", ParseRefusal::BadLine { line: 2 }),
        (
            "cpus 1\nlimit 1$0\n",
            ParseRefusal::BadToken { line: 2, col: 8 },
        ),
        (
            "cpus 18446744073709551616\n",
            ParseRefusal::NumberTooLarge { line: 1, col: 6 },
        ),
        (
            "cpus 1\nlimit 9\nobjects 9\ndriver\n",
            ParseRefusal::Unclosed { line: 4 },
        ),
        (
            "cpus 1\nlimit 9\nobjects 9\ndevice Abcdefghijklmnopqrstuvwxyzabcdefg\n",
            ParseRefusal::BadToken { line: 4, col: 8 },
        ),
        ("version 3\n", ParseRefusal::BadLine { line: 1 }),
        (
            "cpus 1\nlimit 9\nobjects 9\ndevice D\ninterrupt I passive\n",
            ParseRefusal::BadLine { line: 5 },
        ),
        ("cpus 1 é\n", ParseRefusal::NotAscii { line: 1 }),
        (
            "cpus 1\nlimit 9\nobjects 9\ndriver\nscope inherit\n",
            ParseRefusal::BadLine { line: 5 },
        ),
        (
            "cpus 1\nlimit 9\nobjects 9\ndevice D\nversion 2\n",
            ParseRefusal::BadLine { line: 5 },
        ),
    ] {
        assert_eq!(rt;
            refusal_of(alloc, text.as_bytes()),
            Some(refusal),
            "at {text:?}"
        );
    }
    assert_eq!(rt;
        refusal_of(alloc, &[200]),
        Some(ParseRefusal::NotAscii { line: 1 })
    );
    assert_eq!(rt; refusal_of(alloc, HEAD.as_bytes()), None);
    let unserved = b"cpus 1\nlimit 0\nobjects 9\n";
    assert_eq!(rt; refusal_of(alloc, unserved), None);
    Ok(())
}

#[test]
fn limits_parentheses(rt: HostRuntime) -> Result<(), Fail> {
    let alloc = rt.alloc();
    for (depth, refusal) in [(16, None), (17, Some(ParseRefusal::BadLine { line: 6 }))] {
        let mut text = String::new(alloc);
        text.push_str(HEAD)?;
        text.push_str("device D\non EvtDeviceD0Entry\nlog ")?;
        for _ in 0..depth {
            text.push_str("( ")?;
        }
        text.push_str("1")?;
        for _ in 0..depth {
            text.push_str(" + 1 )")?;
        }
        text.push_str("\nend\nend\n")?;
        assert_eq!(rt;
            refusal_of(alloc, text.as_bytes()),
            refusal,
            "at depth {depth}"
        );
    }
    Ok(())
}

/// Texts, each with its canonical form.
static PRINTED: [(&str, &str); 11] = [
    (
        "  cpus 01 # one\r\n\nlimit\t9\nobjects 9\ndriver\n scope queue\n level passive\nend",
        "cpus 1\nlimit 9\nobjects 9\ndriver\nscope queue\nlevel passive\nend\n",
    ),
    (
        "cpus 1\nlimit 9\nobjects 9\nclass L spinlock\nend\nclass C dpc\non EvtDpcFunc\nend\nend\nclass T timer D\nserialize\nperiod 3\non EvtTimerFunc\nend\nend\n",
        "cpus 1\nlimit 9\nobjects 9\nclass L spinlock\nend\nclass C dpc\non EvtDpcFunc\nend\nend\nclass T timer D\nserialize\nperiod 3\non EvtTimerFunc\nend\nend\n",
    ),
    (
        "cpus 1\nlimit 9\nobjects 9\ndevice D working # ready\n  scope inherit\n  level inherit\n  register R 007\n  when write R raise I after 2\n  when read R set R 1 after 0\n  at 3 lower I\nend # D\n",
        "cpus 1\nlimit 9\nobjects 9\ndevice D working\nscope inherit\nlevel inherit\nregister R 7\nwhen write R raise I after 2\nwhen read R set R 1 after 0\nat 3 lower I\nend\n",
    ),
    (
        "cpus 1\nlimit 9\nobjects 9\ndevice D\n interrupt I 5\n  on EvtInterruptIsr\n  end\n\n  on EvtInterruptDpc\n  end\n end\nend\n",
        "cpus 1\nlimit 9\nobjects 9\ndevice D\ninterrupt I 5\non EvtInterruptIsr\nend\non EvtInterruptDpc\nend\nend\nend\n",
    ),
    (
        "version 2\n\ncpus 1\nlimit 9\nobjects 9\ndevice D\n interrupt I passive\n end\nend\n",
        "version 2\ncpus 1\nlimit 9\nobjects 9\ndevice D\ninterrupt I passive\nend\nend\n",
    ),
    (
        "cpus 1\nlimit 9\nobjects 9\ndevice D\n\tqueue Q sequential\n\tdefault\n\tlevel dispatch\n\tend\n\tqueue P parallel 3\n\tfor read\n\tfor write\n\tfor control\n\tpower\toff\n\tzero\n\tscope none\n\tend\n\tqueue M manual\n\ton EvtIoQueueState\n\tend\n\tend\nend\n",
        "cpus 1\nlimit 9\nobjects 9\ndevice D\nqueue Q sequential\ndefault\nlevel dispatch\nend\nqueue P parallel 3\nfor read\nfor write\nfor control\npower off\nzero\nscope none\nend\nqueue M manual\non EvtIoQueueState\nend\nend\nend\n",
    ),
    (
        "cpus 1\nlimit 9\nobjects 9\ndevice D\ntarget T 2 SUCCESS 4\non EvtRequestCompletion\nend\nend\nend\n",
        "cpus 1\nlimit 9\nobjects 9\ndevice D\ntarget T 2 SUCCESS 4\non EvtRequestCompletion\nend\nend\nend\n",
    ),
    (
        "cpus 1\nlimit 9\nobjects 9\napp A\nat 0 read D 1\nat 0 write D 2\nat 0 control D 3 4\nat 1 cancel 1\nend\n",
        "cpus 1\nlimit 9\nobjects 9\napp A\nat 0 read D 1\nat 0 write D 2\nat 0 control D 3 4\nat 1 cancel 1\nend\n",
    ),
    (
        "cpus 1\nlimit 9\nobjects 9\npnp\nat 0 start D\nat 1 sleep D\nat 2 wake D\nat 3 rebalance D\nat 4 remove D\nat 5 surprise D\nend\n",
        "cpus 1\nlimit 9\nobjects 9\npnp\nat 0 start D\nat 1 sleep D\nat 2 wake D\nat 3 rebalance D\nat 4 remove D\nat 5 surprise D\nend\n",
    ),
    (
        "cpus 1\nlimit 9\nobjects 9\norder\npicks 0 01 2 # first\npicks 3\nend\n",
        "cpus 1\nlimit 9\nobjects 9\norder\npicks 0 1 2\npicks 3\nend\n",
    ),
    (
        "cpus 1\nlimit 9\nobjects 9\ndevice D\non EvtDeviceD0EntryPostInterruptsEnabled\nlet x=(1+(length*2))\ncall l=WdfSpinLockCreate L device\ncall WdfRequestComplete request SUCCESS\nget s=R\nput R x\nif(x==SUCCESS)\nlog x\nelse\nspend 1\nend\nrepeat 3\nend\nreturn self\nend\nend\n",
        "cpus 1\nlimit 9\nobjects 9\ndevice D\non EvtDeviceD0EntryPostInterruptsEnabled\nlet x = ( 1 + ( length * 2 ) )\ncall l = WdfSpinLockCreate L device\ncall WdfRequestComplete request SUCCESS\nget s = R\nput R x\nif ( x == SUCCESS )\nlog x\nelse\nspend 1\nend\nrepeat 3\nend\nreturn self\nend\nend\n",
    ),
];

#[test]
fn prints_each_block(rt: HostRuntime) -> Result<(), Fail> {
    let alloc = rt.alloc();
    for (text, printed) in &PRINTED {
        let found = canonical(alloc, text).ok_or("no scene")?;
        assert_eq!(rt; found.as_slice(), printed.as_bytes(), "at {text:?}");
    }
    Ok(())
}
