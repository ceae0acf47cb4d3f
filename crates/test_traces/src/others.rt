//! Texts that are no lines.
use crate::worked::plan_of;
use std::test::Fail;
use test_worked_texts::serial;
use wdf_base::Plan;
use wdf_trace::{read_line, reads_as_ending, reads_as_wait};

/// Lines of the serial port's run, and beside each a text that is no line.
static OTHERS: [(&str, &str); 22] = [
    // A number with a leading zero, or too large.
    ("1 pnp start D.2", "01 pnp start D.2"),
    ("29 clock tick 3", "29 clock tick 03"),
    ("33 cpu0 put CTL 1", "33 cpu0 put CTL 01"),
    ("36 fw cleanup req.10", "36 fw cleanup req.010"),
    ("17 cpu0 step 40", "17 cpu00 step 40"),
    ("153 fw cleanup IRQ.3", "153 fw cleanup IRQ.4294967299"),
    // Another number of arguments.
    (
        "5 cpu0 call SetContext D.2 0 TM.7 -> SUCCESS",
        "5 cpu0 call SetContext D.2 0 -> SUCCESS",
    ),
    (
        "8 cpu0 call GetContext D.2 0 -> TM.7",
        "8 cpu0 call GetContext D.2 0 0 -> TM.7",
    ),
    ("14 A read D.2 16 -> req.8", "14 A read D.2 -> req.8"),
    ("11 fw stage D.2 enabled IRQ.3", "11 fw stage D.2 enabled"),
    (
        "15 cpu0 start EvtIoRead RQ.5 req.8",
        "15 cpu0 start EvtIoRead RQ.5",
    ),
    (
        "146 fw complete req.12 CANCELLED",
        "146 fw complete req.12 CANCELLED CANCELLED",
    ),
    // A name that stands for nothing.
    ("1 pnp start D.2", "1 pnp start E.2"),
    ("14 A read D.2 16 -> req.8", "14 B read D.2 16 -> req.8"),
    ("41 D.2 set RX 65", "41 D.2 set IRQ 65"),
    (
        "4 cpu0 call WdfTimerCreate TM -> TM.7",
        "4 cpu0 call WdfTimerCreate WQ -> TM.7",
    ),
    (
        "7 cpu0 start EvtDeviceD0Entry D.2",
        "7 cpu0 start EvtDeviceD1Entry D.2",
    ),
    ("12 fw stage D.2 queues_up", "12 fw stage D.2 queues_in"),
    // An object without its id, or with that of another.
    ("154 fw cleanup D.2", "154 fw cleanup D"),
    ("154 fw cleanup D.2", "154 fw cleanup D.2.2"),
    ("41 D.2 set RX 65", "41 D.3 set RX 65"),
    ("14 A read D.2 16 -> req.8", "14 A.10 read D.2 16 -> req.8"),
];

/// Whether a text has this line.
fn has_line(text: &str, line: &str) -> bool {
    for each in text.lines() {
        if each == line {
            return true;
        }
    }
    false
}

/// Whether a text is read as no line.
fn is_no_line(plan: &Plan, text: &[u8]) -> bool {
    read_line(plan, text).is_none() && !reads_as_ending(text) && !reads_as_wait(plan, text)
}

/// The place of the first row whose line isn't in the trace, or whose text is read as a line.
fn first_wrong(plan: &Plan, trace: &str) -> Option<usize> {
    for (place, (line, other)) in OTHERS.iter().enumerate() {
        if !has_line(trace, line) || !is_no_line(plan, other.as_bytes()) {
            return Some(place);
        }
    }
    None
}

/// The same in a plan that is made for it.
fn wrong_in(plan: Plan, trace: &str) -> Option<usize> {
    first_wrong(&plan, trace)
}

#[test]
fn other_texts_are_not_read(rt: HostRuntime) -> Result<(), Fail> {
    let run = serial::RUNS.first().ok_or("no run")?;
    let plan = plan_of(rt.alloc(), run.scenario).ok_or("no plan")?;
    assert_eq!(rt; wrong_in(plan, run.trace), None);
    Ok(())
}
