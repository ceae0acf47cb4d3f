//! The worked runs of tools/runs and tools/idle through the top call.
use crate::call::{STEADY, call, is_answered};
use std::alloc::Global;
use std::test::Fail;
use test_worked_texts::{Worked, idle, power, processors, requests, serial, targets};
use wdf_base::{Ending, Memory};

/// The status of a run that ended so.
fn status_of(ending: Ending) -> u8 {
    match ending {
        Ending::Running | Ending::Finished => 0,
        Ending::Fault(_) => 3,
        Ending::Stuck => 4,
        Ending::Limit => 5,
    }
}

/// The worked runs of `order`.
pub fn groups() -> [&'static [Worked]; 5] {
    [
        power::RUNS.as_slice(),
        processors::RUNS.as_slice(),
        requests::RUNS.as_slice(),
        serial::RUNS.as_slice(),
        targets::RUNS.as_slice(),
    ]
}

/// Whether a run comes out as it is worked.
fn comes_out(alloc: Global, words: &str, run: &Worked) -> Result<bool, Memory> {
    let due = (status_of(run.ending), run.trace.as_bytes());
    is_answered(alloc, words, run.scenario.as_bytes(), STEADY, due)
}

/// The name of the first run that doesn't come out.
fn first_wrong(
    alloc: Global,
    words: &str,
    runs: &'static [Worked],
) -> Result<Option<&'static str>, Memory> {
    for run in runs {
        match comes_out(alloc, words, run) {
            Ok(true) => {}
            Ok(false) => return Ok(Some(run.name)),
            Err(memory) => return Err(memory),
        }
    }
    Ok(None)
}

#[test]
fn worked_runs_come_out(rt: HostRuntime) -> Result<(), Fail> {
    for runs in groups() {
        assert_eq!(rt; first_wrong(rt.alloc(), "order", runs)?, None);
    }
    Ok(())
}

#[test]
fn runs_with_sleeping_devices_come_out(rt: HostRuntime) -> Result<(), Fail> {
    assert_eq!(rt;
        first_wrong(rt.alloc(), "idle", idle::RUNS.as_slice())?,
        None
    );
    Ok(())
}

/// Fronts of the serial port's text that aren't refused as texts, by their lengths, and their statuses.
const FRONTS: [(usize, u8); 11] = [
    // The first three lines alone.
    (27, 0),
    (28, 0),
    (29, 0),
    // A class of timers for a device that isn't there yet.
    (76, 11),
    (77, 11),
    // The device is there, and nobody uses it.
    (1006, 0),
    (1007, 0),
    // Its app is there, and nobody starts it.
    (1093, 4),
    (1094, 4),
    (1158, 0),
    (1159, 0),
];

/// The status that is due for a front of the serial port's text.
fn status_of_front(len: usize) -> u8 {
    for (place, status) in FRONTS {
        if place == len {
            return status;
        }
    }
    10
}

/// Whether a front of the serial port's text is answered with this status.
fn is_front_answered(alloc: Global, front: &[u8], due: u8) -> Result<bool, Memory> {
    match call(alloc, "order", front, STEADY) {
        Ok((status, _)) => Ok(status == due),
        Err(memory) => Err(memory),
    }
}

/// The length of the first front of a text that isn't answered as is due.
fn first_wrong_front(alloc: Global, text: &[u8]) -> Result<Option<usize>, Memory> {
    for len in 0..=text.len() {
        match is_front_answered(alloc, &text[..len], status_of_front(len)) {
            Ok(true) => {}
            Ok(false) => return Ok(Some(len)),
            Err(memory) => return Err(memory),
        }
    }
    Ok(None)
}

#[test]
fn fronts_of_a_text_are_answered(rt: HostRuntime) -> Result<(), Fail> {
    let text = serial::RUNS[0].scenario.as_bytes();
    assert_eq!(rt; first_wrong_front(rt.alloc(), text)?, None);
    Ok(())
}
