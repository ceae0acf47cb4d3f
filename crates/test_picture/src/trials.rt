//! The tests.
use crate::bands::{self, band_as, band_of};
use crate::frames::{self, frames_as};
use crate::json::{self, Found, look};
use crate::requests::{self, requests_as};
use crate::worked::{of_power, of_processors, of_requests, trial_of};
use std::alloc::Global;
use std::test::Fail;
use test_worked_texts::Worked;
use wdf_base::{Event, Memory, Plan};
use wdf_perfetto::perfetto;
use wdf_spans::{boxes_of, frames_of, pieces_of, requests_of, spans_of};

/// The most events of a run that is tried.
const MOST: usize = 100;

/// Whether what callbacks do in some events is as due.
fn frames_fit(alloc: Global, events: &[Event], due: &frames::Due) -> Result<bool, Memory> {
    if events.len() > MOST {
        return Ok(false);
    }
    let frames = frames_of(alloc, events)?;
    let boxes = boxes_of(alloc, events, &frames)?;
    Ok(frames_as(&frames, boxes.as_slice(), due))
}

/// Whether what callbacks do in a run is as due.
fn callbacks_as(alloc: Global, runs: &'static [Worked], due: &frames::Due) -> Result<bool, Memory> {
    match trial_of(alloc, runs, due.name)? {
        Some(trial) => frames_fit(alloc, trial.events.as_slice(), due),
        None => Ok(false),
    }
}

/// Whether the requests of some events are where it is due.
fn places_fit(
    alloc: Global,
    plan: &Plan,
    events: &[Event],
    due: &requests::Due,
) -> Result<bool, Memory> {
    if events.len() > MOST {
        return Ok(false);
    }
    let requests = requests_of(alloc, plan, events)?;
    let spans = spans_of(alloc, events, &requests)?;
    Ok(requests_as(&requests, spans.as_slice(), due))
}

/// Whether the requests of a run are where it is due.
fn places_as(alloc: Global, runs: &'static [Worked], due: &requests::Due) -> Result<bool, Memory> {
    match trial_of(alloc, runs, due.name)? {
        Some(trial) => places_fit(alloc, &trial.plan, trial.events.as_slice(), due),
        None => Ok(false),
    }
}

/// Whether a band of some events is as due.
fn band_fits(
    alloc: Global,
    plan: &Plan,
    events: &[Event],
    due: &bands::Due,
) -> Result<bool, Memory> {
    if events.len() > MOST {
        return Ok(false);
    }
    match band_of(plan, due) {
        Some(of) => {
            let pieces = pieces_of(alloc, &of, events)?;
            Ok(band_as(pieces.as_slice(), due.holds))
        }
        None => Ok(false),
    }
}

/// Whether a band of a run is as due.
fn band(alloc: Global, runs: &'static [Worked], due: &bands::Due) -> Result<bool, Memory> {
    match trial_of(alloc, runs, due.name)? {
        Some(trial) => band_fits(alloc, &trial.plan, trial.events.as_slice(), due),
        None => Ok(false),
    }
}

/// Whether all bands are as due.
fn all_bands(alloc: Global, runs: &'static [Worked], due: &[bands::Due]) -> Result<bool, Memory> {
    for one in due {
        match band(alloc, runs, one) {
            Ok(true) => {}
            Ok(false) => return Ok(false),
            Err(memory) => return Err(memory),
        }
    }
    Ok(true)
}

/// What a viewer is told of some events, unless they are too many.
fn text_of(alloc: Global, plan: &Plan, events: &[Event]) -> Result<Option<String>, Memory> {
    if events.len() > MOST {
        return Ok(None);
    }
    let text = perfetto(alloc, plan, events)?;
    Ok(Some(text))
}

/// What a viewer is told of a run.
fn told(alloc: Global, runs: &'static [Worked], name: &str) -> Result<Option<String>, Memory> {
    match trial_of(alloc, runs, name)? {
        Some(trial) => text_of(alloc, &trial.plan, trial.events.as_slice()),
        None => Ok(None),
    }
}

/// What is found in what a viewer is told of a run.
fn read_back(alloc: Global, runs: &'static [Worked], name: &str) -> Result<Option<Found>, Memory> {
    match told(alloc, runs, name) {
        Ok(Some(text)) => Ok(look(alloc, text.as_str())),
        Ok(None) => Ok(None),
        Err(memory) => Err(memory),
    }
}

#[test]
fn callbacks_run_wait_and_are_parked(rt: HostRuntime) -> Result<(), Fail> {
    assert!(rt; callbacks_as(rt.alloc(), of_requests(), &frames::ONE_READ)?);
    assert!(rt; callbacks_as(rt.alloc(), of_processors(), &frames::DEADLOCK)?);
    assert!(rt; callbacks_as(rt.alloc(), of_processors(), &frames::PARK)?);
    assert!(rt; callbacks_as(rt.alloc(), of_power(), &frames::POWER_DOWN)?);
    Ok(())
}

#[test]
fn requests_are_where_they_are(rt: HostRuntime) -> Result<(), Fail> {
    assert!(rt; places_as(rt.alloc(), of_requests(), &requests::ONE_READ)?);
    assert!(rt; places_as(rt.alloc(), of_requests(), &requests::RETURNED)?);
    assert!(rt; places_as(rt.alloc(), of_requests(), &requests::PURGED)?);
    assert!(rt; places_as(rt.alloc(), of_power(), &requests::POWER_DOWN)?);
    Ok(())
}

#[test]
fn devices_and_queues_are_told(rt: HostRuntime) -> Result<(), Fail> {
    assert!(rt; all_bands(rt.alloc(), of_processors(), &bands::OF_PROCESSORS)?);
    assert!(rt; all_bands(rt.alloc(), of_power(), &bands::OF_POWER)?);
    assert!(rt; all_bands(rt.alloc(), of_requests(), &bands::OF_REQUESTS)?);
    Ok(())
}

#[test]
fn a_viewer_is_told_the_first_read(rt: HostRuntime) -> Result<(), Fail> {
    let text = told(rt.alloc(), of_requests(), "one_read")?;
    assert!(rt; text.is_some_and(|text| text.as_str() == json::ONE_READ));
    Ok(())
}

#[test]
fn slices_nest(rt: HostRuntime) -> Result<(), Fail> {
    let park = read_back(rt.alloc(), of_processors(), "periodic_timer")?;
    // Five stays, two waits, eight calls, two phases; one parked span; no queue, and four ticks.
    assert!(rt;
        park == Some(Found {
            slices: 17,
            begins: 1,
            ends: 1,
            counters: 4,
            all_nest: true
        })
    );
    let power = read_back(rt.alloc(), of_power(), "sleep_and_wake")?;
    // Nine stays, twelve calls, three phases; three requests at eleven places; eleven counts, and two ticks.
    assert!(rt;
        power
            == Some(Found {
                slices: 24,
                begins: 14,
                ends: 14,
                counters: 13,
                all_nest: true
            })
    );
    Ok(())
}
