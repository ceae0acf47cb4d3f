//! The worked run of the serial port. After each of its events the core says that as many may follow as the definitions compute.
ghost use Rattle.std.specs.Prelude.{◌≡◌, length};
ghost use Rattle.wdf_dev.specs.Agents.{agent_meaning};
ghost use Rattle.wdf_model.specs.rules.Ready.{ready};

use crate::opening::{opening_of, plan_of};
use law_ready_worked::{SERIAL_PORT_EVENTS, ready_len_after};
use std::alloc::Global;
use std::test::Fail;
use test_worked_texts::serial;
use wdf_core::Core;
use wdf_dev::AnyAgent;

/// Whether what is counted is kept from event to event.
#[derive(Clone, Copy)]
enum Counting {
    Anew,
    Kept,
}

/// How many events may follow, counted in one of these ways.
fn count(core: &mut Core<AnyAgent>, counting: Counting) -> usize
    ensures same { core.new ≡ core.old }
    ensures length { result ≡ length (ready core.old.plan agent_meaning core.old.journal) }
{
    match counting {
        Counting::Anew => core.ready_len(),
        Counting::Kept => core.count_ready(),
    }
}

/// Takes the events of the run; the scenario has no picks, so each is the first that may follow. The answer is after how many
/// events another number may follow than the definitions say, if it is so anywhere.
fn first_wrong(core: &mut Core<AnyAgent>, counting: Counting) -> Option<usize> {
    for k in 0..=SERIAL_PORT_EVENTS {
        let found = count(core, counting);
        if found != ready_len_after(k) {
            return Some(k);
        }
        if found > 0 {
            core.apply(0);
        }
    }
    None
}

/// Where the first wrong number is in the run of the serial port, and how many events it comes to.
fn outcome(alloc: Global, counting: Counting) -> Option<(Option<usize>, usize)> {
    let plan = plan_of(alloc, serial::RUNS[0].scenario)?;
    let mut core = opening_of(alloc, plan)?;
    let wrong = first_wrong(&mut core, counting);
    Some((wrong, core.journal_len()))
}

#[test]
fn as_many_may_follow_as_the_definitions_say(rt: HostRuntime) -> Result<(), Fail> {
    let outcome = outcome(rt.alloc(), Counting::Anew);
    assert_eq!(rt; outcome, Some((None, SERIAL_PORT_EVENTS)));
    Ok(())
}

#[test]
fn kept_counts_are_what_the_definitions_say(rt: HostRuntime) -> Result<(), Fail> {
    let outcome = outcome(rt.alloc(), Counting::Kept);
    assert_eq!(rt; outcome, Some((None, SERIAL_PORT_EVENTS)));
    Ok(())
}
