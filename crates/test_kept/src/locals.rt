//! A generated scenario by the words of its number: no statement that touches its own frame alone makes anyone ask an agent.
use crate::asked::{AskedAgent, generated_opening};
use rand_core::{Rng, SeedableRng};
use rand_xoshiro::SplitMix64;
use std::sync::atomic::{AtomicU64, Ordering};
use std::test::Fail;
use wdf_base::Event;
use wdf_core::Core;

/// How many statements the reads with a length come to, and how many events the run has.
const LOCALS: u32 = 2800;

const EVENTS: usize = 20_000;

/// Goes on by the event that a word names, if one may follow, and looks how many may follow then, and which is the first.
/// The answer says whether it was a Local.
fn go_on(core: &mut Core<AskedAgent>, word: u64, asked: &AtomicU64) -> Option<(bool, u64)> {
    let count = core.count_ready();
    if count == 0 {
        return None;
    }
    let k = (word % count as u64) as usize;
    let is_local = matches!(core.ready_at(k), Event::Local { .. });
    let before = asked.load(Ordering::SeqCst);
    core.apply(k);
    if core.ready_len() > 0 {
        let _first = core.ready_at(0);
    }
    let _count = core.count_ready();
    Some((is_local, asked.load(Ordering::SeqCst).wrapping_sub(before)))
}

#[test]
fn a_local_asks_no_agent(rt: HostRuntime) -> Result<(), Fail> {
    let asked = AtomicU64::new(0);
    let Ok(mut core) = generated_opening(rt.alloc(), 7, &asked) else {
        panic!(rt; "there is memory")
    };
    let mut words = SplitMix64::seed_from_u64(7);
    let mut locals = 0u32;
    for _ in 0..EVENTS {
        let Some((is_local, questions)) = go_on(&mut core, words.next_u64(), &asked) else {
            break;
        };
        if is_local {
            locals = locals.wrapping_add(1);
            assert_eq!(rt; questions, 0);
        }
    }
    assert_eq!(rt; core.journal_len(), EVENTS);
    assert_eq!(rt; locals, LOCALS);
    assert!(rt; asked.load(Ordering::SeqCst) > 0);
    Ok(())
}
