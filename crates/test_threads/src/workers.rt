//! The workers of a run are threads that do the work: two of them are there at once, and an agent hears of an event before
//! the others have had their second turn.
use crate::fed::{counted_opening, ending_by_threads, plan_of};
use crate::{DEVICE_SCOPE, UntilHeard, Watch};
use std::sync::atomic::{AtomicU64, Ordering};
use std::test::Fail;
use wdf_base::Ending;

#[test]
fn workers_do_the_work(rt: HostRuntime) -> Result<(), Fail> {
    let watch = Watch::new();
    let heard = AtomicU64::new(0);
    let gate = UntilHeard {
        watch: &watch,
        heard: &heard,
        agents: 3,
    };
    let plan = plan_of(rt.alloc(), DEVICE_SCOPE).ok_or("no plan")?;
    let core = counted_opening(rt.alloc(), plan, &heard)?;
    let ending = ending_by_threads(&rt, rt.alloc(), core, &gate)?;
    assert!(rt; matches!(ending, Ending::Finished));
    assert_eq!(rt; watch.given_up.load(Ordering::SeqCst), 0);
    Ok(())
}
