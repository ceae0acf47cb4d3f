//! The workers of a run are threads: two of them are there at once.
use crate::call::{STEADY, call};
use crate::{DEVICE_SCOPE, TwoEnter, Watch};
use std::alloc::Global;
use std::sync::Wait;
use std::sync::atomic::Ordering;
use std::test::Fail;
use std::thread::Threads;
use wdf_base::Memory;

/// Whether a run that is watched so comes out.
fn comes_out<R: Threads + Wait + Sync>(
    rt: &R,
    alloc: Global,
    watch: &Watch,
) -> Result<bool, Memory> {
    match call(rt, alloc, "run", DEVICE_SCOPE, STEADY, &TwoEnter(watch)) {
        Ok((status, sink)) => Ok(status == 0 && sink.written().ends_with(b"\nfinished 14\n")),
        Err(memory) => Err(memory),
    }
}

#[test]
fn two_workers_of_the_top_call_are_there_at_once(rt: HostRuntime) -> Result<(), Fail> {
    let watch = Watch::new();
    assert!(rt; comes_out(&rt, rt.alloc(), &watch)?);
    assert_eq!(rt; watch.given_up.load(Ordering::SeqCst), 0);
    Ok(())
}
