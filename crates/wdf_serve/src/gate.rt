//! Gates that hold nobody.
use std::thread;
use std::time::{Clock, Duration};
use wdf_turn::Gate;

/// A gate that holds no worker. One that has nothing to do lets others run.
#[derive(Clone, Copy)]
pub struct OpenGate;

impl Gate for OpenGate {
    fn pass(&self, _worker: u32, _turn: u32) {}

    fn rest(&self, _looks: u32) {
        thread::yield_now();
    }
}

/// How often a worker looks at once, before it sleeps between two looks.
const BRISK_LOOKS: u32 = 60;

/// How long it sleeps, in microseconds.
const NAP: u64 = 50;

/// The gate of the program. It holds no worker. One that has nothing to do sleeps after its first looks, so that it
/// takes no processor from those that have. It doesn't yield: on a busy machine a thread that yields comes after all
/// others.
#[derive(Drop)]
pub struct SleepingGate<'a, C: Clock> {
    /// By what a worker sleeps.
    pub clock: &'a C,
}

impl<C: Clock> Gate for SleepingGate<'_, C> {
    fn pass(&self, _worker: u32, _turn: u32) {}

    fn rest(&self, looks: u32) {
        if looks >= BRISK_LOOKS {
            thread::sleep(self.clock, Duration::from_micros(NAP));
        }
    }
}
