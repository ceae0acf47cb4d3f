//! What is tried.
use wdf_expect::Expectations;
use wdf_scene::Scene;

/// A scenario whose runs are tried, and what is expected of each of them.
#[derive(Drop)]
pub struct Case {
    /// The scenario.
    pub scene: Scene,
    /// What is expected.
    pub expectations: Expectations,
    /// By how many ticks at most each seed moves each `at` line to later.
    pub jitter: u32,
}
