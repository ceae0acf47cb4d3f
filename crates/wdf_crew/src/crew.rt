//! Whose events a worker takes.
ghost use Rattle.std.specs.Prelude.{◌≡◌};
ghost use Rattle.wdf_crew.specs.Crews as crews;

/// Whose events a worker takes.
#[derive(Clone, Copy, Debug, PartialEq, Eq)]
pub enum Crew {
    /// A processor's.
    Processor(u8),
    /// The framework's and the clock's.
    Framework,
    /// Those of all agents.
    Agents,
}

/// The crew of a worker, counted from 0: first a worker for each processor, then one for the framework
/// and the clock, then one for all agents.
pub fn crew_of(worker: usize, processors: u8) -> Crew
    ensures { result ≡ crews.crew_of worker processors }
{
    if worker < usize::from(processors) {
        Crew::Processor(worker as u8)
    } else if worker == usize::from(processors) {
        Crew::Framework
    } else {
        Crew::Agents
    }
}
