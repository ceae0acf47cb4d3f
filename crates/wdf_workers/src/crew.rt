//! The side whose events a worker's crew takes.
ghost use Rattle.std.specs.Prelude.{◌≡◌};
ghost use Rattle.wdf_workers.specs.Crews as crews;

use wdf_crew::Crew;
use wdf_ready::Side;

/// The side whose events a crew takes.
pub(crate) fn side_of(crew: Crew) -> Side
    ensures { result ≡ crews.side_of crew }
{
    match crew {
        Crew::Processor(cpu) => Side::Processor(cpu),
        Crew::Framework => Side::Framework,
        Crew::Agents => Side::Agents,
    }
}
