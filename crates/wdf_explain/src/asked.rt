ghost use Rattle.std.specs.Prelude.{◌≡◌};
ghost use Rattle.wdf_explain.specs.About.{cpu_of, is_asked, is_cpu};

use crate::about::{is_about, moves, takes};
use wdf_base::{Cpu, Event, ObjectId};

/// Which events are looked for.
#[derive(Clone, Copy)]
pub enum Asked {
    /// Those that are about an object.
    About(ObjectId),
    /// Those that bring a request where it is.
    Moves(ObjectId),
    /// The calls that took the lock of an object.
    Takes(ObjectId),
    /// Those on a processor.
    OnCpu(Cpu),
}

/// The processor of an event, if it has one.
pub(crate) fn cpu_of(event: &Event) -> Option<Cpu>
    ensures { result ≡ cpu_of event.now }
{
    match event {
        Event::Start { cpu, .. }
        | Event::Local { cpu, .. }
        | Event::Log { cpu, .. }
        | Event::Spend { cpu, .. }
        | Event::Register { cpu, .. }
        | Event::Did { cpu, .. }
        | Event::Waiting { cpu, .. }
        | Event::Woke { cpu, .. }
        | Event::Park { cpu, .. }
        | Event::Unpark { cpu, .. }
        | Event::End { cpu, .. }
        | Event::Fault { cpu, .. } => Some(*cpu),
        _ => None,
    }
}

/// Whether an event is on a processor.
fn is_on(cpu: Cpu, event: &Event) -> bool
    ensures { result ≡ is_cpu cpu.0 (cpu_of event.now) }
{
    match cpu_of(event) {
        Some(other) => other.0 == cpu.0,
        None => false,
    }
}

impl Asked {
    /// Whether an event is one that is looked for.
    pub(crate) fn is_for(self, event: &Event) -> bool
        ensures { result ≡ is_asked self event.now }
    {
        match self {
            Asked::About(object) => is_about(object, event),
            Asked::Moves(request) => moves(request, event),
            Asked::Takes(object) => takes(object, event),
            Asked::OnCpu(cpu) => is_on(cpu, event),
        }
    }
}
