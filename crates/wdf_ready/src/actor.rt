ghost use Rattle.std.specs.Prelude.{◌≡◌};
ghost use Rattle.wdf_ready.specs.Actors.{actor_of as actor_by_event, is_by as is_step_of};

use wdf_base::{Actor, Event};
use wdf_same::same_actor;

/// The actor of an event.
pub(crate) fn actor_of(event: &Event) -> Actor
    ensures { result ≡ actor_by_event event.now }
{
    match event {
        Event::Start { cpu, .. }
        | Event::Local { cpu, .. }
        | Event::Log { cpu, .. }
        | Event::Spend { cpu, .. }
        | Event::Register { cpu, .. }
        | Event::Did { cpu, .. }
        | Event::Waiting { cpu, .. }
        | Event::Woke { cpu, .. }
        | Event::Park { cpu, .. }
        | Event::Unpark { cpu, .. }
        | Event::End { cpu, .. }
        | Event::Fault { cpu, .. } => Actor::Cpu(cpu.0),
        Event::Stage { .. }
        | Event::Complete { .. }
        | Event::Cleanup { .. }
        | Event::Destroy { .. } => Actor::Framework,
        Event::Posted { agent, .. } => Actor::Agent(*agent),
        Event::Tick { .. } => Actor::Clock,
    }
}

/// Whether an event is one of this actor's.
pub fn is_by(event: &Event, actor: Actor) -> bool
    ensures { result ≡ is_step_of actor event.now }
{
    same_actor(actor_of(event), actor)
}
