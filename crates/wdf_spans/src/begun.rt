//! The starts of callbacks.
ghost use Rattle.std.specs.Prelude.{◌≡◌};
ghost use Rattle.wdf_spans.specs.Starts.{begun_by};

use wdf_base::{Callback, Cpu, Event, Handle};

/// A start of a callback, as its event says it.
#[derive(Clone, Copy)]
pub struct Begun {
    /// The number of the event, which is the number of the frame.
    pub number: u32,
    pub cpu: Cpu,
    pub callback: Callback,
    pub object: Handle,
    pub request: Option<Handle>,
}

/// The start that an event with this number is, if it is one.
pub(crate) fn begun_by(number: u32, event: &Event) -> Option<Begun>
    ensures { result ≡ begun_by number event.now }
{
    match *event {
        Event::Start {
            cpu,
            callback,
            object,
            request,
        } => Some(Begun {
            number,
            cpu,
            callback,
            object,
            request,
        }),
        _ => None,
    }
}
