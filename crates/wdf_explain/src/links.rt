//! The line of a wait list that another waits for.
ghost use Rattle.std.specs.Prelude.{◌≡◌, ◌<◌, IfOk, IfSome, Some, length, position};
ghost use Rattle.wdf_base.specs.declared.wait.WaitLine.{WaitLine};
ghost use Rattle.wdf_explain.specs.Links as links;

use std::alloc::Global;
use wdf_base::{Cause, Memory, OpenThing, WaitLine};

/// Whether a line is of this frame.
fn is_of_frame(frame: u32, thing: &OpenThing) -> bool
    ensures { result ≡ links.is_of_frame frame thing.now }
{
    match thing {
        OpenThing::Waiting { frame: other, .. } => other.0 == frame,
        _ => false,
    }
}

/// Whether a line is of this request.
fn is_of_request(id: u32, thing: &OpenThing) -> bool
    ensures { result ≡ links.is_of_request id thing.now }
{
    match thing {
        OpenThing::Owned { request }
        | OpenThing::Sent { request, .. }
        | OpenThing::Queued { request, .. }
        | OpenThing::Returning { request, .. } => request.id.0 == id,
        _ => false,
    }
}

/// Whether a line is of this deferred work.
fn is_of_work(id: u32, thing: &OpenThing) -> bool
    ensures { result ≡ links.is_of_work id thing.now }
{
    match thing {
        OpenThing::Deferred { object } => object.id.0 == id,
        _ => false,
    }
}

/// Whether a line is of this object, whose deletion was asked.
fn is_of_object(id: u32, thing: &OpenThing) -> bool
    ensures { result ≡ links.is_of_object id thing.now }
{
    match thing {
        OpenThing::Leaving { object } => object.id.0 == id,
        _ => false,
    }
}

/// Whether a cause names what is open.
fn names(cause: Cause, thing: &OpenThing) -> bool
    ensures { result ≡ links.names cause thing.now }
{
    match cause {
        Cause::ByFrame { frame } | Cause::ByLock { frame, .. } => is_of_frame(frame.0, thing),
        Cause::ByRequest { request } | Cause::Behind { request } => {
            is_of_request(request.id.0, thing)
        }
        Cause::ByWork { work } => is_of_work(work.id.0, thing),
        Cause::ByChild { child } => is_of_object(child.id.0, thing),
        _ => false,
    }
}

/// The place of the line that a cause names.
fn place_of(waits: &[WaitLine], cause: Cause) -> Option<usize>
    ensures value { result ≡ position (λ (w : WaitLine). links.names cause w.thing) waits.now }
    ensures within { IfSome result (λ place. place < length waits.now) }
{
    waits.iter().position(|wait| names(cause, &wait.thing))
}

/// The number of the line that a cause names, counted from 1.
fn number_of(waits: &[WaitLine], cause: Cause) -> Option<usize>
    ensures { result ≡ links.next_by waits.now (Some cause) }
{
    let place = place_of(waits, cause)?;
    Some(place + 1)
}

/// The number of the line that a line waits for.
pub(crate) fn next_of(waits: &[WaitLine], wait: &WaitLine) -> Option<usize>
    ensures { result ≡ links.next_of waits.now wait.now }
{
    match wait.cause {
        Some(cause) => number_of(waits, cause),
        None => None,
    }
}

/// For each line of a wait list the line that it waits for.
pub(crate) fn nexts_of(alloc: Global, waits: &[WaitLine]) -> Result<Vec<Option<usize>>, Memory>
    ensures { IfOk result (λ nexts. nexts.items ≡ links.nexts_of waits.now) }
{
    let mut nexts = Vec::new(alloc);
    for wait in waits {
        nexts.push(next_of(waits, wait))?;
    }
    Ok(nexts)
}
