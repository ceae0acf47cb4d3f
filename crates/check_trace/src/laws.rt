//! The laws on requests, scopes, objects and cancels.
ghost use Rattle.std.specs.Prelude.{◌≡◌};
ghost use Rattle.std.specs.List.{list_all, list_any};
ghost use Rattle.wdf_laws.specs.Laws as laws;
ghost use Rattle.wdf_laws.specs.Family as family;
ghost use Rattle.check_past.specs.Past.{before};
ghost use Rattle.check_trace.specs.Tests as tests;

use check_past::{Frames, Past};
use check_signs::{begun_for, completed, destroyed};
use wdf_base::{Callback, Event, LockRef, same_callback};
use wdf_laws::{Begun, Sign};
use wdf_same::same_lock;

fn completes_once(past: &Past, completed: Option<u32>) -> bool
    ensures { result ≡ laws.completes_once (before past.now) completed }
{
    match completed {
        Some(r) => past.ever(Sign::Arrival(r)) && !past.ever(Sign::Completion(r)),
        None => true,
    }
}

fn all_completed(past: &Past, requests: &[u32]) -> bool
    ensures { result ≡ list_all (tests.is_done (before past.now)) requests.now }
{
    requests
        .iter()
        .all(|request| past.ever(Sign::Completion(*request)))
}

#[tactic(auto, using(crate::proofs::Groups::settled_by_arrivals))]
fn ends_after_requests(past: &Past, ended: Option<u32>) -> bool
    ensures { result ≡ laws.ends_after_requests (before past.now) ended }
{
    match ended {
        Some(device) => all_completed(past, past.arrivals(device)),
        None => true,
    }
}

/// A request is completed once, after it arrived; a device is destroyed after its requests are completed.
pub fn keeps_completions(past: &Past, event: &Event) -> bool
    ensures { result ≡ laws.law_1 (before past.now) event.now }
{
    completes_once(past, completed(event)) && ends_after_requests(past, destroyed(event))
}

fn needs(scope: LockRef, needed: Option<LockRef>) -> bool
    ensures { result ≡ laws.needs scope needed }
{
    match needed {
        Some(lock) => same_lock(lock, scope),
        None => false,
    }
}

fn is_under(past: &Past, scope: LockRef, begun: &Begun) -> bool
    ensures { result ≡ laws.is_under past.now.plan past.now.all scope begun.now }
{
    needs(scope, past.scope_on(begun.callback, begun.object))
}

fn any_under(past: &Past, scope: LockRef, begun: &[Begun]) -> bool
    ensures { result ≡ list_any (laws.is_under past.now.plan past.now.all scope) begun.now }
{
    begun.iter().any(|callback| is_under(past, scope, callback))
}

fn is_free_scope(past: &Past, frames: &Frames, scope: Option<LockRef>) -> bool
    ensures { result ≡ laws.is_free_scope past.now.plan past.now.all frames.now scope }
{
    match scope {
        Some(lock) => !any_under(past, lock, frames.begun()),
        None => true,
    }
}

/// Callbacks under one scope lock come one after the other.
pub fn keeps_scopes(past: &Past, frames: &Frames, event: &Event) -> bool
    ensures { result ≡ laws.law_2 past.now.plan past.now.all frames.now event.now }
{
    match event {
        Event::Start {
            callback,
            object,
            ..
        } => is_free_scope(past, frames, past.scope_on(*callback, object.id.0)),
        _ => true,
    }
}

/// Whether an object, or one of the first `most` from it upwards, was cleaned up.
#[tactic(auto, using(crate::proofs::Upwards::above_next))]
fn cleaned_above(past: &Past, most: usize, o: u32) -> bool
    ensures { result ≡ family.cleaned_above past.now.plan past.now.all (before past.now) most o }
{
    let mut at = o;
    let mut left = most;
    while left > 0 {
        if past.ever(Sign::Cleaned(at)) {
            return true;
        }
        at = past.parent_of(at);
        if at == 0 {
            return false;
        }
        left -= 1;
    }
    false
}

/// After the cleanup of an object nothing begins on it or below it but its destroy callback.
pub fn keeps_cleanups(past: &Past, event: &Event) -> bool
    ensures { result ≡ laws.law_3 past.now.plan past.now.all (before past.now) event.now }
{
    match event {
        Event::Start {
            callback,
            object,
            ..
        } => {
            same_callback(*callback, Callback::EvtDestroyCallback)
                || !cleaned_above(past, past.most_above(), object.id.0)
        }
        _ => true,
    }
}

fn is_cancel_due(past: &Past, request: Option<u32>) -> bool
    ensures { result ≡ laws.is_cancel_due (before past.now) request }
{
    match request {
        Some(r) => {
            past.ever(Sign::CancelPosted(r))
                && past.stands(Sign::Marked(r), Sign::MarkUndone(r))
                && !past.ever(Sign::CancelBegins(r))
        }
        None => true,
    }
}

/// A cancel callback comes once, for a request that is marked and whose cancel was posted.
pub fn keeps_cancels(past: &Past, event: &Event) -> bool
    ensures { result ≡ laws.law_7 (before past.now) event.now }
{
    is_cancel_due(past, begun_for(Callback::EvtRequestCancel, event))
}

fn all_ended(past: &Past, objects: &[u32]) -> bool
    ensures { result ≡ list_all (tests.has_ended (before past.now)) objects.now }
{
    objects
        .iter()
        .all(|object| past.ever(Sign::Destroyed(*object)))
}

#[tactic(auto, using(crate::proofs::Groups::ended_by_children))]
fn ends_well(past: &Past, ended: Option<u32>) -> bool
    ensures { result ≡ laws.ends_well past.now.plan past.now.all (before past.now) ended }
{
    match ended {
        Some(o) => {
            past.ever(Sign::Cleaned(o))
                && !past.ever(Sign::Destroyed(o))
                && all_ended(past, past.children(o))
                && past.dereferenced(o) == past.referenced(o)
        }
        None => true,
    }
}

/// An object is destroyed once, after its cleanup and its children, and without references.
pub fn keeps_ends(past: &Past, event: &Event) -> bool
    ensures { result ≡ laws.law_9 past.now.plan past.now.all (before past.now) event.now }
{
    ends_well(past, destroyed(event))
}
