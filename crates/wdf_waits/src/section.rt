//! The wait list by sections: the line of each thing, if it has one.
ghost use Rattle.std.specs.Prelude.{◌≡◌, ◌≤◌, ◌^◌, is_some};
ghost use Rattle.wdf_waits.specs.declared.section.Section.TheVariants as section;
ghost use Rattle.wdf_model.specs.rules.Posts.{due_of};
ghost use Rattle.wdf_waits.specs.Lines as lines;

use crate::deferred::deferred_line;
use crate::devices::device_line;
use crate::frames::frame_line;
use crate::objects::{is_leaving, object_line};
use crate::requests::{has_line_at, is_open_request, request_line};
use wdf_base::{Agent, FrameId, ObjectId, OpenThing, Post, WaitLine};
use wdf_model::Request;
use wdf_parts::Parts;
use wdf_plan_index::IndexedPlan;
use wdf_posts::due_of;

/// The sections of the wait list.
#[derive(Clone, Copy)]
pub(crate) enum Section {
    /// The frames, by number.
    Frames,
    /// The requests that are open, by id.
    Requests,
    /// The devices with steps left, by id.
    Devices,
    /// The objects whose deletion hasn't come to its end, by id.
    Objects,
    /// The deferred work, by id.
    Work,
    /// The Plug and Play manager.
    Asking,
}

/// Whether a request is open, and isn't about to be completed.
fn has_request_line(request: &Request) -> bool
    ensures { result ≡ lines.has_request_line request.now }
{
    is_open_request(request) && has_line_at(request.place)
}

/// Whether a device has steps left.
fn is_open_device<A: Agent>(plan: &IndexedPlan, parts: &Parts<A>, d: ObjectId) -> bool
    ensures { result ≡ lines.is_open_device plan.now parts.now d.0 }
{
    plan.device_of(d).is_some() && 0 < parts.pnp().steps_left(d)
}

/// Whether a thing of a section has a line.
pub(crate) fn has_line<A: Agent>(
    plan: &IndexedPlan,
    parts: &Parts<A>,
    section: Section,
    id: u32,
) -> bool
    ensures { result ≡ is_some (lines.line_in plan.now A.meaning parts.now section id) }
{
    let o = ObjectId(id);
    match section {
        Section::Frames => parts.cpus().is_live(FrameId(id)),
        Section::Requests => has_request_line(&parts.requests().request(o)),
        Section::Devices => is_open_device(plan, parts, o),
        Section::Objects => is_leaving(parts, o),
        Section::Work => parts.is_open_work(o),
        Section::Asking => asked_line(parts).is_some(),
    }
}

/// The line of a frame that runs or is parked.
fn live_frame_line<A: Agent>(plan: &IndexedPlan, parts: &Parts<A>, f: FrameId) -> Option<WaitLine>
    ensures { result ≡ lines.line_in plan.now A.meaning parts.now section.Frames f.0 }
{
    if parts.cpus().is_live(f) {
        Some(frame_line(plan, parts, f))
    } else {
        None
    }
}

/// The line of a request that is open, if it isn't about to be completed.
fn open_request_line<A: Agent>(
    plan: &IndexedPlan,
    parts: &Parts<A>,
    r: ObjectId,
) -> Option<WaitLine>
    ensures { result ≡ lines.open_request_line plan.now parts.now r.0 }
{
    if is_open_request(&parts.requests().request(r)) {
        request_line(plan, parts, r, parts.requests().place(r))
    } else {
        None
    }
}

/// The line of a device with steps left.
fn open_device_line<A: Agent>(plan: &IndexedPlan, parts: &Parts<A>, d: ObjectId) -> Option<WaitLine>
    ensures { result ≡ lines.open_device_line plan.now parts.now d.0 }
{
    if is_open_device(plan, parts, d) {
        device_line(plan, parts, d)
    } else {
        None
    }
}

/// The line of an object whose deletion hasn't come to its end.
fn leaving_line<A: Agent>(plan: &IndexedPlan, parts: &Parts<A>, o: ObjectId) -> Option<WaitLine>
    ensures { result ≡ lines.line_in plan.now A.meaning parts.now section.Objects o.0 }
{
    if is_leaving(parts, o) {
        Some(object_line(plan, parts, o))
    } else {
        None
    }
}

/// The line of deferred work.
fn work_line<A: Agent>(plan: &IndexedPlan, parts: &Parts<A>, o: ObjectId) -> Option<WaitLine>
    ensures { result ≡ lines.line_in plan.now A.meaning parts.now section.Work o.0 }
{
    if parts.is_open_work(o) {
        Some(deferred_line(plan, parts, o))
    } else {
        None
    }
}

/// The line of the Plug and Play manager, where a post of it is due for a device with a sequence under
/// way.
fn asked_line<A: Agent>(parts: &Parts<A>) -> Option<WaitLine>
    ensures { result ≡ lines.asked_line parts.now (due_of A.meaning parts.now 0) }
{
    match due_of(parts, 0) {
        Some(Post::Ask { device, .. }) if parts.pnp().busy(device.id) => Some(WaitLine {
            thing: OpenThing::Asking { device },
            cause: None,
        }),
        _ => None,
    }
}

/// The line of a thing of a section, if it has one.
pub(crate) fn line_in<A: Agent>(
    plan: &IndexedPlan,
    parts: &Parts<A>,
    section: Section,
    id: u32,
) -> Option<WaitLine>
    ensures { result ≡ lines.line_in plan.now A.meaning parts.now section id }
{
    let o = ObjectId(id);
    match section {
        Section::Frames => live_frame_line(plan, parts, FrameId(id)),
        Section::Requests => open_request_line(plan, parts, o),
        Section::Devices => open_device_line(plan, parts, o),
        Section::Objects => leaving_line(plan, parts, o),
        Section::Work => work_line(plan, parts, o),
        Section::Asking => asked_line(parts),
    }
}

/// An id past those of a section's things.
pub(crate) fn section_end<A: Agent>(plan: &IndexedPlan, parts: &Parts<A>, section: Section) -> usize
    ensures lines { lines.lines_below plan.now A.meaning parts.now section result ≡ lines.section_lines plan.now A.meaning parts.now section }
    ensures small { result ≤ 2 ^ 32 }
{
    match section {
        Section::Frames => parts.cpus().live_end() as usize,
        Section::Requests => parts.requests().len() as usize,
        Section::Devices => plan.declared_len() as usize + 1,
        Section::Objects => parts.tree().len() as usize,
        Section::Work => parts.tree().len() as usize,
        Section::Asking => 1,
    }
}
