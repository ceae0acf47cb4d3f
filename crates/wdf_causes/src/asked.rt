//! What is asked of frames and of requests.
ghost use Rattle.std.specs.Prelude.{◌≡◌};
ghost use Rattle.wdf_model.specs.State as state;
ghost use Rattle.wdf_model.specs.rules.Starts as starts;
ghost use Rattle.wdf_causes.specs.Asked as asked;

use wdf_base::{Agent, Callback, Frame, ObjectId, Pending, Place, same_callback};
use wdf_model::{Request, object_in};
use wdf_parts::Parts;
use wdf_plan_index::IndexedPlan;

/// What is asked of a frame.
#[derive(Clone, Copy)]
pub(crate) enum FrameTest {
    /// It runs on this object.
    On(ObjectId),
    /// It waits for this object.
    WaitsFor(ObjectId),
    /// It runs this callback on this device, or on what has it as nearest device.
    Runs(Callback, ObjectId),
}

/// What is asked of a request.
#[derive(Clone, Copy)]
pub(crate) enum RequestTest {
    /// The driver holds it from this queue.
    HeldFrom(ObjectId),
    /// A resume is due for it, and the driver holds it from this queue.
    ResumeDue(ObjectId),
    /// It returns to this queue.
    ReturningTo(ObjectId),
    /// It is sent to this target.
    SentTo(ObjectId),
    /// It arrived at this device and isn't done, or it is sent to a target of the device.
    LeftAt(ObjectId),
}

impl FrameTest {
    /// Whether it is so of a frame.
    pub(crate) fn is_so(self, frame: &Frame) -> bool
        ensures { result ≡ asked.is_so_of_frame self frame.now }
    {
        match self {
            FrameTest::On(o) => frame.object.id.0 == o.0,
            FrameTest::WaitsFor(o) => waits_for(o, frame.pending),
            FrameTest::Runs(callback, d) => {
                same_callback(frame.callback, callback) && frame.device.id.0 == d.0
            }
        }
    }
}

/// Whether a call waits for an object.
fn waits_for(o: ObjectId, pending: Option<Pending>) -> bool
    ensures { result ≡ state.waits_for o.0 pending }
{
    pending.is_some_and(|pending| object_in(pending.call.a).0 == o.0)
}

impl RequestTest {
    /// Whether it is so of a request.
    pub(crate) fn is_so<A: Agent>(self, plan: &IndexedPlan, parts: &Parts<A>, r: ObjectId) -> bool
        ensures { result ≡ asked.is_so_of_request plan.now parts.now self r.0 }
    {
        match self {
            RequestTest::HeldFrom(q) => parts.is_held_from(q, r),
            RequestTest::ResumeDue(q) => { parts.is_held_from(q, r) && parts.power().resume_due(r) }
            RequestTest::ReturningTo(q) => parts.requests().place(r).is_returning_to(q),
            RequestTest::SentTo(t) => parts.requests().place(r).is_sent_to(t),
            RequestTest::LeftAt(d) => is_left_at(plan, d, parts.requests().request(r)),
        }
    }
}

/// Whether a request arrived at a device and isn't done, or is sent to a target of the device.
fn is_left_at(plan: &IndexedPlan, d: ObjectId, request: Request) -> bool
    ensures { result ≡ asked.is_left_at plan.now d.0 request }
{
    is_unfinished_at(d, request) || is_sent_from(plan, d, request.place)
}

/// Whether a request arrived at a device and isn't done.
fn is_unfinished_at(d: ObjectId, request: Request) -> bool
    ensures { result ≡ starts.is_unfinished_at d.0 request }
{
    0 < request.info.arrival && request.info.device.0 == d.0 && !request.place.is_done()
}

/// Whether a request is sent to a target of a device.
fn is_sent_from(plan: &IndexedPlan, d: ObjectId, place: Place) -> bool
    ensures { result ≡ asked.is_sent_from plan.now d.0 place }
{
    match place {
        Place::Sent(t) => is_target_of(plan, d, t),
        _ => false,
    }
}

/// Whether an id is that of a target of this device.
fn is_target_of(plan: &IndexedPlan, d: ObjectId, t: ObjectId) -> bool
    ensures { result ≡ asked.is_target_at plan.now d.0 t.0 }
{
    plan.target_of(t)
        .is_some_and(|target| target.device.0 == d.0)
}
