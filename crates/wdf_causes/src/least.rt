//! The least frame, and the least request, of those that fit.
ghost use Rattle.std.specs.Prelude.{◌≡◌, filter};
ghost use Rattle.wdf_model.specs.Tables.{ids_of, least};
ghost use Rattle.wdf_base.specs.declared.event.Stage.TheVariants as stage;
ghost use Rattle.wdf_base.specs.Places.{is_returning_to, is_sent_to};
ghost use Rattle.wdf_model.specs.State.{held_from, waits_for};
ghost use Rattle.wdf_model.specs.parts.Cpus.{all_frames, frame_of, is_on};
ghost use Rattle.wdf_model.specs.rules.Waits as waits;
ghost use Rattle.wdf_causes.specs.Keepers.{some_resume};
ghost use Rattle.wdf_causes.specs.Asked.{is_so_of_frame, is_so_of_request};

use crate::asked::{FrameTest, RequestTest};
use wdf_base::{Agent, Callback, ObjectId};
use wdf_cpu::Cpus;
use wdf_maps::lesser_if;
use wdf_parts::Parts;
use wdf_plan_index::IndexedPlan;

#[tactic(auto, using(crate::proofs::OnFrames::frames_at_first, crate::proofs::OnFrames::frame_kept, crate::proofs::OnFrames::frame_passed, crate::proofs::OnFrames::frames_at_last))]
/// The least number of the frames of which it is so.
pub(crate) fn least_frame(cpus: &Cpus, test: FrameTest) -> Option<u32>
    ensures { result ≡ least (filter (λ f. is_so_of_frame test (frame_of cpus.now f)) (all_frames cpus.now)) }
{
    let mut least = None;
    for place in 0..cpus.live_len() {
        let f = cpus.live_at(place);
        if test.is_so(cpus.frame(f)) {
            least = lesser_if(least, Some(f.0));
        }
    }
    least
}

#[tactic(auto, using(crate::proofs::OnRequests::requests_at_first, crate::proofs::OnRequests::request_passed, crate::proofs::OnRequests::request_found, crate::proofs::OnRequests::requests_at_end))]
/// The least id of the requests of which it is so.
pub(crate) fn least_request<A: Agent>(
    plan: &IndexedPlan,
    parts: &Parts<A>,
    test: RequestTest,
) -> Option<u32>
    ensures { result ≡ least (filter (is_so_of_request plan.now parts.now test) (ids_of parts.now.requests.all)) }
{
    for r in 0..parts.requests().len() {
        if test.is_so(plan, parts, ObjectId(r)) {
            return Some(r);
        }
    }
    None
}

/// The least frame that runs on an object.
pub fn least_on<A: Agent>(parts: &Parts<A>, o: ObjectId) -> Option<u32>
    ensures { result ≡ least (filter (is_on parts.now.cpus o.0) (all_frames parts.now.cpus)) }
{
    least_frame(parts.cpus(), FrameTest::On(o))
}

/// The least frame that waits for an object.
pub fn least_waiting_for<A: Agent>(parts: &Parts<A>, o: ObjectId) -> Option<u32>
    ensures { result ≡ least (waits.frames_where parts.now (λ frame. waits_for o.0 frame.pending)) }
{
    least_frame(parts.cpus(), FrameTest::WaitsFor(o))
}

/// The least frame that runs this callback on a device, or on what has it as nearest device.
pub fn least_running<A: Agent>(parts: &Parts<A>, callback: Callback, d: ObjectId) -> Option<u32>
    ensures { result ≡ least (waits.frames_where parts.now (waits.runs_step d.0 callback)) }
{
    least_frame(parts.cpus(), FrameTest::Runs(callback, d))
}

/// The least request that the driver holds from a queue.
pub fn least_held_from<A: Agent>(plan: &IndexedPlan, parts: &Parts<A>, q: ObjectId) -> Option<u32>
    ensures { result ≡ least (held_from parts.now q.0) }
{
    least_request(plan, parts, RequestTest::HeldFrom(q))
}

/// The least request that returns to a queue.
pub fn least_returning_to<A: Agent>(
    plan: &IndexedPlan,
    parts: &Parts<A>,
    q: ObjectId,
) -> Option<u32>
    ensures { result ≡ least (waits.requests_where parts.now (is_returning_to q.0)) }
{
    least_request(plan, parts, RequestTest::ReturningTo(q))
}

/// The least request that is sent to a target.
pub fn least_sent_to<A: Agent>(plan: &IndexedPlan, parts: &Parts<A>, t: ObjectId) -> Option<u32>
    ensures { result ≡ least (waits.requests_where parts.now (is_sent_to t.0)) }
{
    least_request(plan, parts, RequestTest::SentTo(t))
}

#[tactic(auto, using(crate::proofs::OnRequests::left_at_device))]
/// The least request that arrived at a device and isn't done, or that is sent to a target of it.
pub(crate) fn least_left_at<A: Agent>(
    plan: &IndexedPlan,
    parts: &Parts<A>,
    d: ObjectId,
) -> Option<u32>
    ensures { result ≡ least (waits.stage_requests plan.now parts.now d.0 stage.Removed) }
{
    least_request(plan, parts, RequestTest::LeftAt(d))
}

#[tactic(auto, using(crate::proofs::OnRequests::resumes_found))]
/// Whether a resume is due for a request that is held from a queue.
pub(crate) fn some_resume<A: Agent>(plan: &IndexedPlan, parts: &Parts<A>, q: ObjectId) -> bool
    ensures { result ≡ some_resume plan.now parts.now q.0 }
{
    least_request(plan, parts, RequestTest::ResumeDue(q)).is_some()
}
