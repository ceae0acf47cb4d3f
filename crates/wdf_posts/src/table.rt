//! Which post is due for an agent, what a post answers, and what it does.
ghost use Rattle.std.specs.Prelude.{◌≡◌, ◌+◌, ◌<◌, ◌^◌, ◌∷◌, [], Some};
ghost use Rattle.wdf_base.specs.Same as same;
ghost use Rattle.wdf_model.specs.Tables.{entry};
ghost use Rattle.wdf_model.specs.rules.Deeds.{do_deeds};
ghost use Rattle.wdf_model.specs.rules.Posts as posts;
ghost use Rattle.wdf_model.specs.rules.Room.{AreDoable};

use crate::arrivals::{arrival, arrival_answer};
use crate::cancels::{cancel, cancel_reaches};
use crate::fitting::post_fits;
use wdf_base::{Agent, Ask, Handle, ObjectId, Post, RequestForm, Status};
use wdf_model::Deed;
use wdf_parts::Parts;
use wdf_plan_index::IndexedPlan;
use wdf_same::{same_option_handle, same_post};

/// What a post answers: the request that an arrival makes, or that a cancel reaches.
pub fn post_answer<A: Agent>(
    plan: &IndexedPlan,
    parts: &Parts<A>,
    agent: u16,
    post: &Post,
) -> Option<Handle>
    ensures { result ≡ posts.post_answer plan.now parts.now agent post.now }
{
    match *post {
        Post::Read { device, .. } | Post::Write { device, .. } | Post::Control { device, .. } => {
            arrival_answer(parts, device.id)
        }
        Post::Cancel { arrival } => match cancel_reaches(parts, agent, arrival) {
            Some(r) => Some(parts.handle_in(plan, r)),
            None => None,
        },
        Post::Ask { .. } | Post::Act { .. } | Post::Done { .. } => None,
    }
}

/// A sequence of a device begins.
fn ask<A: Agent>(plan: &IndexedPlan, parts: &mut Parts<A>, device: ObjectId, ask: Ask)
    requires { AreDoable plan.now (Deed.AskDevice device ask ∷ []) parts.old }
    ensures { parts.new ≡ do_deeds plan.now (Deed.AskDevice device ask ∷ []) parts.old }
{
    parts.do_deed(plan, &Deed::AskDevice { device, ask });
}

/// A target is done with a request.
fn finish<A: Agent>(plan: &IndexedPlan, parts: &mut Parts<A>, request: ObjectId, status: Status)
    requires { AreDoable plan.now (Deed.FinishSending request status ∷ []) parts.old }
    ensures { parts.new ≡ do_deeds plan.now (Deed.FinishSending request status ∷ []) parts.old }
{
    parts.do_deed(plan, &Deed::FinishSending { request, status });
}

/// What a post does is done: a request arrives or is cancelled, a sequence begins, or a target is done with a
/// request. What a device does is its agent's. An arrival has the next number of its agent.
pub fn take_post<A: Agent>(plan: &IndexedPlan, parts: &mut Parts<A>, agent: u16, post: &Post)
    requires number { entry 0 parts.old.arrivals agent + 1 < 2 ^ 32 }
    requires doable { AreDoable plan.now (posts.post_deeds plan.now parts.old agent post.now) parts.old }
    ensures { parts.new ≡ do_deeds plan.now (posts.post_deeds plan.now parts.old agent post.now) parts.old }
{
    match *post {
        Post::Read { device, length } => {
            arrival(plan, parts, agent, RequestForm::Read, length, 0, device.id)
        }
        Post::Write { device, length } => {
            arrival(plan, parts, agent, RequestForm::Write, length, 0, device.id)
        }
        Post::Control {
            device,
            code,
            length,
        } => {
            let form = RequestForm::Control;
            arrival(plan, parts, agent, form, length, code, device.id)
        }
        Post::Cancel { arrival } => {
            let reached = cancel_reaches(parts, agent, arrival);
            cancel(plan, parts, reached);
        }
        Post::Ask { ask: asked, device } => ask(plan, parts, device.id, asked),
        Post::Act { .. } => {}
        Post::Done { request, status } => finish(plan, parts, request.id, status),
    }
}

/// The post that is due for an agent, if any.
pub fn due_of<A: Agent>(parts: &Parts<A>, agent: u16) -> Option<Post>
    ensures { result ≡ posts.due_of A.meaning parts.now agent }
{
    match parts.agent(usize::from(agent)) {
        Some(agent) => agent.due(),
        None => None,
    }
}

/// Whether there is a post, and it is this one.
fn is_post(found: Option<Post>, post: &Post) -> bool
    ensures { result ≡ same.same_option same.same_post found (Some post.now) }
{
    match found {
        Some(other) => same_post(&other, post),
        None => false,
    }
}

/// Whether a post may come: it is due, it fits, and its answer is the right one.
pub fn may_post<A: Agent>(
    plan: &IndexedPlan,
    parts: &Parts<A>,
    agent: u16,
    post: &Post,
    answer: Option<Handle>,
) -> bool
    ensures { result ≡ posts.may_post plan.now A.meaning parts.now agent post.now answer }
{
    is_post(due_of(parts, agent), post)
        && post_fits(plan, parts, agent, post)
        && same_option_handle(post_answer(plan, parts, agent, post), answer)
}
