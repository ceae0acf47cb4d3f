//! Laws over all runs on the simulated targets: a target is done with what was sent to it, in time and in order.
//!
//! # Choices
//!
//! - **Of which agents?** Of any that is a target of the machine's definitions (`IsTargetAgent`). Those of the program are such,
//!   and so are those of its idle runs, and in stacks those of targets that aren't connected to a device below.
//! - **Which events tell?** A Send that answers 1, and what cancels: the driver's cancel of the sent request that answers 1, a stop
//!   of the target with action 0, an app's cancel that reaches the request. All else is read off the clock and the scenario.
//! - **Why is `targets_are_prompt` of `order`, `seed N`, `run` and `watch` alone?** It needs that a target's post always fits, so
//!   that the handle is as the machine knows it. `law_at_rest` says that of their agents.
#![tactic(auto)]

ghost use Rattle.std.specs.Prelude.{◌≡◌, ◌≤◌, ◌+◌, ℕ, suc, count_by, List, Option, Some, None, slice_get, take};
ghost use Rattle.wdf_base.specs.Meaning.{Meaning};
ghost use Rattle.wdf_base.specs.Resolved.{IsResolved};
ghost use Rattle.wdf_base.specs.declared.plan.Plan.{Plan};
ghost use Rattle.wdf_base.specs.declared.ids.Cpu.{Cpu};
ghost use Rattle.wdf_base.specs.declared.ids.Handle.{Handle};
ghost use Rattle.wdf_base.specs.declared.call.Call.{Call};
ghost use Rattle.wdf_base.specs.declared.call.CallKind.TheVariants as call;
ghost use Rattle.wdf_base.specs.declared.value.Status.{Status};
ghost use Rattle.wdf_base.specs.declared.value.Value.{Value};
ghost use Rattle.wdf_base.specs.declared.event.Event.{Event};
ghost use Rattle.wdf_base.specs.declared.event.Event.TheVariants as event;
ghost use Rattle.wdf_base.specs.declared.event.Post.TheVariants as post;
ghost use Rattle.wdf_model.specs.Plans.{target_of_agent};
ghost use Rattle.wdf_model.specs.agents.Chains.{connected_to};
ghost use Rattle.wdf_model.specs.rules.Ready.{IsRunOf, state_after};
ghost use Rattle.wdf_dev.specs.Agents.{agent_meaning};
ghost use Rattle.wdf_idle.specs.Agents.{idle_meaning};
ghost use Rattle.wdf_stack.specs.Agents.{stack_meaning};
ghost use Rattle.law_idle.specs.Idling.{time_after};
ghost use Rattle.law_targets.specs.Targets.{IsAt, IsNotDue, IsTargetAgent, MayBeDone, delay_of, depth_of, is_done_by, sends};

/// In every run of a resolved plan, a target is done with a request only where that was sent to it and it wasn't done with it
/// since. That comes no sooner than its delay after the send, with its status; or the request is to be cancelled since, and
/// the status is CANCELLED. What was sent to it earlier and is there isn't due then: it isn't to be cancelled, and its delay
/// isn't over. A request that isn't to be cancelled overtakes none.
pub fn targets_are_done_with_what_was_sent<A>()
    ensures { (plan : Plan) (m : Meaning A) (run : List Event) → IsResolved plan → IsRunOf plan m run → (k t : ℕ) → IsTargetAgent plan m k t
        → (n : ℕ) (h : Handle) (s : Status) (answer : Option Handle) → slice_get run n ≡ Some (event.Posted k (post.Done h s) answer) → MayBeDone plan t h s (take n run) }
{}

/// At each place of every run, the requests that were sent to a target are no more than those with which it was done and its
/// depth together: it keeps at most its depth.
pub fn targets_keep_at_most_their_depth<A>()
    ensures { (plan : Plan) (m : Meaning A) (run : List Event) → IsRunOf plan m run → (k t : ℕ) → IsTargetAgent plan m k t
        → (n : ℕ) → count_by (sends t) (take n run) ≤ count_by (is_done_by k) (take n run) + depth_of plan t }
{}

/// The agents of targets are such agents: all of `wdf_dev` and of `wdf_idle`, and of `wdf_stack` those of targets that are not
/// connected. With the first two, whoever is done with a request is such a target, and may be done with it.
pub fn targets_of_the_program_are_such()
    ensures usual { (plan : Plan) (k t : ℕ) → target_of_agent plan k ≡ Some t → IsTargetAgent plan agent_meaning k t }
    ensures idle { (plan : Plan) (k t : ℕ) → target_of_agent plan k ≡ Some t → IsTargetAgent plan idle_meaning k t }
    ensures stack { (plan : Plan) (k t : ℕ) → target_of_agent plan k ≡ Some t → connected_to plan t ≡ None → IsTargetAgent plan stack_meaning k t }
    ensures runs { (plan : Plan) (run : List Event) → IsResolved plan → IsRunOf plan agent_meaning run → (n k : ℕ) (h : Handle) (s : Status) (answer : Option Handle) → slice_get run n ≡ Some (event.Posted k (post.Done h s) answer)
        → (t : ℕ) × (target_of_agent plan k ≡ Some t) × MayBeDone plan t h s (take n run) }
    ensures idle_runs { (plan : Plan) (run : List Event) → IsResolved plan → IsRunOf plan idle_meaning run → (n k : ℕ) (h : Handle) (s : Status) (answer : Option Handle) → slice_get run n ≡ Some (event.Posted k (post.Done h s) answer)
        → (t : ℕ) × (target_of_agent plan k ≡ Some t) × MayBeDone plan t h s (take n run) }
{}

/// With the agents of `wdf_dev`, no request is at a target longer than the target's delay. And when time passes, no request that
/// is at a target is due: none is to be cancelled, and the delay of none is over. So a target is done with a request in the
/// very tick in which its delay is over, or in which it is cancelled.
pub fn targets_are_prompt()
    ensures in_time { (plan : Plan) (run : List Event) → IsResolved plan → IsRunOf plan agent_meaning run → (n k t : ℕ) → target_of_agent plan k ≡ Some t
        → (h : Handle) (it : IsAt t h (take n run)) → time_after (take n run) ≤ time_after it.before + delay_of plan t }
    ensures ticks { (plan : Plan) (run : List Event) → IsResolved plan → IsRunOf plan agent_meaning run → (n time k t : ℕ) → slice_get run n ≡ Some (event.Tick time) → target_of_agent plan k ≡ Some t
        → (h : Handle) (it : IsAt t h (take n run)) → IsNotDue plan t h (take n run) it }
{}

/// In every run, WdfRequestCancelSentRequest changes no request and no target. So the request doesn't become cancelled by it,
/// and stays at its target until that is done with it.
pub fn cancels_of_sent_requests_change_nothing<A>()
    ensures { (plan : Plan) (m : Meaning A) (run : List Event) → IsRunOf plan m run → (n : ℕ) (cpu : Cpu) (c : Call) (v : Value) → slice_get run n ≡ Some (event.Did cpu c v) → c.kind ≡ call.WdfRequestCancelSentRequest
        → ((state_after plan m (take (suc n) run)).requests ≡ (state_after plan m (take n run)).requests) × ((state_after plan m (take (suc n) run)).targets ≡ (state_after plan m (take n run)).targets) }
{}
