//! What is so where a run has finished or is stuck: nothing waits for time, and nothing that may come is due.
//!
//! # Choices
//!
//! - **Why is it not said that no post is due, of any agents?** A post may be due that can't come: of the Plug and Play
//!   manager while the device has a sequence under way, or an arrival where 4,096 requests have arrived. What is due is
//!   said to be such a one: it doesn't fit, by the machine's table of posts. A cancel always fits, so none is due.
//! - **Why is more said of the program's agents?** A resolved plan has at most 4,096 lines that post. So no more requests
//!   arrive than there is room for, and a post of an app, or of a device, always fits. What a target has is sent to it and
//!   isn't cleaned up, so a post by which it is done with a request always fits too.
#![tactic(auto)]

ghost use Rattle.std.specs.Prelude.{◌≡◌, ◌⊎◌, List};
ghost use Rattle.wdf_base.specs.Meaning.{Meaning};
ghost use Rattle.wdf_base.specs.Resolved.{IsResolved};
ghost use Rattle.wdf_base.specs.declared.plan.Plan.{Plan};
ghost use Rattle.wdf_base.specs.declared.event.Event.{Event};
ghost use Rattle.wdf_base.specs.declared.event.Ending.TheVariants as ending;
ghost use Rattle.wdf_model.specs.rules.Ready.{IsRunOf, ending_of, state_after};
ghost use Rattle.wdf_dev.specs.Agents.{agent_meaning};
ghost use Rattle.law_at_rest.specs.Rest.{AllOver, AllPlayed, AsksAreDue, NothingComes};

/// Where a run has finished or is stuck, no frame spends time, and no timer and no agent waits for a later tick. What an
/// agent has due doesn't fit the machine's table of posts, so it can't come. It holds for any plan and any agents.
pub fn nothing_comes<A>()
    ensures { (plan : Plan) (m : Meaning A) (run : List Event) → (ending_of plan m run ≡ ending.Finished) ⊎ (ending_of plan m run ≡ ending.Stuck)
        → NothingComes plan m (state_after plan m run) }
{}

/// With the agents of `wdf_dev`, where a run of a resolved plan has finished or is stuck, each app has posted all its lines,
/// no device has an action due or later, and each target is done with all that was sent to it. The Plug and Play manager has
/// posted all its lines; or the next one is for a device that isn't done with the sequence before it.
pub fn lines_are_posted()
    ensures { (plan : Plan) (run : List Event) → IsResolved plan → IsRunOf plan agent_meaning run
        → (ending_of plan agent_meaning run ≡ ending.Finished) ⊎ (ending_of plan agent_meaning run ≡ ending.Stuck)
        → AllOver plan (state_after plan agent_meaning run) }
{}

/// With the agents of `wdf_dev`, where a run of a resolved plan has finished or is stuck, no post is due but one of the Plug
/// and Play manager, for a device that isn't done with the sequence before it.
pub fn only_asks_are_due()
    ensures { (plan : Plan) (run : List Event) → IsResolved plan → IsRunOf plan agent_meaning run
        → (ending_of plan agent_meaning run ≡ ending.Finished) ⊎ (ending_of plan agent_meaning run ≡ ending.Stuck)
        → AsksAreDue (state_after plan agent_meaning run) }
{}

/// With the agents of `wdf_dev`, where a run of a resolved plan has finished, the whole scenario was played. The Plug and Play
/// manager and each app have posted all their lines, no device has an action left, each target is done with all that was
/// sent to it, and no post is due.
pub fn finished_runs_have_played_all()
    ensures { (plan : Plan) (run : List Event) → IsResolved plan → IsRunOf plan agent_meaning run → ending_of plan agent_meaning run ≡ ending.Finished
        → AllPlayed plan (state_after plan agent_meaning run) }
{}
