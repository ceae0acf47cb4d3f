//! The law on runs in which idle devices sleep. When time passes no device sleeps with a pending request, and none that is
//! idle is awake past its timeout. A device that no line of `pnp` puts to sleep does so exactly when it has been idle that
//! long. One that no line of `pnp` wakes is woken for a request alone.
#![tactic(auto)]

ghost use Rattle.std.specs.Prelude.{◌≡◌, ℕ, true, List, Option, Some, slice_get, take};
ghost use Rattle.wdf_base.specs.Meaning.{Meaning};
ghost use Rattle.wdf_base.specs.declared.plan.Plan.{Plan};
ghost use Rattle.wdf_base.specs.declared.event.Event.{Event};
ghost use Rattle.wdf_base.specs.Resolved.{IsResolved};
ghost use Rattle.wdf_model.specs.rules.Ready.{IsRunOf};
ghost use Rattle.wdf_model.specs.agents.IdlePolicy.{IdlePolicy};
ghost use Rattle.wdf_idle.specs.Agents.{idle_meaning};
ghost use Rattle.law_idle.specs.Law.{keeps_idle_law};
ghost use Rattle.law_idle.specs.Policies.{HasPolicy};

/// In every run of agents of which the first is the idle policy, each event keeps the law on idle runs.
pub fn runs_keep_idle_law<A>()
    ensures { (plan : Plan) (m : Meaning A) (policy : A → Option IdlePolicy) (run : List Event) (k : ℕ) (e : Event)
        → HasPolicy m policy → IsResolved plan → IsRunOf plan m run
        → slice_get run k ≡ Some e → keeps_idle_law plan (take k run) e ≡ true }
{}

/// So in every run of the program's agents of such runs, whatever they are told in what order.
pub fn idle_runs_keep_their_law()
    ensures { (plan : Plan) (run : List Event) (k : ℕ) (e : Event) → IsResolved plan → IsRunOf plan idle_meaning run
        → slice_get run k ≡ Some e → keeps_idle_law plan (take k run) e ≡ true }
{}
