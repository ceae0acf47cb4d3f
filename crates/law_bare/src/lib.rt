//! Runs don't depend on the numbers that lines have in the text, nor on a plan's own picks, where other picks are taken. Two plans
//! that are the same but for these, whose devices have their actions in the same order, have the same runs by the same picks, but
//! for the numbers that `step` and `fault` tell.
//!
//! # Choices
//!
//! - **How is it shown?** What the machine reads of a plan and of its agents is the same without the numbers, but for the
//!   order of a device's actions. So what may follow in a state is what may follow, but for the numbers, in the state without
//!   them, of the plan without them. No rule of the machine reads a plan's picks.
//! - **Why is the order of actions a premise?** A device has its `when` and its `at` lines in the order of their numbers, and
//!   they come from two lists of the plan. Of the plans of two texts with the same lines it is shown in `law_canonical`.
//! - **Why does it stand on `wdf_refusals`?** Its lemmas on two scenes that are read alike serve `law_canonical`, `law_moved` and
//!   `law_order`: a scene without numbers, with other ticks, or with lines at other places is refused for the same reason.
#![tactic(auto)]

ghost use Rattle.std.specs.Prelude.{◌≡◌, ℕ, List};
ghost use Rattle.wdf_base.specs.Meaning.{Meaning};
ghost use Rattle.wdf_base.specs.declared.plan.Plan.{Plan};
ghost use Rattle.wdf_base.specs.declared.event.Event.{Event};
ghost use Rattle.wdf_model.specs.rules.Ready.{IsPickedRun, IsRunOf};
ghost use Rattle.wdf_dev.specs.Agents.{agent_meaning};
ghost use Rattle.law_bare.specs.Agents.{SameActions};
ghost use Rattle.law_bare.specs.Bare.{HasLikePicked, HasLikeRun, SeesNoLines};
ghost use Rattle.law_bare.specs.Lines.{bare_plan};

/// Of two plans that are the same but for line numbers and picks, for agents that don't see line numbers: to each run by picks of one
/// there is a run of the other by the same picks, with the same events but for line numbers, and they end alike.
pub fn picked_runs_see_no_numbers<A>()
    ensures { (m : Meaning A) (bare : A → A) → SeesNoLines m bare
        → (one two : Plan) → bare_plan one ≡ bare_plan two → ((k : ℕ) → bare (m.begin one k) ≡ bare (m.begin two k))
        → (picks : List ℕ) (run : List Event) → IsPickedRun one m picks run → HasLikePicked one two m picks run }
{}

/// And to each run of one, however it was picked, there is such a run of the other.
pub fn runs_see_no_numbers<A>()
    ensures { (m : Meaning A) (bare : A → A) → SeesNoLines m bare
        → (one two : Plan) → bare_plan one ≡ bare_plan two → ((k : ℕ) → bare (m.begin one k) ≡ bare (m.begin two k))
        → (run : List Event) → IsRunOf one m run → HasLikeRun one two m run }
{}

/// The same with the agents of `wdf_dev`, where each device has the same actions in the same order.
pub fn usual_picked_runs_see_no_numbers()
    ensures { (one two : Plan) → bare_plan one ≡ bare_plan two → SameActions one two
        → (picks : List ℕ) (run : List Event) → IsPickedRun one agent_meaning picks run → HasLikePicked one two agent_meaning picks run }
{}

/// And of any run with them.
pub fn usual_runs_see_no_numbers()
    ensures { (one two : Plan) → bare_plan one ≡ bare_plan two → SameActions one two
        → (run : List Event) → IsRunOf one agent_meaning run → HasLikeRun one two agent_meaning run }
{}
