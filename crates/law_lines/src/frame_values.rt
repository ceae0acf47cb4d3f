//! Laws over all runs of the machine: the values that the state keeps, and all events, are of the plan.
ghost use Rattle.std.specs.Prelude.{◌≡◌, ◌≢◌, ℕ, List, Some, slice_get, take};
ghost use Rattle.wdf_base.specs.Meaning.{Meaning};
ghost use Rattle.wdf_base.specs.Resolved.{IsResolved};
ghost use Rattle.wdf_base.specs.declared.plan.Plan.{Plan};
ghost use Rattle.wdf_base.specs.declared.event.Event.{Event};
ghost use Rattle.wdf_base.specs.declared.event.Ending.TheVariants as ending;
ghost use Rattle.wdf_model.specs.rules.Ready.{IsRunOf, ending_of, ready, state_after};
ghost use Rattle.wdf_run_text.specs.Texts.{HasEventsOf, text_of};
ghost use Rattle.wdf_trace.specs.Events.{IsEventOf};
ghost use Rattle.law_lines.specs.Agents.{HasFittingAgents};
ghost use Rattle.law_lines.specs.Fitting.{HasFittingNumbers};
ghost use Rattle.law_lines.specs.Values.{HasPlanValues};

/// At each place of every run of a resolved plan whose numbers fit, with agents whose numbers fit, what the state keeps
/// for scripts is of the plan. It is the handles and the variables of each frame, the call in which the frame waits, with
/// its answer, and each context cell. The lengths and codes of frames and requests fit 64 bits.
pub fn values_are_of_plan<A>()
    ensures { (plan : Plan) (m : Meaning A) (run : List Event) → IsResolved plan → HasFittingNumbers plan → HasFittingAgents plan m → IsRunOf plan m run
        → (n : ℕ) → HasPlanValues plan (state_after plan m (take n run)) }
{}

/// Each event that may follow such a run is an event of the plan: what a frame does among them, its steps, values, calls,
/// ends and faults.
pub fn events_are_of_plan<A>()
    ensures { (plan : Plan) (m : Meaning A) (run : List Event) (place : ℕ) (e : Event) → IsResolved plan → HasFittingNumbers plan → HasFittingAgents plan m
        → IsRunOf plan m run → slice_get (ready plan m run) place ≡ Some e → IsEventOf plan e }
{}

/// Each event of every such run is an event of the plan.
pub fn runs_are_of_plan<A>()
    ensures { (plan : Plan) (m : Meaning A) (run : List Event) → IsResolved plan → HasFittingNumbers plan → HasFittingAgents plan m → IsRunOf plan m run
        → HasEventsOf plan run }
{}

/// Two such runs that have ended are one where their texts are the same.
pub fn one_run_of_a_text<A>()
    ensures { (plan : Plan) (m : Meaning A) → IsResolved plan → HasFittingNumbers plan → HasFittingAgents plan m → (a b : List Event) → IsRunOf plan m a → IsRunOf plan m b
        → ending_of plan m a ≢ ending.Running → ending_of plan m b ≢ ending.Running → text_of plan m a ≡ text_of plan m b → a ≡ b }
{}
