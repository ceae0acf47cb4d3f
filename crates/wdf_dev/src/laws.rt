//! The agents of the program are those of the machine's definitions.
ghost use Rattle.std.specs.Prelude.{◌≡◌, ℕ};
ghost use Rattle.wdf_base.specs.declared.plan.Plan.{Plan};
ghost use Rattle.wdf_base.specs.declared.event.Event.{Event};
ghost use Rattle.wdf_model.specs.agents.AnyAgent as model;
ghost use Rattle.wdf_dev.specs.Agents.{agent_after, agent_at, agent_due, agent_next, agent_value, as_model};
ghost use Rattle.wdf_dev.specs.declared.any.AnyAgent.{AnyAgent};

/// Each agent begins as wdf_model's with its number, hears of an event as that one does, and posts,
/// waits and shows what that one does.
pub fn agents_are_the_models()
    ensures begin { (plan : Plan) (k : ℕ) → as_model (agent_at plan k) ≡ model.agent_at plan k }
    ensures fold { (a : AnyAgent) (e : Event) → as_model (agent_after a e) ≡ model.agent_after (as_model a) e }
    ensures due { (a : AnyAgent) → agent_due a ≡ model.agent_due (as_model a) }
    ensures next { (a : AnyAgent) → agent_next a ≡ model.agent_next (as_model a) }
    ensures value { (a : AnyAgent) (what : ℕ) → agent_value a what ≡ model.agent_value (as_model a) what }
{}
