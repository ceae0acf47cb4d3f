//! The agents of such a run are those of the machine's definitions.
ghost use Rattle.std.specs.Prelude.{◌≡◌, ℕ};
ghost use Rattle.wdf_base.specs.declared.plan.Plan.{Plan};
ghost use Rattle.wdf_base.specs.declared.event.Event.{Event};
ghost use Rattle.wdf_model.specs.agents.IdleAgent as model;
ghost use Rattle.wdf_idle.specs.Agents.{as_model, idle_agent_after, idle_agent_at, idle_agent_due, idle_agent_next, idle_agent_value};
ghost use Rattle.wdf_idle.specs.declared.idle_agent.IdleAgent.{IdleAgent};

/// Each agent begins as wdf_model's with its number, hears of an event as that one does, and posts,
/// waits and shows what that one does.
pub fn idle_agents_are_the_models()
    ensures begin { (plan : Plan) (k : ℕ) → as_model (idle_agent_at plan k) ≡ model.idle_agent_at plan k }
    ensures fold { (a : IdleAgent) (e : Event) → as_model (idle_agent_after a e) ≡ model.idle_agent_after (as_model a) e }
    ensures due { (a : IdleAgent) → idle_agent_due a ≡ model.idle_agent_due (as_model a) }
    ensures next { (a : IdleAgent) → idle_agent_next a ≡ model.idle_agent_next (as_model a) }
    ensures value { (a : IdleAgent) (what : ℕ) → idle_agent_value a what ≡ model.idle_agent_value (as_model a) what }
{}
