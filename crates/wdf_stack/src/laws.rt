//! The agents of the program are those of the machine's definitions.
ghost use Rattle.std.specs.Prelude.{◌≡◌, ℕ};
ghost use Rattle.wdf_base.specs.declared.plan.Plan.{Plan};
ghost use Rattle.wdf_base.specs.declared.event.Event.{Event};
ghost use Rattle.wdf_model.specs.agents.StackAgent as model;
ghost use Rattle.wdf_stack.specs.Agents.{agent_after, agent_at, agent_due, agent_next, agent_value, as_model};
ghost use Rattle.wdf_stack.specs.declared.agents.StackAgent.{StackAgent};

/// Each agent begins as wdf_model's with its number, hears of an event as that one does, and posts,
/// waits and shows what that one does.
pub fn stack_agents_are_the_models()
    ensures begin { (plan : Plan) (k : ℕ) → as_model (agent_at plan k) ≡ model.agent_at plan k }
    ensures fold { (a : StackAgent) (e : Event) → as_model (agent_after a e) ≡ model.agent_after (as_model a) e }
    ensures due { (a : StackAgent) → agent_due a ≡ model.agent_due (as_model a) }
    ensures next { (a : StackAgent) → agent_next a ≡ model.agent_next (as_model a) }
    ensures value { (a : StackAgent) (what : ℕ) → agent_value a what ≡ model.agent_value (as_model a) what }
{}
