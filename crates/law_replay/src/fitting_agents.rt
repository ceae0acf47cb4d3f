//! The numbers that the agents of the program post and show fit 64 bits.
ghost use Rattle.wdf_base.specs.declared.plan.Plan.{Plan};
ghost use Rattle.wdf_dev.specs.Agents.{agent_meaning};
ghost use Rattle.law_lines.specs.Agents.{HasFittingAgents};
ghost use Rattle.law_lines.specs.Fitting.{HasFittingNumbers};

/// Whatever events of a plan whose numbers fit the agents of `wdf_dev` have heard, the numbers of what they post and of what
/// they show fit 64 bits.
pub fn agents_fit()
    ensures { (plan : Plan) → HasFittingNumbers plan → HasFittingAgents plan agent_meaning }
{}
