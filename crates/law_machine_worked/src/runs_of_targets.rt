//! Targets and scripts, run and told.
ghost use Rattle.std.specs.Prelude.{[]};
ghost use Rattle.wdf_base.specs.declared.event.Ending.TheVariants as ending;
ghost use Rattle.wdf_base.specs.declared.event.Fault.TheVariants as fault;
ghost use Rattle.law_machine_worked.specs.Shown.{IsShown};
ghost use Rattle.law_machine_worked.specs.RunsOfTargets.{drained_plan, drained_events, every_statement_plan, every_statement_events, sent_and_cancelled_plan, sent_and_cancelled_events, stopped_while_sent_plan, stopped_while_sent_events, target_stopped_plan, target_stopped_events};

/// A drain that waits until a manual queue is empty and nothing is held from it.
#[tactic(auto, using(crate::proofs::RunsOfTargets::drained))]
pub fn drained()
    ensures { IsShown drained_plan drained_events ending.Finished [] }
{}

/// Each form of statement and of expression, with a script error at the end.
#[tactic(auto, using(crate::proofs::RunsOfTargets::every_statement))]
pub fn every_statement()
    ensures { IsShown every_statement_plan every_statement_events (ending.Fault fault.ScriptError) [] }
{}

/// Requests sent and forgotten, sent and cancelled by the driver, and cancelled by the app.
#[tactic(auto, using(crate::proofs::RunsOfTargets::sent_and_cancelled))]
pub fn sent_and_cancelled()
    ensures { IsShown sent_and_cancelled_plan sent_and_cancelled_events ending.Finished [] }
{}

/// A request that is at a target is stopped and resumed where it is.
#[tactic(auto, using(crate::proofs::RunsOfTargets::stopped_while_sent))]
pub fn stopped_while_sent()
    ensures { IsShown stopped_while_sent_plan stopped_while_sent_events ending.Finished [] }
{}

/// A target is stopped with what is sent to it: the call waits until all has come back.
#[tactic(auto, using(crate::proofs::RunsOfTargets::target_stopped))]
pub fn target_stopped()
    ensures { IsShown target_stopped_plan target_stopped_events ending.Finished [] }
{}
