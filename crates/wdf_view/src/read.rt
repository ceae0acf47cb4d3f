//! Reading an input, and the plan of its scenario.
ghost use Rattle.std.specs.Prelude.{IfOk, IfErr};
ghost use Rattle.wdf_view.specs.Causes.{HasPlan, IsRead, IsReadCause, IsTextCause, sourcing};

use std::alloc::Global;
use wdf_base::Plan;
use wdf_input::read_within;
use wdf_io::Source;
use wdf_output::Refusal;
use wdf_parse::{TEXT_LIMIT, parse};
use wdf_plan::resolve;

/// The most bytes that an input may have: those of a scenario's text and of its trace, which is longer.
pub const RUN_LIMIT: usize = 134_217_728;

/// Reads the whole input.
pub(crate) fn read_input<S: Source>(alloc: Global, source: &mut S) -> Result<Vec<u8>, Refusal>
    ensures text { IfOk result (λ text. IsRead (sourcing (S.left source.old) (S.left source.new) (S.faults source.old) (S.faults source.new)) text.items) }
    ensures cause { IfErr result (IsReadCause (sourcing (S.left source.old) (S.left source.new) (S.faults source.old) (S.faults source.new))) }
{
    let text = read_within(alloc, source, RUN_LIMIT)?;
    Ok(text)
}

/// The plan of a text's scene.
pub(crate) fn plan_of_text(alloc: Global, text: &[u8]) -> Result<Plan, Refusal>
    ensures plan { IfOk result (HasPlan text.now) }
    ensures cause { IfErr result (IsTextCause text.now) }
{
    if text.len() > TEXT_LIMIT {
        return Err(Refusal::TooLarge);
    }
    let scene = parse(alloc, text)?;
    let plan = resolve(alloc, &scene)?;
    Ok(plan)
}
