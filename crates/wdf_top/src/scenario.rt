//! Reading a scenario: the input's scene and its plan.
ghost use Rattle.std.specs.Prelude.{◌≡◌, ◌≤◌, ℕ, List, length, None, IfOk, IfErr};
ghost use Rattle.wdf_scene.specs.declared.scene.Scene.{Scene};
ghost use Rattle.wdf_parse.specs.Canonical.{canonical_text};
ghost use Rattle.wdf_parse.specs.StandsFor.{StandsFor};
ghost use Rattle.wdf_refusals.specs.First.{first_refusal};
ghost use Rattle.wdf_top.specs.Answers.{HasPlan};
ghost use Rattle.wdf_split.specs.Inputs.{scenario_in};
ghost use Rattle.wdf_top.specs.Causes.{all_of, IsCause, IsTextCause};
ghost use Rattle.wdf_top.specs.Top.{IsRead, sourcing};

use std::alloc::Global;
use wdf_base::Plan;
use wdf_input::read_whole;
use wdf_io::Source;
use wdf_output::Refusal;
use wdf_parse::{TEXT_LIMIT, parse, print};
use wdf_plan::resolve;

/// Reads the whole input and resolves its scene.
///
/// # Errors
///
/// [`Refusal`]: a read failed, the input has more than [`TEXT_LIMIT`] bytes, no scene stands for it, its scene has no
/// plan, or memory was refused.
pub fn read_plan<S: Source>(alloc: Global, source: &mut S) -> Result<Plan, Refusal>
    ensures plan { IfOk result (λ plan. (input : List ℕ) × IsRead (sourcing (S.left source.old) (S.left source.new) (S.faults source.old) (S.faults source.new)) input × HasPlan input plan) }
    ensures cause { IfErr result (λ refusal. IsCause all_of (sourcing (S.left source.old) (S.left source.new) (S.faults source.old) (S.faults source.new)) refusal) }
{
    let text = read_whole(alloc, source)?;
    let scene = parse(alloc, &text)?;
    let plan = resolve(alloc, &scene)?;
    Ok(plan)
}

/// Reads the whole input and resolves its scene twice: one plan for the machine, which owns it, and an equal one for who reads
/// it meanwhile.
///
/// # Errors
///
/// [`Refusal`], as of [`read_plan`].
pub fn read_plan_and_copy<S: Source>(alloc: Global, source: &mut S) -> Result<(Plan, Plan), Refusal>
    ensures plan { IfOk result (λ plans. (input : List ℕ) × IsRead (sourcing (S.left source.old) (S.left source.new) (S.faults source.old) (S.faults source.new)) input × HasPlan input plans.0) }
    ensures same { IfOk result (λ plans. plans.1 ≡ plans.0) }
    ensures cause { IfErr result (λ refusal. IsCause all_of (sourcing (S.left source.old) (S.left source.new) (S.faults source.old) (S.faults source.new)) refusal) }
{
    let text = read_whole(alloc, source)?;
    let scene = parse(alloc, &text)?;
    let plan = resolve(alloc, &scene)?;
    let other = resolve(alloc, &scene)?;
    Ok((plan, other))
}

/// Reads the whole input, whose scene has a plan, and prints the scene in canonical form.
///
/// # Errors
///
/// [`Refusal`], as of [`read_plan`].
pub fn read_canonical<S: Source>(alloc: Global, source: &mut S) -> Result<Vec<u8>, Refusal>
    ensures text { IfOk result (λ text. (input : List ℕ) × (scene : Scene) × (stands : StandsFor input scene) × IsRead (sourcing (S.left source.old) (S.left source.new) (S.faults source.old) (S.faults source.new)) input × (first_refusal scene ≡ None) × (text.items ≡ canonical_text scene.version stands.ws)) }
    ensures cause { IfErr result (λ refusal. IsCause all_of (sourcing (S.left source.old) (S.left source.new) (S.faults source.old) (S.faults source.new)) refusal) }
{
    let text = read_whole(alloc, source)?;
    let scene = parse(alloc, &text)?;
    let _plan = resolve(alloc, &scene)?;
    let canonical = print(alloc, &scene)?;
    Ok(canonical)
}

/// Reads the whole input.
///
/// # Errors
///
/// [`Refusal`]: a read failed, the input has more than [`TEXT_LIMIT`] bytes, or memory was refused.
pub fn read_input<S: Source>(alloc: Global, source: &mut S) -> Result<Vec<u8>, Refusal>
    ensures text { IfOk result (λ text. IsRead (sourcing (S.left source.old) (S.left source.new) (S.faults source.old) (S.faults source.new)) text.items) }
    ensures cause { IfErr result (λ refusal. IsCause scenario_in (sourcing (S.left source.old) (S.left source.new) (S.faults source.old) (S.faults source.new)) refusal) }
{
    let text = read_whole(alloc, source)?;
    Ok(text)
}

/// The plan of a text's scene.
///
/// # Errors
///
/// [`Refusal`]: no scene stands for the text, its scene has no plan, or memory was refused.
pub fn plan_of_text(alloc: Global, text: &[u8]) -> Result<Plan, Refusal>
    requires { length text.now ≤ TEXT_LIMIT }
    ensures plan { IfOk result (HasPlan text.now) }
    ensures cause { IfErr result (IsTextCause text.now) }
{
    let scene = parse(alloc, text)?;
    let plan = resolve(alloc, &scene)?;
    Ok(plan)
}
