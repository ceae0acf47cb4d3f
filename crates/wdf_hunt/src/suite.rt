//! The line of a file in a suite of scenarios.
ghost use Rattle.std.specs.Prelude.{◌≡◌, ◌+◌, ◌≤◌, ◌++◌, ◌^◌, ℕ, IfErr, IfOk, OnOk, length};
ghost use Rattle.std.specs.Option.{option_copied};
ghost use Rattle.wdf_output.specs.Refusals.{read_fault_line};
ghost use Rattle.wdf_parse.specs.declared.parsing.TheConstants.{TEXT_LIMIT};
ghost use Rattle.wdf_top.specs.Causes.{IsTextCause};
ghost use Rattle.wdf_scene.specs.Naming.{HasProperNames};
ghost use Rattle.wdf_scene.specs.Written.{IsScene};
ghost use Rattle.wdf_tries.specs.declared.tried.Case.{Case};
ghost use Rattle.wdf_tries.specs.Tries.{IsHuntOf};
ghost use Rattle.wdf_hunt.specs.Suites.{IsCaseOf, IsNoCase, IsSceneOf, IsTableLine, IsTextLine, bad_line, good_line, heading, row_reason, table_answer, table_line};

use crate::read::{CaseRefusal, case_of};
use crate::table::HALVINGS;
use std::alloc::Global;
use std::thread::Threads;
use wdf_base::Memory;
use wdf_exit::Exit;
use wdf_expect::ExpectError;
use wdf_hunters::hunt_threads;
use wdf_output::Refusal;
use wdf_parse::{TEXT_LIMIT, parse};
use wdf_plan::resolve;
use wdf_scene::Scene;
use wdf_table::{Row, Tally};
use wdf_tries::{Case, Hunted};
use wdf_writing::Text;

/// The scene of a text, which has a plan.
fn scene_of(alloc: Global, text: &[u8]) -> Result<Scene, Refusal>
    requires { length text.now ≤ TEXT_LIMIT }
    ensures scene { IfOk result (IsSceneOf text.now) }
    ensures cause { IfErr result (IsTextCause text.now) }
{
    let scene = parse(alloc, text)?;
    let _plan = resolve(alloc, &scene)?;
    Ok(scene)
}

/// The case of a text.
fn case_in(alloc: Global, text: &[u8]) -> Result<Case, CaseRefusal>
    ensures case { IfOk result (IsCaseOf text.now) }
    ensures refused { IfErr result (IsNoCase text.now) }
{
    if text.len() > TEXT_LIMIT {
        return Err(CaseRefusal::Scenario {
            refusal: Refusal::TooLarge,
        });
    }
    match scene_of(alloc, text) {
        Ok(scene) => with_expectations(alloc, scene, text),
        Err(refusal) => Err(CaseRefusal::Scenario { refusal }),
    }
}

/// A scene of a text, with the expectations of that text.
fn with_expectations(alloc: Global, scene: Scene, text: &[u8]) -> Result<Case, CaseRefusal>
    requires small { length text.now ≤ TEXT_LIMIT }
    requires scene { IsSceneOf text.now scene }
    ensures case { IfOk result (IsCaseOf text.now) }
    ensures refused { IfErr result (IsNoCase text.now) }
{
    match case_of(alloc, scene, text) {
        Ok(case) => Ok(case),
        Err(ExpectError::Unread { line }) => Err(CaseRefusal::Unread { line }),
        Err(ExpectError::Memory) => Err(CaseRefusal::Scenario {
            refusal: Refusal::NoMemory,
        }),
    }
}

/// Adds the number and the name of a file.
fn push_heading(out: &mut Text, number: u64, name: &[u8]) -> Result<(), Memory>
    ensures { OnOk result (out.new ≡ out.old ++ heading number name.now) }
{
    out.push_number(number)?;
    out.push(b" - ")?;
    out.push(name)
}

/// The line of a file where all is well.
fn good_line(alloc: Global, number: u64, name: &[u8]) -> Result<Text, Memory>
    ensures { IfOk result (λ line. line ≡ good_line number name.now) }
{
    let mut out = Text::new(alloc);
    out.push(b"ok ")?;
    push_heading(&mut out, number, name)?;
    out.push(b"\n")?;
    Ok(out)
}

/// The line of a file that isn't as it should be, for this reason.
fn bad_line(alloc: Global, number: u64, name: &[u8], reason: &[u8]) -> Result<Text, Memory>
    ensures { IfOk result (λ line. line ≡ bad_line number name.now reason.now) }
{
    let mut out = Text::new(alloc);
    out.push(b"not ok ")?;
    push_heading(&mut out, number, name)?;
    out.push(b" # ")?;
    out.push(reason)?;
    Ok(out)
}

/// What is said of a row, with a line feed.
fn row_reason(alloc: Global, row: Option<&Row>) -> Result<Text, Memory>
    ensures { IfOk result (λ reason. reason ≡ row_reason (option_copied row.entry)) }
{
    let mut out = Text::new(alloc);
    if let Some(row) = row {
        out.push(b"seed ")?;
        out.push_number(row.seed)?;
        out.push(b" in ")?;
        out.push_number(row.events)?;
        out.push(b" events: ")?;
        out.push(row.kind.bytes())?;
    }
    out.push(b"\n")?;
    Ok(out)
}

/// The line of a file with this table, and its status.
fn table_line(alloc: Global, number: u64, name: &[u8], tally: &Tally) -> Result<(Text, u8), Memory>
    ensures { IfOk result (λ (line, status). (line ≡ table_line number name.now tally.now) × (status ≡ table_answer tally.now)) }
{
    if tally.status() == Exit::Fine as u8 {
        return Ok((good_line(alloc, number, name)?, Exit::Fine as u8));
    }
    let reason = row_reason(alloc, tally.worst_row())?;
    Ok((
        bad_line(alloc, number, name, reason.bytes())?,
        Exit::Broken as u8,
    ))
}

/// The line of a file whose tries came to this, and its status.
fn hunted_line(
    alloc: Global,
    number: u64,
    name: &[u8],
    hunted: Hunted,
) -> Result<(Text, u8), Memory>
    ensures { (tried : Case) (from count : ℕ) → IsHuntOf tried from count hunted → IfOk result (λ (line, status). IsTableLine number name.now tried from count line status) }
{
    let Hunted { mut tally, .. } = hunted;
    tally.sort();
    table_line(alloc, number, name, &tally)
}

/// The line of a file with this case, and its status.
fn case_line<R: Threads + Sync>(
    rt: &R,
    alloc: Global,
    number: u64,
    name: &[u8],
    case: &Case,
    from: u64,
    count: u32,
) -> Result<(Text, u8), Memory>
    requires scene { IsScene case.now.scene }
    requires names { HasProperNames case.now.scene }
    requires fits { from + count ≤ 2 ^ 64 }
    ensures { IfOk result (λ (line, status). IsTableLine number name.now case.now from count line status) }
{
    let hunted = hunt_threads(rt, alloc, case, from, count, HALVINGS)?;
    hunted_line(alloc, number, name, hunted)
}

/// The line of a file with this text, over so many seeds from this one on: 0 where all is well, else 1.
///
/// # Errors
///
/// [`Memory`] where memory was refused.
pub fn suite_line<R: Threads + Sync>(
    rt: &R,
    alloc: Global,
    number: u64,
    name: &[u8],
    text: &[u8],
    from: u64,
    count: u32,
) -> Result<(Text, u8), Memory>
    requires fits { from + count ≤ 2 ^ 64 }
    ensures { IfOk result (λ (line, status). IsTextLine number name.now text.now from count line status) }
{
    match case_in(alloc, text) {
        Ok(case) => case_line(rt, alloc, number, name, &case, from, count),
        Err(refusal) => Ok((
            bad_line(alloc, number, name, refusal.line().bytes())?,
            Exit::Broken as u8,
        )),
    }
}

/// The line of a file that couldn't be read.
///
/// # Errors
///
/// [`Memory`] where memory was refused.
pub fn unread_file_line(alloc: Global, number: u64, name: &[u8]) -> Result<Text, Memory>
    ensures { IfOk result (λ line. line ≡ bad_line number name.now read_fault_line) }
{
    bad_line(alloc, number, name, b"read fault\n")
}
