//! What is written of an answer of the static check: `clean`, or a line for each finding.
#![tactic(auto)]

ghost use Rattle.std.specs.Prelude.{◌≡◌, ◌<◌, ◌++◌, IfOk, OnOk, Some, codes, decimal, length, slice_get};
ghost use Rattle.wdf_lint.specs.Findings.{Finding};
ghost use Rattle.wdf_lint_text.specs.Lines.{answer_status, answer_text, finding_lines, finding_text, path_text, way_text};

use itoa::Buffer;
use std::alloc::Global;
use wdf_base::{Memory, push_text};
use wdf_exit::Exit;
use wdf_lint::{FindingList, LintAnswer};

/// Adds a number in decimal digits.
fn push_number(out: &mut Vec<u8>, number: u32) -> Result<(), Memory>
    ensures { OnOk result (out.new.items ≡ out.old.items ++ decimal number) }
{
    let mut buffer = Buffer::new();
    push_text(out, buffer.format(number).as_bytes())
}

/// Adds the lines of a path, a space before each.
fn push_path(out: &mut Vec<u8>, path: &[u32]) -> Result<(), Memory>
    ensures { OnOk result (out.new.items ≡ out.old.items ++ path_text path.now) }
{
    for line in path {
        push_text(out, b" ")?;
        push_number(out, *line)?;
    }
    Ok(())
}

/// Adds the path to a finding; rule 0 has none.
fn push_way(out: &mut Vec<u8>, rule: u8, path: &[u32]) -> Result<(), Memory>
    ensures { OnOk result (out.new.items ≡ out.old.items ++ way_text rule path.now) }
{
    if rule == 0 {
        return Ok(());
    }
    push_text(out, b" path")?;
    push_path(out, path)
}

/// Adds where a finding is, and the rule that it breaks.
fn push_spot(out: &mut Vec<u8>, line: u32, rule: u8) -> Result<(), Memory>
    ensures { OnOk result (out.new.items ≡ out.old.items ++ (codes "line " ++ decimal line ++ codes " rule " ++ decimal rule)) }
{
    push_text(out, b"line ")?;
    push_number(out, line)?;
    push_text(out, b" rule ")?;
    push_number(out, u32::from(rule))
}

/// Adds the line of finding `k`.
fn push_finding(out: &mut Vec<u8>, findings: &FindingList, k: usize) -> Result<(), Memory>
    requires { k < length findings.now }
    ensures { (f : Finding) → slice_get findings.now k ≡ Some f → OnOk result (out.new.items ≡ out.old.items ++ finding_text f) }
{
    push_spot(out, findings.line(k), findings.rule(k))?;
    push_way(out, findings.rule(k), findings.path(k))?;
    push_text(out, b"\n")
}

/// Adds a line for each finding.
fn push_findings(out: &mut Vec<u8>, findings: &FindingList) -> Result<(), Memory>
    ensures { OnOk result (out.new.items ≡ out.old.items ++ finding_lines findings.now) }
{
    for k in 0..findings.len() {
        push_finding(out, findings, k)?;
    }
    Ok(())
}

/// What is written of an answer.
///
/// # Errors
///
/// [`Memory`] where memory for the text was refused.
pub fn answer_text(alloc: Global, answer: &LintAnswer) -> Result<Vec<u8>, Memory>
    ensures { IfOk result (λ text. text.items ≡ answer_text answer.now) }
{
    let mut out = Vec::new(alloc);
    match answer {
        LintAnswer::Clean => push_text(&mut out, b"clean\n")?,
        LintAnswer::Findings(findings) => push_findings(&mut out, findings)?,
    }
    Ok(out)
}

/// The status with it.
pub fn answer_status(answer: &LintAnswer) -> u8
    ensures { result ≡ answer_status answer.now }
{
    match answer {
        LintAnswer::Clean => Exit::Fine as u8,
        LintAnswer::Findings(_) => Exit::Findings as u8,
    }
}
