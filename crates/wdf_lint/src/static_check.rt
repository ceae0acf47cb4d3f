//! The static check of a plan's scripts.
ghost use Rattle.std.specs.Prelude.{◌≡◌, ◌<◌, ◌==◌, ◌&&◌, length, IfOk};
ghost use Rattle.wdf_lint.specs.Findings.{IsBig};
ghost use Rattle.std.specs.List.{list_any};
ghost use Rattle.wdf_lint.specs.Answers.{IsAnswer};
ghost use Rattle.wdf_lint.specs.Found.{IsAllOf};
ghost use Rattle.wdf_lint.specs.Searches.{IsSearched, table_of};
ghost use Rattle.wdf_lint.specs.Walked.{IsOf};
ghost use Rattle.wdf_lint.specs.declared.findings.Found.{Found};

use crate::findings::{FindingList, Found, rule_number};
use crate::lines::Lines;
use crate::rules::rule_at;
use crate::search::{Search, explore};
use crate::steps::statement_of;
use crate::walked::{Walked, line_at, plan_sends, walk_of};
use std::alloc::Global;
use wdf_base::{Memory, Plan};

/// What a static check says of a plan's scripts.
#[derive(Drop)]
pub enum LintAnswer {
    /// No state that a walk comes to breaks a rule.
    Clean,
    /// What was found, at least one.
    Findings(FindingList),
}

// Whether a statement and a rule have a finding.
fn is_noted(found: &[Found], at: u32, rule: u8) -> bool
    ensures { result ≡ list_any (λ (f : Found). (f.at == at) && (f.rule == rule)) found.now }
{
    found.iter().any(|f| f.at == at && f.rule == rule)
}

// The findings of a callback whose states are these.
fn breaches(alloc: Global, plan: &Plan, w: &Walked, search: &Search) -> Result<Vec<Found>, Memory>
    requires of { IsOf plan.now w.now }
    requires script { w.now.script < length plan.now.scripts }
    requires search { IsSearched plan.now w.now.script (table_of search.now) }
    ensures { IfOk result (λ v. IsAllOf plan.now (λ k. k ≡ w.now.script) v.items) }
{
    let mut found = Vec::new(alloc);
    for (n, a) in search.states.as_slice().iter().enumerate() {
        let Some(broken) = rule_at(plan, w, a, statement_of(plan, w, a)) else {
            continue;
        };
        let rule = rule_number(broken);
        if !is_noted(found.as_slice(), a.at, rule) {
            found.push(Found {
                line: line_at(plan, w, a),
                rule,
                script: w.script,
                at: a.at,
                path: search.paths.lines(alloc, search.ranks[n])?,
            })?;
        }
    }
    Ok(found)
}

// The finding of a callback that has too many states.
fn too_big(alloc: Global, plan: &Plan, script: u32) -> Result<Vec<Found>, Memory>
    requires script { script < length plan.now.scripts }
    requires big { IsBig plan.now script }
    ensures { IfOk result (λ v. IsAllOf plan.now (λ k. k ≡ script) v.items) }
{
    let mut found = Vec::new(alloc);
    found.push(Found {
        line: plan.script_line(script),
        rule: 0,
        script,
        at: 0,
        path: Lines::new(alloc),
    })?;
    Ok(found)
}

// The findings of a callback.
fn findings_of(alloc: Global, plan: &Plan, w: &Walked) -> Result<Vec<Found>, Memory>
    requires of { IsOf plan.now w.now }
    requires script { w.now.script < length plan.now.scripts }
    ensures { IfOk result (λ v. IsAllOf plan.now (λ k. k ≡ w.now.script) v.items) }
{
    match explore(alloc, plan, w)? {
        None => too_big(alloc, plan, w.script),
        Some(search) => breaches(alloc, plan, w, &search),
    }
}

// The findings of all callbacks.
fn all_findings(alloc: Global, plan: &Plan) -> Result<Vec<Found>, Memory>
    ensures { IfOk result (λ v. IsAllOf plan.now (λ k. k < length plan.now.scripts) v.items) }
{
    let sends = plan_sends(plan);
    let mut found = Vec::new(alloc);
    for script in 0..plan.script_len() {
        let mut more = findings_of(alloc, plan, &walk_of(plan, script, sends))?;
        found.append(&mut more)?;
    }
    Ok(found)
}

/// The static check of a plan's scripts: what a walk of each callback, alone, finds.
pub fn lint(alloc: Global, plan: &Plan) -> Result<LintAnswer, Memory>
    ensures { IfOk result (IsAnswer plan.now) }
{
    let mut found = all_findings(alloc, plan)?;
    if found.is_empty() {
        return Ok(LintAnswer::Clean);
    }
    found.sort_by_key(|f| (f.line, f.rule, f.script, f.at))?;
    let list = FindingList::new(found);
    Ok(LintAnswer::Findings(list))
}
