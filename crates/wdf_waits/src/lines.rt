//! How many lines the wait list has.
ghost use Rattle.std.specs.Prelude.{◌≡◌, ◌≤◌, ◌^◌, length};
ghost use Rattle.wdf_model.specs.rules.Waits as waits;
ghost use Rattle.wdf_waits.specs.Lines as lines;

use crate::section::{Section, has_line, section_end};
use wdf_base::Agent;
use wdf_parts::Parts;
use wdf_plan_index::IndexedPlan;

#[tactic(auto, using(crate::proofs::OnLines::lines_at_first, crate::proofs::OnLines::line_counts, crate::proofs::OnLines::line_skips, crate::proofs::OnLines::lines_at_end))]
/// How many lines a section has.
fn section_len<A: Agent>(plan: &IndexedPlan, parts: &Parts<A>, section: Section) -> usize
    ensures value { result ≡ length (lines.section_lines plan.now A.meaning parts.now section) }
    ensures small { result ≤ 2 ^ 32 }
{
    let mut count = 0;
    for id in 0..section_end(plan, parts, section) {
        if has_line(plan, parts, section, id as u32) {
            count += 1;
        }
    }
    count
}

/// How many lines the wait list of a stuck run has, in this state of the plan's run. It takes no memory.
pub fn wait_lines_len<A: Agent>(plan: &IndexedPlan, parts: &Parts<A>) -> usize
    ensures { result ≡ length (waits.wait_lines plan.now A.meaning parts.now) }
{
    section_len(plan, parts, Section::Frames)
        + section_len(plan, parts, Section::Requests)
        + section_len(plan, parts, Section::Devices)
        + section_len(plan, parts, Section::Objects)
        + section_len(plan, parts, Section::Work)
        + section_len(plan, parts, Section::Asking)
}
