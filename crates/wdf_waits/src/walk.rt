//! A walk along the wait list, line by line.
ghost use Rattle.std.specs.Prelude.{◌≡◌, ◌∷◌, [], MatchOption};
ghost use Rattle.wdf_model.specs.Tables.{first_of_list};
ghost use Rattle.wdf_waits.specs.Walks.{front, lines_at, rest_in, sections_after};

use crate::section::{Section, line_in, section_end};
use wdf_base::{Agent, WaitLine};
use wdf_parts::Parts;
use wdf_plan_index::IndexedPlan;

/// How far a walk along the wait list has come.
#[derive(Clone, Copy)]
pub struct WaitPlace {
    /// The section that it is in.
    section: Section,
    /// The id that it comes to next there.
    id: usize,
}

/// The section after one.
fn section_after(section: Section) -> Option<Section>
    ensures { result ≡ first_of_list (sections_after section) }
{
    match section {
        Section::Frames => Some(Section::Requests),
        Section::Requests => Some(Section::Devices),
        Section::Devices => Some(Section::Objects),
        Section::Objects => Some(Section::Work),
        Section::Work => Some(Section::Asking),
        Section::Asking => None,
    }
}

/// The next line of a section from an id on, with the id after its own; `None` where the section has no more.
fn next_in<A: Agent>(
    plan: &IndexedPlan,
    parts: &Parts<A>,
    section: Section,
    from: usize,
) -> Option<(WaitLine, usize)>
    ensures { MatchOption result (rest_in plan.now A.meaning parts.now section from ≡ []) (λ found. rest_in plan.now A.meaning parts.now section from ≡ found.0 ∷ rest_in plan.now A.meaning parts.now section found.1) }
{
    for id in from..section_end(plan, parts, section) {
        if let Some(line) = line_in(plan, parts, section, id as u32) {
            return Some((line, id + 1));
        }
    }
    None
}

/// The front of the wait list.
pub fn first_wait() -> WaitPlace
    ensures { result ≡ front }
{
    WaitPlace {
        section: Section::Frames,
        id: 0,
    }
}

/// The next line of the wait list of a stuck run, in this state of the plan's run, from a place on, with the place after it;
/// `None` where there is no more. It takes no memory, and a walk looks at each thing once.
pub fn next_wait<A: Agent>(
    plan: &IndexedPlan,
    parts: &Parts<A>,
    from: WaitPlace,
) -> Option<(WaitLine, WaitPlace)>
    ensures { MatchOption result (lines_at plan.now A.meaning parts.now from ≡ []) (λ found. lines_at plan.now A.meaning parts.now from ≡ found.0 ∷ lines_at plan.now A.meaning parts.now found.1) }
{
    let mut place = from;
    loop {
        match next_in(plan, parts, place.section, place.id) {
            Some((line, id)) => {
                return Some((
                    line,
                    WaitPlace {
                        section: place.section,
                        id,
                    },
                ));
            }
            None => match section_after(place.section) {
                Some(section) => place = WaitPlace { section, id: 0 },
                None => return None,
            },
        }
    }
}
