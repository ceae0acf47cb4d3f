//! The kind of a run.
ghost use Rattle.std.specs.Prelude.{◌≡◌, ◌-◌, IfOk};
ghost use Rattle.wdf_kinds.specs.Kinds.{fault_line};
ghost use Rattle.wdf_tries.specs.Tries.{ending_kind, kind_of};

use std::alloc::Global;
use wdf_base::{Agent, Memory};
use wdf_core::Core;
use wdf_expect::{Expectation, judged};
use wdf_kinds::{kind_text, line_of_fault};
use wdf_writing::Text;

/// The line of the text that the fault names which is the last event of a run; 0 where that is none.
fn fault_line<A: Agent>(core: &Core<A>) -> u32
    ensures { result ≡ fault_line core.now.journal }
{
    let count = core.journal_len();
    if count == 0 {
        return line_of_fault(None);
    }
    line_of_fault(Some(core.journal_at(count - 1)))
}

/// The kind in which the run of a core ends, whatever is expected.
fn ending_kind<A: Agent>(alloc: Global, core: &Core<A>) -> Result<Text, Memory>
    ensures { IfOk result (λ kind. kind ≡ ending_kind core.now.plan A.meaning core.now.journal) }
{
    let waits = core.wait_list(alloc)?;
    kind_text(
        alloc,
        core.plan(),
        core.ending(),
        fault_line(core),
        waits.as_slice(),
    )
}

/// The kind of the run of a core, by what is expected of it.
///
/// # Errors
///
/// [`Memory`] where memory was refused.
pub fn kind_of<A: Agent>(
    alloc: Global,
    core: &Core<A>,
    expectations: &[Expectation],
) -> Result<Text, Memory>
    ensures { IfOk result (λ kind. kind ≡ kind_of expectations.now core.now.plan A.meaning core.now.journal) }
{
    let kind = ending_kind(alloc, core)?;
    judged(
        alloc,
        expectations,
        core.plan(),
        core.journal(),
        core.ending(),
        fault_line(core),
        kind.bytes(),
    )
}
