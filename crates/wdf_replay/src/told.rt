//! How far a trace has come in the lines after the events of its run.
ghost use Rattle.std.specs.Prelude.{◌≡◌, ◌≢◌, ◌+◌, ◌<◌, ◌^◌, length};
ghost use Rattle.wdf_run_text.specs.Texts.{end_lines};
ghost use Rattle.wdf_replay.specs.Steps.{IsTold};

use wdf_base::Agent;
use wdf_core::{Core, WaitPlace};

/// How many of the lines after the events have come, and what is left of the wait list.
#[derive(Clone, Copy)]
pub struct Told {
    /// How many have come: none, or that of the ending and some of the wait list.
    pub lines: usize,
    /// Where the wait list goes on, if any have come.
    pub place: WaitPlace,
    /// How many of its lines are left, if any have come.
    pub left: usize,
}

/// None has come.
pub fn none_told<A: Agent>(core: &Core<A>) -> Told
    ensures { result.lines ≡ 0 }
{
    Told {
        lines: 0,
        place: core.first_wait(),
        left: 0,
    }
}

/// The line of the ending has come.
fn ending_told<A: Agent>(core: &Core<A>) -> Told
    requires { 0 < length (end_lines core.now.plan A.meaning core.now.journal) }
    ensures lines { result.lines ≡ 1 }
    ensures told { IsTold core.now.plan A.meaning core.now.journal result }
{
    Told {
        lines: 1,
        place: core.first_wait(),
        left: core.wait_len(),
    }
}

/// One line of the wait list more has come.
fn wait_told<A: Agent>(core: &Core<A>, told: Told) -> Told
    requires told { IsTold core.now.plan A.meaning core.now.journal told }
    requires ended { told.lines ≢ 0 }
    requires there { told.lines < length (end_lines core.now.plan A.meaning core.now.journal) }
    requires few { told.lines + 1 < 2 ^ 64 }
    ensures lines { result.lines ≡ told.lines + 1 }
    ensures told { IsTold core.now.plan A.meaning core.now.journal result }
{
    let (_wait, place) = core.next_wait(told.place);
    Told {
        lines: told.lines + 1,
        place,
        left: told.left - 1,
    }
}

/// One of the lines after the events more has come.
pub fn one_told<A: Agent>(core: &Core<A>, told: Told) -> Told
    requires told { IsTold core.now.plan A.meaning core.now.journal told }
    requires there { told.lines < length (end_lines core.now.plan A.meaning core.now.journal) }
    requires few { told.lines + 1 < 2 ^ 64 }
    ensures lines { result.lines ≡ told.lines + 1 }
    ensures told { IsTold core.now.plan A.meaning core.now.journal result }
{
    if told.lines == 0 {
        ending_told(core)
    } else {
        wait_told(core, told)
    }
}
