//! A run by threads whose lines are written while it is made.
ghost use Rattle.std.specs.Prelude.{◌≡◌, ◌≢◌, ℕ, [], true, false, IfOk, OnErr, IsTrue};
ghost use Rattle.crossbeam_queue.specs.Passes.{view, IsPassOf};
ghost use Rattle.wdf_base.specs.declared.event.Ending.TheVariants as ending;
ghost use Rattle.wdf_crew.specs.Rows.{IsRow};
ghost use Rattle.wdf_io.specs.Outside.{EndsRefused};
ghost use Rattle.wdf_pipe.specs.Pipe.{account};
ghost use Rattle.wdf_live.specs.Printed.{HasPrinted};
ghost use Rattle.wdf_model.specs.rules.Ready.{IsRunOf, ending_of};
ghost use Rattle.wdf_output.specs.Said.{sinking};
ghost use Rattle.wdf_turn.specs.Turns.{opening};

use crate::beside::print_beside;
use crate::printer::Printed;
use crate::watched::Watched;
use std::alloc::Global;
use std::sync::Wait;
use std::thread::{Parker, Threads};
use wdf_base::{Agent, Memory, Plan};
use wdf_core::Core;
use wdf_crew::{Shift, seated};
use wdf_io::Sink;
use wdf_pipe::{Desk, PipePass, lay, put_together};
use wdf_turn::{Gate, Seat, Turn};
use wdf_workers::{RunState, finish, shift_of};

/// Makes a run by threads, as [`wdf_workers::run_threads`] does, and writes the line of each event as soon as it is in the
/// history, while the workers go on. What the workers leave is finished here, and its lines are not yet written: those
/// from `lines` on. `plan` is the core's plan, which the printer reads while the workers have the core.
///
/// # Errors
///
/// [`Memory`], with the core dropped, where memory for the pipe, the seats or the turnstile was refused. Nothing has run
/// and the sink wasn't called then.
pub fn watch<R: Threads + Wait + Sync, A: Agent + Send, K: Sink + Send, G: Gate + Sync>(
    rt: &R,
    alloc: Global,
    plan: &Plan,
    core: Core<A>,
    gate: &G,
    sink: &mut K,
) -> Result<(Core<A>, Printed), Memory>
    requires plan { plan.now ≡ core.plan }
    requires fresh { core.journal ≡ [] }
    ensures plan { IfOk result (λ r. r.0.plan ≡ core.plan) }
    // One run was made: each of its events could follow those before it, and none may follow the last.
    ensures run { IfOk result (λ r. IsRunOf core.plan A.meaning r.0.journal) }
    ensures ended { IfOk result (λ r. ending_of core.plan A.meaning r.0.journal ≢ ending.Running) }
    // Of that run the lines of the first events are written, or a front of them where a write failed.
    ensures printed { IfOk result (λ r. HasPrinted core.plan r.0.journal (sinking (K.written sink.old) (K.written sink.new) (K.faults sink.old) (K.faults sink.new)) r.1) }
    ensures not_again { IfOk result (λ r. IsTrue r.1.failed → EndsRefused K.refused K.faults sink.old sink.new) }
    ensures unused { OnErr result (sink.new ≡ sink.old) }
{
    let core = Box::new(alloc, core)?;
    let (pipe, sender, printer) = lay(alloc, plan.limit())?;
    let bell = Parker::new();
    let desk = Desk {
        rt,
        pipe: &pipe,
        bell: &bell,
    };
    let watched = Watched {
        state: RunState { core },
        desk: &desk,
        pass: sender,
        ended: false,
    };
    let shift = shift_of(plan);
    let (turn, seats) = seated(alloc, watched, shift.workers())?;
    let (state, printed) = side_by_side(rt, &desk, turn, seats, shift, gate, printer, plan, sink);
    Ok((finish(state), printed))
}

/// Has the workers and the printer work side by side, until both have ended.
fn side_by_side<'a, R: Threads + Wait + Sync, A: Agent + Send, K: Sink + Send, G: Gate + Sync>(
    rt: &R,
    desk: &Desk<'_, R>,
    turn: Turn<Watched<'a, R, A>>,
    seats: Vec<Seat<Watched<'a, R, A>>>,
    shift: Shift,
    gate: &G,
    mut printer: PipePass,
    plan: &Plan,
    sink: &mut K,
) -> (RunState<A>, Printed)
    requires row { (others : ℕ) × IsRow turn others seats.items }
    requires pipe { (opening turn).desk.now.pipe.now ≡ desk.now.pipe.now }
    requires own { IsPassOf desk.now.pipe.now printer }
    requires new { view printer ≡ account false true [] [] }
    ensures plan { result.0.core.value.plan ≡ (opening turn.entry).state.core.value.plan }
    ensures printed { HasPrinted plan.now result.0.core.value.journal (sinking (K.written sink.old) (K.written sink.new) (K.faults sink.old) (K.faults sink.new)) result.1 }
    ensures not_again { IsTrue result.1.failed → EndsRefused K.refused K.faults sink.old sink.new }
{
    let (watched, printed) = print_beside(
        rt,
        desk,
        turn,
        seats,
        shift,
        gate,
        &mut printer,
        plan,
        sink,
    );
    let Watched {
        state,
        desk: _,
        pass,
        ended: _,
    } = watched;
    put_together(desk.pipe, pass, printer);
    (state, printed)
}
