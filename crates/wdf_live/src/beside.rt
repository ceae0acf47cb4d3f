//! The printer beside the workers.
ghost use Rattle.std.specs.Prelude.{◌≡◌, ℕ, [], true, false};
ghost use mathlib.Core.List.{IsPrefix};
ghost use Rattle.crossbeam_queue.specs.Passes.{view, IsPassOf};
ghost use Rattle.wdf_crew.specs.Rows.{IsRow};
ghost use Rattle.wdf_live.specs.Printed.{IsTold, LeavesAlone};
ghost use Rattle.wdf_live.specs.Told.{item_lines, lines_in};
ghost use Rattle.wdf_output.specs.Said.{sinking};
ghost use Rattle.wdf_pipe.specs.Pipe.{account};
ghost use Rattle.wdf_turn.specs.Turns.{opening};

use crate::printer::{Printed, print_all};
use std::sync::Wait;
use std::thread::Threads;
use wdf_base::Plan;
use wdf_crew::{Advance, Shift, worked_beside};
use wdf_io::Sink;
use wdf_pipe::{Desk, PipePass};
use wdf_turn::{Gate, Seat, Turn};

/// Has the workers make of the value what they make of it, and prints what is sent meanwhile, until both have ended.
pub fn print_beside<R: Threads + Wait + Sync, T: Advance + Send, K: Sink + Send, G: Gate + Sync>(
    rt: &R,
    desk: &Desk<'_, R>,
    turn: Turn<T>,
    seats: Vec<Seat<T>>,
    shift: Shift,
    gate: &G,
    printer: &mut PipePass,
    plan: &Plan,
    sink: &mut K,
) -> (T, Printed)
    requires row { (others : ℕ) × IsRow turn others seats.items }
    requires own { IsPassOf desk.now.pipe.now printer.old }
    requires new { view printer.old ≡ account false true [] [] }
    ensures root { T.root result.0 ≡ T.root (opening turn) }
    ensures list { IsPrefix (T.events (opening turn)) (T.events result.0) }
    ensures own { IsPassOf desk.now.pipe.now printer.new }
    ensures takes { (view printer.new).takes ≡ true }
    ensures lines { result.1.lines ≡ lines_in (view printer.new).taken }
    ensures told { IsTold result.1.failed (sinking (K.written sink.old) (K.written sink.new) (K.faults sink.old) (K.faults sink.new)) (item_lines plan.now (view printer.new).taken) }
    ensures not_again { LeavesAlone K.refused K.faults sink.old sink.new result.1.failed }
{
    worked_beside(
        rt,
        turn,
        seats,
        shift,
        gate,
        // Where no thread can be made, this call is made last.
        &mut || -> Printed
            requires own { IsPassOf desk.now.pipe.now printer.now }
            requires new { view printer.now ≡ account false true [] [] }
            ensures own { IsPassOf desk.entry.now.pipe.now printer.exit.now }
            ensures takes { (view printer.exit.now).takes ≡ true }
            ensures lines { result.lines ≡ lines_in (view printer.exit.now).taken }
            ensures told { IsTold result.failed (sinking (K.written sink.entry.now) (K.written sink.exit.now) (K.faults sink.entry.now) (K.faults sink.exit.now)) (item_lines plan.entry.now (view printer.exit.now).taken) }
            ensures not_again { LeavesAlone K.refused K.faults sink.entry.now sink.exit.now result.failed }
        { print_all(desk, printer, plan, sink) },
    )
}
