//! The printer: it writes the lines of the events as they come.
ghost use Rattle.std.specs.Prelude.{◌≡◌, ◌≤◌, ◌++◌, [], true, false, IsTrue, codes, OnOk, OnErr};
ghost use Rattle.crossbeam_queue.specs.Passes.{view, IsPassOf};
ghost use Rattle.wdf_io.specs.Outside.{Gains, EndsRefused};
ghost use Rattle.wdf_lines.specs.Lines.{line_text};
ghost use Rattle.wdf_pipe.specs.Pipe.{account};
ghost use Rattle.wdf_live.specs.Printed.{IsTold};
ghost use Rattle.wdf_live.specs.Told.{item_lines, lines_in};
ghost use Rattle.wdf_output.specs.Said.{IsCutShort, sinking};

use std::sync::Wait;
use wdf_base::{Event, Plan};
use wdf_io::{Failed, Sink};
use wdf_lines::line_of;
use wdf_output::write_line;
use wdf_pipe::{Desk, Item, PipePass};

/// What the printer has done when it ends.
#[derive(Clone, Copy)]
pub struct Printed {
    /// How many events it took, of which the first is number 1. Their lines were written, but for a rest where `failed`.
    pub lines: usize,
    /// Whether a write failed. Then nothing more was written.
    pub failed: bool,
}

/// Writes the line of an event, with its line feed.
///
/// # Errors
///
/// [`Failed`] where a write of the sink failed. A front of the line may be written by then.
pub fn write_event<K: Sink>(
    sink: &mut K,
    plan: &Plan,
    number: usize,
    event: &Event,
) -> Result<(), Failed>
    ensures whole { OnOk result (Gains (K.written sink.old) (K.written sink.new) (line_text plan.now number event.now ++ codes "\n")) }
    ensures cut { OnErr result (IsCutShort (sinking (K.written sink.old) (K.written sink.new) (K.faults sink.old) (K.faults sink.new)) (line_text plan.now number event.now ++ codes "\n")) }
    ensures quiet { OnOk result (K.faults sink.new ≡ K.faults sink.old) }
    ensures never_falls { K.faults sink.old ≤ K.faults sink.new }
    ensures not_again { OnErr result (EndsRefused K.refused K.faults sink.old sink.new) }
{
    write_line(sink, line_of(plan, number, event))
}

/// Takes items and writes their lines, up to the end mark or to a write that fails.
pub fn print_all<R: Wait, K: Sink>(
    desk: &Desk<'_, R>,
    pass: &mut PipePass,
    plan: &Plan,
    sink: &mut K,
) -> Printed
    requires own { IsPassOf desk.now.pipe.now pass.old }
    requires new { view pass.old ≡ account false true [] [] }
    ensures own { IsPassOf desk.now.pipe.now pass.new }
    ensures takes { (view pass.new).takes ≡ true }
    ensures lines { result.lines ≡ lines_in (view pass.new).taken }
    ensures told { IsTold result.failed (sinking (K.written sink.old) (K.written sink.new) (K.faults sink.old) (K.faults sink.new)) (item_lines plan.now (view pass.new).taken) }
    ensures not_again { IsTrue result.failed → EndsRefused K.refused K.faults sink.old sink.new }
{
    for lines in 0..usize::MAX {
        match desk.take(pass) {
            Item::Numbered(number, event) => {
                match write_event(sink, plan, number, &event) {
                    Ok(()) => {}
                    Err(_) => {
                        return Printed {
                            lines: lines + 1,
                            failed: true,
                        };
                    }
                }
            }
            Item::End => {
                return Printed {
                    lines,
                    failed: false,
                };
            }
        }
    }
    Printed {
        lines: usize::MAX,
        failed: false,
    }
}
