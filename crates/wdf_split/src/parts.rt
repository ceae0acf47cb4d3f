//! An input is parted at its first line `trace`.
ghost use Rattle.std.specs.Prelude.{◌≡◌, ◌+◌, ◌≤◌, drop, length, take};
ghost use Rattle.wdf_split.specs.Inputs.{scenario_in, trace_in};

use crate::mark::is_mark;
use wdf_run_text::line_at;

/// Where the scenario of an input ends, and where its trace begins.
#[derive(Clone, Copy)]
pub struct Parts {
    /// How many bytes the scenario has.
    pub scenario: usize,
    /// How many bytes come before the trace.
    pub trace: usize,
}

/// Finds the first line of an input whose only token is `trace`, with bytes that a scenario may have. The scenario is
/// the bytes before it and the trace is the bytes after it. Without such a line all is scenario, and the trace has no bytes. (own)
pub fn split(input: &[u8]) -> Parts
    ensures scenario_within { result.scenario ≤ length input.now }
    ensures trace_within { result.trace ≤ length input.now }
    ensures scenario { take result.scenario input.now ≡ scenario_in input.now }
    ensures trace { drop result.trace input.now ≡ trace_in input.now }
{
    let mut at = 0;
    while at < input.len() {
        let line = line_at(input, at);
        let next = at + line.len();
        if is_mark(line) {
            return Parts {
                scenario: at,
                trace: next,
            };
        }
        at = next;
    }
    Parts {
        scenario: at,
        trace: at,
    }
}
