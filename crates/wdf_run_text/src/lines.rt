//! The lines of a trace.
ghost use Rattle.std.specs.Prelude.{◌≡◌, ◌≢◌, ◌+◌, ◌<◌, ◌≤◌, drop, length, IfSome, IfNone, ℕ, List};
ghost use Rattle.wdf_run_text.specs.Lines.{fed, first_line};

/// The bytes from a place on.
pub fn from_place(trace: &[u8], at: usize) -> &[u8]
    requires { at ≤ length trace.now }
    ensures { result.now ≡ drop at trace.now }
{
    &trace[at..]
}

/// The first line of a trace: up to and with a line feed, or all of it.
fn first_line(trace: &[u8]) -> &[u8]
    ensures value { result.now ≡ first_line trace.now }
    ensures some { 0 < length trace.now → 0 < length result.now }
    ensures small { length result.now ≤ length trace.now }
{
    for k in 0..trace.len() {
        if trace[k] == b'\n' {
            return &trace[..k + 1];
        }
    }
    trace
}

/// The line from a place on.
pub fn line_at(trace: &[u8], at: usize) -> &[u8]
    requires { at < length trace.now }
    ensures value { result.now ≡ first_line (drop at trace.now) }
    ensures some { 0 < length result.now }
    ensures small { at + length result.now ≤ length trace.now }
{
    first_line(from_place(trace, at))
}

/// The text of a line, which a line feed ends; `None` exactly where none does.
pub fn text_of_line(line: &[u8]) -> Option<&[u8]>
    ensures found { IfSome result (λ text. line.now ≡ fed text.now) }
    ensures none { IfNone result ((text : List ℕ) → line.now ≢ fed text) }
{
    match line.split_last() {
        Some((last, text)) => { if *last == b'\n' { Some(text) } else { None } }
        None => None,
    }
}
