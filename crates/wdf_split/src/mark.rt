//! The line between a scenario and a trace.
ghost use Rattle.std.specs.Prelude.{◌≡◌, ◌≢◌, ◌++◌, ℕ, List, codes, drop, length, IfSome, IfNone};
ghost use Rattle.std.specs.List.{list_all, take_while};
ghost use Rattle.wdf_tokens.specs.Tokens.{is_plain, is_blank};
ghost use Rattle.wdf_split.specs.Inputs.{is_idle, is_mark, is_trace_alone, is_within};

use wdf_tokens::{is_blank, is_plain};

/// The word that a line between a scenario and a trace is.
const TRACE: &[u8] = b"trace";

fn blanks_len(text: &[u8]) -> usize
    ensures { result ≡ length (take_while is_blank text.now) }
{
    text.iter().take_while(|byte| is_blank(**byte)).count()
}

fn within_len(line: &[u8]) -> usize
    ensures { result ≡ length (take_while is_within line.now) }
{
    line.iter().take_while(|byte| **byte != b'\n').count()
}

fn is_plain_text(text: &[u8]) -> bool
    ensures { result ≡ list_all is_plain text.now }
{
    text.iter().all(|byte| is_plain(*byte))
}

/// The text after its blanks.
fn after_blanks(text: &[u8]) -> &[u8]
    ensures { result.now ≡ drop (length (take_while is_blank text.now)) text.now }
{
    &text[blanks_len(text)..]
}

/// Whether a text has no token: it has blanks alone, or blanks and a comment.
fn is_idle(text: &[u8]) -> bool
    ensures { result ≡ is_idle text.now }
{
    match after_blanks(text).first() {
        Some(first) => *first == b'#',
        None => true,
    }
}

/// What comes after the word `trace` at a text's front; `None` exactly where that word isn't there.
fn after_word(text: &[u8]) -> Option<&[u8]>
    ensures found { IfSome result (λ rest. text.now ≡ codes "trace" ++ rest.now) }
    ensures none { IfNone result ((rest : List ℕ) → text.now ≢ codes "trace" ++ rest) }
{
    if text.len() >= TRACE.len() && &text[..TRACE.len()] == TRACE {
        Some(&text[TRACE.len()..])
    } else {
        None
    }
}

/// Whether a text's only token is `trace`.
fn is_trace_alone(text: &[u8]) -> bool
    ensures { result ≡ is_trace_alone text.now }
{
    match after_word(after_blanks(text)) {
        Some(rest) => is_idle(rest),
        None => false,
    }
}

/// The text of a line, without its line feed.
fn text_of_line(line: &[u8]) -> &[u8]
    ensures { result.now ≡ take_while is_within line.now }
{
    &line[..within_len(line)]
}

/// Whether a line's only token is `trace`, and each of its bytes is one that a scenario may have.
pub fn is_mark(line: &[u8]) -> bool
    ensures { result ≡ is_mark line.now }
{
    let text = text_of_line(line);
    is_plain_text(text) && is_trace_alone(text)
}
