//! Patterns of the lines of a trace.
ghost use Rattle.std.specs.Prelude.{◌≡◌, drop, slice_get};
ghost use Rattle.std.specs.Option.{option_copied};
ghost use Rattle.wdf_trace.specs.Reading.{parts, words};
ghost use Rattle.wdf_expect.specs.Patterns.{is_begun_by, is_there, is_word, matches};

use std::marker::Model;
use wdf_base::{Event, Plan};
use wdf_lines::line_of;
use wdf_writing::Text;

/// A pattern of the lines of a trace. Contracts see its words.
#[derive(Drop)]
pub struct Pattern {
    words: Vec<Text>,
}

impl Model for Pattern {
    ghost use Rattle.std.specs.Prelude.{ℕ, List};

    ghost Value = { List (List ℕ) };

    ghost view = { λ pattern. pattern.words.items };
}

/// Whether a word of a line is one that a pattern's word stands for.
fn is_word(word: &[u8], pattern: &[u8]) -> bool
    ensures { result ≡ is_word word.now pattern.now }
{
    if pattern.ends_with(b"*") {
        word.starts_with(&pattern[..pattern.len() - 1])
    } else {
        word == pattern
    }
}

/// The part of a text at this place between separators, if there are so many.
fn part_at(text: &[u8], separator: u8, place: usize) -> Option<&[u8]>
    ensures { option_copied result ≡ slice_get (parts separator text.now) place }
{
    text.split(|byte| *byte == separator).nth(place)
}

/// Whether a line has a word at this place that a pattern's word stands for.
fn is_there(line: &[u8], place: usize, pattern: &Text) -> bool
    ensures { result ≡ is_there (slice_get (words line.now) place) pattern.now }
{
    match part_at(line, b' ', place) {
        Some(word) => is_word(word, pattern.bytes()),
        None => false,
    }
}

/// Whether the words of a line after its first begin with words that these stand for.
fn is_begun_by(pattern: &[Text], line: &[u8]) -> bool
    ensures { result ≡ is_begun_by pattern.now (drop 1 (words line.now)) }
{
    let mut place = 1;
    for word in pattern {
        if !is_there(line, place, word) {
            return false;
        }
        place += 1;
    }
    true
}

impl Pattern {
    /// The pattern of these words.
    pub(crate) fn new(words: Vec<Text>) -> Pattern
        ensures { result ≡ words.items }
    {
        Pattern { words }
    }

    /// Whether the line of an event begins so, but for its number.
    #[tactic(auto, unfolding(crate::specs::Patterns::matches))]
    pub fn matches(&self, plan: &Plan, event: &Event) -> bool
        ensures { result ≡ matches plan.now self.now event.now }
    {
        is_begun_by(self.words.as_slice(), line_of(plan, 0, event).bytes())
    }
}
