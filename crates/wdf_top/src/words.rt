ghost use Rattle.std.specs.Prelude.{◌≡◌, map, string_bytes};
ghost use Rattle.wdf_top.specs.Words.{form_of_word, form_with_number, form_of_words, number_word};

use wdf_text::{is_number, small_number};

/// What the program was asked to do. `run` is none of these forms: this call has no threads to run on.
#[derive(Clone, Copy)]
pub enum Form {
    /// Write the scenario in its canonical form.
    Check,
    /// Write the run that the scenario's own picks make.
    Order,
    /// Write the run that the words of a seed pick.
    Seed(u64),
    /// Judge a trace.
    Replay,
    /// Write the scenario that a number generates.
    Gen(u64),
    /// Run the scenario that a number generates, by the words of that number, and write the summary.
    Load(u64),
    /// Write the run that the scenario's own picks make where idle devices sleep.
    Idle,
    /// Write the run that they make where devices send their requests to the device below.
    Stack,
    /// Write what the static check finds in the scenario's scripts.
    Lint,
}

/// The form that the words after the program's name ask for, if they are one.
pub fn form_of(words: &[String]) -> Option<Form>
    ensures { result ≡ form_of_words (map string_bytes words.now) }
{
    match words {
        [word] => form_of_word(word.as_str()),
        [word, number] => form_with_number(word.as_str(), number_word(number.as_bytes())?),
        _ => None,
    }
}

fn form_of_word(word: &str) -> Option<Form>
    ensures { result ≡ form_of_word word.now }
{
    if word == "check" {
        Some(Form::Check)
    } else if word == "order" {
        Some(Form::Order)
    } else if word == "replay" {
        Some(Form::Replay)
    } else if word == "idle" {
        Some(Form::Idle)
    } else if word == "stack" {
        Some(Form::Stack)
    } else if word == "lint" {
        Some(Form::Lint)
    } else {
        None
    }
}

fn form_with_number(word: &str, number: u64) -> Option<Form>
    ensures { result ≡ form_with_number word.now number }
{
    if word == "seed" {
        Some(Form::Seed(number))
    } else if word == "gen" {
        Some(Form::Gen(number))
    } else if word == "load" {
        Some(Form::Load(number))
    } else {
        None
    }
}

/// The number that one to twenty decimal digits write; `None` where the word is none, or the number isn't below 2^64.
pub fn number_word(word: &[u8]) -> Option<u64>
    ensures { result ≡ number_word word.now }
{
    if (1..=20).contains(&word.len()) && is_number(word) {
        small_number(word)
    } else {
        None
    }
}
