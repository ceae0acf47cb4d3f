//! The words of the program.
ghost use Rattle.std.specs.Prelude.{◌≡◌, ◌+◌, ◌<◌, ◌≤◌, ◌^◌, IfSome, IsTrue, map, string_bytes};
ghost use Rattle.wdf_hunt.specs.Words.{form_of_word, form_of_words, form_with_number, form_with_numbers, jitter_in, jitter_of, is_range, range_of, seeds_form, suite_of_words, suite_with};

use wdf_jitter::LAST_TICK;
use wdf_top::number_word;

/// What the program was asked to do.
#[derive(Clone, Copy, Debug, PartialEq, Eq)]
pub enum Form {
    /// Run the seeds from this one on, so many of them, and write the table of their endings. Each moves each `at` line by so
    /// many ticks at most.
    Seeds { from: u64, count: u32, jitter: u32 },
    /// Make the run of this seed plain, and write the scenario that it runs with the picks of the plain run.
    Shrink { seed: u64, jitter: u32 },
    /// Add tables.
    Sum,
    /// Write the story of a trace's ending.
    Explain,
}

/// A range has fewer seeds than this.
const COUNT_LIMIT: u64 = 0x1_0000_0000;

/// Whether so many seeds from this one on are a range of seeds.
fn is_range(from: u64, count: u64) -> bool
    ensures value { result ≡ is_range from count }
    ensures few { IsTrue result → count < 2 ^ 32 }
    ensures fits { IsTrue result → from + count ≤ 2 ^ 64 }
{
    count > 0 && count < COUNT_LIMIT && count - 1 <= u64::MAX - from
}

/// So many seeds from this one on, where they are a range of seeds.
fn seeds_form(from: u64, count: u64, jitter: u32) -> Option<Form>
    ensures { result ≡ seeds_form from count jitter }
{
    if is_range(from, count) {
        Some(Form::Seeds {
            from,
            count: count as u32,
            jitter,
        })
    } else {
        None
    }
}

/// The form of one word alone.
fn form_of_word(word: &str) -> Option<Form>
    ensures { result ≡ form_of_word word.now }
{
    if word == "sum" {
        Some(Form::Sum)
    } else if word == "explain" {
        Some(Form::Explain)
    } else {
        None
    }
}

fn form_with_number(word: &str, number: u64, jitter: u32) -> Option<Form>
    ensures { result ≡ form_with_number word.now number jitter }
{
    if word == "shrink" {
        Some(Form::Shrink {
            seed: number,
            jitter,
        })
    } else {
        None
    }
}

fn form_with_numbers(word: &str, first: u64, second: u64, jitter: u32) -> Option<Form>
    ensures { result ≡ form_with_numbers word.now first second jitter }
{
    if word == "seeds" {
        seeds_form(first, second, jitter)
    } else {
        None
    }
}

/// So many ticks after the word `jitter`, where they are no more than a line may name.
fn jitter_of(word: &str, number: u64) -> Option<u32>
    ensures { result ≡ jitter_of word.now number }
{
    if word == "jitter" && number <= LAST_TICK {
        Some(number as u32)
    } else {
        None
    }
}

/// What two words say of the jitter, if they do.
fn jitter_in(word: &str, most: &[u8]) -> Option<u32>
    ensures { result ≡ jitter_in word.now most.now }
{
    jitter_of(word, number_word(most)?)
}

/// The form that the words after the program's name ask for, if they are one.
pub(crate) fn form_of(words: &[String]) -> Option<Form>
    ensures { result ≡ form_of_words (map string_bytes words.now) }
{
    match words {
        [word] => form_of_word(word.as_str()),
        [word, number] => form_with_number(word.as_str(), number_word(number.as_bytes())?, 0),
        [word, from, count] => form_with_numbers(
            word.as_str(),
            number_word(from.as_bytes())?,
            number_word(count.as_bytes())?,
            0,
        ),
        [word, number, jitter, most] => form_with_number(
            word.as_str(),
            number_word(number.as_bytes())?,
            jitter_in(jitter.as_str(), most.as_bytes())?,
        ),
        [word, from, count, jitter, most] => form_with_numbers(
            word.as_str(),
            number_word(from.as_bytes())?,
            number_word(count.as_bytes())?,
            jitter_in(jitter.as_str(), most.as_bytes())?,
        ),
        _ => None,
    }
}

/// Seeds from one on, so many.
#[derive(Clone, Copy)]
pub struct Range {
    /// The first seed.
    pub from: u64,
    /// How many there are.
    pub count: u32,
}

/// The seeds of a suite that names none.
const USUAL_RANGE: Range = Range {
    from: 0,
    count: 100,
};

/// The seeds that two numbers name, if they are a range.
fn range_of(from: u64, count: u64) -> Option<Range>
    ensures value { result ≡ range_of from count }
    ensures fits { IfSome result (λ range. range.from + range.count ≤ 2 ^ 64) }
{
    if is_range(from, count) {
        Some(Range {
            from,
            count: count as u32,
        })
    } else {
        None
    }
}

/// The seeds of a suite, where the word asks for one.
fn suite_with(word: &str, range: Option<Range>) -> Option<Range>
    requires { IfSome range (λ r. r.from + r.count ≤ 2 ^ 64) }
    ensures value { result ≡ suite_with word.now range }
    ensures fits { IfSome result (λ r. r.from + r.count ≤ 2 ^ 64) }
{
    if word == "test" { range } else { None }
}

/// Over which seeds the words ask for a suite, if they do: `test FOLDER`, or `test FOLDER FROM COUNT`.
pub fn suite_of(words: &[String]) -> Option<Range>
    ensures value { result ≡ suite_of_words (map string_bytes words.now) }
    ensures fits { IfSome result (λ range. range.from + range.count ≤ 2 ^ 64) }
{
    match words {
        [word, _] => suite_with(word.as_str(), Some(USUAL_RANGE)),
        [word, _, from, count] => suite_with(
            word.as_str(),
            range_of(
                number_word(from.as_bytes())?,
                number_word(count.as_bytes())?,
            ),
        ),
        _ => None,
    }
}
