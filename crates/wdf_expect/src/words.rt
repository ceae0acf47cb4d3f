//! Rules by their words.
ghost use Rattle.std.specs.Prelude.{◌≡◌, ◌<◌, IfOk, IfSome, length, position};
ghost use Rattle.wdf_expect.specs.Reading.{after_in, both_in, fault_at, fault_wanted, is_comes, number_in, pattern_in, placed_wanted, plain_wanted, rule_in, rule_with, wanted_in};

use crate::pattern::Pattern;
use crate::rules::{Rule, Wanted};
use std::alloc::Global;
use wdf_base::{Fault, Memory};
use wdf_text::{is_number, small_number};
use wdf_writing::Text;

/// A copy of a word.
pub(crate) fn copy_of(alloc: Global, word: &[u8]) -> Result<Text, Memory>
    ensures { IfOk result (λ copy. copy ≡ word.now) }
{
    let mut copy = Text::new(alloc);
    copy.push(word)?;
    Ok(copy)
}

/// Copies of words.
fn copies_of(alloc: Global, words: &[Text]) -> Result<Vec<Text>, Memory>
    ensures { IfOk result (λ copies. copies.items ≡ words.now) }
{
    let mut copies = Vec::new(alloc);
    for word in words {
        copies.push(copy_of(alloc, word.bytes())?)?;
    }
    Ok(copies)
}

/// An ending of one word.
fn plain_wanted(word: &Text) -> Option<Wanted>
    ensures { result ≡ plain_wanted word.now }
{
    if word.is(b"finished") {
        Some(Wanted::Finished)
    } else if word.is(b"limit") {
        Some(Wanted::Limit)
    } else if word.is(b"stuck") {
        Some(Wanted::Stuck)
    } else {
        None
    }
}

/// A fault in whatever line.
fn fault_wanted(word: &Text, name: &Text) -> Option<Wanted>
    ensures { result ≡ fault_wanted word.now name.now }
{
    if word.is(b"fault") {
        Fault::from_word(name.bytes()).map(|fault| Wanted::Fault { fault })
    } else {
        None
    }
}

/// The number that a word of digits writes.
fn number_in(word: &[u8]) -> Option<u64>
    ensures { result ≡ number_in word.now }
{
    if is_number(word) {
        small_number(word)
    } else {
        None
    }
}

fn fault_at(fault: Option<Fault>, line: Option<u64>) -> Option<Wanted>
    ensures { result ≡ fault_at fault line }
{
    match (fault, line) {
        (Some(fault), Some(line)) => Some(Wanted::FaultAt { fault, line }),
        _ => None,
    }
}

/// A fault in a line of the text.
fn placed_wanted(word: &Text, name: &Text, at: &Text, line: &Text, number: &Text) -> Option<Wanted>
    ensures { result ≡ placed_wanted word.now name.now at.now line.now number.now }
{
    if word.is(b"fault") && at.is(b"at") && line.is(b"line") {
        fault_at(Fault::from_word(name.bytes()), number_in(number.bytes()))
    } else {
        None
    }
}

/// The ending that words ask for.
fn wanted_in(words: &[Text]) -> Option<Wanted>
    ensures { result ≡ wanted_in words.now }
{
    match words {
        [word] => plain_wanted(word),
        [word, name] => fault_wanted(word, name),
        [word, name, at, line, number] => placed_wanted(word, name, at, line, number),
        _ => None,
    }
}

/// The pattern of some words, if there are some.
fn pattern_in(alloc: Global, words: &[Text]) -> Result<Option<Pattern>, Memory>
    ensures { IfOk result (λ pattern. pattern ≡ pattern_in words.now) }
{
    if words.is_empty() {
        return Ok(None);
    }
    Ok(Some(Pattern::new(copies_of(alloc, words)?)))
}

fn both_in(first: Option<Pattern>, next: Option<Pattern>) -> Option<Rule>
    ensures { result ≡ both_in first next }
{
    match (first, next) {
        (Some(first), Some(next)) => Some(Rule::After { first, next }),
        _ => None,
    }
}

/// Whether a word stands between two patterns.
fn is_comes(word: &Text) -> bool
    ensures { result ≡ is_comes word.now }
{
    word.is(b"comes")
}

/// The place of the word between two patterns.
fn comes_at(words: &[Text]) -> Option<usize>
    ensures place { result ≡ position is_comes words.now }
    ensures within { IfSome result (λ place. place < length words.now) }
{
    words.iter().position(is_comes)
}

/// Two patterns, with a word between them.
fn after_in(alloc: Global, place: Option<usize>, words: &[Text]) -> Result<Option<Rule>, Memory>
    requires { IfSome place (λ k. k < length words.now) }
    ensures { IfOk result (λ rule. rule ≡ after_in place words.now) }
{
    let Some(place) = place else {
        return Ok(None);
    };
    let first = pattern_in(alloc, &words[..place])?;
    let next = pattern_in(alloc, &words[place + 1..])?;
    Ok(both_in(first, next))
}

/// The rule that a word and the words after it give.
fn rule_with(alloc: Global, word: &Text, words: &[Text]) -> Result<Option<Rule>, Memory>
    ensures { IfOk result (λ rule. rule ≡ rule_with word.now words.now) }
{
    if word.is(b"expect") {
        Ok(wanted_in(words).map(|wanted| Rule::Expect { wanted }))
    } else if word.is(b"never") {
        Ok(pattern_in(alloc, words)?.map(|pattern| Rule::Never { pattern }))
    } else if word.is(b"once") {
        Ok(pattern_in(alloc, words)?.map(|pattern| Rule::Once { pattern }))
    } else if word.is(b"after") {
        after_in(alloc, comes_at(words), words)
    } else {
        Ok(None)
    }
}

/// The rule that words give, if they give one.
pub(crate) fn rule_in(alloc: Global, words: &[Text]) -> Result<Option<Rule>, Memory>
    ensures { IfOk result (λ rule. rule ≡ rule_in words.now) }
{
    match words {
        [word, more @ ..] => rule_with(alloc, word, more),
        [] => Ok(None),
    }
}
