//! What a run has to do with what is expected of it.
ghost use Rattle.std.specs.Prelude.{◌≡◌, ◌++◌, IfOk, None, OnOk, count_by};
ghost use Rattle.std.specs.List.{list_any};
ghost use Rattle.std.specs.Option.{option_copied};
ghost use Rattle.wdf_expect.specs.Patterns.{matches};
ghost use Rattle.wdf_expect.specs.Verdicts.{broken_text, ending_shown, first_broken, is_broken, is_expected, is_fault, is_followed, is_met, is_met_by, is_not_once, is_whole, judged_text, rule_word, verdict_text};

use crate::pattern::Pattern;
use crate::rules::{Expectation, Rule, Wanted};
use std::alloc::Global;
use wdf_base::{Ending, Event, Fault, Memory, Plan};
use wdf_writing::Text;

fn is_fault(fault: Fault, other: Fault) -> bool
    ensures { result ≡ is_fault fault other }
{
    fault.word().as_bytes() == other.word().as_bytes()
}

/// Whether the ending is the one that is wanted; `line` is that of its fault.
fn is_met(wanted: Wanted, ending: Ending, line: u32) -> bool
    ensures { result ≡ is_met wanted ending line }
{
    match (wanted, ending) {
        (Wanted::Finished, Ending::Finished) => true,
        (Wanted::Limit, Ending::Limit) => true,
        (Wanted::Stuck, Ending::Stuck) => true,
        (Wanted::Fault { fault }, Ending::Fault(other)) => is_fault(fault, other),
        (Wanted::FaultAt { fault, line: at }, Ending::Fault(other)) => {
            is_fault(fault, other) && at == u64::from(line)
        }
        _ => false,
    }
}

fn is_met_by(ending: Ending, line: u32, rule: &Rule) -> bool
    ensures { result ≡ is_met_by ending line rule.now }
{
    match rule {
        Rule::Expect { wanted } => is_met(*wanted, ending, line),
        _ => false,
    }
}

/// Whether the run ends as one of these says.
#[tactic(auto, unfolding(crate::specs::Verdicts::is_expected))]
fn is_expected(expectations: &[Expectation], ending: Ending, line: u32) -> bool
    ensures { result ≡ is_expected expectations.now ending line }
{
    expectations
        .iter()
        .any(|expectation| is_met_by(ending, line, &expectation.rule))
}

/// Whether the run has come to its end.
fn is_whole(ending: Ending, expected: bool) -> bool
    ensures { result ≡ is_whole ending expected }
{
    match ending {
        Ending::Finished | Ending::Stuck => true,
        _ => expected,
    }
}

/// Whether an event matches a pattern.
fn any_event(plan: &Plan, events: &[Event], pattern: &Pattern) -> bool
    ensures { result ≡ list_any (matches plan.now pattern.now) events.now }
{
    events.iter().any(|event| pattern.matches(plan, event))
}

/// How many events match a pattern.
fn count_events(plan: &Plan, events: &[Event], pattern: &Pattern) -> usize
    ensures { result ≡ count_by (matches plan.now pattern.now) events.now }
{
    events
        .iter()
        .filter(|event| pattern.matches(plan, event))
        .count()
}

/// Whether each event that the first pattern matches has one after it that the next matches.
fn is_followed(plan: &Plan, events: &[Event], first: &Pattern, next: &Pattern) -> bool
    ensures { result ≡ is_followed plan.now first.now next.now events.now }
{
    let mut open = false;
    for event in events {
        open = first.matches(plan, event) || (open && !next.matches(plan, event));
    }
    !open
}

fn is_not_once(whole: bool, count: usize) -> bool
    ensures { result ≡ is_not_once whole count }
{
    count > 1 || (whole && count == 0)
}

/// Whether a run breaks a rule.
fn is_broken(plan: &Plan, events: &[Event], expected: bool, whole: bool, rule: &Rule) -> bool
    ensures { result ≡ is_broken plan.now events.now expected whole rule.now }
{
    match rule {
        Rule::Expect { .. } => !expected,
        Rule::Never { pattern } => any_event(plan, events, pattern),
        Rule::Once { pattern } => is_not_once(whole, count_events(plan, events, pattern)),
        Rule::After { first, next } => whole && !is_followed(plan, events, first, next),
    }
}

/// The first of the expectations that a run breaks.
#[tactic(auto, unfolding(crate::specs::Verdicts::first_broken))]
fn first_broken<'a>(
    plan: &Plan,
    events: &[Event],
    expected: bool,
    whole: bool,
    expectations: &'a [Expectation],
) -> Option<&'a Expectation>
    ensures { option_copied result ≡ first_broken plan.now events.now expected whole expectations.now }
{
    expectations.iter().find(|expectation| is_broken(
        plan,
        events,
        expected,
        whole,
        &expectation.rule,
    ))
}

fn rule_word(rule: &Rule) -> &'static [u8]
    ensures { result.now ≡ rule_word rule.now }
{
    match rule {
        Rule::Expect { .. } => b"expect",
        Rule::Never { .. } => b"never",
        Rule::Once { .. } => b"once",
        Rule::After { .. } => b"after",
    }
}

/// Adds the kind of an ending that isn't expected.
fn push_ending(out: &mut Text, rule: &Rule, kind: &[u8]) -> Result<(), Memory>
    ensures { OnOk result (out.new ≡ out.old ++ ending_shown rule.now kind.now) }
{
    match rule {
        Rule::Expect { .. } => {
            out.push(b", ")?;
            out.push(kind)
        }
        _ => Ok(()),
    }
}

/// The kind of a run that breaks an expectation.
fn broken_kind(alloc: Global, expectation: &Expectation, kind: &[u8]) -> Result<Text, Memory>
    ensures { IfOk result (λ text. text ≡ broken_text expectation.now kind.now) }
{
    let mut out = Text::new(alloc);
    out.push(b"broken: ")?;
    out.push(rule_word(&expectation.rule))?;
    out.push(b" at line ")?;
    out.push_number(u64::from(expectation.line))?;
    push_ending(&mut out, &expectation.rule, kind)?;
    Ok(out)
}

/// The kind of a run that breaks no expectation.
fn kept_kind(alloc: Global, expected: bool, kind: &[u8]) -> Result<Text, Memory>
    ensures { IfOk result (λ text. text ≡ verdict_text expected None kind.now) }
{
    let mut out = Text::new(alloc);
    if expected {
        out.push(b"as expected: ")?;
    }
    out.push(kind)?;
    Ok(out)
}

/// The kind of a run with these events and an ending of this kind, by what is expected of it. `line` is that of its fault.
///
/// # Errors
///
/// [`Memory`] where memory was refused.
pub fn judged(
    alloc: Global,
    expectations: &[Expectation],
    plan: &Plan,
    events: &[Event],
    ending: Ending,
    line: u32,
    kind: &[u8],
) -> Result<Text, Memory>
    ensures { IfOk result (λ text. text ≡ judged_text expectations.now plan.now events.now ending line kind.now) }
{
    let expected = is_expected(expectations, ending, line);
    let whole = is_whole(ending, expected);
    match first_broken(plan, events, expected, whole, expectations) {
        Some(expectation) => broken_kind(alloc, expectation, kind),
        None => kept_kind(alloc, expected, kind),
    }
}
