//! The kind of an ending.
ghost use Rattle.std.specs.Prelude.{◌≡◌, ◌<◌, ◌≤◌, ◌++◌, IfOk, IfSome, OnOk, codes, decimal, length, position};
ghost use Rattle.wdf_base.specs.Words.{fault_word};
ghost use Rattle.wdf_kinds.specs.Kinds.{forms_of, has_form, is_after, kind_text, line_of_fault, listed_forms, more_forms, place_of, with_form};

use crate::forms::form_of;
use std::alloc::Global;
use wdf_base::{Ending, Event, Fault, Memory, Plan, WaitLine};
use wdf_writing::Text;

/// A kind that is one word.
fn kind_word(alloc: Global, word: &[u8]) -> Result<Text, Memory>
    ensures { IfOk result (λ kind. kind ≡ word.now) }
{
    let mut kind = Text::new(alloc);
    kind.push(word)?;
    Ok(kind)
}

/// The line of the text that a fault names; 0 where an event is none.
pub fn line_of_fault(event: Option<Event>) -> u32
    ensures { result ≡ line_of_fault event }
{
    match event {
        Some(Event::Fault { line, .. }) => line,
        _ => 0,
    }
}

/// The kind of a fault.
fn fault_kind(alloc: Global, fault: Fault, line: u32) -> Result<Text, Memory>
    ensures { IfOk result (λ kind. kind ≡ codes "fault " ++ fault_word fault ++ codes " at line " ++ decimal line) }
{
    let mut kind = Text::new(alloc);
    kind.push(b"fault ")?;
    kind.push(fault.word().as_bytes())?;
    kind.push(b" at line ")?;
    kind.push_number(u64::from(line))?;
    Ok(kind)
}

/// Whether a form is one of these.
#[tactic(auto, unfolding(crate::specs::Kinds::has_form))]
fn has_form(forms: &[Text], form: &[u8]) -> bool
    ensures { result ≡ has_form forms.now form.now }
{
    forms.iter().any(|other| other.is(form))
}

/// Whether another form comes after this one.
fn is_after(form: &[u8], other: &Text) -> bool
    ensures { result ≡ is_after form.now other.now }
{
    other.bytes().cmp(form).is_gt()
}

/// The place of the first form that comes after this one.
fn first_after(forms: &[Text], form: &[u8]) -> Option<usize>
    ensures first { result ≡ position (is_after form.now) forms.now }
    ensures within { IfSome result (λ place. place < length forms.now) }
{
    forms.iter().position(|other| is_after(form, other))
}

/// The place of a form among forms in order.
fn place_of(forms: &[Text], form: &[u8]) -> usize
    ensures place { result ≡ place_of forms.now form.now }
    ensures within { result ≤ length forms.now }
{
    first_after(forms, form).unwrap_or(forms.len())
}

/// Adds the form of a line at its place, unless it is there.
fn add_form(
    alloc: Global,
    forms: &mut Vec<Text>,
    plan: &Plan,
    wait: &WaitLine,
) -> Result<(), Memory>
    ensures { OnOk result (forms.new.items ≡ with_form plan.now forms.old.items wait.now) }
{
    let form = form_of(alloc, plan, wait)?;
    if !has_form(forms.as_slice(), form.bytes()) {
        let place = place_of(forms.as_slice(), form.bytes());
        forms.insert(place, form)?;
    }
    Ok(())
}

/// The forms of the lines of a wait list, each once.
fn forms_of(alloc: Global, plan: &Plan, waits: &[WaitLine]) -> Result<Vec<Text>, Memory>
    ensures { IfOk result (λ forms. forms.items ≡ forms_of plan.now waits.now) }
{
    let mut forms = Vec::new(alloc);
    for wait in waits {
        add_form(alloc, &mut forms, plan, wait)?;
    }
    Ok(forms)
}

/// Adds forms, each after a semicolon.
fn push_more(kind: &mut Text, forms: &[Text]) -> Result<(), Memory>
    ensures { OnOk result (kind.new ≡ kind.old ++ more_forms forms.now) }
{
    for form in forms {
        kind.push(b"; ")?;
        kind.push(form.bytes())?;
    }
    Ok(())
}

/// Adds forms after a colon.
fn push_forms(kind: &mut Text, forms: &[Text]) -> Result<(), Memory>
    ensures { OnOk result (kind.new ≡ kind.old ++ listed_forms forms.now) }
{
    match forms {
        [form, more @ ..] => {
            kind.push(b": ")?;
            kind.push(form.bytes())?;
            push_more(kind, more)
        }
        [] => Ok(()),
    }
}

/// The kind of a stuck run with this wait list.
fn stuck_kind(alloc: Global, plan: &Plan, waits: &[WaitLine]) -> Result<Text, Memory>
    ensures { IfOk result (λ kind. kind ≡ codes "stuck" ++ listed_forms (forms_of plan.now waits.now)) }
{
    let forms = forms_of(alloc, plan, waits)?;
    let mut kind = kind_word(alloc, b"stuck")?;
    push_forms(&mut kind, forms.as_slice())?;
    Ok(kind)
}

/// The kind of an ending, with the line of its fault and its wait list, as a text: `finished`, `limit`, `fault NAME at line L`,
/// or `stuck` with the forms of the wait list.
///
/// # Errors
///
/// [`Memory`] where memory for the text was refused.
pub fn kind_text(
    alloc: Global,
    plan: &Plan,
    ending: Ending,
    line: u32,
    waits: &[WaitLine],
) -> Result<Text, Memory>
    ensures { IfOk result (λ kind. kind ≡ kind_text plan.now ending line waits.now) }
{
    match ending {
        Ending::Running => kind_word(alloc, b"running"),
        Ending::Finished => kind_word(alloc, b"finished"),
        Ending::Limit => kind_word(alloc, b"limit"),
        Ending::Fault(fault) => fault_kind(alloc, fault, line),
        Ending::Stuck => stuck_kind(alloc, plan, waits),
    }
}
