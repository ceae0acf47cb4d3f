ghost use Rattle.std.specs.Prelude.{◌≡◌, ◌↔◌, ◌<◌, ◌^◌, ℕ, Some, IfSome, IsTrue};
ghost use Rattle.wdf_base.specs.declared.event.Event.{Event};
ghost use Rattle.wdf_base.specs.declared.plan.Plan.{Plan};
ghost use Rattle.wdf_base.specs.Resolved.{IsResolved};
ghost use Rattle.wdf_lines.specs.Lines.{line_text};
ghost use Rattle.wdf_trace.specs.Events.{IsEventOf};

use crate::reading::{Words, number_of};
use crate::told::event_in;
use crate::valid::is_event;
use wdf_base::{Event, Plan};
use wdf_lines::line_of;

/// Whether an event is one of the plan, and the text its line with this number.
fn is_line_of(plan: &Plan, number: usize, event: Event, text: &[u8]) -> bool
    ensures { IsTrue result ↔ ((line_text plan.now number event ≡ text.now) × IsEventOf plan.now event) }
{
    is_event(plan, event) && line_of(plan, number, &event).bytes() == text
}

/// The number and the event of a line without its line feed, none where the text is the line of no
/// event of the plan.
pub fn read_line(plan: &Plan, text: &[u8]) -> Option<(usize, Event)>
    // What is found has this line, and is an event of the plan.
    ensures found { IfSome result (λ r. (line_text plan.now r.0 r.1 ≡ text.now) × IsEventOf plan.now r.1) }

    // Each event of a resolved plan is found in its line, with its number.
    ensures each { IsResolved plan.now → (number : ℕ) (event : Event) → number < 2 ^ 64 → IsEventOf plan.now event → line_text plan.now number event ≡ text.now → result ≡ Some (number, event) }
{
    let words = Words::of(text);
    let number = number_of(words.at(0)) as usize;
    let event = event_in(plan, &words);
    if is_line_of(plan, number, event, text) {
        Some((number, event))
    } else {
        None
    }
}

/// The law of lines: no two events of a resolved plan share a line.
pub fn one_event_a_line()
    ensures { (plan : Plan) → IsResolved plan → (j k : ℕ) (e f : Event) → j < 2 ^ 64 → k < 2 ^ 64 → IsEventOf plan e → IsEventOf plan f → line_text plan j e ≡ line_text plan k f → (j ≡ k) × (e ≡ f) }
{}
