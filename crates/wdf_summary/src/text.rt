//! The text of a summary.
ghost use Rattle.std.specs.Prelude.{◌≡◌, ◌≤◌, ◌++◌, codes, decimal, length};
ghost use Rattle.wdf_model.specs.rules.Ready.{ending_of};
ghost use Rattle.wdf_summary.specs.Counts.{summary_text};

use crate::counts::{arrivals, completions};
use wdf_base::Agent;
use wdf_core::Core;
use wdf_lines::{Message, ending_word};

/// The lines of the counts.
fn lines_of(events: usize, requests: usize, completed: usize) -> Message
    ensures value { result ≡ codes "events " ++ decimal events ++ codes "\nrequests " ++ decimal requests ++ codes "\ncompleted " ++ decimal completed ++ codes "\n" }
    ensures small { length result ≤ 90 }
{
    let mut message = Message::new(b"events ");
    message.push_number(events as u64);
    message.push(b"\nrequests ");
    message.push_number(requests as u64);
    message.push(b"\ncompleted ");
    message.push_number(completed as u64);
    message.push(b"\n");
    message
}

/// The summary of a run: how many events it has, how many requests arrived, how many completions there
/// were, and how it ends. It takes no memory.
pub fn summary<A: Agent>(core: &Core<A>) -> Message
    ensures { result ≡ summary_text core.now.journal (ending_of core.now.plan A.meaning core.now.journal) }
{
    let mut message = lines_of(core.journal_len(), arrivals(core), completions(core));
    message.push(ending_word(core.ending()));
    message.push(b"\n");
    message
}
