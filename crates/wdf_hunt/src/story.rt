//! The story of a seed.
ghost use Rattle.std.specs.Prelude.{◌≡◌, IfOk};
ghost use Rattle.wdf_io.specs.Outside.{EndsRefused};
ghost use Rattle.wdf_output.specs.Said.{sinking};
ghost use Rattle.wdf_scene.specs.Naming.{HasProperNames};
ghost use Rattle.wdf_scene.specs.Written.{IsScene};
ghost use Rattle.wdf_hunt.specs.Answers.{IsStoryText, TellsDue};

use std::alloc::Global;
use wdf_base::Memory;
use wdf_exit::Exit;
use wdf_io::Sink;
use wdf_output::{Refusal, say, tell};
use wdf_shrink::{story_of_seed, story_text};
use wdf_tries::{Case, moved_case};

/// The scene that the seed runs, with the picks of a plain run of the kind of the seed's.
fn story_of(alloc: Global, case: Case, seed: u64) -> Result<Vec<u8>, Memory>
    requires scene { IsScene case.scene }
    requires names { HasProperNames case.scene }
    ensures { IfOk result (λ text. IsStoryText case seed text.items 0) }
{
    let moved = moved_case(alloc, case, seed)?;
    let picks = story_of_seed(alloc, &moved, seed)?;
    story_text(alloc, &moved.scene, picks.as_slice())
}

/// Writes the story of a seed, or the line `out of memory`.
pub(crate) fn tell_story<K: Sink>(alloc: Global, case: Case, seed: u64, sink: &mut K) -> u8
    requires scene { IsScene case.scene }
    requires names { HasProperNames case.scene }
    ensures told { TellsDue (IsStoryText case seed)
        (sinking (K.written sink.old) (K.written sink.new) (K.faults sink.old) (K.faults sink.new))
        result }
    ensures not_again { result ≡ 13 → EndsRefused K.refused K.faults sink.old sink.new }
{
    match story_of(alloc, case, seed) {
        Ok(text) => say(sink, text.as_slice(), Exit::Fine as u8),
        Err(memory) => tell(sink, Refusal::from(memory)),
    }
}
