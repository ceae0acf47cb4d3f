//! The generated scenario: a large valid input whose reads a number picks.
//!
//! # Choices
//!
//! - **How is it said?** As the lines of its text, with expressions as trees; `scene_of` numbers their nodes. So that
//!   it is the scene of a text needs no second definition.
//! - **Which line numbers has it?** Those of its canonical text, so a fault of its run names the line that `gen N`
//!   writes.
//! - **How does an app find its words?** It goes over all words of the seed and keeps each fourth read. Four passes
//!   over 2,900 words cost some microseconds, and no list of words has to be kept.
#![tactic(auto)]

ghost use Rattle.std.specs.Prelude.{◌≡◌, IfOk};
ghost use Rattle.wdf_gen.specs.Generated.{generated};

mod reads;
mod writer;

use crate::writer::Writer;
use std::alloc::Global;
use wdf_base::{Memory, Name};
use wdf_scene::Scene;

/// The scene that `n` gives: two devices, and 2,900 reads from them by the words of the seed `n`. Its
/// lines have the numbers of its canonical text. The one error is that memory is out.
pub fn generate(alloc: Global, n: u64) -> Result<Scene, Memory>
    ensures { IfOk result (λ scene. scene ≡ generated n) }
{
    let mut writer = Writer::new(alloc);
    writer.add_head()?;
    writer.add_app(Name::new(b"A0"), 0, n)?;
    writer.add_app(Name::new(b"A1"), 1, n)?;
    writer.add_app(Name::new(b"A2"), 2, n)?;
    writer.add_app(Name::new(b"A3"), 3, n)?;
    Ok(writer.finish())
}
