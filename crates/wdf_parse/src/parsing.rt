//! A text is read to its scene, or to its first refusal.
ghost use Rattle.std.specs.Prelude.{◌≡◌, ◌+◌, ◌<◌, ◌≤◌, [], length, IfOk, OnOk, IfErr, Ok};
ghost use Rattle.wdf_scene.specs.Written.{IsScene};
ghost use Rattle.wdf_tokens.specs.Tokens.{lines_of};
ghost use Rattle.wdf_parse.specs.StandsFor.{StandsFor};
ghost use Rattle.wdf_parse.specs.Laws.{IsNoScene};
ghost use Rattle.wdf_parse.specs.Texts as texts;

use crate::reader::Reader;
use crate::refusal::ParseRefusal;
use std::alloc::Global;
use wdf_scene::Scene;
use wdf_tokens::line_len;

/// The most bytes of a text.
pub const TEXT_LIMIT: usize = 1_048_576;

/// Takes the lines of a text in turn, and answers the number past the last. After an error nothing is
/// said of the reader.
fn take_lines(alloc: Global, reader: &mut Reader, text: &[u8]) -> Result<u32, ParseRefusal>
    requires small { length text.now ≤ TEXT_LIMIT }
    requires exprs { reader.old.builder.exprs ≡ [] }
    requires lines { reader.old.builder.lines ≡ [] }
    ensures past { IfOk result (λ n. n ≡ length (lines_of text.now) + 1) }
    ensures taken { OnOk result (texts.after_lines (Ok reader.old) 1 (lines_of text.now) ≡ Ok reader.new) }
    ensures refused { IfErr result (texts.IsRefusalOf (texts.after_lines (Ok reader.old) 1 (lines_of text.now))) }
{
    let mut tokens = Vec::new(alloc);
    let mut number = 1;
    let mut at = 0;
    while at < text.len() {
        let rest = &text[at..];
        let len = line_len(rest);
        match reader.take_line(alloc, &mut tokens, number, &rest[..len]) {
            Ok(()) => {
                at += len + 1;
                number += 1;
            }
            Err(refusal) => return Err(refusal),
        }
    }
    Ok(number)
}

#[tactic(auto, unfolding(crate::specs::Texts::reading))]
fn read_text(alloc: Global, text: &[u8]) -> Result<Scene, ParseRefusal>
    requires { length text.now ≤ TEXT_LIMIT }
    ensures scene { IfOk result (λ scene. texts.reading text.now ≡ Ok scene) }
    ensures refused { IfErr result (texts.IsRefusalOf (texts.reading text.now)) }
{
    let mut reader = Reader::new(alloc, 1);
    match take_lines(alloc, &mut reader, text) {
        Ok(past) => reader.finish(past),
        Err(refusal) => Err(refusal),
    }
}

/// The scene that stands for a text.
///
/// # Errors
///
/// The text's first refusal, where no scene stands for it; [`ParseRefusal::Memory`] where memory was refused.
pub fn parse(alloc: Global, text: &[u8]) -> Result<Scene, ParseRefusal>
    requires { length text.now ≤ TEXT_LIMIT }
    ensures stands { IfOk result (StandsFor text.now) }
    ensures scene { IfOk result (λ scene. texts.reading text.now ≡ Ok scene) }
    ensures formed { IfOk result (λ scene. IsScene scene) }

    // But for `Memory`, an error is the first refusal, and no scene stands for the text.
    ensures refused { IfErr result (texts.IsRefusalOf (texts.reading text.now)) }
    ensures none { IfErr result (IsNoScene text.now) }
{
    read_text(alloc, text)
}
