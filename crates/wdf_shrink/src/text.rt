//! The text of a story.
ghost use Rattle.std.specs.Prelude.{◌≡◌, ◌++◌, IfOk, OnOk, false};
ghost use Rattle.wdf_parse.specs.Printing.{version_text};
ghost use Rattle.wdf_shrink.specs.Texts.{block_text, inside_after, is_order, order_text, outside_text, outside_texts, picks_text, story_text};

use itoa::Buffer;
use std::alloc::Global;
use wdf_base::{Memory, push_text};
use wdf_scene::{NumberedLine, Scene, SceneLine};
use wdf_scene_lines::add_line;
use wdf_tokens::{Keyword, Token, keyword_token, push_line};

/// Adds the line `version 2`, where a scene has this version.
fn push_version(out: &mut Vec<u8>, version: u8) -> Result<(), Memory>
    ensures { OnOk result (out.new.items ≡ out.old.items ++ version_text version) }
{
    if version == 2 {
        push_line(out, &[keyword_token(Keyword::Version), Token::Number(2)])
    } else {
        Ok(())
    }
}

/// Whether a line is the first of an `order` block.
fn is_order(form: &SceneLine) -> bool
    ensures { result ≡ is_order form.now }
{
    matches!(form, SceneLine::Order)
}

/// Whether the line after this one is in the `order` block.
fn inside_after(inside: bool, form: &SceneLine) -> bool
    ensures { result ≡ inside_after inside form.now }
{
    if inside {
        !matches!(form, SceneLine::End)
    } else {
        is_order(form)
    }
}

/// Adds a line in canonical form, unless it is of the `order` block. `tokens` is room to work in.
fn push_outside(
    out: &mut Vec<u8>,
    tokens: &mut Vec<Token>,
    scene: &Scene,
    inside: bool,
    line: &NumberedLine,
) -> Result<(), Memory>
    ensures { OnOk result (out.new.items ≡ out.old.items ++ outside_text scene.now.exprs inside line.now) }
{
    if inside || is_order(&line.form) {
        return Ok(());
    }
    tokens.clear();
    add_line(tokens, scene, &line.form, line.picks.as_slice())?;
    push_line(out, tokens)
}

/// Adds the lines outside the `order` block in canonical form.
fn push_lines(alloc: Global, out: &mut Vec<u8>, scene: &Scene) -> Result<(), Memory>
    ensures { OnOk result (out.new.items ≡ out.old.items ++ outside_texts scene.now.exprs false scene.now.lines) }
{
    let mut tokens = Vec::new(alloc);
    let mut inside = false;
    for line in scene.lines.as_slice() {
        push_outside(out, &mut tokens, scene, inside, line)?;
        inside = inside_after(inside, &line.form);
    }
    Ok(())
}

/// Adds picks, a blank before each.
fn push_picks(out: &mut Vec<u8>, picks: &[u64]) -> Result<(), Memory>
    ensures { OnOk result (out.new.items ≡ out.old.items ++ picks_text picks.now) }
{
    for pick in picks {
        let mut buffer = Buffer::new();
        push_text(out, b" ")?;
        push_text(out, buffer.format(*pick).as_bytes())?;
    }
    Ok(())
}

/// Adds an `order` block of these picks.
fn push_block(out: &mut Vec<u8>, picks: &[u64]) -> Result<(), Memory>
    ensures { OnOk result (out.new.items ≡ out.old.items ++ block_text picks.now) }
{
    push_text(out, b"order\npicks")?;
    push_picks(out, picks)?;
    push_text(out, b"\nend\n")?;
    Ok(())
}

/// Adds an `order` block of these picks, where there are some.
fn push_order(out: &mut Vec<u8>, picks: &[u64]) -> Result<(), Memory>
    ensures { OnOk result (out.new.items ≡ out.old.items ++ order_text picks.now) }
{
    if picks.is_empty() {
        return Ok(());
    }
    push_block(out, picks)
}

/// The text of a scene in canonical form, with an `order` block of these picks in place of its own.
///
/// # Errors
///
/// [`Memory`] where memory was refused.
pub fn story_text(alloc: Global, scene: &Scene, picks: &[u64]) -> Result<Vec<u8>, Memory>
    ensures { IfOk result (λ text. text.items ≡ story_text scene.now picks.now) }
{
    let mut out = Vec::new(alloc);
    push_version(&mut out, scene.version)?;
    push_lines(alloc, &mut out, scene)?;
    push_order(&mut out, picks)?;
    Ok(out)
}
