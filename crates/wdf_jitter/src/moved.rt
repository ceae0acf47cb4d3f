ghost use Rattle.std.specs.Prelude.{◌≡◌, ◌≤◌, ◌<◌, IfOk, length};
ghost use Rattle.wdf_scene.specs.Naming.{HasProperNames};
ghost use Rattle.wdf_scene.specs.Written.{IsScene};
ghost use Rattle.wdf_jitter.specs.Moved.{moved_form, moved_line, moved_lines, moved_scene, moved_tick};

use crate::copied::copied;
use std::alloc::Global;
use wdf_base::{Items, MANY, Memory};
use wdf_scene::{NumberedLine, Scene, SceneLine};

/// The last tick that an `at` line may name.
pub const LAST_TICK: u64 = 1_000_000;

/// A tick that a word moves.
fn moved_tick(most: u32, word: u64, tick: u64) -> u64
    ensures { result ≡ moved_tick most word tick }
{
    let later = word % (u64::from(most) + 1);
    tick + later.min(LAST_TICK.saturating_sub(tick))
}

/// The form of a line that a word moves.
fn moved_form(most: u32, word: u64, form: &SceneLine) -> SceneLine
    ensures { result ≡ moved_form most word form.now }
{
    match *form {
        SceneLine::At { tick, action } => SceneLine::At {
            tick: moved_tick(most, word, tick),
            action,
        },
        SceneLine::AtRead {
            tick,
            device,
            length,
        } => SceneLine::AtRead {
            tick: moved_tick(most, word, tick),
            device,
            length,
        },
        SceneLine::AtWrite {
            tick,
            device,
            length,
        } => SceneLine::AtWrite {
            tick: moved_tick(most, word, tick),
            device,
            length,
        },
        SceneLine::AtControl {
            tick,
            device,
            code,
            length,
        } => SceneLine::AtControl {
            tick: moved_tick(most, word, tick),
            device,
            code,
            length,
        },
        SceneLine::AtCancel { tick, request } => SceneLine::AtCancel {
            tick: moved_tick(most, word, tick),
            request,
        },
        SceneLine::AtAsk { tick, ask, device } => SceneLine::AtAsk {
            tick: moved_tick(most, word, tick),
            ask,
            device,
        },
        other => other,
    }
}

/// A line that a word moves.
fn moved_line(
    alloc: Global,
    most: u32,
    word: u64,
    line: &NumberedLine,
) -> Result<NumberedLine, Memory>
    ensures { IfOk result (λ moved. moved ≡ moved_line most word line.now) }
{
    let picks = copied(alloc, &line.picks)?;
    Ok(NumberedLine {
        number: line.number,
        form: moved_form(most, word, &line.form),
        picks,
    })
}

/// Lines, each moved by its word.
fn moved_lines(
    alloc: Global,
    most: u32,
    words: &[u64],
    lines: &Items<NumberedLine, MANY>,
) -> Result<Items<NumberedLine, MANY>, Memory>
    requires { length lines.now ≤ length words.now }
    ensures { IfOk result (λ moved. moved ≡ moved_lines most words.now lines.now) }
{
    let mut moved = Items::new(alloc);
    for (at, line) in lines.as_slice().iter().enumerate() {
        moved.push(moved_line(alloc, most, words[at], line)?)?;
    }
    Ok(moved)
}

/// The scene with each line moved by its word, up to so many ticks later.
///
/// # Errors
///
/// [`Memory`] where memory was refused.
pub fn moved_scene(alloc: Global, most: u32, words: &[u64], scene: &Scene) -> Result<Scene, Memory>
    requires { length scene.now.lines ≤ length words.now }
    ensures moved { IfOk result (λ moved. moved ≡ moved_scene most words.now scene.now) }
    ensures scene { IsScene scene.now → IfOk result IsScene }
    ensures names { HasProperNames scene.now → IfOk result HasProperNames }
{
    let lines = moved_lines(alloc, most, words, &scene.lines)?;
    let exprs = copied(alloc, &scene.exprs)?;
    Ok(Scene {
        version: scene.version,
        lines,
        exprs,
    })
}
