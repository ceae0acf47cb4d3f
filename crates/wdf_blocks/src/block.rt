//! What the lines of a block give it, and where it ends.
ghost use Rattle.std.specs.Prelude.{◌≡◌, ◌+◌, ◌<◌, ◌^◌, length, drop, IfSome, option_and_then, position};
ghost use Rattle.wdf_blocks.specs.Blocks as blocks;

use crate::attribute::{Attribute, gives};
use crate::forms::{is_driver, is_end, opens};
use wdf_base::{ExecutionLevel, Scope};
use wdf_scene::{NumberedLine, Scene, SceneLine};

fn counts_for(attribute: Attribute, depth: u32, form: &SceneLine) -> bool
    ensures { result ≡ blocks.counts_for attribute depth form.now }
{
    if depth == 0 || attribute.is_device_wide() {
        gives(attribute, form)
    } else {
        false
    }
}

/// Whether a line ends its block, where so many blocks inside it are open.
pub fn ends_block(depth: u32, form: &SceneLine) -> bool
    ensures { result ≡ blocks.ends_block depth form.now }
{
    depth == 0 && is_end(form)
}

/// How many blocks inside it are open after a line.
pub fn depth_after(depth: u32, form: &SceneLine) -> u32
    requires { depth + 1 < 2 ^ 32 }
    ensures { result ≡ blocks.depth_after depth form.now }
{
    if opens(form) {
        depth + 1
    } else if is_end(form) {
        depth.saturating_sub(1)
    } else {
        depth
    }
}

/// The place of the first line, from line `from` on, that gives the block the attribute.
fn given_from(attribute: Attribute, lines: &[NumberedLine], from: u32) -> Option<u32>
    requires { length lines.now < 2 ^ 32 }
    ensures { result ≡ blocks.given_from attribute 0 from (drop from lines.now) }
{
    let mut depth = 0;
    let mut at = from;
    while (at as usize) < lines.len() {
        let line = &lines[at as usize];
        if counts_for(attribute, depth, &line.form) {
            return Some(at);
        }
        if ends_block(depth, &line.form) {
            return None;
        }
        depth = depth_after(depth, &line.form);
        at += 1;
    }
    None
}

/// The place of the first line that gives the attribute to the block, or to the device, that line
/// `block` opened.
pub fn given(scene: &Scene, block: u32, attribute: Attribute) -> Option<u32>
    ensures { result ≡ blocks.given scene.now block attribute }
{
    let lines = scene.lines.as_slice();
    if (block as usize) < lines.len() {
        given_from(attribute, lines, block + 1)
    } else {
        None
    }
}

/// Whether there is such a line.
#[tactic(auto, unfolding(crate::specs::Blocks::has_given))]
pub fn has_given(scene: &Scene, block: u32, attribute: Attribute) -> bool
    ensures { result ≡ blocks.has_given scene.now block attribute }
{
    given(scene, block, attribute).is_some()
}

/// The form of a line, if there is such a line.
#[tactic(auto, unfolding(crate::specs::Blocks::form_at))]
pub fn form_at(scene: &Scene, at: u32) -> Option<SceneLine>
    ensures { result ≡ blocks.form_at scene.now at }
{
    let lines = scene.lines.as_slice();
    lines.get(at as usize).map(|line| line.form)
}

/// The number of a line in the text, or 0 where there is no such line.
#[tactic(auto, unfolding(crate::specs::Blocks::number_at))]
pub fn number_at(scene: &Scene, at: u32) -> u32
    ensures { result ≡ blocks.number_at scene.now at }
{
    let lines = scene.lines.as_slice();
    lines.get(at as usize).map_or(0, |line| line.number)
}

#[tactic(auto, unfolding(crate::specs::Blocks::level_in))]
fn level_in(line: &SceneLine) -> Option<ExecutionLevel>
    ensures { result ≡ blocks.level_in line.now }
{
    match line {
        SceneLine::Level { level } => *level,
        _ => None,
    }
}

#[tactic(auto, unfolding(crate::specs::Blocks::scope_in))]
fn scope_in(line: &SceneLine) -> Option<Scope>
    ensures { result ≡ blocks.scope_in line.now }
{
    match line {
        SceneLine::Scope { scope } => *scope,
        _ => None,
    }
}

/// The ticks that a `period` line gives.
#[tactic(auto, unfolding(crate::specs::Blocks::ticks_in))]
pub fn ticks_in(line: &SceneLine) -> Option<u64>
    ensures { result ≡ blocks.ticks_in line.now }
{
    match line {
        SceneLine::Period { ticks } => Some(*ticks),
        _ => None,
    }
}

/// The form of the first line that gives the block the attribute.
pub fn given_form(scene: &Scene, block: u32, attribute: Attribute) -> Option<SceneLine>
    ensures { result ≡ option_and_then (blocks.form_at scene.now) (blocks.given scene.now block attribute) }
{
    match given(scene, block, attribute) {
        Some(at) => form_at(scene, at),
        None => None,
    }
}

/// The level that the lines of a block give it, where it doesn't inherit.
#[tactic(auto, unfolding(crate::specs::Blocks::given_level))]
pub fn given_level(scene: &Scene, block: u32) -> Option<ExecutionLevel>
    ensures { result ≡ blocks.given_level scene.now block }
{
    match given_form(scene, block, Attribute::Level) {
        Some(line) => level_in(&line),
        None => None,
    }
}

/// The scope that the lines of a block give it, where it doesn't inherit.
#[tactic(auto, unfolding(crate::specs::Blocks::given_scope))]
pub fn given_scope(scene: &Scene, block: u32) -> Option<Scope>
    ensures { result ≡ blocks.given_scope scene.now block }
{
    match given_form(scene, block, Attribute::Scope) {
        Some(line) => scope_in(&line),
        None => None,
    }
}

/// The line of the `driver` block, if there is one.
#[tactic(auto, unfolding(crate::specs::Blocks::driver_line))]
pub fn driver_line(scene: &Scene) -> Option<u32>
    ensures value { result ≡ blocks.driver_line scene.now }
    ensures there { IfSome result (λ k. k < length scene.now.lines) }
{
    let found = find_driver(scene.lines.as_slice());
    found.map(|at| at as u32)
}

fn find_driver(lines: &[NumberedLine]) -> Option<usize>
    ensures value { result ≡ position blocks.is_driver_line lines.now }
    ensures there { IfSome result (λ k. k < length lines.now) }
{
    lines.iter().position(|line| is_driver(&line.form))
}
