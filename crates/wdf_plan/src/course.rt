//! The way through the statements of a callback.
ghost use Rattle.std.specs.Prelude.{◌≡◌, ◌+◌, ◌≤◌, ◌<◌, ◌^◌, length, drop, slice_get, IfSome};
ghost use Rattle.wdf_plan.specs.Scripts as scripts;

use wdf_blocks::block::depth_after;
use wdf_blocks::forms::{is_end, opens};
use wdf_scene::{NumberedLine, SceneLine};

/// A block that is open in a callback.
#[derive(Clone, Copy)]
pub enum Nest {
    /// An `if`, before or after its `else`.
    Branch,
    /// A `repeat` with its line in the text and the number of its statement.
    Loop { line: u32, number: u64 },
}

/// How far a way came.
#[derive(Clone, Copy)]
pub struct Course {
    /// How many blocks are being passed over.
    pub skipping: u64,
    /// How many of the blocks that were open are left.
    pub left: u64,
    /// The number of the next statement.
    pub number: u64,
}

/// A way that is kept of an open block: that from the end of its first branch on.
#[derive(Clone, Copy)]
pub struct Detour {
    /// The place of the block's `else`, or else of its `end`, among the lines.
    pub at: u32,
    /// The number of the statement after it.
    pub number: u64,
    /// The number of the statement to which the way leads.
    pub leads: u64,
}

#[tactic(auto, unfolding(crate::specs::Scripts::is_else))]
fn is_else(form: &SceneLine) -> bool
    ensures { result ≡ scripts.is_else form.now }
{
    matches!(form, SceneLine::Else)
}

#[tactic(auto, unfolding(crate::specs::Scripts::statements_in))]
fn statements_in(form: &SceneLine) -> u64
    ensures value { result ≡ scripts.statements_in form.now }
    ensures small { result ≤ 2 }
{
    match form {
        SceneLine::Let { .. }
        | SceneLine::Call { .. }
        | SceneLine::Get { .. }
        | SceneLine::Put { .. }
        | SceneLine::If { .. }
        | SceneLine::Spend { .. }
        | SceneLine::Log { .. }
        | SceneLine::Return { .. } => 1,
        SceneLine::Repeat { .. } => 2,
        _ => 0,
    }
}

/// The open block that is left after so many inner ones; the innermost is the last.
pub fn nest_at(blocks: &[Nest], left: u64) -> Option<Nest>
    ensures { result ≡ scripts.nest_at blocks.now left }
{
    let left = left as usize;
    if left < blocks.len() {
        blocks.get(blocks.len() - 1 - left).copied()
    } else {
        None
    }
}

fn is_branch(block: Option<Nest>) -> bool
    ensures { result ≡ scripts.is_branch block }
{
    match block {
        Some(block) => match block {
            Nest::Branch => true,
            Nest::Loop { .. } => false,
        },
        None => false,
    }
}

fn going(blocks: &[Nest], course: Course, form: &SceneLine) -> Option<Course>
    requires { course.left < 2 ^ 62 }
    ensures value { result ≡ scripts.going blocks.now course form.now }
    ensures near { IfSome result (λ t. scripts.IsNear course t) }
{
    if is_end(form) {
        if is_branch(nest_at(blocks, course.left)) {
            Some(Course {
                left: course.left + 1,
                ..course
            })
        } else {
            None
        }
    } else if is_else(form) {
        Some(Course {
            skipping: 1,
            ..course
        })
    } else {
        None
    }
}

fn skipping(course: Course, form: &SceneLine) -> Course
    requires left { course.left < 2 ^ 62 }
    requires skipping { course.skipping < 2 ^ 62 }
    requires number { course.number < 2 ^ 62 }
    ensures value { result ≡ scripts.skipping course form.now }
    ensures near { scripts.IsNear course result }
{
    let outermost = course.skipping == 1;
    if is_end(form) {
        Course {
            skipping: course.skipping.saturating_sub(1),
            left: if outermost {
                course.left + 1
            } else {
                course.left
            },
            ..course
        }
    } else if is_else(form) && outermost {
        Course {
            skipping: 0,
            ..course
        }
    } else {
        Course {
            skipping: if opens(form) {
                course.skipping + 1
            } else {
                course.skipping
            },
            number: course.number + statements_in(form),
            ..course
        }
    }
}

#[tactic(auto, unfolding(crate::specs::Scripts::passed))]
fn passed(blocks: &[Nest], course: Course, form: &SceneLine) -> Option<Course>
    requires left { course.left < 2 ^ 62 }
    requires skipping { course.skipping < 2 ^ 62 }
    requires number { course.number < 2 ^ 62 }
    ensures value { result ≡ scripts.passed blocks.now course form.now }
    ensures near { IfSome result (λ t. scripts.IsNear course t) }
{
    if course.skipping == 0 {
        going(blocks, course, form)
    } else {
        Some(skipping(course, form))
    }
}

fn known_end(way: Course, at: u32, detour: Option<Detour>) -> Option<u64>
    ensures { result ≡ scripts.known_end way at detour }
{
    match detour {
        Some(detour) => {
            if detour.at == at && detour.number == way.number {
                Some(detour.leads)
            } else {
                None
            }
        }
        None => None,
    }
}

fn detour_at(detours: &[Detour], at: usize) -> Option<Detour>
    ensures { result ≡ slice_get detours.now at }
{
    detours.get(at).copied()
}

// Where the way at line `at` leads, if it is one that is kept.
#[tactic(auto, unfolding(crate::specs::Scripts::shortcut))]
fn shortcut(blocks: &[Nest], detours: &[Detour], way: Course, at: u32) -> Option<u64>
    ensures { result ≡ scripts.shortcut blocks.now detours.now way at }
{
    let left = way.left as usize;
    if way.skipping == 0 && left < blocks.len() {
        known_end(way, at, detour_at(detours, blocks.len() - 1 - left))
    } else {
        None
    }
}

/// The number of the statement to which a way leads, from line `from` on. The end of a way that is kept isn't
/// looked for again.
pub fn reach(
    blocks: &[Nest],
    detours: &[Detour],
    course: Course,
    lines: &[NumberedLine],
    from: u32,
) -> u64
    requires lines { length lines.now < 2 ^ 32 }
    requires left { course.left ≤ 1 }
    requires skipping { course.skipping ≤ 1 }
    requires number { course.number < 2 ^ 40 }
    requires kept { scripts.AreDetours 0 blocks.now lines.now detours.now }
    ensures { result ≡ scripts.reach blocks.now course (drop from lines.now) }
{
    let mut way = course;
    let mut at = from;
    while (at as usize) < lines.len() {
        if let Some(number) = shortcut(blocks, detours, way, at) {
            return number;
        }
        let line = &lines[at as usize];
        match passed(blocks, way, &line.form) {
            Some(next) => way = next,
            None => return way.number,
        }
        at += 1;
    }
    way.number
}

fn ends_branch(depth: u32, form: &SceneLine) -> bool {
    depth == 0 && (is_end(form) || is_else(form))
}

// The line with which the first branch ends of the block in which line `from` is, and the number of the
// statement there, where that of line `from` has this number.
fn turn(lines: &[NumberedLine], from: u32, number: u64) -> (u32, u64)
    requires lines { length lines.now < 2 ^ 32 }
    requires number { number < 2 ^ 34 }
    ensures small { result.1 < 2 ^ 40 }
{
    let mut depth = 0;
    let mut before = number;
    let mut at = from;
    while (at as usize) < lines.len() {
        let line = &lines[at as usize];
        if ends_branch(depth, &line.form) {
            return (at, before);
        }
        depth = depth_after(depth, &line.form);
        before += statements_in(&line.form);
        at += 1;
    }
    (from, number)
}

/// The way to be kept of the innermost of these blocks, in which line `from` is, with the number of the
/// statement there. The ways of the blocks round it are kept.
pub fn kept_way(
    blocks: &[Nest],
    detours: &[Detour],
    number: u64,
    lines: &[NumberedLine],
    from: u32,
) -> Detour
    requires lines { length lines.now < 2 ^ 32 }
    requires number { number < 2 ^ 34 }
    requires kept { scripts.AreDetours 0 blocks.now lines.now detours.now }
    ensures { scripts.IsDetour blocks.now lines.now result }
{
    let (at, number) = turn(lines, from, number);
    let start = Course {
        skipping: 0,
        left: 0,
        number,
    };
    Detour {
        at,
        number,
        leads: reach(blocks, detours, start, lines, at),
    }
}
