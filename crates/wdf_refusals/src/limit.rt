//! The bounds of a scenario.
ghost use Rattle.std.specs.Prelude.{◌≡◌, count_by};
ghost use Rattle.wdf_base.specs.Resolved.{is_from, is_ticks};
ghost use Rattle.wdf_blocks.specs.Declarations.{object_count, declares_object};
ghost use Rattle.wdf_refusals.specs.Limits as spec;

use crate::names::Names;
use wdf_base::{DispatchKind, Name};
use wdf_blocks::declaration::Declaration;
use wdf_blocks::forms;
use wdf_blocks::placed::Placed;
use wdf_blocks::variables::Variables;
use wdf_scene::{InterruptLevel, SceneLine};

/// A quantity that is bounded. A line past several bounds is refused for the first in this order. All
/// bounds are this project's own.
#[derive(Clone, Copy, Debug, PartialEq, Eq)]
pub enum Limit {
    /// Processors, by `cpus`: 1 to 8.
    Cpus,
    /// Events of a run, by `limit`: 1 to 200,000.
    Limit,
    /// Objects of a run, by `objects`: 1 to 4,096, and at least those declared and the driver object.
    Objects,
    /// Lines `device`: 8.
    Devices,
    /// Lines `app`: 256.
    Apps,
    /// Lines `register`: 64.
    Registers,
    /// Lines `class`: 256.
    Classes,
    /// Statements of the whole text: 4,096. An `else` and an `end` don't count.
    Statements,
    /// Lines with `at`: 4,096.
    Posts,
    /// Numbers after `picks`, of all lines: 200,000.
    Picks,
    /// Different variables of a callback: 16.
    Variables,
    /// The level of an interrupt that isn't passive: 3 to 12.
    Level,
    /// Requests that a parallel queue presents at a time: 1 to 1,024.
    Parallel,
    /// Requests that a target holds: 1 to 256.
    Depth,
    /// Ticks of a delay, a period, an `after` or an `at`: at most 1,000,000.
    Ticks,
}

/// Each limit, in order.
pub const LIMITS: [Limit; 15] = [
    Limit::Cpus,
    Limit::Limit,
    Limit::Objects,
    Limit::Devices,
    Limit::Apps,
    Limit::Registers,
    Limit::Classes,
    Limit::Statements,
    Limit::Posts,
    Limit::Picks,
    Limit::Variables,
    Limit::Level,
    Limit::Parallel,
    Limit::Depth,
    Limit::Ticks,
];

fn is_from(low: u64, high: u64, n: u64) -> bool
    ensures { result ≡ is_from low high n }
{
    low <= n && n <= high
}

fn is_ticks(n: u64) -> bool
    ensures { result ≡ is_ticks n }
{
    n <= 1_000_000
}

#[tactic(auto, unfolding(crate::specs::Limits::over_cpus))]
fn over_cpus(form: &SceneLine) -> bool
    ensures { result ≡ spec.over_cpus form.now }
{
    match form {
        SceneLine::Cpus(n) => !is_from(1, 8, *n),
        _ => false,
    }
}

#[tactic(auto, unfolding(crate::specs::Limits::over_limit))]
fn over_limit(form: &SceneLine) -> bool
    ensures { result ≡ spec.over_limit form.now }
{
    match form {
        SceneLine::Limit(n) => !is_from(1, 200_000, *n),
        _ => false,
    }
}

#[tactic(auto, unfolding(crate::specs::Limits::over_objects))]
fn over_objects(names: &Names, form: &SceneLine) -> bool
    ensures { result ≡ spec.over_objects names.now form.now }
{
    match form {
        SceneLine::Objects(n) => !is_from(1, 4096, *n) || *n <= object_count(names),
        _ => false,
    }
}

#[tactic(auto, unfolding(wdf_blocks::specs::Declarations::object_count))]
fn object_count(names: &Names) -> u64
    ensures { result ≡ object_count names.now }
{
    count_objects(names.as_slice()) as u64
}

fn count_objects(declarations: &[Declaration]) -> usize
    ensures { result ≡ count_by declares_object declarations.now }
{
    declarations
        .iter()
        .filter(|declaration| declaration.thing.is_object())
        .count()
}

fn is_one_too_many(is: bool, bound: u32, before: u32) -> bool
    ensures { result ≡ spec.is_one_too_many is bound before }
{
    is && bound <= before
}

fn over_picks(placed: &Placed) -> bool
    ensures { result ≡ spec.over_picks placed.now }
{
    // Neither number alone is past the bound where their sum isn't.
    let before = placed.counts.picks;
    before > 200_000 || before + u64::from(placed.picks) > 200_000
}

fn over_variables(variables: &Variables, assigned: &Option<Name>) -> bool
    ensures { result ≡ spec.over_variables variables.now assigned.now }
{
    match assigned {
        Some(name) => is_past(variables.number(name)),
        None => false,
    }
}

fn is_past(number: Option<u64>) -> bool
    ensures { result ≡ spec.is_past number }
{
    number.is_some_and(|number| number >= 16)
}

#[tactic(auto, unfolding(crate::specs::Limits::over_level))]
fn over_level(form: &SceneLine) -> bool
    ensures { result ≡ spec.over_level form.now }
{
    match form {
        SceneLine::Interrupt {
            level: InterruptLevel::Numbered(level),
            ..
        } => !is_from(3, 12, *level),
        _ => false,
    }
}

#[tactic(auto, unfolding(crate::specs::Limits::over_parallel))]
fn over_parallel(form: &SceneLine) -> bool
    ensures { result ≡ spec.over_parallel form.now }
{
    match form {
        SceneLine::Queue {
            dispatch: DispatchKind::Parallel(presented),
            ..
        } => !is_from(1, 1024, *presented),
        _ => false,
    }
}

#[tactic(auto, unfolding(crate::specs::Limits::over_depth))]
fn over_depth(form: &SceneLine) -> bool
    ensures { result ≡ spec.over_depth form.now }
{
    match form {
        SceneLine::Target { depth, .. } => !is_from(1, 256, *depth),
        _ => false,
    }
}

#[tactic(auto, unfolding(crate::specs::Limits::over_ticks))]
fn over_ticks(form: &SceneLine) -> bool
    ensures { result ≡ spec.over_ticks form.now }
{
    match form {
        SceneLine::Target { delay, .. } => !is_ticks(*delay),
        SceneLine::Period { ticks } => !is_ticks(*ticks),
        SceneLine::When { after, .. } => !is_ticks(*after),
        SceneLine::At { tick, .. } => !is_ticks(*tick),
        SceneLine::AtRead { tick, .. } => !is_ticks(*tick),
        SceneLine::AtWrite { tick, .. } => !is_ticks(*tick),
        SceneLine::AtControl { tick, .. } => !is_ticks(*tick),
        SceneLine::AtCancel { tick, .. } => !is_ticks(*tick),
        SceneLine::AtAsk { tick, .. } => !is_ticks(*tick),
        _ => false,
    }
}

#[tactic(auto, unfolding(crate::specs::Limits::exceeds))]
fn exceeds(names: &Names, variables: &Variables, placed: &Placed, limit: Limit) -> bool
    ensures { result ≡ spec.exceeds names.now variables.now placed.now limit }
{
    let form = &placed.form;
    let counts = &placed.counts;
    match limit {
        Limit::Cpus => over_cpus(form),
        Limit::Limit => over_limit(form),
        Limit::Objects => over_objects(names, form),
        Limit::Devices => is_one_too_many(forms::is_device(form), 8, counts.devices),
        Limit::Apps => is_one_too_many(forms::is_app(form), 256, counts.apps),
        Limit::Registers => is_one_too_many(forms::is_register(form), 64, counts.registers),
        Limit::Classes => is_one_too_many(forms::is_class(form), 256, counts.classes),
        Limit::Statements => is_one_too_many(forms::is_statement(form), 4096, counts.statements),
        Limit::Posts => is_one_too_many(forms::is_post(form), 4096, counts.posts),
        Limit::Picks => over_picks(placed),
        Limit::Variables => over_variables(variables, &forms::assigned_name(form)),
        Limit::Level => over_level(form),
        Limit::Parallel => over_parallel(form),
        Limit::Depth => over_depth(form),
        Limit::Ticks => over_ticks(form),
    }
}

/// The first limit that a line is past.
#[tactic(auto, unfolding(crate::specs::Limits::exceeded))]
pub fn exceeded(names: &Names, variables: &Variables, placed: &Placed) -> Option<Limit>
    ensures { result ≡ spec.exceeded names.now variables.now placed.now }
{
    LIMITS
        .iter()
        .copied()
        .find(|limit| exceeds(names, variables, placed, *limit))
}

/// The word of each variant, in the order of the enum.
const WORDS: [&str; 15] = [
    "cpus",
    "limit",
    "objects",
    "devices",
    "apps",
    "registers",
    "classes",
    "statements",
    "posts",
    "picks",
    "variables",
    "level",
    "parallel",
    "depth",
    "ticks",
];

impl Limit {
    /// The word of the limit in a refusal.
    pub fn word(self) -> &'static str
        ensures { result.now ≡ spec.limit_word self }
    {
        WORDS[self as usize]
    }
}
