//! The lines of a scene, with the block and the device that each is in.
ghost use Rattle.std.specs.Prelude.{◌≡◌, ◌+◌, ◌<◌, ◌^◌, cond};
ghost use Rattle.wdf_blocks.specs.Placed as spec;

use crate::forms;
use wdf_scene::SceneLine;

/// Where a line is: in which block, device and callback. Each is the place of the line that
/// opened it.
#[derive(Clone, Copy)]
pub struct Stand {
    /// The innermost block that is no part of a callback.
    pub block: Option<u32>,
    /// The device.
    pub device: Option<u32>,
    /// The callback.
    pub callback: Option<u32>,
    /// How many `if` and `repeat` are open in the callback.
    pub nested: u32,
}

/// How many of each come before a line.
#[derive(Clone, Copy)]
pub struct Counts {
    /// Nodes of expressions.
    pub nodes: u64,
    /// Devices.
    pub devices: u32,
    /// How many objects come before the last of these devices.
    pub device: u32,
    /// Devices, queues, interrupts and targets.
    pub objects: u32,
    /// Apps.
    pub apps: u32,
    /// Registers.
    pub registers: u32,
    /// Classes.
    pub classes: u32,
    /// Statements.
    pub statements: u32,
    /// Lines with `at`.
    pub posts: u32,
    /// Numbers after `picks`.
    pub picks: u64,
}

/// A line of the scene and where it is.
#[derive(Clone, Copy)]
pub struct Placed {
    /// Its place among the scene's lines, from 0.
    pub at: u32,
    /// Its number in the text, from 1.
    pub number: u32,
    /// What the line says.
    pub form: SceneLine,
    /// How many numbers it has, if it is a `picks` line.
    pub picks: u32,
    /// Where it is.
    pub stand: Stand,
    /// What comes before it.
    pub counts: Counts,
}

/// Before the first line.
pub fn outside() -> Stand
    ensures { result ≡ spec.outside }
{
    Stand {
        block: None,
        device: None,
        callback: None,
        nested: 0,
    }
}

/// What is open after an `end`.
pub fn closed(stand: Stand) -> Stand
    ensures { result ≡ spec.closed stand }
{
    if stand.callback.is_some() {
        close_in_callback(stand)
    } else if stand.block == stand.device {
        outside()
    } else {
        Stand {
            block: stand.device,
            ..stand
        }
    }
}

fn close_in_callback(stand: Stand) -> Stand
    ensures { result ≡ spec.closed_in_callback stand }
{
    if stand.nested == 0 {
        Stand {
            callback: None,
            ..stand
        }
    } else {
        Stand {
            nested: stand.nested - 1,
            ..stand
        }
    }
}

/// What is open after line `at`.
#[tactic(auto, unfolding(crate::specs::Placed::opened_by))]
pub fn opened_by(stand: Stand, at: u32, form: &SceneLine) -> Stand
    requires { stand.nested + 1 < 2 ^ 32 }
    ensures { result ≡ spec.opened_by stand at form.now }
{
    match form {
        SceneLine::Driver
        | SceneLine::Class { .. }
        | SceneLine::DeferredClass { .. }
        | SceneLine::App { .. }
        | SceneLine::Pnp
        | SceneLine::Order
        | SceneLine::Interrupt { .. }
        | SceneLine::Queue { .. }
        | SceneLine::Target { .. } => Stand {
            block: Some(at),
            ..stand
        },
        SceneLine::Device { .. } => Stand {
            block: Some(at),
            device: Some(at),
            ..stand
        },
        SceneLine::On { .. } => Stand {
            callback: Some(at),
            nested: 0,
            ..stand
        },
        SceneLine::If { .. } | SceneLine::Repeat { .. } => Stand {
            nested: stand.nested + 1,
            ..stand
        },
        SceneLine::End => closed(stand),
        _ => stand,
    }
}

/// No line yet.
pub fn nothing() -> Counts
    ensures { result ≡ spec.nothing }
{
    Counts {
        nodes: 0,
        devices: 0,
        device: 0,
        objects: 0,
        apps: 0,
        registers: 0,
        classes: 0,
        statements: 0,
        posts: 0,
        picks: 0,
    }
}

/// What is counted with one line more, which has `picks` numbers.
pub fn counted(counts: &Counts, form: &SceneLine, picks: u32) -> Counts
    requires devices { counts.now.devices + 1 < 2 ^ 32 }
    requires objects { counts.now.objects + 1 < 2 ^ 32 }
    requires apps { counts.now.apps + 1 < 2 ^ 32 }
    requires registers { counts.now.registers + 1 < 2 ^ 32 }
    requires classes { counts.now.classes + 1 < 2 ^ 32 }
    requires statements { counts.now.statements + 1 < 2 ^ 32 }
    requires posts { counts.now.posts + 1 < 2 ^ 32 }
    requires picks { counts.now.picks + picks < 2 ^ 64 }
    ensures { result ≡ spec.counted counts.now form.now picks }
{
    Counts {
        nodes: forms::nodes_end(counts.nodes, form),
        devices: one_more(counts.devices, forms::is_device(form)),
        device: last_device(counts, forms::is_device(form)),
        objects: one_more(counts.objects, forms::is_object(form)),
        apps: one_more(counts.apps, forms::is_app(form)),
        registers: one_more(counts.registers, forms::is_register(form)),
        classes: one_more(counts.classes, forms::is_class(form)),
        statements: one_more(counts.statements, forms::is_statement(form)),
        posts: one_more(counts.posts, forms::is_post(form)),
        picks: counts.picks + u64::from(picks),
    }
}

fn last_device(counts: &Counts, is_device: bool) -> u32
    ensures { result ≡ cond is_device counts.now.objects counts.now.device }
{
    if is_device {
        counts.objects
    } else {
        counts.device
    }
}

fn one_more(count: u32, more: bool) -> u32
    requires { count + 1 < 2 ^ 32 }
    ensures { result ≡ spec.one_more count more }
{
    if more { count + 1 } else { count }
}
