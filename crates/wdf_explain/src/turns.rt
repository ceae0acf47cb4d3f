//! The callback in which an event came.
ghost use Rattle.std.specs.Prelude.{◌≡◌, ◌+◌, ◌<◌, ◌≤◌, ◌^◌, length};
ghost use Rattle.wdf_explain.specs.About.{depth_before, found, frame_of, frame_under, own_turn, turn_of};

use crate::asked::cpu_of;
use wdf_base::{Cpu, Event};

/// What an event does to the stack of a processor.
#[derive(Clone, Copy)]
pub enum Turn {
    /// The frame with this number comes on top.
    Comes(usize),
    /// The top frame goes.
    Goes,
    /// It stays as it is.
    Stays,
}

/// What an event does to the stack of its processor.
fn turn_on(number: usize, event: &Event) -> Turn
    ensures { result ≡ own_turn number event.now }
{
    match event {
        Event::Start { .. } => Turn::Comes(number),
        Event::Unpark { frame, .. } => Turn::Comes(frame.0 as usize),
        Event::End { .. } | Event::Park { .. } => Turn::Goes,
        _ => Turn::Stays,
    }
}

/// What an event with this number does to the stack of a processor.
fn turn_of(cpu: Cpu, number: usize, event: &Event) -> Turn
    ensures { result ≡ turn_of cpu.0 number event.now }
{
    match cpu_of(event) {
        Some(other) => {
            if other.0 == cpu.0 {
                turn_on(number, event)
            } else {
                Turn::Stays
            }
        }
        None => Turn::Stays,
    }
}

/// The frame that comes, where none is to be above it.
fn found(turn: Turn, depth: usize) -> Option<usize>
    ensures { result ≡ found turn depth }
{
    match turn {
        Turn::Comes(frame) => { if depth == 0 { Some(frame) } else { None } }
        _ => None,
    }
}

/// How many frames are above it before a turn, where so many are after it.
fn depth_before(turn: Turn, depth: usize) -> usize
    requires { depth + 1 < 2 ^ 64 }
    ensures value { result ≡ depth_before turn depth }
    ensures small { result ≤ depth + 1 }
{
    match turn {
        Turn::Comes(_) => depth.saturating_sub(1),
        Turn::Goes => depth + 1,
        Turn::Stays => depth,
    }
}

/// The frame on top of a processor after the first events of a run, so many.
fn top_after(cpu: Cpu, events: &[Event], count: usize) -> Option<usize>
    requires { count ≤ length events.now }
    ensures { result ≡ frame_under cpu.0 events.now count 0 }
{
    let mut depth = 0;
    let mut left = count;
    while left > 0 {
        let turn = turn_of(cpu, left, &events[left - 1]);
        match found(turn, depth) {
            Some(frame) => return Some(frame),
            None => {}
        }
        depth = depth_before(turn, depth);
        left -= 1;
    }
    None
}

/// The frame in which the event with this number came.
pub(crate) fn frame_of(events: &[Event], number: usize) -> Option<usize>
    ensures { result ≡ frame_of events.now number }
{
    let event = events.get(number.saturating_sub(1))?;
    let cpu = cpu_of(event)?;
    top_after(cpu, events, number)
}
