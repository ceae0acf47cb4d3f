//! The boxes: one for each start of a callback.
ghost use Rattle.std.specs.Prelude.{◌≡◌, ◌^◌, ◌<◌, length, map, IfOk};
ghost use Rattle.wdf_spans.specs.Starts.{starts_from};

use crate::begun::{Begun, begun_by};
use crate::frames::Frames;
use std::alloc::Global;
use wdf_base::{Event, Memory};

/// A callback from its start to its end.
#[derive(Clone, Copy)]
pub struct FrameBox {
    pub begun: Begun,
    /// The slot after its last: that of its end, or the last of the run where it hasn't ended.
    pub to: u32,
    /// The slot at which it first left its processor; else the same.
    pub stay: u32,
    /// How many boxes were below it at its start.
    pub depth: u32,
}

/// The box of a start.
fn box_of(begun: Begun, frames: &Frames) -> FrameBox
    ensures { result.begun ≡ begun }
{
    FrameBox {
        begun,
        to: frames.end(begun.number),
        stay: frames.stay(begun.number),
        depth: frames.base(begun.number),
    }
}

/// The boxes of a run, in the order of their starts.
///
/// # Errors
///
/// [`Memory`] where memory was refused.
pub fn boxes_of(alloc: Global, events: &[Event], frames: &Frames) -> Result<Vec<FrameBox>, Memory>
    requires { length events.now < 2 ^ 32 }
    // Each start of a callback has exactly one box, and there is no other.
    ensures { IfOk result (λ boxes. map (λ b. b.begun) boxes.items ≡ starts_from 1 events.now) }
{
    let mut boxes = Vec::new(alloc);
    for k in 0..events.len() {
        let number = k as u32 + 1;
        match begun_by(number, &events[k]) {
            Some(begun) => boxes.push(box_of(begun, frames))?,
            None => {}
        }
    }
    Ok(boxes)
}
