//! Frames by their numbers, for the list of what a stuck run waits for.
ghost use Rattle.std.specs.Prelude.{◌≡◌, filter, option_map};
ghost use Rattle.std.specs.List.{flat_map, range_with_len};
ghost use Rattle.wdf_model.specs.Tables.{contains, ids_of, least};
ghost use Rattle.wdf_model.specs.parts.Cpus as cpus;
ghost use Rattle.wdf_model.specs.rules.Waits.{above_in};

use crate::cpus::Cpus;
use crate::stack::Stack;
use wdf_base::FrameId;
use wdf_maps::lesser_if;

impl Cpus {
    /// A number past those of the frames that run or are parked.
    pub fn live_end(&self) -> u32
        ensures { filter (λ f. contains f (cpus.all_frames self.now)) (range_with_len 0 result) ≡ filter (λ f. contains f (cpus.all_frames self.now)) (ids_of self.now.frames) }
    {
        (self.frames.len() as usize).min(self.live.len()) as u32
    }

    /// The least of the frames that are above one on its processor; None exactly where none is.
    pub fn least_above(&self, f: FrameId) -> Option<FrameId>
        ensures { option_map (λ g. g.0) result ≡ least (flat_map (above_in f.0) self.now.stacks) }
    {
        least_above(&self.stacks, f.0).map(FrameId)
    }
}

/// The least of the frames that are above one on some processor.
fn least_above(stacks: &[Stack], f: u32) -> Option<u32>
    ensures { result ≡ least (flat_map (above_in f) stacks.now) }
{
    let mut least = None;
    for stack in stacks {
        least = lesser_if(least, least_above_on(stack, f));
    }
    least
}

/// The least of the frames that are above one on one processor; None where that frame isn't there.
fn least_above_on(stack: &Stack, f: u32) -> Option<u32>
    ensures { result ≡ least (above_in f stack.now) }
{
    let mut least = None;
    for place in 0..stack.len() {
        let above = stack.get(place);
        if above == f {
            return least;
        }
        least = lesser_if(least, Some(above));
    }
    None
}
