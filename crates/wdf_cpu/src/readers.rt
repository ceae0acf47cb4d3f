//! What is read of the processors.
ghost use Rattle.std.specs.Prelude.{◌≡◌, length, slice_get, option_map};
ghost use Rattle.wdf_model.specs.Tables.{contains};
ghost use Rattle.wdf_model.specs.parts.Cpus as cpus;

use crate::cpus::Cpus;
use wdf_base::{Cpu, Frame, FrameId, Irql};
use wdf_maps::entry_at;

impl Cpus {
    /// How many processors there are.
    pub fn cpu_len(&self) -> usize
        ensures { result ≡ length self.now.stacks }
    {
        self.stacks.len()
    }

    /// The top frame of a processor; None exactly where it is empty.
    pub fn top(&self, cpu: Cpu) -> Option<FrameId>
        ensures { option_map (λ f. f.0) result ≡ cpus.top self.now cpu.0 }
    {
        self.stack_at(cpu, 0)
    }

    /// Whether a processor has no frame.
    pub fn is_empty(&self, cpu: Cpu) -> bool
        ensures { result ≡ cpus.is_empty_cpu self.now cpu.0 }
    {
        self.stack_len(cpu) == 0
    }

    /// How many frames a processor has.
    pub fn stack_len(&self, cpu: Cpu) -> usize
        ensures { result ≡ length (cpus.stack_of self.now cpu.0) }
    {
        match self.stacks.get(usize::from(cpu.0)) {
            Some(stack) => stack.len(),
            None => 0,
        }
    }

    /// The frame of a processor at a place, from the top on; None exactly where there are fewer.
    pub fn stack_at(&self, cpu: Cpu, place: usize) -> Option<FrameId>
        ensures { option_map (λ f. f.0) result ≡ slice_get (cpus.stack_of self.now cpu.0) place }
    {
        match self.stacks.get(usize::from(cpu.0)) {
            Some(stack) => stack.at(place).map(FrameId),
            None => None,
        }
    }

    /// How many frames are parked.
    pub fn parked_len(&self) -> usize
        ensures { result ≡ length self.now.parked }
    {
        self.parked.len() as usize
    }

    /// The parked frame at a place, by rising number; None exactly where there are fewer.
    pub fn parked_at(&self, place: usize) -> Option<FrameId>
        ensures { option_map (λ f. f.0) result ≡ slice_get self.now.parked place }
    {
        self.parked.as_slice().get(place).copied().map(FrameId)
    }

    #[tactic(auto, using(crate::proofs::Numbers::found_is_contained))]
    /// Whether a frame is parked.
    pub fn is_parked(&self, f: FrameId) -> bool
        ensures { result ≡ contains f.0 self.now.parked }
    {
        self.parked.has_number(f.0)
    }

    /// How many numbers there are up to the greatest that a frame had, from 0.
    pub fn frame_len(&self) -> usize
        ensures { result ≡ length self.now.frames }
    {
        self.frames.len() as usize
    }

    /// How many levels are held.
    pub fn level_len(&self) -> usize
        ensures { result ≡ length self.now.levels }
    {
        self.levels.len()
    }

    /// A frame; a blank one for a number that none has.
    pub fn frame(&self, f: FrameId) -> &Frame
        ensures { result.now ≡ cpus.frame_of self.now f.0 }
    {
        &self.frames.get(f.0).frame
    }

    /// The level of a frame: the greatest of its callback's and of those that it holds.
    pub fn frame_level(&self, f: FrameId) -> Irql
        ensures { result.0 ≡ cpus.frame_level self.now f.0 }
    {
        Irql(entry_at(&self.peaks, 0, f.0))
    }

    /// KMDF: the level of a processor is 0 where it is empty, else that of its top frame.
    pub fn irql(&self, cpu: Cpu) -> Irql
        ensures { result.0 ≡ cpus.irql self.now cpu.0 }
    {
        match self.top(cpu) {
            Some(f) => self.frame_level(f),
            None => Irql(0),
        }
    }

    #[tactic(auto, using(crate::proofs::Live::live_is_contained))]
    /// Whether a frame runs or is parked.
    pub fn is_live(&self, f: FrameId) -> bool
        ensures { result ≡ contains f.0 (cpus.all_frames self.now) }
    {
        entry_at(&self.live, false, f.0)
    }
}
