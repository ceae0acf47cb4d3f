ghost use Rattle.std.specs.Prelude.{◌≡◌, ◌<◌, ◌∷◌, [], length, drop, slice_get, IfOk, Some};
ghost use Rattle.wdf_model.specs.Tables.{entry, first_of_list, put};

use std::alloc::Global;
use std::collections::VecDeque;
use std::marker::Model;
use wdf_base::{Cpu, Memory};
use wdf_model::FRAMES;

/// The numbers of the frames of one processor, the top first. It has room for every frame of a run.
#[derive(Drop)]
pub(crate) struct Stack {
    frames: VecDeque<u32>,
}

impl Model for Stack {
    ghost use Rattle.std.specs.Prelude.{List, ℕ, ◌≤◌};
    ghost use Rattle.std.specs.VecDeque.{deque_capacity};
    ghost use Rattle.wdf_model.specs.declared.room.TheConstants.{FRAMES};

    ghost Value = { List ℕ };

    ghost view = { λ s. s.frames.items };

    ghost invariant = { λ s. FRAMES ≤ deque_capacity s.frames };
}

impl Stack {
    /// The stack of an empty processor.
    pub(crate) fn make(alloc: Global) -> Result<Stack, Memory>
        ensures { IfOk result (λ s. s ≡ []) }
    {
        Ok(Stack {
            frames: VecDeque::with_capacity(alloc, FRAMES as usize)?,
        })
    }

    /// The processor is empty again.
    pub(crate) fn clear(&mut self)
        ensures { self.new ≡ [] }
    {
        self.frames.clear();
    }

    /// How many frames there are.
    pub(crate) fn len(&self) -> usize
        ensures { result ≡ length self.now }
    {
        self.frames.len()
    }

    /// The top frame; None exactly where the processor is empty.
    pub(crate) fn top(&self) -> Option<u32>
        ensures { result ≡ first_of_list self.now }
    {
        self.frames.front().copied()
    }

    /// The frame at a place from the top on; None exactly where there are fewer.
    pub(crate) fn at(&self, place: usize) -> Option<u32>
        ensures { result ≡ slice_get self.now place }
    {
        self.frames.get(place).copied()
    }

    /// The frame at a place, of which there are more.
    pub(crate) fn get(&self, place: usize) -> u32
        requires { place < length self.now }
        ensures { slice_get self.now place ≡ Some result }
    {
        self.frames[place]
    }

    /// A frame more, on top.
    pub(crate) fn push(&mut self, frame: u32)
        requires room { length self.old < FRAMES }
        ensures { self.new ≡ frame ∷ self.old }
    {
        self.frames.push_front_reserved(frame);
    }

    /// The top frame leaves; None exactly where there is none.
    pub(crate) fn pop(&mut self) -> Option<u32>
        ensures top { result ≡ first_of_list self.old }
        ensures rest { self.new ≡ drop 1 self.old }
    {
        self.frames.pop_front()
    }
}

#[tactic(auto, using(wdf_model::proofs::Maps::put_within))]
/// A frame more on a processor, on top.
pub(crate) fn push_on(stacks: &mut Vec<Stack>, cpu: Cpu, frame: u32)
    requires there { cpu.0 < length stacks.old.items }
    requires room { length (entry [] stacks.old.items cpu.0) < FRAMES }
    ensures pushed { stacks.new.items ≡ put [] stacks.old.items cpu.0 (frame ∷ entry [] stacks.old.items cpu.0) }
    ensures size { length stacks.new.items ≡ length stacks.old.items }
{
    stacks[usize::from(cpu.0)].push(frame);
}

#[tactic(auto, using(wdf_model::proofs::Maps::put_within))]
/// The top frame of a processor leaves; None exactly where there is none.
pub(crate) fn pop_from(stacks: &mut Vec<Stack>, cpu: Cpu) -> Option<u32>
    requires there { cpu.0 < length stacks.old.items }
    ensures top { result ≡ first_of_list (entry [] stacks.old.items cpu.0) }
    ensures rest { stacks.new.items ≡ put [] stacks.old.items cpu.0 (drop 1 (entry [] stacks.old.items cpu.0)) }
    ensures size { length stacks.new.items ≡ length stacks.old.items }
{
    stacks[usize::from(cpu.0)].pop()
}
