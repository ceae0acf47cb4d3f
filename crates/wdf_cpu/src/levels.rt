//! The levels that frames hold.
ghost use Rattle.std.specs.Prelude.{◌≡◌, ◌+◌, ◌<◌, ◌==◌, ◌∷◌, [], max, fold, not, filter, length, take, IfOk};
ghost use Rattle.std.specs.VecDeque.{deque_capacity};
ghost use Rattle.wdf_model.specs.Tables.{flag};
ghost use Rattle.wdf_model.specs.parts.Cpus.{less_one};
ghost use Rattle.wdf_model.specs.declared.entries.HeldLevel.{HeldLevel};
ghost use Rattle.wdf_cpu.specs.Levels.{IsNextLevel, held_by};

use std::alloc::Global;
use std::collections::VecDeque;
use std::marker::Model;
use wdf_base::{FrameId, Irql, Memory};
use wdf_maps::{entry_at, put_at};
use wdf_model::{EVENTS, FRAMES, HeldLevel};

/// The levels that frames hold, the latest first. Each call but [`Levels::make`] takes no memory, and
/// goes over levels only until it met those that the frame holds.
#[derive(Drop)]
pub(crate) struct Levels {
    held: VecDeque<HeldLevel>,
    /// How many of them each frame holds, by number.
    counts: Vec<u32>,
}

impl Model for Levels {
    ghost use Rattle.std.specs.Prelude.{List};
    ghost use Rattle.wdf_model.specs.declared.entries.HeldLevel.{HeldLevel};

    ghost Value = { List HeldLevel };

    ghost use Rattle.wdf_cpu.specs.LevelCounts.{HasLevels};

    ghost view = { λ l. l.held.items };

    ghost invariant = { HasLevels };
}

impl Levels {
    /// No level is held.
    pub(crate) fn make(alloc: Global) -> Result<Levels, Memory>
        ensures { IfOk result (λ made. made ≡ []) }
    {
        Ok(Levels {
            held: VecDeque::with_capacity(alloc, EVENTS as usize)?,
            counts: Vec::with_capacity(alloc, FRAMES as usize)?,
        })
    }

    /// No level is held any more.
    pub(crate) fn clear(&mut self)
        ensures { self.new ≡ [] }
    {
        self.held.clear();
        self.counts.clear();
    }

    /// How many levels are held.
    pub(crate) fn len(&self) -> usize
        ensures { result ≡ length self.now }
    {
        self.held.len()
    }

    /// How many levels a frame holds.
    fn count(&self, f: FrameId) -> u32
        ensures { result ≡ length (held_by self.now f.0) }
    {
        entry_at(&self.counts, 0, f.0)
    }

    /// The greatest of a level and of those that a frame holds.
    pub(crate) fn peak(&self, f: FrameId, level: Irql) -> Irql
        ensures { result.0 ≡ fold max level.0 (held_by self.now f.0) }
    {
        peak_of(&self.held, f, level, self.count(f))
    }

    /// A frame holds a level more.
    pub(crate) fn raise(&mut self, f: FrameId, level: Irql)
        requires there { f.0 < FRAMES }
        requires room { length self.old < EVENTS }
        ensures { self.new ≡ record { frame = f; level = level } ∷ self.old }
    {
        let count = self.count(f);
        put_at(&mut self.counts, 0, f.0, count + 1);
        self.held.push_front_reserved(HeldLevel { frame: f, level });
    }

    /// A frame holds a level less. Nothing changes where it doesn't hold it.
    pub(crate) fn lower(&mut self, f: FrameId, level: Irql)
        requires there { f.0 < FRAMES }
        ensures { self.new ≡ less_one f.0 level.0 self.old }
    {
        let count = self.count(f);
        let dropped = drop_level(&mut self.held, f, level, count);
        put_at(&mut self.counts, 0, f.0, count - u32::from(dropped));
    }

    /// A frame holds no level any more.
    pub(crate) fn forget(&mut self, f: FrameId)
        requires there { f.0 < FRAMES }
        ensures { self.new ≡ filter (λ (l : HeldLevel). not (l.frame.0 == f.0)) self.old }
    {
        let count = self.count(f);
        drop_levels(&mut self.held, f, count);
        put_at(&mut self.counts, 0, f.0, 0);
    }
}

/// The greatest of a level and of those that a frame holds, which are so many.
fn peak_of(levels: &VecDeque<HeldLevel>, f: FrameId, level: Irql, count: u32) -> Irql
    requires { count ≡ length (held_by levels.now.items f.0) }
    ensures { result.0 ≡ fold max level.0 (held_by levels.now.items f.0) }
{
    let mut peak = level.0;
    let mut place = 0;
    for _met in 0..count {
        place = next_of(levels, f, place);
        peak = peak.max(levels[place].level.0);
        place += 1;
    }
    Irql(peak)
}

/// The place of the first level of a frame from a place on, where there is one.
fn next_of(levels: &VecDeque<HeldLevel>, f: FrameId, from: usize) -> usize
    requires { length (held_by (take from levels.now.items) f.0) < length (held_by levels.now.items f.0) }
    ensures { IsNextLevel f.0 levels.now.items from result }
{
    let mut place = from;
    while levels[place].frame.0 != f.0 {
        place += 1;
    }
    place
}

/// Takes one of these levels of a frame away, which holds so many levels. The answer says whether
/// there was one.
fn drop_level(levels: &mut VecDeque<HeldLevel>, f: FrameId, level: Irql, count: u32) -> bool
    requires { count ≡ length (held_by levels.old.items f.0) }
    ensures items { levels.new.items ≡ less_one f.0 level.0 levels.old.items }
    ensures less { length (held_by levels.new.items f.0) + flag result ≡ count }
    ensures capacity { deque_capacity levels.new ≡ deque_capacity levels.old }
{
    let mut place = 0;
    for _met in 0..count {
        place = next_of(levels, f, place);
        if levels[place].level.0 == level.0 {
            let _held = levels.remove(place);
            return true;
        }
        place += 1;
    }
    false
}

/// Takes away all levels of a frame, which are so many.
fn drop_levels(levels: &mut VecDeque<HeldLevel>, f: FrameId, count: u32)
    requires { count ≡ length (held_by levels.old.items f.0) }
    ensures items { levels.new.items ≡ filter (λ (l : HeldLevel). not (l.frame.0 == f.0)) levels.old.items }
    ensures capacity { deque_capacity levels.new ≡ deque_capacity levels.old }
{
    let mut place = 0;
    for _met in 0..count {
        place = next_of(levels, f, place);
        let _held = levels.remove(place);
    }
}
