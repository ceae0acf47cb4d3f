//! What begins, goes on, ends, parks and comes back.
ghost use Rattle.std.specs.Prelude.{◌≡◌, ◌+◌, ◌^◌, ◌<◌, if◌then◌else◌, false, true, length, IsSome};
ghost use Rattle.wdf_model.specs.Tables.{contains};
ghost use Rattle.wdf_model.specs.parts.Cpus as cpus;
ghost use Rattle.wdf_maps.specs.Counts.{count_at, moved_count};
ghost use Rattle.wdf_cpu.specs.FrameUpdate.{gone};

use crate::cpus::{Cpus, lock_in, lock_key, object_key, wait_key};
use crate::frame_update::{FrameUpdate, awaits};
use crate::slots::{change, go_on};
use crate::stack::{pop_from, push_on};
use crate::untils::move_until_if;
use wdf_base::{Cpu, Frame, FrameId, Irql, ObjectId};
use wdf_maps::{entry_at, put_at};
use wdf_model::{EVENTS, FRAMES, Running};
use wdf_tally::Tally;

impl Cpus {
    /// A frame begins on a processor, on top.
    pub fn push(&mut self, cpu: Cpu, f: FrameId, frame: Frame, level: Irql)
        requires there { cpu.0 < length self.old.stacks }
        requires room { f.0 < FRAMES }
        requires fresh { contains f.0 (cpus.all_frames self.old) ≡ false }
        ensures done { self.new ≡ cpus.push self.old cpu.0 f.0 frame level.0 }
        ensures size { length self.new.stacks ≡ length self.old.stacks }
    {
        self.on.moves(None, object_key(&frame));
        self.waits.moves(None, wait_key(&frame));
        self.untils.moves(0, frame.until);
        self.frames.put(f.0, Running { frame, level });
        put_at(&mut self.live, false, f.0, true);
        put_at(&mut self.peaks, 0, f.0, self.levels.peak(f, level).0);
        push_on(&mut self.stacks, cpu, f.0);
    }

    /// A frame goes on: what it is from now on.
    pub fn change(&mut self, f: FrameId, frame: Frame)
        requires there { f.0 < length self.old.frames }
        ensures done { self.new ≡ cpus.change self.old f.0 frame }
        ensures frames { length self.new.frames ≡ length self.old.frames }
    {
        let live = entry_at(&self.live, false, f.0);
        let now = &self.frames.get(f.0).frame;
        let object = object_key(now);
        let awaited = wait_key(now);
        let lock = lock_key(now);
        let until = now.until;
        let parked = self.parked.has_number(f.0);
        moves_if(&mut self.on, live, object, object_key(&frame));
        moves_if(&mut self.waits, live, awaited, wait_key(&frame));
        moves_if(
            &mut self.parked_for,
            parked,
            Some(lock),
            Some(lock_key(&frame)),
        );
        move_until_if(&mut self.untils, live, until, frame.until);
        change(&mut self.frames, f.0, frame);
    }

    /// A frame goes on in its place.
    pub fn go_on(&mut self, f: FrameId, update: &FrameUpdate)
        requires there { f.0 < length self.old.frames }
        ensures done { self.new ≡ cpus.change self.old f.0 (gone update.now (cpus.frame_of self.old f.0)) }
        ensures frames { length self.new.frames ≡ length self.old.frames }
    {
        let live = entry_at(&self.live, false, f.0);
        let now = &self.frames.get(f.0).frame;
        let awaited = wait_key(now);
        let lock = lock_key(now);
        let until = now.until;
        let parked = self.parked.has_number(f.0);
        moves_if(&mut self.waits, live, awaited, awaits(update));
        moves_if(
            &mut self.parked_for,
            parked,
            Some(lock),
            Some(lock_in(&update.pending)),
        );
        move_until_if(&mut self.untils, live, until, update.until);
        go_on(&mut self.frames, f.0, update);
    }

    /// A frame holds a level more.
    pub fn raise(&mut self, f: FrameId, level: Irql)
        requires there { f.0 < FRAMES }
        requires room { length self.old.levels < EVENTS }
        ensures { self.new ≡ cpus.raise self.old f.0 level.0 }
    {
        let peak = entry_at(&self.peaks, 0, f.0);
        put_at(&mut self.peaks, 0, f.0, peak.max(level.0));
        self.levels.raise(f, level);
    }

    /// A frame holds a level less. Nothing changes where it doesn't hold it.
    pub fn lower(&mut self, f: FrameId, level: Irql)
        requires there { f.0 < FRAMES }
        ensures { self.new ≡ cpus.lower self.old f.0 level.0 }
    {
        self.levels.lower(f, level);
        let own = self.frames.get(f.0).level;
        put_at(&mut self.peaks, 0, f.0, self.levels.peak(f, own).0);
    }

    /// The top frame of a processor ends. The levels that it holds are gone with it.
    pub fn pop(&mut self, cpu: Cpu)
        requires there { cpu.0 < length self.old.stacks }
        requires running { IsSome (cpus.top self.old cpu.0) }
        ensures done { self.new ≡ cpus.pop self.old cpu.0 }
        ensures size { length self.new.stacks ≡ length self.old.stacks }
    {
        let f = FrameId(pop_from(&mut self.stacks, cpu).unwrap());
        let frame = &self.frames.get(f.0).frame;
        let object = object_key(frame);
        let awaited = wait_key(frame);
        let until = frame.until;
        self.on.moves(object, None);
        self.waits.moves(awaited, None);
        self.untils.moves(until, 0);
        self.frames.remove(f.0);
        put_at(&mut self.live, false, f.0, false);
        put_at(&mut self.peaks, 0, f.0, 0);
        self.levels.forget(f);
    }

    /// The top frame of a processor, which waits, leaves it. Nothing changes where there is none. (own)
    pub fn park(&mut self, cpu: Cpu)
        requires there { cpu.0 < length self.old.stacks }
        ensures done { self.new ≡ cpus.park self.old cpu.0 }
        ensures size { length self.new.stacks ≡ length self.old.stacks }
    {
        if let Some(f) = pop_from(&mut self.stacks, cpu) {
            let lock = lock_key(&self.frames.get(f).frame);
            self.parked_for.moves(None, Some(lock));
            self.parked.put(f);
        }
    }

    /// A parked frame comes back to a processor, on top. (own)
    pub fn unpark(&mut self, cpu: Cpu, f: FrameId)
        requires there { cpu.0 < length self.old.stacks }
        requires parked { contains f.0 self.old.parked ≡ true }
        ensures done { self.new ≡ cpus.unpark self.old cpu.0 f.0 }
        ensures size { length self.new.stacks ≡ length self.old.stacks }
    {
        let lock = lock_key(&self.frames.get(f.0).frame);
        self.parked_for.moves(Some(lock), None);
        self.parked.remove_number(f.0);
        push_on(&mut self.stacks, cpu, f.0);
    }
}

/// One that was counted of an id is counted of another, where a frame is live; else nothing changes.
fn moves_if(counts: &mut Tally, live: bool, from: Option<ObjectId>, to: Option<ObjectId>)
    requires { count_at counts.old to + 1 < 2 ^ 32 }
    ensures { counts.new ≡ (if live then moved_count counts.old from to else counts.old) }
{
    if live {
        counts.moves(from, to);
    }
}
