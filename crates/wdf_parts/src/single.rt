//! The deeds that most events do, each without a value that says so: those of frames, of locks and of an object's end.
ghost use Rattle.std.specs.Prelude.{◌≡◌, ◌+◌, ◌<◌, ◌^◌, true, false, IsSome, length};
ghost use Rattle.wdf_base.specs.Lives.{is_asked};
ghost use Rattle.wdf_model.specs.declared.room.TheConstants.{EVENTS, FRAMES};
ghost use Rattle.wdf_model.specs.Tables.{contains};
ghost use Rattle.wdf_model.specs.parts.Cpus.{all_frames, frame_of, top};
ghost use Rattle.wdf_model.specs.parts.Cpus as cpus;
ghost use Rattle.wdf_model.specs.parts.Locks.{is_free_lock};
ghost use Rattle.wdf_model.specs.parts.Locks as locks;
ghost use Rattle.wdf_model.specs.parts.Requests as requests;
ghost use Rattle.wdf_model.specs.parts.Tree.{life_of, may_destroy};
ghost use Rattle.wdf_model.specs.parts.Tree as tree;
ghost use Rattle.wdf_model.specs.rules.Deeds as deeds;
ghost use Rattle.wdf_cpu.specs.FrameUpdate.{gone};

use crate::parts::Parts;
use wdf_base::{Agent, Cpu, Frame, FrameId, Irql, LockRef, ObjectId};
use wdf_cpu::FrameUpdate;
use wdf_model::Deed;
use wdf_plan_index::IndexedPlan;

impl<A: Agent> Parts<A> {
    /// A frame begins on a processor, on top of what runs there.
    pub fn push_frame(
        &mut self,
        plan: &IndexedPlan,
        cpu: Cpu,
        number: FrameId,
        frame: &Frame,
        level: Irql,
    )
        requires there { cpu.0 < length self.old.cpus.stacks }
        requires room { number.0 < FRAMES }
        requires fresh { contains number.0 (all_frames self.old.cpus) ≡ false }
        ensures { self.new ≡ deeds.do_deed plan.now (Deed.PushFrame cpu number frame.now level) self.old }
    {
        let _ = plan;
        self.cpus.push(cpu, number, *frame, level);
    }

    /// A frame goes on in its place.
    pub fn go_on(&mut self, plan: &IndexedPlan, number: FrameId, update: &FrameUpdate)
        requires { number.0 < length self.old.cpus.frames }
        ensures { self.new ≡ deeds.do_deed plan.now (Deed.GoOn number (gone update.now (frame_of self.old.cpus number.0))) self.old }
    {
        let _ = plan;
        self.cpus.go_on(number, update);
    }

    /// A frame is now this one.
    pub fn change_frame(&mut self, plan: &IndexedPlan, number: FrameId, frame: &Frame)
        requires { number.0 < length self.old.cpus.frames }
        ensures { self.new ≡ deeds.do_deed plan.now (Deed.GoOn number frame.now) self.old }
    {
        let _ = plan;
        self.cpus.change(number, *frame);
    }

    /// The top frame of a processor ends, and the levels that it holds go with it.
    pub fn pop_frame(&mut self, cpu: Cpu)
        requires there { cpu.0 < length self.old.cpus.stacks }
        requires running { IsSome (top self.old.cpus cpu.0) }
        ensures { self.new ≡ record self.old { cpus = cpus.pop self.old.cpus cpu.0 } }
    {
        self.cpus.pop(cpu);
    }

    /// The top frame of a processor, which waits, leaves it.
    pub fn park_frame(&mut self, cpu: Cpu)
        requires { cpu.0 < length self.old.cpus.stacks }
        ensures { self.new ≡ record self.old { cpus = cpus.park self.old.cpus cpu.0 } }
    {
        self.cpus.park(cpu);
    }

    /// A parked frame comes back to a processor.
    pub fn unpark_frame(&mut self, cpu: Cpu, frame: FrameId)
        requires there { cpu.0 < length self.old.cpus.stacks }
        requires parked { contains frame.0 self.old.cpus.parked ≡ true }
        ensures { self.new ≡ record self.old { cpus = cpus.unpark self.old.cpus cpu.0 frame.0 } }
    {
        self.cpus.unpark(cpu, frame);
    }

    /// A frame takes a lock, which is free.
    pub fn take_lock(&mut self, lock: LockRef, frame: FrameId, by_call: bool)
        requires free { is_free_lock self.old.locks lock ≡ true }
        requires number { frame.0 < FRAMES }
        requires room { length self.old.locks.held < EVENTS }
        ensures { self.new ≡ record self.old { locks = locks.take self.old.locks lock frame.0 by_call } }
    {
        self.locks.take(lock, frame, by_call);
    }

    /// A lock is given back, and is free.
    pub fn release_lock(&mut self, lock: LockRef)
        ensures { self.new ≡ record self.old { locks = locks.release self.old.locks lock } }
    {
        self.locks.release(lock);
    }

    /// The cleanup of an object is done.
    pub fn clean_up(&mut self, o: ObjectId)
        requires { is_asked (life_of self.old.tree o.0) ≡ true }
        ensures { self.new ≡ record self.old { tree = tree.clean self.old.tree o.0 } }
    {
        self.tree.clean(o);
    }

    /// An object is destroyed, and nothing of it is kept.
    pub fn end_life(&mut self, o: ObjectId)
        requires { may_destroy self.old.tree o.0 ≡ true }
        ensures { self.new ≡ record self.old { tree = tree.destroy self.old.tree o.0; requests = requests.forget self.old.requests o.0 } }
    {
        self.tree.destroy(o);
        self.requests.forget(o);
    }

    /// A tick passes, and timers may become due.
    pub fn pass_tick(&mut self)
        requires { self.old.clock + 1 < 2 ^ 64 }
        ensures { self.new ≡ record self.old { clock = self.old.clock + 1 } }
    {
        self.clock += 1;
        self.timers.reach(self.clock);
    }
}
