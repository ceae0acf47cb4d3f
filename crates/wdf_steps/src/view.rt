//! What a top frame sees of the state: what the table of faults reads.
ghost use Rattle.wdf_model.specs.rules.Steps.{seen_by};

use wdf_base::{Cpu, Frame, FrameId, Irql, Kind, Life, LockRef, Mark, ObjectId, Place};
use wdf_cpu::Cpus;
use wdf_lock::{Locks, scope_of_object};
use wdf_parts::is_with_driver_by;
use wdf_plan_index::IndexedPlan;
use wdf_power::Power;
use wdf_request::Requests;
use wdf_rules::View;
use wdf_target::Targets;
use wdf_tree::Tree;

/// The top frame of a processor, with the parts of the state by which its faults are judged. The other parts and the agents
/// aren't among them, so this is of one type, whatever the agents are.
#[derive(Drop)]
pub(crate) struct TopFrame<'a> {
    pub(crate) plan: &'a IndexedPlan,
    pub(crate) tree: &'a Tree,
    pub(crate) requests: &'a Requests,
    pub(crate) targets: &'a Targets,
    pub(crate) power: &'a Power,
    pub(crate) cpus: &'a Cpus,
    pub(crate) locks: &'a Locks,
    pub(crate) cpu: Cpu,
    pub(crate) number: FrameId,
}

impl View for TopFrame<'_> {
    ghost seen = { λ v. seen_by v.plan.now v.tree.now v.requests.now v.targets.now v.power.now v.cpus.now v.locks.now v.cpu.0 v.number.0 };

    fn frame(&self) -> &Frame {
        self.cpus.frame(self.number)
    }

    fn number(&self) -> FrameId {
        self.number
    }

    fn irql(&self) -> Irql {
        self.cpus.irql(self.cpu)
    }

    fn life(&self, o: ObjectId) -> Life {
        self.tree.life(o)
    }

    fn kind(&self, o: ObjectId) -> Kind {
        self.tree.kind(o)
    }

    fn references(&self, o: ObjectId) -> u32 {
        self.tree.references(o)
    }

    fn level_of(&self, i: ObjectId) -> Irql {
        self.plan.interrupt_level(i)
    }

    fn scope(&self, o: ObjectId) -> Option<LockRef> {
        scope_of_object(self.plan.plan(), o, self.tree.declared(self.plan.plan(), o))
    }

    fn place(&self, r: ObjectId) -> Place {
        self.requests.place(r)
    }

    fn origin(&self, r: ObjectId) -> Option<ObjectId> {
        self.requests.info(r).origin
    }

    fn mark(&self, r: ObjectId) -> Mark {
        self.requests.info(r).mark
    }

    fn held(&self, r: ObjectId) -> bool {
        is_with_driver_by(self.requests, self.targets, r)
    }

    fn acknowledged(&self, r: ObjectId) -> bool {
        self.power.acknowledged(r)
    }

    fn holder(&self, lock: LockRef) -> Option<FrameId> {
        self.locks.holder(lock)
    }

    fn by_call(&self, lock: LockRef) -> bool {
        self.locks.holds_by_call(self.number, lock)
    }

    fn held_by_call(&self) -> u32 {
        self.locks.held_by_call(self.number)
    }

    fn hardware(&self, register: u32) -> bool {
        self.power
            .has_hardware(self.plan.device_of_register(register))
    }
}
