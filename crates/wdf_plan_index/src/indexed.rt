ghost use Rattle.std.specs.Prelude.{◌≡◌, length, slice_get, IfOk};
ghost use Rattle.wdf_base.specs.Plan.{declared_of};
ghost use Rattle.wdf_model.specs.Plans as plans;
ghost use Rattle.wdf_model.specs.rules.Groups as groups;

use crate::tables::{Tables, tables_of};
use std::alloc::Global;
use std::marker::Model;
use std::mem;
use wdf_base::{
    ClassInfo, Declared, DeviceInfo, InterruptInfo, Memory, ObjectId, Plan, QueueInfo, TargetInfo,
};
use wdf_declared::{class_at, declared_at, device_of, interrupt_of, queue_of, target_of};

/// A plan, with tables over it that are made once, so that what is asked at each event is found without a
/// search through all that is declared.
///
/// Contracts see the plan. No call but [`IndexedPlan::make`] takes memory.
pub struct IndexedPlan {
    pub(crate) plan: Plan,
    pub(crate) tables: Tables,
}

impl Drop for IndexedPlan {
    /// Lets go of the plan and of its tables by a call each, so that both are let go by one call wherever they are owned.
    fn drop(self) {
        let IndexedPlan { plan, tables } = self;
        mem::drop(plan);
        mem::drop(tables);
    }
}

impl Model for IndexedPlan {
    ghost use Rattle.wdf_base.specs.declared.plan.Plan.{Plan};
    ghost use Rattle.wdf_plan_index.specs.Tables.{AreTables};

    ghost Value = { Plan };

    ghost view = { λ p. p.plan };

    ghost invariant = { λ p. AreTables p.plan p.tables };
}

impl IndexedPlan {
    /// The plan with its tables.
    ///
    /// # Errors
    ///
    /// [`Memory`] where memory for the tables was refused. The plan is dropped then.
    pub fn make(alloc: Global, plan: Plan) -> Result<IndexedPlan, Memory>
        ensures { IfOk result (λ made. made ≡ plan) }
    {
        let tables = tables_of(alloc, &plan)?;
        Ok(IndexedPlan { plan, tables })
    }

    /// The plan alone.
    pub fn plan(&self) -> &Plan
        ensures { result.now ≡ self.now }
    {
        &self.plan
    }

    /// What is declared under an id: `None` for the id 0, and for one that is past the declared ones.
    pub fn declared(&self, o: ObjectId) -> Option<Declared>
        ensures { result ≡ declared_of self.now o.0 }
    {
        declared_at(&self.plan, o)
    }

    /// How many objects are declared, the driver object among them. Their ids count from 1.
    pub fn declared_len(&self) -> u32
        ensures { result ≡ length self.now.declared }
    {
        self.plan.declared_len()
    }

    /// The id after those of the driver object and of what is declared.
    pub fn declared_end(&self) -> usize
        ensures { result ≡ groups.declared_end self.now }
    {
        self.declared_len() as usize + 1
    }

    /// The device with this id, if it is one's.
    pub fn device_of(&self, o: ObjectId) -> Option<DeviceInfo>
        ensures { result ≡ plans.device_of self.now o.0 }
    {
        device_of(&self.plan, o)
    }

    /// The queue with this id, if it is one's.
    pub fn queue_of(&self, o: ObjectId) -> Option<QueueInfo>
        ensures { result ≡ plans.queue_of self.now o.0 }
    {
        queue_of(&self.plan, o)
    }

    /// The interrupt with this id, if it is one's.
    pub fn interrupt_of(&self, o: ObjectId) -> Option<InterruptInfo>
        ensures { result ≡ plans.interrupt_of self.now o.0 }
    {
        interrupt_of(&self.plan, o)
    }

    /// The target with this id, if it is one's.
    pub fn target_of(&self, o: ObjectId) -> Option<TargetInfo>
        ensures { result ≡ plans.target_of self.now o.0 }
    {
        target_of(&self.plan, o)
    }

    /// The class with a number, if there is one.
    pub fn class_at(&self, class: u16) -> Option<ClassInfo>
        ensures { result ≡ slice_get self.now.classes class }
    {
        class_at(&self.plan, class)
    }
}
