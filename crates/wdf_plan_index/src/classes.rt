//! Classes by number.
ghost use Rattle.std.specs.Prelude.{◌≡◌};
ghost use Rattle.wdf_model.specs.Plans as plans;

use crate::indexed::IndexedPlan;
use wdf_base::{ClassInfo, Kind, ObjectId};
use wdf_declared::{name_of_class, parent_of_class};

impl IndexedPlan {
    /// The kind of a class's objects; General for what is no class.
    pub fn kind_of_class(&self, class: u16) -> Kind
        ensures { result ≡ plans.kind_of_class self.now class }
    {
        match self.class_at(class) {
            Some(info) => info.kind(),
            None => Kind::General,
        }
    }

    /// The number of the name of a class; 0 for what is none.
    pub fn name_of_class(&self, class: u16) -> u32
        ensures { result ≡ plans.name_of_class self.now class }
    {
        name_of_class(&self.plan, class)
    }

    /// The parent that a class names; the id 0 where the call that makes the object names it.
    pub fn parent_of_class(&self, class: u16) -> ObjectId
        ensures { result.0 ≡ plans.parent_of_class self.now class }
    {
        parent_of_class(&self.plan, class)
    }

    /// The period of a timer of a class, in ticks; 0 for none.
    pub fn period_of(&self, class: u16) -> u64
        ensures { result ≡ plans.period_of self.now class }
    {
        match self.class_at(class) {
            Some(ClassInfo::Deferred { period, .. }) => period,
            _ => 0,
        }
    }
}
