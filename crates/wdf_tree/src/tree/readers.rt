//! What is read of one object, and of the tree as a whole. What was never made is gone.

ghost use Rattle.std.specs.Prelude.{◌≡◌, length, slice_index_or};
ghost use Rattle.wdf_base.specs.declared.value.Value.TheVariants.{Num};
ghost use Rattle.wdf_model.specs.parts.Tree as tree;

use super::Tree;
use super::making::DRIVER;
use wdf_base::{Callback, Declared, Handle, Kind, Life, ObjectId, Plan, Value};
use wdf_declared::{declared_at, name_of_class};

/// The number of the name of requests.
const REQUEST_NAME: u32 = 1;

/// The number of the name of what the plan declares; `req` for what is nothing there.
fn name_as(plan: &Plan, declared: Option<Declared>) -> u32
    ensures { result ≡ tree.name_as plan.now declared }
{
    match declared {
        None => REQUEST_NAME,
        Some(Declared::OfClass(class)) => name_of_class(plan, class),
        Some(object) => object.name().unwrap_or(0),
    }
}

/// The value at a place, the number 0 past the end.
fn value_at(values: &[Value], k: u64) -> Value
    ensures { result ≡ slice_index_or values.now k (Num 0) }
{
    match values.get(k as usize) {
        Some(value) => *value,
        None => Value::Num(0),
    }
}

impl Tree {
    /// The id of the object that is made next. No id is used again. (own)
    pub fn next_id(&self) -> ObjectId
        ensures { result.0 ≡ tree.next_id self.now }
    {
        ObjectId(self.len())
    }

    /// How many ids there are: each object has one below this, the id 0 among them.
    pub fn len(&self) -> u32
        ensures { result ≡ length self.now.nodes }
    {
        self.nodes.len()
    }

    /// How far the deletion of an object has come.
    pub fn life(&self, o: ObjectId) -> Life
        ensures { result ≡ tree.life_of self.now o.0 }
    {
        self.nodes.get(o.0).life
    }

    /// What an object is.
    pub fn kind(&self, o: ObjectId) -> Kind
        ensures { result ≡ tree.kind_of self.now o.0 }
    {
        self.nodes.get(o.0).kind
    }

    /// The number of the class that an object was made from, 0 for none.
    pub fn class(&self, o: ObjectId) -> u16
        ensures { result ≡ tree.class_of self.now o.0 }
    {
        self.nodes.get(o.0).class
    }

    /// The parent of an object, the id 0 for none.
    pub fn parent(&self, o: ObjectId) -> ObjectId
        ensures { result.0 ≡ tree.parent_of self.now o.0 }
    {
        self.nodes.get(o.0).parent
    }

    /// The nearest device at or above an object, or the driver object.
    pub fn device(&self, o: ObjectId) -> ObjectId
        ensures { result.0 ≡ tree.nearest_device self.now o.0 }
    {
        match self.devices.get(o.0 as usize) {
            Some(device) => *device,
            None => DRIVER,
        }
    }

    /// How many references to an object the driver holds.
    pub fn references(&self, o: ObjectId) -> u32
        ensures { result ≡ tree.references_of self.now o.0 }
    {
        self.nodes.get(o.0).references
    }

    /// What a context cell of an object holds; the number 0 for a cell that isn't there.
    pub fn cell_of(&self, o: ObjectId, k: u64) -> Value
        ensures { result ≡ tree.cell_of self.now o.0 k }
    {
        value_at(&self.nodes.get(o.0).cells, k)
    }

    /// Whether the cleanup or the destroy callback of an object has started.
    pub fn started(&self, o: ObjectId, callback: Callback) -> bool
        ensures { result ≡ tree.started self.now o.0 callback }
    {
        let node = self.nodes.get(o.0);
        match callback {
            Callback::EvtCleanupCallback => node.cleanup_started,
            Callback::EvtDestroyCallback => node.destroy_started,
            _ => false,
        }
    }

    /// Whether there are as many counted objects as the plan allows. (own)
    pub fn is_full(&self) -> bool
        ensures { result ≡ tree.is_full self.now }
    {
        self.count >= self.limit
    }

    /// What an object is in the plan: its declaration or its class; an arrived request is nothing
    /// there.
    pub fn declared(&self, plan: &Plan, o: ObjectId) -> Option<Declared>
        ensures { result ≡ tree.declared_as plan.now self.now o.0 }
    {
        match self.kind(o) {
            Kind::Request => None,
            Kind::Driver | Kind::Device | Kind::Queue | Kind::Interrupt | Kind::Target => {
                declared_at(plan, o)
            }
            _ => Some(Declared::OfClass(self.class(o))),
        }
    }

    /// An object as events and values name it.
    pub fn handle(&self, plan: &Plan, o: ObjectId) -> Handle
        ensures { result ≡ tree.handle_of plan.now self.now o.0 }
    {
        Handle {
            id: o,
            name: name_as(plan, self.declared(plan, o)),
        }
    }
}
