//! Callbacks by object: which script they have, and how high they run.
ghost use Rattle.std.specs.Prelude.{◌≡◌};
ghost use Rattle.wdf_base.specs.Plan.{script_of};
ghost use Rattle.wdf_model.specs.Plans as plans;
ghost use Rattle.wdf_model.specs.rules.Groups as groups;
ghost use Rattle.wdf_plan_index.specs.Keys as keys;

use crate::indexed::IndexedPlan;
use crate::keys::owner_name;
use crate::places::Places;
use wdf_base::{
    Callback, CallbackLevel, Declared, ExecutionLevel, Irql, ObjectId, Plan, RequestForm,
    same_callback,
};

impl IndexedPlan {
    /// The number of the script of a callback on an object; `None` exactly where it isn't declared. It
    /// looks through the scripts of what has the object's name.
    pub fn script_on(&self, callback: Callback, object: Option<Declared>) -> Option<u32>
        ensures { result ≡ plans.script_on self.now callback object }
    {
        match object {
            None => None,
            Some(object) => script_among(&self.plan, &self.tables.script_names, callback, &object),
        }
    }

    /// Whether a declared object declares a callback.
    pub fn declares(&self, callback: Callback, o: ObjectId) -> bool
        ensures { result ≡ plans.declares self.now callback o.0 }
    {
        self.script_on(callback, self.declared(o)).is_some()
    }

    /// Whether something declares EvtCleanupCallback.
    pub fn declares_cleanup_callback(&self) -> bool
        ensures { result ≡ groups.is_declared_somewhere self.now Callback.EvtCleanupCallback }
    {
        self.tables.cleanup_callback
    }

    /// Whether something declares EvtDestroyCallback.
    pub fn declares_destroy_callback(&self) -> bool
        ensures { result ≡ groups.is_declared_somewhere self.now Callback.EvtDestroyCallback }
    {
        self.tables.destroy_callback
    }

    /// The handler of a queue for a type of requests: that for the type, else that for all types, else
    /// none. (KMDF)
    pub fn handler_for(&self, q: ObjectId, form: RequestForm) -> Option<Callback>
        ensures { result ≡ plans.handler_for self.now q.0 form }
    {
        match self.tables.handlers.get(q.0 as usize) {
            Some(handlers) => handlers.of(form),
            None => None,
        }
    }

    /// Whether a queue has a handler for a type of requests.
    pub fn has_handler(&self, q: ObjectId, form: RequestForm) -> bool
        ensures { result ≡ plans.has_handler self.now q.0 form }
    {
        self.handler_for(q, form).is_some()
    }

    /// The level of an interrupt; 0 for a passive one, and for what is no interrupt.
    pub fn interrupt_level(&self, i: ObjectId) -> Irql
        ensures { result.0 ≡ plans.interrupt_level self.now i.0 }
    {
        match self.interrupt_of(i) {
            Some(interrupt) => interrupt.level,
            None => Irql(0),
        }
    }

    /// The level at which the callbacks of a queue run. (own)
    fn queue_level(&self, q: ObjectId) -> Irql
        ensures { result.0 ≡ plans.queue_level self.now q.0 }
    {
        match self.queue_of(q) {
            Some(queue) => irql_of_level(queue.level),
            None => Irql(0),
        }
    }

    /// The level at which a callback runs on an object.
    pub fn callback_irql(&self, callback: Callback, o: ObjectId) -> Irql
        ensures { result.0 ≡ plans.callback_irql self.now callback o.0 }
    {
        match callback.row().level {
            CallbackLevel::Level(level) => level,
            CallbackLevel::OfInterrupt => self.interrupt_level(o),
            CallbackLevel::OfQueue => self.queue_level(o),
        }
    }
}

/// Whether a callback is declared on some object. It goes along all scripts.
pub(crate) fn is_declared_somewhere(plan: &Plan, callback: Callback) -> bool
    ensures { result ≡ groups.is_declared_somewhere plan.now callback }
{
    plan.scripts
        .as_slice()
        .iter()
        .any(|script| same_callback(script.callback, callback))
}

/// The number of the script of a callback on an object, found by the names that the scripts' owners have.
pub(crate) fn script_among(
    plan: &Plan,
    names: &Places,
    callback: Callback,
    owner: &Declared,
) -> Option<u32>
    requires { names.now ≡ keys.script_names plan.now }
    ensures { result ≡ script_of plan.now callback owner.now }
{
    'walk: for script in names.of(owner_name(plan, owner)) {
        if plan.scripts.item(script).is_of(callback, owner) {
            return Some(script);
        }
    }
    None
}

/// The level of an execution level: PASSIVE_LEVEL is 0, DISPATCH_LEVEL is 2.
fn irql_of_level(level: ExecutionLevel) -> Irql
    ensures { result.0 ≡ plans.irql_of_level level }
{
    match level {
        ExecutionLevel::Passive => Irql(0),
        ExecutionLevel::Dispatch => Irql(2),
    }
}
