//! The handlers of each declared object, by the type of requests.
ghost use Rattle.std.specs.Prelude.{◌≡◌, IfOk};
ghost use Rattle.wdf_model.specs.Plans as plans;
ghost use Rattle.wdf_plan_index.specs.Handlers as handlers;
ghost use Rattle.wdf_plan_index.specs.Keys as keys;

use crate::callbacks::script_among;
use crate::places::Places;
use std::alloc::Global;
use wdf_base::{Callback, Memory, ObjectId, Plan, RequestForm};
use wdf_declared::declared_at;

/// The handlers of an object.
#[derive(Clone, Copy)]
pub(crate) struct Handlers {
    /// That for reads.
    pub(crate) read: Option<Callback>,
    /// That for writes.
    pub(crate) write: Option<Callback>,
    /// That for control codes.
    pub(crate) control: Option<Callback>,
}

impl Handlers {
    /// That for a type of requests.
    pub(crate) fn of(self, form: RequestForm) -> Option<Callback>
        ensures { result ≡ handlers.of self form }
    {
        match form {
            RequestForm::Read => self.read,
            RequestForm::Write => self.write,
            RequestForm::Control => self.control,
        }
    }
}

/// Whether an object declares a callback.
fn declares(plan: &Plan, names: &Places, callback: Callback, o: ObjectId) -> bool
    requires { names.now ≡ keys.script_names plan.now }
    ensures { result ≡ plans.declares plan.now callback o.0 }
{
    match declared_at(plan, o) {
        Some(object) => script_among(plan, names, callback, &object).is_some(),
        None => false,
    }
}

/// The callback of a queue for a type of requests alone.
fn typed_handler(form: RequestForm) -> Callback
    ensures { result ≡ plans.typed_handler form }
{
    match form {
        RequestForm::Read => Callback::EvtIoRead,
        RequestForm::Write => Callback::EvtIoWrite,
        RequestForm::Control => Callback::EvtIoDeviceControl,
    }
}

/// The handler of an object for a type of requests: that for the type, else that for all types, else none. (KMDF)
fn handler_for(plan: &Plan, names: &Places, q: ObjectId, form: RequestForm) -> Option<Callback>
    requires { names.now ≡ keys.script_names plan.now }
    ensures { result ≡ plans.handler_for plan.now q.0 form }
{
    if declares(plan, names, typed_handler(form), q) {
        Some(typed_handler(form))
    } else if declares(plan, names, Callback::EvtIoDefault, q) {
        Some(Callback::EvtIoDefault)
    } else {
        None
    }
}

/// The handlers of an object.
fn handlers_at(plan: &Plan, names: &Places, q: ObjectId) -> Handlers
    requires { names.now ≡ keys.script_names plan.now }
    ensures { result ≡ handlers.handlers_at plan.now q.0 }
{
    Handlers {
        read: handler_for(plan, names, q, RequestForm::Read),
        write: handler_for(plan, names, q, RequestForm::Write),
        control: handler_for(plan, names, q, RequestForm::Control),
    }
}

/// The handlers of the id 0 and of each declared object, by id.
pub(crate) fn handlers_of(
    alloc: Global,
    plan: &Plan,
    names: &Places,
) -> Result<Vec<Handlers>, Memory>
    requires { names.now ≡ keys.script_names plan.now }
    ensures { IfOk result (λ all. all.items ≡ handlers.handlers_of plan.now) }
{
    let mut all = Vec::new(alloc);
    all.push(handlers_at(plan, names, ObjectId(0)))?;
    for k in 0..plan.declared_len() {
        all.push(handlers_at(plan, names, ObjectId(k + 1)))?;
    }
    Ok(all)
}
