//! The queue of each device for each type of requests.
ghost use Rattle.std.specs.Prelude.{◌≡◌, option_map, find, IfOk};
ghost use Rattle.wdf_model.specs.Plans as plans;
ghost use Rattle.wdf_plan_index.specs.Keys as keys;
ghost use Rattle.wdf_plan_index.specs.Serving as serving;

use crate::belongings::{Sort, belongings_of};
use crate::places::Places;
use std::alloc::Global;
use wdf_base::{Memory, ObjectId, Plan, QueueInfo, RequestForm};
use wdf_declared::queue_of;

/// The ids of the queues that take what arrives at a device.
#[derive(Clone, Copy)]
pub(crate) struct Serving {
    /// That for reads.
    pub(crate) read: Option<u32>,
    /// That for writes.
    pub(crate) write: Option<u32>,
    /// That for control codes.
    pub(crate) control: Option<u32>,
}

impl Serving {
    /// That for a type of requests.
    pub(crate) fn of(self, form: RequestForm) -> Option<u32>
        ensures { result ≡ serving.of self form }
    {
        match form {
            RequestForm::Read => self.read,
            RequestForm::Write => self.write,
            RequestForm::Control => self.control,
        }
    }
}

/// Whether a queue is the one for a type of requests.
fn serves(form: RequestForm, queue: Option<QueueInfo>) -> bool
    ensures { result ≡ plans.serves form queue }
{
    let Some(queue) = queue else {
        return false;
    };
    match form {
        RequestForm::Read => queue.serves.read,
        RequestForm::Write => queue.serves.write,
        RequestForm::Control => queue.serves.control,
    }
}

/// Whether a queue is its device's default queue.
fn serves_rest(queue: Option<QueueInfo>) -> bool
    ensures { result ≡ plans.serves_rest queue }
{
    match queue {
        None => false,
        Some(queue) => queue.serves.rest,
    }
}

/// The first queue of a device for a type of requests.
fn typed_queue(plan: &Plan, over: &Places, device: ObjectId, form: RequestForm) -> Option<ObjectId>
    requires { over.now ≡ keys.devices_over plan.now }
    ensures { option_map (λ q. q.0) result ≡ find (λ q. plans.serves form (plans.queue_of plan.now q)) (plans.queues_of plan.now device.0) }
{
    belongings_of(plan, over, device, Sort::Queue).find(|q| serves(form, queue_of(plan, *q)))
}

/// The first default queue of a device.
fn default_queue(plan: &Plan, over: &Places, device: ObjectId) -> Option<ObjectId>
    requires { over.now ≡ keys.devices_over plan.now }
    ensures { option_map (λ q. q.0) result ≡ find (λ q. plans.serves_rest (plans.queue_of plan.now q)) (plans.queues_of plan.now device.0) }
{
    belongings_of(plan, over, device, Sort::Queue).find(|q| serves_rest(queue_of(plan, *q)))
}

/// The queue of a device for a type of requests, else its default queue, if there is one. (KMDF) It walks
/// along what belongs to the device, which `over` says of each declared object.
pub(crate) fn serving_queue(
    plan: &Plan,
    over: &Places,
    device: ObjectId,
    form: RequestForm,
) -> Option<ObjectId>
    requires { over.now ≡ keys.devices_over plan.now }
    ensures { option_map (λ q. q.0) result ≡ plans.queue_for plan.now device.0 form }
{
    match typed_queue(plan, over, device, form) {
        Some(q) => Some(q),
        None => default_queue(plan, over, device),
    }
}

/// The id of the queue of a device for a type of requests.
fn serving_id(plan: &Plan, over: &Places, device: ObjectId, form: RequestForm) -> Option<u32>
    requires { over.now ≡ keys.devices_over plan.now }
    ensures { result ≡ plans.queue_for plan.now device.0 form }
{
    serving_queue(plan, over, device, form).map(|q| q.0)
}

/// The queues of a device.
fn serving_at(plan: &Plan, over: &Places, device: ObjectId) -> Serving
    requires { over.now ≡ keys.devices_over plan.now }
    ensures { result ≡ serving.serving_at plan.now device.0 }
{
    Serving {
        read: serving_id(plan, over, device, RequestForm::Read),
        write: serving_id(plan, over, device, RequestForm::Write),
        control: serving_id(plan, over, device, RequestForm::Control),
    }
}

/// The queues of each of these devices.
pub(crate) fn serving_of(
    alloc: Global,
    plan: &Plan,
    over: &Places,
    devices: &Places,
) -> Result<Vec<Serving>, Memory>
    requires { over.now ≡ keys.devices_over plan.now }
    ensures { IfOk result (λ all. all.items ≡ serving.serving_of plan.now devices.now) }
{
    let devices = devices.as_slice();
    let mut all = Vec::with_capacity(alloc, devices.len())?;
    for k in 0..devices.len() {
        all.push(serving_at(plan, over, ObjectId(devices[k])))?;
    }
    Ok(all)
}
