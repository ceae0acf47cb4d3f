//! Modes of queues, closed devices, and notification.
ghost use Rattle.std.specs.Prelude.{◌≡◌, ◌<◌, length};

use crate::plans::{DEVICE, MANUAL, PARALLEL, SEQUENTIAL};
use crate::trials::Wrong;
use std::alloc::Global;
use wdf_base::{Memory, ObjectId, Plan};
use wdf_model::Mode;
use wdf_qctl::Control;

/// What happens to the queues, and what is read of them, with the answer that is due.
#[derive(Clone, Copy)]
enum Act {
    Start(ObjectId),
    Stop(ObjectId),
    Drain(ObjectId),
    Purge(ObjectId),
    /// The queues of a device are closed.
    Shut(ObjectId),
    SetMode(ObjectId, Mode),
    /// Notification is registered, or no more.
    Notify(ObjectId, bool),
    /// A request enters a queue, which was empty or not.
    Entered(ObjectId, bool),
    /// EvtIoQueueState starts.
    Notified(ObjectId),
    /// The mode of a queue.
    IsIn(ObjectId, Mode),
    /// Whether a queue accepts, and whether it delivers where it has power.
    Opens(ObjectId, bool, bool),
    /// Whether a device is closed.
    IsClosed(ObjectId, bool),
    /// Whether EvtIoQueueState is due.
    NotifyDue(ObjectId, bool),
}

/// A queue accepts in Started and Stopped, and delivers in Started and Drained where it has power.
static STARTED: [Act; 4] = [
    Act::Start(PARALLEL),
    Act::IsIn(PARALLEL, Mode::Started),
    Act::Opens(PARALLEL, true, true),
    Act::IsIn(SEQUENTIAL, Mode::Started),
];

static STOPPED: [Act; 4] = [
    Act::Stop(PARALLEL),
    Act::IsIn(PARALLEL, Mode::Stopped),
    Act::Opens(PARALLEL, true, false),
    Act::IsIn(SEQUENTIAL, Mode::Started),
];

static DRAINED: [Act; 4] = [
    Act::Drain(PARALLEL),
    Act::IsIn(PARALLEL, Mode::Drained),
    Act::Opens(PARALLEL, false, true),
    Act::IsIn(SEQUENTIAL, Mode::Started),
];

static PURGED: [Act; 4] = [
    Act::Purge(PARALLEL),
    Act::IsIn(PARALLEL, Mode::Purged),
    Act::Opens(PARALLEL, false, false),
    Act::IsIn(SEQUENTIAL, Mode::Started),
];

/// A closed device's queues stay Purged. What is no queue counts as a purged one.
static CLOSED: [Act; 9] = [
    Act::IsClosed(DEVICE, false),
    Act::Shut(DEVICE),
    Act::IsClosed(DEVICE, true),
    Act::IsIn(SEQUENTIAL, Mode::Purged),
    Act::IsIn(PARALLEL, Mode::Purged),
    Act::IsIn(MANUAL, Mode::Purged),
    Act::SetMode(SEQUENTIAL, Mode::Started),
    Act::IsIn(SEQUENTIAL, Mode::Purged),
    Act::IsIn(ObjectId(99), Mode::Purged),
];

/// Registered notification is due where the queue goes from empty to not empty, until
/// EvtIoQueueState starts, also where the registration ends before that.
static NOTIFICATION: [Act; 11] = [
    Act::Entered(MANUAL, true),
    Act::NotifyDue(MANUAL, false),
    Act::Notify(MANUAL, true),
    Act::NotifyDue(MANUAL, false),
    Act::Entered(MANUAL, false),
    Act::NotifyDue(MANUAL, false),
    Act::Entered(MANUAL, true),
    Act::Notify(MANUAL, false),
    Act::NotifyDue(MANUAL, true),
    Act::Notified(MANUAL),
    Act::NotifyDue(MANUAL, false),
];

/// Whether what is read of the queues is as due.
fn is_so(control: &Control, act: Act) -> bool {
    match act {
        Act::IsIn(q, due) => control.mode_of(q) == due && control.control_of(q).mode == due,
        Act::Opens(q, accepts, delivers) => {
            control.accepts(q) == accepts
                && control.delivers(q, true) == delivers
                && !control.delivers(q, false)
        }
        Act::IsClosed(device, due) => control.is_closed(device) == due,
        Act::NotifyDue(q, due) => control.notify_due(q) == due,
        _ => false,
    }
}

/// Does a call of the driver; whether it is one, on an object of the plan.
fn calls(control: &mut Control, act: Act) -> bool
    requires { length control.old.controls ≡ 6 }
    ensures { length control.new.controls ≡ 6 }
{
    match act {
        Act::Start(q) if q.0 < 6 => control.start(q),
        Act::Stop(q) if q.0 < 6 => control.stop(q),
        Act::Drain(q) if q.0 < 6 => control.drain(q),
        Act::Purge(q) if q.0 < 6 => control.purge(q),
        Act::Notify(q, on) if q.0 < 6 => control.notify(q, on),
        _ => return false,
    }
    true
}

/// Does an act; whether it may come, and the answer is the due one.
fn does(control: &mut Control, act: Act) -> bool
    requires { length control.old.controls ≡ 6 }
    ensures { length control.new.controls ≡ 6 }
{
    match act {
        Act::Shut(device) if device.0 < 6 => control.shut(device),
        Act::SetMode(q, mode) if q.0 < 6 => control.set_mode(q, mode),
        Act::Entered(q, was_empty) if q.0 < 6 => control.entered(q, was_empty),
        Act::Notified(q) if q.0 < 6 => control.notified(q),
        _ => return calls(control, act) || is_so(control, act),
    }
    true
}

/// The place of the first act that isn't as due.
fn first_wrong(control: &mut Control, acts: &[Act]) -> Option<usize>
    requires { length control.old.controls ≡ 6 }
{
    'all: for at in 0..acts.len() {
        if !does(control, acts[at]) {
            return Some(at);
        }
    }
    None
}

/// The same in what is made for it.
fn wrong_in(mut control: Control, acts: &[Act]) -> Option<usize>
    requires { length control.controls ≡ 6 }
{
    first_wrong(&mut control, acts)
}

/// What is wrong in the cases, after the opening of a plan with five declared objects.
pub fn wrong(alloc: Global, plan: &Plan) -> Result<Wrong, Memory> {
    if plan.declared_len() != 5 {
        return Ok(Some(("a plan of five objects", 0)));
    }
    for (name, acts) in [
        ("started", STARTED.as_slice()),
        ("stopped", STOPPED.as_slice()),
        ("drained", DRAINED.as_slice()),
        ("purged", PURGED.as_slice()),
        ("closed", CLOSED.as_slice()),
        ("notification", NOTIFICATION.as_slice()),
    ] {
        let wrong = match Control::make(alloc, plan) {
            Ok(control) => wrong_in(control, acts),
            Err(memory) => return Err(memory),
        };
        if let Some(place) = wrong {
            return Ok(Some((name, place)));
        }
    }
    Ok(None)
}
