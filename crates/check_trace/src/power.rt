//! The laws on interrupts, queues and power.
ghost use Rattle.std.specs.Prelude.{◌≡◌, Some};
ghost use Rattle.std.specs.List.{list_all, list_any};
ghost use Rattle.wdf_laws.specs.Frames.{is_on};
ghost use Rattle.wdf_laws.specs.Laws as laws;
ghost use Rattle.check_past.specs.Past.{before, device_of_interrupt};
ghost use Rattle.wdf_model.specs.Plans as plans;
ghost use Rattle.check_trace.specs.Tests as tests;

use check_past::{Frames, Past, is_on};
use check_signs::{begun_on, passed, presented};
use wdf_base::{Callback, DeviceInfo, Event, InterruptInfo, ObjectId, QueueInfo, Rank, Stage};
use wdf_declared::{declares, device_of, interrupt_of, queue_of};
use wdf_laws::{Begun, Sign, Stacked, Taking};

fn is_entered(past: &Past, device: u32) -> bool
    ensures { result ≡ laws.is_entered past.now.plan (before past.now) device }
{
    !declares(past.plan(), Callback::EvtDeviceD0Entry, ObjectId(device))
        || past.stands(Sign::Entered(device), Sign::NotEntered(device))
}

fn is_enabled_in_power(past: &Past, interrupt: u32, device: u32) -> bool
    requires { device_of_interrupt past.now.plan (Some interrupt) ≡ Some device }
    ensures { result ≡ laws.is_enabled_in_power past.now.plan (before past.now) interrupt device }
{
    past.stands(Sign::Enabled(interrupt), Sign::ExitBegins(device))
        && (!declares(past.plan(), Callback::EvtDeviceD0Entry, ObjectId(device))
            || past.was_enabled_entered(interrupt, device))
}

fn is_with_interrupt(interrupt: u32, begun: &Begun) -> bool
    ensures { result ≡ laws.is_with_interrupt interrupt begun.now }
{
    begun.callback.takes_interrupt_lock() && begun.object == interrupt
}

fn any_with_interrupt(interrupt: u32, begun: &[Begun]) -> bool
    ensures { result ≡ list_any (laws.is_with_interrupt interrupt) begun.now }
{
    begun
        .iter()
        .any(|callback| is_with_interrupt(interrupt, callback))
}

fn any_on(cpu: u8, stacks: &[Stacked]) -> bool
    ensures { result ≡ list_any (is_on cpu) stacks.now }
{
    stacks.iter().any(|stacked| is_on(cpu, stacked))
}

fn is_alone(frames: &Frames, level: u8, cpu: u8, interrupt: u32) -> bool
    ensures { result ≡ laws.is_alone frames.now level cpu interrupt }
{
    !any_with_interrupt(interrupt, frames.begun())
        && (!(level == 0) || !any_on(cpu, frames.stacks()))
}

fn enabled_row(past: &Past, callback: Callback, interrupt: u32, device: u32) -> bool
    requires { device_of_interrupt past.now.plan (Some interrupt) ≡ Some device }
    ensures { result ≡ laws.enabled_row past.now.plan (before past.now) callback interrupt device }
{
    match callback {
        Callback::EvtInterruptIsr => {
            is_enabled_in_power(past, interrupt, device)
                && past.stands(Sign::Enabled(interrupt), Sign::Disabled(interrupt))
        }
        Callback::EvtInterruptDpc => is_enabled_in_power(past, interrupt, device),
        Callback::EvtInterruptDisable => is_enabled_in_power(past, interrupt, device),
        _ => true,
    }
}

fn enable_row(past: &Past, callback: Callback, device: u32) -> bool
    ensures { result ≡ laws.enable_row past.now.plan (before past.now) callback device }
{
    match callback {
        Callback::EvtInterruptEnable => is_entered(past, device),
        _ => true,
    }
}

fn alone_row(frames: &Frames, callback: Callback, level: u8, cpu: u8, interrupt: u32) -> bool
    ensures { result ≡ laws.alone_row frames.now callback level cpu interrupt }
{
    !callback.takes_interrupt_lock() || is_alone(frames, level, cpu, interrupt)
}

fn interrupt_rows(
    past: &Past,
    frames: &Frames,
    callback: Callback,
    cpu: u8,
    object: u32,
    info: Option<InterruptInfo>,
) -> bool
    requires { info ≡ plans.interrupt_of past.now.plan object }
    ensures { result ≡ laws.interrupt_rows past.now.plan (before past.now) frames.now callback cpu object info }
{
    match info {
        Some(interrupt) => {
            enabled_row(past, callback, object, interrupt.device.0)
                && enable_row(past, callback, interrupt.device.0)
                && alone_row(frames, callback, interrupt.level.0, cpu, object)
        }
        None => true,
    }
}

/// EvtInterruptEnable begins only on an entered device, and an interrupt's other callbacks only after it was enabled
/// there. Those with its lock begin alone.
pub fn keeps_interrupts(past: &Past, frames: &Frames, event: &Event) -> bool
    ensures { result ≡ laws.law_4 past.now.plan (before past.now) frames.now event.now }
{
    match event {
        Event::Start {
            cpu,
            callback,
            object,
            ..
        } => {
            interrupt_rows(
                past,
                frames,
                *callback,
                cpu.0,
                object.id.0,
                interrupt_of(past.plan(), object.id),
            )
        }
        _ => true,
    }
}

fn works_at_opening(device: Option<DeviceInfo>) -> bool
    ensures { result ≡ laws.works_at_opening device }
{
    device.is_some_and(|d| d.working)
}

fn is_up_from_opening(past: &Past, device: u32) -> bool
    ensures { result ≡ laws.is_up_from_opening past.now.plan (before past.now) device }
{
    (!past.ever(Sign::QueuesUp(device)) && !past.ever(Sign::QueuesDown(device)))
        && works_at_opening(device_of(past.plan(), ObjectId(device)))
        && !past.ever(Sign::ExitBegins(device))
}

fn went_up(past: &Past, device: u32) -> bool
    ensures { result ≡ laws.went_up past.now.plan (before past.now) device }
{
    past.stands(Sign::QueuesUp(device), Sign::QueuesDown(device))
        && past.stands(Sign::QueuesUp(device), Sign::ExitBegins(device))
        && (!declares(past.plan(), Callback::EvtDeviceD0Entry, ObjectId(device))
            || past.was_up_entered(device))
}

fn has_power(past: &Past, queue: Option<QueueInfo>) -> bool
    ensures { result ≡ laws.has_power past.now.plan (before past.now) queue }
{
    match queue {
        Some(q) => !q.powered || went_up(past, q.device.0) || is_up_from_opening(past, q.device.0),
        None => true,
    }
}

fn is_power_rank(rank: Rank) -> bool
    ensures { result ≡ laws.is_power_rank rank }
{
    matches!(
        rank,
        Rank::CanceledOnQueue | Rank::Resume | Rank::QueueState
    )
}

fn presented_with_power(past: &Past, presented: Option<Taking>) -> bool
    ensures { result ≡ laws.presented_with_power past.now.plan (before past.now) presented }
{
    match presented {
        Some(t) => has_power(past, queue_of(past.plan(), ObjectId(t.queue))),
        None => true,
    }
}

fn begun_with_power(past: &Past, event: &Event) -> bool
    ensures { result ≡ laws.begun_with_power past.now.plan (before past.now) event.now }
{
    match event {
        Event::Start {
            callback,
            object,
            ..
        } => {
            !is_power_rank(callback.row().rank) || has_power(past, queue_of(past.plan(), object.id))
        }
        _ => true,
    }
}

/// A power-managed queue works only while its device has power.
pub fn keeps_queues(past: &Past, event: &Event) -> bool
    ensures { result ≡ laws.law_5 past.now.plan (before past.now) event.now }
{
    presented_with_power(past, presented(event)) && begun_with_power(past, event)
}

fn is_acknowledged(past: &Past, device: u32, taking: &Taking) -> bool
    ensures { result ≡ tests.is_answered (before past.now) device taking.now }
{
    let taken = Sign::TakingFrom {
        request: taking.request,
        queue: taking.queue,
    };
    !past.stands(taken, Sign::GivingUp(taking.request))
        || past.followed(
            Sign::QueuesDown(device),
            Sign::Acknowledgement(taking.request),
        )
}

fn each_acknowledged(past: &Past, device: u32, takings: &[Taking]) -> bool
    ensures { result ≡ list_all (tests.is_answered (before past.now) device) takings.now }
{
    takings
        .iter()
        .all(|taking| is_acknowledged(past, device, taking))
}

#[tactic(auto, using(crate::proofs::Groups::acknowledged_by_takings))]
fn all_acknowledged(past: &Past, device: Option<u32>) -> bool
    ensures { result ≡ laws.all_acknowledged past.now.plan (before past.now) device }
{
    match device {
        Some(d) => each_acknowledged(past, d, past.takings(d)),
        None => true,
    }
}

/// A device loses power only after each held request was acknowledged.
pub fn keeps_requests(past: &Past, event: &Event) -> bool
    ensures { result ≡ laws.law_6 past.now.plan (before past.now) event.now }
{
    all_acknowledged(past, passed(Stage::Settled, event))
        && all_acknowledged(past, begun_on(Callback::EvtDeviceD0Exit, event))
}
