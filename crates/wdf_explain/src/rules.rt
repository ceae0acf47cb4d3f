//! The sentences: the rule behind each fault, and what each cause of a wait means.
ghost use Rattle.std.specs.Prelude.{◌≡◌};
ghost use Rattle.wdf_explain.specs.Rules.{cause_text, rule_text, thing_text, why_text};

use wdf_base::{Cause, Fault, OpenThing, WaitLine};

/// The rule that a driver breaks with a fault.
pub(crate) fn rule_of(fault: Fault) -> &'static [u8]
    ensures { result.now ≡ rule_text fault }
{
    match fault {
        Fault::StaleHandle => {
            b"an object may be named until it is cleaned up, and with a reference until it is gone, but then only for its cells, its references and unmarking it."
        }
        Fault::WrongKind => {
            b"each argument of a call is an object of the kind that the call asks for, and a request that the driver made isn't sent and forgotten."
        }
        Fault::IrqlTooHigh => {
            b"a call may be made at the level that its row allows, or below. What needs a lower level goes to a DPC or a work item."
        }
        Fault::NotOwned => {
            b"only who has a request may complete, mark, forward, requeue, send, acknowledge or ask about it."
        }
        Fault::CompleteWhileMarked => {
            b"a cancelable request is unmarked before it is completed, forwarded, requeued, sent or given back at a stop."
        }
        Fault::CompleteBeforeCancelCallback => {
            b"a cancelable request that was cancelled is its EvtRequestCancel's; nobody else may complete, forward, requeue, send or give it back."
        }
        Fault::MarkedTwice => b"a request is marked cancelable once, until it is unmarked.",
        Fault::AckOutsideStop => b"a request is acknowledged in its own EvtIoStop, and once.",
        Fault::NoReferenceHeld => b"a reference is given back by who holds one.",
        Fault::DeleteNotAllowed => {
            b"a driver deletes what it made: no driver, device, queue, interrupt or target, and no request of an app."
        }
        Fault::LockHeldAlready => {
            b"a callback takes a lock that it doesn't have; an interrupt's service routine has the interrupt's lock."
        }
        Fault::LockNotHeld => {
            b"a callback gives back the locks that it took by a call, and no others."
        }
        Fault::ReturnHoldingLock => b"a callback ends without a lock that it took by a call.",
        Fault::HardwareReleased => {
            b"registers are touched while the device has its hardware, from `hardware` to `no_hardware`."
        }
        Fault::SyncInOwnScope => {
            b"a callback doesn't wait for callbacks of its own object, nor for ones that need the scope lock that it runs under."
        }
        Fault::ScriptError => {
            b"each value is of the kind that its place asks for and within its limit, and no divisor is 0."
        }
    }
}

/// Why something waits.
fn cause_of(cause: Cause) -> &'static [u8]
    ensures { result.now ≡ cause_text cause }
{
    match cause {
        Cause::ByFrame { .. } => b"A callback keeps it.",
        Cause::ByLock { .. } => b"A callback holds the lock.",
        Cause::ByRequest { .. } => b"A request keeps it.",
        Cause::ByWork { .. } => b"The work item is still queued.",
        Cause::Stopped => b"The queue is stopped, and nobody starts it.",
        Cause::Unpowered => b"The device has no power, and nobody gives it power.",
        Cause::Manual => {
            b"The queue presents nothing by itself, and the driver retrieves nothing from it."
        }
        Cause::Behind { .. } => b"Another request is ahead of it.",
        Cause::Full => b"The driver has as many requests of the queue as it gets at a time.",
        Cause::ScopeHeld => b"The lock that its callback needs is held.",
        Cause::NoCpu => b"No processor is left for its callback.",
        Cause::References { .. } => b"The driver holds references to it.",
        Cause::ByChild { .. } => b"A child or a younger sibling goes first.",
        Cause::AtTarget { .. } => b"A target isn't done with it.",
    }
}

/// What is open where no cause is named.
fn thing_of(thing: &OpenThing) -> &'static [u8]
    ensures { result.now ≡ thing_text thing.now }
{
    match thing {
        OpenThing::Owned { .. } => b"The driver has it, and doesn't complete it.",
        OpenThing::Sent { .. } => b"The target isn't done with it.",
        OpenThing::Asking { .. } => {
            b"The device isn't done with the last thing that was asked of it."
        }
        _ => b"No rule names what it waits for.",
    }
}

/// Why a line of the wait list is open.
pub(crate) fn why_of(wait: &WaitLine) -> &'static [u8]
    ensures { result.now ≡ why_text wait.now }
{
    match wait.cause {
        Some(cause) => cause_of(cause),
        None => thing_of(&wait.thing),
    }
}
