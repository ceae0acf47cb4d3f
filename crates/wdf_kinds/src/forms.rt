//! The form of a line of the wait list.
ghost use Rattle.std.specs.Prelude.{◌≡◌, ◌++◌, IfOk, OnOk, codes, decimal};
ghost use Rattle.wdf_base.specs.Words.{callback_word};
ghost use Rattle.wdf_lines.specs.Endings.{step_word};
ghost use Rattle.wdf_kinds.specs.Forms.{cause_form, object_form, thing_form, wait_form};

use std::alloc::Global;
use wdf_base::{Callback, Cause, Handle, Memory, OpenThing, Plan, Step, WaitLine};
use wdf_lines::name_bytes;
use wdf_writing::Text;

/// The number of the name that requests have.
const REQUEST: u32 = 1;

/// Adds an object, a request without its number.
fn push_object(out: &mut Text, plan: &Plan, object: Handle) -> Result<(), Memory>
    ensures { OnOk result (out.new ≡ out.old ++ object_form plan.now object) }
{
    if object.name == REQUEST {
        return out.push(b"req");
    }
    out.push(name_bytes(plan, object.name))?;
    out.push(b".")?;
    out.push_number(u64::from(object.id.0))
}

/// Adds bytes and an object.
fn push_with(out: &mut Text, plan: &Plan, front: &[u8], object: Handle) -> Result<(), Memory>
    ensures { OnOk result (out.new ≡ out.old ++ (front.now ++ object_form plan.now object)) }
{
    out.push(front)?;
    push_object(out, plan, object)
}

/// The word of a step of a sequence.
fn step_bytes(step: Step) -> &'static [u8]
    ensures { result.now ≡ step_word step }
{
    match step {
        Step::Run { callback, .. } => callback.word().as_bytes(),
        Step::Pass { stage, .. } => stage.word().as_bytes(),
    }
}

/// Adds a callback that waits.
fn push_waiting(
    out: &mut Text,
    plan: &Plan,
    callback: Callback,
    object: Handle,
) -> Result<(), Memory>
    ensures { OnOk result (out.new ≡ out.old ++ (codes "frame " ++ callback_word callback ++ codes " " ++ object_form plan.now object ++ codes " waits")) }
{
    out.push(b"frame ")?;
    out.push(callback.word().as_bytes())?;
    push_with(out, plan, b" ", object)?;
    out.push(b" waits")
}

/// Adds a device whose step waits.
fn push_sequence(out: &mut Text, plan: &Plan, device: Handle, step: Step) -> Result<(), Memory>
    ensures { OnOk result (out.new ≡ out.old ++ (object_form plan.now device ++ codes " " ++ step_word step ++ codes " waits")) }
{
    push_object(out, plan, device)?;
    out.push(b" ")?;
    out.push(step_bytes(step))?;
    out.push(b" waits")
}

/// Adds deferred work that is queued.
fn push_deferred(out: &mut Text, plan: &Plan, object: Handle) -> Result<(), Memory>
    ensures { OnOk result (out.new ≡ out.old ++ (object_form plan.now object ++ codes " queued")) }
{
    push_object(out, plan, object)?;
    out.push(b" queued")
}

/// Adds what is open.
fn push_thing(out: &mut Text, plan: &Plan, thing: &OpenThing) -> Result<(), Memory>
    ensures { OnOk result (out.new ≡ out.old ++ thing_form plan.now thing.now) }
{
    match *thing {
        OpenThing::Waiting {
            callback,
            object,
            ..
        } => push_waiting(out, plan, callback, object),
        OpenThing::Owned { .. } => out.push(b"owned"),
        OpenThing::Sent { target, .. } => push_with(out, plan, b"sent ", target),
        OpenThing::Queued { queue, .. } => push_with(out, plan, b"queued ", queue),
        OpenThing::Returning { queue, .. } => push_with(out, plan, b"returning ", queue),
        OpenThing::Sequence { device, step } => push_sequence(out, plan, device, step),
        OpenThing::Leaving { object } => push_object(out, plan, object),
        OpenThing::Deferred { object } => push_deferred(out, plan, object),
        OpenThing::Asking { device } => push_with(out, plan, b"pnp waits ", device),
    }
}

/// Adds a lock that a frame holds.
fn push_lock(out: &mut Text, plan: &Plan, lock: Handle) -> Result<(), Memory>
    ensures { OnOk result (out.new ≡ out.old ++ (codes " lock " ++ object_form plan.now lock ++ codes " of frame")) }
{
    push_with(out, plan, b" lock ", lock)?;
    out.push(b" of frame")
}

/// Adds a count of references.
fn push_references(out: &mut Text, count: u32) -> Result<(), Memory>
    ensures { OnOk result (out.new ≡ out.old ++ (codes " references " ++ decimal count)) }
{
    out.push(b" references ")?;
    out.push_number(u64::from(count))
}

/// Adds why it is open.
fn push_cause(out: &mut Text, plan: &Plan, cause: Option<Cause>) -> Result<(), Memory>
    ensures { OnOk result (out.new ≡ out.old ++ cause_form plan.now cause) }
{
    let Some(cause) = cause else {
        return Ok(());
    };
    match cause {
        Cause::ByFrame { .. } => out.push(b" frame"),
        Cause::ByLock { lock, .. } => push_lock(out, plan, lock),
        Cause::ByRequest { .. } => out.push(b" request"),
        Cause::ByWork { work } => push_with(out, plan, b" work ", work),
        Cause::Stopped => out.push(b" stopped"),
        Cause::Unpowered => out.push(b" unpowered"),
        Cause::Manual => out.push(b" manual"),
        Cause::Behind { .. } => out.push(b" behind"),
        Cause::Full => out.push(b" full"),
        Cause::ScopeHeld => out.push(b" scope"),
        Cause::NoCpu => out.push(b" cpus"),
        Cause::References { count } => push_references(out, count),
        Cause::ByChild { child } => push_with(out, plan, b" child ", child),
        Cause::AtTarget { target } => push_with(out, plan, b" sent ", target),
    }
}

/// The form of a line.
pub(crate) fn form_of(alloc: Global, plan: &Plan, wait: &WaitLine) -> Result<Text, Memory>
    ensures { IfOk result (λ form. form ≡ wait_form plan.now wait.now) }
{
    let mut form = Text::new(alloc);
    push_thing(&mut form, plan, &wait.thing)?;
    push_cause(&mut form, plan, wait.cause)?;
    Ok(form)
}
