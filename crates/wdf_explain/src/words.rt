//! Objects, calls and what a frame is about to do, as words.
ghost use Rattle.std.specs.Prelude.{◌≡◌, ◌++◌, OnOk, codes, decimal};
ghost use Rattle.wdf_base.specs.Kinds.{class_name};
ghost use Rattle.wdf_base.specs.Resolved.{register_name};
ghost use Rattle.wdf_base.specs.Words.{callback_word, fault_word, status_word};
ghost use Rattle.wdf_lines.specs.Lines.{argument_text, argument_words, named, object_text, register_text, spaced, value_text};
ghost use Rattle.wdf_explain.specs.Words.{call_text, intent_text};

use wdf_base::{Arg, Call, Callback, Fault, Handle, Intent, Memory, Plan, Status, Value};
use wdf_lines::{class_name, name_bytes, register_name};
use wdf_writing::Text;

/// The word of a callback.
pub(crate) fn callback_bytes(callback: Callback) -> &'static [u8]
    ensures { result.now ≡ callback_word callback }
{
    callback.word().as_bytes()
}

/// The word of a fault.
pub(crate) fn fault_bytes(fault: Fault) -> &'static [u8]
    ensures { result.now ≡ fault_word fault }
{
    fault.word().as_bytes()
}

/// The word of a status.
pub(crate) fn status_bytes(status: Status) -> &'static [u8]
    ensures { result.now ≡ status_word status }
{
    status.word().as_bytes()
}

/// Adds an object.
pub(crate) fn push_object(out: &mut Text, plan: &Plan, object: Handle) -> Result<(), Memory>
    ensures { OnOk result (out.new ≡ out.old ++ object_text plan.now object) }
{
    out.push(name_bytes(plan, object.name))?;
    out.push(b".")?;
    out.push_number(u64::from(object.id.0))
}

/// Adds bytes and an object.
pub(crate) fn push_with(
    out: &mut Text,
    plan: &Plan,
    front: &[u8],
    object: Handle,
) -> Result<(), Memory>
    ensures { OnOk result (out.new ≡ out.old ++ (front.now ++ object_text plan.now object)) }
{
    out.push(front)?;
    push_object(out, plan, object)
}

/// Adds bytes and a number.
pub(crate) fn push_counted(out: &mut Text, front: &[u8], number: usize) -> Result<(), Memory>
    ensures { OnOk result (out.new ≡ out.old ++ (front.now ++ decimal number)) }
{
    out.push(front)?;
    out.push_number(number as u64)
}

/// Adds bytes, an object and bytes.
pub(crate) fn push_between(
    out: &mut Text,
    plan: &Plan,
    front: &[u8],
    object: Handle,
    back: &[u8],
) -> Result<(), Memory>
    ensures { OnOk result (out.new ≡ out.old ++ (front.now ++ object_text plan.now object ++ back.now)) }
{
    push_with(out, plan, front, object)?;
    out.push(back)
}

/// Adds bytes, a number and bytes.
pub(crate) fn push_numbered(
    out: &mut Text,
    front: &[u8],
    number: usize,
    back: &[u8],
) -> Result<(), Memory>
    ensures { OnOk result (out.new ≡ out.old ++ (front.now ++ decimal number ++ back.now)) }
{
    push_counted(out, front, number)?;
    out.push(back)
}

/// Adds three pieces.
pub(crate) fn push_three(
    out: &mut Text,
    front: &[u8],
    middle: &[u8],
    back: &[u8],
) -> Result<(), Memory>
    ensures { OnOk result (out.new ≡ out.old ++ (front.now ++ middle.now ++ back.now)) }
{
    out.push(front)?;
    out.push(middle)?;
    out.push(back)
}

/// Adds a name that may be there.
fn push_named(out: &mut Text, plan: &Plan, name: Option<u32>) -> Result<(), Memory>
    ensures { OnOk result (out.new ≡ out.old ++ named plan.now name) }
{
    match name {
        Some(name) => out.push(name_bytes(plan, name)),
        None => Ok(()),
    }
}

/// Adds a register.
fn push_register(out: &mut Text, plan: &Plan, register: u32) -> Result<(), Memory>
    ensures { OnOk result (out.new ≡ out.old ++ register_text plan.now register) }
{
    push_named(out, plan, register_name(plan, register))
}

/// Adds a value.
fn push_value(out: &mut Text, plan: &Plan, value: Value) -> Result<(), Memory>
    ensures { OnOk result (out.new ≡ out.old ++ value_text plan.now value) }
{
    match value {
        Value::Num(number) => out.push_number(number),
        Value::Obj(object) => push_object(out, plan, object),
        Value::Stat(status) => out.push(status.word().as_bytes()),
    }
}

/// Adds an argument of a call.
fn push_argument(out: &mut Text, plan: &Plan, argument: Arg) -> Result<(), Memory>
    ensures { OnOk result (out.new ≡ out.old ++ argument_text plan.now argument) }
{
    match argument {
        Arg::Val(value) => push_value(out, plan, value),
        Arg::Class(class) => push_named(out, plan, class_name(plan, class)),
    }
}

/// Adds a blank and an argument of a call.
fn push_spaced(out: &mut Text, plan: &Plan, argument: Arg) -> Result<(), Memory>
    ensures { OnOk result (out.new ≡ out.old ++ (codes " " ++ argument_text plan.now argument)) }
{
    out.push(b" ")?;
    push_argument(out, plan, argument)
}

/// Adds the arguments of a call, each after a blank.
fn push_arguments(out: &mut Text, plan: &Plan, call: &Call) -> Result<(), Memory>
    ensures { OnOk result (out.new ≡ out.old ++ spaced (argument_words plan.now call.now)) }
{
    if call.count > 0 {
        push_spaced(out, plan, call.a)?;
    }
    if call.count > 1 {
        push_spaced(out, plan, call.b)?;
    }
    if call.count > 2 {
        push_spaced(out, plan, call.c)?;
    }
    Ok(())
}

/// Adds a call with its arguments.
fn push_call(out: &mut Text, plan: &Plan, call: &Call) -> Result<(), Memory>
    ensures { OnOk result (out.new ≡ out.old ++ call_text plan.now call.now) }
{
    out.push(call.kind.word().as_bytes())?;
    push_arguments(out, plan, call)
}

/// Adds bytes and a call.
fn push_do(out: &mut Text, plan: &Plan, call: &Call) -> Result<(), Memory>
    ensures { OnOk result (out.new ≡ out.old ++ (codes "call " ++ call_text plan.now call.now)) }
{
    out.push(b"call ")?;
    push_call(out, plan, call)
}

/// Adds bytes and a value.
fn push_with_value(out: &mut Text, plan: &Plan, front: &[u8], value: Value) -> Result<(), Memory>
    ensures { OnOk result (out.new ≡ out.old ++ (front.now ++ value_text plan.now value)) }
{
    out.push(front)?;
    push_value(out, plan, value)
}

/// Adds the reading of a register.
fn push_get(out: &mut Text, plan: &Plan, register: u32) -> Result<(), Memory>
    ensures { OnOk result (out.new ≡ out.old ++ (codes "get " ++ register_text plan.now register)) }
{
    out.push(b"get ")?;
    push_register(out, plan, register)
}

/// Adds the writing of a register.
fn push_put(out: &mut Text, plan: &Plan, register: u32, value: u64) -> Result<(), Memory>
    ensures { OnOk result (out.new ≡ out.old ++ (codes "put " ++ register_text plan.now register ++ codes " " ++ decimal value)) }
{
    out.push(b"put ")?;
    push_register(out, plan, register)?;
    out.push(b" ")?;
    out.push_number(value)
}

/// Adds the spending of ticks.
fn push_spend(out: &mut Text, ticks: u64) -> Result<(), Memory>
    ensures { OnOk result (out.new ≡ out.old ++ (codes "spend " ++ decimal ticks)) }
{
    out.push(b"spend ")?;
    out.push_number(ticks)
}

/// Adds what a frame is about to do.
pub(crate) fn push_intent(out: &mut Text, plan: &Plan, intent: &Intent) -> Result<(), Memory>
    ensures { OnOk result (out.new ≡ out.old ++ intent_text plan.now intent.now) }
{
    match *intent {
        Intent::Do(call) => push_do(out, plan, &call),
        Intent::Return(value) => push_with_value(out, plan, b"return ", value),
        Intent::Get(register) => push_get(out, plan, register),
        Intent::Put { register, value } => push_put(out, plan, register, value),
        Intent::Broken => out.push(b"do a statement that has no meaning"),
        Intent::Local { .. } => out.push(b"go on"),
        Intent::Log(value) => push_with_value(out, plan, b"log ", value),
        Intent::Spend(ticks) => push_spend(out, ticks),
    }
}
