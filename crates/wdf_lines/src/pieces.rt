ghost use Rattle.std.specs.Prelude.{◌≡◌, ◌+◌, ◌<◌, ◌≤◌, ◌^◌, ◌++◌, ◌∷◌, [], length, IfSome, codes, decimal, Option, Some, None, option_map, position, slice_get};
ghost use Rattle.wdf_base.specs.Kinds.{class_name};
ghost use Rattle.wdf_base.specs.Resolved.{agent_name, register_name};
ghost use Rattle.wdf_base.specs.Words.{callback_word, call_word, status_word, fault_word, stage_word, ask_word};
ghost use Rattle.wdf_lines.specs.Lines.{spaced, name_text, named, object_text, class_text, register_text, is_poster, id_text, poster_text, agent_text, cpu_text, value_text, argument_text, argument_words, optional_words, answer_text};

use crate::line::{LINE_LIMIT, Line};
use wdf_base::{
    Arg, Ask, Call, CallKind, Callback, Cpu, Declared, Fault, Handle, Plan, Stage, Status, Value,
};

/// The bytes of the name with this number, none where there is no such name.
pub fn name_bytes(plan: &Plan, name: u32) -> &[u8]
    ensures value { result.now ≡ name_text plan.now name }
    ensures small { length result.now ≤ 32 }
{
    match plan.names.as_slice().get(name as usize) {
        Some(name) => name.bytes(),
        None => b"",
    }
}

/// The bytes of a name that may be there.
fn named_bytes(plan: &Plan, name: Option<u32>) -> &[u8]
    ensures value { result.now ≡ named plan.now name }
    ensures small { length result.now ≤ 32 }
{
    match name {
        Some(name) => name_bytes(plan, name),
        None => b"",
    }
}

/// The number of the name of a class; `None` where the plan has no such class.
pub fn class_name(plan: &Plan, class: u16) -> Option<u32>
    ensures { result ≡ option_map class_name (slice_get plan.now.classes class) }
{
    let class = plan.classes.as_slice().get(class as usize)?;
    Some(class.name())
}

/// The number of the name of a register; `None` where the plan has no such register.
pub fn register_name(plan: &Plan, register: u32) -> Option<u32>
    ensures { result ≡ option_map register_name (slice_get plan.now.registers register) }
{
    let register = plan.registers.as_slice().get(register as usize)?;
    Some(register.name)
}

/// The number of the name of agent `place + 1`.
fn agent_name(plan: &Plan, place: u16) -> Option<u32>
    ensures { result ≡ option_map agent_name (slice_get plan.now.agents place) }
{
    let agent = plan.agents.as_slice().get(place as usize)?;
    Some(agent.name)
}

/// Whether a declared object is a device or a target with this name.
fn is_poster(declared: &Declared, name: u32) -> bool
    ensures { result ≡ is_poster name declared.now }
{
    match declared {
        Declared::Device(device) => device.name == name,
        Declared::Target(target) => target.name == name,
        _ => false,
    }
}

/// The place of the device or target with this name among what is declared.
fn poster_place(plan: &Plan, name: u32) -> Option<usize>
    ensures value { result ≡ position (is_poster name) plan.now.declared }
    ensures small { IfSome result (λ k. k < 2 ^ 32) }
{
    plan.declared
        .as_slice()
        .iter()
        .position(|declared| is_poster(declared, name))
}

/// The bytes of the word of a callback.
#[tactic(auto, using(crate::proofs::WordSizes::callback_word_short))]
pub fn callback_bytes(callback: Callback) -> &'static [u8]
    ensures value { result.now ≡ callback_word callback }
    ensures small { length result.now ≤ 40 }
{
    callback.word().as_bytes()
}

/// The bytes of the word of a framework call.
#[tactic(auto, using(crate::proofs::WordSizes::call_word_short))]
fn call_bytes(kind: CallKind) -> &'static [u8]
    ensures value { result.now ≡ call_word kind }
    ensures small { length result.now ≤ 40 }
{
    kind.word().as_bytes()
}

/// The bytes of the word of a status.
#[tactic(auto, using(crate::proofs::WordSizes::status_word_short))]
pub fn status_bytes(status: Status) -> &'static [u8]
    ensures value { result.now ≡ status_word status }
    ensures small { length result.now ≤ 40 }
{
    status.word().as_bytes()
}

/// The bytes of the word of a fault.
#[tactic(auto, using(crate::proofs::WordSizes::fault_word_short))]
pub fn fault_bytes(fault: Fault) -> &'static [u8]
    ensures value { result.now ≡ fault_word fault }
    ensures small { length result.now ≤ 40 }
{
    fault.word().as_bytes()
}

/// The bytes of the word of a stage.
#[tactic(auto, using(crate::proofs::WordSizes::stage_word_short))]
pub fn stage_bytes(stage: Stage) -> &'static [u8]
    ensures value { result.now ≡ stage_word stage }
    ensures small { length result.now ≤ 40 }
{
    stage.word().as_bytes()
}

/// The bytes of the word of what the Plug and Play manager asks.
#[tactic(auto, using(crate::proofs::WordSizes::ask_word_short))]
pub fn ask_bytes(ask: Ask) -> &'static [u8]
    ensures value { result.now ≡ ask_word ask }
    ensures small { length result.now ≤ 40 }
{
    ask.word().as_bytes()
}

/// Adds an object with no blank before it.
pub fn push_first_object(line: &mut Line, plan: &Plan, object: Handle)
    requires { length line.old + 53 ≤ LINE_LIMIT }
    ensures value { line.new ≡ line.old ++ object_text plan.now object }
    ensures length { length line.new ≤ length line.old + 53 }
{
    line.push(name_bytes(plan, object.name));
    line.push(b".");
    line.push_digits(u64::from(object.id.0));
}

/// Adds a blank and an object.
pub fn push_object(line: &mut Line, plan: &Plan, object: Handle)
    requires { length line.old + 54 ≤ LINE_LIMIT }
    ensures value { line.new ≡ line.old ++ (codes " " ++ object_text plan.now object) }
    ensures length { length line.new ≤ length line.old + 54 }
{
    line.push(b" ");
    push_first_object(line, plan, object);
}

/// Adds a blank and the name of a class.
fn push_class(line: &mut Line, plan: &Plan, class: u16)
    requires { length line.old + 33 ≤ LINE_LIMIT }
    ensures value { line.new ≡ line.old ++ (codes " " ++ class_text plan.now class) }
    ensures length { length line.new ≤ length line.old + 33 }
{
    line.push_word(named_bytes(plan, class_name(plan, class)));
}

/// Adds a blank and the name of a register.
pub fn push_register(line: &mut Line, plan: &Plan, register: u32)
    requires { length line.old + 33 ≤ LINE_LIMIT }
    ensures value { line.new ≡ line.old ++ (codes " " ++ register_text plan.now register) }
    ensures length { length line.new ≤ length line.old + 33 }
{
    line.push_word(named_bytes(plan, register_name(plan, register)));
}

/// Adds a dot and the id at this place, if there is one. Ids count from 1.
fn push_id(line: &mut Line, place: Option<usize>)
    requires room { length line.old + 21 ≤ LINE_LIMIT }
    requires small { IfSome place (λ k. k < 2 ^ 32) }
    ensures value { line.new ≡ line.old ++ id_text place }
    ensures length { length line.new ≤ length line.old + 21 }
{
    if let Some(place) = place {
        line.push(b".");
        line.push_digits(place as u64 + 1);
    }
}

/// Adds a blank and an app by its name, a device or a target by its name and its id.
fn push_poster(line: &mut Line, plan: &Plan, name: Option<u32>)
    requires { length line.old + 54 ≤ LINE_LIMIT }
    ensures value { line.new ≡ line.old ++ (codes " " ++ poster_text plan.now name) }
    ensures length { length line.new ≤ length line.old + 54 }
{
    line.push_word(named_bytes(plan, name));
    if let Some(name) = name {
        push_id(line, poster_place(plan, name));
    }
}

/// Adds a blank and an agent.
pub fn push_agent(line: &mut Line, plan: &Plan, agent: u16)
    requires { length line.old + 54 ≤ LINE_LIMIT }
    ensures value { line.new ≡ line.old ++ (codes " " ++ agent_text plan.now agent) }
    ensures length { length line.new ≤ length line.old + 54 }
{
    if agent == 0 {
        line.push_word(b"pnp");
    } else {
        push_poster(line, plan, agent_name(plan, agent - 1));
    }
}

/// Adds a blank and a processor.
pub fn push_cpu(line: &mut Line, cpu: Cpu)
    requires { length line.old + 24 ≤ LINE_LIMIT }
    ensures value { line.new ≡ line.old ++ (codes " " ++ cpu_text cpu) }
    ensures length { length line.new ≤ length line.old + 24 }
{
    line.push_word(b"cpu");
    line.push_digits(u64::from(cpu.0));
}

/// Adds a blank and a value.
pub fn push_value(line: &mut Line, plan: &Plan, value: Value)
    requires { length line.old + 54 ≤ LINE_LIMIT }
    ensures value { line.new ≡ line.old ++ (codes " " ++ value_text plan.now value) }
    ensures length { length line.new ≤ length line.old + 54 }
{
    match value {
        Value::Num(number) => line.push_number(number),
        Value::Obj(object) => push_object(line, plan, object),
        Value::Stat(status) => line.push_word(status_bytes(status)),
    }
}

/// Adds a blank and an argument of a call.
fn push_argument(line: &mut Line, plan: &Plan, argument: Arg)
    requires { length line.old + 54 ≤ LINE_LIMIT }
    ensures value { line.new ≡ line.old ++ (codes " " ++ argument_text plan.now argument) }
    ensures length { length line.new ≤ length line.old + 54 }
{
    match argument {
        Arg::Val(value) => push_value(line, plan, value),
        Arg::Class(class) => push_class(line, plan, class),
    }
}

/// Adds the arguments of a call, each after a blank.
fn push_arguments(line: &mut Line, plan: &Plan, call: &Call)
    requires { length line.old + 162 ≤ LINE_LIMIT }
    ensures value { line.new ≡ line.old ++ spaced (argument_words plan.now call.now) }
    ensures length { length line.new ≤ length line.old + 162 }
{
    if call.count > 0 {
        push_argument(line, plan, call.a);
    }
    if call.count > 1 {
        push_argument(line, plan, call.b);
    }
    if call.count > 2 {
        push_argument(line, plan, call.c);
    }
}

/// Adds the words of a call, each after a blank.
pub fn push_call(line: &mut Line, plan: &Plan, call: &Call)
    requires { length line.old + 203 ≤ LINE_LIMIT }
    ensures value { line.new ≡ line.old ++ spaced (call_word call.now.kind ∷ argument_words plan.now call.now) }
    ensures length { length line.new ≤ length line.old + 203 }
{
    line.push_word(call_bytes(call.kind));
    push_arguments(line, plan, call);
}

/// Adds a blank and an object where there is one.
pub fn push_optional(line: &mut Line, plan: &Plan, object: Option<Handle>)
    requires { length line.old + 54 ≤ LINE_LIMIT }
    ensures value { line.new ≡ line.old ++ spaced (optional_words plan.now object) }
    ensures length { length line.new ≤ length line.old + 54 }
{
    if let Some(object) = object {
        push_object(line, plan, object);
    }
}

/// Adds an arrow and the answer to a post.
pub fn push_answer(line: &mut Line, plan: &Plan, answer: Option<Handle>)
    requires { length line.old + 57 ≤ LINE_LIMIT }
    ensures value { line.new ≡ line.old ++ spaced (codes "->" ∷ answer_text plan.now answer ∷ []) }
    ensures length { length line.new ≤ length line.old + 57 }
{
    line.push_word(b"->");
    match answer {
        Some(request) => push_object(line, plan, request),
        None => line.push_word(b"none"),
    }
}

/// Adds a blank, this word, a blank and an object.
pub fn push_word_object(line: &mut Line, plan: &Plan, word: &[u8], object: Handle)
    requires room { length line.old + 95 ≤ LINE_LIMIT }
    requires short { length word.now ≤ 40 }
    ensures value { line.new ≡ line.old ++ spaced (word.now ∷ object_text plan.now object ∷ []) }
    ensures length { length line.new ≤ length line.old + 95 }
{
    line.push_word(word);
    push_object(line, plan, object);
}

/// Adds a blank, this word, a blank and a number.
pub fn push_word_number(line: &mut Line, word: &[u8], number: u64)
    requires room { length line.old + 62 ≤ LINE_LIMIT }
    requires short { length word.now ≤ 40 }
    ensures value { line.new ≡ line.old ++ spaced (word.now ∷ decimal number ∷ []) }
    ensures length { length line.new ≤ length line.old + 62 }
{
    line.push_word(word);
    line.push_number(number);
}
