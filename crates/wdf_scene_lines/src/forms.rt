//! The line forms without expressions: what the tokens after the first word are.
ghost use Rattle.std.specs.Prelude.{◌≡◌};
ghost use Rattle.wdf_scene_lines.specs.Forms as forms;

use wdf_base::{
    Access, Ask, Callback, DeferredKind, DispatchKind, ExecutionLevel, Name, PlainKind, Scope,
};
use wdf_scene::{InterruptLevel, SceneAction, SceneLine};
use wdf_tokens::{
    Keyword, Token, access_named, ask_named, callback_named, deferred_kind_named, form_named,
    keyword_named, level_named, plain_kind_named, scope_named, status_named,
};

fn bare(form: SceneLine, tokens: &[Token]) -> Option<SceneLine>
    ensures { result ≡ forms.bare form tokens.now }
{
    match tokens {
        [] => Some(form),
        _ => None,
    }
}

fn one_number(tokens: &[Token]) -> Option<u64>
    ensures { result ≡ forms.one_number tokens.now }
{
    match tokens {
        [Token::Number(number)] => Some(*number),
        _ => None,
    }
}

fn one_name(tokens: &[Token]) -> Option<Name>
    ensures { result ≡ forms.one_name tokens.now }
{
    match tokens {
        [Token::Word(name)] => Some(*name),
        _ => None,
    }
}

fn class_of(
    name: Name,
    plain: Option<PlainKind>,
    deferred: Option<DeferredKind>,
) -> Option<SceneLine>
    ensures { result ≡ forms.class_of name plain deferred }
{
    match (plain, deferred) {
        (Some(kind), _) => Some(SceneLine::Class { name, kind }),
        (None, Some(kind)) => Some(SceneLine::DeferredClass {
            name,
            kind,
            parent: None,
        }),
        (None, None) => None,
    }
}

fn child_class_of(name: Name, kind: Option<DeferredKind>, parent: Name) -> Option<SceneLine>
    ensures { result ≡ forms.child_class_of name kind parent }
{
    match kind {
        Some(kind) => Some(SceneLine::DeferredClass {
            name,
            kind,
            parent: Some(parent),
        }),
        None => None,
    }
}

fn class_line(tokens: &[Token]) -> Option<SceneLine>
    ensures { result ≡ forms.class_line tokens.now }
{
    match tokens {
        [Token::Word(name), Token::Word(kind)] => {
            class_of(*name, plain_kind_named(kind), deferred_kind_named(kind))
        }
        [Token::Word(name), Token::Word(kind), Token::Word(parent)] => {
            child_class_of(*name, deferred_kind_named(kind), *parent)
        }
        _ => None,
    }
}

fn working_device(name: Name, mark: Option<Keyword>) -> Option<SceneLine>
    ensures { result ≡ forms.working_device name mark }
{
    match mark {
        Some(Keyword::Working) => Some(SceneLine::Device {
            name,
            working: true,
        }),
        _ => None,
    }
}

fn device_line(tokens: &[Token]) -> Option<SceneLine>
    ensures { result ≡ forms.device_line tokens.now }
{
    match tokens {
        [Token::Word(name)] => Some(SceneLine::Device {
            name: *name,
            working: false,
        }),
        [Token::Word(name), Token::Word(mark)] => working_device(*name, keyword_named(mark)),
        _ => None,
    }
}

fn passive_interrupt(name: Name, mark: Option<Keyword>) -> Option<SceneLine>
    ensures { result ≡ forms.passive_interrupt name mark }
{
    match mark {
        Some(Keyword::Passive) => Some(SceneLine::Interrupt {
            name,
            level: InterruptLevel::AtPassive,
        }),
        _ => None,
    }
}

fn interrupt_line(tokens: &[Token]) -> Option<SceneLine>
    ensures { result ≡ forms.interrupt_line tokens.now }
{
    match tokens {
        [Token::Word(name), Token::Number(level)] => Some(SceneLine::Interrupt {
            name: *name,
            level: InterruptLevel::Numbered(*level),
        }),
        [Token::Word(name), Token::Word(mark)] => passive_interrupt(*name, keyword_named(mark)),
        _ => None,
    }
}

fn plain_queue(name: Name, kind: Option<Keyword>) -> Option<SceneLine>
    ensures { result ≡ forms.plain_queue name kind }
{
    let dispatch = match kind {
        Some(Keyword::Sequential) => DispatchKind::Sequential,
        Some(Keyword::Manual) => DispatchKind::Manual,
        _ => return None,
    };
    Some(SceneLine::Queue { name, dispatch })
}

fn parallel_queue(name: Name, kind: Option<Keyword>, presented: u64) -> Option<SceneLine>
    ensures { result ≡ forms.parallel_queue name kind presented }
{
    match kind {
        Some(Keyword::Parallel) => Some(SceneLine::Queue {
            name,
            dispatch: DispatchKind::Parallel(presented),
        }),
        _ => None,
    }
}

fn queue_line(tokens: &[Token]) -> Option<SceneLine>
    ensures { result ≡ forms.queue_line tokens.now }
{
    match tokens {
        [Token::Word(name), Token::Word(kind)] => plain_queue(*name, keyword_named(kind)),
        [
            Token::Word(name),
            Token::Word(kind),
            Token::Number(presented),
        ] => { parallel_queue(*name, keyword_named(kind), *presented) }
        _ => None,
    }
}

fn target_line(tokens: &[Token]) -> Option<SceneLine>
    ensures { result ≡ forms.target_line tokens.now }
{
    match tokens {
        [
            Token::Word(name),
            Token::Number(delay),
            Token::Word(status),
            Token::Number(depth),
        ] => match status_named(status) {
            Some(status) => Some(SceneLine::Target {
                name: *name,
                delay: *delay,
                status,
                depth: *depth,
            }),
            None => None,
        },
        _ => None,
    }
}

fn callback_line(tokens: &[Token]) -> Option<Callback>
    ensures { result ≡ forms.callback_line tokens.now }
{
    match tokens {
        [Token::Word(name)] => callback_named(name),
        [Token::LongName(callback)] => Some(*callback),
        _ => None,
    }
}

fn scope_by(word: Option<Keyword>, scope: Option<Scope>) -> Option<SceneLine>
    ensures { result ≡ forms.scope_by word scope }
{
    match (word, scope) {
        (Some(Keyword::Inherit), _) => Some(SceneLine::Scope { scope: None }),
        (_, Some(scope)) => Some(SceneLine::Scope { scope: Some(scope) }),
        (_, None) => None,
    }
}

fn scope_line(tokens: &[Token]) -> Option<SceneLine>
    ensures { result ≡ forms.scope_line tokens.now }
{
    match tokens {
        [Token::Word(word)] => scope_by(keyword_named(word), scope_named(word)),
        _ => None,
    }
}

fn level_by(word: Option<Keyword>, level: Option<ExecutionLevel>) -> Option<SceneLine>
    ensures { result ≡ forms.level_by word level }
{
    match (word, level) {
        (Some(Keyword::Inherit), _) => Some(SceneLine::Level { level: None }),
        (_, Some(level)) => Some(SceneLine::Level { level: Some(level) }),
        (_, None) => None,
    }
}

fn level_line(tokens: &[Token]) -> Option<SceneLine>
    ensures { result ≡ forms.level_line tokens.now }
{
    match tokens {
        [Token::Word(word)] => level_by(keyword_named(word), level_named(word)),
        _ => None,
    }
}

fn register_line(tokens: &[Token]) -> Option<SceneLine>
    ensures { result ≡ forms.register_line tokens.now }
{
    match tokens {
        [Token::Word(name), Token::Number(value)] => Some(SceneLine::Register {
            name: *name,
            value: *value,
        }),
        _ => None,
    }
}

fn set_action(verb: Option<Keyword>, register: Name, value: u64) -> Option<SceneAction>
    ensures { result ≡ forms.set_action verb register value }
{
    match verb {
        Some(Keyword::Set) => Some(SceneAction::Set { register, value }),
        _ => None,
    }
}

fn wire_action(verb: Option<Keyword>, interrupt: Name) -> Option<SceneAction>
    ensures { result ≡ forms.wire_action verb interrupt }
{
    match verb {
        Some(Keyword::Raise) => Some(SceneAction::Raise { interrupt }),
        Some(Keyword::Lower) => Some(SceneAction::Lower { interrupt }),
        _ => None,
    }
}

fn when_of(
    access: Option<Access>,
    register: Name,
    action: Option<SceneAction>,
    word: Option<Keyword>,
    after: u64,
) -> Option<SceneLine>
    ensures { result ≡ forms.when_of access register action word after }
{
    match (access, action, word) {
        (Some(access), Some(action), Some(Keyword::After)) => Some(SceneLine::When {
            access,
            register,
            action,
            after,
        }),
        _ => None,
    }
}

fn when_line(tokens: &[Token]) -> Option<SceneLine>
    ensures { result ≡ forms.when_line tokens.now }
{
    match tokens {
        [
            Token::Word(access),
            Token::Word(register),
            Token::Word(verb),
            Token::Word(interrupt),
            Token::Word(word),
            Token::Number(after),
        ] => when_of(
            access_named(access),
            *register,
            wire_action(keyword_named(verb), *interrupt),
            keyword_named(word),
            *after,
        ),
        [
            Token::Word(access),
            Token::Word(register),
            Token::Word(verb),
            Token::Word(target),
            Token::Number(value),
            Token::Word(word),
            Token::Number(after),
        ] => when_of(
            access_named(access),
            *register,
            set_action(keyword_named(verb), *target, *value),
            keyword_named(word),
            *after,
        ),
        _ => None,
    }
}

fn valued_at(tick: u64, verb: Option<Keyword>, name: Name, value: u64) -> Option<SceneLine>
    ensures { result ≡ forms.valued_at tick verb name value }
{
    match verb {
        Some(Keyword::Set) => Some(SceneLine::At {
            tick,
            action: SceneAction::Set {
                register: name,
                value,
            },
        }),
        Some(Keyword::Read) => Some(SceneLine::AtRead {
            tick,
            device: name,
            length: value,
        }),
        Some(Keyword::Write) => Some(SceneLine::AtWrite {
            tick,
            device: name,
            length: value,
        }),
        _ => None,
    }
}

fn named_at(tick: u64, verb: Option<Keyword>, ask: Option<Ask>, name: Name) -> Option<SceneLine>
    ensures { result ≡ forms.named_at tick verb ask name }
{
    match (verb, ask) {
        (Some(Keyword::Raise), _) => Some(SceneLine::At {
            tick,
            action: SceneAction::Raise { interrupt: name },
        }),
        (Some(Keyword::Lower), _) => Some(SceneLine::At {
            tick,
            action: SceneAction::Lower { interrupt: name },
        }),
        (_, Some(ask)) => Some(SceneLine::AtAsk {
            tick,
            ask,
            device: name,
        }),
        (_, None) => None,
    }
}

fn control_at(
    tick: u64,
    verb: Option<Keyword>,
    device: Name,
    code: u64,
    length: u64,
) -> Option<SceneLine>
    ensures { result ≡ forms.control_at tick verb device code length }
{
    match verb {
        Some(Keyword::Control) => Some(SceneLine::AtControl {
            tick,
            device,
            code,
            length,
        }),
        _ => None,
    }
}

fn cancel_at(tick: u64, verb: Option<Keyword>, request: u64) -> Option<SceneLine>
    ensures { result ≡ forms.cancel_at tick verb request }
{
    match verb {
        Some(Keyword::Cancel) => Some(SceneLine::AtCancel { tick, request }),
        _ => None,
    }
}

fn at_line(tokens: &[Token]) -> Option<SceneLine>
    ensures { result ≡ forms.at_line tokens.now }
{
    match tokens {
        [Token::Number(tick), Token::Word(verb), Token::Word(name)] => {
            named_at(*tick, keyword_named(verb), ask_named(verb), *name)
        }
        [
            Token::Number(tick),
            Token::Word(verb),
            Token::Word(name),
            Token::Number(value),
        ] => valued_at(*tick, keyword_named(verb), *name, *value),
        [
            Token::Number(tick),
            Token::Word(verb),
            Token::Word(device),
            Token::Number(code),
            Token::Number(length),
        ] => control_at(*tick, keyword_named(verb), *device, *code, *length),
        [
            Token::Number(tick),
            Token::Word(verb),
            Token::Number(request),
        ] => { cancel_at(*tick, keyword_named(verb), *request) }
        _ => None,
    }
}

fn for_line(tokens: &[Token]) -> Option<SceneLine>
    ensures { result ≡ forms.for_line tokens.now }
{
    match tokens {
        [Token::Word(word)] => match form_named(word) {
            Some(form) => Some(SceneLine::For { form }),
            None => None,
        },
        _ => None,
    }
}

fn power_by(word: Option<Keyword>) -> Option<SceneLine>
    ensures { result ≡ forms.power_by word }
{
    match word {
        Some(Keyword::Off) => Some(SceneLine::PowerOff),
        _ => None,
    }
}

fn power_line(tokens: &[Token]) -> Option<SceneLine>
    ensures { result ≡ forms.power_line tokens.now }
{
    match tokens {
        [Token::Word(word)] => power_by(keyword_named(word)),
        _ => None,
    }
}

fn get_line(tokens: &[Token]) -> Option<SceneLine>
    ensures { result ≡ forms.get_line tokens.now }
{
    match tokens {
        [Token::Word(variable), Token::Assign, Token::Word(register)] => Some(SceneLine::Get {
            variable: *variable,
            register: *register,
        }),
        _ => None,
    }
}

/// The line without expressions and picks with this first word and these tokens after it.
pub fn plain_line(first: Keyword, rest: &[Token]) -> Option<SceneLine>
    ensures { result ≡ forms.plain_line first rest.now }
{
    match first {
        Keyword::Cpus => one_number(rest).map(|n| SceneLine::Cpus(n)),
        Keyword::Limit => one_number(rest).map(|n| SceneLine::Limit(n)),
        Keyword::Objects => one_number(rest).map(|n| SceneLine::Objects(n)),
        Keyword::Driver => bare(SceneLine::Driver, rest),
        Keyword::Class => class_line(rest),
        Keyword::Device => device_line(rest),
        Keyword::Interrupt => interrupt_line(rest),
        Keyword::Queue => queue_line(rest),
        Keyword::Target => target_line(rest),
        Keyword::App => one_name(rest).map(|name| SceneLine::App { name }),
        Keyword::Pnp => bare(SceneLine::Pnp, rest),
        Keyword::Order => bare(SceneLine::Order, rest),
        Keyword::On => callback_line(rest).map(|callback| SceneLine::On { callback }),
        Keyword::End => bare(SceneLine::End, rest),
        Keyword::Scope => scope_line(rest),
        Keyword::Level => level_line(rest),
        Keyword::Serialize => bare(SceneLine::Serialize, rest),
        Keyword::Period => one_number(rest).map(|ticks| SceneLine::Period { ticks }),
        Keyword::Register => register_line(rest),
        Keyword::When => when_line(rest),
        Keyword::At => at_line(rest),
        Keyword::Default => bare(SceneLine::Default, rest),
        Keyword::For => for_line(rest),
        Keyword::Power => power_line(rest),
        Keyword::Zero => bare(SceneLine::Zero, rest),
        Keyword::Get => get_line(rest),
        Keyword::Else => bare(SceneLine::Else, rest),
        _ => None,
    }
}
