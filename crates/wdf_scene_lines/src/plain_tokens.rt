//! The tokens of the lines without expressions and picks.
ghost use Rattle.std.specs.Prelude.{◌≡◌, ◌++◌, ◌∷◌, [], OnOk};
ghost use Rattle.wdf_tokens.specs.WordTokens.{word};
ghost use Rattle.wdf_scene_lines.specs.Spelling as spelling;

use wdf_base::{
    Access, Ask, DeferredKind, DispatchKind, ExecutionLevel, Memory, Name, Scope, Status,
};
use wdf_scene::{InterruptLevel, SceneAction, SceneLine};
use wdf_tokens::{
    Keyword, Token, access_token, ask_token, callback_token, deferred_kind_token, form_token,
    keyword_token as key, level_token, plain_kind_token, scope_token, status_token,
};

/// Adds tokens at the end.
pub fn add(tokens: &mut Vec<Token>, more: &[Token]) -> Result<(), Memory>
    ensures { OnOk result (tokens.new.items ≡ tokens.old.items ++ more.now) }
{
    tokens.extend_from_slice(more)?;
    Ok(())
}

/// Adds a word of the language.
fn add_key(tokens: &mut Vec<Token>, keyword: Keyword) -> Result<(), Memory>
    ensures { OnOk result (tokens.new.items ≡ tokens.old.items ++ word keyword ∷ []) }
{
    add(tokens, &[key(keyword)])
}

/// Adds a word of the language and a token.
fn add_with(tokens: &mut Vec<Token>, keyword: Keyword, token: Token) -> Result<(), Memory>
    ensures { OnOk result (tokens.new.items ≡ tokens.old.items ++ word keyword ∷ token ∷ []) }
{
    add(tokens, &[key(keyword), token])
}

/// Adds a word of the language, a name and a token.
fn add_named(
    tokens: &mut Vec<Token>,
    keyword: Keyword,
    name: Name,
    token: Token,
) -> Result<(), Memory>
    ensures { OnOk result (tokens.new.items ≡ tokens.old.items ++ word keyword ∷ Token.Word name ∷ token ∷ []) }
{
    add(tokens, &[key(keyword), Token::Word(name), token])
}

/// Adds what an app does: reads from a device or writes to it.
fn add_transfer(
    tokens: &mut Vec<Token>,
    tick: u64,
    verb: Keyword,
    device: Name,
    length: u64,
) -> Result<(), Memory>
    ensures { OnOk result (tokens.new.items ≡ tokens.old.items ++ word Keyword.At ∷ Token.Number tick ∷ word verb ∷ Token.Word device ∷ Token.Number length ∷ []) }
{
    add(
        tokens,
        &[
            key(Keyword::At),
            Token::Number(tick),
            key(verb),
            Token::Word(device),
            Token::Number(length),
        ],
    )
}

fn add_target(
    tokens: &mut Vec<Token>,
    name: Name,
    delay: u64,
    status: Status,
    depth: u64,
) -> Result<(), Memory>
    ensures { OnOk result (tokens.new.items ≡ tokens.old.items ++ spelling.plain_tokens (SceneLine.Target name delay status depth)) }
{
    add(
        tokens,
        &[
            key(Keyword::Target),
            Token::Word(name),
            Token::Number(delay),
            status_token(status),
            Token::Number(depth),
        ],
    )
}

fn add_control(
    tokens: &mut Vec<Token>,
    tick: u64,
    device: Name,
    code: u64,
    length: u64,
) -> Result<(), Memory>
    ensures { OnOk result (tokens.new.items ≡ tokens.old.items ++ spelling.plain_tokens (SceneLine.AtControl tick device code length)) }
{
    add(
        tokens,
        &[
            key(Keyword::At),
            Token::Number(tick),
            key(Keyword::Control),
            Token::Word(device),
            Token::Number(code),
            Token::Number(length),
        ],
    )
}

fn add_cancel(tokens: &mut Vec<Token>, tick: u64, request: u64) -> Result<(), Memory>
    ensures { OnOk result (tokens.new.items ≡ tokens.old.items ++ spelling.plain_tokens (SceneLine.AtCancel tick request)) }
{
    add(
        tokens,
        &[
            key(Keyword::At),
            Token::Number(tick),
            key(Keyword::Cancel),
            Token::Number(request),
        ],
    )
}

fn add_ask(tokens: &mut Vec<Token>, tick: u64, ask: Ask, device: Name) -> Result<(), Memory>
    ensures { OnOk result (tokens.new.items ≡ tokens.old.items ++ spelling.plain_tokens (SceneLine.AtAsk tick ask device)) }
{
    add(
        tokens,
        &[
            key(Keyword::At),
            Token::Number(tick),
            ask_token(ask),
            Token::Word(device),
        ],
    )
}

fn add_get(tokens: &mut Vec<Token>, variable: Name, register: Name) -> Result<(), Memory>
    ensures { OnOk result (tokens.new.items ≡ tokens.old.items ++ spelling.plain_tokens (SceneLine.Get variable register)) }
{
    add(
        tokens,
        &[
            key(Keyword::Get),
            Token::Word(variable),
            Token::Assign,
            Token::Word(register),
        ],
    )
}

fn add_deferred(
    tokens: &mut Vec<Token>,
    name: Name,
    kind: DeferredKind,
    parent: &Option<Name>,
) -> Result<(), Memory>
    ensures { OnOk result (tokens.new.items ≡ tokens.old.items ++ spelling.plain_tokens (SceneLine.DeferredClass name kind parent.now)) }
{
    let kind = deferred_kind_token(kind);
    match parent {
        Some(parent) => add(
            tokens,
            &[
                key(Keyword::Class),
                Token::Word(name),
                kind,
                Token::Word(*parent),
            ],
        ),
        None => add(tokens, &[key(Keyword::Class), Token::Word(name), kind]),
    }
}

fn add_device(tokens: &mut Vec<Token>, name: Name, working: bool) -> Result<(), Memory>
    ensures { OnOk result (tokens.new.items ≡ tokens.old.items ++ spelling.plain_tokens (SceneLine.Device name working)) }
{
    if working {
        add(
            tokens,
            &[
                key(Keyword::Device),
                Token::Word(name),
                key(Keyword::Working),
            ],
        )
    } else {
        add(tokens, &[key(Keyword::Device), Token::Word(name)])
    }
}

fn level_token_of(level: InterruptLevel) -> Token
    ensures { result ≡ spelling.level_token level }
{
    match level {
        InterruptLevel::Numbered(level) => Token::Number(level),
        InterruptLevel::AtPassive => key(Keyword::Passive),
    }
}

fn add_queue(tokens: &mut Vec<Token>, name: Name, dispatch: DispatchKind) -> Result<(), Memory>
    ensures { OnOk result (tokens.new.items ≡ tokens.old.items ++ spelling.plain_tokens (SceneLine.Queue name dispatch)) }
{
    let name = Token::Word(name);
    match dispatch {
        DispatchKind::Sequential => {
            add(
                tokens,
                &[key(Keyword::Queue), name, key(Keyword::Sequential)],
            )
        }
        DispatchKind::Parallel(presented) => add(
            tokens,
            &[
                key(Keyword::Queue),
                name,
                key(Keyword::Parallel),
                Token::Number(presented),
            ],
        ),
        DispatchKind::Manual => add(tokens, &[key(Keyword::Queue), name, key(Keyword::Manual)]),
    }
}

fn scope_token_of(scope: Option<Scope>) -> Token
    ensures { result ≡ spelling.scope_token scope }
{
    match scope {
        Some(scope) => scope_token(scope),
        None => key(Keyword::Inherit),
    }
}

fn execution_token(level: Option<ExecutionLevel>) -> Token
    ensures { result ≡ spelling.execution_token level }
{
    match level {
        Some(level) => level_token(level),
        None => key(Keyword::Inherit),
    }
}

fn add_action(tokens: &mut Vec<Token>, action: &SceneAction) -> Result<(), Memory>
    ensures { OnOk result (tokens.new.items ≡ tokens.old.items ++ spelling.action_then action.now []) }
{
    match action {
        SceneAction::Set { register, value } => add(
            tokens,
            &[
                key(Keyword::Set),
                Token::Word(*register),
                Token::Number(*value),
            ],
        ),
        SceneAction::Raise { interrupt } => {
            add(tokens, &[key(Keyword::Raise), Token::Word(*interrupt)])
        }
        SceneAction::Lower { interrupt } => {
            add(tokens, &[key(Keyword::Lower), Token::Word(*interrupt)])
        }
    }
}

fn add_when(
    tokens: &mut Vec<Token>,
    access: Access,
    register: Name,
    action: &SceneAction,
    after: u64,
) -> Result<(), Memory>
    ensures { OnOk result (tokens.new.items ≡ tokens.old.items ++ spelling.plain_tokens (SceneLine.When access register action.now after)) }
{
    add(
        tokens,
        &[
            key(Keyword::When),
            access_token(access),
            Token::Word(register),
        ],
    )?;
    add_action(tokens, action)?;
    add(tokens, &[key(Keyword::After), Token::Number(after)])
}

fn add_at(tokens: &mut Vec<Token>, tick: u64, action: &SceneAction) -> Result<(), Memory>
    ensures { OnOk result (tokens.new.items ≡ tokens.old.items ++ spelling.plain_tokens (SceneLine.At tick action.now)) }
{
    add(tokens, &[key(Keyword::At), Token::Number(tick)])?;
    add_action(tokens, action)
}

/// Adds the tokens of a line; nothing for a line with expressions or picks.
pub fn add_plain(tokens: &mut Vec<Token>, form: &SceneLine) -> Result<(), Memory>
    ensures { OnOk result (tokens.new.items ≡ tokens.old.items ++ spelling.plain_tokens form.now) }
{
    match form {
        SceneLine::Cpus(n) => add_with(tokens, Keyword::Cpus, Token::Number(*n)),
        SceneLine::Limit(n) => add_with(tokens, Keyword::Limit, Token::Number(*n)),
        SceneLine::Objects(n) => add_with(tokens, Keyword::Objects, Token::Number(*n)),
        SceneLine::Driver => add_key(tokens, Keyword::Driver),
        SceneLine::Class { name, kind } => {
            add_named(tokens, Keyword::Class, *name, plain_kind_token(*kind))
        }
        SceneLine::DeferredClass { name, kind, parent } => add_deferred(
            tokens, *name, *kind, parent,
        ),
        SceneLine::Device { name, working } => add_device(tokens, *name, *working),
        SceneLine::Interrupt { name, level } => {
            add_named(tokens, Keyword::Interrupt, *name, level_token_of(*level))
        }
        SceneLine::Queue { name, dispatch } => add_queue(tokens, *name, *dispatch),
        SceneLine::Target {
            name,
            delay,
            status,
            depth,
        } => add_target(tokens, *name, *delay, *status, *depth),
        SceneLine::App { name } => add_with(tokens, Keyword::App, Token::Word(*name)),
        SceneLine::Pnp => add_key(tokens, Keyword::Pnp),
        SceneLine::Order => add_key(tokens, Keyword::Order),
        SceneLine::On { callback } => add_with(tokens, Keyword::On, callback_token(*callback)),
        SceneLine::End => add_key(tokens, Keyword::End),
        SceneLine::Scope { scope } => add_with(tokens, Keyword::Scope, scope_token_of(*scope)),
        SceneLine::Level { level } => add_with(tokens, Keyword::Level, execution_token(*level)),
        SceneLine::Serialize => add_key(tokens, Keyword::Serialize),
        SceneLine::Period { ticks } => add_with(tokens, Keyword::Period, Token::Number(*ticks)),
        SceneLine::Register { name, value } => {
            add_named(tokens, Keyword::Register, *name, Token::Number(*value))
        }
        SceneLine::When {
            access,
            register,
            action,
            after,
        } => add_when(tokens, *access, *register, action, *after),
        SceneLine::At { tick, action } => add_at(tokens, *tick, action),
        SceneLine::Default => add_key(tokens, Keyword::Default),
        SceneLine::For { form } => add_with(tokens, Keyword::For, form_token(*form)),
        SceneLine::PowerOff => add_with(tokens, Keyword::Power, key(Keyword::Off)),
        SceneLine::Zero => add_key(tokens, Keyword::Zero),
        SceneLine::AtRead {
            tick,
            device,
            length,
        } => add_transfer(tokens, *tick, Keyword::Read, *device, *length),
        SceneLine::AtWrite {
            tick,
            device,
            length,
        } => add_transfer(tokens, *tick, Keyword::Write, *device, *length),
        SceneLine::AtControl {
            tick,
            device,
            code,
            length,
        } => add_control(tokens, *tick, *device, *code, *length),
        SceneLine::AtCancel { tick, request } => add_cancel(tokens, *tick, *request),
        SceneLine::AtAsk { tick, ask, device } => add_ask(tokens, *tick, *ask, *device),
        SceneLine::Get { variable, register } => add_get(tokens, *variable, *register),
        SceneLine::Else => add_key(tokens, Keyword::Else),
        _ => Ok(()),
    }
}
