//! A line is read: its form, and its expressions into the scene.
ghost use Rattle.std.specs.Prelude.{◌≡◌, ◌+◌, ◌<◌, ◌≤◌, ◌^◌, length, IfOk, OnOk, IfSome, Some, option_map, drop};
ghost use Rattle.std.specs.List.{list_all};
ghost use Rattle.wdf_base.specs.Calls.{signature_of};
ghost use Rattle.wdf_scene.specs.declared.scene.Scene.{Scene};
ghost use Rattle.wdf_scene.specs.Written.{head_line};
ghost use Rattle.wdf_scene_lines.specs.Reading as reading;
ghost use Rattle.wdf_scene_lines.specs.Building.{IsLineRead, IsFormRead};

use crate::cursor::Cursor;
use crate::exprs::{read_argument, read_tree};
use crate::forms::plain_line;
use wdf_base::{CallKind, Memory, Name};
use wdf_scene::{SceneBuilder, SceneLine, StatementHead};
use wdf_tokens::{Keyword, Token, call_named, keyword_named};

/// How deep the parentheses of an expression may nest.
pub const EXPRESSION_DEPTH: u8 = 16;

/// The front of a statement with one expression.
#[derive(Clone, Copy)]
struct Front {
    head: StatementHead,
    /// How many tokens after the first word belong to it.
    used: usize,
}

/// A line that is read, but for its picks and its number.
#[derive(Clone, Copy)]
pub enum Form {
    /// A line without picks.
    Line(SceneLine),
    /// The line `picks`; the tokens after the word are its numbers.
    Picked,
}

/// The front of a call.
#[derive(Clone, Copy)]
struct CallFront {
    kind: CallKind,
    into: Option<Name>,
    /// How many tokens after the first word belong to it.
    used: usize,
}

fn let_front(tokens: &[Token]) -> Option<Front>
    ensures front { result ≡ reading.let_front tokens.now }
    ensures within { IfSome result (λ f. f.used ≤ length tokens.now) }
{
    match tokens {
        [Token::Word(variable), Token::Assign, ..] => Some(Front {
            head: StatementHead::Let(*variable),
            used: 2,
        }),
        _ => None,
    }
}

fn put_front(tokens: &[Token]) -> Option<Front>
    ensures front { result ≡ reading.put_front tokens.now }
    ensures within { IfSome result (λ f. f.used ≤ length tokens.now) }
{
    match tokens {
        [Token::Word(register), ..] => Some(Front {
            head: StatementHead::Put(*register),
            used: 1,
        }),
        _ => None,
    }
}

fn bare_front(head: StatementHead) -> Option<Front>
    ensures { result ≡ Some (reading.front head 0) }
{
    Some(Front { head, used: 0 })
}

fn read_front(first: Keyword, tokens: &[Token]) -> Option<Front>
    ensures front { result ≡ reading.read_front first tokens.now }
    ensures within { IfSome result (λ f. f.used ≤ length tokens.now) }
{
    match first {
        Keyword::Let => let_front(tokens),
        Keyword::Put => put_front(tokens),
        Keyword::If => bare_front(StatementHead::If),
        Keyword::Repeat => bare_front(StatementHead::Repeat),
        Keyword::Spend => bare_front(StatementHead::Spend),
        Keyword::Log => bare_front(StatementHead::Log),
        Keyword::Return => bare_front(StatementHead::Return),
        _ => None,
    }
}

fn head_line(head: StatementHead, value: u32) -> SceneLine
    ensures { result ≡ head_line head value }
{
    match head {
        StatementHead::Let(variable) => SceneLine::Let { variable, value },
        StatementHead::Put(register) => SceneLine::Put { register, value },
        StatementHead::If => SceneLine::If { test: value },
        StatementHead::Repeat => SceneLine::Repeat { count: value },
        StatementHead::Spend => SceneLine::Spend { ticks: value },
        StatementHead::Log => SceneLine::Log { value },
        StatementHead::Return => SceneLine::Return { value },
    }
}

fn read_single(
    builder: &mut SceneBuilder,
    head: StatementHead,
    tokens: &[Token],
) -> Result<Option<SceneLine>, Memory>
    requires { length builder.old.exprs + length tokens.now < 2 ^ 32 }
    ensures read { IfOk result (λ form. IsLineRead (reading.single_of head (reading.whole_tree (reading.read_tree 16 tokens.now))) form builder.old builder.new) }
    ensures room { OnOk result (length builder.new.exprs ≤ length builder.old.exprs + length tokens.now) }
    ensures lines { OnOk result (builder.new.lines ≡ builder.old.lines) }
{
    let mut cursor = Cursor::new(tokens);
    let Some(root) = read_tree(builder, &mut cursor, EXPRESSION_DEPTH)? else {
        return Ok(None);
    };
    if !cursor.is_empty() {
        return Ok(None);
    }
    Ok(Some(head_line(head, root)))
}

fn read_statement(
    builder: &mut SceneBuilder,
    front: Option<Front>,
    tokens: &[Token],
) -> Result<Option<SceneLine>, Memory>
    requires within { IfSome front (λ f. f.used ≤ length tokens.now) }
    requires room { length builder.old.exprs + length tokens.now < 2 ^ 32 }
    ensures read { IfOk result (λ form. IsLineRead (reading.single_after front tokens.now) form builder.old builder.new) }
    ensures room { OnOk result (length builder.new.exprs ≤ length builder.old.exprs + length tokens.now) }
    ensures lines { OnOk result (builder.new.lines ≡ builder.old.lines) }
{
    match front {
        Some(front) => read_single(builder, front.head, &tokens[front.used..]),
        None => Ok(None),
    }
}

fn call_front_of(kind: Option<CallKind>, into: Option<Name>, used: usize) -> Option<CallFront>
    ensures front { result ≡ reading.call_front_of kind into used }
    ensures used { IfSome result (λ f. f.used ≡ used) }
{
    match kind {
        Some(kind) => Some(CallFront { kind, into, used }),
        None => None,
    }
}

fn call_front(tokens: &[Token]) -> Option<CallFront>
    ensures front { result ≡ reading.call_front tokens.now }
    ensures within { IfSome result (λ f. f.used ≤ length tokens.now) }
{
    match tokens {
        [Token::Word(variable), Token::Assign, Token::Word(name), ..] => {
            call_front_of(call_named(name), Some(*variable), 3)
        }
        [Token::Word(name), ..] => call_front_of(call_named(name), None, 1),
        _ => None,
    }
}

fn read_arguments(
    builder: &mut SceneBuilder,
    kind: CallKind,
    into: Option<Name>,
    tokens: &[Token],
) -> Result<Option<SceneLine>, Memory>
    requires { length builder.old.exprs + length tokens.now < 2 ^ 32 }
    ensures read { IfOk result (λ form. IsLineRead (reading.first_read kind into (reading.read_argument (signature_of kind).a tokens.now)) form builder.old builder.new) }
    ensures room { OnOk result (length builder.new.exprs ≤ length builder.old.exprs + length tokens.now) }
    ensures lines { OnOk result (builder.new.lines ≡ builder.old.lines) }
{
    let signature = kind.signature();
    let mut cursor = Cursor::new(tokens);
    let Some(a) = read_argument(builder, &mut cursor, signature.a)? else {
        return Ok(None);
    };
    let Some(b) = read_argument(builder, &mut cursor, signature.b)? else {
        return Ok(None);
    };
    let Some(c) = read_argument(builder, &mut cursor, signature.c)? else {
        return Ok(None);
    };
    if !cursor.is_empty() {
        return Ok(None);
    }
    Ok(Some(SceneLine::Call {
        kind,
        into,
        a,
        b,
        c,
    }))
}

fn read_call(
    builder: &mut SceneBuilder,
    front: Option<CallFront>,
    tokens: &[Token],
) -> Result<Option<SceneLine>, Memory>
    requires within { IfSome front (λ f. f.used ≤ length tokens.now) }
    requires room { length builder.old.exprs + length tokens.now < 2 ^ 32 }
    ensures read { IfOk result (λ form. IsLineRead (reading.call_after front tokens.now) form builder.old builder.new) }
    ensures room { OnOk result (length builder.new.exprs ≤ length builder.old.exprs + length tokens.now) }
    ensures lines { OnOk result (builder.new.lines ≡ builder.old.lines) }
{
    match front {
        Some(front) => read_arguments(builder, front.kind, front.into, &tokens[front.used..]),
        None => Ok(None),
    }
}

fn is_number(token: &Token) -> bool
    ensures { result ≡ reading.is_number token.now }
{
    matches!(token, Token::Number(_))
}

fn are_numbers(tokens: &[Token]) -> bool
    ensures { result ≡ list_all reading.is_number tokens.now }
{
    tokens.iter().all(|token| is_number(token))
}

/// The line `picks`, if numbers come after the word.
fn picks_form(tokens: &[Token]) -> Option<Form>
    ensures { (s : Scene) → IsFormRead (reading.picks_written tokens.now) result tokens.now s s }
{
    if !tokens.is_empty() && are_numbers(tokens) {
        Some(Form::Picked)
    } else {
        None
    }
}

fn read_unpicked(
    builder: &mut SceneBuilder,
    first: Keyword,
    tokens: &[Token],
) -> Result<Option<SceneLine>, Memory>
    requires { length builder.old.exprs + length tokens.now < 2 ^ 32 }
    ensures read { IfOk result (λ form. IsLineRead (reading.read_unpicked first tokens.now) form builder.old builder.new) }
    ensures room { OnOk result (length builder.new.exprs ≤ length builder.old.exprs + length tokens.now) }
    ensures lines { OnOk result (builder.new.lines ≡ builder.old.lines) }
{
    match first {
        Keyword::Call => read_call(builder, call_front(tokens), tokens),
        Keyword::Let
        | Keyword::Put
        | Keyword::If
        | Keyword::Repeat
        | Keyword::Spend
        | Keyword::Log
        | Keyword::Return => read_statement(builder, read_front(first, tokens), tokens),
        _ => Ok(plain_line(first, tokens)),
    }
}

fn unpicked(line: Option<SceneLine>) -> Option<Form>
    ensures { result ≡ option_map (λ l. Form.Line l) line }
{
    match line {
        Some(line) => Some(Form::Line(line)),
        None => None,
    }
}

/// Reads the line with this first word and these tokens after it, but for its picks. After an error,
/// or None, nothing is said of the scene.
fn read_by(
    builder: &mut SceneBuilder,
    first: Keyword,
    tokens: &[Token],
) -> Result<Option<Form>, Memory>
    requires { length builder.old.exprs + length tokens.now < 2 ^ 32 }
    ensures read { IfOk result (λ form. IsFormRead (reading.read_by first tokens.now) form tokens.now builder.old builder.new) }
    ensures room { OnOk result (length builder.new.exprs ≤ length builder.old.exprs + length tokens.now) }
    ensures lines { OnOk result (builder.new.lines ≡ builder.old.lines) }
{
    match first {
        Keyword::Picks => Ok(picks_form(tokens)),
        _ => Ok(unpicked(read_unpicked(builder, first, tokens)?)),
    }
}

/// Reads the line that some tokens are, but for its picks: its form, and its expressions into the
/// scene. None if they are no line. After an error, or None, nothing is said of the scene.
#[tactic(auto, unfolding(crate::specs::Reading::read_written))]
pub fn read_line(builder: &mut SceneBuilder, tokens: &[Token]) -> Result<Option<Form>, Memory>
    requires { length builder.old.exprs + length tokens.now < 2 ^ 32 }
    ensures read { IfOk result (λ form. IsFormRead (reading.read_written tokens.now) form (drop 1 tokens.now) builder.old builder.new) }
    ensures room { OnOk result (length builder.new.exprs ≤ length builder.old.exprs + length tokens.now) }
    ensures lines { OnOk result (builder.new.lines ≡ builder.old.lines) }
{
    match tokens {
        [Token::Word(name), rest @ ..] => match keyword_named(name) {
            Some(first) => read_by(builder, first, rest),
            None => Ok(None),
        },
        _ => Ok(None),
    }
}
