//! The tokens of the lines of a scene.
ghost use Rattle.std.specs.Prelude.{◌≡◌, ◌++◌, ◌∷◌, [], map, Some, OnOk};
ghost use Rattle.wdf_base.specs.Words.{call_word};
ghost use Rattle.wdf_tokens.specs.WordTokens.{word};
ghost use Rattle.wdf_scene_lines.specs.Spelling as spelling;
ghost use Rattle.wdf_scene_lines.specs.LineTokens as lines;

use crate::plain_tokens::{add, add_plain};
use crate::statements::EXPRESSION_DEPTH;
use wdf_base::{CallKind, Memory, Name};
use wdf_scene::{Scene, SceneArg, SceneExpr, SceneLine};
use wdf_tokens::{Keyword, Token, call_token, context_token, keyword_token as key, status_token};

fn add_leaf(tokens: &mut Vec<Token>, node: &SceneExpr) -> Result<(), Memory>
    ensures { OnOk result (tokens.new.items ≡ tokens.old.items ++ lines.leaf_tokens node.now) }
{
    match node {
        SceneExpr::Number(number) => add(tokens, &[Token::Number(*number)]),
        SceneExpr::Named(name) => add(tokens, &[Token::Word(*name)]),
        SceneExpr::Literal(status) => add(tokens, &[status_token(*status)]),
        SceneExpr::Context(part) => add(tokens, &[context_token(*part)]),
        SceneExpr::Binary { .. } => Ok(()),
    }
}

/// Adds the tokens of an expression whose parentheses nest at most `depth` deep.
#[cycle(print)]
fn add_expr(tokens: &mut Vec<Token>, scene: &Scene, e: u32, depth: u8) -> Result<(), Memory>
    ensures { OnOk result (tokens.new.items ≡ tokens.old.items ++ lines.expr_tokens depth scene.now.exprs e) }
{
    if e >= scene.expr_len() {
        return Ok(());
    }
    let node = scene.expr(e);
    if depth == 0 {
        add_leaf(tokens, &node)
    } else {
        add_node(tokens, scene, &node, depth - 1)
    }
}

/// Adds the tokens of a node, whose operands' parentheses nest at most `depth` deep.
#[cycle(print)]
fn add_node(
    tokens: &mut Vec<Token>,
    scene: &Scene,
    node: &SceneExpr,
    depth: u8,
) -> Result<(), Memory>
    ensures { OnOk result (tokens.new.items ≡ tokens.old.items ++ lines.node_tokens (lines.expr_tokens depth scene.now.exprs) node.now) }
{
    match node {
        SceneExpr::Binary {
            operator,
            left,
            right,
        } => {
            add(tokens, &[Token::Open])?;
            add_expr(tokens, scene, *left, depth)?;
            add(tokens, &[Token::Infix(*operator)])?;
            add_expr(tokens, scene, *right, depth)?;
            add(tokens, &[Token::Close])
        }
        _ => add_leaf(tokens, node),
    }
}

fn add_argument(tokens: &mut Vec<Token>, scene: &Scene, argument: &SceneArg) -> Result<(), Memory>
    ensures { OnOk result (tokens.new.items ≡ tokens.old.items ++ lines.arg_tokens scene.now.exprs argument.now) }
{
    match argument {
        SceneArg::NoArgument => Ok(()),
        SceneArg::Expression(e) => add_expr(tokens, scene, *e, EXPRESSION_DEPTH),
        SceneArg::OfClass(name) => add(tokens, &[Token::Word(*name)]),
    }
}

fn add_call_front(
    tokens: &mut Vec<Token>,
    kind: CallKind,
    into: &Option<Name>,
) -> Result<(), Memory>
    ensures { OnOk result (tokens.new.items ≡ tokens.old.items ++ word Keyword.Call ∷ spelling.into_then into.now (Token.Word (call_word kind) ∷ [])) }
{
    match into {
        Some(variable) => add(
            tokens,
            &[
                key(Keyword::Call),
                Token::Word(*variable),
                Token::Assign,
                call_token(kind),
            ],
        ),
        None => add(tokens, &[key(Keyword::Call), call_token(kind)]),
    }
}

fn add_call(
    tokens: &mut Vec<Token>,
    scene: &Scene,
    kind: CallKind,
    into: &Option<Name>,
    a: &SceneArg,
    b: &SceneArg,
    c: &SceneArg,
) -> Result<(), Memory>
    ensures { OnOk result (tokens.new.items ≡ tokens.old.items ++ lines.call_tokens scene.now.exprs kind into.now a.now b.now c.now) }
{
    add_call_front(tokens, kind, into)?;
    add_argument(tokens, scene, a)?;
    add_argument(tokens, scene, b)?;
    add_argument(tokens, scene, c)
}

fn add_single(tokens: &mut Vec<Token>, scene: &Scene, front: &[Token], e: u32) -> Result<(), Memory>
    ensures { OnOk result (tokens.new.items ≡ tokens.old.items ++ (front.now ++ lines.expr_tokens 16 scene.now.exprs e)) }
{
    add(tokens, front)?;
    add_expr(tokens, scene, e, EXPRESSION_DEPTH)
}

fn add_picks(tokens: &mut Vec<Token>, picks: &[u64]) -> Result<(), Memory>
    ensures { OnOk result (tokens.new.items ≡ tokens.old.items ++ word Keyword.Picks ∷ map (λ n. Token.Number n) picks.now) }
{
    add(tokens, &[key(Keyword::Picks)])?;
    for pick in picks {
        tokens.push(Token::Number(*pick))?;
    }
    Ok(())
}

/// Adds the tokens of a line of the scene.
///
/// # Errors
///
/// [`Memory`] where memory was refused. Nothing is said of `tokens` then.
pub fn add_line(
    tokens: &mut Vec<Token>,
    scene: &Scene,
    form: &SceneLine,
    picks: &[u64],
) -> Result<(), Memory>
    ensures { OnOk result (tokens.new.items ≡ tokens.old.items ++ lines.line_tokens scene.now.exprs form.now picks.now) }
{
    match form {
        SceneLine::Picks => add_picks(tokens, picks),
        SceneLine::Let { variable, value } => {
            let front = [key(Keyword::Let), Token::Word(*variable), Token::Assign];
            add_single(tokens, scene, &front, *value)
        }
        SceneLine::Put { register, value } => {
            let front = [key(Keyword::Put), Token::Word(*register)];
            add_single(tokens, scene, &front, *value)
        }
        SceneLine::If { test } => add_single(tokens, scene, &[key(Keyword::If)], *test),
        SceneLine::Repeat { count } => add_single(tokens, scene, &[key(Keyword::Repeat)], *count),
        SceneLine::Spend { ticks } => add_single(tokens, scene, &[key(Keyword::Spend)], *ticks),
        SceneLine::Log { value } => add_single(tokens, scene, &[key(Keyword::Log)], *value),
        SceneLine::Return { value } => add_single(tokens, scene, &[key(Keyword::Return)], *value),
        SceneLine::Call {
            kind,
            into,
            a,
            b,
            c,
        } => add_call(tokens, scene, *kind, into, a, b, c),
        _ => add_plain(tokens, form),
    }
}
