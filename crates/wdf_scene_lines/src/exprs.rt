//! Expressions and the arguments of calls are read into the scene.
ghost use Rattle.std.specs.Prelude.{◌≡◌, ◌+◌, ◌<◌, ◌≤◌, ◌^◌, length, IfOk, OnOk, option_map, drop};
ghost use Rattle.wdf_scene.specs.Written.{atom_node};
ghost use Rattle.wdf_scene_lines.specs.Reading.{atom_of, atom_in, word_atom, first_token, read_tree, left_read, leaf_read, read_argument, valued_read};
ghost use Rattle.wdf_scene_lines.specs.Building.{IsTreeRead, IsArgumentRead};

use crate::cursor::Cursor;
use wdf_base::{ContextWord, Memory, Name, Sort, Status};
use wdf_scene::{SceneArg, SceneBuilder, SceneExpr};
use wdf_tokens::{Token, context_named, status_named};

fn word_atom(name: Name, status: Option<Status>, part: Option<ContextWord>) -> SceneExpr
    ensures { result ≡ atom_node (word_atom name status part) }
{
    match (status, part) {
        (Some(status), _) => SceneExpr::Literal(status),
        (None, Some(part)) => SceneExpr::Context(part),
        (None, None) => SceneExpr::Named(name),
    }
}

fn atom_of(token: &Token) -> Option<SceneExpr>
    ensures { result ≡ option_map atom_node (atom_of token.now) }
{
    match token {
        Token::Number(number) => Some(SceneExpr::Number(*number)),
        Token::Word(name) => Some(word_atom(*name, status_named(name), context_named(name))),
        _ => None,
    }
}

fn take_atom(cursor: &mut Cursor) -> Option<SceneExpr>
    ensures value { result ≡ option_map atom_node (atom_in (first_token cursor.old)) }
    ensures rest { cursor.new ≡ drop 1 cursor.old }
{
    match cursor.take() {
        Some(token) => atom_of(&token),
        None => None,
    }
}

fn read_leaf(builder: &mut SceneBuilder, cursor: &mut Cursor) -> Result<Option<u32>, Memory>
    requires { length builder.old.exprs + length cursor.old < 2 ^ 32 }
    ensures read { IfOk result (λ e. IsTreeRead (leaf_read (atom_in (first_token cursor.old)) (drop 1 cursor.old)) e cursor.new builder.old builder.new) }
    ensures room { OnOk result (length builder.new.exprs + length cursor.new ≤ length builder.old.exprs + length cursor.old) }
    ensures lines { OnOk result (builder.new.lines ≡ builder.old.lines) }
{
    match take_atom(cursor) {
        Some(node) => Ok(Some(builder.expr(node)?)),
        None => Ok(None),
    }
}

/// Reads the expression at the cursor, whose parentheses nest at most `depth` deep, into the scene,
/// and answers its number; None if there is none. After an error, or None, nothing is said of
/// the scene and the cursor.
#[cycle(tree)]
pub fn read_tree(
    builder: &mut SceneBuilder,
    cursor: &mut Cursor,
    depth: u8,
) -> Result<Option<u32>, Memory>
    requires { length builder.old.exprs + length cursor.old < 2 ^ 32 }
    ensures read { IfOk result (λ e. IsTreeRead (read_tree depth cursor.old) e cursor.new builder.old builder.new) }
    ensures room { OnOk result (length builder.new.exprs + length cursor.new ≤ length builder.old.exprs + length cursor.old) }
    ensures lines { OnOk result (builder.new.lines ≡ builder.old.lines) }
{
    if depth > 0 && cursor.is_open() {
        let _open = cursor.take();
        read_pair(builder, cursor, depth - 1)
    } else {
        read_leaf(builder, cursor)
    }
}

/// Reads what comes after the parenthesis that opens.
#[cycle(tree)]
fn read_pair(
    builder: &mut SceneBuilder,
    cursor: &mut Cursor,
    depth: u8,
) -> Result<Option<u32>, Memory>
    requires { length builder.old.exprs + length cursor.old < 2 ^ 32 }
    ensures read { IfOk result (λ e. IsTreeRead (left_read (read_tree depth) (read_tree depth cursor.old)) e cursor.new builder.old builder.new) }
    ensures room { OnOk result (length builder.new.exprs + length cursor.new ≤ length builder.old.exprs + length cursor.old) }
    ensures lines { OnOk result (builder.new.lines ≡ builder.old.lines) }
{
    let Some(left) = read_tree(builder, cursor, depth)? else {
        return Ok(None);
    };
    let Some(operator) = cursor.take_operator() else {
        return Ok(None);
    };
    let Some(right) = read_tree(builder, cursor, depth)? else {
        return Ok(None);
    };
    if !cursor.take_close() {
        return Ok(None);
    }
    let node = SceneExpr::Binary {
        operator,
        left,
        right,
    };
    Ok(Some(builder.expr(node)?))
}

fn read_valued(builder: &mut SceneBuilder, cursor: &mut Cursor) -> Result<Option<SceneArg>, Memory>
    requires { length builder.old.exprs + length cursor.old < 2 ^ 32 }
    ensures read { IfOk result (λ x. IsArgumentRead (valued_read (atom_in (first_token cursor.old)) (drop 1 cursor.old)) x cursor.new builder.old builder.new) }
    ensures room { OnOk result (length builder.new.exprs + length cursor.new ≤ length builder.old.exprs + length cursor.old) }
    ensures lines { OnOk result (builder.new.lines ≡ builder.old.lines) }
{
    match take_atom(cursor) {
        Some(node) => Ok(Some(SceneArg::Expression(builder.expr(node)?))),
        None => Ok(None),
    }
}

/// Reads an argument of this sort into the scene, if it is there. After an error, or None, nothing is
/// said of the scene and the cursor.
pub fn read_argument(
    builder: &mut SceneBuilder,
    cursor: &mut Cursor,
    sort: Sort,
) -> Result<Option<SceneArg>, Memory>
    requires { length builder.old.exprs + length cursor.old < 2 ^ 32 }
    ensures read { IfOk result (λ x. IsArgumentRead (read_argument sort cursor.old) x cursor.new builder.old builder.new) }
    ensures room { OnOk result (length builder.new.exprs + length cursor.new ≤ length builder.old.exprs + length cursor.old) }
    ensures lines { OnOk result (builder.new.lines ≡ builder.old.lines) }
{
    match sort {
        Sort::Absent => Ok(Some(SceneArg::NoArgument)),
        Sort::Class(_) => Ok(cursor.take_name().map(|name| SceneArg::OfClass(name))),
        _ => read_valued(builder, cursor),
    }
}
