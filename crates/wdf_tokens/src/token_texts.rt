//! The bytes of tokens.
ghost use Rattle.std.specs.Prelude.{◌≡◌, ◌++◌, OnOk, decimal};
ghost use Rattle.wdf_tokens.specs.TokenTexts as texts;

use crate::token::Token;
use itoa::Buffer;
use wdf_base::{Memory, push_text};
use wdf_scene::operator_word;

fn push_number(out: &mut Vec<u8>, number: u64) -> Result<(), Memory>
    ensures { OnOk result (out.new.items ≡ out.old.items ++ decimal number) }
{
    let mut buffer = Buffer::new();
    push_text(out, buffer.format(number).as_bytes())
}

fn push_token(out: &mut Vec<u8>, token: &Token) -> Result<(), Memory>
    ensures { OnOk result (out.new.items ≡ out.old.items ++ texts.token_text token.now) }
{
    match token {
        Token::Number(number) => push_number(out, *number),
        Token::Word(name) => push_text(out, name.bytes()),
        Token::LongName(callback) => push_text(out, callback.word().as_bytes()),
        Token::Open => push_text(out, b"("),
        Token::Close => push_text(out, b")"),
        Token::Assign => push_text(out, b"="),
        Token::Infix(operator) => push_text(out, operator_word(*operator).as_bytes()),
    }
}

/// Adds the tokens after the first of a line, and the line's end.
fn push_rest(out: &mut Vec<u8>, tokens: &[Token]) -> Result<(), Memory>
    ensures { OnOk result (out.new.items ≡ out.old.items ++ texts.rest_text tokens.now) }
{
    for token in tokens {
        out.push(b' ')?;
        push_token(out, token)?;
    }
    out.push(b'\n')?;
    Ok(())
}

/// Adds a line with these tokens: one space between two, and a line feed.
///
/// # Errors
///
/// [`Memory`] where memory was refused. Nothing is said of `out` then.
pub fn push_line(out: &mut Vec<u8>, tokens: &[Token]) -> Result<(), Memory>
    ensures { OnOk result (out.new.items ≡ out.old.items ++ texts.line_text tokens.now) }
{
    match tokens {
        [first, rest @ ..] => {
            push_token(out, first)?;
            push_rest(out, rest)
        }
        [] => push_text(out, b"\n"),
    }
}
