//! The tokens of a line, taken one by one.
ghost use Rattle.std.specs.Prelude.{◌≡◌, ◌↔◌, IsTrue, [], drop, Some};
ghost use Rattle.wdf_scene_lines.specs.Reading.{first_token, operator_in, name_in, is_open, is_close};

use std::marker::Model;
use wdf_base::{Name, Operator};
use wdf_tokens::Token;

/// The tokens of a line that are left to read.
#[derive(Drop)]
pub struct Cursor<'a> {
    left: &'a [Token],
}

impl<'a> Model for Cursor<'a> {
    ghost use Rattle.std.specs.Prelude.{List};
    ghost use Rattle.wdf_tokens.specs.declared.token.Token.{Token};

    ghost Value = { List Token };

    ghost view = { λ c. c.left.now };
}

impl<'a> Cursor<'a> {
    /// The cursor before these tokens.
    pub fn new(left: &'a [Token]) -> Cursor<'a>
        ensures { result ≡ left.now }
    {
        Cursor { left }
    }

    /// Whether no token is left.
    pub fn is_empty(&self) -> bool
        ensures { IsTrue result ↔ (self.now ≡ []) }
    {
        self.left.is_empty()
    }

    /// The next token, which stays.
    pub fn first(&self) -> Option<Token>
        ensures { result ≡ first_token self.now }
    {
        match self.left {
            [first, ..] => Some(*first),
            [] => None,
        }
    }

    /// The next token.
    pub fn take(&mut self) -> Option<Token>
        ensures value { result ≡ first_token self.old }
        ensures rest { self.new ≡ drop 1 self.old }
    {
        match self.left {
            [first, rest @ ..] => {
                let token = *first;
                self.left = rest;
                Some(token)
            }
            [] => None,
        }
    }

    /// Whether the next token is `(`.
    pub fn is_open(&self) -> bool
        ensures { result ≡ is_open (first_token self.now) }
    {
        matches!(self.first(), Some(Token::Open))
    }

    /// Takes the next token, and answers whether it is `)`.
    pub fn take_close(&mut self) -> bool
        ensures value { result ≡ is_close (first_token self.old) }
        ensures rest { self.new ≡ drop 1 self.old }
    {
        matches!(self.take(), Some(Token::Close))
    }

    /// Takes the next token, and answers which operator it is.
    pub fn take_operator(&mut self) -> Option<Operator>
        ensures value { result ≡ operator_in (first_token self.old) }
        ensures rest { self.new ≡ drop 1 self.old }
    {
        match self.take() {
            Some(Token::Infix(operator)) => Some(operator),
            _ => None,
        }
    }

    /// Takes the next token, and answers which name it is.
    pub fn take_name(&mut self) -> Option<Name>
        ensures value { result ≡ name_in (first_token self.old) }
        ensures rest { self.new ≡ drop 1 self.old }
    {
        match self.take() {
            Some(token) => name_of(&token),
            None => None,
        }
    }
}

fn name_of(token: &Token) -> Option<Name>
    ensures { result ≡ name_in (Some token.now) }
{
    match token {
        Token::Word(name) => Some(*name),
        _ => None,
    }
}
