//! The expectations of a text.
ghost use Rattle.std.specs.Prelude.{◌≡◌, ◌≤◌, ◌++◌, ◌∷◌, [], ℕ, IfOk, IfErr, OnOk, List, Ok, Result, length, map, take_while};
ghost use Rattle.std.specs.List.{slice_split};
ghost use Rattle.wdf_tokens.specs.Tokens.{is_blank, lines_of};
ghost use Rattle.wdf_parse.specs.declared.parsing.TheConstants.{TEXT_LIMIT};
ghost use Rattle.wdf_expect.specs.declared.reading.ExpectError.TheVariants as error;
ghost use Rattle.wdf_expect.specs.declared.rules.Expectation.{Expectation};
ghost use Rattle.wdf_expect.specs.Reading.{IsErrorOf, after_found, comment_in, comment_of, comment_with, expectations_from, expectations_of, is_code, words_in, with_comment};

use crate::rules::{Comment, Expectation, Expectations, Rule};
use crate::words::{copy_of, rule_in};
use std::alloc::{AllocError, Global};
use wdf_base::Memory;
use wdf_tokens::{is_blank, line_len};
use wdf_writing::Text;

/// Why a text's expectations weren't read.
#[derive(Clone, Copy)]
pub enum ExpectError {
    /// The comment `#!` in this line can't be read.
    Unread { line: u32 },
    /// Out of memory.
    Memory,
}

impl From<Memory> for ExpectError {
    ghost use Rattle.std.specs.Prelude.{◌≡◌};
    ghost use Rattle.wdf_expect.specs.declared.reading.ExpectError.TheVariants.{Memory};

    ghost from_gives = { λ _ e. e ≡ Memory };

    fn from(_memory: Memory) -> ExpectError {
        ExpectError::Memory
    }
}

/// The parts of a text between its blanks, some without bytes.
fn parts_of(alloc: Global, text: &[u8]) -> Result<Vec<&[u8]>, AllocError>
    ensures { IfOk result (λ parts. map (λ part. part.now) parts.items ≡ slice_split is_blank text.now) }
{
    text.split(|byte| is_blank(*byte)).collect(alloc)
}

/// The words of a text: what is between its blanks.
fn words_in(alloc: Global, text: &[u8]) -> Result<Vec<Text>, Memory>
    ensures { IfOk result (λ words. words.items ≡ words_in text.now) }
{
    let parts = parts_of(alloc, text)?;
    let mut words = Vec::new(alloc);
    for part in parts.as_slice() {
        if !part.is_empty() {
            words.push(copy_of(alloc, part)?)?;
        }
    }
    Ok(words)
}

/// How many bytes of a line come before its comment.
fn code_len(line: &[u8]) -> usize
    ensures { result ≡ length (take_while is_code line.now) }
{
    line.iter().take_while(|byte| **byte != b'#').count()
}

/// The comment of a line, from its `#` on.
fn comment_in(line: &[u8]) -> &[u8]
    ensures { result.now ≡ comment_in line.now }
{
    &line[code_len(line)..]
}

fn comment_with(rule: Option<Rule>) -> Comment
    ensures { result ≡ comment_with rule }
{
    match rule {
        Some(rule) => Comment::Expects { rule },
        None => Comment::Unread,
    }
}

/// What a comment says.
fn comment_of(alloc: Global, text: &[u8]) -> Result<Comment, Memory>
    ensures { IfOk result (λ comment. comment ≡ comment_of text.now) }
{
    if !text.starts_with(b"#!") {
        return Ok(Comment::Plain);
    }
    let words = words_in(alloc, &text[2..])?;
    let rule = rule_in(alloc, words.as_slice())?;
    Ok(comment_with(rule))
}

/// Takes what the comment of a line says.
fn take_line(
    alloc: Global,
    found: &mut Vec<Expectation>,
    number: u32,
    line: &[u8],
) -> Result<(), ExpectError>
    ensures taken { OnOk result ((rest : Result (List Expectation) ℕ) → after_found found.old.items (with_comment number (comment_of (comment_in line.now)) rest) ≡ after_found found.new.items rest) }
    ensures refused { IfErr result (λ e. (rest : Result (List Expectation) ℕ) → IsErrorOf (with_comment number (comment_of (comment_in line.now)) rest) e) }
{
    match comment_of(alloc, comment_in(line))? {
        Comment::Plain => Ok(()),
        Comment::Unread => Err(ExpectError::Unread { line: number }),
        Comment::Expects { rule } => add(found, Expectation { line: number, rule }),
    }
}

/// Adds an expectation.
fn add(found: &mut Vec<Expectation>, expectation: Expectation) -> Result<(), ExpectError>
    ensures taken { OnOk result (found.new.items ≡ found.old.items ++ expectation ∷ []) }
    ensures refused { IfErr result (λ e. e ≡ error.Memory) }
{
    match found.push(expectation) {
        Ok(()) => Ok(()),
        Err(_) => Err(ExpectError::Memory),
    }
}

/// Takes what the comments of a text say, line by line.
fn take_lines(alloc: Global, found: &mut Vec<Expectation>, text: &[u8]) -> Result<(), ExpectError>
    requires small { length text.now ≤ TEXT_LIMIT }
    requires none { found.old.items ≡ [] }
    ensures taken { OnOk result (expectations_from 1 (lines_of text.now) ≡ Ok found.new.items) }
    ensures refused { IfErr result (IsErrorOf (expectations_from 1 (lines_of text.now))) }
{
    let mut number = 1;
    let mut at = 0;
    while at < text.len() {
        let rest = &text[at..];
        let len = line_len(rest);
        match take_line(alloc, found, number, &rest[..len]) {
            Ok(()) => {
                at += len + 1;
                number += 1;
            }
            Err(error) => return Err(error),
        }
    }
    Ok(())
}

/// The expectations of a scenario's text, in their order.
///
/// # Errors
///
/// The number of the first line whose comment begins with `#!` and can't be read; [`ExpectError::Memory`] where memory was
/// refused.
#[tactic(auto, unfolding(crate::specs::Reading::expectations_of))]
pub fn expectations_of(alloc: Global, text: &[u8]) -> Result<Expectations, ExpectError>
    requires { length text.now ≤ TEXT_LIMIT }
    ensures found { IfOk result (λ found. expectations_of text.now ≡ Ok found) }
    ensures refused { IfErr result (IsErrorOf (expectations_of text.now)) }
{
    let mut found = Vec::new(alloc);
    take_lines(alloc, &mut found, text)?;
    Ok(Expectations::new(found))
}
