//! The lines of a text, and the tokens of a line.
ghost use Rattle.std.specs.Prelude.{◌≡◌, ◌+◌, ◌^◌, ◌<◌, ◌≤◌, ◌++◌, length, OnOk, IfErr, Err, Ok, Option};
ghost use Rattle.std.specs.Option.{option_to_list};
ghost use Rattle.std.specs.Char.{is_ascii_digit};
ghost use Rattle.std.specs.List.{list_all, take_while};
ghost use Rattle.wdf_text.specs.Decimals.{small_number};
ghost use Rattle.wdf_tokens.specs.Tokens.{is_plain, is_blank, is_name_byte, name_content, long_name, number_content, operator_of, mark_token, pair_token, marks_piece, piece, digits_piece, letters_piece, piece_of, token_at, line_reading, IsFaultOf, is_inside};

use crate::token::Token;
use wdf_base::{Callback, Memory, NAME_LIMIT, Name, Operator};
use wdf_text::small_number;

/// Why a line has no reading.
#[derive(Clone, Copy)]
pub enum TokenFault {
    /// A byte of the line is none of a text's, wherever it is.
    NotAscii,
    /// No token begins at this column, counted in bytes from 1, or a name that is too long.
    BadToken(u32),
    /// The number at this column is above `u64::MAX`.
    NumberTooLarge(u32),
}

/// Why the tokens of a line weren't read.
#[derive(Clone, Copy)]
pub enum LexError {
    /// The line has no reading.
    Fault(TokenFault),
    /// There is no memory.
    Memory,
}

/// What a piece of a line is.
#[derive(Drop)]
enum Content {
    /// A blank, or a comment.
    Blank,
    /// A token.
    Whole(Token),
    /// Nothing that a line may hold.
    Foreign,
    /// A number above `u64::MAX`.
    TooLarge,
}

/// The bytes at the front of a line that are read at once.
#[derive(Drop)]
struct Piece {
    size: usize,
    content: Content,
}

/// Whether a byte may stand in a text: a printable one, or a tab, a line feed or a carriage return.
pub fn is_plain(byte: u8) -> bool
    ensures { result ≡ is_plain byte }
{
    matches!(byte, b' '..=b'~') || matches!(byte, b'\t' | b'\n' | b'\r')
}

/// Whether a byte stands between words: a blank, a tab or a carriage return.
pub fn is_blank(byte: u8) -> bool
    ensures { result ≡ is_blank byte }
{
    matches!(byte, b' ' | b'\t' | b'\r')
}

fn is_name_byte(byte: u8) -> bool
    ensures { result ≡ is_name_byte byte }
{
    byte.is_ascii_alphabetic() || byte.is_ascii_digit() || byte == b'_'
}

fn number_content(digits: &[u8]) -> Content
    ensures { result ≡ number_content (small_number digits.now) }
{
    match small_number(digits) {
        Some(number) => Content::Whole(Token::Number(number)),
        None => Content::TooLarge,
    }
}

fn name_content(letters: &[u8]) -> Content
    ensures { result ≡ name_content letters.now }
{
    if letters.len() <= NAME_LIMIT {
        Content::Whole(Token::Word(Name::new(letters)))
    } else {
        long_name(letters)
    }
}

#[tactic(auto, unfolding(crate::specs::Tokens::long_name))]
fn long_name(letters: &[u8]) -> Content
    ensures { result ≡ long_name letters.now }
{
    match Callback::from_word(letters) {
        Some(callback) => Content::Whole(Token::LongName(callback)),
        None => Content::Foreign,
    }
}

fn operator_of(byte: u8) -> Option<Operator>
    ensures { result ≡ operator_of byte }
{
    match byte {
        b'+' => Some(Operator::Add),
        b'-' => Some(Operator::Subtract),
        b'*' => Some(Operator::Multiply),
        b'/' => Some(Operator::Divide),
        b'%' => Some(Operator::Remainder),
        b'&' => Some(Operator::BitAnd),
        b'|' => Some(Operator::BitOr),
        b'^' => Some(Operator::BitXor),
        b'<' => Some(Operator::Below),
        _ => None,
    }
}

fn mark_token(byte: u8) -> Option<Token>
    ensures { result ≡ mark_token byte }
{
    match byte {
        b'(' => Some(Token::Open),
        b')' => Some(Token::Close),
        b'=' => Some(Token::Assign),
        _ => operator_of(byte).map(Token::Infix),
    }
}

fn pair_token(byte: u8, next: u8) -> Option<Token>
    ensures { result ≡ pair_token byte next }
{
    if next != b'=' {
        return None;
    }
    match byte {
        b'=' => Some(Token::Infix(Operator::Equals)),
        b'!' => Some(Token::Infix(Operator::Differs)),
        b'<' => Some(Token::Infix(Operator::AtMost)),
        _ => None,
    }
}

/// The piece that one or two marks are.
fn marks_piece(byte: u8, next: u8) -> Piece
    ensures { result ≡ marks_piece (pair_token byte next) (mark_token byte) }
{
    if let Some(token) = pair_token(byte, next) {
        return Piece {
            size: 2,
            content: Content::Whole(token),
        };
    }
    let content = match mark_token(byte) {
        Some(token) => Content::Whole(token),
        None => Content::Foreign,
    };
    Piece { size: 1, content }
}

fn digits_len(bytes: &[u8]) -> usize
    ensures { result ≡ length (take_while is_ascii_digit bytes.now) }
{
    bytes
        .iter()
        .take_while(|byte| byte.is_ascii_digit())
        .count()
}

fn name_len(bytes: &[u8]) -> usize
    ensures { result ≡ length (take_while is_name_byte bytes.now) }
{
    bytes.iter().take_while(|byte| is_name_byte(**byte)).count()
}

/// The piece that a line's bytes begin with.
fn piece_of(bytes: &[u8]) -> Piece
    requires { 0 < length bytes.now }
    ensures piece { result ≡ piece_of bytes.now }
    ensures some { 0 < result.size }
    ensures within { result.size ≤ length bytes.now }
{
    let first = bytes[0];
    if is_blank(first) {
        blank_piece(1)
    } else if first == b'#' {
        blank_piece(bytes.len())
    } else if first.is_ascii_digit() {
        digits_piece(&bytes[..digits_len(bytes)])
    } else if first.is_ascii_alphabetic() {
        letters_piece(&bytes[..name_len(bytes)])
    } else {
        marks_piece(first, bytes.get(1).copied().unwrap_or(0))
    }
}

fn blank_piece(size: usize) -> Piece
    ensures { result ≡ piece size Content.Blank }
{
    Piece {
        size,
        content: Content::Blank,
    }
}

fn digits_piece(digits: &[u8]) -> Piece
    ensures { result ≡ digits_piece digits.now }
{
    Piece {
        size: digits.len(),
        content: number_content(digits),
    }
}

fn letters_piece(letters: &[u8]) -> Piece
    ensures { result ≡ letters_piece letters.now }
{
    Piece {
        size: letters.len(),
        content: name_content(letters),
    }
}

/// Puts a token at the end, if there is one.
fn push_some(tokens: &mut Vec<Token>, token: Option<Token>) -> Result<(), Memory>
    ensures { OnOk result (tokens.new.items ≡ tokens.old.items ++ option_to_list token) }
{
    if let Some(token) = token {
        tokens.push(token)?;
    }
    Ok(())
}

/// The token of a piece at a column, if it is one and no blank.
fn token_at(column: u32, content: Content) -> Result<Option<Token>, TokenFault>
    ensures { result ≡ token_at column content }
{
    match content {
        Content::Blank => Ok(None),
        Content::Whole(token) => Ok(Some(token)),
        Content::Foreign => Err(TokenFault::BadToken(column)),
        Content::TooLarge => Err(TokenFault::NumberTooLarge(column)),
    }
}

fn is_plain_line(line: &[u8]) -> bool
    ensures { result ≡ list_all is_plain line.now }
{
    line.iter().all(|byte| is_plain(*byte))
}

/// Reads a line without its LF, and leaves its tokens in place of what `tokens` held. After an
/// error nothing is said of `tokens`.
pub fn read_tokens(tokens: &mut Vec<Token>, line: &[u8]) -> Result<(), LexError>
    requires { length line.now < 2 ^ 32 }
    ensures read { OnOk result (line_reading line.now ≡ Ok tokens.new.items) }
    ensures fault { IfErr result (IsFaultOf (line_reading line.now)) }
    ensures few { OnOk result (length tokens.new.items ≤ length line.now) }
{
    tokens.clear();
    if !is_plain_line(line) {
        return Err(LexError::Fault(TokenFault::NotAscii));
    }
    let mut at = 0;
    while at < line.len() {
        let piece = piece_of(&line[at..]);
        match token_at((at + 1) as u32, piece.content) {
            Ok(token) => match push_some(tokens, token) {
                Ok(()) => at += piece.size,
                Err(Memory) => return Err(LexError::Memory),
            },
            Err(fault) => return Err(LexError::Fault(fault)),
        }
    }
    Ok(())
}

/// How many bytes there are before the first LF, or before the end.
pub fn line_len(text: &[u8]) -> usize
    ensures value { result ≡ length (take_while is_inside text.now) }
    ensures within { result ≤ length text.now }
{
    text.iter().take_while(|byte| **byte != b'\n').count()
}
