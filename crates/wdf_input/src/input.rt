//! Reading the whole input.
ghost use Rattle.std.specs.Prelude.{◌≡◌, ◌≢◌, ◌+◌, ◌≤◌, ◌<◌, ◌^◌, vec_len, vec_capacity, IfOk, OnOk, OnErr};
ghost use Rattle.std.specs.Io.KnownBytes.{Keeps};
ghost use Rattle.wdf_io.specs.Outside.{Rose};
ghost use Rattle.wdf_input.specs.Input.{UsesUp, TakesAll, ReadsInto, TakesCount, TakesAtMost};

use std::alloc::{AllocError, Global};
use wdf_io::Source;
use wdf_parse::TEXT_LIMIT;

/// The most bytes that an input may have: those of a scenario's text.
pub const INPUT_LIMIT: usize = TEXT_LIMIT;

/// The most bytes that one read asks for.
const PIECE: usize = 8192;

/// Why an input wasn't read to its end.
#[derive(Clone, Copy)]
pub enum InputError {
    /// A read failed.
    Fault,
    /// The input has more than `INPUT_LIMIT` bytes.
    TooLarge,
    /// No memory was left for the text.
    Memory,
}

impl From<AllocError> for InputError {
    ghost use Rattle.std.specs.Prelude.{◌≡◌};
    ghost use Rattle.wdf_input.specs.declared.input.InputError.TheVariants.{Memory};

    ghost from_gives = { λ _ e. e ≡ Memory };

    fn from(_error: AllocError) -> InputError {
        InputError::Memory
    }
}

/// Reads the source to its end, and never past byte `INPUT_LIMIT + 1`.
///
/// # Errors
///
/// `Fault` where a read failed, `TooLarge` where byte `INPUT_LIMIT + 1` was read, `Memory` where
/// memory for the text was refused.
pub fn read_whole<S: Source>(alloc: Global, source: &mut S) -> Result<Vec<u8>, InputError>
    ensures text { IfOk result (λ text. TakesAll (S.left source.old) (S.left source.new) text.items) }
    ensures small { IfOk result (λ text. vec_len text ≤ INPUT_LIMIT) }

    ensures too_large { result ≡ Err InputError.TooLarge → TakesCount (S.left source.old) (S.left source.new) (INPUT_LIMIT + 1) }
    ensures no_further { result ≢ Err InputError.TooLarge → TakesAtMost (S.left source.old) (S.left source.new) INPUT_LIMIT }

    ensures fault { result ≡ Err InputError.Fault → Rose (S.faults source.old) (S.faults source.new) }
    ensures quiet { result ≢ Err InputError.Fault → S.faults source.new ≡ S.faults source.old }
    ensures never_falls { S.faults source.old ≤ S.faults source.new }
{
    read_within(alloc, source, INPUT_LIMIT)
}

/// Reads the source to its end, where it has at most `limit` bytes, and never past the byte after these.
///
/// # Errors
///
/// `Fault` where a read failed, `TooLarge` where byte `limit + 1` was read, `Memory` where memory for the text was refused.
#[tactic(auto, using(crate::proofs::Taken::at_most_kept))]
pub fn read_within<S: Source>(
    alloc: Global,
    source: &mut S,
    limit: usize,
) -> Result<Vec<u8>, InputError>
    requires { limit < 2 ^ 32 }

    ensures text { IfOk result (λ text. TakesAll (S.left source.old) (S.left source.new) text.items) }
    ensures small { IfOk result (λ text. vec_len text ≤ limit) }

    ensures too_large { result ≡ Err InputError.TooLarge → TakesCount (S.left source.old) (S.left source.new) (limit + 1) }
    ensures no_further { result ≢ Err InputError.TooLarge → TakesAtMost (S.left source.old) (S.left source.new) limit }

    ensures fault { result ≡ Err InputError.Fault → Rose (S.faults source.old) (S.faults source.new) }
    ensures quiet { result ≢ Err InputError.Fault → S.faults source.new ≡ S.faults source.old }
    ensures never_falls { S.faults source.old ≤ S.faults source.new }
{
    let mut text = Vec::new(alloc);
    let mut piece = [0; PIECE];
    while text.len() <= limit {
        match read_piece(source, &mut piece, &mut text, limit) {
            Ok(0) => return Ok(text),
            Ok(_) => {}
            Err(error) => return Err(error),
        }
    }
    Err(InputError::TooLarge)
}

/// Reads once, after the text that is there, and answers how many bytes came: 0 at the end.
#[tactic(auto, using(wdf_io::proofs::Pieces::keeps_same))]
fn read_piece<S: Source>(
    source: &mut S,
    piece: &mut [u8; PIECE],
    text: &mut Vec<u8>,
    limit: usize,
) -> Result<usize, InputError>
    requires fits { limit < 2 ^ 32 }
    requires within { vec_len text.old ≤ limit }

    ensures bytes { OnOk result (ReadsInto (S.left source.old) (S.left source.new) text.old.items text.new.items) }
    ensures count { IfOk result (λ n. vec_len text.new ≡ vec_len text.old + n) }
    ensures within { vec_len text.new ≤ limit + 1 }
    ensures end { IfOk result (λ n. n ≡ 0 → UsesUp (S.left source.old) (S.left source.new)) }
    ensures untouched { OnErr result (Keeps (S.left source.old) (S.left source.new)) }
    ensures never_large { result ≢ Err InputError.TooLarge }

    ensures fault { result ≡ Err InputError.Fault → Rose (S.faults source.old) (S.faults source.new) }
    ensures quiet { result ≢ Err InputError.Fault → S.faults source.new ≡ S.faults source.old }
    ensures never_falls { S.faults source.old ≤ S.faults source.new }
{
    make_room(text)?;
    let most = PIECE.min(limit + 1 - text.len());
    match source.read(&mut piece[..most]) {
        Ok(count) => {
            text.extend_from_slice(&piece[..count]).unwrap();
            Ok(count)
        }
        Err(_) => Err(InputError::Fault),
    }
}

/// Makes room for one more piece, and for half as much again as there is, so that few bytes move twice.
fn make_room(text: &mut Vec<u8>) -> Result<(), AllocError>
    ensures items { text.new.items ≡ text.old.items }
    ensures room { OnOk result (vec_len text.new + PIECE ≤ vec_capacity text.new) }
{
    if text.capacity() - text.len() < PIECE {
        text.reserve_exact(text.len() / 2 + PIECE)?;
    }
    Ok(())
}
