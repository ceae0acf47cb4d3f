//! Numbers at the front of a text.
ghost use Rattle.std.specs.Prelude.{◌≡◌, ◌≢◌, ◌<◌, ◌≤◌, ◌^◌, ◌++◌, ℕ, List, IfNone, IfSome, MatchOption, bytes_eq, decimal, length, true};
ghost use Rattle.std.specs.Char.{is_ascii_digit};
ghost use Rattle.std.specs.List.{take_while};
ghost use Rattle.wdf_sum.specs.Lines.{ends_digits};

use itoa::Buffer;
use wdf_run_text::from_place;
use wdf_text::small_number;

/// How many decimal digits a text begins with.
fn digits_len(text: &[u8]) -> usize
    ensures value { result ≡ length (take_while is_ascii_digit text.now) }
    ensures within { result ≤ length text.now }
{
    text.iter().take_while(|byte| byte.is_ascii_digit()).count()
}

/// Whether these are the decimal digits of a number.
fn is_decimal(number: u64, digits: &[u8]) -> bool
    ensures { result ≡ bytes_eq (decimal number) digits.now }
{
    let mut buffer = Buffer::new();
    buffer.format(number).as_bytes() == digits
}

/// The number whose decimal digits these are.
fn number_of(digits: &[u8]) -> Option<u64>
    ensures found { IfSome result (λ number. digits.now ≡ decimal number) }
    ensures none { IfNone result ((number : ℕ) → number < 2 ^ 64 → digits.now ≢ decimal number) }
{
    match small_number(digits) {
        Some(number) => {
            if is_decimal(number, digits) {
                Some(number)
            } else {
                None
            }
        }
        None => None,
    }
}

/// What comes after these bytes at a text's front.
pub(crate) fn after<'a>(text: &'a [u8], front: &[u8]) -> Option<&'a [u8]>
    ensures { MatchOption result ((rest : List ℕ) → text.now ≢ front.now ++ rest) (λ rest. text.now ≡ front.now ++ rest.now) }
{
    text.strip_prefix(front)
}

/// A number at the front of a text, and what comes behind it.
#[derive(Clone, Copy)]
pub(crate) struct Numbered<'a> {
    pub number: u64,
    pub rest: &'a [u8],
}

/// The number at a text's front that these bytes come after, and what comes after them.
pub(crate) fn number_before<'a>(text: &'a [u8], word: &[u8]) -> Option<Numbered<'a>>
    requires { ends_digits word.now ≡ true }
    ensures found { IfSome result (λ it. text.now ≡ decimal it.number ++ (word.now ++ it.rest.now)) }
    ensures each { (number : ℕ) (rest : List ℕ) → number < 2 ^ 64 → text.now ≡ decimal number ++ (word.now ++ rest) → MatchOption result ⊥ (λ it. (it.number ≡ number) × (it.rest.now ≡ rest)) }
{
    let len = digits_len(text);
    let number = number_of(&text[..len])?;
    let rest = after(from_place(text, len), word)?;
    Some(Numbered { number, rest })
}
