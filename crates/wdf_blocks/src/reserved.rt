//! Words of the language that are no names.
ghost use Rattle.std.specs.Prelude.{◌≡◌, ◌<◌, codes, drop, length};
ghost use Rattle.std.specs.Char.{is_ascii_digit};
ghost use Rattle.std.specs.List.{list_all};
ghost use Rattle.std.specs.Str.{bytes_eq};
ghost use Rattle.wdf_base.specs.Resolved.{is_reserved};
ghost use Rattle.wdf_blocks.specs.Reserved as spec;

use wdf_base::{Name, Status};
use wdf_scene::context_from_word;

fn is_actor_word(name: &[u8]) -> bool
    ensures { result ≡ spec.is_actor_word name.now }
{
    name == "req".as_bytes()
        || name == "fw".as_bytes()
        || name == "clock".as_bytes()
        || name == "pnp".as_bytes()
        || name == "driver".as_bytes()
}

fn is_cpu(word: &[u8]) -> bool
    ensures { result ≡ bytes_eq word.now (codes "cpu") }
{
    word == "cpu".as_bytes()
}

fn are_digits_from(word: &[u8], from: usize) -> bool
    ensures { result ≡ list_all is_ascii_digit (drop from word.now) }
{
    word.iter().skip(from).all(|byte| byte.is_ascii_digit())
}

fn is_cpu_with_digits(name: &[u8]) -> bool
    requires { 3 < length name.now }
    ensures { result ≡ spec.is_cpu_with_digits name.now }
{
    is_cpu(&name[..3]) && are_digits_from(name, 3)
}

fn is_processor_word(name: &[u8]) -> bool
    ensures { result ≡ spec.is_processor_word name.now }
{
    name.len() > 3 && is_cpu_with_digits(name)
}

#[tactic(auto, unfolding(crate::specs::Reserved::is_refused_word))]
fn is_refused_word(name: &[u8]) -> bool
    ensures { result ≡ spec.is_refused_word name.now }
{
    Status::from_word(name).is_some()
        || context_from_word(name).is_some()
        || is_actor_word(name)
        || is_processor_word(name)
}

/// Whether a name is a word that no declared thing and no variable may have.
#[tactic(auto, using(crate::proofs::FreeNames::reserved_same))]
pub fn is_reserved(name: &Name) -> bool
    ensures { result ≡ is_reserved name.now }
{
    is_refused_word(name.bytes())
}
