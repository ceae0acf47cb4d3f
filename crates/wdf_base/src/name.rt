//! Names of at most 32 bytes, as keys of maps.
//!
//! # Choices
//!
//! - **How is a name kept?** 32 bytes with zeros after the name, so that equal names are equal in each byte, and a
//!   name can be copied.
ghost use Rattle.std.specs.Prelude.{◌≡◌, ◌≤◌, length, nat_eq};
ghost use Rattle.std.specs.Cmp.{partial_equiv_from_equiv};
ghost use Rattle.std.specs.Cmp.Lexicographic.{pointwise, nat_list_eq_equiv};
ghost use Rattle.std.specs.Cmp.Rules.{hashing};
ghost use Rattle.std.specs.Hash as fed;
ghost use Rattle.std.proofs.Common.{rules};

use std::hash::{Hash, Hasher};
use std::marker::Model;

/// The most bytes of a name.
pub const NAME_LIMIT: usize = 32;

/// A name of at most [`NAME_LIMIT`] bytes, without heap.
#[derive(Clone, Copy, Debug)]
pub struct Name {
    /// The bytes, and zeros after them.
    bytes: [u8; NAME_LIMIT],
    len: u8,
}

impl Model for Name {
    ghost use Rattle.std.specs.Prelude.{ℕ, List, take, length};
    ghost use Rattle.wdf_base.specs.Name.{IsPadded, padded, padded-front, length-front};

    ghost Value = { List ℕ };

    ghost view = { λ n. take n.len n.bytes };

    ghost invariant = { λ n. IsPadded n.bytes n.len };

    ghost inverse = { λ name. record { bytes = padded name; len = length name } };

    ghost inverse_ok = { λ n h i. record {
      bytes = padded-front n.bytes n.len h i;
      len = length-front n.bytes n.len h i;
    } };
}

impl Name {
    /// The name with these bytes.
    pub fn new(text: &[u8]) -> Name
        requires { length text.now ≤ NAME_LIMIT }
        ensures { result ≡ text.now }
    {
        let mut bytes = [0u8; NAME_LIMIT];
        bytes[..text.len()].copy_from_slice(text);
        Name {
            bytes,
            len: text.len() as u8,
        }
    }

    /// The bytes of the name.
    pub fn bytes(&self) -> &[u8]
        ensures value { result.now ≡ self.now }
        ensures small { length result.now ≤ NAME_LIMIT }
    {
        &self.bytes[..self.len as usize]
    }
}

impl PartialEq for Name {
    ghost eq = { pointwise nat_eq };

    ghost laws = { partial_equiv_from_equiv nat_list_eq_equiv };

    fn eq(&self, other: &Name) -> bool {
        self.bytes() == other.bytes()
    }
}

impl Eq for Name {
    ghost laws = { nat_list_eq_equiv };
}

impl Hash for Name {
    ghost hash_input = { λ n. fed.slice fed.u8 n };

    ghost respects_eq = { Prim.search (hashing, rules) };

    fn hash<H: Hasher>(&self, state: &mut H) {
        self.bytes().hash(state);
    }
}
