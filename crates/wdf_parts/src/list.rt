//! The deeds of one call, in a buffer that takes no memory.
ghost use Rattle.std.specs.Prelude.{◌≡◌, ◌∷◌, []};

use std::marker::Model;
use wdf_base::{FrameId, Irql};
use wdf_model::Deed;

/// A frame that holds a level less.
#[derive(Clone, Copy)]
pub struct Lowered {
    /// The number of the frame.
    pub frame: FrameId,
    /// The level of the lock, from 0 to 12.
    pub level: Irql,
}

/// The deeds of one call, in the order in which they are done: one at most, and what it lowers.
///
/// Contracts see the list of the definitions' deeds.
#[derive(Drop)]
pub struct Deeds {
    pub(crate) first: Option<Deed>,
    pub(crate) lowered: Option<Lowered>,
}

impl Model for Deeds {
    ghost use Rattle.std.specs.Prelude.{List};
    ghost use Rattle.wdf_model.specs.declared.deed.Deed.{Deed};

    ghost Value = { List Deed };

    ghost use Rattle.wdf_parts.specs.List.{deeds_in};

    ghost view = { deeds_in };
}

impl Deeds {
    /// Nothing is done.
    pub fn none() -> Deeds
        ensures { result ≡ [] }
    {
        Deeds {
            first: None,
            lowered: None,
        }
    }

    /// One deed.
    pub fn one(deed: Deed) -> Deeds
        ensures { result ≡ deed ∷ [] }
    {
        Deeds {
            first: Some(deed),
            lowered: None,
        }
    }

    /// One deed, and a frame holds a level less.
    pub fn and_lower(deed: Deed, frame: FrameId, level: Irql) -> Deeds
        ensures { result ≡ deed ∷ Deed.Lower frame level ∷ [] }
    {
        Deeds {
            first: Some(deed),
            lowered: Some(Lowered { frame, level }),
        }
    }
}
