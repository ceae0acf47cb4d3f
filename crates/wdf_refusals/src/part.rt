//! A list of the plan, made line by line.
ghost use Rattle.std.specs.Prelude.{◌≡◌, ◌++◌, ◌<◌, ◌^◌, length, IfOk, OnOk, Option};
ghost use Rattle.std.specs.Option.{option_to_list};
ghost use Rattle.wdf_blocks.specs.declared.placed.Placed.{Placed};
ghost use Rattle.std.specs.List.{filter_map};
ghost use Rattle.wdf_refusals.specs.Numbered.{Every};
ghost use Rattle.wdf_blocks.specs.Placed.{placed};

use crate::numbers::add_found;
use std::alloc::Global;
use wdf_base::{Items, Memory};
use wdf_blocks::placed::Placed;
use wdf_blocks::walk::Lines;

/// What one list of the plan has of each line.
pub trait Part {
    type Item: Drop;

    ghost part: { Self → Placed → Option Self.Item };

    // What is to hold of each line, so that its numbers fit their types.
    ghost fits: { Self → Placed → Type 0 };

    /// What the list has of a line, if it has something of it.
    fn take(&self, line: &Placed) -> Result<Option<Self::Item>, Memory>
        requires { fits self.now line.now }
        ensures { IfOk result (λ o. o ≡ part self.now line.now) };
}

/// Adds to a list what a part has of each line, in the order of the text.
///
/// # Errors
///
/// [`Memory`] where memory was refused. Nothing is said of the list then.
pub fn gather_after<P: Part, const CEILING: u64>(
    scene: &Lines,
    part: &P,
    items: &mut Items<P::Item, CEILING>,
) -> Result<(), Memory>
    requires fit { Every (P.fits part.now) (placed scene.now) }
    requires many { length (items.old ++ filter_map (P.part part.now) (placed scene.now)) < 2 ^ 32 }
    requires room { length (items.old ++ filter_map (P.part part.now) (placed scene.now)) < CEILING }
    ensures { OnOk result (items.new ≡ items.old ++ filter_map (P.part part.now) (placed scene.now)) }
{
    let mut walk = scene.walk();
    while let Some(line) = walk.next() {
        take_into(part, line, items)?;
    }
    Ok(())
}

/// The list of what a part has of each line, in the order of the text.
///
/// # Errors
///
/// [`Memory`] where memory was refused.
pub fn gather<P: Part, const CEILING: u64>(
    alloc: Global,
    scene: &Lines,
    part: &P,
) -> Result<Items<P::Item, CEILING>, Memory>
    requires fit { Every (P.fits part.now) (placed scene.now) }
    requires many { length (filter_map (P.part part.now) (placed scene.now)) < 2 ^ 32 }
    requires room { length (filter_map (P.part part.now) (placed scene.now)) < CEILING }
    ensures { IfOk result (λ v. v ≡ filter_map (P.part part.now) (placed scene.now)) }
{
    let mut items = Items::new(alloc);
    gather_after(scene, part, &mut items)?;
    Ok(items)
}

fn take_into<P: Part, const CEILING: u64>(
    part: &P,
    line: &Placed,
    items: &mut Items<P::Item, CEILING>,
) -> Result<(), Memory>
    requires fits { P.fits part.now line.now }
    requires many { length (items.old ++ option_to_list (P.part part.now line.now)) < 2 ^ 32 }
    requires room { length (items.old ++ option_to_list (P.part part.now line.now)) < CEILING }
    ensures { OnOk result (items.new ≡ items.old ++ option_to_list (P.part part.now line.now)) }
{
    let found = part.take(line)?;
    add_found(items, found)
}
