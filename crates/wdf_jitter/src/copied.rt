ghost use Rattle.std.specs.Prelude.{◌≡◌, IfOk};

use std::alloc::Global;
use wdf_base::{Items, MANY, Memory};

/// A list with the same items.
pub(crate) fn copied<T: Copy + Drop>(
    alloc: Global,
    items: &Items<T, MANY>,
) -> Result<Items<T, MANY>, Memory>
    ensures { IfOk result (λ copy. copy ≡ items.now) }
{
    let mut copy = Items::new(alloc);
    for item in items.as_slice() {
        copy.push(*item)?;
    }
    Ok(copy)
}
