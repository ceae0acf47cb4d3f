ghost use Rattle.std.specs.Prelude.{◌<◌};

use std::alloc::Global;
use wdf_base::{Items, Memory};

/// These items, as a part of a plan has them: at most the first 99. A test gives fewer. Answers [`Memory`] where memory was
/// refused.
pub fn items<T: Copy + Drop, const CEILING: u64>(
    alloc: Global,
    all: &[T],
) -> Result<Items<T, CEILING>, Memory>
    requires { 100 < CEILING }
{
    let mut items = Items::new(alloc);
    for item in all {
        if items.len() < 99 {
            items.push(*item)?;
        }
    }
    Ok(items)
}
