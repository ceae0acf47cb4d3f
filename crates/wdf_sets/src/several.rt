//! Several sets at once. Where one is refused, those that were made before it are let go, and each such way is proved: so they
//! are made by twos.
ghost use Rattle.std.specs.Int.{div_ceil};
ghost use Rattle.std.specs.Prelude.{◌≡◌, ◌<◌, ◌*◌, ◌^◌, IfOk, false, replicate};

use crate::id_set::IdSet;
use std::alloc::Global;
use wdf_base::Memory;

/// Two sets without a member, each with room for the ids below a bound. On [`Memory`] nothing is made.
pub fn two_sets(alloc: Global, bound: u32) -> Result<(IdSet, IdSet), Memory>
    requires { bound < 2 ^ 31 }
    ensures first { IfOk result (λ sets. sets.0 ≡ replicate (4096 * div_ceil bound 4096) false) }
    ensures second { IfOk result (λ sets. sets.1 ≡ replicate (4096 * div_ceil bound 4096) false) }
{
    let first = IdSet::make(alloc, bound)?;
    let second = IdSet::make(alloc, bound)?;
    Ok((first, second))
}

/// Four sets without a member, each with room for the ids below a bound. On [`Memory`] nothing is made.
pub fn four_sets(alloc: Global, bound: u32) -> Result<(IdSet, IdSet, IdSet, IdSet), Memory>
    requires { bound < 2 ^ 31 }
    ensures first { IfOk result (λ sets. sets.0 ≡ replicate (4096 * div_ceil bound 4096) false) }
    ensures second { IfOk result (λ sets. sets.1 ≡ replicate (4096 * div_ceil bound 4096) false) }
    ensures third { IfOk result (λ sets. sets.2 ≡ replicate (4096 * div_ceil bound 4096) false) }
    ensures fourth { IfOk result (λ sets. sets.3 ≡ replicate (4096 * div_ceil bound 4096) false) }
{
    let (first, second) = two_sets(alloc, bound)?;
    let (third, fourth) = two_sets(alloc, bound)?;
    Ok((first, second, third, fourth))
}
