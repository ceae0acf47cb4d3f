//! What is kept by id: numbers, flags and lists.
ghost use Rattle.std.specs.Prelude.{◌≡◌, ℕ, OnOk, nat_eq, Some};
ghost use Rattle.std.specs.HashMap.{get};
ghost use Rattle.check_past.specs.Maps as maps;

use std::alloc::Global;
use std::collections::HashMap;
use wdf_base::Memory;

/// Numbers by id.
pub type Numbers = HashMap<u32, usize>;

/// Flags by id.
pub type Flags = HashMap<u32, bool>;

/// The number at an id, 0 for none.
pub fn number_at(numbers: &Numbers, id: u32) -> usize
    ensures { result ≡ maps.number_at numbers.now id }
{
    match numbers.get(&id) {
        Some(number) => *number,
        None => 0,
    }
}

/// The flag at an id.
pub fn flag_at(flags: &Flags, id: u32) -> bool
    ensures { result ≡ maps.flag_at flags.now id }
{
    match flags.get(&id) {
        Some(flag) => *flag,
        None => false,
    }
}

/// The list at an id.
pub fn group_at<T>(groups: &HashMap<u32, Vec<T>>, id: u32) -> &[T]
    ensures { result.now ≡ maps.group_at groups.now id }
{
    match groups.get(&id) {
        Some(group) => group.as_slice(),
        None => &[],
    }
}

/// Puts a value at an id, if there is one.
pub fn put<V: Drop>(values: &mut HashMap<u32, V>, id: Option<u32>, value: V) -> Result<(), Memory>
    ensures { OnOk result ((q : ℕ) → get nat_eq values.new q ≡ maps.put_at id value q (get nat_eq values.old q)) }
{
    match id {
        Some(id) => {
            values.insert(id, value)?;
        }
        None => {}
    }
    Ok(())
}

/// Adds an item to the list at an id, if there is one.
pub fn add<T: Drop>(
    alloc: Global,
    groups: &mut HashMap<u32, Vec<T>>,
    id: Option<u32>,
    item: T,
) -> Result<(), Memory>
    ensures { OnOk result ((q : ℕ) → maps.group_at groups.new q ≡ maps.added_at id item q (maps.group_at groups.old q)) }
{
    match id {
        Some(id) => add_at(alloc, groups, id, item),
        None => Ok(()),
    }
}

fn add_at<T: Drop>(
    alloc: Global,
    groups: &mut HashMap<u32, Vec<T>>,
    id: u32,
    item: T,
) -> Result<(), Memory>
    ensures { OnOk result ((q : ℕ) → maps.group_at groups.new q ≡ maps.added_at (Some id) item q (maps.group_at groups.old q)) }
{
    let mut group = match groups.remove(&id) {
        Some(group) => group,
        None => Vec::new(alloc),
    };
    group.push(item)?;
    groups.insert(id, group)?;
    Ok(())
}
