//! Tests of the lists and the sets of ids, of entries by rising id, and of entries by id in slots.
#![tactic(auto)]

#[cfg(test)]
mod lists;
#[cfg(test)]
mod rising;
#[cfg(test)]
mod sets;
#[cfg(test)]
mod slots;
