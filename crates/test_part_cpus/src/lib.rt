//! Tests of the processors, the locks, the interrupts and what runs later, by hand-made cases.
#![tactic(auto)]

#[cfg(test)]
mod dpcs;
#[cfg(test)]
mod interrupts;
#[cfg(test)]
mod locks;
#[cfg(test)]
mod processors;
#[cfg(test)]
mod scopes;
#[cfg(test)]
mod timers;
#[cfg(test)]
mod trials;
#[cfg(test)]
mod work_items;
