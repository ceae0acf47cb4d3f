//! Tests of the lines of a trace: each form of line is written as it should be, and read back; other texts aren't read.
#![tactic(auto)]

#[cfg(test)]
mod callbacks;
#[cfg(test)]
mod calls;
#[cfg(test)]
mod endings;
#[cfg(test)]
mod events;
#[cfg(test)]
mod objects;
#[cfg(test)]
mod plan;
#[cfg(test)]
mod tests;
