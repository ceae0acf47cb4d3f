//! Tests of the source over a reader and the sink over a writer: each of their calls is one call of what they are over.
//!
//! No contract says it: a reader and a writer that say nothing of their bytes can be asked again unseen.
#![tactic(auto)]

#[cfg(test)]
mod tests;
