//! Tests of what is kept from event to event: after a statement that touches its own frame alone, how many events may follow is
//! said without a question to an agent.
//!
//! It is so where the core kept its counts: after `count_ready` or `apply_pick`. A core that is driven by `ready_len`, `ready_at`
//! and `apply` alone keeps none, and asks the agents each time.
#![tactic(auto)]

#[cfg(test)]
mod asked;
#[cfg(test)]
mod locals;
