//! Tests of how many events may follow: the core takes a worked run, and before each event and after the last it says the number
//! that `law_ready_worked` computes of the definitions.
//!
//! That it does so is proved. The tests try the core as it is built, and would fail with some of the wrong bodies that the prover
//! refuses. Of those of `wdf_ready` `a_group_that_can_start_is_left_out` fails both, and `a_stale_count_is_believed` the one that
//! counts anew; `an_event_forgets_no_count` of `wdf_core` fails the one that keeps its counts.
#![tactic(auto)]

#[cfg(test)]
mod opening;
#[cfg(test)]
mod serial_port;
