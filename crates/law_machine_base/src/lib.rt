//! Laws over all runs of the framework machine, and over any machine's runs; facts of its events and tables; and the
//! lemmas that more laws rest on: which deeds fit where they are done, and what each keeps.
#![tactic(auto)]

pub mod facts_of_events;
pub mod facts_of_tables;
pub mod laws;
pub mod laws_of_runs;
pub mod worked;
