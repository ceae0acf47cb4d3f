//! Plans for tests: a builder of plans, and lists as plans have them.
#![tactic(auto)]

mod lists;
mod plan_builder;

pub use lists::items;
pub use plan_builder::PlanBuilder;
