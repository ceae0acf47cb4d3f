//! The agents of runs with stacks of devices: the stack manager, a connector for each connected target, and those of `wdf_dev`.
//! Each is a fold of the events of the run.
#![tactic(auto)]

mod agents;
mod chains;
mod connector;
mod forwarded;
mod laws;
mod line;
mod spans;
mod stack_manager;

pub use agents::{StackAgent, stack_agents};
pub use connector::Connector;
pub use laws::stack_agents_are_the_models;
pub use stack_manager::StackManager;
