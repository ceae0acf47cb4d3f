//! The agents of a run in which idle devices sleep: those of every run, with a policy in the place of
//! the Plug and Play manager.
#![tactic(auto)]

mod idle_agent;
mod idle_device;
mod idle_policy;
mod laws;
mod taking_part;

pub use idle_agent::{IdleAgent, idle_agents};
pub use idle_device::{ends_asleep, ends_awake};
pub use idle_policy::IdlePolicy;
pub use laws::idle_agents_are_the_models;
pub use taking_part::{is_register_named, opening_value, register_named, timeout_of};
