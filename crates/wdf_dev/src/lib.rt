//! The agents: what acts on the framework from outside. They are the Plug and Play manager, the apps, the devices and the
//! drivers below the targets. Each is a fold of the events of the run.
//!
//! # Choices
//!
//! - **Which numbers have the agents?** The Plug and Play manager is agent 0, then the apps, the devices and the
//!   targets. One that has nothing to post has its number too, so that a number doesn't depend on the lines.
//! - **In which order does a device post lines that are due at once?** In the order of the text, those with `when`
//!   and those with `at` alike. A reader of the scenario sees one list. The plan keeps the two in lists of their own,
//!   each line with its number, and the device merges them by it.
//! - **What does a full target's agent do with a send?** Nothing: the call is answered 0, and an agent takes a
//!   request only at the answer 1.
//! - **What does a `when` action trigger?** Nothing. A script's `get` and `put` alone trigger `when` lines, and those
//!   of the register's own device, whichever driver callback it was.
//! - **What tick comes after the last?** A tick is a number of 64 bits. Where an agent's action or completion would
//!   be due later than the last tick, it is due at the last one, in the definitions and in the code alike. So no
//!   agent has to say that there is room. The clock has room in each run, since an event moves it by one tick at most
//!   (`law_machine_room`), and a timer or a frame waits for at most 1,000,000 ticks.
#![tactic(auto)]

mod ahead;
mod any;
mod app;
mod device;
mod device_lines;
mod laws;
mod lower_target;
mod pnp_manager;

pub use any::{AnyAgent, agents};
pub use app::App;
pub use device::Device;
pub use laws::agents_are_the_models;
pub use lower_target::{LowerTarget, handle_in, names};
pub use pnp_manager::PnpManager;
