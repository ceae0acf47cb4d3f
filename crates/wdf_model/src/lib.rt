//! The framework machine's definitions: the state of each part of the framework, what may follow in a
//! state, and what an event changes; and runs, over any machine.
#![tactic(auto)]

mod arguments;
mod deed;
mod entries;
mod enums;
mod room;
mod stack;

pub use arguments::object_in;
pub use deed::Deed;
pub use entries::{
    CELLS, DeviceAction, DevicePower, Held, HeldLevel, Holding, Node, QueueControl, QueuePower,
    Request, Running, Sending, SentRequest, Timed,
};
pub use enums::{Group, Mode, Phase};
pub use room::{EVENTS, FRAMES, OBJECTS};
pub use stack::{Arrival, AskPost, Descent, Forwarded, StackDevice};
