//! Small tests of equality of the plain types. Two values are one exactly where their variants and
//! fields are; each test computes the definition of the same name.
//!
//! # Choices
//!
//! - **When are two handles equal?** Where both the id and the name are. In a run the id determines the name.
#![tactic(auto)]

mod events;
mod frames;
mod plain;
mod waits;

pub use events::{same_action, same_actor, same_ending, same_event, same_post, same_step};
pub use frames::{same_change, same_frame, same_intent, same_option_pending, same_pending};
pub use plain::{
    same_access, same_arg, same_ask, same_call, same_call_kind, same_cpu, same_fault,
    same_frame_id, same_handle, same_kind, same_life, same_lock, same_mark, same_name,
    same_option_handle, same_option_object_id, same_place, same_request_form, same_request_info,
    same_stage, same_value,
};
pub use waits::{same_cause, same_open_thing, same_option_cause, same_wait_line};
