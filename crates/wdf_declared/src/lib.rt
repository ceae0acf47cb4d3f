//! What a plan declares, by the ids of objects and the numbers of classes.
//!
//! # Choices
//!
//! - **Which objects can a call not make?** Those of a kind that only the scenario declares, and requests that
//!   arrive: so such an object is always a declared one.
#![tactic(auto)]

mod declared;

pub use declared::{
    class_at, declared_at, declares, device_of, interrupt_of, name_of_class, parent_of_class,
    queue_of, target_of,
};
