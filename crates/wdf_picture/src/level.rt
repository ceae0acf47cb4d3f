//! The level at which a callback runs, as the plan says it.
use wdf_base::{Callback, CallbackLevel, Declared, ExecutionLevel, Handle, Irql, Plan};

/// What the object with this id is declared as, if it is.
pub(crate) fn declared_at(plan: &Plan, id: u32) -> Option<Declared> {
    if id == 0 {
        return None;
    }
    match plan.declared.as_slice().get(id as usize - 1) {
        Some(declared) => Some(*declared),
        None => None,
    }
}

fn level_of_queue(level: ExecutionLevel) -> u8 {
    match level {
        ExecutionLevel::Passive => 0,
        ExecutionLevel::Dispatch => 2,
    }
}

/// The level at which a callback of an object runs: 0 is passive, 2 is dispatch, more is a device's.
pub(crate) fn level_of(plan: &Plan, callback: Callback, object: Handle) -> u8 {
    match callback.row().level {
        CallbackLevel::Level(Irql(level)) => level,
        CallbackLevel::OfInterrupt => match declared_at(plan, object.id.0) {
            Some(Declared::Interrupt(interrupt)) => interrupt.level.0,
            _ => 0,
        },
        CallbackLevel::OfQueue => match declared_at(plan, object.id.0) {
            Some(Declared::Queue(queue)) => level_of_queue(queue.level),
            _ => 0,
        },
    }
}
