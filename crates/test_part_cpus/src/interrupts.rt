//! Interrupts that are enabled and disabled.
use crate::trials::{Part, Wrong, wrong_in};
use std::alloc::Global;
use wdf_base::{Memory, ObjectId, Plan};
use wdf_intr::Interrupts;
use wdf_model::OBJECTS;

const ONE: ObjectId = ObjectId(4);

const OTHER: ObjectId = ObjectId(5);

/// What happens to the interrupts, and what is read of them, with the answer that is due.
#[derive(Clone, Copy)]
pub enum Act {
    Enable(ObjectId),
    Disable(ObjectId),
    IsEnabled(ObjectId, bool),
    /// Whether the service routine of an interrupt is due where its level line is so.
    Due(ObjectId, bool, bool),
}

/// A service routine is due where the level line is 1 and the interrupt is enabled.
static ACTS: [Act; 9] = [
    Act::IsEnabled(ONE, false),
    Act::Due(ONE, true, false),
    Act::Enable(ONE),
    Act::IsEnabled(ONE, true),
    Act::Due(ONE, true, true),
    Act::Due(ONE, false, false),
    Act::Due(OTHER, true, false),
    Act::Disable(ONE),
    Act::IsEnabled(ONE, false),
];

impl Part for Interrupts {
    type Act = Act;

    fn does(&mut self, act: Act) -> bool {
        match act {
            Act::Enable(i) if i.0 < OBJECTS => self.enable(i),
            Act::Disable(i) if i.0 < OBJECTS => self.disable(i),
            Act::IsEnabled(i, due) => return self.is_enabled(i) == due,
            Act::Due(i, line, due) => return self.isr_due(i, line) == due,
            _ => return false,
        }
        true
    }
}

/// What is wrong with the acts, from the opening on.
pub fn wrong(alloc: Global, plan: &Plan) -> Result<Wrong, Memory> {
    let interrupts = Interrupts::make(alloc, plan)?;
    match wrong_in(interrupts, &ACTS) {
        Some(place) => Ok(Some(("interrupts", place))),
        None => Ok(None),
    }
}
