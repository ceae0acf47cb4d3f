//! Work items in their queue.
use crate::trials::{Part, Wrong, wrong_in};
use std::alloc::Global;
use wdf_base::{Memory, ObjectId, Plan};
use wdf_defer::WorkItems;
use wdf_model::OBJECTS;

const ONE: ObjectId = ObjectId(7);

const OTHER: ObjectId = ObjectId(5);

/// What happens to the queue, and what is read of it, with the answer that is due.
#[derive(Clone, Copy)]
pub enum Act {
    Enqueue(ObjectId, bool),
    Cancel(ObjectId, bool),
    /// The queued work items.
    Holds(&'static [ObjectId]),
    IsQueued(ObjectId, bool),
}

/// A work item is queued once, and the queued ones come in the order of their ids.
static ACTS: [Act; 8] = [
    Act::Cancel(ONE, false),
    Act::Enqueue(ONE, true),
    Act::Enqueue(OTHER, true),
    Act::Enqueue(ONE, false),
    Act::Holds(&[OTHER, ONE]),
    Act::Cancel(OTHER, true),
    Act::IsQueued(OTHER, false),
    Act::IsQueued(ONE, true),
];

/// Whether the queued work items are these.
fn holds(items: &WorkItems, due: &[ObjectId]) -> bool {
    let mut at = 0;
    for o in due {
        if at >= items.len() || items.at(at) != *o {
            return false;
        }
        at += 1;
    }
    at == items.len()
}

impl Part for WorkItems {
    type Act = Act;

    fn does(&mut self, act: Act) -> bool {
        match act {
            Act::Enqueue(o, due) => o.0 < OBJECTS && self.enqueue(o) == due,
            Act::Cancel(o, due) => self.cancel(o) == due,
            Act::Holds(due) => holds(self, due),
            Act::IsQueued(o, due) => self.is_work_queued(o) == due,
        }
    }
}

/// What is wrong with the acts, from the opening on.
pub fn wrong(alloc: Global, plan: &Plan) -> Result<Wrong, Memory> {
    let items = WorkItems::make(alloc, plan)?;
    match wrong_in(items, &ACTS) {
        Some(place) => Ok(Some(("work items", place))),
        None => Ok(None),
    }
}
