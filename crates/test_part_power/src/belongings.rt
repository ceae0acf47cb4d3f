//! What belongs to a device, in the order of its ids.
use crate::plans::{WITH_BELONGINGS, plan};
use std::test::Fail;
use wdf_base::ObjectId;
use wdf_plan_index::{Belongings, IndexedPlan};

/// What belongs to an object.
#[derive(Clone, Copy)]
struct Belonging {
    id: u32,
    queues: &'static [u32],
    interrupts: &'static [u32],
    targets: &'static [u32],
}

/// The two devices.
static DEVICES: [Belonging; 2] = [
    Belonging {
        id: 2,
        queues: &[3, 8],
        interrupts: &[4, 9],
        targets: &[7, 10],
    },
    Belonging {
        id: 5,
        queues: &[6],
        interrupts: &[],
        targets: &[],
    },
];

/// What is no device: the id of nothing, the driver object, a queue, and ids past the ten that are declared, of which
/// 13 leaves the remainder 2 by eleven, and 16 leaves 5.
static OTHERS: [u32; 6] = [0, 1, 3, 11, 13, 16];

/// Whether exactly these ids come, in this order.
fn come(mut found: Belongings<'_>, due: &[u32]) -> bool {
    for id in due {
        match found.next() {
            Some(o) if o.0 == *id => {}
            _ => return false,
        }
    }
    found.next().is_none()
}

/// Whether exactly this belongs to it.
fn has(plan: &IndexedPlan, due: &Belonging) -> bool {
    let device = ObjectId(due.id);
    come(plan.queues_of(device), due.queues)
        && come(plan.interrupts_of(device), due.interrupts)
        && come(plan.targets_of(device), due.targets)
}

/// The first device that has something else.
fn wrong_device(plan: &IndexedPlan) -> Option<u32> {
    for due in DEVICES.iter() {
        if !has(plan, due) {
            return Some(due.id);
        }
    }
    None
}

/// Whether nothing belongs to an id.
fn has_nothing(plan: &IndexedPlan, id: u32) -> bool {
    let nothing = Belonging {
        id,
        queues: &[],
        interrupts: &[],
        targets: &[],
    };
    has(plan, &nothing)
}

/// The first of the others that has something.
fn wrong_other(plan: &IndexedPlan) -> Option<u32> {
    for id in OTHERS.iter() {
        if !has_nothing(plan, *id) {
            return Some(*id);
        }
    }
    None
}

#[test]
fn devices_have_their_own(rt: HostRuntime) -> Result<(), Fail> {
    let plan = IndexedPlan::make(rt.alloc(), plan(rt.alloc(), &WITH_BELONGINGS)?)?;
    assert_eq!(rt; wrong_device(&plan), None);
    assert_eq!(rt; wrong_other(&plan), None);
    Ok(())
}
