//! DPCs in the lists of two processors.
ghost use Rattle.std.specs.Prelude.{◌≡◌, ◌<◌, IfOk, length};

use crate::trials::Wrong;
use std::alloc::Global;
use wdf_base::{Cpu, Memory, ObjectId, Plan};
use wdf_defer::Dpcs;
use wdf_model::OBJECTS;

const ONE: ObjectId = ObjectId(7);

const OTHER: ObjectId = ObjectId(5);

const THIRD: ObjectId = ObjectId(9);

/// What happens to the lists, and what is read of them, with the answer that is due. Processors are
/// named by their numbers.
#[derive(Clone, Copy)]
enum Act {
    /// A DPC is queued on a processor.
    Enqueue(u8, ObjectId, bool),
    /// A DPC is cancelled.
    Cancel(ObjectId, bool),
    /// The first DPC of a processor starts.
    Take(u8, Option<ObjectId>),
    /// The DPCs of a processor's list.
    Lists(u8, &'static [ObjectId]),
    /// Whether a DPC is in a processor's list.
    IsOn(u8, ObjectId, bool),
    /// Whether a DPC is in a list.
    IsQueued(ObjectId, bool),
}

/// A DPC is queued last on the processor that queues it, once, and leaves its list at its start or
/// by a cancel.
static ACTS: [Act; 16] = [
    Act::Take(0, None),
    Act::Enqueue(0, ONE, true),
    Act::Enqueue(0, OTHER, true),
    Act::Enqueue(1, THIRD, true),
    Act::Enqueue(1, ONE, false),
    Act::Lists(0, &[ONE, OTHER]),
    Act::Lists(1, &[THIRD]),
    Act::IsOn(0, ONE, true),
    Act::IsOn(1, ONE, false),
    Act::Cancel(ONE, true),
    Act::Cancel(ONE, false),
    Act::IsQueued(ONE, false),
    Act::IsQueued(OTHER, true),
    Act::Take(0, Some(OTHER)),
    Act::Lists(0, &[]),
    Act::Lists(1, &[THIRD]),
];

/// The empty lists of two processors.
fn opening(alloc: Global, plan: &Plan) -> Result<Dpcs, Memory>
    ensures { IfOk result (λ dpcs. length dpcs.lists ≡ 2) }
{
    if plan.cpus() == 2 {
        Dpcs::make(alloc, plan)
    } else {
        Err(Memory)
    }
}

/// Whether the DPCs of a processor's list are these.
fn lists(dpcs: &Dpcs, cpu: Cpu, due: &[ObjectId]) -> bool {
    let mut at = 0;
    for o in due {
        if at >= dpcs.len(cpu) || dpcs.at(cpu, at) != *o {
            return false;
        }
        at += 1;
    }
    at == dpcs.len(cpu) && dpcs.dpc_head(cpu) == due.first().copied()
}

/// Does an act; whether it may come, and the answer is the due one.
fn does(dpcs: &mut Dpcs, act: Act) -> bool
    requires { length dpcs.old.lists ≡ 2 }
    ensures { length dpcs.new.lists ≡ 2 }
{
    match act {
        Act::Enqueue(cpu, o, due) if cpu < 2 && o.0 < OBJECTS => dpcs.enqueue(Cpu(cpu), o) == due,
        Act::Cancel(o, due) => dpcs.cancel(o) == due,
        Act::Take(cpu, due) if cpu < 2 => dpcs.take(Cpu(cpu)) == due,
        Act::Lists(cpu, due) => lists(dpcs, Cpu(cpu), due),
        Act::IsOn(cpu, o, due) => dpcs.is_on(Cpu(cpu), o) == due,
        Act::IsQueued(o, due) => dpcs.is_dpc_queued(o) == due,
        _ => false,
    }
}

/// The place of the first act that isn't as due.
fn first_wrong(dpcs: &mut Dpcs, acts: &[Act]) -> Option<usize>
    requires { length dpcs.old.lists ≡ 2 }
{
    'all: for at in 0..acts.len() {
        if !does(dpcs, acts[at]) {
            return Some(at);
        }
    }
    None
}

/// The same in what is made for it.
fn wrong_in(mut dpcs: Dpcs, acts: &[Act]) -> Option<usize>
    requires { length dpcs.lists ≡ 2 }
{
    first_wrong(&mut dpcs, acts)
}

/// What is wrong with the acts, from the opening on.
pub fn wrong(alloc: Global, plan: &Plan) -> Result<Wrong, Memory> {
    let dpcs = opening(alloc, plan)?;
    match wrong_in(dpcs, &ACTS) {
        Some(place) => Ok(Some(("DPCs", place))),
        None => Ok(None),
    }
}
