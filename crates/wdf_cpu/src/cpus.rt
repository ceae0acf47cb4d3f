ghost use Rattle.std.specs.Prelude.{◌≡◌, [], length, map, IfOk};
ghost use Rattle.std.specs.Option.{option_map};
ghost use Rattle.wdf_model.specs.parts.Cpus.{opening_cpus};
ghost use Rattle.wdf_cpu.specs.Fresh.{AreFresh, CountNothing};
ghost use Rattle.wdf_cpu.specs.Keys.{object_key, wait_key};
ghost use Rattle.wdf_cpu.specs.ParkedFor.{lock_in, lock_key, lock_of_call, takes_wait_lock};

use crate::fresh::{FreshLists, FreshTallies};
use crate::levels::Levels;
use crate::stack::Stack;
use crate::untils::Untils;
use std::alloc::Global;
use std::marker::Model;
use wdf_base::{Call, CallKind, Frame, Memory, ObjectId, Pending, Plan};
use wdf_maps::Rising;
use wdf_model::{OBJECTS, Running, object_in};
use wdf_slots::Slots;
use wdf_tally::Tally;

/// The processors, their frames and the frames that are parked.
#[derive(Drop)]
pub struct Cpus {
    /// The frames by number.
    pub(crate) frames: Slots<Running>,
    /// The frames of each processor.
    pub(crate) stacks: Vec<Stack>,
    /// The numbers of the frames that left their processor, rising.
    pub(crate) parked: Rising<u32>,
    /// The levels that frames hold, the latest first.
    pub(crate) levels: Levels,
    /// Whether a frame runs or is parked, by number.
    pub(crate) live: Vec<bool>,
    /// The level of each frame, by number.
    pub(crate) peaks: Vec<u8>,
    /// How many frames run on an object.
    pub(crate) on: Tally,
    /// How many frames wait for an object.
    pub(crate) waits: Tally,
    /// How many parked frames wait for the wait lock of an id; those that wait for anything else have the id 0.
    pub(crate) parked_for: Tally,
    /// The ticks until which these frames spend.
    pub(crate) untils: Untils,
}

impl Model for Cpus {
    ghost use Rattle.wdf_model.specs.parts.Cpus.{Cpus as Processors};

    ghost Value = { Processors };

    ghost use Rattle.wdf_cpu.specs.Kept.{cpus_in, IsSound};

    ghost view = { cpus_in };

    ghost invariant = { IsSound };
}

impl Cpus {
    /// The processors at the opening of the plan's run: each is empty. It takes all the memory that
    /// they need.
    pub fn make(alloc: Global, plan: &Plan) -> Result<Cpus, Memory>
        ensures { IfOk result (λ c. c ≡ opening_cpus plan.now) }
    {
        let lists = FreshLists::make(alloc, plan.cpus())?;
        let frames = Slots::make(alloc)?;
        let tallies = FreshTallies::make(alloc)?;
        Ok(Cpus::begun(plan, frames, lists, tallies))
    }

    /// The processors at the opening, over this memory.
    fn begun(plan: &Plan, frames: Slots<Running>, lists: FreshLists, tallies: FreshTallies) -> Cpus
        requires frames { frames ≡ [] }
        requires lists { AreFresh plan.now.cpus lists }
        requires tallies { CountNothing tallies }
        ensures { result ≡ opening_cpus plan.now }
    {
        let _ = plan;
        Cpus {
            frames,
            stacks: lists.stacks,
            parked: lists.parked,
            levels: lists.levels,
            live: lists.live,
            peaks: lists.peaks,
            on: tallies.on,
            waits: tallies.waits,
            parked_for: tallies.parked_for,
            untils: lists.untils,
        }
    }

    /// The processors at the opening of a plan's run once more, where it has as many: each is empty.
    pub fn begin_again(&mut self, plan: &Plan)
        requires { length self.old.stacks ≡ plan.now.cpus }
        ensures { self.new ≡ opening_cpus plan.now }
    {
        let _ = plan;
        self.frames.clear();
        clear_stacks(&mut self.stacks);
        self.parked.clear();
        self.levels.clear();
        self.live.clear();
        self.peaks.clear();
        self.on.clear();
        self.waits.clear();
        self.parked_for.clear();
        self.untils.clear();
    }
}

/// Each processor is empty again.
fn clear_stacks(stacks: &mut Vec<Stack>)
    ensures { stacks.new.items ≡ map (λ _. []) stacks.old.items }
{
    clear_each(stacks.as_mut_slice());
}

/// Each of these processors is empty again.
fn clear_each(stacks: &mut [Stack])
    ensures { stacks.new ≡ map (λ _. []) stacks.old }
{
    for stack in stacks.iter_mut() {
        stack.clear();
    }
}

/// The object of a frame.
pub(crate) fn object_key(frame: &Frame) -> Option<ObjectId>
    ensures { option_map (λ o. o.0) result ≡ object_key frame.now }
{
    Some(frame.object.id)
}

/// The object for which a frame waits: the first argument of its call, the id 0 where that is none.
pub(crate) fn wait_key(frame: &Frame) -> Option<ObjectId>
    ensures { option_map (λ o. o.0) result ≡ wait_key frame.now }
{
    let pending = frame.pending?;
    Some(object_in(pending.call.a))
}

/// The wait lock that a frame waits to take by a call; the id 0 where it waits for anything else, or not at all.
pub(crate) fn lock_key(frame: &Frame) -> ObjectId
    ensures { result.0 ≡ lock_key frame.now }
{
    lock_in(&frame.pending)
}

/// The wait lock that such a call waits to take; the id 0 where it waits for anything else, or where there is none.
pub(crate) fn lock_in(pending: &Option<Pending>) -> ObjectId
    ensures { result.0 ≡ lock_in pending.now }
{
    match pending {
        Some(pending) => lock_of_call(&pending.call),
        None => ObjectId(0),
    }
}

/// The wait lock that a call takes; the id 0 of another call.
fn lock_of_call(call: &Call) -> ObjectId
    ensures { result.0 ≡ lock_of_call call.now }
{
    let object = object_in(call.a);
    if takes_wait_lock(call.kind) && object.0 < OBJECTS {
        object
    } else {
        ObjectId(0)
    }
}

/// Whether a call of this kind takes a wait lock.
fn takes_wait_lock(kind: CallKind) -> bool
    ensures { result ≡ takes_wait_lock kind }
{
    matches!(kind, CallKind::WdfWaitLockAcquire)
}
