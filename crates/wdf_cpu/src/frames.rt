//! All frames, running and parked.
ghost use Rattle.std.specs.Prelude.{◌≡◌, ◌+◌, ◌<◌, ◌≤◌, ◌++◌, length, count_by, slice_get, MatchOption, Some, nat_lt};
ghost use Rattle.std.specs.List.{flat_map, list_any};
ghost use Rattle.wdf_model.specs.State.{waits_for};
ghost use Rattle.wdf_model.specs.parts.Cpus as cpus;
ghost use Rattle.wdf_model.specs.declared.room.TheConstants.{OBJECTS};
ghost use Rattle.wdf_sets.specs.Nexts.{IsNext, NoneFrom};
ghost use Rattle.wdf_cpu.specs.FrameTests.{passes};
ghost use Rattle.wdf_cpu.specs.Occupied.{is_awaited, is_occupied};
ghost use Rattle.wdf_cpu.specs.ParkedFor.{is_for, some_parked_for};

use crate::cpus::Cpus;
use crate::frame_test::FrameTest;
use crate::stack::Stack;
use wdf_base::{Callback, FrameId, ObjectId};
use wdf_model::{FRAMES, OBJECTS};

impl Cpus {
    /// How many frames run or are parked.
    pub fn live_len(&self) -> usize
        ensures value { result ≡ length (cpus.all_frames self.now) }
        ensures small { result ≤ FRAMES }
    {
        stacked_len(&self.stacks) + self.parked.len() as usize
    }

    /// The frame at a place: those of each processor from its top on, then the parked ones.
    pub fn live_at(&self, place: usize) -> FrameId
        requires { place < length (cpus.all_frames self.now) }
        ensures { slice_get (cpus.all_frames self.now) place ≡ Some result.0 }
    {
        FrameId(frame_in(&self.stacks, self.parked.as_slice(), place))
    }

    /// How many frames are on an object, on a processor or parked.
    pub fn frames_on(&self, o: ObjectId) -> u32
        ensures { result ≡ cpus.frames_on self.now o.0 }
    {
        if o.0 < OBJECTS {
            self.on.of(o)
        } else {
            self.count(FrameTest::On(o))
        }
    }

    /// Whether no frame is on an object, on a processor or parked.
    pub fn nobody_on(&self, o: ObjectId) -> bool
        ensures { result ≡ cpus.nobody_on self.now o.0 }
    {
        self.frames_on(o) == 0
    }

    /// Whether a frame waits for an object: it is the first argument of the call that waits.
    pub fn is_waited_for(&self, o: ObjectId) -> bool
        ensures { result ≡ list_any (λ f. waits_for o.0 (cpus.frame_of self.now f).pending) (cpus.all_frames self.now) }
    {
        if o.0 < OBJECTS {
            self.waits.of(o) != 0
        } else {
            self.any(FrameTest::WaitsFor(o))
        }
    }

    /// The first object from an id on that a frame is on, on a processor or parked.
    pub fn next_occupied(&self, from: ObjectId) -> Option<ObjectId>
        ensures { MatchOption result (NoneFrom (is_occupied self.now) from.0 OBJECTS) (λ o. IsNext (is_occupied self.now) from.0 OBJECTS o.0) }
    {
        self.on.next(from)
    }

    /// The first object from an id on that a frame waits for.
    pub fn next_awaited(&self, from: ObjectId) -> Option<ObjectId>
        ensures { MatchOption result (NoneFrom (is_awaited self.now) from.0 OBJECTS) (λ o. IsNext (is_awaited self.now) from.0 OBJECTS o.0) }
    {
        self.waits.next(from)
    }

    /// The first id from one on for whose wait lock a parked frame waits; one that waits for anything else has the id 0.
    pub fn next_parked_for(&self, from: ObjectId) -> Option<ObjectId>
        ensures { MatchOption result (NoneFrom (some_parked_for self.now) from.0 OBJECTS) (λ o. IsNext (some_parked_for self.now) from.0 OBJECTS o.0) }
    {
        self.parked_for.next(from)
    }

    /// How many parked frames wait for the wait lock of an id; with the id 0, how many wait for anything else.
    pub fn count_parked_for(&self, o: ObjectId) -> u32
        requires { o.0 < OBJECTS }
        ensures { result ≡ count_by (is_for self.now o.0) self.now.parked }
    {
        self.parked_for.of(o)
    }

    /// Whether a frame of this callback, on a processor or parked, is on a device, or on what has it as nearest device.
    pub fn is_running(&self, callback: Callback, device: ObjectId) -> bool
        ensures { result ≡ cpus.is_running self.now callback device.0 }
    {
        self.any(FrameTest::Runs(callback, device))
    }

    /// Whether a frame spends at this tick.
    pub fn any_spends(&self, time: u64) -> bool
        ensures { result ≡ list_any (λ f. nat_lt time (cpus.frame_of self.now f).until) (cpus.all_frames self.now) }
    {
        time < self.untils.latest()
    }

    /// Whether some frame passes a test.
    fn any(&self, test: FrameTest) -> bool
        ensures { result ≡ list_any (λ f. passes test (cpus.frame_of self.now f)) (cpus.all_frames self.now) }
    {
        for place in 0..self.live_len() {
            if test.passes(self.frame(self.live_at(place))) {
                return true;
            }
        }
        false
    }

    /// How many frames pass a test.
    fn count(&self, test: FrameTest) -> u32
        ensures { result ≡ count_by (λ f. passes test (cpus.frame_of self.now f)) (cpus.all_frames self.now) }
    {
        let mut count = 0;
        for place in 0..self.live_len() {
            if test.passes(self.frame(self.live_at(place))) {
                count += 1;
            }
        }
        count
    }
}

/// How many frames are on processors.
fn stacked_len(stacks: &[Stack]) -> usize
    requires { length (flat_map (λ fs. fs) stacks.now) ≤ FRAMES }
    ensures { result ≡ length (flat_map (λ fs. fs) stacks.now) }
{
    let mut total = 0;
    for stack in stacks {
        total += stack.len();
    }
    total
}

/// The frame at a place: those of each processor from its top on, then the parked ones.
fn frame_in(stacks: &[Stack], parked: &[u32], place: usize) -> u32
    requires { place < length (flat_map (λ fs. fs) stacks.now ++ parked.now) }
    ensures { slice_get (flat_map (λ fs. fs) stacks.now ++ parked.now) place ≡ Some result }
{
    let mut left = place;
    for stack in stacks {
        if left < stack.len() {
            return stack.get(left);
        }
        left -= stack.len();
    }
    parked[left]
}
