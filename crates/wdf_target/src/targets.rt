ghost use Rattle.std.specs.Prelude.{◌≡◌, ℕ, ◌+◌, ◌<◌, IfOk, MatchOption, None, Some, false, if◌then◌else◌, is_some, length, option_map, slice_get, slice_set};
ghost use Rattle.wdf_model.specs.Tables.{entry};
ghost use Rattle.wdf_model.specs.parts.Targets as targets;
ghost use Rattle.wdf_sets.specs.Nexts.{IsNext, NoneFrom};
ghost use Rattle.wdf_target.specs.Finished.{finished_at, finished_in, has_done, has_finished, none_finished};

use crate::target::Target;
use std::alloc::Global;
use std::marker::Model;
use wdf_base::{Memory, ObjectId, Plan, Status};
use wdf_declared::target_of;
use wdf_maps::{entry_at, put_at};
use wdf_model::{OBJECTS, Sending};
use wdf_sets::IdSet;

/// The I/O targets: which are stopped, and what is sent to each. The target that has a request is kept
/// too, and which targets are done with one that comes back, so that no call but [`Targets::make`] and
/// [`Targets::begin_again`] looks at more than one target, and none but the first takes memory.
#[derive(Drop)]
pub struct Targets {
    /// By id, for the driver object and the declared objects.
    targets: Vec<Target>,
    /// By request, the target that has it.
    holders: Vec<Option<ObjectId>>,
    /// The targets that are done with a request that comes back.
    with_done: IdSet,
}

impl Model for Targets {
    ghost use Rattle.wdf_model.specs.parts.Targets.{Targets};

    ghost Value = { Targets };

    ghost use Rattle.wdf_target.specs.Targets.{targets_in, IsSound};

    ghost view = { targets_in };

    ghost invariant = { IsSound };
}

/// The targets as they are at the opening.
fn open(alloc: Global, plan: &Plan) -> Result<Vec<Target>, Memory>
    ensures { IfOk result (λ made. made.items ≡ (targets.opening_targets plan.now).targets) }
{
    let ids = plan.declared_len() as usize + 1;
    let mut all = Vec::with_capacity(alloc, ids)?;
    for id in 0..ids {
        match Target::open(alloc, target_of(plan, ObjectId(id as u32))) {
            Ok(target) => all.push_reserved(target),
            Err(memory) => return Err(memory),
        }
    }
    Ok(all)
}

/// Each target is as it is at the opening once more.
fn begin_all(all: &mut Vec<Target>, plan: &Plan)
    requires ids { length all.old.items ≡ 1 + length plan.now.declared }
    requires depths { (t : ℕ) → (entry targets.no_target all.old.items t).depth ≡ (targets.the_target (targets.opening_targets plan.now) t).depth }
    ensures { all.new.items ≡ (targets.opening_targets plan.now).targets }
{
    let ids = plan.declared_len() as usize + 1;
    for id in 0..ids {
        let target = &mut all[id];
        target.begin_again(target_of(plan, ObjectId(id as u32)));
    }
}

/// Notes whether a target is done with a request that comes back.
fn note(with_done: &mut IdSet, t: ObjectId, target: &Target)
    requires { t.0 < length with_done.old }
    ensures { with_done.new ≡ slice_set with_done.old t.0 (has_done target.now) }
{
    with_done.put(t.0, target.has_done());
}

impl Targets {
    /// The declared targets, which are started and have nothing. On [`Memory`] nothing is made.
    pub fn make(alloc: Global, plan: &Plan) -> Result<Targets, Memory>
        ensures { IfOk result (λ made. made ≡ targets.opening_targets plan.now) }
    {
        let targets = open(alloc, plan)?;
        let holders = Vec::with_capacity(alloc, OBJECTS as usize)?;
        let with_done = IdSet::for_table(alloc, targets.len())?;
        Ok(Targets {
            targets,
            holders,
            with_done,
        })
    }

    /// The declared targets once more, which are started and have nothing, where the table has the plan's size and the
    /// targets the plan's depths.
    pub fn begin_again(&mut self, plan: &Plan)
        requires ids { length self.old.targets ≡ 1 + length plan.now.declared }
        requires depths { (t : ℕ) → (targets.the_target self.old t).depth ≡ (targets.the_target (targets.opening_targets plan.now) t).depth }
        ensures { self.new ≡ targets.opening_targets plan.now }
    {
        begin_all(&mut self.targets, plan);
        self.holders.clear();
        self.with_done.clear();
    }

    /// How many requests a target holds.
    pub fn pending(&self, t: ObjectId) -> u32
        ensures { result ≡ targets.pending self.now t.0 }
    {
        match self.targets.get(t.0 as usize) {
            Some(target) => target.len(),
            None => 0,
        }
    }

    /// Whether a send to the target succeeds: it isn't stopped, and holds less than its depth. (own)
    pub fn takes_more(&self, t: ObjectId) -> bool
        ensures { result ≡ targets.takes_more self.now t.0 }
    {
        self.targets
            .get(t.0 as usize)
            .is_some_and(|target| target.takes_more())
    }

    /// The k-th request that a target holds, by rising id from 0.
    pub fn sent_at(&self, t: ObjectId, k: u32) -> Sending
        requires { k < targets.pending self.now t.0 }
        ensures { slice_get (targets.the_target self.now t.0).sent k ≡ Some result }
    {
        self.targets[t.0 as usize].at(k)
    }

    /// The first target from an id on, below an end, that has a request whose completion routine is due. It doesn't look at the others.
    pub fn next_with_finished(&self, from: u32, end: u32) -> Option<u32>
        ensures { MatchOption result (NoneFrom (has_finished self.now) from end) (λ t. IsNext (has_finished self.now) from end t) }
    {
        self.with_done.next(from, end)
    }

    /// Whether no completion routine is due. It looks at no target.
    pub fn none_finished(&self) -> bool
        ensures { result ≡ none_finished self.now }
    {
        self.with_done.len() == 0
    }

    /// How many requests a target has whose completion routine is due.
    pub fn finished_len(&self, t: ObjectId) -> u32
        ensures { result ≡ length (finished_in self.now t.0) }
    {
        match self.targets.get(t.0 as usize) {
            Some(target) => target.done_len(),
            None => 0,
        }
    }

    /// The k-th of these, by rising id from 0; `None` exactly where there are fewer.
    pub fn nth_finished(&self, t: ObjectId, k: u32) -> Option<ObjectId>
        ensures { option_map (λ r. r.0) result ≡ slice_get (finished_in self.now t.0) k }
    {
        match self.targets.get(t.0 as usize) {
            Some(target) => target.nth_done(k),
            None => None,
        }
    }

    /// The first place from one on, by rising id from 0, of what a target has whose completion routine is due. It doesn't look at
    /// the others.
    pub fn next_finished(&self, t: ObjectId, from: u32) -> Option<u32>
        ensures { MatchOption result (NoneFrom (finished_at self.now t.0) from (targets.pending self.now t.0))
            (λ k. IsNext (finished_at self.now t.0) from (targets.pending self.now t.0) k) }
    {
        match self.targets.get(t.0 as usize) {
            Some(target) => target.next_done(from),
            None => None,
        }
    }

    /// What is kept of a request that a target holds.
    fn sending_of(&self, r: ObjectId) -> Option<Sending>
        ensures { result ≡ targets.sending_of self.now r.0 }
    {
        match entry_at(self.holders.as_slice(), None, r.0) {
            Some(t) => self.targets[t.0 as usize].sending(r),
            None => None,
        }
    }

    /// Whether a target holds the request.
    pub fn is_sent(&self, r: ObjectId) -> bool
        ensures { result ≡ is_some (targets.sending_of self.now r.0) }
    {
        self.sending_of(r).is_some()
    }

    /// Whether a target holds the request, and it doesn't come back to the driver.
    pub fn is_forgotten(&self, r: ObjectId) -> bool
        ensures { result ≡ targets.is_forgotten self.now r.0 }
    {
        self.sending_of(r).is_some_and(|sending| sending.forgotten)
    }

    /// Whether a target holds the request, and isn't done with it.
    pub fn is_undone(&self, r: ObjectId) -> bool
        ensures { result ≡ targets.is_undone self.now r.0 }
    {
        self.sending_of(r)
            .is_some_and(|sending| sending.outcome.is_none())
    }

    /// The status with which the completion routine of the request is due: `None` exactly where no
    /// target is done with the request, or it is forgotten.
    pub fn routine_due(&self, r: ObjectId) -> Option<Status>
        ensures { result ≡ targets.routine_due self.now r.0 }
    {
        let sending = self.sending_of(r)?;
        if sending.forgotten {
            None
        } else {
            sending.outcome
        }
    }

    /// Sends a request, which no target holds, to a target, to come back or not. The answer is `false`, and nothing changes,
    /// exactly where the target takes no more. (KMDF; own)
    pub fn send(&mut self, t: ObjectId, r: ObjectId, forget: bool) -> bool
        requires there { r.0 < OBJECTS }
        requires free { is_some (targets.sending_of self.old r.0) ≡ false }
        ensures answer { result ≡ targets.takes_more self.old t.0 }
        ensures done { self.new ≡ (if result then targets.send self.old t.0 r.0 forget else self.old) }
        ensures size { length self.new.targets ≡ length self.old.targets }
    {
        if !self.takes_more(t) {
            return false;
        }
        let target = &mut self.targets[t.0 as usize];
        target.add(r, forget);
        note(&mut self.with_done, t, target);
        put_at(&mut self.holders, None, r.0, Some(t));
        true
    }

    /// The target is done with a request. One that is forgotten leaves the target. (KMDF)
    pub fn done(&mut self, r: ObjectId, status: Status)
        ensures done { self.new ≡ targets.done self.old r.0 status }
        ensures size { length self.new.targets ≡ length self.old.targets }
    {
        let Some(t) = entry_at(self.holders.as_slice(), None, r.0) else {
            return;
        };
        let target = &mut self.targets[t.0 as usize];
        let keeps = target.finish(r, status);
        note(&mut self.with_done, t, target);
        self.holders[r.0 as usize] = keeps.then_some(t);
    }

    /// The completion routine of a request starts: the request leaves its target.
    pub fn back(&mut self, r: ObjectId)
        ensures done { self.new ≡ targets.back self.old r.0 }
        ensures size { length self.new.targets ≡ length self.old.targets }
    {
        let Some(t) = entry_at(self.holders.as_slice(), None, r.0) else {
            return;
        };
        let target = &mut self.targets[t.0 as usize];
        target.remove(r);
        note(&mut self.with_done, t, target);
        self.holders[r.0 as usize] = None;
    }

    /// The target takes no more requests. (KMDF)
    pub fn stop(&mut self, t: ObjectId)
        requires { t.0 < length self.old.targets }
        ensures done { self.new ≡ targets.stop self.old t.0 }
        ensures size { length self.new.targets ≡ length self.old.targets }
    {
        let target = &mut self.targets[t.0 as usize];
        target.set_stopped(true);
    }

    /// The target takes requests again. (KMDF)
    pub fn start(&mut self, t: ObjectId)
        requires { t.0 < length self.old.targets }
        ensures done { self.new ≡ targets.start self.old t.0 }
        ensures size { length self.new.targets ≡ length self.old.targets }
    {
        let target = &mut self.targets[t.0 as usize];
        target.set_stopped(false);
    }
}
