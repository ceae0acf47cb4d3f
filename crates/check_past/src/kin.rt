//! Parents and classes, and the scope locks of callbacks, from the whole list.
ghost use Rattle.std.specs.Prelude.{◌≡◌, ℕ, nat_eq, length, OnOk, IfOk};
ghost use Rattle.std.specs.HashMap.{get};
ghost use Rattle.wdf_model.specs.parts.Tree as tree;
ghost use Rattle.wdf_laws.specs.Events as told;
ghost use Rattle.wdf_laws.specs.Family as family;
ghost use Rattle.check_past.specs.Kin as kin;
ghost use Rattle.check_past.specs.Groups as groups;
ghost use Rattle.check_past.specs.Maps as maps;

use crate::maps::add;
use check_signs::told;
use std::alloc::Global;
use std::collections::HashMap;
use std::marker::Model;
use wdf_base::{Callback, Declared, Event, LockRef, Memory, ObjectId, Plan};
use wdf_declared::declared_at;
use wdf_laws::Told;
use wdf_lock::scope_of;

/// A list of events, and what it says of each object.
#[derive(Drop)]
pub struct Kin<'a> {
    plan: &'a Plan,
    all: &'a [Event],
    /// By object, what the earliest event that speaks of it says.
    told: HashMap<u32, Told>,
}

impl<'a> Model for Kin<'a> {
    ghost use Rattle.check_past.specs.Kin.{Whole, AreTold};

    ghost Value = { Whole };

    ghost view = { λ k. record { plan = k.plan.now; all = k.all.now } };

    ghost invariant = { λ k. AreTold k.plan.now k.all.now k.told };
}

/// Keeps what is said of an object, if nothing was said of it before.
fn keep_told(kept: &mut HashMap<u32, Told>, new: Option<Told>) -> Result<(), Memory>
    ensures { OnOk result ((o : ℕ) → get nat_eq kept.new o ≡ kin.with_told o new (get nat_eq kept.old o)) }
{
    match new {
        Some(new) => {
            if kept.get(&new.object).is_none() {
                kept.insert(new.object, new)?;
            }
        }
        None => {}
    }
    Ok(())
}

fn read_told(alloc: Global, plan: &Plan, all: &[Event]) -> Result<HashMap<u32, Told>, Memory>
    ensures { IfOk result (λ kept. (o : ℕ) → get nat_eq kept o ≡ family.first_told plan.now all.now o) }
{
    let mut kept = HashMap::new(alloc);
    for event in all {
        keep_told(&mut kept, told(plan, event))?;
    }
    Ok(kept)
}

fn declared_parent(declared: &Declared) -> u32
    ensures { result ≡ tree.declared_parent declared.now }
{
    match declared {
        Declared::Driver => 0,
        Declared::Device(_) => 1,
        Declared::Queue(queue) => queue.device.0,
        Declared::Interrupt(interrupt) => interrupt.device.0,
        Declared::Target(target) => target.device.0,
        Declared::OfClass(_) => 0,
    }
}

fn told_parent(told: Option<Told>) -> u32
    ensures { result ≡ family.told_parent told }
{
    match told {
        Some(t) => t.parent,
        None => 0,
    }
}

fn told_class(told: Option<Told>) -> Option<Declared>
    ensures { result ≡ family.told_class told }
{
    match told {
        Some(t) => t.class.map(Declared::OfClass),
        None => None,
    }
}

impl<'a> Kin<'a> {
    /// Reads a list of events.
    pub fn read(alloc: Global, plan: &'a Plan, all: &'a [Event]) -> Result<Kin<'a>, Memory>
        ensures { IfOk result (λ whole. whole ≡ record { plan = plan.now; all = all.now }) }
    {
        let told = read_told(alloc, plan, all)?;
        Ok(Kin { plan, all, told })
    }

    /// The plan whose traces are checked.
    pub fn plan(&self) -> &'a Plan
        ensures { result.now ≡ self.now.plan }
    {
        self.plan
    }

    /// All events of the list, those too that weren't read yet.
    pub fn all(&self) -> &'a [Event]
        ensures { result.now ≡ self.now.all }
    {
        self.all
    }

    fn first_told(&self, o: u32) -> Option<Told>
        ensures { result ≡ family.first_told self.now.plan self.now.all o }
    {
        self.told.get(&o).copied()
    }

    /// The parent of an object, 0 for none.
    pub fn parent_of(&self, o: u32) -> u32
        ensures { result ≡ family.parent_of self.now.plan self.now.all o }
    {
        match declared_at(self.plan, ObjectId(o)) {
            Some(declared) => declared_parent(&declared),
            None => told_parent(self.first_told(o)),
        }
    }

    fn made_as(&self, o: u32) -> Option<Declared>
        ensures { result ≡ family.made_as self.now.plan self.now.all o }
    {
        match declared_at(self.plan, ObjectId(o)) {
            Some(declared) => Some(declared),
            None => told_class(self.first_told(o)),
        }
    }

    /// The scope lock that a callback needs on an object.
    pub fn scope_on(&self, callback: Callback, o: u32) -> Option<LockRef>
        ensures { result ≡ family.scope_on self.now.plan self.now.all callback o }
    {
        scope_of(self.plan, callback, ObjectId(o), self.made_as(o))
    }

    /// By object, its children: those that are declared, and one for each event that names one.
    pub fn read_children(&self, alloc: Global) -> Result<HashMap<u32, Vec<u32>>, Memory>
        ensures { IfOk result (λ children. (o : ℕ) → maps.group_at children o ≡ groups.children_of self.now.plan self.now.all o) }
    {
        let mut children = self.read_declared(alloc)?;
        for event in self.all {
            self.add_child(alloc, &mut children, event)?;
        }
        Ok(children)
    }

    fn read_declared(&self, alloc: Global) -> Result<HashMap<u32, Vec<u32>>, Memory>
        ensures { IfOk result (λ children. (o : ℕ) → maps.group_at children o ≡ groups.declared_children self.now.plan self.now.all o (length self.now.plan.declared)) }
    {
        let mut children = HashMap::new(alloc);
        for n in 0..self.plan.declared_len() {
            add(alloc, &mut children, Some(self.parent_of(n + 1)), n + 1)?;
        }
        Ok(children)
    }

    fn add_child(
        &self,
        alloc: Global,
        children: &mut HashMap<u32, Vec<u32>>,
        event: &Event,
    ) -> Result<(), Memory>
        ensures { OnOk result ((o : ℕ) → maps.group_at children.new o ≡ groups.with_child self.now.plan self.now.all o (told.told self.now.plan event.now) (maps.group_at children.old o)) }
    {
        match told(self.plan, event) {
            Some(t) => add(alloc, children, Some(self.parent_of(t.object)), t.object),
            None => Ok(()),
        }
    }
}
