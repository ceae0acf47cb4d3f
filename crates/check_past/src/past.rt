//! The events that were read so far, and the laws' words over them.
ghost use Rattle.std.specs.Prelude.{◌≡◌, ◌+◌, ◌<◌, ◌≤◌, length, slice_get, IfOk, Some};
ghost use Rattle.wdf_laws.specs.Family as family;
ghost use Rattle.wdf_laws.specs.Words as words;
ghost use Rattle.wdf_laws.specs.declared.sign.Sign.TheVariants as sign;
ghost use Rattle.check_past.specs.Last.{last};
ghost use Rattle.check_past.specs.Past as past;
ghost use Rattle.check_past.specs.Past.{before};
ghost use Rattle.check_past.specs.Groups as groups;
ghost use Rattle.check_past.specs.Order as order;

use crate::key::number_of;
use crate::kin::Kin;
use crate::lists::Lists;
use crate::maps::{flag_at, group_at, number_at};
use crate::shown::Shown;
use crate::signs::Signs;
use check_signs::{passed, passed_for, presented};
use std::alloc::Global;
use std::collections::HashMap;
use std::marker::Model;
use wdf_base::{Callback, Event, InterruptInfo, LockRef, Memory, ObjectId, Plan, Stage};
use wdf_declared::interrupt_of;
use wdf_laws::{Sign, Taking};

/// The first events of a list.
#[derive(Drop)]
pub struct Past<'a> {
    kin: Kin<'a>,
    children: HashMap<u32, Vec<u32>>,
    number: usize,
    signs: Signs,
    lists: Lists,
}

impl<'a> Model for Past<'a> {
    ghost use Rattle.check_past.specs.Past.{Read};
    ghost use Rattle.check_past.specs.Tables.{IsPast};

    ghost Value = { Read };

    ghost view = { λ p. record { plan = p.kin.plan; all = p.kin.all; number = p.number } };

    ghost invariant = { λ p. IsPast p.kin p.children p.number p.signs p.lists };
}

/// The event at a place of a list that has it.
pub fn event_at(events: &[Event], k: usize) -> &Event
    requires { k < length events.now }
    ensures { slice_get events.now k ≡ Some result.now }
{
    &events[k]
}

fn device_with(interrupt: Option<InterruptInfo>) -> Option<u32>
    ensures { result ≡ past.device_with interrupt }
{
    interrupt.map(|i| i.device.0)
}

fn device_of_interrupt(plan: &Plan, interrupt: Option<u32>) -> Option<u32>
    ensures { result ≡ past.device_of_interrupt plan.now interrupt }
{
    match interrupt {
        Some(i) => device_with(interrupt_of(plan, ObjectId(i))),
        None => None,
    }
}

impl<'a> Past<'a> {
    /// The list before its first event.
    ///
    /// # Errors
    ///
    /// [`Memory`] where memory was refused.
    pub fn open(alloc: Global, plan: &'a Plan, all: &'a [Event]) -> Result<Past<'a>, Memory>
        ensures { IfOk result (λ opened. opened ≡ record { plan = plan.now; all = all.now; number = 0 }) }
    {
        let kin = Kin::read(alloc, plan, all)?;
        let children = kin.read_children(alloc)?;
        Ok(Past {
            kin,
            children,
            number: 0,
            signs: Signs::make(alloc),
            lists: Lists::make(alloc),
        })
    }

    /// The plan whose traces are checked.
    pub fn plan(&self) -> &Plan
        ensures { result.now ≡ self.now.plan }
    {
        self.kin.plan()
    }

    /// The scope lock that a callback needs on an object.
    pub fn scope_on(&self, callback: Callback, o: u32) -> Option<LockRef>
        ensures { result ≡ family.scope_on self.now.plan self.now.all callback o }
    {
        self.kin.scope_on(callback, o)
    }

    /// How many objects at most are looked at from an object upwards: one more than the declared ones and the events.
    pub fn most_above(&self) -> usize
        ensures { result ≡ family.most_above self.now.plan self.now.all }
    {
        self.plan().declared_len() as usize + self.kin.all().len() + 1
    }

    /// The parent of an object, 0 for none.
    pub fn parent_of(&self, o: u32) -> u32
        ensures { result ≡ family.parent_of self.now.plan self.now.all o }
    {
        self.kin.parent_of(o)
    }

    /// The number of the last event with a sign, 0 for none.
    pub fn last(&self, sign: Sign) -> usize
        ensures value { result ≡ last sign self.now.all self.now.number }
        ensures within { self.now.number ≤ length self.now.all }
    {
        number_of(&self.signs.lasts, sign)
    }

    /// Whether an event with the sign came.
    #[tactic(auto, using(crate::proofs::Words::ever_last))]
    pub fn ever(&self, sign: Sign) -> bool
        ensures { result ≡ words.ever sign (before self.now) }
    {
        self.last(sign) > 0
    }

    /// Whether an event with the first sign came, and none with the second after the last of them.
    #[tactic(auto, using(crate::proofs::Words::stands_last))]
    pub fn stands(&self, first: Sign, second: Sign) -> bool
        ensures { result ≡ words.stands first second (before self.now) }
    {
        let at = self.last(first);
        at > 0 && self.last(second) <= at
    }

    /// Whether an event with the first sign came, and one with the second after the last of them.
    pub fn followed(&self, first: Sign, second: Sign) -> bool
        ensures { result ≡ words.followed first second (before self.now) }
    {
        self.ever(first) && !self.stands(first, second)
    }

    /// Whether a device was entered when its queues went up last.
    #[tactic(auto, using(crate::proofs::Words::stood_last))]
    pub fn was_up_entered(&self, device: u32) -> bool
        ensures { result ≡ words.stood_at (sign.QueuesUp device) (sign.Entered device) (sign.NotEntered device) (before self.now) }
    {
        flag_at(&self.signs.up, device)
    }

    /// Whether the device of an interrupt was entered when the interrupt was enabled last.
    #[tactic(auto, using(crate::proofs::Words::stood_last))]
    pub fn was_enabled_entered(&self, interrupt: u32, device: u32) -> bool
        requires { past.device_of_interrupt self.now.plan (Some interrupt) ≡ Some device }
        ensures { result ≡ words.stood_at (sign.Enabled interrupt) (sign.Entered device) (sign.NotEntered device) (before self.now) }
    {
        flag_at(&self.signs.enabled, interrupt)
    }

    /// How many references to an object were taken.
    pub fn referenced(&self, object: u32) -> usize
        ensures { result ≡ words.times (sign.Referenced object) (before self.now) }
    {
        number_at(&self.signs.referenced, object)
    }

    /// How many references to an object were given back.
    pub fn dereferenced(&self, object: u32) -> usize
        ensures { result ≡ words.times (sign.Dereferenced object) (before self.now) }
    {
        number_at(&self.signs.dereferenced, object)
    }

    /// The requests that arrived for a device.
    pub fn arrivals(&self, device: u32) -> &[u32]
        ensures { result.now ≡ groups.arrived_for self.now.all device self.now.number }
    {
        group_at(&self.lists.arrivals, device)
    }

    /// The takings from the queues whose power a device manages.
    pub fn takings(&self, device: u32) -> &[Taking]
        ensures { result.now ≡ groups.takings_for self.now.plan self.now.all device self.now.number }
    {
        group_at(&self.lists.takings, device)
    }

    /// The children of an object.
    pub fn children(&self, object: u32) -> &[u32]
        ensures { result.now ≡ groups.children_of self.now.plan self.now.all object }
    {
        group_at(&self.children, object)
    }

    /// The greatest number of an entry at a queue's tail, of those that were presented.
    pub fn tail_entry(&self, queue: u32) -> usize
        ensures { result ≡ order.tail_entry self.now.all queue self.now.number }
    {
        number_at(&self.lists.tail_entries, queue)
    }

    /// The number of a queue's last presentation of a request that entered at the tail.
    pub fn tail_number(&self, queue: u32) -> usize
        ensures { result ≡ order.tail_number self.now.all queue self.now.number }
    {
        number_at(&self.lists.tail_numbers, queue)
    }

    /// A queue's presentations of those that entered at the head.
    pub fn heads(&self, queue: u32) -> &[Shown]
        ensures { result.now ≡ order.heads self.now.all queue self.now.number }
    {
        group_at(&self.lists.heads, queue)
    }

    fn is_device_entered(&self, device: Option<u32>) -> bool
        ensures { result ≡ past.is_device_entered (before self.now) device }
    {
        match device {
            Some(d) => self.stands(Sign::Entered(d), Sign::NotEntered(d)),
            None => false,
        }
    }

    fn shown(&self, presented: Option<Taking>, number: usize) -> Option<Shown>
        requires { number ≡ self.now.number + 1 }
        ensures { result ≡ order.shown_by self.now.all self.now.number presented }
    {
        match presented {
            Some(t) => self.shown_of(t, number),
            None => None,
        }
    }

    fn shown_of(&self, taking: Taking, number: usize) -> Option<Shown>
        requires { number ≡ self.now.number + 1 }
        ensures { result ≡ order.shown_by self.now.all self.now.number (Some taking) }
    {
        let entry = self.last(Sign::Entry(taking.request));
        if entry > 0 {
            let at_head = self.stands(Sign::AtHead(taking.request), Sign::Entry(taking.request));
            Some(Shown {
                queue: taking.queue,
                at_head,
                entry,
                number,
            })
        } else {
            None
        }
    }

    /// Takes the next event of the list in.
    ///
    /// # Errors
    ///
    /// [`Memory`] where memory was refused. What was known is dropped then.
    pub fn step(mut self, alloc: Global) -> Result<Past<'a>, Memory>
        requires { self.number < length self.all }
        ensures { IfOk result (λ next. next ≡ record { plan = self.entry.plan; all = self.entry.all; number = self.entry.number + 1 }) }
    {
        let plan = self.kin.plan();
        let all = self.kin.all();
        let event = event_at(all, self.number);
        let number = self.number + 1;
        let up = self.is_device_entered(passed(Stage::QueuesUp, event));
        let interrupt = passed_for(Stage::Enabled, event);
        let device = device_of_interrupt(plan, interrupt);
        let enabled = self.is_device_entered(device);
        let shown = self.shown(presented(event), number);
        self.signs.step(event, number, up, enabled)?;
        self.lists.step(alloc, plan, event, shown)?;
        self.number = number;
        Ok(self)
    }
}
