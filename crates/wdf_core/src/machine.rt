ghost use Rattle.std.specs.Prelude.{◌≡◌, ◌<◌, ◌≤◌, ◌+◌, ◌^◌, ◌++◌, ◌∷◌, ◌↔◌, ◌%◌, ℕ, [], IfOk, IsFalse, IsTrue, None, Some, filter, find, length, nat_lt, slice_get, true, vec_capacity};
ghost use Rattle.wdf_base.specs.Resolved.{IsResolved};
ghost use Rattle.wdf_base.specs.declared.event.Event.{Event};
ghost use Rattle.wdf_base.specs.declared.event.Event.TheVariants as event;
ghost use Rattle.wdf_model.specs.Runs.{place_for};
ghost use Rattle.wdf_model.specs.State.{opening_agents};
ghost use Rattle.wdf_model.specs.rules.Ready.{IsRunOf, allowed, ending_of, ending_without_fault, last_fault, ready, state_after, waits_for_time};
ghost use Rattle.wdf_model.specs.rules.Groups.{groups};
ghost use Rattle.wdf_model.specs.rules.Waits.{wait_list};
ghost use Rattle.wdf_core.specs.Course.{IsUnderWay};
ghost use Rattle.wdf_core.specs.Going.{goes_on, is_tick, tick_if};
ghost use Rattle.law_machine_places.specs.Placed.{IsAmong};
ghost use Rattle.wdf_offers.specs.Search.{has_places};
ghost use Rattle.wdf_ready.specs.Actors.{is_by as is_step_of};
ghost use Rattle.wdf_ready.specs.Blocks.{all_of};
ghost use Rattle.wdf_ready.specs.Counts.{Unknown};
ghost use Rattle.wdf_ready.specs.Sides.{is_of as is_event_of};

use std::alloc::Global;
use std::marker::Model;
use std::mem;
use wdf_base::{Actor, Agent, Ending, Event, Fault, Memory, Plan};
use wdf_parts::Parts;
use wdf_plan_index::IndexedPlan;
use wdf_ready::{
    Blocks, KeptCounts, Side, allowed_at, any_own, blocks_of, first_by, first_of, is_allowed,
    is_by, is_of, is_open, waits_for_time,
};
use wdf_same::same_event;
use wdf_steps::step;
use wdf_waits::wait_lines_len;

/// The state before the first event.
fn opening_parts<A: Agent>(
    alloc: Global,
    plan: &IndexedPlan,
    agents: Vec<A>,
) -> Result<Parts<A>, Memory>
    requires resolved { IsResolved plan.now }
    requires agents { agents.items ≡ opening_agents plan.now A.meaning }
    ensures { IfOk result (λ parts. parts ≡ state_after plan.now A.meaning []) }
{
    Parts::make(alloc, plan, agents)
}

/// Room for the events of a run and for the counts of its groups, before the first event.
#[derive(Drop)]
struct Room {
    groups: Blocks,
    journal: Vec<Event>,
    counts: KeptCounts,
}

impl Room {
    /// Room for the runs of a plan.
    fn make(alloc: Global, plan: &IndexedPlan) -> Result<Room, Memory>
        ensures groups { IfOk result (λ room. all_of room.groups ≡ filter (has_places plan.now) (groups plan.now)) }
        ensures empty { IfOk result (λ room. room.journal.items ≡ []) }
        ensures space { IfOk result (λ room. plan.now.limit ≤ vec_capacity room.journal) }
        ensures counts { IfOk result (λ room. Unknown (length room.groups.blocks) room.counts) }
    {
        let groups = blocks_of(alloc, plan)?;
        let journal = Vec::with_capacity(alloc, plan.plan().limit() as usize)?;
        let counts = KeptCounts::make(alloc, groups.len())?;
        Ok(Room {
            groups,
            journal,
            counts,
        })
    }
}

/// Whether an event is a tick of the clock.
fn is_tick(event: &Event) -> bool
    ensures { result ≡ is_tick event.now }
{
    matches!(event, Event::Tick { .. })
}

/// The place that a pick names among so many events.
fn place_of(pick: u64, count: usize) -> usize
    requires { 0 < count }
    ensures { result ≡ pick % count }
{
    (pick % count as u64) as usize
}

/// The machine of one run: its plan, the events so far, and what may follow them.
///
/// Contracts see the plan and the events. No call but [`Core::make`] and [`Core::wait_list`] takes memory.
pub struct Core<A: Agent> {
    plan: IndexedPlan,
    parts: Parts<A>,
    /// The groups of candidates that can have places, in blocks, in their order.
    groups: Blocks,
    journal: Vec<Event>,
    /// How many events may come of each block, as far as that was counted and can't have changed.
    counts: KeptCounts,
}

impl<A: Agent> Drop for Core<A> {
    /// Drops each part, by a call. So the drop of a core is proved here once, and is one call wherever a core is dropped.
    fn drop(self) {
        let Core {
            plan,
            parts,
            groups,
            journal: _,
            counts,
        } = self;
        mem::drop(plan);
        mem::drop(parts);
        mem::drop(groups);
        mem::drop(counts);
    }
}

impl<A: Agent> Model for Core<A> {
    ghost use Rattle.std.specs.Prelude.{vec_capacity};
    ghost use Rattle.wdf_core.specs.Course.{Course, IsSound};

    ghost Value = { Course };

    ghost view = { λ c. record { plan = c.plan; journal = c.journal.items } };

    ghost invariant = { λ c. IsSound A.meaning c.plan c.journal.items c.parts c.groups (vec_capacity c.journal) c.counts };
}

impl<A: Agent> Core<A> {
    /// The opening of the plan's run, with these agents. It takes all the memory that the run needs.
    ///
    /// # Errors
    ///
    /// [`Memory`] where that memory was refused. The plan and the agents are dropped then.
    pub fn make(alloc: Global, plan: Plan, agents: Vec<A>) -> Result<Core<A>, Memory>
        requires resolved { IsResolved plan }
        requires agents { agents.items ≡ opening_agents plan A.meaning }
        ensures plan { IfOk result (λ core. core.plan ≡ plan) }
        ensures journal { IfOk result (λ core. core.journal ≡ []) }
    {
        let plan = IndexedPlan::make(alloc, plan)?;
        match Room::make(alloc, &plan) {
            Ok(room) => Core::opened(alloc, plan, room, agents),
            Err(memory) => {
                mem::drop(plan);
                Err(memory)
            }
        }
    }

    /// The same, with room for the run. A plan is let go by a call, so that its drop isn't walked through here.
    fn opened(
        alloc: Global,
        plan: IndexedPlan,
        room: Room,
        agents: Vec<A>,
    ) -> Result<Core<A>, Memory>
        requires resolved { IsResolved plan }
        requires agents { agents.items ≡ opening_agents plan A.meaning }
        requires groups { all_of room.groups ≡ filter (has_places plan) (groups plan) }
        requires empty { room.journal.items ≡ [] }
        requires space { plan.limit ≤ vec_capacity room.journal }
        requires counts { Unknown (length room.groups.blocks) room.counts }
        ensures plan { IfOk result (λ core. core.plan ≡ plan) }
        ensures journal { IfOk result (λ core. core.journal ≡ []) }
    {
        match opening_parts(alloc, &plan, agents) {
            Ok(parts) => Ok(Core::begun(plan, parts, room)),
            Err(memory) => {
                mem::drop(plan);
                Err(memory)
            }
        }
    }

    /// The opening of the plan's run once more, with these agents; those that it had are dropped. It takes no memory, and
    /// touches only what the run so far did, the tables by declared object, and the rows by arrival.
    pub fn begin_again(&mut self, agents: Vec<A>)
        requires { agents.items ≡ opening_agents self.old.plan A.meaning }
        ensures plan { self.new.plan ≡ self.old.plan }
        ensures journal { self.new.journal ≡ [] }
    {
        self.parts.begin_again(&self.plan, agents);
        self.journal.clear();
        self.counts.forget_all();
    }

    /// The core of an opening.
    fn begun(plan: IndexedPlan, parts: Parts<A>, room: Room) -> Core<A>
        requires under_way { IsUnderWay A.meaning plan [] parts (all_of room.groups) (vec_capacity room.journal) }
        requires empty { room.journal.items ≡ [] }
        requires counts { Unknown (length room.groups.blocks) room.counts }
        ensures plan { result.plan ≡ plan }
        ensures journal { result.journal ≡ [] }
    {
        Core {
            plan,
            parts,
            groups: room.groups,
            journal: room.journal,
            counts: room.counts,
        }
    }

    /// Whether the run may go on: its last event is no fault, and it has fewer events than its limit.
    fn goes_on(&self) -> bool
        ensures { result ≡ goes_on self.now.plan self.now.journal }
    {
        self.last_fault().is_none() && self.journal.len() < self.plan.plan().limit() as usize
    }

    /// The fault that is the last event, if it is one.
    fn last_fault(&self) -> Option<Fault>
        ensures { result ≡ last_fault self.now.journal }
    {
        match self.journal.last() {
            Some(Event::Fault { fault, .. }) => Some(*fault),
            _ => None,
        }
    }

    /// How many events may come in the state at hand, time aside.
    fn allowed_len(&self) -> usize
        requires { goes_on self.now.plan self.now.journal ≡ true }
        ensures length { result ≡ length (allowed self.now.plan A.meaning (state_after self.now.plan A.meaning self.now.journal)) }
        ensures small { result < 2 ^ 60 }
    {
        self.counts.len(&self.plan, &self.parts, &self.groups)
    }

    /// The k-th of these events; `None` exactly where there are fewer.
    fn allowed_at(&self, k: usize) -> Option<Event>
        requires { goes_on self.now.plan self.now.journal ≡ true }
        ensures { result ≡ slice_get (allowed self.now.plan A.meaning (state_after self.now.plan A.meaning self.now.journal)) k }
    {
        allowed_at(&self.plan, &self.parts, &self.groups, k)
    }

    /// How many events may come, as `allowed_len`. The counts are kept.
    fn count_allowed(&mut self) -> usize
        requires { goes_on self.old.plan self.old.journal ≡ true }
        ensures same { self.new ≡ self.old }
        ensures length { result ≡ length (allowed self.old.plan A.meaning (state_after self.old.plan A.meaning self.old.journal)) }
        ensures small { result < 2 ^ 60 }
    {
        self.counts.count(&self.plan, &self.parts, &self.groups)
    }

    /// The k-th of these events; `None` exactly where there are fewer. No block is searched of which the count is known
    /// and says that it isn't there.
    fn counted_at(&self, k: usize) -> Option<Event>
        requires { goes_on self.now.plan self.now.journal ≡ true }
        ensures { result ≡ slice_get (allowed self.now.plan A.meaning (state_after self.now.plan A.meaning self.now.journal)) k }
    {
        self.counts.at(&self.plan, &self.parts, &self.groups, k)
    }

    /// The place of the first of them of an actor; `None` exactly where there is none.
    fn allowed_for(&self, actor: Actor) -> Option<usize>
        requires { goes_on self.now.plan self.now.journal ≡ true }
        ensures { result ≡ place_for (is_step_of actor) (allowed self.now.plan A.meaning (state_after self.now.plan A.meaning self.now.journal)) }
    {
        first_by(&self.plan, &self.parts, &self.groups, actor)
    }

    /// Whether something waits for time.
    fn waits_for_time(&self) -> bool
        ensures { result ≡ waits_for_time A.meaning (state_after self.now.plan A.meaning self.now.journal) }
    {
        waits_for_time(&self.parts)
    }

    /// The next tick of the clock.
    fn tick(&self) -> Event
        requires { goes_on self.now.plan self.now.journal ≡ true }
        ensures { result ≡ event.Tick ((state_after self.now.plan A.meaning self.now.journal).clock + 1) }
    {
        Event::Tick {
            time: self.parts.now() + 1,
        }
    }

    /// How many events may follow: none after a fault and at the limit of events. It looks for nothing in the groups of
    /// which the count is known.
    pub fn ready_len(&self) -> usize
        ensures length { result ≡ length (ready self.now.plan A.meaning self.now.journal) }
        ensures room { 0 < result → length self.now.journal < self.now.plan.limit }
    {
        let _ = &self.plan;
        if !self.goes_on() {
            return 0;
        }
        self.or_tick_len(self.allowed_len())
    }

    /// The same. What is counted for it is kept, and counted again only where an event may have changed it.
    pub fn count_ready(&mut self) -> usize
        ensures same { self.new ≡ self.old }
        ensures length { result ≡ length (ready self.old.plan A.meaning self.old.journal) }
        ensures room { 0 < result → length self.old.journal < self.old.plan.limit }
    {
        let _ = &self.plan;
        if !self.goes_on() {
            return 0;
        }
        let count = self.count_allowed();
        self.or_tick_len(count)
    }

    /// How many events may follow, where so many may come, time aside.
    fn or_tick_len(&self, count: usize) -> usize
        requires going { goes_on self.now.plan self.now.journal ≡ true }
        requires counted { count ≡ length (allowed self.now.plan A.meaning (state_after self.now.plan A.meaning self.now.journal)) }
        ensures length { result ≡ length (ready self.now.plan A.meaning self.now.journal) }
        ensures room { 0 < result → length self.now.journal < self.now.plan.limit }
    {
        let _ = &self.plan;
        if count > 0 {
            count
        } else if self.waits_for_time() {
            1
        } else {
            0
        }
    }

    /// The first of the events that may follow; `None` exactly where none may. It looks for no other.
    fn first_ready(&self) -> Option<Event>
        ensures { result ≡ slice_get (ready self.now.plan A.meaning self.now.journal) 0 }
    {
        let _ = &self.plan;
        if !self.goes_on() {
            return None;
        }
        match self.allowed_at(0) {
            Some(event) => Some(event),
            None => self.tick_if_waiting(),
        }
    }

    /// The next tick of the clock, where something waits for time.
    fn tick_if_waiting(&self) -> Option<Event>
        requires { goes_on self.now.plan self.now.journal ≡ true }
        ensures { result ≡ tick_if (waits_for_time A.meaning (state_after self.now.plan A.meaning self.now.journal)) (state_after self.now.plan A.meaning self.now.journal).clock }
    {
        if self.waits_for_time() {
            Some(self.tick())
        } else {
            None
        }
    }

    /// Whether the top frame of a processor has an event that may follow. Nothing but the top frames is looked at.
    fn any_runs(&self) -> bool
        ensures { IsTrue result → nat_lt 0 (length (ready self.now.plan A.meaning self.now.journal)) ≡ true }
    {
        let _ = &self.plan;
        if !self.goes_on() {
            return false;
        }
        any_own(&self.plan, &self.parts, &self.groups)
    }

    /// Whether an event may follow. It doesn't count how many may, and looks at the top frames first.
    pub fn any_ready(&self) -> bool
        ensures { result ≡ nat_lt 0 (length (ready self.now.plan A.meaning self.now.journal)) }
    {
        if self.any_runs() {
            return true;
        }
        self.first_ready().is_some()
    }

    /// The k-th of the events that may follow.
    pub fn ready_at(&self, k: usize) -> Event
        requires { k < length (ready self.now.plan A.meaning self.now.journal) }
        ensures { slice_get (ready self.now.plan A.meaning self.now.journal) k ≡ Some result }
    {
        let _ = &self.plan;
        match self.counted_at(k) {
            Some(event) => event,
            None => self.tick(),
        }
    }

    /// The least place of an event of this actor among the events that may follow; `None` exactly where
    /// there is none.
    pub fn first_for(&self, actor: Actor) -> Option<usize>
        ensures { result ≡ place_for (is_step_of actor) (ready self.now.plan A.meaning self.now.journal) }
    {
        let _ = &self.plan;
        if !self.goes_on() {
            return None;
        }
        match self.allowed_for(actor) {
            Some(place) => Some(place),
            None => self.tick_for(actor),
        }
    }

    /// The place of the next tick, where it may follow and is this actor's, who has no other event.
    fn tick_for(&self, actor: Actor) -> Option<usize>
        requires going { goes_on self.now.plan self.now.journal ≡ true }
        requires none { place_for (is_step_of actor) (allowed self.now.plan A.meaning (state_after self.now.plan A.meaning self.now.journal)) ≡ None }
        ensures { result ≡ place_for (is_step_of actor) (ready self.now.plan A.meaning self.now.journal) }
    {
        let _ = &self.plan;
        if !is_by(&self.tick(), actor) {
            return None;
        }
        if self.allowed_len() > 0 || !self.waits_for_time() {
            return None;
        }
        Some(0)
    }

    /// Goes on by the k-th of the events that may follow. It takes no memory.
    pub fn apply(&mut self, k: usize)
        requires { k < length (ready self.old.plan A.meaning self.old.journal) }
        ensures plan { self.new.plan ≡ self.old.plan }
        ensures journal { (event : Event) × (slice_get (ready self.old.plan A.meaning self.old.journal) k ≡ Some event) × (self.new.journal ≡ self.old.journal ++ event ∷ []) }
    {
        let event = self.ready_at(k);
        self.take(event);
    }

    /// Goes on by the first of the events that may follow, and answers true; false, and nothing changes, where none
    /// may. It looks for no other event; only for a tick it looks whether any other may come. It takes no memory.
    pub fn apply_first(&mut self) -> bool
        ensures plan { self.new.plan ≡ self.old.plan }
        ensures taken { IsTrue result → (event : Event) × (slice_get (ready self.old.plan A.meaning self.old.journal) 0 ≡ Some event) × (self.new.journal ≡ self.old.journal ++ event ∷ []) }
        ensures room { IsTrue result → length self.old.journal < self.old.plan.limit }
        ensures over { IsFalse result → (ready self.old.plan A.meaning self.old.journal ≡ []) × (self.new.journal ≡ self.old.journal) }
    {
        match self.first_ready() {
            Some(event) => {
                self.take(event);
                true
            }
            None => false,
        }
    }

    /// Goes on by the first event of a side among those that may follow, and answers true; false, and nothing changes,
    /// where none of them is the side's. The groups of other sides are searched only where the tick would be the side's:
    /// it comes where no group has an event. It takes no memory.
    pub fn apply_first_of(&mut self, side: Side) -> bool
        ensures plan { self.new.plan ≡ self.old.plan }
        ensures taken { IsTrue result → (event : Event) × (find (is_event_of side) (ready self.old.plan A.meaning self.old.journal) ≡ Some event) × (self.new.journal ≡ self.old.journal ++ event ∷ []) }
        ensures left { IsFalse result → (find (is_event_of side) (ready self.old.plan A.meaning self.old.journal) ≡ None) × (self.new.journal ≡ self.old.journal) }
    {
        match self.first_of_side(side) {
            Some(event) => {
                self.take(event);
                true
            }
            None => false,
        }
    }

    /// The first event of a side among those that may follow; `None` exactly where there is none.
    fn first_of_side(&self, side: Side) -> Option<Event>
        ensures { result ≡ find (is_event_of side) (ready self.now.plan A.meaning self.now.journal) }
    {
        let _ = &self.plan;
        if !self.goes_on() {
            return None;
        }
        match self.allowed_of(side) {
            Some(event) => Some(event),
            None => self.tick_of(side),
        }
    }

    /// The first event of a side among those that may come, time aside; `None` exactly where there is none.
    fn allowed_of(&self, side: Side) -> Option<Event>
        requires { goes_on self.now.plan self.now.journal ≡ true }
        ensures { result ≡ find (is_event_of side) (allowed self.now.plan A.meaning (state_after self.now.plan A.meaning self.now.journal)) }
    {
        first_of(&self.plan, &self.parts, &self.groups, side)
    }

    /// The next tick, where it may follow and is of the side, which has no other event.
    fn tick_of(&self, side: Side) -> Option<Event>
        requires going { goes_on self.now.plan self.now.journal ≡ true }
        requires none { find (is_event_of side) (allowed self.now.plan A.meaning (state_after self.now.plan A.meaning self.now.journal)) ≡ None }
        ensures { result ≡ find (is_event_of side) (ready self.now.plan A.meaning self.now.journal) }
    {
        let _ = &self.plan;
        if !is_of(side, &self.tick()) {
            return None;
        }
        match self.allowed_at(0) {
            Some(_) => None,
            None => self.tick_if_waiting(),
        }
    }

    /// Goes on by the event that a pick names among those that may follow, and answers true; false, and nothing changes,
    /// where none may. Of a group that no event since the last pick may have changed they aren't counted again. It takes
    /// no memory.
    pub fn apply_pick(&mut self, pick: u64) -> bool
        ensures plan { self.new.plan ≡ self.old.plan }
        ensures taken { IsTrue result → (event : Event) × (slice_get (ready self.old.plan A.meaning self.old.journal) (pick % length (ready self.old.plan A.meaning self.old.journal)) ≡ Some event)
            × (self.new.journal ≡ self.old.journal ++ event ∷ []) }
        ensures room { IsTrue result → length self.old.journal < self.old.plan.limit }
        ensures over { IsFalse result → (ready self.old.plan A.meaning self.old.journal ≡ []) × (self.new.journal ≡ self.old.journal) }
    {
        let count = self.count_ready();
        if count == 0 {
            return false;
        }
        self.apply(place_of(pick, count));
        true
    }

    /// Goes on by this event, and answers true, exactly where it is among those that may follow; else nothing changes. It
    /// looks for no other event, but for a tick, and takes no memory.
    pub fn apply_event(&mut self, event: &Event) -> bool
        ensures plan { self.new.plan ≡ self.old.plan }
        ensures taken { IsTrue result → IsAmong event.now (ready self.old.plan A.meaning self.old.journal) × (self.new.journal ≡ self.old.journal ++ event.now ∷ []) }
        ensures left { IsFalse result → (self.new.journal ≡ self.old.journal) × (IsAmong event.now (ready self.old.plan A.meaning self.old.journal) → ⊥) }
    {
        if self.may_follow(event) {
            self.take(*event);
            true
        } else {
            false
        }
    }

    /// Whether an event is among those that may follow.
    fn may_follow(&self, event: &Event) -> bool
        ensures { IsTrue result ↔ IsAmong event.now (ready self.now.plan A.meaning self.now.journal) }
    {
        let _ = &self.plan;
        if !self.goes_on() {
            return false;
        }
        if is_tick(event) {
            self.is_first(event)
        } else {
            self.is_allowed(event)
        }
    }

    /// Whether an event is among those that may come, time aside.
    fn is_allowed(&self, event: &Event) -> bool
        requires { goes_on self.now.plan self.now.journal ≡ true }
        ensures { IsTrue result ↔ IsAmong event.now (allowed self.now.plan A.meaning (state_after self.now.plan A.meaning self.now.journal)) }
    {
        is_allowed(&self.plan, &self.parts, event)
    }

    /// Whether an event is the first that may follow.
    fn is_first(&self, event: &Event) -> bool
        ensures { IsTrue result ↔ (slice_get (ready self.now.plan A.meaning self.now.journal) 0 ≡ Some event.now) }
    {
        match self.first_ready() {
            Some(first) => same_event(&first, event),
            None => false,
        }
    }

    /// Goes on by an event that may follow.
    fn take(&mut self, event: Event)
        requires { (k : ℕ) × (slice_get (ready self.old.plan A.meaning self.old.journal) k ≡ Some event) }
        ensures plan { self.new.plan ≡ self.old.plan }
        ensures journal { self.new.journal ≡ self.old.journal ++ event ∷ [] }
        ensures room { length self.old.journal < self.old.plan.limit }
    {
        step(&self.plan, &mut self.parts, &event);
        self.journal.push_reserved(event);
        self.counts.forget_touched(&event);
    }

    /// How the run ended: [`Ending::Running`] where an event may follow.
    pub fn ending(&self) -> Ending
        ensures { result ≡ ending_of self.now.plan A.meaning self.now.journal }
    {
        let _ = &self.plan;
        if self.any_ready() {
            return Ending::Running;
        }
        match self.last_fault() {
            Some(fault) => Ending::Fault(fault),
            None => self.ending_without_fault(),
        }
    }

    /// How the run ends without a fault, where nothing may follow.
    fn ending_without_fault(&self) -> Ending
        ensures { result ≡ ending_without_fault self.now.plan A.meaning (state_after self.now.plan A.meaning self.now.journal) }
    {
        if self.plan.plan().limit() <= self.parts.number() {
            Ending::Limit
        } else if is_open(&self.plan, &self.parts) {
            Ending::Stuck
        } else {
            Ending::Finished
        }
    }

    /// The plan of the run.
    pub fn plan(&self) -> &Plan
        ensures { result.now ≡ self.now.plan }
    {
        self.plan.plan()
    }

    /// The state after the events.
    pub fn parts(&self) -> &Parts<A>
        ensures { result.now ≡ state_after self.now.plan A.meaning self.now.journal }
    {
        let _ = &self.plan;
        &self.parts
    }

    /// The plan of the run with its tables.
    pub fn indexed(&self) -> &IndexedPlan
        ensures { result.now ≡ self.now.plan }
    {
        &self.plan
    }

    /// The events.
    pub fn journal(&self) -> &[Event]
        ensures { result.now ≡ self.now.journal }
    {
        self.journal.as_slice()
    }

    /// How many events there were. They are a run.
    pub fn journal_len(&self) -> usize
        ensures length { result ≡ length self.now.journal }
        ensures within { result ≤ self.now.plan.limit }
        ensures run { IsRunOf self.now.plan A.meaning self.now.journal }
    {
        self.journal.len()
    }

    /// The k-th event, counted from 0.
    pub fn journal_at(&self, k: usize) -> Event
        requires { k < length self.now.journal }
        ensures { slice_get self.now.journal k ≡ Some result }
    {
        self.journal[k]
    }

    /// How many lines the wait list has: none unless the run is stuck.
    pub fn wait_len(&self) -> usize
        ensures { result ≡ length (wait_list self.now.plan A.meaning self.now.journal) }
    {
        let _ = &self.plan;
        match self.ending() {
            Ending::Stuck => wait_lines_len(&self.plan, &self.parts),
            _ => 0,
        }
    }
}
