ghost use Rattle.std.specs.Prelude.{◌≡◌, ◌≤◌, ◌+◌, ◌<◌, ◌^◌, IfOk, length, slice_get, map, option_map};
ghost use Rattle.wdf_model.specs.State.{opening, opening_agents};
ghost use Rattle.wdf_model.specs.Tables.{entry};
ghost use Rattle.wdf_model.specs.rules.Deeds.{counted, told};
ghost use Rattle.wdf_model.specs.rules.Ready as ready;
ghost use Rattle.wdf_parts.specs.Again.{IsSized};

use std::alloc::Global;
use std::marker::Model;
use std::mem;
use wdf_base::{Agent, Event, Memory, ObjectId};
use wdf_cpu::Cpus;
use wdf_defer::{Dpcs, Timers, WorkItems};
use wdf_intr::Interrupts;
use wdf_lock::Locks;
use wdf_maps::entry_at;
use wdf_plan_index::IndexedPlan;
use wdf_pnp::Pnp;
use wdf_power::Power;
use wdf_qctl::Control;
use wdf_queue::Queues;
use wdf_request::Requests;
use wdf_target::Targets;
use wdf_tree::{Subtree, Tree};

/// Room for the arrivals of as many agents as 16 bits number.
const AGENTS: usize = 65_536;

/// The whole state of the machine, with its agents.
///
/// Contracts see wdf_model's `State`. No call but [`Parts::make`] takes memory.
pub struct Parts<A: Agent> {
    pub(crate) tree: Tree,
    /// The objects whose deletion is asked at once, while they are gone over.
    pub(crate) below: Subtree,
    pub(crate) cpus: Cpus,
    pub(crate) locks: Locks,
    pub(crate) requests: Requests,
    pub(crate) queues: Queues,
    pub(crate) control: Control,
    pub(crate) power: Power,
    pub(crate) pnp: Pnp,
    pub(crate) interrupts: Interrupts,
    pub(crate) dpcs: Dpcs,
    pub(crate) work_items: WorkItems,
    pub(crate) timers: Timers,
    pub(crate) targets: Targets,
    /// The agents, by number.
    pub(crate) agents: Vec<A>,
    /// How many arrivals each agent has posted, those without a request among them.
    pub(crate) arrivals: Vec<u32>,
    /// The tick.
    pub(crate) clock: u64,
    /// How many events there were.
    pub(crate) number: u32,
}

impl<A: Agent> Drop for Parts<A> {
    /// Lets go of each part by a call, so that the state is let go by one call wherever it is owned.
    fn drop(self) {
        let Parts {
            tree,
            below,
            cpus,
            locks,
            requests,
            queues,
            control,
            power,
            pnp,
            interrupts,
            dpcs,
            work_items,
            timers,
            targets,
            agents,
            arrivals,
            clock: _,
            number: _,
        } = self;
        mem::drop(tree);
        mem::drop(below);
        mem::drop(cpus);
        mem::drop(locks);
        mem::drop(requests);
        mem::drop(queues);
        mem::drop(control);
        mem::drop(power);
        mem::drop(pnp);
        mem::drop(interrupts);
        mem::drop(dpcs);
        mem::drop(work_items);
        mem::drop(timers);
        mem::drop(targets);
        mem::drop(agents);
        mem::drop(arrivals);
    }
}

impl<A: Agent> Model for Parts<A> {
    ghost use Rattle.wdf_model.specs.State.{State};

    ghost Value = { State A };

    ghost use Rattle.wdf_parts.specs.Inside.{state_in, HasRoom};

    ghost view = { state_in };

    ghost invariant = { HasRoom };
}

impl<A: Agent> Parts<A> {
    /// The state at the opening of the plan's run, with these agents. It takes all the room that a run
    /// needs. On [`Memory`] the agents are dropped.
    pub fn make(alloc: Global, plan: &IndexedPlan, agents: Vec<A>) -> Result<Parts<A>, Memory>
        requires objects { length plan.now.declared ≤ 4096 }
        requires agents { agents.items ≡ opening_agents plan.now A.meaning }
        ensures { IfOk result (λ parts. parts ≡ opening plan.now A.meaning) }
    {
        let plan = plan.plan();
        Ok(Parts {
            tree: Tree::make(alloc, plan)?,
            below: Subtree::make(alloc)?,
            cpus: Cpus::make(alloc, plan)?,
            locks: Locks::make(alloc, plan)?,
            requests: Requests::make(alloc, plan)?,
            queues: Queues::make(alloc, plan)?,
            control: Control::make(alloc, plan)?,
            power: Power::make(alloc, plan)?,
            pnp: Pnp::make(alloc, plan)?,
            interrupts: Interrupts::make(alloc, plan)?,
            dpcs: Dpcs::make(alloc, plan)?,
            work_items: WorkItems::make(alloc, plan)?,
            timers: Timers::make(alloc, plan)?,
            targets: Targets::make(alloc, plan)?,
            agents,
            arrivals: Vec::with_capacity(alloc, AGENTS)?,
            clock: 0,
            number: 0,
        })
    }

    /// The state at the opening of the plan's run once more, with these agents; those that it had are dropped. It takes no
    /// memory.
    pub fn begin_again(&mut self, plan: &IndexedPlan, agents: Vec<A>)
        requires objects { length plan.now.declared ≤ 4096 }
        requires agents { agents.items ≡ opening_agents plan.now A.meaning }
        requires sized { IsSized plan.now self.old }
        ensures { self.new ≡ opening plan.now A.meaning }
    {
        let plan = plan.plan();
        self.tree.begin_again(plan);
        self.cpus.begin_again(plan);
        self.locks.begin_again();
        self.requests.begin_again();
        self.queues.begin_again(plan);
        self.control.begin_again(plan);
        self.power.begin_again(plan);
        self.pnp.begin_again(plan);
        self.interrupts.begin_again();
        self.dpcs.begin_again(plan);
        self.work_items.begin_again();
        self.timers.begin_again();
        self.targets.begin_again(plan);
        self.agents = agents;
        self.arrivals.clear();
        self.clock = 0;
        self.number = 0;
    }

    /// The objects.
    pub fn tree(&self) -> &Tree
        ensures { result.now ≡ self.now.tree }
    {
        &self.tree
    }

    /// The processors and their frames.
    pub fn cpus(&self) -> &Cpus
        ensures { result.now ≡ self.now.cpus }
    {
        &self.cpus
    }

    /// The locks that are held.
    pub fn locks(&self) -> &Locks
        ensures { result.now ≡ self.now.locks }
    {
        &self.locks
    }

    /// The requests.
    pub fn requests(&self) -> &Requests
        ensures { result.now ≡ self.now.requests }
    {
        &self.requests
    }

    /// Who waits in which queue.
    pub fn queues(&self) -> &Queues
        ensures { result.now ≡ self.now.queues }
    {
        &self.queues
    }

    /// The modes of the queues.
    pub fn control(&self) -> &Control
        ensures { result.now ≡ self.now.control }
    {
        &self.control
    }

    /// The power of the devices.
    pub fn power(&self) -> &Power
        ensures { result.now ≡ self.now.power }
    {
        &self.power
    }

    /// The sequences of the devices.
    pub fn pnp(&self) -> &Pnp
        ensures { result.now ≡ self.now.pnp }
    {
        &self.pnp
    }

    /// The interrupts that are enabled.
    pub fn interrupts(&self) -> &Interrupts
        ensures { result.now ≡ self.now.interrupts }
    {
        &self.interrupts
    }

    /// The queued DPCs.
    pub fn dpcs(&self) -> &Dpcs
        ensures { result.now ≡ self.now.dpcs }
    {
        &self.dpcs
    }

    /// The queued work items.
    pub fn work_items(&self) -> &WorkItems
        ensures { result.now ≡ self.now.work_items }
    {
        &self.work_items
    }

    /// The queued timers.
    pub fn timers(&self) -> &Timers
        ensures { result.now ≡ self.now.timers }
    {
        &self.timers
    }

    /// What is sent to the targets.
    pub fn targets(&self) -> &Targets
        ensures { result.now ≡ self.now.targets }
    {
        &self.targets
    }

    /// Whether an object is a queued DPC or work item, or a timer whose tick is reached.
    pub fn is_open_work(&self, o: ObjectId) -> bool
        ensures { result ≡ ready.is_open_work self.now o.0 }
    {
        self.dpcs.is_dpc_queued(o)
            || self.work_items.is_work_queued(o)
            || self.timers.timer_due(o, self.clock)
    }

    /// How many agents there are.
    pub fn agent_len(&self) -> usize
        ensures { result ≡ length self.now.agents }
    {
        self.agents.len()
    }

    /// The agent with a number, if there is one.
    pub fn agent(&self, agent: usize) -> Option<&A>
        ensures { option_map (λ a. a.now) result ≡ slice_get self.now.agents agent }
    {
        self.agents.get(agent)
    }

    /// How many arrivals an agent has posted, those without a request among them.
    pub fn arrivals(&self, agent: u16) -> u32
        ensures { result ≡ entry 0 self.now.arrivals agent }
    {
        entry_at(&self.arrivals, 0, u32::from(agent))
    }

    /// The tick.
    pub fn now(&self) -> u64
        ensures { result ≡ self.now.clock }
    {
        self.clock
    }

    /// How many events there were.
    pub fn number(&self) -> u32
        ensures { result ≡ self.now.number }
    {
        self.number
    }

    /// Counts an event, and lets the agents hear of it, but for what stays inside a frame.
    pub fn count(&mut self, event: &Event)
        requires { self.old.number + 1 < 2 ^ 32 }
        ensures { self.new ≡ counted A.meaning event.now self.old }
    {
        tell(&mut self.agents, event);
        self.number += 1;
    }
}

/// Lets each agent hear of an event; a step inside a frame concerns none.
fn tell<A: Agent>(agents: &mut [A], event: &Event)
    ensures { agents.new ≡ told A.meaning event.now agents.old }
{
    match event {
        Event::Local { .. } | Event::Log { .. } => {}
        _ => feed_all(agents, event),
    }
}

/// Feeds an event to each agent.
fn feed_all<A: Agent>(agents: &mut [A], event: &Event)
    ensures { agents.new ≡ map (λ a. A.meaning.fold a event.now) agents.old }
{
    for agent in agents.iter_mut() {
        agent.feed(event);
    }
}
