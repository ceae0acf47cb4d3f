ghost use Rattle.std.specs.Prelude.{◌≡◌, ◌+◌, ◌<◌, ◌^◌, IfOk, false, length, map, replicate, slice_set};
ghost use Rattle.wdf_model.specs.Tables.{entry};
ghost use Rattle.wdf_request.specs.Arrivals.{emptied, has_slot as has_slot_for, is_sure as is_sure_of, noted, opening_arrivals, slot as slot_for};

use std::alloc::Global;
use std::marker::Model;
use wdf_base::{Memory, Plan};
use wdf_maps::entry_at;

/// The requests of one agent's arrivals.
#[derive(Drop)]
struct Row {
    /// By the number of the arrival: the id of the request and one more, or 0.
    slots: Vec<u32>,
}

impl Model for Row {
    ghost use Rattle.std.specs.Prelude.{ℕ, List};

    ghost Value = { List ℕ };

    ghost view = { λ r. r.slots.items };
}

impl Row {
    /// A place for each number up to this one.
    fn make(alloc: Global, most: u32) -> Result<Row, Memory>
        ensures { IfOk result (λ row. row ≡ replicate (most + 1) 0) }
    {
        Ok(Row {
            slots: vec![in alloc; 0; most as usize + 1]?,
        })
    }

    /// All places are 0 again.
    fn clear(&mut self)
        ensures { self.new ≡ replicate (length self.old) 0 }
    {
        self.slots.as_mut_slice().fill(0);
    }

    /// How many places there are.
    fn len(&self) -> usize
        ensures { result ≡ length self.now }
    {
        self.slots.len()
    }

    /// What a place holds, 0 past the last one.
    fn get(&self, k: u32) -> u32
        ensures { result ≡ entry 0 self.now k }
    {
        entry_at(&self.slots, 0, k)
    }

    /// Writes a place.
    fn put(&mut self, k: u32, id: u32)
        requires { k < length self.old }
        ensures { self.new ≡ slice_set self.old k id }
    {
        self.slots[k as usize] = id;
    }
}

/// The rows of the agents, with no arrival.
fn empty_rows(alloc: Global, plan: &Plan) -> Result<Vec<Row>, Memory>
    ensures { IfOk result (λ rows. rows.items ≡ (opening_arrivals plan.now).rows) }
{
    let mut rows = Vec::with_capacity(alloc, plan.agent_len() as usize)?;
    for agent in 0..plan.agent_len() {
        match Row::make(alloc, plan.post_len(agent)) {
            Ok(row) => rows.push_reserved(row),
            Err(memory) => return Err(memory),
        }
    }
    Ok(rows)
}

/// All places of all rows are 0 again.
fn clear_rows(rows: &mut [Row])
    ensures { rows.new ≡ map emptied rows.old }
{
    for row in rows.iter_mut() {
        row.clear();
    }
}

/// Which request each arrival made, by the agent and the number of its arrival.
#[derive(Drop)]
pub(crate) struct Arrivals {
    /// By the agent's number.
    rows: Vec<Row>,
    /// Whether two requests had one number of one agent. The rows say nothing then.
    twice: bool,
}

impl Model for Arrivals {
    ghost use Rattle.wdf_request.specs.Arrivals.{Noted};

    ghost Value = { Noted };

    ghost view = { λ a. record { rows = a.rows.items; twice = a.twice } };
}

impl Arrivals {
    /// A place for each number of an arrival, up to that of the last line of its agent; nothing arrived.
    pub(crate) fn make(alloc: Global, plan: &Plan) -> Result<Arrivals, Memory>
        ensures { IfOk result (λ made. made ≡ opening_arrivals plan.now) }
    {
        Ok(Arrivals {
            rows: empty_rows(alloc, plan)?,
            twice: false,
        })
    }

    /// Nothing arrived. Each number has its place still.
    pub(crate) fn clear(&mut self)
        ensures { self.new ≡ record { rows = map emptied self.old.rows; twice = false } }
    {
        clear_rows(self.rows.as_mut_slice());
        self.twice = false;
    }

    /// Whether there is a place for an arrival.
    fn has_slot(&self, agent: u16, k: u32) -> bool
        ensures { result ≡ has_slot_for self.now.rows agent k }
    {
        self.rows
            .get(agent as usize)
            .is_some_and(|row| (k as usize) < row.len())
    }

    /// The id of the request that an arrival made and one more, or 0.
    pub(crate) fn slot(&self, agent: u16, k: u32) -> u32
        ensures { result ≡ slot_for self.now.rows agent k }
    {
        match self.rows.get(agent as usize) {
            Some(row) => row.get(k),
            None => 0,
        }
    }

    /// Whether the rows say which request an arrival made.
    pub(crate) fn is_sure(&self, agent: u16, k: u32) -> bool
        ensures { result ≡ is_sure_of self.now agent k }
    {
        !self.twice && self.has_slot(agent, k)
    }

    /// An arrival made this request; the number 0 is none.
    pub(crate) fn note(&mut self, agent: u16, k: u32, r: u32)
        requires { r + 1 < 2 ^ 32 }
        ensures { self.new ≡ noted self.old agent k r }
    {
        if k == 0 || !self.has_slot(agent, k) {
            return;
        }
        let old = self.slot(agent, k);
        if old == 0 {
            let row = &mut self.rows[agent as usize];
            row.put(k, r + 1);
        } else if old != r + 1 {
            self.twice = true;
        }
    }
}
