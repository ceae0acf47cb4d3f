//! The ticks until which frames spend.
ghost use Rattle.std.specs.Prelude.{◌≡◌, true, false, ◌<◌, ◌≤◌, ◌==◌, ℕ, [], count_by, length, nat_lt, not, vec_capacity, vec_len, IfOk};
ghost use Rattle.std.specs.List.Sorted.{IsNonDecreasing};
ghost use Rattle.wdf_cpu.specs.Spending.{Came, IsMoved, IsPlaceFor, Went};

use std::alloc::Global;
use std::marker::Model;
use wdf_base::Memory;
use wdf_model::FRAMES;

/// The ticks until which frames spend, each as often as frames have it. No call but [`Untils::make`]
/// takes memory, and none looks at each tick. No list of `wdf_maps` can hold them: that has each key
/// at most once, and keys of 32 bits.
///
/// Contracts see the list of the ticks, which rise.
#[derive(Drop)]
pub(crate) struct Untils {
    ticks: Vec<u64>,
}

impl Model for Untils {
    ghost use Rattle.std.specs.Prelude.{ℕ, List};

    ghost Value = { List ℕ };

    ghost use Rattle.wdf_cpu.specs.InUntils.{AreInOrder};

    ghost view = { λ u. u.ticks.items };

    ghost invariant = { AreInOrder };
}

impl Untils {
    /// No frame spends.
    pub(crate) fn make(alloc: Global) -> Result<Untils, Memory>
        ensures { IfOk result (λ made. made ≡ []) }
    {
        Ok(Untils {
            ticks: Vec::with_capacity(alloc, FRAMES as usize + 1)?,
        })
    }

    /// No frame spends any more.
    pub(crate) fn clear(&mut self)
        ensures { self.new ≡ [] }
    {
        self.ticks.clear();
    }

    /// The greatest tick, 0 where there is none.
    pub(crate) fn latest(&self) -> u64
        ensures { (t : ℕ) → nat_lt t result ≡ not (count_by (nat_lt t) self.now == 0) }
    {
        match self.ticks.last() {
            Some(tick) => *tick,
            None => 0,
        }
    }

    /// A frame that had one tick has another; each may be 0, which isn't kept.
    pub(crate) fn moves(&mut self, from: u64, to: u64)
        requires room { length self.old ≤ FRAMES }
        requires there { 0 < from → 1 ≤ count_by (λ u. u == from) self.old }
        ensures { IsMoved from to self.old self.new }
    {
        if from != to {
            add_tick(&mut self.ticks, to);
            drop_tick(&mut self.ticks, from);
        }
    }
}

/// A place for a tick among ticks that rise.
fn place_for(ticks: &[u64], tick: u64) -> usize
    requires { IsNonDecreasing ticks.now }
    ensures { IsPlaceFor tick ticks.now result }
{
    match ticks.binary_search(&tick) {
        Ok(place) => place,
        Err(place) => place,
    }
}

/// Puts a tick in its place, if it isn't 0.
fn add_tick(ticks: &mut Vec<u64>, tick: u64)
    requires order { IsNonDecreasing ticks.old.items }
    requires room { vec_len ticks.old < vec_capacity ticks.old }
    ensures came { Came tick ticks.old.items ticks.new.items }
    ensures order { IsNonDecreasing ticks.new.items }
    ensures capacity { vec_capacity ticks.old ≤ vec_capacity ticks.new }
{
    if tick == 0 {
        return;
    }
    let place = place_for(ticks, tick);
    ticks.insert(place, tick).unwrap();
}

/// Takes away one of a tick that is there, if it isn't 0.
fn drop_tick(ticks: &mut Vec<u64>, tick: u64)
    requires order { IsNonDecreasing ticks.old.items }
    requires there { 0 < tick → 1 ≤ count_by (λ u. u == tick) ticks.old.items }
    ensures went { Went tick ticks.old.items ticks.new.items }
    ensures order { IsNonDecreasing ticks.new.items }
    ensures capacity { vec_capacity ticks.old ≤ vec_capacity ticks.new }
{
    if tick == 0 {
        return;
    }
    if let Ok(place) = ticks.binary_search(&tick) {
        ticks.remove(place);
    }
}

/// A frame that had one tick has another, where it is live; else nothing changes.
pub(crate) fn move_until_if(untils: &mut Untils, live: bool, from: u64, to: u64)
    requires room { length untils.old ≤ FRAMES }
    requires there { live ≡ true → 0 < from → 1 ≤ count_by (λ u. u == from) untils.old }
    ensures moved { live ≡ true → IsMoved from to untils.old untils.new }
    ensures other { live ≡ false → untils.new ≡ untils.old }
{
    if live {
        untils.moves(from, to);
    }
}
