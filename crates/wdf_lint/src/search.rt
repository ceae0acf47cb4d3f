//! The states that a callback's walk comes to, each with a least path.
ghost use Rattle.std.specs.Prelude.{◌≡◌, ◌<◌, ◌≤◌, ◌≢◌, ℕ, None, Some, length, fold, slice_index, IfOk, OnOk};
ghost use Rattle.std.specs.List.{flat_map, list_any};
ghost use Rattle.std.specs.List.Sorted.{IsNonDecreasingBy, IsPermutation};
ghost use Rattle.wdf_lint.specs.Steps as spec;
ghost use Rattle.wdf_lint.specs.Walks as walks;
ghost use Rattle.wdf_lint.specs.Walked.{IsOf};
ghost use Rattle.wdf_lint.specs.Searches.{IsSearch, IsSearchedOrBig, added, added_by, table_of, with_path};
ghost use Rattle.wdf_lint.specs.contracts.state.AbstractPartialEq.TheImpl as derived;

use crate::paths::Paths;
use crate::state::Abstract;
use crate::steps::add_steps;
use crate::walked::{Walked, line_at, start};
use indexmap::IndexSet;
use std::alloc::Global;
use wdf_base::{Memory, Plan};

/// The most states that a walk of a callback keeps.
const STATES: usize = 10_000;

/// The states that were found, in the order of their paths.
#[derive(Drop)]
pub struct Search {
    pub states: IndexSet<Abstract>,
    /// The number of the path of each.
    pub ranks: Vec<usize>,
    pub paths: Paths,
}

// The first place from `from` on whose number isn't the one there.
fn end_of(ranks: &[usize], from: usize) -> usize
    requires { from < length ranks.now }
    ensures past { from < result }
    ensures within { result ≤ length ranks.now }
    ensures same { (i : ℕ) → from ≤ i → i < result → slice_index ranks.now i ≡ slice_index ranks.now from }
    ensures other { result < length ranks.now → slice_index ranks.now result ≢ slice_index ranks.now from }
{
    let mut end = from + 1;
    while end < ranks.len() && ranks[end] == ranks[from] {
        end += 1;
    }
    end
}

// The states after some states.
fn after_all(
    alloc: Global,
    plan: &Plan,
    w: &Walked,
    states: &[Abstract],
) -> Result<Vec<Abstract>, Memory>
    requires of { IsOf plan.now w.now }
    requires script { w.now.script < length plan.now.scripts }
    ensures { IfOk result (λ v. v.items ≡ flat_map (spec.steps plan.now w.now.script) states.now) }
{
    let mut after = Vec::new(alloc);
    for a in states {
        add_steps(&mut after, alloc, plan, w, a)?;
    }
    Ok(after)
}

fn sort_by_line(plan: &Plan, w: &Walked, states: &mut Vec<Abstract>) -> Result<(), Memory>
    requires { w.now.script < length plan.now.scripts }
    ensures same { IsPermutation states.old.items states.new.items }
    ensures rising { OnOk result (IsNonDecreasingBy (walks.line_at plan.now w.now.script) states.new.items) }
{
    states.sort_by_key(|a| line_at(plan, w, a))?;
    Ok(())
}

// Adds the path that goes on path `path` by a line, unless the last one that was added has that line.
fn add_path(paths: &mut Paths, path: usize, last: Option<u32>, line: u32) -> Result<(), Memory>
    requires { path < length paths.old }
    ensures { OnOk result (paths.new ≡ with_path paths.old path last line) }
{
    match last {
        Some(old) if old == line => Ok(()),
        _ => paths.push(path, line),
    }
}

impl Search {
    /// The search that has found the start.
    fn new(alloc: Global, plan: &Plan, w: &Walked) -> Result<Search, Memory>
        requires of { IsOf plan.now w.now }
        requires script { w.now.script < length plan.now.scripts }
        ensures { IfOk result (λ s. IsSearch plan.now w.now.script (table_of s) 0) }
    {
        let first = start(alloc, plan, w);
        let paths = Paths::new(alloc, line_at(plan, w, &first))?;
        let mut ranks = Vec::new(alloc);
        ranks.push(0)?;
        let mut states = IndexSet::new(alloc);
        states.insert(first)?;
        Ok(Search {
            states,
            ranks,
            paths,
        })
    }

    // Adds a state, unless it is there, with a path that goes on path `path` by the state's line. The answer is the line
    // of the last path that was added.
    fn add(
        &mut self,
        path: usize,
        last: Option<u32>,
        line: u32,
        state: Abstract,
    ) -> Result<Option<u32>, Memory>
        requires { path < length self.old.paths }
        ensures { IfOk result (λ l. record { table = table_of self.new; last = l } ≡ added (list_any (derived.eq-value.it state) self.old.states.keys) path line (record { table = table_of self.old; last = last }) state) }
    {
        if !self.states.insert(state)? {
            return Ok(last);
        }
        add_path(&mut self.paths, path, last, line)?;
        self.ranks.push(self.paths.len() - 1)?;
        Ok(Some(line))
    }

    // Adds states in their order.
    fn add_all(
        &mut self,
        alloc: Global,
        plan: &Plan,
        w: &Walked,
        path: usize,
        states: &[Abstract],
    ) -> Result<(), Memory>
        requires path { path < length self.old.paths }
        requires script { w.now.script < length plan.now.scripts }
        ensures { OnOk result (table_of self.new ≡ (fold (added_by derived.eq-value.it (walks.line_at plan.now w.now.script) path) (record { table = table_of self.old; last = None }) states.now).table) }
    {
        let mut last = None;
        for a in states {
            let line = line_at(plan, w, a);
            last = self.add(path, last, line, a.copy(alloc)?)?;
        }
        Ok(())
    }

    // Follows the states from place `next` on that have its path, and answers the place after them.
    fn advance(
        &mut self,
        alloc: Global,
        plan: &Plan,
        w: &Walked,
        next: usize,
    ) -> Result<usize, Memory>
        requires of { IsOf plan.now w.now }
        requires script { w.now.script < length plan.now.scripts }
        requires here { next < length self.old.states.keys }
        requires search { IsSearch plan.now w.now.script (table_of self.old) next }
        ensures on { IfOk result (λ n. next < n) }
        ensures search { IfOk result (IsSearch plan.now w.now.script (table_of self.new)) }
    {
        let end = end_of(self.ranks.as_slice(), next);
        let path = self.ranks[next];
        let mut after = after_all(alloc, plan, w, &self.states.as_slice()[next..end])?;
        sort_by_line(plan, w, &mut after)?;
        self.add_all(alloc, plan, w, path, after.as_slice())?;
        Ok(end)
    }
}

/// The states that a callback's walk comes to; none where there are too many.
pub fn explore(alloc: Global, plan: &Plan, w: &Walked) -> Result<Option<Search>, Memory>
    requires of { IsOf plan.now w.now }
    requires script { w.now.script < length plan.now.scripts }
    ensures { IfOk result (IsSearchedOrBig plan.now w.now.script) }
{
    let mut search = Search::new(alloc, plan, w)?;
    let mut next = 0;
    while next < search.states.len() && search.states.len() <= STATES {
        next = search.advance(alloc, plan, w, next)?;
    }
    if search.states.len() > STATES {
        Ok(None)
    } else {
        Ok(Some(search))
    }
}
