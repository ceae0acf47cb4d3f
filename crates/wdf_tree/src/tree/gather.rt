//! The objects of a subtree, gathered along the lists of children.

ghost use Rattle.std.specs.Prelude.{◌≡◌, ◌+◌, ◌<◌, ◌≤◌, ◌^◌, ◌==◌, ◌∷◌, ◌++◌, ◌&&◌, ◌||◌, [], ℕ, IfOk, IfSome, false, if◌then◌else◌, length, nat_le, not, slice_index, vec_capacity};
ghost use Rattle.wdf_ilist.specs.Family.{is_on, list_at};
ghost use Rattle.wdf_model.specs.Tables.{same_id};
ghost use Rattle.wdf_model.specs.parts.Tree as tree;
ghost use Rattle.wdf_sets.specs.Members.{is_in};
ghost use Rattle.wdf_tree.specs.Inside.{EndsAlone};
ghost use Rattle.wdf_tree.specs.Gathering.{is_within as is_within_by};

use super::Tree;
use super::turns::item_after;
use std::alloc::Global;
use std::marker::Model;
use wdf_base::{Memory, ObjectId};
use wdf_ilist::Links;
use wdf_model::OBJECTS;
use wdf_sets::IdSet;

/// The objects of a subtree, by rising ids.
///
/// Contracts see the list of their ids. No call but [`Subtree::make`] takes memory.
#[derive(Drop)]
pub struct Subtree {
    ids: Vec<u32>,
    /// The objects that were found and come next, while the list is filled; else none.
    ahead: IdSet,
}

impl Model for Subtree {
    ghost use Rattle.std.specs.Prelude.{ℕ, List};

    ghost Value = { List ℕ };

    ghost use Rattle.wdf_tree.specs.Inside.{EndsAlone};
    ghost use Rattle.wdf_tree.specs.Gathering.{HasRoom};

    ghost view = { λ s. s.ids.items };

    ghost invariant = { HasRoom };
}

impl Subtree {
    /// No object, and room for as many as a run can make.
    pub fn make(alloc: Global) -> Result<Subtree, Memory>
        ensures { IfOk result (λ made. made ≡ []) }
    {
        Ok(Subtree {
            ids: Vec::with_capacity(alloc, OBJECTS as usize)?,
            ahead: IdSet::make(alloc, OBJECTS)?,
        })
    }

    /// The ids, rising.
    pub fn ids(&self) -> &[u32]
        ensures { result.now ≡ self.now }
    {
        &self.ids
    }
}

/// Puts an id at the end of a list, if it belongs there.
fn push_if(ids: &mut Vec<u32>, id: u32, on: bool)
    requires room { length ids.old.items < vec_capacity ids.old }
    ensures ids { ids.new.items ≡ ids.old.items ++ (if on then id ∷ [] else []) }
    ensures capacity { vec_capacity ids.new ≡ vec_capacity ids.old }
{
    if on {
        ids.push_reserved(id);
    }
}

/// Puts an item that was found into a set, if it is `first` or comes after that.
fn put_from(found: Option<u32>, first: u32, set: &mut IdSet)
    requires room { IfSome found (λ x. x < length set.old) }
    ensures size { length set.new ≡ length set.old }
    ensures each { (id : ℕ) → is_in id set.new ≡ (is_in id set.old || (same_id found id && nat_le first id)) }
{
    if let Some(id) = found
        && id >= first
    {
        set.put(id, true);
    }
}

/// Puts the items of a list from `first` on into a set.
fn put_list(links: &Links, list: u32, first: u32, set: &mut IdSet)
    requires room { links.now.items ≤ length set.old }
    ensures size { length set.new ≡ length set.old }
    ensures each { (id : ℕ) → is_in id set.new ≡ (is_in id set.old || (is_on id (list_at links.now.lists list) && nat_le first id)) }
{
    let mut item = links.front(list);
    for place in 0..links.len(list) {
        put_from(item, first, set);
        item = item_after(links, item);
    }
}

impl Tree {
    /// Finds the children of an object from `first` on.
    fn find_children(&self, parent: u32, first: u32, ahead: &mut IdSet)
        requires there { parent < length self.now.nodes }
        requires room { OBJECTS ≤ length ahead.old }
        ensures size { length ahead.new ≡ length ahead.old }
        ensures each { (id : ℕ) → is_in id ahead.new ≡ (is_in id ahead.old || (tree.is_child self.now parent id && nat_le first id)) }
        ensures ends { EndsAlone self.now.nodes }
        ensures few { length self.now.nodes ≤ OBJECTS }
    {
        put_list(&self.children, parent, first, ahead);
    }

    /// Finds those children of an object in the subtree of `o` that have a greater id. The children of
    /// `o` itself were found before.
    fn find_later(&self, o: u32, parent: u32, ahead: &mut IdSet)
        requires there { parent < length self.now.nodes }
        requires small { parent + 1 < 2 ^ 32 }
        requires room { OBJECTS ≤ length ahead.old }
        ensures size { length ahead.new ≡ length ahead.old }
        ensures each { (id : ℕ) → is_in id ahead.new ≡ (is_in id ahead.old || (not (parent == o) && (tree.is_child self.now parent id && nat_le (parent + 1) id))) }
    {
        if parent != o {
            self.find_children(parent, parent + 1, ahead);
        }
    }

    /// Gathers the subtree of an object along the lists of children. The least object that was found
    /// comes next, so they come by rising ids.
    fn gather_along(&self, o: u32, ids: &mut Vec<u32>, ahead: &mut IdSet)
        requires object { 0 < o }
        requires there { o < length self.now.nodes }
        requires none_yet { ids.old.items ≡ [] }
        requires capacity { OBJECTS ≤ vec_capacity ids.old }
        requires room { OBJECTS ≤ length ahead.old }
        requires clear { (id : ℕ) → is_in id ahead.old ≡ false }
        ensures ids { ids.new.items ≡ tree.subtree self.now o }
        ensures capacity { vec_capacity ids.new ≡ vec_capacity ids.old }
        ensures size { length ahead.new ≡ length ahead.old }
        ensures clear { (id : ℕ) → is_in id ahead.new ≡ false }
    {
        self.find_children(o, 0, ahead);
        ahead.put(o, true);
        let mut from = 0;
        'walk: while let Some(x) = ahead.from(from) {
            ids.push_reserved(x);
            ahead.put(x, false);
            self.find_later(o, x, ahead);
            from = x + 1;
        }
    }

    /// Gathers the subtree of an id that no object has. No list keeps what names it as its parent, so
    /// this goes over all objects.
    #[tactic(auto, using(crate::proofs::Gathering::filter_more))]
    fn gather_over(&self, o: u32, ids: &mut Vec<u32>)
        requires none_yet { ids.old.items ≡ [] }
        requires capacity { OBJECTS ≤ vec_capacity ids.old }
        ensures ids { ids.new.items ≡ tree.subtree self.now o }
        ensures capacity { vec_capacity ids.new ≡ vec_capacity ids.old }
    {
        for id in 0..self.nodes.len() {
            push_if(ids, id, self.is_within(o, id));
        }
    }

    /// Whether an object is this one or below it.
    fn is_within(&self, o: u32, id: u32) -> bool
        ensures { result ≡ is_within_by self.now o id }
    {
        id == o || self.is_below(ObjectId(o), ObjectId(id))
    }

    /// Gathers an object and the objects below it. It visits no others.
    #[tactic(auto, using(crate::proofs::Gathering::all_there))]
    pub fn gather(&self, o: ObjectId, subtree: &mut Subtree)
        ensures ids { subtree.new ≡ tree.subtree self.now o.0 }
        ensures there { (k : ℕ) → k < length subtree.new → slice_index subtree.new k < length self.now.nodes }
    {
        subtree.ids.clear();
        if 0 < o.0 && o.0 < self.len() {
            self.gather_along(o.0, &mut subtree.ids, &mut subtree.ahead);
        } else {
            self.gather_over(o.0, &mut subtree.ids);
        }
    }
}
