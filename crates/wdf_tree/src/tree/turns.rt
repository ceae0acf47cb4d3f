//! The objects whose cleanup may come, by lives alone.

ghost use Rattle.std.specs.Prelude.{◌≡◌, ◌<◌, ◌≤◌, ◌&&◌, ℕ, IfSome, MatchOption, true, filter, find, length, nat_le, option_and_then, option_map, slice_get};
ghost use Rattle.std.specs.List.{range_with_len};
ghost use Rattle.wdf_ilist.specs.Family.{after_in, is_on, list_at};
ghost use Rattle.wdf_model.specs.Tables.{ids_of};
ghost use Rattle.wdf_model.specs.declared.room.TheConstants.{OBJECTS};
ghost use Rattle.wdf_model.specs.parts.Tree as tree;
ghost use Rattle.wdf_sets.specs.Members.{is_in};
ghost use Rattle.wdf_sets.specs.Nexts.{IsNext, NoneFrom};
ghost use Rattle.wdf_tree.specs.Turns.{AreNoted, is_counted_turn, is_turn as is_turn_by, turns_of};

use super::Tree;
use super::leaving::first_in_both;
use wdf_base::ObjectId;
use wdf_ilist::Links;
use wdf_maps::{is_id, object_at};
use wdf_model::Node;
use wdf_sets::IdSet;
use wdf_slots::Slots;

/// Whether an object's turn has come: its deletion was asked, no child of it waits for cleanup, and, where
/// the deletion of its parent was asked too, it is the last child that does.
fn is_turn(nodes: &Slots<Node>, waiting: &Links, o: ObjectId) -> bool
    ensures { result ≡ is_turn_by nodes.now waiting.now.lists o.0 }
{
    let node = nodes.get(o.0);
    node.life.is_asked()
        && waiting.is_empty(o.0)
        && (!nodes.get(node.parent.0).life.is_asked()
            || is_id(object_at(waiting.back(node.parent.0)), o))
}

/// Notes whether an object's turn has come.
pub(super) fn note_turn(turns: &mut IdSet, nodes: &Slots<Node>, waiting: &Links, o: ObjectId)
    requires room { length nodes.now ≤ length turns.old }
    ensures noted { AreNoted (is_turn_by nodes.now waiting.now.lists) turns.old turns.new }
    ensures own { o.0 < length nodes.now → is_in o.0 turns.new ≡ is_turn_by nodes.now waiting.now.lists o.0 }
{
    if o.0 < nodes.len() {
        turns.put(o.0, is_turn(nodes, waiting, o));
    }
}

/// The item after one, if there is one.
pub(super) fn item_after(links: &Links, item: Option<u32>) -> Option<u32>
    ensures { result ≡ option_and_then (λ x. after_in x links.now.lists) item }
{
    links.after(item?)
}

/// Notes it of the children of an object that wait for cleanup.
#[tactic(auto, using(crate::proofs::Turns::noted_none))]
fn note_children(turns: &mut IdSet, nodes: &Slots<Node>, waiting: &Links, o: ObjectId)
    requires room { length nodes.now ≤ length turns.old }
    ensures noted { AreNoted (is_turn_by nodes.now waiting.now.lists) turns.old turns.new }
    ensures children { (id : ℕ) → id < length nodes.now → is_on id (list_at waiting.now.lists o.0) ≡ true
        → is_in id turns.new ≡ is_turn_by nodes.now waiting.now.lists id }
{
    let mut child = waiting.front(o.0);
    for place in 0..waiting.len(o.0) {
        note_if_any(turns, nodes, waiting, child);
        child = item_after(waiting, child);
    }
}

/// Notes it of an object that changed, of a sibling, and of its children that wait for cleanup.
pub(super) fn note_around(
    turns: &mut IdSet,
    nodes: &Slots<Node>,
    waiting: &Links,
    o: ObjectId,
    sibling: Option<u32>,
)
    requires room { length nodes.now ≤ length turns.old }
    ensures noted { AreNoted (is_turn_by nodes.now waiting.now.lists) turns.old turns.new }
    ensures own { o.0 < length nodes.now → is_in o.0 turns.new ≡ is_turn_by nodes.now waiting.now.lists o.0 }
    ensures sibling { IfSome sibling (λ x. x < length nodes.now → is_in x turns.new ≡ is_turn_by nodes.now waiting.now.lists x) }
    ensures children { (id : ℕ) → id < length nodes.now → is_on id (list_at waiting.now.lists o.0) ≡ true
        → is_in id turns.new ≡ is_turn_by nodes.now waiting.now.lists id }
{
    note_turn(turns, nodes, waiting, o);
    note_if_any(turns, nodes, waiting, sibling);
    note_children(turns, nodes, waiting, o);
}

/// Notes it of an object, if there is one.
pub(super) fn note_if_any(
    turns: &mut IdSet,
    nodes: &Slots<Node>,
    waiting: &Links,
    found: Option<u32>,
)
    requires room { length nodes.now ≤ length turns.old }
    ensures noted { AreNoted (is_turn_by nodes.now waiting.now.lists) turns.old turns.new }
    ensures own { IfSome found (λ x. x < length nodes.now → is_in x turns.new ≡ is_turn_by nodes.now waiting.now.lists x) }
{
    if let Some(found) = found {
        note_turn(turns, nodes, waiting, ObjectId(found));
    }
}

/// Notes it of an object that came, by its parent and the child that was the last one there.
pub(super) fn note_joined(
    turns: &mut IdSet,
    nodes: &Slots<Node>,
    waiting: &Links,
    parent: ObjectId,
    sibling: Option<u32>,
)
    requires room { length nodes.now ≤ length turns.old }
    ensures noted { AreNoted (is_turn_by nodes.now waiting.now.lists) turns.old turns.new }
    ensures parent { parent.0 < length nodes.now → is_in parent.0 turns.new ≡ is_turn_by nodes.now waiting.now.lists parent.0 }
    ensures sibling { IfSome sibling (λ x. x < length nodes.now → is_in x turns.new ≡ is_turn_by nodes.now waiting.now.lists x) }
{
    note_turn(turns, nodes, waiting, parent);
    note_if_any(turns, nodes, waiting, sibling);
}

/// Notes it of an object that was cleaned up, of its parent, of the last sibling that waits for cleanup, and of its
/// children that do.
pub(super) fn note_cleaned(
    turns: &mut IdSet,
    nodes: &Slots<Node>,
    waiting: &Links,
    o: ObjectId,
    parent: ObjectId,
    sibling: Option<u32>,
)
    requires room { length nodes.now ≤ length turns.old }
    ensures noted { AreNoted (is_turn_by nodes.now waiting.now.lists) turns.old turns.new }
    ensures own { o.0 < length nodes.now → is_in o.0 turns.new ≡ is_turn_by nodes.now waiting.now.lists o.0 }
    ensures parent { parent.0 < length nodes.now → is_in parent.0 turns.new ≡ is_turn_by nodes.now waiting.now.lists parent.0 }
    ensures sibling { IfSome sibling (λ x. x < length nodes.now → is_in x turns.new ≡ is_turn_by nodes.now waiting.now.lists x) }
    ensures children { (id : ℕ) → id < length nodes.now → is_on id (list_at waiting.now.lists o.0) ≡ true
        → is_in id turns.new ≡ is_turn_by nodes.now waiting.now.lists id }
{
    note_turn(turns, nodes, waiting, parent);
    note_around(turns, nodes, waiting, o, sibling);
}

impl Tree {
    /// The first object from an id on whose cleanup may come, by lives alone ([`Tree::may_clean`]).
    pub fn turn_from(&self, from: ObjectId) -> Option<ObjectId>
        ensures { option_map (λ o. o.0) result
            ≡ find (λ o. nat_le from.0 o && tree.may_clean self.now o) (ids_of self.now.nodes) }
    {
        object_at(self.turns.from(from.0))
    }

    /// The first object from an id on below an end whose cleanup may come, by lives alone, and that counts against the
    /// limit: no arrived request.
    pub fn next_counted_turn(&self, from: u32, end: u32) -> Option<u32>
        ensures { MatchOption result (NoneFrom (is_counted_turn self.now) from end) (λ o. IsNext (is_counted_turn self.now) from end o) }
    {
        first_in_both(&self.turns, &self.counted, from, end)
    }

    /// How many objects there are whose cleanup may come, by lives alone. There is room for each object.
    pub fn turn_len(&self) -> u32
        ensures count { result ≡ length (turns_of self.now) }
        ensures room { length self.now.nodes ≤ OBJECTS }
    {
        self.turns.len()
    }

    /// The k-th of them, by rising id from 0; `None` exactly where there are fewer.
    pub fn turn_at(&self, k: u32) -> Option<ObjectId>
        ensures { option_map (λ o. o.0) result ≡ slice_get (turns_of self.now) k }
    {
        object_at(self.turns.at(k))
    }

    /// How many of them have a lesser id.
    pub fn turns_before(&self, o: ObjectId) -> u32
        ensures { result ≡ length (filter (tree.may_clean self.now) (range_with_len 0 o.0)) }
    {
        let lesser = self.turns.before(o.0);
        lesser
    }
}
