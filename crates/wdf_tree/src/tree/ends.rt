//! The objects that may be destroyed, by the tree alone.

ghost use Rattle.std.specs.Prelude.{◌≡◌, ◌<◌, ◌≤◌, filter, length, option_map, slice_get};
ghost use Rattle.std.specs.List.{range_with_len};
ghost use Rattle.wdf_model.specs.declared.room.TheConstants.{OBJECTS};
ghost use Rattle.wdf_model.specs.parts.Tree as tree;
ghost use Rattle.wdf_sets.specs.Members.{is_in};
ghost use Rattle.wdf_tree.specs.Turns.{AreNoted, ends_of, is_end as is_end_by};

use super::Tree;
use wdf_base::ObjectId;
use wdf_ilist::Links;
use wdf_maps::object_at;
use wdf_model::Node;
use wdf_sets::IdSet;
use wdf_slots::Slots;

/// Whether an object may be destroyed: it is cleaned up, the driver holds no reference to it, and no child of it is
/// left.
fn is_end(nodes: &Slots<Node>, children: &Links, o: ObjectId) -> bool
    ensures { result ≡ is_end_by nodes.now children.now.lists o.0 }
{
    let node = nodes.get(o.0);
    node.life.is_cleaned() && node.references == 0 && children.is_empty(o.0)
}

/// Notes whether an object may be destroyed.
pub(super) fn note_end(ends: &mut IdSet, nodes: &Slots<Node>, children: &Links, o: ObjectId)
    requires room { length nodes.now ≤ length ends.old }
    ensures noted { AreNoted (is_end_by nodes.now children.now.lists) ends.old ends.new }
    ensures own { o.0 < length nodes.now → is_in o.0 ends.new ≡ is_end_by nodes.now children.now.lists o.0 }
{
    if o.0 < nodes.len() {
        ends.put(o.0, is_end(nodes, children, o));
    }
}

/// Notes it of an object that was destroyed, and of its parent.
pub(super) fn note_ended(
    ends: &mut IdSet,
    nodes: &Slots<Node>,
    children: &Links,
    o: ObjectId,
    parent: ObjectId,
)
    requires room { length nodes.now ≤ length ends.old }
    ensures noted { AreNoted (is_end_by nodes.now children.now.lists) ends.old ends.new }
    ensures own { o.0 < length nodes.now → is_in o.0 ends.new ≡ is_end_by nodes.now children.now.lists o.0 }
    ensures parent { parent.0 < length nodes.now → is_in parent.0 ends.new ≡ is_end_by nodes.now children.now.lists parent.0 }
{
    note_end(ends, nodes, children, o);
    note_end(ends, nodes, children, parent);
}

impl Tree {
    /// How many objects may be destroyed, by the tree alone ([`Tree::may_destroy`]). There is room for each object.
    pub fn end_len(&self) -> u32
        ensures count { result ≡ length (ends_of self.now) }
        ensures room { length self.now.nodes ≤ OBJECTS }
    {
        self.ends.len()
    }

    /// The k-th of them, by rising id from 0; `None` exactly where there are fewer.
    pub fn end_at(&self, k: u32) -> Option<ObjectId>
        ensures { option_map (λ o. o.0) result ≡ slice_get (ends_of self.now) k }
    {
        object_at(self.ends.at(k))
    }

    /// How many of them have a lesser id.
    pub fn ends_before(&self, o: ObjectId) -> u32
        ensures { result ≡ length (filter (tree.may_destroy self.now) (range_with_len 0 o.0)) }
    {
        let lesser = self.ends.before(o.0);
        lesser
    }
}
