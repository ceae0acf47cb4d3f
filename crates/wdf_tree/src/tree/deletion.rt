//! Deletions: a deletion is asked, the cleanup is done, and the object is destroyed.

ghost use Rattle.std.specs.Prelude.{◌≡◌, ◌-◌, ◌<◌, ◌==◌, ◌||◌, IsTrue, false, length};
ghost use Rattle.std.specs.List.{list_all};
ghost use Rattle.wdf_base.specs.Lives.{is_asked, is_past_cleanup};
ghost use Rattle.wdf_model.specs.parts.Tree as tree;

use super::Tree;
use super::ends::{note_end, note_ended};
use super::gather::Subtree;
use super::making::{DRIVER, counted};
use super::turns::{note_around, note_cleaned};
use wdf_base::{Life, ObjectId};
use wdf_maps::{is_id, object_at};

impl Tree {
    /// Asks the deletion of one object, if it is live.
    #[tactic(auto, using(wdf_model::proofs::Maps::put_within, wdf_model::proofs::Maps::set_as_it_was))]
    pub fn ask_one(&mut self, o: ObjectId)
        requires there { o.0 < length self.old.nodes }
        ensures done { self.new ≡ tree.ask_one self.old o.0 }
        ensures size { length self.new.nodes ≡ length self.old.nodes }
    {
        if self.life(o).is_live() {
            self.nodes.at_mut(o.0).life = Life::Asked;
            self.asked.put(o.0, true);
            note_around(&mut self.turns, &self.nodes, &self.waiting, o, None);
        }
    }

    /// Whether `below` is below `o`, by one or more steps from child to parent.
    #[tactic(auto, using(crate::proofs::Marks::below_by_parent))]
    pub fn is_below(&self, o: ObjectId, below: ObjectId) -> bool
        ensures { result ≡ tree.is_below self.now o.0 below.0 }
    {
        if below.0 >= self.len() {
            return false;
        }
        let mut at = below;
        'up: loop {
            let parent = self.parent(at);
            if parent.0 == o.0 {
                return true;
            }
            if parent.0 >= at.0 {
                return false;
            }
            at = parent;
        }
    }

    /// Asks the deletion of an object and of what is below it (KMDF): of each that is live. It visits
    /// no others. `subtree` is room for the walk; what it has afterwards isn't stated.
    pub fn ask_delete(&mut self, o: ObjectId, subtree: &mut Subtree)
        ensures done { self.new ≡ tree.ask_delete self.old o.0 }
        ensures size { length self.new.nodes ≡ length self.old.nodes }
    {
        self.gather(o, subtree);
        for id in subtree.ids() {
            self.ask_one(ObjectId(*id));
        }
    }

    /// Whether no child of an object is left.
    #[tactic(auto, using(crate::proofs::Children::left_children))]
    fn has_no_child(&self, o: ObjectId) -> bool
        requires there { o.0 < length self.now.nodes }
        ensures { result ≡ (length (tree.children self.now o.0) == 0) }
    {
        self.children.is_empty(o.0)
    }

    /// Whether each child of an object has been cleaned up.
    #[tactic(auto, using(crate::proofs::Children::no_waiting_child))]
    fn are_children_clean(&self, o: ObjectId) -> bool
        requires there { o.0 < length self.now.nodes }
        ensures { result ≡ list_all (λ x. is_past_cleanup (tree.life_of self.now x)) (tree.children self.now o.0) }
    {
        self.waiting.is_empty(o.0)
    }

    /// Whether each younger sibling of an object whose deletion was asked has been cleaned up.
    #[tactic(auto, using(crate::proofs::Children::last_waiting))]
    fn are_younger_clean(&self, o: ObjectId) -> bool
        requires asked { IsTrue (is_asked (tree.life_of self.now o.0)) }
        requires parent { IsTrue (is_asked (tree.life_of self.now (tree.parent_of self.now o.0))) }
        ensures { result ≡ list_all (λ x. is_past_cleanup (tree.life_of self.now x)) (tree.younger_siblings self.now o.0) }
    {
        is_id(object_at(self.waiting.back(self.parent(o).0)), o)
    }

    /// Whether the cleanup of an object may come, by lives alone: its deletion was asked, no child
    /// waits for cleanup, and, where the deletion of its parent was asked too, no younger sibling
    /// does (own).
    #[tactic(auto, using(crate::proofs::Kept::there_if_asked))]
    pub fn may_clean(&self, o: ObjectId) -> bool
        ensures { result ≡ tree.may_clean self.now o.0 }
    {
        if !self.life(o).is_asked() || !self.are_children_clean(o) {
            return false;
        }
        !self.life(self.parent(o)).is_asked() || self.are_younger_clean(o)
    }

    /// The cleanup of an object is done.
    #[tactic(auto, using(crate::proofs::Kept::there_if_asked, wdf_model::proofs::Maps::put_within))]
    pub fn clean(&mut self, o: ObjectId)
        requires asked { IsTrue (is_asked (tree.life_of self.old o.0)) }
        ensures done { self.new ≡ tree.clean self.old o.0 }
        ensures size { length self.new.nodes ≡ length self.old.nodes }
    {
        let parent = self.parent(o);
        self.nodes.at_mut(o.0).life = Life::Cleaned;
        let _list = self.waiting.unlink(o.0);
        self.asked.put(o.0, false);
        self.cleaned.put(o.0, true);
        let last = self.waiting.back(parent.0);
        note_cleaned(&mut self.turns, &self.nodes, &self.waiting, o, parent, last);
        note_end(&mut self.ends, &self.nodes, &self.children, o);
    }

    /// Whether an object may be destroyed, by the tree alone: its cleanup is done, no reference is
    /// held, and no child is left (KMDF).
    #[tactic(auto, using(crate::proofs::Kept::there_if_cleaned))]
    pub fn may_destroy(&self, o: ObjectId) -> bool
        ensures { result ≡ tree.may_destroy self.now o.0 }
    {
        self.life(o).is_cleaned() && self.references(o) == 0 && self.has_no_child(o)
    }

    /// An object is destroyed, and nothing of it is kept.
    #[tactic(auto, using(crate::proofs::Kept::there_if_cleaned, wdf_model::proofs::Maps::put_within))]
    pub fn destroy(&mut self, o: ObjectId)
        requires may { IsTrue (tree.may_destroy self.old o.0) }
        ensures done { self.new ≡ tree.destroy self.old o.0 }
        ensures size { length self.new.nodes ≡ length self.old.nodes }
    {
        let parent = self.parent(o);
        self.count -= counted(self.nodes.get(o.0));
        self.nodes.remove(o.0);
        self.devices[o.0 as usize] = DRIVER;
        let _list = self.children.unlink(o.0);
        self.cleaned.put(o.0, false);
        self.counted.put(o.0, false);
        note_ended(&mut self.ends, &self.nodes, &self.children, o, parent);
    }
}
