//! What is kept of one object: references, context cells, and which callbacks of its deletion started.

ghost use Rattle.std.specs.Prelude.{◌≡◌, ◌<◌, length, nat_lt};
ghost use Rattle.wdf_model.specs.parts.Tree as tree;

use super::Tree;
use super::ends::note_end;
use wdf_base::{Callback, ObjectId, Value};
use wdf_model::{CELLS, EVENTS};

impl Tree {
    /// The driver takes a reference to an object.
    #[tactic(auto, using(crate::proofs::Kept::few_of_one, wdf_model::proofs::Maps::put_within))]
    pub fn reference(&mut self, o: ObjectId)
        requires there { o.0 < length self.old.nodes }
        requires room { tree.references_in self.old < EVENTS }
        ensures done { self.new ≡ tree.reference self.old o.0 }
        ensures size { length self.new.nodes ≡ length self.old.nodes }
    {
        let held = self.references(o);
        self.nodes.at_mut(o.0).references = held + 1;
        note_end(&mut self.ends, &self.nodes, &self.children, o);
    }

    /// The driver gives a reference to an object back. `false`, and nothing changes, where it holds
    /// none.
    #[tactic(auto, using(wdf_model::proofs::Maps::put_within))]
    pub fn dereference(&mut self, o: ObjectId) -> bool
        requires there { o.0 < length self.old.nodes }
        ensures answer { result ≡ nat_lt 0 (tree.references_of self.old o.0) }
        ensures done { self.new ≡ tree.dereference self.old o.0 }
        ensures size { length self.new.nodes ≡ length self.old.nodes }
    {
        let held = self.references(o);
        self.nodes.at_mut(o.0).references = held.saturating_sub(1);
        note_end(&mut self.ends, &self.nodes, &self.children, o);
        held > 0
    }

    /// Notes that the cleanup or the destroy callback of an object has started; others aren't noted.
    #[tactic(auto, using(wdf_model::proofs::Maps::put_within, wdf_model::proofs::Maps::set_as_it_was))]
    pub fn note_start(&mut self, o: ObjectId, callback: Callback)
        requires there { o.0 < length self.old.nodes }
        ensures done { self.new ≡ tree.note_start self.old o.0 callback }
        ensures size { length self.new.nodes ≡ length self.old.nodes }
    {
        match callback {
            Callback::EvtCleanupCallback => self.nodes.at_mut(o.0).cleanup_started = true,
            Callback::EvtDestroyCallback => self.nodes.at_mut(o.0).destroy_started = true,
            _ => {}
        }
    }

    /// Writes a context cell of an object.
    #[tactic(auto, using(wdf_model::proofs::Maps::put_within))]
    pub fn set(&mut self, o: ObjectId, k: u8, v: Value)
        requires there { o.0 < length self.old.nodes }
        requires cell { k < CELLS }
        ensures done { self.new ≡ tree.set self.old o.0 k v }
        ensures size { length self.new.nodes ≡ length self.old.nodes }
    {
        self.nodes.at_mut(o.0).cells[k as usize] = v;
    }
}
