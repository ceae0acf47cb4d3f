//! What is done to a tree, with the answer that is due.
use crate::facts::{Fact, holds};
use wdf_base::{Callback, Kind, ObjectId, Plan, Value};
use wdf_model::OBJECTS;
use wdf_tree::{CreateRefusal, Subtree, Tree};

/// An act on the tree, with the answer that is due.
#[derive(Clone, Copy)]
pub enum Act {
    /// A general object of class 0 is made below this one.
    Create(u32, Result<u32, CreateRefusal>),
    /// A request arrives at a device, and gets this id.
    Arrive(u32, u32),
    /// The deletion of one object is asked.
    AskOne(u32),
    /// The deletion of an object and of what is below it is asked.
    AskDelete(u32),
    /// The subtree of an object is gathered: these ids.
    Gather(u32, &'static [u32]),
    /// The cleanup of an object is done.
    Clean(u32),
    /// An object is destroyed.
    Destroy(u32),
    /// The driver gives a reference back. Whether it held one.
    Dereference(u32, bool),
    /// A context cell of an object is written.
    Set(u32, u8, Value),
    /// A callback of an object starts.
    Start(u32, Callback),
    /// Nothing is done, and this holds.
    Is(Fact),
}

/// Makes an object; whether the answer is this.
fn creates(tree: &mut Tree, parent: u32, due: Result<u32, CreateRefusal>) -> bool {
    tree.len() < OBJECTS && tree.create(Kind::General, 0, ObjectId(parent)) == due.map(ObjectId)
}

/// A request arrives; whether it gets this id.
fn arrives(tree: &mut Tree, device: u32, due: u32) -> bool {
    tree.len() < OBJECTS && tree.arrive(ObjectId(device)).0 == due
}

/// Gathers the subtree of an object; whether it is these ids.
fn gathers(tree: &Tree, subtree: &mut Subtree, o: ObjectId, due: &[u32]) -> bool {
    tree.gather(o, subtree);
    subtree.ids() == due
}

/// Cleans an object up; whether that may come.
fn cleans(tree: &mut Tree, o: ObjectId) -> bool {
    let may = tree.life(o).is_asked();
    if may {
        tree.clean(o);
    }
    may
}

/// Destroys an object; whether that may come.
fn destroys(tree: &mut Tree, o: ObjectId) -> bool {
    let may = tree.may_destroy(o);
    if may {
        tree.destroy(o);
    }
    may
}

/// Does an act on one object that is there; whether it is there, and the answer is this.
fn does_to_one(tree: &mut Tree, act: Act) -> bool {
    match act {
        Act::AskOne(o) if o < tree.len() => tree.ask_one(ObjectId(o)),
        Act::Dereference(o, due) if o < tree.len() => return tree.dereference(ObjectId(o)) == due,
        Act::Set(o, k, value) if o < tree.len() && k < 8 => tree.set(ObjectId(o), k, value),
        Act::Start(o, callback) if o < tree.len() => tree.note_start(ObjectId(o), callback),
        _ => return false,
    }
    true
}

/// Does an act; whether it may come, and the answer is the due one.
pub fn does(tree: &mut Tree, subtree: &mut Subtree, plan: &Plan, act: Act) -> bool {
    match act {
        Act::Create(parent, due) => creates(tree, parent, due),
        Act::Arrive(device, due) => arrives(tree, device, due),
        Act::AskDelete(o) => {
            tree.ask_delete(ObjectId(o), subtree);
            true
        }
        Act::Gather(o, due) => gathers(tree, subtree, ObjectId(o), due),
        Act::Clean(o) => cleans(tree, ObjectId(o)),
        Act::Destroy(o) => destroys(tree, ObjectId(o)),
        Act::Is(fact) => holds(tree, plan, fact),
        _ => does_to_one(tree, act),
    }
}
