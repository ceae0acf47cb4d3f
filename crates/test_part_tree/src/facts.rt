//! What is read of a tree.
use wdf_base::{Callback, Handle, Kind, Life, ObjectId, Plan, Value};
use wdf_tree::Tree;

/// What is read of the tree, with the answer that is due. Objects are named by their ids.
#[derive(Clone, Copy)]
pub enum Fact {
    /// How far the deletion of an object has come.
    LifeOf(u32, Life),
    /// The kind, the parent and the nearest device of an object.
    Kin(u32, Kind, u32, u32),
    /// The number of an object's name.
    Name(u32, u32),
    /// The plan declares nothing with this id.
    IsUndeclared(u32),
    /// An object is of class 0.
    OfClass(u32, u16),
    /// Whether the second is below the first.
    Below(u32, u32, bool),
    /// Of these, the cleanup of this one alone may come.
    MayClean(u32, &'static [u32]),
    /// Whether an object may be destroyed.
    MayDestroy(u32, bool),
    /// What goes before an object.
    GoesFirst(u32, Option<u32>),
    /// How many references are held.
    References(u32, u32),
    /// What a context cell holds.
    Cell(u32, u64, Value),
    /// Whether a callback has started.
    Started(u32, Callback, bool),
    /// The id that is given next.
    NextId(u32),
    /// How many ids there are.
    Len(u32),
    /// Whether there is no room for another counted object.
    Full(bool),
    /// The first object from an id on whose cleanup may come, by lives alone.
    TurnFrom(u32, Option<u32>),
    /// The objects whose cleanup may come, by lives alone.
    Turns(&'static [u32]),
    /// The objects that may be destroyed, by the tree alone.
    Ends(&'static [u32]),
    /// The first object from an id on that is cleaned up, and isn't destroyed yet.
    CleanedFrom(u32, Option<u32>),
    /// Whether some deletion isn't finished.
    SomeLeaving(bool),
}

/// Whether of these objects the cleanup of one alone may come.
fn may_clean_alone(tree: &Tree, one: u32, all: &[u32]) -> bool {
    for id in all {
        if tree.may_clean(ObjectId(*id)) != (*id == one) {
            return false;
        }
    }
    true
}

/// Whether the objects whose cleanup may come are these, by their numbers.
fn has_turns(tree: &Tree, all: &[u32]) -> bool {
    let len = tree.turn_len();
    if len as usize != all.len() {
        return false;
    }
    for k in 0..len {
        let o = ObjectId(all[k as usize]);
        if tree.turn_at(k) != Some(o) || tree.turns_before(o) != k {
            return false;
        }
    }
    true
}

/// Whether the objects that may be destroyed are these, by their numbers.
fn has_ends(tree: &Tree, all: &[u32]) -> bool {
    let len = tree.end_len();
    if len as usize != all.len() {
        return false;
    }
    for k in 0..len {
        let o = ObjectId(all[k as usize]);
        if tree.end_at(k) != Some(o) || tree.ends_before(o) != k {
            return false;
        }
    }
    true
}

/// Whether what is kept of one object is this.
fn holds_of_one(tree: &Tree, fact: Fact) -> bool {
    match fact {
        Fact::LifeOf(o, due) => tree.life(ObjectId(o)) == due,
        Fact::Kin(o, kind, parent, device) => {
            let o = ObjectId(o);
            tree.kind(o) == kind && tree.parent(o).0 == parent && tree.device(o).0 == device
        }
        Fact::OfClass(o, due) => tree.class(ObjectId(o)) == due,
        Fact::References(o, due) => tree.references(ObjectId(o)) == due,
        Fact::Cell(o, k, due) => tree.cell_of(ObjectId(o), k) == due,
        Fact::Started(o, callback, due) => tree.started(ObjectId(o), callback) == due,
        _ => false,
    }
}

/// Whether what is said of deletions is this.
fn holds_of_deletion(tree: &Tree, fact: Fact) -> bool {
    match fact {
        Fact::Below(o, below, due) => tree.is_below(ObjectId(o), ObjectId(below)) == due,
        Fact::MayClean(one, all) => may_clean_alone(tree, one, all),
        Fact::MayDestroy(o, due) => tree.may_destroy(ObjectId(o)) == due,
        Fact::GoesFirst(o, due) if o < tree.len() => {
            tree.goes_first(ObjectId(o)) == due.map(ObjectId)
        }
        Fact::TurnFrom(from, due) => tree.turn_from(ObjectId(from)) == due.map(ObjectId),
        Fact::Turns(all) => has_turns(tree, all),
        Fact::Ends(all) => has_ends(tree, all),
        Fact::CleanedFrom(from, due) => { tree.cleaned_from(ObjectId(from)) == due.map(ObjectId) }
        _ => holds_of_one(tree, fact),
    }
}

/// Whether a fact holds.
pub fn holds(tree: &Tree, plan: &Plan, fact: Fact) -> bool {
    match fact {
        Fact::Name(o, name) => {
            let id = ObjectId(o);
            tree.handle(plan, id) == Handle { id, name }
        }
        Fact::IsUndeclared(o) => tree.declared(plan, ObjectId(o)).is_none(),
        Fact::NextId(due) => tree.next_id().0 == due,
        Fact::Len(due) => tree.len() == due,
        Fact::Full(due) => tree.is_full() == due,
        Fact::SomeLeaving(due) => tree.some_leaving() == due,
        _ => holds_of_deletion(tree, fact),
    }
}
