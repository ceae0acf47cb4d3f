//! Entries by id come, change in their places and go. One that goes gives its slot to the next, and the others stay.

use std::test::Fail;
use wdf_model::{Node, OBJECTS};
use wdf_slots::{ById, Slots};

/// What happens to objects by id, and what is read of them, with the answer that is due. An object is known by how many
/// references it has; what is gone has none.
#[derive(Clone, Copy)]
enum Act {
    /// An object is put at an id.
    Put(u32, u32),
    /// An object comes at the next id.
    Push(u32),
    /// An object changes in its place.
    Change(u32, u32),
    /// An object goes.
    Remove(u32),
    /// All go, and no id came.
    Clear,
    /// The object of an id.
    Get(u32, u32),
    /// The objects by id.
    Holds(&'static [u32]),
}

static ACTS: [Act; 22] = [
    Act::Holds(&[]),
    Act::Get(0, 0),
    Act::Push(10),
    Act::Push(11),
    Act::Push(12),
    Act::Holds(&[10, 11, 12]),
    Act::Remove(1),
    Act::Holds(&[10, 0, 12]),
    // The slot that was given back is that of another id now.
    Act::Put(4, 14),
    Act::Holds(&[10, 0, 12, 0, 14]),
    Act::Change(4, 24),
    // What has no slot gets one.
    Act::Change(1, 21),
    Act::Holds(&[10, 21, 12, 0, 24]),
    Act::Put(0, 20),
    Act::Remove(3),
    Act::Remove(0),
    Act::Get(4, 24),
    Act::Get(5, 0),
    // One that never came is removed: there are blank ones on the way to it.
    Act::Remove(6),
    Act::Holds(&[0, 21, 12, 0, 24, 0, 0]),
    Act::Clear,
    Act::Holds(&[]),
];

/// An object with so many references.
fn object(references: u32) -> Node {
    Node {
        references,
        ..Node::blank()
    }
}

/// Puts an object at an id, if there may be such an id.
fn puts(objects: &mut Slots<Node>, id: u32, references: u32) -> bool {
    if id < OBJECTS {
        objects.put(id, object(references));
    }
    id < OBJECTS
}

/// An object comes at the next id, if there may be one.
fn pushes(objects: &mut Slots<Node>, references: u32) -> bool {
    let room = objects.len() < OBJECTS;
    if room {
        objects.push(object(references));
    }
    room
}

/// Changes the object of an id, if that came.
fn changes(objects: &mut Slots<Node>, id: u32, references: u32) -> bool {
    let came = id < objects.len();
    if came {
        objects.at_mut(id).references = references;
    }
    came
}

/// The object of an id goes, if there may be such an id.
fn removes(objects: &mut Slots<Node>, id: u32) -> bool {
    if id < OBJECTS {
        objects.remove(id);
    }
    id < OBJECTS
}

/// Whether these are the objects by id.
fn holds(objects: &Slots<Node>, due: &[u32]) -> bool {
    for id in 0..objects.len() {
        if due.get(id as usize) != Some(&objects.get(id).references) {
            return false;
        }
    }
    objects.len() as usize == due.len()
}

/// Does an act; whether it may come, and the answer is the due one.
fn does(objects: &mut Slots<Node>, act: Act) -> bool {
    match act {
        Act::Put(id, references) => puts(objects, id, references),
        Act::Push(references) => pushes(objects, references),
        Act::Change(id, references) => changes(objects, id, references),
        Act::Remove(id) => removes(objects, id),
        Act::Clear => {
            objects.clear();
            true
        }
        Act::Get(id, due) => objects.get(id).references == due,
        Act::Holds(due) => holds(objects, due),
    }
}

/// The place of the first act that isn't as due.
fn first_wrong(objects: &mut Slots<Node>, acts: &[Act]) -> Option<usize> {
    for (at, act) in acts.iter().enumerate() {
        if !does(objects, *act) {
            return Some(at);
        }
    }
    None
}

#[test]
fn entries_come_and_go(rt: HostRuntime) -> Result<(), Fail> {
    let mut objects = Slots::make(rt.alloc())?;
    assert_eq!(rt; first_wrong(&mut objects, &ACTS), None);
    Ok(())
}
