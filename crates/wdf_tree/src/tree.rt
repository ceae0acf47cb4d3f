mod acts;
mod deletion;
mod ends;
mod gather;
mod leaving;
mod making;
mod order;
mod readers;
mod turns;

pub use gather::Subtree;
use std::marker::Model;
use wdf_base::ObjectId;
use wdf_ilist::Links;
use wdf_model::Node;
use wdf_sets::IdSet;
use wdf_slots::Slots;

/// The objects of the machine: what they are, who is above whom, and how far the deletion of each
/// has come. An object that is gone keeps its id and reads as gone; its slot is given back.
///
/// Contracts see wdf_model's record of the tree. Every call but [`Tree::make`] takes no memory.
#[derive(Drop)]
pub struct Tree {
    /// The most counted objects at one time.
    limit: u32,
    /// The objects by id. The id 0 is none.
    nodes: Slots<Node>,
    /// The nearest device at or above each object, or the driver object.
    devices: Vec<ObjectId>,
    /// How many counted objects there are.
    count: u32,
    /// The children of each object that are left, by rising ids.
    children: Links,
    /// The children of each object whose cleanup is still to come, by rising ids.
    waiting: Links,
    /// The objects whose deletion was asked, and whose cleanup is still to come.
    asked: IdSet,
    /// The objects that are cleaned up, and aren't destroyed yet.
    cleaned: IdSet,
    /// Those whose cleanup may come, by lives alone.
    turns: IdSet,
    /// Those that may be destroyed, by the tree alone.
    ends: IdSet,
    /// The objects that count against the limit: those that aren't gone, but for arrived requests.
    counted: IdSet,
}

impl Model for Tree {
    ghost use Rattle.wdf_model.specs.parts.Tree as tree;

    ghost Value = { tree.Tree };

    ghost use Rattle.wdf_tree.specs.Inside.{tree_in, IsSound};

    ghost view = { tree_in };

    ghost invariant = { IsSound };
}

/// Why no object was made.
#[derive(Clone, Copy, PartialEq, Eq)]
pub enum CreateRefusal {
    /// The parent isn't live.
    ParentDeleted,
    /// There are as many counted objects as the plan allows.
    Full,
}
