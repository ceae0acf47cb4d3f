//! How objects come to be: those that the plan declares, those that calls make, and requests.

ghost use Rattle.std.specs.Prelude.{◌≡◌, ◌<◌, ◌++◌, ◌∷◌, [], IfOk, if◌then◌else◌, true, false, is_ok, length};
ghost use Rattle.wdf_base.specs.Lives.{is_live};
ghost use Rattle.wdf_model.specs.parts.Tree as tree;
ghost use Rattle.wdf_ilist.specs.Family.{is_on_any};
ghost use Rattle.wdf_tree.specs.Kin.{joined};
ghost use Rattle.wdf_tree.specs.Refusal.{create_answer};

use super::ends::note_end;
use super::turns::note_joined;
use super::{CreateRefusal, Tree};
use std::alloc::Global;
use wdf_base::{Declared, Kind, Life, Memory, ObjectId, Plan, Value};
use wdf_ilist::Links;
use wdf_model::{CELLS, Node, OBJECTS};
use wdf_sets::{IdSet, four_sets};
use wdf_slots::{ById, Slots};

/// The driver object.
pub(super) const DRIVER: ObjectId = ObjectId(1);

/// An object as it is made.
fn new_node(kind: Kind, class: u16, parent: ObjectId) -> Node
    ensures { result ≡ tree.new_node kind class parent.0 }
{
    Node {
        life: Life::Live,
        kind,
        class,
        parent,
        references: 0,
        cells: [Value::Num(0); CELLS],
        cleanup_started: false,
        destroy_started: false,
    }
}

/// An object that the plan declares. Its parent is its device, and the parent of a device is the
/// driver object.
fn declared_node(declared: &Declared) -> Node
    ensures { result ≡ tree.declared_node declared.now }
{
    let parent = match declared {
        Declared::Driver | Declared::OfClass(_) => ObjectId(0),
        Declared::Device(_) => DRIVER,
        Declared::Queue(queue) => queue.device,
        Declared::Interrupt(interrupt) => interrupt.device,
        Declared::Target(target) => target.device,
    };
    new_node(declared.kind().unwrap_or(Kind::General), 0, parent)
}

/// Whether an object counts against the limit: all but arrived requests do, while they aren't gone.
fn is_counted(node: &Node) -> bool
    ensures { result ≡ tree.counts node.now }
{
    !node.life.is_gone() && node.kind != Kind::Request
}

/// What an object counts against the limit.
pub(super) fn counted(node: &Node) -> u32
    ensures { result ≡ (if tree.counts node.now then 1 else 0) }
{
    if is_counted(node) { 1 } else { 0 }
}

/// Puts an object at the end of the list of its parent's children, if there is such a list.
fn join(family: &mut Links, parent: ObjectId, id: u32)
    requires known { length family.old.lists ≡ OBJECTS }
    requires within { id < family.old.items }
    requires free { is_on_any id family.old.lists ≡ false }
    ensures { family.new ≡ joined family.old parent.0 id }
{
    if parent.0 < OBJECTS {
        family.push_back(parent.0, id);
    }
}

impl Tree {
    /// The tree at the opening of the plan's run: the driver object and the declared ones, all live.
    /// It takes the room for all objects that a run can make.
    pub fn make(alloc: Global, plan: &Plan) -> Result<Tree, Memory>
        requires { length plan.now.declared < OBJECTS }
        ensures opening { IfOk result (λ made. made ≡ tree.opening_tree plan.now) }
    {
        let mut tree = Tree::empty(alloc, plan.objects(), OBJECTS)?;
        tree.declare(plan);
        Ok(tree)
    }

    /// The tree at the opening of a plan's run once more.
    pub fn begin_again(&mut self, plan: &Plan)
        requires { length plan.now.declared < OBJECTS }
        ensures { self.new ≡ tree.opening_tree plan.now }
    {
        self.clear(plan.objects());
        self.declare(plan);
    }

    /// The declared objects come into a tree that has no object.
    fn declare(&mut self, plan: &Plan)
        requires few { length plan.now.declared < OBJECTS }
        requires empty { self.old ≡ record { limit = plan.now.objects; nodes = tree.gone ∷ [] } }
        ensures { self.new ≡ tree.opening_tree plan.now }
    {
        for declared in plan.declared.as_slice() {
            self.enter(declared_node(declared));
        }
    }

    /// No object is there any more, and there may be as many as this.
    fn clear(&mut self, limit: u32)
        ensures { self.new ≡ record { limit = limit; nodes = tree.gone ∷ [] } }
    {
        self.limit = limit;
        self.nodes.clear();
        self.nodes.push(Node::blank());
        self.devices.clear();
        self.devices.push_reserved(DRIVER);
        self.count = 0;
        self.children.clear();
        self.waiting.clear();
        self.asked.clear();
        self.cleaned.clear();
        self.turns.clear();
        self.ends.clear();
        self.counted.clear();
    }

    /// The tree with no object, and with room for as many.
    fn empty(alloc: Global, limit: u32, room: u32) -> Result<Tree, Memory>
        requires { room ≡ OBJECTS }
        ensures { IfOk result (λ made. made ≡ record { limit = limit; nodes = tree.gone ∷ [] }) }
    {
        let mut nodes = Slots::make(alloc)?;
        let mut devices = Vec::with_capacity(alloc, room as usize)?;
        nodes.push(Node::blank());
        devices.push_reserved(DRIVER);
        let children = Links::make(alloc, room, room)?;
        let waiting = Links::make(alloc, room, room)?;
        let counted = IdSet::make(alloc, room)?;
        let (asked, cleaned, turns, ends) = four_sets(alloc, room)?;
        Ok(Tree {
            limit,
            nodes,
            devices,
            count: 0,
            children,
            waiting,
            asked,
            cleaned,
            turns,
            ends,
            counted,
        })
    }

    /// The nearest device of an object that is about to come into the tree: itself, if it is one.
    #[tactic(auto, using(crate::proofs::Kept::nearest_length))]
    fn nearest_for(&self, node: &Node) -> ObjectId
        ensures { result.0 ≡ tree.own_device (tree.nearest_devices [] self.now.nodes) (length self.now.nodes) node.now }
    {
        if node.kind == Kind::Device {
            self.next_id()
        } else {
            self.device(node.parent)
        }
    }

    /// A live object comes into the tree, with the next id.
    #[tactic(auto, using(crate::proofs::Kept::few_counts))]
    fn enter(&mut self, node: Node)
        requires room { length self.old.nodes < OBJECTS }
        requires live { is_live node.life ≡ true }
        ensures { self.new ≡ record self.old { nodes = self.old.nodes ++ node ∷ [] } }
    {
        let device = self.nearest_for(&node);
        let id = self.len();
        let parent = node.parent;
        let last = self.waiting.back(parent.0);
        self.count += counted(&node);
        self.counted.put(id, is_counted(&node));
        join(&mut self.children, parent, id);
        join(&mut self.waiting, parent, id);
        self.nodes.push(node);
        self.devices.push_reserved(device);
        note_joined(&mut self.turns, &self.nodes, &self.waiting, parent, last);
        note_end(&mut self.ends, &self.nodes, &self.children, parent);
    }

    /// An object is made by a call, and is live. It is refused under a parent that isn't live
    /// (KMDF), and else where there are as many counted objects as the plan allows (own); then
    /// nothing changes.
    pub fn create(
        &mut self,
        kind: Kind,
        class: u16,
        parent: ObjectId,
    ) -> Result<ObjectId, CreateRefusal>
        requires room { length self.old.nodes < OBJECTS }
        ensures answer { result ≡ create_answer self.old parent.0 }
        ensures done { self.new ≡ (if is_ok result then tree.create self.old kind class parent.0 else self.old) }
    {
        if !self.life(parent).is_live() {
            return Err(CreateRefusal::ParentDeleted);
        }
        if self.is_full() {
            return Err(CreateRefusal::Full);
        }
        let id = self.next_id();
        self.enter(new_node(kind, class, parent));
        Ok(id)
    }

    /// A request arrives at a device, and is live. It counts against no limit. (own)
    pub fn arrive(&mut self, device: ObjectId) -> ObjectId
        requires room { length self.old.nodes < OBJECTS }
        ensures id { result.0 ≡ tree.next_id self.old }
        ensures done { self.new ≡ tree.arrive self.old device.0 }
    {
        let id = self.next_id();
        self.enter(new_node(Kind::Request, 0, device));
        id
    }
}
