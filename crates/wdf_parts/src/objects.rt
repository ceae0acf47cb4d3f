//! Objects that are made, and whose deletion is asked.
ghost use Rattle.std.specs.Prelude.{◌≡◌, ◌<◌, ℕ, fold, length, slice_index};
ghost use Rattle.wdf_base.specs.declared.object.Kind.TheVariants as kind;
ghost use Rattle.wdf_base.specs.declared.object.Place.TheVariants as place;
ghost use Rattle.wdf_model.specs.declared.room.TheConstants.{EVENTS, OBJECTS};
ghost use Rattle.wdf_model.specs.parts.Requests as requests;
ghost use Rattle.wdf_model.specs.parts.Tree as tree;
ghost use Rattle.wdf_model.specs.rules.Deeds as deeds;
ghost use Rattle.wdf_parts.specs.Asking.{askable, asked};
ghost use Rattle.wdf_model.specs.rules.Room.{HasRoomForObject, MayEnterIfQueued, MayGiveUp};

use crate::parts::Parts;
use wdf_base::{Agent, Kind, Mark, ObjectId, Place, RequestForm, RequestInfo};
use wdf_defer::{Dpcs, Timers, WorkItems};
use wdf_tree::Tree;

/// The deletion of one object is asked, and it leaves its queues, if it is live.
fn ask_object(
    tree: &mut Tree,
    dpcs: &mut Dpcs,
    work_items: &mut WorkItems,
    timers: &mut Timers,
    o: ObjectId,
)
    requires there { o.0 < length tree.old.nodes }
    ensures done { askable tree.new dpcs.new work_items.new timers.new
        ≡ asked (askable tree.old dpcs.old work_items.old timers.old) o.0 }
    ensures size { length tree.new.nodes ≡ length tree.old.nodes }
{
    if tree.life(o).is_live() {
        tree.ask_one(o);
        let _was_queued = dpcs.cancel(o);
        let _was_queued = work_items.cancel(o);
        let _was_queued = timers.stop(o);
    }
}

/// The same of each of some objects.
fn ask_each(
    tree: &mut Tree,
    dpcs: &mut Dpcs,
    work_items: &mut WorkItems,
    timers: &mut Timers,
    ids: &[u32],
)
    requires there { (k : ℕ) → k < length ids.now → slice_index ids.now k < length tree.old.nodes }
    ensures { askable tree.new dpcs.new work_items.new timers.new
        ≡ fold asked (askable tree.old dpcs.old work_items.old timers.old) ids.now }
{
    for id in ids {
        ask_object(tree, dpcs, work_items, timers, ObjectId(*id));
    }
}

impl<A: Agent> Parts<A> {
    /// The deletion of an object and of what is below it is asked. (KMDF) No other object is visited.
    pub(crate) fn ask_objects(&mut self, o: ObjectId)
        ensures { self.new ≡ deeds.ask_objects self.old o.0 }
    {
        self.tree.gather(o, &mut self.below);
        ask_each(
            &mut self.tree,
            &mut self.dpcs,
            &mut self.work_items,
            &mut self.timers,
            self.below.ids(),
        );
    }

    /// An object of a class is made under a parent.
    pub(crate) fn create(&mut self, kind: Kind, class: u16, parent: ObjectId)
        requires { HasRoomForObject self.old parent.0 }
        ensures { self.new ≡ record self.old { tree = tree.create self.old.tree kind class parent.0 } }
    {
        let _made = self.tree.create(kind, class, parent);
    }

    /// A request is made by the driver, which owns it.
    pub(crate) fn make_request(&mut self, class: u16, parent: ObjectId)
        requires room { HasRoomForObject self.old parent.0 }
        requires few { self.old.requests.arrived < EVENTS }
        ensures { self.new ≡ record self.old {
          tree = tree.create self.old.tree kind.Made class parent.0;
          requests = requests.arrive self.old.requests (tree.next_id self.old.tree) place.Owned (requests.made_info (tree.nearest_device self.old.tree parent.0));
        } }
    {
        let id = self.tree.next_id();
        let info = made_info(self.tree.device(parent));
        let _made = self.tree.create(Kind::Made, class, parent);
        self.requests.arrive(id, Place::Owned, info);
    }

    /// A request arrives at a device, and enters its queue where it waits.
    pub fn arrive(&mut self, device: ObjectId, info: RequestInfo, place: Place)
        requires room { length self.old.tree.nodes < OBJECTS }
        requires few { self.old.requests.arrived < EVENTS }
        requires enter { MayEnterIfQueued self.old place (tree.next_id self.old.tree) }
        ensures { self.new ≡ deeds.arrive_at self.old device.0 info place }
    {
        let id = self.tree.arrive(device);
        self.requests.arrive(id, place, info);
        if let Place::Queued(q) = place {
            self.enter_at_tail(q, id);
        }
    }

    /// A request is completed, and its deletion is asked. (KMDF)
    pub fn complete(&mut self, r: ObjectId)
        requires { MayGiveUp self.old r.0 }
        ensures { self.new ≡ deeds.ask_objects (record (deeds.give_up self.old r.0) { requests = requests.complete self.old.requests r.0 }) r.0 }
    {
        self.give_up(r);
        self.requests.complete(r);
        self.ask_objects(r);
    }
}

/// What is kept of a request that the driver makes. (own)
fn made_info(device: ObjectId) -> RequestInfo
    ensures { result ≡ requests.made_info device.0 }
{
    RequestInfo {
        device,
        form: RequestForm::Control,
        length: 0,
        code: 0,
        origin: None,
        agent: 0,
        arrival: 0,
        mark: Mark::Unmarked,
        cancelled: false,
        received: false,
    }
}
