ghost use Rattle.std.specs.Prelude.{◌≡◌, ◌+◌, ◌<◌, IfOk, MatchOption, length, true, false};
ghost use Rattle.wdf_model.specs.declared.enums.Mode.TheVariants.{Started, Stopped, Drained, Purged};
ghost use Rattle.wdf_model.specs.Tables.{put};
ghost use Rattle.wdf_model.specs.parts.Control as control;
ghost use Rattle.wdf_model.specs.parts.Control.{no_control, notify_due};
ghost use Rattle.wdf_sets.specs.Nexts.{IsNext, NoneFrom};
ghost use Rattle.wdf_qctl.specs.Kept.{seen};

use crate::modes::{NO_CONTROL, accepts_in, delivers_in, opening_controls, write_controls};
use std::alloc::Global;
use std::marker::Model;
use wdf_base::{Memory, ObjectId, Plan};
use wdf_maps::{entry_at, put_at};
use wdf_model::{Mode, QueueControl};
use wdf_sets::IdSet;

/// The modes of the queues, their notification, and the devices that are closed.
#[derive(Drop)]
pub struct Control {
    /// By the queue's id, with the mode that its last control call gave it: the queues of a closed
    /// device are Purged, whatever that is.
    kept: Vec<QueueControl>,
    /// Whether a device is closed, by its id, as far as one was.
    closed: Vec<bool>,
    /// The queues for which EvtIoQueueState is due. A write of what is kept of a queue writes it here; the closing of a device
    /// changes no notification.
    due: IdSet,
}

impl Model for Control {
    ghost use Rattle.wdf_model.specs.parts.Control.{Control};

    ghost Value = { Control };

    ghost use Rattle.wdf_qctl.specs.Kept.{control_in, IsSound};

    ghost view = { control_in };

    ghost invariant = { IsSound };
}

/// What is kept of a queue, as it is where these devices are closed.
fn seen(closed: &[bool], control: QueueControl) -> QueueControl
    ensures { result ≡ seen closed.now control }
{
    if entry_at(closed, false, control.device.0) {
        QueueControl {
            mode: Mode::Purged,
            ..control
        }
    } else {
        control
    }
}

impl Control {
    /// The control at the opening of the plan's run: all queues are Started, no notification is
    /// registered, and no device is closed. It takes all memory that the control needs.
    pub fn make(alloc: Global, plan: &Plan) -> Result<Control, Memory>
        ensures { IfOk result (λ made. made ≡ control.opening_control plan.now) }
    {
        let kept = opening_controls(alloc, plan)?;
        let closed = Vec::with_capacity(alloc, kept.len())?;
        let due = IdSet::for_table(alloc, kept.len())?;
        Ok(Control { kept, closed, due })
    }

    /// The control at the opening of a plan's run once more, of as many ids.
    pub fn begin_again(&mut self, plan: &Plan)
        requires { length self.old.controls ≡ 1 + length plan.now.declared }
        ensures { self.new ≡ control.opening_control plan.now }
    {
        self.closed.clear();
        self.due.clear();
        write_controls(&mut self.kept, plan);
    }

    /// What is kept of a queue; that of a purged queue for what is none.
    pub fn control_of(&self, q: ObjectId) -> QueueControl
        ensures { result ≡ control.control_of self.now q.0 }
    {
        self.seen_of(q)
    }

    /// The same, which is Purged where its device is closed.
    fn seen_of(&self, q: ObjectId) -> QueueControl
        ensures value { result ≡ control.control_of self.now q.0 }
        ensures seen { seen self.now.closed result ≡ result }
    {
        seen(&self.closed, entry_at(&self.kept, NO_CONTROL, q.0))
    }

    /// The mode of a queue: Started at the opening, then as its last control call says. It is Purged where
    /// its device is closed, and for what is no queue. (KMDF)
    pub fn mode_of(&self, q: ObjectId) -> Mode
        ensures { result ≡ control.mode_of self.now q.0 }
    {
        self.control_of(q).mode
    }

    /// Whether a device is closed.
    pub fn is_closed(&self, device: ObjectId) -> bool
        ensures { result ≡ control.is_closed self.now device.0 }
    {
        entry_at(&self.closed, false, device.0)
    }

    /// Whether a queue takes new requests. (KMDF: in Started and Stopped)
    pub fn accepts(&self, q: ObjectId) -> bool
        ensures { result ≡ control.accepts self.now q.0 }
    {
        accepts_in(self.mode_of(q))
    }

    /// Whether a queue presents requests: by its mode, where it has power. (KMDF)
    pub fn delivers(&self, q: ObjectId, powered: bool) -> bool
        ensures { result ≡ control.delivers self.now q.0 powered }
    {
        delivers_in(self.mode_of(q)) && powered
    }

    /// Whether EvtIoQueueState is due for a queue. (KMDF)
    pub fn notify_due(&self, q: ObjectId) -> bool
        ensures { result ≡ control.notify_due self.now q.0 }
    {
        self.control_of(q).due
    }

    /// The first queue from an id on, below an end, for which EvtIoQueueState is due, found without a look at each id.
    pub fn next_notify_due(&self, from: u32, end: u32) -> Option<u32>
        ensures { MatchOption result (NoneFrom (notify_due self.now) from end) (λ id. IsNext (notify_due self.now) from end id) }
    {
        self.due.next(from, end)
    }

    /// Writes what is kept of a queue.
    fn write(&mut self, q: ObjectId, control: QueueControl)
        requires there { q.0 < length self.old.controls }
        requires seen { seen self.old.closed control ≡ control }
        ensures done { self.new ≡ record self.old { controls = put no_control self.old.controls q.0 control } }
        ensures size { length self.new.controls ≡ length self.old.controls }
    {
        self.kept[q.0 as usize] = control;
        self.due.put(q.0, control.due);
    }

    /// A control call: the queue's mode is this one, but a closed device's queues stay Purged.
    /// (KMDF)
    pub fn set_mode(&mut self, q: ObjectId, mode: Mode)
        requires there { q.0 < length self.old.controls }
        ensures done { self.new ≡ control.set_mode self.old q.0 mode }
        ensures size { length self.new.controls ≡ length self.old.controls }
    {
        let mut control = self.seen_of(q);
        if self.is_closed(control.device) {
            return;
        }
        control.mode = mode;
        self.write(q, control);
    }

    /// The queue is Started. (KMDF)
    pub fn start(&mut self, q: ObjectId)
        requires there { q.0 < length self.old.controls }
        ensures done { self.new ≡ control.set_mode self.old q.0 Started }
        ensures size { length self.new.controls ≡ length self.old.controls }
    {
        self.set_mode(q, Mode::Started);
    }

    /// The queue is Stopped. (KMDF)
    pub fn stop(&mut self, q: ObjectId)
        requires there { q.0 < length self.old.controls }
        ensures done { self.new ≡ control.set_mode self.old q.0 Stopped }
        ensures size { length self.new.controls ≡ length self.old.controls }
    {
        self.set_mode(q, Mode::Stopped);
    }

    /// The queue is Drained. (KMDF)
    pub fn drain(&mut self, q: ObjectId)
        requires there { q.0 < length self.old.controls }
        ensures done { self.new ≡ control.set_mode self.old q.0 Drained }
        ensures size { length self.new.controls ≡ length self.old.controls }
    {
        self.set_mode(q, Mode::Drained);
    }

    /// The queue is Purged. What waits in it is another part's. (KMDF)
    pub fn purge(&mut self, q: ObjectId)
        requires there { q.0 < length self.old.controls }
        ensures done { self.new ≡ control.set_mode self.old q.0 Purged }
        ensures size { length self.new.controls ≡ length self.old.controls }
    {
        self.set_mode(q, Mode::Purged);
    }

    /// A device is closed, and its queues are Purged for good. (KMDF)
    pub fn shut(&mut self, device: ObjectId)
        requires there { device.0 < length self.old.controls }
        ensures done { self.new ≡ control.shut self.old device.0 }
        ensures size { length self.new.controls ≡ length self.old.controls }
    {
        put_at(&mut self.closed, false, device.0, true);
    }

    /// Notification of a queue is registered or not, also where it was so before. (own)
    pub fn notify(&mut self, q: ObjectId, on: bool)
        requires there { q.0 < length self.old.controls }
        ensures done { self.new ≡ control.notify self.old q.0 on }
        ensures size { length self.new.controls ≡ length self.old.controls }
    {
        let mut control = self.seen_of(q);
        control.registered = on;
        self.write(q, control);
    }

    /// A request entered a queue: registered notification is due where the queue was empty. (KMDF)
    pub fn entered(&mut self, q: ObjectId, was_empty: bool)
        requires there { q.0 < length self.old.controls }
        ensures done { self.new ≡ control.entered self.old q.0 was_empty }
        ensures size { length self.new.controls ≡ length self.old.controls }
    {
        let mut control = self.seen_of(q);
        control.due = control.due || (control.registered && was_empty);
        self.write(q, control);
    }

    /// EvtIoQueueState starts: notification of the queue is due no more. (KMDF)
    pub fn notified(&mut self, q: ObjectId)
        requires there { q.0 < length self.old.controls }
        ensures done { self.new ≡ control.notified self.old q.0 }
        ensures size { length self.new.controls ≡ length self.old.controls }
    {
        let mut control = self.seen_of(q);
        control.due = false;
        self.write(q, control);
    }
}
