//! What each deed does: one row for each, one act of one part in most.
ghost use Rattle.std.specs.Prelude.{◌≡◌, ◌+◌, ◌<◌, ◌^◌, suc, true, None, length};
ghost use Rattle.std.specs.Option.{option_to_list};
ghost use Rattle.wdf_base.specs.declared.object.Place.TheVariants as place;
ghost use Rattle.wdf_model.specs.parts.Requests.{place_of};
ghost use Rattle.wdf_model.specs.parts.Targets as targets;
ghost use Rattle.wdf_model.specs.parts.Targets.{sending_of, takes_more};
ghost use Rattle.wdf_model.specs.rules.Deeds as deeds;
ghost use Rattle.wdf_model.specs.Tables.{change_at, entry};
ghost use Rattle.wdf_model.specs.rules.Room.{AreDoable, IsDoable, MayGiveUp};
ghost use Rattle.wdf_parts.specs.List.{lowers};

use crate::list::{Deeds, Lowered};
use crate::parts::Parts;
use wdf_base::{Agent, ObjectId, Place, Status};
use wdf_maps::{entry_at, put_at};
use wdf_model::Deed;
use wdf_plan_index::IndexedPlan;

impl<A: Agent> Parts<A> {
    /// Does a deed that can be done.
    pub fn do_deed(&mut self, plan: &IndexedPlan, deed: &Deed)
        requires { IsDoable plan.now deed.now self.old }
        ensures { self.new ≡ deeds.do_deed plan.now deed.now self.old }
    {
        match deed {
            Deed::Create {
                kind,
                class,
                parent,
            } => self.create(*kind, *class, *parent),
            Deed::MakeRequest { class, parent } => self.make_request(*class, *parent),
            Deed::Arrive {
                device,
                info,
                place,
            } => self.arrive(*device, *info, *place),
            Deed::CountArrival { agent } => self.count_arrival(*agent),
            Deed::AskDeletion { object } => self.ask_objects(*object),
            Deed::Refer { object } => self.tree.reference(*object),
            Deed::Unrefer { object } => {
                let _was_held = self.tree.dereference(*object);
            }
            Deed::WriteCell {
                object,
                cell,
                value,
            } => self.tree.set(*object, *cell as u8, *value),
            Deed::Note { object, callback } => self.tree.note_start(*object, *callback),
            Deed::CleanUp { object } => self.clean_up(*object),
            Deed::EndLife { object } => self.end_life(*object),
            Deed::PushFrame {
                cpu,
                number,
                frame,
                level,
            } => self.push_frame(plan, *cpu, *number, frame, *level),
            Deed::GoOn { number, frame } => self.change_frame(plan, *number, frame),
            Deed::Raise { frame, level } => self.cpus.raise(*frame, *level),
            Deed::Lower { frame, level } => self.cpus.lower(*frame, *level),
            Deed::PopFrame { cpu } => self.pop_frame(*cpu),
            Deed::ParkFrame { cpu } => self.park_frame(*cpu),
            Deed::UnparkFrame { cpu, frame } => self.unpark_frame(*cpu, *frame),
            Deed::TakeLock {
                lock,
                frame,
                by_call,
            } => self.take_lock(*lock, *frame, *by_call),
            Deed::ReleaseLock { lock } => self.release_lock(*lock),
            Deed::Present { queue, request } => self.present(plan, *queue, *request),
            Deed::Receive { queue, request } => self.receive(plan, *queue, *request),
            Deed::Requeue { request, queue } => self.requeue(*queue, *request),
            Deed::Forward { request, queue } => self.forward(*queue, *request),
            Deed::GiveBack { request, queue } => self.give_back(plan, *queue, *request),
            Deed::Withdraw { queue, request } => self.withdraw(plan, *queue, *request),
            Deed::MarkRequest { request } => {
                let _status = self.requests.mark(*request);
            }
            Deed::UnmarkRequest { request } => {
                let _status = self.requests.unmark(*request);
            }
            Deed::CancelRequest { request } => self.requests.cancel(*request),
            Deed::TakeCancel { request } => self.requests.take_cancel(*request),
            Deed::SendRequest {
                request,
                target,
                forget,
            } => self.send(*request, *target, *forget),
            Deed::FinishSending { request, status } => self.finish_sending(*request, *status),
            Deed::ComeBack { request } => {
                self.targets.back(*request);
                self.requests.move_to(*request, Place::Owned);
            }
            Deed::CompleteRequest { request } => self.complete(*request),
            Deed::SetMode { queue, mode } => self.control.set_mode(*queue, *mode),
            Deed::PurgeQueue { queue } => self.purge(plan, *queue),
            Deed::CloseReturning { device } => self.close_returning(plan, *device),
            Deed::CloseDevice { device } => {
                self.control.shut(*device);
                self.close_queues(plan, *device);
            }
            Deed::RegisterQueue { queue, on } => self.control.notify(*queue, *on),
            Deed::NotifyQueue { queue } => self.control.notified(*queue),
            Deed::AdvancePower { device, step } => self.power.advance(*device, *step),
            Deed::Acknowledge { request } => self.power.acknowledge(*request),
            Deed::AskStop { request } => self.power.stop_asked(*request),
            Deed::Resume { request } => self.power.resumed(*request),
            Deed::AskDevice { device, ask } => self.pnp.ask(*device, *ask),
            Deed::TakeStep { device } => self.pnp.taken(*device),
            Deed::EndStep {
                device,
                step,
                result,
            } => self.pnp.ended(*device, *step, *result),
            Deed::EnableInterrupt { interrupt } => self.interrupts.enable(*interrupt),
            Deed::DisableInterrupt { interrupt } => self.interrupts.disable(*interrupt),
            Deed::EnqueueDpc { cpu, object } => {
                let _is_new = self.dpcs.enqueue(*cpu, *object);
            }
            Deed::CancelDpc { object } => {
                let _was_queued = self.dpcs.cancel(*object);
            }
            Deed::TakeDpc { cpu } => {
                let _first = self.dpcs.take(*cpu);
            }
            Deed::EnqueueWork { object } => {
                let _is_new = self.work_items.enqueue(*object);
            }
            Deed::CancelWork { object } => {
                let _was_queued = self.work_items.cancel(*object);
            }
            Deed::StartTimer { object, ticks } => {
                let _was_queued = self.timers.start(*object, self.clock, *ticks);
            }
            Deed::StopTimer { object } => {
                let _was_queued = self.timers.stop(*object);
            }
            Deed::FireTimer { object, period } => self.timers.fired(*object, *period),
            Deed::StopTarget { target } => self.targets.stop(*target),
            Deed::StartTarget { target } => self.targets.start(*target),
            Deed::PassTick => self.pass_tick(),
        }
    }

    /// An agent's arrival is counted.
    pub fn count_arrival(&mut self, agent: u16)
        requires fits { entry 0 self.old.arrivals agent + 1 < 2 ^ 32 }
        ensures { self.new ≡ record self.old { arrivals = change_at 0 self.old.arrivals agent suc } }
    {
        let agent = u32::from(agent);
        let count = entry_at(&self.arrivals, 0, agent);
        put_at(&mut self.arrivals, 0, agent, count + 1);
    }

    /// A request is sent to a target; one that doesn't come back is held no more.
    fn send(&mut self, r: ObjectId, t: ObjectId, forget: bool)
        requires give { MayGiveUp self.old r.0 }
        requires more { takes_more self.old.targets t.0 ≡ true }
        requires apart { sending_of self.old.targets r.0 ≡ None }
        ensures { self.new ≡ deeds.with_place (record (deeds.give_up_if forget self.old r.0) { targets = targets.send self.old.targets t.0 r.0 forget }) r.0 (place.Sent (record { 0 = t.0 })) }
    {
        self.give_up_if(forget, r);
        let _is_sent = self.targets.send(t, r, forget);
        self.requests.move_to(r, Place::Sent(t));
    }

    /// A sent request that doesn't come back is no longer held.
    fn give_up_if(&mut self, forget: bool, r: ObjectId)
        requires { MayGiveUp self.old r.0 }
        ensures done { self.new ≡ deeds.give_up_if forget self.old r.0 }
        ensures requests { self.new.requests ≡ self.old.requests }
        ensures targets { self.new.targets ≡ self.old.targets }
    {
        if forget {
            self.give_up(r);
        }
    }

    /// A target is done with a request: one that doesn't come back is to be completed with the status.
    fn finish_sending(&mut self, r: ObjectId, status: Status)
        requires { r.0 < length self.old.requests.all }
        ensures { self.new ≡ deeds.with_place (record self.old { targets = targets.done self.old.targets r.0 status }) r.0 (deeds.finished_at (targets.is_forgotten self.old.targets r.0) status (place_of self.old.requests r.0)) }
    {
        let place = finished_place(self.targets.is_forgotten(r), status, self.requests.place(r));
        self.targets.done(r, status);
        self.requests.move_to(r, place);
    }

    /// Does what a call does, one deed after another.
    pub fn do_deeds(&mut self, plan: &IndexedPlan, all: &Deeds)
        requires { AreDoable plan.now all.now self.old }
        ensures { self.new ≡ deeds.do_deeds plan.now all.now self.old }
    {
        self.do_if_any(plan, &all.first);
        self.lower_if_any(plan, all.lowered);
    }

    /// Does a deed, if there is one.
    pub fn do_if_any(&mut self, plan: &IndexedPlan, deed: &Option<Deed>)
        requires { AreDoable plan.now (option_to_list deed.now) self.old }
        ensures { self.new ≡ deeds.do_deeds plan.now (option_to_list deed.now) self.old }
    {
        if let Some(deed) = deed {
            self.do_deed(plan, deed);
        }
    }

    /// A frame holds the level of a lock less, if one does.
    fn lower_if_any(&mut self, plan: &IndexedPlan, lowered: Option<Lowered>)
        requires { AreDoable plan.now (lowers lowered) self.old }
        ensures { self.new ≡ deeds.do_deeds plan.now (lowers lowered) self.old }
    {
        let _ = plan;
        if let Some(lowered) = lowered {
            self.cpus.lower(lowered.frame, lowered.level);
        }
    }
}

/// The place of a request with which its target is done: it stays where it is if it comes back.
fn finished_place(forgotten: bool, status: Status, place: Place) -> Place
    ensures { result ≡ deeds.finished_at forgotten status place }
{
    if forgotten {
        Place::Closing(status)
    } else {
        place
    }
}
