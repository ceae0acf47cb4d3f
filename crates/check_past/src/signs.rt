//! When each sign came last.
ghost use Rattle.std.specs.Prelude.{◌≡◌, ◌+◌, ◌<◌, ◌^◌, ℕ, [], OnOk, nat_eq};
ghost use Rattle.std.specs.HashMap.{get};
ghost use Rattle.wdf_laws.specs.Events as told;
ghost use Rattle.wdf_laws.specs.declared.sign.Sign as laws;
ghost use Rattle.check_past.specs.Keys as keys;
ghost use Rattle.check_past.specs.Maps as maps;
ghost use Rattle.wdf_base.specs.declared.call.CallKind.TheVariants as call;
ghost use Rattle.wdf_base.specs.declared.event.Stage.TheVariants as stage;

use crate::key::{Key, Kind, key_in_taking, note_each};
use crate::maps::{Flags, Numbers, number_at, put};
use check_signs::{
    acknowledged, arrived, begun_for, begun_on, called, called_well, cancel_posted, cleaned,
    completed, destroyed, ended_on, given_up, headed, mark_undone, passed, passed_for, tailed,
    taken,
};
use std::alloc::Global;
use std::collections::HashMap;
use wdf_base::{CallKind, Callback, Event, Memory, Stage};

/// What is kept of the signs that came.
#[derive(Drop)]
pub struct Signs {
    /// By the key of a sign, the number of the last event with it.
    pub lasts: HashMap<Key, usize>,
    /// By device, whether it was entered when its queues went up last.
    pub up: Flags,
    /// By interrupt, whether its device was entered when it was enabled last.
    pub enabled: Flags,
    /// By object, how many references were taken.
    pub referenced: Numbers,
    /// By object, how many references were given back.
    pub dereferenced: Numbers,
}

/// The keys of the signs that an event shows.
fn keys_of(event: &Event) -> [Option<Key>; 24]
    ensures { result ≡ keys.keys_of event.now }
{
    [
        Kind::Arrival.key_in(arrived(event)),
        Kind::Completion.key_in(completed(event)),
        key_in_taking(taken(event)),
        Kind::GivingUp.key_in(given_up(event)),
        Kind::AtHead.key_in(headed(event)),
        Kind::Entry.key_in(headed(event)),
        Kind::Entry.key_in(tailed(event)),
        Kind::Acknowledgement.key_in(acknowledged(event)),
        Kind::CancelPosted.key_in(cancel_posted(event)),
        Kind::CancelBegins.key_in(begun_for(Callback::EvtRequestCancel, event)),
        Kind::Marked.key_in(called_well(CallKind::WdfRequestMarkCancelableEx, event)),
        Kind::MarkUndone.key_in(mark_undone(event)),
        Kind::Enabled.key_in(passed_for(Stage::Enabled, event)),
        Kind::Disabled.key_in(passed_for(Stage::Disabled, event)),
        Kind::QueuesUp.key_in(passed(Stage::QueuesUp, event)),
        Kind::QueuesDown.key_in(passed(Stage::QueuesDown, event)),
        Kind::Entered.key_in(ended_on(Callback::EvtDeviceD0Entry, true, event)),
        Kind::NotEntered.key_in(ended_on(Callback::EvtDeviceD0Entry, false, event)),
        Kind::NotEntered.key_in(begun_on(Callback::EvtDeviceD0Exit, event)),
        Kind::ExitBegins.key_in(begun_on(Callback::EvtDeviceD0Exit, event)),
        Kind::Cleaned.key_in(cleaned(event)),
        Kind::Destroyed.key_in(destroyed(event)),
        Kind::Referenced.key_in(called(CallKind::WdfObjectReference, event)),
        Kind::Dereferenced.key_in(called(CallKind::WdfObjectDereference, event)),
    ]
}

/// Counts one more at an id, if there is one.
fn count(numbers: &mut Numbers, id: Option<u32>) -> Result<(), Memory>
    requires { (q : ℕ) → maps.number_at numbers.old q + 1 < 2 ^ 64 }
    ensures { OnOk result ((q : ℕ) → maps.number_at numbers.new q ≡ maps.counted id q (maps.number_at numbers.old q)) }
{
    match id {
        Some(id) => {
            let number = number_at(numbers, id) + 1;
            put(numbers, Some(id), number)
        }
        None => Ok(()),
    }
}

impl Signs {
    /// Nothing was read.
    pub fn make(alloc: Global) -> Signs
        ensures lasts { result.lasts.entries ≡ [] }
        ensures up { result.up.entries ≡ [] }
        ensures enabled { result.enabled.entries ≡ [] }
        ensures referenced { result.referenced.entries ≡ [] }
        ensures dereferenced { result.dereferenced.entries ≡ [] }
    {
        Signs {
            lasts: HashMap::new(alloc),
            up: HashMap::new(alloc),
            enabled: HashMap::new(alloc),
            referenced: HashMap::new(alloc),
            dereferenced: HashMap::new(alloc),
        }
    }

    /// One event more, with its number, and whether the device whose queues go up by it, or whose interrupt is enabled by
    /// it, is entered.
    pub fn step(
        &mut self,
        event: &Event,
        number: usize,
        up: bool,
        enabled: bool,
    ) -> Result<(), Memory>
        requires referenced { (o : ℕ) → maps.number_at self.old.referenced o + 1 < 2 ^ 64 }
        requires dereferenced { (o : ℕ) → maps.number_at self.old.dereferenced o + 1 < 2 ^ 64 }
        ensures lasts { OnOk result ((s : laws.Sign) → keys.number_of self.new.lasts s ≡ keys.noted_each (keys.keys_of event.now) number s (keys.number_of self.old.lasts s)) }
        ensures up { OnOk result ((d : ℕ) → get nat_eq self.new.up d ≡ maps.put_at (told.passed stage.QueuesUp event.now) up d (get nat_eq self.old.up d)) }
        ensures enabled { OnOk result ((i : ℕ) → get nat_eq self.new.enabled i ≡ maps.put_at (told.passed_for stage.Enabled event.now) enabled i (get nat_eq self.old.enabled i)) }
        ensures referenced { OnOk result ((o : ℕ) → maps.number_at self.new.referenced o ≡ maps.counted (told.called call.WdfObjectReference event.now) o (maps.number_at self.old.referenced o)) }
        ensures dereferenced { OnOk result ((o : ℕ) → maps.number_at self.new.dereferenced o ≡ maps.counted (told.called call.WdfObjectDereference event.now) o (maps.number_at self.old.dereferenced o)) }
    {
        note_each(&mut self.lasts, &keys_of(event), number)?;
        put(&mut self.up, passed(Stage::QueuesUp, event), up)?;
        put(
            &mut self.enabled,
            passed_for(Stage::Enabled, event),
            enabled,
        )?;
        count(
            &mut self.referenced,
            called(CallKind::WdfObjectReference, event),
        )?;
        count(
            &mut self.dereferenced,
            called(CallKind::WdfObjectDereference, event),
        )?;
        Ok(())
    }
}
