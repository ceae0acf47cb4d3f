//! The keys of signs, by which they are looked up.
ghost use Rattle.std.specs.Prelude.{◌≡◌, OnOk};
ghost use Rattle.wdf_laws.specs.declared.sign.Sign as laws;
ghost use Rattle.check_past.specs.Keys as keys;

use std::collections::HashMap;
use wdf_base::Memory;
use wdf_laws::{Sign, Taking};

/// The kinds of signs, one for each variant of [`Sign`].
#[derive(Clone, Copy, PartialEq, Eq, Hash)]
pub enum Kind {
    /// A request arrives.
    Arrival,
    /// A request is completed, by the driver or by the framework.
    Completion,
    /// The driver takes a request from a queue.
    TakingFrom,
    /// The driver gives a request up, or the framework completes it.
    GivingUp,
    /// A request enters a queue at its head.
    AtHead,
    /// A request enters a queue, at its head or at its tail.
    Entry,
    /// A request is acknowledged and kept while its device loses power.
    Acknowledgement,
    /// The cancel of a request is posted.
    CancelPosted,
    /// The cancel callback of a request begins.
    CancelBegins,
    /// A request is marked cancelable.
    Marked,
    /// A mark is undone: the request is unmarked, given up or sent.
    MarkUndone,
    /// An interrupt is put on the list of enabled ones.
    Enabled,
    /// An interrupt is taken off that list.
    Disabled,
    /// The power-managed queues of a device go up.
    QueuesUp,
    /// The power-managed queues of a device go down.
    QueuesDown,
    /// A device is entered: its EvtDeviceD0Entry ends with SUCCESS.
    Entered,
    /// A device isn't entered: its EvtDeviceD0Entry ends otherwise, or its EvtDeviceD0Exit begins.
    NotEntered,
    /// The EvtDeviceD0Exit of a device begins.
    ExitBegins,
    /// The cleanup of an object.
    Cleaned,
    /// The end of an object.
    Destroyed,
    /// The driver takes a reference to an object.
    Referenced,
    /// The driver gives a reference to an object back.
    Dereferenced,
}

/// A sign's kind and its ids.
#[derive(Clone, Copy, PartialEq, Eq, Hash)]
pub struct Key {
    pub kind: Kind,
    /// The request, the interrupt, the device or the object.
    pub id: u32,
    /// The queue of a taking, 0 at the other kinds.
    pub queue: u32,
}

/// The key of a sign of this kind, of one id.
fn single(kind: Kind, id: u32) -> Key
    ensures { result ≡ keys.single kind id }
{
    Key { kind, id, queue: 0 }
}

/// The key of a taking.
fn taking(request: u32, queue: u32) -> Key
    ensures { result ≡ keys.taking request queue }
{
    Key {
        kind: Kind::TakingFrom,
        id: request,
        queue,
    }
}

impl Kind {
    /// The key of a sign of this kind, if its id is there.
    pub fn key_in(self, id: Option<u32>) -> Option<Key>
        ensures { result ≡ keys.key_in self id }
    {
        match id {
            Some(id) => Some(single(self, id)),
            None => None,
        }
    }
}

/// The key of a taking, if it is there.
pub fn key_in_taking(taken: Option<Taking>) -> Option<Key>
    ensures { result ≡ keys.key_in_taking taken }
{
    match taken {
        Some(t) => Some(taking(t.request, t.queue)),
        None => None,
    }
}

/// The key of a sign.
fn key_of(sign: Sign) -> Key
    ensures { result ≡ keys.key_of sign }
{
    match sign {
        Sign::Arrival(r) => single(Kind::Arrival, r),
        Sign::Completion(r) => single(Kind::Completion, r),
        Sign::TakingFrom { request, queue } => taking(request, queue),
        Sign::GivingUp(r) => single(Kind::GivingUp, r),
        Sign::AtHead(r) => single(Kind::AtHead, r),
        Sign::Entry(r) => single(Kind::Entry, r),
        Sign::Acknowledgement(r) => single(Kind::Acknowledgement, r),
        Sign::CancelPosted(r) => single(Kind::CancelPosted, r),
        Sign::CancelBegins(r) => single(Kind::CancelBegins, r),
        Sign::Marked(r) => single(Kind::Marked, r),
        Sign::MarkUndone(r) => single(Kind::MarkUndone, r),
        Sign::Enabled(i) => single(Kind::Enabled, i),
        Sign::Disabled(i) => single(Kind::Disabled, i),
        Sign::QueuesUp(d) => single(Kind::QueuesUp, d),
        Sign::QueuesDown(d) => single(Kind::QueuesDown, d),
        Sign::Entered(d) => single(Kind::Entered, d),
        Sign::NotEntered(d) => single(Kind::NotEntered, d),
        Sign::ExitBegins(d) => single(Kind::ExitBegins, d),
        Sign::Cleaned(o) => single(Kind::Cleaned, o),
        Sign::Destroyed(o) => single(Kind::Destroyed, o),
        Sign::Referenced(o) => single(Kind::Referenced, o),
        Sign::Dereferenced(o) => single(Kind::Dereferenced, o),
    }
}

/// The number at a sign, 0 for none.
pub fn number_of(numbers: &HashMap<Key, usize>, sign: Sign) -> usize
    ensures { result ≡ keys.number_of numbers.now sign }
{
    match numbers.get(&key_of(sign)) {
        Some(number) => *number,
        None => 0,
    }
}

/// Notes a number at a key, if there is one.
#[tactic(auto, using(crate::proofs::Keys::put_or_kept), unfolding(crate::specs::Keys::noted, crate::specs::Keys::is_key_of))]
fn note(numbers: &mut HashMap<Key, usize>, key: Option<Key>, number: usize) -> Result<(), Memory>
    ensures { OnOk result ((s : laws.Sign) → keys.number_of numbers.new s ≡ keys.noted key number s (keys.number_of numbers.old s)) }
{
    if let Some(key) = key {
        numbers.insert(key, number)?;
    }
    Ok(())
}

/// Notes a number at each key that is there.
#[tactic(auto, unfolding(crate::specs::Keys::noted_each))]
pub fn note_each(
    numbers: &mut HashMap<Key, usize>,
    shown: &[Option<Key>],
    number: usize,
) -> Result<(), Memory>
    ensures { OnOk result ((s : laws.Sign) → keys.number_of numbers.new s ≡ keys.noted_each shown.now number s (keys.number_of numbers.old s)) }
{
    for key in shown {
        note(numbers, *key, number)?;
    }
    Ok(())
}
