//! What was sent down and isn't done, in the order of the sends.
//!
//! # Choices
//!
//! - **How is a request found?** By tables from its id, from the id of its request at the lower device, and from the number of
//!   its arrival, to where it is in the line. Places change when a request leaves before them. So a table has a span, in places
//!   counted as if nothing had left, and as if only that had which left at the front. While requests leave at the front alone, a
//!   span is one place. One that leaves elsewhere makes the spans of the others wider by one place.
//! - **Why a span, where a request is in the line once?** That it is sent once at a time is a law of runs, and an agent hears
//!   any events. A span has all places of its key, so the line is the definition's without a premise.
ghost use Rattle.std.specs.Prelude.{◌≡◌, ◌≤◌, ◌<◌, ◌-◌, ◌+◌, ◌++◌, ◌∷◌, [], filter, length, map, min, nat_lt, vec_capacity, IfOk, true, false};
ghost use Rattle.std.specs.List.{filter_map};
ghost use Rattle.wdf_model.specs.Tables as tables;
ghost use Rattle.wdf_model.specs.agents.Connector as connector;
ghost use Rattle.wdf_model.specs.declared.stack.Descent.TheVariants as descent;
ghost use Rattle.wdf_stack.specs.Line.{IsSetAt, IsWaitingAt, NoneBefore, StaysOutside, has_post, is_in_front, stays};
ghost use Rattle.wdf_stack.specs.Spans.{IsWithin};

use crate::forwarded::{
    arrived_below, cancelled_one, completed_at, has_post, is_waiting, lower_of, number_of,
    passed_on_at, post_of,
};
use crate::spans::{Span, Spans};
use std::alloc::Global;
use std::marker::Model;
use wdf_base::{Handle, Memory, ObjectId, Post, Status, same_object_id};
use wdf_model::{Descent, Forwarded};

/// How far it is counted how many requests left at the front.
const COUNTED: u32 = 1_000_000_000;

/// What was sent down and isn't done, in the order of the sends. Contracts see a record of the requests and of how many there is
/// room for. No call but [`Line::make`] takes memory.
#[derive(Drop)]
pub(crate) struct Line {
    sent: Vec<Forwarded>,
    /// How many requests there is room for.
    room: u16,
    /// How many requests left.
    left: u32,
    /// How many of them left at the front, as far as that is counted.
    left_in_front: u32,
    by_request: Spans,
    by_lower: Spans,
    by_number: Spans,
    /// No request before this place waits for its arrival.
    waiting: usize,
    /// No request before this place has a post.
    due: usize,
}

impl Model for Line {
    ghost use Rattle.wdf_stack.specs.Line.{Row, row_in, IsInOrder};

    ghost Value = { Row };

    ghost view = { row_in };

    ghost invariant = { IsInOrder };
}

/// The places of a span in a line, from one to before another, after so many left.
fn places_of(span: Span, left: u32, left_in_front: u32, sent: &[Forwarded]) -> (usize, usize)
    ensures from { result.0 ≡ span.low - left }
    ensures to { result.1 ≡ min (span.high - left_in_front) (length sent.now) }
{
    let from = span.low.saturating_sub(left);
    let to = span.high.saturating_sub(left_in_front);
    (from as usize, (to as usize).min(sent.len()))
}

/// The span of one place, after so many left.
fn span_at(place: u32, left: u32, left_in_front: u32) -> Span
    requires place { place < 65536 }
    requires front { left_in_front ≤ 1000000000 }
    ensures within { IsWithin result place left left_in_front }
{
    Span {
        low: place.saturating_add(left),
        high: place + left_in_front + 1,
    }
}

/// Whether the first request is this one.
fn is_in_front(sent: &[Forwarded], r: ObjectId) -> bool
    ensures { result ≡ is_in_front r.0 sent.now }
{
    match sent.first() {
        Some(request) => same_object_id(request.request.id, r),
        None => false,
    }
}

/// The place of the first request from a place on that waits for its arrival, or how many there are where none does.
fn first_waiting(sent: &[Forwarded], from: usize) -> usize
    requires { NoneBefore connector.is_waiting from sent.now }
    ensures before { NoneBefore connector.is_waiting result sent.now }
    ensures waits { IsWaitingAt sent.now result }
{
    for place in from..sent.len() {
        if is_waiting(&sent[place]) {
            return place;
        }
    }
    sent.len()
}

/// A place before which no request has a post, from such a place on.
fn first_due(sent: &[Forwarded], from: usize) -> usize
    requires { NoneBefore has_post from sent.now }
    ensures { NoneBefore has_post result sent.now }
{
    for place in from..sent.len() {
        if has_post(&sent[place]) {
            return place;
        }
    }
    sent.len()
}

/// The post for the first request that has one, of which none is before a place.
fn first_post(room: u64, sent: &[Forwarded], from: usize) -> Option<Post>
    requires { NoneBefore has_post from sent.now }
    ensures { result ≡ tables.first_of_list (filter_map (connector.post_of room) sent.now) }
{
    for place in from..sent.len() {
        let post = post_of(room, &sent[place]);
        if post.is_some() {
            return post;
        }
    }
    None
}

/// A request is cancelled, if it is there. It is at no other places than these.
fn cancel_one(sent: &mut [Forwarded], r: ObjectId, from: usize, to: usize)
    requires within { to ≤ length sent.old }
    requires others { StaysOutside (connector.cancelled_one r.0) from to sent.old }
    ensures { sent.new ≡ map (connector.cancelled_one r.0) sent.old }
{
    for k in from..to {
        sent[k] = cancelled_one(sent[k], r);
    }
}

/// All that is there is cancelled.
fn cancel_all(sent: &mut [Forwarded])
    ensures { sent.new ≡ map connector.cancelled_any sent.old }
{
    for k in 0..sent.len() {
        sent[k] = Forwarded {
            cancelled: true,
            ..sent[k]
        };
    }
}

/// The cancel of a request is passed on, which is at no other places than these.
fn pass_on(sent: &mut [Forwarded], arrival: u64, from: usize, to: usize)
    requires within { to ≤ length sent.old }
    requires others { StaysOutside (connector.passed_on_one arrival) from to sent.old }
    ensures { sent.new ≡ map (connector.passed_on_one arrival) sent.old }
{
    for k in from..to {
        sent[k] = Forwarded {
            descent: passed_on_at(sent[k].descent, arrival),
            ..sent[k]
        };
    }
}

/// A request is completed, for which no others wait than those at these places.
fn complete(sent: &mut [Forwarded], x: ObjectId, status: Status, from: usize, to: usize)
    requires within { to ≤ length sent.old }
    requires others { StaysOutside (connector.completed_one x.0 status) from to sent.old }
    ensures { sent.new ≡ map (connector.completed_one x.0 status) sent.old }
{
    for k in from..to {
        sent[k] = Forwarded {
            descent: completed_at(sent[k].descent, x, status),
            ..sent[k]
        };
    }
}

/// The request at a place has come as far as this, and waits no more.
fn set_descent(sent: &mut [Forwarded], place: usize, descent: Descent)
    requires within { place < length sent.old }
    requires before { NoneBefore connector.is_waiting place sent.old }
    requires waits { IsWaitingAt sent.old place }
    ensures first { sent.new ≡ connector.first_arrived descent sent.old }
    ensures there { IsSetAt sent.old sent.new place descent }
{
    sent[place] = Forwarded {
        descent,
        ..sent[place]
    };
}

/// The same, in a vector.
fn arrive_at(sent: &mut Vec<Forwarded>, place: usize, descent: Descent)
    requires within { place < length sent.old.items }
    requires before { NoneBefore connector.is_waiting place sent.old.items }
    requires waits { IsWaitingAt sent.old.items place }
    ensures first { sent.new.items ≡ connector.first_arrived descent sent.old.items }
    ensures there { IsSetAt sent.old.items sent.new.items place descent }
    ensures capacity { vec_capacity sent.new ≡ vec_capacity sent.old }
{
    set_descent(sent.as_mut_slice(), place, descent);
}

/// A request is cancelled, if it is there. It is at no other places than these.
fn cancel_among(sent: &mut Vec<Forwarded>, r: ObjectId, from: usize, to: usize)
    requires within { to ≤ length sent.old.items }
    requires others { StaysOutside (connector.cancelled_one r.0) from to sent.old.items }
    ensures items { sent.new.items ≡ map (connector.cancelled_one r.0) sent.old.items }
    ensures capacity { vec_capacity sent.new ≡ vec_capacity sent.old }
{
    cancel_one(sent.as_mut_slice(), r, from, to);
}

/// All that is there is cancelled.
fn cancel_whole(sent: &mut Vec<Forwarded>)
    ensures items { sent.new.items ≡ map connector.cancelled_any sent.old.items }
    ensures capacity { vec_capacity sent.new ≡ vec_capacity sent.old }
{
    cancel_all(sent.as_mut_slice());
}

/// The cancel of a request is passed on, which is at no other places than these.
fn pass_on_among(sent: &mut Vec<Forwarded>, arrival: u64, from: usize, to: usize)
    requires within { to ≤ length sent.old.items }
    requires others { StaysOutside (connector.passed_on_one arrival) from to sent.old.items }
    ensures items { sent.new.items ≡ map (connector.passed_on_one arrival) sent.old.items }
    ensures capacity { vec_capacity sent.new ≡ vec_capacity sent.old }
{
    pass_on(sent.as_mut_slice(), arrival, from, to);
}

/// A request is completed, for which no others wait than those at these places.
fn complete_among(sent: &mut Vec<Forwarded>, x: ObjectId, status: Status, from: usize, to: usize)
    requires within { to ≤ length sent.old.items }
    requires others { StaysOutside (connector.completed_one x.0 status) from to sent.old.items }
    ensures items { sent.new.items ≡ map (connector.completed_one x.0 status) sent.old.items }
    ensures capacity { vec_capacity sent.new ≡ vec_capacity sent.old }
{
    complete(sent.as_mut_slice(), x, status, from, to);
}

/// Takes a request away. The answer is how many there are less.
fn drop_request(sent: &mut Vec<Forwarded>, r: ObjectId) -> u32
    requires { length sent.old.items < 65536 }
    ensures items { sent.new.items ≡ filter (stays r.0) sent.old.items }
    ensures capacity { vec_capacity sent.new ≡ vec_capacity sent.old }
    ensures gone { length sent.old.items ≡ length (filter (stays r.0) sent.old.items) + result }
{
    let count = sent.as_slice().len();
    sent.retain(|request| !same_object_id(request.request.id, r));
    (count - sent.as_slice().len()) as u32
}

/// A place before which no request has a post, from such a place on.
fn first_due_in(sent: &Vec<Forwarded>, from: usize) -> usize
    requires { NoneBefore has_post from sent.now.items }
    ensures { NoneBefore has_post result sent.now.items }
{
    first_due(sent.as_slice(), from)
}

/// How many left at the front, when one more did or not.
fn counted(left_in_front: u32, in_front: bool) -> u32
    requires { left_in_front ≤ 1000000000 }
    ensures more { in_front ≡ true → result ≤ left_in_front + 1 }
    ensures same { in_front ≡ false → result ≤ left_in_front }
    ensures small { result ≤ 1000000000 }
{
    if in_front && left_in_front < COUNTED {
        left_in_front + 1
    } else {
        left_in_front
    }
}

impl Line {
    /// An empty line with room for so many requests. On [`Memory`] nothing is made.
    pub(crate) fn make(alloc: Global, room: u16) -> Result<Line, Memory>
        ensures { IfOk result (λ made. made ≡ record { room = room; sent = [] }) }
    {
        Ok(Line {
            by_request: Spans::make(alloc)?,
            by_lower: Spans::make(alloc)?,
            by_number: Spans::make(alloc)?,
            sent: Vec::with_capacity(alloc, usize::from(room))?,
            room,
            left: 0,
            left_in_front: 0,
            waiting: 0,
            due: 0,
        })
    }

    /// Whether there is room for one more.
    pub(crate) fn has_room(&self) -> bool
        ensures { result ≡ nat_lt (length self.now.sent) self.now.room }
    {
        self.sent.len() < usize::from(self.room)
    }

    /// A request is sent, with the post by which it arrives at the lower device.
    pub(crate) fn push(&mut self, request: Handle, post: Post)
        requires { length self.old.sent < self.old.room }
        ensures { self.new ≡ record self.old { sent = self.old.sent ++ record { request = request; post = post; cancelled = false; descent = descent.Waiting } ∷ [] } }
    {
        let place = self.sent.as_slice().len();
        let span = span_at(place as u32, self.left, self.left_in_front);
        self.by_request.note(u64::from(request.id.0), span);
        self.sent.push_reserved(Forwarded {
            request,
            post,
            cancelled: false,
            descent: Descent::Waiting,
        });
        self.waiting = self.waiting.min(place);
        self.due = self.due.min(place);
    }

    /// An arrival with a number is that of the first request that has none.
    pub(crate) fn arrive(&mut self, number: u64, answer: Option<Handle>)
        ensures { self.new ≡ record self.old { sent = connector.first_arrived (connector.arrived_below number answer) self.old.sent } }
    {
        let place = first_waiting(self.sent.as_slice(), self.waiting);
        let count = self.sent.as_slice().len();
        if place < count {
            self.set_at(place, arrived_below(number, answer));
        } else {
            self.waiting = place;
        }
    }

    /// The first request that waits is at a place, and has come as far as this.
    fn set_at(&mut self, place: usize, descent: Descent)
        requires within { place < length self.old.sent }
        requires small { place < 65536 }
        requires before { NoneBefore connector.is_waiting place self.old.sent }
        requires waits { IsWaitingAt self.old.sent place }
        ensures { self.new ≡ record self.old { sent = connector.first_arrived descent self.old.sent } }
    {
        let span = span_at(place as u32, self.left, self.left_in_front);
        self.by_lower.note_if_any(lower_of(descent), span);
        self.by_number.note_if_any(number_of(descent), span);
        arrive_at(&mut self.sent, place, descent);
        self.waiting = place;
        self.due = first_due_in(&self.sent, self.due.min(place));
    }

    /// A request is cancelled, if it is here.
    pub(crate) fn cancel(&mut self, r: ObjectId)
        ensures { self.new ≡ record self.old { sent = map (connector.cancelled_one r.0) self.old.sent } }
    {
        let span = self.by_request.of(u64::from(r.0));
        let (from, to) = places_of(span, self.left, self.left_in_front, self.sent.as_slice());
        cancel_among(&mut self.sent, r, from, to);
        self.due = first_due_in(&self.sent, self.due.min(from));
    }

    /// All that is here is cancelled.
    pub(crate) fn cancel_all(&mut self)
        ensures { self.new ≡ record self.old { sent = map connector.cancelled_any self.old.sent } }
    {
        cancel_whole(&mut self.sent);
        self.due = first_due_in(&self.sent, 0);
    }

    /// The cancel of the request with an arrival is passed on.
    pub(crate) fn pass_on(&mut self, arrival: u64)
        ensures { self.new ≡ record self.old { sent = map (connector.passed_on_one arrival) self.old.sent } }
    {
        let span = self.by_number.of(arrival);
        let (from, to) = places_of(span, self.left, self.left_in_front, self.sent.as_slice());
        pass_on_among(&mut self.sent, arrival, from, to);
        self.due = first_due_in(&self.sent, self.due.min(from));
    }

    /// A request at the lower device is completed, which one here may wait for.
    pub(crate) fn complete(&mut self, x: ObjectId, status: Status)
        ensures { self.new ≡ record self.old { sent = map (connector.completed_one x.0 status) self.old.sent } }
    {
        let span = self.by_lower.of(u64::from(x.0));
        let (from, to) = places_of(span, self.left, self.left_in_front, self.sent.as_slice());
        complete_among(&mut self.sent, x, status, from, to);
        self.due = first_due_in(&self.sent, self.due.min(from));
    }

    /// A request is here no more.
    pub(crate) fn let_go(&mut self, r: ObjectId)
        ensures { self.new ≡ record self.old { sent = filter (stays r.0) self.old.sent } }
    {
        let in_front = is_in_front(self.sent.as_slice(), r);
        let gone = drop_request(&mut self.sent, r);
        self.left = self.left.saturating_add(gone);
        self.left_in_front = counted(self.left_in_front, in_front);
        self.by_request.forget(u64::from(r.0));
        self.waiting = self.waiting.saturating_sub(gone as usize);
        self.due = first_due_in(&self.sent, self.due.saturating_sub(gone as usize));
    }

    /// The post for the first request that has one, where connectors may post so many arrivals.
    pub(crate) fn post(&self, room: u64) -> Option<Post>
        ensures { result ≡ tables.first_of_list (filter_map (connector.post_of room) self.now.sent) }
    {
        first_post(room, self.sent.as_slice(), self.due)
    }
}
