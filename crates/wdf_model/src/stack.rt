use crate::Phase;
use wdf_base::{Ask, Handle, ObjectId, Post, Status};

/// How far a request has come that was sent down a stack of devices, to the lower device.
#[derive(Clone, Copy)]
pub enum Descent {
    /// It has no arrival at the lower device yet.
    Waiting,
    /// Its arrival was answered `none`.
    Refused,
    /// Its arrival made the request `lower`.
    Below {
        /// The request at the lower device.
        lower: ObjectId,
        /// The number of that arrival among those of its connector, from 1.
        number: u64,
        /// Whether the cancel was passed on.
        passed_on: bool,
    },
    /// The request at the lower device is completed with this status.
    Completed(Status),
}

/// A request that a connector has, in the order of the sends.
#[derive(Clone, Copy)]
pub struct Forwarded {
    /// The request that was sent.
    pub request: Handle,
    /// The post by which it arrives at the lower device.
    pub post: Post,
    /// Whether it was cancelled, or the target was told to cancel it.
    pub cancelled: bool,
    pub descent: Descent,
}

/// What a request asks for that arrived, as a connector posts it to the lower device.
#[derive(Clone, Copy)]
pub struct Arrival {
    pub request: ObjectId,
    /// The post by which it would arrive at the lower device.
    pub post: Post,
}

/// A post of the Plug and Play manager: what it asks of which device.
#[derive(Clone, Copy)]
pub struct AskPost {
    pub ask: Ask,
    pub device: Handle,
}

/// A device as the stack manager knows it.
#[derive(Clone, Copy)]
pub struct StackDevice {
    pub device: Handle,
    /// The device above it, whose target is connected to it.
    pub above: Option<Handle>,
    /// The device below it, to which its target is connected.
    pub below: Option<Handle>,
    /// How far it has come.
    pub phase: Phase,
}
