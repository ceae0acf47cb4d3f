//! What an event does to the state, as data: a list of deeds, each an act of one part, or of a few that move
//! together.

use crate::enums::Mode;
use wdf_base::{
    Ask, Callback, Cpu, Frame, FrameId, Irql, Kind, LockRef, ObjectId, Place, RequestInfo, Status,
    Step, Value,
};

/// An act of one part of the state, or of a few that move together.
#[derive(Clone, Copy)]
pub enum Deed {
    /// An object of a class is made under a parent. (KMDF)
    Create {
        /// Its kind: not a request's, and none that only the scenario declares.
        kind: Kind,
        /// The number of its class in the plan, from 0.
        class: u16,
        /// A live object.
        parent: ObjectId,
    },
    /// A request is made by the driver, which owns it. (KMDF)
    MakeRequest {
        /// The number of its class in the plan, from 0.
        class: u16,
        /// A live object. The request's device is the nearest one at or above it. (own)
        parent: ObjectId,
    },
    /// A request arrives at a device, as its child, and has this place. (KMDF)
    Arrive {
        /// A live device.
        device: ObjectId,
        /// What it asks for, and who asks.
        info: RequestInfo,
        /// Queued, or Closing.
        place: Place,
    },
    /// An agent's arrival is counted, also where it makes no request. (own)
    CountArrival {
        /// The agent's number, from 0, which is the Plug and Play manager.
        agent: u16,
    },
    /// The deletion of an object and of what is below it is asked; what isn't live stays as it is.
    /// (KMDF, own in that it only asks)
    AskDeletion {
        /// The topmost of them.
        object: ObjectId,
    },
    /// The driver holds a reference more. (KMDF)
    Refer {
        /// What it refers to, which may be cleaned up.
        object: ObjectId,
    },
    /// The driver holds a reference less. (KMDF)
    Unrefer {
        /// What it referred to; a reference is held.
        object: ObjectId,
    },
    /// A context cell is written. (own)
    WriteCell {
        /// Whose cell it is.
        object: ObjectId,
        /// The number of the cell, from 0 to 7.
        cell: u64,
        /// What is in it from now on; a value of any sort.
        value: Value,
    },
    /// A cleanup or destroy callback of an object starts, which it does once. (KMDF)
    Note {
        /// Whose callback it is.
        object: ObjectId,
        /// EvtCleanupCallback or EvtDestroyCallback.
        callback: Callback,
    },
    /// The cleanup of an object is done. (KMDF)
    CleanUp {
        /// An object whose deletion was asked.
        object: ObjectId,
    },
    /// An object is destroyed, and nothing of it is kept. (KMDF)
    EndLife {
        /// An object that is cleaned up.
        object: ObjectId,
    },
    /// A frame begins on a processor, on top of what runs there. (KMDF)
    PushFrame {
        /// The processor, from 0.
        cpu: Cpu,
        /// The number of the event that starts it.
        number: FrameId,
        /// The callback at its first statement.
        frame: Frame,
        /// The level of the callback, from 0 to 12.
        level: Irql,
    },
    /// A frame goes on: its place, variables, counters, tick or wait change.
    GoOn {
        /// The number of the frame.
        number: FrameId,
        /// The frame as it is from now on.
        frame: Frame,
    },
    /// A frame holds the level of a lock more: it asks for the lock. (KMDF)
    Raise {
        /// The number of the frame.
        frame: FrameId,
        /// The level of the lock, from 0 to 12.
        level: Irql,
    },
    /// A frame holds the level of a lock less: it gives the lock back. (KMDF)
    Lower {
        /// The number of the frame.
        frame: FrameId,
        /// The level of the lock, from 0 to 12.
        level: Irql,
    },
    /// The top frame of a processor ends, and the levels that it holds go with it. (KMDF)
    PopFrame {
        /// The processor, from 0.
        cpu: Cpu,
    },
    /// The top frame of a processor, which waits at PASSIVE_LEVEL, leaves it. (own)
    ParkFrame {
        /// The processor, from 0.
        cpu: Cpu,
    },
    /// A parked frame comes back to an empty processor. (own)
    UnparkFrame {
        /// The processor, from 0.
        cpu: Cpu,
        /// The number of the frame.
        frame: FrameId,
    },
    /// A frame takes a lock, which is free. (KMDF)
    TakeLock {
        /// An object's lock, or a scope lock.
        lock: LockRef,
        /// The number of the frame.
        frame: FrameId,
        /// Whether a call takes it; else the start of the callback does, and its end gives it back.
        by_call: bool,
    },
    /// A lock is given back, and is free. (KMDF)
    ReleaseLock {
        /// An object's lock, or a scope lock.
        lock: LockRef,
    },
    /// The front of a queue becomes Owned, and counts as held from the queue. (KMDF)
    Present {
        /// The queue that presents it, or from which it is retrieved.
        queue: ObjectId,
        /// The queue's front.
        request: ObjectId,
    },
    /// A request that returns from a queue becomes Owned, and counts as held from the queue. (KMDF)
    Receive {
        /// The queue whose EvtIoCanceledOnQueue starts.
        queue: ObjectId,
        /// A request that is Returning to it.
        request: ObjectId,
    },
    /// The driver gives a request back to the head of a queue. (KMDF)
    Requeue {
        /// An arrived request that it owns.
        request: ObjectId,
        /// The queue from which the request came.
        queue: ObjectId,
    },
    /// The driver gives a request to the tail of a queue. (KMDF)
    Forward {
        /// An arrived request that it owns.
        request: ObjectId,
        /// Another queue of the same device, which accepts.
        queue: ObjectId,
    },
    /// The driver gives back a request that is cancelled in the queue at once. (KMDF)
    GiveBack {
        /// An arrived request that it owns.
        request: ObjectId,
        /// The queue, on whose list it never is.
        queue: ObjectId,
    },
    /// A waiting request is cancelled in its queue: it returns to the driver, or is closing with
    /// CANCELLED. (KMDF)
    Withdraw {
        /// The queue in which it waits.
        queue: ObjectId,
        /// The request, which is cancelled from now on.
        request: ObjectId,
    },
    /// A request becomes cancelable, unless it is cancelled. (KMDF)
    MarkRequest {
        /// An arrived request that the driver owns.
        request: ObjectId,
    },
    /// A request is no longer cancelable, if its cancel isn't due or taken. (KMDF)
    UnmarkRequest {
        /// An arrived request.
        request: ObjectId,
    },
    /// A request is cancelled; if it is cancelable, its EvtRequestCancel becomes due. (KMDF)
    CancelRequest {
        /// A request that is Returning, Owned or Sent.
        request: ObjectId,
    },
    /// EvtRequestCancel starts for a request. (KMDF)
    TakeCancel {
        /// A request whose cancel is due.
        request: ObjectId,
    },
    /// A request is sent to a target. (KMDF)
    SendRequest {
        /// A request that the driver owns, arrived or made.
        request: ObjectId,
        /// A live target that takes more.
        target: ObjectId,
        /// Whether it won't come back: SendAndForget.
        forget: bool,
    },
    /// A target is done with a request; one that was forgotten is closing with the status. (KMDF)
    FinishSending {
        /// A request that is at the target.
        request: ObjectId,
        /// The target's declared status, or CANCELLED.
        status: Status,
    },
    /// The completion routine of a sent request starts, and the driver owns it again. (KMDF)
    ComeBack {
        /// A request that its target is done with.
        request: ObjectId,
    },
    /// A request is completed, and its deletion is asked. (KMDF)
    CompleteRequest {
        /// A request that is Closing, or an arrived one that the driver owns.
        request: ObjectId,
    },
    /// A queue gets a mode, unless its device is closed. (KMDF)
    SetMode {
        /// The queue of the control call.
        queue: ObjectId,
        /// Started, Stopped or Drained.
        mode: Mode,
    },
    /// A queue is Purged: what waits is cancelled in the queue. (KMDF) What the driver holds stays as
    /// it is. (own)
    PurgeQueue {
        /// The queue of the control call.
        queue: ObjectId,
    },
    /// A device's queues lose power: what returns to a power-managed one is to be completed with
    /// CANCELLED. (own)
    CloseReturning {
        /// The device at `queues_down`.
        device: ObjectId,
    },
    /// A device is closed: what waits in its queues or returns to them is to be completed with
    /// CANCELLED. (own)
    CloseDevice {
        /// The device at `closed`; its queues are Purged for good.
        device: ObjectId,
    },
    /// Notification of a queue is registered, or not. (KMDF)
    RegisterQueue {
        /// A manual queue with an EvtIoQueueState.
        queue: ObjectId,
        /// Whether it is registered from now on.
        on: bool,
    },
    /// EvtIoQueueState starts for a queue, and notification is due no more. (KMDF)
    NotifyQueue {
        /// The queue, which got its first waiting request.
        queue: ObjectId,
    },
    /// A stage of a sequence does what it does to power; a callback does nothing to it. (own)
    AdvancePower {
        /// The device of the sequence.
        device: ObjectId,
        /// The step that is taken.
        step: Step,
    },
    /// A held request is acknowledged, and stays with the driver. (KMDF)
    Acknowledge {
        /// A request that the driver holds.
        request: ObjectId,
    },
    /// A held request is asked to stop: its EvtIoStop starts, once. (KMDF)
    AskStop {
        /// A request that the driver holds from a power-managed queue.
        request: ObjectId,
    },
    /// A held request goes on: its EvtIoResume starts, and is due no more. (KMDF)
    Resume {
        /// A request that the driver holds.
        request: ObjectId,
    },
    /// A device gets the steps that an ask gives it in its phase; none where that changes nothing.
    /// (own)
    AskDevice {
        /// A device with no sequence under way.
        device: ObjectId,
        /// What the Plug and Play manager asks of it.
        ask: Ask,
    },
    /// The next step of a sequence is taken: its callback runs, or its stage is passed. (own)
    TakeStep {
        /// A device with a step left, none of whose steps runs.
        device: ObjectId,
    },
    /// The callback of a step ends. A query or a start that failed changes the steps that are left.
    /// (own)
    EndStep {
        /// The device of the sequence.
        device: ObjectId,
        /// The step whose callback ran.
        step: Step,
        /// What the callback returned; SUCCESS is well, all else failed.
        result: Value,
    },
    /// An interrupt is put on the list of enabled ones. (own)
    EnableInterrupt {
        /// The interrupt of the stage `enabled`.
        interrupt: ObjectId,
    },
    /// An interrupt is taken off the list of enabled ones. (own)
    DisableInterrupt {
        /// The interrupt of the stage `disabled`.
        interrupt: ObjectId,
    },
    /// A DPC is queued last on a processor. (KMDF)
    EnqueueDpc {
        /// The processor that queues it, from 0.
        cpu: Cpu,
        /// The DPC, or the interrupt whose EvtInterruptDpc it is.
        object: ObjectId,
    },
    /// A DPC is taken out of the list in which it is, if it is in one. (KMDF)
    CancelDpc {
        /// The DPC.
        object: ObjectId,
    },
    /// The first DPC of a processor starts, and leaves the list. (KMDF)
    TakeDpc {
        /// The processor, from 0.
        cpu: Cpu,
    },
    /// A work item is queued; nothing changes if it is already. (KMDF)
    EnqueueWork {
        /// The work item.
        object: ObjectId,
    },
    /// A work item is taken out of its queue, if it is there. (KMDF)
    CancelWork {
        /// The work item.
        object: ObjectId,
    },
    /// A timer is due so many ticks from now, anew if it was queued. (KMDF)
    StartTimer {
        /// The timer.
        object: ObjectId,
        /// A number of ticks; more than 1,000,000 are 1,000,000. (own)
        ticks: u64,
    },
    /// A timer is taken out of its queue, if it is there. (KMDF)
    StopTimer {
        /// The timer.
        object: ObjectId,
    },
    /// A timer's function starts. (KMDF)
    FireTimer {
        /// The timer.
        object: ObjectId,
        /// With 0 it leaves its queue, else it is due again so many ticks after its last due tick.
        period: u64,
    },
    /// A target takes no more requests. (KMDF)
    StopTarget {
        /// The target; what is sent to it stays there.
        target: ObjectId,
    },
    /// A target takes requests again. (KMDF)
    StartTarget {
        /// The target.
        target: ObjectId,
    },
    /// A tick passes: the clock shows one more. (own)
    PassTick,
}
