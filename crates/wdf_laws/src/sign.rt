//! The plain types of the laws' words.
use wdf_base::Callback;

/// What is looked for in events. Requests, interrupts, devices and objects are named by their ids.
#[derive(Clone, Copy)]
pub enum Sign {
    /// A request arrives.
    Arrival(u32),
    /// A request is completed, by the driver or by the framework.
    Completion(u32),
    /// The driver takes a request from a queue.
    TakingFrom { request: u32, queue: u32 },
    /// The driver gives a request up, or the framework completes it.
    GivingUp(u32),
    /// A request enters a queue at its head.
    AtHead(u32),
    /// A request enters a queue, at its head or at its tail.
    Entry(u32),
    /// A request is acknowledged and kept while its device loses power.
    Acknowledgement(u32),
    /// The cancel of a request is posted.
    CancelPosted(u32),
    /// The cancel callback of a request begins.
    CancelBegins(u32),
    /// A request is marked cancelable.
    Marked(u32),
    /// A mark is undone: the request is unmarked, given up or sent.
    MarkUndone(u32),
    /// An interrupt is put on the list of enabled ones.
    Enabled(u32),
    /// An interrupt is taken off that list.
    Disabled(u32),
    /// The power-managed queues of a device go up.
    QueuesUp(u32),
    /// The power-managed queues of a device go down.
    QueuesDown(u32),
    /// A device is entered: its EvtDeviceD0Entry ends with SUCCESS.
    Entered(u32),
    /// A device isn't entered: its EvtDeviceD0Entry ends otherwise, or its EvtDeviceD0Exit begins.
    NotEntered(u32),
    /// The EvtDeviceD0Exit of a device begins.
    ExitBegins(u32),
    /// The cleanup of an object.
    Cleaned(u32),
    /// The end of an object.
    Destroyed(u32),
    /// The driver takes a reference to an object.
    Referenced(u32),
    /// The driver gives a reference to an object back.
    Dereferenced(u32),
}

/// A request that the driver takes from a queue.
#[derive(Clone, Copy)]
pub struct Taking {
    pub request: u32,
    pub queue: u32,
}

/// What an event says of an object: its parent, 0 for none, and the class that it was made from.
#[derive(Clone, Copy)]
pub struct Told {
    pub object: u32,
    pub parent: u32,
    pub class: Option<u16>,
}

/// A frame on a processor's stack.
#[derive(Clone, Copy)]
pub struct Stacked {
    pub cpu: u8,
    pub frame: u64,
}

/// A callback that has begun and not ended: its frame has the number of the event that began it.
#[derive(Clone, Copy)]
pub struct Begun {
    pub frame: u64,
    pub callback: Callback,
    pub object: u32,
}

/// What holds now, and what held when a sign came last.
#[derive(Clone, Copy)]
pub struct Moment {
    pub current: bool,
    pub at: bool,
}
