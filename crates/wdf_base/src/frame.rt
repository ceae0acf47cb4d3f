//! Frames, and what a frame is about to do.
//!
//! # Choices
//!
//! - **What is a step of a sequence?** `Step::Run` (a callback) or `Step::Pass` (a stage), each with the interrupt
//!   that it is for, if any: a device may have several. A wait line drops the interrupt when it prints, as its form
//!   has no place for it.
//! - **How does a frame know its statements?** It keeps the number of its script, and the number of the statement in
//!   it. The object alone doesn't determine the script of a class object.
//! - **What does a frame wait for?** `Pending`: the call, and the answer that it gets when the wait is over. The
//!   object that it waits for is an argument of the call. DpcCancel and TimerStop need the answer that was found when
//!   the wait began.
//! - **When does a frame spend?** Where `until` is later than the clock; it starts as 0.
//! - **What parts has an intent?** What the event prints. `Local` also keeps what it changes (`Change`: a variable,
//!   nothing, or the count of a `repeat`) and where the frame goes on, so that no one evaluates the statement twice.
//!   The other intents go on at the statement's `next`.
use crate::call::{Call, Callback};
use crate::ids::Handle;
use crate::value::{Status, Value};

/// The most variables of a callback, and the deepest nesting of `if` and `repeat`.
pub const VARIABLES: usize = 16;

/// A call that waits, with the answer that it gets when the wait is over.
#[derive(Clone, Copy, PartialEq, Eq)]
pub struct Pending {
    pub call: Call,
    pub answer: Value,
}

/// One running or waiting callback. Which locks it holds is kept elsewhere.
#[derive(Clone, Copy, PartialEq, Eq)]
pub struct Frame {
    pub callback: Callback,
    /// The object of the callback.
    pub object: Handle,
    /// The nearest device at or above the object, or the driver object.
    pub device: Handle,
    /// The request that it is for.
    pub request: Option<Handle>,
    /// The length of the request, 0 where there is none.
    pub length: u64,
    /// The code of the request, 0 where there is none.
    pub code: u64,
    /// The completion status in EvtRequestCompletion, else SUCCESS.
    pub status: Status,
    /// The number of the script in the plan.
    pub script: u32,
    /// The number of the next statement in the script.
    pub at: u32,
    pub variables: [Value; VARIABLES],
    /// How many runs are left of each `repeat` that is open, the outermost first.
    pub counters: [u32; VARIABLES],
    /// The tick until which it spends; it spends where this is later than the clock.
    pub until: u64,
    /// What it waits for.
    pub pending: Option<Pending>,
}

/// What a `let`, an `if` or a `repeat` changes in its frame.
#[derive(Clone, Copy, Debug, PartialEq, Eq)]
pub enum Change {
    /// A variable takes a value.
    Assign { variable: u8, value: Value },
    /// Nothing but the place: an `if`.
    Branch,
    /// The `repeat` at this depth has this many runs left.
    Count { depth: u8, left: u32 },
}

/// What the next statement of a frame does, with its expressions evaluated.
#[derive(Clone, Copy, Debug, PartialEq, Eq)]
pub enum Intent {
    /// A step inside the frame, which goes on at the statement `next`.
    Local { change: Change, next: u32 },
    Log(Value),
    /// A number of ticks is spent.
    Spend(u64),
    /// A register is read.
    Get(u32),
    /// A register is written.
    Put { register: u32, value: u64 },
    Do(Call),
    Return(Value),
    /// The statement isn't a call and has a script error.
    Broken,
}
