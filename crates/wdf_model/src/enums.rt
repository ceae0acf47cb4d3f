//! The modes of a queue, the phases of a device, and the groups of candidates.

use wdf_base::Rank;

/// The mode of a queue: Started at the opening, then as its last control call says. The queues of a
/// closed device are Purged. (KMDF)
#[derive(Clone, Copy)]
pub enum Mode {
    /// It accepts requests that arrive, and delivers what waits.
    Started,
    /// It accepts, and doesn't deliver.
    Stopped,
    /// It doesn't accept, and delivers.
    Drained,
    /// It does neither; what waited was cancelled in it.
    Purged,
}

/// How far a device has come. (own, after KMDF)
#[derive(Clone, Copy, PartialEq, Eq)]
pub enum Phase {
    /// It never was Working, and isn't Removed.
    Off,
    /// It is powered up: D0.
    Working,
    /// It is powered down, and can wake.
    Sleeping,
    /// It is removed for good; no post changes it any more.
    Removed,
}

/// Candidates that come together in the order of what may follow. Each has places, from 0. (own)
#[derive(Clone, Copy)]
pub enum Group {
    /// The top frame's own event on a processor; one place.
    OwnEvent { cpu: u8 },
    /// The top frame leaves a processor; one place.
    Parks { cpu: u8 },
    /// A parked frame comes back to a processor, a place for each.
    Unparks { cpu: u8 },
    /// The starts of one rank on a processor: a place for each id, for each queued timer or work item,
    /// or for the first DPC.
    Starts { cpu: u8, rank: Rank },
    /// The starts of one rank on a processor for requests: of a queue, with a place for each request
    /// id, or of a target, with a place for each request that is sent to it.
    StartsFor { cpu: u8, rank: Rank, object: u32 },
    /// The stages of the devices, a place for each id.
    Stages,
    /// The completions by the framework, a place for each id.
    Completions,
    /// The cleanups, a place for each id.
    Cleanups,
    /// The destructions of objects, a place for each id.
    Destroys,
    /// The posts, a place for each agent.
    Posts,
}
