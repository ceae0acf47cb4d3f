//! How much room maps and lists of a run need, in entries.

/// The most events of a run. (own)
pub const EVENTS: u32 = 200_000;

/// Room for the entries of a map by object id: the id 0, the driver object and the declared ones, of
/// which there are at most 4,096, and one object for each event.
pub const OBJECTS: u32 = 4_097 + EVENTS;

/// Room for the entries of a map by frame number: the number 0, and one frame for each event.
pub const FRAMES: u32 = 1 + EVENTS;
