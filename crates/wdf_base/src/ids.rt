/// The id of an object. The driver object is 1, the declared objects follow in the order of the
/// text, later objects get the next id when they are made, and no id is used again.
#[derive(Clone, Copy, Debug, PartialEq, Eq)]
pub struct ObjectId(pub u32);

/// A processor, counted from 0.
#[derive(Clone, Copy, Debug, PartialEq, Eq)]
pub struct Cpu(pub u8);

/// An interrupt request level: 0 is PASSIVE_LEVEL, 2 is DISPATCH_LEVEL.
#[derive(Clone, Copy, PartialEq, Eq)]
pub struct Irql(pub u8);

/// The number of a frame, which is one running callback: the number of the event that started it.
#[derive(Clone, Copy, Debug, PartialEq, Eq)]
pub struct FrameId(pub u32);

/// An object as scripts and traces name it: its id, and the number of its name in the plan.
#[derive(Clone, Copy, Debug, PartialEq, Eq)]
pub struct Handle {
    pub id: ObjectId,
    pub name: u32,
}
