//! The objects of lines that are made by hand.
use wdf_base::{Handle, ObjectId};

pub const DRIVER: Handle = Handle {
    id: ObjectId(1),
    name: 0,
};

pub const D: Handle = Handle {
    id: ObjectId(2),
    name: 2,
};

pub const Q: Handle = Handle {
    id: ObjectId(3),
    name: 3,
};

pub const IRQ: Handle = Handle {
    id: ObjectId(4),
    name: 4,
};

pub const T: Handle = Handle {
    id: ObjectId(5),
    name: 5,
};

/// A wait lock of the class L.
pub const L: Handle = Handle {
    id: ObjectId(6),
    name: 8,
};

/// A timer of the class TM.
pub const TM: Handle = Handle {
    id: ObjectId(7),
    name: 9,
};

/// The request `req.8`.
pub const REQ: Handle = Handle {
    id: ObjectId(8),
    name: 1,
};
