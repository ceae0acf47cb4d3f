//! What holds of devices and queues in worked runs.
use wdf_base::{Declared, ObjectId, Plan};
use wdf_spans::{Band, BandOf, BandPiece, Standing};

/// What holds, from, to.
pub type Holds = (Standing, u32, u32);

/// What is due of a band of a run: of a device, or of a queue.
pub struct Due {
    pub name: &'static str,
    pub object: u32,
    pub band: Band,
    pub holds: &'static [Holds],
}

pub static OF_PROCESSORS: [Due; 5] = [
    Due {
        name: "deadlock",
        object: 2,
        band: Band::Phase,
        holds: &[(Standing::Off, 0, 23), (Standing::Working, 23, 29)],
    },
    Due {
        name: "deadlock",
        object: 2,
        band: Band::Power,
        holds: &[(Standing::Unpowered, 0, 11), (Standing::Powered, 11, 29)],
    },
    Due {
        name: "periodic_timer",
        object: 2,
        band: Band::Phase,
        holds: &[(Standing::Off, 0, 26), (Standing::Working, 26, 36)],
    },
    Due {
        name: "periodic_timer",
        object: 2,
        band: Band::Power,
        holds: &[(Standing::Unpowered, 0, 17), (Standing::Powered, 17, 36)],
    },
    Due {
        name: "periodic_timer",
        object: 2,
        band: Band::Delivery,
        holds: &[(Standing::QueuesDown, 0, 25), (Standing::QueuesUp, 25, 36)],
    },
];

pub static OF_POWER: [Due; 4] = [
    Due {
        name: "sleep_and_wake",
        object: 2,
        band: Band::Phase,
        holds: &[
            (Standing::Working, 0, 42),
            (Standing::Sleeping, 42, 56),
            (Standing::Working, 56, 61),
        ],
    },
    Due {
        name: "sleep_and_wake",
        object: 2,
        band: Band::Power,
        holds: &[
            (Standing::Powered, 0, 40),
            (Standing::Unpowered, 40, 47),
            (Standing::Powered, 47, 61),
        ],
    },
    Due {
        name: "sleep_and_wake",
        object: 2,
        band: Band::Delivery,
        holds: &[
            (Standing::QueuesUp, 0, 20),
            (Standing::QueuesDown, 20, 47),
            (Standing::QueuesUp, 47, 61),
        ],
    },
    Due {
        name: "sleep_and_wake",
        object: 3,
        band: Band::Mode,
        holds: &[(Standing::Started, 0, 61)],
    },
];

pub static OF_REQUESTS: [Due; 3] = [
    Due {
        name: "one_read",
        object: 2,
        band: Band::Phase,
        holds: &[(Standing::Working, 0, 6)],
    },
    Due {
        name: "returned_by_cancel",
        object: 3,
        band: Band::Mode,
        holds: &[(Standing::Started, 0, 2), (Standing::Stopped, 2, 11)],
    },
    Due {
        name: "purged",
        object: 4,
        band: Band::Mode,
        holds: &[
            (Standing::Started, 0, 18),
            (Standing::Purged, 18, 31),
            (Standing::Started, 31, 41),
        ],
    },
];

/// The band that is meant.
pub fn band_of(plan: &Plan, due: &Due) -> Option<BandOf> {
    let object = ObjectId(due.object);
    if due.object == 0 || due.object > plan.declared_len() {
        return None;
    }
    match plan.declared(object) {
        Declared::Device(device) => Some(BandOf::of_device(due.band, object, device.working)),
        Declared::Queue(queue) => Some(BandOf::of_queue(object, queue.device)),
        _ => None,
    }
}

fn holding_of(piece: &BandPiece) -> Holds {
    (piece.standing, piece.from, piece.to)
}

/// Whether the pieces of a band are as due.
pub fn band_as(found: &[BandPiece], due: &[Holds]) -> bool {
    found.len() == due.len()
        && found
            .iter()
            .zip(due.iter())
            .all(|(a, b)| holding_of(a) == *b)
}
