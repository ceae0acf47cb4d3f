//! What callbacks do where, in worked runs.
use wdf_spans::{FrameBox, Frames, Phase, Piece, Stay};

/// A piece of a callback in which it runs, waits or is parked: its frame, processor, depth, what it does, from, to.
pub type Does = (u32, u8, u32, Phase, u32, u32);

/// A stay on a processor: frame, processor, depth, from, to.
pub type Stays = (u32, u8, u32, u32, u32);

/// A box: frame, depth, where it first leaves its processor, where it ends.
pub type BoxRow = (u32, u32, u32, u32);

/// What is due of the callbacks of a run.
pub struct Due {
    pub name: &'static str,
    /// In the order in which the pieces end.
    pub does: &'static [Does],
    /// In the order in which the stays end.
    pub stays: &'static [Stays],
    /// In the order of the starts.
    pub boxes: &'static [BoxRow],
    /// How many calls are answered at once.
    pub calls: usize,
}

/// One callback reads, makes one call, and ends.
pub static ONE_READ: Due = Due {
    name: "one_read",
    does: &[(2, 0, 0, Phase::Running, 1, 4)],
    stays: &[(2, 0, 0, 1, 4)],
    boxes: &[(2, 0, 4, 4)],
    calls: 1,
};

/// Two work items wait for one another's lock, each parked: the run ends so.
pub static DEADLOCK: Due = Due {
    name: "deadlock",
    does: &[
        (3, 0, 0, Phase::Running, 2, 12),
        (13, 0, 0, Phase::Running, 12, 25),
        (13, 0, 0, Phase::Waiting, 25, 27),
        (18, 1, 0, Phase::Running, 17, 27),
        (18, 1, 0, Phase::Waiting, 27, 29),
        (13, 0, 0, Phase::Parked, 27, 29),
    ],
    stays: &[(3, 0, 0, 2, 12), (13, 0, 0, 12, 27), (18, 1, 0, 17, 29)],
    boxes: &[(3, 0, 12, 12), (13, 0, 27, 29), (18, 0, 29, 29)],
    calls: 14,
};

/// A timer runs on top of a callback that spends time; a work item is parked on one processor and comes back on the other.
pub static PARK: Due = Due {
    name: "periodic_timer",
    does: &[
        (10, 0, 1, Phase::Running, 9, 14),
        (3, 0, 0, Phase::Running, 2, 18),
        (22, 1, 0, Phase::Running, 21, 23),
        (22, 1, 0, Phase::Waiting, 23, 25),
        (19, 0, 0, Phase::Running, 18, 29),
        (22, 1, 0, Phase::Parked, 25, 29),
        (22, 0, 0, Phase::Waiting, 29, 30),
        (22, 0, 0, Phase::Running, 30, 34),
    ],
    stays: &[
        (10, 0, 1, 9, 14),
        (3, 0, 0, 2, 18),
        (22, 1, 0, 21, 25),
        (19, 0, 0, 18, 29),
        (22, 0, 0, 29, 34),
    ],
    boxes: &[
        (3, 0, 18, 18),
        (10, 1, 14, 14),
        (19, 0, 29, 29),
        (22, 0, 25, 34),
    ],
    calls: 8,
};

/// Three reads are taken, each is asked about on the way down, and two go on after the way up.
pub static POWER_DOWN: Due = Due {
    name: "sleep_and_wake",
    does: &[
        (2, 0, 0, Phase::Running, 1, 6),
        (8, 0, 0, Phase::Running, 7, 12),
        (14, 0, 0, Phase::Running, 13, 18),
        (22, 0, 0, Phase::Running, 21, 27),
        (28, 0, 0, Phase::Running, 27, 33),
        (34, 0, 0, Phase::Running, 33, 39),
        (41, 0, 0, Phase::Running, 40, 42),
        (49, 0, 0, Phase::Running, 48, 51),
        (52, 0, 0, Phase::Running, 51, 56),
    ],
    stays: &[
        (2, 0, 0, 1, 6),
        (8, 0, 0, 7, 12),
        (14, 0, 0, 13, 18),
        (22, 0, 0, 21, 27),
        (28, 0, 0, 27, 33),
        (34, 0, 0, 33, 39),
        (41, 0, 0, 40, 42),
        (49, 0, 0, 48, 51),
        (52, 0, 0, 51, 56),
    ],
    boxes: &[
        (2, 0, 6, 6),
        (8, 0, 12, 12),
        (14, 0, 18, 18),
        (22, 0, 27, 27),
        (28, 0, 33, 33),
        (34, 0, 39, 39),
        (41, 0, 42, 42),
        (49, 0, 51, 51),
        (52, 0, 56, 56),
    ],
    calls: 12,
};

fn doing_of(piece: &Piece) -> Does {
    (
        piece.frame,
        piece.cpu.0,
        piece.depth,
        piece.phase,
        piece.from,
        piece.to,
    )
}

fn stay_of(stay: &Stay) -> Stays {
    (stay.frame, stay.cpu.0, stay.depth, stay.from, stay.to)
}

fn box_row(one: &FrameBox) -> BoxRow {
    (one.begun.number, one.depth, one.stay, one.to)
}

fn is_call(piece: &Piece) -> bool {
    matches!(piece.phase, Phase::Calling)
}

/// Whether the pieces of callbacks are as due, but for calls.
fn does_as(pieces: &[Piece], due: &[Does]) -> bool {
    let mut at: usize = 0;
    for piece in pieces {
        if !is_call(piece) {
            match due.get(at) {
                Some(one) if *one == doing_of(piece) => {}
                _ => return false,
            }
            at = at.saturating_add(1);
        }
    }
    at == due.len()
}

/// Whether as many calls are answered at once as are due.
fn calls_as(pieces: &[Piece], due: usize) -> bool {
    pieces.iter().filter(|piece| is_call(piece)).count() == due
}

/// Whether the stays of callbacks are as due.
fn stays_as(found: &[Stay], due: &[Stays]) -> bool {
    found.len() == due.len() && found.iter().zip(due.iter()).all(|(a, b)| stay_of(a) == *b)
}

/// Whether the boxes are as due.
fn boxes_as(found: &[FrameBox], due: &[BoxRow]) -> bool {
    found.len() == due.len() && found.iter().zip(due.iter()).all(|(a, b)| box_row(a) == *b)
}

/// Whether all that is told of the callbacks of a run is as due.
pub fn frames_as(frames: &Frames, boxes: &[FrameBox], due: &Due) -> bool {
    does_as(frames.pieces(), due.does)
        && calls_as(frames.pieces(), due.calls)
        && stays_as(frames.stays(), due.stays)
        && boxes_as(boxes, due.boxes)
}
