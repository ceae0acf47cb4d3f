//! Where requests are in worked runs, and how many wait in queues or are held from them.
use wdf_spans::{QueuePiece, RequestPiece, RequestSpan, Requests, Told};

/// Where a request is: its id, its place, from, to.
pub type Is = (u32, Told, u32, u32);

/// How many requests wait in a queue and are held from it: its id, the two counts, from, to.
pub type Counts = (u32, u32, u32, u32, u32);

/// A span: the number of the birth, the id of the request, to.
pub type Span = (u32, u32, u32);

/// What is due of the requests of a run.
pub struct Due {
    pub name: &'static str,
    /// In the order in which the pieces end.
    pub is: &'static [Is],
    pub counts: &'static [Counts],
    pub spans: &'static [Span],
}

pub static ONE_READ: Due = Due {
    name: "one_read",
    is: &[
        (4, Told::Queued, 0, 1),
        (4, Told::Owned, 1, 2),
        (4, Told::Done, 2, 6),
    ],
    counts: &[(3, 1, 0, 0, 1), (3, 0, 1, 1, 2), (3, 0, 0, 2, 6)],
    spans: &[(1, 4, 6)],
};

/// The second read goes back into its queue on the way down; the third is completed there.
pub static POWER_DOWN: Due = Due {
    name: "sleep_and_wake",
    is: &[
        (4, Told::Queued, 0, 1),
        (5, Told::Queued, 6, 7),
        (6, Told::Queued, 12, 13),
        (5, Told::Owned, 7, 30),
        (6, Told::Owned, 13, 37),
        (6, Told::Done, 37, 45),
        (4, Told::Owned, 1, 49),
        (5, Told::Queued, 30, 51),
        (5, Told::Owned, 51, 54),
        (4, Told::Done, 49, 60),
        (5, Told::Done, 54, 61),
    ],
    counts: &[
        (3, 1, 0, 0, 1),
        (3, 0, 1, 1, 6),
        (3, 1, 1, 6, 7),
        (3, 0, 2, 7, 12),
        (3, 1, 2, 12, 13),
        (3, 0, 3, 13, 30),
        (3, 1, 2, 30, 37),
        (3, 1, 1, 37, 49),
        (3, 1, 0, 49, 51),
        (3, 0, 1, 51, 54),
        (3, 0, 0, 54, 61),
    ],
    spans: &[(1, 4, 60), (7, 5, 61), (13, 6, 45)],
};

/// A request that the driver gave back is cancelled in its stopped queue.
pub static RETURNED: Due = Due {
    name: "returned_by_cancel",
    is: &[
        (4, Told::Queued, 0, 1),
        (4, Told::Owned, 1, 3),
        (4, Told::Queued, 3, 5),
        (4, Told::Returning, 5, 6),
        (4, Told::Owned, 6, 7),
        (4, Told::Done, 7, 11),
    ],
    counts: &[
        (3, 1, 0, 0, 1),
        (3, 0, 1, 1, 3),
        (3, 1, 0, 3, 5),
        (3, 0, 0, 5, 6),
        (3, 0, 1, 6, 7),
        (3, 0, 0, 7, 11),
    ],
    spans: &[(1, 4, 11)],
};

/// Two requests are forwarded to a manual queue, which is purged.
pub static PURGED: Due = Due {
    name: "purged",
    is: &[
        (5, Told::Queued, 0, 1),
        (5, Told::Owned, 1, 3),
        (6, Told::Queued, 5, 6),
        (6, Told::Owned, 6, 8),
        (7, Told::Queued, 10, 11),
        (7, Told::Owned, 11, 15),
        (5, Told::Queued, 3, 18),
        (6, Told::Queued, 8, 18),
        (5, Told::Returning, 18, 20),
        (5, Told::Owned, 20, 22),
        (6, Told::Returning, 18, 24),
        (6, Told::Owned, 24, 26),
        (5, Told::Done, 22, 37),
        (6, Told::Done, 26, 38),
        (7, Told::Done, 15, 39),
    ],
    counts: &[
        (3, 1, 0, 0, 1),
        (3, 0, 1, 1, 3),
        (4, 0, 0, 0, 3),
        (3, 0, 0, 3, 5),
        (3, 1, 0, 5, 6),
        (3, 0, 1, 6, 8),
        (4, 1, 0, 3, 8),
        (3, 0, 0, 8, 10),
        (3, 1, 0, 10, 11),
        (3, 0, 1, 11, 15),
        (4, 2, 0, 8, 18),
        (4, 0, 0, 18, 20),
        (4, 0, 1, 20, 22),
        (4, 0, 0, 22, 24),
        (4, 0, 1, 24, 26),
        (3, 0, 0, 15, 41),
        (4, 0, 0, 26, 41),
    ],
    spans: &[(1, 5, 37), (6, 6, 38), (11, 7, 39)],
};

fn place_of(piece: &RequestPiece) -> Is {
    (piece.request.id.0, piece.told, piece.from, piece.to)
}

fn counts_of(piece: &QueuePiece) -> Counts {
    (piece.queue, piece.waiting, piece.held, piece.from, piece.to)
}

fn span_row(span: &RequestSpan) -> Span {
    (span.birth.number, span.birth.request.id.0, span.to)
}

/// Whether requests are where it is due.
fn is_as(found: &[RequestPiece], due: &[Is]) -> bool {
    found.len() == due.len() && found.iter().zip(due.iter()).all(|(a, b)| place_of(a) == *b)
}

/// Whether the counts of queues are as due.
fn counts_as(found: &[QueuePiece], due: &[Counts]) -> bool {
    found.len() == due.len()
        && found
            .iter()
            .zip(due.iter())
            .all(|(a, b)| counts_of(a) == *b)
}

/// Whether the spans of requests are as due.
fn spans_as(found: &[RequestSpan], due: &[Span]) -> bool {
    found.len() == due.len() && found.iter().zip(due.iter()).all(|(a, b)| span_row(a) == *b)
}

/// Whether all that is told of the requests of a run is as due.
pub fn requests_as(requests: &Requests, spans: &[RequestSpan], due: &Due) -> bool {
    is_as(requests.pieces(), due.is)
        && counts_as(requests.queue_pieces(), due.counts)
        && spans_as(spans, due.spans)
}
