ghost use Rattle.std.specs.Prelude.{◌≡◌, [], IfOk};
ghost use Rattle.wdf_stack.specs.Spans.{forgotten, noted, noted_if_any, span_of};

use std::alloc::Global;
use std::marker::Model;
use wdf_base::Memory;
use wdf_maps::{entry_at, put_at};
use wdf_model::OBJECTS;

/// Between which places of a line the requests are that have some key. Places are counted as if nothing had left the line, or
/// as if only that had which left it at the front.
#[derive(Clone, Copy)]
pub(crate) struct Span {
    /// None of them is before this place, with all that left.
    pub(crate) low: u32,
    /// None of them is at this place or behind it, with what left at the front.
    pub(crate) high: u32,
}

/// The span of a key that nothing has.
const NOWHERE: Span = Span {
    low: u32::MAX,
    high: 0,
};

/// Spans by key. What has a key that no object's id can be may be anywhere.
///
/// Contracts see the list of the spans, as far as keys came. No call but [`Spans::make`] takes memory.
#[derive(Drop)]
pub(crate) struct Spans {
    spans: Vec<Span>,
}

impl Model for Spans {
    ghost use Rattle.std.specs.Prelude.{List, ◌≤◌, vec_capacity};
    ghost use Rattle.wdf_model.specs.declared.room.TheConstants.{OBJECTS};
    ghost use Rattle.wdf_stack.specs.declared.spans.Span.{Span};

    ghost Value = { List Span };

    ghost view = { λ s. s.spans.items };

    ghost invariant = { λ s. OBJECTS ≤ vec_capacity s.spans };
}

impl Spans {
    /// Nothing has a key. It takes room for each id that an object may have. On [`Memory`] nothing is made.
    pub(crate) fn make(alloc: Global) -> Result<Spans, Memory>
        ensures { IfOk result (λ made. made ≡ []) }
    {
        Ok(Spans {
            spans: Vec::with_capacity(alloc, OBJECTS as usize)?,
        })
    }

    /// The span of a key.
    pub(crate) fn of(&self, key: u64) -> Span
        ensures { result ≡ span_of self.now key }
    {
        if key < u64::from(OBJECTS) {
            entry_at(&self.spans, NOWHERE, key as u32)
        } else {
            Span {
                low: 0,
                high: u32::MAX,
            }
        }
    }

    /// What has a key may also be in a span.
    pub(crate) fn note(&mut self, key: u64, span: Span)
        ensures { self.new ≡ noted self.old key span }
    {
        if key < u64::from(OBJECTS) {
            let known = entry_at(&self.spans, NOWHERE, key as u32);
            let joined = Span {
                low: known.low.min(span.low),
                high: known.high.max(span.high),
            };
            put_at(&mut self.spans, NOWHERE, key as u32, joined);
        }
    }

    /// What has a key, if there is one, may also be in a span.
    pub(crate) fn note_if_any(&mut self, key: Option<u64>, span: Span)
        ensures { self.new ≡ noted_if_any self.old key span }
    {
        if let Some(key) = key {
            self.note(key, span);
        }
    }

    /// Nothing has a key any more.
    pub(crate) fn forget(&mut self, key: u64)
        ensures { self.new ≡ forgotten self.old key }
    {
        if key < u64::from(OBJECTS) {
            put_at(&mut self.spans, NOWHERE, key as u32, NOWHERE);
        }
    }
}
