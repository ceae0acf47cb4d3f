//! A seat at a turnstile.
ghost use Rattle.std.specs.Prelude.{◌≡◌, true};
ghost use Rattle.wdf_turn.specs.Tokens.{slots_of, is_settled};

use crate::token::Token;

// The seat of `atomic_table` on which a seat here is built.
pub(crate) type Place<T> = atomic_table::Seat<Option<T>, Token<T>>;

/// A seat at a turnstile. A thread that has one may try to take the value. It is joined into the
/// first seat at the end, and the first one closes the turnstile.
pub struct Seat<T> {
    pub(crate) place: Place<T>,
    pub(crate) number: u32,
    pub(crate) made: u32,
    pub(crate) seats: u32,
    ghost numbered: { place.me.0.number ≡ number },
    ghost counted: { place.me.0.made ≡ made },
    ghost limited: { place.me.0.seats ≡ seats },
    ghost slots: { place.me.1 ≡ slots_of place.me.0.hold },
    ghost settled: { is_settled place.me.0.hold ≡ true },
}
