//! The rule of a turnstile, and what each step on its table says.
ghost use Rattle.wdf_turn.specs.Tokens.{first_token, split_off, new_token, joined, spent, Tries, Records, LetsGo, Looks};
ghost use Rattle.wdf_turn.specs.Story.{Kept};

use crate::chronicle::Chronicle;
use crate::token::{Terms, Token};
use atomic_table::{Join, Play, Split, TableRule};

/// One history, of which each seat has seen a beginning, and one holder.
pub struct OneHistory;

impl<T: Chronicle> TableRule<Option<T>, Token<T>, Terms<T>> for OneHistory {
    ghost holds = { λ terms. Kept T.root T.events terms.seats terms.opening.value };

    ghost first = { λ terms. first_token T.events terms.seats terms.opening.value };
}

// A new seat.
pub(crate) struct Cut;

impl<T> Split<Token<T>> for Cut {
    ghost left = { split_off };

    ghost right = { new_token };
}

// A seat that is joined away.
pub(crate) struct Glue;

impl<T> Join<Token<T>> for Glue {
    ghost both = { joined };

    ghost spent = { spent };
}

// The exchange of the holder from 0 to the seat's number.
pub(crate) struct Try;

impl<T: Chronicle> Play<Option<T>, Token<T>> for Try {
    ghost then = { Tries T.root T.events };
}

// The exchange of the length.
pub(crate) struct Record;

impl<T: Chronicle> Play<Option<T>, Token<T>> for Record {
    ghost then = { Records T.events };
}

// The store of 0 to the holder.
pub(crate) struct LetGo;

impl<T> Play<Option<T>, Token<T>> for LetGo {
    ghost then = { LetsGo };
}

// The load of the length.
pub(crate) struct Look;

impl<T> Play<Option<T>, Token<T>> for Look {
    ghost then = { Looks };
}
