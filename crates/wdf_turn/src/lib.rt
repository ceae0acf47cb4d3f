//! The turnstile: threads share one value whose history is a list of events, and one of them has it
//! at a time. No call waits, and only `Turn::make` takes memory.
//!
//! # Choices
//!
//! - **How does a seat that was split off know that all were made?** Its token says so: it has no number to give.
//! - **May a seat or a taken value be let go?** No. A seat has to be joined or closed, and a value given back, since
//!   the history would else have a gap.
//! - **How is the length stored?** By an exchange from the length at the taking, which is shown the value. So the
//!   rule of that step can say that the history is the value's from now on. While a seat holds the value nobody else
//!   writes that word, so the exchange finds what it asks for.
//! - **What does a token say of a hold?** That there is none, that the value is out, or that the new length is
//!   stored. Whether the value is in its slot is said by the slots that the seat holds.
//! - **What does a join keep?** The longer of the two lists that were seen. It then loads the length once, which
//!   shows that the shorter one begins the longer; that length is among the looks of the first seat. Of what the
//!   joined seat's looks and failed tries found nothing passes on, since no claim needs it.
#![tactic(auto)]

mod chronicle;
mod held;
mod plays;
mod seat;
mod seating;
mod taking;
mod token;
mod turn;

pub use chronicle::{Chronicle, Gate};
pub use held::{Attempt, Held, Refused};
pub use plays::OneHistory;
pub use seat::Seat;
pub use token::{Hold, Terms, Token};
pub use turn::Turn;
