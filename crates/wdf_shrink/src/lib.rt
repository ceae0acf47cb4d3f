//! The run of a seed made plain: picks, as many of them 0 as were found, whose run ends in the same kind and has no more
//! events; and the scenario with these picks.
//!
//! # Choices
//!
//! - **How is it looked for?** First the tail is cut, then blocks of picks are set to 0, larger ones first, then single picks
//!   are halved. What is tried is run, and taken where its run ends as it should.
//! - **How many runs are tried?** At most 500 in each of the three parts, and five more.
//! - **Which picks are left out at the end?** Those after the run's last event, which pick nothing.
//! - **Whose picks are they at first?** The words of the seed, and then the places that they name.
#![tactic(auto)]

mod places;
mod search;
mod story;
mod text;
mod told;

pub use story::story_of_seed;
pub use text::story_text;
