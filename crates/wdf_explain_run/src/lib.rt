//! The story of the ending of a run on a core: what `wdf_explain` tells is read off the core.
#![tactic(auto)]

mod doing;
mod standing;
mod story;

pub use story::story_of_run;
