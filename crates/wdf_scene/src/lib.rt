//! A scenario as the lines of its text, and the builder of scenes.
//!
//! # Choices
//!
//! - **Is `version 2` a line of the scene?** No. It is the scene's `version`; the canonical text prints the line from
//!   it. A second place for it could disagree.
//! - **What are the words `inherit`?** The absence of a scope or a level: `Scope { scope: None }`. After resolution
//!   no inherit is left.
//! - **One variant for `class` lines?** Two: kinds that have no parent, and kinds with a parent, which may be missing
//!   (the plan refuses that).
//! - **What is a name in an expression?** Statuses and the words `self`, `device`, `request`, `length`, `code`,
//!   `status` are distinguished at once, since no declared thing and no variable may have these names. Any other name
//!   is `Named`, a variable or a declared object.
//! - **Where are the numbers of a `picks` line?** With the line, as a list of its own, so that the form of a line can
//!   be copied.
//! - **Where are missing arguments of a call?** `NoArgument`, so that the count isn't kept twice.
#![tactic(auto)]

mod block;
mod line;
mod scene;
mod scene_builder;
mod words;

pub use block::Block;
pub use line::{
    InterruptLevel, NumberedLine, SceneAction, SceneArg, SceneExpr, SceneLine, StatementHead,
};
pub use scene::Scene;
pub use scene_builder::SceneBuilder;
pub use words::{
    ACCESSES, CONTEXT_WORDS, DEFERRED_KINDS, EXECUTION_LEVELS, OPERATORS, PLAIN_KINDS,
    REQUEST_FORMS, SCOPES, access_from_word, access_word, access_words, context_from_word,
    context_word, context_words, deferred_kind_from_word, deferred_kind_word, deferred_kind_words,
    form_from_word, form_word, form_words, level_from_word, level_word, level_words,
    operator_from_word, operator_word, operator_words, plain_kind_from_word, plain_kind_word,
    plain_kind_words, scope_from_word, scope_word, scope_words,
};
