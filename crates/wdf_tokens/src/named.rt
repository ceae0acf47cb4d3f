//! What a word names.
ghost use Rattle.std.specs.Prelude.{◌≡◌};
ghost use Rattle.wdf_tokens.specs.Keywords.{keyword_of};
ghost use Rattle.wdf_tokens.specs.Named.{callback_named, call_named, status_named, ask_named, context_named, access_named, plain_kind_named, deferred_kind_named, scope_named, level_named, form_named};

use crate::keyword::Keyword;
use wdf_base::{
    Access, Ask, CallKind, Callback, ContextWord, DeferredKind, ExecutionLevel, Name, PlainKind,
    RequestForm, Scope, Status,
};
use wdf_scene::{
    access_from_word, context_from_word, deferred_kind_from_word, form_from_word, level_from_word,
    plain_kind_from_word, scope_from_word,
};

/// The keyword with this word.
pub fn keyword_named(word: &Name) -> Option<Keyword>
    ensures { result ≡ keyword_of word.now }
{
    Keyword::from_word(word.bytes())
}

/// The callback with this word.
pub fn callback_named(word: &Name) -> Option<Callback>
    ensures { result ≡ callback_named word.now }
{
    Callback::from_word(word.bytes())
}

/// The framework call with this word.
pub fn call_named(word: &Name) -> Option<CallKind>
    ensures { result ≡ call_named word.now }
{
    CallKind::from_word(word.bytes())
}

/// The status with this word.
#[tactic(auto, unfolding(crate::specs::Named::status_named))]
pub fn status_named(word: &Name) -> Option<Status>
    ensures { result ≡ status_named word.now }
{
    Status::from_word(word.bytes())
}

/// The request to the Plug and Play manager with this word.
#[tactic(auto, unfolding(crate::specs::Named::ask_named))]
pub fn ask_named(word: &Name) -> Option<Ask>
    ensures { result ≡ ask_named word.now }
{
    Ask::from_word(word.bytes())
}

/// The part of the running callback with this word.
#[tactic(auto, unfolding(crate::specs::Named::context_named))]
pub fn context_named(word: &Name) -> Option<ContextWord>
    ensures { result ≡ context_named word.now }
{
    context_from_word(word.bytes())
}

/// The access to a register with this word.
#[tactic(auto, unfolding(crate::specs::Named::access_named))]
pub fn access_named(word: &Name) -> Option<Access>
    ensures { result ≡ access_named word.now }
{
    access_from_word(word.bytes())
}

/// The kind of class without a parent with this word.
#[tactic(auto, unfolding(crate::specs::Named::plain_kind_named))]
pub fn plain_kind_named(word: &Name) -> Option<PlainKind>
    ensures { result ≡ plain_kind_named word.now }
{
    plain_kind_from_word(word.bytes())
}

/// The kind of class with a parent with this word.
#[tactic(auto, unfolding(crate::specs::Named::deferred_kind_named))]
pub fn deferred_kind_named(word: &Name) -> Option<DeferredKind>
    ensures { result ≡ deferred_kind_named word.now }
{
    deferred_kind_from_word(word.bytes())
}

/// The scope with this word.
#[tactic(auto, unfolding(crate::specs::Named::scope_named))]
pub fn scope_named(word: &Name) -> Option<Scope>
    ensures { result ≡ scope_named word.now }
{
    scope_from_word(word.bytes())
}

/// The execution level with this word.
#[tactic(auto, unfolding(crate::specs::Named::level_named))]
pub fn level_named(word: &Name) -> Option<ExecutionLevel>
    ensures { result ≡ level_named word.now }
{
    level_from_word(word.bytes())
}

/// The form of requests with this word.
#[tactic(auto, unfolding(crate::specs::Named::form_named))]
pub fn form_named(word: &Name) -> Option<RequestForm>
    ensures { result ≡ form_named word.now }
{
    form_from_word(word.bytes())
}
