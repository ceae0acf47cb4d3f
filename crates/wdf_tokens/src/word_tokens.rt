//! The tokens of words.
ghost use Rattle.std.specs.Prelude.{◌≡◌, ◌≤◌, length};
ghost use Rattle.wdf_base.specs.Words.{call_word, status_word, ask_word};
ghost use Rattle.wdf_scene.specs.Words.{context_word, access_word, plain_kind_word, deferred_kind_word, scope_word, level_word, form_word};
ghost use Rattle.wdf_tokens.specs.WordTokens.{word, callback_token};

use crate::keyword::Keyword;
use crate::token::Token;
use wdf_base::{
    Access, Ask, CallKind, Callback, ContextWord, DeferredKind, ExecutionLevel, NAME_LIMIT, Name,
    PlainKind, RequestForm, Scope, Status,
};
use wdf_scene::{
    access_word, context_word, deferred_kind_word, form_word, level_word, plain_kind_word,
    scope_word,
};

fn word_token(word: &str) -> Token
    requires { length word.now ≤ 32 }
    ensures { result ≡ Token.Word word.now }
{
    Token::Word(Name::new(word.as_bytes()))
}

/// The token of a keyword.
pub fn keyword_token(keyword: Keyword) -> Token
    ensures { result ≡ word keyword }
{
    word_token(keyword.word())
}

/// The token of a callback's name.
pub fn callback_token(callback: Callback) -> Token
    ensures { result ≡ callback_token callback }
{
    let word = callback.word();
    if word.len() <= NAME_LIMIT {
        word_token(word)
    } else {
        Token::LongName(callback)
    }
}

/// The token of a framework call.
pub fn call_token(x: CallKind) -> Token
    ensures { result ≡ Token.Word (call_word x) }
{
    word_token(x.word())
}

/// The token of a status.
pub fn status_token(x: Status) -> Token
    ensures { result ≡ Token.Word (status_word x) }
{
    word_token(x.word())
}

/// The token of a request to the Plug and Play manager.
pub fn ask_token(x: Ask) -> Token
    ensures { result ≡ Token.Word (ask_word x) }
{
    word_token(x.word())
}

/// The token of a part of the running callback.
pub fn context_token(x: ContextWord) -> Token
    ensures { result ≡ Token.Word (context_word x) }
{
    word_token(context_word(x))
}

/// The token of an access.
pub fn access_token(x: Access) -> Token
    ensures { result ≡ Token.Word (access_word x) }
{
    word_token(access_word(x))
}

/// The token of a kind of class without a parent.
pub fn plain_kind_token(x: PlainKind) -> Token
    ensures { result ≡ Token.Word (plain_kind_word x) }
{
    word_token(plain_kind_word(x))
}

/// The token of a kind of class with a parent.
pub fn deferred_kind_token(x: DeferredKind) -> Token
    ensures { result ≡ Token.Word (deferred_kind_word x) }
{
    word_token(deferred_kind_word(x))
}

/// The token of a scope.
pub fn scope_token(x: Scope) -> Token
    ensures { result ≡ Token.Word (scope_word x) }
{
    word_token(scope_word(x))
}

/// The token of an execution level.
pub fn level_token(x: ExecutionLevel) -> Token
    ensures { result ≡ Token.Word (level_word x) }
{
    word_token(level_word(x))
}

/// The token of a form of requests.
pub fn form_token(x: RequestForm) -> Token
    ensures { result ≡ Token.Word (form_word x) }
{
    word_token(form_word(x))
}
