//! The tokens of a line: what each word names, the tokens that a line's bytes are, the bytes of tokens.
//!
//! # Choices
//!
//! - **Names above 32 bytes.** Two callback names are longer: `EvtDeviceD0EntryPostInterruptsEnabled` and
//!   `EvtDeviceD0ExitPreInterruptsDisabled`. Exactly these two words are tokens at their length, with a variant of
//!   their own (`Token::LongName`), since a `Name` has 32 bytes at most. Where no callback name may come they make
//!   the line a BadLine. Every other name above 32 bytes is a BadToken at its first byte.
//! - **Tokens are taken greedily.** `1a` is the number 1 and the name `a`; `===` is `==` and `=`; `!` without `=`
//!   after it is a BadToken. A byte that no text has counts inside a comment too. A leading zero is allowed and goes
//!   away in the canonical form.
//! - **What is a column where no token begins?** One to which whole pieces lead, each as long as it can be: that is
//!   how tokens are cut. `crates/wdf_tokens/specs/Tokens.antt` says what such a piece is; the relation uses it and no
//!   fold over the line.
//! - **How is a keyword found?** Among those with the word's first letter. The proof that each keyword is found fails
//!   where one isn't listed for its letter.
#![tactic(auto)]

mod keyword;
mod laws;
mod lexer;
mod named;
mod token;
mod token_texts;
mod word_tokens;

pub use keyword::Keyword;
pub use laws::spelled_tokens_are_read;
pub use lexer::{LexError, TokenFault, is_blank, is_plain, line_len, read_tokens};
pub use named::{
    access_named, ask_named, call_named, callback_named, context_named, deferred_kind_named,
    form_named, keyword_named, level_named, plain_kind_named, scope_named, status_named,
};
pub use token::Token;
pub use token_texts::push_line;
pub use word_tokens::{
    access_token, ask_token, call_token, callback_token, context_token, deferred_kind_token,
    form_token, keyword_token, level_token, plain_kind_token, scope_token, status_token,
};
