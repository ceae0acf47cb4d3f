//! The text of a page: markup of the program's own, numbers, and text from outside, which is escaped.
//!
//! # Choices
//!
//! - **How does text of a trace or a scenario reach a page?** Only by [`Page::text`], which escapes it. [`Page::markup`]
//!   takes text that lives as long as the program, and that is what the program itself has written down.
//! - **What does escaping do?** Each of the five marks `< > & " '` becomes its entity. So what is added has none of them
//!   but the `&` that an entity begins with, and a browser reads it as the text that was given.
#![tactic(auto)]

mod page;

pub use page::Page;
