//! Posts of agents: which may come, what they answer, and what they do.
//!
//! # Choices
//!
//! - **What of a post that the machine doesn't take?** It stays due and doesn't come, since the core serves any
//!   agents. Such a post names nothing of the plan, or is an arrival where 4,096 requests have come, or a Plug and
//!   Play post for a device whose sequence is under way. Or it is of a form that its agent may not give, or says that
//!   a request is done that isn't at that target.
//! - **Which posts may an agent give?** Any agent posts requests, and cancels of its own: the rule then needs no list
//!   of agents. The manager alone asks a device for a list of steps, a device alone acts on its own registers and
//!   level lines, and a target alone is done with what is sent to it.
#![tactic(auto)]

mod arrivals;
mod cancels;
mod fitting;
mod planned;
mod table;

pub use fitting::post_fits;
pub use table::{due_of, may_post, post_answer, take_post};
