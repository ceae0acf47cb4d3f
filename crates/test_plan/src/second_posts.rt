//! What devices do, and what all agents post, in the plan of the scenario of version 2.
use crate::answers::part;
use crate::second_text::{BELL, FAST, HI, LO, SLOW, UP};
use wdf_base::{Access, Action, Ask, Plan, Post, PostLine, WhenLine};

static WHENS: [WhenLine; 3] = [
    WhenLine {
        access: Access::Read,
        register: 0,
        action: Action::Set {
            register: 1,
            value: 6,
        },
        after: 4,
        line: 43,
    },
    WhenLine {
        access: Access::Write,
        register: 1,
        action: Action::Raise { interrupt: FAST },
        after: 0,
        line: 77,
    },
    WhenLine {
        access: Access::Read,
        register: 2,
        action: Action::Lower { interrupt: BELL },
        after: 1000,
        line: 118,
    },
];

/// The posts of the Plug and Play manager.
static ASKS: [PostLine; 7] = [
    PostLine {
        tick: 0,
        post: Post::Ask {
            ask: Ask::Start,
            device: LO,
        },
        line: 134,
    },
    PostLine {
        tick: 0,
        post: Post::Ask {
            ask: Ask::Start,
            device: HI,
        },
        line: 135,
    },
    PostLine {
        tick: 50,
        post: Post::Ask {
            ask: Ask::Sleep,
            device: LO,
        },
        line: 136,
    },
    PostLine {
        tick: 60,
        post: Post::Ask {
            ask: Ask::Wake,
            device: LO,
        },
        line: 137,
    },
    PostLine {
        tick: 70,
        post: Post::Ask {
            ask: Ask::Rebalance,
            device: HI,
        },
        line: 138,
    },
    PostLine {
        tick: 80,
        post: Post::Ask {
            ask: Ask::Remove,
            device: LO,
        },
        line: 139,
    },
    PostLine {
        tick: 90,
        post: Post::Ask {
            ask: Ask::Surprise,
            device: UP,
        },
        line: 141,
    },
];

/// What one that posts has, but for the Plug and Play manager.
struct Posting {
    /// The number of its name.
    name: u32,
    /// How many posts.
    count: usize,
}

/// The apps, then the devices, then the targets, each in the order of the text.
static AGENTS: [Posting; 7] = [
    // Ann
    Posting { name: 2, count: 3 },
    // Bob
    Posting { name: 26, count: 2 },
    // Lo
    Posting { name: 8, count: 2 },
    // Hi
    Posting { name: 16, count: 1 },
    // Up
    Posting { name: 22, count: 0 },
    // Wire
    Posting { name: 14, count: 0 },
    // Link
    Posting { name: 18, count: 0 },
];

/// The posts of all of these, one after the other.
static POSTS: [PostLine; 8] = [
    PostLine {
        tick: 0,
        post: Post::Write {
            device: HI,
            length: 12,
        },
        line: 8,
    },
    PostLine {
        tick: 3,
        post: Post::Read {
            device: LO,
            length: 8,
        },
        line: 9,
    },
    PostLine {
        tick: 3,
        post: Post::Cancel { arrival: 2 },
        line: 11,
    },
    PostLine {
        tick: 5,
        post: Post::Control {
            device: UP,
            code: 77,
            length: 3,
        },
        line: 168,
    },
    PostLine {
        tick: 5,
        post: Post::Read {
            device: UP,
            length: 0,
        },
        line: 169,
    },
    PostLine {
        tick: 20,
        post: Post::Act {
            action: Action::Lower { interrupt: SLOW },
        },
        line: 42,
    },
    PostLine {
        tick: 20,
        post: Post::Act {
            action: Action::Set {
                register: 0,
                value: 44,
            },
        },
        line: 78,
    },
    PostLine {
        tick: 7,
        post: Post::Act {
            action: Action::Raise { interrupt: BELL },
        },
        line: 100,
    },
];

/// Whether the `when` lines, and the posts of the Plug and Play manager, are these.
pub fn has_whens_and_asks(plan: &Plan) -> bool {
    plan.whens.as_slice() == WHENS.as_slice() && plan.pnp.as_slice() == ASKS.as_slice()
}

/// Whether each agent has its posts.
pub fn has_agents(plan: &Plan) -> bool {
    let mut from = 0;
    for (agent, due) in plan.agents.as_slice().iter().zip(&AGENTS) {
        if agent.name != due.name || agent.posts.as_slice() != part(&POSTS, from, due.count) {
            return false;
        }
        from = due.count.saturating_add(from);
    }
    plan.agents.len() as usize == AGENTS.len() && from == POSTS.len()
}
