//! What may be expected of a run.
ghost use Rattle.std.specs.Prelude.{◌≡◌};

use crate::pattern::Pattern;
use std::marker::Model;
use wdf_base::Fault;

/// An ending that is expected.
#[derive(Clone, Copy)]
pub enum Wanted {
    /// The run finished.
    Finished,
    /// It came to the limit of events.
    Limit,
    /// It is stuck.
    Stuck,
    /// It ended in this fault, in whatever line.
    Fault { fault: Fault },
    /// It ended in this fault, in this line of the text.
    FaultAt { fault: Fault, line: u64 },
}

/// What is expected of each run.
#[derive(Drop)]
pub enum Rule {
    /// It ends so.
    Expect { wanted: Wanted },
    /// No event matches the pattern.
    Never { pattern: Pattern },
    /// One event matches the pattern.
    Once { pattern: Pattern },
    /// Each event that the first pattern matches has one after it that the next matches.
    After { first: Pattern, next: Pattern },
}

/// A rule, with the line of the text that says it.
#[derive(Drop)]
pub struct Expectation {
    /// The number of the line, from 1 on.
    pub line: u32,
    /// What is expected.
    pub rule: Rule,
}

/// What a comment says of the runs.
#[derive(Drop)]
pub enum Comment {
    /// Nothing: it doesn't begin with `#!`.
    Plain,
    /// It begins with `#!`, and can't be read.
    Unread,
    /// A rule.
    Expects { rule: Rule },
}

/// What a text expects of each run. Contracts see it as a list, in the order of the text.
#[derive(Drop)]
pub struct Expectations {
    list: Vec<Expectation>,
}

impl Model for Expectations {
    ghost use Rattle.std.specs.Prelude.{List};
    ghost use Rattle.wdf_expect.specs.declared.rules.Expectation.{Expectation};

    ghost Value = { List Expectation };

    ghost view = { λ expectations. expectations.list.items };
}

impl Expectations {
    /// These.
    pub(crate) fn new(list: Vec<Expectation>) -> Expectations
        ensures { result ≡ list.items }
    {
        Expectations { list }
    }

    /// The expectations as a slice.
    pub fn as_slice(&self) -> &[Expectation]
        ensures { result.now ≡ self.now }
    {
        self.list.as_slice()
    }
}
