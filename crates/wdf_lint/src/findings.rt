//! Findings, and the list of them that `lint` answers.
ghost use Rattle.std.specs.Prelude.{◌≡◌, ◌<◌, ◌==◌, length, option_map, Some, slice_get};
ghost use Rattle.wdf_lint.specs.Findings as spec;

use crate::lines::Lines;
use std::marker::Model;
use wdf_base::Fault;

/// A finding, and the statement at which it is.
#[derive(Drop)]
pub struct Found {
    pub line: u32,
    /// The number of the rule that is broken, 0 where the callback is too big.
    pub rule: u8,
    pub script: u32,
    pub at: u32,
    pub path: Lines,
}

/// The findings of a plan, in their order.
#[derive(Drop)]
pub struct FindingList {
    found: Vec<Found>,
}

impl Model for FindingList {
    ghost use Rattle.std.specs.Prelude.{List, map};
    ghost use Rattle.wdf_lint.specs.Findings.{Finding};
    ghost use Rattle.wdf_lint.specs.Found.{finding_of};

    ghost Value = { List Finding };

    ghost view = { λ s. map finding_of s.found.items };
}

impl FindingList {
    ghost use Rattle.std.specs.Prelude.{map};
    ghost use Rattle.wdf_lint.specs.Found.{finding_of};

    /// The list of these.
    pub fn new(found: Vec<Found>) -> FindingList
        ensures { result ≡ map finding_of found.items }
    {
        FindingList { found }
    }

    /// How many findings there are.
    pub fn len(&self) -> usize
        ensures { result ≡ length self.now }
    {
        self.found.len()
    }

    /// Whether there is none.
    pub fn is_empty(&self) -> bool
        ensures { result ≡ (length self.now == 0) }
    {
        self.found.is_empty()
    }

    /// The line of finding `k`, counted from 0.
    pub fn line(&self, k: usize) -> u32
        requires { k < length self.now }
        ensures { option_map (λ f. f.line) (slice_get self.now k) ≡ Some result }
    {
        self.found[k].line
    }

    /// The rule that finding `k` breaks: the number of its fault, or 0 where the callback has too many states.
    pub fn rule(&self, k: usize) -> u8
        requires { k < length self.now }
        ensures { option_map (λ f. f.rule) (slice_get self.now k) ≡ Some result }
    {
        self.found[k].rule
    }

    /// The lines of the statements on the way to finding `k`, the first first; none for rule 0.
    pub fn path(&self, k: usize) -> &[u32]
        requires { k < length self.now }
        ensures { option_map (λ f. f.path) (slice_get self.now k) ≡ Some result.now }
    {
        self.found[k].path.as_slice()
    }
}

/// The number of a fault in the table of faults, from 1.
pub fn rule_number(rule: Fault) -> u8
    ensures { result ≡ spec.rule_number rule }
{
    match rule {
        Fault::StaleHandle => 1,
        Fault::WrongKind => 2,
        Fault::IrqlTooHigh => 3,
        Fault::NotOwned => 4,
        Fault::CompleteWhileMarked => 5,
        Fault::CompleteBeforeCancelCallback => 6,
        Fault::MarkedTwice => 7,
        Fault::AckOutsideStop => 8,
        Fault::NoReferenceHeld => 9,
        Fault::DeleteNotAllowed => 10,
        Fault::LockHeldAlready => 11,
        Fault::LockNotHeld => 12,
        Fault::ReturnHoldingLock => 13,
        Fault::HardwareReleased => 14,
        Fault::SyncInOwnScope => 15,
        Fault::ScriptError => 16,
    }
}
