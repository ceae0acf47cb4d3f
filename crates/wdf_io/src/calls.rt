//! Which calls of a source or a sink in memory are to fail.
ghost use Rattle.std.specs.Prelude.{◌≡◌, ◌≤◌, ◌↔◌, IsTrue};
ghost use Rattle.wdf_io.specs.Memory.{NextFails, served, failed};
ghost use Rattle.wdf_io.specs.Outside.{Rose};

use super::Failed;
use std::marker::Model;

/// The calls so far, and the numbers, from 1, of the calls that fail.
#[derive(Drop)]
pub struct Calls {
    fail_at: Vec<u64>,
    made: u64,
    faults: u64,
}

impl Model for Calls {
    ghost use Rattle.wdf_io.specs.Memory.{Calls as CallsValue};

    ghost Value = { CallsValue };

    ghost view = { λ c. record { fail_at = c.fail_at.items; made = c.made; faults = c.faults } };
}

impl Calls {
    /// No call so far; the calls with these numbers, from 1, fail.
    pub fn new(fail_at: Vec<u64>) -> Calls
        ensures { result ≡ record { fail_at = fail_at.items; made = 0; faults = 0 } }
    {
        Calls {
            fail_at,
            made: 0,
            faults: 0,
        }
    }

    /// Whether the next call is to fail.
    pub fn next_fails(&self) -> bool
        ensures { IsTrue result ↔ NextFails self.now }
    {
        let next = u128::from(self.made) + 1;
        self.fail_at
            .iter()
            .any(|number| u128::from(*number) == next)
    }

    /// Counts a call that did its work.
    pub fn serve(&mut self)
        ensures { self.new ≡ served self.old }
    {
        self.made = self.made.saturating_add(1);
    }

    /// Counts a call that failed, and answers what that call answers.
    pub fn fail(&mut self) -> Failed
        ensures after { self.new ≡ failed self.old }
        ensures rose { Rose self.old.faults self.new.faults }
        ensures never_falls { self.old.faults ≤ self.new.faults }
    {
        self.made = self.made.saturating_add(1);
        self.faults = self.faults.saturating_add(1);
        Failed
    }
}
