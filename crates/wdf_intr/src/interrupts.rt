ghost use Rattle.std.specs.Prelude.{◌≡◌, ◌<◌, IfOk, IsTrue, MatchOption, false};
ghost use Rattle.wdf_model.specs.Tables.{put};
ghost use Rattle.wdf_model.specs.parts.Interrupts as interrupts;
ghost use Rattle.wdf_model.specs.parts.Interrupts.{is_enabled};
ghost use Rattle.wdf_sets.specs.Nexts.{IsNext, NoneFrom};

use std::alloc::Global;
use std::marker::Model;
use wdf_base::{Memory, ObjectId, Plan};
use wdf_model::OBJECTS;
use wdf_sets::IdSet;

/// Which interrupts are enabled. (KMDF)
#[derive(Drop)]
pub struct Interrupts {
    /// Those that are.
    set: IdSet,
    /// An id from which on none was enabled or disabled: the list that contracts see ends before it.
    end: u32,
}

impl Model for Interrupts {
    ghost use Rattle.wdf_model.specs.parts.Interrupts.{Interrupts as Enabled};

    ghost Value = { Enabled };

    ghost use Rattle.wdf_intr.specs.Enabled.{enabled_in, IsSound};

    ghost view = { enabled_in };

    ghost invariant = { IsSound };
}

impl Interrupts {
    /// No interrupt is enabled. It takes all the memory that the interrupts of a run need.
    pub fn make(alloc: Global, _plan: &Plan) -> Result<Interrupts, Memory>
        ensures { IfOk result (λ i. i ≡ interrupts.no_interrupts) }
    {
        Ok(Interrupts {
            set: IdSet::make(alloc, OBJECTS)?,
            end: 0,
        })
    }

    /// No interrupt is enabled once more.
    pub fn begin_again(&mut self)
        ensures { self.new ≡ interrupts.no_interrupts }
    {
        self.set.clear();
        self.end = 0;
    }

    /// Whether an interrupt is enabled.
    pub fn is_enabled(&self, i: ObjectId) -> bool
        ensures value { result ≡ interrupts.is_enabled self.now i.0 }
        ensures there { IsTrue result → i.0 < OBJECTS }
    {
        self.set.contains(i.0)
    }

    /// The first enabled interrupt from an id on that is below an end, found without a look at each id.
    pub fn next_enabled(&self, from: u32, end: u32) -> Option<u32>
        ensures { MatchOption result (NoneFrom (is_enabled self.now) from end) (λ id. IsNext (is_enabled self.now) from end id) }
    {
        self.set.next(from, end)
    }

    /// Whether the service routine of an interrupt is due: its level line is 1 and it is enabled.
    /// (KMDF)
    pub fn isr_due(&self, i: ObjectId, line: bool) -> bool
        ensures { result ≡ interrupts.isr_due self.now i.0 line }
    {
        line && self.is_enabled(i)
    }

    /// Writes whether an interrupt is enabled.
    fn write(&mut self, i: ObjectId, on: bool)
        requires { i.0 < OBJECTS }
        ensures { self.new.enabled ≡ put false self.old.enabled i.0 on }
    {
        self.set.put(i.0, on);
        self.end = self.end.max(i.0 + 1);
    }

    /// An interrupt is enabled.
    pub fn enable(&mut self, i: ObjectId)
        requires room { i.0 < OBJECTS }
        ensures { self.new ≡ interrupts.enable self.old i.0 }
    {
        self.write(i, true);
    }

    /// An interrupt is disabled.
    pub fn disable(&mut self, i: ObjectId)
        requires room { i.0 < OBJECTS }
        ensures { self.new ≡ interrupts.disable self.old i.0 }
    {
        self.write(i, false);
    }
}
