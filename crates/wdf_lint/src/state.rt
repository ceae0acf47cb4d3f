ghost use Rattle.std.specs.Prelude.{nat_eq};
ghost use Rattle.std.specs.Cmp.{partial_equiv_from_equiv};
ghost use Rattle.std.specs.Cmp.Lexicographic.{pointwise, nat_list_eq_equiv};
ghost use Rattle.std.specs.Cmp.Rules.{hashing};
ghost use Rattle.std.specs.Hash as fed;
ghost use Rattle.std.proofs.Common.{rules};
ghost use Rattle.std.specs.Prelude.{◌≡◌, filter, nat_lt, not};
ghost use Rattle.wdf_model.specs.Tables.{without};
ghost use Rattle.wdf_lint.specs.Steps.{joined};

use std::alloc::Global;
use std::hash::{Hash, Hasher};
use std::marker::Model;
use wdf_base::{Memory, Status, VARIABLES};

/// What a walk knows of a variable.
#[derive(Clone, Copy, PartialEq, Eq, Hash)]
pub enum Known {
    Unknown,
    /// The number 0.
    Zero,
    /// The number 1.
    One,
    Stat(Status),
}

/// What the callback has of its request.
#[derive(Clone, Copy, PartialEq, Eq, Hash)]
pub enum Hold {
    Own,
    Marked,
    Away,
    Stop,
}

/// The spin or wait lock that the callback has acquired.
#[derive(Clone, Copy, PartialEq, Eq, Hash)]
pub enum HeldLock {
    Free,
    In(u8),
    Lost,
}

fn drop_after(ids: &mut Vec<u32>, id: u32)
    ensures { ids.new.items ≡ filter (λ other. not (nat_lt id other)) ids.old.items }
{
    ids.retain(|other| *other <= id);
}

fn keep_after(ids: &mut Vec<u32>, id: u32)
    ensures { ids.new.items ≡ filter (λ other. nat_lt id other) ids.old.items }
{
    ids.retain(|other| id < *other);
}

fn drop_id(ids: &mut Vec<u32>, id: u32)
    ensures { ids.new.items ≡ without id ids.old.items }
{
    ids.retain(|other| *other != id);
}

/// Ids of interrupts, rising.
#[derive(Drop)]
pub struct Ids {
    ids: Vec<u32>,
}

impl Model for Ids {
    ghost use Rattle.std.specs.Prelude.{List, ℕ};

    ghost Value = { List ℕ };

    ghost view = { λ s. s.ids.items };
}

impl Ids {
    ghost use Rattle.std.specs.Prelude.{◌≡◌, ◌==◌, [], length, IfOk};
    ghost use Rattle.wdf_model.specs.Tables.{contains};

    /// No id.
    pub fn new(alloc: Global) -> Ids
        ensures { result ≡ [] }
    {
        Ids {
            ids: Vec::new(alloc),
        }
    }

    /// The same ids once more.
    pub fn copy(&self, alloc: Global) -> Result<Ids, Memory>
        ensures { IfOk result (λ s. s ≡ self.now) }
    {
        let mut ids = Vec::new(alloc);
        ids.extend_from_slice(self.ids.as_slice())?;
        Ok(Ids { ids })
    }

    /// Whether there is none.
    pub fn is_empty(&self) -> bool
        ensures { result ≡ (length self.now == 0) }
    {
        self.ids.is_empty()
    }

    /// Whether an id is among them.
    pub fn has(&self, id: u32) -> bool
        ensures { result ≡ contains id self.now }
    {
        self.ids.iter().any(|other| *other == id)
    }

    /// The ids with one more.
    pub fn with(&self, alloc: Global, id: u32) -> Result<Ids, Memory>
        ensures { IfOk result (λ s. s ≡ joined id self.now) }
    {
        let mut ids = Vec::new(alloc);
        ids.extend_from_slice(self.ids.as_slice())?;
        drop_after(&mut ids, id);
        ids.push(id)?;
        let mut later = Vec::new(alloc);
        later.extend_from_slice(self.ids.as_slice())?;
        keep_after(&mut later, id);
        ids.extend_from_slice(later.as_slice())?;
        Ok(Ids { ids })
    }

    /// The ids without one.
    pub fn without(&self, alloc: Global, id: u32) -> Result<Ids, Memory>
        ensures { IfOk result (λ s. s ≡ without id self.now) }
    {
        let mut ids = Vec::new(alloc);
        ids.extend_from_slice(self.ids.as_slice())?;
        drop_id(&mut ids, id);
        Ok(Ids { ids })
    }
}

impl PartialEq for Ids {
    ghost eq = { pointwise nat_eq };

    ghost laws = { partial_equiv_from_equiv nat_list_eq_equiv };

    fn eq(&self, other: &Ids) -> bool {
        self.ids.as_slice() == other.ids.as_slice()
    }
}

impl Eq for Ids {
    ghost laws = { nat_list_eq_equiv };
}

impl Hash for Ids {
    ghost hash_input = { λ n. fed.slice fed.u32 n };

    ghost respects_eq = { Prim.search (hashing, rules) };

    fn hash<H: Hasher>(&self, state: &mut H) {
        self.ids.as_slice().hash(state);
    }
}

/// An abstract state of a callback.
#[derive(PartialEq, Eq, Hash, Drop)]
pub struct Abstract {
    pub at: u32,
    pub variables: [Known; VARIABLES],
    pub hold: Hold,
    pub acknowledged: bool,
    pub lock: HeldLock,
    pub interrupts: Ids,
}

impl Abstract {
    ghost use Rattle.std.specs.Prelude.{◌≡◌, IfOk};

    /// The same state once more.
    pub fn copy(&self, alloc: Global) -> Result<Abstract, Memory>
        ensures { IfOk result (λ a. a ≡ self.now) }
    {
        Ok(Abstract {
            at: self.at,
            variables: self.variables,
            hold: self.hold,
            acknowledged: self.acknowledged,
            lock: self.lock,
            interrupts: self.interrupts.copy(alloc)?,
        })
    }
}
