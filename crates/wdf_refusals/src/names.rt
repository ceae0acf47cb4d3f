//! The names that a scene declares, with what each is.
ghost use Rattle.std.specs.Prelude.{◌≡◌, IsTrue, ◌++◌, ◌∷◌, [], ◌+◌, is_ok, if◌then◌else◌, find, drop, IfSome, ◌<◌, ◌^◌, length, List, ℕ, OnOk, OnErr, slice_get};
ghost use Rattle.indexmap.specs.IndexMap.{get, IsUnchanged};
ghost use Rattle.wdf_refusals.specs.Names.{or_last, passes_at, place_from};
ghost use Rattle.std.specs.Str.{bytes_eq};
ghost use Rattle.wdf_blocks.specs.Declarations as spec;
ghost use Rattle.wdf_refusals.specs.Numbered.{HasFitOrder};

use indexmap::IndexMap;
use std::alloc::Global;
use std::marker::Model;
use wdf_base::{Memory, Name};
use wdf_blocks::declaration::{Declaration, Wanted};

/// A name, and what a place in the text needs it to stand for.
#[derive(Clone, Copy, PartialEq, Eq, Hash)]
struct Use {
    name: Name,
    wanted: Wanted,
}

/// The declarations of a scene, found by name.
#[derive(Drop)]
pub struct Names {
    declarations: Vec<Declaration>,
    /// The place of each name's first declaration.
    first: IndexMap<Name, u32>,
    /// The place of a declaration for each use that has one. It saves a search, and is tested before it is used.
    known: IndexMap<Use, u32>,
}

impl Model for Names {
    ghost use Rattle.std.specs.Prelude.{List};
    ghost use Rattle.wdf_blocks.specs.declared.declaration.Declaration.{Declaration};
    ghost use Rattle.wdf_refusals.specs.Numbered.{AreNumbered};
    ghost use Rattle.wdf_refusals.specs.Names.{IsIndexed};

    ghost Value = { List Declaration };

    ghost view = { λ n. n.declarations.items };

    ghost invariant = { λ n. IsIndexed n.first n.declarations.items × AreNumbered n.declarations.items };
}

impl Names {
    /// No declaration.
    pub fn new(alloc: Global) -> Names
        ensures { result ≡ [] }
    {
        Names {
            declarations: Vec::new(alloc),
            first: IndexMap::new(alloc),
            known: IndexMap::new(alloc),
        }
    }

    /// Adds a declaration after the others. Where there is no memory they stay as they were.
    pub fn add(&mut self, declaration: Declaration) -> Result<(), Memory>
        requires order { HasFitOrder declaration }
        requires room { length self.old + 3 < 2 ^ 32 }
        ensures { self.new ≡ (if is_ok result then self.old ++ declaration ∷ [] else self.old) }
    {
        let at = self.declarations.as_slice().len();
        self.declarations.reserve(1)?;
        learn(&mut self.known, &declaration, at as u32)?;
        note(&mut self.first, declaration.name, at as u32)?;
        self.declarations.push_reserved(declaration);
        Ok(())
    }

    /// The declarations in the order of their lines.
    pub fn as_slice(&self) -> &[Declaration]
        ensures value { result.now ≡ self.now }
        ensures small { length result.now + 2 < 2 ^ 32 }
    {
        self.declarations.as_slice()
    }

    /// The first declaration of a name.
    pub fn first(&self, name: &Name) -> Option<Declaration>
        ensures { result ≡ find (spec.has_name name.now) self.now }
    {
        match self.first.get(name) {
            Some(at) => item(self.declarations.as_slice(), *at as usize),
            None => None,
        }
    }

    /// The place of the first declaration of a name.
    pub fn place(&self, name: &Name) -> Option<u32>
        ensures value { result ≡ place_from (spec.has_name name.now) 0 self.now }
        ensures small { IfSome result (λ k. k + 2 < 2 ^ 32) }
    {
        self.first.get(name).copied()
    }

    /// The first declaration of a name that is what a place in the text needs.
    pub fn found(&self, name: &Name, wanted: Wanted) -> Option<Declaration>
        ensures value { result ≡ spec.found self.now name.now wanted }
        ensures small { IfSome result HasFitOrder }
    {
        self.found_after(self.place(name), name, wanted)
    }

    /// What `found` answers, where the place of the name's first declaration is known.
    pub fn found_after(
        &self,
        place: Option<u32>,
        name: &Name,
        wanted: Wanted,
    ) -> Option<Declaration>
        requires { place ≡ place_from (spec.has_name name.now) 0 self.now }
        ensures value { result ≡ spec.found self.now name.now wanted }
        ensures small { IfSome result HasFitOrder }
    {
        match place {
            Some(at) => found_from(self.declarations.as_slice(), at as usize, name, wanted),
            None => None,
        }
    }

    /// Whether a name stands for what a place in the text needs.
    #[tactic(auto, unfolding(wdf_blocks::specs::Declarations::stands))]
    pub fn stands(&self, name: &Name, wanted: Wanted) -> bool
        ensures { result ≡ spec.stands self.now name.now wanted }
    {
        if self.is_known(name, wanted) {
            return true;
        }
        self.found(name, wanted).is_some()
    }

    // Whether the declaration that is known for a use is what its place needs.
    fn is_known(&self, name: &Name, wanted: Wanted) -> bool
        ensures { IsTrue result → IsTrue (spec.stands self.now name.now wanted) }
    {
        let known = self.known.get(&Use {
            name: *name,
            wanted,
        });
        match known {
            Some(at) => { is_wanted_at(self.declarations.as_slice(), *at as usize, name, wanted) }
            None => false,
        }
    }
}

fn is_wanted_at(declarations: &[Declaration], at: usize, name: &Name, wanted: Wanted) -> bool
    ensures { result ≡ passes_at (spec.is_wanted name.now wanted) declarations.now at }
{
    match item(declarations, at) {
        Some(declaration) => is_wanted(&declaration, name, wanted),
        None => false,
    }
}

// Keeps the place of a declaration for each use that it has.
fn learn(known: &mut IndexMap<Use, u32>, declaration: &Declaration, at: u32) -> Result<(), Memory> {
    let name = declaration.name;
    let [first, second, third] = declaration.uses();
    known.insert(
        Use {
            name,
            wanted: first,
        },
        at,
    )?;
    known.insert(
        Use {
            name,
            wanted: second,
        },
        at,
    )?;
    known.insert(
        Use {
            name,
            wanted: third,
        },
        at,
    )?;
    Ok(())
}

fn item(declarations: &[Declaration], at: usize) -> Option<Declaration>
    ensures { result ≡ slice_get declarations.now at }
{
    declarations.get(at).copied()
}

// The place of a name that has none yet.
fn note(first: &mut IndexMap<Name, u32>, name: Name, at: u32) -> Result<(), Memory>
    ensures ok { OnOk result ((q : List ℕ) → get bytes_eq first.new q ≡ or_last (get bytes_eq first.old q) (bytes_eq name q) at) }
    ensures err { OnErr result (IsUnchanged first.old first.new) }
{
    if first.get(&name).is_some() {
        return Ok(());
    }
    first.insert(name, at)?;
    Ok(())
}

/// Whether a declaration is of this name, and is what a place in the text needs.
pub fn is_wanted(declaration: &Declaration, name: &Name, wanted: Wanted) -> bool
    ensures { result ≡ spec.is_wanted name.now wanted declaration.now }
{
    declaration.name == *name && declaration.suits(wanted)
}

fn rest_from(declarations: &[Declaration], from: usize) -> &[Declaration]
    ensures { result.now ≡ drop from declarations.now }
{
    &declarations[from.min(declarations.len())..]
}

fn found_from(
    declarations: &[Declaration],
    from: usize,
    name: &Name,
    wanted: Wanted,
) -> Option<Declaration>
    ensures { result ≡ find (spec.is_wanted name.now wanted) (drop from declarations.now) }
{
    rest_from(declarations, from)
        .iter()
        .copied()
        .find(|declaration| is_wanted(declaration, name, wanted))
}
