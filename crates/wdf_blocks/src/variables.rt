//! The variables of a callback, by their first assignments.
ghost use Rattle.std.specs.Prelude.{◌≡◌, [], IfOk, OnOk, ◌+◌, ◌<◌, ◌^◌, length, drop};
ghost use Rattle.wdf_blocks.specs.Variables as spec;

use crate::block::{depth_after, ends_block};
use crate::forms::assigned_name;
use indexmap::IndexSet;
use std::alloc::Global;
use std::marker::Model;
use wdf_base::{Memory, Name};
use wdf_scene::{NumberedLine, Scene};

/// The variables of a callback, in the order in which they are first assigned.
#[derive(Drop)]
pub struct Variables {
    names: IndexSet<Name>,
}

impl Model for Variables {
    ghost use Rattle.std.specs.Prelude.{List, ℕ};

    ghost Value = { List (List ℕ) };

    ghost view = { λ v. v.names.keys };
}

impl Variables {
    /// No variable.
    pub fn new(alloc: Global) -> Variables
        ensures { result ≡ [] }
    {
        Variables {
            names: IndexSet::new(alloc),
        }
    }

    fn add(&mut self, name: Name) -> Result<(), Memory>
        ensures { OnOk result (self.new ≡ spec.with_name self.old name) }
    {
        self.names.insert(name)?;
        Ok(())
    }

    fn add_assigned(&mut self, name: Option<Name>) -> Result<(), Memory>
        ensures { OnOk result (self.new ≡ spec.with_assigned self.old name) }
    {
        match name {
            Some(name) => self.add(name),
            None => Ok(()),
        }
    }

    /// The number of a variable, if the name is one.
    #[tactic(auto, unfolding(crate::specs::Variables::variable_number))]
    pub fn number(&self, name: &Name) -> Option<u64>
        ensures { result ≡ spec.variable_number self.now name.now }
    {
        self.names.get_index_of(name).map(|number| number as u64)
    }
}

fn assigned_from(alloc: Global, lines: &[NumberedLine], from: u32) -> Result<Variables, Memory>
    requires { length lines.now < 2 ^ 32 }
    ensures { IfOk result (λ v. v ≡ spec.assigned_from [] 0 (drop from lines.now)) }
{
    let mut variables = Variables::new(alloc);
    let mut depth = 0;
    let mut at = from;
    while (at as usize) < lines.len() {
        let line = &lines[at as usize];
        if ends_block(depth, &line.form) {
            return Ok(variables);
        }
        variables.add_assigned(assigned_name(&line.form))?;
        depth = depth_after(depth, &line.form);
        at += 1;
    }
    Ok(variables)
}

/// The variables of the callback that line `callback` begins.
///
/// # Errors
///
/// [`Memory`] where memory was refused.
pub fn variables_of(alloc: Global, scene: &Scene, callback: u32) -> Result<Variables, Memory>
    ensures { IfOk result (λ v. v ≡ spec.variables scene.now callback) }
{
    let lines = scene.lines.as_slice();
    if (callback as usize) < lines.len() {
        assigned_from(alloc, lines, callback + 1)
    } else {
        Ok(Variables::new(alloc))
    }
}

#[tactic(auto, unfolding(crate::specs::Variables::variables_in))]
fn variables_in(alloc: Global, scene: &Scene, callback: Option<u32>) -> Result<Variables, Memory>
    ensures { IfOk result (λ v. v ≡ spec.variables_in scene.now callback) }
{
    match callback {
        Some(callback) => variables_of(alloc, scene, callback),
        None => Ok(Variables::new(alloc)),
    }
}

/// The variables of the callback `next`, where `variables` are those of the callback `last`.
///
/// # Errors
///
/// [`Memory`] where memory was refused.
pub fn entered(
    alloc: Global,
    scene: &Scene,
    last: Option<u32>,
    variables: Variables,
    next: Option<u32>,
) -> Result<Variables, Memory>
    requires { variables ≡ spec.variables_in scene.now last }
    ensures { IfOk result (λ v. v ≡ spec.variables_in scene.now next) }
{
    if last == next {
        return Ok(variables);
    }
    variables_in(alloc, scene, next)
}
