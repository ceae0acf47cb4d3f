//! The first line that is refused, and why.
ghost use Rattle.std.specs.Prelude.{◌≡◌, ◌++◌, ◌+◌, ◌<◌, ◌^◌, length, IfOk, IfSome, OnOk};
ghost use Rattle.std.specs.Option.{option_to_list};
ghost use Rattle.wdf_blocks.specs.Declarations.{declarations};
ghost use Rattle.wdf_refusals.specs.First as spec;
ghost use Rattle.wdf_refusals.specs.Numbered.{HasFitOrder};
ghost use Rattle.wdf_scene.specs.Written.{IsScene};

use crate::heritage::Heritage;
use crate::limit::exceeded;
use crate::names::Names;
use crate::refusal::PlanRefusal;
use crate::twice::twice_named;
use crate::unknown::unknown_name;
use crate::wrong::{incompatible_level, no_parent, wrong_callback};
use std::alloc::Global;
use wdf_base::Memory;
use wdf_blocks::declaration::{Declaration, declared_by};
use wdf_blocks::placed::Placed;
use wdf_blocks::variables::{Variables, entered};
use wdf_blocks::walk::Lines;

#[tactic(auto, unfolding(crate::specs::First::refused))]
fn refused(
    heritage: &Heritage,
    names: &Names,
    variables: &Variables,
    placed: &Placed,
) -> Option<PlanRefusal>
    ensures { result ≡ spec.refused heritage.now names.now variables.now placed.now }
{
    let line = placed.number;
    let scene = heritage.scene();
    if unknown_name(scene, names, variables, placed) {
        return Some(PlanRefusal::UnknownName { line });
    }
    if let Some(first) = twice_named(scene, names, placed) {
        return Some(PlanRefusal::TwiceNamed { line, first });
    }
    if wrong_callback(scene, placed, &placed.form) {
        return Some(PlanRefusal::WrongCallback { line });
    }
    if let Some(limit) = exceeded(names, variables, placed) {
        return Some(PlanRefusal::OverLimit { line, limit });
    }
    if incompatible_level(heritage, names, placed, &placed.form) {
        return Some(PlanRefusal::IncompatibleLevel { line });
    }
    if no_parent(names, &placed.form) {
        return Some(PlanRefusal::NoParent { line });
    }
    None
}

fn add_declared(names: &mut Names, found: Option<Declaration>) -> Result<(), Memory>
    requires order { IfSome found HasFitOrder }
    requires room { length names.old + 3 < 2 ^ 32 }
    ensures { OnOk result (names.new ≡ names.old ++ option_to_list found) }
{
    match found {
        Some(declaration) => names.add(declaration),
        None => Ok(()),
    }
}

/// The declarations of a scene.
///
/// # Errors
///
/// [`Memory`] where memory was refused.
pub fn declared(alloc: Global, scene: &Lines) -> Result<Names, Memory>
    requires { IsScene scene.now }
    ensures { IfOk result (λ n. n ≡ declarations scene.now) }
{
    let _lines = scene.scene().lines.as_slice();
    let mut names = Names::new(alloc);
    let mut walk = scene.walk();
    while let Some(placed) = walk.next() {
        add_declared(&mut names, declared_by(placed, &placed.form))?;
    }
    Ok(names)
}

/// The refusal of the first line that has one.
///
/// # Errors
///
/// [`Memory`] where memory was refused.
pub fn first_refusal(
    alloc: Global,
    heritage: &Heritage,
    names: &Names,
) -> Result<Option<PlanRefusal>, Memory>
    requires { names.now ≡ declarations heritage.now }
    ensures { IfOk result (λ r. r ≡ spec.first_refusal heritage.now) }
{
    let mut callback = None;
    let mut variables = Variables::new(alloc);
    let mut walk = heritage.lines().walk();
    while let Some(placed) = walk.next() {
        let next = placed.stand.callback;
        variables = entered(alloc, heritage.scene(), callback, variables, next)?;
        callback = next;
        match refused(heritage, names, &variables, placed) {
            Some(refusal) => return Ok(Some(refusal)),
            None => {}
        }
    }
    Ok(None)
}
