//! The plan of a scene, or the first reason why it has none.
ghost use Rattle.std.specs.Prelude.{◌≡◌, ◌++◌, ◌∷◌, ◌⊎◌, ◌+◌, ◌<◌, ◌^◌, length, IfOk, IfErr, OnOk, Some, None, MatchResult, codes, map};
ghost use Rattle.wdf_base.specs.Resolved.{IsResolved};
ghost use Rattle.wdf_scene.specs.Naming.{HasProperNames};
ghost use Rattle.wdf_scene.specs.Written.{IsScene};
ghost use Rattle.wdf_blocks.specs.Blocks.{form_at};
ghost use Rattle.wdf_blocks.specs.Declarations.{declarations};
ghost use Rattle.wdf_refusals.specs.First as first;
ghost use Rattle.wdf_plan.specs.Fitting.{CanPlan};
ghost use Rattle.wdf_plan.specs.Plans as plans;

use crate::agents::{AgentSort, Agents, AppPosts, DevicePosts, PnpPosts, Targets};
use crate::nodes::{all_nodes, all_picks};
use crate::objects::{Classes, Objects, Registers, Whens};
use crate::posts::Posted;
use crate::writer::Scripts;
use std::alloc::Global;
use wdf_base::{AgentInfo, Declared, FEW, Items, MANY, Memory, Name, Plan};
use wdf_blocks::block::form_at;
use wdf_blocks::declaration::Declaration;
use wdf_blocks::walk::Lines;
use wdf_refusals::first::{declared, first_refusal};
use wdf_refusals::heritage::Heritage;
use wdf_refusals::names::Names;
use wdf_refusals::part::{gather, gather_after};
use wdf_refusals::refusal::PlanRefusal;
use wdf_scene::{Scene, SceneLine};

#[tactic(auto, unfolding(crate::specs::Plans::header_in))]
fn header_in(form: &SceneLine) -> u64
    ensures { result ≡ plans.header_in form.now }
{
    match form {
        SceneLine::Cpus(n) => *n,
        SceneLine::Limit(n) => *n,
        SceneLine::Objects(n) => *n,
        _ => 0,
    }
}

fn header_at(scene: &Scene, at: u32) -> u64
    ensures { result ≡ plans.header_of (form_at scene.now at) }
{
    match form_at(scene, at) {
        Some(form) => header_in(&form),
        None => 0,
    }
}

fn add_names(all: &[Declaration], names: &mut Items<Name, MANY>) -> Result<(), Memory>
    requires { length names.old + length all.now < 2 ^ 32 }
    ensures { OnOk result (names.new ≡ names.old ++ map plans.name_in all.now) }
{
    for declaration in all {
        names.push(declaration.name)?;
    }
    Ok(())
}

fn all_names(alloc: Global, all: &[Declaration]) -> Result<Items<Name, MANY>, Memory>
    requires { length all.now + 2 < 2 ^ 32 }
    ensures { IfOk result (λ n. n ≡ codes "driver" ∷ codes "req" ∷ map plans.name_in all.now) }
{
    let mut names = Items::new(alloc);
    names.push(Name::new("driver".as_bytes()))?;
    names.push(Name::new("req".as_bytes()))?;
    add_names(all, &mut names)?;
    Ok(names)
}

fn all_objects(
    alloc: Global,
    heritage: &Heritage,
    names: &Names,
) -> Result<Items<Declared, MANY>, Memory>
    requires { CanPlan heritage.now names.now }
    ensures { IfOk result (λ d. d ≡ plans.all_objects heritage.now names.now) }
{
    let mut objects = Items::new(alloc);
    objects.push(Declared::Driver)?;
    gather_after(heritage.lines(), &Objects { heritage, names }, &mut objects)?;
    Ok(objects)
}

fn all_agents(alloc: Global, scene: &Lines, names: &Names) -> Result<Items<AgentInfo, FEW>, Memory>
    requires { CanPlan scene.now names.now }
    ensures { IfOk result (λ a. a ≡ plans.all_agents scene.now names.now) }
{
    let mut agents = Items::new(alloc);
    let posts: Items<Posted, MANY> = gather(alloc, scene, &AppPosts { names })?;
    let apps = Agents {
        alloc,
        sort: AgentSort::App,
        names,
        posts: &posts,
    };
    gather_after(scene, &apps, &mut agents)?;
    let posts: Items<Posted, MANY> = gather(alloc, scene, &DevicePosts { names })?;
    let devices = Agents {
        alloc,
        sort: AgentSort::Device,
        names,
        posts: &posts,
    };
    gather_after(scene, &devices, &mut agents)?;
    gather_after(scene, &Targets { alloc, names }, &mut agents)?;
    Ok(agents)
}

fn plan_with(alloc: Global, heritage: &Heritage, names: &Names) -> Result<Plan, Memory>
    requires { CanPlan heritage.now names.now }
    ensures { IfOk result (λ p. p ≡ plans.plan_with heritage.now names.now) }
{
    let scene = heritage.scene();
    let cpus = header_at(scene, 0) as u8;
    let limit = header_at(scene, 1) as u32;
    let objects = header_at(scene, 2) as u32;
    let all = all_names(alloc, names.as_slice())?;
    let declared = all_objects(alloc, heritage, names)?;
    let lines = heritage.lines();
    let classes = gather(alloc, lines, &Classes { scene, names })?;
    let registers = gather(alloc, lines, &Registers { names })?;
    let whens = gather(alloc, lines, &Whens { names })?;
    let pnp = gather(alloc, lines, &PnpPosts { names })?;
    let exprs = all_nodes(alloc, lines, names)?;
    let picks = all_picks(alloc, scene.lines.as_slice())?;
    // What is dear to let go is made last.
    let agents = all_agents(alloc, lines, names)?;
    let scripts = gather(
        alloc,
        lines,
        &Scripts {
            alloc,
            heritage,
            names,
        },
    )?;
    Ok(Plan {
        cpus,
        limit,
        objects,
        names: all,
        declared,
        classes,
        registers,
        whens,
        pnp,
        agents,
        exprs,
        scripts,
        picks,
    })
}

// The plan of a scene or its first refusal.
#[tactic(auto, unfolding(crate::specs::Plans::plan_of))]
fn plan_or_refusal(
    alloc: Global,
    heritage: &Heritage,
    names: &Names,
) -> Result<Result<Plan, PlanRefusal>, Memory>
    requires scene { IsScene heritage.now }
    requires own { names.now ≡ declarations heritage.now }
    ensures { IfOk result (λ r. MatchResult r (λ p. (first.first_refusal heritage.now ≡ None) × (p ≡ plans.plan_of heritage.now)) (λ e. first.first_refusal heritage.now ≡ Some e)) }
{
    let scene = heritage.scene();
    let _lines = scene.lines.as_slice();
    let _nodes = scene.exprs.as_slice();
    match first_refusal(alloc, heritage, names)? {
        Some(refusal) => Ok(Err(refusal)),
        None => {
            let plan = plan_with(alloc, heritage, names)?;
            Ok(Ok(plan))
        }
    }
}

fn outcome(alloc: Global, scene: &Scene) -> Result<Result<Plan, PlanRefusal>, Memory>
    requires { IsScene scene.now }
    ensures { IfOk result (λ r. MatchResult r (λ p. (first.first_refusal scene.now ≡ None) × (p ≡ plans.plan_of scene.now)) (λ e. first.first_refusal scene.now ≡ Some e)) }
{
    let lines = Lines::new(alloc, scene)?;
    let heritage = Heritage::new(alloc, &lines)?;
    // The names are what is dear to let go.
    let names = declared(alloc, &lines)?;
    plan_or_refusal(alloc, &heritage, &names)
}

/// The plan of a scene that has a text: its names replaced by numbers. Where its names are those of a text too, the
/// plan is resolved: each number is in its range and stands for what its place needs. That each number fits its type
/// is proved of the scenes in which nothing is refused, so no number is turned away for its size.
///
/// # Errors
///
/// Where a line of the scene is refused, the refusal of the first such line, and of several there the
/// first in the order of [`PlanRefusal`]; and [`PlanRefusal::Memory`] where there is no memory.
pub fn resolve(alloc: Global, scene: &Scene) -> Result<Plan, PlanRefusal>
    requires { IsScene scene.now }
    ensures plan { IfOk result (λ p. p ≡ plans.plan_of scene.now) }
    ensures accepted { OnOk result (first.first_refusal scene.now ≡ None) }
    ensures refused { IfErr result (λ e. (e ≡ PlanRefusal.Memory) ⊎ (first.first_refusal scene.now ≡ Some e)) }
    // For a scene whose names are those of a text.
    ensures resolved { HasProperNames scene.now → IfOk result (λ p. IsResolved p) }
{
    match outcome(alloc, scene) {
        Ok(answer) => answer,
        Err(Memory) => Err(PlanRefusal::Memory),
    }
}
