//! The scripts of a plan, with their statements.
ghost use Rattle.std.specs.Prelude.{◌≡◌, ◌++◌, [], ◌+◌, ◌<◌, ◌^◌, ◌-◌, IfOk, IfSome, OnOk, length, drop, take};
ghost use Rattle.std.specs.Option.{option_to_list};
ghost use Rattle.wdf_plan.specs.Fitting.{IsFitDeclared, IsFitScript, IsFitStatement};
ghost use Rattle.wdf_refusals.specs.Numbered.{Every};
ghost use Rattle.wdf_blocks.specs.Placed.{placed};
ghost use Rattle.wdf_plan.specs.Scripts as scripts;

use crate::course::{Detour, Nest};
use crate::objects::object_of;
use crate::scripts::{Round, detours_after, ends_callback, nests_after, statement_on};
use std::alloc::Global;
use wdf_base::{Declared, Items, MANY, Memory, Script, Statement};
use wdf_blocks::block::form_at;
use wdf_blocks::declaration::Wanted;
use wdf_blocks::placed::Placed;
use wdf_blocks::variables::{Variables, variables_of};
use wdf_refusals::heritage::Heritage;
use wdf_refusals::names::Names;
use wdf_refusals::numbers::{add_found, number_of};
use wdf_refusals::part::Part;
use wdf_scene::{NumberedLine, Scene, SceneLine};

// Adds the statement of a line, and gives the ways that are kept after it.
fn add_statement(
    alloc: Global,
    names: &Names,
    variables: &Variables,
    round: &Round,
    line: &NumberedLine,
    statements: &mut Items<Statement, MANY>,
) -> Result<Vec<Detour>, Memory>
    requires lines { length round.now.lines.now < 2 ^ 32 }
    requires number { round.now.number < 2 ^ 32 }
    requires kept { scripts.AreDetours 0 round.now.open_before.now round.now.lines.now round.now.detours.now }
    requires each { length round.now.detours.now ≡ length round.now.open_before.now }
    requires after { round.now.open_after.now ≡ scripts.nests_after round.now.open_before.now round.now.number line.now.number line.now.form }
    requires fits { IfSome (scripts.statement_on names.now variables.now round.now.open_before.now round.now.open_after.now round.now.number line.now (drop round.now.from round.now.lines.now)) IsFitStatement }
    requires room { length (statements.old ++ option_to_list (scripts.statement_on names.now variables.now round.now.open_before.now round.now.open_after.now round.now.number line.now (drop round.now.from round.now.lines.now))) < 2 ^ 32 }
    ensures added { OnOk result (statements.new ≡ statements.old ++ option_to_list (scripts.statement_on names.now variables.now round.now.open_before.now round.now.open_after.now round.now.number line.now (drop round.now.from round.now.lines.now))) }
    ensures kept { IfOk result (λ v. scripts.AreDetours 0 round.now.open_after.now round.now.lines.now v.items) }
    ensures each { IfOk result (λ v. length v.items ≡ length round.now.open_after.now) }
{
    let detours = detours_after(alloc, round, line)?;
    let round = Round {
        detours: detours.as_slice(),
        ..*round
    };
    add_found(statements, statement_on(names, variables, &round, line))?;
    Ok(detours)
}

fn statements_from(
    alloc: Global,
    names: &Names,
    variables: &Variables,
    lines: &[NumberedLine],
    from: u32,
) -> Result<Items<Statement, MANY>, Memory>
    requires lines { length lines.now < 2 ^ 32 }
    requires fit { Every IsFitStatement (scripts.statements_from names.now variables.now [] 0 (drop from lines.now)) }
    requires room { length (scripts.statements_from names.now variables.now [] 0 (drop from lines.now)) < 2 ^ 32 }
    ensures { IfOk result (λ s. s ≡ scripts.statements_from names.now variables.now [] 0 (drop from lines.now)) }
{
    let mut statements = Items::new(alloc);
    let mut blocks: Vec<Nest> = Vec::new(alloc);
    let mut detours: Vec<Detour> = Vec::new(alloc);
    let mut at = from;
    while (at as usize) < lines.len() {
        let line = &lines[at as usize];
        let open = blocks.as_slice();
        if ends_callback(open, &line.form) {
            return Ok(statements);
        }
        let number = u64::from(statements.len());
        let after = nests_after(alloc, open, number, line.number, &line.form)?;
        let round = Round {
            open_before: open,
            open_after: after.as_slice(),
            detours: detours.as_slice(),
            number,
            lines,
            from: at + 1,
        };
        detours = add_statement(alloc, names, variables, &round, line, &mut statements)?;
        blocks = after;
        at += 1;
    }
    Ok(statements)
}

/// The statements of the callback that line `callback` begins.
pub fn statements_of(
    alloc: Global,
    scene: &Scene,
    names: &Names,
    callback: u32,
) -> Result<Items<Statement, MANY>, Memory>
    requires fit { Every IsFitStatement (scripts.statements_of scene.now names.now callback) }
    requires room { length (scripts.statements_of scene.now names.now callback) < 2 ^ 32 }
    ensures { IfOk result (λ s. s ≡ scripts.statements_of scene.now names.now callback) }
{
    let variables = variables_of(alloc, scene, callback)?;
    let lines = scene.lines.as_slice();
    if (callback as usize) < lines.len() {
        statements_from(alloc, names, &variables, lines, callback + 1)
    } else {
        Ok(Items::new(alloc))
    }
}

#[tactic(auto, unfolding(crate::specs::Scripts::block_owner))]
fn block_owner(
    heritage: &Heritage,
    names: &Names,
    placed: &Placed,
    block: u32,
    form: &SceneLine,
) -> Option<Declared>
    requires device { placed.now.counts.device + 2 < 2 ^ 32 }
    requires fits { IfSome (scripts.block_owner heritage.now names.now placed.now block form.now) IsFitDeclared }
    ensures { result ≡ scripts.block_owner heritage.now names.now placed.now block form.now }
{
    match form {
        SceneLine::Class { name, kind } => Some(Declared::OfClass(
            number_of(names, name, Wanted::ClassOf(kind.kind())) as u16,
        )),
        SceneLine::DeferredClass { name, kind, .. } => Some(Declared::OfClass(
            number_of(names, name, Wanted::ClassOf(kind.kind())) as u16,
        )),
        _ => object_of(heritage, names, placed, block, form),
    }
}

#[tactic(auto, unfolding(crate::specs::Scripts::owner_of))]
fn owner_of(
    heritage: &Heritage,
    names: &Names,
    placed: &Placed,
    block: Option<u32>,
) -> Option<Declared>
    requires device { placed.now.counts.device + 2 < 2 ^ 32 }
    requires fits { IfSome (scripts.owner_of heritage.now names.now placed.now block) IsFitDeclared }
    ensures { result ≡ scripts.owner_of heritage.now names.now placed.now block }
{
    match block {
        Some(block) => match form_at(heritage.scene(), block) {
            Some(form) => block_owner(heritage, names, placed, block, &form),
            None => None,
        },
        None => None,
    }
}

#[tactic(auto, unfolding(crate::specs::Scripts::script_on))]
fn script_on(
    alloc: Global,
    heritage: &Heritage,
    names: &Names,
    placed: &Placed,
    form: &SceneLine,
) -> Result<Option<Script>, Memory>
    requires device { placed.now.counts.device + 2 < 2 ^ 32 }
    requires fits { IfSome (scripts.script_on heritage.now names.now placed.now form.now) IsFitScript }
    ensures { IfOk result (λ s. s ≡ scripts.script_on heritage.now names.now placed.now form.now) }
{
    match form {
        SceneLine::On { callback } => {
            match owner_of(heritage, names, placed, placed.stand.block) {
                Some(owner) => {
                    let statements = statements_of(alloc, heritage.scene(), names, placed.at)?;
                    Ok(Some(Script {
                        callback: *callback,
                        owner,
                        line: placed.number,
                        statements,
                    }))
                }
                None => Ok(None),
            }
        }
        _ => Ok(None),
    }
}

/// The scripts.
#[derive(Drop)]
pub struct Scripts<'a> {
    pub alloc: Global,
    pub heritage: &'a Heritage<'a>,
    pub names: &'a Names,
}

impl Part for Scripts<'_> {
    type Item = Script;

    ghost part = { λ s p. scripts.script_on s.heritage.now s.names.now p p.form };

    ghost fits = { λ s p. (p.counts.device + 2 < 2 ^ 32) × IfSome (scripts.script_on s.heritage.now s.names.now p p.form) IsFitScript };

    fn take(&self, line: &Placed) -> Result<Option<Script>, Memory> {
        script_on(self.alloc, self.heritage, self.names, line, &line.form)
    }
}
