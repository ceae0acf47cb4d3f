//! Expressions, statements and scripts with numbers.
ghost use Rattle.std.specs.Prelude.{◌≡◌, ◌++◌, ◌∷◌, [], ◌+◌, ◌-◌, ◌<◌, ◌^◌, IfOk, IfSome, length, drop, take, count_by, Some};
ghost use Rattle.wdf_plan.specs.Fitting.{IsFitAct, IsFitArgument, IsFitNode, IsFitPlace, IsFitStatement};
ghost use Rattle.wdf_plan.specs.Scripts as scripts;

use crate::course::{Course, Detour, Nest, kept_way, nest_at, reach};
use std::alloc::Global;
use wdf_base::{Act, ArgNode, CallKind, ExprNode, Memory, Name, Sort, Statement};
use wdf_blocks::declaration::Wanted;
use wdf_blocks::forms::is_end;
use wdf_blocks::variables::Variables;
use wdf_refusals::names::Names;
use wdf_refusals::numbers::{handle_of, number_of};
use wdf_scene::{NumberedLine, SceneArg, SceneExpr, SceneLine};

fn named_node(names: &Names, name: &Name, variable: Option<u64>) -> ExprNode
    requires { IsFitNode (scripts.named_node names.now name.now variable) }
    ensures { result ≡ scripts.named_node names.now name.now variable }
{
    match variable {
        Some(number) => ExprNode::Variable(number as u8),
        None => ExprNode::Object(handle_of(names, name, Wanted::Object)),
    }
}

/// A node with numbers in place of names.
#[tactic(auto, unfolding(crate::specs::Scripts::node_of))]
pub fn node_of(names: &Names, variables: &Variables, node: &SceneExpr) -> ExprNode
    requires { IsFitNode (scripts.node_of names.now variables.now node.now) }
    ensures { result ≡ scripts.node_of names.now variables.now node.now }
{
    match node {
        SceneExpr::Number(number) => ExprNode::Number(*number),
        SceneExpr::Named(name) => named_node(names, name, variables.number(name)),
        SceneExpr::Literal(status) => ExprNode::Literal(*status),
        SceneExpr::Context(word) => ExprNode::Context(*word),
        SceneExpr::Binary {
            operator,
            left,
            right,
        } => ExprNode::Binary {
            operator: *operator,
            left: *left,
            right: *right,
        },
    }
}

#[tactic(auto, unfolding(crate::specs::Scripts::variable_of))]
fn variable_of(variables: &Variables, name: &Name) -> u8
    requires { scripts.variable_of variables.now name.now < 2 ^ 8 }
    ensures { result ≡ scripts.variable_of variables.now name.now }
{
    variables.number(name).unwrap_or(0) as u8
}

fn answer_place(variables: &Variables, into: &Option<Name>) -> Option<u8>
    requires { IsFitPlace (scripts.answer_place variables.now into.now) }
    ensures { result ≡ scripts.answer_place variables.now into.now }
{
    match into {
        Some(name) => Some(variable_of(variables, name)),
        None => None,
    }
}

#[tactic(auto, unfolding(crate::specs::Scripts::class_number))]
fn class_number(names: &Names, sort: Sort, name: &Name) -> u32
    ensures { result ≡ scripts.class_number names.now sort name.now }
{
    match sort {
        Sort::Class(kind) => number_of(names, name, Wanted::ClassOf(kind)),
        _ => 0,
    }
}

#[tactic(auto, unfolding(crate::specs::Scripts::argument_of))]
fn argument_of(names: &Names, sort: Sort, arg: &SceneArg) -> ArgNode
    requires { IsFitArgument (scripts.argument_of names.now sort arg.now) }
    ensures { result ≡ scripts.argument_of names.now sort arg.now }
{
    match arg {
        SceneArg::NoArgument => ArgNode::NoArgument,
        SceneArg::Expression(e) => ArgNode::Expression(*e),
        SceneArg::OfClass(name) => ArgNode::OfClass(class_number(names, sort, name) as u16),
    }
}

#[tactic(auto, unfolding(crate::specs::Scripts::plain_act))]
fn call_act(
    names: &Names,
    variables: &Variables,
    kind: CallKind,
    into: &Option<Name>,
    a: &SceneArg,
    b: &SceneArg,
    c: &SceneArg,
) -> Option<Act>
    requires { IfSome (scripts.plain_act names.now variables.now (SceneLine.Call kind into.now a.now b.now c.now)) IsFitAct }
    ensures { result ≡ scripts.plain_act names.now variables.now (SceneLine.Call kind into.now a.now b.now c.now) }
{
    let signature = kind.signature();
    Some(Act::Call {
        kind,
        into: answer_place(variables, into),
        a: argument_of(names, signature.a, a),
        b: argument_of(names, signature.b, b),
        c: argument_of(names, signature.c, c),
    })
}

#[tactic(auto, unfolding(crate::specs::Scripts::plain_act))]
fn plain_act(names: &Names, variables: &Variables, form: &SceneLine) -> Option<Act>
    requires { IfSome (scripts.plain_act names.now variables.now form.now) IsFitAct }
    ensures { result ≡ scripts.plain_act names.now variables.now form.now }
{
    match form {
        SceneLine::Let { variable, value } => Some(Act::Let {
            variable: variable_of(variables, variable),
            value: *value,
        }),
        SceneLine::Call {
            kind,
            into,
            a,
            b,
            c,
        } => call_act(names, variables, *kind, into, a, b, c),
        SceneLine::Get { variable, register } => Some(Act::Get {
            variable: variable_of(variables, variable),
            register: number_of(names, register, Wanted::Register),
        }),
        SceneLine::Put { register, value } => Some(Act::Put {
            register: number_of(names, register, Wanted::Register),
            value: *value,
        }),
        SceneLine::Spend { ticks } => Some(Act::Spend { ticks: *ticks }),
        SceneLine::Log { value } => Some(Act::Log { value: *value }),
        SceneLine::Return { value } => Some(Act::Return { value: *value }),
        _ => None,
    }
}

fn is_loop(block: &Nest) -> bool
    ensures { result ≡ scripts.is_loop block.now }
{
    match block {
        Nest::Branch => false,
        Nest::Loop { .. } => true,
    }
}

#[tactic(auto, unfolding(crate::specs::Scripts::loops))]
fn loops(blocks: &[Nest]) -> u8
    requires { scripts.loops blocks.now < 2 ^ 8 }
    ensures { result ≡ scripts.loops blocks.now }
{
    count_loops(blocks) as u8
}

fn count_loops(blocks: &[Nest]) -> usize
    ensures { result ≡ count_by scripts.is_loop blocks.now }
{
    blocks.iter().filter(|block| is_loop(block)).count()
}

fn outer(blocks: &[Nest]) -> &[Nest]
    ensures { result.now ≡ scripts.outer blocks.now }
{
    &blocks[..blocks.len().saturating_sub(1)]
}

fn again(blocks: &[Nest], innermost: Option<Nest>) -> Option<Act>
    requires { IfSome (scripts.again blocks.now innermost) IsFitAct }
    ensures { result ≡ scripts.again blocks.now innermost }
{
    match innermost {
        Some(block) => again_at(blocks, block),
        None => None,
    }
}

fn again_at(blocks: &[Nest], innermost: Nest) -> Option<Act>
    requires { IfSome (scripts.again blocks.now (Some innermost)) IsFitAct }
    ensures { result ≡ scripts.again blocks.now (Some innermost) }
{
    match innermost {
        Nest::Loop { line: _, number } => Some(Act::Again {
            depth: loops(outer(blocks)),
            body: (number + 1) as u32,
        }),
        Nest::Branch => None,
    }
}

/// The open blocks after a line, whose statement would have this number.
#[tactic(auto, unfolding(crate::specs::Scripts::nests_after))]
pub fn nests_after(
    alloc: Global,
    blocks: &[Nest],
    number: u64,
    line: u32,
    form: &SceneLine,
) -> Result<Vec<Nest>, Memory>
    ensures { IfOk result (λ v. v.items ≡ scripts.nests_after blocks.now number line form.now) }
{
    match form {
        SceneLine::If { .. } => with_block(alloc, blocks, Nest::Branch),
        SceneLine::Repeat { .. } => with_block(alloc, blocks, Nest::Loop { line, number }),
        SceneLine::End => copied(alloc, outer(blocks)),
        _ => copied(alloc, blocks),
    }
}

fn copied(alloc: Global, blocks: &[Nest]) -> Result<Vec<Nest>, Memory>
    ensures { IfOk result (λ v. v.items ≡ blocks.now) }
{
    let all = Vec::from_slice(alloc, blocks)?;
    Ok(all)
}

fn with_block(alloc: Global, blocks: &[Nest], block: Nest) -> Result<Vec<Nest>, Memory>
    ensures { IfOk result (λ v. v.items ≡ blocks.now ++ block ∷ []) }
{
    let mut all = Vec::from_slice(alloc, blocks)?;
    all.push(block)?;
    Ok(all)
}

fn start(number: u64, skipping: u64) -> Course
    ensures { result ≡ record { skipping = skipping; left = 0; number = number } }
{
    Course {
        skipping,
        left: 0,
        number,
    }
}

fn beyond(
    blocks: &[Nest],
    detours: &[Detour],
    number: u64,
    lines: &[NumberedLine],
    from: u32,
) -> u32
    requires lines { length lines.now < 2 ^ 32 }
    requires number { number < 2 ^ 40 }
    requires kept { scripts.AreDetours 0 blocks.now lines.now detours.now }
    requires fits { scripts.beyond blocks.now number (drop from lines.now) < 2 ^ 32 }
    ensures { result ≡ scripts.beyond blocks.now number (drop from lines.now) }
{
    reach(blocks, detours, start(number, 1), lines, from) as u32
}

fn onward(
    blocks: &[Nest],
    detours: &[Detour],
    number: u64,
    lines: &[NumberedLine],
    from: u32,
) -> u32
    requires lines { length lines.now < 2 ^ 32 }
    requires number { number < 2 ^ 40 }
    requires kept { scripts.AreDetours 0 blocks.now lines.now detours.now }
    requires fits { scripts.onward blocks.now number (drop from lines.now) < 2 ^ 32 }
    ensures { result ≡ scripts.onward blocks.now number (drop from lines.now) }
{
    reach(blocks, detours, start(number, 0), lines, from) as u32
}

/// What is around a statement: the open blocks before and after its line, the ways that are kept of open
/// blocks, its number, and the lines after it.
#[derive(Clone, Copy)]
pub struct Round<'a> {
    pub open_before: &'a [Nest],
    pub open_after: &'a [Nest],
    pub detours: &'a [Detour],
    pub number: u64,
    pub lines: &'a [NumberedLine],
    pub from: u32,
}

// With the way of the innermost block, which the line opens.
fn with_detour(alloc: Global, round: &Round) -> Result<Vec<Detour>, Memory>
    requires lines { length round.now.lines.now < 2 ^ 32 }
    requires number { round.now.number < 2 ^ 32 }
    requires kept { scripts.AreDetours 0 round.now.open_after.now round.now.lines.now round.now.detours.now }
    requires one_more { length round.now.open_after.now ≡ length round.now.detours.now + 1 }
    ensures kept { IfOk result (λ v. scripts.AreDetours 0 round.now.open_after.now round.now.lines.now v.items) }
    ensures each { IfOk result (λ v. length v.items ≡ length round.now.open_after.now) }
{
    let own = kept_way(
        round.open_after,
        round.detours,
        round.number + 1,
        round.lines,
        round.from,
    );
    let mut all = Vec::from_slice(alloc, round.detours)?;
    all.push(own)?;
    Ok(all)
}

fn copied_detours(alloc: Global, detours: &[Detour]) -> Result<Vec<Detour>, Memory>
    ensures { IfOk result (λ v. v.items ≡ detours.now) }
{
    let all = Vec::from_slice(alloc, detours)?;
    Ok(all)
}

fn outer_detours(detours: &[Detour]) -> &[Detour]
    ensures { result.now ≡ take (length detours.now - 1) detours.now }
{
    &detours[..detours.len().saturating_sub(1)]
}

/// The ways that are kept of the open blocks after a line, where those before it are kept.
pub fn detours_after(
    alloc: Global,
    round: &Round,
    line: &NumberedLine,
) -> Result<Vec<Detour>, Memory>
    requires lines { length round.now.lines.now < 2 ^ 32 }
    requires number { round.now.number < 2 ^ 32 }
    requires kept { scripts.AreDetours 0 round.now.open_before.now round.now.lines.now round.now.detours.now }
    requires each { length round.now.detours.now ≡ length round.now.open_before.now }
    requires after { round.now.open_after.now ≡ scripts.nests_after round.now.open_before.now round.now.number line.now.number line.now.form }
    ensures kept { IfOk result (λ v. scripts.AreDetours 0 round.now.open_after.now round.now.lines.now v.items) }
    ensures each { IfOk result (λ v. length v.items ≡ length round.now.open_after.now) }
{
    match &line.form {
        SceneLine::If { .. } => with_detour(alloc, round),
        SceneLine::Repeat { .. } => with_detour(alloc, round),
        SceneLine::End => copied_detours(alloc, outer_detours(round.detours)),
        _ => copied_detours(alloc, round.detours),
    }
}

#[tactic(auto, unfolding(crate::specs::Scripts::act_on))]
fn act_on(names: &Names, variables: &Variables, round: &Round, form: &SceneLine) -> Option<Act>
    requires lines { length round.now.lines.now < 2 ^ 32 }
    requires number { round.now.number < 2 ^ 32 }
    requires kept { scripts.AreDetours 0 round.now.open_after.now round.now.lines.now round.now.detours.now }
    requires fits { IfSome (scripts.act_on names.now variables.now round.now.open_before.now round.now.open_after.now round.now.number form.now (drop round.now.from round.now.lines.now)) IsFitAct }
    ensures { result ≡ scripts.act_on names.now variables.now round.now.open_before.now round.now.open_after.now round.now.number form.now (drop round.now.from round.now.lines.now) }
{
    match form {
        SceneLine::If { test } => Some(Act::If {
            test: *test,
            otherwise: beyond(
                round.open_after,
                round.detours,
                round.number + 1,
                round.lines,
                round.from,
            ),
        }),
        SceneLine::Repeat { count } => Some(Act::Repeat {
            count: *count,
            depth: loops(round.open_before),
            past: beyond(
                round.open_after,
                round.detours,
                round.number + 2,
                round.lines,
                round.from,
            ),
        }),
        SceneLine::End => again(round.open_before, nest_at(round.open_before, 0)),
        _ => plain_act(names, variables, form),
    }
}

fn loop_line(number: u32, innermost: Option<Nest>) -> u32
    ensures { result ≡ scripts.loop_line number innermost }
{
    match innermost {
        Some(block) => match block {
            Nest::Loop { line, number: _ } => line,
            Nest::Branch => number,
        },
        None => number,
    }
}

#[tactic(auto, unfolding(crate::specs::Scripts::told_line))]
fn told_line(blocks: &[Nest], number: u32, form: &SceneLine) -> u32
    ensures { result ≡ scripts.told_line blocks.now number form.now }
{
    if is_end(form) {
        loop_line(number, nest_at(blocks, 0))
    } else {
        number
    }
}

/// The statement of a line, if it has one.
#[tactic(auto, unfolding(crate::specs::Scripts::statement_on))]
pub fn statement_on(
    names: &Names,
    variables: &Variables,
    round: &Round,
    line: &NumberedLine,
) -> Option<Statement>
    requires lines { length round.now.lines.now < 2 ^ 32 }
    requires number { round.now.number < 2 ^ 32 }
    requires kept { scripts.AreDetours 0 round.now.open_after.now round.now.lines.now round.now.detours.now }
    requires fits { IfSome (scripts.statement_on names.now variables.now round.now.open_before.now round.now.open_after.now round.now.number line.now (drop round.now.from round.now.lines.now)) IsFitStatement }
    ensures { result ≡ scripts.statement_on names.now variables.now round.now.open_before.now round.now.open_after.now round.now.number line.now (drop round.now.from round.now.lines.now) }
{
    match act_on(names, variables, round, &line.form) {
        Some(act) => Some(Statement {
            line: told_line(round.open_before, line.number, &line.form),
            next: onward(
                round.open_after,
                round.detours,
                round.number + 1,
                round.lines,
                round.from,
            ),
            act,
        }),
        None => None,
    }
}

/// Whether a line ends the callback, where these blocks are open.
pub fn ends_callback(blocks: &[Nest], form: &SceneLine) -> bool
    ensures { result ≡ scripts.ends_callback blocks.now form.now }
{
    is_end(form) && blocks.is_empty()
}
