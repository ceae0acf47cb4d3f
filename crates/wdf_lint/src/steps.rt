//! The states after a state.
ghost use Rattle.std.specs.Prelude.{◌≡◌, IfOk, OnOk, [], ◌∷◌, ◌++◌, map};
ghost use Rattle.wdf_lint.specs.Steps as spec;
ghost use Rattle.wdf_lint.specs.Abstracts as abstract_;
ghost use Rattle.wdf_lint.specs.Walked.{IsOf};
ghost use Rattle.std.specs.Prelude.{◌<◌, length};

use crate::atoms::{decided, known_of, node_of, variable_in};
use crate::rules::{interrupt_in, rule_of_call};
use crate::state::{Abstract, HeldLock, Hold, Known};
use crate::walked::Walked;
use std::alloc::Global;
use wdf_base::{Act, CallKind, ExprNode, Fault, Memory, Plan, Statement, Status, VARIABLES};

fn go(mut a: Abstract, at: u32) -> Abstract
    ensures { result ≡ abstract_.go a at }
{
    a.at = at;
    a
}

fn lock_after(lock: HeldLock, variable: u8) -> HeldLock
    ensures { result ≡ abstract_.lock_after lock variable }
{
    match lock {
        HeldLock::In(v) => {
            if v == variable {
                HeldLock::Lost
            } else {
                HeldLock::In(v)
            }
        }
        other => other,
    }
}

fn assign(mut a: Abstract, variable: u8, known: Known) -> Abstract
    ensures { result ≡ abstract_.assign a variable known }
{
    a.lock = lock_after(a.lock, variable);
    let place = usize::from(variable);
    if place < VARIABLES {
        a.variables[place] = known;
    }
    a
}

fn answer(a: Abstract, into: Option<u8>, known: Known) -> Abstract
    ensures { result ≡ abstract_.answer a into known }
{
    match into {
        None => a,
        Some(variable) => assign(a, variable, known),
    }
}

// Adds a state at a statement.
fn add_at(after: &mut Vec<Abstract>, alloc: Global, a: &Abstract, at: u32) -> Result<(), Memory>
    ensures { OnOk result (after.new.items ≡ after.old.items ++ abstract_.go a.now at ∷ []) }
{
    let b = go(a.copy(alloc)?, at);
    after.push(b)?;
    Ok(())
}

// Adds a state at each of two statements.
fn add_both(
    after: &mut Vec<Abstract>,
    alloc: Global,
    a: &Abstract,
    first: u32,
    second: u32,
) -> Result<(), Memory>
    ensures { OnOk result (after.new.items ≡ after.old.items ++ abstract_.go a.now first ∷ abstract_.go a.now second ∷ []) }
{
    add_at(after, alloc, a, first)?;
    add_at(after, alloc, a, second)
}

// Adds the state whose variable is assigned.
fn add_assigned(
    after: &mut Vec<Abstract>,
    alloc: Global,
    a: &Abstract,
    next: u32,
    variable: u8,
    known: Known,
) -> Result<(), Memory>
    ensures { OnOk result (after.new.items ≡ after.old.items ++ abstract_.go (abstract_.assign a.now variable known) next ∷ []) }
{
    let b = go(assign(a.copy(alloc)?, variable, known), next);
    after.push(b)?;
    Ok(())
}

fn add_branches(
    after: &mut Vec<Abstract>,
    alloc: Global,
    a: &Abstract,
    next: u32,
    otherwise: u32,
    holds: Option<bool>,
) -> Result<(), Memory>
    ensures { OnOk result (after.new.items ≡ after.old.items ++ spec.branches a.now next otherwise holds) }
{
    match holds {
        None => add_both(after, alloc, a, next, otherwise),
        Some(true) => add_at(after, alloc, a, next),
        Some(false) => add_at(after, alloc, a, otherwise),
    }
}

/// Where a call goes on, and the variable that its answer goes to.
#[derive(Clone, Copy)]
struct Onward {
    next: u32,
    into: Option<u8>,
}

// The state after a call that leaves the request so, with this answer.
fn by_way(mut a: Abstract, to: Onward, hold: Hold, known: Known) -> Abstract
    ensures { result ≡ spec.by_way a to.next to.into (spec.way hold known) }
{
    a.hold = hold;
    go(answer(a, to.into, known), to.next)
}

// Adds that state.
fn add_way(
    after: &mut Vec<Abstract>,
    alloc: Global,
    a: &Abstract,
    to: Onward,
    hold: Hold,
    known: Known,
) -> Result<(), Memory>
    ensures { OnOk result (after.new.items ≡ after.old.items ++ spec.by_way a.now to.next to.into (spec.way hold known) ∷ []) }
{
    let b = by_way(a.copy(alloc)?, to, hold, known);
    after.push(b)?;
    Ok(())
}

fn add_ways_of_unmarking(
    after: &mut Vec<Abstract>,
    alloc: Global,
    a: &Abstract,
    to: Onward,
    held: Hold,
) -> Result<(), Memory>
    ensures { OnOk result (after.new.items ≡ after.old.items ++ map (spec.by_way a.now to.next to.into) (spec.ways_of_unmarking held)) }
{
    let cancelled = Known::Stat(Status::Cancelled);
    let invalid = Known::Stat(Status::InvalidDeviceRequest);
    match held {
        Hold::Marked => {
            add_way(after, alloc, a, to, Hold::Own, Known::Stat(Status::Success))?;
            add_way(after, alloc, a, to, Hold::Away, cancelled)?;
            add_way(after, alloc, a, to, Hold::Away, invalid)
        }
        _ => {
            add_way(after, alloc, a, to, held, cancelled)?;
            add_way(after, alloc, a, to, held, invalid)
        }
    }
}

// Adds the states after a call that breaks no rule, where `a` is what the call leaves of locks and acknowledgement.
fn add_ways(
    after: &mut Vec<Abstract>,
    alloc: Global,
    a: &Abstract,
    to: Onward,
    kind: CallKind,
    held: Hold,
) -> Result<(), Memory>
    ensures { OnOk result (after.new.items ≡ after.old.items ++ map (spec.by_way a.now to.next to.into) (spec.ways kind held)) }
{
    let success = Known::Stat(Status::Success);
    let cancelled = Known::Stat(Status::Cancelled);
    let invalid = Known::Stat(Status::InvalidDeviceRequest);
    match kind {
        CallKind::WdfRequestComplete | CallKind::WdfRequestRequeue => {
            add_way(after, alloc, a, to, Hold::Away, Known::Unknown)
        }
        CallKind::WdfRequestForwardToIoQueue => {
            add_way(after, alloc, a, to, Hold::Away, success)?;
            add_way(after, alloc, a, to, Hold::Own, invalid)?;
            add_way(after, alloc, a, to, Hold::Own, Known::Stat(Status::WdfBusy))
        }
        CallKind::WdfRequestSend => {
            add_way(after, alloc, a, to, Hold::Away, Known::One)?;
            add_way(after, alloc, a, to, Hold::Own, Known::Zero)
        }
        CallKind::WdfRequestMarkCancelableEx => {
            add_way(after, alloc, a, to, Hold::Marked, success)?;
            add_way(after, alloc, a, to, Hold::Own, cancelled)?;
            add_way(after, alloc, a, to, Hold::Own, invalid)
        }
        CallKind::WdfRequestUnmarkCancelable => add_ways_of_unmarking(after, alloc, a, to, held),
        _ => add_way(after, alloc, a, to, held, Known::Unknown),
    }
}

fn acquired(a: Abstract, variable: Option<u8>) -> Abstract
    ensures { result ≡ spec.acquired a variable }
{
    match variable {
        None => a,
        Some(v) => Abstract {
            lock: HeldLock::In(v),
            ..a
        },
    }
}

fn acquired_at(alloc: Global, a: Abstract, interrupt: Option<u32>) -> Result<Abstract, Memory>
    ensures { IfOk result (λ b. b ≡ spec.acquired_at a interrupt) }
{
    match interrupt {
        None => Ok(a),
        Some(i) => {
            let interrupts = a.interrupts.with(alloc, i)?;
            Ok(Abstract { interrupts, ..a })
        }
    }
}

fn released_at(alloc: Global, a: Abstract, interrupt: Option<u32>) -> Result<Abstract, Memory>
    ensures { IfOk result (λ b. b ≡ spec.released_at a interrupt) }
{
    match interrupt {
        None => Ok(a),
        Some(i) => {
            let interrupts = a.interrupts.without(alloc, i)?;
            Ok(Abstract { interrupts, ..a })
        }
    }
}

// What a call changes beside the hold and the answer.
fn called(
    alloc: Global,
    plan: &Plan,
    w: &Walked,
    mut a: Abstract,
    kind: CallKind,
    x: Option<ExprNode>,
) -> Result<Abstract, Memory>
    requires { IsOf plan.now w.now }
    ensures { IfOk result (λ b. b ≡ spec.called plan.now w.now.script a kind x) }
{
    match kind {
        CallKind::WdfRequestStopAcknowledge => {
            a.acknowledged = true;
            Ok(a)
        }
        CallKind::WdfSpinLockAcquire | CallKind::WdfWaitLockAcquire => {
            Ok(acquired(a, variable_in(x)))
        }
        CallKind::WdfSpinLockRelease | CallKind::WdfWaitLockRelease => {
            a.lock = HeldLock::Free;
            Ok(a)
        }
        CallKind::WdfInterruptAcquireLock => acquired_at(alloc, a, interrupt_in(plan, w, x)),
        CallKind::WdfInterruptReleaseLock => released_at(alloc, a, interrupt_in(plan, w, x)),
        _ => Ok(a),
    }
}

// Adds the states after a call.
fn add_after_call(
    after: &mut Vec<Abstract>,
    alloc: Global,
    plan: &Plan,
    w: &Walked,
    a: &Abstract,
    to: Onward,
    kind: CallKind,
    x: Option<ExprNode>,
    rule: Option<Fault>,
) -> Result<(), Memory>
    requires { IsOf plan.now w.now }
    ensures { OnOk result (after.new.items ≡ after.old.items ++ spec.after_call plan.now w.now.script a.now to.next kind to.into x rule) }
{
    match rule {
        Some(_) => {
            let b = go(answer(a.copy(alloc)?, to.into, Known::Unknown), to.next);
            after.push(b)?;
            Ok(())
        }
        None => {
            let b = called(alloc, plan, w, a.copy(alloc)?, kind, x)?;
            add_ways(after, alloc, &b, to, kind, a.hold)
        }
    }
}

// Adds the states after one at a statement.
fn add_steps_at(
    after: &mut Vec<Abstract>,
    alloc: Global,
    plan: &Plan,
    w: &Walked,
    a: &Abstract,
    statement: Option<Statement>,
) -> Result<(), Memory>
    requires { IsOf plan.now w.now }
    ensures { OnOk result (after.new.items ≡ after.old.items ++ spec.steps_at plan.now w.now.script a.now statement) }
{
    let Some(s) = statement else {
        return Ok(());
    };
    match s.act {
        Act::Let { variable, value } => {
            add_assigned(after, alloc, a, s.next, variable, known_of(plan, a, value))
        }
        Act::Call {
            kind,
            into,
            a: x,
            b: y,
            ..
        } => {
            let x = node_of(plan, x);
            let rule = rule_of_call(plan, w, a, kind, x, node_of(plan, y));
            let to = Onward { next: s.next, into };
            add_after_call(after, alloc, plan, w, a, to, kind, x, rule)
        }
        Act::Get { variable, .. } => {
            add_assigned(after, alloc, a, s.next, variable, Known::Unknown)
        }
        Act::If { test, otherwise } => {
            add_branches(after, alloc, a, s.next, otherwise, decided(plan, a, test))
        }
        Act::Repeat { past, .. } => add_both(after, alloc, a, s.next, past),
        Act::Again { body, .. } => add_both(after, alloc, a, body, s.next),
        Act::Return { .. } => Ok(()),
        Act::Put { .. } | Act::Spend { .. } | Act::Log { .. } => add_at(after, alloc, a, s.next),
    }
}

/// The statement of a state.
pub fn statement_of(plan: &Plan, w: &Walked, a: &Abstract) -> Option<Statement>
    requires { w.now.script < length plan.now.scripts }
    ensures { result ≡ spec.statement_of plan.now w.now.script a.now }
{
    if a.at < plan.statement_len(w.script) {
        Some(plan.statement(w.script, a.at))
    } else {
        None
    }
}

/// Adds the states after a state.
pub fn add_steps(
    after: &mut Vec<Abstract>,
    alloc: Global,
    plan: &Plan,
    w: &Walked,
    a: &Abstract,
) -> Result<(), Memory>
    requires of { IsOf plan.now w.now }
    requires script { w.now.script < length plan.now.scripts }
    ensures { OnOk result (after.new.items ≡ after.old.items ++ spec.steps plan.now w.now.script a.now) }
{
    add_steps_at(after, alloc, plan, w, a, statement_of(plan, w, a))
}
