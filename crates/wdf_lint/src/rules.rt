//! The rule that a state breaks at its statement.
ghost use Rattle.std.specs.Prelude.{◌≡◌};
ghost use Rattle.wdf_lint.specs.Steps as spec;
ghost use Rattle.wdf_lint.specs.Walked.{IsOf};
ghost use Rattle.wdf_base.specs.Callbacks.{row_of};

use crate::atoms::{is_request_word, is_zero, node_of, variable_in};
use crate::state::{Abstract, HeldLock, Hold};
use crate::walked::Walked;
use wdf_base::{
    Act, CallKind, Callback, ContextWord, Declared, ExprNode, Fault, Kind, Owner, Plan, Scope,
    Statement,
};

fn is_of_interrupt(callback: Callback) -> bool
    ensures { result ≡ spec.is_of_interrupt (row_of callback).owner }
{
    matches!(callback.row().owner, Owner::Of(Kind::Interrupt))
}

/// The interrupt that an argument names.
pub fn interrupt_in(_plan: &Plan, w: &Walked, node: Option<ExprNode>) -> Option<u32>
    requires { IsOf _plan.now w.now }
    ensures { result ≡ spec.interrupt_in _plan.now w.now.script node }
{
    match node {
        Some(ExprNode::Object(h)) => Some(h.id.0),
        Some(ExprNode::Context(ContextWord::OwnObject)) => {
            if is_of_interrupt(w.callback) {
                Some(w.own)
            } else {
                None
            }
        }
        _ => None,
    }
}

fn is_scoped_queue(owner: &Declared) -> bool
    ensures { result ≡ spec.is_scoped_queue owner.now }
{
    match owner {
        Declared::Queue(q) => !matches!(q.scope, Scope::Unscoped),
        _ => false,
    }
}

fn rule_of_giving(hold: Hold) -> Option<Fault>
    ensures { result ≡ spec.rule_of_giving hold }
{
    match hold {
        Hold::Own => None,
        Hold::Marked => Some(Fault::CompleteWhileMarked),
        _ => Some(Fault::NotOwned),
    }
}

fn rule_of_marking(hold: Hold) -> Option<Fault>
    ensures { result ≡ spec.rule_of_marking hold }
{
    match hold {
        Hold::Own => None,
        Hold::Marked => Some(Fault::MarkedTwice),
        _ => Some(Fault::NotOwned),
    }
}

fn unless(holds: bool, rule: Fault) -> Option<Fault>
    ensures { result ≡ spec.unless holds rule }
{
    if holds { None } else { Some(rule) }
}

fn on_request(is_own: bool, rule: Option<Fault>) -> Option<Fault>
    ensures { result ≡ spec.on_request is_own rule }
{
    if is_own { rule } else { Some(Fault::NotOwned) }
}

fn rule_of_acquiring(a: &Abstract, variable: Option<u8>) -> Option<Fault>
    ensures { result ≡ spec.rule_of_acquiring a.now variable }
{
    match variable {
        None => Some(Fault::LockHeldAlready),
        Some(_) => unless(matches!(a.lock, HeldLock::Free), Fault::LockHeldAlready),
    }
}

fn is_in(lock: HeldLock, variable: u8) -> bool
    ensures { result ≡ spec.is_in lock variable }
{
    match lock {
        HeldLock::In(v) => v == variable,
        _ => false,
    }
}

fn rule_of_releasing(a: &Abstract, variable: Option<u8>) -> Option<Fault>
    ensures { result ≡ spec.rule_of_releasing a.now variable }
{
    match variable {
        None => Some(Fault::LockNotHeld),
        Some(v) => unless(is_in(a.lock, v), Fault::LockNotHeld),
    }
}

fn rule_of_releasing_at(a: &Abstract, interrupt: Option<u32>) -> Option<Fault>
    ensures { result ≡ spec.rule_of_releasing_at a.now interrupt }
{
    match interrupt {
        None => Some(Fault::LockNotHeld),
        Some(i) => unless(a.interrupts.has(i), Fault::LockNotHeld),
    }
}

fn rule_of_acknowledging(_plan: &Plan, w: &Walked, a: &Abstract) -> Option<Fault>
    requires { IsOf _plan.now w.now }
    ensures { result ≡ spec.rule_of_acknowledging _plan.now w.now.script a.now }
{
    if !matches!(a.hold, Hold::Stop) || a.acknowledged {
        Some(Fault::AckOutsideStop)
    } else if is_scoped_queue(&w.owner) && !w.sends {
        None
    } else {
        Some(Fault::NotOwned)
    }
}

fn rule_of_acquiring_at(
    _plan: &Plan,
    w: &Walked,
    a: &Abstract,
    interrupt: Option<u32>,
) -> Option<Fault>
    requires { IsOf _plan.now w.now }
    ensures { result ≡ spec.rule_of_acquiring_at _plan.now w.now.script a.now interrupt }
{
    match interrupt {
        None => Some(Fault::LockHeldAlready),
        Some(i) => {
            let is_own = w.callback.takes_interrupt_lock() && w.own == i;
            unless(!a.interrupts.has(i) && !is_own, Fault::LockHeldAlready)
        }
    }
}

/// The rule that a call breaks, if it does.
pub fn rule_of_call(
    plan: &Plan,
    w: &Walked,
    a: &Abstract,
    kind: CallKind,
    x: Option<ExprNode>,
    y: Option<ExprNode>,
) -> Option<Fault>
    requires { IsOf plan.now w.now }
    ensures { result ≡ spec.rule_of_call plan.now w.now.script a.now kind x y }
{
    match kind {
        CallKind::WdfRequestComplete
        | CallKind::WdfRequestRequeue
        | CallKind::WdfRequestForwardToIoQueue
        | CallKind::WdfRequestSend => on_request(is_request_word(x), rule_of_giving(a.hold)),
        CallKind::WdfRequestMarkCancelableEx => {
            on_request(is_request_word(x), rule_of_marking(a.hold))
        }
        CallKind::WdfRequestUnmarkCancelable => on_request(
            is_request_word(x),
            unless(matches!(a.hold, Hold::Own | Hold::Marked), Fault::NotOwned),
        ),
        CallKind::WdfRequestIsCanceled => on_request(
            is_request_word(x),
            unless(matches!(a.hold, Hold::Own), Fault::NotOwned),
        ),
        CallKind::WdfRequestStopAcknowledge => on_request(
            is_request_word(x) && is_zero(y),
            rule_of_acknowledging(plan, w, a),
        ),
        CallKind::WdfSpinLockAcquire | CallKind::WdfWaitLockAcquire => {
            rule_of_acquiring(a, variable_in(x))
        }
        CallKind::WdfSpinLockRelease | CallKind::WdfWaitLockRelease => {
            rule_of_releasing(a, variable_in(x))
        }
        CallKind::WdfInterruptAcquireLock => {
            rule_of_acquiring_at(plan, w, a, interrupt_in(plan, w, x))
        }
        CallKind::WdfInterruptReleaseLock => rule_of_releasing_at(a, interrupt_in(plan, w, x)),
        _ => None,
    }
}

fn rule_of_leaving(a: &Abstract) -> Option<Fault>
    ensures { result ≡ spec.rule_of_leaving a.now }
{
    if a.interrupts.is_empty() {
        unless(matches!(a.lock, HeldLock::Free), Fault::ReturnHoldingLock)
    } else {
        Some(Fault::ReturnHoldingLock)
    }
}

/// The rule that a state breaks at a statement, if it does.
pub fn rule_at(plan: &Plan, w: &Walked, a: &Abstract, statement: Option<Statement>) -> Option<Fault>
    requires { IsOf plan.now w.now }
    ensures { result ≡ spec.rule_at plan.now w.now.script a.now statement }
{
    match statement {
        None => rule_of_leaving(a),
        Some(s) => match s.act {
            Act::Call {
                kind,
                a: x,
                b: y,
                ..
            } => { rule_of_call(plan, w, a, kind, node_of(plan, x), node_of(plan, y)) }
            Act::Return { .. } => rule_of_leaving(a),
            _ => None,
        },
    }
}
