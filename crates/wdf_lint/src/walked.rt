//! The callback that is walked.
ghost use Rattle.std.specs.Prelude.{◌≡◌, ◌<◌, length, position, IfSome};
ghost use Rattle.wdf_base.specs.SamePlan.{same_declared};
ghost use Rattle.std.specs.List.{list_any};
ghost use Rattle.wdf_base.specs.declared.script.Statement.{Statement};
ghost use Rattle.wdf_lint.specs.Abstracts as abstract_;
ghost use Rattle.wdf_lint.specs.Walks as walks;
ghost use Rattle.wdf_lint.specs.Walked.{IsOf};

use crate::state::{Abstract, HeldLock, Hold, Ids, Known};
use crate::steps::statement_of;
use std::alloc::Global;
use wdf_base::{Act, CallKind, Callback, Declared, Plan, Script, VARIABLES, same_declared};

/// A callback that is walked: what the walk asks of the plan besides its statements.
#[derive(Drop)]
pub struct Walked {
    /// The number of its script.
    pub script: u32,
    pub callback: Callback,
    /// What it is declared on.
    pub owner: Declared,
    /// The id of that.
    pub own: u32,
    /// Whether some callback of the plan sends.
    pub sends: bool,
}

fn is_send(act: Act) -> bool
    ensures { result ≡ abstract_.is_send act }
{
    matches!(
        act,
        Act::Call {
            kind: CallKind::WdfRequestSend,
            ..
        }
    )
}

fn script_sends(script: &Script) -> bool
    ensures { result ≡ list_any (λ (x : Statement). abstract_.is_send x.act) script.now.statements }
{
    script.statements.as_slice().iter().any(|s| is_send(s.act))
}

/// Whether some callback of the plan sends.
pub fn plan_sends(plan: &Plan) -> bool
    ensures { result ≡ abstract_.plan_sends plan.now }
{
    plan.scripts
        .as_slice()
        .iter()
        .any(|script| script_sends(script))
}

// The place of a declared object.
fn place_of(declared: &[Declared], owner: &Declared) -> Option<usize>
    ensures value { result ≡ position (same_declared owner.now) declared.now }
    ensures within { IfSome result (λ n. n < length declared.now) }
{
    declared.iter().position(|d| same_declared(owner, d))
}

// The id of a declared object, 0 where it isn't declared.
fn id_of(plan: &Plan, owner: &Declared) -> u32
    ensures { result ≡ abstract_.id_of plan.now owner.now }
{
    match place_of(plan.declared.as_slice(), owner) {
        None => 0,
        Some(n) => n as u32 + 1,
    }
}

/// The callback of a script, where `sends` says whether some callback of the plan sends.
pub fn walk_of(plan: &Plan, script: u32, sends: bool) -> Walked
    requires script { script < length plan.now.scripts }
    requires sends { sends ≡ abstract_.plan_sends plan.now }
    ensures of { IsOf plan.now result }
    ensures script { result.script ≡ script }
{
    let owner = plan.script_owner(script);
    Walked {
        script,
        callback: plan.script_callback(script),
        own: id_of(plan, &owner),
        owner,
        sends,
    }
}

fn hold_at_start(callback: Callback) -> Hold
    ensures { result ≡ abstract_.hold_at_start callback }
{
    match callback {
        Callback::EvtIoRead
        | Callback::EvtIoWrite
        | Callback::EvtIoDeviceControl
        | Callback::EvtIoDefault
        | Callback::EvtRequestCancel
        | Callback::EvtIoCanceledOnQueue
        | Callback::EvtRequestCompletion => Hold::Own,
        Callback::EvtIoStop => Hold::Stop,
        _ => Hold::Away,
    }
}

/// The state at the beginning.
pub fn start(alloc: Global, _plan: &Plan, w: &Walked) -> Abstract
    requires { IsOf _plan.now w.now }
    ensures { result ≡ abstract_.start _plan.now w.now.script }
{
    Abstract {
        at: 0,
        variables: [Known::Zero; VARIABLES],
        hold: hold_at_start(w.callback),
        acknowledged: false,
        lock: HeldLock::Free,
        interrupts: Ids::new(alloc),
    }
}

/// The line of a state's statement, at the callback's end that of its `on`.
pub fn line_at(plan: &Plan, w: &Walked, a: &Abstract) -> u32
    requires { w.now.script < length plan.now.scripts }
    ensures { result ≡ walks.line_at plan.now w.now.script a.now }
{
    match statement_of(plan, w, a) {
        None => plan.script_line(w.script),
        Some(s) => s.line,
    }
}
