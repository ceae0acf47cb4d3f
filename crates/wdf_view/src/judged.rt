//! A trace is judged, and its run is drawn.
ghost use Rattle.std.specs.Prelude.{◌≡◌, ◌<◌, [], IfOk, IfErr};
ghost use Rattle.wdf_base.specs.Resolved.{IsResolved};
ghost use Rattle.wdf_view.specs.Formed.{IsFormed, drawn_bytes};
ghost use Rattle.wdf_view.specs.Causes.{IsAcceptedBy, IsInputCause, IsShown, IsTraceCause};

use crate::bad::Bad;
use crate::drawn::Drawn;
use crate::read::plan_of_text;
use crate::words::Form;
use std::alloc::Global;
use wdf_base::{Agent, Memory, Plan};
use wdf_core::Core;
use wdf_dev::{AnyAgent, agents};
use wdf_output::Refusal;
use wdf_perfetto::perfetto;
use wdf_picture::{Told, html};
use wdf_replay::{Verdict, replay};
use wdf_run_text::from_place;
use wdf_split::split;

/// The opening of a plan, with its agents.
fn opening(alloc: Global, plan: Plan) -> Result<Core<AnyAgent>, Memory>
    requires { IsResolved plan }
    ensures plan { IfOk result (λ core. core.plan ≡ plan) }
    ensures journal { IfOk result (λ core. core.journal ≡ []) }
{
    let agents = agents(alloc, &plan)?;
    Core::make(alloc, plan, agents)
}

/// The picture of the run on a core.
fn draw<A: Agent>(alloc: Global, form: Form, core: &Core<A>) -> Result<Drawn, Memory>
    ensures { IfOk result (λ drawn. IsFormed form (drawn_bytes drawn)) }
{
    let waits = core.wait_list(alloc)?;
    let _limit = core.plan().limit();
    let _events = core.journal_len();
    let told = Told {
        events: core.journal(),
        ending: core.ending(),
        waits: waits.as_slice(),
    };
    match form {
        Form::Html => Ok(Drawn::Html(html(alloc, core.plan(), &told)?)),
        Form::Perfetto => Ok(Drawn::Json(perfetto(alloc, core.plan(), told.events)?)),
    }
}

/// What was drawn; no memory where nothing was.
fn or_no_memory(form: Form, drawn: Result<Drawn, Memory>) -> Result<Drawn, Bad>
    requires { IfOk drawn (λ drawn. IsFormed form (drawn_bytes drawn)) }
    ensures formed { IfOk result (λ drawn. IsFormed form (drawn_bytes drawn)) }
    ensures refused { IfErr result (λ bad. bad ≡ Bad.Unread Refusal.NoMemory) }
{
    match drawn {
        Ok(drawn) => Ok(drawn),
        Err(_) => Err(Bad::Unread(Refusal::NoMemory)),
    }
}

/// The picture of a trace, judged on a core without events.
fn draw_core(
    alloc: Global,
    form: Form,
    core: &mut Core<AnyAgent>,
    trace: &[u8],
) -> Result<Drawn, Bad>
    requires resolved { IsResolved core.old.plan }
    requires fresh { core.old.journal ≡ [] }
    ensures formed { IfOk result (λ drawn. IsFormed form (drawn_bytes drawn)) }
    ensures accepted { IfOk result (λ drawn. IsAcceptedBy core.old.plan trace.now) }
    ensures refused { IfErr result (IsTraceCause core.old.plan trace.now) }
{
    match replay(core, trace) {
        Verdict::Accepted(_) => or_no_memory(form, draw(alloc, form, core)),
        Verdict::RefusedAt { line, why } => Err(Bad::BadTrace { line, why }),
    }
}

/// The picture of a plan's trace.
fn draw_trace(alloc: Global, form: Form, plan: Plan, trace: &[u8]) -> Result<Drawn, Bad>
    requires { IsResolved plan }
    ensures formed { IfOk result (λ drawn. IsFormed form (drawn_bytes drawn)) }
    ensures accepted { IfOk result (λ drawn. IsAcceptedBy plan trace.now) }
    ensures refused { IfErr result (IsTraceCause plan trace.now) }
{
    match opening(alloc, plan) {
        Ok(mut core) => draw_core(alloc, form, &mut core, trace),
        Err(_) => Err(Bad::Unread(Refusal::NoMemory)),
    }
}

/// The picture of an input.
pub(crate) fn draw_input(alloc: Global, form: Form, input: &[u8]) -> Result<Drawn, Bad>
    ensures formed { IfOk result (λ drawn. IsFormed form (drawn_bytes drawn)) }
    ensures shown { IfOk result (λ drawn. IsShown input.now) }
    ensures cause { IfErr result (IsInputCause input.now) }
{
    let parts = split(input);
    match plan_of_text(alloc, &input[..parts.scenario]) {
        Ok(plan) => draw_trace(alloc, form, plan, from_place(input, parts.trace)),
        Err(refusal) => Err(Bad::Unread(refusal)),
    }
}
