//! The state after an event: one function for each kind of event that the top frame of a processor takes.
ghost use Rattle.std.specs.Prelude.{◌≡◌, ℕ, ◌∷◌, ◌+◌, ◌++◌, ◌<◌, ◌^◌, []};
ghost use Rattle.wdf_model.specs.Ids.{frame_id};
ghost use Rattle.wdf_model.specs.Tables.{entry};
ghost use Rattle.wdf_model.specs.declared.deed.Deed.TheVariants as Deed;
ghost use Rattle.wdf_model.specs.rules.Calls as calls;
ghost use Rattle.wdf_model.specs.rules.Deeds.{do_deeds};
ghost use Rattle.wdf_model.specs.rules.Room.{AreDoable};
ghost use Rattle.wdf_model.specs.rules.Script as script;
ghost use Rattle.wdf_model.specs.rules.Steps as steps;
ghost use Rattle.wdf_model.specs.parts.Cpus.{frame_of};
ghost use Rattle.wdf_cpu.specs.FrameUpdate.{gone};
ghost use Rattle.wdf_steps.specs.Clock.{FitsClock};
ghost use Rattle.wdf_steps.specs.Moves.{goes_on_with, spends_on};

use crate::frames::{answered, goes_on, spending, stepped, waiting};
use wdf_base::{Agent, Call, Cpu, Event, Frame, FrameId, Value};
use wdf_calls::{do_second, outcome};
use wdf_cpu::FrameUpdate;
use wdf_parts::{Deeds, Parts};
use wdf_plan_index::IndexedPlan;
use wdf_posts::take_post;
use wdf_script::next;
use wdf_starts::{end_callback, pass_stage, start_callback};

/// A frame goes on in its place.
fn go_on<A: Agent>(plan: &IndexedPlan, parts: &mut Parts<A>, number: FrameId, update: &FrameUpdate)
    requires { AreDoable plan.now (Deed.GoOn number (gone update.now (frame_of parts.old.cpus number.0)) ∷ []) parts.old }
    ensures { parts.new ≡ do_deeds plan.now (Deed.GoOn number (gone update.now (frame_of parts.old.cpus number.0)) ∷ []) parts.old }
{
    parts.go_on(plan, number, update);
}

/// A frame is now this one.
fn set_frame<A: Agent>(plan: &IndexedPlan, parts: &mut Parts<A>, number: FrameId, frame: &Frame)
    requires { AreDoable plan.now (Deed.GoOn number frame.now ∷ []) parts.old }
    ensures { parts.new ≡ do_deeds plan.now (Deed.GoOn number frame.now ∷ []) parts.old }
{
    parts.change_frame(plan, number, frame);
}

/// A step inside the top frame.
fn step_inside<A: Agent>(plan: &IndexedPlan, parts: &mut Parts<A>, cpu: Cpu)
    requires { AreDoable plan.now (steps.by_top parts.old cpu.0 (λ f frame. Deed.GoOn (frame_id f) (steps.stepped frame (script.intent_of plan.now frame)) ∷ [])) parts.old }
    ensures { parts.new ≡ do_deeds plan.now (steps.by_top parts.old cpu.0 (λ f frame. Deed.GoOn (frame_id f) (steps.stepped frame (script.intent_of plan.now frame)) ∷ [])) parts.old }
{
    let Some(number) = parts.cpus().top(cpu) else {
        return;
    };
    let frame = parts.cpus().frame(number);
    let after = stepped(frame, &next(plan.plan(), frame));
    go_on(plan, parts, number, &after);
}

/// The top frame prints a value, and goes on.
fn print<A: Agent>(plan: &IndexedPlan, parts: &mut Parts<A>, cpu: Cpu)
    requires { AreDoable plan.now (steps.by_top parts.old cpu.0 (λ f frame. Deed.GoOn (frame_id f) (steps.goes_on plan.now frame) ∷ [])) parts.old }
    ensures { parts.new ≡ do_deeds plan.now (steps.by_top parts.old cpu.0 (λ f frame. Deed.GoOn (frame_id f) (steps.goes_on plan.now frame) ∷ [])) parts.old }
{
    let Some(number) = parts.cpus().top(cpu) else {
        return;
    };
    let after = goes_on(plan, parts.cpus().frame(number));
    go_on(plan, parts, number, &after);
}

/// The top frame begins to spend a number of ticks.
fn spend<A: Agent>(plan: &IndexedPlan, parts: &mut Parts<A>, cpu: Cpu, ticks: u64)
    requires fits { parts.old.clock + ticks < 2 ^ 64 }
    requires doable { AreDoable plan.now (steps.by_top parts.old cpu.0 (spends_on plan.now parts.old ticks)) parts.old }
    ensures { parts.new ≡ do_deeds plan.now (steps.by_top parts.old cpu.0 (spends_on plan.now parts.old ticks)) parts.old }
{
    let Some(number) = parts.cpus().top(cpu) else {
        return;
    };
    let after = spending(plan, parts.cpus().frame(number), parts.now(), ticks);
    go_on(plan, parts, number, &after);
}

/// A register is read or written by the top frame.
fn access<A: Agent>(plan: &IndexedPlan, parts: &mut Parts<A>, cpu: Cpu, value: u64)
    requires { AreDoable plan.now (steps.by_top parts.old cpu.0 (goes_on_with plan.now value)) parts.old }
    ensures { parts.new ≡ do_deeds plan.now (steps.by_top parts.old cpu.0 (goes_on_with plan.now value)) parts.old }
{
    let Some(number) = parts.cpus().top(cpu) else {
        return;
    };
    let after = answered(plan, parts.cpus().frame(number), Value::Num(value));
    go_on(plan, parts, number, &after);
}

/// What the second part of a call does is done, and the frame goes on.
#[tactic(auto, using(wdf_parts::proofs::InTurn::done_after, wdf_parts::proofs::InTurn::doable_first, wdf_parts::proofs::InTurn::doable_then))]
fn do_rest<A: Agent>(
    plan: &IndexedPlan,
    parts: &mut Parts<A>,
    call: &Call,
    number: FrameId,
    frame: &Frame,
)
    requires { AreDoable plan.now (calls.second_deeds number.0 call.now ++ Deed.GoOn number frame.now ∷ []) parts.old }
    ensures { parts.new ≡ do_deeds plan.now (calls.second_deeds number.0 call.now ++ Deed.GoOn number frame.now ∷ []) parts.old }
{
    do_second(plan, parts, number, call);
    set_frame(plan, parts, number, frame);
}

/// What the first part of a call does is done, and the frame goes on.
#[tactic(auto, using(wdf_parts::proofs::InTurn::done_after, wdf_parts::proofs::InTurn::doable_first, wdf_parts::proofs::InTurn::doable_then))]
fn do_first<A: Agent>(
    plan: &IndexedPlan,
    parts: &mut Parts<A>,
    first: &Deeds,
    number: FrameId,
    frame: &Frame,
)
    requires { AreDoable plan.now (first.now ++ Deed.GoOn number frame.now ∷ []) parts.old }
    ensures { parts.new ≡ do_deeds plan.now (first.now ++ Deed.GoOn number frame.now ∷ []) parts.old }
{
    parts.do_deeds(plan, first);
    set_frame(plan, parts, number, frame);
}

/// What both parts of a call do is done, and the frame goes on.
#[tactic(auto, using(wdf_parts::proofs::InTurn::done_after, wdf_parts::proofs::InTurn::doable_first, wdf_parts::proofs::InTurn::doable_then))]
fn do_both<A: Agent>(
    plan: &IndexedPlan,
    parts: &mut Parts<A>,
    first: &Deeds,
    call: &Call,
    number: FrameId,
    frame: &Frame,
)
    requires { AreDoable plan.now (first.now ++ calls.second_deeds number.0 call.now ++ Deed.GoOn number frame.now ∷ []) parts.old }
    ensures { parts.new ≡ do_deeds plan.now (first.now ++ calls.second_deeds number.0 call.now ++ Deed.GoOn number frame.now ∷ []) parts.old }
{
    parts.do_deeds(plan, first);
    do_second(plan, parts, number, call);
    set_frame(plan, parts, number, frame);
}

/// A call is answered: its first part, its second, and the frame goes on.
fn answer<A: Agent>(plan: &IndexedPlan, parts: &mut Parts<A>, cpu: Cpu, call: &Call, value: Value)
    requires { AreDoable plan.now (steps.by_top parts.old cpu.0 (steps.did_deeds plan.now parts.old cpu.0 call.now value)) parts.old }
    ensures { parts.new ≡ do_deeds plan.now (steps.by_top parts.old cpu.0 (steps.did_deeds plan.now parts.old cpu.0 call.now value)) parts.old }
{
    let Some(number) = parts.cpus().top(cpu) else {
        return;
    };
    let frame = parts.cpus().frame(number);
    let after = answered(plan, frame, value).of(frame);
    let outcome = outcome(plan, parts, cpu, number, call);
    do_both(plan, parts, &outcome.deeds, call, number, &after);
}

/// The first part of a call is done, and the frame waits for the rest.
fn wait<A: Agent>(plan: &IndexedPlan, parts: &mut Parts<A>, cpu: Cpu, call: &Call)
    requires { AreDoable plan.now (steps.by_top parts.old cpu.0 (steps.waiting_deeds plan.now parts.old cpu.0 call.now)) parts.old }
    ensures { parts.new ≡ do_deeds plan.now (steps.by_top parts.old cpu.0 (steps.waiting_deeds plan.now parts.old cpu.0 call.now)) parts.old }
{
    let Some(number) = parts.cpus().top(cpu) else {
        return;
    };
    let outcome = outcome(plan, parts, cpu, number, call);
    let frame = parts.cpus().frame(number);
    let after = waiting(frame, call, outcome.answer).of(frame);
    do_first(plan, parts, &outcome.deeds, number, &after);
}

/// A wait is over: the second part of its call is done, and the frame goes on.
fn wake<A: Agent>(plan: &IndexedPlan, parts: &mut Parts<A>, cpu: Cpu, call: &Call, value: Value)
    requires { AreDoable plan.now (steps.by_top parts.old cpu.0 (steps.woke_deeds plan.now call.now value)) parts.old }
    ensures { parts.new ≡ do_deeds plan.now (steps.by_top parts.old cpu.0 (steps.woke_deeds plan.now call.now value)) parts.old }
{
    let Some(number) = parts.cpus().top(cpu) else {
        return;
    };
    let frame = parts.cpus().frame(number);
    let after = answered(plan, frame, value).of(frame);
    do_rest(plan, parts, call, number, &after);
}

/// Does the deeds of an event, one row for each kind.
fn take<A: Agent>(plan: &IndexedPlan, parts: &mut Parts<A>, event: &Event)
    requires number { parts.old.number + 1 < 2 ^ 32 }
    requires arrivals { (agent : ℕ) → entry 0 parts.old.arrivals agent + 1 < 2 ^ 32 }
    requires clock { FitsClock parts.old event.now }
    requires doable { AreDoable plan.now (steps.deeds plan.now parts.old event.now) parts.old }
    ensures { parts.new ≡ do_deeds plan.now (steps.deeds plan.now parts.old event.now) parts.old }
{
    match event {
        Event::Start {
            cpu,
            callback,
            object,
            request,
        } => start_callback(plan, parts, *cpu, *callback, *object, *request),
        Event::Local { cpu, .. } => step_inside(plan, parts, *cpu),
        Event::Log { cpu, .. } => print(plan, parts, *cpu),
        Event::Spend { cpu, ticks } => spend(plan, parts, *cpu, *ticks),
        Event::Register { cpu, value, .. } => access(plan, parts, *cpu, *value),
        Event::Did {
            cpu,
            call,
            answer: value,
        } => answer(plan, parts, *cpu, call, *value),
        Event::Waiting { cpu, call } => wait(plan, parts, *cpu, call),
        Event::Woke { cpu, call, answer } => wake(plan, parts, *cpu, call, *answer),
        Event::Park { cpu, .. } => parts.park_frame(*cpu),
        Event::Unpark { cpu, frame } => parts.unpark_frame(*cpu, *frame),
        Event::End {
            cpu,
            callback,
            object,
            value,
        } => end_callback(plan, parts, *cpu, *callback, object.id, *value),
        Event::Fault { .. } => {}
        Event::Stage {
            device,
            stage,
            interrupt,
        } => pass_stage(plan, parts, device.id, *stage, *interrupt),
        Event::Complete { request, .. } => parts.complete(request.id),
        Event::Cleanup { object } => parts.clean_up(object.id),
        Event::Destroy { object } => parts.end_life(object.id),
        Event::Posted { agent, post, .. } => take_post(plan, parts, *agent, post),
        Event::Tick { .. } => parts.pass_tick(),
    }
}

/// The state after an event that may follow: its deeds are done, the agents hear of it, and it is counted.
pub fn step<A: Agent>(plan: &IndexedPlan, parts: &mut Parts<A>, event: &Event)
    requires number { parts.old.number + 1 < 2 ^ 32 }
    requires arrivals { (agent : ℕ) → entry 0 parts.old.arrivals agent + 1 < 2 ^ 32 }
    requires clock { FitsClock parts.old event.now }
    requires doable { AreDoable plan.now (steps.deeds plan.now parts.old event.now) parts.old }
    ensures { parts.new ≡ steps.after plan.now A.meaning parts.old event.now }
{
    take(plan, parts, event);
    parts.count(event);
}
