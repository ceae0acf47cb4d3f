ghost use Rattle.std.specs.Prelude.{◌≡◌, ℕ, false, List, [], ◌∷◌, ◌++◌, Some, slice_get};
ghost use Rattle.wdf_base.specs.Meaning.{Meaning};
ghost use Rattle.wdf_base.specs.declared.ids.Cpu.{Cpu};
ghost use Rattle.wdf_base.specs.declared.value.Value.{Value};
ghost use Rattle.wdf_base.specs.declared.plan.Plan.{Plan};
ghost use Rattle.wdf_base.specs.declared.event.Event.{Event};
ghost use Rattle.wdf_base.specs.declared.event.Event.TheVariants as event;
ghost use Rattle.wdf_model.specs.parts.Cpus.{top};
ghost use Rattle.wdf_model.specs.State.{State};
ghost use Rattle.wdf_model.specs.rules.Steps.{after};
ghost use Rattle.wdf_base.specs.declared.event.Fault.{Fault};
ghost use Rattle.wdf_model.specs.Ids.{object_id};
ghost use Rattle.wdf_model.specs.declared.deed.Deed.{Deed};
ghost use Rattle.wdf_model.specs.declared.deed.Deed.TheVariants.{AskDeletion};
ghost use Rattle.wdf_model.specs.rules.Deeds.{counted, do_deed, do_deeds};
ghost use Rattle.wdf_model.specs.rules.Ready.{ready, state_after};
ghost use Rattle.law_machine_base.specs.FactsOfEvents.{IsTick, MovesOnlyFrame, touches_gone};

/// A Local or a Log of a processor's top frame changes nothing but what the script keeps in that frame:
/// no agent hears of it, and no other part, frame, stack or level changes.
#[tactic(auto, using(crate::proofs::FactsOfEvents::local_moves_frame, crate::proofs::FactsOfEvents::log_moves_frame))]
pub fn steps_inside_a_frame<A>()
    ensures local { (plan : Plan) (m : Meaning A) (S : State A) (cpu : Cpu) (line f : ℕ) → top S.cpus cpu.0 ≡ Some f
        → MovesOnlyFrame f S (after plan m S (event.Local cpu line)) }
    ensures log { (plan : Plan) (m : Meaning A) (S : State A) (cpu : Cpu) (v : Value) (f : ℕ) → top S.cpus cpu.0 ≡ Some f
        → MovesOnlyFrame f S (after plan m S (event.Log cpu v)) }
{}

/// No start, cleanup or end that may follow names an object that is gone.
#[tactic(auto, using(crate::proofs::FactsOfEvents::nothing_gone_is_touched))]
pub fn nothing_gone_is_touched<A>()
    ensures { (plan : Plan) (m : Meaning A) (run : List Event) (k : ℕ) (e : Event) → slice_get (ready plan m run) k ≡ Some e
        → touches_gone (state_after plan m run).tree e ≡ false }
{}

/// Time passes only where nothing else may follow and something waits for it.
#[tactic(auto, using(crate::proofs::FactsOfEvents::tick_is_alone))]
pub fn time_passes_alone<A>()
    ensures { (plan : Plan) (m : Meaning A) (run : List Event) (k time : ℕ) → slice_get (ready plan m run) k ≡ Some (event.Tick time)
        → IsTick m (state_after plan m run) (ready plan m run) (event.Tick time) }
{}

/// Nothing follows a fault.
#[tactic(auto, using(crate::proofs::Follows::fault_ends))]
pub fn fault_ends_the_run<A>()
    ensures { (plan : Plan) (m : Meaning A) (run : List Event) (cpu : Cpu) (x : Fault) (line : ℕ)
        → ready plan m (run ++ event.Fault cpu x line ∷ []) ≡ [] }
{}

/// To ask the deletion of an object twice is to ask it once.
#[tactic(auto, using(crate::proofs::Deletion::asking_twice))]
pub fn deletion_is_asked_once<A>()
    ensures { (plan : Plan) (S : State A) (o : ℕ)
        → do_deed plan (AskDeletion (object_id o)) (do_deed plan (AskDeletion (object_id o)) S) ≡ do_deed plan (AskDeletion (object_id o)) S }
{}

/// To count an event, and let the agents hear of it, before its deeds or after them is the same.
#[tactic(auto, using(wdf_model::proofs::Counting::counted_first))]
pub fn counting_commutes<A>()
    ensures { (plan : Plan) (m : Meaning A) (ds : List Deed) (e : Event) (S : State A) → do_deeds plan ds (counted m e S) ≡ counted m e (do_deeds plan ds S) }
{}
