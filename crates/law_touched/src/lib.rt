//! A law of the machine: what an event touches. A group of candidates that an event doesn't touch offers the same events
//! before and after it, so that they needn't be looked for again. `specs/Touched.antt` says what each group reads, and what
//! each event changes. A Local or a Log touches the own event of its processor alone.
#![tactic(auto)]

ghost use Rattle.std.specs.Prelude.{◌≡◌, ◌<◌, ◌+◌, ℕ, true, false, List, [], ◌∷◌, ◌++◌, Some, length, slice_get};
ghost use Rattle.std.specs.List.{flat_map, sum_by};
ghost use Rattle.wdf_base.specs.Meaning.{Meaning};
ghost use Rattle.wdf_base.specs.declared.plan.Plan.{Plan};
ghost use Rattle.wdf_base.specs.declared.ids.Cpu.{Cpu};
ghost use Rattle.wdf_base.specs.declared.event.Event.{Event};
ghost use Rattle.wdf_base.specs.declared.event.Event.TheVariants as event;
ghost use Rattle.wdf_base.specs.declared.value.Value.{Value};
ghost use Rattle.wdf_model.specs.State.{State};
ghost use Rattle.wdf_model.specs.declared.enums.Group.{Group};
ghost use Rattle.wdf_model.specs.declared.enums.Group.TheVariants as group;
ghost use Rattle.wdf_model.specs.rules.Groups.{groups};
ghost use Rattle.wdf_model.specs.rules.Ready.{IsRunOf, allowed, ready, state_after};
ghost use Rattle.wdf_model.specs.rules.Steps.{after, may};
ghost use Rattle.law_machine_base.specs.OverRuns.{FramesAgree};
ghost use Rattle.law_machine_once.specs.Owned.{StepsOwned};
ghost use Rattle.law_touched.specs.Touched.{is_of_time, is_own_of, offers, touches, touches_beside_agents};

/// In every run, a group that an event doesn't touch offers the same events before and after it, whatever event may
/// follow.
#[tactic(auto, using(crate::proofs::Runs::untouched_in_run))]
pub fn untouched_groups_stay<A>()
    ensures { (plan : Plan) (m : Meaning A) (run : List Event) (k : ℕ) (e : Event) (g : Group) → IsRunOf plan m run
        → slice_get (ready plan m run) k ≡ Some e → touches plan (state_after plan m run) e g ≡ false
        → offers plan m (state_after plan m run) g ≡ offers plan m (state_after plan m (run ++ e ∷ [])) g }
{}

/// The same of one state, and an event that may come there. In the state frames are there once and steps are their devices'
/// own, as in each state of a run.
#[tactic(auto, using(crate::proofs::Law::untouched))]
pub fn untouched_groups_stay_in_a_state<A>()
    ensures { (plan : Plan) (m : Meaning A) (S : State A) (e : Event) (g : Group) → FramesAgree S → StepsOwned plan S → may plan m S e ≡ true
        → touches plan S e g ≡ false → offers plan m S g ≡ offers plan m (after plan m S e) g }
{}

/// And of a tick, which is no candidate.
#[tactic(auto, using(crate::proofs::Law::untouched_by_the_tick))]
pub fn groups_stay_that_no_tick_touches<A>()
    ensures { (plan : Plan) (m : Meaning A) (S : State A) (time : ℕ) (g : Group) → FramesAgree S → StepsOwned plan S
        → touches plan S (event.Tick time) g ≡ false → offers plan m S g ≡ offers plan m (after plan m S (event.Tick time)) g }
{}

/// Where no agent changes by an event, it touches no group by what agents show or have due.
#[tactic(auto, using(crate::proofs::Unheard::untouched_unheard))]
pub fn groups_stay_where_agents_do<A>()
    ensures { (plan : Plan) (m : Meaning A) (S : State A) (e : Event) (g : Group) → FramesAgree S → StepsOwned plan S → may plan m S e ≡ true
        → S.agents ≡ (after plan m S e).agents → touches_beside_agents plan S e g ≡ false → offers plan m S g ≡ offers plan m (after plan m S e) g }
{}

/// A `let`, an `if` or a `repeat` touches the own event of its processor and no other group.
#[tactic(auto, using(crate::proofs::Law::local_touches))]
pub fn local_touches_its_own_event<A>()
    ensures { (plan : Plan) (S : State A) (cpu : Cpu) (line : ℕ) (g : Group) → touches plan S (event.Local cpu line) g ≡ is_own_of cpu.0 g }
{}

/// So does a `log`.
#[tactic(auto, using(crate::proofs::Law::log_touches))]
pub fn log_touches_its_own_event<A>()
    ensures { (plan : Plan) (S : State A) (cpu : Cpu) (v : Value) (g : Group) → touches plan S (event.Log cpu v) g ≡ is_own_of cpu.0 g }
{}

/// A tick touches the own events, the service routines, the timers and the posts, and no other group.
#[tactic(auto, using(crate::proofs::Law::tick_touches))]
pub fn tick_touches_what_reads_time<A>()
    ensures { (plan : Plan) (S : State A) (time : ℕ) (g : Group) → touches plan S (event.Tick time) g ≡ is_of_time g }
{}

/// After a Local of a run each group but its own offers as many events as before.
#[tactic(auto, using(crate::proofs::Runs::local_counts))]
pub fn local_keeps_the_other_counts<A>()
    ensures { (plan : Plan) (m : Meaning A) (run : List Event) (k : ℕ) (cpu : Cpu) (line : ℕ) (g : Group) → IsRunOf plan m run
        → slice_get (ready plan m run) k ≡ Some (event.Local cpu line) → is_own_of cpu.0 g ≡ false
        → length (offers plan m (state_after plan m run) g) ≡ length (offers plan m (state_after plan m (run ++ event.Local cpu line ∷ [])) g) }
{}

/// The same of a Log.
#[tactic(auto, using(crate::proofs::Runs::log_counts))]
pub fn log_keeps_the_other_counts<A>()
    ensures { (plan : Plan) (m : Meaning A) (run : List Event) (k : ℕ) (cpu : Cpu) (v : Value) (g : Group) → IsRunOf plan m run
        → slice_get (ready plan m run) k ≡ Some (event.Log cpu v) → is_own_of cpu.0 g ≡ false
        → length (offers plan m (state_after plan m run) g) ≡ length (offers plan m (state_after plan m (run ++ event.Log cpu v ∷ [])) g) }
{}

/// So the number of events that may come, time aside, changes by that of the own event alone.
#[tactic(auto, using(crate::proofs::Runs::local_total))]
pub fn local_changes_the_count_by_its_own<A>()
    ensures { (plan : Plan) (m : Meaning A) (run : List Event) (k : ℕ) (cpu : Cpu) (line : ℕ) → IsRunOf plan m run
        → slice_get (ready plan m run) k ≡ Some (event.Local cpu line) → cpu.0 < plan.cpus
        → length (allowed plan m (state_after plan m run)) + length (offers plan m (state_after plan m (run ++ event.Local cpu line ∷ [])) (group.OwnEvent cpu.0))
        ≡ length (allowed plan m (state_after plan m (run ++ event.Local cpu line ∷ []))) + length (offers plan m (state_after plan m run) (group.OwnEvent cpu.0)) }
{}

/// The same of a Log.
#[tactic(auto, using(crate::proofs::Runs::log_total))]
pub fn log_changes_the_count_by_its_own<A>()
    ensures { (plan : Plan) (m : Meaning A) (run : List Event) (k : ℕ) (cpu : Cpu) (v : Value) → IsRunOf plan m run
        → slice_get (ready plan m run) k ≡ Some (event.Log cpu v) → cpu.0 < plan.cpus
        → length (allowed plan m (state_after plan m run)) + length (offers plan m (state_after plan m (run ++ event.Log cpu v ∷ [])) (group.OwnEvent cpu.0))
        ≡ length (allowed plan m (state_after plan m (run ++ event.Log cpu v ∷ []))) + length (offers plan m (state_after plan m run) (group.OwnEvent cpu.0)) }
{}

/// What may come, time aside, is what the groups offer, one after the other.
#[tactic(auto, using(crate::proofs::Law::allowed_by_groups))]
pub fn what_may_come_is_offered<A>()
    ensures { (plan : Plan) (m : Meaning A) (S : State A) → allowed plan m S ≡ flat_map (offers plan m S) (groups plan) }
{}

/// As many events may come as all groups offer together.
#[tactic(auto, using(crate::proofs::Law::allowed_count))]
pub fn counts_add_up<A>()
    ensures { (plan : Plan) (m : Meaning A) (S : State A) → length (allowed plan m S) ≡ sum_by (λ g. length (offers plan m S g)) (groups plan) }
{}
