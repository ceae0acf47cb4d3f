//! The laws on stacks of devices, by the events of a run alone, and that every run with the agents of the word `stack` keeps
//! them. What a driver writer has of it: a request that goes down through several drivers is completed at most once at each
//! level, and once where the device of that level was destroyed. A stack comes up from the bottom and goes down from the top.
#![tactic(auto)]

ghost use Rattle.std.specs.Prelude.{◌≡◌, ◌≤◌, ◌<◌, ℕ, true, count_by, List, Some, slice_get, take};
ghost use Rattle.wdf_base.specs.Meaning.{Meaning};
ghost use Rattle.wdf_base.specs.Resolved.{IsResolved};
ghost use Rattle.wdf_base.specs.declared.plan.Plan.{Plan};
ghost use Rattle.wdf_base.specs.declared.ids.Handle.{Handle};
ghost use Rattle.wdf_base.specs.declared.event.Event.{Event};
ghost use Rattle.wdf_base.specs.declared.event.Event.TheVariants as event;
ghost use Rattle.wdf_model.specs.rules.Ready.{IsRunOf};
ghost use Rattle.law_machine_base.specs.OverRuns.{completes};
ghost use Rattle.law_stack.specs.Agents.{IsStackMeaning};
ghost use Rattle.law_stack.specs.Descents.{GoesDown, IsBelow, arrives_at};
ghost use Rattle.law_stack.specs.Laws.{order_law, request_law, stack_law};
ghost use Rattle.wdf_stack.specs.Agents.{stack_meaning};

/// Every run of a plan with the agents of the word `stack` keeps the laws on requests at each place. Each arrival by a
/// connector belongs to a Send: there is one without an arrival whose request isn't done. Each `done` by a connector has its
/// cause in the events before it, with that status.
#[tactic(auto, using(crate::proofs::Requests::requests_keep))]
pub fn requests_go_down_and_come_up<A>()
    ensures { (plan : Plan) (m : Meaning A) (run : List Event) (k : ℕ) (e : Event) → IsStackMeaning m → IsRunOf plan m run → slice_get run k ≡ Some e → request_law plan (take k run) e ≡ true }
{}

/// Every run of a resolved plan with these agents keeps the law on order at each place. A device is asked to start or wake only
/// while the one below it is Working, and to sleep or go only while the one above it isn't.
pub fn stacks_come_up_and_go_down_in_order<A>()
    ensures { (plan : Plan) (m : Meaning A) (run : List Event) (k : ℕ) (e : Event) → IsStackMeaning m → IsResolved plan → IsRunOf plan m run → slice_get run k ≡ Some e → order_law plan (take k run) e ≡ true }
{}

/// A request that is any number of levels below another is completed at most once.
pub fn each_level_completes_at_most_once<A>()
    ensures { (plan : Plan) (m : Meaning A) (run : List Event) (n r x : ℕ) → IsRunOf plan m run → IsBelow plan run n r x → count_by (completes x) run ≤ 1 }
{}

/// A request that is one level or more below another is completed exactly once where the device at which it arrived was
/// destroyed afterwards.
pub fn each_level_completes_once<A>()
    ensures { (plan : Plan) (m : Meaning A) (run : List Event) (r x j : ℕ) (d : Handle) → IsRunOf plan m run → (down : GoesDown plan run r x) → arrives_at down.post d.id.0 ≡ true
        → down.place < j → slice_get run j ≡ Some (event.Destroy d) → count_by (completes x) run ≡ 1 }
{}

/// The agents of the program's word `stack` are such agents. So its runs keep the laws on requests at each place, and those of a
/// resolved plan keep all laws on stacks.
pub fn runs_of_stack_keep_its_laws()
    ensures agents { IsStackMeaning stack_meaning }
    ensures requests { (plan : Plan) (run : List Event) (k : ℕ) (e : Event) → IsRunOf plan stack_meaning run → slice_get run k ≡ Some e → request_law plan (take k run) e ≡ true }
    ensures all { (plan : Plan) (run : List Event) (k : ℕ) (e : Event) → IsResolved plan → IsRunOf plan stack_meaning run → slice_get run k ≡ Some e → stack_law plan (take k run) e ≡ true }
{}
