//! Laws over all runs of the machine: what its states agree on of marks, cleanups and frames; what starts are allowed by,
//! what calls name, and what a request is that the driver makes.
ghost use Rattle.std.specs.Prelude.{◌≡◌, ℕ, suc, true, false, List, Option, Some, slice_get, take};
ghost use Rattle.wdf_base.specs.Meaning.{Meaning};
ghost use Rattle.wdf_base.specs.Resolved.{IsResolved};
ghost use Rattle.wdf_base.specs.declared.plan.Plan.{Plan};
ghost use Rattle.wdf_base.specs.declared.ids.Cpu.{Cpu};
ghost use Rattle.wdf_base.specs.declared.ids.Handle.{Handle};
ghost use Rattle.wdf_base.specs.declared.call.Call.{Call};
ghost use Rattle.wdf_base.specs.declared.call.Callback.{Callback};
ghost use Rattle.wdf_base.specs.declared.event.Event.{Event};
ghost use Rattle.wdf_base.specs.declared.event.Event.TheVariants as event;
ghost use Rattle.wdf_base.specs.declared.object.Kind.TheVariants as kind;
ghost use Rattle.wdf_model.specs.Plans.{callback_irql, kind_of_class};
ghost use Rattle.wdf_model.specs.State.{declared_in, declares_in};
ghost use Rattle.wdf_model.specs.parts.Locks.{is_free_if_any, lock_of_callback};
ghost use Rattle.wdf_model.specs.rules.Starts.{is_ready_for, level_fits, life_fits};
ghost use Rattle.wdf_model.specs.rules.Ready.{IsRunOf, state_after};
ghost use Rattle.wdf_laws.specs.declared.sign.Sign.TheVariants as sign;
ghost use Rattle.wdf_laws.specs.declared.sign.Told.{Told};
ghost use Rattle.wdf_laws.specs.Events.{told};
ghost use Rattle.wdf_laws.specs.Family.{cleaned_above, most_above};
ghost use Rattle.wdf_laws.specs.Words.{ever};
ghost use Rattle.law_machine_states.specs.Making.{IsNewRequest};
ghost use Rattle.law_machine_states.specs.Naming.{call_of, has_objects, may_come_late, names};
ghost use Rattle.law_machine_states.specs.States.{FramesBeforeCleanup, MarksAgree, NothingBelowCleaned, ParentsThere, WaitsBeforeCleanup};

/// At each place of every run, a request that is marked cancelable is owned and isn't cancelled, and one whose
/// EvtRequestCancel is due is owned and is cancelled.
pub fn marks_agree<A>()
    ensures { (plan : Plan) (m : Meaning A) (run : List Event) → IsRunOf plan m run → (n : ℕ) → MarksAgree (state_after plan m (take n run)) }
{}

/// At each place of every run, no frame runs on a cleaned or gone object, but for that of a destroy callback.
pub fn frames_before_cleanup<A>()
    ensures { (plan : Plan) (m : Meaning A) (run : List Event) → IsRunOf plan m run → (n : ℕ) → FramesBeforeCleanup (state_after plan m (take n run)) }
{}

/// At each place of every run, no frame waits in a call that names an object which is cleaned or gone: an object isn't
/// cleaned up while a call on it waits.
pub fn waits_before_cleanup<A>()
    ensures { (plan : Plan) (m : Meaning A) (run : List Event) → IsRunOf plan m run → (n : ℕ) → WaitsBeforeCleanup (state_after plan m (take n run)) }
{}

/// In every run, where the row of a call asks for an object, the call's argument is an object that is there, of the kind that
/// is asked for. So no call names an object that has ended. After the cleanup of an object no call names it, or what is below
/// it, but for five: WdfObjectReference, WdfObjectDereference, GetContext, SetContext and WdfRequestUnmarkCancelable. All that
/// is so where a call is answered at once, where it begins to wait, and where its wait is over.
pub fn calls_name_what_is_there<A>()
    ensures objects { (plan : Plan) (m : Meaning A) (run : List Event) → IsRunOf plan m run → (n : ℕ) (e : Event) (c : Call) → slice_get run n ≡ Some e → call_of e ≡ Some c → has_objects (state_after plan m (take n run)).tree c ≡ true }
    ensures ended { (plan : Plan) (m : Meaning A) (run : List Event) → IsRunOf plan m run → (n : ℕ) (e : Event) (c : Call) (o : ℕ) → slice_get run n ≡ Some e → call_of e ≡ Some c → names c o ≡ true → ever (sign.Destroyed o) (take n run) ≡ false }
    ensures cleaned { (plan : Plan) (m : Meaning A) (run : List Event) → IsRunOf plan m run → (n : ℕ) (e : Event) (c : Call) (o : ℕ) → slice_get run n ≡ Some e → call_of e ≡ Some c → names c o ≡ true → may_come_late c.kind ≡ false → cleaned_above plan run (take n run) (most_above plan run) o ≡ false }
{}

/// At each place of every run, all objects below a cleaned one are cleaned or gone.
pub fn nothing_below_cleaned<A>()
    ensures { (plan : Plan) (m : Meaning A) (run : List Event) → IsRunOf plan m run → (n : ℕ) → NothingBelowCleaned (state_after plan m (take n run)) }
{}

/// At each place of every run of a resolved plan, the parent of an object that isn't gone isn't gone, but for the driver
/// object, which has none. So no gone object comes between an object and those above it.
pub fn parents_there<A>()
    ensures { (plan : Plan) (m : Meaning A) (run : List Event) → IsResolved plan → IsRunOf plan m run → (n : ℕ) → ParentsThere (state_after plan m (take n run)) }
{}

/// In every run a callback starts only where it is allowed. Something declares it for the object, and it is due. Its object is
/// live; that of a cleanup callback is asked, and that of a destroy callback is cleaned. The processor is empty, or has a
/// lower level than the callback. The lock that the callback needs is free.
pub fn starts_are_allowed<A>()
    ensures declared { (plan : Plan) (m : Meaning A) (run : List Event) → IsRunOf plan m run → (n : ℕ) (cpu : Cpu) (c : Callback) (o : Handle) (r : Option Handle) → slice_get run n ≡ Some (event.Start cpu c o r) → declares_in plan (state_after plan m (take n run)) c o.id.0 ≡ true }
    ensures due { (plan : Plan) (m : Meaning A) (run : List Event) → IsRunOf plan m run → (n : ℕ) (cpu : Cpu) (c : Callback) (o : Handle) (r : Option Handle) → slice_get run n ≡ Some (event.Start cpu c o r) → is_ready_for plan m (state_after plan m (take n run)) cpu.0 c o.id.0 r ≡ true }
    ensures life { (plan : Plan) (m : Meaning A) (run : List Event) → IsRunOf plan m run → (n : ℕ) (cpu : Cpu) (c : Callback) (o : Handle) (r : Option Handle) → slice_get run n ≡ Some (event.Start cpu c o r) → life_fits (state_after plan m (take n run)) c o.id.0 ≡ true }
    ensures level { (plan : Plan) (m : Meaning A) (run : List Event) → IsRunOf plan m run → (n : ℕ) (cpu : Cpu) (c : Callback) (o : Handle) (r : Option Handle) → slice_get run n ≡ Some (event.Start cpu c o r) → level_fits (state_after plan m (take n run)) cpu.0 (callback_irql plan c o.id.0) ≡ true }
    ensures lock { (plan : Plan) (m : Meaning A) (run : List Event) → IsRunOf plan m run → (n : ℕ) (cpu : Cpu) (c : Callback) (o : Handle) (r : Option Handle) → slice_get run n ≡ Some (event.Start cpu c o r) → is_free_if_any (state_after plan m (take n run)).locks (lock_of_callback plan c o.id.0 (declared_in plan (state_after plan m (take n run)) o.id.0)) ≡ true }
{}

/// In every run, a request that the driver makes is new right after the event that makes it. It is Owned and came from no queue.
/// Its device is the nearest one above it, its form is control, its numbers are 0, and it isn't marked or cancelled. What an
/// event makes of a class it tells (`told` of the laws of a trace).
pub fn made_requests_are_new<A>()
    ensures { (plan : Plan) (m : Meaning A) (run : List Event) → IsRunOf plan m run → (n : ℕ) (e : Event) (t : Told) (class : ℕ) → slice_get run n ≡ Some e → told plan e ≡ Some t → t.class ≡ Some class → kind_of_class plan class ≡ kind.Made → IsNewRequest (state_after plan m (take (suc n) run)).tree (state_after plan m (take (suc n) run)).requests t.object }
{}
