ghost use Rattle.std.specs.Prelude.{◌≡◌, ℕ, Bool, IsTrue, List, [], ◌∷◌, ◌++◌, slice_get, take};
ghost use Rattle.wdf_model.specs.Runs.{IsRun, Picked};

/// The empty list of events is a run.
#[tactic(auto, using(wdf_model::proofs::Runs::run_opens))]
pub fn run_opens<E>()
    ensures { (ready : List E → List E) → IsRun ready [] }
{}

/// A run goes on by any event that may follow it.
#[tactic(auto, using(wdf_model::proofs::Runs::run_goes_on))]
pub fn run_goes_on<E>()
    ensures { (ready : List E → List E) (run : List E) (event : E) (place : ℕ)
        → IsRun ready run → slice_get (ready run) place ≡ Some event → IsRun ready (run ++ event ∷ []) }
{}

/// The first events of a run are a run, at each place.
#[tactic(auto, using(wdf_model::proofs::Runs::run_front))]
pub fn run_front<E>()
    ensures { (ready : List E → List E) (run : List E) (place : ℕ) → IsRun ready run → IsRun ready (take place run) }
{}

/// What goes on from a run by picks is a run.
#[tactic(auto, using(wdf_model::proofs::Runs::picked_is_run))]
pub fn picked_is_run<E>()
    ensures { (ready : List E → List E) (picks : List ℕ) (start run : List E)
        → IsRun ready start → Picked ready picks start run → IsRun ready run }
{}

/// The picks determine the run: there is at most one.
#[tactic(auto, using(wdf_model::proofs::Runs::picked_once))]
pub fn picked_once<E>()
    ensures { (ready : List E → List E) (picks : List ℕ) (start one other : List E)
        → Picked ready picks start one → Picked ready picks start other → one ≡ other }
{}

/// What holds at the opening and is kept by each event that may follow holds at each place of a run.
pub fn kept_along<E>()
    ensures { (ready : List E → List E) (kept : List E → Bool) (run : List E) → IsTrue (kept [])
        → ((before : List E) (event : E) (place : ℕ) → IsRun ready before → IsTrue (kept before)
        → slice_get (ready before) place ≡ Some event → IsTrue (kept (before ++ event ∷ [])))
        → IsRun ready run → (place : ℕ) → IsTrue (kept (take place run)) }
{}
