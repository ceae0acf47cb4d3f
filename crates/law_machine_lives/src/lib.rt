//! Laws over all runs of the machine: what its parts agree on of locks, levels, frames, lives, deferred work, arrivals and
//! the devices of requests.
//!
//! # Choices
//!
//! - **Why does the law on lives ask for a resolved plan?** A deletion goes down from parent to child by rising ids.
//!   In a plan that no text has, a queue could be declared before its device, or name a device that isn't there; it
//!   would stay live where its parent doesn't.
//! - **Why does the law on levels ask for one?** Its proof uses that no script of an interrupt's callback belongs to
//!   a class of spin locks: such a callback would hold a lock above its own level.
#![tactic(auto)]

ghost use Rattle.std.specs.Prelude.{◌≡◌, ℕ, true, List, take};
ghost use Rattle.wdf_base.specs.Meaning.{Meaning};
ghost use Rattle.wdf_base.specs.Resolved.{IsResolved};
ghost use Rattle.wdf_base.specs.declared.plan.Plan.{Plan};
ghost use Rattle.wdf_base.specs.declared.event.Event.{Event};
ghost use Rattle.wdf_model.specs.rules.Ready.{IsRunOf, state_after};
ghost use Rattle.law_machine_base.specs.Agreement.{levels_agree};
ghost use Rattle.law_machine_lives.specs.Agreements.{ArrivalsAgree, CleanedInOrder, FramesThere, LivesAgree, LocksAgree, WaitingAgree, WorkIsLive};

/// At each place of every run, a lock is held at most once, and by a frame that is there.
#[tactic(auto, using(crate::proofs::FramesLaws::locks_agree_at_each))]
pub fn locks_agree<A>()
    ensures { (plan : Plan) (m : Meaning A) (run : List Event) → IsRunOf plan m run → (n : ℕ) → LocksAgree (state_after plan m (take n run)) }
{}

/// At each place of every run, the object of a frame that is there isn't gone.
#[tactic(auto, using(crate::proofs::FramesLaws::frames_there_at_each))]
pub fn frames_there<A>()
    ensures { (plan : Plan) (m : Meaning A) (run : List Event) → IsRunOf plan m run → (n : ℕ) → FramesThere (state_after plan m (take n run)) }
{}

/// At each place of every run, no object that waits for cleanup is a child of a cleaned one.
#[tactic(auto, using(crate::proofs::CleanedOver::cleaned_in_order_at_each))]
pub fn cleaned_in_order<A>()
    ensures { (plan : Plan) (m : Meaning A) (run : List Event) → IsRunOf plan m run → (n : ℕ) → CleanedInOrder (state_after plan m (take n run)) }
{}

/// At each place of every run, a DPC object, a work item or a timer that is queued is live.
#[tactic(auto, using(crate::proofs::Deferring::work_is_live_at_each))]
pub fn work_is_live<A>()
    ensures { (plan : Plan) (m : Meaning A) (run : List Event) → IsRunOf plan m run → (n : ℕ) → WorkIsLive plan (state_after plan m (take n run)) }
{}

/// At each place of every run, an arrival's agent and number are its own.
#[tactic(auto, using(crate::proofs::ArrivalsOnce::arrivals_agree_at_each))]
pub fn arrivals_agree<A>()
    ensures { (plan : Plan) (m : Meaning A) (run : List Event) → IsRunOf plan m run → (n : ℕ) → ArrivalsAgree (state_after plan m (take n run)) }
{}

/// At each place of every run of a resolved plan, the parent of a live object is live, if it has one.
#[tactic(auto, using(crate::proofs::LivesOver::lives_agree_at_each))]
pub fn lives_agree<A>()
    ensures { (plan : Plan) (m : Meaning A) (run : List Event) → IsResolved plan → IsRunOf plan m run → (n : ℕ) → LivesAgree (state_after plan m (take n run)) }
{}

/// At each place of every run, a request that waits in a queue is of that queue's device.
#[tactic(auto, using(crate::proofs::OfDevices::waiting_agree_at_each))]
pub fn waiting_agree<A>()
    ensures { (plan : Plan) (m : Meaning A) (run : List Event) → IsRunOf plan m run → (n : ℕ) → WaitingAgree plan (state_after plan m (take n run)) }
{}

/// At each place of every run of a resolved plan, the level of each processor is the greatest of the levels of its top
/// frame. These are the level of the frame's callback, and those of the locks that it holds or waits for.
#[tactic(auto, using(crate::proofs::LevelsAgree::levels_agree_at_each))]
pub fn levels_agree<A>()
    ensures { (plan : Plan) (m : Meaning A) (run : List Event) → IsResolved plan → IsRunOf plan m run → (n : ℕ) → levels_agree plan (state_after plan m (take n run)) ≡ true }
{}
