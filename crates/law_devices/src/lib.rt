//! Laws over all runs on the devices: what their registers and level lines show is what the events tell, and what they post are
//! their actions, when these are due.
//!
//! # Choices
//!
//! - **Of which agents?** Of any among which are the devices of the machine's definitions (`HasDevices`). Those of the program
//!   are such, and so are those of its idle runs and of its stacks (`programs_have_devices`).
//! - **Is a change of a register seen that no event shows?** No. What a device sets in an access itself comes with the event
//!   of the access, so the value is told by that event and the `when` lines of the plan.
//! - **Which line is a post of?** Two lines may say one action, so the event doesn't tell. The law says that each post can be given
//!   a line so that its action is due there, and no action before it in the text is.
#![tactic(auto)]

ghost use Rattle.std.specs.Prelude.{◌≡◌, ℕ, true, List, Option, Some, is_some, slice_get, take};
ghost use Rattle.wdf_base.specs.Meaning.{Meaning};
ghost use Rattle.wdf_base.specs.Resolved.{IsResolved, action_fits, is_register};
ghost use Rattle.wdf_base.specs.declared.plan.Plan.{Plan};
ghost use Rattle.wdf_base.specs.declared.ids.Cpu.{Cpu};
ghost use Rattle.wdf_base.specs.declared.ids.Handle.{Handle};
ghost use Rattle.wdf_base.specs.declared.call.Callback.TheVariants as callback;
ghost use Rattle.wdf_base.specs.declared.event.Access.TheVariants as access;
ghost use Rattle.wdf_base.specs.declared.event.Action.{Action};
ghost use Rattle.wdf_base.specs.declared.event.Event.{Event};
ghost use Rattle.wdf_base.specs.declared.event.Event.TheVariants as event;
ghost use Rattle.wdf_base.specs.declared.event.Post.TheVariants as post;
ghost use Rattle.wdf_model.specs.Plans.{device_of_agent, device_of_register, interrupt_of};
ghost use Rattle.wdf_model.specs.agents.Device.{Device};
ghost use Rattle.wdf_model.specs.rules.Ready.{IsRunOf, state_after};
ghost use Rattle.wdf_model.specs.rules.Starts.{device_of_interrupt, line_number, shown};
ghost use Rattle.wdf_dev.specs.Agents.{agent_meaning};
ghost use Rattle.wdf_idle.specs.Agents.{idle_meaning};
ghost use Rattle.wdf_stack.specs.Agents.{stack_meaning};
ghost use Rattle.law_devices.specs.Agents.{HasDevices, idle_device, stack_device, usual_device};
ghost use Rattle.law_devices.specs.Posting.{PostsItsActions};
ghost use Rattle.law_devices.specs.Shown.{Line, Register, value_told};

/// The agents of the program have the devices of the machine's definitions: those of `order`, `seed N`, `run` and `watch`,
/// those of `idle`, and those of `stack`.
pub fn programs_have_devices()
    ensures usual { HasDevices agent_meaning usual_device }
    ensures idle { HasDevices idle_meaning idle_device }
    ensures stack { HasDevices stack_meaning stack_device }
{}

/// In every run a read of a register answers the last value that the driver wrote there or that an action of its device set,
/// whichever came last; the value that the scenario declares before the first.
pub fn reads_are_told<A>()
    ensures { (plan : Plan) (m : Meaning A) (device : A → Option Device) (run : List Event) → HasDevices m device → IsResolved plan → IsRunOf plan m run
        → (n : ℕ) (cpu : Cpu) (k v : ℕ) → slice_get run n ≡ Some (event.Register cpu access.Read k v) → v ≡ value_told plan (Register k) (take n run) }
{}

/// In every run a service routine starts only while the level line of its interrupt is 1: of the actions on the line that came so
/// far, the last raised it.
pub fn routines_start_by_their_lines<A>()
    ensures { (plan : Plan) (m : Meaning A) (device : A → Option Device) (run : List Event) → HasDevices m device → IsResolved plan → IsRunOf plan m run
        → (n : ℕ) (cpu : Cpu) (o : Handle) (r : Option Handle) → slice_get run n ≡ Some (event.Start cpu callback.EvtInterruptIsr o r) → value_told plan (Line o.id.0) (take n run) ≡ 1 }
{}

/// At each place of every run each register of the plan, and the level line of each interrupt, shows the value that the events
/// before tell.
pub fn values_are_told<A>()
    ensures registers { (plan : Plan) (m : Meaning A) (device : A → Option Device) (run : List Event) → HasDevices m device → IsResolved plan → IsRunOf plan m run
        → (n k : ℕ) → is_register plan k ≡ true → shown plan m (state_after plan m (take n run)) (device_of_register plan k) k ≡ value_told plan (Register k) (take n run) }
    ensures lines { (plan : Plan) (m : Meaning A) (device : A → Option Device) (run : List Event) → HasDevices m device → IsResolved plan → IsRunOf plan m run
        → (n i : ℕ) → is_some (interrupt_of plan i) ≡ true → shown plan m (state_after plan m (take n run)) (device_of_interrupt plan i) (line_number i) ≡ value_told plan (Line i) (take n run) }
{}

/// In every run what the agent of a device posts are the device's actions, of those that are due the first in the text. An action
/// with `at` is due from its tick on, and is posted once at most. One of a `when` line with a delay is due when the delay is over
/// since the last access that triggers it. Once it was posted, it takes another access.
pub fn devices_post_their_actions<A>()
    ensures { (plan : Plan) (m : Meaning A) (device : A → Option Device) (run : List Event) → HasDevices m device → IsResolved plan → IsRunOf plan m run
        → (d agent : ℕ) → device_of_agent plan agent ≡ Some d → PostsItsActions plan d agent run }
{}

/// In every run of any agents an action is posted by the agent of a device alone, and is about a register or an interrupt of that
/// device.
pub fn actions_are_their_devices<A>()
    ensures { (plan : Plan) (m : Meaning A) (run : List Event) → IsRunOf plan m run
        → (n agent : ℕ) (a : Action) (answer : Option Handle) → slice_get run n ≡ Some (event.Posted agent (post.Act a) answer)
        → (d : ℕ) × (device_of_agent plan agent ≡ Some d) × (action_fits plan (Some d) a ≡ true) }
{}
