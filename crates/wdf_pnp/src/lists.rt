//! The lists of steps. Each function adds a list at the end of a vector that has the room for it.

ghost use Rattle.std.specs.Prelude.{◌≡◌, ◌+◌, ◌*◌, ◌≤◌, ◌++◌, [], length, reverse, vec_capacity, vec_len};
ghost use Rattle.std.specs.List.{flat_map, list_any};
ghost use Rattle.wdf_base.specs.Same as same;
ghost use Rattle.wdf_model.specs.parts.Pnp as pnp;

use crate::interrupt::InterruptSteps;
use std::alloc::Global;
use std::marker::Model;
use wdf_base::{Ask, Callback, Handle, Stage, Step, same_callback};
use wdf_model::Phase;

/// What a device's steps are made of.
#[derive(Drop)]
pub(crate) struct DeviceSteps {
    /// The callbacks that it declares.
    pub(crate) callbacks: Vec<Callback>,
    /// Its interrupts in order.
    pub(crate) interrupts: Vec<InterruptSteps>,
}

impl Model for DeviceSteps {
    ghost use Rattle.wdf_model.specs.parts.Pnp as pnp;

    ghost Value = { pnp.DeviceSteps };

    ghost view = { λ p. record { callbacks = p.callbacks.items; interrupts = p.interrupts.items } };
}

/// Whether a callback is among the declared ones.
fn declares(callbacks: &[Callback], callback: Callback) -> bool
    ensures { result ≡ list_any (same.same_callback callback) callbacks.now }
{
    callbacks
        .iter()
        .any(|declared| same_callback(callback, *declared))
}

/// A stage.
fn pass(left: &mut Vec<Step>, stage: Stage)
    requires room { vec_len left.old + 1 ≤ vec_capacity left.old }
    ensures items { left.new.items ≡ left.old.items ++ pnp.pass stage }
    ensures few { vec_len left.new ≤ vec_len left.old + 1 }
    ensures room { vec_capacity left.new ≡ vec_capacity left.old }
{
    left.push_reserved(Step::Pass {
        stage,
        interrupt: None,
    });
}

/// A callback of an interrupt, if it is declared.
fn run_if(left: &mut Vec<Step>, declared: bool, callback: Callback, interrupt: Handle)
    requires room { vec_len left.old + 1 ≤ vec_capacity left.old }
    ensures items { left.new.items ≡ left.old.items ++ pnp.run_if declared callback interrupt }
    ensures few { vec_len left.new ≤ vec_len left.old + 1 }
    ensures room { vec_capacity left.new ≡ vec_capacity left.old }
{
    if declared {
        left.push_reserved(Step::Run {
            callback,
            interrupt: Some(interrupt),
        });
    }
}

/// An interrupt is enabled.
fn enable(left: &mut Vec<Step>, steps: &InterruptSteps)
    requires room { vec_len left.old + 2 ≤ vec_capacity left.old }
    ensures items { left.new.items ≡ left.old.items ++ pnp.enable_steps steps.now }
    ensures few { vec_len left.new ≤ vec_len left.old + 2 }
    ensures room { vec_capacity left.new ≡ vec_capacity left.old }
{
    run_if(
        left,
        steps.enables,
        Callback::EvtInterruptEnable,
        steps.interrupt,
    );
    left.push_reserved(Step::Pass {
        stage: Stage::Enabled,
        interrupt: Some(steps.interrupt),
    });
}

/// An interrupt is disabled.
fn disable(left: &mut Vec<Step>, steps: &InterruptSteps)
    requires room { vec_len left.old + 2 ≤ vec_capacity left.old }
    ensures items { left.new.items ≡ left.old.items ++ pnp.disable_steps steps.now }
    ensures few { vec_len left.new ≤ vec_len left.old + 2 }
    ensures room { vec_capacity left.new ≡ vec_capacity left.old }
{
    left.push_reserved(Step::Pass {
        stage: Stage::Disabled,
        interrupt: Some(steps.interrupt),
    });
    run_if(
        left,
        steps.disables,
        Callback::EvtInterruptDisable,
        steps.interrupt,
    );
}

/// All interrupts are enabled, in order.
fn enable_all(left: &mut Vec<Step>, interrupts: &[InterruptSteps])
    requires room { vec_len left.old + 2 * length interrupts.now ≤ vec_capacity left.old }
    ensures items { left.new.items ≡ left.old.items ++ flat_map pnp.enable_steps interrupts.now }
    ensures few { vec_len left.new ≤ vec_len left.old + 2 * length interrupts.now }
    ensures room { vec_capacity left.new ≡ vec_capacity left.old }
{
    for interrupt in interrupts {
        enable(left, interrupt);
    }
}

/// All interrupts are disabled, the last one first. (own)
fn disable_all(left: &mut Vec<Step>, interrupts: &[InterruptSteps])
    requires room { vec_len left.old + 2 * length interrupts.now ≤ vec_capacity left.old }
    ensures items { left.new.items ≡ left.old.items ++ flat_map pnp.disable_steps (reverse interrupts.now) }
    ensures few { vec_len left.new ≤ vec_len left.old + 2 * length interrupts.now }
    ensures room { vec_capacity left.new ≡ vec_capacity left.old }
{
    for interrupt in interrupts.iter().rev() {
        disable(left, interrupt);
    }
}

/// The wait for the interrupts' EvtInterruptDpc, where there is an interrupt.
fn quiet(left: &mut Vec<Step>, interrupts: &[InterruptSteps])
    requires room { vec_len left.old + 1 ≤ vec_capacity left.old }
    ensures items { left.new.items ≡ left.old.items ++ pnp.quiet_steps interrupts.now }
    ensures few { vec_len left.new ≤ vec_len left.old + 1 }
    ensures room { vec_capacity left.new ≡ vec_capacity left.old }
{
    if !interrupts.is_empty() {
        pass(left, Stage::Quiet);
    }
}

impl DeviceSteps {
    /// Of what has no steps.
    pub(crate) fn none(alloc: Global) -> DeviceSteps
        ensures { result ≡ record { callbacks = []; interrupts = [] } }
    {
        DeviceSteps {
            callbacks: Vec::new(alloc),
            interrupts: Vec::new(alloc),
        }
    }

    /// Whether the device declares a callback.
    pub(crate) fn declares(&self, callback: Callback) -> bool
        ensures { result ≡ list_any (same.same_callback callback) self.now.callbacks }
    {
        declares(&self.callbacks, callback)
    }

    /// A callback of the device, if it is declared.
    fn run(&self, left: &mut Vec<Step>, callback: Callback)
        requires room { vec_len left.old + 1 ≤ vec_capacity left.old }
        ensures items { left.new.items ≡ left.old.items ++ pnp.run self.now callback }
        ensures few { vec_len left.new ≤ vec_len left.old + 1 }
        ensures room { vec_capacity left.new ≡ vec_capacity left.old }
    {
        if self.declares(callback) {
            left.push_reserved(Step::Run {
                callback,
                interrupt: None,
            });
        }
    }

    /// The device gets power: its interrupts are enabled after EvtDeviceD0Entry, and then its
    /// queues come up. (KMDF; the order is own)
    fn up(&self, left: &mut Vec<Step>, ever_working: bool)
        requires room { vec_len left.old + 2 * length self.now.interrupts + 5 ≤ vec_capacity left.old }
        ensures items { left.new.items ≡ left.old.items ++ pnp.up_steps self.now ever_working }
        ensures few { vec_len left.new ≤ vec_len left.old + 2 * length self.now.interrupts + 5 }
        ensures room { vec_capacity left.new ≡ vec_capacity left.old }
    {
        self.run(left, Callback::EvtDeviceD0Entry);
        enable_all(left, &self.interrupts);
        self.run(left, Callback::EvtDeviceD0EntryPostInterruptsEnabled);
        pass(left, Stage::QueuesUp);
        self.run(left, self_managed_start(ever_working));
        pass(left, Stage::Working);
    }

    /// The device loses power: its queues go down and what is held from them settles, and its
    /// interrupts are disabled before EvtDeviceD0Exit. (KMDF; the order is own)
    fn down(&self, left: &mut Vec<Step>)
        requires room { vec_len left.old + 2 * length self.now.interrupts + 6 ≤ vec_capacity left.old }
        ensures items { left.new.items ≡ left.old.items ++ pnp.down_steps self.now }
        ensures few { vec_len left.new ≤ vec_len left.old + 2 * length self.now.interrupts + 6 }
        ensures room { vec_capacity left.new ≡ vec_capacity left.old }
    {
        self.run(left, Callback::EvtDeviceSelfManagedIoSuspend);
        pass(left, Stage::QueuesDown);
        pass(left, Stage::Settled);
        self.run(left, Callback::EvtDeviceD0ExitPreInterruptsDisabled);
        disable_all(left, &self.interrupts);
        quiet(left, &self.interrupts);
        self.run(left, Callback::EvtDeviceD0Exit);
    }

    /// The device gets its hardware. (KMDF)
    fn hard(&self, left: &mut Vec<Step>)
        requires room { vec_len left.old + 2 ≤ vec_capacity left.old }
        ensures items { left.new.items ≡ left.old.items ++ pnp.hard_steps self.now }
        ensures few { vec_len left.new ≤ vec_len left.old + 2 }
        ensures room { vec_capacity left.new ≡ vec_capacity left.old }
    {
        pass(left, Stage::Hardware);
        self.run(left, Callback::EvtDevicePrepareHardware);
    }

    /// The last callbacks of a device that was ever Working. (KMDF)
    fn flush(&self, left: &mut Vec<Step>, ever_working: bool)
        requires room { vec_len left.old + 2 ≤ vec_capacity left.old }
        ensures items { left.new.items ≡ left.old.items ++ pnp.flush_steps self.now ever_working }
        ensures few { vec_len left.new ≤ vec_len left.old + 2 }
        ensures room { vec_capacity left.new ≡ vec_capacity left.old }
    {
        if ever_working {
            self.run(left, Callback::EvtDeviceSelfManagedIoFlush);
            self.run(left, Callback::EvtDeviceSelfManagedIoCleanup);
        }
    }

    /// The device ends, from where its hardware is given back. (KMDF; the order is own)
    pub(crate) fn end(&self, left: &mut Vec<Step>, ever_working: bool)
        requires room { vec_len left.old + 5 ≤ vec_capacity left.old }
        ensures items { left.new.items ≡ left.old.items ++ pnp.end_steps self.now ever_working }
        ensures few { vec_len left.new ≤ vec_len left.old + 5 }
        ensures room { vec_capacity left.new ≡ vec_capacity left.old }
    {
        pass(left, Stage::NoHardware);
        pass(left, Stage::Closed);
        self.flush(left, ever_working);
        pass(left, Stage::Removed);
    }

    /// The device gives its hardware back, and ends. (KMDF)
    pub(crate) fn tail(&self, left: &mut Vec<Step>, ever_working: bool)
        requires room { vec_len left.old + 6 ≤ vec_capacity left.old }
        ensures items { left.new.items ≡ left.old.items ++ pnp.tail_steps self.now ever_working }
        ensures few { vec_len left.new ≤ vec_len left.old + 6 }
        ensures room { vec_capacity left.new ≡ vec_capacity left.old }
    {
        self.run(left, Callback::EvtDeviceReleaseHardware);
        self.end(left, ever_working);
    }

    /// What each post asks of a device that is Off. (own)
    fn off(&self, left: &mut Vec<Step>, ever_working: bool, ask: Ask)
        requires room { vec_len left.old + 2 * length self.now.interrupts + 7 ≤ vec_capacity left.old }
        ensures items { left.new.items ≡ left.old.items ++ pnp.steps_off self.now ever_working ask }
        ensures few { vec_len left.new ≤ vec_len left.old + 2 * length self.now.interrupts + 7 }
        ensures room { vec_capacity left.new ≡ vec_capacity left.old }
    {
        match ask {
            Ask::Start => {
                self.hard(left);
                self.up(left, ever_working);
            }
            Ask::Remove | Ask::Surprise => {
                pass(left, Stage::Closed);
                pass(left, Stage::Removed);
            }
            Ask::Sleep | Ask::Wake | Ask::Rebalance => {}
        }
    }

    /// The device powers down, gets other hardware, and powers up. (own)
    fn rebalance(&self, left: &mut Vec<Step>, ever_working: bool)
        requires room { vec_len left.old + 4 * length self.now.interrupts + 16 ≤ vec_capacity left.old }
        ensures items { left.new.items ≡ left.old.items ++ pnp.steps_working self.now ever_working Ask.Rebalance }
        ensures few { vec_len left.new ≤ vec_len left.old + 4 * length self.now.interrupts + 16 }
        ensures room { vec_capacity left.new ≡ vec_capacity left.old }
    {
        self.run(left, Callback::EvtDeviceQueryStop);
        self.down(left);
        self.run(left, Callback::EvtDeviceReleaseHardware);
        pass(left, Stage::NoHardware);
        self.hard(left);
        self.up(left, ever_working);
    }

    /// What each post asks of a device that is Working. (KMDF; the driver may refuse a rebalance
    /// and a removal)
    fn working(&self, left: &mut Vec<Step>, ever_working: bool, ask: Ask)
        requires room { vec_len left.old + 4 * length self.now.interrupts + 16 ≤ vec_capacity left.old }
        ensures items { left.new.items ≡ left.old.items ++ pnp.steps_working self.now ever_working ask }
        ensures few { vec_len left.new ≤ vec_len left.old + 4 * length self.now.interrupts + 16 }
        ensures room { vec_capacity left.new ≡ vec_capacity left.old }
    {
        match ask {
            Ask::Sleep => {
                self.down(left);
                pass(left, Stage::Sleeping);
            }
            Ask::Rebalance => self.rebalance(left, ever_working),
            Ask::Remove => {
                self.run(left, Callback::EvtDeviceQueryRemove);
                self.down(left);
                self.tail(left, ever_working);
            }
            Ask::Surprise => {
                self.run(left, Callback::EvtDeviceSurpriseRemoval);
                self.down(left);
                self.tail(left, ever_working);
            }
            Ask::Start | Ask::Wake => {}
        }
    }

    /// What each post asks of a device that is Sleeping: it is removed without being woken. (own)
    fn sleeping(&self, left: &mut Vec<Step>, ever_working: bool, ask: Ask)
        requires room { vec_len left.old + 2 * length self.now.interrupts + 7 ≤ vec_capacity left.old }
        ensures items { left.new.items ≡ left.old.items ++ pnp.steps_sleeping self.now ever_working ask }
        ensures few { vec_len left.new ≤ vec_len left.old + 2 * length self.now.interrupts + 7 }
        ensures room { vec_capacity left.new ≡ vec_capacity left.old }
    {
        match ask {
            Ask::Wake => self.up(left, ever_working),
            Ask::Remove => {
                self.run(left, Callback::EvtDeviceQueryRemove);
                self.tail(left, ever_working);
            }
            Ask::Surprise => {
                self.run(left, Callback::EvtDeviceSurpriseRemoval);
                self.tail(left, ever_working);
            }
            Ask::Start | Ask::Sleep | Ask::Rebalance => {}
        }
    }

    /// The steps that a post gives a device of a phase: none where it changes nothing. (own)
    pub(crate) fn asked(&self, left: &mut Vec<Step>, ever_working: bool, phase: Phase, ask: Ask)
        requires room { vec_len left.old + 4 * length self.now.interrupts + 16 ≤ vec_capacity left.old }
        ensures items { left.new.items ≡ left.old.items ++ pnp.steps_for self.now ever_working phase ask }
        ensures room { vec_capacity left.new ≡ vec_capacity left.old }
    {
        match phase {
            Phase::Off => self.off(left, ever_working, ask),
            Phase::Working => self.working(left, ever_working, ask),
            Phase::Sleeping => self.sleeping(left, ever_working, ask),
            Phase::Removed => {}
        }
    }
}

/// The callback of the first power-up of a device, or of a later one. (KMDF)
pub(crate) fn self_managed_start(ever_working: bool) -> Callback
    ensures { result ≡ pnp.self_managed_start ever_working }
{
    if ever_working {
        Callback::EvtDeviceSelfManagedIoRestart
    } else {
        Callback::EvtDeviceSelfManagedIoInit
    }
}
