ghost use Rattle.std.specs.Prelude.{◌≡◌, [], IfOk, drop, length, None};
ghost use Rattle.wdf_pnp.specs.Opening.{sequence_at};
ghost use Rattle.wdf_model.specs.Tables.{first_of_list};
ghost use Rattle.wdf_model.specs.parts.Pnp as pnp;

use crate::lists::{DeviceSteps, self_managed_start};
use crate::opening::device_steps;
use std::alloc::Global;
use std::marker::Model;
use wdf_base::{Ask, Callback, Memory, ObjectId, Plan, Stage, Step, Value, same_callback};
use wdf_declared::device_of;
use wdf_model::Phase;

/// How far a device has come, and what it has left of its list of steps.
#[derive(Drop)]
pub(crate) struct Sequence {
    steps: DeviceSteps,
    phase: Phase,
    /// Whether it was ever Working.
    ever_working: bool,
    /// The list of steps that it was given last. It has room for its longest list.
    list: Vec<Step>,
    /// How many steps of the list are taken.
    taken: usize,
    /// The step whose callback runs.
    running: Option<Step>,
}

impl Model for Sequence {
    ghost use Rattle.std.specs.Prelude.{◌+◌, ◌*◌, ◌≤◌, drop, length, vec_capacity};
    ghost use Rattle.wdf_model.specs.parts.Pnp as pnp;

    ghost Value = { pnp.Sequence };

    ghost view = { λ d. record { steps = d.steps; phase = d.phase; ever_working = d.ever_working; left = drop d.taken d.list.items; running = d.running } };

    ghost invariant = { λ d. (d.taken ≤ length d.list.items) × (4 * length d.steps.interrupts + 16 ≤ vec_capacity d.list) };
}

/// How far a device has come at the opening: one that works is as if a power-up had ended. (own)
fn opening_phase(working: bool) -> Phase
    ensures { result ≡ pnp.opening_phase working }
{
    if working { Phase::Working } else { Phase::Off }
}

impl Sequence {
    /// With no step left, and room for the longest list.
    fn idle(
        alloc: Global,
        steps: DeviceSteps,
        phase: Phase,
        ever_working: bool,
    ) -> Result<Sequence, Memory>
        ensures { IfOk result (λ device. device ≡ record { steps = steps; phase = phase; ever_working = ever_working; left = []; running = None }) }
    {
        let room = 4 * steps.interrupts.len() + 16;
        Ok(Sequence {
            steps,
            phase,
            ever_working,
            list: Vec::with_capacity(alloc, room)?,
            taken: 0,
            running: None,
        })
    }

    /// A device at the opening of the plan's run: one that works is as if a power-up without
    /// callbacks had ended. What is no device has nothing, and is removed. (own)
    pub(crate) fn make(alloc: Global, plan: &Plan, d: ObjectId) -> Result<Sequence, Memory>
        ensures { IfOk result (λ device. device ≡ sequence_at plan.now d.0) }
    {
        match device_of(plan, d) {
            Some(info) => Sequence::idle(
                alloc,
                device_steps(alloc, plan, d)?,
                opening_phase(info.working),
                info.working,
            ),
            None => Sequence::idle(alloc, DeviceSteps::none(alloc), Phase::Removed, false),
        }
    }

    /// The device at the opening of a plan's run once more, where its steps are made of what the plan says.
    pub(crate) fn begin_again(&mut self, plan: &Plan, d: ObjectId)
        requires { self.old.steps ≡ (sequence_at plan.now d.0).steps }
        ensures { self.new ≡ sequence_at plan.now d.0 }
    {
        let device = device_of(plan, d);
        self.list.clear();
        self.taken = 0;
        self.running = None;
        self.ever_working = device.is_some_and(|info| info.working);
        self.phase = match device {
            Some(info) => opening_phase(info.working),
            None => Phase::Removed,
        };
    }

    /// The next step, if one is left.
    pub(crate) fn next_step(&self) -> Option<Step>
        ensures { result ≡ first_of_list self.now.left }
    {
        self.list.get(self.taken).copied()
    }

    /// How many steps are left.
    pub(crate) fn steps_left(&self) -> usize
        ensures { result ≡ length self.now.left }
    {
        self.list.len() - self.taken
    }

    /// The step whose callback runs.
    pub(crate) fn running_step(&self) -> Option<Step>
        ensures { result ≡ self.now.running }
    {
        self.running
    }

    /// Its phase.
    pub(crate) fn phase(&self) -> Phase
        ensures { result ≡ self.now.phase }
    {
        self.phase
    }

    /// Whether the next step is the one after `queues_up`.
    pub(crate) fn follows_queues_up(&self) -> bool
        ensures { result ≡ pnp.follows_up self.now (first_of_list self.now.left) }
    {
        match self.next_step() {
            Some(Step::Run { callback, .. }) => {
                same_callback(callback, Callback::EvtDeviceSelfManagedIoInit)
                    || same_callback(callback, Callback::EvtDeviceSelfManagedIoRestart)
            }
            Some(
                Step::Pass {
                    stage: Stage::Working,
                    ..
                },
            ) => !self.steps.declares(self_managed_start(self.ever_working)),
            _ => false,
        }
    }

    /// The Plug and Play manager asks something of the device: it has the steps of that list left.
    pub(crate) fn ask(&mut self, ask: Ask)
        ensures { self.new ≡ record self.old { left = pnp.steps_for self.old.steps self.old.ever_working self.old.phase ask } }
    {
        self.list.clear();
        self.taken = 0;
        self.steps
            .asked(&mut self.list, self.ever_working, self.phase, ask);
    }

    /// The device passes a stage: three of them are its phases.
    fn pass(&mut self, stage: Stage)
        ensures { self.new ≡ pnp.passed stage self.old }
    {
        match stage {
            Stage::Working => {
                self.phase = Phase::Working;
                self.ever_working = true;
            }
            Stage::Sleeping => self.phase = Phase::Sleeping,
            Stage::Removed => self.phase = Phase::Removed,
            _ => {}
        }
    }

    /// Takes the next step off the list, if one is left.
    fn skip(&mut self) -> Option<Step>
        ensures step { result ≡ first_of_list self.old.left }
        ensures rest { self.new ≡ record self.old { left = drop 1 self.old.left } }
    {
        let step = self.list.get(self.taken).copied()?;
        self.taken += 1;
        Some(step)
    }

    /// The next step is taken: a callback runs, or a stage is passed.
    pub(crate) fn take(&mut self)
        ensures { self.new ≡ pnp.taken_step self.old }
    {
        match self.skip() {
            Some(
                Step::Run {
                    callback,
                    interrupt,
                },
            ) => {
                self.running = Some(Step::Run {
                    callback,
                    interrupt,
                });
            }
            Some(Step::Pass { stage, .. }) => self.pass(stage),
            None => {}
        }
    }

    /// A callback of the device failed: a refused query leaves no step, and a failed start ends the
    /// device. (own)
    fn fail(&mut self, callback: Callback)
        ensures { self.new ≡ record self.old { left = pnp.left_after_failure self.old callback } }
    {
        match callback {
            Callback::EvtDeviceQueryStop | Callback::EvtDeviceQueryRemove => {
                self.list.clear();
                self.taken = 0;
            }
            Callback::EvtDevicePrepareHardware => {
                self.list.clear();
                self.taken = 0;
                self.steps.end(&mut self.list, self.ever_working);
            }
            Callback::EvtDeviceD0Entry => {
                self.list.clear();
                self.taken = 0;
                self.steps.tail(&mut self.list, self.ever_working);
            }
            _ => {}
        }
    }

    /// The callback of a step ends.
    pub(crate) fn end(&mut self, step: Step, value: Value)
        ensures { self.new ≡ record self.old { left = pnp.left_after self.old step value; running = None } }
    {
        self.running = None;
        if let Step::Run { callback, .. } = step {
            if !value.is_success() {
                self.fail(callback);
            }
        }
    }
}
