//! The frames on the stacks, and the callbacks that have begun and not ended.
ghost use Rattle.std.specs.Prelude.{◌≡◌, ◌+◌, ◌<◌, ◌^◌, filter, length, position, IfSome, OnOk};
ghost use Rattle.wdf_laws.specs.Frames as frames;

use std::alloc::Global;
use std::marker::Model;
use wdf_base::{Event, Memory};
use wdf_laws::{Begun, Stacked};

/// The frames after the events so far.
#[derive(Drop)]
pub struct Frames {
    number: u64,
    stacks: Vec<Stacked>,
    begun: Vec<Begun>,
}

impl Model for Frames {
    ghost use Rattle.wdf_laws.specs.Frames.{Frames as Seen};

    ghost Value = { Seen };

    ghost view = { λ a. record { number = a.number; stacks = a.stacks.items; begun = a.begun.items } };
}

impl Frames {
    /// Nothing has begun.
    pub fn make(alloc: Global) -> Frames
        ensures { result ≡ frames.no_frames }
    {
        Frames {
            number: 0,
            stacks: Vec::new(alloc),
            begun: Vec::new(alloc),
        }
    }

    /// The frames on the stacks; of one processor the first is the top.
    pub fn stacks(&self) -> &[Stacked]
        ensures { result.now ≡ self.now.stacks }
    {
        &self.stacks
    }

    /// The callbacks that have begun and not ended.
    pub fn begun(&self) -> &[Begun]
        ensures { result.now ≡ self.now.begun }
    {
        &self.begun
    }

    /// One event more.
    ///
    /// # Errors
    ///
    /// [`Memory`] where memory was refused. Nothing is said of the frames then.
    pub fn step(&mut self, event: &Event) -> Result<(), Memory>
        requires { self.old.number + 1 < 2 ^ 64 }
        ensures { OnOk result (self.new ≡ frames.frames_step self.old event.now) }
    {
        let number = self.number + 1;
        match event {
            Event::Start {
                cpu,
                callback,
                object,
                ..
            } => {
                push(&mut self.stacks, cpu.0, number)?;
                self.begun.push(Begun {
                    frame: number,
                    callback: *callback,
                    object: object.id.0,
                })?;
            }
            Event::Unpark { cpu, frame } => push(&mut self.stacks, cpu.0, u64::from(frame.0))?,
            Event::Park { cpu, .. } => take_top(&mut self.stacks, cpu.0),
            Event::End { cpu, .. } => {
                let top = top_of(&self.stacks, cpu.0);
                take_top(&mut self.stacks, cpu.0);
                end(&mut self.begun, top);
            }
            _ => {}
        }
        self.number = number;
        Ok(())
    }
}

fn top_of(stacks: &[Stacked], cpu: u8) -> Option<Stacked>
    ensures { result ≡ frames.top_of cpu stacks.now }
{
    stacks.iter().copied().find(|stacked| is_on(cpu, stacked))
}

/// Whether a frame is on this processor.
pub fn is_on(cpu: u8, stacked: &Stacked) -> bool
    ensures { result ≡ frames.is_on cpu stacked.now }
{
    stacked.cpu == cpu
}

fn place_of_top(stacks: &[Stacked], cpu: u8) -> Option<usize>
    ensures value { result ≡ position (frames.is_on cpu) stacks.now }
    ensures small { IfSome result (λ k. k < length stacks.now) }
{
    stacks.iter().position(|stacked| is_on(cpu, stacked))
}

fn push(stacks: &mut Vec<Stacked>, cpu: u8, frame: u64) -> Result<(), Memory>
    ensures { OnOk result (stacks.new.items ≡ frames.pushed cpu frame stacks.old.items) }
{
    stacks.insert(0, Stacked { cpu, frame })?;
    Ok(())
}

fn take_top(stacks: &mut Vec<Stacked>, cpu: u8)
    ensures { stacks.new.items ≡ frames.without_top cpu stacks.old.items }
{
    match place_of_top(stacks, cpu) {
        Some(k) => {
            stacks.remove(k);
        }
        None => {}
    }
}

fn end(begun: &mut Vec<Begun>, top: Option<Stacked>)
    ensures { begun.new.items ≡ frames.without_ended top begun.old.items }
{
    match top {
        Some(stacked) => drop_frame(begun, stacked.frame),
        None => {}
    }
}

fn drop_frame(begun: &mut Vec<Begun>, frame: u64)
    ensures { begun.new.items ≡ filter (frames.is_other frame) begun.old.items }
{
    begun.retain(|other| other.frame != frame);
}
