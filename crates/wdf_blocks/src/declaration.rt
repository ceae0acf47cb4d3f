//! What a line declares, and what a name may be needed for.
ghost use Rattle.std.specs.Prelude.{◌≡◌, ◌==◌};
ghost use Rattle.wdf_base.specs.Same.{same_option};
ghost use Rattle.wdf_blocks.specs.Declarations as spec;

use crate::placed::Placed;
use wdf_base::{Kind, Name};
use wdf_same::same_kind;
use wdf_scene::SceneLine;

/// What a name is declared as.
#[derive(Clone, Copy)]
pub enum Thing {
    /// A device.
    Device,
    /// A queue.
    Queue,
    /// An interrupt.
    Interrupt,
    /// A target.
    Target,
    /// A register.
    Register,
    /// An app.
    App,
    /// A class of objects of this kind.
    Class(Kind),
}

/// A name and what it is declared as.
#[derive(Clone, Copy)]
pub struct Declaration {
    /// The name.
    pub name: Name,
    /// The number of its line in the text.
    pub number: u32,
    /// The place of its line among the scene's lines.
    pub at: u32,
    /// The line of the device in which it is declared.
    pub device: Option<u32>,
    /// What the name is declared as.
    pub thing: Thing,
    /// How many of its sort were declared before: objects, classes, registers or apps.
    pub order: u32,
}

/// What a place in the text needs a name to stand for.
#[derive(Clone, Copy, PartialEq, Eq, Hash)]
pub enum Wanted {
    Anything,
    Device,
    /// A device, a queue, an interrupt or a target.
    Object,
    /// A device or a queue.
    Parent,
    Register,
    /// A register of the device with this line.
    RegisterOf(Option<u32>),
    /// An interrupt of the device with this line.
    InterruptOf(Option<u32>),
    /// A class of objects of this kind.
    ClassOf(Kind),
}

fn declares(placed: &Placed, name: &Name, thing: Thing, order: u32) -> Declaration
    ensures { result ≡ spec.declaration placed.now name.now thing order }
{
    Declaration {
        name: *name,
        number: placed.number,
        at: placed.at,
        device: placed.stand.device,
        thing,
        order,
    }
}

/// What a line declares, if it is a declaration.
#[tactic(auto, unfolding(crate::specs::Declarations::declared_by))]
pub fn declared_by(placed: &Placed, form: &SceneLine) -> Option<Declaration>
    ensures { result ≡ spec.declared_by placed.now form.now }
{
    let counts = placed.counts;
    match form {
        SceneLine::Class { name, kind } => {
            Some(declares(placed, name, Thing::Class(kind.kind()), counts.classes))
        }
        SceneLine::DeferredClass { name, kind, .. } => {
            Some(declares(placed, name, Thing::Class(kind.kind()), counts.classes))
        }
        SceneLine::Device { name, .. } => {
            Some(declares(placed, name, Thing::Device, counts.objects))
        }
        SceneLine::Queue { name, .. } => {
            Some(declares(placed, name, Thing::Queue, counts.objects))
        }
        SceneLine::Interrupt { name, .. } => {
            Some(declares(placed, name, Thing::Interrupt, counts.objects))
        }
        SceneLine::Target { name, .. } => {
            Some(declares(placed, name, Thing::Target, counts.objects))
        }
        SceneLine::Register { name, .. } => {
            Some(declares(placed, name, Thing::Register, counts.registers))
        }
        SceneLine::App { name } => Some(declares(placed, name, Thing::App, counts.apps)),
        _ => None,
    }
}

impl Thing {
    /// Whether it is a device, a queue, an interrupt or a target.
    pub fn is_object(self) -> bool
        ensures { result ≡ spec.is_object self }
    {
        matches!(
            self,
            Thing::Device | Thing::Queue | Thing::Interrupt | Thing::Target
        )
    }

    fn is_parent(self) -> bool
        ensures { result ≡ spec.is_parent self }
    {
        matches!(self, Thing::Device | Thing::Queue)
    }

    fn is_class_of(self, kind: Kind) -> bool
        ensures { result ≡ spec.is_class_of kind self }
    {
        match self {
            Thing::Class(own) => same_kind(own, kind),
            _ => false,
        }
    }
}

impl Declaration {
    /// Whether it is what a place in the text needs.
    pub fn suits(&self, wanted: Wanted) -> bool
        ensures { result ≡ spec.suits wanted self.now }
    {
        match wanted {
            Wanted::Anything => true,
            Wanted::Device => matches!(self.thing, Thing::Device),
            Wanted::Object => self.thing.is_object(),
            Wanted::Parent => self.thing.is_parent(),
            Wanted::Register => matches!(self.thing, Thing::Register),
            Wanted::RegisterOf(device) => {
                matches!(self.thing, Thing::Register) && same_line(self.device, device)
            }
            Wanted::InterruptOf(device) => {
                matches!(self.thing, Thing::Interrupt) && same_line(self.device, device)
            }
            Wanted::ClassOf(kind) => self.thing.is_class_of(kind),
        }
    }

    /// Three things that a place in the text can need it to be, some of them the same. An app is only what suits any need.
    pub fn uses(&self) -> [Wanted; 3] {
        let device = self.device;
        match self.thing {
            Thing::Device => [Wanted::Device, Wanted::Object, Wanted::Parent],
            Thing::Queue => [Wanted::Object, Wanted::Parent, Wanted::Parent],
            Thing::Interrupt => [
                Wanted::Object,
                Wanted::InterruptOf(device),
                Wanted::InterruptOf(device),
            ],
            Thing::Target => [Wanted::Object, Wanted::Object, Wanted::Object],
            Thing::Register => [
                Wanted::Register,
                Wanted::RegisterOf(device),
                Wanted::RegisterOf(device),
            ],
            Thing::App => [Wanted::Anything, Wanted::Anything, Wanted::Anything],
            Thing::Class(kind) => [
                Wanted::ClassOf(kind),
                Wanted::ClassOf(kind),
                Wanted::ClassOf(kind),
            ],
        }
    }
}

/// Whether two lines are one.
pub fn same_line(a: Option<u32>, b: Option<u32>) -> bool
    ensures { result ≡ same_option ◌==◌ a b }
{
    match (a, b) {
        (Some(a), Some(b)) => a == b,
        (None, None) => true,
        _ => false,
    }
}
