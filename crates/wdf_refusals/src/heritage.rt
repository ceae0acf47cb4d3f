//! The levels and scopes of devices and queues: their own, or what they inherit.
ghost use Rattle.std.specs.Prelude.{◌≡◌, IfOk, Some, slice_get, option_and_then};
ghost use Rattle.wdf_blocks.specs.Blocks as blocks;
ghost use Rattle.wdf_refusals.specs.Heritage as spec;

use crate::part::{Part, gather};
use std::alloc::Global;
use std::marker::Model;
use wdf_base::{ExecutionLevel, Items, MANY, Memory, Scope};
use wdf_blocks::block::{driver_line, given_level, given_scope};
use wdf_blocks::placed::Placed;
use wdf_blocks::walk::Lines;
use wdf_scene::{Scene, SceneLine};

/// What the lines of a block give it; None where it inherits.
#[derive(Clone, Copy, Drop)]
pub struct Given {
    /// The level, if a line `level` gives one.
    pub level: Option<ExecutionLevel>,
    /// The scope, if a line `scope` gives one.
    pub scope: Option<Scope>,
}

/// The level and the scope that count for a device or a queue.
#[derive(Clone, Copy, Drop)]
pub struct Effective {
    /// The level.
    pub level: ExecutionLevel,
    /// The scope.
    pub scope: Scope,
}

/// The scene, with what its devices, its queues and its `driver` block are given: each was looked up once.
#[derive(Drop)]
pub struct Heritage<'a> {
    scene: &'a Lines<'a>,
    /// For each line of a device or a queue what its block gives.
    blocks: Items<Option<Given>, MANY>,
    driver: Given,
}

impl<'a> Model for Heritage<'a> {
    ghost use Rattle.wdf_scene.specs.declared.scene.Scene.{Scene};
    ghost use Rattle.wdf_refusals.specs.Heritage.{IsKept};

    ghost Value = { Scene };

    ghost view = { λ h. h.scene.now };

    ghost invariant = { λ h. IsKept h.scene.now h.blocks h.driver };
}

#[tactic(auto, unfolding(crate::specs::Heritage::given_in))]
fn given_in(scene: &Scene, block: u32) -> Given
    ensures { result ≡ spec.given_in scene.now block }
{
    Given {
        level: given_level(scene, block),
        scope: given_scope(scene, block),
    }
}

#[tactic(auto, unfolding(crate::specs::Heritage::driver_given, crate::specs::Heritage::given_in))]
fn driver_given(scene: &Scene) -> Given
    ensures { result ≡ spec.driver_given scene.now }
{
    match driver_line(scene) {
        Some(driver) => given_in(scene, driver),
        None => Given {
            level: None,
            scope: None,
        },
    }
}

#[tactic(auto, unfolding(crate::specs::Heritage::has_level))]
fn has_level(form: &SceneLine) -> bool
    ensures { result ≡ spec.has_level form.now }
{
    matches!(form, SceneLine::Device { .. } | SceneLine::Queue { .. })
}

/// What is kept of each line.
#[derive(Drop)]
struct Kept<'a> {
    scene: &'a Scene,
}

impl Part for Kept<'_> {
    type Item = Option<Given>;

    ghost part = { λ s. spec.kept_of s.scene.now };

    ghost fits = { λ s p. Unit {0} };

    #[tactic(auto, unfolding(crate::specs::Heritage::kept_of))]
    fn take(&self, line: &Placed) -> Result<Option<Option<Given>>, Memory> {
        if has_level(&line.form) {
            Ok(Some(Some(given_in(self.scene, line.at))))
        } else {
            Ok(Some(None))
        }
    }
}

fn item(items: &[Option<Given>], at: usize) -> Option<Option<Given>>
    ensures { result ≡ slice_get items.now at }
{
    items.get(at).copied()
}

impl<'a> Heritage<'a> {
    /// The heritage of a scene.
    ///
    /// # Errors
    ///
    /// [`Memory`] where memory was refused.
    pub fn new(alloc: Global, scene: &'a Lines<'a>) -> Result<Heritage<'a>, Memory>
        ensures { IfOk result (λ h. h ≡ scene.now) }
    {
        let own = scene.scene();
        let _lines = own.lines.as_slice();
        let blocks = gather(alloc, scene, &Kept { scene: own })?;
        Ok(Heritage {
            scene,
            blocks,
            driver: driver_given(own),
        })
    }

    /// The scene whose levels and scopes these are.
    pub fn scene(&self) -> &'a Scene
        ensures { result.now ≡ self.now }
    {
        self.scene.scene()
    }

    /// The scene with its lines placed.
    pub fn lines(&self) -> &'a Lines<'a>
        ensures { result.now ≡ self.now }
    {
        self.scene
    }

    // What a block gives, looked up where it isn't kept.
    fn given(&self, block: u32) -> Given
        ensures { result ≡ spec.given_in self.now block }
    {
        match item(self.blocks.as_slice(), block as usize) {
            Some(Some(given)) => given,
            _ => given_in(self.scene(), block),
        }
    }

    // What a device gives to what is in it.
    #[tactic(auto, unfolding(crate::specs::Heritage::given_in))]
    fn of_device(&self, device: Option<u32>) -> Given
        ensures level { result.level ≡ option_and_then (blocks.given_level self.now) device }
        ensures scope { result.scope ≡ option_and_then (blocks.given_scope self.now) device }
    {
        match device {
            Some(device) => self.given(device),
            None => Given {
                level: None,
                scope: None,
            },
        }
    }

    /// The level and the scope of the device or the queue that line `block` declares: its own, else its
    /// device's, else the driver's, else dispatch and no scope.
    #[tactic(auto, unfolding(crate::specs::Heritage::effective, crate::specs::Heritage::given_in, crate::specs::Heritage::driver_given, wdf_blocks::specs::Blocks::effective_level, wdf_blocks::specs::Blocks::effective_scope))]
    pub fn effective(&self, block: u32, device: Option<u32>) -> Effective
        ensures { result ≡ spec.effective self.now block device }
    {
        let own = self.given(block);
        let inherited = self.of_device(device);
        Effective {
            level: own
                .level
                .or(inherited.level)
                .or(self.driver.level)
                .unwrap_or(ExecutionLevel::Dispatch),
            scope: own
                .scope
                .or(inherited.scope)
                .or(self.driver.scope)
                .unwrap_or(Scope::Unscoped),
        }
    }
}
