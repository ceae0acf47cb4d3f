ghost use Rattle.std.specs.Prelude.{◌≡◌, ◌+◌, ◌<◌, ◌^◌, ◌++◌, ◌∷◌, [], length, is_ok, IfOk, if◌then◌else◌};
ghost use Rattle.wdf_scene.specs.Scene.{EndsInPicks, with_pick, last_picks};

use crate::line::{NumberedLine, SceneExpr, SceneLine};
use crate::scene::Scene;
use std::alloc::Global;
use std::marker::Model;
use wdf_base::{Items, Memory};

/// A scene that is being filled. A call answers [`Memory`] where memory was refused, and leaves the scene as it was.
#[derive(Drop)]
pub struct SceneBuilder {
    alloc: Global,
    scene: Scene,
}

impl Model for SceneBuilder {
    ghost use Rattle.wdf_scene.specs.declared.scene.Scene.{Scene};

    ghost Value = { Scene };

    ghost view = { λ b. b.scene };
}

impl SceneBuilder {
    /// The scene of this version with no line.
    pub fn new(alloc: Global, version: u8) -> SceneBuilder
        ensures { result ≡ record { version = version; lines = []; exprs = [] } }
    {
        let scene = Scene {
            version,
            lines: Items::new(alloc),
            exprs: Items::new(alloc),
        };
        SceneBuilder { alloc, scene }
    }

    /// Adds a node of an expression and answers its number.
    pub fn expr(&mut self, node: SceneExpr) -> Result<u32, Memory>
        requires { length self.old.exprs + 1 < 2 ^ 32 }
        ensures number { IfOk result (λ k. k ≡ length self.old.exprs) }
        ensures added { self.new ≡ (if is_ok result then record self.old { exprs = self.old.exprs ++ node ∷ [] } else self.old) }
    {
        let number = self.scene.exprs.len();
        self.scene.exprs.push(node)?;
        Ok(number)
    }

    /// Adds a line with its number in the text.
    pub fn line(&mut self, number: u32, form: SceneLine) -> Result<(), Memory>
        requires { length self.old.lines + 1 < 2 ^ 32 }
        ensures { self.new ≡ (if is_ok result then record self.old { lines = self.old.lines ++ record { number = number; form = form; picks = [] } ∷ [] } else self.old) }
    {
        let line = NumberedLine {
            number,
            form,
            picks: Items::new(self.alloc),
        };
        self.scene.lines.push(line)
    }

    /// Adds a number to the last line, which is a `picks` line.
    pub fn pick(&mut self, n: u64) -> Result<(), Memory>
        requires picks { EndsInPicks self.old }
        requires room { length (last_picks self.old) + 1 < 2 ^ 32 }
        ensures { self.new ≡ (if is_ok result then with_pick self.old n else self.old) }
    {
        let last = self.scene.lines.len() - 1;
        self.scene.lines.item_mut(last).picks.push(n)
    }

    /// The scene.
    pub fn finish(self) -> Scene
        ensures { result ≡ self }
    {
        let SceneBuilder { alloc: _, scene } = self;
        scene
    }
}
