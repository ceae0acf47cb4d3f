ghost use Rattle.std.specs.Prelude.{◌≡◌, ◌<◌, length, Some, slice_get, option_map};
ghost use Rattle.wdf_scene.specs.Scene.{picks_of};

use crate::line::{NumberedLine, SceneExpr, SceneLine};
use std::mem;
use wdf_base::{Items, MANY};

/// A scenario as the lines of its text. A block's lines are between its first line and its `end`.
pub struct Scene {
    /// The version of the text: 1, or 2 where it begins with `version 2`.
    pub version: u8,
    /// The lines, in the order of the text.
    pub lines: Items<NumberedLine, MANY>,
    /// The nodes of all expressions, in the order of the text.
    pub exprs: Items<SceneExpr, MANY>,
}

impl Drop for Scene {
    /// Lets go of each list by a call, so that a scene is let go by one call wherever one is owned.
    fn drop(self) {
        let Scene {
            version: _,
            lines,
            exprs,
        } = self;
        mem::drop(lines);
        mem::drop(exprs);
    }
}

impl Scene {
    /// How many lines there are.
    pub fn line_len(&self) -> u32
        ensures { result ≡ length self.now.lines }
    {
        self.lines.len()
    }

    /// Line `k`, counted from 0.
    pub fn line(&self, k: u32) -> SceneLine
        requires { k < length self.now.lines }
        ensures { option_map (λ l. l.form) (slice_get self.now.lines k) ≡ Some result }
    {
        self.lines.item(k).form
    }

    /// The number of line `k` in the text.
    pub fn number(&self, k: u32) -> u32
        requires { k < length self.now.lines }
        ensures { option_map (λ l. l.number) (slice_get self.now.lines k) ≡ Some result }
    {
        self.lines.item(k).number
    }

    /// How many nodes of expressions there are.
    pub fn expr_len(&self) -> u32
        ensures { result ≡ length self.now.exprs }
    {
        self.exprs.len()
    }

    /// The node `e` of the expressions.
    pub fn expr(&self, e: u32) -> SceneExpr
        requires { e < length self.now.exprs }
        ensures { slice_get self.now.exprs e ≡ Some result }
    {
        self.exprs.get(e)
    }

    /// How many numbers follow the word of the `picks` line `k`.
    pub fn pick_len(&self, k: u32) -> u32
        requires { k < length self.now.lines }
        ensures { result ≡ length (picks_of self.now k) }
    {
        self.lines.item(k).picks.len()
    }

    /// Number `j`, counted from 0, of the `picks` line `k`.
    pub fn pick(&self, k: u32, j: u32) -> u64
        requires line { k < length self.now.lines }
        requires within { j < length (picks_of self.now k) }
        ensures { slice_get (picks_of self.now k) j ≡ Some result }
    {
        self.lines.item(k).picks.get(j)
    }
}
