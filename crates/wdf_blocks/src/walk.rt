//! The lines of a scene, each placed once, and the walks over them.
ghost use Rattle.std.specs.Prelude.{◌≡◌, [], ◌∷◌, MatchOption, IfOk};
ghost use Rattle.wdf_blocks.specs.Placed.{placed};

use crate::placed::{Counts, Placed, Stand, counted, nothing, opened_by, outside};
use std::alloc::Global;
use std::marker::Model;
use wdf_base::{Items, MANY, Memory};
use wdf_scene::Scene;

/// The lines of a scene from one on, each placed where it is reached.
#[derive(Drop)]
struct Placing<'a> {
    scene: &'a Scene,
    at: u32,
    stand: Stand,
    counts: Counts,
}

impl<'a> Model for Placing<'a> {
    ghost use Rattle.std.specs.Prelude.{List, drop};
    ghost use Rattle.wdf_blocks.specs.declared.placed.Placed.{Placed};
    ghost use Rattle.wdf_blocks.specs.Placed.{placed_from};
    ghost use Rattle.wdf_blocks.specs.Walk.{IsWithin};

    ghost Value = { List Placed };

    ghost view = { λ w. placed_from w.at w.stand w.counts (drop w.at w.scene.now.lines) };

    ghost invariant = { λ w. IsWithin w.scene.now.lines w.at w.stand w.counts };
}

impl<'a> Placing<'a> {
    /// All lines of a scene.
    fn new(scene: &'a Scene) -> Placing<'a>
        ensures { result ≡ placed scene.now }
    {
        let _lines = scene.lines.len();
        Placing {
            scene,
            at: 0,
            stand: outside(),
            counts: nothing(),
        }
    }

    /// The next line, if there is one.
    fn next(&mut self) -> Option<Placed>
        ensures { MatchOption result (self.old ≡ []) (λ p. self.old ≡ p ∷ self.new) }
    {
        let lines = self.scene.lines.as_slice();
        if self.at as usize >= lines.len() {
            return None;
        }
        let line = &lines[self.at as usize];
        let placed = Placed {
            at: self.at,
            number: line.number,
            form: line.form,
            picks: line.picks.len(),
            stand: self.stand,
            counts: self.counts,
        };
        self.stand = opened_by(self.stand, self.at, &placed.form);
        self.counts = counted(&self.counts, &placed.form, placed.picks);
        self.at += 1;
        Some(placed)
    }
}

/// A scene whose lines are placed, once for all walks over them.
#[derive(Drop)]
pub struct Lines<'a> {
    scene: &'a Scene,
    placed: Items<Placed, MANY>,
}

impl<'a> Model for Lines<'a> {
    ghost use Rattle.wdf_scene.specs.declared.scene.Scene.{Scene};
    ghost use Rattle.wdf_blocks.specs.Walk.{ArePlaced};

    ghost Value = { Scene };

    ghost view = { λ l. l.scene.now };

    ghost invariant = { λ l. ArePlaced l.scene.now l.placed };
}

impl<'a> Lines<'a> {
    /// The scene with its lines placed.
    ///
    /// # Errors
    ///
    /// [`Memory`] where memory was refused.
    pub fn new(alloc: Global, scene: &'a Scene) -> Result<Lines<'a>, Memory>
        ensures { IfOk result (λ l. l ≡ scene.now) }
    {
        let _lines = scene.lines.as_slice();
        let mut placed = Items::new(alloc);
        let mut placing = Placing::new(scene);
        while let Some(line) = placing.next() {
            placed.push(line)?;
        }
        Ok(Lines { scene, placed })
    }

    /// The scene.
    pub fn scene(&self) -> &'a Scene
        ensures { result.now ≡ self.now }
    {
        self.scene
    }

    /// A walk over all lines.
    pub fn walk(&self) -> Walk<'_>
        ensures { result ≡ placed self.now }
    {
        Walk {
            lines: self.placed.as_slice(),
            at: 0,
        }
    }
}

/// The lines of a scene from one on, and where they are.
#[derive(Drop)]
pub struct Walk<'a> {
    lines: &'a [Placed],
    at: usize,
}

impl<'a> Model for Walk<'a> {
    ghost use Rattle.std.specs.Prelude.{List, drop};
    ghost use Rattle.wdf_blocks.specs.declared.placed.Placed.{Placed};

    ghost Value = { List Placed };

    ghost view = { λ w. drop w.at w.lines.now };
}

impl<'a> Walk<'a> {
    /// The next line, if there is one.
    pub fn next(&mut self) -> Option<&'a Placed>
        ensures { MatchOption result (self.old ≡ []) (λ p. self.old ≡ p.now ∷ self.new) }
    {
        if self.at >= self.lines.len() {
            return None;
        }
        let line = &self.lines[self.at];
        self.at += 1;
        Some(line)
    }
}
