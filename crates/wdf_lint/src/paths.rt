//! Paths that share their beginnings.
ghost use Rattle.std.specs.Prelude.{◌≡◌, ◌<◌, ◌++◌, ◌∷◌, [], length, IfOk, OnOk, Some, slice_get};
ghost use Rattle.wdf_lint.specs.Paths.{longer, paths_of};

use crate::lines::Lines;
use std::alloc::Global;
use std::marker::Model;
use wdf_base::Memory;

/// The end of a path: the number of the path that it goes on, and a line.
#[derive(Clone, Copy)]
pub struct PathEnd {
    pub before: usize,
    pub line: u32,
}

/// Paths by their numbers, from 0. The first is one line; each other is an earlier path and a line more.
#[derive(Drop)]
pub struct Paths {
    ends: Vec<PathEnd>,
}

impl Model for Paths {
    ghost use Rattle.std.specs.Prelude.{List, ℕ};
    ghost use Rattle.wdf_lint.specs.Paths.{AreEnds, paths_of};

    ghost Value = { List (List ℕ) };

    ghost view = { λ s. paths_of s.ends.items };

    ghost invariant = { λ s. AreEnds s.ends.items };
}

impl Paths {
    /// The one path of one line.
    #[tactic(auto, using(crate::proofs::PathTables::paths_one, crate::proofs::PathTables::ends_one))]
    pub fn new(alloc: Global, line: u32) -> Result<Paths, Memory>
        ensures { IfOk result (λ s. s ≡ (line ∷ []) ∷ []) }
    {
        let mut ends = Vec::new(alloc);
        ends.push(PathEnd { before: 0, line })?;
        Ok(Paths { ends })
    }

    /// How many paths there are.
    #[tactic(auto, using(crate::proofs::PathTables::paths_many))]
    pub fn len(&self) -> usize
        ensures { result ≡ length self.now }
    {
        self.ends.len()
    }

    /// Adds the path that goes on path `before` by a line.
    #[tactic(auto, using(crate::proofs::PathTables::paths_more, crate::proofs::PathTables::ends_more))]
    pub fn push(&mut self, before: usize, line: u32) -> Result<(), Memory>
        requires { before < length self.old }
        ensures { OnOk result (self.new ≡ self.old ++ longer self.old before line ∷ []) }
    {
        self.ends.push(PathEnd { before, line })?;
        Ok(())
    }

    /// The lines of path `n`, the first first.
    pub fn lines(&self, alloc: Global, n: usize) -> Result<Lines, Memory>
        requires { n < length self.now }
        ensures { IfOk result (λ p. slice_get self.now n ≡ Some p) }
    {
        let mut lines = Lines::new(alloc);
        let mut at = n;
        while at > 0 {
            lines.push(self.ends[at].line)?;
            at = self.ends[at].before;
        }
        lines.push(self.ends[0].line)?;
        lines.reverse();
        Ok(lines)
    }
}
