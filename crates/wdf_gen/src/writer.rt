//! A scene is written line by line.
ghost use Rattle.std.specs.Prelude.{◌≡◌, ◌+◌, ◌≤◌, ◌++◌, ◌∷◌, [], length, OnOk, IfOk};
ghost use Rattle.wdf_scene.specs.Written.{Plain};
ghost use Rattle.wdf_gen.specs.Generated as generated;
ghost use Rattle.wdf_gen.specs.Writing.{extended};

use crate::reads::read_form;
use rand_core::{Rng, SeedableRng};
use rand_xoshiro::SplitMix64;
use std::alloc::Global;
use std::marker::Model;
use wdf_base::{CallKind, Callback, ContextWord, DispatchKind, Memory, Name, Operator, Status};
use wdf_scene::{Scene, SceneArg, SceneBuilder, SceneExpr, SceneLine};

/// How many reads there are.
const READS: u64 = 2_900;

/// A scene that is being written, whose lines are numbered from 1.
#[derive(Drop)]
pub struct Writer {
    builder: SceneBuilder,
    /// The number of the next line.
    next: u32,
}

impl Model for Writer {
    ghost use Rattle.std.specs.Prelude.{◌≡◌, ◌+◌, length};
    ghost use Rattle.wdf_scene.specs.declared.scene.Scene.{Scene};

    ghost Value = { Scene };

    ghost view = { λ w. w.builder };

    ghost invariant = { λ w. w.next ≡ length w.builder.lines + 1 };
}

impl Writer {
    /// The scene with no line.
    pub fn new(alloc: Global) -> Writer
        ensures { result ≡ record { version = 1; lines = []; exprs = [] } }
    {
        Writer {
            builder: SceneBuilder::new(alloc, 1),
            next: 1,
        }
    }

    /// The scene.
    pub fn finish(self) -> Scene
        ensures { result ≡ self }
    {
        let Writer { builder, next: _ } = self;
        builder.finish()
    }

    /// Adds a line with the next number.
    fn add_line(&mut self, form: SceneLine) -> Result<(), Memory>
        requires { length self.old.lines ≤ 100000 }
        ensures { OnOk result (self.new ≡ record self.old { lines = self.old.lines ++ record { number = length self.old.lines + 1; form = form; picks = [] } ∷ [] }) }
    {
        self.builder.line(self.next, form)?;
        self.next += 1;
        Ok(())
    }

    /// Adds the node of an expression, and answers its number.
    fn add_node(&mut self, node: SceneExpr) -> Result<u32, Memory>
        requires { length self.old.exprs ≤ 100000 }
        ensures number { IfOk result (λ e. e ≡ length self.old.exprs) }
        ensures node { OnOk result (self.new ≡ record self.old { exprs = self.old.exprs ++ node ∷ [] }) }
    {
        self.builder.expr(node)
    }

    /// Adds a line that has no expression.
    #[tactic(auto, using(crate::proofs::Extended::growing), unfolding(crate::specs::Writing::extended))]
    fn add_plain(&mut self, form: SceneLine) -> Result<(), Memory>
        requires { length self.old.lines ≤ 100000 }
        ensures written { OnOk result (self.new ≡ extended self.old (Plain form ∷ [])) }
        ensures lines { OnOk result (length self.new.lines ≡ length self.old.lines + 1) }
        ensures exprs { OnOk result (length self.new.exprs ≡ length self.old.exprs) }
    {
        self.add_line(form)
    }

    /// Adds `let x = ( length + 1 )`.
    #[tactic(auto, using(crate::proofs::Extended::growing), unfolding(crate::specs::Writing::extended))]
    fn add_sum(&mut self) -> Result<(), Memory>
        requires room { length self.old.lines ≤ 100000 }
        requires nodes { length self.old.exprs ≤ 10000 }
        ensures written { OnOk result (self.new ≡ extended self.old (generated.sum_line ∷ [])) }
        ensures lines { OnOk result (length self.new.lines ≡ length self.old.lines + 1) }
        ensures exprs { OnOk result (length self.new.exprs ≡ length self.old.exprs + 3) }
    {
        let left = self.add_node(SceneExpr::Context(ContextWord::RequestLength))?;
        let right = self.add_node(SceneExpr::Number(1))?;
        let value = self.add_node(SceneExpr::Binary {
            operator: Operator::Add,
            left,
            right,
        })?;
        self.add_line(SceneLine::Let {
            variable: Name::new(b"x"),
            value,
        })
    }

    /// Adds `call WdfRequestComplete request SUCCESS`.
    #[tactic(auto, using(crate::proofs::Extended::growing), unfolding(crate::specs::Writing::extended))]
    fn add_completion(&mut self) -> Result<(), Memory>
        requires room { length self.old.lines ≤ 100000 }
        requires nodes { length self.old.exprs ≤ 10000 }
        ensures written { OnOk result (self.new ≡ extended self.old (generated.completion_line ∷ [])) }
        ensures lines { OnOk result (length self.new.lines ≡ length self.old.lines + 1) }
        ensures exprs { OnOk result (length self.new.exprs ≡ length self.old.exprs + 2) }
    {
        let request = self.add_node(SceneExpr::Context(ContextWord::OwnRequest))?;
        let status = self.add_node(SceneExpr::Literal(Status::Success))?;
        self.add_line(SceneLine::Call {
            kind: CallKind::WdfRequestComplete,
            into: None,
            a: SceneArg::Expression(request),
            b: SceneArg::Expression(status),
            c: SceneArg::NoArgument,
        })
    }

    /// Adds a device that is working, with its queue.
    #[tactic(auto, using(crate::proofs::Extended::extended_twice))]
    fn add_device(
        &mut self,
        device: Name,
        queue: Name,
        dispatch: DispatchKind,
    ) -> Result<(), Memory>
        requires room { length self.old.lines ≤ 1000 }
        requires nodes { length self.old.exprs ≤ 1000 }
        ensures written { OnOk result (self.new ≡ extended self.old (generated.device_lines device queue dispatch)) }
        ensures lines { OnOk result (length self.new.lines ≡ length self.old.lines + 9) }
        ensures exprs { OnOk result (length self.new.exprs ≡ length self.old.exprs + 5) }
    {
        self.add_plain(SceneLine::Device {
            name: device,
            working: true,
        })?;
        self.add_plain(SceneLine::Queue {
            name: queue,
            dispatch,
        })?;
        self.add_plain(SceneLine::Default)?;
        self.add_plain(SceneLine::On {
            callback: Callback::EvtIoRead,
        })?;
        self.add_sum()?;
        self.add_completion()?;
        self.add_plain(SceneLine::End)?;
        self.add_plain(SceneLine::End)?;
        self.add_plain(SceneLine::End)
    }

    /// Adds the first three lines and the devices.
    #[tactic(auto, using(crate::proofs::Extended::extended_twice))]
    pub fn add_head(&mut self) -> Result<(), Memory>
        requires room { length self.old.lines ≤ 100 }
        requires nodes { length self.old.exprs ≤ 100 }
        ensures written { OnOk result (self.new ≡ extended self.old generated.head_lines) }
        ensures lines { OnOk result (length self.new.lines ≡ length self.old.lines + 21) }
    {
        self.add_plain(SceneLine::Cpus(4))?;
        self.add_plain(SceneLine::Limit(30_000))?;
        self.add_plain(SceneLine::Objects(16))?;
        self.add_device(Name::new(b"E"), Name::new(b"EQ"), DispatchKind::Sequential)?;
        self.add_device(Name::new(b"F"), Name::new(b"FQ"), DispatchKind::Parallel(4))
    }

    /// Adds read `k`, which has this word, if it is one of the app `a`.
    #[tactic(auto, using(crate::proofs::Extended::extended_none))]
    fn add_read(&mut self, a: u64, k: u64, word: u64) -> Result<(), Memory>
        requires { length self.old.lines ≤ 100000 }
        ensures written { OnOk result (self.new ≡ extended self.old (generated.read_lines a k word)) }
        ensures lines { OnOk result (length self.new.lines ≤ length self.old.lines + 1) }
    {
        if k % 4 == a {
            self.add_plain(read_form(k, word))
        } else {
            Ok(())
        }
    }

    /// Adds the reads of the app `a` by the words of the seed `n`.
    fn add_reads(&mut self, a: u64, n: u64) -> Result<(), Memory>
        requires { length self.old.lines ≤ 50000 }
        ensures written { OnOk result (self.new ≡ extended self.old (generated.reads_from a 0 (generated.seed_words n))) }
        ensures lines { OnOk result (length self.new.lines ≤ length self.old.lines + 2900) }
    {
        let mut rng = SplitMix64::seed_from_u64(n);
        for k in 0..READS {
            let word = rng.next_u64();
            self.add_read(a, k, word)?;
        }
        Ok(())
    }

    /// Adds an app with its reads.
    #[tactic(auto, using(crate::proofs::Extended::extended_twice))]
    pub fn add_app(&mut self, name: Name, a: u64, n: u64) -> Result<(), Memory>
        requires { length self.old.lines ≤ 20000 }
        ensures written { OnOk result (self.new ≡ extended self.old (generated.app_lines name a (generated.seed_words n))) }
        ensures lines { OnOk result (length self.new.lines ≤ length self.old.lines + 2902) }
    {
        self.add_plain(SceneLine::App { name })?;
        self.add_reads(a, n)?;
        self.add_plain(SceneLine::End)
    }
}
