//! The pipe from the workers to the printer: a queue under a rule, and its two passes.
ghost use Rattle.std.specs.Prelude.{◌≡◌, ◌<◌, ◌+◌, ◌++◌, ◌∷◌, [], true, false, IfOk, length};
ghost use Rattle.crossbeam_queue.specs.Passes.{view, IsPassOf, ruled_capacity};
ghost use Rattle.wdf_pipe.specs.Pipe.{account, IsPiped};

use crate::item::Item;
use crossbeam_queue::protocol::{Join, Lesson, Outcome, Protocol, Split};
use crossbeam_queue::{Pass, RuledArrayQueue};
use std::alloc::Global;
use std::collections::LinkedList;
use std::sync::Wait;
use std::thread::Parker;
use wdf_base::Memory;

/// What a pass of the pipe knows. No value of it is made.
pub struct Account {
    /// Whether it may send.
    pub sends: bool,
    /// Whether it may take.
    pub takes: bool,
    /// What it has sent.
    pub sent: LinkedList<Item>,
    /// What it has taken.
    pub taken: LinkedList<Item>,
}

/// The rule of the pipe: what was sent is what was taken, followed by what it holds.
pub struct InOrder;

impl Protocol<Item, Account> for InOrder {
    ghost use Rattle.std.specs.Prelude.{true, []};
    ghost use Rattle.wdf_pipe.specs.Pipe.{account, IsPiped};

    ghost holds = { IsPiped };

    ghost first = { account true true [] [] };
}

// The first pass is cut into one that sends and one that takes, and both are put together at the end.
struct Ends;

impl Split<Account> for Ends {
    ghost use Rattle.std.specs.Prelude.{true, false, []};
    ghost use Rattle.wdf_pipe.specs.Pipe.{account};

    ghost left = { λ v. account true false v.sent [] };

    ghost right = { λ v. account false true [] v.taken };
}

impl Join<Account> for Ends {
    ghost use Rattle.std.specs.Prelude.{true, false, []};
    ghost use Rattle.wdf_pipe.specs.Pipe.{account};

    ghost both = { λ v w. account true true v.sent w.taken };

    ghost spent = { account false false [] [] };
}

// A push.
struct Sends;

impl Outcome<Item, Account> for Sends {
    ghost then = { λ v x w. w ≡ account v.sends v.takes (v.sent ++ x ∷ []) v.taken };
}

// What the pipe holds was sent.
impl Lesson<Item, Account> for Sends {
    ghost use Rattle.std.specs.Prelude.{List, ◌≡◌, ◌++◌};
    ghost use Rattle.wdf_pipe.specs.declared.item.Item.{Item as Thing};

    ghost fact = { λ v items. (taken : List Thing) × (v.sent ≡ taken ++ items) };
}

// A pop.
struct Takes;

impl Outcome<Item, Account> for Takes {
    ghost then = { λ v x w. w ≡ account v.sends v.takes v.sent (v.taken ++ x ∷ []) };
}

// What a pass with both ends learns.
struct Whole;

impl Lesson<Item, Account> for Whole {
    ghost fact = { λ v items. v.sent ≡ v.taken ++ items };
}

/// A pipe of items.
pub type Pipe = RuledArrayQueue<Item, Account, InOrder>;

/// What a thread knows of the pipe.
pub type PipePass = Pass<Item, Account>;

/// A pipe with room for so many events and the end mark, the pass that sends and the pass that takes.
///
/// # Errors
///
/// [`Memory`] where memory for it was refused.
pub fn lay(alloc: Global, events: u32) -> Result<(Pipe, PipePass, PipePass), Memory>
    ensures room { IfOk result (λ r. ruled_capacity r.0 ≡ events + 1) }
    ensures own { IfOk result (λ r. IsPassOf r.0 r.1 × IsPassOf r.0 r.2) }
    ensures views { IfOk result (λ r. (view r.1 ≡ account true false [] []) × (view r.2 ≡ account false true [] [])) }
{
    let (pipe, mut sender) = Pipe::ruled(alloc, events as usize + 1)?;
    let printer = pipe.another::<Ends>(&mut sender);
    Ok((pipe, sender, printer))
}

/// What the workers and the printer share, beside the turnstile.
#[derive(Drop)]
pub struct Desk<'a, R> {
    /// By what they wait.
    pub rt: &'a R,
    /// The pipe between them.
    pub pipe: &'a Pipe,
    /// What wakes the printer.
    pub bell: &'a Parker,
}

impl<R: Wait> Desk<'_, R> {
    /// Sends an item, and wakes the printer. The pipe has room for it, so this waits for nobody but a printer that is taking
    /// an item at this moment.
    pub fn send(&self, pass: &mut PipePass, item: Item)
        requires own { IsPassOf self.now.pipe.now pass.old }
        requires sends { (view pass.old).sends ≡ true }
        requires room { length (view pass.old).sent < ruled_capacity self.now.pipe.now }
        ensures own { IsPassOf self.now.pipe.now pass.new }
        ensures sent { view pass.new ≡ account (view pass.old).sends (view pass.old).takes ((view pass.old).sent ++ item ∷ []) (view pass.old).taken }
    {
        match self.pipe.push_as::<Sends, R>(self.rt, pass, item) {
            Ok(()) => self.bell.unpark(),
            Err(_) => unreachable!(),
        }
    }

    /// Takes the next item, and sleeps until there is one.
    pub fn take(&self, pass: &mut PipePass) -> Item
        requires own { IsPassOf self.now.pipe.now pass.old }
        requires takes { (view pass.old).takes ≡ true }
        ensures own { IsPassOf self.now.pipe.now pass.new }
        ensures taken { view pass.new ≡ account (view pass.old).sends (view pass.old).takes (view pass.old).sent ((view pass.old).taken ++ result ∷ []) }
    {
        for _ in self.rt.forever() {
            match self.pipe.try_pop_as::<Takes>(pass) {
                Some(item) => return item,
                None => self.bell.park(self.rt),
            }
        }
        unreachable!()
    }
}

/// Puts the two ends together: what was taken is a beginning of what was sent.
pub fn put_together(pipe: &Pipe, mut sender: PipePass, printer: PipePass)
    requires own { IsPassOf pipe.now sender × IsPassOf pipe.now printer }
    requires sends { (view sender).sends ≡ true }
    requires takes { (view printer).takes ≡ true }
    ensures { (rest : _) × ((view sender).sent ≡ (view printer).taken ++ rest) }
{
    pipe.absorb::<Ends>(&mut sender, printer);
    pipe.learn_as::<Whole>(&mut sender);
}
