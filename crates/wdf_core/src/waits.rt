//! The wait list of a run, in one walk.
ghost use Rattle.std.specs.Prelude.{◌≡◌, ◌<◌, ◌∷◌, IfOk, Some, drop, length, slice_get};
ghost use Rattle.wdf_model.specs.rules.Waits.{wait_list};
ghost use Rattle.wdf_core.specs.Walks.{waits_from};

use crate::machine::Core;
use std::alloc::Global;
use wdf_base::{Agent, Memory, WaitLine};
use wdf_waits::{WaitPlace, first_wait, next_wait};

impl<A: Agent> Core<A> {
    /// The front of the wait list.
    pub fn first_wait(&self) -> WaitPlace
        ensures { waits_from self.now.plan A.meaning self.now.journal result ≡ wait_list self.now.plan A.meaning self.now.journal }
    {
        first_wait()
    }

    /// The line of the wait list at a place, and the place after it. It takes no memory, and a walk looks at each thing
    /// once.
    pub fn next_wait(&self, place: WaitPlace) -> (WaitLine, WaitPlace)
        requires { 0 < length (waits_from self.now.plan A.meaning self.now.journal place) }
        ensures { waits_from self.now.plan A.meaning self.now.journal place ≡ result.0 ∷ waits_from self.now.plan A.meaning self.now.journal result.1 }
    {
        next_wait(self.indexed(), self.parts(), place).unwrap()
    }

    /// The place of the k-th line of the wait list, by a walk from its front.
    fn wait_place(&self, k: usize) -> WaitPlace
        requires { k < length (wait_list self.now.plan A.meaning self.now.journal) }
        ensures { waits_from self.now.plan A.meaning self.now.journal result ≡ drop k (wait_list self.now.plan A.meaning self.now.journal) }
    {
        let mut place = self.first_wait();
        for _line in 0..k {
            place = self.next_wait(place).1;
        }
        place
    }

    /// The k-th line of the wait list: who waits, and why. It takes no memory. It walks there from the front, so who wants
    /// all lines walks along them instead.
    pub fn wait_at(&self, k: usize) -> WaitLine
        requires { k < length (wait_list self.now.plan A.meaning self.now.journal) }
        ensures { slice_get (wait_list self.now.plan A.meaning self.now.journal) k ≡ Some result }
    {
        let place = self.wait_place(k);
        self.next_wait(place).0
    }

    /// The wait list: who waits, and why. It has no lines unless the run is stuck.
    ///
    /// # Errors
    ///
    /// [`Memory`] where memory for the lines was refused.
    pub fn wait_list(&self, alloc: Global) -> Result<Vec<WaitLine>, Memory>
        ensures { IfOk result (λ waits. waits.items ≡ wait_list self.now.plan A.meaning self.now.journal) }
    {
        let mut waits = Vec::new(alloc);
        let mut place = self.first_wait();
        for _line in 0..self.wait_len() {
            let (wait, next) = self.next_wait(place);
            waits.push(wait)?;
            place = next;
        }
        Ok(waits)
    }
}
