ghost use Rattle.std.specs.Prelude.{◌≡◌, option_map};
ghost use Rattle.wdf_model.specs.rules.Faults as faults;

use wdf_base::{Frame, FrameId, Irql, Kind, Life, LockRef, Mark, ObjectId, Place};

/// One top frame in one state of the machine: what the table of faults reads. No call takes memory.
pub trait View {
    /// What the frame sees of the state.
    ghost seen: { Self → faults.View };

    /// The frame.
    fn frame(&self) -> &Frame
        ensures { result.now ≡ (seen self.now).frame };

    /// Its number.
    fn number(&self) -> FrameId
        ensures { result.0 ≡ (seen self.now).number };

    /// The level of its processor.
    fn irql(&self) -> Irql
        ensures { result.0 ≡ (seen self.now).irql };

    /// How far the deletion of an object has come.
    fn life(&self, o: ObjectId) -> Life
        ensures { result ≡ (seen self.now).life o.0 };

    /// What an object is.
    fn kind(&self, o: ObjectId) -> Kind
        ensures { result ≡ (seen self.now).kind o.0 };

    /// How many references to an object the driver holds.
    fn references(&self, o: ObjectId) -> u32
        ensures { result ≡ (seen self.now).references o.0 };

    /// The level of an interrupt.
    fn level_of(&self, i: ObjectId) -> Irql
        ensures { result.0 ≡ (seen self.now).level_of i.0 };

    /// The scope lock that the callbacks of an object need, if any.
    fn scope(&self, o: ObjectId) -> Option<LockRef>
        ensures { result ≡ (seen self.now).scope o.0 };

    /// Where a request is.
    fn place(&self, r: ObjectId) -> Place
        ensures { result ≡ (seen self.now).place r.0 };

    /// The queue from which a request last became Owned.
    fn origin(&self, r: ObjectId) -> Option<ObjectId>
        ensures { option_map (λ q. q.0) result ≡ (seen self.now).origin r.0 };

    /// Whether a request is cancelable.
    fn mark(&self, r: ObjectId) -> Mark
        ensures { result ≡ (seen self.now).mark r.0 };

    /// Whether the driver holds a request.
    fn held(&self, r: ObjectId) -> bool
        ensures { result ≡ (seen self.now).held r.0 };

    /// Whether a held request is acknowledged.
    fn acknowledged(&self, r: ObjectId) -> bool
        ensures { result ≡ (seen self.now).acknowledged r.0 };

    /// The frame that holds a lock, none where it is free.
    fn holder(&self, lock: LockRef) -> Option<FrameId>
        ensures { option_map (λ f. f.0) result ≡ (seen self.now).holder lock };

    /// Whether this frame took a lock by a call.
    fn by_call(&self, lock: LockRef) -> bool
        ensures { result ≡ (seen self.now).by_call lock };

    /// How many locks this frame took by calls.
    fn held_by_call(&self) -> u32
        ensures { result ≡ (seen self.now).held_by_call };

    /// Whether the device of a register has its hardware.
    fn hardware(&self, register: u32) -> bool
        ensures { result ≡ (seen self.now).hardware register };
}
