ghost use Rattle.std.specs.Prelude.{◌≡◌};
ghost use Rattle.wdf_cpu.specs.FrameTests.{passes};

use crate::cpus::wait_key;
use wdf_base::{Callback, Frame, ObjectId, same_callback};

/// A test of a frame.
#[derive(Clone, Copy)]
pub(crate) enum FrameTest {
    /// Whether it runs on an object.
    On(ObjectId),
    /// Whether it waits for an object.
    WaitsFor(ObjectId),
    /// Whether it runs this callback on a device, or on what has it as nearest device.
    Runs(Callback, ObjectId),
}

impl FrameTest {
    /// Whether a frame passes.
    pub(crate) fn passes(self, frame: &Frame) -> bool
        ensures { result ≡ passes self frame.now }
    {
        match self {
            FrameTest::On(object) => frame.object.id.0 == object.0,
            FrameTest::WaitsFor(object) => wait_key(frame) == Some(object),
            FrameTest::Runs(callback, device) => {
                same_callback(frame.callback, callback) && frame.device.id.0 == device.0
            }
        }
    }
}
