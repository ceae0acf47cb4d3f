//! Frames that change in their slots.
ghost use Rattle.std.specs.Prelude.{◌≡◌, ◌<◌, length};
ghost use Rattle.wdf_model.specs.Tables.{change_at};
ghost use Rattle.wdf_model.specs.declared.entries.Running.{Running};
ghost use Rattle.wdf_model.specs.parts.Cpus.{no_frame};
ghost use Rattle.wdf_cpu.specs.FrameUpdate.{gone};

use crate::frame_update::{FrameUpdate, goes};
use wdf_base::Frame;
use wdf_model::Running;
use wdf_slots::Slots;

/// A frame goes on where it is.
#[tactic(auto, using(wdf_model::proofs::Maps::put_within))]
pub(crate) fn go_on(frames: &mut Slots<Running>, f: u32, update: &FrameUpdate)
    requires { f < length frames.old }
    ensures { frames.new ≡ change_at no_frame frames.old f (λ (r : Running). record r { frame = gone update.now r.frame }) }
{
    goes(&mut frames.at_mut(f).frame, update);
}

/// Writes what a frame is; its level stays.
#[tactic(auto, using(wdf_model::proofs::Maps::put_within))]
pub(crate) fn change(frames: &mut Slots<Running>, f: u32, frame: Frame)
    requires { f < length frames.old }
    ensures { frames.new ≡ change_at no_frame frames.old f (λ (r : Running). record r { frame = frame }) }
{
    frames.at_mut(f).frame = frame;
}
