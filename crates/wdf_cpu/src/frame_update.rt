//! How a frame goes on in its place.
ghost use Rattle.std.specs.Prelude.{◌≡◌, slice_set};
ghost use Rattle.std.specs.Option.{option_map};
ghost use Rattle.wdf_cpu.specs.Keys.{waited_by};
ghost use Rattle.wdf_cpu.specs.FrameUpdate.{gone};

use wdf_base::{Change, Frame, ObjectId, Pending, VARIABLES, Value};
use wdf_model::object_in;

/// What changes of a frame that goes on.
#[derive(Clone, Copy)]
pub struct FrameUpdate {
    /// A variable that takes a value, or a count of runs.
    pub change: Change,
    /// The number of its next statement.
    pub at: u32,
    /// The tick until which it spends.
    pub until: u64,
    /// What it waits for.
    pub pending: Option<Pending>,
}

impl FrameUpdate {
    /// A frame once it has gone on.
    pub fn of(&self, frame: &Frame) -> Frame
        ensures { result ≡ gone self.now frame.now }
    {
        let mut frame = *frame;
        goes(&mut frame, self);
        frame
    }
}

/// The object for which a frame waits once it has gone on.
pub(crate) fn awaits(update: &FrameUpdate) -> Option<ObjectId>
    ensures { option_map (λ o. o.0) result ≡ waited_by update.now.pending }
{
    let pending = update.pending?;
    Some(object_in(pending.call.a))
}

/// A frame goes on.
pub(crate) fn goes(frame: &mut Frame, update: &FrameUpdate)
    ensures { frame.new ≡ gone update.now frame.old }
{
    match update.change {
        Change::Assign { variable, value } => set_variable(&mut frame.variables, variable, value),
        Change::Branch => {}
        Change::Count { depth, left } => set_counter(&mut frame.counters, depth, left),
    }
    frame.at = update.at;
    frame.until = update.until;
    frame.pending = update.pending;
}

/// One of the variables has a value.
fn set_variable(variables: &mut [Value; VARIABLES], variable: u8, value: Value)
    ensures { variables.new ≡ slice_set variables.old variable value }
{
    if usize::from(variable) < VARIABLES {
        variables[usize::from(variable)] = value;
    }
}

/// One of the counters has a number of runs.
fn set_counter(counters: &mut [u32; VARIABLES], depth: u8, left: u32)
    ensures { counters.new ≡ slice_set counters.old depth left }
{
    if usize::from(depth) < VARIABLES {
        counters[usize::from(depth)] = left;
    }
}
