ghost use Rattle.std.specs.Prelude.{◌≡◌, ℕ};
ghost use Rattle.wdf_model.specs.declared.room.TheConstants.{FRAMES, OBJECTS};
ghost use Rattle.wdf_model.specs.parts.Cpus.{no_frame};
ghost use Rattle.wdf_model.specs.parts.Tree.{gone};

use wdf_base::{Callback, Frame, Handle, Irql, Kind, Life, ObjectId, Status, VARIABLES, Value};
use wdf_model::{CELLS, FRAMES, Node, OBJECTS, Running};

/// What is kept by id: how many ids there may be, and what one says that has no entry.
pub trait ById: Copy {
    /// How many ids there may be.
    const ROOM: u32;

    ghost ROOM: { ℕ };

    ghost blank: { Self };

    /// What an id without an entry says.
    fn blank() -> Self
        ensures { result ≡ blank };
}

/// An object that is gone.
impl ById for Node {
    const ROOM: u32 = OBJECTS;

    ghost ROOM = { OBJECTS };

    ghost blank = { gone };

    fn blank() -> Node {
        Node {
            life: Life::Gone,
            kind: Kind::General,
            class: 0,
            parent: ObjectId(0),
            references: 0,
            cells: [Value::Num(0); CELLS],
            cleanup_started: false,
            destroy_started: false,
        }
    }
}

/// The handle of no object.
const NO_HANDLE: Handle = Handle {
    id: ObjectId(0),
    name: 0,
};

/// A number that no frame has.
impl ById for Running {
    const ROOM: u32 = FRAMES;

    ghost ROOM = { FRAMES };

    ghost blank = { no_frame };

    fn blank() -> Running {
        Running {
            frame: Frame {
                callback: Callback::EvtDestroyCallback,
                object: NO_HANDLE,
                device: NO_HANDLE,
                request: None,
                length: 0,
                code: 0,
                status: Status::Success,
                script: 0,
                at: 0,
                variables: [Value::Num(0); VARIABLES],
                counters: [0; VARIABLES],
                until: 0,
                pending: None,
            },
            level: Irql(0),
        }
    }
}
