ghost use Rattle.std.specs.Prelude.{◌≡◌, ℕ};

use wdf_model::{Arrival, Sending, Timed};

/// What a list has by rising id.
pub trait Entry: Copy {
    ghost id: { Self → ℕ };

    /// The id of the entry's object.
    fn id(&self) -> u32
        ensures { result ≡ id self.now };
}

/// A bare number is its own id.
impl Entry for u32 {
    ghost id = { λ n. n };

    fn id(&self) -> u32 {
        *self
    }
}

impl Entry for Timed {
    ghost id = { λ t. t.timer.0 };

    fn id(&self) -> u32 {
        self.timer.0
    }
}

impl Entry for Sending {
    ghost id = { λ s. s.request.0 };

    fn id(&self) -> u32 {
        self.request.0
    }
}

impl Entry for Arrival {
    ghost id = { λ a. a.request.0 };

    fn id(&self) -> u32 {
        self.request.0
    }
}
