ghost use Rattle.std.specs.Prelude.{◌≡◌};
ghost use Rattle.wdf_base.specs.Values as values;

use crate::ids::Handle;
use crate::same::same_status;

/// How a call, a callback or a request ended. A status has a name here, and no NTSTATUS number.
#[derive(Clone, Copy, Debug, PartialEq, Eq, Hash)]
pub enum Status {
    Success,
    Cancelled,
    Unsuccessful,
    InvalidDeviceRequest,
    InvalidDeviceState,
    NoMoreEntries,
    WdfPaused,
    WdfBusy,
    InsufficientResources,
    DeletePending,
}

/// A value of a driver script.
#[derive(Clone, Copy, Debug, PartialEq, Eq)]
pub enum Value {
    /// An unsigned number, which wraps at 64 bits.
    Num(u64),
    /// An object.
    Obj(Handle),
    /// A status.
    Stat(Status),
}

impl Value {
    /// Whether a callback ended with SUCCESS, or a call's answer is SUCCESS.
    pub fn is_success(self) -> bool
        ensures { result ≡ values.is_success self }
    {
        match self {
            Value::Stat(status) => same_status(status, Status::Success),
            _ => false,
        }
    }

    /// Whether an answer is the number 1.
    pub fn is_one(self) -> bool
        ensures { result ≡ values.is_one self }
    {
        match self {
            Value::Num(number) => number == 1,
            _ => false,
        }
    }
}
