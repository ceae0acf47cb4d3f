//! Arguments of calls.
use crate::sight::{LOWER, OBJECT, OWN_QUEUE};
use wdf_base::{Arg, Status, Value};

/// The object that a case is about.
pub(crate) const IT: Arg = Arg::Val(Value::Obj(OBJECT));

/// The queue on which the frame runs.
pub(crate) const QUEUE: Arg = Arg::Val(Value::Obj(OWN_QUEUE));

pub(crate) const TARGET: Arg = Arg::Val(Value::Obj(LOWER));

pub(crate) const SUCCESS: Arg = Arg::Val(Value::Stat(Status::Success));

pub(crate) const ZERO: Arg = Arg::Val(Value::Num(0));

pub(crate) const ONE: Arg = Arg::Val(Value::Num(1));

pub(crate) const TWO: Arg = Arg::Val(Value::Num(2));

pub(crate) const THREE: Arg = Arg::Val(Value::Num(3));

pub(crate) const SEVEN: Arg = Arg::Val(Value::Num(7));

pub(crate) const EIGHT: Arg = Arg::Val(Value::Num(8));
