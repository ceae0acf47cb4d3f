//! The scenarios of the tests.

/// One app reads once: six events and the ending, whoever comes first.
pub const ONE_READ: &[u8] = b"\
cpus 1\n\
limit 100\n\
objects 16\n\
device D working\n\
queue Q sequential\n\
default\n\
on EvtIoRead\n\
call WdfRequestComplete request SUCCESS\n\
end\n\
end\n\
end\n\
app A\n\
at 0 read D 16\n\
end\n\
";

/// The driver keeps the read: three events, the ending and a line of the wait list.
pub const KEPT: &[u8] = b"\
cpus 1\n\
limit 100\n\
objects 16\n\
device D working\n\
queue Q sequential\n\
default\n\
on EvtIoRead\n\
end\n\
end\n\
end\n\
app A\n\
at 0 read D 16\n\
end\n\
";

/// The driver asks 250 times for a word and keeps the read: 504 events, the ending and a line of the wait list. The first
/// 397 lines have 16,352 bytes.
pub const LONG: &[u8] = b"\
cpus 1\n\
limit 1000\n\
objects 16\n\
device DeviceThatHasTheLongestNameOfAll working\n\
queue Q sequential\n\
default\n\
on EvtIoRead\n\
repeat 250\n\
call x = GetContext device 0\n\
end\n\
end\n\
end\n\
end\n\
app A\n\
at 0 read DeviceThatHasTheLongestNameOfAll 16\n\
end\n\
";

/// The driver completes the read twice: a fault, whoever comes first. Its event is the fourth where the request is still
/// there, and the fifth where the framework has cleaned it up.
pub const TWICE: &[u8] = b"\
cpus 1\n\
limit 100\n\
objects 16\n\
device D working\n\
queue Q sequential\n\
default\n\
on EvtIoRead\n\
call WdfRequestComplete request SUCCESS\n\
call WdfRequestComplete request SUCCESS\n\
end\n\
end\n\
end\n\
app A\n\
at 0 read D 16\n\
end\n\
";

/// An interrupt that nobody lowers: its routine starts again and again, up to the limit.
pub const SPINNING: &[u8] = b"\
cpus 1\n\
limit 50\n\
objects 16\n\
device D\n\
at 0 raise I\n\
interrupt I 5\n\
on EvtInterruptIsr\n\
end\n\
end\n\
end\n\
pnp\n\
at 0 start D\n\
end\n\
";
