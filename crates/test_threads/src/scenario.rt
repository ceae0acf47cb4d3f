//! The scenario of the tests that hold workers by gates.

/// Two queues under one device's lock, on two processors, with as many events as there may be.
pub const DEVICE_SCOPE: &[u8] = b"\
cpus 2\n\
limit 200000\n\
objects 16\n\
device D working\n\
scope device\n\
queue R sequential\n\
for read\n\
on EvtIoRead\n\
spend 1\n\
call WdfRequestComplete request SUCCESS\n\
end\n\
end\n\
queue W sequential\n\
for write\n\
on EvtIoWrite\n\
call WdfRequestComplete request SUCCESS\n\
end\n\
end\n\
end\n\
app A\n\
at 0 read D 8\n\
at 0 write D 8\n\
end\n\
";
