//! Processors: scopes, locks and interrupts.
use crate::call::{Row, STEADY, try_rows};
use std::test::Fail;

/// Two queues with a scope lock each, on two processors.
const QUEUE_SCOPE: &[u8] = b"\
cpus 2\n\
limit 100\n\
objects 16\n\
device D working\n\
scope queue\n\
queue R sequential\n\
for read\n\
on EvtIoRead\n\
spend 1\n\
call WdfRequestComplete request SUCCESS\n\
end\n\
end\n\
queue W sequential\n\
for write\n\
on EvtIoWrite\n\
call WdfRequestComplete request SUCCESS\n\
end\n\
end\n\
end\n\
app A\n\
at 0 read D 8\n\
at 0 write D 8\n\
end\n\
";

const QUEUE_SCOPE_RUN: &[u8] = b"\
1 A read D.2 8 -> req.5\n\
2 cpu0 start EvtIoRead R.3 req.5\n\
3 cpu0 spend 1\n\
4 A write D.2 8 -> req.6\n\
5 cpu1 start EvtIoWrite W.4 req.6\n\
6 cpu1 call WdfRequestComplete req.6 SUCCESS -> SUCCESS\n\
7 cpu1 end EvtIoWrite W.4 SUCCESS\n\
8 fw cleanup req.6\n\
9 fw destroy req.6\n\
10 clock tick 1\n\
11 cpu0 call WdfRequestComplete req.5 SUCCESS -> SUCCESS\n\
12 cpu0 end EvtIoRead R.3 SUCCESS\n\
13 fw cleanup req.5\n\
14 fw destroy req.5\n\
finished 14\n\
";

/// A callback waits for a lock, leaves its processor and comes back.
const WAIT_LOCK: &[u8] = b"\
cpus 2\n\
limit 100\n\
objects 16\n\
driver\n\
level passive\n\
end\n\
class L waitlock\n\
end\n\
device D working\n\
queue R sequential\n\
for read\n\
on EvtIoRead\n\
call l = WdfWaitLockCreate L device\n\
call SetContext device 0 l\n\
call WdfWaitLockAcquire l\n\
spend 1\n\
call WdfWaitLockRelease l\n\
call WdfRequestComplete request SUCCESS\n\
end\n\
end\n\
queue W sequential\n\
for write\n\
on EvtIoWrite\n\
call l = GetContext device 0\n\
call WdfWaitLockAcquire l\n\
call WdfWaitLockRelease l\n\
call WdfRequestComplete request SUCCESS\n\
end\n\
end\n\
end\n\
app A\n\
at 0 read D 8\n\
at 0 write D 8\n\
end\n\
";

const WAIT_LOCK_RUN: &[u8] = b"\
1 A read D.2 8 -> req.5\n\
2 cpu0 start EvtIoRead R.3 req.5\n\
3 cpu0 call WdfWaitLockCreate L D.2 -> L.6\n\
4 cpu0 call SetContext D.2 0 L.6 -> SUCCESS\n\
5 cpu0 call WdfWaitLockAcquire L.6 -> SUCCESS\n\
6 cpu0 spend 1\n\
7 A write D.2 8 -> req.7\n\
8 cpu1 start EvtIoWrite W.4 req.7\n\
9 cpu1 call GetContext D.2 0 -> L.6\n\
10 cpu1 wait WdfWaitLockAcquire L.6\n\
11 cpu1 park 8\n\
12 clock tick 1\n\
13 cpu0 call WdfWaitLockRelease L.6 -> SUCCESS\n\
14 cpu0 call WdfRequestComplete req.5 SUCCESS -> SUCCESS\n\
15 cpu0 end EvtIoRead R.3 SUCCESS\n\
16 cpu0 unpark 8\n\
17 cpu0 woke WdfWaitLockAcquire L.6 -> SUCCESS\n\
18 cpu0 call WdfWaitLockRelease L.6 -> SUCCESS\n\
19 cpu0 call WdfRequestComplete req.7 SUCCESS -> SUCCESS\n\
20 cpu0 end EvtIoWrite W.4 SUCCESS\n\
21 fw cleanup req.5\n\
22 fw cleanup req.7\n\
23 fw destroy req.5\n\
24 fw destroy req.7\n\
finished 24\n\
";

/// An interrupt whose line nobody lowers.
const LINE_STAYS_UP: &[u8] = b"\
cpus 1\n\
limit 50\n\
objects 16\n\
device D\n\
at 0 raise I\n\
interrupt I 5\n\
on EvtInterruptIsr\n\
end\n\
end\n\
end\n\
pnp\n\
at 0 start D\n\
end\n\
";

const LINE_STAYS_UP_RUN: &[u8] = b"\
1 pnp start D.2\n\
2 fw stage D.2 hardware\n\
3 fw stage D.2 enabled I.3\n\
4 fw stage D.2 queues_up\n\
5 fw stage D.2 working\n\
6 D.2 raise I.3\n\
7 cpu0 start EvtInterruptIsr I.3\n\
8 cpu0 end EvtInterruptIsr I.3 SUCCESS\n\
9 cpu0 start EvtInterruptIsr I.3\n\
10 cpu0 end EvtInterruptIsr I.3 SUCCESS\n\
11 cpu0 start EvtInterruptIsr I.3\n\
12 cpu0 end EvtInterruptIsr I.3 SUCCESS\n\
13 cpu0 start EvtInterruptIsr I.3\n\
14 cpu0 end EvtInterruptIsr I.3 SUCCESS\n\
15 cpu0 start EvtInterruptIsr I.3\n\
16 cpu0 end EvtInterruptIsr I.3 SUCCESS\n\
17 cpu0 start EvtInterruptIsr I.3\n\
18 cpu0 end EvtInterruptIsr I.3 SUCCESS\n\
19 cpu0 start EvtInterruptIsr I.3\n\
20 cpu0 end EvtInterruptIsr I.3 SUCCESS\n\
21 cpu0 start EvtInterruptIsr I.3\n\
22 cpu0 end EvtInterruptIsr I.3 SUCCESS\n\
23 cpu0 start EvtInterruptIsr I.3\n\
24 cpu0 end EvtInterruptIsr I.3 SUCCESS\n\
25 cpu0 start EvtInterruptIsr I.3\n\
26 cpu0 end EvtInterruptIsr I.3 SUCCESS\n\
27 cpu0 start EvtInterruptIsr I.3\n\
28 cpu0 end EvtInterruptIsr I.3 SUCCESS\n\
29 cpu0 start EvtInterruptIsr I.3\n\
30 cpu0 end EvtInterruptIsr I.3 SUCCESS\n\
31 cpu0 start EvtInterruptIsr I.3\n\
32 cpu0 end EvtInterruptIsr I.3 SUCCESS\n\
33 cpu0 start EvtInterruptIsr I.3\n\
34 cpu0 end EvtInterruptIsr I.3 SUCCESS\n\
35 cpu0 start EvtInterruptIsr I.3\n\
36 cpu0 end EvtInterruptIsr I.3 SUCCESS\n\
37 cpu0 start EvtInterruptIsr I.3\n\
38 cpu0 end EvtInterruptIsr I.3 SUCCESS\n\
39 cpu0 start EvtInterruptIsr I.3\n\
40 cpu0 end EvtInterruptIsr I.3 SUCCESS\n\
41 cpu0 start EvtInterruptIsr I.3\n\
42 cpu0 end EvtInterruptIsr I.3 SUCCESS\n\
43 cpu0 start EvtInterruptIsr I.3\n\
44 cpu0 end EvtInterruptIsr I.3 SUCCESS\n\
45 cpu0 start EvtInterruptIsr I.3\n\
46 cpu0 end EvtInterruptIsr I.3 SUCCESS\n\
47 cpu0 start EvtInterruptIsr I.3\n\
48 cpu0 end EvtInterruptIsr I.3 SUCCESS\n\
49 cpu0 start EvtInterruptIsr I.3\n\
50 cpu0 end EvtInterruptIsr I.3 SUCCESS\n\
limit 50\n\
";

/// An interrupt that is handled at passive level.
pub const PASSIVE: &[u8] = b"\
version 2\n\
cpus 1\n\
limit 100\n\
objects 16\n\
device D\n\
register STS 1\n\
at 0 raise I\n\
when read STS lower I after 0\n\
interrupt I passive\n\
on EvtInterruptIsr\n\
get s = STS\n\
spend 1\n\
end\n\
end\n\
end\n\
pnp\n\
at 0 start D\n\
end\n\
";

const PASSIVE_RUN: &[u8] = b"\
1 pnp start D.2\n\
2 fw stage D.2 hardware\n\
3 fw stage D.2 enabled I.3\n\
4 fw stage D.2 queues_up\n\
5 fw stage D.2 working\n\
6 D.2 raise I.3\n\
7 cpu0 start EvtInterruptIsr I.3\n\
8 cpu0 get STS -> 1\n\
9 cpu0 spend 1\n\
10 clock tick 1\n\
11 cpu0 end EvtInterruptIsr I.3 SUCCESS\n\
finished 11\n\
";

/// A passive interrupt's lock is taken under a spin lock.
const PASSIVE_LOCK: &[u8] = b"\
version 2\n\
cpus 1\n\
limit 100\n\
objects 16\n\
class L spinlock\n\
end\n\
device D\n\
interrupt I passive\n\
on EvtInterruptIsr\n\
end\n\
end\n\
on EvtDeviceD0EntryPostInterruptsEnabled\n\
call l = WdfSpinLockCreate L device\n\
call WdfSpinLockAcquire l\n\
call WdfInterruptAcquireLock I\n\
end\n\
end\n\
pnp\n\
at 0 start D\n\
end\n\
";

const PASSIVE_LOCK_RUN: &[u8] = b"\
1 pnp start D.2\n\
2 fw stage D.2 hardware\n\
3 fw stage D.2 enabled I.3\n\
4 cpu0 start EvtDeviceD0EntryPostInterruptsEnabled D.2\n\
5 cpu0 call WdfSpinLockCreate L D.2 -> L.4\n\
6 cpu0 call WdfSpinLockAcquire L.4 -> SUCCESS\n\
7 cpu0 fault IrqlTooHigh 15\n\
fault 7\n\
";

static ROWS: [Row; 5] = [
    Row {
        name: "queue scope",
        words: "order",
        input: &[QUEUE_SCOPE],
        status: 0,
        text: QUEUE_SCOPE_RUN,
    },
    Row {
        name: "a wait lock",
        words: "order",
        input: &[WAIT_LOCK],
        status: 0,
        text: WAIT_LOCK_RUN,
    },
    Row {
        name: "a line that stays up",
        words: "order",
        input: &[LINE_STAYS_UP],
        status: 5,
        text: LINE_STAYS_UP_RUN,
    },
    Row {
        name: "a passive interrupt",
        words: "order",
        input: &[PASSIVE],
        status: 0,
        text: PASSIVE_RUN,
    },
    Row {
        name: "a passive lock at dispatch level",
        words: "order",
        input: &[PASSIVE_LOCK],
        status: 3,
        text: PASSIVE_LOCK_RUN,
    },
];

#[test]
fn callbacks_run_as_worked(rt: HostRuntime) -> Result<(), Fail> {
    try_rows(&rt, rt.alloc(), STEADY, &ROWS)
}
