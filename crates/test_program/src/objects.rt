//! Objects: what keeps them, how many there may be, and what is made of them.
use crate::call::{Row, STEADY, try_rows};
use std::test::Fail;

/// A reference keeps an object that is deleted.
const REFERENCED: &[u8] = b"\
cpus 1\n\
limit 100\n\
objects 16\n\
class O object\n\
end\n\
device D\n\
on EvtDeviceD0Entry\n\
call o = WdfObjectCreate O device\n\
call SetContext o 0 5\n\
call WdfObjectReference o\n\
call WdfObjectDelete o\n\
spend 1\n\
call c = GetContext o 0\n\
call WdfObjectDereference o\n\
end\n\
end\n\
pnp\n\
at 0 start D\n\
end\n\
";

const REFERENCED_RUN: &[u8] = b"\
1 pnp start D.2\n\
2 fw stage D.2 hardware\n\
3 cpu0 start EvtDeviceD0Entry D.2\n\
4 cpu0 call WdfObjectCreate O D.2 -> O.3\n\
5 cpu0 call SetContext O.3 0 5 -> SUCCESS\n\
6 cpu0 call WdfObjectReference O.3 -> SUCCESS\n\
7 cpu0 call WdfObjectDelete O.3 -> SUCCESS\n\
8 cpu0 spend 1\n\
9 fw cleanup O.3\n\
10 clock tick 1\n\
11 cpu0 call GetContext O.3 0 -> 5\n\
12 cpu0 call WdfObjectDereference O.3 -> SUCCESS\n\
13 cpu0 end EvtDeviceD0Entry D.2 SUCCESS\n\
14 fw stage D.2 queues_up\n\
15 fw stage D.2 working\n\
16 fw destroy O.3\n\
finished 16\n\
";

/// As many objects as the scenario allows.
const OBJECT_LIMIT: &[u8] = b"\
cpus 1\n\
limit 100\n\
objects 3\n\
class O object\n\
end\n\
device D\n\
on EvtDeviceD0Entry\n\
call a = WdfObjectCreate O device\n\
call b = WdfObjectCreate O device\n\
call WdfObjectDelete a\n\
spend 1\n\
call b = WdfObjectCreate O device\n\
end\n\
end\n\
pnp\n\
at 0 start D\n\
end\n\
";

const OBJECT_LIMIT_RUN: &[u8] = b"\
1 pnp start D.2\n\
2 fw stage D.2 hardware\n\
3 cpu0 start EvtDeviceD0Entry D.2\n\
4 cpu0 call WdfObjectCreate O D.2 -> O.3\n\
5 cpu0 call WdfObjectCreate O D.2 -> INSUFFICIENT_RESOURCES\n\
6 cpu0 call WdfObjectDelete O.3 -> SUCCESS\n\
7 cpu0 spend 1\n\
8 fw cleanup O.3\n\
9 fw destroy O.3\n\
10 clock tick 1\n\
11 cpu0 call WdfObjectCreate O D.2 -> O.4\n\
12 cpu0 end EvtDeviceD0Entry D.2 SUCCESS\n\
13 fw stage D.2 queues_up\n\
14 fw stage D.2 working\n\
finished 14\n\
";

/// An object with a cleanup and a destroy callback, beside a request.
const CLEANED: &[u8] = b"\
cpus 1\n\
limit 100\n\
objects 4\n\
class O object\n\
on EvtCleanupCallback\n\
log 1\n\
end\n\
on EvtDestroyCallback\n\
log 2\n\
end\n\
end\n\
device D working\n\
queue Q sequential\n\
default\n\
on EvtIoRead\n\
call a = WdfObjectCreate O device\n\
call b = WdfObjectCreate O device\n\
call WdfObjectDelete a\n\
call WdfRequestComplete request SUCCESS\n\
end\n\
end\n\
end\n\
app A\n\
at 0 read D 16\n\
end\n\
";

const CLEANED_RUN: &[u8] = b"\
1 A read D.2 16 -> req.4\n\
2 cpu0 start EvtIoRead Q.3 req.4\n\
3 cpu0 call WdfObjectCreate O D.2 -> O.5\n\
4 cpu0 call WdfObjectCreate O D.2 -> INSUFFICIENT_RESOURCES\n\
5 cpu0 call WdfObjectDelete O.5 -> SUCCESS\n\
6 cpu0 call WdfRequestComplete req.4 SUCCESS -> SUCCESS\n\
7 cpu0 end EvtIoRead Q.3 SUCCESS\n\
8 cpu0 start EvtCleanupCallback O.5\n\
9 cpu0 log 1\n\
10 cpu0 end EvtCleanupCallback O.5 SUCCESS\n\
11 fw cleanup req.4\n\
12 fw cleanup O.5\n\
13 cpu0 start EvtDestroyCallback O.5\n\
14 cpu0 log 2\n\
15 cpu0 end EvtDestroyCallback O.5 SUCCESS\n\
16 fw destroy req.4\n\
17 fw destroy O.5\n\
finished 17\n\
";

/// A request that the driver made is sent, and the target is full.
const MADE_REQUEST: &[u8] = b"\
cpus 1\n\
limit 100\n\
objects 16\n\
class M request\n\
end\n\
device D working\n\
target T 1 SUCCESS 1\n\
on EvtRequestCompletion\n\
log 5\n\
end\n\
end\n\
queue Q sequential\n\
default\n\
on EvtIoRead\n\
call m = WdfRequestCreate M device\n\
call x = WdfRequestSend m T 0\n\
call y = WdfRequestSend request T 0\n\
call WdfRequestComplete request SUCCESS\n\
end\n\
end\n\
end\n\
app A\n\
at 0 read D 16\n\
end\n\
";

const MADE_REQUEST_RUN: &[u8] = b"\
1 A read D.2 16 -> req.5\n\
2 cpu0 start EvtIoRead Q.4 req.5\n\
3 cpu0 call WdfRequestCreate M D.2 -> M.6\n\
4 cpu0 call WdfRequestSend M.6 T.3 0 -> 1\n\
5 cpu0 call WdfRequestSend req.5 T.3 0 -> 0\n\
6 cpu0 call WdfRequestComplete req.5 SUCCESS -> SUCCESS\n\
7 cpu0 end EvtIoRead Q.4 SUCCESS\n\
8 fw cleanup req.5\n\
9 fw destroy req.5\n\
10 clock tick 1\n\
11 T.3 done M.6 SUCCESS\n\
12 cpu0 start EvtRequestCompletion T.3 M.6\n\
13 cpu0 log 5\n\
14 cpu0 end EvtRequestCompletion T.3 SUCCESS\n\
finished 14\n\
";

/// A device refuses to stop, and then it doesn't.
const QUERY: &[u8] = b"\
cpus 1\n\
limit 100\n\
objects 16\n\
device D working\n\
on EvtDeviceQueryStop\n\
call c = GetContext device 0\n\
call SetContext device 0 1\n\
if ( c == 0 )\n\
return UNSUCCESSFUL\n\
end\n\
end\n\
end\n\
pnp\n\
at 0 rebalance D\n\
at 0 rebalance D\n\
end\n\
";

const QUERY_RUN: &[u8] = b"\
1 pnp rebalance D.2\n\
2 cpu0 start EvtDeviceQueryStop D.2\n\
3 cpu0 call GetContext D.2 0 -> 0\n\
4 cpu0 call SetContext D.2 0 1 -> SUCCESS\n\
5 cpu0 step 8\n\
6 cpu0 end EvtDeviceQueryStop D.2 UNSUCCESSFUL\n\
7 pnp rebalance D.2\n\
8 cpu0 start EvtDeviceQueryStop D.2\n\
9 cpu0 call GetContext D.2 0 -> 1\n\
10 cpu0 call SetContext D.2 0 1 -> SUCCESS\n\
11 cpu0 step 8\n\
12 cpu0 end EvtDeviceQueryStop D.2 SUCCESS\n\
13 fw stage D.2 queues_down\n\
14 fw stage D.2 settled\n\
15 fw stage D.2 no_hardware\n\
16 fw stage D.2 hardware\n\
17 fw stage D.2 queues_up\n\
18 fw stage D.2 working\n\
finished 18\n\
";

static ROWS: [Row; 5] = [
    Row {
        name: "a reference",
        words: "order",
        input: &[REFERENCED],
        status: 0,
        text: REFERENCED_RUN,
    },
    Row {
        name: "the limit of objects",
        words: "order",
        input: &[OBJECT_LIMIT],
        status: 0,
        text: OBJECT_LIMIT_RUN,
    },
    Row {
        name: "cleanup and destroy callbacks",
        words: "order",
        input: &[CLEANED],
        status: 0,
        text: CLEANED_RUN,
    },
    Row {
        name: "a made request",
        words: "order",
        input: &[MADE_REQUEST],
        status: 0,
        text: MADE_REQUEST_RUN,
    },
    Row {
        name: "a query",
        words: "order",
        input: &[QUERY],
        status: 0,
        text: QUERY_RUN,
    },
];

#[test]
fn objects_run_as_worked(rt: HostRuntime) -> Result<(), Fail> {
    try_rows(&rt, rt.alloc(), STEADY, &ROWS)
}
