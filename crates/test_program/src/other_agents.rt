//! Runs with other agents: of `idle`, whose policy puts idle devices to sleep, and of `stack`, whose targets send to the
//! device below.
use crate::call::{Row, STEADY, try_rows};
use std::test::Fail;

const SLEEPS: &[u8] = b"\
cpus 1\n\
limit 100\n\
objects 16\n\
device D working\n\
register IDLE_TIMEOUT 2\n\
register IDLE_HOLD 0\n\
queue Q sequential\n\
default\n\
on EvtIoRead\n\
call WdfRequestComplete request SUCCESS\n\
end\n\
end\n\
end\n\
app A\n\
at 0 read D 16\n\
at 5 read D 16\n\
end\n\
";

const SLEEPS_RUN: &[u8] = b"\
1 A read D.2 16 -> req.4\n\
2 cpu0 start EvtIoRead Q.3 req.4\n\
3 cpu0 call WdfRequestComplete req.4 SUCCESS -> SUCCESS\n\
4 cpu0 end EvtIoRead Q.3 SUCCESS\n\
5 fw cleanup req.4\n\
6 fw destroy req.4\n\
7 clock tick 1\n\
8 clock tick 2\n\
9 pnp sleep D.2\n\
10 fw stage D.2 queues_down\n\
11 fw stage D.2 settled\n\
12 fw stage D.2 sleeping\n\
13 clock tick 3\n\
14 clock tick 4\n\
15 clock tick 5\n\
16 A read D.2 16 -> req.5\n\
17 pnp wake D.2\n\
18 fw stage D.2 queues_up\n\
19 cpu0 start EvtIoRead Q.3 req.5\n\
20 cpu0 call WdfRequestComplete req.5 SUCCESS -> SUCCESS\n\
21 cpu0 end EvtIoRead Q.3 SUCCESS\n\
22 fw stage D.2 working\n\
23 fw cleanup req.5\n\
24 fw destroy req.5\n\
25 clock tick 6\n\
26 clock tick 7\n\
27 pnp sleep D.2\n\
28 fw stage D.2 queues_down\n\
29 fw stage D.2 settled\n\
30 fw stage D.2 sleeping\n\
finished 30\n\
";

const IS_HELD: &[u8] = b"\
cpus 1\n\
limit 100\n\
objects 16\n\
device D working\n\
register IDLE_TIMEOUT 2\n\
register IDLE_HOLD 0\n\
queue Q sequential\n\
default\n\
on EvtIoRead\n\
put IDLE_HOLD 1\n\
call WdfRequestComplete request SUCCESS\n\
end\n\
end\n\
end\n\
app A\n\
at 0 read D 16\n\
at 5 read D 16\n\
end\n\
";

const IS_HELD_RUN: &[u8] = b"\
1 A read D.2 16 -> req.4\n\
2 cpu0 start EvtIoRead Q.3 req.4\n\
3 cpu0 put IDLE_HOLD 1\n\
4 cpu0 call WdfRequestComplete req.4 SUCCESS -> SUCCESS\n\
5 cpu0 end EvtIoRead Q.3 SUCCESS\n\
6 fw cleanup req.4\n\
7 fw destroy req.4\n\
8 clock tick 1\n\
9 clock tick 2\n\
10 clock tick 3\n\
11 clock tick 4\n\
12 clock tick 5\n\
13 A read D.2 16 -> req.5\n\
14 cpu0 start EvtIoRead Q.3 req.5\n\
15 cpu0 put IDLE_HOLD 1\n\
16 cpu0 call WdfRequestComplete req.5 SUCCESS -> SUCCESS\n\
17 cpu0 end EvtIoRead Q.3 SUCCESS\n\
18 fw cleanup req.5\n\
19 fw destroy req.5\n\
finished 19\n\
";

const SENDS_DOWN: &[u8] = b"\
cpus 1\n\
limit 100\n\
objects 16\n\
device D working\n\
queue Q sequential\n\
default\n\
on EvtIoRead\n\
call WdfRequestSend request TO_E 0\n\
end\n\
end\n\
target TO_E 0 SUCCESS 4\n\
on EvtRequestCompletion\n\
call WdfRequestComplete request status\n\
end\n\
end\n\
end\n\
device E working\n\
queue F sequential\n\
default\n\
on EvtIoRead\n\
call WdfRequestComplete request UNSUCCESSFUL\n\
end\n\
end\n\
end\n\
app A\n\
at 0 read D 16\n\
end\n\
";

const SENDS_DOWN_RUN: &[u8] = b"\
1 A read D.2 16 -> req.7\n\
2 cpu0 start EvtIoRead Q.3 req.7\n\
3 cpu0 call WdfRequestSend req.7 TO_E.4 0 -> 1\n\
4 cpu0 end EvtIoRead Q.3 SUCCESS\n\
5 TO_E.4 read E.5 16 -> req.8\n\
6 cpu0 start EvtIoRead F.6 req.8\n\
7 cpu0 call WdfRequestComplete req.8 UNSUCCESSFUL -> SUCCESS\n\
8 cpu0 end EvtIoRead F.6 SUCCESS\n\
9 fw cleanup req.8\n\
10 fw destroy req.8\n\
11 TO_E.4 done req.7 UNSUCCESSFUL\n\
12 cpu0 start EvtRequestCompletion TO_E.4 req.7\n\
13 cpu0 call WdfRequestComplete req.7 UNSUCCESSFUL -> SUCCESS\n\
14 cpu0 end EvtRequestCompletion TO_E.4 SUCCESS\n\
15 fw cleanup req.7\n\
16 fw destroy req.7\n\
finished 16\n\
";

const CHAIN: &[u8] = b"\
cpus 1\n\
limit 100\n\
objects 16\n\
device D\n\
target TO_E 0 SUCCESS 4\n\
on EvtRequestCompletion\n\
end\n\
end\n\
end\n\
device E\n\
end\n\
pnp\n\
at 0 start D\n\
end\n\
";

const CHAIN_RUN: &[u8] = b"\
1 pnp start E.4\n\
2 fw stage E.4 hardware\n\
3 fw stage E.4 queues_up\n\
4 fw stage E.4 working\n\
5 pnp start D.2\n\
6 fw stage D.2 hardware\n\
7 fw stage D.2 queues_up\n\
8 fw stage D.2 working\n\
finished 8\n\
";

static IDLE: [Row; 2] = [
    Row {
        name: "a device sleeps after two ticks without a request, and a request wakes it",
        words: "idle",
        input: &[SLEEPS],
        status: 0,
        text: SLEEPS_RUN,
    },
    Row {
        name: "a device that is held awake by its driver does not sleep",
        words: "idle",
        input: &[IS_HELD],
        status: 0,
        text: IS_HELD_RUN,
    },
];

#[test]
fn idle_devices_sleep(rt: HostRuntime) -> Result<(), Fail> {
    try_rows(&rt, rt.alloc(), STEADY, &IDLE)
}

static STACK: [Row; 2] = [
    Row {
        name: "a request goes down through a target and comes back with the status of the device below",
        words: "stack",
        input: &[SENDS_DOWN],
        status: 0,
        text: SENDS_DOWN_RUN,
    },
    Row {
        name: "a chain starts from the bottom up",
        words: "stack",
        input: &[CHAIN],
        status: 0,
        text: CHAIN_RUN,
    },
];

#[test]
fn requests_go_down_a_stack(rt: HostRuntime) -> Result<(), Fail> {
    try_rows(&rt, rt.alloc(), STEADY, &STACK)
}
