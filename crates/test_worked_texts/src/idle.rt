//! Worked runs of tools/idle, written by tools/runs_to_tests.py.
use crate::worked::Worked;
use wdf_base::Ending;

pub static RUNS: [Worked; 14] = [
    Worked {
        name: "arrival_after_sleep",
        scenario: "cpus 1
limit 100
objects 16
device D working
register IDLE_TIMEOUT 2
queue Q sequential
default
on EvtIoRead
call WdfRequestComplete request SUCCESS
end
end
end
app A
at 2 read D 16
end
",
        trace: "1 clock tick 1
2 clock tick 2
3 pnp sleep D.2
4 fw stage D.2 queues_down
5 fw stage D.2 settled
6 fw stage D.2 sleeping
7 A read D.2 16 -> req.4
8 pnp wake D.2
9 fw stage D.2 queues_up
10 cpu0 start EvtIoRead Q.3 req.4
11 cpu0 call WdfRequestComplete req.4 SUCCESS -> SUCCESS
12 cpu0 end EvtIoRead Q.3 SUCCESS
13 fw stage D.2 working
14 fw cleanup req.4
15 fw destroy req.4
16 clock tick 3
17 clock tick 4
18 pnp sleep D.2
19 fw stage D.2 queues_down
20 fw stage D.2 settled
21 fw stage D.2 sleeping
finished 21
",
        events: 21,
        ending: Ending::Finished,
    },
    Worked {
        name: "arrival_before_sleep",
        scenario: "cpus 1
limit 100
objects 16
device D working
register IDLE_TIMEOUT 2
queue Q sequential
default
on EvtIoRead
call WdfRequestComplete request SUCCESS
end
end
end
app A
at 2 read D 16
end
order
picks 0 0 1
end
",
        trace: "1 clock tick 1
2 clock tick 2
3 A read D.2 16 -> req.4
4 cpu0 start EvtIoRead Q.3 req.4
5 cpu0 call WdfRequestComplete req.4 SUCCESS -> SUCCESS
6 cpu0 end EvtIoRead Q.3 SUCCESS
7 fw cleanup req.4
8 fw destroy req.4
9 clock tick 3
10 clock tick 4
11 pnp sleep D.2
12 fw stage D.2 queues_down
13 fw stage D.2 settled
14 fw stage D.2 sleeping
finished 14
",
        events: 14,
        ending: Ending::Finished,
    },
    Worked {
        name: "arrival_within_sleep",
        scenario: "cpus 1
limit 100
objects 16
device D working
register IDLE_TIMEOUT 2
queue Q sequential
default
on EvtIoRead
call WdfRequestComplete request SUCCESS
end
end
end
app A
at 2 read D 16
end
order
picks 0 0 0 1 1
end
",
        trace: "1 clock tick 1
2 clock tick 2
3 pnp sleep D.2
4 A read D.2 16 -> req.4
5 fw stage D.2 queues_down
6 fw stage D.2 settled
7 fw stage D.2 sleeping
8 pnp wake D.2
9 fw stage D.2 queues_up
10 cpu0 start EvtIoRead Q.3 req.4
11 cpu0 call WdfRequestComplete req.4 SUCCESS -> SUCCESS
12 cpu0 end EvtIoRead Q.3 SUCCESS
13 fw stage D.2 working
14 fw cleanup req.4
15 fw destroy req.4
16 clock tick 3
17 clock tick 4
18 pnp sleep D.2
19 fw stage D.2 queues_down
20 fw stage D.2 settled
21 fw stage D.2 sleeping
finished 21
",
        events: 21,
        ending: Ending::Finished,
    },
    Worked {
        name: "cancelled_in_sleep",
        scenario: "cpus 1
limit 100
objects 16
device D working
register IDLE_TIMEOUT 2
queue Q sequential
default
on EvtIoRead
call WdfRequestComplete request SUCCESS
end
end
end
app A
at 3 read D 16
at 3 cancel 1
end
order
picks 0 0 0 0 0 0 0 0 1
end
",
        trace: "1 clock tick 1
2 clock tick 2
3 pnp sleep D.2
4 fw stage D.2 queues_down
5 fw stage D.2 settled
6 fw stage D.2 sleeping
7 clock tick 3
8 A read D.2 16 -> req.4
9 A cancel 1 -> req.4
10 fw complete req.4 CANCELLED
11 fw cleanup req.4
12 fw destroy req.4
finished 12
",
        events: 12,
        ending: Ending::Finished,
    },
    Worked {
        name: "held_awake",
        scenario: "cpus 1
limit 100
objects 16
device D working
register IDLE_TIMEOUT 2
register IDLE_HOLD 0
queue Q sequential
default
on EvtIoRead
put IDLE_HOLD 1
call WdfRequestComplete request SUCCESS
end
end
end
app A
at 0 read D 16
at 5 read D 16
end
",
        trace: "1 A read D.2 16 -> req.4
2 cpu0 start EvtIoRead Q.3 req.4
3 cpu0 put IDLE_HOLD 1
4 cpu0 call WdfRequestComplete req.4 SUCCESS -> SUCCESS
5 cpu0 end EvtIoRead Q.3 SUCCESS
6 fw cleanup req.4
7 fw destroy req.4
8 clock tick 1
9 clock tick 2
10 clock tick 3
11 clock tick 4
12 clock tick 5
13 A read D.2 16 -> req.5
14 cpu0 start EvtIoRead Q.3 req.5
15 cpu0 put IDLE_HOLD 1
16 cpu0 call WdfRequestComplete req.5 SUCCESS -> SUCCESS
17 cpu0 end EvtIoRead Q.3 SUCCESS
18 fw cleanup req.5
19 fw destroy req.5
finished 19
",
        events: 19,
        ending: Ending::Finished,
    },
    Worked {
        name: "hold_by_device",
        scenario: "cpus 1
limit 100
objects 16
device D working
register IDLE_TIMEOUT 2
register IDLE_HOLD 0
at 1 set IDLE_HOLD 1
at 5 set IDLE_HOLD 0
end
",
        trace: "1 clock tick 1
2 D.2 set IDLE_HOLD 1
3 clock tick 2
4 clock tick 3
5 clock tick 4
6 clock tick 5
7 D.2 set IDLE_HOLD 0
8 clock tick 6
9 clock tick 7
10 pnp sleep D.2
11 fw stage D.2 queues_down
12 fw stage D.2 settled
13 fw stage D.2 sleeping
finished 13
",
        events: 13,
        ending: Ending::Finished,
    },
    Worked {
        name: "hold_by_driver",
        scenario: "cpus 1
limit 100
objects 16
device D working
register IDLE_TIMEOUT 3
register IDLE_HOLD 7
queue Q sequential
default
on EvtIoDeviceControl
put IDLE_HOLD code
call WdfRequestComplete request SUCCESS
end
end
end
app A
at 5 control D 0 8
at 6 control D 1 8
at 12 control D 0 8
end
",
        trace: "1 clock tick 1
2 clock tick 2
3 clock tick 3
4 clock tick 4
5 clock tick 5
6 A control D.2 0 8 -> req.4
7 cpu0 start EvtIoDeviceControl Q.3 req.4
8 cpu0 put IDLE_HOLD 0
9 cpu0 call WdfRequestComplete req.4 SUCCESS -> SUCCESS
10 cpu0 end EvtIoDeviceControl Q.3 SUCCESS
11 fw cleanup req.4
12 fw destroy req.4
13 clock tick 6
14 A control D.2 1 8 -> req.5
15 cpu0 start EvtIoDeviceControl Q.3 req.5
16 cpu0 put IDLE_HOLD 1
17 cpu0 call WdfRequestComplete req.5 SUCCESS -> SUCCESS
18 cpu0 end EvtIoDeviceControl Q.3 SUCCESS
19 fw cleanup req.5
20 fw destroy req.5
21 clock tick 7
22 clock tick 8
23 clock tick 9
24 clock tick 10
25 clock tick 11
26 clock tick 12
27 A control D.2 0 8 -> req.6
28 cpu0 start EvtIoDeviceControl Q.3 req.6
29 cpu0 put IDLE_HOLD 0
30 cpu0 call WdfRequestComplete req.6 SUCCESS -> SUCCESS
31 cpu0 end EvtIoDeviceControl Q.3 SUCCESS
32 fw cleanup req.6
33 fw destroy req.6
34 clock tick 13
35 clock tick 14
36 clock tick 15
37 pnp sleep D.2
38 fw stage D.2 queues_down
39 fw stage D.2 settled
40 fw stage D.2 sleeping
finished 40
",
        events: 40,
        ending: Ending::Finished,
    },
    Worked {
        name: "rebalanced",
        scenario: "cpus 1
limit 100
objects 16
device D working
register IDLE_TIMEOUT 2
end
pnp
at 1 rebalance D
end
",
        trace: "1 clock tick 1
2 pnp rebalance D.2
3 fw stage D.2 queues_down
4 fw stage D.2 settled
5 fw stage D.2 no_hardware
6 fw stage D.2 hardware
7 fw stage D.2 queues_up
8 fw stage D.2 working
9 clock tick 2
10 clock tick 3
11 pnp sleep D.2
12 fw stage D.2 queues_down
13 fw stage D.2 settled
14 fw stage D.2 sleeping
finished 14
",
        events: 14,
        ending: Ending::Finished,
    },
    Worked {
        name: "refused_removal",
        scenario: "cpus 1
limit 100
objects 16
device D working
register IDLE_TIMEOUT 2
queue Q sequential
default
on EvtIoRead
call WdfRequestComplete request SUCCESS
end
end
on EvtDeviceQueryRemove
return UNSUCCESSFUL
end
end
app A
at 4 read D 16
end
pnp
at 3 remove D
end
",
        trace: "1 clock tick 1
2 clock tick 2
3 pnp sleep D.2
4 fw stage D.2 queues_down
5 fw stage D.2 settled
6 fw stage D.2 sleeping
7 clock tick 3
8 pnp remove D.2
9 cpu0 start EvtDeviceQueryRemove D.2
10 cpu0 end EvtDeviceQueryRemove D.2 UNSUCCESSFUL
11 clock tick 4
12 A read D.2 16 -> req.4
13 pnp wake D.2
14 fw stage D.2 queues_up
15 cpu0 start EvtIoRead Q.3 req.4
16 cpu0 call WdfRequestComplete req.4 SUCCESS -> SUCCESS
17 cpu0 end EvtIoRead Q.3 SUCCESS
18 fw stage D.2 working
19 fw cleanup req.4
20 fw destroy req.4
21 clock tick 5
22 clock tick 6
23 pnp sleep D.2
24 fw stage D.2 queues_down
25 fw stage D.2 settled
26 fw stage D.2 sleeping
finished 26
",
        events: 26,
        ending: Ending::Finished,
    },
    Worked {
        name: "refused_stop",
        scenario: "cpus 1
limit 100
objects 16
device D working
register IDLE_TIMEOUT 2
on EvtDeviceQueryStop
spend 3
return UNSUCCESSFUL
end
end
pnp
at 1 rebalance D
end
",
        trace: "1 clock tick 1
2 pnp rebalance D.2
3 cpu0 start EvtDeviceQueryStop D.2
4 cpu0 spend 3
5 clock tick 2
6 clock tick 3
7 clock tick 4
8 cpu0 end EvtDeviceQueryStop D.2 UNSUCCESSFUL
9 clock tick 5
10 clock tick 6
11 pnp sleep D.2
12 fw stage D.2 queues_down
13 fw stage D.2 settled
14 fw stage D.2 sleeping
finished 14
",
        events: 14,
        ending: Ending::Finished,
    },
    Worked {
        name: "removed_in_sleep",
        scenario: "cpus 1
limit 100
objects 16
device D working
register IDLE_TIMEOUT 2
queue Q sequential
default
on EvtIoRead
call WdfRequestComplete request SUCCESS
end
end
end
app A
at 4 read D 16
end
pnp
at 3 remove D
end
",
        trace: "1 clock tick 1
2 clock tick 2
3 pnp sleep D.2
4 fw stage D.2 queues_down
5 fw stage D.2 settled
6 fw stage D.2 sleeping
7 clock tick 3
8 pnp remove D.2
9 fw stage D.2 no_hardware
10 fw stage D.2 closed
11 fw stage D.2 removed
12 fw cleanup Q.3
13 fw cleanup D.2
14 fw destroy Q.3
15 fw destroy D.2
16 clock tick 4
17 A read D.2 16 -> none
finished 17
",
        events: 17,
        ending: Ending::Finished,
    },
    Worked {
        name: "sleeps_when_unused",
        scenario: "cpus 1
limit 100
objects 16
device D working
register IDLE_TIMEOUT 2
register IDLE_HOLD 0
queue Q sequential
default
on EvtIoRead
call WdfRequestComplete request SUCCESS
end
end
end
app A
at 0 read D 16
at 5 read D 16
end
",
        trace: "1 A read D.2 16 -> req.4
2 cpu0 start EvtIoRead Q.3 req.4
3 cpu0 call WdfRequestComplete req.4 SUCCESS -> SUCCESS
4 cpu0 end EvtIoRead Q.3 SUCCESS
5 fw cleanup req.4
6 fw destroy req.4
7 clock tick 1
8 clock tick 2
9 pnp sleep D.2
10 fw stage D.2 queues_down
11 fw stage D.2 settled
12 fw stage D.2 sleeping
13 clock tick 3
14 clock tick 4
15 clock tick 5
16 A read D.2 16 -> req.5
17 pnp wake D.2
18 fw stage D.2 queues_up
19 cpu0 start EvtIoRead Q.3 req.5
20 cpu0 call WdfRequestComplete req.5 SUCCESS -> SUCCESS
21 cpu0 end EvtIoRead Q.3 SUCCESS
22 fw stage D.2 working
23 fw cleanup req.5
24 fw destroy req.5
25 clock tick 6
26 clock tick 7
27 pnp sleep D.2
28 fw stage D.2 queues_down
29 fw stage D.2 settled
30 fw stage D.2 sleeping
finished 30
",
        events: 30,
        ending: Ending::Finished,
    },
    Worked {
        name: "surprised",
        scenario: "cpus 1
limit 100
objects 16
device D working
register IDLE_TIMEOUT 1
queue Q sequential
default
on EvtIoRead
spend 2
call WdfRequestComplete request SUCCESS
end
end
end
app A
at 0 read D 16
end
pnp
at 1 surprise D
end
",
        trace: "1 A read D.2 16 -> req.4
2 cpu0 start EvtIoRead Q.3 req.4
3 cpu0 spend 2
4 clock tick 1
5 pnp surprise D.2
6 fw stage D.2 queues_down
7 clock tick 2
8 cpu0 call WdfRequestComplete req.4 SUCCESS -> SUCCESS
9 cpu0 end EvtIoRead Q.3 SUCCESS
10 fw stage D.2 settled
11 fw stage D.2 no_hardware
12 fw stage D.2 closed
13 fw stage D.2 removed
14 fw cleanup req.4
15 fw cleanup Q.3
16 fw cleanup D.2
17 fw destroy Q.3
18 fw destroy req.4
19 fw destroy D.2
finished 19
",
        events: 19,
        ending: Ending::Finished,
    },
    Worked {
        name: "used_for_a_while",
        scenario: "cpus 1
limit 100
objects 16
device D working
register IDLE_TIMEOUT 2
queue Q sequential
default
on EvtIoRead
spend 3
call WdfRequestComplete request SUCCESS
end
end
end
app A
at 0 read D 16
end
",
        trace: "1 A read D.2 16 -> req.4
2 cpu0 start EvtIoRead Q.3 req.4
3 cpu0 spend 3
4 clock tick 1
5 clock tick 2
6 clock tick 3
7 cpu0 call WdfRequestComplete req.4 SUCCESS -> SUCCESS
8 cpu0 end EvtIoRead Q.3 SUCCESS
9 fw cleanup req.4
10 fw destroy req.4
11 clock tick 4
12 clock tick 5
13 pnp sleep D.2
14 fw stage D.2 queues_down
15 fw stage D.2 settled
16 fw stage D.2 sleeping
finished 16
",
        events: 16,
        ending: Ending::Finished,
    },
];

pub static WITH_TWO: [Worked; 3] = [
    Worked {
        name: "both_at_one_tick",
        scenario: "cpus 1
limit 100
objects 16
device D working
register IDLE_TIMEOUT 2
end
device E working
register SECOND_TIMEOUT 2
end
pnp
at 2 rebalance D
end
",
        trace: "1 clock tick 1
2 clock tick 2
3 pnp sleep D.2
4 fw stage D.2 queues_down
5 fw stage D.2 settled
6 fw stage D.2 sleeping
7 pnp sleep E.3
8 fw stage E.3 queues_down
9 fw stage E.3 settled
10 fw stage E.3 sleeping
11 pnp rebalance D.2
finished 11
",
        events: 11,
        ending: Ending::Finished,
    },
    Worked {
        name: "started",
        scenario: "cpus 1
limit 100
objects 16
device D
register IDLE_TIMEOUT 2
end
device E working
register SECOND_TIMEOUT 0
end
pnp
at 1 start D
end
",
        trace: "1 clock tick 1
2 pnp start D.2
3 fw stage D.2 hardware
4 fw stage D.2 queues_up
5 fw stage D.2 working
6 clock tick 2
7 clock tick 3
8 pnp sleep D.2
9 fw stage D.2 queues_down
10 fw stage D.2 settled
11 fw stage D.2 sleeping
finished 11
",
        events: 11,
        ending: Ending::Finished,
    },
    Worked {
        name: "two_timeouts",
        scenario: "cpus 1
limit 100
objects 16
device D working
register IDLE_TIMEOUT 2
queue Q sequential
default
on EvtIoRead
call WdfRequestComplete request SUCCESS
end
end
end
device E working
register SECOND_TIMEOUT 1
queue F sequential
default
on EvtIoRead
call WdfRequestComplete request SUCCESS
end
end
end
app A
at 3 read E 16
end
",
        trace: "1 clock tick 1
2 pnp sleep E.4
3 fw stage E.4 queues_down
4 fw stage E.4 settled
5 fw stage E.4 sleeping
6 clock tick 2
7 pnp sleep D.2
8 fw stage D.2 queues_down
9 fw stage D.2 settled
10 fw stage D.2 sleeping
11 clock tick 3
12 A read E.4 16 -> req.6
13 pnp wake E.4
14 fw stage E.4 queues_up
15 cpu0 start EvtIoRead F.5 req.6
16 cpu0 call WdfRequestComplete req.6 SUCCESS -> SUCCESS
17 cpu0 end EvtIoRead F.5 SUCCESS
18 fw stage E.4 working
19 fw cleanup req.6
20 fw destroy req.6
21 clock tick 4
22 pnp sleep E.4
23 fw stage E.4 queues_down
24 fw stage E.4 settled
25 fw stage E.4 sleeping
finished 25
",
        events: 25,
        ending: Ending::Finished,
    },
];
