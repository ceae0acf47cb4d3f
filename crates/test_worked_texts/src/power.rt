//! Worked runs of tools/runs/power, written by tools/runs_to_tests.py.
use crate::worked::Worked;
use wdf_base::Ending;

pub static RUNS: [Worked; 6] = [
    Worked {
        name: "deleted_timer",
        scenario: "cpus 1
limit 100
objects 16
class T timer D
on EvtTimerFunc
call WdfObjectDelete self
end
on EvtCleanupCallback
log 1
end
on EvtDestroyCallback
log 2
end
end
device D
on EvtDeviceD0Entry
call t = WdfTimerCreate T
call WdfTimerStart t 1
end
end
pnp
at 0 start D
end
",
        trace: "1 pnp start D.2
2 fw stage D.2 hardware
3 cpu0 start EvtDeviceD0Entry D.2
4 cpu0 call WdfTimerCreate T -> T.3
5 cpu0 call WdfTimerStart T.3 1 -> 0
6 cpu0 end EvtDeviceD0Entry D.2 SUCCESS
7 fw stage D.2 queues_up
8 fw stage D.2 working
9 clock tick 1
10 cpu0 start EvtTimerFunc T.3
11 cpu0 call WdfObjectDelete T.3 -> SUCCESS
12 cpu0 end EvtTimerFunc T.3 SUCCESS
13 cpu0 start EvtCleanupCallback T.3
14 cpu0 log 1
15 cpu0 end EvtCleanupCallback T.3 SUCCESS
16 fw cleanup T.3
17 cpu0 start EvtDestroyCallback T.3
18 cpu0 log 2
19 cpu0 end EvtDestroyCallback T.3 SUCCESS
20 fw destroy T.3
finished 20
",
        events: 20,
        ending: Ending::Finished,
    },
    Worked {
        name: "failed_start",
        scenario: "cpus 1
limit 100
objects 16
device D
interrupt I 5
on EvtInterruptIsr
end
end
on EvtDeviceD0Entry
return UNSUCCESSFUL
end
on EvtDeviceReleaseHardware
end
on EvtDeviceD0Exit
end
end
pnp
at 0 start D
end
",
        trace: "1 pnp start D.2
2 fw stage D.2 hardware
3 cpu0 start EvtDeviceD0Entry D.2
4 cpu0 end EvtDeviceD0Entry D.2 UNSUCCESSFUL
5 cpu0 start EvtDeviceReleaseHardware D.2
6 cpu0 end EvtDeviceReleaseHardware D.2 SUCCESS
7 fw stage D.2 no_hardware
8 fw stage D.2 closed
9 fw stage D.2 removed
10 fw cleanup I.3
11 fw cleanup D.2
12 fw destroy I.3
13 fw destroy D.2
finished 13
",
        events: 13,
        ending: Ending::Finished,
    },
    Worked {
        name: "leaked_reference",
        scenario: "cpus 1
limit 100
objects 16
class O object
end
device D working
queue Q sequential
default
on EvtIoRead
call o = WdfObjectCreate O device
call WdfObjectReference o
call WdfObjectDelete o
call WdfRequestComplete request SUCCESS
end
end
end
app A
at 0 read D 16
end
",
        trace: "1 A read D.2 16 -> req.4
2 cpu0 start EvtIoRead Q.3 req.4
3 cpu0 call WdfObjectCreate O D.2 -> O.5
4 cpu0 call WdfObjectReference O.5 -> SUCCESS
5 cpu0 call WdfObjectDelete O.5 -> SUCCESS
6 cpu0 call WdfRequestComplete req.4 SUCCESS -> SUCCESS
7 cpu0 end EvtIoRead Q.3 SUCCESS
8 fw cleanup req.4
9 fw cleanup O.5
10 fw destroy req.4
stuck 10
O.5 references 1
",
        events: 10,
        ending: Ending::Stuck,
    },
    Worked {
        name: "never_acknowledged",
        scenario: "cpus 1
limit 100
objects 16
device D working
queue Q sequential
default
on EvtIoRead
end
end
end
app A
at 0 read D 16
end
pnp
at 1 sleep D
end
",
        trace: "1 A read D.2 16 -> req.4
2 cpu0 start EvtIoRead Q.3 req.4
3 cpu0 end EvtIoRead Q.3 SUCCESS
4 clock tick 1
5 pnp sleep D.2
6 fw stage D.2 queues_down
stuck 6
req.4 owned
D.2 settled waits request req.4
",
        events: 6,
        ending: Ending::Stuck,
    },
    Worked {
        name: "removed",
        scenario: "cpus 1
limit 100
objects 16
device D working
queue R sequential
for read
on EvtIoRead
end
on EvtIoStop
call WdfRequestComplete request CANCELLED
end
end
queue W sequential
for write
on EvtIoWrite
call WdfRequestSend request T 0
end
end
target T 2 SUCCESS 4
on EvtRequestCompletion
call WdfRequestComplete request status
end
end
end
app A
at 0 read D 1
at 0 read D 1
at 0 write D 1
end
pnp
at 1 remove D
end
",
        trace: "1 A read D.2 1 -> req.6
2 cpu0 start EvtIoRead R.3 req.6
3 cpu0 end EvtIoRead R.3 SUCCESS
4 A read D.2 1 -> req.7
5 A write D.2 1 -> req.8
6 cpu0 start EvtIoWrite W.4 req.8
7 cpu0 call WdfRequestSend req.8 T.5 0 -> 1
8 cpu0 end EvtIoWrite W.4 SUCCESS
9 clock tick 1
10 pnp remove D.2
11 fw stage D.2 queues_down
12 cpu0 start EvtIoStop R.3 req.6
13 cpu0 call WdfRequestComplete req.6 CANCELLED -> SUCCESS
14 cpu0 end EvtIoStop R.3 SUCCESS
15 fw cleanup req.6
16 fw destroy req.6
17 clock tick 2
18 T.5 done req.8 SUCCESS
19 cpu0 start EvtRequestCompletion T.5 req.8
20 cpu0 call WdfRequestComplete req.8 SUCCESS -> SUCCESS
21 cpu0 end EvtRequestCompletion T.5 SUCCESS
22 fw stage D.2 settled
23 fw stage D.2 no_hardware
24 fw stage D.2 closed
25 fw complete req.7 CANCELLED
26 fw stage D.2 removed
27 fw cleanup req.8
28 fw cleanup req.7
29 fw cleanup T.5
30 fw cleanup W.4
31 fw cleanup R.3
32 fw cleanup D.2
33 fw destroy R.3
34 fw destroy W.4
35 fw destroy T.5
36 fw destroy req.7
37 fw destroy req.8
38 fw destroy D.2
finished 38
",
        events: 38,
        ending: Ending::Finished,
    },
    Worked {
        name: "sleep_and_wake",
        scenario: "cpus 1
limit 200
objects 16
device D working
queue Q parallel 3
default
on EvtIoRead
call c = GetContext request 0
if ( c == 1 )
call WdfRequestComplete request SUCCESS
else
call SetContext request 0 1
end
end
on EvtIoStop
if ( length == 1 )
call WdfRequestStopAcknowledge request 0
end
if ( length == 2 )
call WdfRequestStopAcknowledge request 1
end
if ( length == 3 )
call WdfRequestComplete request SUCCESS
end
end
on EvtIoResume
call WdfRequestComplete request SUCCESS
end
end
on EvtDeviceD0Exit
end
end
app A
at 0 read D 1
at 0 read D 2
at 0 read D 3
end
pnp
at 1 sleep D
at 2 wake D
end
",
        trace: "1 A read D.2 1 -> req.4
2 cpu0 start EvtIoRead Q.3 req.4
3 cpu0 call GetContext req.4 0 -> 0
4 cpu0 step 9
5 cpu0 call SetContext req.4 0 1 -> SUCCESS
6 cpu0 end EvtIoRead Q.3 SUCCESS
7 A read D.2 2 -> req.5
8 cpu0 start EvtIoRead Q.3 req.5
9 cpu0 call GetContext req.5 0 -> 0
10 cpu0 step 9
11 cpu0 call SetContext req.5 0 1 -> SUCCESS
12 cpu0 end EvtIoRead Q.3 SUCCESS
13 A read D.2 3 -> req.6
14 cpu0 start EvtIoRead Q.3 req.6
15 cpu0 call GetContext req.6 0 -> 0
16 cpu0 step 9
17 cpu0 call SetContext req.6 0 1 -> SUCCESS
18 cpu0 end EvtIoRead Q.3 SUCCESS
19 clock tick 1
20 pnp sleep D.2
21 fw stage D.2 queues_down
22 cpu0 start EvtIoStop Q.3 req.4
23 cpu0 step 16
24 cpu0 call WdfRequestStopAcknowledge req.4 0 -> SUCCESS
25 cpu0 step 19
26 cpu0 step 22
27 cpu0 end EvtIoStop Q.3 SUCCESS
28 cpu0 start EvtIoStop Q.3 req.5
29 cpu0 step 16
30 cpu0 step 19
31 cpu0 call WdfRequestStopAcknowledge req.5 1 -> SUCCESS
32 cpu0 step 22
33 cpu0 end EvtIoStop Q.3 SUCCESS
34 cpu0 start EvtIoStop Q.3 req.6
35 cpu0 step 16
36 cpu0 step 19
37 cpu0 step 22
38 cpu0 call WdfRequestComplete req.6 SUCCESS -> SUCCESS
39 cpu0 end EvtIoStop Q.3 SUCCESS
40 fw stage D.2 settled
41 cpu0 start EvtDeviceD0Exit D.2
42 cpu0 end EvtDeviceD0Exit D.2 SUCCESS
43 fw stage D.2 sleeping
44 fw cleanup req.6
45 fw destroy req.6
46 clock tick 2
47 pnp wake D.2
48 fw stage D.2 queues_up
49 cpu0 start EvtIoResume Q.3 req.4
50 cpu0 call WdfRequestComplete req.4 SUCCESS -> SUCCESS
51 cpu0 end EvtIoResume Q.3 SUCCESS
52 cpu0 start EvtIoRead Q.3 req.5
53 cpu0 call GetContext req.5 0 -> 1
54 cpu0 step 9
55 cpu0 call WdfRequestComplete req.5 SUCCESS -> SUCCESS
56 cpu0 end EvtIoRead Q.3 SUCCESS
57 fw stage D.2 working
58 fw cleanup req.4
59 fw cleanup req.5
60 fw destroy req.4
61 fw destroy req.5
finished 61
",
        events: 61,
        ending: Ending::Finished,
    },
];
