//! Worked runs of tools/runs/targets, written by tools/runs_to_tests.py.
use crate::worked::Worked;
use wdf_base::{Ending, Fault};

pub static RUNS: [Worked; 5] = [
    Worked {
        name: "drained",
        scenario: "cpus 2
limit 200
objects 32
driver
level passive
end
class W workitem D
on EvtWorkItem
call q = WdfIoQueueDrainSynchronously P
log q
call r = WdfIoQueueRetrieveNextRequest P
end
end
device D working
queue Q sequential
default
on EvtIoRead
call f = WdfRequestForwardToIoQueue request P
if ( length == 2 )
call w = WdfWorkItemCreate W
call WdfWorkItemEnqueue w
spend 1
call r = WdfIoQueueRetrieveNextRequest P
call WdfRequestComplete r SUCCESS
call r = WdfIoQueueRetrieveNextRequest P
call WdfRequestComplete r SUCCESS
end
end
end
queue P manual
on EvtIoCanceledOnQueue
call WdfRequestComplete request CANCELLED
end
end
end
app A
at 0 read D 1
at 0 read D 2
end
",
        trace: "1 A read D.2 1 -> req.5
2 cpu0 start EvtIoRead Q.3 req.5
3 cpu0 call WdfRequestForwardToIoQueue req.5 P.4 -> SUCCESS
4 cpu0 step 19
5 cpu0 end EvtIoRead Q.3 SUCCESS
6 A read D.2 2 -> req.6
7 cpu0 start EvtIoRead Q.3 req.6
8 cpu0 call WdfRequestForwardToIoQueue req.6 P.4 -> SUCCESS
9 cpu0 step 19
10 cpu0 call WdfWorkItemCreate W -> W.7
11 cpu0 call WdfWorkItemEnqueue W.7 -> SUCCESS
12 cpu0 spend 1
13 cpu1 start EvtWorkItem W.7
14 cpu1 wait WdfIoQueueDrainSynchronously P.4
15 cpu1 park 13
16 clock tick 1
17 cpu0 call WdfIoQueueRetrieveNextRequest P.4 -> req.5
18 cpu0 call WdfRequestComplete req.5 SUCCESS -> SUCCESS
19 cpu0 call WdfIoQueueRetrieveNextRequest P.4 -> req.6
20 cpu0 call WdfRequestComplete req.6 SUCCESS -> SUCCESS
21 cpu0 end EvtIoRead Q.3 SUCCESS
22 cpu0 unpark 13
23 cpu0 woke WdfIoQueueDrainSynchronously P.4 -> SUCCESS
24 cpu0 log SUCCESS
25 cpu0 call WdfIoQueueRetrieveNextRequest P.4 -> NO_MORE_ENTRIES
26 cpu0 end EvtWorkItem W.7 SUCCESS
27 fw cleanup req.5
28 fw cleanup req.6
29 fw destroy req.5
30 fw destroy req.6
finished 30
",
        events: 30,
        ending: Ending::Finished,
    },
    Worked {
        name: "every_statement",
        scenario: "cpus 1
limit 100
objects 16
device D working
queue Q sequential
default
on EvtIoDefault
let x = 0
repeat 3
let x = ( x + 2 )
if ( x == 4 )
log x
else
end
end
repeat 0
log 1
end
let y = ( 0 - 1 )
log y
log ( ( y * 2 ) / 3 )
log ( SUCCESS == 0 )
log ( self == self )
log ( 7 & 3 )
log ( 7 ^ 2 )
log ( 3 <= 3 )
log ( 3 < 3 )
call WdfRequestComplete request code
end
end
end
app A
at 0 control D 5 9
end
",
        trace: "1 A control D.2 5 9 -> req.4
2 cpu0 start EvtIoDefault Q.3 req.4
3 cpu0 step 8
4 cpu0 step 9
5 cpu0 step 10
6 cpu0 step 11
7 cpu0 step 9
8 cpu0 step 10
9 cpu0 step 11
10 cpu0 log 4
11 cpu0 step 9
12 cpu0 step 10
13 cpu0 step 11
14 cpu0 step 9
15 cpu0 step 16
16 cpu0 step 19
17 cpu0 log 18446744073709551615
18 cpu0 log 6148914691236517204
19 cpu0 log 0
20 cpu0 log 1
21 cpu0 log 3
22 cpu0 log 5
23 cpu0 log 1
24 cpu0 log 0
25 cpu0 fault ScriptError 28
fault 25
",
        events: 25,
        ending: Ending::Fault(Fault::ScriptError),
    },
    Worked {
        name: "sent_and_cancelled",
        scenario: "cpus 1
limit 200
objects 32
class M request
end
device D working
queue Q parallel 4
default
on EvtIoRead
if ( length == 1 )
call WdfRequestSend request T 1
end
if ( length == 2 )
call m = WdfRequestCreate M request
call WdfRequestSend m T 0
call a = WdfRequestCancelSentRequest m
call b = WdfRequestCancelSentRequest request
call WdfRequestSend request T 0
call WdfIoTargetStop T 2
end
end
end
target T 5 UNSUCCESSFUL 4
on EvtRequestCompletion
log status
if ( length == 2 )
call c = WdfRequestIsCanceled request
call WdfRequestComplete request status
end
end
end
end
app A
at 0 read D 1
at 0 read D 2
at 1 cancel 2
end
",
        trace: "1 A read D.2 1 -> req.5
2 cpu0 start EvtIoRead Q.3 req.5
3 cpu0 step 10
4 cpu0 call WdfRequestSend req.5 T.4 1 -> 1
5 cpu0 step 13
6 cpu0 end EvtIoRead Q.3 SUCCESS
7 A read D.2 2 -> req.6
8 cpu0 start EvtIoRead Q.3 req.6
9 cpu0 step 10
10 cpu0 step 13
11 cpu0 call WdfRequestCreate M req.6 -> M.7
12 cpu0 call WdfRequestSend M.7 T.4 0 -> 1
13 cpu0 call WdfRequestCancelSentRequest M.7 -> 1
14 cpu0 call WdfRequestCancelSentRequest req.6 -> 0
15 cpu0 call WdfRequestSend req.6 T.4 0 -> 1
16 cpu0 call WdfIoTargetStop T.4 2 -> SUCCESS
17 cpu0 end EvtIoRead Q.3 SUCCESS
18 T.4 done M.7 CANCELLED
19 cpu0 start EvtRequestCompletion T.4 M.7
20 cpu0 log CANCELLED
21 cpu0 step 26
22 cpu0 end EvtRequestCompletion T.4 SUCCESS
23 clock tick 1
24 A cancel 2 -> req.6
25 T.4 done req.6 CANCELLED
26 cpu0 start EvtRequestCompletion T.4 req.6
27 cpu0 log CANCELLED
28 cpu0 step 26
29 cpu0 call WdfRequestIsCanceled req.6 -> 1
30 cpu0 call WdfRequestComplete req.6 CANCELLED -> SUCCESS
31 cpu0 end EvtRequestCompletion T.4 SUCCESS
32 fw cleanup M.7
33 fw cleanup req.6
34 fw destroy M.7
35 fw destroy req.6
36 clock tick 2
37 clock tick 3
38 clock tick 4
39 clock tick 5
40 T.4 done req.5 UNSUCCESSFUL
41 fw complete req.5 UNSUCCESSFUL
42 fw cleanup req.5
43 fw destroy req.5
finished 43
",
        events: 43,
        ending: Ending::Finished,
    },
    Worked {
        name: "stopped_while_sent",
        scenario: "cpus 1
limit 100
objects 16
device D working
queue R sequential
default
on EvtIoRead
call WdfRequestSend request T 0
end
on EvtIoStop
call WdfRequestStopAcknowledge request 0
end
on EvtIoResume
log status
end
end
target T 3 SUCCESS 1
on EvtRequestCompletion
call WdfRequestComplete request status
end
end
end
app A
at 0 read D 7
end
pnp
at 1 sleep D
at 2 wake D
end
",
        trace: "1 A read D.2 7 -> req.5
2 cpu0 start EvtIoRead R.3 req.5
3 cpu0 call WdfRequestSend req.5 T.4 0 -> 1
4 cpu0 end EvtIoRead R.3 SUCCESS
5 clock tick 1
6 pnp sleep D.2
7 fw stage D.2 queues_down
8 cpu0 start EvtIoStop R.3 req.5
9 cpu0 call WdfRequestStopAcknowledge req.5 0 -> SUCCESS
10 cpu0 end EvtIoStop R.3 SUCCESS
11 fw stage D.2 settled
12 fw stage D.2 sleeping
13 clock tick 2
14 pnp wake D.2
15 fw stage D.2 queues_up
16 cpu0 start EvtIoResume R.3 req.5
17 cpu0 log SUCCESS
18 cpu0 end EvtIoResume R.3 SUCCESS
19 fw stage D.2 working
20 clock tick 3
21 T.4 done req.5 SUCCESS
22 cpu0 start EvtRequestCompletion T.4 req.5
23 cpu0 call WdfRequestComplete req.5 SUCCESS -> SUCCESS
24 cpu0 end EvtRequestCompletion T.4 SUCCESS
25 fw cleanup req.5
26 fw destroy req.5
finished 26
",
        events: 26,
        ending: Ending::Finished,
    },
    Worked {
        name: "target_stopped",
        scenario: "cpus 1
limit 100
objects 16
class W workitem D
on EvtWorkItem
call WdfIoTargetStop T 0
call WdfIoTargetStart T
end
end
device D working
queue Q parallel 2
default
on EvtIoRead
call WdfRequestSend request T 0
if ( length == 2 )
call w = WdfWorkItemCreate W
call WdfWorkItemEnqueue w
end
end
end
target T 9 SUCCESS 2
on EvtRequestCompletion
call WdfRequestComplete request status
end
end
end
app A
at 0 read D 1
at 0 read D 2
end
",
        trace: "1 A read D.2 1 -> req.5
2 cpu0 start EvtIoRead Q.3 req.5
3 cpu0 call WdfRequestSend req.5 T.4 0 -> 1
4 cpu0 step 15
5 cpu0 end EvtIoRead Q.3 SUCCESS
6 A read D.2 2 -> req.6
7 cpu0 start EvtIoRead Q.3 req.6
8 cpu0 call WdfRequestSend req.6 T.4 0 -> 1
9 cpu0 step 15
10 cpu0 call WdfWorkItemCreate W -> W.7
11 cpu0 call WdfWorkItemEnqueue W.7 -> SUCCESS
12 cpu0 end EvtIoRead Q.3 SUCCESS
13 cpu0 start EvtWorkItem W.7
14 cpu0 wait WdfIoTargetStop T.4 0
15 cpu0 park 13
16 T.4 done req.5 CANCELLED
17 cpu0 start EvtRequestCompletion T.4 req.5
18 cpu0 call WdfRequestComplete req.5 CANCELLED -> SUCCESS
19 cpu0 end EvtRequestCompletion T.4 SUCCESS
20 fw cleanup req.5
21 fw destroy req.5
22 T.4 done req.6 CANCELLED
23 cpu0 start EvtRequestCompletion T.4 req.6
24 cpu0 call WdfRequestComplete req.6 CANCELLED -> SUCCESS
25 cpu0 end EvtRequestCompletion T.4 SUCCESS
26 cpu0 unpark 13
27 cpu0 woke WdfIoTargetStop T.4 0 -> SUCCESS
28 cpu0 call WdfIoTargetStart T.4 -> SUCCESS
29 cpu0 end EvtWorkItem W.7 SUCCESS
30 fw cleanup req.6
31 fw destroy req.6
finished 31
",
        events: 31,
        ending: Ending::Finished,
    },
];
