//! Worked runs of tools/runs/requests, written by tools/runs_to_tests.py.
use crate::worked::Worked;
use wdf_base::{Ending, Fault};

pub static RUNS: [Worked; 7] = [
    Worked {
        name: "cancel_comes_first",
        scenario: "cpus 1
limit 100
objects 16
device D working
queue Q sequential
default
on EvtIoRead
call m = WdfRequestMarkCancelableEx request
call u = WdfRequestUnmarkCancelable request
if ( u == SUCCESS )
call WdfRequestComplete request SUCCESS
end
end
on EvtRequestCancel
call WdfRequestComplete request CANCELLED
end
end
end
app A
at 0 read D 16
at 0 cancel 1
end
order
picks 0 0 0 1
end
",
        trace: "1 A read D.2 16 -> req.4
2 cpu0 start EvtIoRead Q.3 req.4
3 cpu0 call WdfRequestMarkCancelableEx req.4 -> SUCCESS
4 A cancel 1 -> req.4
5 cpu0 call WdfRequestUnmarkCancelable req.4 -> CANCELLED
6 cpu0 step 10
7 cpu0 end EvtIoRead Q.3 SUCCESS
8 cpu0 start EvtRequestCancel Q.3 req.4
9 cpu0 call WdfRequestComplete req.4 CANCELLED -> SUCCESS
10 cpu0 end EvtRequestCancel Q.3 SUCCESS
11 fw cleanup req.4
12 fw destroy req.4
finished 12
",
        events: 12,
        ending: Ending::Finished,
    },
    Worked {
        name: "completed_too_early",
        scenario: "cpus 1
limit 100
objects 16
device D working
queue Q sequential
default
on EvtIoRead
call m = WdfRequestMarkCancelableEx request
call u = WdfRequestUnmarkCancelable request
call WdfRequestComplete request SUCCESS
end
on EvtRequestCancel
call WdfRequestComplete request CANCELLED
end
end
end
app A
at 0 read D 16
at 0 cancel 1
end
order
picks 0 0 0 1
end
",
        trace: "1 A read D.2 16 -> req.4
2 cpu0 start EvtIoRead Q.3 req.4
3 cpu0 call WdfRequestMarkCancelableEx req.4 -> SUCCESS
4 A cancel 1 -> req.4
5 cpu0 call WdfRequestUnmarkCancelable req.4 -> CANCELLED
6 cpu0 fault CompleteBeforeCancelCallback 10
fault 6
",
        events: 6,
        ending: Ending::Fault(Fault::CompleteBeforeCancelCallback),
    },
    Worked {
        name: "notified",
        scenario: "cpus 1
limit 100
objects 16
device D working
queue R sequential
default
on EvtIoRead
call WdfIoQueueReadyNotify M 1
call f = WdfRequestForwardToIoQueue request M
end
end
queue M manual
on EvtIoQueueState
call r = WdfIoQueueRetrieveNextRequest self
call x = WdfIoQueueRetrieveNextRequest self
call WdfRequestComplete r SUCCESS
end
end
end
app A
at 0 read D 16
end
",
        trace: "1 A read D.2 16 -> req.5
2 cpu0 start EvtIoRead R.3 req.5
3 cpu0 call WdfIoQueueReadyNotify M.4 1 -> SUCCESS
4 cpu0 call WdfRequestForwardToIoQueue req.5 M.4 -> SUCCESS
5 cpu0 end EvtIoRead R.3 SUCCESS
6 cpu0 start EvtIoQueueState M.4
7 cpu0 call WdfIoQueueRetrieveNextRequest M.4 -> req.5
8 cpu0 call WdfIoQueueRetrieveNextRequest M.4 -> NO_MORE_ENTRIES
9 cpu0 call WdfRequestComplete req.5 SUCCESS -> SUCCESS
10 cpu0 end EvtIoQueueState M.4 SUCCESS
11 fw cleanup req.5
12 fw destroy req.5
finished 12
",
        events: 12,
        ending: Ending::Finished,
    },
    Worked {
        name: "one_read",
        scenario: "cpus 1
limit 100
objects 16
device D working
queue Q sequential
default
on EvtIoRead
call WdfRequestComplete request SUCCESS
end
end
end
app A
at 0 read D 16
end
",
        trace: "1 A read D.2 16 -> req.4
2 cpu0 start EvtIoRead Q.3 req.4
3 cpu0 call WdfRequestComplete req.4 SUCCESS -> SUCCESS
4 cpu0 end EvtIoRead Q.3 SUCCESS
5 fw cleanup req.4
6 fw destroy req.4
finished 6
",
        events: 6,
        ending: Ending::Finished,
    },
    Worked {
        name: "purged",
        scenario: "cpus 1
limit 100
objects 16
driver
level passive
end
class W workitem D
on EvtWorkItem
call p = WdfIoQueuePurgeSynchronously P
log p
call WdfIoQueueStart P
end
end
device D working
queue Q parallel 4
default
on EvtIoRead
if ( length == 3 )
call w = WdfWorkItemCreate W
call WdfWorkItemEnqueue w
call WdfRequestComplete request SUCCESS
else
call f = WdfRequestForwardToIoQueue request P
end
end
end
queue P manual
power off
on EvtIoCanceledOnQueue
log length
call WdfRequestComplete request CANCELLED
end
end
end
app A
at 0 read D 1
at 0 read D 2
at 0 read D 3
at 1 cancel 1
end
",
        trace: "1 A read D.2 1 -> req.5
2 cpu0 start EvtIoRead Q.3 req.5
3 cpu0 step 18
4 cpu0 call WdfRequestForwardToIoQueue req.5 P.4 -> SUCCESS
5 cpu0 end EvtIoRead Q.3 SUCCESS
6 A read D.2 2 -> req.6
7 cpu0 start EvtIoRead Q.3 req.6
8 cpu0 step 18
9 cpu0 call WdfRequestForwardToIoQueue req.6 P.4 -> SUCCESS
10 cpu0 end EvtIoRead Q.3 SUCCESS
11 A read D.2 3 -> req.7
12 cpu0 start EvtIoRead Q.3 req.7
13 cpu0 step 18
14 cpu0 call WdfWorkItemCreate W -> W.8
15 cpu0 call WdfWorkItemEnqueue W.8 -> SUCCESS
16 cpu0 call WdfRequestComplete req.7 SUCCESS -> SUCCESS
17 cpu0 end EvtIoRead Q.3 SUCCESS
18 cpu0 start EvtWorkItem W.8
19 cpu0 wait WdfIoQueuePurgeSynchronously P.4
20 cpu0 park 18
21 cpu0 start EvtIoCanceledOnQueue P.4 req.5
22 cpu0 log 1
23 cpu0 call WdfRequestComplete req.5 CANCELLED -> SUCCESS
24 cpu0 end EvtIoCanceledOnQueue P.4 SUCCESS
25 cpu0 start EvtIoCanceledOnQueue P.4 req.6
26 cpu0 log 2
27 cpu0 call WdfRequestComplete req.6 CANCELLED -> SUCCESS
28 cpu0 end EvtIoCanceledOnQueue P.4 SUCCESS
29 cpu0 unpark 18
30 cpu0 woke WdfIoQueuePurgeSynchronously P.4 -> SUCCESS
31 cpu0 log SUCCESS
32 cpu0 call WdfIoQueueStart P.4 -> SUCCESS
33 cpu0 end EvtWorkItem W.8 SUCCESS
34 fw cleanup req.5
35 fw cleanup req.6
36 fw cleanup req.7
37 fw destroy req.5
38 fw destroy req.6
39 fw destroy req.7
40 clock tick 1
41 A cancel 1 -> none
finished 41
",
        events: 41,
        ending: Ending::Finished,
    },
    Worked {
        name: "returned_by_cancel",
        scenario: "cpus 1
limit 100
objects 16
device D working
queue Q sequential
default
on EvtIoRead
call WdfIoQueueStop self
call x = WdfRequestRequeue request
end
on EvtIoCanceledOnQueue
call WdfRequestComplete request CANCELLED
end
end
end
app A
at 0 read D 16
at 0 cancel 1
end
",
        trace: "1 A read D.2 16 -> req.4
2 cpu0 start EvtIoRead Q.3 req.4
3 cpu0 call WdfIoQueueStop Q.3 -> SUCCESS
4 cpu0 call WdfRequestRequeue req.4 -> SUCCESS
5 cpu0 end EvtIoRead Q.3 SUCCESS
6 A cancel 1 -> req.4
7 cpu0 start EvtIoCanceledOnQueue Q.3 req.4
8 cpu0 call WdfRequestComplete req.4 CANCELLED -> SUCCESS
9 cpu0 end EvtIoCanceledOnQueue Q.3 SUCCESS
10 fw cleanup req.4
11 fw destroy req.4
finished 11
",
        events: 11,
        ending: Ending::Finished,
    },
    Worked {
        name: "unmark_comes_first",
        scenario: "cpus 1
limit 100
objects 16
device D working
queue Q sequential
default
on EvtIoRead
call m = WdfRequestMarkCancelableEx request
call u = WdfRequestUnmarkCancelable request
if ( u == SUCCESS )
call WdfRequestComplete request SUCCESS
end
end
on EvtRequestCancel
call WdfRequestComplete request CANCELLED
end
end
end
app A
at 0 read D 16
at 0 cancel 1
end
order
picks 0 0 0 0 1
end
",
        trace: "1 A read D.2 16 -> req.4
2 cpu0 start EvtIoRead Q.3 req.4
3 cpu0 call WdfRequestMarkCancelableEx req.4 -> SUCCESS
4 cpu0 call WdfRequestUnmarkCancelable req.4 -> SUCCESS
5 A cancel 1 -> req.4
6 cpu0 step 10
7 cpu0 call WdfRequestComplete req.4 SUCCESS -> SUCCESS
8 cpu0 end EvtIoRead Q.3 SUCCESS
9 fw cleanup req.4
10 fw destroy req.4
finished 10
",
        events: 10,
        ending: Ending::Finished,
    },
];
