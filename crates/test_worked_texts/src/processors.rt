//! Worked runs of tools/runs/processors, written by tools/runs_to_tests.py.
use crate::worked::Worked;
use wdf_base::Ending;

pub static RUNS: [Worked; 6] = [
    Worked {
        name: "blocked_dpc",
        scenario: "cpus 2
limit 100
objects 16
class L spinlock
end
class W workitem D
on EvtWorkItem
call a = GetContext device 0
call b = GetContext device 1
call WdfSpinLockAcquire b
spend 1
call WdfSpinLockAcquire a
end
end
class C dpc D
serialize
on EvtDpcFunc
log 1
end
end
device D working
scope device
queue Q sequential
default
on EvtIoRead
call a = WdfSpinLockCreate L device
call b = WdfSpinLockCreate L device
call SetContext device 0 a
call SetContext device 1 b
call c = WdfDpcCreate C
call WdfDpcEnqueue c
call w = WdfWorkItemCreate W
call WdfWorkItemEnqueue w
call WdfSpinLockAcquire a
spend 1
call WdfSpinLockAcquire b
end
end
end
app A
at 0 read D 1
at 0 read D 1
end
",
        trace: "1 A read D.2 1 -> req.4
2 cpu0 start EvtIoRead Q.3 req.4
3 cpu0 call WdfSpinLockCreate L D.2 -> L.5
4 cpu0 call WdfSpinLockCreate L D.2 -> L.6
5 cpu0 call SetContext D.2 0 L.5 -> SUCCESS
6 cpu0 call SetContext D.2 1 L.6 -> SUCCESS
7 cpu0 call WdfDpcCreate C -> C.7
8 cpu0 call WdfDpcEnqueue C.7 -> 1
9 cpu0 call WdfWorkItemCreate W -> W.8
10 cpu0 call WdfWorkItemEnqueue W.8 -> SUCCESS
11 cpu0 call WdfSpinLockAcquire L.5 -> SUCCESS
12 cpu0 spend 1
13 cpu1 start EvtWorkItem W.8
14 cpu1 call GetContext D.2 0 -> L.5
15 cpu1 call GetContext D.2 1 -> L.6
16 cpu1 call WdfSpinLockAcquire L.6 -> SUCCESS
17 cpu1 spend 1
18 A read D.2 1 -> req.9
19 clock tick 1
20 cpu0 wait WdfSpinLockAcquire L.6
21 cpu1 wait WdfSpinLockAcquire L.5
stuck 21
frame 2 EvtIoRead Q.3 waits lock L.6 of frame 13
frame 13 EvtWorkItem W.8 waits lock L.5 of frame 2
req.4 owned
req.9 queued Q.3 full
C.7 queued scope
",
        events: 21,
        ending: Ending::Stuck,
    },
    Worked {
        name: "deadlock",
        scenario: "cpus 2
limit 100
objects 16
class L waitlock
end
class X workitem D
on EvtWorkItem
call p = GetContext device 0
call q = GetContext device 1
call WdfWaitLockAcquire p
spend 1
call WdfWaitLockAcquire q
end
end
class Y workitem D
on EvtWorkItem
call p = GetContext device 0
call q = GetContext device 1
call WdfWaitLockAcquire q
spend 1
call WdfWaitLockAcquire p
end
end
device D
on EvtDeviceD0Entry
call a = WdfWaitLockCreate L device
call b = WdfWaitLockCreate L device
call SetContext device 0 a
call SetContext device 1 b
call x = WdfWorkItemCreate X
call y = WdfWorkItemCreate Y
call WdfWorkItemEnqueue x
call WdfWorkItemEnqueue y
end
end
pnp
at 0 start D
end
",
        trace: "1 pnp start D.2
2 fw stage D.2 hardware
3 cpu0 start EvtDeviceD0Entry D.2
4 cpu0 call WdfWaitLockCreate L D.2 -> L.3
5 cpu0 call WdfWaitLockCreate L D.2 -> L.4
6 cpu0 call SetContext D.2 0 L.3 -> SUCCESS
7 cpu0 call SetContext D.2 1 L.4 -> SUCCESS
8 cpu0 call WdfWorkItemCreate X -> X.5
9 cpu0 call WdfWorkItemCreate Y -> Y.6
10 cpu0 call WdfWorkItemEnqueue X.5 -> SUCCESS
11 cpu0 call WdfWorkItemEnqueue Y.6 -> SUCCESS
12 cpu0 end EvtDeviceD0Entry D.2 SUCCESS
13 cpu0 start EvtWorkItem X.5
14 cpu0 call GetContext D.2 0 -> L.3
15 cpu0 call GetContext D.2 1 -> L.4
16 cpu0 call WdfWaitLockAcquire L.3 -> SUCCESS
17 cpu0 spend 1
18 cpu1 start EvtWorkItem Y.6
19 cpu1 call GetContext D.2 0 -> L.3
20 cpu1 call GetContext D.2 1 -> L.4
21 cpu1 call WdfWaitLockAcquire L.4 -> SUCCESS
22 cpu1 spend 1
23 fw stage D.2 queues_up
24 fw stage D.2 working
25 clock tick 1
26 cpu0 wait WdfWaitLockAcquire L.4
27 cpu0 park 13
28 cpu1 wait WdfWaitLockAcquire L.3
29 cpu1 park 18
stuck 29
frame 13 EvtWorkItem X.5 waits lock L.4 of frame 18
frame 18 EvtWorkItem Y.6 waits lock L.3 of frame 13
",
        events: 29,
        ending: Ending::Stuck,
    },
    Worked {
        name: "device_scope",
        scenario: "cpus 2
limit 100
objects 16
device D working
scope device
queue R sequential
for read
on EvtIoRead
spend 1
call WdfRequestComplete request SUCCESS
end
end
queue W sequential
for write
on EvtIoWrite
call WdfRequestComplete request SUCCESS
end
end
end
app A
at 0 read D 8
at 0 write D 8
end
",
        trace: "1 A read D.2 8 -> req.5
2 cpu0 start EvtIoRead R.3 req.5
3 cpu0 spend 1
4 A write D.2 8 -> req.6
5 clock tick 1
6 cpu0 call WdfRequestComplete req.5 SUCCESS -> SUCCESS
7 cpu0 end EvtIoRead R.3 SUCCESS
8 cpu0 start EvtIoWrite W.4 req.6
9 cpu0 call WdfRequestComplete req.6 SUCCESS -> SUCCESS
10 cpu0 end EvtIoWrite W.4 SUCCESS
11 fw cleanup req.5
12 fw cleanup req.6
13 fw destroy req.5
14 fw destroy req.6
finished 14
",
        events: 14,
        ending: Ending::Finished,
    },
    Worked {
        name: "isr_and_dpc",
        scenario: "cpus 1
limit 100
objects 16
class L spinlock
end
device D
register STS 1
register CTL 0
when write CTL raise I after 0
when read STS lower I after 0
interrupt I 5
on EvtInterruptIsr
get s = STS
call WdfInterruptQueueDpcForIsr self
call WdfInterruptQueueDpcForIsr self
end
on EvtInterruptDpc
log 7
end
end
on EvtDeviceD0EntryPostInterruptsEnabled
call l = WdfSpinLockCreate L device
call WdfSpinLockAcquire l
put CTL 1
call WdfSpinLockRelease l
end
end
pnp
at 0 start D
end
order
picks 0 0 0 0 0 0 0 1
end
",
        trace: "1 pnp start D.2
2 fw stage D.2 hardware
3 fw stage D.2 enabled I.3
4 cpu0 start EvtDeviceD0EntryPostInterruptsEnabled D.2
5 cpu0 call WdfSpinLockCreate L D.2 -> L.4
6 cpu0 call WdfSpinLockAcquire L.4 -> SUCCESS
7 cpu0 put CTL 1
8 cpu0 start EvtInterruptIsr I.3
9 cpu0 get STS -> 1
10 cpu0 call WdfInterruptQueueDpcForIsr I.3 -> 1
11 cpu0 call WdfInterruptQueueDpcForIsr I.3 -> 0
12 cpu0 end EvtInterruptIsr I.3 SUCCESS
13 cpu0 call WdfSpinLockRelease L.4 -> SUCCESS
14 cpu0 end EvtDeviceD0EntryPostInterruptsEnabled D.2 SUCCESS
15 cpu0 start EvtInterruptDpc I.3
16 cpu0 log 7
17 cpu0 end EvtInterruptDpc I.3 SUCCESS
18 fw stage D.2 queues_up
19 fw stage D.2 working
finished 19
",
        events: 19,
        ending: Ending::Finished,
    },
    Worked {
        name: "passive_interrupt",
        scenario: "version 2
cpus 2
limit 100
objects 16
device D
register C 0
when write C raise I after 0
when read C lower I after 0
interrupt I passive
on EvtInterruptIsr
get x = C
log x
end
on EvtInterruptEnable
log 1
end
on EvtInterruptDisable
log 2
end
end
on EvtDeviceD0EntryPostInterruptsEnabled
call WdfInterruptAcquireLock I
put C 5
spend 1
call WdfInterruptReleaseLock I
call WdfInterruptAcquireLock I
call WdfInterruptReleaseLock I
end
end
pnp
at 0 start D
at 3 surprise D
end
order
picks 0 0 0 0 0 0 0 0 0 0 0 0 1
end
",
        trace: "1 pnp start D.2
2 fw stage D.2 hardware
3 cpu0 start EvtInterruptEnable I.3
4 cpu0 log 1
5 cpu0 end EvtInterruptEnable I.3 SUCCESS
6 fw stage D.2 enabled I.3
7 cpu0 start EvtDeviceD0EntryPostInterruptsEnabled D.2
8 cpu0 call WdfInterruptAcquireLock I.3 -> SUCCESS
9 cpu0 put C 5
10 cpu0 spend 1
11 clock tick 1
12 cpu0 call WdfInterruptReleaseLock I.3 -> SUCCESS
13 cpu1 start EvtInterruptIsr I.3
14 cpu0 wait WdfInterruptAcquireLock I.3
15 cpu0 park 7
16 cpu1 get C -> 5
17 cpu1 log 5
18 cpu1 end EvtInterruptIsr I.3 SUCCESS
19 cpu0 unpark 7
20 cpu0 woke WdfInterruptAcquireLock I.3 -> SUCCESS
21 cpu0 call WdfInterruptReleaseLock I.3 -> SUCCESS
22 cpu0 end EvtDeviceD0EntryPostInterruptsEnabled D.2 SUCCESS
23 fw stage D.2 queues_up
24 fw stage D.2 working
25 clock tick 2
26 clock tick 3
27 pnp surprise D.2
28 fw stage D.2 queues_down
29 fw stage D.2 settled
30 fw stage D.2 disabled I.3
31 cpu0 start EvtInterruptDisable I.3
32 cpu0 log 2
33 cpu0 end EvtInterruptDisable I.3 SUCCESS
34 fw stage D.2 quiet
35 fw stage D.2 no_hardware
36 fw stage D.2 closed
37 fw stage D.2 removed
38 fw cleanup I.3
39 fw cleanup D.2
40 fw destroy I.3
41 fw destroy D.2
finished 41
",
        events: 41,
        ending: Ending::Finished,
    },
    Worked {
        name: "periodic_timer",
        scenario: "cpus 2
limit 60
objects 16
class T timer D
serialize
period 2
on EvtTimerFunc
log 1
spend 1
end
end
class W workitem D
on EvtWorkItem
call t = GetContext device 0
call s = WdfTimerStop t 1
log s
call WdfObjectDelete t
end
end
device D
scope device
on EvtDeviceD0Entry
call t = WdfTimerCreate T
call SetContext device 0 t
call x = WdfTimerStart t 1
call x = WdfTimerStart t 1
spend 3
call w = WdfWorkItemCreate W
call WdfWorkItemEnqueue w
end
end
pnp
at 0 start D
end
",
        trace: "1 pnp start D.2
2 fw stage D.2 hardware
3 cpu0 start EvtDeviceD0Entry D.2
4 cpu0 call WdfTimerCreate T -> T.3
5 cpu0 call SetContext D.2 0 T.3 -> SUCCESS
6 cpu0 call WdfTimerStart T.3 1 -> 0
7 cpu0 call WdfTimerStart T.3 1 -> 1
8 cpu0 spend 3
9 clock tick 1
10 cpu0 start EvtTimerFunc T.3
11 cpu0 log 1
12 cpu0 spend 1
13 clock tick 2
14 cpu0 end EvtTimerFunc T.3 SUCCESS
15 clock tick 3
16 cpu0 call WdfWorkItemCreate W -> W.4
17 cpu0 call WdfWorkItemEnqueue W.4 -> SUCCESS
18 cpu0 end EvtDeviceD0Entry D.2 SUCCESS
19 cpu0 start EvtTimerFunc T.3
20 cpu0 log 1
21 cpu0 spend 1
22 cpu1 start EvtWorkItem W.4
23 cpu1 call GetContext D.2 0 -> T.3
24 cpu1 wait WdfTimerStop T.3 1
25 cpu1 park 22
26 fw stage D.2 queues_up
27 fw stage D.2 working
28 clock tick 4
29 cpu0 end EvtTimerFunc T.3 SUCCESS
30 cpu0 unpark 22
31 cpu0 woke WdfTimerStop T.3 1 -> 1
32 cpu0 log 1
33 cpu0 call WdfObjectDelete T.3 -> SUCCESS
34 cpu0 end EvtWorkItem W.4 SUCCESS
35 fw cleanup T.3
36 fw destroy T.3
finished 36
",
        events: 36,
        ending: Ending::Finished,
    },
];
