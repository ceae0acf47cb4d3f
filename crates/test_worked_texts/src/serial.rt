//! Worked runs of tools/runs/serial, written by tools/runs_to_tests.py.
use crate::worked::Worked;
use wdf_base::Ending;

pub static RUNS: [Worked; 1] = [Worked {
    name: "serial_port",
    scenario: "cpus 2
limit 1000
objects 32
class TM timer D
on EvtTimerFunc
log 99
end
end
device D
scope device
register RX 0
register CTL 0
when write CTL set RX 65 after 3
when write CTL raise IRQ after 3
when read RX lower IRQ after 0
interrupt IRQ 6
on EvtInterruptIsr
get b = RX
call SetContext device 1 b
call WdfInterruptQueueDpcForIsr self
end
on EvtInterruptDpc
call r = WdfIoQueueRetrieveNextRequest PEND
if ( r != NO_MORE_ENTRIES )
call WdfRequestComplete r SUCCESS
end
end
end
queue WQ parallel 2
for write
on EvtIoWrite
put CTL 1
call WdfRequestComplete request SUCCESS
end
end
queue RQ parallel 4
for read
on EvtIoRead
call f = WdfRequestForwardToIoQueue request PEND
if ( f != SUCCESS )
call WdfRequestComplete request f
end
end
end
queue PEND manual
power off
end
on EvtDevicePrepareHardware
call t = WdfTimerCreate TM
call SetContext device 0 t
end
on EvtDeviceD0Entry
call t = GetContext device 0
call WdfTimerStart t 2
end
on EvtDeviceD0Exit
call t = GetContext device 0
call WdfTimerStop t 1
end
end
app A
at 0 read D 16
at 1 read D 16
at 4 write D 1
at 20 write D 1
at 25 read D 16
end
pnp
at 0 start D
at 10 sleep D
at 15 wake D
at 40 surprise D
end
",
    trace: "1 pnp start D.2
2 fw stage D.2 hardware
3 cpu0 start EvtDevicePrepareHardware D.2
4 cpu0 call WdfTimerCreate TM -> TM.7
5 cpu0 call SetContext D.2 0 TM.7 -> SUCCESS
6 cpu0 end EvtDevicePrepareHardware D.2 SUCCESS
7 cpu0 start EvtDeviceD0Entry D.2
8 cpu0 call GetContext D.2 0 -> TM.7
9 cpu0 call WdfTimerStart TM.7 2 -> 0
10 cpu0 end EvtDeviceD0Entry D.2 SUCCESS
11 fw stage D.2 enabled IRQ.3
12 fw stage D.2 queues_up
13 fw stage D.2 working
14 A read D.2 16 -> req.8
15 cpu0 start EvtIoRead RQ.5 req.8
16 cpu0 call WdfRequestForwardToIoQueue req.8 PEND.6 -> SUCCESS
17 cpu0 step 40
18 cpu0 end EvtIoRead RQ.5 SUCCESS
19 clock tick 1
20 A read D.2 16 -> req.9
21 cpu0 start EvtIoRead RQ.5 req.9
22 cpu0 call WdfRequestForwardToIoQueue req.9 PEND.6 -> SUCCESS
23 cpu0 step 40
24 cpu0 end EvtIoRead RQ.5 SUCCESS
25 clock tick 2
26 cpu0 start EvtTimerFunc TM.7
27 cpu0 log 99
28 cpu0 end EvtTimerFunc TM.7 SUCCESS
29 clock tick 3
30 clock tick 4
31 A write D.2 1 -> req.10
32 cpu0 start EvtIoWrite WQ.4 req.10
33 cpu0 put CTL 1
34 cpu0 call WdfRequestComplete req.10 SUCCESS -> SUCCESS
35 cpu0 end EvtIoWrite WQ.4 SUCCESS
36 fw cleanup req.10
37 fw destroy req.10
38 clock tick 5
39 clock tick 6
40 clock tick 7
41 D.2 set RX 65
42 D.2 raise IRQ.3
43 cpu0 start EvtInterruptIsr IRQ.3
44 cpu0 get RX -> 65
45 cpu0 call SetContext D.2 1 65 -> SUCCESS
46 cpu0 call WdfInterruptQueueDpcForIsr IRQ.3 -> 1
47 cpu0 end EvtInterruptIsr IRQ.3 SUCCESS
48 cpu0 start EvtInterruptDpc IRQ.3
49 cpu0 call WdfIoQueueRetrieveNextRequest PEND.6 -> req.8
50 cpu0 step 24
51 cpu0 call WdfRequestComplete req.8 SUCCESS -> SUCCESS
52 cpu0 end EvtInterruptDpc IRQ.3 SUCCESS
53 fw cleanup req.8
54 fw destroy req.8
55 clock tick 8
56 clock tick 9
57 clock tick 10
58 pnp sleep D.2
59 fw stage D.2 queues_down
60 fw stage D.2 settled
61 fw stage D.2 disabled IRQ.3
62 fw stage D.2 quiet
63 cpu0 start EvtDeviceD0Exit D.2
64 cpu0 call GetContext D.2 0 -> TM.7
65 cpu0 call WdfTimerStop TM.7 1 -> 0
66 cpu0 end EvtDeviceD0Exit D.2 SUCCESS
67 fw stage D.2 sleeping
68 clock tick 11
69 clock tick 12
70 clock tick 13
71 clock tick 14
72 clock tick 15
73 pnp wake D.2
74 cpu0 start EvtDeviceD0Entry D.2
75 cpu0 call GetContext D.2 0 -> TM.7
76 cpu0 call WdfTimerStart TM.7 2 -> 0
77 cpu0 end EvtDeviceD0Entry D.2 SUCCESS
78 fw stage D.2 enabled IRQ.3
79 fw stage D.2 queues_up
80 fw stage D.2 working
81 clock tick 16
82 clock tick 17
83 cpu0 start EvtTimerFunc TM.7
84 cpu0 log 99
85 cpu0 end EvtTimerFunc TM.7 SUCCESS
86 clock tick 18
87 clock tick 19
88 clock tick 20
89 A write D.2 1 -> req.11
90 cpu0 start EvtIoWrite WQ.4 req.11
91 cpu0 put CTL 1
92 cpu0 call WdfRequestComplete req.11 SUCCESS -> SUCCESS
93 cpu0 end EvtIoWrite WQ.4 SUCCESS
94 fw cleanup req.11
95 fw destroy req.11
96 clock tick 21
97 clock tick 22
98 clock tick 23
99 D.2 set RX 65
100 D.2 raise IRQ.3
101 cpu0 start EvtInterruptIsr IRQ.3
102 cpu0 get RX -> 65
103 cpu0 call SetContext D.2 1 65 -> SUCCESS
104 cpu0 call WdfInterruptQueueDpcForIsr IRQ.3 -> 1
105 cpu0 end EvtInterruptIsr IRQ.3 SUCCESS
106 cpu0 start EvtInterruptDpc IRQ.3
107 cpu0 call WdfIoQueueRetrieveNextRequest PEND.6 -> req.9
108 cpu0 step 24
109 cpu0 call WdfRequestComplete req.9 SUCCESS -> SUCCESS
110 cpu0 end EvtInterruptDpc IRQ.3 SUCCESS
111 fw cleanup req.9
112 fw destroy req.9
113 clock tick 24
114 clock tick 25
115 A read D.2 16 -> req.12
116 cpu0 start EvtIoRead RQ.5 req.12
117 cpu0 call WdfRequestForwardToIoQueue req.12 PEND.6 -> SUCCESS
118 cpu0 step 40
119 cpu0 end EvtIoRead RQ.5 SUCCESS
120 clock tick 26
121 clock tick 27
122 clock tick 28
123 clock tick 29
124 clock tick 30
125 clock tick 31
126 clock tick 32
127 clock tick 33
128 clock tick 34
129 clock tick 35
130 clock tick 36
131 clock tick 37
132 clock tick 38
133 clock tick 39
134 clock tick 40
135 pnp surprise D.2
136 fw stage D.2 queues_down
137 fw stage D.2 settled
138 fw stage D.2 disabled IRQ.3
139 fw stage D.2 quiet
140 cpu0 start EvtDeviceD0Exit D.2
141 cpu0 call GetContext D.2 0 -> TM.7
142 cpu0 call WdfTimerStop TM.7 1 -> 0
143 cpu0 end EvtDeviceD0Exit D.2 SUCCESS
144 fw stage D.2 no_hardware
145 fw stage D.2 closed
146 fw complete req.12 CANCELLED
147 fw stage D.2 removed
148 fw cleanup req.12
149 fw cleanup TM.7
150 fw cleanup PEND.6
151 fw cleanup RQ.5
152 fw cleanup WQ.4
153 fw cleanup IRQ.3
154 fw cleanup D.2
155 fw destroy IRQ.3
156 fw destroy WQ.4
157 fw destroy RQ.5
158 fw destroy PEND.6
159 fw destroy TM.7
160 fw destroy req.12
161 fw destroy D.2
finished 161
",
    events: 161,
    ending: Ending::Finished,
}];
