//! Lines of what frames, the framework and the agents do, most of them from traces of the worked runs.
use crate::plan::*;
use wdf_base::Stage::*;
use wdf_base::Status::*;
use wdf_base::{Access, Action, Ask, Cpu, Event, Fault, FrameId, Plan, Post, Stage, Status, Value};

/// What a frame does. Registers and frames are given by their numbers.
#[derive(Clone, Copy)]
enum Act {
    Step(u32),
    Log(u64),
    Spend(u64),
    Register(Access, u32, u64),
    Park(u32),
    Fault(Fault, u32),
}

/// What frames do on processors.
static ACTS: [(usize, u8, Act, &str); 21] = [
    // Statements that only change variables or go on elsewhere, by line.
    (6, 0, Act::Step(10), "6 cpu0 step 10"),
    (4, 0, Act::Step(9), "4 cpu0 step 9"),
    (23, 0, Act::Step(16), "23 cpu0 step 16"),
    (25, 0, Act::Step(19), "25 cpu0 step 19"),
    (26, 0, Act::Step(22), "26 cpu0 step 22"),
    (17, 0, Act::Step(40), "17 cpu0 step 40"),
    (50, 0, Act::Step(24), "50 cpu0 step 24"),
    // Numbers that are logged.
    (16, 0, Act::Log(7), "16 cpu0 log 7"),
    (14, 0, Act::Log(1), "14 cpu0 log 1"),
    (18, 0, Act::Log(2), "18 cpu0 log 2"),
    (27, 0, Act::Log(99), "27 cpu0 log 99"),
    // Ticks that are spent.
    (3, 0, Act::Spend(1), "3 cpu0 spend 1"),
    (22, 1, Act::Spend(1), "22 cpu1 spend 1"),
    // Registers that are read and written.
    (
        7,
        0,
        Act::Register(Access::Write, CTL_REGISTER, 1),
        "7 cpu0 put CTL 1",
    ),
    (
        9,
        0,
        Act::Register(Access::Read, STS_REGISTER, 1),
        "9 cpu0 get STS -> 1",
    ),
    (
        44,
        0,
        Act::Register(Access::Read, RX_REGISTER, 65),
        "44 cpu0 get RX -> 65",
    ),
    // Frames that are parked.
    (27, 0, Act::Park(13), "27 cpu0 park 13"),
    (29, 1, Act::Park(18), "29 cpu1 park 18"),
    // Faults, by line.
    (
        6,
        0,
        Act::Fault(Fault::CompleteBeforeCancelCallback, 10),
        "6 cpu0 fault CompleteBeforeCancelCallback 10",
    ),
    (
        4,
        0,
        Act::Fault(Fault::NotOwned, 9),
        "4 cpu0 fault NotOwned 9",
    ),
    (
        5,
        0,
        Act::Fault(Fault::StaleHandle, 9),
        "5 cpu0 fault StaleHandle 9",
    ),
];

/// The event that a frame does this.
fn acted(cpu: Cpu, act: Act) -> Event {
    match act {
        Act::Step(line) => Event::Local { cpu, line },
        Act::Log(number) => Event::Log {
            cpu,
            value: Value::Num(number),
        },
        Act::Spend(ticks) => Event::Spend { cpu, ticks },
        Act::Register(access, register, value) => Event::Register {
            cpu,
            access,
            register,
            value,
        },
        Act::Park(frame) => Event::Park {
            cpu,
            frame: FrameId(frame),
        },
        Act::Fault(fault, line) => Event::Fault { cpu, fault, line },
    }
}

/// What the framework and the clock do. Objects are given by their names and ids.
#[derive(Clone, Copy)]
enum Work {
    /// The device passes a stage.
    Stage(Stage, Option<(u32, u32)>),
    Complete(u32, u32, Status),
    Cleanup(u32, u32),
    Destroy(u32, u32),
    Tick(u64),
}

static WORKS: [(usize, Work, &str); 99] = [
    // Stages that the device passes, with their interrupts.
    (2, Work::Stage(Hardware, None), "2 fw stage D.2 hardware"),
    (
        3,
        Work::Stage(Enabled, Some((I, 3))),
        "3 fw stage D.2 enabled I.3",
    ),
    (18, Work::Stage(QueuesUp, None), "18 fw stage D.2 queues_up"),
    (19, Work::Stage(Working, None), "19 fw stage D.2 working"),
    (
        21,
        Work::Stage(QueuesDown, None),
        "21 fw stage D.2 queues_down",
    ),
    (40, Work::Stage(Settled, None), "40 fw stage D.2 settled"),
    (43, Work::Stage(Sleeping, None), "43 fw stage D.2 sleeping"),
    (
        23,
        Work::Stage(NoHardware, None),
        "23 fw stage D.2 no_hardware",
    ),
    (24, Work::Stage(Closed, None), "24 fw stage D.2 closed"),
    (26, Work::Stage(Removed, None), "26 fw stage D.2 removed"),
    (
        11,
        Work::Stage(Enabled, Some((IRQ, 3))),
        "11 fw stage D.2 enabled IRQ.3",
    ),
    (
        61,
        Work::Stage(Disabled, Some((IRQ, 3))),
        "61 fw stage D.2 disabled IRQ.3",
    ),
    (62, Work::Stage(Quiet, None), "62 fw stage D.2 quiet"),
    // Requests that the framework completes.
    (
        2,
        Work::Complete(REQ, 4, Success),
        "2 fw complete req.4 SUCCESS",
    ),
    (
        3,
        Work::Complete(REQ, 4, Cancelled),
        "3 fw complete req.4 CANCELLED",
    ),
    (
        25,
        Work::Complete(REQ, 7, Cancelled),
        "25 fw complete req.7 CANCELLED",
    ),
    (
        146,
        Work::Complete(REQ, 12, Cancelled),
        "146 fw complete req.12 CANCELLED",
    ),
    // Objects that are cleaned up.
    (5, Work::Cleanup(REQ, 4), "5 fw cleanup req.4"),
    (11, Work::Cleanup(REQ, 5), "11 fw cleanup req.5"),
    (12, Work::Cleanup(REQ, 6), "12 fw cleanup req.6"),
    (16, Work::Cleanup(T, 3), "16 fw cleanup T.3"),
    (9, Work::Cleanup(O, 3), "9 fw cleanup O.3"),
    (27, Work::Cleanup(REQ, 8), "27 fw cleanup req.8"),
    (28, Work::Cleanup(REQ, 7), "28 fw cleanup req.7"),
    (29, Work::Cleanup(T, 5), "29 fw cleanup T.5"),
    (30, Work::Cleanup(W, 4), "30 fw cleanup W.4"),
    (31, Work::Cleanup(R, 3), "31 fw cleanup R.3"),
    (32, Work::Cleanup(D, 2), "32 fw cleanup D.2"),
    (10, Work::Cleanup(I, 3), "10 fw cleanup I.3"),
    (36, Work::Cleanup(REQ, 10), "36 fw cleanup req.10"),
    (94, Work::Cleanup(REQ, 11), "94 fw cleanup req.11"),
    (111, Work::Cleanup(REQ, 9), "111 fw cleanup req.9"),
    (148, Work::Cleanup(REQ, 12), "148 fw cleanup req.12"),
    (149, Work::Cleanup(TM, 7), "149 fw cleanup TM.7"),
    (150, Work::Cleanup(PEND, 6), "150 fw cleanup PEND.6"),
    (151, Work::Cleanup(RQ, 5), "151 fw cleanup RQ.5"),
    (152, Work::Cleanup(WQ, 4), "152 fw cleanup WQ.4"),
    (153, Work::Cleanup(IRQ, 3), "153 fw cleanup IRQ.3"),
    // Objects that are destroyed.
    (6, Work::Destroy(REQ, 4), "6 fw destroy req.4"),
    (13, Work::Destroy(REQ, 5), "13 fw destroy req.5"),
    (14, Work::Destroy(REQ, 6), "14 fw destroy req.6"),
    (20, Work::Destroy(T, 3), "20 fw destroy T.3"),
    (16, Work::Destroy(O, 3), "16 fw destroy O.3"),
    (33, Work::Destroy(R, 3), "33 fw destroy R.3"),
    (34, Work::Destroy(W, 4), "34 fw destroy W.4"),
    (35, Work::Destroy(T, 5), "35 fw destroy T.5"),
    (36, Work::Destroy(REQ, 7), "36 fw destroy req.7"),
    (37, Work::Destroy(REQ, 8), "37 fw destroy req.8"),
    (38, Work::Destroy(D, 2), "38 fw destroy D.2"),
    (12, Work::Destroy(I, 3), "12 fw destroy I.3"),
    (37, Work::Destroy(REQ, 10), "37 fw destroy req.10"),
    (95, Work::Destroy(REQ, 11), "95 fw destroy req.11"),
    (112, Work::Destroy(REQ, 9), "112 fw destroy req.9"),
    (155, Work::Destroy(IRQ, 3), "155 fw destroy IRQ.3"),
    (156, Work::Destroy(WQ, 4), "156 fw destroy WQ.4"),
    (157, Work::Destroy(RQ, 5), "157 fw destroy RQ.5"),
    (158, Work::Destroy(PEND, 6), "158 fw destroy PEND.6"),
    (159, Work::Destroy(TM, 7), "159 fw destroy TM.7"),
    (160, Work::Destroy(REQ, 12), "160 fw destroy req.12"),
    // New times.
    (5, Work::Tick(1), "5 clock tick 1"),
    (46, Work::Tick(2), "46 clock tick 2"),
    (29, Work::Tick(3), "29 clock tick 3"),
    (30, Work::Tick(4), "30 clock tick 4"),
    (38, Work::Tick(5), "38 clock tick 5"),
    (39, Work::Tick(6), "39 clock tick 6"),
    (40, Work::Tick(7), "40 clock tick 7"),
    (55, Work::Tick(8), "55 clock tick 8"),
    (56, Work::Tick(9), "56 clock tick 9"),
    (57, Work::Tick(10), "57 clock tick 10"),
    (68, Work::Tick(11), "68 clock tick 11"),
    (69, Work::Tick(12), "69 clock tick 12"),
    (70, Work::Tick(13), "70 clock tick 13"),
    (71, Work::Tick(14), "71 clock tick 14"),
    (72, Work::Tick(15), "72 clock tick 15"),
    (81, Work::Tick(16), "81 clock tick 16"),
    (82, Work::Tick(17), "82 clock tick 17"),
    (86, Work::Tick(18), "86 clock tick 18"),
    (87, Work::Tick(19), "87 clock tick 19"),
    (88, Work::Tick(20), "88 clock tick 20"),
    (96, Work::Tick(21), "96 clock tick 21"),
    (97, Work::Tick(22), "97 clock tick 22"),
    (98, Work::Tick(23), "98 clock tick 23"),
    (113, Work::Tick(24), "113 clock tick 24"),
    (114, Work::Tick(25), "114 clock tick 25"),
    (120, Work::Tick(26), "120 clock tick 26"),
    (121, Work::Tick(27), "121 clock tick 27"),
    (122, Work::Tick(28), "122 clock tick 28"),
    (123, Work::Tick(29), "123 clock tick 29"),
    (124, Work::Tick(30), "124 clock tick 30"),
    (125, Work::Tick(31), "125 clock tick 31"),
    (126, Work::Tick(32), "126 clock tick 32"),
    (127, Work::Tick(33), "127 clock tick 33"),
    (128, Work::Tick(34), "128 clock tick 34"),
    (129, Work::Tick(35), "129 clock tick 35"),
    (130, Work::Tick(36), "130 clock tick 36"),
    (131, Work::Tick(37), "131 clock tick 37"),
    (132, Work::Tick(38), "132 clock tick 38"),
    (133, Work::Tick(39), "133 clock tick 39"),
    (134, Work::Tick(40), "134 clock tick 40"),
];

/// The event that this is done.
fn worked(work: Work) -> Event {
    match work {
        Work::Stage(stage, interrupt) => Event::Stage {
            device: object((D, 2)),
            stage,
            interrupt: optional(interrupt),
        },
        Work::Complete(name, id, status) => Event::Complete {
            request: object((name, id)),
            status,
        },
        Work::Cleanup(name, id) => Event::Cleanup {
            object: object((name, id)),
        },
        Work::Destroy(name, id) => Event::Destroy {
            object: object((name, id)),
        },
        Work::Tick(time) => Event::Tick { time },
    }
}

/// What the app sends, what is asked of the device, and what the device and the target do.
#[derive(Clone, Copy)]
enum Said {
    Read(u64, u32, u32),
    Write(u64, u32, u32),
    Cancel(u64, u32, u32),
    Asked(Ask),
    Raise(u32, u32),
    Set(u32, u64),
    Done(u32, u32, Status),
}

static POSTS: [(usize, Said, &str); 25] = [
    // Reads that the app sends, with their lengths and requests.
    (1, Said::Read(16, REQ, 4), "1 A read D.2 16 -> req.4"),
    (1, Said::Read(0, REQ, 4), "1 A read D.2 0 -> req.4"),
    (1, Said::Read(8, REQ, 5), "1 A read D.2 8 -> req.5"),
    (1, Said::Read(1, REQ, 4), "1 A read D.2 1 -> req.4"),
    (7, Said::Read(2, REQ, 5), "7 A read D.2 2 -> req.5"),
    (13, Said::Read(3, REQ, 6), "13 A read D.2 3 -> req.6"),
    (1, Said::Read(1, REQ, 6), "1 A read D.2 1 -> req.6"),
    (4, Said::Read(1, REQ, 7), "4 A read D.2 1 -> req.7"),
    (14, Said::Read(16, REQ, 8), "14 A read D.2 16 -> req.8"),
    (20, Said::Read(16, REQ, 9), "20 A read D.2 16 -> req.9"),
    (115, Said::Read(16, REQ, 12), "115 A read D.2 16 -> req.12"),
    // Writes that the app sends.
    (4, Said::Write(8, REQ, 6), "4 A write D.2 8 -> req.6"),
    (5, Said::Write(1, REQ, 8), "5 A write D.2 1 -> req.8"),
    (31, Said::Write(1, REQ, 10), "31 A write D.2 1 -> req.10"),
    (89, Said::Write(1, REQ, 11), "89 A write D.2 1 -> req.11"),
    // Arrivals that the app cancels, with their requests.
    (4, Said::Cancel(1, REQ, 4), "4 A cancel 1 -> req.4"),
    // What is asked of the device.
    (1, Said::Asked(Ask::Start), "1 pnp start D.2"),
    (20, Said::Asked(Ask::Sleep), "20 pnp sleep D.2"),
    (47, Said::Asked(Ask::Wake), "47 pnp wake D.2"),
    (10, Said::Asked(Ask::Remove), "10 pnp remove D.2"),
    (135, Said::Asked(Ask::Surprise), "135 pnp surprise D.2"),
    // Interrupts that the device raises.
    (6, Said::Raise(I, 3), "6 D.2 raise I.3"),
    (42, Said::Raise(IRQ, 3), "42 D.2 raise IRQ.3"),
    // Registers that the device sets.
    (41, Said::Set(RX_REGISTER, 65), "41 D.2 set RX 65"),
    // Requests that the target is done with.
    (18, Said::Done(REQ, 8, Success), "18 T.5 done req.8 SUCCESS"),
];

/// Who posts this, the post and the request that comes of it.
fn post_of(said: Said) -> (u16, Post, Option<(u32, u32)>) {
    let device = object((D, 2));
    match said {
        Said::Read(length, name, id) => (A_AGENT, Post::Read { device, length }, Some((name, id))),
        Said::Write(length, name, id) => (
            A_AGENT,
            Post::Write { device, length },
            Some((name, id)),
        ),
        Said::Cancel(arrival, name, id) => (A_AGENT, Post::Cancel { arrival }, Some((name, id))),
        Said::Asked(ask) => (0, Post::Ask { ask, device }, None),
        Said::Raise(name, id) => (
            D_AGENT,
            of_device(Action::Raise {
                interrupt: object((name, id)),
            }),
            None,
        ),
        Said::Set(register, value) => (D_AGENT, of_device(Action::Set { register, value }), None),
        Said::Done(name, id, status) => (
            T_AGENT,
            Post::Done {
                request: object((name, id)),
                status,
            },
            None,
        ),
    }
}

/// The post of what a device does.
fn of_device(action: Action) -> Post {
    Post::Act { action }
}

/// The event that this is posted.
fn posted(said: Said) -> Event {
    let (agent, post, answer) = post_of(said);
    Event::Posted {
        agent,
        post,
        answer: optional(answer),
    }
}

/// The first line of what frames do that isn't as it should be.
fn wrong_acts(plan: &Plan) -> Option<&'static str> {
    for (number, cpu, act, text) in &ACTS {
        if !is_line(plan, *number, &acted(Cpu(*cpu), *act), text) {
            return Some(*text);
        }
    }
    None
}

/// The first line of what the framework and the clock do that isn't as it should be.
fn wrong_works(plan: &Plan) -> Option<&'static str> {
    for (number, work, text) in &WORKS {
        if !is_line(plan, *number, &worked(*work), text) {
            return Some(*text);
        }
    }
    None
}

/// The first line of what agents post that isn't as it should be.
fn wrong_posts(plan: &Plan) -> Option<&'static str> {
    for (number, said, text) in &POSTS {
        if !is_line(plan, *number, &posted(*said), text) {
            return Some(*text);
        }
    }
    None
}

/// The first line that isn't as it should be.
pub fn wrong(plan: &Plan) -> Option<&'static str> {
    wrong_acts(plan).or(wrong_works(plan)).or(wrong_posts(plan))
}
