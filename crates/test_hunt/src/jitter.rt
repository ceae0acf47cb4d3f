//! Scenes that words move, worked out by hand.
ghost use Rattle.wdf_parse.specs.declared.parsing.TheConstants.{TEXT_LIMIT};

use std::alloc::Global;
use wdf_jitter::moved_scene;
use wdf_parse::{TEXT_LIMIT, parse};
use wdf_scene::Scene;

/// A scenario, the ticks by which its lines may be moved, a word for each line, and the scenario that is due.
struct Case {
    what: &'static str,
    text: &'static [u8],
    most: u32,
    words: &'static [u64],
    due: &'static [u8],
}

/// A scenario with each form of line that names a tick.
const TEXT: &[u8] = b"cpus 1
limit 100
objects 16
device D
register R 0
at 2 set R 5
queue Q manual
default
end
end
app A
at 0 read D 16
at 999999 write D 16
at 1000000 control D 7 8
at 3 cancel 1
end
pnp
at 5 sleep D
end
";

/// Words that move nothing by 3 ticks: multiples of 4.
const STILL: [u64; 19] = [
    0, 4, 8, 12, 16, 20, 24, 28, 32, 36, 40, 44, 48, 52, 56, 60, 64, 68, 72,
];

const CASES: [Case; 4] = [
    Case {
        what: "each line with a tick is moved by its own word, and no other line",
        text: TEXT,
        most: 3,
        // What is left of a division by 4: the device's line 1, the read 3, the write 2, the control code 3, the cancel 0, the
        // sleep 2. The write and the control code come to the last tick.
        words: &[
            1,
            1,
            1,
            1,
            1,
            13,
            1,
            1,
            1,
            1,
            1,
            0xffff_ffff_ffff_ffff,
            2,
            7,
            8,
            1,
            1,
            6,
            1,
        ],
        due: b"cpus 1
limit 100
objects 16
device D
register R 0
at 3 set R 5
queue Q manual
default
end
end
app A
at 3 read D 16
at 1000000 write D 16
at 1000000 control D 7 8
at 3 cancel 1
end
pnp
at 7 sleep D
end
",
    },
    Case {
        what: "by 0 ticks nothing is moved",
        text: TEXT,
        most: 0,
        words: &[13; 19],
        due: TEXT,
    },
    Case {
        what: "words that leave nothing move nothing",
        text: TEXT,
        most: 3,
        words: &STILL,
        due: TEXT,
    },
    Case {
        what: "delays and periods aren't moved, and an `order` block stays",
        text: b"cpus 1
limit 100
objects 16
class T timer D
period 3
on EvtTimerFunc
spend 2
end
end
device D
register R 0
when write R set R 1 after 4
end
order
picks 3 1
end
",
        most: 1_000_000,
        words: &[1; 16],
        due: b"cpus 1
limit 100
objects 16
class T timer D
period 3
on EvtTimerFunc
spend 2
end
end
device D
register R 0
when write R set R 1 after 4
end
order
picks 3 1
end
",
    },
];

/// Whether two scenes have the same lines, with the same numbers of `picks` lines.
fn has_same_lines(scene: &Scene, due: &Scene) -> bool {
    if scene.line_len() != due.line_len() {
        return false;
    }
    (0..scene.line_len()).all(|k| {
        scene.line(k) == due.line(k) && scene.pick_len(k) == due.pick_len(k)
    })
}

/// The scene of a text of a case.
fn scene_of(alloc: Global, text: &[u8]) -> Option<Scene> {
    if text.len() > TEXT_LIMIT {
        return None;
    }
    parse(alloc, text).ok()
}

/// Whether the scene of a case is moved as is due.
fn is_due(alloc: Global, case: &Case) -> Option<bool> {
    let scene = scene_of(alloc, case.text)?;
    let due = scene_of(alloc, case.due)?;
    if scene.line_len() as usize > case.words.len() {
        return None;
    }
    let moved = moved_scene(alloc, case.most, case.words, &scene).ok()?;
    Some(has_same_lines(&moved, &due))
}

#[test]
fn each_line_is_moved_as_is_due(rt: HostRuntime) {
    for case in &CASES {
        assert!(rt;
            matches!(is_due(rt.alloc(), case), Some(true)),
            "{}",
            case.what
        );
    }
}
