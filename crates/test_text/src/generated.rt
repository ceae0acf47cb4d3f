use wdf_base::{Memory, Name};
use wdf_gen::generate;
use wdf_scene::{Scene, SceneLine};

/// The line at a place, if it is there.
fn line_at(scene: &Scene, at: u32) -> Option<SceneLine> {
    if at < scene.line_len() {
        Some(scene.line(at))
    } else {
        None
    }
}

fn from_e(length: u64) -> Option<SceneLine> {
    Some(SceneLine::AtRead {
        tick: 0,
        device: Name::new(b"E"),
        length,
    })
}

fn from_f(length: u64) -> Option<SceneLine> {
    Some(SceneLine::AtRead {
        tick: 0,
        device: Name::new(b"F"),
        length,
    })
}

#[test]
fn apps_come_after_the_devices(rt: HostRuntime) -> Result<(), Memory> {
    let scene = generate(rt.alloc(), 7)?;
    assert_eq!(rt; scene.line_len(), 2929);
    assert_eq!(rt; scene.expr_len(), 10);
    assert_eq!(rt; line_at(&scene, 0), Some(SceneLine::Cpus(4)));
    assert_eq!(rt; line_at(&scene, 747), Some(SceneLine::End));
    assert_eq!(rt;
        line_at(&scene, 748),
        Some(SceneLine::App {
            name: Name::new(b"A1")
        })
    );
    assert_eq!(rt; line_at(&scene, 2928), Some(SceneLine::End));
    Ok(())
}

#[test]
fn reads_are_those_of_the_words(rt: HostRuntime) -> Result<(), Memory> {
    let scene = generate(rt.alloc(), 7)?;
    for (at, read) in [
        (22, from_f(0)),
        (23, from_e(238)),
        (30, from_e(2789)),
        (746, from_e(2218)),
        (749, from_e(783)),
        (1476, from_e(1282)),
        (2203, from_f(1254)),
        (2927, from_e(995)),
    ] {
        assert_eq!(rt; line_at(&scene, at), read);
    }
    Ok(())
}

#[test]
fn least_and_greatest_number_give_reads(rt: HostRuntime) -> Result<(), Memory> {
    let scene = generate(rt.alloc(), 0)?;
    assert_eq!(rt; line_at(&scene, 22), from_f(0));
    assert_eq!(rt; line_at(&scene, 23), from_f(2638));
    assert_eq!(rt; line_at(&scene, 2927), from_f(1793));
    let scene = generate(rt.alloc(), u64::MAX)?;
    assert_eq!(rt; line_at(&scene, 22), from_e(0));
    assert_eq!(rt; line_at(&scene, 23), from_e(1240));
    assert_eq!(rt; line_at(&scene, 2927), from_f(1484));
    Ok(())
}
