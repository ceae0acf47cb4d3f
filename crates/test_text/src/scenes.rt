//! A scene gives back what it was made from.
use std::alloc::Global;
use std::test::Fail;
use wdf_base::{Memory, Status};
use wdf_scene::{Scene, SceneBuilder, SceneExpr, SceneLine};

fn with_line(alloc: Global) -> Result<Scene, Memory> {
    let mut builder = SceneBuilder::new(alloc, 1);
    builder.line(4, SceneLine::Cpus(1))?;
    Ok(builder.finish())
}

fn with_pick(alloc: Global) -> Result<Scene, Memory> {
    let mut builder = SceneBuilder::new(alloc, 1);
    builder.line(4, SceneLine::Picks)?;
    builder.pick(7)?;
    Ok(builder.finish())
}

/// A scene with one expression, and its number.
fn with_expression(alloc: Global) -> Result<(u32, Scene), Memory> {
    let mut builder = SceneBuilder::new(alloc, 2);
    let number = builder.expr(SceneExpr::Literal(Status::Success))?;
    Ok((number, builder.finish()))
}

/// Whether the scene has version 1, and on its line 4 the form for one processor.
fn has_line(scene: &Scene) -> bool {
    scene.version == 1
        && scene.line_len() == 1
        && scene.line(0) == SceneLine::Cpus(1)
        && scene.number(0) == 4
}

/// Whether the scene has one line with one pick, 7.
fn has_pick(scene: &Scene) -> bool {
    scene.line_len() == 1 && scene.pick_len(0) == 1 && scene.pick(0, 0) == 7
}

/// Whether the scene has one expression, a status.
fn has_expression(scene: &Scene) -> bool {
    scene.expr_len() == 1 && scene.expr(0) == SceneExpr::Literal(Status::Success)
}

#[test]
fn scenes_give_their_parts_back(rt: HostRuntime) -> Result<(), Fail> {
    assert!(rt; has_line(&with_line(rt.alloc())?));
    assert!(rt; has_pick(&with_pick(rt.alloc())?));
    let (number, scene) = with_expression(rt.alloc())?;
    assert!(rt; number == 0 && has_expression(&scene));
    Ok(())
}
