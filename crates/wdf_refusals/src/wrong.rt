//! Callbacks, attributes, levels and parents that don't fit their block.
ghost use Rattle.std.specs.Prelude.{◌≡◌};
ghost use Rattle.std.specs.List.{list_any};
ghost use Rattle.wdf_base.specs.Resolved.{function_of, serial_level};
ghost use Rattle.wdf_blocks.specs.Declarations.{is_parent_at};
ghost use Rattle.wdf_refusals.specs.Rows as rows;

use crate::heritage::Heritage;
use crate::names::{Names, is_wanted};
use wdf_base::{Callback, DeferredKind, ExecutionLevel, Name, Owner, same_execution_level};
use wdf_blocks::attribute::Attribute;
use wdf_blocks::block::{form_at, has_given};
use wdf_blocks::declaration::{Declaration, Wanted};
use wdf_blocks::forms::block_kind;
use wdf_blocks::placed::Placed;
use wdf_same::same_kind;
use wdf_scene::{Scene, SceneLine};

#[tactic(auto, unfolding(crate::specs::Rows::is_class_or_device))]
fn is_class_or_device(form: &SceneLine) -> bool
    ensures { result ≡ rows.is_class_or_device form.now }
{
    matches!(
        form,
        SceneLine::Class { .. } | SceneLine::DeferredClass { .. } | SceneLine::Device { .. }
    )
}

fn has_callbacks(owner: Owner, form: &SceneLine) -> bool
    ensures { result ≡ rows.has_callbacks owner form.now }
{
    match owner {
        Owner::Of(kind) => match block_kind(form) {
            Some(own) => same_kind(own, kind),
            None => false,
        },
        Owner::ClassOrDevice => is_class_or_device(form),
    }
}

#[tactic(auto, unfolding(crate::specs::Rows::is_deferred_block))]
fn is_deferred_block(form: &SceneLine) -> bool
    ensures { result ≡ rows.is_deferred_block form.now }
{
    matches!(form, SceneLine::DeferredClass { .. })
}

#[tactic(auto, unfolding(crate::specs::Rows::is_timer_block))]
fn is_timer_block(form: &SceneLine) -> bool
    ensures { result ≡ rows.is_timer_block form.now }
{
    match form {
        SceneLine::DeferredClass { kind, .. } => matches!(kind, DeferredKind::Timer),
        _ => false,
    }
}

#[tactic(auto, unfolding(crate::specs::Rows::is_working_block))]
fn is_working_block(form: &SceneLine) -> bool
    ensures { result ≡ rows.is_working_block form.now }
{
    match form {
        SceneLine::Device { working, .. } => *working,
        _ => false,
    }
}

// The form of the line that opened a block.
fn block_form(scene: &Scene, block: Option<u32>) -> Option<SceneLine>
    ensures { result ≡ rows.block_form scene.now block }
{
    match block {
        Some(block) => form_at(scene, block),
        None => None,
    }
}

fn block_has_callbacks(scene: &Scene, block: Option<u32>, owner: Owner) -> bool
    ensures { result ≡ rows.block_is (rows.has_callbacks owner) scene.now block }
{
    match block_form(scene, block) {
        Some(form) => has_callbacks(owner, &form),
        None => false,
    }
}

fn block_is_deferred(scene: &Scene, block: Option<u32>) -> bool
    ensures { result ≡ rows.block_is rows.is_deferred_block scene.now block }
{
    match block_form(scene, block) {
        Some(form) => is_deferred_block(&form),
        None => false,
    }
}

fn block_is_timer(scene: &Scene, block: Option<u32>) -> bool
    ensures { result ≡ rows.block_is rows.is_timer_block scene.now block }
{
    match block_form(scene, block) {
        Some(form) => is_timer_block(&form),
        None => false,
    }
}

fn block_is_working(scene: &Scene, block: Option<u32>) -> bool
    ensures { result ≡ rows.block_is rows.is_working_block scene.now block }
{
    match block_form(scene, block) {
        Some(form) => is_working_block(&form),
        None => false,
    }
}

/// The function of a class, which it can't do without.
fn function_of(kind: DeferredKind) -> Callback
    ensures { result ≡ function_of kind }
{
    match kind {
        DeferredKind::Dpc => Callback::EvtDpcFunc,
        DeferredKind::Timer => Callback::EvtTimerFunc,
        DeferredKind::WorkItem => Callback::EvtWorkItem,
    }
}

/// Whether a callback or an attribute isn't of its block, or a block lacks the callback that it
/// can't do without, or an interrupt is in a working device.
#[tactic(auto, unfolding(crate::specs::Rows::wrong_callback))]
pub fn wrong_callback(scene: &Scene, placed: &Placed, form: &SceneLine) -> bool
    ensures { result ≡ rows.wrong_callback scene.now placed.now form.now }
{
    let stand = &placed.stand;
    match form {
        SceneLine::On { callback } => {
            !block_has_callbacks(scene, stand.block, callback.row().owner)
        }
        SceneLine::Serialize => !block_is_deferred(scene, stand.block),
        SceneLine::Period { .. } => !block_is_timer(scene, stand.block),
        SceneLine::Interrupt { .. } => {
            !has_given(scene, placed.at, Attribute::On(Callback::EvtInterruptIsr))
                || block_is_working(scene, stand.device)
        }
        SceneLine::Target { .. } => {
            !has_given(
                scene,
                placed.at,
                Attribute::On(Callback::EvtRequestCompletion),
            )
        }
        SceneLine::DeferredClass { kind, .. } => {
            !has_given(scene, placed.at, Attribute::On(function_of(*kind)))
        }
        _ => false,
    }
}

/// The level that the parent of a serialized object has.
fn serial_level(kind: DeferredKind) -> ExecutionLevel
    ensures { result ≡ serial_level kind }
{
    match kind {
        DeferredKind::Dpc => ExecutionLevel::Dispatch,
        DeferredKind::Timer => ExecutionLevel::Dispatch,
        DeferredKind::WorkItem => ExecutionLevel::Passive,
    }
}

#[tactic(auto, unfolding(crate::specs::Heritage::effective))]
fn is_parent_at(
    heritage: &Heritage,
    level: ExecutionLevel,
    name: &Name,
    declaration: &Declaration,
) -> bool
    ensures { result ≡ is_parent_at heritage.now level name.now declaration.now }
{
    is_wanted(declaration, name, Wanted::Parent)
        && same_execution_level(
            heritage.effective(declaration.at, declaration.device).level,
            level,
        )
}

fn any_parent_at(
    heritage: &Heritage,
    level: ExecutionLevel,
    name: &Name,
    declarations: &[Declaration],
) -> bool
    ensures { result ≡ list_any (is_parent_at heritage.now level name.now) declarations.now }
{
    declarations.iter().any(|declaration| is_parent_at(heritage, level, name, declaration))
}

#[tactic(auto, unfolding(crate::specs::Rows::unlike_parent))]
fn unlike_parent(heritage: &Heritage, names: &Names, kind: DeferredKind, parent: &Name) -> bool
    ensures { result ≡ rows.unlike_parent heritage.now names.now kind parent.now }
{
    names.stands(parent, Wanted::Parent)
        && !any_parent_at(heritage, serial_level(kind), parent, names.as_slice())
}

#[tactic(auto, unfolding(crate::specs::Rows::unlike_block))]
fn unlike_block(heritage: &Heritage, names: &Names, form: &SceneLine) -> bool
    ensures { result ≡ rows.unlike_block heritage.now names.now form.now }
{
    match form {
        SceneLine::DeferredClass {
            kind,
            parent: Some(parent),
            ..
        } => unlike_parent(heritage, names, *kind, parent),
        _ => false,
    }
}

fn block_is_unlike(heritage: &Heritage, names: &Names, block: Option<u32>) -> bool
    ensures { result ≡ rows.block_is (rows.unlike_block heritage.now names.now) heritage.now block }
{
    match block_form(heritage.scene(), block) {
        Some(form) => unlike_block(heritage, names, &form),
        None => false,
    }
}

/// Whether the line serializes a class whose parent's effective level doesn't allow it.
#[tactic(auto, unfolding(crate::specs::Rows::incompatible_level))]
pub fn incompatible_level(
    heritage: &Heritage,
    names: &Names,
    placed: &Placed,
    form: &SceneLine,
) -> bool
    ensures { result ≡ rows.incompatible_level heritage.now names.now placed.now form.now }
{
    match form {
        SceneLine::Serialize => block_is_unlike(heritage, names, placed.stand.block),
        _ => false,
    }
}

fn lacks_parent(names: &Names, parent: &Option<Name>) -> bool
    ensures { result ≡ rows.lacks_parent names.now parent.now }
{
    match parent {
        Some(name) => {
            names.stands(name, Wanted::Anything) && !names.stands(name, Wanted::Parent)
        }
        None => true,
    }
}

/// Whether the line declares a class that needs a device or a queue as its parent and has none.
#[tactic(auto, unfolding(crate::specs::Rows::no_parent))]
pub fn no_parent(names: &Names, form: &SceneLine) -> bool
    ensures { result ≡ rows.no_parent names.now form.now }
{
    match form {
        SceneLine::DeferredClass { parent, .. } => lacks_parent(names, parent),
        _ => false,
    }
}
