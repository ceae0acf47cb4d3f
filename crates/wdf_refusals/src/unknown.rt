//! Names that stand for nothing there.
ghost use Rattle.std.specs.Prelude.{◌≡◌, ◌-◌, take, drop};
ghost use Rattle.std.specs.List.{list_any};
ghost use Rattle.wdf_refusals.specs.Rows as rows;

use crate::names::Names;
use wdf_base::{Name, Sort};
use wdf_blocks::declaration::Wanted;
use wdf_blocks::forms::nodes_end;
use wdf_blocks::placed::Placed;
use wdf_blocks::variables::Variables;
use wdf_scene::{Scene, SceneAction, SceneArg, SceneExpr, SceneLine};

#[tactic(auto, unfolding(crate::specs::Rows::unknown_action))]
fn unknown_action(names: &Names, device: Option<u32>, action: &SceneAction) -> bool
    ensures { result ≡ rows.unknown_action names.now device action.now }
{
    match action {
        SceneAction::Set { register, .. } => !names.stands(register, Wanted::RegisterOf(device)),
        SceneAction::Raise { interrupt } => !names.stands(interrupt, Wanted::InterruptOf(device)),
        SceneAction::Lower { interrupt } => !names.stands(interrupt, Wanted::InterruptOf(device)),
    }
}

#[tactic(auto, unfolding(crate::specs::Rows::unknown_class))]
fn unknown_class(names: &Names, sort: Sort, name: &Name) -> bool
    ensures { result ≡ rows.unknown_class names.now sort name.now }
{
    match sort {
        Sort::Class(kind) => !names.stands(name, Wanted::ClassOf(kind)),
        _ => true,
    }
}

#[tactic(auto, unfolding(crate::specs::Rows::unknown_argument))]
fn unknown_argument(names: &Names, sort: Sort, arg: &SceneArg) -> bool
    ensures { result ≡ rows.unknown_argument names.now sort arg.now }
{
    match arg {
        SceneArg::OfClass(name) => unknown_class(names, sort, name),
        _ => false,
    }
}

#[tactic(auto, unfolding(crate::specs::Rows::unknown_parent))]
fn unknown_parent(names: &Names, parent: &Option<Name>) -> bool
    ensures { result ≡ rows.unknown_parent names.now parent.now }
{
    match parent {
        Some(name) => !names.stands(name, Wanted::Anything),
        None => false,
    }
}

#[tactic(auto, unfolding(crate::specs::Rows::unknown_word))]
fn unknown_word(names: &Names, device: Option<u32>, form: &SceneLine) -> bool
    ensures { result ≡ rows.unknown_word names.now device form.now }
{
    match form {
        SceneLine::DeferredClass { parent, .. } => unknown_parent(names, parent),
        SceneLine::When {
            register,
            action,
            ..
        } => {
            !names.stands(register, Wanted::RegisterOf(device))
                || unknown_action(names, device, action)
        }
        SceneLine::At { action, .. } => unknown_action(names, device, action),
        SceneLine::AtRead { device, .. } => !names.stands(device, Wanted::Device),
        SceneLine::AtWrite { device, .. } => !names.stands(device, Wanted::Device),
        SceneLine::AtControl { device, .. } => !names.stands(device, Wanted::Device),
        SceneLine::AtAsk { device, .. } => !names.stands(device, Wanted::Device),
        SceneLine::Get { register, .. } => !names.stands(register, Wanted::Register),
        SceneLine::Put { register, .. } => !names.stands(register, Wanted::Register),
        SceneLine::Call { kind, a, b, c, .. } => {
            let signature = kind.signature();
            unknown_argument(names, signature.a, a)
                || unknown_argument(names, signature.b, b)
                || unknown_argument(names, signature.c, c)
        }
        _ => false,
    }
}

#[tactic(auto, unfolding(crate::specs::Rows::unknown_node))]
fn unknown_node(names: &Names, variables: &Variables, node: &SceneExpr) -> bool
    ensures { result ≡ rows.unknown_node names.now variables.now node.now }
{
    match node {
        SceneExpr::Named(name) => {
            variables.number(name).is_none() && !names.stands(name, Wanted::Object)
        }
        _ => false,
    }
}

fn any_unknown(names: &Names, variables: &Variables, nodes: &[SceneExpr]) -> bool
    ensures { result ≡ list_any (rows.unknown_node names.now variables.now) nodes.now }
{
    nodes
        .iter()
        .any(|node| unknown_node(names, variables, node))
}

/// The nodes from one place to another, as far as there are nodes.
pub fn window(all: &[SceneExpr], from: u64, to: u64) -> &[SceneExpr]
    ensures { result.now ≡ take (to - from) (drop from all.now) }
{
    let start = (from as usize).min(all.len());
    let end = (to as usize).max(start).min(all.len());
    &all[start..end]
}

/// Whether a name on the line stands for nothing there: it is no variable of the callback and no
/// declared thing of the needed kind, or a register or an interrupt of another device.
#[tactic(auto, unfolding(crate::specs::Rows::unknown_name, crate::specs::Rows::nodes_of))]
pub fn unknown_name(scene: &Scene, names: &Names, variables: &Variables, placed: &Placed) -> bool
    ensures { result ≡ rows.unknown_name scene.now names.now variables.now placed.now }
{
    if unknown_word(names, placed.stand.device, &placed.form) {
        return true;
    }
    let from = placed.counts.nodes;
    let to = nodes_end(from, &placed.form);
    any_unknown(names, variables, window(scene.exprs.as_slice(), from, to))
}
