//! What sort of line each form is.
ghost use Rattle.std.specs.Prelude.{◌≡◌};
ghost use Rattle.wdf_scene.specs.Naming.{declared_name};
ghost use Rattle.wdf_blocks.specs.Forms as forms;

use wdf_base::{Kind, Name};
use wdf_scene::{SceneArg, SceneLine};

/// Whether a line opens a block.
#[tactic(auto, unfolding(crate::specs::Forms::opens))]
pub fn opens(form: &SceneLine) -> bool
    ensures { result ≡ forms.opens form.now }
{
    matches!(
        form,
        SceneLine::Driver
            | SceneLine::Class { .. }
            | SceneLine::DeferredClass { .. }
            | SceneLine::Device { .. }
            | SceneLine::Interrupt { .. }
            | SceneLine::Queue { .. }
            | SceneLine::Target { .. }
            | SceneLine::App { .. }
            | SceneLine::Pnp
            | SceneLine::Order
            | SceneLine::On { .. }
            | SceneLine::If { .. }
            | SceneLine::Repeat { .. }
    )
}

/// Whether a line closes a block.
#[tactic(auto, unfolding(crate::specs::Forms::is_end))]
pub fn is_end(form: &SceneLine) -> bool
    ensures { result ≡ forms.is_end form.now }
{
    matches!(form, SceneLine::End)
}

/// Whether a line begins the `driver` block.
#[tactic(auto, unfolding(crate::specs::Forms::is_driver))]
pub fn is_driver(form: &SceneLine) -> bool
    ensures { result ≡ forms.is_driver form.now }
{
    matches!(form, SceneLine::Driver)
}

/// Whether a line declares a device.
#[tactic(auto, unfolding(crate::specs::Forms::is_device))]
pub fn is_device(form: &SceneLine) -> bool
    ensures { result ≡ forms.is_device form.now }
{
    matches!(form, SceneLine::Device { .. })
}

/// Whether a line declares an app.
#[tactic(auto, unfolding(crate::specs::Forms::is_app))]
pub fn is_app(form: &SceneLine) -> bool
    ensures { result ≡ forms.is_app form.now }
{
    matches!(form, SceneLine::App { .. })
}

/// Whether a line declares a register.
#[tactic(auto, unfolding(crate::specs::Forms::is_register))]
pub fn is_register(form: &SceneLine) -> bool
    ensures { result ≡ forms.is_register form.now }
{
    matches!(form, SceneLine::Register { .. })
}

/// Whether a line declares a class.
#[tactic(auto, unfolding(crate::specs::Forms::is_class))]
pub fn is_class(form: &SceneLine) -> bool
    ensures { result ≡ forms.is_class form.now }
{
    matches!(
        form,
        SceneLine::Class { .. } | SceneLine::DeferredClass { .. }
    )
}

/// Whether a line declares an object: a device, a queue, an interrupt or a target.
#[tactic(auto, unfolding(crate::specs::Forms::is_object))]
pub fn is_object(form: &SceneLine) -> bool
    ensures { result ≡ forms.is_object form.now }
{
    matches!(
        form,
        SceneLine::Device { .. }
            | SceneLine::Queue { .. }
            | SceneLine::Interrupt { .. }
            | SceneLine::Target { .. }
    )
}

/// Whether a line counts as a statement.
#[tactic(auto, unfolding(crate::specs::Forms::is_statement))]
pub fn is_statement(form: &SceneLine) -> bool
    ensures { result ≡ forms.is_statement form.now }
{
    matches!(
        form,
        SceneLine::Let { .. }
            | SceneLine::Call { .. }
            | SceneLine::Get { .. }
            | SceneLine::Put { .. }
            | SceneLine::If { .. }
            | SceneLine::Repeat { .. }
            | SceneLine::Spend { .. }
            | SceneLine::Log { .. }
            | SceneLine::Return { .. }
    )
}

/// Whether a line begins with `at`.
#[tactic(auto, unfolding(crate::specs::Forms::is_post))]
pub fn is_post(form: &SceneLine) -> bool
    ensures { result ≡ forms.is_post form.now }
{
    matches!(
        form,
        SceneLine::At { .. }
            | SceneLine::AtRead { .. }
            | SceneLine::AtWrite { .. }
            | SceneLine::AtControl { .. }
            | SceneLine::AtCancel { .. }
            | SceneLine::AtAsk { .. }
    )
}

/// The name that a line declares, if it is a declaration.
#[tactic(auto, unfolding(wdf_scene::specs::Naming::declared_name))]
pub fn declared_name(form: &SceneLine) -> Option<Name>
    ensures { result ≡ declared_name form.now }
{
    match form {
        SceneLine::Class { name, .. } => Some(*name),
        SceneLine::DeferredClass { name, .. } => Some(*name),
        SceneLine::Device { name, .. } => Some(*name),
        SceneLine::Interrupt { name, .. } => Some(*name),
        SceneLine::Queue { name, .. } => Some(*name),
        SceneLine::Target { name, .. } => Some(*name),
        SceneLine::App { name } => Some(*name),
        SceneLine::Register { name, .. } => Some(*name),
        _ => None,
    }
}

/// The variable that a line assigns, if it assigns one.
#[tactic(auto, unfolding(crate::specs::Forms::assigned_name))]
pub fn assigned_name(form: &SceneLine) -> Option<Name>
    ensures { result ≡ forms.assigned_name form.now }
{
    match form {
        SceneLine::Let { variable, .. } => Some(*variable),
        SceneLine::Call { into, .. } => *into,
        SceneLine::Get { variable, .. } => Some(*variable),
        _ => None,
    }
}

#[tactic(auto, unfolding(crate::specs::Forms::nodes_after))]
fn nodes_after(before: u64, arg: &SceneArg) -> u64
    ensures { result ≡ forms.nodes_after before arg.now }
{
    match arg {
        SceneArg::Expression(e) => u64::from(*e) + 1,
        _ => before,
    }
}

/// How many nodes of expressions there are up to the end of a line, where `before` come before it.
#[tactic(auto, unfolding(crate::specs::Forms::nodes_end))]
pub fn nodes_end(before: u64, form: &SceneLine) -> u64
    ensures { result ≡ forms.nodes_end before form.now }
{
    match form {
        SceneLine::Let { value, .. } => u64::from(*value) + 1,
        SceneLine::Call { a, b, c, .. } => {
            nodes_after(nodes_after(nodes_after(before, a), b), c)
        }
        SceneLine::Put { value, .. } => u64::from(*value) + 1,
        SceneLine::If { test } => u64::from(*test) + 1,
        SceneLine::Repeat { count } => u64::from(*count) + 1,
        SceneLine::Spend { ticks } => u64::from(*ticks) + 1,
        SceneLine::Log { value } => u64::from(*value) + 1,
        SceneLine::Return { value } => u64::from(*value) + 1,
        _ => before,
    }
}

/// The kind of the objects that a block is for.
#[tactic(auto, unfolding(crate::specs::Forms::block_kind))]
pub fn block_kind(form: &SceneLine) -> Option<Kind>
    ensures { result ≡ forms.block_kind form.now }
{
    match form {
        SceneLine::Class { kind, .. } => Some(kind.kind()),
        SceneLine::DeferredClass { kind, .. } => Some(kind.kind()),
        SceneLine::Device { .. } => Some(Kind::Device),
        SceneLine::Interrupt { .. } => Some(Kind::Interrupt),
        SceneLine::Queue { .. } => Some(Kind::Queue),
        SceneLine::Target { .. } => Some(Kind::Target),
        _ => None,
    }
}
