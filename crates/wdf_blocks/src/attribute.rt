//! What at most one line of a block, or of a device, gives it.
ghost use Rattle.std.specs.Prelude.{◌≡◌};
ghost use Rattle.wdf_blocks.specs.Attribute as spec;

use wdf_base::{Callback, RequestForm, same_callback};
use wdf_same::same_request_form;
use wdf_scene::SceneLine;

/// What at most one line of a block, or of a device, gives it.
#[derive(Clone, Copy)]
pub enum Attribute {
    Scope,
    Level,
    Serialize,
    Period,
    PowerOff,
    Zero,
    Default,
    For(RequestForm),
    On(Callback),
}

/// Whether a line gives the attribute.
#[tactic(auto, unfolding(crate::specs::Attribute::gives))]
pub fn gives(attribute: Attribute, form: &SceneLine) -> bool
    ensures { result ≡ spec.gives attribute form.now }
{
    match attribute {
        Attribute::Scope => matches!(form, SceneLine::Scope { .. }),
        Attribute::Level => matches!(form, SceneLine::Level { .. }),
        Attribute::Serialize => matches!(form, SceneLine::Serialize),
        Attribute::Period => matches!(form, SceneLine::Period { .. }),
        Attribute::PowerOff => matches!(form, SceneLine::PowerOff),
        Attribute::Zero => matches!(form, SceneLine::Zero),
        Attribute::Default => matches!(form, SceneLine::Default),
        Attribute::For(own) => gives_form(own, form),
        Attribute::On(own) => gives_callback(own, form),
    }
}

#[tactic(auto, unfolding(crate::specs::Attribute::gives_form))]
fn gives_form(own: RequestForm, line: &SceneLine) -> bool
    ensures { result ≡ spec.gives_form own line.now }
{
    match line {
        SceneLine::For { form } => same_request_form(own, *form),
        _ => false,
    }
}

#[tactic(auto, unfolding(crate::specs::Attribute::gives_callback))]
fn gives_callback(own: Callback, line: &SceneLine) -> bool
    ensures { result ≡ spec.gives_callback own line.now }
{
    match line {
        SceneLine::On { callback } => same_callback(own, *callback),
        _ => false,
    }
}

impl Attribute {
    /// Whether at most one of a device's queues may have it.
    #[tactic(auto, unfolding(crate::specs::Attribute::is_device_wide))]
    pub fn is_device_wide(self) -> bool
        ensures { result ≡ spec.is_device_wide self }
    {
        matches!(self, Attribute::Default | Attribute::For(_))
    }
}

/// The attribute that a line gives, if it gives one.
#[tactic(auto, unfolding(crate::specs::Attribute::attribute_of))]
pub fn attribute_of(line: &SceneLine) -> Option<Attribute>
    ensures { result ≡ spec.attribute_of line.now }
{
    match line {
        SceneLine::Scope { .. } => Some(Attribute::Scope),
        SceneLine::Level { .. } => Some(Attribute::Level),
        SceneLine::Serialize => Some(Attribute::Serialize),
        SceneLine::Period { .. } => Some(Attribute::Period),
        SceneLine::PowerOff => Some(Attribute::PowerOff),
        SceneLine::Zero => Some(Attribute::Zero),
        SceneLine::Default => Some(Attribute::Default),
        SceneLine::For { form } => Some(Attribute::For(*form)),
        SceneLine::On { callback } => Some(Attribute::On(*callback)),
        _ => None,
    }
}
