//! The objects, classes and registers of a plan, and what devices do.
ghost use Rattle.std.specs.Prelude.{◌≡◌, ◌+◌, ◌<◌, ◌^◌, IfSome};
ghost use Rattle.wdf_plan.specs.Fitting.{IsFitDeclared};
ghost use Rattle.wdf_plan.specs.Parts as parts;

use wdf_base::{
    ClassInfo, Declared, DeviceInfo, DispatchKind, InterruptInfo, Irql, Memory, Name, QueueInfo,
    RegisterInfo, RequestForm, Serves, Status, TargetInfo, WhenLine,
};
use wdf_blocks::attribute::Attribute;
use wdf_blocks::block::{given_form, has_given, ticks_in};
use wdf_blocks::declaration::Wanted;
use wdf_blocks::placed::Placed;
use wdf_refusals::heritage::Heritage;
use wdf_refusals::names::Names;
use wdf_refusals::numbers::{action_of, id_of, name_number, number_of};
use wdf_refusals::part::Part;
use wdf_scene::{InterruptLevel, Scene, SceneLine};

#[tactic(auto, unfolding(crate::specs::Parts::device_info, wdf_refusals::specs::Heritage::effective))]
fn device_info(
    heritage: &Heritage,
    names: &Names,
    line: u32,
    name: &Name,
    working: bool,
) -> DeviceInfo
    ensures { result ≡ parts.device_info heritage.now names.now line name.now working }
{
    let name = name_number(names, name);
    let effective = heritage.effective(line, None);
    DeviceInfo {
        name,
        working,
        scope: effective.scope,
        level: effective.level,
    }
}

#[tactic(auto, unfolding(crate::specs::Parts::serves))]
fn serves(scene: &Scene, line: u32) -> Serves
    ensures { result ≡ parts.serves scene.now line }
{
    Serves {
        rest: has_given(scene, line, Attribute::Default),
        read: has_given(scene, line, Attribute::For(RequestForm::Read)),
        write: has_given(scene, line, Attribute::For(RequestForm::Write)),
        control: has_given(scene, line, Attribute::For(RequestForm::Control)),
    }
}

#[tactic(auto, unfolding(crate::specs::Parts::queue_info, wdf_refusals::specs::Heritage::effective))]
fn queue_info(
    heritage: &Heritage,
    names: &Names,
    placed: &Placed,
    line: u32,
    name: &Name,
    dispatch: DispatchKind,
) -> QueueInfo
    requires { placed.now.counts.device + 2 < 2 ^ 32 }
    ensures { result ≡ parts.queue_info heritage.now names.now placed.now.stand.device placed.now.counts.device line name.now dispatch }
{
    let name = name_number(names, name);
    let device = id_of(placed.counts.device);
    let scene = heritage.scene();
    let effective = heritage.effective(line, placed.stand.device);
    QueueInfo {
        name,
        device,
        dispatch,
        serves: serves(scene, line),
        powered: !has_given(scene, line, Attribute::PowerOff),
        zero: has_given(scene, line, Attribute::Zero),
        scope: effective.scope,
        level: effective.level,
    }
}

fn irql_of(level: InterruptLevel) -> Irql
    requires { (parts.irql_of level).0 < 2 ^ 8 }
    ensures { result ≡ parts.irql_of level }
{
    match level {
        InterruptLevel::Numbered(level) => Irql(level as u8),
        InterruptLevel::AtPassive => Irql(0),
    }
}

#[tactic(auto, unfolding(crate::specs::Parts::interrupt_info))]
fn interrupt_info(names: &Names, device: u32, name: &Name, level: InterruptLevel) -> InterruptInfo
    requires device { device + 2 < 2 ^ 32 }
    requires level { (parts.irql_of level).0 < 2 ^ 8 }
    ensures { result ≡ parts.interrupt_info names.now device name.now level }
{
    let name = name_number(names, name);
    let device = id_of(device);
    let level = irql_of(level);
    InterruptInfo {
        name,
        device,
        level,
    }
}

#[tactic(auto, unfolding(crate::specs::Parts::target_info))]
fn target_info(
    names: &Names,
    device: u32,
    name: &Name,
    delay: u64,
    status: Status,
    depth: u64,
) -> TargetInfo
    requires { device + 2 < 2 ^ 32 }
    ensures { result ≡ parts.target_info names.now device name.now delay status depth }
{
    let name = name_number(names, name);
    let device = id_of(device);
    TargetInfo {
        name,
        device,
        delay,
        status,
        depth,
    }
}

/// The object that line `line` declares, where `placed` is this line or is in its block.
#[tactic(auto, unfolding(crate::specs::Parts::object_of))]
pub fn object_of(
    heritage: &Heritage,
    names: &Names,
    placed: &Placed,
    line: u32,
    form: &SceneLine,
) -> Option<Declared>
    requires device { placed.now.counts.device + 2 < 2 ^ 32 }
    requires fits { IfSome (parts.object_of heritage.now names.now placed.now line form.now) IsFitDeclared }
    ensures { result ≡ parts.object_of heritage.now names.now placed.now line form.now }
{
    let device = placed.counts.device;
    match form {
        SceneLine::Device { name, working } => Some(Declared::Device(device_info(
            heritage, names, line, name, *working,
        ))),
        SceneLine::Queue { name, dispatch } => Some(Declared::Queue(queue_info(
            heritage, names, placed, line, name, *dispatch,
        ))),
        SceneLine::Interrupt { name, level } => Some(Declared::Interrupt(interrupt_info(
            names, device, name, *level,
        ))),
        SceneLine::Target {
            name,
            delay,
            status,
            depth,
        } => Some(Declared::Target(target_info(names, device, name, *delay, *status, *depth))),
        _ => None,
    }
}

/// The declared objects.
#[derive(Drop)]
pub struct Objects<'a> {
    pub heritage: &'a Heritage<'a>,
    pub names: &'a Names,
}

impl Part for Objects<'_> {
    type Item = Declared;

    ghost part = { λ s. parts.object_on s.heritage.now s.names.now };

    ghost fits = { λ s p. (p.counts.device + 2 < 2 ^ 32) × IfSome (parts.object_on s.heritage.now s.names.now p) IsFitDeclared };

    fn take(&self, line: &Placed) -> Result<Option<Declared>, Memory> {
        Ok(object_of(self.heritage, self.names, line, line.at, &line.form))
    }
}

fn parent_order(names: &Names, parent: &Option<Name>) -> u32
    ensures value { result ≡ parts.parent_order names.now parent.now }
    ensures small { result + 2 < 2 ^ 32 }
{
    match parent {
        Some(name) => number_of(names, name, Wanted::Parent),
        None => 0,
    }
}

#[tactic(auto, unfolding(crate::specs::Parts::period_of))]
fn period_of(scene: &Scene, line: u32) -> u64
    ensures { result ≡ parts.period_of scene.now line }
{
    match given_form(scene, line, Attribute::Period) {
        Some(form) => ticks_in(&form).unwrap_or(0),
        None => 0,
    }
}

#[tactic(auto, unfolding(crate::specs::Parts::class_on))]
fn class_on(scene: &Scene, names: &Names, placed: &Placed, form: &SceneLine) -> Option<ClassInfo>
    ensures { result ≡ parts.class_on scene.now names.now placed.now form.now }
{
    match form {
        SceneLine::Class { name, kind } => Some(ClassInfo::Plain {
            name: name_number(names, name),
            kind: *kind,
        }),
        SceneLine::DeferredClass { name, kind, parent } => Some(ClassInfo::Deferred {
            name: name_number(names, name),
            kind: *kind,
            parent: id_of(parent_order(names, parent)),
            serialize: has_given(scene, placed.at, Attribute::Serialize),
            period: period_of(scene, placed.at),
        }),
        _ => None,
    }
}

/// The part of the plan that is its classes.
#[derive(Drop)]
pub struct Classes<'a> {
    pub scene: &'a Scene,
    pub names: &'a Names,
}

impl Part for Classes<'_> {
    type Item = ClassInfo;

    ghost part = { λ s p. parts.class_on s.scene.now s.names.now p p.form };

    ghost fits = { λ s p. Unit {0} };

    fn take(&self, line: &Placed) -> Result<Option<ClassInfo>, Memory> {
        Ok(class_on(self.scene, self.names, line, &line.form))
    }
}

#[tactic(auto, unfolding(crate::specs::Parts::register_on))]
fn register_on(names: &Names, placed: &Placed, form: &SceneLine) -> Option<RegisterInfo>
    requires { placed.now.counts.device + 2 < 2 ^ 32 }
    ensures { result ≡ parts.register_on names.now placed.now form.now }
{
    match form {
        SceneLine::Register { name, value } => Some(RegisterInfo {
            name: name_number(names, name),
            device: id_of(placed.counts.device),
            value: *value,
        }),
        _ => None,
    }
}

/// The part of the plan that is its registers.
#[derive(Drop)]
pub struct Registers<'a> {
    pub names: &'a Names,
}

impl Part for Registers<'_> {
    type Item = RegisterInfo;

    ghost part = { λ s p. parts.register_on s.names.now p p.form };

    ghost fits = { λ s p. p.counts.device + 2 < 2 ^ 32 };

    fn take(&self, line: &Placed) -> Result<Option<RegisterInfo>, Memory> {
        Ok(register_on(self.names, line, &line.form))
    }
}

#[tactic(auto, unfolding(crate::specs::Parts::when_on))]
fn when_on(names: &Names, number: u32, device: Option<u32>, form: &SceneLine) -> Option<WhenLine>
    ensures { result ≡ parts.when_on names.now number device form.now }
{
    match form {
        SceneLine::When {
            access,
            register,
            action,
            after,
        } => Some(WhenLine {
            access: *access,
            register: number_of(names, register, Wanted::RegisterOf(device)),
            action: action_of(names, device, action),
            after: *after,
            line: number,
        }),
        _ => None,
    }
}

/// The part of the plan that is its `when` lines.
#[derive(Drop)]
pub struct Whens<'a> {
    pub names: &'a Names,
}

impl Part for Whens<'_> {
    type Item = WhenLine;

    ghost part = { λ s p. parts.when_on s.names.now p.number p.stand.device p.form };

    ghost fits = { λ s p. Unit {0} };

    fn take(&self, line: &Placed) -> Result<Option<WhenLine>, Memory> {
        Ok(when_on(self.names, line.number, line.stand.device, &line.form))
    }
}
