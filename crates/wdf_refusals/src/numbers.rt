//! The numbers that stand for names in a plan.
ghost use Rattle.std.specs.Prelude.{◌≡◌, ◌++◌, ◌+◌, ◌<◌, ◌^◌, length, IfSome, OnOk};
ghost use Rattle.std.specs.Option.{option_to_list};
ghost use Rattle.wdf_refusals.specs.Numbered.{HasFitOrder};
ghost use Rattle.wdf_refusals.specs.Numbers as spec;

use crate::names::Names;
use wdf_base::{Action, Handle, Items, Memory, Name, ObjectId};
use wdf_blocks::declaration::{Declaration, Wanted};
use wdf_scene::SceneAction;

/// The id of the object before which so many were declared.
pub fn id_of(order: u32) -> ObjectId
    requires { order + 2 < 2 ^ 32 }
    ensures { result ≡ spec.id_of order }
{
    ObjectId(order + 2)
}

fn numbered(place: Option<u32>) -> u32
    requires { IfSome place (λ k. k + 2 < 2 ^ 32) }
    ensures { result ≡ spec.numbered place }
{
    match place {
        Some(place) => place + 2,
        None => 0,
    }
}

/// The number of a declared name.
#[tactic(auto, unfolding(crate::specs::Numbers::name_number))]
pub fn name_number(names: &Names, name: &Name) -> u32
    ensures { result ≡ spec.name_number names.now name.now }
{
    numbered(names.place(name))
}

/// The number among the registers, the classes or the objects of what a name stands for.
#[tactic(auto, unfolding(crate::specs::Numbers::number_of))]
pub fn number_of(names: &Names, name: &Name, wanted: Wanted) -> u32
    ensures value { result ≡ spec.number_of names.now name.now wanted }
    ensures small { result + 2 < 2 ^ 32 }
{
    order_of(names.found(name, wanted))
}

fn order_of(found: Option<Declaration>) -> u32
    requires { IfSome found HasFitOrder }
    ensures value { result ≡ spec.order_of found }
    ensures small { result + 2 < 2 ^ 32 }
{
    match found {
        Some(declaration) => declaration.order,
        None => 0,
    }
}

/// The object that a name stands for.
#[tactic(auto, unfolding(crate::specs::Numbers::handle_of, crate::specs::Numbers::number_of, crate::specs::Numbers::name_number))]
pub fn handle_of(names: &Names, name: &Name, wanted: Wanted) -> Handle
    ensures { result ≡ spec.handle_of names.now name.now wanted }
{
    let place = names.place(name);
    let order = order_of(names.found_after(place, name, wanted));
    Handle {
        id: id_of(order),
        name: numbered(place),
    }
}

/// What the device with this line does.
#[tactic(auto, unfolding(crate::specs::Numbers::action_of))]
pub fn action_of(names: &Names, device: Option<u32>, action: &SceneAction) -> Action
    ensures { result ≡ spec.action_of names.now device action.now }
{
    match action {
        SceneAction::Set { register, value } => Action::Set {
            register: number_of(names, register, Wanted::RegisterOf(device)),
            value: *value,
        },
        SceneAction::Raise { interrupt } => Action::Raise {
            interrupt: handle_of(names, interrupt, Wanted::InterruptOf(device)),
        },
        SceneAction::Lower { interrupt } => Action::Lower {
            interrupt: handle_of(names, interrupt, Wanted::InterruptOf(device)),
        },
    }
}

/// Adds an item at the end, if there is one.
///
/// # Errors
///
/// [`Memory`] where memory was refused. Nothing is said of the list then.
pub fn add_found<T: Drop, const CEILING: u64>(
    items: &mut Items<T, CEILING>,
    found: Option<T>,
) -> Result<(), Memory>
    requires many { length (items.old ++ option_to_list found) < 2 ^ 32 }
    requires room { length (items.old ++ option_to_list found) < CEILING }
    ensures { OnOk result (items.new ≡ items.old ++ option_to_list found) }
{
    match found {
        Some(item) => items.push(item),
        None => Ok(()),
    }
}
