//! Names and attributes that are given twice.
ghost use Rattle.std.specs.Prelude.{◌≡◌};
ghost use Rattle.wdf_refusals.specs.Rows as rows;

use crate::names::Names;
use wdf_base::Name;
use wdf_blocks::attribute::{Attribute, attribute_of};
use wdf_blocks::block::{given, number_at};
use wdf_blocks::declaration::Declaration;
use wdf_blocks::forms::{assigned_name, declared_name};
use wdf_blocks::placed::Placed;
use wdf_blocks::reserved::is_reserved;
use wdf_scene::Scene;

#[tactic(auto, unfolding(crate::specs::Rows::reserved_line))]
fn reserved_line(name: &Name) -> Option<u32>
    ensures { result ≡ rows.reserved_line name.now }
{
    if is_reserved(name) { Some(0) } else { None }
}

#[tactic(auto, unfolding(crate::specs::Rows::first_line))]
fn first_line(names: &Names, name: &Name) -> Option<Declaration>
    ensures { result ≡ rows.first_line names.now name.now }
{
    names.first(name)
}

fn earlier_line(at: u32, name: &Name, first: &Option<Declaration>) -> Option<u32>
    ensures { result ≡ rows.earlier_line at name.now first.now }
{
    match first {
        Some(first) => {
            if first.at < at {
                Some(first.number)
            } else {
                reserved_line(name)
            }
        }
        None => reserved_line(name),
    }
}

fn taken_line(name: &Name, first: &Option<Declaration>) -> Option<u32>
    ensures { result ≡ rows.taken_line name.now first.now }
{
    match first {
        Some(first) => Some(first.number),
        None => reserved_line(name),
    }
}

fn home(placed: &Placed, attribute: Attribute) -> Option<u32>
    ensures { result ≡ rows.home placed.now attribute }
{
    if attribute.is_device_wide() {
        placed.stand.device
    } else {
        placed.stand.block
    }
}

fn given_line(scene: &Scene, at: u32, first: Option<u32>) -> Option<u32>
    ensures { result ≡ rows.given_line scene.now at first }
{
    match first {
        Some(first) => {
            if first < at {
                Some(number_at(scene, first))
            } else {
                None
            }
        }
        None => None,
    }
}

#[tactic(auto, unfolding(crate::specs::Rows::twice_given))]
fn twice_given(scene: &Scene, placed: &Placed, attribute: Attribute) -> Option<u32>
    ensures { result ≡ rows.twice_given scene.now placed.now attribute }
{
    match home(placed, attribute) {
        Some(block) => given_line(scene, placed.at, given(scene, block, attribute)),
        None => None,
    }
}

fn twice_attribute(scene: &Scene, placed: &Placed, attribute: &Option<Attribute>) -> Option<u32>
    ensures { result ≡ rows.twice_attribute scene.now placed.now attribute.now }
{
    match attribute {
        Some(attribute) => twice_given(scene, placed, *attribute),
        None => None,
    }
}

fn twice_assigned(
    scene: &Scene,
    names: &Names,
    placed: &Placed,
    assigned: &Option<Name>,
) -> Option<u32>
    ensures { result ≡ rows.twice_assigned scene.now names.now placed.now assigned.now }
{
    match assigned {
        Some(name) => taken_line(name, &first_line(names, name)),
        None => twice_attribute(scene, placed, &attribute_of(&placed.form)),
    }
}

fn twice_declared(
    scene: &Scene,
    names: &Names,
    placed: &Placed,
    declared: &Option<Name>,
) -> Option<u32>
    ensures { result ≡ rows.twice_declared scene.now names.now placed.now declared.now }
{
    match declared {
        Some(name) => earlier_line(placed.at, name, &first_line(names, name)),
        None => twice_assigned(scene, names, placed, &assigned_name(&placed.form)),
    }
}

/// The first line that gives a name or an attribute which the line gives again, or 0 where the name
/// is a word of the language.
#[tactic(auto, unfolding(crate::specs::Rows::twice_named))]
pub fn twice_named(scene: &Scene, names: &Names, placed: &Placed) -> Option<u32>
    ensures { result ≡ rows.twice_named scene.now names.now placed.now }
{
    twice_declared(scene, names, placed, &declared_name(&placed.form))
}
