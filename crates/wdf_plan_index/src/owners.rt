ghost use Rattle.std.specs.Prelude.{◌≡◌, ◌<◌, length, IfOk};
ghost use Rattle.wdf_plan_index.specs.Owners as owners;

use std::alloc::Global;
use wdf_base::{Declared, Memory, ObjectId, Plan};

/// What has an agent of its own, besides the Plug and Play manager and the apps.
#[derive(Clone, Copy)]
pub enum Owner {
    /// A device.
    Device,
    /// A target.
    Target,
}

/// Whether a declared object is of this sort.
fn is_of(owner: Owner, object: &Declared) -> bool
    ensures { result ≡ owners.is_of owner object.now }
{
    match (owner, object) {
        (Owner::Device, Declared::Device(_)) | (Owner::Target, Declared::Target(_)) => true,
        _ => false,
    }
}

/// The ids of the declared objects of this sort.
///
/// # Errors
///
/// [`Memory`] where memory was refused.
pub fn ids_of(alloc: Global, plan: &Plan, owner: Owner) -> Result<Vec<u32>, Memory>
    ensures ids { IfOk result (λ ids. ids.items ≡ owners.ids_of owner plan.now) }
    ensures names { IfOk result (λ ids. length ids.items ≡ length (owners.names_of owner plan.now)) }
{
    let mut ids = Vec::new(alloc);
    for k in 0..plan.declared_len() {
        if is_of(owner, &plan.declared(ObjectId(k + 1))) {
            ids.push(k + 1)?;
        }
    }
    Ok(ids)
}
