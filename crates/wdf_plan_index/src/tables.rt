ghost use Rattle.std.specs.Prelude.{IfOk};
ghost use Rattle.wdf_plan_index.specs.Tables.{AreTables};

use crate::callbacks::is_declared_somewhere;
use crate::handlers::{Handlers, handlers_of};
use crate::keys::{devices_over, script_names};
use crate::owners::{Owner, ids_of};
use crate::places::Places;
use crate::serving::{Serving, serving_of};
use std::alloc::Global;
use wdf_base::{Callback, Memory, Plan};

/// What is found in a plan without a search through all that is declared.
#[derive(Drop)]
pub(crate) struct Tables {
    /// The ids of the devices, rising.
    pub(crate) devices: Places,
    /// The ids of the targets, rising.
    pub(crate) targets: Vec<u32>,
    /// For each script the number of the name of what it is declared on.
    pub(crate) script_names: Places,
    /// For each declared object the device that it belongs to.
    pub(crate) belongings: Places,
    /// The handlers of each id.
    pub(crate) handlers: Vec<Handlers>,
    /// The queues that take what arrives at each device, in the order of the devices.
    pub(crate) serving: Vec<Serving>,
    /// Whether something declares EvtCleanupCallback.
    pub(crate) cleanup_callback: bool,
    /// Whether something declares EvtDestroyCallback.
    pub(crate) destroy_callback: bool,
}

/// The tables of a plan.
pub(crate) fn tables_of(alloc: Global, plan: &Plan) -> Result<Tables, Memory>
    ensures { IfOk result (λ tables. AreTables plan.now tables) }
{
    let cleanup_callback = is_declared_somewhere(plan, Callback::EvtCleanupCallback);
    let destroy_callback = is_declared_somewhere(plan, Callback::EvtDestroyCallback);
    let ids = ids_of(alloc, plan, Owner::Device)?;
    let devices = Places::make(alloc, ids, plan.declared_len())?;
    let targets = ids_of(alloc, plan, Owner::Target)?;
    let _scripts = plan.script_len();
    let names = script_names(alloc, plan)?;
    let script_names = Places::make(alloc, names, plan.name_len())?;
    let over = devices_over(alloc, plan)?;
    let belongings = Places::make(alloc, over, plan.declared_len().saturating_add(1))?;
    let handlers = handlers_of(alloc, plan, &script_names)?;
    let serving = serving_of(alloc, plan, &belongings, &devices)?;
    Ok(Tables {
        devices,
        targets,
        script_names,
        belongings,
        handlers,
        serving,
        cleanup_callback,
        destroy_callback,
    })
}
