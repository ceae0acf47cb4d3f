//! The places that picks name.
ghost use Rattle.wdf_scene.specs.Naming.{HasProperNames};
ghost use Rattle.wdf_scene.specs.Written.{IsScene};

use std::alloc::Global;
use wdf_base::Memory;
use wdf_core::Core;
use wdf_dev::AnyAgent;
use wdf_scene::Scene;
use wdf_tries::opened;

/// The places that words name in a run on a core, one after the other, until no event may follow.
fn places_on(alloc: Global, core: &mut Core<AnyAgent>, words: &[u64]) -> Result<Vec<u64>, Memory> {
    let mut places = Vec::new(alloc);
    for word in words {
        let count = core.ready_len();
        if count == 0 {
            return Ok(places);
        }
        let place = *word as usize % count;
        places.push(place as u64)?;
        core.apply(place);
    }
    Ok(places)
}

/// The places that words name in the run that they make of a scene's plan.
pub(crate) fn places_of(alloc: Global, scene: &Scene, words: &[u64]) -> Result<Vec<u64>, Memory>
    requires scene { IsScene scene.now }
    requires names { HasProperNames scene.now }
{
    let mut core = opened(alloc, scene)?;
    places_on(alloc, &mut core, words)
}
