ghost use Rattle.std.specs.Prelude.{◌≡◌, IfOk};
ghost use Rattle.wdf_model.specs.agents.App as app;
ghost use Rattle.wdf_model.specs.agents.PnpManager.{manager_at};

use crate::app::App;
use std::alloc::Global;
use std::marker::Model;
use wdf_base::{Event, Memory, Plan, Post};

/// The Plug and Play manager: it posts its lines in order, as an app does. It is agent 0. (own)
#[derive(Drop)]
pub struct PnpManager {
    lines: App,
}

impl Model for PnpManager {
    ghost use Rattle.wdf_model.specs.agents.App.{App};

    ghost Value = { App };

    ghost view = { λ s. s.lines };
}

impl PnpManager {
    /// The manager before its first line.
    pub fn make(alloc: Global, plan: &Plan) -> Result<PnpManager, Memory>
        ensures { IfOk result (λ made. made ≡ manager_at plan.now) }
    {
        Ok(PnpManager {
            lines: App::make(alloc, plan, 0)?,
        })
    }

    /// Takes notice of an event of the run.
    pub fn feed(&mut self, event: &Event)
        ensures { self.new ≡ app.app_after self.old event.now }
    {
        self.lines.feed(event);
    }

    /// Its next line's post, if that line's tick is reached.
    pub fn due(&self) -> Option<Post>
        ensures { result ≡ app.app_due self.now }
    {
        self.lines.due()
    }

    /// The tick of its next line, if that is later.
    pub fn next_time(&self) -> Option<u64>
        ensures { result ≡ app.app_next self.now }
    {
        self.lines.next_time()
    }
}
