ghost use Rattle.std.specs.Prelude.{◌≡◌, ◌≤◌, IfOk, length};
ghost use Rattle.wdf_base.specs.Plan.{posts_of};
ghost use Rattle.wdf_model.specs.agents.App as app;

use std::alloc::Global;
use std::marker::Model;
use wdf_base::{Event, Items, MANY, Memory, Plan, Post, PostLine};

/// An app: it posts its lines in order, each from its tick on. (own)
#[derive(Drop)]
pub struct App {
    /// Its number among the agents.
    agent: u16,
    /// What it posts.
    lines: Items<PostLine, MANY>,
    /// How many of its lines it has posted.
    posted: u32,
    /// The tick that the clock shows.
    clock: u64,
}

impl Model for App {
    ghost use Rattle.wdf_model.specs.agents.App.{App};

    ghost Value = { App };

    ghost view = { λ s. record { agent = s.agent; lines = s.lines; posted = s.posted; clock = s.clock } };
}

/// What the lines of an agent post.
fn lines_of(alloc: Global, plan: &Plan, agent: u16) -> Result<Items<PostLine, MANY>, Memory>
    requires { agent ≤ length plan.now.agents }
    ensures { IfOk result (λ lines. lines ≡ posts_of plan.now agent) }
{
    let mut lines = Items::new(alloc);
    for k in 0..plan.post_len(agent) {
        lines.push(plan.post(agent, k))?;
    }
    Ok(lines)
}

impl App {
    /// The agent that posts the lines of the agent with this number, before its first line.
    pub fn make(alloc: Global, plan: &Plan, agent: u16) -> Result<App, Memory>
        requires { agent ≤ length plan.now.agents }
        ensures { IfOk result (λ made. made ≡ app.app_at plan.now agent) }
    {
        Ok(App {
            agent,
            lines: lines_of(alloc, plan, agent)?,
            posted: 0,
            clock: 0,
        })
    }

    /// Takes notice of an event of the run.
    pub fn feed(&mut self, event: &Event)
        ensures { self.new ≡ app.app_after self.old event.now }
    {
        match event {
            Event::Posted { agent, .. } => self.note_post(*agent),
            Event::Tick { time } => self.clock = *time,
            _ => {}
        }
    }

    /// Counts a post that is its own.
    fn note_post(&mut self, agent: u16)
        ensures { self.new ≡ app.after_post agent self.old }
    {
        if agent == self.agent && self.posted < self.lines.len() {
            self.posted += 1;
        }
    }

    /// The line that it posts next.
    fn next_line(&self) -> Option<PostLine>
        ensures { result ≡ app.next_line self.now }
    {
        self.lines.as_slice().get(self.posted as usize).copied()
    }

    /// Its next line's post, if that line's tick is reached.
    pub fn due(&self) -> Option<Post>
        ensures { result ≡ app.app_due self.now }
    {
        let line = self.next_line()?;
        if line.tick <= self.clock {
            Some(line.post)
        } else {
            None
        }
    }

    /// The tick of its next line, if that is later.
    pub fn next_time(&self) -> Option<u64>
        ensures { result ≡ app.app_next self.now }
    {
        let line = self.next_line()?;
        if self.clock < line.tick {
            Some(line.tick)
        } else {
            None
        }
    }
}
