//! Of which groups the counts may have changed since they were counted.
ghost use Rattle.std.specs.Prelude.{◌≡◌};
ghost use Rattle.wdf_ready.specs.Counts as counts;

use crate::blocks::Block;
use wdf_base::{Event, Rank};
use wdf_model::Group;

/// The groups of which a count may have changed.
#[derive(Clone, Copy)]
pub enum Stale {
    /// None.
    Nothing,
    /// The own event of this processor.
    Own { cpu: u8 },
    /// What reads the agents: own events, service routines, posts.
    OfAgents,
    /// What reads the agents or the clock: that, and timers.
    OfTime,
    /// All.
    Everything,
}

impl Stale {
    /// Those that an event may touch. A frame that goes on by itself touches its own event alone.
    pub fn by(event: &Event) -> Stale
        ensures { result ≡ counts.stale_by event.now }
    {
        match event {
            Event::Local { cpu, .. } | Event::Log { cpu, .. } => Stale::Own { cpu: cpu.0 },
            Event::Spend { .. } | Event::Register { .. } => Stale::OfAgents,
            Event::Tick { .. } => Stale::OfTime,
            _ => Stale::Everything,
        }
    }

    /// Those of which a count may have changed after one event more.
    pub fn after(self, event: &Event) -> Stale
        ensures { result ≡ counts.stale_after self event.now }
    {
        match self {
            Stale::Nothing => Stale::by(event),
            _ => Stale::Everything,
        }
    }

    /// Whether a group is among them.
    pub fn has(self, group: Group) -> bool
        ensures { result ≡ counts.is_stale self group }
    {
        match self {
            Stale::Nothing => false,
            Stale::Own { cpu } => matches!(group, Group::OwnEvent { cpu: on } if cpu == on),
            Stale::OfAgents => reads_agents(group),
            Stale::OfTime => reads_agents(group) || is_timed(group),
            Stale::Everything => true,
        }
    }

    /// Whether a block has such a group. Of a rank for requests either each group is one or none, whatever its object.
    pub(crate) fn has_block(self, block: Block) -> bool
        ensures { result ≡ counts.has_stale self block }
    {
        match block {
            Block::One(group) => self.has(group),
            Block::ForEach { cpu, rank } => self.has(Group::StartsFor {
                cpu,
                rank,
                object: 0,
            }),
        }
    }
}

/// Whether a group reads what the agents show or have due.
fn reads_agents(group: Group) -> bool
    ensures { result ≡ counts.reads_agents group }
{
    matches!(
        group,
        Group::OwnEvent { .. }
            | Group::Starts {
                rank: Rank::Isr,
                ..
            }
            | Group::Posts
    )
}

/// Whether a group is the starts of timers on a processor.
fn is_timed(group: Group) -> bool
    ensures { result ≡ counts.is_timed group }
{
    matches!(
        group,
        Group::Starts {
            rank: Rank::Timed,
            ..
        }
    )
}
