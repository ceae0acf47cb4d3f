ghost use Rattle.std.specs.Prelude.{◌≡◌, false};
ghost use Rattle.law_idle.specs.Idling as idling;
ghost use Rattle.wdf_laws.specs.Events as told;
ghost use Rattle.wdf_model.specs.agents.IdlePolicy as model;
ghost use Rattle.check_idle.specs.Watched as words;

use check_signs::{ended_on, passed};
use std::marker::Model;
use wdf_base::{Ask, Callback, Event, Post, Stage};
use wdf_idle::{ends_asleep, ends_awake};

/// Whether a device is at rest, awake or asleep, and whether it was when something was last asked of it.
#[derive(Drop)]
pub struct Rest {
    /// It is at rest.
    pub current: bool,
    /// It was when something was last asked of it.
    pub earlier: bool,
}

impl Model for Rest {
    ghost use Rattle.law_idle.specs.Idling as idling;

    ghost Value = { idling.Rest };

    ghost view = { λ r. record { now = r.current; before = r.earlier } };
}

/// Whether an id is this one.
pub fn is_id(id: u32, found: Option<u32>) -> bool
    ensures { result ≡ told.is_id id found }
{
    match found {
        Some(other) => other == id,
        None => false,
    }
}

/// Whether a device passes this stage.
fn passes(stage: Stage, device: u32, event: &Event) -> bool
    ensures { result ≡ told.is_id device (told.passed stage event.now) }
{
    is_id(device, passed(stage, event))
}

/// Whether the driver of a device refuses by this callback what was asked.
fn refuses(query: Callback, device: u32, event: &Event) -> bool
    ensures { result ≡ told.is_id device (told.ended_on query false event.now) }
{
    is_id(device, ended_on(query, false, event))
}

/// What a post asks of a device.
fn asked_by(post: &Post, device: u32) -> Option<Ask>
    ensures { result ≡ words.asked_by device post.now }
{
    match post {
        Post::Ask { ask, device: asked } => {
            if asked.id.0 == device {
                Some(*ask)
            } else {
                None
            }
        }
        _ => None,
    }
}

/// What an event asks of a device.
fn asked_of(device: u32, event: &Event) -> Option<Ask>
    ensures { result ≡ words.asked device event.now }
{
    match event {
        Event::Posted { post, .. } => asked_by(post, device),
        _ => None,
    }
}

/// Whether something is asked that takes a working device away.
fn is_awake_ended(asked: Option<Ask>) -> bool
    ensures { result ≡ idling.is_ended model.ends_awake asked }
{
    match asked {
        Some(ask) => ends_awake(ask),
        None => false,
    }
}

/// Whether something is asked that takes a sleeping device away.
fn is_sleep_ended(asked: Option<Ask>) -> bool
    ensures { result ≡ idling.is_ended model.ends_asleep asked }
{
    match asked {
        Some(ask) => ends_asleep(ask),
        None => false,
    }
}

impl Rest {
    /// It begins by an event, ends by what is asked, and comes back where the driver refuses what was asked.
    fn after(&self, begins: bool, ends: bool, refused: bool, asked: Option<Ask>) -> Rest
        ensures { result ≡ words.rested begins ends refused asked self.now }
    {
        Rest {
            current: begins || (self.current && !ends) || (self.earlier && refused),
            earlier: if asked.is_some() {
                self.current
            } else {
                self.earlier
            },
        }
    }

    /// Whether a device is awake after an event, by what it was.
    pub fn awake_after(&self, device: u32, event: &Event) -> Rest
        ensures { result ≡ words.awake_after device event.now self.now }
    {
        let asked = asked_of(device, event);
        let refused = refuses(Callback::EvtDeviceQueryStop, device, event)
            || refuses(Callback::EvtDeviceQueryRemove, device, event);
        self.after(
            passes(Stage::Working, device, event),
            is_awake_ended(asked),
            refused,
            asked,
        )
    }

    /// Whether a device is asleep after an event, by what it was.
    pub fn asleep_after(&self, device: u32, event: &Event) -> Rest
        ensures { result ≡ words.asleep_after device event.now self.now }
    {
        let asked = asked_of(device, event);
        self.after(
            passes(Stage::Sleeping, device, event),
            is_sleep_ended(asked),
            refuses(Callback::EvtDeviceQueryRemove, device, event),
            asked,
        )
    }
}
