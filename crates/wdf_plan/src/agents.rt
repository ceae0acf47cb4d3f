//! The agents of a plan and what their lines post.
ghost use Rattle.std.specs.Prelude.{◌≡◌, ◌<◌, ◌^◌, length, IfOk, Some};
ghost use Rattle.wdf_plan.specs.Parts as parts;
ghost use Rattle.wdf_plan.specs.Posts as shares;

use crate::posts::{Posted, posts_in, with_block};
use std::alloc::Global;
use wdf_base::{AgentInfo, Items, MANY, Memory, Name, Post, PostLine};
use wdf_blocks::declaration::Wanted;
use wdf_blocks::placed::Placed;
use wdf_refusals::names::Names;
use wdf_refusals::numbers::{action_of, handle_of, name_number};
use wdf_refusals::part::Part;
use wdf_scene::SceneLine;

fn post_at(number: u32, tick: u64, post: Post) -> Option<PostLine>
    ensures { result ≡ Some (parts.post_at number tick post) }
{
    Some(PostLine {
        tick,
        post,
        line: number,
    })
}

#[tactic(auto, unfolding(crate::specs::Parts::pnp_post))]
fn pnp_post(names: &Names, number: u32, form: &SceneLine) -> Option<PostLine>
    ensures { result ≡ parts.pnp_post names.now number form.now }
{
    match form {
        SceneLine::AtAsk { tick, ask, device } => {
            let device = handle_of(names, device, Wanted::Device);
            post_at(number, *tick, Post::Ask { ask: *ask, device })
        }
        _ => None,
    }
}

#[tactic(auto, unfolding(crate::specs::Parts::app_post))]
fn app_post(names: &Names, number: u32, form: &SceneLine) -> Option<PostLine>
    ensures { result ≡ parts.app_post names.now number form.now }
{
    match form {
        SceneLine::AtRead {
            tick,
            device,
            length,
        } => {
            let device = handle_of(names, device, Wanted::Device);
            post_at(
                number,
                *tick,
                Post::Read {
                    device,
                    length: *length,
                },
            )
        }
        SceneLine::AtWrite {
            tick,
            device,
            length,
        } => {
            let device = handle_of(names, device, Wanted::Device);
            post_at(
                number,
                *tick,
                Post::Write {
                    device,
                    length: *length,
                },
            )
        }
        SceneLine::AtControl {
            tick,
            device,
            code,
            length,
        } => {
            let device = handle_of(names, device, Wanted::Device);
            post_at(
                number,
                *tick,
                Post::Control {
                    device,
                    code: *code,
                    length: *length,
                },
            )
        }
        SceneLine::AtCancel { tick, request } => {
            post_at(number, *tick, Post::Cancel { arrival: *request })
        }
        _ => None,
    }
}

#[tactic(auto, unfolding(crate::specs::Parts::device_post))]
fn device_post(
    names: &Names,
    number: u32,
    device: Option<u32>,
    form: &SceneLine,
) -> Option<PostLine>
    ensures { result ≡ parts.device_post names.now number device form.now }
{
    match form {
        SceneLine::At { tick, action } => {
            let action = action_of(names, device, action);
            post_at(number, *tick, Post::Act { action })
        }
        _ => None,
    }
}

/// The posts of the Plug and Play manager.
#[derive(Drop)]
pub struct PnpPosts<'a> {
    pub names: &'a Names,
}

impl Part for PnpPosts<'_> {
    type Item = PostLine;

    ghost part = { λ s p. parts.pnp_post s.names.now p.number p.form };

    ghost fits = { λ s p. Unit {0} };

    fn take(&self, line: &Placed) -> Result<Option<PostLine>, Memory> {
        Ok(pnp_post(self.names, line.number, &line.form))
    }
}

/// The posts of apps.
#[derive(Drop)]
pub struct AppPosts<'a> {
    pub names: &'a Names,
}

impl Part for AppPosts<'_> {
    type Item = Posted;

    ghost part = { λ s. shares.app_posted s.names.now };

    ghost fits = { λ s p. Unit {0} };

    fn take(&self, line: &Placed) -> Result<Option<Posted>, Memory> {
        let post = app_post(self.names, line.number, &line.form);
        Ok(with_block(line.stand.block, post))
    }
}

/// The posts of devices.
#[derive(Drop)]
pub struct DevicePosts<'a> {
    pub names: &'a Names,
}

impl Part for DevicePosts<'_> {
    type Item = Posted;

    ghost part = { λ s. shares.device_posted s.names.now };

    ghost fits = { λ s p. Unit {0} };

    fn take(&self, line: &Placed) -> Result<Option<Posted>, Memory> {
        let post = device_post(self.names, line.number, line.stand.device, &line.form);
        Ok(with_block(line.stand.block, post))
    }
}

/// The sorts of agents that have posts of their own.
#[derive(Clone, Copy)]
pub enum AgentSort {
    /// Apps.
    App,
    /// Devices, with the lines `at` of their blocks.
    Device,
}

/// The name that a line declares for an agent of this sort.
#[tactic(auto, unfolding(crate::specs::Posts::agent_name))]
fn agent_name(sort: AgentSort, form: &SceneLine) -> Option<Name>
    ensures { result ≡ shares.agent_name sort form.now }
{
    match sort {
        AgentSort::App => match form {
            SceneLine::App { name } => Some(*name),
            _ => None,
        },
        AgentSort::Device => match form {
            SceneLine::Device { name, .. } => Some(*name),
            _ => None,
        },
    }
}

#[tactic(auto, unfolding(crate::specs::Posts::agent_with))]
fn agent_with(
    alloc: Global,
    sort: AgentSort,
    names: &Names,
    posts: &[Posted],
    placed: &Placed,
) -> Result<Option<AgentInfo>, Memory>
    requires { length posts.now < 2 ^ 32 }
    ensures { IfOk result (λ o. o ≡ shares.agent_with sort names.now posts.now placed.now) }
{
    match agent_name(sort, &placed.form) {
        Some(name) => {
            let name = name_number(names, &name);
            let posts = posts_in(alloc, posts, placed.at)?;
            Ok(Some(AgentInfo { name, posts }))
        }
        None => Ok(None),
    }
}

/// The agents of one sort, with their share of the posts of that sort.
#[derive(Drop)]
pub struct Agents<'a> {
    pub alloc: Global,
    pub sort: AgentSort,
    pub names: &'a Names,
    pub posts: &'a Items<Posted, MANY>,
}

impl Part for Agents<'_> {
    type Item = AgentInfo;

    ghost part = { λ s. shares.agent_with s.sort s.names.now s.posts.now };

    ghost fits = { λ s p. Unit {0} };

    fn take(&self, line: &Placed) -> Result<Option<AgentInfo>, Memory> {
        agent_with(
            self.alloc,
            self.sort,
            self.names,
            self.posts.as_slice(),
            line,
        )
    }
}

#[tactic(auto, unfolding(crate::specs::Parts::target_agent))]
fn target_agent(alloc: Global, names: &Names, form: &SceneLine) -> Result<Option<AgentInfo>, Memory>
    ensures { IfOk result (λ o. o ≡ parts.target_agent names.now form.now) }
{
    match form {
        SceneLine::Target { name, .. } => {
            let name = name_number(names, name);
            let posts = Items::new(alloc);
            Ok(Some(AgentInfo { name, posts }))
        }
        _ => Ok(None),
    }
}

/// The targets, as those that post.
#[derive(Drop)]
pub struct Targets<'a> {
    pub alloc: Global,
    pub names: &'a Names,
}

impl Part for Targets<'_> {
    type Item = AgentInfo;

    ghost part = { λ s p. parts.target_agent s.names.now p.form };

    ghost fits = { λ s p. Unit {0} };

    fn take(&self, line: &Placed) -> Result<Option<AgentInfo>, Memory> {
        target_agent(self.alloc, self.names, &line.form)
    }
}
