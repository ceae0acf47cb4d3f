//! The posts of all lines, each with its block, so that no agent looks at the lines of another.
ghost use Rattle.std.specs.Prelude.{◌≡◌, ◌<◌, ◌^◌, length, IfOk};
ghost use Rattle.std.specs.List.{filter_map};
ghost use Rattle.wdf_plan.specs.Posts as spec;

use std::alloc::Global;
use wdf_base::{Items, MANY, Memory, PostLine};
use wdf_blocks::declaration::same_line;
use wdf_refusals::numbers::add_found;

/// A post, and the line of the block in which it is.
#[derive(Clone, Copy)]
pub struct Posted {
    pub block: Option<u32>,
    pub post: PostLine,
}

/// A post with the block of its line.
#[tactic(auto, unfolding(crate::specs::Posts::posted))]
pub fn with_block(block: Option<u32>, post: Option<PostLine>) -> Option<Posted>
    ensures { result ≡ spec.posted block post }
{
    match post {
        Some(post) => Some(Posted { block, post }),
        None => None,
    }
}

#[tactic(auto, unfolding(crate::specs::Posts::post_in))]
fn post_in(posted: &Posted, block: u32) -> Option<PostLine>
    ensures { result ≡ spec.post_in block posted.now }
{
    if same_line(posted.block, Some(block)) {
        Some(posted.post)
    } else {
        None
    }
}

/// The posts of one block, in the order of their lines.
pub fn posts_in(alloc: Global, all: &[Posted], block: u32) -> Result<Items<PostLine, MANY>, Memory>
    requires { length all.now < 2 ^ 32 }
    ensures { IfOk result (λ v. v ≡ filter_map (spec.post_in block) all.now) }
{
    let mut posts = Items::new(alloc);
    for posted in all {
        add_found(&mut posts, post_in(posted, block))?;
    }
    Ok(posts)
}
