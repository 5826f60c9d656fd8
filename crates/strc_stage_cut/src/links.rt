// Channels by the stages that they join.

ghost use Rattle.std.specs.Prelude.{◌≡◌, ◌<◌, ◌^◌, IfOk, eqb, map};
ghost use Rattle.strc_stage_steps.specs.CrossingBlocks.{raised};
ghost use Rattle.strc_stage_cut.specs.Links.{is_crossing, is_picked, crossings_in, block_before};
ghost use Rattle.strc_stage_cut.specs.Links.{blocks_in, room_of};

use std::alloc::{AllocError, Global};
use strc_stage_steps::{Block, Crossing};

/// A channel: the stages where it begins and ends, and how many items it carries in a round from
/// the one to the other.
#[derive(Clone, Copy)]
pub struct Link {
    pub from: usize,
    pub to: usize,
    pub room: u32,
}

/// Of a stage the channels that come from others, or those that go there.
#[derive(Clone, Copy)]
pub enum Side {
    Entering,
    Leaving,
}

/// The channels that cross from stage to stage at a side of this one, each with its block.
pub(crate) fn crossings(
    alloc: Global,
    links: &[Link],
    side: Side,
    stage: usize,
) -> Result<Vec<Crossing>, AllocError>
    ensures { IfOk result (λ crossings. crossings.items
        ≡ crossings_in side stage 0 0 links.now) }
{
    let mut crossings = Vec::new(alloc);
    let mut block = 0;
    for ring in 0..links.len() {
        let link = links[ring];
        if picked(link, side, stage) {
            crossings.push(Crossing { block, ring })?;
        }
        block = next_block(block, crosses(link));
    }
    Ok(crossings)
}

/// Whether a channel's ends lie in different stages.
fn crosses(link: Link) -> bool
    ensures { result ≡ is_crossing link }
{
    link.from != link.to
}

/// Whether such a channel is at a side of a stage.
fn picked(link: Link, side: Side, stage: usize) -> bool
    ensures { result ≡ is_picked side stage link }
{
    let end = match side {
        Side::Entering => link.to,
        Side::Leaving => link.from,
    };
    crosses(link) && end == stage
}

/// The block after that of a channel, if this one has any.
fn next_block(block: usize, crosses: bool) -> usize
    requires { block < 2 ^ 63 }
    ensures { result ≡ raised crosses block }
{
    if crosses { block + 1 } else { block }
}

/// What a parcel is to have before a stage: a block for each channel that crosses.
pub(crate) fn blocks(alloc: Global, links: &[Link], stage: usize) -> Result<Vec<Block>, AllocError>
    ensures { IfOk result (λ blocks. blocks.items ≡ blocks_in stage links.now) }
{
    let mut blocks = Vec::new(alloc);
    for number in 0..links.len() {
        let link = links[number];
        if crosses(link) {
            blocks.push(block_of(link, stage))?;
        }
    }
    Ok(blocks)
}

/// A block holds the items of a round from the stage after that where its channel begins, up to
/// that where it ends.
fn block_of(link: Link, stage: usize) -> Block
    ensures { result ≡ block_before stage link }
{
    Block {
        room: link.room as usize,
        held: link.from < stage && stage <= link.to,
    }
}

/// How many items each channel carries in a round from stage to stage.
pub(crate) fn rooms(alloc: Global, links: &[Link]) -> Result<Vec<u32>, AllocError>
    ensures { IfOk result (λ rooms. rooms.items ≡ map room_of links.now) }
{
    let mut rooms = Vec::with_capacity(alloc, links.len())?;
    for link in links {
        rooms.push(link.room)?;
    }
    Ok(rooms)
}
