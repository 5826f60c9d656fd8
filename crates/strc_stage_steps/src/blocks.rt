// The blocks of parcels, as a stage wants them.

ghost use Rattle.std.specs.Prelude.{◌≡◌, ◌<◌, length, map, IfOk};
ghost use Rattle.strc_stage_steps.specs.Blocks.{IsFreeFor, blocks_fit, room_of, block_fits};
ghost use Rattle.strc_stage_core.specs.Parcels.{block_at, room_at};

use crate::stage::{Block, StageParts};
use std::alloc::{AllocError, Global};
use strc_sched_outcome::stop::Stop;
use strc_stage_core::Parcel;

/// Has a parcel a block for each of these, with their rooms, and holding what they hold?
pub(crate) fn fit_blocks(blocks: &[Block], parcel: &Parcel) -> bool
    ensures { result ≡ blocks_fit blocks.now parcel.now.load.blocks parcel.now.load.rooms }
{
    if parcel.block_count() != blocks.len() {
        return false;
    }
    for number in 0..blocks.len() {
        if !fit_block(blocks[number], parcel, number) {
            return false;
        }
    }
    true
}

/// Does a block of a parcel fit?
fn fit_block(block: Block, parcel: &Parcel, number: usize) -> bool
    requires { number < length parcel.now.load.blocks }
    ensures { result ≡ block_fits block (block_at parcel.now.load number)
        (room_at parcel.now.load number) }
{
    let wanted = if block.held { block.room } else { 0 };
    block.room <= parcel.room(number) && parcel.block(number).len() == wanted
}

/// A parcel with room for the items of a round.
pub(crate) fn free_parcel(alloc: Global, stage: &StageParts) -> Parcel
    ensures { IsFreeFor stage.now result }
{
    match rooms_of(alloc, &stage.blocks) {
        Ok(rooms) => Parcel::new(alloc, &rooms, stage.tape_count),
        Err(_) => {
            let mut none = Parcel::new(alloc, &[], 0);
            none.set_stop(Stop::NoMemory);
            none
        }
    }
}

/// The rooms of these blocks.
fn rooms_of(alloc: Global, blocks: &[Block]) -> Result<Vec<usize>, AllocError>
    ensures { IfOk result (λ rooms. rooms.items ≡ map room_of blocks.now) }
{
    let mut rooms = Vec::with_capacity(alloc, blocks.len())?;
    for block in blocks {
        rooms.push(block.room)?;
    }
    Ok(rooms)
}
