// The memory of a parcel.

ghost use Rattle.std.specs.Prelude.{◌≡◌, [], map, length, replicate, IfOk};
ghost use Rattle.std.specs.Vec.{vec_items, vec_capacity};

use std::alloc::{AllocError, Global};
use strc_work_meaning::word::Word;

/// An empty block with each of these rooms.
pub(crate) fn blocks_with(alloc: Global, rooms: &[usize]) -> Result<Vec<Vec<i32>>, AllocError>
    ensures blocks { IfOk result (λ blocks. map vec_items blocks.items
        ≡ replicate (length rooms.now) []) }
    ensures rooms { IfOk result (λ blocks. map vec_capacity blocks.items ≡ rooms.now) }
{
    let mut blocks = Vec::with_capacity(alloc, rooms.len())?;
    for room in rooms {
        blocks.push(Vec::with_capacity(alloc, *room)?)?;
    }
    Ok(blocks)
}

/// No words for each of so many tapes.
pub(crate) fn words_of(alloc: Global, tapes: usize) -> Result<Vec<Vec<Word>>, AllocError>
    ensures { IfOk result (λ words. map vec_items words.items ≡ replicate tapes []) }
{
    let mut words = Vec::with_capacity(alloc, tapes)?;
    for _ in 0..tapes {
        words.push(Vec::new(alloc))?;
    }
    Ok(words)
}
