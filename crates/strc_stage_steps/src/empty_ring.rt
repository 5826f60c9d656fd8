// The links and hands of a ring before any event.

ghost use Rattle.std.specs.Prelude.{◌≡◌, ◌++◌, ◌∷◌, [], None, replicate, IfOk};
ghost use Rattle.strc_stage_core.specs.Moves.{queues};

use std::alloc::Global;
use strc_lex_names::memory::NoMemory;
use strc_stage_core::Parcel;

/// So many empty links, and then this one.
pub(crate) fn links_before(
    alloc: Global,
    count: usize,
    last: Vec<Parcel>,
) -> Result<Vec<Vec<Parcel>>, NoMemory>
    ensures { IfOk result (λ links. queues links.items ≡ replicate count [] ++ last.items ∷ []) }
{
    let mut links = Vec::new(alloc);
    for _ in 0..count {
        links.push(Vec::new(alloc))?;
    }
    links.push(last)?;
    Ok(links)
}

/// So many empty hands, and then one more.
pub(crate) fn empty_hands(alloc: Global, count: usize) -> Result<Vec<Option<Parcel>>, NoMemory>
    ensures { IfOk result (λ hands. hands.items ≡ replicate count None ++ None ∷ []) }
{
    let mut hands = Vec::new(alloc);
    for _ in 0..count {
        hands.push(None)?;
    }
    hands.push(None)?;
    Ok(hands)
}
