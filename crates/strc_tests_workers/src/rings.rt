// Rings of a program's stages, on one thread.

use crate::dice::{Bent, Dice};
use crate::programs::Case;
use std::alloc::Global;
use std::test::Fail;
use strc_stage::pipe::Pipe;
use strc_stage_cut::cut;
use strc_stage_steps::Event;

/// A case after start-up, cut into stages for so many workers.
pub fn begin(alloc: Global, case: &Case<'_>, workers: u32) -> Result<Pipe, Fail> {
    if case.plan.graph().nodes().is_empty() || workers == 0 {
        return Err("nothing to begin with".into());
    }
    let stages = cut(alloc, &case.plan, workers)?;
    Ok(Pipe::new(alloc, stages, &case.input, case.rounds)?)
}

/// How many of so many random events happen, of actors below this one. An event that has happened
/// isn't allowed again: the actor's hand is full, or it is empty.
pub fn random_events(
    alloc: Global,
    pipe: &mut Pipe,
    dice: &mut Dice,
    bent: Bent,
    actors: usize,
    most: u32,
) -> Result<u32, Fail> {
    let mut count = 0u32;
    for _ in 0..most {
        let actor = dice.bent_below(actors, bent);
        let event = if dice.below(2) == 0 {
            Event::Take(actor)
        } else {
            Event::Give(actor)
        };
        if pipe.event(alloc, event) {
            count = count.wrapping_add(1);
            if pipe.event(alloc, event) {
                return Err("an event happened twice".into());
            }
        }
    }
    Ok(count)
}
