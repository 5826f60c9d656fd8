// Rings of toys.

ghost use Rattle.std.specs.Prelude.{◌≡◌, Bool, eqb, None, length, replicate, IfOk};
ghost use Rattle.strc_tests_rings.specs.Toys.{idle_stage, counter};
ghost use Rattle.strc_tests_rings.specs.Views.{idle_view, counter_view};

use crate::collectors::Counter;
use crate::idle_stages::Idle;
use std::alloc::Global;
use strc_lex_names::memory::NoMemory;
use strc_stage_core::{Parcel, Start};
use strc_stage_steps::Pipe;

fn idle(first: bool, rounds: u32, refused: u32) -> Idle
    ensures { idle_view result ≡ idle_stage first rounds 0 None (eqb rounds 0) }
{
    Idle {
        first,
        rounds,
        taken: 0,
        refused,
        stop: None,
        finished: rounds == 0,
    }
}

fn parcels(alloc: Global, count: usize) -> Result<Vec<Parcel>, NoMemory>
    ensures { IfOk result (λ parcels. length parcels.items ≡ count) }
{
    let mut parcels = Vec::new(alloc);
    for _ in 0..count {
        parcels.push(Parcel::new(alloc, &[1], 0))?;
    }
    Ok(parcels)
}

/// Three stages; memory is refused to the second one in this round.
pub fn ring(alloc: Global, rounds: u32, refused: u32) -> Result<Pipe<Idle, Counter>, NoMemory> {
    let stages = vec![in alloc;
        idle(true, rounds, rounds),
        idle(false, rounds, refused),
        idle(false, rounds, rounds),
    ]?;
    let free = parcels(alloc, 6)?;
    let collector = Counter {
        rounds,
        taken: 0,
        gathered: 0,
        stop: None,
        finished: rounds == 0,
    };
    Pipe::new(
        alloc,
        Start {
            stages,
            free,
            collector,
        },
    )
}
