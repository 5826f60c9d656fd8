// A firing of a gather: what the copies push in a round, one copy after another.

ghost use Rattle.std.specs.Prelude.{◌≡◌, ◌<◌, IfSome, length, replicate};
ghost use Rattle.strc_sched_laws.specs.Rings as spec;
ghost use Rattle.strc_sched_laws.specs.Steps as steps;
ghost use Rattle.strc_sched_rings.specs.Answers.{AreRings, MovesBy};

use crate::movers::ring_of;
use crate::ring::{Ring, count_at, move_items};
use strc_elab_graph::graph::Fission;

/// One firing of a gather. Whether each copy has pushed its items; if not, it leaves all as it was.
pub fn fire_gather(
    rings: &mut [Ring],
    fission: &Fission,
    inputs: &[Option<usize>],
    output: Option<usize>,
) -> bool
    requires inputs { AreRings (length rings.old) inputs.now }
    requires output { IfSome output (λ number. number < length rings.old) }
    ensures rings { length rings.new ≡ length rings.old }
    ensures step { MovesBy (steps.gather_step fission.now inputs.now output rings.old) result
        rings.old rings.new }
{
    let share = fission.firings as usize * fission.push as usize;
    if !have_shares(rings, inputs, fission.ways, share) {
        return false;
    }
    gather_shares(rings, inputs, fission.ways, share, output);
    true
}

/// Whether each of so many ports holds so many items.
fn have_shares(rings: &[Ring], inputs: &[Option<usize>], ways: u32, share: usize) -> bool
    requires inputs { AreRings (length rings.now) inputs.now }
    ensures { result ≡ steps.finds_weights (replicate ways share) inputs.now 0 rings.now }
{
    for port in 0..ways as usize {
        if count_at(rings, ring_of(inputs, port)) < share {
            return false;
        }
    }
    true
}

/// So many items of each of so many ports, in turn, go to a port.
fn gather_shares(
    rings: &mut [Ring],
    inputs: &[Option<usize>],
    ways: u32,
    share: usize,
    output: Option<usize>,
)
    requires inputs { AreRings (length rings.old) inputs.now }
    requires output { IfSome output (λ number. number < length rings.old) }
    ensures rings { length rings.new ≡ length rings.old }
    ensures gathered { rings.new ≡ spec.gathered_in (replicate ways share) inputs.now output 0
        rings.old }
{
    for port in 0..ways as usize {
        move_items(rings, ring_of(inputs, port), output, share);
    }
}
