// A firing of a copy of an identity.

ghost use Rattle.std.specs.Prelude.{◌≡◌, ◌<◌, [], IfSome, length};
ghost use Rattle.strc_elab_graph.specs.Graphs as graphs;
ghost use Rattle.strc_elab_graph.specs.Rates as rates;
ghost use Rattle.strc_sched_laws.specs.Steps as steps;
ghost use Rattle.strc_sched_rings.specs.Answers.{MovesBy};

use crate::ring::{Ring, copy_front, count_at, give_to, take_from};
use strc_elab_graph::graph::Fission;

/// How many items a copy takes: all that it looks at with its last firing of a round.
#[inline]
pub fn copy_pops(fission: &Fission, firing: u64) -> u32
    ensures { result ≡ rates.copy_pops fission.now firing }
{
    let firings = u64::from(fission.firings);
    if firings > 0 && firing % firings + 1 == firings {
        fission.window
    } else {
        fission.pop
    }
}

/// One firing of a copy of an identity, by its number: it gives an item.
pub fn fire_identity_copy(
    rings: &mut [Ring],
    fission: &Fission,
    firing: u64,
    input: Option<usize>,
    output: Option<usize>,
) -> bool
    requires input { IfSome input (λ number. number < length rings.old) }
    requires output { IfSome output (λ number. number < length rings.old) }
    ensures rings { length rings.new ≡ length rings.old }
    ensures step { MovesBy (steps.copy_step graphs.OfIdentity fission.now firing [] input output
        rings.old) result rings.old rings.new }
{
    if count_at(rings, input) == 0 {
        return false;
    }
    let mut item = [0];
    copy_front(rings, input, &mut item);
    take_from(rings, input, copy_pops(fission, firing) as usize);
    give_to(rings, output, &item);
    true
}
