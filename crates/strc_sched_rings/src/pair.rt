// Splitters and joiners with two ports: their items go straight between three rings.

ghost use Rattle.std.specs.Prelude.{◌≡◌, ◌≢◌, ◌<◌, IfSome, length};
ghost use Rattle.strc_sched_rings.specs.Turns.{times};
ghost use Rattle.strc_sched_rings.specs.Pairs.{IsPair, dealt_to, gathered_from};

use crate::item_moves::move_across;
use crate::movers::ring_of;
use crate::ring::Ring;

/// The rings at a node's two ports, with their weights, and the ring on its other side.
#[derive(Clone, Copy)]
pub struct Pair {
    pub first: usize,
    pub first_weight: u32,
    pub second: usize,
    pub second_weight: u32,
    pub other: usize,
}

/// The rings of a node with two weights, where they are three.
#[inline(always)]
pub fn pair_of(weights: &[u32], ports: &[Option<usize>], other: Option<usize>) -> Option<Pair>
    ensures { IfSome result (IsPair weights.now ports.now other) }
{
    let [first_weight, second_weight] = *weights else {
        return None;
    };
    match (ring_of(ports, 0), ring_of(ports, 1), other) {
        (Some(first), Some(second), Some(other)) if first != other && second != other => {
            Some(Pair {
                first,
                first_weight,
                second,
                second_weight,
                other,
            })
        }
        _ => None,
    }
}

/// One turn of a splitter.
#[inline(always)]
pub fn deal_to(rings: &mut [Ring], pair: Pair)
    requires first { pair.first < length rings.old }
    requires second { pair.second < length rings.old }
    requires other { pair.other < length rings.old }
    requires first_apart { pair.first ≢ pair.other }
    requires second_apart { pair.second ≢ pair.other }
    ensures { rings.new ≡ dealt_to pair rings.old }
{
    move_across(rings, pair.other, pair.first, pair.first_weight as usize);
    move_across(rings, pair.other, pair.second, pair.second_weight as usize);
}

/// So many turns of a joiner.
#[inline(always)]
pub fn gather_from(rings: &mut [Ring], pair: Pair, turns: usize)
    requires first { pair.first < length rings.old }
    requires second { pair.second < length rings.old }
    requires other { pair.other < length rings.old }
    requires first_apart { pair.first ≢ pair.other }
    requires second_apart { pair.second ≢ pair.other }
    ensures { rings.new ≡ times turns (gathered_from pair) rings.old }
{
    for _turn in 0..turns {
        move_across(rings, pair.first, pair.other, pair.first_weight as usize);
        move_across(rings, pair.second, pair.other, pair.second_weight as usize);
    }
}
