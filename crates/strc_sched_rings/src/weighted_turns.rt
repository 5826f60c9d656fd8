// Turns of a splitter that deals by weights, or of a joiner, all at once.

ghost use Rattle.std.specs.Prelude.{◌≡◌, ◌≤◌, ◌<◌, ◌*◌, IfSome, length, sum, true};
ghost use Rattle.strc_sched_laws.specs.Rings as spec;
ghost use Rattle.strc_sched_laws.specs.Rings.{at_port, dealt_out, gathered_in, items_at};
ghost use Rattle.strc_sched_rings.specs.Answers.{AreRings};
ghost use Rattle.strc_sched_rings.specs.Apart.{AreApart};
ghost use Rattle.strc_sched_rings.specs.Turns.{FindsCycles, HasTurned};
ghost use Rattle.strc_sched_rings.specs.Turns.{firsts, spread_out, times};

use crate::item_moves::extend;
use crate::movers::{cycle_length, fire_roundrobin, gather, ring_of};
use crate::pair::{gather_from, pair_of};
use crate::ring::{Ring, copy_front, count_at, first_of, rest_of, take_from};

/// So many cycles of items.
#[derive(Clone, Copy)]
pub struct Cycles {
    count: usize,
    /// How many items one is.
    length: usize,
    /// How many they are together.
    items: usize,
}

/// So many cycles of weights, where so many items are there for them.
fn cycles_within(weights: &[u32], count: usize, held: usize) -> Option<Cycles>
    ensures count { IfSome result (λ cycles. cycles.count ≡ count) }
    ensures length { IfSome result (λ cycles. cycles.length ≡ sum weights.now) }
    ensures items { IfSome result (λ cycles. cycles.items ≡ cycles.count * cycles.length) }
    ensures within { IfSome result (λ cycles. cycles.items ≤ held) }
{
    let length = cycle_length(weights);
    if length > held as u128 {
        return None;
    }
    let length = length as usize;
    match count.checked_mul(length) {
        Some(items) if items <= held => Some(Cycles {
            count,
            length,
            items,
        }),
        _ => None,
    }
}

/// So many turns of a splitter, where its ring holds their items and there is room for them on
/// their way: whether it is so. If not, it leaves all as it was. Items of a single turn go straight
/// to each port.
pub fn deal_turns(
    rings: &mut [Ring],
    weights: &[u32],
    turns: usize,
    inputs: &[Option<usize>],
    outputs: &[Option<usize>],
    items: &mut [i32],
) -> bool
    requires inputs { AreRings (length rings.old) inputs.now }
    requires outputs { AreRings (length rings.old) outputs.now }
    requires apart { AreApart inputs.now outputs.now }
    ensures rings { length rings.new ≡ length rings.old }
    ensures dealt { HasTurned (turns * sum weights.now
        ≤ length (items_at rings.old (at_port inputs.now 0))) turns
        (dealt_out weights.now (at_port inputs.now 0) outputs.now 0) result rings.old rings.new }
{
    if turns == 1 {
        return fire_roundrobin(rings, weights, ring_of(inputs, 0), outputs);
    }
    let held = count_at(rings, ring_of(inputs, 0)).min(items.len());
    let Some(cycles) = cycles_within(weights, turns, held) else {
        return false;
    };
    deal_cycles(
        rings,
        weights,
        cycles,
        inputs,
        outputs,
        &mut items[..cycles.items],
    );
    true
}

/// So many turns of a joiner, where its rings hold their items: whether they do. If not, it leaves
/// all as it was.
pub fn join_turns(
    rings: &mut [Ring],
    weights: &[u32],
    turns: usize,
    inputs: &[Option<usize>],
    outputs: &[Option<usize>],
) -> bool
    requires inputs { AreRings (length rings.old) inputs.now }
    requires outputs { AreRings (length rings.old) outputs.now }
    ensures rings { length rings.new ≡ length rings.old }
    ensures joined { HasTurned (FindsCycles turns weights.now inputs.now rings.old) turns
        (gathered_in weights.now inputs.now (at_port outputs.now 0) 0) result rings.old rings.new }
{
    if !have_cycles(rings, weights, turns, inputs) {
        return false;
    }
    let output = ring_of(outputs, 0);
    if let Some(pair) = pair_of(weights, inputs, output) {
        gather_from(rings, pair, turns);
        return true;
    }
    for _turn in 0..turns {
        gather(rings, weights, inputs, output);
    }
    true
}

/// Whether each port holds the items of so many cycles.
fn have_cycles(rings: &[Ring], weights: &[u32], count: usize, inputs: &[Option<usize>]) -> bool
    requires inputs { AreRings (length rings.now) inputs.now }
    ensures { result ≡ true → FindsCycles count weights.now inputs.now rings.now }
{
    for port in 0..weights.len() {
        match count.checked_mul(weights[port] as usize) {
            Some(wanted) if wanted <= count_at(rings, ring_of(inputs, port)) => {}
            _ => return false,
        }
    }
    true
}

/// So many turns of a splitter, whose ring holds their items: each port gets its items in a row.
fn deal_cycles(
    rings: &mut [Ring],
    weights: &[u32],
    cycles: Cycles,
    inputs: &[Option<usize>],
    outputs: &[Option<usize>],
    items: &mut [i32],
)
    requires inputs { AreRings (length rings.old) inputs.now }
    requires outputs { AreRings (length rings.old) outputs.now }
    requires apart { AreApart inputs.now outputs.now }
    requires length { cycles.length ≡ sum weights.now }
    requires items { cycles.items ≡ cycles.count * cycles.length }
    requires enough { cycles.items ≤ length (items_at rings.old (at_port inputs.now 0)) }
    requires room { length items.old ≡ cycles.items }
    ensures rings { length rings.new ≡ length rings.old }
    ensures dealt { rings.new ≡ times cycles.count
        (dealt_out weights.now (at_port inputs.now 0) outputs.now 0) rings.old }
{
    let input = ring_of(inputs, 0);
    copy_front(rings, input, items);
    take_from(rings, input, cycles.items);
    spread(rings, weights, cycles, outputs, items);
}

/// Each port gets its items of each cycle.
fn spread(
    rings: &mut [Ring],
    weights: &[u32],
    cycles: Cycles,
    outputs: &[Option<usize>],
    items: &[i32],
)
    requires outputs { AreRings (length rings.old) outputs.now }
    ensures { rings.new ≡ spread_out weights.now outputs.now cycles.count cycles.length items.now 0
        rings.old }
{
    let mut left = items;
    for port in 0..weights.len() {
        let weight = weights[port] as usize;
        if let Some(number) = ring_of(outputs, port) {
            extend_by_cycles(&mut rings[number], left, weight, cycles);
        }
        left = rest_of(left, weight);
    }
}

/// The first items of each cycle join a ring.
fn extend_by_cycles(ring: &mut Ring, items: &[i32], weight: usize, cycles: Cycles)
    ensures { ring.new ≡ spec.extended (firsts cycles.count weight cycles.length items.now)
        ring.old }
{
    let mut left = items;
    for _cycle in 0..cycles.count {
        extend(ring, first_of(left, weight));
        left = rest_of(left, cycles.length);
    }
}
