// A firing of a scatter: each copy is given the windows of its firings in a round.

ghost use Rattle.std.specs.Prelude.{◌≡◌, ◌≢◌, ◌<◌, ◌*◌, [], ◌∷◌, IfSome, Some, take, drop, length};
ghost use Rattle.strc_elab_graph.specs.Rates as rates;
ghost use Rattle.strc_sched_laws.specs.Rings as spec;
ghost use Rattle.strc_sched_laws.specs.Rings.{items_at};
ghost use Rattle.strc_sched_laws.specs.Steps as steps;
ghost use Rattle.strc_sched_rings.specs.Answers.{AreRings, MovesBy};

use crate::item_moves::extend;
use crate::movers::ring_of;
use crate::ring::{Ring, count_at, first_of, rest_of, take_from};
use strc_elab_graph::graph::Fission;

/// Where the windows of a round's firings lie.
#[derive(Clone, Copy)]
struct Spans {
    /// From a copy's first item to the next one's: what its firings pop.
    step: u64,
    /// How many items the windows of a copy span.
    part: u64,
    /// How many items all firings pop.
    pops: u128,
    /// How many items all windows span.
    all: u128,
}

/// The spans of a round.
fn spans_of(fission: &Fission) -> Spans
    ensures step { result.step ≡ fission.now.firings * fission.now.pop }
    ensures part { result.part ≡ rates.reach fission.now fission.now.firings }
    ensures pops { result.pops ≡ rates.round_pops fission.now }
    ensures all { result.all ≡ rates.reach fission.now (fission.now.ways * fission.now.firings) }
{
    let step = u64::from(fission.firings) * u64::from(fission.pop);
    let past = fission.window.saturating_sub(fission.pop);
    let pops = u128::from(fission.ways) * u128::from(step);
    Spans {
        step,
        part: step + u64::from(past),
        pops,
        all: pops + u128::from(past),
    }
}

/// One firing of a scatter. Whether it found the windows of a round; if not, it leaves all as it
/// was.
pub fn fire_scatter(
    rings: &mut [Ring],
    fission: &Fission,
    input: Option<usize>,
    outputs: &[Option<usize>],
) -> bool
    requires input { IfSome input (λ number. number < length rings.old) }
    requires outputs { AreRings (length rings.old) outputs.now }
    ensures rings { length rings.new ≡ length rings.old }
    ensures step { MovesBy (steps.scatter_step fission.now input outputs.now rings.old) result
        rings.old rings.new }
{
    let spans = spans_of(fission);
    if (count_at(rings, input) as u128) < spans.all {
        return false;
    }
    for port in 0..fission.ways as usize {
        let start = port * spans.step as usize;
        give_part(
            rings,
            input,
            ring_of(outputs, port),
            start,
            spans.part as usize,
        );
    }
    take_from(rings, input, spans.pops as usize);
    true
}

/// So many items of the ring at a port, from a place on, join that at another one, and stay.
fn give_part(rings: &mut [Ring], from: Option<usize>, to: Option<usize>, start: usize, count: usize)
    requires from { IfSome from (λ number. number < length rings.old) }
    requires to { IfSome to (λ number. number < length rings.old) }
    ensures { rings.new ≡ spec.given to (take count (drop start (items_at rings.old from)))
        rings.old }
{
    let (Some(source), Some(target)) = (from, to) else {
        return;
    };
    if source == target {
        repeat_part(&mut rings[source], start, count);
    } else {
        give_across(rings, source, target, start, count);
    }
}

/// So many items of a ring, from a place on, join its own end.
#[inline(never)]
fn repeat_part(ring: &mut Ring, start: usize, count: usize)
    ensures { ring.new ≡ spec.extended (take count (drop start ring.old.items)) ring.old }
{
    for turn in 0..count.min(ring.len().saturating_sub(start)) {
        repeat_item(ring, start + turn);
    }
}

/// The item at a place of a ring joins its end.
fn repeat_item(ring: &mut Ring, place: usize)
    ensures { ring.new ≡ spec.extended (take 1 (drop place ring.old.items)) ring.old }
{
    if let Some(item) = ring.get(place).copied() {
        push_one(ring, item);
    }
}

/// An item joins a ring, where there is room for it.
fn push_one(ring: &mut Ring, item: i32)
    ensures { ring.new ≡ spec.extended (item ∷ []) ring.old }
{
    let _refused = ring.try_push_back(item);
}

/// So many items of a ring, from a place on, join another one.
fn give_across(rings: &mut [Ring], source: usize, target: usize, start: usize, count: usize)
    requires source { source < length rings.old }
    requires target { target < length rings.old }
    requires apart { source ≢ target }
    ensures { rings.new ≡ spec.given (Some target) (take count (drop start
        (items_at rings.old (Some source)))) rings.old }
{
    if source < target {
        let (low, high) = rings.split_at_mut(target);
        pour_part(&low[source], &mut high[0], start, count);
    } else {
        let (low, high) = rings.split_at_mut(source);
        pour_part(&high[0], &mut low[target], start, count);
    }
}

/// So many items of one ring, from a place on, join another one, piece by piece as the first has
/// them.
fn pour_part(source: &Ring, target: &mut Ring, start: usize, count: usize)
    ensures { target.new ≡ spec.extended (take count (drop start source.now.items)) target.old }
{
    let (front, back) = source.as_slices();
    let head = first_of(rest_of(front, start), count);
    let tail = rest_of(back, start.saturating_sub(front.len()));
    extend(target, head);
    extend(target, first_of(tail, count - head.len()));
}
