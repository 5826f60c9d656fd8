// Firings of the nodes that only pass items on: identities, readers, writers, splitters, joiners.
// Each tells whether it found its windows; if not, it leaves all as it was.

ghost use Rattle.std.specs.Prelude.{◌≡◌, ◌<◌, [], IfSome, length, sum, true};
ghost use Rattle.strc_elab_graph.specs.NodeView.{splitter_view};
ghost use Rattle.strc_sched_laws.specs.Rings as spec;
ghost use Rattle.strc_sched_laws.specs.Rings.{at_port};
ghost use Rattle.strc_sched_laws.specs.Steps as steps;
ghost use Rattle.strc_sched_rings.specs.Answers.{AreRings, HasStepped, MovesBy};
ghost use Rattle.strc_sched_rings.specs.Words.{WantsWordOfStep};

use crate::pair::{deal_to, pair_of};
use crate::ring::{Ring, copy_front, count_at, give_to, move_items, take_from};
use strc_elab_graph::graph::Splitter;
use strc_work_meaning::fault::Halt;
use strc_work_meaning::word::Word;

/// The ring at a port; none where the node has no such port.
pub fn ring_of(ports: &[Option<usize>], port: usize) -> Option<usize>
    ensures { result ≡ at_port ports.now port }
{
    if port < ports.len() {
        ports[port]
    } else {
        None
    }
}

/// One firing of an identity.
pub fn fire_identity(rings: &mut [Ring], input: Option<usize>, output: Option<usize>) -> bool
    requires input { IfSome input (λ number. number < length rings.old) }
    requires output { IfSome output (λ number. number < length rings.old) }
    ensures rings { length rings.new ≡ length rings.old }
    ensures step { MovesBy (steps.identity_step input output rings.old) result rings.old rings.new }
{
    if count_at(rings, input) == 0 {
        return false;
    }
    move_items(rings, input, output, 1);
    true
}

/// One firing of a reader, by its number: it gives the item of that number.
pub fn fire_reader(rings: &mut [Ring], firing: u64, output: Option<usize>, input: &[i32]) -> bool
    requires output { IfSome output (λ number. number < length rings.old) }
    ensures rings { length rings.new ≡ length rings.old }
    ensures step { MovesBy (steps.reader_step firing output input.now rings.old) result rings.old
        rings.new }
{
    if firing >= input.len() as u64 {
        return false;
    }
    let place = firing as usize;
    give_to(rings, output, &input[place..place + 1]);
    true
}

/// One firing of a writer: a line for an item.
pub fn fire_writer(
    rings: &mut [Ring],
    input: Option<usize>,
    words: &mut Vec<Word>,
) -> Result<bool, Halt>
    requires input { IfSome input (λ number. number < length rings.old) }
    ensures rings { length rings.new ≡ length rings.old }
    ensures step { HasStepped (steps.writer_step input rings.old) result [] [] rings.old rings.new
        words.old.items words.new.items }
    ensures memory { WantsWordOfStep true (steps.writer_step input rings.old) result }
{
    let Some(number) = input else {
        return Ok(false);
    };
    let Some(item) = rings[number].front() else {
        return Ok(false);
    };
    let word = Word {
        value: *item,
        ends_line: true,
    };
    if words.push(word).is_err() {
        return Err(Halt::NoMemory);
    }
    take_from(rings, input, 1);
    Ok(true)
}

/// One firing of a splitter.
pub fn fire_splitter(
    rings: &mut [Ring],
    splitter: &Splitter,
    input: Option<usize>,
    outputs: &[Option<usize>],
) -> bool
    requires input { IfSome input (λ number. number < length rings.old) }
    requires outputs { AreRings (length rings.old) outputs.now }
    ensures rings { length rings.new ≡ length rings.old }
    ensures step { MovesBy (steps.splitter_step (splitter_view splitter.now) input outputs.now
        rings.old) result rings.old rings.new }
{
    match splitter {
        Splitter::Duplicate(carried) => fire_duplicate(rings, carried, input, outputs),
        Splitter::Roundrobin(weights) => fire_roundrobin(rings, weights, input, outputs),
    }
}

/// One firing of a duplicating splitter: each port that carries items gets the item.
fn fire_duplicate(
    rings: &mut [Ring],
    carried: &[bool],
    input: Option<usize>,
    outputs: &[Option<usize>],
) -> bool
    requires input { IfSome input (λ number. number < length rings.old) }
    requires outputs { AreRings (length rings.old) outputs.now }
    ensures rings { length rings.new ≡ length rings.old }
    ensures step { MovesBy (steps.duplicate_step carried.now input outputs.now rings.old) result
        rings.old rings.new }
{
    if count_at(rings, input) == 0 {
        return false;
    }
    let mut item = [0];
    copy_front(rings, input, &mut item);
    take_from(rings, input, 1);
    copy_out(rings, carried, outputs, &item);
    true
}

/// Items go to each port that carries items.
fn copy_out(rings: &mut [Ring], carried: &[bool], outputs: &[Option<usize>], items: &[i32])
    requires outputs { AreRings (length rings.old) outputs.now }
    ensures { rings.new ≡ spec.copied_out carried.now outputs.now items.now 0 rings.old }
{
    for port in 0..carried.len() {
        if carried[port] {
            give_to(rings, ring_of(outputs, port), items);
        }
    }
}

/// One firing of a round-robin splitter: each port gets as many items as its weight, in turn.
pub fn fire_roundrobin(
    rings: &mut [Ring],
    weights: &[u32],
    input: Option<usize>,
    outputs: &[Option<usize>],
) -> bool
    requires input { IfSome input (λ number. number < length rings.old) }
    requires outputs { AreRings (length rings.old) outputs.now }
    ensures rings { length rings.new ≡ length rings.old }
    ensures step { MovesBy (steps.roundrobin_step weights.now input outputs.now rings.old) result
        rings.old rings.new }
{
    if (count_at(rings, input) as u128) < cycle_length(weights) {
        return false;
    }
    if let Some(pair) = pair_of(weights, outputs, input) {
        deal_to(rings, pair);
        return true;
    }
    for port in 0..weights.len() {
        move_items(rings, input, ring_of(outputs, port), weights[port] as usize);
    }
    true
}

/// How many items a splitter deals in turn: all weights together.
pub fn cycle_length(weights: &[u32]) -> u128
    ensures length { result ≡ sum weights.now }
{
    let mut length: u128 = 0;
    for weight in weights {
        length += u128::from(*weight);
    }
    length
}

/// One firing of a joiner.
pub fn fire_joiner(
    rings: &mut [Ring],
    weights: &[u32],
    inputs: &[Option<usize>],
    output: Option<usize>,
) -> bool
    requires inputs { AreRings (length rings.old) inputs.now }
    requires output { IfSome output (λ number. number < length rings.old) }
    ensures rings { length rings.new ≡ length rings.old }
    ensures step { MovesBy (steps.joiner_step weights.now inputs.now output rings.old) result
        rings.old rings.new }
{
    if !have_weights(rings, weights, inputs) {
        return false;
    }
    gather(rings, weights, inputs, output);
    true
}

/// As many items of each port as its weight, in turn, go to a port.
pub fn gather(rings: &mut [Ring], weights: &[u32], inputs: &[Option<usize>], output: Option<usize>)
    requires inputs { AreRings (length rings.old) inputs.now }
    requires output { IfSome output (λ number. number < length rings.old) }
    ensures rings { length rings.new ≡ length rings.old }
    ensures gathered { rings.new ≡ spec.gathered_in weights.now inputs.now output 0 rings.old }
{
    for port in 0..weights.len() {
        move_items(rings, ring_of(inputs, port), output, weights[port] as usize);
    }
}

/// Whether each port holds as many items as its weight.
fn have_weights(rings: &[Ring], weights: &[u32], inputs: &[Option<usize>]) -> bool
    requires inputs { AreRings (length rings.now) inputs.now }
    ensures { result ≡ steps.finds_weights weights.now inputs.now 0 rings.now }
{
    for port in 0..weights.len() {
        if count_at(rings, ring_of(inputs, port)) < weights[port] as usize {
            return false;
        }
    }
    true
}
