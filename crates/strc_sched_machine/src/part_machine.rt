// A machine of a part of the nodes, taken out of one that has them all.

ghost use Rattle.std.specs.Prelude.{◌≡◌, ℕ, ◌<◌, ◌≤◌, [], false, length, map, replicate};
ghost use Rattle.std.specs.Prelude.{slice_index_or, IfErr, IfOk, OnOk};
ghost use Rattle.strc_elab_graph.specs.NodeView.{channel_view, graph_view};
ghost use Rattle.strc_sched_rings.specs.Circuits.{circuit_view};
ghost use Rattle.strc_sched_rings.specs.Parts as range;
ghost use Rattle.strc_sched_rings.specs.Parts.{IsPartCircuit};
ghost use Rattle.strc_sched_machine.specs.Parts as spec;
ghost use Rattle.strc_sched_machine.specs.Parts.{AreMarks, HasChosen, HoldsFrom, IsPart, IsRest};
ghost use Rattle.strc_sched_machine.specs.Parts.{chosen, empty_rings, ends_within};
ghost use Rattle.strc_sched_machine.specs.Running.{IsMachine, machine_view, words_of};
ghost use Rattle.strc_sched_machine.specs.declared.actor.Actor.TheVariants as actor;

use crate::actor::Actor;
use crate::machine::{Machine, no_words};
use circular_buffer::HeapCircularBuffer;
use std::alloc::{AllocError, Global};
use std::mem;
use strc_elab_graph::graph::{Channel, Graph};
use strc_lex_names::memory::NoMemory;
use strc_sched_rings::circuit::Circuit;
use strc_sched_rings::range::is_within;
use strc_sched_rings::ring::Ring;

impl Machine {
    /// A machine for the circuit of the nodes from `first` up to `next`, not including it. What
    /// these nodes keep, and the rings of the channels that end at them, go there; a channel that
    /// begins at one of them and ends at none has an empty ring there, with the room given for it.
    pub fn take_part(
        &mut self,
        alloc: Global,
        graph: &Graph,
        own: &Circuit,
        first: usize,
        next: usize,
        rooms: &[u32],
    ) -> Result<Machine, NoMemory>
        requires own { IsPartCircuit (graph_view graph.now) first next (circuit_view own.now) }
        requires bounds { first ≤ next }
        requires holds { HoldsFrom (graph_view graph.now) first self.old }
        ensures machine { IfOk result (IsMachine (circuit_view own.now)) }
        ensures part { IfOk result (λ part. IsPart (graph_view graph.now) first next rooms.now
            (machine_view self.old) (machine_view part)) }
        ensures rest { OnOk result (IsRest (graph_view graph.now) next (machine_view self.old)
            (machine_view self.new)) }
        ensures holds { OnOk result (HoldsFrom (graph_view graph.now) next self.new) }
        ensures refused { IfErr result (λ _. self.new ≡ self.old) }
    {
        let nodes = nodes_within(alloc, own.nodes.len(), first, next)?;
        let channels = channels_within(alloc, graph.channels(), first, next)?;
        let rings = parted_rings(alloc, graph.channels(), first, next, rooms)?;
        let room = greatest_room(&self.rings).max(greatest_room(&rings));
        let mut part = empty_part(alloc, own.nodes.len(), rings, room)?;
        exchange(&mut part, self, &nodes, &channels);
        Ok(part)
    }
}

/// For each of so many nodes whether it is one of them.
fn nodes_within(
    alloc: Global,
    count: usize,
    first: usize,
    next: usize,
) -> Result<Vec<bool>, AllocError>
    ensures each { IfOk result (λ marks. length marks.items ≡ count) }
    ensures marks { IfOk result (λ marks. (node : ℕ) → node < count
        → slice_index_or marks.items node false ≡ range.is_within first next node) }
{
    let mut marks = Vec::with_capacity(alloc, count)?;
    for node in 0..count {
        marks.push(is_within(first, next, node))?;
    }
    Ok(marks)
}

/// For each channel whether it ends at one of them.
fn channels_within(
    alloc: Global,
    channels: &[Channel],
    first: usize,
    next: usize,
) -> Result<Vec<bool>, AllocError>
    ensures { IfOk result (λ marks. marks.items ≡ map (ends_within first next) channels.now) }
{
    let mut marks = Vec::with_capacity(alloc, channels.len())?;
    for channel in channels {
        marks.push(is_within(first, next, channel.target.node as usize))?;
    }
    Ok(marks)
}

/// An empty ring for each channel: with the room given for it where it begins at one of them and
/// ends at none, with no room elsewhere.
fn parted_rings(
    alloc: Global,
    channels: &[Channel],
    first: usize,
    next: usize,
    rooms: &[u32],
) -> Result<Vec<Ring>, AllocError>
    ensures { IfOk result (λ rings. rings.items
        ≡ empty_rings first next rooms.now 0 (map channel_view channels.now)) }
{
    let mut rings = Vec::with_capacity(alloc, channels.len())?;
    for number in 0..channels.len() {
        let room = room_at(first, next, rooms, number, &channels[number]);
        rings.push(HeapCircularBuffer::with_capacity(alloc, room)?)?;
    }
    Ok(rings)
}

/// How much room it has.
fn room_at(first: usize, next: usize, rooms: &[u32], number: usize, channel: &Channel) -> usize
    ensures { result ≡ spec.room_at first next rooms.now number (channel_view channel.now) }
{
    let begins = is_within(first, next, channel.source.node as usize);
    let ends = is_within(first, next, channel.target.node as usize);
    if begins && !ends && number < rooms.len() {
        rooms[number] as usize
    } else {
        0
    }
}

/// The room of the largest ring.
pub(crate) fn greatest_room(rings: &[Ring]) -> usize {
    let mut greatest = 0;
    for ring in rings {
        greatest = greatest.max(ring.capacity());
    }
    greatest
}

/// A machine of these rings, whose nodes keep nothing and have not fired, with room for so many
/// items on their way.
fn empty_part(
    alloc: Global,
    nodes: usize,
    rings: Vec<Ring>,
    room: usize,
) -> Result<Machine, AllocError>
    ensures actors { IfOk result (λ part. part.actors.items ≡ replicate nodes actor.Passive) }
    ensures fired { IfOk result (λ part. part.fired.items ≡ replicate nodes 0) }
    ensures rings { IfOk result (λ part. part.rings.items ≡ rings.items) }
    ensures words { IfOk result (λ part. words_of part.words.items ≡ replicate nodes []) }
{
    Ok(Machine {
        actors: passive_actors(alloc, nodes)?,
        fired: Vec::from_elem(alloc, 0, nodes)?,
        rings,
        items: Vec::from_elem(alloc, 0, room)?,
        words: no_words(alloc, nodes)?,
    })
}

/// So many actors of nodes that keep nothing.
fn passive_actors(alloc: Global, count: usize) -> Result<Vec<Actor>, AllocError>
    ensures { IfOk result (λ actors. actors.items ≡ replicate count actor.Passive) }
{
    let mut actors = Vec::with_capacity(alloc, count)?;
    for _node in 0..count {
        actors.push(Actor::Passive)?;
    }
    Ok(actors)
}

/// A part and the machine that it is taken out of change what they have for marked nodes and
/// channels.
fn exchange(part: &mut Machine, whole: &mut Machine, nodes: &[bool], channels: &[bool])
    requires part { AreMarks nodes.now channels.now part.old }
    requires whole { AreMarks nodes.now channels.now whole.old }
    ensures part { HasChosen nodes.now channels.now whole.old part.old part.new }
    ensures whole { HasChosen nodes.now channels.now part.old whole.old whole.new }
{
    swap_marked(&mut part.actors, &mut whole.actors, nodes);
    swap_marked(&mut part.fired, &mut whole.fired, nodes);
    swap_marked(&mut part.rings, &mut whole.rings, channels);
}

/// Two lists change what they have at each marked place.
fn swap_marked<T>(one: &mut [T], other: &mut [T], marks: &[bool])
    requires one { length one.old ≡ length marks.now }
    requires other { length other.old ≡ length marks.now }
    ensures one { one.new ≡ chosen marks.now other.old one.old }
    ensures other { other.new ≡ chosen marks.now one.old other.old }
{
    for place in 0..marks.len() {
        if marks[place] {
            mem::swap(&mut one[place], &mut other[place]);
        }
    }
}
