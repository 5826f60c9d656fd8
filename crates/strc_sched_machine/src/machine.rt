// The machine that fires a graph's nodes over rings.

ghost use Rattle.std.specs.Prelude.{◌≡◌, ◌<◌, ◌≤◌, All, [], ◌∷◌, IfErr, IfOk, OnOk, Some, Err};
ghost use Rattle.std.specs.Prelude.{length, replicate, slice_get};
ghost use Rattle.strc_elab_graph.specs.Graphs as graphs;
ghost use Rattle.strc_elab_graph.specs.NodeView.{copied_view, graph_view};
ghost use Rattle.strc_sched_orders.specs.Greedy.{firings_of};
ghost use Rattle.strc_sched_orders.specs.Order.{repeated};
ghost use Rattle.strc_sched_machine.specs.Actors.{AreActors, AreStartable, AreClosed};
ghost use Rattle.strc_sched_laws.specs.Circuits.{IsCircuit, IsFirst};
ghost use Rattle.strc_sched_rings.specs.Circuits.{circuit_view};
ghost use Rattle.strc_sched_laws.specs.Machine as spec;
ghost use Rattle.strc_sched_machine.specs.Batches.{AreBatches, IsBatch, IsOrderOf, batch_firings};
ghost use Rattle.strc_sched_machine.specs.Batches.{list_firings, units_of};
ghost use Rattle.strc_sched_rings.specs.Words.{WantsWordOfStep};
ghost use Rattle.strc_sched_machine.specs.Memory.{WantsWordOfOrder, prints_at};
ghost use Rattle.strc_sched_machine.specs.Running.{HasDone, HasGone, HaveMoreWords, IsMachine};
ghost use Rattle.strc_sched_machine.specs.Running.{machine_view, words_of};

use crate::actor::{Actor, start_actors};
use crate::batches::{Batch, BatchList, Order};
use crate::block::pass_at_once;
use crate::filter::{fire_copy, fire_filter};
use crate::part_machine::greatest_room;
use crate::stateless_nodes::fire_passive;
use std::alloc::{AllocError, Global};
use strc_elab_graph::graph::{Copied, Fission, Graph, Node};
use strc_lex_names::memory::NoMemory;
use strc_sched_outcome::stop::Stop;
use strc_sched_rings::circuit::Circuit;
use strc_sched_rings::copy::fire_identity_copy;
use strc_sched_rings::ring::{Ring, first_rings};
use strc_work_meaning::fault::{Cause, Halt, LocatedCause, Trapped};
use strc_work_meaning::word::Word;

/// What a run has come to.
#[derive(Drop)]
pub struct Machine {
    /// What each node keeps between firings.
    pub(crate) actors: Vec<Actor>,
    /// How often each node has fired.
    pub(crate) fired: Vec<u64>,
    /// The items on each channel.
    pub(crate) rings: Vec<Ring>,
    /// Room for items on their way from ring to ring: as many as the largest ring holds.
    pub(crate) items: Vec<i32>,
    /// The words that each node has given.
    pub(crate) words: Vec<Vec<Word>>,
}

impl Machine {
    /// Before the first firing: on each channel are its enqueued items.
    pub fn new(
        alloc: Global,
        graph: &Graph,
        circuit: &Circuit,
        sizes: &[u32],
    ) -> Result<Machine, NoMemory>
        requires circuit { IsCircuit (graph_view graph.now) (circuit_view circuit.now) }
        requires starts { AreStartable (graph_view graph.now).nodes }
        ensures machine { IfOk result (IsMachine (circuit_view circuit.now)) }
        ensures first { IfOk result (λ machine. IsFirst (graph_view graph.now) sizes.now
            (machine_view machine)) }
        ensures known { IfOk result (λ machine. AreClosed (graph_view graph.now).nodes) }
    {
        let rings = first_rings(alloc, graph.channels(), sizes)?;
        let actors = start_actors(alloc, graph.nodes(), circuit, &rings)?;
        let fired = Vec::from_elem(alloc, 0, graph.nodes().len())?;
        let items = Vec::from_elem(alloc, 0, greatest_room(&rings))?;
        let words = no_words(alloc, graph.nodes().len())?;
        Ok(Machine {
            actors,
            fired,
            rings,
            items,
            words,
        })
    }

    /// Fires the nodes of an order's units, each as often as its unit says, until one faults. It
    /// takes no memory but for the words: it is out of memory only at a firing with a word to give.
    pub fn fire_order(&mut self, circuit: &Circuit, order: &Order) -> Result<(), Stop>
        requires machine { IsMachine (circuit_view circuit.now) self.old }
        requires order { IsOrderOf (circuit_view circuit.now) order.now }
        ensures machine { IsMachine (circuit_view circuit.now) self.new }
        ensures gone { HasGone (spec.order_run (circuit_view circuit.now)
            (firings_of (units_of order.now)) (machine_view self.old)) result
            (machine_view self.old).words (machine_view self.new) }
        ensures memory { WantsWordOfOrder (circuit_view circuit.now)
            (firings_of (units_of order.now)) (machine_view self.old) result }
    {
        for place in 0..order.lists.len() {
            match self.fire_list(circuit, &order.lists[place], hands_at(&order.hands, place)) {
                Ok(()) => {}
                Err(stop) => return Err(stop),
            }
        }
        Ok(())
    }

    /// Fires a batch's node so often; at once where it passes items on and finds them all.
    #[inline]
    fn fire_batch(&mut self, circuit: &Circuit, batch: &Batch) -> Result<(), Stop>
        requires machine { IsMachine (circuit_view circuit.now) self.old }
        requires batch { IsBatch (circuit_view circuit.now) batch.now }
        ensures machine { IsMachine (circuit_view circuit.now) self.new }
        ensures gone { HasGone (spec.order_run (circuit_view circuit.now)
            (repeated batch.now.turns (batch.now.node ∷ [])) (machine_view self.old)) result
            (machine_view self.old).words (machine_view self.new) }
        ensures memory { WantsWordOfOrder (circuit_view circuit.now)
            (repeated batch.now.turns (batch.now.node ∷ [])) (machine_view self.old) result }
    {
        if !pass_at_once(circuit, batch, &mut self.rings, &mut self.items) {
            return self.fire_alone(circuit, batch);
        }
        let place = batch.node as usize;
        self.fired[place] = self.fired[place].saturating_add(u64::from(batch.turns));
        Ok(())
    }

    /// Fires a batch's node so often, many firings at once where they can be done so.
    #[inline(never)]
    fn fire_alone(&mut self, circuit: &Circuit, batch: &Batch) -> Result<(), Stop>
        requires machine { IsMachine (circuit_view circuit.now) self.old }
        requires batch { IsBatch (circuit_view circuit.now) batch.now }
        ensures machine { IsMachine (circuit_view circuit.now) self.new }
        ensures gone { HasGone (spec.order_run (circuit_view circuit.now)
            (repeated batch.now.turns (batch.now.node ∷ [])) (machine_view self.old)) result
            (machine_view self.old).words (machine_view self.new) }
        ensures memory { WantsWordOfOrder (circuit_view circuit.now)
            (repeated batch.now.turns (batch.now.node ∷ [])) (machine_view self.old) result }
    {
        let mut left = batch.turns;
        while left > 0 {
            match self.fire_next(circuit, batch, left) {
                Ok(fired) => left -= fired,
                Err(stop) => return Err(stop),
            }
        }
        Ok(())
    }

    /// Fires a batch's node, of whose firings so many are left: how many are done.
    #[inline(always)]
    fn fire_next(&mut self, circuit: &Circuit, batch: &Batch, left: u32) -> Result<u32, Stop>
        requires machine { IsMachine (circuit_view circuit.now) self.old }
        requires batch { IsBatch (circuit_view circuit.now) batch.now }
        requires left { 0 < left }
        ensures machine { IsMachine (circuit_view circuit.now) self.new }
        ensures some { IfOk result (λ fired. 0 < fired) }
        ensures most { IfOk result (λ fired. fired ≤ left) }
        ensures went { IfOk result (λ fired. spec.order_run (circuit_view circuit.now)
            (repeated fired (batch.now.node ∷ [])) (machine_view self.old)
            ≡ spec.Went (machine_view self.new)) }
        ensures words { OnOk result (HaveMoreWords (machine_view self.old).words
            (machine_view self.new).words) }
        ensures gone { IfErr result (λ stop. HasGone (spec.order_run (circuit_view circuit.now)
            (batch.now.node ∷ []) (machine_view self.old)) (Err stop)
            (machine_view self.old).words (machine_view self.new)) }
        ensures memory { IfErr result (λ stop. WantsWordOfOrder (circuit_view circuit.now)
            (batch.now.node ∷ []) (machine_view self.old) (Err stop)) }
    {
        if self.fire_in_lanes(circuit, batch, left) {
            return Ok(64);
        }
        match self.fire_once(circuit, batch) {
            Ok(()) => Ok(1),
            Err(stop) => Err(stop),
        }
    }

    /// Fires the batches of a list, all of them as often as it has turns; those that are marked by
    /// hand.
    #[inline]
    fn fire_list(&mut self, circuit: &Circuit, list: &BatchList, hands: &[bool]) -> Result<(), Stop>
        requires machine { IsMachine (circuit_view circuit.now) self.old }
        requires batches { AreBatches (circuit_view circuit.now) list.now }
        ensures machine { IsMachine (circuit_view circuit.now) self.new }
        ensures gone { HasGone (spec.order_run (circuit_view circuit.now) (list_firings list.now)
            (machine_view self.old)) result (machine_view self.old).words (machine_view self.new) }
        ensures memory { WantsWordOfOrder (circuit_view circuit.now) (list_firings list.now)
            (machine_view self.old) result }
    {
        if hands.is_empty() {
            self.fire_turns(circuit, list.turns, &list.batches)
        } else {
            self.fire_hands(circuit, list.turns, &list.batches, hands)
        }
    }

    /// Fires batches one after another, all of them so often.
    #[inline(never)]
    pub(crate) fn fire_turns(
        &mut self,
        circuit: &Circuit,
        turns: u32,
        batches: &[Batch],
    ) -> Result<(), Stop>
        requires machine { IsMachine (circuit_view circuit.now) self.old }
        requires batches { All (IsBatch (circuit_view circuit.now)) batches.now }
        ensures machine { IsMachine (circuit_view circuit.now) self.new }
        ensures gone { HasGone (spec.order_run (circuit_view circuit.now)
            (repeated turns (batch_firings batches.now)) (machine_view self.old)) result
            (machine_view self.old).words (machine_view self.new) }
        ensures memory { WantsWordOfOrder (circuit_view circuit.now)
            (repeated turns (batch_firings batches.now)) (machine_view self.old) result }
    {
        for _turn in 0..turns {
            match self.fire_batches(circuit, batches) {
                Ok(()) => {}
                Err(stop) => return Err(stop),
            }
        }
        Ok(())
    }

    /// Fires batches one after another.
    #[inline]
    fn fire_batches(&mut self, circuit: &Circuit, batches: &[Batch]) -> Result<(), Stop>
        requires machine { IsMachine (circuit_view circuit.now) self.old }
        requires batches { All (IsBatch (circuit_view circuit.now)) batches.now }
        ensures machine { IsMachine (circuit_view circuit.now) self.new }
        ensures gone { HasGone (spec.order_run (circuit_view circuit.now)
            (batch_firings batches.now) (machine_view self.old)) result
            (machine_view self.old).words (machine_view self.new) }
        ensures memory { WantsWordOfOrder (circuit_view circuit.now) (batch_firings batches.now)
            (machine_view self.old) result }
    {
        for batch in batches {
            match self.fire_batch(circuit, batch) {
                Ok(()) => {}
                Err(stop) => return Err(stop),
            }
        }
        Ok(())
    }

    /// Fires a batch's node once, where it finds its windows.
    #[inline(always)]
    fn fire_once(&mut self, circuit: &Circuit, batch: &Batch) -> Result<(), Stop>
        requires machine { IsMachine (circuit_view circuit.now) self.old }
        requires batch { IsBatch (circuit_view circuit.now) batch.now }
        ensures machine { IsMachine (circuit_view circuit.now) self.new }
        ensures gone { HasGone (spec.after_step (machine_view self.old) batch.now.node
            (spec.next_step (circuit_view circuit.now) (machine_view self.old) batch.now.node))
            result (machine_view self.old).words (machine_view self.new) }
        ensures memory { WantsWordOfOrder (circuit_view circuit.now) (batch.now.node ∷ [])
            (machine_view self.old) result }
    {
        let place = batch.node as usize;
        let firing = self.fired[place];
        match self.step(circuit, batch, firing) {
            Ok(true) => {
                self.fired[place] = firing.saturating_add(1);
                Ok(())
            }
            Ok(false) => Ok(()),
            Err(Halt::Fault(cause)) => Err(Stop::Fault {
                node: batch.node,
                firing,
                cause: self.located(batch.node, cause),
            }),
            Err(Halt::NoMemory) => Err(Stop::NoMemory),
        }
    }

    /// Why a node's firing has faulted just now, with what is known of what faulted.
    #[inline(never)]
    pub(crate) fn located(&self, node: u32, cause: Cause) -> LocatedCause
        ensures { result ≡ cause }
    {
        let trapped = match self.actors.get(node as usize) {
            Some(Actor::Filter(actor)) => actor.frame.trapped(),
            _ => Trapped::nothing(),
        };
        LocatedCause::new(cause, trapped)
    }

    /// One firing of a batch's node, by its number. Whether it found its windows; if not, it leaves
    /// all as it was.
    #[inline]
    fn step(&mut self, circuit: &Circuit, batch: &Batch, firing: u64) -> Result<bool, Halt>
        requires machine { IsMachine (circuit_view circuit.now) self.old }
        requires batch { IsBatch (circuit_view circuit.now) batch.now }
        ensures machine { IsMachine (circuit_view circuit.now) self.new }
        ensures fired { self.new.fired ≡ self.old.fired }
        ensures step { HasDone (spec.step_at (circuit_view circuit.now) (machine_view self.old)
            batch.now.node firing) batch.now.node result (machine_view self.old)
            (machine_view self.new) }
        ensures memory { WantsWordOfStep (prints_at (circuit_view circuit.now) batch.now.node
            firing) (spec.step_at (circuit_view circuit.now) (machine_view self.old)
            batch.now.node firing) result }
    {
        let node = batch.node as usize;
        match &circuit.nodes[node] {
            Node::Filter(instance) => match &mut self.actors[node] {
                Actor::Filter(actor) => fire_filter(
                    &instance.code,
                    firing,
                    actor,
                    &mut self.rings,
                    batch.input,
                    batch.output,
                    &mut self.words[node],
                ),
                Actor::Passive => unreachable!(),
            },
            Node::Copy(copied, fission) => {
                self.step_copy(circuit, batch, firing, copied, fission)
            }
            passive => fire_passive(
                passive,
                firing,
                circuit.inputs.at(node),
                circuit.outputs.at(node),
                input_of(circuit),
                &mut self.rings,
                &mut self.words[node],
            ),
        }
    }

    /// The same for a copy.
    fn step_copy(
        &mut self,
        circuit: &Circuit,
        batch: &Batch,
        firing: u64,
        copied: &Copied,
        fission: &Fission,
    ) -> Result<bool, Halt>
        requires machine { IsMachine (circuit_view circuit.now) self.old }
        requires batch { IsBatch (circuit_view circuit.now) batch.now }
        requires copy { slice_get (circuit_view circuit.now).codes batch.now.node
            ≡ Some (graphs.Copy (copied_view copied.now) fission.now) }
        ensures machine { IsMachine (circuit_view circuit.now) self.new }
        ensures fired { self.new.fired ≡ self.old.fired }
        ensures step { HasDone (spec.step_at (circuit_view circuit.now) (machine_view self.old)
            batch.now.node firing) batch.now.node result (machine_view self.old)
            (machine_view self.new) }
        ensures memory { WantsWordOfStep (prints_at (circuit_view circuit.now) batch.now.node
            firing) (spec.step_at (circuit_view circuit.now) (machine_view self.old)
            batch.now.node firing) result }
    {
        let node = batch.node as usize;
        let (input, output) = (batch.input, batch.output);
        match copied {
            Copied::Filter(instance) => match &mut self.actors[node] {
                Actor::Filter(actor) => {
                    let (rings, words) = (&mut self.rings, &mut self.words[node]);
                    let code = &instance.code;
                    fire_copy(code, fission, firing, actor, rings, input, output, words)
                }
                Actor::Passive => unreachable!(),
            },
            Copied::Identity => {
                Ok(fire_identity_copy(&mut self.rings, fission, firing, input, output))
            }
        }
    }

    /// The words of each node, taken out.
    pub fn into_words(self) -> Vec<Vec<Word>>
        ensures { words_of result.items ≡ (machine_view self).words }
    {
        let Machine { words, .. } = self;
        words
    }

    /// The words of each node.
    pub fn words(&self) -> &[Vec<Word>]
        ensures { words_of result.now ≡ (machine_view self.now).words }
    {
        &self.words
    }
}

/// Those of a list by its place; none where there is no such list.
#[inline]
fn hands_at(hands: &[Vec<bool>], place: usize) -> &[bool] {
    if place < hands.len() {
        &hands[place]
    } else {
        &[]
    }
}

/// The program's input, which the circuits of a run share.
#[inline]
fn input_of(circuit: &Circuit) -> &[i32]
    ensures { result.now ≡ (circuit_view circuit.now).input }
{
    &circuit.input
}

/// No words of so many nodes.
pub(crate) fn no_words(alloc: Global, count: usize) -> Result<Vec<Vec<Word>>, AllocError>
    ensures { IfOk result (λ words. words_of words.items ≡ replicate count []) }
{
    let mut words = Vec::with_capacity(alloc, count)?;
    for _node in 0..count {
        words.push(Vec::new(alloc))?;
    }
    Ok(words)
}
