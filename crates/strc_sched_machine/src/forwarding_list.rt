// The machine's firings of a list whose nodes hand items on: what one pushes is in hand for the
// next one.

ghost use Rattle.std.specs.Prelude.{◌≡◌, ℕ, ◌∷◌, [], All, IfErr, Ok, Err, true, false};
ghost use Rattle.strc_sched_orders.specs.Order.{repeated};
ghost use Rattle.strc_sched_laws.specs.Machine as spec;
ghost use Rattle.strc_sched_rings.specs.Circuits.{circuit_view};
ghost use Rattle.strc_sched_machine.specs.Batches.{IsBatch, batch_firings};
ghost use Rattle.strc_sched_machine.specs.Handing.{HasDoneByHand, IsHeld, held_view};
ghost use Rattle.strc_sched_rings.specs.Words.{WantsWordOfStep};
ghost use Rattle.strc_sched_machine.specs.Memory.{WantsWordOfOrder, prints_at};
ghost use Rattle.strc_sched_machine.specs.Running.{HasGone, IsMachine, machine_view};
ghost use Rattle.strc_sched_machine.specs.declared.batches.Kind.TheVariants as kind;

use crate::actor::Actor;
use crate::batches::{Batch, Kind};
use crate::forwarded_items::{Held, fire_by_hand, nothing_held, put_down, take_up};
use crate::machine::Machine;
use std::slice::from_ref;
use strc_elab_graph::graph::Node;
use strc_sched_outcome::stop::Stop;
use strc_sched_rings::circuit::Circuit;
use strc_work_meaning::fault::Halt;

impl Machine {
    /// Fires batches one after another, all of them so often; those that are marked by hand.
    #[inline(never)]
    pub(crate) fn fire_hands(
        &mut self,
        circuit: &Circuit,
        turns: u32,
        batches: &[Batch],
        hands: &[bool],
    ) -> Result<(), Stop>
        requires machine { IsMachine (circuit_view circuit.now) self.old }
        requires batches { All (IsBatch (circuit_view circuit.now)) batches.now }
        ensures machine { IsMachine (circuit_view circuit.now) self.new }
        ensures gone { HasGone (spec.order_run (circuit_view circuit.now)
            (repeated turns (batch_firings batches.now)) (machine_view self.old)) result
            (machine_view self.old).words (machine_view self.new) }
        ensures memory { WantsWordOfOrder (circuit_view circuit.now)
            (repeated turns (batch_firings batches.now)) (machine_view self.old) result }
    {
        for _turn in 0..turns {
            match self.fire_handing(circuit, batches, hands) {
                Ok(()) => {}
                Err(stop) => return Err(stop),
            }
        }
        Ok(())
    }

    /// Fires batches one after another: of those that are marked, what one pushes is in hand for
    /// the next one.
    #[inline]
    fn fire_handing(
        &mut self,
        circuit: &Circuit,
        batches: &[Batch],
        hands: &[bool],
    ) -> Result<(), Stop>
        requires machine { IsMachine (circuit_view circuit.now) self.old }
        requires batches { All (IsBatch (circuit_view circuit.now)) batches.now }
        ensures machine { IsMachine (circuit_view circuit.now) self.new }
        ensures gone { HasGone (spec.order_run (circuit_view circuit.now)
            (batch_firings batches.now) (machine_view self.old)) result
            (machine_view self.old).words (machine_view self.new) }
        ensures memory { WantsWordOfOrder (circuit_view circuit.now) (batch_firings batches.now)
            (machine_view self.old) result }
    {
        let mut held = nothing_held();
        for place in 0..batches.len() {
            let by_hand = place < hands.len() && hands[place];
            match self.fire_with(circuit, &batches[place], by_hand, &mut held) {
                Ok(()) => {}
                Err(stop) => return Err(stop),
            }
        }
        put_down(&mut self.rings, &self.items, held);
        Ok(())
    }

    /// Fires a batch's node so often, with items in hand: by hand, where it can.
    #[inline(always)]
    fn fire_with(
        &mut self,
        circuit: &Circuit,
        batch: &Batch,
        by_hand: bool,
        held: &mut Held,
    ) -> Result<(), Stop>
        requires machine { IsMachine (circuit_view circuit.now) self.old }
        requires batch { IsBatch (circuit_view circuit.now) batch.now }
        requires held { IsHeld self.old.items.items self.old.rings.items held.old }
        ensures machine { IsMachine (circuit_view circuit.now) self.new }
        ensures held { IsHeld self.new.items.items self.new.rings.items held.new }
        ensures gone { HasGone (spec.order_run (circuit_view circuit.now)
            (repeated batch.now.turns (batch.now.node ∷ [])) (held_view held.old self.old)) result
            (held_view held.old self.old).words (held_view held.new self.new) }
        ensures memory { WantsWordOfOrder (circuit_view circuit.now)
            (repeated batch.now.turns (batch.now.node ∷ [])) (held_view held.old self.old) result }
    {
        if by_hand {
            if let Kind::Identity { to, .. } = batch.kind {
                if self.pass_held(circuit, batch, to, held) {
                    return Ok(());
                }
            } else if batch.turns == 1 {
                return self.fire_once_held(circuit, batch, held);
            }
        }
        self.fire_without(circuit, batch, held)
    }

    /// The same over rings: what was in hand joins its own first.
    #[inline(never)]
    fn fire_without(
        &mut self,
        circuit: &Circuit,
        batch: &Batch,
        held: &mut Held,
    ) -> Result<(), Stop>
        requires machine { IsMachine (circuit_view circuit.now) self.old }
        requires batch { IsBatch (circuit_view circuit.now) batch.now }
        requires held { IsHeld self.old.items.items self.old.rings.items held.old }
        ensures machine { IsMachine (circuit_view circuit.now) self.new }
        ensures held { IsHeld self.new.items.items self.new.rings.items held.new }
        ensures gone { HasGone (spec.order_run (circuit_view circuit.now)
            (repeated batch.now.turns (batch.now.node ∷ [])) (held_view held.old self.old)) result
            (held_view held.old self.old).words (held_view held.new self.new) }
        ensures memory { WantsWordOfOrder (circuit_view circuit.now)
            (repeated batch.now.turns (batch.now.node ∷ [])) (held_view held.old self.old) result }
    {
        put_down(&mut self.rings, &self.items, *held);
        *held = nothing_held();
        self.fire_turns(circuit, 1, from_ref(batch))
    }

    /// So many firings of an identity to a ring, where they take just what is in hand: it is in
    /// hand for that ring then. Whether it is so; if not, none fires.
    #[inline(always)]
    fn pass_held(&mut self, circuit: &Circuit, batch: &Batch, to: usize, held: &mut Held) -> bool
        requires machine { IsMachine (circuit_view circuit.now) self.old }
        requires batch { IsBatch (circuit_view circuit.now) batch.now }
        requires kind { (from : ℕ) × (batch.now.kind ≡ kind.Identity from to) }
        requires held { IsHeld self.old.items.items self.old.rings.items held.old }
        ensures machine { IsMachine (circuit_view circuit.now) self.new }
        ensures held { IsHeld self.new.items.items self.new.rings.items held.new }
        ensures gone { result ≡ true → HasGone (spec.order_run (circuit_view circuit.now)
            (repeated batch.now.turns (batch.now.node ∷ [])) (held_view held.old self.old)) (Ok tt)
            (held_view held.old self.old).words (held_view held.new self.new) }
        ensures same { result ≡ false → held_view held.new self.new ≡ held_view held.old self.old }
    {
        let turns = batch.turns as usize;
        if !take_up(&mut self.rings, &mut self.items, batch.input, turns, held) {
            return false;
        }
        held.port = Some(to);
        let place = batch.node as usize;
        self.fired[place] = self.fired[place].saturating_add(u64::from(batch.turns));
        true
    }

    /// Fires a batch's node once, with items in hand: by hand, where it can.
    #[inline(always)]
    fn fire_once_held(
        &mut self,
        circuit: &Circuit,
        batch: &Batch,
        held: &mut Held,
    ) -> Result<(), Stop>
        requires machine { IsMachine (circuit_view circuit.now) self.old }
        requires batch { IsBatch (circuit_view circuit.now) batch.now }
        requires once { batch.now.turns ≡ 1 }
        requires held { IsHeld self.old.items.items self.old.rings.items held.old }
        ensures machine { IsMachine (circuit_view circuit.now) self.new }
        ensures held { IsHeld self.new.items.items self.new.rings.items held.new }
        ensures gone { HasGone (spec.order_run (circuit_view circuit.now) (batch.now.node ∷ [])
            (held_view held.old self.old)) result (held_view held.old self.old).words
            (held_view held.new self.new) }
        ensures memory { WantsWordOfOrder (circuit_view circuit.now) (batch.now.node ∷ [])
            (held_view held.old self.old) result }
    {
        let place = batch.node as usize;
        let firing = self.fired[place];
        match self.step_held(circuit, batch, firing, held) {
            Ok(Some(true)) => {
                self.fired[place] = firing.saturating_add(1);
                Ok(())
            }
            Ok(Some(false)) => Ok(()),
            Ok(None) => self.fire_without(circuit, batch, held),
            Err(Halt::Fault(cause)) => Err(Stop::Fault {
                node: batch.node,
                firing,
                cause: self.located(batch.node, cause),
            }),
            Err(Halt::NoMemory) => Err(Stop::NoMemory),
        }
    }

    /// One firing of a batch's filter, by its number, where what it takes can be in hand. Whether
    /// it found its window; if not, or where it isn't done by hand, all is as if it stayed so.
    #[inline(always)]
    fn step_held(
        &mut self,
        circuit: &Circuit,
        batch: &Batch,
        firing: u64,
        held: &mut Held,
    ) -> Result<Option<bool>, Halt>
        requires machine { IsMachine (circuit_view circuit.now) self.old }
        requires batch { IsBatch (circuit_view circuit.now) batch.now }
        requires held { IsHeld self.old.items.items self.old.rings.items held.old }
        ensures machine { IsMachine (circuit_view circuit.now) self.new }
        ensures held { IsHeld self.new.items.items self.new.rings.items held.new }
        ensures fired { self.new.fired ≡ self.old.fired }
        ensures step { HasDoneByHand (spec.step_at (circuit_view circuit.now) (held_view held.old
            self.old) batch.now.node firing) batch.now.node result (held_view held.old self.old)
            (held_view held.new self.new) }
        ensures memory { IfErr result (λ halt. WantsWordOfStep (prints_at (circuit_view circuit.now)
            batch.now.node firing) (spec.step_at (circuit_view circuit.now)
            (held_view held.old self.old) batch.now.node firing) (Err halt)) }
    {
        let node = batch.node as usize;
        let Node::Filter(instance) = &circuit.nodes[node] else {
            return Ok(None);
        };
        match &mut self.actors[node] {
            Actor::Filter(actor) => fire_by_hand(
                &instance.code,
                firing,
                actor,
                batch,
                &mut self.rings,
                &mut self.items,
                held,
                &mut self.words[node],
            ),
            Actor::Passive => unreachable!(),
        }
    }
}
