// The rounds of a live run.

ghost use Rattle.std.specs.Prelude.{◌≡◌, ◌+◌, ◌<◌, ◌^◌, ℕ, ℤ, List, [], length, IfErr, OnOk};
ghost use Rattle.strc_work_meaning.specs.declared.word.Word as word;
ghost use Rattle.strc_sched_orders.specs.Greedy.{firings_of};
ghost use Rattle.strc_sched_laws.specs.Machine.{CircuitView, order_run, words_at};
ghost use Rattle.strc_sched_rings.specs.Circuits.{circuit_view};
ghost use Rattle.strc_sched_machine.specs.Batches.{units_of};
ghost use Rattle.strc_sched_machine.specs.Running.{HasGone, IsMachine, machine_view, with_words};
ghost use Rattle.strc_sched_machine.specs.Running.{without_words};
ghost use Rattle.strc_stage_plan.specs.Plans.{PlanParts};
ghost use Rattle.strc_live_laws.specs.Live.{renewed};
ghost use Rattle.strc_live_laws.specs.Windows.{window};
ghost use Rattle.strc_live_plans.specs.Readers.{each_of};
ghost use Rattle.strc_live_runs.specs.Runs.{HasDoneRound, HasSamePlace, IsLiveRun, IsRoundStop};
ghost use Rattle.strc_live_runs.specs.Runs.{IsWired};

use crate::window::swap_input;
use std::alloc::Global;
use strc_live_plans::{live_plans_fault, live_plans_go_on};
use strc_sched_machine::batches::Order;
use strc_sched_machine::machine::Machine;
use strc_sched_outcome::stop::Stop;
use strc_sched_rings::circuit::Circuit;
use strc_work_meaning::word::Word;

/// A live run of a plan, after start-up and so many rounds.
#[derive(Drop)]
pub struct LiveRun {
    pub(crate) alloc: Global,
    pub(crate) circuit: Circuit,
    pub(crate) machine: Machine,
    pub(crate) order: Order,
    /// The node that reads the program's input.
    pub(crate) reader: usize,
    /// The node whose words are written; past all nodes where there is none.
    pub(crate) tape: usize,
    /// How many rounds are done.
    pub(crate) done: u32,
}

impl LiveRun {
    /// A round over just the items that it reads: the words of its tape come in place of those that
    /// `words` had. Where it stops, the run is over. The items are of no use afterwards.
    pub fn round(&mut self, items: &mut Vec<i32>, words: &mut Vec<Word>) -> Result<(), Stop>
        requires wired { IsWired self.old }
        requires limit { self.old.done + 1 < 2 ^ 32 }
        ensures wired { IsWired self.new }
        ensures round { OnOk result ((plan : PlanParts) (read : List ℤ)
            (past : ℕ → List word.Word) → IsLiveRun plan read past self.old
            → length items.old.items ≡ each_of plan
            → HasDoneRound plan read items.old.items past words.new.items self.new) }
        ensures done { OnOk result (self.new.done ≡ self.old.done + 1) }
        ensures tape { OnOk result (self.new.tape ≡ self.old.tape) }
        ensures stopped { IfErr result (λ stop. (plan : PlanParts) (read : List ℤ)
            (past : ℕ → List word.Word) → IsLiveRun plan read past self.old
            → length items.old.items ≡ each_of plan
            → IsRoundStop plan read items.old.items past self.old.done stop) }
    {
        live_plans_go_on();
        live_plans_fault();
        match self.fire(items) {
            Ok(()) => {
                self.take_words(words);
                self.done += 1;
                Ok(())
            }
            Err(stop) => Err(stop),
        }
    }

    /// Fires the nodes of a round over these items.
    fn fire(&mut self, items: &mut Vec<i32>) -> Result<(), Stop>
        requires wired { IsWired self.old }
        ensures wired { IsWired self.new }
        ensures place { HasSamePlace self.old self.new }
        ensures circuit { OnOk result (circuit_view self.new.circuit
            ≡ window items.old.items (circuit_view self.old.circuit)) }
        ensures gone { HasGone (order_run (window items.old.items (circuit_view self.old.circuit))
            (firings_of (units_of self.old.order)) (machine_view self.old.machine)) result
            (machine_view self.old.machine).words (machine_view self.new.machine) }
    {
        match swap_input(self.alloc, &mut self.circuit.input, items) {
            Ok(()) => self.machine.fire_order(&self.circuit, &self.order),
            Err(_) => Err(Stop::NoMemory),
        }
    }

    /// The words of the tape, taken out; those of other nodes are forgotten, and the next item is
    /// that of number 0.
    pub(crate) fn take_words(&mut self, words: &mut Vec<Word>)
        requires wired { IsWired self.old }
        ensures wired { IsWired self.new }
        ensures place { HasSamePlace self.old self.new }
        ensures circuit { self.new.circuit ≡ self.old.circuit }
        ensures machine { machine_view self.new.machine
            ≡ renewed self.old.reader (machine_view self.old.machine) }
        ensures words { words.new.items
            ≡ words_at (machine_view self.old.machine).words self.old.tape }
    {
        words.clear();
        take_tape(&mut self.machine, self.tape, words);
        self.machine.renew(self.reader);
    }

    /// How many rounds are done.
    pub fn done(&self) -> u32
        ensures { result ≡ self.now.done }
    {
        self.done
    }
}

/// A node's words, in place of which it has none; none where there is no such node.
fn take_tape(machine: &mut Machine, node: usize, words: &mut Vec<Word>)
    requires { words.old.items ≡ [] }
    ensures machine { (circuit : CircuitView) → IsMachine circuit machine.old
        → IsMachine circuit machine.new }
    ensures others { with_words (without_words (machine_view machine.new).words)
        (machine_view machine.new)
        ≡ with_words (without_words (machine_view machine.old).words) (machine_view machine.old) }
    ensures taken { words.new.items ≡ words_at (machine_view machine.old).words node }
{
    if node >= machine.words().len() {
        return;
    }
    machine.swap_words(node, words);
}
