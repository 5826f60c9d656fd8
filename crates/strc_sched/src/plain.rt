// A run on one thread.

ghost use Rattle.std.specs.Prelude.{◌≡◌, ◌≤◌, [], length, map, IfOk, IfErr};
ghost use Rattle.strc_elab_graph.specs.NodeView.{graph_view, node_view};
ghost use Rattle.strc_sched_orders.specs.Greedy.{firings_of};
ghost use Rattle.strc_sched_laws.specs.Circuits.{IsCircuit};
ghost use Rattle.strc_sched_laws.specs.Machine as spec;
ghost use Rattle.strc_sched_laws.specs.Planned.{IsPlanned};
ghost use Rattle.strc_sched_machine.specs.Actors.{AreStartable};
ghost use Rattle.strc_sched_rings.specs.Circuits.{circuit_view, IsReady};
ghost use Rattle.strc_sched.specs.Plain.{AnswersGraph, IsEnding, IsPlainRefusal, IsStopped};
ghost use Rattle.strc_sched.specs.Plain.{need_of, ReportsRun};
ghost use Rattle.strc_sched.specs.Marks.{IsMarks, kept_tapes};
ghost use Rattle.strc_sched_machine.specs.Running.{IsMachine, machine_view, words_of};
ghost use Rattle.strc_sched.specs.Tapes.{AreMarked};
ghost use Rattle.strc_sched_machine.specs.Batches.{IsOrderOf, units_of};
ghost use Rattle.strc_sched_outcome.specs.declared.run_refusal.RunRefusal.TheVariants as refused;

use crate::needed_input::items_needed;
use crate::outcome::{Outcome, Round};
use crate::run_refusal::RunRefusal;
use crate::tapes::Marks;
use std::alloc::Global;
use strc_elab_graph::graph::{Graph, Node};
use strc_sched_machine::batches::{Order, order_of};
use strc_sched_machine::circuit::Circuit;
use strc_sched_machine::machine::Machine;
use strc_sched_orders::parts::Schedule;
use strc_sched_orders::unit::Unit;
use strc_sched_outcome::stop::Stop;
use strc_work_meaning::word::Word;

/// Start-up and so many rounds of a schedule, on one thread: each channel is a ring as large as
/// the schedule says, and nodes fire over them in its order (Lee and Messerschmitt 1987: a periodic
/// admissible sequential schedule; StreamIt specification 2.1, "Filters" and "Split-joins").
///
/// The graph's filters start without a fault, `check` is Ok for each, and the schedule is one of
/// the graph's least counts, its orders greedy or not; there are no scatters, copies or gathers.
/// For whatever stream's flat graph this is, the outcome is the answer of the stream equations at
/// the schedule's counts. `InputShort` comes exactly where the input has fewer items than these
/// rounds read, `NoMemory` where memory runs out.
pub fn run_plain(
    alloc: Global,
    graph: &Graph,
    schedule: &Schedule,
    input: &[i32],
    rounds: u32,
) -> Result<Outcome, RunRefusal>
    requires planned { IsPlanned (graph_view graph.now) schedule.now }
    ensures answer { IfOk result (AnswersGraph (graph_view graph.now) schedule.now input.now
        rounds) }
    ensures enough { IfOk result (λ _. need_of (graph_view graph.now) schedule.now rounds
        ≤ length input.now) }
    ensures refused { IfErr result (IsPlainRefusal
        (need_of (graph_view graph.now) schedule.now rounds) (length input.now)) }
{
    let need = input_needed(graph, schedule, rounds);
    let got = input.len() as u64;
    if got < need {
        return Err(RunRefusal::InputShort { need, got });
    }
    let Ok(circuit) = Circuit::new(alloc, graph, input) else {
        return Err(RunRefusal::NoMemory);
    };
    run_circuit(alloc, graph, &circuit, schedule, rounds)
}

/// How many items of the program's input start-up and so many rounds read.
pub fn input_needed(graph: &Graph, schedule: &Schedule, rounds: u32) -> u64
    requires planned { IsPlanned (graph_view graph.now) schedule.now }
    ensures { result ≡ need_of (graph_view graph.now) schedule.now rounds }
{
    items_needed(graph.nodes(), schedule, rounds)
}

/// The outcome of start-up and so many rounds, over the circuit of the graph.
fn run_circuit(
    alloc: Global,
    graph: &Graph,
    circuit: &Circuit,
    schedule: &Schedule,
    rounds: u32,
) -> Result<Outcome, RunRefusal>
    requires circuit { IsCircuit (graph_view graph.now) (circuit_view circuit.now) }
    requires ready { IsReady circuit.now }
    requires starts { AreStartable (graph_view graph.now).nodes }
    ensures reported { IfOk result (ReportsRun (graph_view graph.now) (circuit_view circuit.now)
        schedule.now rounds) }
    ensures memory { IfErr result (λ refusal. refusal ≡ refused.NoMemory) }
{
    let Ok(startup) = order_of(alloc, circuit, schedule.startup()) else {
        return Err(RunRefusal::NoMemory);
    };
    let Ok(round) = order_of(alloc, circuit, schedule.round()) else {
        return Err(RunRefusal::NoMemory);
    };
    let Ok(machine) = Machine::new(alloc, graph, circuit, schedule.sizes()) else {
        return Err(RunRefusal::NoMemory);
    };
    let Ok(marks) = Marks::new(alloc, graph.nodes()) else {
        return Err(RunRefusal::NoMemory);
    };
    run_orders(alloc, machine, marks, circuit, &startup, &round, rounds)
}

/// So many rounds of a machine over the circuit of these nodes, each in the order of these units,
/// on one thread. `NoMemory` comes where memory runs out.
pub fn run_units(
    alloc: Global,
    machine: Machine,
    nodes: &[Node],
    circuit: &Circuit,
    round: &[Unit],
    rounds: u32,
) -> Result<Outcome, RunRefusal>
    requires machine { IsMachine (circuit_view circuit.now) machine }
    requires ready { IsReady circuit.now }
    requires nodes { map node_view nodes.now ≡ (circuit_view circuit.now).codes }
    ensures ending { IfOk result (λ outcome. IsEnding (circuit_view circuit.now).codes outcome
        (spec.rounds_run (circuit_view circuit.now) (firings_of round.now) rounds 0
        (machine_view machine))) }
    ensures memory { IfErr result (λ refusal. refusal ≡ refused.NoMemory) }
{
    let Ok(order) = order_of(alloc, circuit, round) else {
        return Err(RunRefusal::NoMemory);
    };
    let Ok(marks) = Marks::new(alloc, nodes) else {
        return Err(RunRefusal::NoMemory);
    };
    run_rounds(alloc, machine, marks, circuit, &order, rounds)
}

/// Start-up and so many rounds, in these orders.
fn run_orders(
    alloc: Global,
    machine: Machine,
    marks: Marks,
    circuit: &Circuit,
    startup: &Order,
    round: &Order,
    rounds: u32,
) -> Result<Outcome, RunRefusal>
    requires machine { IsMachine (circuit_view circuit.now) machine }
    requires marks { IsMarks marks }
    requires nodes { map node_view marks.nodes.now ≡ (circuit_view circuit.now).codes }
    requires none { AreMarked (circuit_view circuit.now).codes marks.lengths.items [] }
    requires startup { IsOrderOf (circuit_view circuit.now) startup.now }
    requires round { IsOrderOf (circuit_view circuit.now) round.now }
    ensures ending { IfOk result (λ outcome. IsEnding (circuit_view circuit.now).codes outcome
        (spec.whole_run
        (circuit_view circuit.now) (firings_of (units_of startup.now))
        (firings_of (units_of round.now)) rounds (machine_view machine))) }
    ensures memory { IfErr result (λ refusal. refusal ≡ refused.NoMemory) }
{
    let mut started = machine;
    match started.fire_order(circuit, startup) {
        Ok(()) => run_rounds(alloc, started, marks, circuit, round, rounds),
        Err(stop) => stopped(alloc, &marks, started.into_words(), Round::Startup, stop),
    }
}

/// So many rounds.
fn run_rounds(
    alloc: Global,
    machine: Machine,
    marks: Marks,
    circuit: &Circuit,
    order: &Order,
    rounds: u32,
) -> Result<Outcome, RunRefusal>
    requires machine { IsMachine (circuit_view circuit.now) machine }
    requires marks { IsMarks marks }
    requires nodes { map node_view marks.nodes.now ≡ (circuit_view circuit.now).codes }
    requires order { IsOrderOf (circuit_view circuit.now) order.now }
    ensures ending { IfOk result (λ outcome. IsEnding (circuit_view circuit.now).codes outcome
        (spec.rounds_run
        (circuit_view circuit.now) (firings_of (units_of order.now)) rounds 0
        (machine_view machine))) }
    ensures memory { IfErr result (λ refusal. refusal ≡ refused.NoMemory) }
{
    let mut running = machine;
    let mut before = marks;
    for round in 0..rounds {
        before.mark(running.words());
        match running.fire_order(circuit, order) {
            Ok(()) => {}
            Err(stop) => {
                let words = running.into_words();
                return stopped(alloc, &before, words, Round::At(round), stop);
            }
        }
    }
    before.mark(running.words());
    match before.tapes(alloc, running.into_words()) {
        Ok(tapes) => Ok(Outcome::Done(tapes)),
        Err(_) => Err(RunRefusal::NoMemory),
    }
}

/// The outcome of a run that was stopped, with the words that its tapes had when the round began.
fn stopped(
    alloc: Global,
    marks: &Marks,
    words: Vec<Vec<Word>>,
    round: Round,
    stop: Stop,
) -> Result<Outcome, RunRefusal>
    requires marks { IsMarks marks.now }
    requires each { length words.items ≡ length marks.now.nodes.now }
    ensures outcome { IfOk result (IsStopped stop round
        (kept_tapes marks.now (words_of words.items))) }
    ensures memory { IfErr result (λ refusal. refusal ≡ refused.NoMemory) }
{
    let Ok(tapes) = marks.tapes(alloc, words) else {
        return Err(RunRefusal::NoMemory);
    };
    match stop {
        Stop::Fault {
            node,
            firing,
            cause,
        } => Ok(Outcome::Fault {
            node,
            firing,
            round,
            cause,
            tapes,
        }),
        Stop::NoMemory => Err(RunRefusal::NoMemory),
    }
}
