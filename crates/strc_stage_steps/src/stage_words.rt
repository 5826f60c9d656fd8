// The words that a stage's nodes give.

ghost use Rattle.std.specs.Prelude.{◌≡◌, [], slice_set};
ghost use Rattle.strc_sched_laws.specs.Machine.{CircuitView, words_at};
ghost use Rattle.strc_stage_core.specs.Parcels as spec;
ghost use Rattle.strc_sched_machine.specs.Running.{IsMachine, machine_view, with_words};
ghost use Rattle.strc_stage_steps.specs.Steps.{load_worded, words_left};
ghost use Rattle.strc_stage_steps.specs.Tapes.{AreAfter};

use crate::TapeOf;
use std::alloc::Global;
use strc_sched_machine::machine::Machine;
use strc_stage_core::Parcel;
use strc_work_meaning::word::Word;

/// The words that the tapes' nodes have given go into a parcel; their memory is exchanged for that
/// of the parcel's.
pub(crate) fn hand_words(
    machine: &mut Machine,
    alloc: Global,
    tapes: &[TapeOf],
    parcel: &mut Parcel,
)
    requires after { AreAfter 0 tapes.now }
    ensures machine { (circuit : CircuitView) → IsMachine circuit machine.old
        → IsMachine circuit machine.new }
    ensures left { machine_view machine.new ≡ with_words
        (words_left tapes.now (machine_view machine.old).words) (machine_view machine.old) }
    ensures sent { parcel.new ≡ spec.parcel
        (load_worded tapes.now (machine_view machine.old).words parcel.old.load)
        parcel.old.stop parcel.old.last }
{
    for own in tapes {
        hand_tape(machine, alloc, *own, parcel);
    }
}

/// Those of one tape.
fn hand_tape(machine: &mut Machine, alloc: Global, own: TapeOf, parcel: &mut Parcel)
    ensures machine { (circuit : CircuitView) → IsMachine circuit machine.old
        → IsMachine circuit machine.new }
    ensures left { machine_view machine.new ≡ with_words
        (slice_set (machine_view machine.old).words own.node []) (machine_view machine.old) }
    ensures sent { parcel.new ≡ spec.parcel
        (spec.with_words parcel.old.load own.tape (words_at (machine_view machine.old).words
        own.node)) parcel.old.stop parcel.old.last }
{
    let mut words = parcel.take_words(alloc, own.tape);
    words.clear();
    parcel.put_words(own.tape, exchange(machine, own.node, words));
}

/// A node's words, for which an empty list is given; none where there is no such node.
fn exchange(machine: &mut Machine, node: usize, empty: Vec<Word>) -> Vec<Word>
    requires { empty.items ≡ [] }
    ensures machine { (circuit : CircuitView) → IsMachine circuit machine.old
        → IsMachine circuit machine.new }
    ensures left { machine_view machine.new ≡ with_words
        (slice_set (machine_view machine.old).words node []) (machine_view machine.old) }
    ensures words { result.items ≡ words_at (machine_view machine.old).words node }
{
    let mut words = empty;
    if node >= machine.words().len() {
        return words;
    }
    machine.swap_words(node, &mut words);
    words
}
