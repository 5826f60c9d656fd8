// What a stage sends on in a parcel.

ghost use Rattle.std.specs.Prelude.{◌≡◌, []};
ghost use Rattle.strc_sched_laws.specs.Machine.{CircuitView};
ghost use Rattle.strc_sched_laws.specs.Rings.{items_at};
ghost use Rattle.strc_stage_core.specs.Parcels as spec;
ghost use Rattle.strc_sched_machine.specs.Running.{IsMachine, machine_view, with_rings};
ghost use Rattle.strc_stage_steps.specs.Steps.{load_left, rings_left};

use crate::Crossing;
use strc_sched_machine::machine::Machine;
use strc_stage_core::Parcel;

/// The items on the channels that leave go into their blocks of a parcel.
pub(crate) fn leave(machine: &mut Machine, leaving: &[Crossing], parcel: &mut Parcel)
    ensures machine { (circuit : CircuitView) → IsMachine circuit machine.old
        → IsMachine circuit machine.new }
    ensures left { machine_view machine.new ≡ with_rings
        (rings_left leaving.now (machine_view machine.old).rings) (machine_view machine.old) }
    ensures sent { parcel.new ≡ spec.parcel
        (load_left leaving.now (machine_view machine.old).rings parcel.old.load)
        parcel.old.stop parcel.old.last }
{
    fill_blocks(machine, leaving, parcel);
    clear_rings(machine, leaving);
}

fn fill_blocks(machine: &Machine, leaving: &[Crossing], parcel: &mut Parcel)
    ensures { parcel.new ≡ spec.parcel
        (load_left leaving.now (machine_view machine.now).rings parcel.old.load)
        parcel.old.stop parcel.old.last }
{
    for crossing in leaving {
        fill_block(machine, *crossing, parcel);
    }
}

/// The items of a ring, in its two pieces, go into a block.
fn fill_block(machine: &Machine, crossing: Crossing, parcel: &mut Parcel)
    ensures { parcel.new ≡ spec.parcel
        (spec.filled parcel.old.load crossing.block
        (items_at (machine_view machine.now).rings (Some crossing.ring)))
        parcel.old.stop parcel.old.last }
{
    let (front, back) = machine.items(crossing.ring);
    parcel.fill_within(crossing.block, front);
    parcel.fill_within(crossing.block, back);
}

fn clear_rings(machine: &mut Machine, leaving: &[Crossing])
    ensures machine { (circuit : CircuitView) → IsMachine circuit machine.old
        → IsMachine circuit machine.new }
    ensures left { machine_view machine.new ≡ with_rings
        (rings_left leaving.now (machine_view machine.old).rings) (machine_view machine.old) }
{
    for crossing in leaving {
        machine.clear_ring(crossing.ring);
    }
}
