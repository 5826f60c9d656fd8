// What comes to a stage in a parcel.

ghost use Rattle.std.specs.Prelude.{◌≡◌};
ghost use Rattle.strc_sched_laws.specs.Machine.{CircuitView};
ghost use Rattle.strc_stage_core.specs.Parcels as spec;
ghost use Rattle.strc_sched_machine.specs.Running.{IsMachine, machine_view};
ghost use Rattle.strc_stage_steps.specs.Steps.{load_entered, machine_entered};

use crate::Crossing;
use strc_sched_machine::machine::Machine;
use strc_stage_core::Parcel;

/// The items of a parcel's blocks go into the rings of the channels that enter.
pub(crate) fn enter(machine: &mut Machine, entering: &[Crossing], parcel: &mut Parcel)
    ensures machine { (circuit : CircuitView) → IsMachine circuit machine.old
        → IsMachine circuit machine.new }
    ensures entered { machine_view machine.new
        ≡ machine_entered entering.now parcel.old.load (machine_view machine.old) }
    ensures left { parcel.new ≡ spec.parcel (load_entered entering.now parcel.old.load)
        parcel.old.stop parcel.old.last }
{
    fill_rings(machine, entering, parcel);
    clear_blocks(entering, parcel);
}

fn fill_rings(machine: &mut Machine, entering: &[Crossing], parcel: &Parcel)
    ensures machine { (circuit : CircuitView) → IsMachine circuit machine.old
        → IsMachine circuit machine.new }
    ensures entered { machine_view machine.new
        ≡ machine_entered entering.now parcel.now.load (machine_view machine.old) }
{
    for crossing in entering {
        machine.enter(crossing.ring, parcel.block(crossing.block));
    }
}

fn clear_blocks(entering: &[Crossing], parcel: &mut Parcel)
    ensures { parcel.new ≡ spec.parcel (load_entered entering.now parcel.old.load)
        parcel.old.stop parcel.old.last }
{
    for crossing in entering {
        parcel.clear_block(crossing.block);
    }
}
