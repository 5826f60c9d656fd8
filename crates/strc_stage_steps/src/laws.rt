// What dealing a state out is worth.

ghost use Rattle.strc_stage_steps.specs.DealtLaws.{DealtMachinesHold, DealtStatesHaveRoom};
ghost use Rattle.strc_stage_steps.specs.DealtLaws.{FissionsHaveOrigins};
ghost use Rattle.strc_stage_steps.specs.DealtRows.{DealtRow};

/// The origins that fission gives say what each node after it stands for.
pub fn fissions_have_origins()
    ensures { FissionsHaveOrigins }
{}

/// Where a machine holds the state that start-up came to, the one that it is dealt out to holds the
/// state dealt out.
pub fn dealt_machines_hold()
    ensures { DealtMachinesHold }
{}

/// Where rings have room for the state dealt out, they have it for what waits after start-up.
pub fn dealt_states_have_room()
    ensures { DealtStatesHaveRoom }
{}

/// Two items that wait at a filter after start-up wait at its scatter, and no part has fired.
pub fn dealt_row()
    ensures { DealtRow }
{}
