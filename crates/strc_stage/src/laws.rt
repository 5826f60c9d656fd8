// What the stages of a plan's pipe can take.

ghost use Rattle.strc_stage.specs.Laws.{ParcelsFitStages};

/// In any state of a plan's pipe each parcel that a stage can take fits it, as `Stage::fits` tells.
pub fn parcels_fit_stages()
    ensures { ParcelsFitStages }
{}
