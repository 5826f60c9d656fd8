// The free parcels that a ring begins with.

ghost use Rattle.std.specs.Prelude.{◌≡◌, ◌<◌, ◌*◌, IfOk, All, length, slice_get, Some};
ghost use Rattle.strc_stage_steps.specs.Blocks.{IsFreeFor};
ghost use Rattle.strc_stage_steps.specs.declared.stage.StageParts.{StageParts};

use std::alloc::{AllocError, Global};
use strc_stage_core::Parcel;
use strc_stage_steps::Stage;

/// Two parcels for each stage, as the first one can take them.
pub(crate) fn free_parcels(alloc: Global, stages: &[Stage]) -> Result<Vec<Parcel>, AllocError>
    requires { 0 < length stages.now }
    ensures each { IfOk result (λ free. length free.items ≡ 2 * length stages.now) }
    ensures free { IfOk result (λ free. (first : StageParts) → slice_get stages.now 0 ≡ Some first
        → All (IsFreeFor first) free.items) }
{
    let first = &stages[0];
    let mut free = Vec::new(alloc);
    for _stage in 0..stages.len() {
        free.push(first.parcel(alloc))?;
        free.push(first.parcel(alloc))?;
    }
    Ok(free)
}
