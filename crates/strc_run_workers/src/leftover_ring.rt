// A ring that its workers left goes on on one thread.

ghost use Rattle.std.specs.Prelude.{IfOk};
ghost use Rattle.strc_stage_steps.specs.Pipes.{Beginning, IsStateOf};
ghost use Rattle.strc_stage_core.specs.Seeing.{core_of_parts};
ghost use Rattle.strc_stage_steps.specs.Collectors.{sees};
ghost use Rattle.strc_stage_steps.specs.Stages.{see};
ghost use Rattle.strc_run_workers.specs.Leftovers.{Drives, IsLeft};

use std::alloc::Global;
use strc_lex_names::memory::NoMemory;
use strc_stage_steps::{Collector, Parts, Pipe, Stage};

/// The collector of a ring that workers left, after its last parcel. Where a worker ended before
/// that, what is left of the events happens here.
pub(crate) fn driven(alloc: Global, parts: Parts<Stage, Collector>) -> Result<Collector, NoMemory>
    requires { IsLeft parts }
    ensures { IfOk result (λ collector. (start : Beginning)
        → IsStateOf start (core_of_parts see sees parts) → Drives start collector) }
{
    let pipe = Pipe::join(parts)?;
    Ok(pipe.drive(alloc))
}
