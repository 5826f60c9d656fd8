// A routine from its code.

ghost use Rattle.std.specs.Prelude.{◌≡◌, IfOk};
ghost use Rattle.strc_work_code.specs.Code.{code_of};
ghost use Rattle.strc_work_code.specs.Flat.{IsFlat};
ghost use Rattle.strc_work_code.specs.Links.{IsLinked};

use std::alloc::Global;
use strc_lex_names::memory::NoMemory;
use strc_work_code::code::Routine;
use strc_work_code::limits::FiringLimits;
use strc_work_code::node::Node;
use strc_work_linearization::linearize::linearize;
use strc_work_linearization::links::Links;

/// The routine of this code.
pub fn routine_of(
    alloc: Global,
    links: &Links,
    code: Node,
    limits: FiringLimits,
) -> Result<Routine, NoMemory>
    ensures code { IfOk result (λ routine. routine.code ≡ code) }
    ensures flat { IfOk result (λ routine. IsFlat routine.flat (code_of routine.code)) }
    ensures linked { IfOk result (λ routine. IsLinked links.now routine.flat) }
    ensures limits { IfOk result (λ routine. routine.limits ≡ limits) }
{
    let flat = linearize(alloc, links, &code)?;
    Ok(Routine { code, flat, limits })
}
