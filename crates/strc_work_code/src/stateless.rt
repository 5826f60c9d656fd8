// Whether a filter has no state.

ghost use Rattle.std.specs.Prelude.{◌≡◌, IfOk};
ghost use Rattle.strc_work_meaning.specs.Filters.{filter_of};
ghost use Rattle.strc_work_writes.specs.Stateless as spec;

use crate::bodies::{block_of, block_prints, has_prework};
use std::alloc::Global;
use strc_lex_names::memory::NoMemory;
use strc_parse_tree::tree::FilterTree;
use strc_work_meaning::body::Body;
use strc_work_writes::field_writes::writes_field;
use strc_work_writes::helper_writes::calls_writer;

/// Whether a filter has no prework, doesn't print, and writes no field in its work, nor by a call
/// there. `NoMemory` where there is none for the names in it.
pub(crate) fn is_stateless(alloc: Global, tree: &FilterTree) -> Result<bool, NoMemory>
    ensures { IfOk result (λ is. is ≡ spec.is_stateless (filter_of tree.now)) }
{
    let work = block_of(&tree.members, Body::Work);
    if has_prework(&tree.members) || block_prints(work) {
        return Ok(false);
    }
    if writes_field(alloc, &tree.members, work)? {
        return Ok(false);
    }
    Ok(!calls_writer(alloc, &tree.members, work)?)
}
