// From a filter's syntax tree to its code.

ghost use Rattle.strc_work_meaning.specs.Filters.{filter_of, filter_parts};
ghost use Rattle.strc_work_rules.specs.RefusedPlaces.{Stands, filter_place};
ghost use Rattle.strc_work_rules.specs.Resolution.{filter_resolved};
ghost use Rattle.strc_work_rules.specs.Verdicts.{IsVerdict};

use crate::code::Code;
use std::alloc::Global;
use strc_lex_names::place::Span;
use strc_parse_tree::tree::{FilterTree, ItemType, Member};
use strc_work_lowering::emission;
use strc_work_meaning::constants::Constants;
use strc_work_rules::error::{LowerError, placed};
use strc_work_rules::resolution;

/// The code of a filter, with its constants substituted.
pub fn lower(alloc: Global, tree: &FilterTree, constants: &Constants) -> Result<Code, LowerError>
    ensures { IsVerdict filter_of (filter_resolved constants.now (filter_of tree.now)) result }
{
    let mut here = None;
    let lowered = lower_parts(
        alloc,
        tree.input,
        tree.output,
        &tree.members,
        constants,
        &mut here,
    );
    placed(here, lowered)
}

/// The code of a filter that is given by its types and its members, with its constants substituted.
/// Where it is refused, `here` is the innermost statement, rate or declaration of fields around
/// what breaks the rule.
pub fn lower_parts(
    alloc: Global,
    input: ItemType,
    output: ItemType,
    members: &[Member],
    constants: &Constants,
    here: &mut Option<Span>,
) -> Result<Code, LowerError>
    ensures verdict { IsVerdict filter_of (filter_resolved constants.now
        (filter_parts input output members.now)) result }
    ensures here { Stands result (filter_place constants.now input output here.old members.now)
        here.old here.new }
{
    let tree = resolution::resolve_filter(alloc, input, output, members, constants, here)?;
    let code = emission::emit_filter(alloc, tree)?;
    Ok(code)
}
