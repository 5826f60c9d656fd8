// The code of helper functions.

ghost use Rattle.std.specs.Prelude.{◌≡◌, IfOk};
ghost use Rattle.strc_work_meaning.specs.Filters.{filter_of};
ghost use Rattle.strc_work_code.specs.Helpers.{AreHelpers, saved_slots};
ghost use Rattle.strc_work_code.specs.Lowering.{field_scope, helpers_room};

use crate::node::Node;
use strc_lex_names::memory::NoMemory;
use strc_lex_names::name::Name;
use strc_parse_tree::tree::FilterTree;
use strc_work_meaning::fault::CALL_LIMIT;

/// The code of a helper function: its name, how many parameters it has, its block's code and flat
/// form, which is what is run, and how many slots a call of it needs.
#[derive(Drop)]
pub struct HelperCode {
    pub name: Name,
    pub parameters: usize,
    pub code: Node,
    pub flat: Node,
    pub slots: usize,
}

/// How many slots a call of any of a filter's helper functions needs.
pub fn room_for_calls(tree: &FilterTree, helpers: &[HelperCode]) -> usize
    requires { AreHelpers (field_scope (filter_of tree.now)) (filter_of tree.now).members
        helpers.now }
    ensures { result ≡ helpers_room (field_scope (filter_of tree.now))
        (filter_of tree.now).members }
{
    let mut room = 0;
    for helper in helpers {
        room = room.max(helper.slots);
    }
    room
}

/// How many slots the locals of callers need that wait for their calls, where so many slots are
/// those of fields, so many are needed in all, and so many by a call. NoMemory where they are more
/// than there can be.
pub fn room_to_save(fields: usize, slots: usize, calls: usize) -> Result<usize, NoMemory>
    ensures { IfOk result (λ room. room ≡ saved_slots fields slots calls) }
{
    if calls == 0 {
        return Ok(0);
    }
    let first = slots.saturating_sub(fields);
    let others = calls
        .saturating_sub(fields)
        .checked_mul(CALL_LIMIT as usize);
    match others.and_then(|room| room.checked_add(first)) {
        Some(room) => Ok(room),
        None => Err(NoMemory),
    }
}
