// Whether a filter has no state.

ghost use Rattle.std.specs.Prelude.{◌≡◌};
ghost use Rattle.strc_work_meaning.specs.Filters.{filter_of};
ghost use Rattle.strc_work_writes.specs.Stateless.{is_stateless};

use strc_work_code::code::Code;

/// Whether a filter has no state, so that its firings are all alike: it has no prework, doesn't
/// print, and its work writes no field and no element of one, also not by its calls. It was found
/// out when the filter was lowered, so that it takes a step and no memory.
pub fn stateless(code: &Code) -> bool
    ensures { result ≡ is_stateless (filter_of code.now) }
{
    code.is_stateless()
}
