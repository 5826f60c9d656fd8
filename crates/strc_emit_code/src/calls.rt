// Calls of helper functions.

ghost use Rattle.std.specs.Prelude.{◌≡◌, ◌++◌, OnOk, IfOk};
ghost use Rattle.strc_work_code.specs.Links.{place_of};
ghost use Rattle.strc_emit_c.specs.Spelling.{line_text};
ghost use Rattle.strc_emit_code.specs.Emitted.{call_line};

use strc_emit_c::calls::push_call;
use strc_emit_c::function::Function;
use strc_emit_c::statements::push_leave;
use strc_lex_names::memory::NoMemory;
use strc_lex_names::name::Name;
use strc_lex_names::scope::Scope;
use strc_work_code::call::Call;
use strc_work_meaning::fault::Cause;

/// Adds a call.
pub(crate) fn push_called(
    text: &mut Vec<u8>,
    function: &Function,
    depth: u32,
    call: &Call,
) -> Result<(), NoMemory>
    ensures { OnOk result (text.new.items ≡ text.old.items ++ line_text function.now depth
        (call_line (place_of function.now.helpers call.now.name) call.now.first
        call.now.count call.now.into)) }
{
    match place_among(&function.helpers, &call.name)? {
        Some(place) => push_call(
            text, function, depth, place, call.first, call.count, call.into,
        ),
        None => push_leave(text, function, depth, Cause::Calls),
    }
}

/// Where the first of these names is that is this one, counted from 0. It takes expected constant
/// time.
fn place_among(names: &Scope, name: &Name) -> Result<Option<u32>, NoMemory>
    ensures { IfOk result (λ place. place ≡ place_of names.now name.now) }
{
    match place_in(names, name) {
        None => Ok(None),
        Some(place) => match u32::try_from(place) {
            Ok(place) => Ok(Some(place)),
            Err(_) => Err(NoMemory),
        },
    }
}

/// The same as a number of any size.
fn place_in(names: &Scope, name: &Name) -> Option<usize>
    ensures { result ≡ place_of names.now name.now }
{
    match names.number_of(name) {
        Some(after) => Some(names.len() - 1 - after),
        None => None,
    }
}
