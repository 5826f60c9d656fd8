// The items of a round in place of the program's input.

ghost use Rattle.std.specs.Arc.{arc_value};
ghost use Rattle.std.specs.Prelude.{◌≡◌, OnOk};

use std::alloc::{AllocFailed, Global};
use std::mem;
use std::sync::Arc;
use strc_lex_names::memory::NoMemory;

/// These items become the input; what it was is given back where it isn't shared, so that its
/// memory is used again.
pub(crate) fn swap_input(
    alloc: Global,
    input: &mut Arc<Vec<i32>>,
    items: &mut Vec<i32>,
) -> Result<(), NoMemory>
    ensures { OnOk result ((arc_value input.new).items ≡ items.old.items) }
{
    if let Some(own) = Arc::get_mut(input) {
        mem::swap(own, items);
        return Ok(());
    }
    let own = mem::replace(items, Vec::new(alloc));
    match Arc::new(alloc, own) {
        Ok(fresh) => {
            *input = fresh;
            Ok(())
        }
        Err(_) => Err(NoMemory),
    }
}
