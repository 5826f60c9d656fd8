// What streams take and give.

ghost use Rattle.std.specs.Prelude.{◌≡◌, IfOk};
ghost use Rattle.std.specs.List.{list_any};
ghost use Rattle.strc_elab_statements.specs.Sides as spec;
ghost use Rattle.strc_elab_stream.specs.Types as stream_types;

use std::alloc::{AllocError, Global};
use strc_parse_tree::tree::{ItemType, StreamType};

/// Whether there are items.
pub fn is_int(side: ItemType) -> bool
    ensures { result ≡ stream_types.is_int side }
{
    match side {
        ItemType::Int => true,
        ItemType::Void => false,
    }
}

/// A side with items, or without.
pub fn side(is_int: bool) -> ItemType
    ensures { result ≡ stream_types.side is_int }
{
    if is_int {
        ItemType::Int
    } else {
        ItemType::Void
    }
}

/// Whether one of these streams has items.
pub fn has_items(sides: &[ItemType]) -> bool
    ensures { result ≡ list_any stream_types.is_int sides.now }
{
    for side in sides {
        if is_int(*side) {
            return true;
        }
    }
    false
}

/// What streams side by side have: items where one of them does.
pub fn any_side(sides: &[ItemType]) -> ItemType
    ensures { result ≡ spec.any_side sides.now }
{
    side(has_items(sides))
}

/// What streams side by side take.
pub fn inputs_in(alloc: Global, types: &[StreamType]) -> Result<Vec<ItemType>, AllocError>
    ensures { IfOk result (λ sides. sides.items ≡ spec.inputs_in types.now) }
{
    types.iter().map(|found| found.input).collect(alloc)
}

/// What streams side by side give.
pub fn outputs_in(alloc: Global, types: &[StreamType]) -> Result<Vec<ItemType>, AllocError>
    ensures { IfOk result (λ sides. sides.items ≡ spec.outputs_in types.now) }
{
    types.iter().map(|found| found.output).collect(alloc)
}

/// Items come in and go out.
pub fn passes_items(found: StreamType) -> bool
    ensures { result ≡ spec.passes_items found }
{
    is_int(found.input) && is_int(found.output)
}

/// What streams in a row take and give, where there is one.
pub fn types_in_a_row(types: &[StreamType]) -> Option<StreamType>
    ensures { result ≡ spec.row_types types.now }
{
    match types {
        [] => None,
        [only] => Some(*only),
        [first, .., last] => Some(StreamType {
            input: first.input,
            output: last.output,
        }),
    }
}
