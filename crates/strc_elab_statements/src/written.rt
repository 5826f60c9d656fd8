// Whether a stream's type is the one that is written.

ghost use Rattle.std.specs.Prelude.{◌≡◌};
ghost use Rattle.strc_elab_statements.specs.Written as spec;

use strc_parse_tree::tree::{ItemType, StreamType};

/// One type is the other.
pub fn same_item(side: ItemType, other: ItemType) -> bool
    ensures { result ≡ spec.same_item side other }
{
    match (side, other) {
        (ItemType::Int, ItemType::Int) | (ItemType::Void, ItemType::Void) => true,
        (ItemType::Int, ItemType::Void) | (ItemType::Void, ItemType::Int) => false,
    }
}

/// Whether a stream's type is the written one, where one is written.
pub fn is_as_written(written: Option<StreamType>, found: StreamType) -> bool
    ensures { result ≡ spec.is_as_written written found }
{
    match written {
        None => true,
        Some(written) => {
            same_item(written.input, found.input) && same_item(written.output, found.output)
        }
    }
}
