// The functions of bodies.

ghost use Rattle.std.specs.Prelude.{◌≡◌, ◌++◌, OnOk};
ghost use Rattle.strc_emit_filter.specs.Filters as spec;

use crate::locals::push_locals;
use strc_emit_c::function::Function;
use strc_emit_c::text::push_bytes;
use strc_emit_code::nodes::push_node;
use strc_emit_text::pieces::Piece::{Bytes, Number};
use strc_emit_text::pieces::push_pieces;
use strc_lex_names::memory::NoMemory;
use strc_work_code::node::Node;

/// Adds the function of a body, by its name.
pub(crate) fn push_body(
    text: &mut Vec<u8>,
    function: &Function,
    name: &[u8],
    counts_alone: bool,
    code: &Node,
) -> Result<(), NoMemory>
    ensures { OnOk result (text.new.items ≡ text.old.items
        ++ spec.body_text function.now name.now counts_alone code.now) }
{
    push_head(text, function.node, name)?;
    push_counter(text, counts_alone)?;
    push_locals(text, function, code.slot_count())?;
    push_node(text, function, 1, code)?;
    push_bytes(text, b"    return NO_FAULT;\n}\n")
}

// `static int work3(const int32_t *in, int32_t *out) {`, and what it counts.
fn push_head(text: &mut Vec<u8>, node: u32, name: &[u8]) -> Result<(), NoMemory>
    ensures { OnOk result (text.new.items ≡ text.old.items ++ spec.body_head node name.now) }
{
    push_pieces(
        text,
        &[
            Bytes(b"static int "),
            Bytes(name),
            Number(u128::from(node)),
            Bytes(b"(const int32_t *in, int32_t *out) {\n"),
            Bytes(b"    int32_t popped = 0, pushed = 0;\n"),
        ],
    )
}

// Adds the counter of turns of a body that calls no helper function, which count the same ones.
fn push_counter(text: &mut Vec<u8>, counts_alone: bool) -> Result<(), NoMemory>
    ensures { OnOk result (text.new.items ≡ text.old.items ++ spec.counter_text counts_alone) }
{
    if counts_alone {
        push_bytes(text, b"    int32_t turns = 0;\n")
    } else {
        Ok(())
    }
}
