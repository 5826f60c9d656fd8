// The lines around the blocks of choices and loops.

ghost use Rattle.std.specs.Prelude.{◌≡◌, ◌++◌, OnOk};
ghost use Rattle.strc_emit_c.specs.Spelling as spelling;

use crate::function::Function;
use crate::names::push_slot;
use crate::text::{push_bytes, push_indent};
use strc_lex_names::memory::NoMemory;

/// `if (v5 != 0) {`
pub fn push_if(
    text: &mut Vec<u8>,
    function: &Function,
    depth: u32,
    slot: u32,
) -> Result<(), NoMemory>
    ensures { OnOk result (text.new.items ≡ text.old.items
        ++ spelling.if_line function.now depth slot) }
{
    push_indent(text, depth)?;
    push_bytes(text, b"if (")?;
    push_slot(text, function, slot)?;
    push_bytes(text, b" != 0) {\n")
}

/// `} else {`
pub fn push_else(text: &mut Vec<u8>, depth: u32) -> Result<(), NoMemory>
    ensures { OnOk result (text.new.items ≡ text.old.items ++ spelling.else_line depth) }
{
    push_indent(text, depth)?;
    push_bytes(text, b"} else {\n")
}

/// `}`
pub fn push_end(text: &mut Vec<u8>, depth: u32) -> Result<(), NoMemory>
    ensures { OnOk result (text.new.items ≡ text.old.items ++ spelling.end_line depth) }
{
    push_indent(text, depth)?;
    push_bytes(text, b"}\n")
}

/// `for (;;) {`
pub fn push_loop(text: &mut Vec<u8>, depth: u32) -> Result<(), NoMemory>
    ensures { OnOk result (text.new.items ≡ text.old.items ++ spelling.loop_line depth) }
{
    push_indent(text, depth)?;
    push_bytes(text, b"for (;;) {\n")
}

/// `if (v5 == 0) break;`
pub fn push_break(
    text: &mut Vec<u8>,
    function: &Function,
    depth: u32,
    slot: u32,
) -> Result<(), NoMemory>
    ensures { OnOk result (text.new.items ≡ text.old.items
        ++ spelling.break_line function.now depth slot) }
{
    push_indent(text, depth)?;
    push_bytes(text, b"if (")?;
    push_slot(text, function, slot)?;
    push_bytes(text, b" == 0) break;\n")
}
