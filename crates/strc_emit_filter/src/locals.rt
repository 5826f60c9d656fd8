// Locals.

ghost use Rattle.std.specs.Prelude.{◌≡◌, ◌++◌, OnOk};
ghost use Rattle.strc_emit_text.specs.Texts.{texts_below};
ghost use Rattle.strc_emit_filter.specs.Variables as spec;

use crate::fields::{array_length, slot_at};
use strc_emit_c::function::Function;
use strc_emit_c::names::{array_of, push_name};
use strc_emit_c::text::{push_bytes, push_number};
use strc_lex_names::memory::NoMemory;

/// The longest local array that is on the stack.
pub const STACK_ARRAY: u32 = 64;

/// Adds the locals of code that needs so many slots.
pub(crate) fn push_locals(
    text: &mut Vec<u8>,
    function: &Function,
    slots: usize,
) -> Result<(), NoMemory>
    ensures { OnOk result (text.new.items ≡ text.old.items
        ++ texts_below (spec.local_text function.now) slots) }
{
    for place in 0..slots {
        let slot = slot_at(place)?;
        push_local(text, function, slot)?;
    }
    Ok(())
}

// Adds the local that begins at a slot, where one does.
fn push_local(text: &mut Vec<u8>, function: &Function, slot: u32) -> Result<(), NoMemory>
    ensures { OnOk result (text.new.items ≡ text.old.items ++ spec.local_text function.now slot) }
{
    if slot < function.fields {
        return Ok(());
    }
    match array_of(&function.arrays, slot) {
        None => push_plain(text, function, slot),
        Some(from) => {
            if from == slot {
                let length = array_length(&function.arrays, slot)?;
                push_array(text, function, slot, length)
            } else {
                Ok(())
            }
        }
    }
}

// `int32_t v5 = 0;`
fn push_plain(text: &mut Vec<u8>, function: &Function, slot: u32) -> Result<(), NoMemory>
    ensures { OnOk result (text.new.items ≡ text.old.items ++ spec.plain_local function.now slot) }
{
    push_bytes(text, b"    int32_t ")?;
    push_name(text, function, slot)?;
    push_bytes(text, b" = 0;\n")
}

// Adds an array: a large one isn't on the stack, and running calls have one each.
fn push_array(
    text: &mut Vec<u8>,
    function: &Function,
    slot: u32,
    length: u32,
) -> Result<(), NoMemory>
    ensures { OnOk result (text.new.items ≡ text.old.items
        ++ spec.array_local function.now slot length) }
{
    if length <= STACK_ARRAY {
        push_small(text, function, slot, length)
    } else if function.in_helper {
        push_each(text, function, slot, length)
    } else {
        push_static(text, function, slot, length)
    }
}

// `int32_t v5[4] = {0};`
fn push_small(
    text: &mut Vec<u8>,
    function: &Function,
    slot: u32,
    length: u32,
) -> Result<(), NoMemory>
    ensures { OnOk result (text.new.items ≡ text.old.items
        ++ spec.small_array function.now slot length) }
{
    push_bytes(text, b"    int32_t ")?;
    push_name(text, function, slot)?;
    push_bytes(text, b"[")?;
    push_number(text, length)?;
    push_bytes(text, b"] = {0};\n")
}

// `static int32_t v5[100];`
fn push_static(
    text: &mut Vec<u8>,
    function: &Function,
    slot: u32,
    length: u32,
) -> Result<(), NoMemory>
    ensures { OnOk result (text.new.items ≡ text.old.items
        ++ spec.static_array function.now slot length) }
{
    push_bytes(text, b"    static int32_t ")?;
    push_name(text, function, slot)?;
    push_bytes(text, b"[")?;
    push_number(text, length)?;
    push_bytes(text, b"];\n")
}

// One for each depth of calls, and that of this call.
fn push_each(
    text: &mut Vec<u8>,
    function: &Function,
    slot: u32,
    length: u32,
) -> Result<(), NoMemory>
    ensures { OnOk result (text.new.items ≡ text.old.items
        ++ spec.each_array function.now slot length) }
{
    push_rows(text, function, slot, length)?;
    push_bytes(text, b"    int32_t *")?;
    push_name(text, function, slot)?;
    push_bytes(text, b" = ")?;
    push_name(text, function, slot)?;
    push_bytes(text, b"_each[depth - 1];\n")
}

// `static int32_t v5_each[CALL_LIMIT][100];`
fn push_rows(
    text: &mut Vec<u8>,
    function: &Function,
    slot: u32,
    length: u32,
) -> Result<(), NoMemory>
    ensures { OnOk result (text.new.items ≡ text.old.items
        ++ spec.rows_text function.now slot length) }
{
    push_bytes(text, b"    static int32_t ")?;
    push_name(text, function, slot)?;
    push_bytes(text, b"_each[CALL_LIMIT][")?;
    push_number(text, length)?;
    push_bytes(text, b"];\n")
}
