// Calls of helper functions.

ghost use Rattle.std.specs.Prelude.{◌≡◌, ◌++◌, ◌+◌, OnOk, IfOk};
ghost use Rattle.strc_emit_c.specs.C as c;
ghost use Rattle.strc_emit_c.specs.Spelling.{arguments_text, call_head, line_text, more_arguments};

use crate::function::Function;
use crate::names::{push_helper, push_slot};
use crate::text::{push_bytes, push_indent};
use strc_lex_names::memory::NoMemory;

/// `v5 = helper3_0(v6, v7);`: a call with so many arguments, in slots from one on.
pub fn push_call(
    text: &mut Vec<u8>,
    function: &Function,
    depth: u32,
    helper: u32,
    first: u32,
    count: u32,
    into: u32,
) -> Result<(), NoMemory>
    ensures { OnOk result (text.new.items ≡ text.old.items
        ++ line_text function.now depth (c.Call helper first count into)) }
{
    push_head(text, function, depth, helper, into)?;
    push_arguments(text, function, first, count)?;
    push_bytes(text, b");\n")
}

/// Adds the beginning of a call, up to its arguments.
fn push_head(
    text: &mut Vec<u8>,
    function: &Function,
    depth: u32,
    helper: u32,
    into: u32,
) -> Result<(), NoMemory>
    ensures { OnOk result (text.new.items ≡ text.old.items
        ++ call_head function.now depth helper into) }
{
    push_indent(text, depth)?;
    push_slot(text, function, into)?;
    push_bytes(text, b" = ")?;
    push_helper(text, function.node, helper)?;
    push_bytes(text, b"(")
}

/// Adds the arguments of a call.
fn push_arguments(
    text: &mut Vec<u8>,
    function: &Function,
    first: u32,
    count: u32,
) -> Result<(), NoMemory>
    ensures { OnOk result (text.new.items ≡ text.old.items
        ++ arguments_text function.now first count) }
{
    if count == 0 {
        return Ok(());
    }
    push_slot(text, function, first)?;
    push_more(text, function, first, count - 1)
}

/// Adds so many arguments after the one in a slot.
fn push_more(text: &mut Vec<u8>, function: &Function, slot: u32, count: u32) -> Result<(), NoMemory>
    ensures { OnOk result (text.new.items ≡ text.old.items
        ++ more_arguments function.now slot count) }
{
    let mut last = slot;
    let mut left = count;
    while left > 0 {
        last = slot_after(last, 1)?;
        push_bytes(text, b", ")?;
        push_slot(text, function, last)?;
        left -= 1;
    }
    Ok(())
}

/// The slot so many after another one. NoMemory where no instruction can name it.
pub fn slot_after(slot: u32, count: u32) -> Result<u32, NoMemory>
    ensures { IfOk result (λ after. after ≡ slot + count) }
{
    match slot.checked_add(count) {
        Some(after) => Ok(after),
        None => Err(NoMemory),
    }
}
