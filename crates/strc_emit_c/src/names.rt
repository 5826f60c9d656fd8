// Slots as C names them.

ghost use Rattle.std.specs.Prelude.{◌≡◌, ◌++◌, ◌≤◌, OnOk, IfSome, codes};
ghost use Rattle.strc_emit_c.specs.Spelling as spelling;

use crate::function::Function;
use crate::text::{push_bytes, push_number};
use strc_lex_names::memory::NoMemory;

/// Where the array begins that a slot is in: a table has it for each slot.
pub fn array_of(arrays: &[Option<u32>], slot: u32) -> Option<u32>
    ensures array { result ≡ spelling.array_in arrays.now slot }
    ensures within { IfSome result (λ from. from ≤ slot) }
{
    let place = slot as usize;
    if place >= arrays.len() {
        return None;
    }
    match arrays[place] {
        Some(from) if from <= slot => Some(from),
        _ => None,
    }
}

/// Adds the name of the variable that begins at a slot: `f3_5` of a field of node 3, `v5` of a
/// local.
pub fn push_name(text: &mut Vec<u8>, function: &Function, slot: u32) -> Result<(), NoMemory>
    ensures { OnOk result (text.new.items ≡ text.old.items
        ++ spelling.name_text function.now slot) }
{
    if slot < function.fields {
        push_bytes(text, b"f")?;
        push_number(text, function.node)?;
        push_bytes(text, b"_")?;
    } else {
        push_bytes(text, b"v")?;
    }
    push_number(text, slot)
}

/// Adds a slot: `v5`, or `v4[1]` where it is in an array.
pub fn push_slot(text: &mut Vec<u8>, function: &Function, slot: u32) -> Result<(), NoMemory>
    ensures { OnOk result (text.new.items ≡ text.old.items
        ++ spelling.slot_text function.now slot) }
{
    match array_of(&function.arrays, slot) {
        None => push_name(text, function, slot),
        Some(from) => {
            push_name(text, function, from)?;
            push_bytes(text, b"[")?;
            push_number(text, slot - from)?;
            push_bytes(text, b"]")
        }
    }
}

/// Adds an element of the array at a slot, up to its index: `v4[2 + `.
pub fn push_element(text: &mut Vec<u8>, function: &Function, base: u32) -> Result<(), NoMemory>
    ensures { OnOk result (text.new.items ≡ text.old.items
        ++ spelling.element_beginning function.now base) }
{
    let from = beginning(&function.arrays, base);
    push_name(text, function, from)?;
    push_bytes(text, b"[")?;
    push_number(text, base - from)?;
    push_bytes(text, b" + ")
}

/// Where the array begins that a slot is in.
fn beginning(arrays: &[Option<u32>], slot: u32) -> u32
    ensures beginning { result ≡ spelling.beginning (spelling.array_in arrays.now slot) slot }
    ensures within { result ≤ slot }
{
    match array_of(arrays, slot) {
        None => slot,
        Some(from) => from,
    }
}

/// Adds the name of a helper function of a node: `helper3_0`.
pub fn push_helper(text: &mut Vec<u8>, node: u32, number: u32) -> Result<(), NoMemory>
    ensures { OnOk result (text.new.items ≡ text.old.items
        ++ spelling.helper_name node number) }
{
    push_bytes(text, b"helper")?;
    push_number(text, node)?;
    push_bytes(text, b"_")?;
    push_number(text, number)
}
