// Fields and their first values.

ghost use Rattle.std.specs.Prelude.{◌≡◌, ◌++◌, ◌<◌, ◌+◌, IfOk, OnOk, length};
ghost use Rattle.strc_emit_text.specs.Texts.{texts_below};
ghost use Rattle.strc_emit_filter.specs.Variables as spec;

use strc_emit_c::function::Function;
use strc_emit_c::names::{array_of, push_name};
use strc_emit_c::text::{push_bytes, push_integer, push_number};
use strc_emit_text::numbers::push_numbers;
use strc_lex_names::memory::NoMemory;

/// Adds the fields, with the values that they begin with.
pub(crate) fn push_fields(
    text: &mut Vec<u8>,
    function: &Function,
    values: &[i32],
) -> Result<(), NoMemory>
    ensures { OnOk result (text.new.items ≡ text.old.items
        ++ texts_below (spec.field_text function.now values.now) (length values.now)) }
{
    for place in 0..values.len() {
        let slot = slot_at(place)?;
        push_field(text, function, values, slot)?;
    }
    Ok(())
}

/// The slot of a number. NoMemory where no instruction can name it.
pub(crate) fn slot_at(number: usize) -> Result<u32, NoMemory>
    ensures { IfOk result (λ slot. slot ≡ number) }
{
    match u32::try_from(number) {
        Ok(slot) => Ok(slot),
        Err(_) => Err(NoMemory),
    }
}

// Adds the field that begins at a slot, where one does.
fn push_field(
    text: &mut Vec<u8>,
    function: &Function,
    values: &[i32],
    slot: u32,
) -> Result<(), NoMemory>
    requires { slot < length values.now }
    ensures { OnOk result (text.new.items ≡ text.old.items
        ++ spec.field_text function.now values.now slot) }
{
    match array_of(&function.arrays, slot) {
        None => push_plain(text, function, slot, values[slot as usize]),
        Some(from) => {
            if from == slot {
                push_array(text, function, slot, values)
            } else {
                Ok(())
            }
        }
    }
}

// `static int32_t f3_5 = 7;`
fn push_plain(
    text: &mut Vec<u8>,
    function: &Function,
    slot: u32,
    value: i32,
) -> Result<(), NoMemory>
    ensures { OnOk result (text.new.items ≡ text.old.items
        ++ spec.plain_field function.now slot value) }
{
    push_bytes(text, b"static int32_t ")?;
    push_name(text, function, slot)?;
    push_initial(text, value)
}

// ` = 7;`
fn push_initial(text: &mut Vec<u8>, value: i32) -> Result<(), NoMemory>
    ensures { OnOk result (text.new.items ≡ text.old.items ++ spec.initial_text value) }
{
    push_bytes(text, b" = ")?;
    push_integer(text, value)?;
    push_bytes(text, b";\n")
}

// `static int32_t f3_6[4] = {1, 2};`
fn push_array(
    text: &mut Vec<u8>,
    function: &Function,
    slot: u32,
    values: &[i32],
) -> Result<(), NoMemory>
    requires { slot < length values.now }
    ensures { OnOk result (text.new.items ≡ text.old.items
        ++ spec.array_field function.now slot values.now) }
{
    let length = array_length(&function.arrays, slot)?;
    let from = slot as usize;
    let end = values.len().min(from + length as usize);
    push_declared(text, function, slot, length, &values[from..end])
}

// Adds a field of so many slots, with what they begin with.
fn push_declared(
    text: &mut Vec<u8>,
    function: &Function,
    slot: u32,
    length: u32,
    values: &[i32],
) -> Result<(), NoMemory>
    ensures { OnOk result (text.new.items ≡ text.old.items
        ++ spec.declared_array function.now slot length values.now) }
{
    push_bytes(text, b"static int32_t ")?;
    push_name(text, function, slot)?;
    push_bytes(text, b"[")?;
    push_number(text, length)?;
    push_bytes(text, b"]")?;
    push_numbers(text, values)?;
    push_bytes(text, b";\n")
}

/// How many slots from one on are in the array that begins there. NoMemory where no number of C has
/// them.
pub(crate) fn array_length(arrays: &[Option<u32>], from: u32) -> Result<u32, NoMemory>
    ensures { IfOk result (λ length. length ≡ spec.array_length arrays.now from) }
{
    let end = array_end(arrays, from);
    slot_at(end - from as usize)
}

// Where the array ends that begins at a slot.
fn array_end(arrays: &[Option<u32>], from: u32) -> usize
    ensures { result ≡ from + spec.array_length arrays.now from }
{
    let mut end = from as usize;
    while end < arrays.len() {
        if !is_at(arrays[end], from) {
            return end;
        }
        end += 1;
    }
    end
}

// Whether an array begins at a slot.
fn is_at(array: Option<u32>, from: u32) -> bool
    ensures { result ≡ spec.is_at array from }
{
    match array {
        Some(start) => start == from,
        None => false,
    }
}
