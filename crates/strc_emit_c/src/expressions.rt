// Expressions on slots.

ghost use Rattle.std.specs.Prelude.{◌≡◌, ◌++◌, OnOk};
ghost use Rattle.strc_emit_c.specs.C as c;
ghost use Rattle.strc_emit_c.specs.Spelling.{expression_text, test_text};

use crate::function::Function;
use crate::names::{push_element, push_slot};
use crate::text::{push_bytes, push_integer, push_number};
use crate::words::{binary_name, unary_name};
use strc_lex_names::memory::NoMemory;
use strc_parse_tree::tree::{BinaryOperator, UnaryOperator};

/// Adds an operator on a slot: `negate(v6)`.
pub fn push_unary(
    text: &mut Vec<u8>,
    function: &Function,
    operator: UnaryOperator,
    from: u32,
) -> Result<(), NoMemory>
    ensures { OnOk result (text.new.items ≡ text.old.items
        ++ expression_text function.now (c.Unary operator (c.Slot from))) }
{
    push_bytes(text, unary_name(operator))?;
    push_bytes(text, b"(")?;
    push_slot(text, function, from)?;
    push_bytes(text, b")")
}

/// Adds an operator on two slots: `add(v6, v7)`.
pub fn push_binary(
    text: &mut Vec<u8>,
    function: &Function,
    operator: BinaryOperator,
    left: u32,
    right: u32,
) -> Result<(), NoMemory>
    ensures { OnOk result (text.new.items ≡ text.old.items
        ++ expression_text function.now (c.Binary operator (c.Slot left) (c.Slot right))) }
{
    push_bytes(text, binary_name(operator))?;
    push_bytes(text, b"(")?;
    push_slot(text, function, left)?;
    push_bytes(text, b", ")?;
    push_slot(text, function, right)?;
    push_bytes(text, b")")
}

/// Adds an operator on a slot and a number: `add(v6, 7)`.
pub fn push_binary_number(
    text: &mut Vec<u8>,
    function: &Function,
    operator: BinaryOperator,
    left: u32,
    number: i32,
) -> Result<(), NoMemory>
    ensures { OnOk result (text.new.items ≡ text.old.items
        ++ expression_text function.now (c.Binary operator (c.Slot left) (c.Number number))) }
{
    push_bytes(text, binary_name(operator))?;
    push_bytes(text, b"(")?;
    push_slot(text, function, left)?;
    push_bytes(text, b", ")?;
    push_integer(text, number)?;
    push_bytes(text, b")")
}

/// Adds an element of an array by an index in a slot: `v4[2 + v7]`.
pub fn push_part(
    text: &mut Vec<u8>,
    function: &Function,
    base: u32,
    length: u32,
    index: u32,
) -> Result<(), NoMemory>
    ensures { OnOk result (text.new.items ≡ text.old.items
        ++ expression_text function.now (c.Element base length (c.Slot index))) }
{
    let _ = length;
    push_element(text, function, base)?;
    push_slot(text, function, index)?;
    push_bytes(text, b"]")
}

/// Adds the next item: `in[popped]`.
pub fn push_next(text: &mut Vec<u8>, function: &Function) -> Result<(), NoMemory>
    ensures { OnOk result (text.new.items ≡ text.old.items
        ++ expression_text function.now (c.Input (c.Count c.Popped))) }
{
    let _ = function;
    push_bytes(text, b"in[popped]")
}

/// Adds the item so many places ahead as a slot holds: `in[popped + v6]`.
pub fn push_ahead(text: &mut Vec<u8>, function: &Function, from: u32) -> Result<(), NoMemory>
    ensures { OnOk result (text.new.items ≡ text.old.items
        ++ expression_text function.now (c.Input (c.Sum (c.Count c.Popped) (c.Slot from)))) }
{
    push_bytes(text, b"in[popped + ")?;
    push_slot(text, function, from)?;
    push_bytes(text, b"]")
}

/// Adds the test whether a slot is 0: `v7 == 0`.
pub fn push_is_zero(text: &mut Vec<u8>, function: &Function, slot: u32) -> Result<(), NoMemory>
    ensures { OnOk result (text.new.items ≡ text.old.items
        ++ test_text function.now (c.IsZero (c.Slot slot))) }
{
    push_slot(text, function, slot)?;
    push_bytes(text, b" == 0")
}

/// Adds the test whether an index is outside an array: `outside(v7, 16)`.
pub fn push_is_outside(
    text: &mut Vec<u8>,
    function: &Function,
    index: u32,
    length: u32,
) -> Result<(), NoMemory>
    ensures { OnOk result (text.new.items ≡ text.old.items
        ++ test_text function.now (c.IsOutside (c.Slot index) (c.Size length))) }
{
    push_bytes(text, b"outside(")?;
    push_slot(text, function, index)?;
    push_bytes(text, b", ")?;
    push_number(text, length)?;
    push_bytes(text, b")")
}

/// Adds the test whether so many places ahead is outside the window: `outside(v7, 64 - popped)`.
pub fn push_is_past(
    text: &mut Vec<u8>,
    function: &Function,
    index: u32,
    window: u32,
) -> Result<(), NoMemory>
    ensures { OnOk result (text.new.items ≡ text.old.items
        ++ test_text function.now (c.IsOutside (c.Slot index)
        (c.Difference (c.Size window) (c.Count c.Popped)))) }
{
    push_bytes(text, b"outside(")?;
    push_slot(text, function, index)?;
    push_bytes(text, b", ")?;
    push_number(text, window)?;
    push_bytes(text, b" - popped)")
}
