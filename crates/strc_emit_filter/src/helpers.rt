// The functions of helper functions.

ghost use Rattle.std.specs.Prelude.{◌≡◌, ◌++◌, ◌+◌, OnOk};
ghost use Rattle.strc_emit_text.specs.Texts.{texts_below};
ghost use Rattle.strc_emit_filter.specs.Helpers as spec;

use crate::fields::slot_at;
use crate::locals::push_locals;
use strc_emit_c::calls::slot_after;
use strc_emit_c::function::Function;
use strc_emit_c::names::{push_helper, push_slot};
use strc_emit_c::text::push_bytes;
use strc_emit_code::nodes::push_node;
use strc_emit_text::pieces::Piece::{Bytes, Number};
use strc_emit_text::pieces::push_pieces;
use strc_lex_names::memory::NoMemory;
use strc_work_code::helper::HelperCode;

/// Adds the functions of helper functions, all declared before the first one.
pub(crate) fn push_helpers(
    text: &mut Vec<u8>,
    function: &Function,
    helpers: &[HelperCode],
) -> Result<(), NoMemory>
    ensures { OnOk result (text.new.items ≡ text.old.items
        ++ spec.helpers_text function.now helpers.now) }
{
    push_declarations(text, function, helpers)?;
    push_definitions(text, function, helpers)
}

// Adds their declarations.
fn push_declarations(
    text: &mut Vec<u8>,
    function: &Function,
    helpers: &[HelperCode],
) -> Result<(), NoMemory>
    ensures { OnOk result (text.new.items ≡ text.old.items
        ++ spec.declarations_from function.now 0 helpers.now) }
{
    let mut number: u32 = 0;
    for helper in helpers {
        push_declaration(text, function, number, helper)?;
        number = slot_after(number, 1)?;
    }
    Ok(())
}

// `static int32_t helper3_0(int32_t a0);`
fn push_declaration(
    text: &mut Vec<u8>,
    function: &Function,
    number: u32,
    helper: &HelperCode,
) -> Result<(), NoMemory>
    ensures { OnOk result (text.new.items ≡ text.old.items
        ++ spec.declaration_text function.now number helper.now) }
{
    push_head(text, function.node, number, helper.parameters)?;
    push_bytes(text, b";\n")
}

// `static int32_t helper3_0(int32_t a0, int32_t a1)`
fn push_head(text: &mut Vec<u8>, node: u32, number: u32, parameters: usize) -> Result<(), NoMemory>
    ensures { OnOk result (text.new.items ≡ text.old.items
        ++ spec.head_text node number parameters) }
{
    push_bytes(text, b"static int32_t ")?;
    push_helper(text, node, number)?;
    push_bytes(text, b"(")?;
    push_parameters(text, parameters)?;
    push_bytes(text, b")")
}

// Adds so many parameters.
fn push_parameters(text: &mut Vec<u8>, parameters: usize) -> Result<(), NoMemory>
    ensures { OnOk result (text.new.items ≡ text.old.items ++ spec.parameters_text parameters) }
{
    if parameters == 0 {
        return push_bytes(text, b"void");
    }
    push_names(text, parameters)
}

// Adds the names of so many parameters.
fn push_names(text: &mut Vec<u8>, parameters: usize) -> Result<(), NoMemory>
    ensures { OnOk result (text.new.items ≡ text.old.items
        ++ texts_below spec.parameter_text parameters) }
{
    for at in 0..parameters {
        push_parameter(text, at)?;
    }
    Ok(())
}

// Adds the name of a parameter, after what parts it from the one before.
fn push_parameter(text: &mut Vec<u8>, at: usize) -> Result<(), NoMemory>
    ensures { OnOk result (text.new.items ≡ text.old.items ++ spec.parameter_text at) }
{
    let begun: &[u8] = if at == 0 {
        b"int32_t a"
    } else {
        b", int32_t a"
    };
    push_pieces(text, &[Bytes(begun), Number(at as u128)])
}

// Adds the functions themselves.
fn push_definitions(
    text: &mut Vec<u8>,
    function: &Function,
    helpers: &[HelperCode],
) -> Result<(), NoMemory>
    ensures { OnOk result (text.new.items ≡ text.old.items
        ++ spec.definitions_from function.now 0 helpers.now) }
{
    let mut number: u32 = 0;
    for helper in helpers {
        push_definition(text, function, number, helper)?;
        number = slot_after(number, 1)?;
    }
    Ok(())
}

// Adds a function. The slots after the fields are whether it has returned, its value, and its
// parameters.
fn push_definition(
    text: &mut Vec<u8>,
    function: &Function,
    number: u32,
    helper: &HelperCode,
) -> Result<(), NoMemory>
    ensures { OnOk result (text.new.items ≡ text.old.items
        ++ spec.definition_text function.now number helper.now) }
{
    push_head(text, function.node, number, helper.parameters)?;
    push_entry(text)?;
    push_locals(text, function, helper.slots)?;
    push_arguments(text, function, helper.parameters)?;
    push_node(text, function, 1, &helper.code)?;
    push_value(text, function)
}

// Adds what a call begins with: the tests of its depth and of its turn.
fn push_entry(text: &mut Vec<u8>) -> Result<(), NoMemory>
    ensures { OnOk result (text.new.items ≡ text.old.items ++ spec.entry_text) }
{
    push_pieces(
        text,
        &[
            Bytes(b" {\n    if (depth >= CALL_LIMIT) leave(CALLS);\n"),
            Bytes(b"    if (turns >= TURN_LIMIT) leave(TURNS);\n"),
            Bytes(b"    turns = turns + 1;\n    depth = depth + 1;\n"),
            Bytes(b"    const int32_t *in = nothing;\n    int32_t *out = nothing;\n"),
            Bytes(b"    int32_t popped = 0, pushed = 0;\n"),
        ],
    )
}

// Adds assignments of the arguments to their slots.
fn push_arguments(
    text: &mut Vec<u8>,
    function: &Function,
    parameters: usize,
) -> Result<(), NoMemory>
    ensures { OnOk result (text.new.items ≡ text.old.items
        ++ texts_below (spec.argument_text function.now) parameters) }
{
    for at in 0..parameters {
        push_argument(text, function, at)?;
    }
    Ok(())
}

// `v4 = a0;`
fn push_argument(text: &mut Vec<u8>, function: &Function, at: usize) -> Result<(), NoMemory>
    ensures { OnOk result (text.new.items ≡ text.old.items ++ spec.argument_text function.now at) }
{
    let place = slot_at(at)?;
    let first = slot_after(function.fields, 2)?;
    let slot = slot_after(first, place)?;
    push_bytes(text, b"    ")?;
    push_slot(text, function, slot)?;
    push_pieces(text, &[Bytes(b" = a"), Number(at as u128), Bytes(b";\n")])
}

// Adds how a call ends: with the value in the second slot after the fields.
fn push_value(text: &mut Vec<u8>, function: &Function) -> Result<(), NoMemory>
    ensures { OnOk result (text.new.items ≡ text.old.items ++ spec.value_text function.now) }
{
    let slot = slot_after(function.fields, 1)?;
    push_bytes(text, b"    depth = depth - 1;\n    return ")?;
    push_slot(text, function, slot)?;
    push_bytes(text, b";\n}\n")
}
