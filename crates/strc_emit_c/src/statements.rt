// Statements on slots, each in a line that is so many blocks deep.

ghost use Rattle.std.specs.Prelude.{◌≡◌, ◌++◌, OnOk};
ghost use Rattle.strc_work_meaning.specs.declared.fault.Cause.TheVariants as cause;
ghost use Rattle.strc_emit_c.specs.C as c;
ghost use Rattle.strc_emit_c.specs.Spelling.{indent, line_text, leave_text, slot_text, assign_head};
ghost use Rattle.strc_emit_c.specs.Spelling.{line_number};
ghost use Rattle.std.specs.Prelude.{codes};

use crate::expressions::{
    push_ahead, push_binary, push_binary_number, push_is_outside, push_is_past, push_is_zero,
    push_next, push_part, push_unary,
};
use crate::function::Function;
use crate::names::push_slot;
use crate::text::{push_bytes, push_indent, push_integer, push_number};
use crate::words::cause_name;
use strc_lex_names::memory::NoMemory;
use strc_parse_tree::tree::{BinaryOperator, UnaryOperator};
use strc_work_meaning::fault::Cause;

/// Adds the beginning of an assignment: `v5 = `.
fn push_target(
    text: &mut Vec<u8>,
    function: &Function,
    depth: u32,
    into: u32,
) -> Result<(), NoMemory>
    ensures { OnOk result (text.new.items ≡ text.old.items
        ++ assign_head function.now depth into) }
{
    push_indent(text, depth)?;
    push_slot(text, function, into)?;
    push_bytes(text, b" = ")
}

/// `v5 = 7;`
pub fn push_const(
    text: &mut Vec<u8>,
    function: &Function,
    depth: u32,
    into: u32,
    value: i32,
) -> Result<(), NoMemory>
    ensures { OnOk result (text.new.items ≡ text.old.items
        ++ line_text function.now depth (c.Assign into (c.Number value))) }
{
    push_target(text, function, depth, into)?;
    push_integer(text, value)?;
    push_bytes(text, b";\n")
}

/// `v5 = v6;`
pub fn push_copy(
    text: &mut Vec<u8>,
    function: &Function,
    depth: u32,
    into: u32,
    from: u32,
) -> Result<(), NoMemory>
    ensures { OnOk result (text.new.items ≡ text.old.items
        ++ line_text function.now depth (c.Assign into (c.Slot from))) }
{
    push_target(text, function, depth, into)?;
    push_slot(text, function, from)?;
    push_bytes(text, b";\n")
}

/// `v5 = negate(v6);`
pub fn push_assign_unary(
    text: &mut Vec<u8>,
    function: &Function,
    depth: u32,
    operator: UnaryOperator,
    into: u32,
    from: u32,
) -> Result<(), NoMemory>
    ensures { OnOk result (text.new.items ≡ text.old.items
        ++ line_text function.now depth (c.Assign into (c.Unary operator (c.Slot from)))) }
{
    push_target(text, function, depth, into)?;
    push_unary(text, function, operator, from)?;
    push_bytes(text, b";\n")
}

/// `v5 = add(v6, v7);`
pub fn push_assign_binary(
    text: &mut Vec<u8>,
    function: &Function,
    depth: u32,
    operator: BinaryOperator,
    into: u32,
    left: u32,
    right: u32,
) -> Result<(), NoMemory>
    ensures { OnOk result (text.new.items ≡ text.old.items ++ line_text function.now depth
        (c.Assign into (c.Binary operator (c.Slot left) (c.Slot right)))) }
{
    push_target(text, function, depth, into)?;
    push_binary(text, function, operator, left, right)?;
    push_bytes(text, b";\n")
}

/// `v5 = add(v6, 7);`
pub fn push_assign_number(
    text: &mut Vec<u8>,
    function: &Function,
    depth: u32,
    operator: BinaryOperator,
    into: u32,
    left: u32,
    number: i32,
) -> Result<(), NoMemory>
    ensures { OnOk result (text.new.items ≡ text.old.items ++ line_text function.now depth
        (c.Assign into (c.Binary operator (c.Slot left) (c.Number number)))) }
{
    push_target(text, function, depth, into)?;
    push_binary_number(text, function, operator, left, number)?;
    push_bytes(text, b";\n")
}

/// `v5 = v4[2 + v7];`
pub fn push_load(
    text: &mut Vec<u8>,
    function: &Function,
    depth: u32,
    into: u32,
    base: u32,
    length: u32,
    index: u32,
) -> Result<(), NoMemory>
    ensures { OnOk result (text.new.items ≡ text.old.items ++ line_text function.now depth
        (c.Assign into (c.Element base length (c.Slot index)))) }
{
    push_target(text, function, depth, into)?;
    push_part(text, function, base, length, index)?;
    push_bytes(text, b";\n")
}

/// `v5 = in[popped];`
pub fn push_pop(
    text: &mut Vec<u8>,
    function: &Function,
    depth: u32,
    into: u32,
) -> Result<(), NoMemory>
    ensures { OnOk result (text.new.items ≡ text.old.items ++ line_text function.now depth
        (c.Assign into (c.Input (c.Count c.Popped)))) }
{
    push_target(text, function, depth, into)?;
    push_next(text, function)?;
    push_bytes(text, b";\n")
}

/// `v5 = in[popped + v6];`
pub fn push_peek(
    text: &mut Vec<u8>,
    function: &Function,
    depth: u32,
    into: u32,
    from: u32,
) -> Result<(), NoMemory>
    ensures { OnOk result (text.new.items ≡ text.old.items ++ line_text function.now depth
        (c.Assign into (c.Input (c.Sum (c.Count c.Popped) (c.Slot from))))) }
{
    push_target(text, function, depth, into)?;
    push_ahead(text, function, from)?;
    push_bytes(text, b";\n")
}

/// `v4[2 + v7] = v5;`
pub fn push_store(
    text: &mut Vec<u8>,
    function: &Function,
    depth: u32,
    base: u32,
    length: u32,
    index: u32,
    from: u32,
) -> Result<(), NoMemory>
    ensures { OnOk result (text.new.items ≡ text.old.items ++ line_text function.now depth
        (c.AssignElement base length (c.Slot index) (c.Slot from))) }
{
    push_indent(text, depth)?;
    push_part(text, function, base, length, index)?;
    push_bytes(text, b" = ")?;
    push_slot(text, function, from)?;
    push_bytes(text, b";\n")
}

/// `out[pushed] = v5;`
pub fn push_output(
    text: &mut Vec<u8>,
    function: &Function,
    depth: u32,
    from: u32,
) -> Result<(), NoMemory>
    ensures { OnOk result (text.new.items ≡ text.old.items ++ line_text function.now depth
        (c.Output (c.Count c.Pushed) (c.Slot from))) }
{
    push_indent(text, depth)?;
    push_bytes(text, b"out[pushed] = ")?;
    push_slot(text, function, from)?;
    push_bytes(text, b";\n")
}

/// `popped = popped + 1;`
pub fn push_popped(text: &mut Vec<u8>, function: &Function, depth: u32) -> Result<(), NoMemory>
    ensures { OnOk result (text.new.items ≡ text.old.items
        ++ line_text function.now depth (c.Increase c.Popped)) }
{
    let _ = function;
    push_indent(text, depth)?;
    push_bytes(text, b"popped = popped + 1;\n")
}

/// `pushed = pushed + 1;`
pub fn push_pushed(text: &mut Vec<u8>, function: &Function, depth: u32) -> Result<(), NoMemory>
    ensures { OnOk result (text.new.items ≡ text.old.items
        ++ line_text function.now depth (c.Increase c.Pushed)) }
{
    let _ = function;
    push_indent(text, depth)?;
    push_bytes(text, b"pushed = pushed + 1;\n")
}

/// `turns = turns + 1;`
pub fn push_turn(text: &mut Vec<u8>, function: &Function, depth: u32) -> Result<(), NoMemory>
    ensures { OnOk result (text.new.items ≡ text.old.items
        ++ line_text function.now depth (c.Increase c.Turns)) }
{
    let _ = function;
    push_indent(text, depth)?;
    push_bytes(text, b"turns = turns + 1;\n")
}

/// `clear(&v4[0], 16);`
pub fn push_clear(
    text: &mut Vec<u8>,
    function: &Function,
    depth: u32,
    base: u32,
    length: u32,
) -> Result<(), NoMemory>
    ensures { OnOk result (text.new.items ≡ text.old.items
        ++ line_text function.now depth (c.Clear base length)) }
{
    push_indent(text, depth)?;
    push_bytes(text, b"clear(&")?;
    push_slot(text, function, base)?;
    push_bytes(text, b", ")?;
    push_number(text, length)?;
    push_bytes(text, b");\n")
}

/// `print(0, v5, 1);`
pub fn push_print(
    text: &mut Vec<u8>,
    function: &Function,
    depth: u32,
    from: u32,
    ends_line: bool,
) -> Result<(), NoMemory>
    ensures { OnOk result (text.new.items ≡ text.old.items
        ++ line_text function.now depth (c.Print (c.Slot from) ends_line)) }
{
    push_indent(text, depth)?;
    push_bytes(text, b"print(")?;
    push_number(text, function.tape)?;
    push_bytes(text, b", ")?;
    push_slot(text, function, from)?;
    push_bytes(text, line_number(ends_line))
}

/// The last number of a word's print.
fn line_number(ends_line: bool) -> &'static [u8]
    ensures { result.now ≡ line_number ends_line }
{
    if ends_line { b", 1);\n" } else { b", 0);\n" }
}

/// Adds how a function leaves with a fault: `return TURNS;`, or `leave(TURNS);` in a helper
/// function.
fn push_way_out(text: &mut Vec<u8>, function: &Function, why: Cause) -> Result<(), NoMemory>
    ensures { OnOk result (text.new.items ≡ text.old.items ++ leave_text function.now why) }
{
    if function.in_helper {
        push_bytes(text, b"leave(")?;
        push_bytes(text, cause_name(why))?;
        push_bytes(text, b");\n")
    } else {
        push_bytes(text, b"return ")?;
        push_bytes(text, cause_name(why))?;
        push_bytes(text, b";\n")
    }
}

/// `return CALLS;`
pub fn push_leave(
    text: &mut Vec<u8>,
    function: &Function,
    depth: u32,
    why: Cause,
) -> Result<(), NoMemory>
    ensures { OnOk result (text.new.items ≡ text.old.items
        ++ line_text function.now depth (c.Leave why)) }
{
    push_indent(text, depth)?;
    push_way_out(text, function, why)
}

/// `if (v7 == 0) return DIV_ZERO;`
pub fn push_zero_test(
    text: &mut Vec<u8>,
    function: &Function,
    depth: u32,
    divisor: u32,
) -> Result<(), NoMemory>
    ensures { OnOk result (text.new.items ≡ text.old.items ++ line_text function.now depth
        (c.LeaveIf (c.IsZero (c.Slot divisor)) cause.DivZero)) }
{
    push_indent(text, depth)?;
    push_bytes(text, b"if (")?;
    push_is_zero(text, function, divisor)?;
    push_bytes(text, b") ")?;
    push_way_out(text, function, Cause::DivZero)
}

/// `if (outside(v7, 16)) return INDEX;`
pub fn push_index_test(
    text: &mut Vec<u8>,
    function: &Function,
    depth: u32,
    length: u32,
    index: u32,
) -> Result<(), NoMemory>
    ensures { OnOk result (text.new.items ≡ text.old.items ++ line_text function.now depth
        (c.LeaveIf (c.IsOutside (c.Slot index) (c.Size length)) cause.Index)) }
{
    push_indent(text, depth)?;
    push_bytes(text, b"if (")?;
    push_is_outside(text, function, index, length)?;
    push_bytes(text, b") ")?;
    push_way_out(text, function, Cause::Index)
}

/// `if (outside(v7, 64 - popped)) return PEEK_RANGE;`
pub fn push_window_test(
    text: &mut Vec<u8>,
    function: &Function,
    depth: u32,
    index: u32,
) -> Result<(), NoMemory>
    ensures { OnOk result (text.new.items ≡ text.old.items ++ line_text function.now depth
        (c.LeaveIf (c.IsOutside (c.Slot index)
        (c.Difference (c.Size function.now.peek) (c.Count c.Popped))) cause.PeekRange)) }
{
    push_indent(text, depth)?;
    push_bytes(text, b"if (")?;
    push_is_past(text, function, index, function.peek)?;
    push_bytes(text, b") ")?;
    push_way_out(text, function, Cause::PeekRange)
}

/// `if (popped >= 4) return PEEK_RANGE;`
pub fn push_pop_test(text: &mut Vec<u8>, function: &Function, depth: u32) -> Result<(), NoMemory>
    ensures { OnOk result (text.new.items ≡ text.old.items ++ line_text function.now depth
        (c.LeaveIf (c.Reaches c.Popped function.now.pops) cause.PeekRange)) }
{
    push_indent(text, depth)?;
    push_bytes(text, b"if (popped >= ")?;
    push_number(text, function.pops)?;
    push_bytes(text, b") ")?;
    push_way_out(text, function, Cause::PeekRange)
}

/// `if (pushed >= 4) return PEEK_RANGE;`
pub fn push_room_test(text: &mut Vec<u8>, function: &Function, depth: u32) -> Result<(), NoMemory>
    ensures { OnOk result (text.new.items ≡ text.old.items ++ line_text function.now depth
        (c.LeaveIf (c.Reaches c.Pushed function.now.pushes) cause.PeekRange)) }
{
    push_indent(text, depth)?;
    push_bytes(text, b"if (pushed >= ")?;
    push_number(text, function.pushes)?;
    push_bytes(text, b") ")?;
    push_way_out(text, function, Cause::PeekRange)
}

/// `if (turns >= 1000000) return TURNS;`
pub fn push_turn_test(
    text: &mut Vec<u8>,
    function: &Function,
    depth: u32,
    limit: u32,
) -> Result<(), NoMemory>
    ensures { OnOk result (text.new.items ≡ text.old.items ++ line_text function.now depth
        (c.LeaveIf (c.Reaches c.Turns limit) cause.Turns)) }
{
    push_indent(text, depth)?;
    push_bytes(text, b"if (turns >= ")?;
    push_number(text, limit)?;
    push_bytes(text, b") ")?;
    push_way_out(text, function, Cause::Turns)
}
