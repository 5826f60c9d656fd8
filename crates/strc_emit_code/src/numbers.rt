// Statements that come two or more at a time.

ghost use Rattle.std.specs.Prelude.{◌≡◌, ◌++◌, OnOk};
ghost use Rattle.strc_emit_c.specs.Spelling.{lines_text};
ghost use Rattle.strc_emit_code.specs.Emitted as emitted;

use strc_emit_c::function::Function;
use strc_emit_c::statements::{
    push_assign_binary, push_const, push_index_test, push_load, push_output, push_peek, push_pop,
    push_pop_test, push_popped, push_pushed, push_room_test, push_store, push_turn, push_turn_test,
    push_window_test, push_zero_test,
};
use strc_lex_names::memory::NoMemory;
use strc_parse_tree::tree::BinaryOperator;
use strc_work_meaning::fault::TURN_LIMIT;

/// A number into a spare slot, and then an operator on two slots.
#[tactic(auto, using(strc_emit_c::proofs::Pushing::both, strc_emit_c::proofs::Pushing::last))]
pub(crate) fn push_number_lines(
    text: &mut Vec<u8>,
    function: &Function,
    depth: u32,
    operator: BinaryOperator,
    into: u32,
    left: u32,
    right: u32,
    spare: u32,
    number: i32,
) -> Result<(), NoMemory>
    ensures { OnOk result (text.new.items ≡ text.old.items ++ lines_text function.now depth
        (emitted.number_lines operator into left right spare number)) }
{
    push_const(text, function, depth, spare, number)?;
    push_assign_binary(text, function, depth, operator, into, left, right)
}

/// A division after its test.
pub(crate) fn push_division(
    text: &mut Vec<u8>,
    function: &Function,
    depth: u32,
    operator: BinaryOperator,
    into: u32,
    left: u32,
    right: u32,
) -> Result<(), NoMemory>
    ensures { OnOk result (text.new.items ≡ text.old.items ++ lines_text function.now depth
        (emitted.division_lines operator into left right)) }
{
    push_zero_test(text, function, depth, right)?;
    push_assign_binary(text, function, depth, operator, into, left, right)
}

// The next item.
fn push_taken(
    text: &mut Vec<u8>,
    function: &Function,
    depth: u32,
    into: u32,
) -> Result<(), NoMemory>
    ensures { OnOk result (text.new.items ≡ text.old.items ++ lines_text function.now depth
        (emitted.taken_lines into)) }
{
    push_pop(text, function, depth, into)?;
    push_popped(text, function, depth)
}

/// The next item, after its test, where there are tests.
pub(crate) fn push_pop_lines(
    text: &mut Vec<u8>,
    function: &Function,
    depth: u32,
    into: u32,
) -> Result<(), NoMemory>
    ensures { OnOk result (text.new.items ≡ text.old.items ++ lines_text function.now depth
        (emitted.pop_lines function.now into)) }
{
    if !function.tests {
        return push_taken(text, function, depth, into);
    }
    push_pop_test(text, function, depth)?;
    push_pop(text, function, depth, into)?;
    push_popped(text, function, depth)
}

/// An item ahead, after its test, where there are tests.
pub(crate) fn push_peek_lines(
    text: &mut Vec<u8>,
    function: &Function,
    depth: u32,
    into: u32,
    from: u32,
) -> Result<(), NoMemory>
    ensures { OnOk result (text.new.items ≡ text.old.items ++ lines_text function.now depth
        (emitted.peek_lines function.now into from)) }
{
    if !function.tests {
        return push_peek(text, function, depth, into, from);
    }
    push_window_test(text, function, depth, from)?;
    push_peek(text, function, depth, into, from)
}

// An item that is given.
fn push_given(
    text: &mut Vec<u8>,
    function: &Function,
    depth: u32,
    from: u32,
) -> Result<(), NoMemory>
    ensures { OnOk result (text.new.items ≡ text.old.items ++ lines_text function.now depth
        (emitted.given_lines from)) }
{
    push_output(text, function, depth, from)?;
    push_pushed(text, function, depth)
}

/// An item that is given, after its test, where there are tests.
pub(crate) fn push_push_lines(
    text: &mut Vec<u8>,
    function: &Function,
    depth: u32,
    from: u32,
) -> Result<(), NoMemory>
    ensures { OnOk result (text.new.items ≡ text.old.items ++ lines_text function.now depth
        (emitted.push_lines function.now from)) }
{
    if !function.tests {
        return push_given(text, function, depth, from);
    }
    push_room_test(text, function, depth)?;
    push_output(text, function, depth, from)?;
    push_pushed(text, function, depth)
}

/// An element that is read, after the test of its index.
pub(crate) fn push_load_lines(
    text: &mut Vec<u8>,
    function: &Function,
    depth: u32,
    into: u32,
    base: u32,
    length: u32,
    index: u32,
) -> Result<(), NoMemory>
    ensures { OnOk result (text.new.items ≡ text.old.items ++ lines_text function.now depth
        (emitted.load_lines into base length index)) }
{
    push_index_test(text, function, depth, length, index)?;
    push_load(text, function, depth, into, base, length, index)
}

/// An element that is written, after the test of its index.
pub(crate) fn push_store_lines(
    text: &mut Vec<u8>,
    function: &Function,
    depth: u32,
    base: u32,
    length: u32,
    index: u32,
    from: u32,
) -> Result<(), NoMemory>
    ensures { OnOk result (text.new.items ≡ text.old.items ++ lines_text function.now depth
        (emitted.store_lines base length index from)) }
{
    push_index_test(text, function, depth, length, index)?;
    push_store(text, function, depth, base, length, index, from)
}

/// One more turn of a loop, after its test.
pub(crate) fn push_turn_lines(
    text: &mut Vec<u8>,
    function: &Function,
    depth: u32,
) -> Result<(), NoMemory>
    ensures { OnOk result (text.new.items ≡ text.old.items ++ lines_text function.now depth
        emitted.turn_lines) }
{
    push_turn_test(text, function, depth, TURN_LIMIT)?;
    push_turn(text, function, depth)
}
