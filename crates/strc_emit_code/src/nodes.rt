// Lowered code as blocks of statements.

ghost use Rattle.std.specs.Prelude.{◌≡◌, ◌++◌, OnOk};
ghost use Rattle.strc_emit_code.specs.Texts.{node_text, nodes_text, test_text};

use crate::calls::push_called;
use crate::conditions::{push_condition, slot_of};
use crate::instructions::push_insts;
use crate::numbers::push_turn_lines;
use strc_emit_c::blocks::{push_break, push_else, push_end, push_if, push_loop};
use strc_emit_c::function::Function;
use strc_emit_c::text::deeper;
use strc_lex_names::memory::NoMemory;
use strc_work_code::condition::Condition;
use strc_work_code::node::Node;

/// Adds a node, whose lines are so many blocks deep.
#[cycle(nodes)]
pub fn push_node(
    text: &mut Vec<u8>,
    function: &Function,
    depth: u32,
    node: &Node,
) -> Result<(), NoMemory>
    ensures { OnOk result (text.new.items ≡ text.old.items
        ++ node_text function.now depth node.now) }
{
    match node {
        Node::Seq(nodes) => push_all(text, function, depth, nodes),
        Node::BasicBlock(insts) => push_insts(text, function, depth, insts),
        Node::If(condition, chosen, other) => {
            push_condition(text, function, depth, *condition)?;
            push_if(text, function, depth, slot_of(*condition))?;
            push_node(text, function, deeper(depth), chosen)?;
            push_else(text, depth)?;
            push_node(text, function, deeper(depth), other)?;
            push_end(text, depth)
        }
        Node::While(first, condition, body, _) => {
            push_loop(text, depth)?;
            push_node(text, function, deeper(depth), first)?;
            push_test(text, function, deeper(depth), *condition)?;
            push_node(text, function, deeper(depth), body)?;
            push_end(text, depth)
        }
        Node::Call(call) => push_called(text, function, depth, call),
    }
}

/// Adds nodes one after another.
#[cycle(nodes)]
fn push_all(
    text: &mut Vec<u8>,
    function: &Function,
    depth: u32,
    nodes: &[Node],
) -> Result<(), NoMemory>
    ensures { OnOk result (text.new.items ≡ text.old.items
        ++ nodes_text function.now depth nodes.now) }
{
    for inner in nodes {
        push_node(text, function, depth, inner)?;
    }
    Ok(())
}

/// Adds what a loop tests, how it ends, and one more turn.
fn push_test(
    text: &mut Vec<u8>,
    function: &Function,
    depth: u32,
    condition: Condition,
) -> Result<(), NoMemory>
    ensures { OnOk result (text.new.items ≡ text.old.items
        ++ test_text function.now depth condition) }
{
    push_condition(text, function, depth, condition)?;
    push_break(text, function, depth, slot_of(condition))?;
    push_turn_lines(text, function, depth)
}
