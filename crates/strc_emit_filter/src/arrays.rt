// The arrays among the slots of a filter.

ghost use Rattle.std.specs.Prelude.{◌≡◌, ◌^◌, ◌<◌, ◌≤◌, IfOk, List, Option, Some, None, length};
ghost use Rattle.std.specs.Prelude.{vec_len};
ghost use Rattle.std.specs.List.{All};
ghost use Rattle.strc_work_code.specs.declared.code.Routine.{Routine};
ghost use Rattle.strc_work_code.specs.declared.helper.HelperCode.{HelperCode};
ghost use Rattle.strc_work_code.specs.declared.node.Node.{Node};
ghost use Rattle.strc_work_code.specs.Code.{code_of};
ghost use Rattle.strc_emit_filter.specs.Arrays as spec;
ghost use Rattle.strc_emit_filter.specs.Filters.{ArePartsOf};

use crate::fields::slot_at;
use std::alloc::Global;
use strc_lex_names::memory::NoMemory;
use strc_parse_tree::tree::{Expr, Member, VariableType, Variables};
use strc_work_code::code::Code;
use strc_work_code::helper::HelperCode;
use strc_work_code::inst::Inst;
use strc_work_code::node::Node;
use strc_work_meaning::body::Body;

/// For each slot of a filter in an array the slot where that begins. Arrays are fields of several
/// slots, and what the code works on; those that overlap are one. NoMemory where there are more
/// slots than instructions can name.
pub fn arrays_of(alloc: Global, code: &Code) -> Result<Vec<Option<u32>>, NoMemory>
    ensures { IfOk result (λ arrays. (helpers : List HelperCode) (prework : Option Routine)
        (work : Routine) → ArePartsOf code.now helpers prework work
        → spec.PartsFindArrays arrays.items helpers prework work) }
{
    let slots = code.slot_count();
    slot_at(slots)?;
    let mut ends = Vec::from_elem(alloc, 0u32, slots)?;
    end_fields(&mut ends, &code.tree().members);
    end_helpers(&mut ends, code.helpers());
    end_arrays(&mut ends, &code.routine(Body::Work).code);
    end_arrays(&mut ends, &code.routine(Body::Prework).code);
    joined(alloc, &ends)
}

// The arrays that end so far on, for each slot where some begin, with those that overlap as one.
fn joined(alloc: Global, ends: &[u32]) -> Result<Vec<Option<u32>>, NoMemory>
    requires { length ends.now < 2 ^ 32 }
    ensures { IfOk result (λ arrays. spec.AreJoined ends.now arrays.items) }
{
    let mut arrays = Vec::with_capacity(alloc, ends.len())?;
    let mut slot: u32 = 0;
    let mut start: u32 = 0;
    let mut reach: u32 = 0;
    for end in ends {
        start = start_at(slot, start, reach);
        reach = reach.max(*end);
        let array = array_at(slot, start, reach);
        arrays.push(array)?;
        slot = slot.saturating_add(1);
    }
    Ok(arrays)
}

// Where the last array begins, at a slot: where it did, if that one reaches the slot, else here.
fn start_at(slot: u32, start: u32, reach: u32) -> u32
    ensures on { slot < reach → result ≡ start }
    ensures anew { reach ≤ slot → result ≡ slot }
{
    if slot < reach { start } else { slot }
}

// The array that a slot is in: the last one, if that one reaches it.
fn array_at(slot: u32, start: u32, reach: u32) -> Option<u32>
    ensures inside { slot < reach → result ≡ Some start }
    ensures outside { reach ≤ slot → result ≡ None }
{
    if slot < reach { Some(start) } else { None }
}

// An array of so many slots begins at one; it has a slot at the least.
fn end_array(ends: &mut Vec<u32>, from: u32, length: u32)
    ensures raised { spec.Raised ends.old.items ends.new.items }
    ensures reaches { spec.Reaches ends.new.items from length }
{
    let place = from as usize;
    if place >= ends.len() {
        return;
    }
    ends[place] = ends[place].max(from.saturating_add(length.max(1)));
}

// The fields of several slots.
fn end_fields(ends: &mut Vec<u32>, members: &[Member])
    ensures { vec_len ends.new ≡ vec_len ends.old }
{
    let mut slot: u32 = 0;
    for member in members {
        if let Member::Fields(declared) = member {
            slot = end_declared(ends, declared, slot);
        }
    }
}

// Those that are declared together, of which the first one is at a slot. Gives the slot after them.
fn end_declared(ends: &mut Vec<u32>, declared: &Variables, first: u32) -> u32
    ensures { vec_len ends.new ≡ vec_len ends.old }
{
    let cells = cells_of(&declared.kind);
    let mut slot = first;
    for _variable in &declared.variables {
        if cells != 1 {
            end_array(ends, slot, cells);
        }
        slot = slot.saturating_add(cells);
    }
    slot
}

// How many slots a variable has.
fn cells_of(kind: &VariableType) -> u32 {
    match kind {
        VariableType::Boolean | VariableType::Int => 1,
        VariableType::Array(length) => match length {
            Expr::Number(length) => length.unsigned_abs(),
            _ => 0,
        },
    }
}

// What helper functions work on.
fn end_helpers(ends: &mut Vec<u32>, helpers: &[HelperCode])
    ensures raised { spec.Raised ends.old.items ends.new.items }
    ensures reaches { All (λ (helper : HelperCode).
        spec.OfCode (spec.Reaches ends.new.items) (code_of helper.code)) helpers.now }
{
    for helper in helpers {
        end_arrays(ends, &helper.code);
    }
}

// What a node works on.
#[cycle(nodes)]
fn end_arrays(ends: &mut Vec<u32>, node: &Node)
    ensures raised { spec.Raised ends.old.items ends.new.items }
    ensures reaches { spec.OfCode (spec.Reaches ends.new.items) (code_of node.now) }
{
    match node {
        Node::Seq(nodes) => end_all(ends, nodes),
        Node::BasicBlock(insts) => end_insts(ends, insts),
        Node::If(_, chosen, other) => {
            end_arrays(ends, chosen);
            end_arrays(ends, other)
        }
        Node::While(first, _, body, _) => {
            end_arrays(ends, first);
            end_arrays(ends, body)
        }
        Node::Call(_) => {}
    }
}

// What nodes work on.
#[cycle(nodes)]
fn end_all(ends: &mut Vec<u32>, nodes: &[Node])
    ensures raised { spec.Raised ends.old.items ends.new.items }
    ensures reaches { All (λ (inner : Node). spec.OfCode (spec.Reaches ends.new.items)
        (code_of inner)) nodes.now }
{
    for inner in nodes {
        end_arrays(ends, inner);
    }
}

// What instructions work on.
fn end_insts(ends: &mut Vec<u32>, insts: &[Inst])
    ensures raised { spec.Raised ends.old.items ends.new.items }
    ensures reaches { All (spec.OfInst (spec.Reaches ends.new.items)) insts.now }
{
    for inst in insts {
        end_inst(ends, *inst);
    }
}

// What an instruction works on.
fn end_inst(ends: &mut Vec<u32>, inst: Inst)
    ensures raised { spec.Raised ends.old.items ends.new.items }
    ensures reaches { spec.OfInst (spec.Reaches ends.new.items) inst }
{
    match inst {
        Inst::Load(_, base, length, _, _)
        | Inst::Store(base, length, _, _, _)
        | Inst::Clear(base, length) => end_array(ends, base, length),
        _ => {}
    }
}
