// What may be a mistake in statements, and in the members of filters.

use crate::effects::{has_effect, is_empty, returns};
use crate::expressions::{look_at_option, look_at_value, look_at_values, look_at_variables};
use crate::finding::{Doubt, Finding};
use strc_lex_names::memory::NoMemory;
use strc_lex_names::place::Span;
use strc_parse_tree::tree::{
    Child, Composition, Expr, HelperType, Member, RateTree, Splitter, Stmt,
};

/// Looks at statements in a row; without a place of its own, one is part of what is written here.
#[cycle(statement)]
pub(crate) fn look_at_block(
    block: &[Stmt],
    place: Option<Span>,
    findings: &mut Vec<Finding>,
) -> Result<(), NoMemory> {
    for statement in block {
        look_at_statement(statement, place, findings)?;
    }
    Ok(())
}

#[cycle(statement)]
fn look_at_statement(
    statement: &Stmt,
    place: Option<Span>,
    findings: &mut Vec<Finding>,
) -> Result<(), NoMemory> {
    match statement {
        Stmt::Empty => Ok(()),
        Stmt::Placed(here, inner) => look_at_statement(inner, Some(*here), findings),
        Stmt::Block(block) => look_at_block(block, place, findings),
        Stmt::Declare(declared) => look_at_variables(declared, findings),
        Stmt::Evaluate(value) => {
            find_if(!has_effect(value), Doubt::NoEffect, place, findings)?;
            look_at_value(value, place, findings)
        }
        Stmt::Assign(_, _, value) | Stmt::Push(value) | Stmt::Print(value) | Stmt::Println(value) =>
            look_at_value(value, place, findings),
        Stmt::AssignElement(_, index, _, value) => {
            look_at_value(index, place, findings)?;
            look_at_value(value, place, findings)
        }
        Stmt::If(condition, inner) => {
            find_if(is_empty(inner), Doubt::EmptyBranch, place, findings)?;
            look_at_value(condition, place, findings)?;
            look_at_statement(inner, place, findings)
        }
        Stmt::While(condition, inner) => {
            look_at_value(condition, place, findings)?;
            look_at_statement(inner, place, findings)
        }
        Stmt::IfElse(condition, chosen, other) => {
            look_at_value(condition, place, findings)?;
            look_at_statement(chosen, place, findings)?;
            look_at_statement(other, place, findings)
        }
        Stmt::For(first, condition, step, body) => {
            look_at_statement(first, place, findings)?;
            look_at_option(condition, place, findings)?;
            look_at_statement(step, place, findings)?;
            look_at_statement(body, place, findings)
        }
        Stmt::Return(value) => look_at_option(value, place, findings),
        Stmt::Compose(composition) => look_at_composition(composition, place, findings),
    }
}

#[cycle(statement)]
fn look_at_composition(
    composition: &Composition,
    place: Option<Span>,
    findings: &mut Vec<Finding>,
) -> Result<(), NoMemory> {
    match composition {
        Composition::Child(_, child) => look_at_child(child, place, findings),
        Composition::Split(Splitter::Roundrobin(weights)) | Composition::Join(weights) => {
            look_at_written(weights, place, findings)
        }
        Composition::Split(Splitter::Duplicate(_)) => Ok(()),
        Composition::Enqueue(value) => look_at_value(value, place, findings),
    }
}

#[cycle(statement)]
fn look_at_child(
    child: &Child,
    place: Option<Span>,
    findings: &mut Vec<Finding>,
) -> Result<(), NoMemory> {
    match child {
        Child::Named(_, arguments) => look_at_written(arguments, place, findings),
        Child::Identity(_) | Child::FileReader(_) | Child::FileWriter(_) => Ok(()),
        Child::Filter(_, members) => look_at_members(members, findings),
        Child::Composite(_, _, block) => look_at_block(block, None, findings),
    }
}

/// Looks at the members of a filter.
#[cycle(statement)]
pub(crate) fn look_at_members(
    members: &[Member],
    findings: &mut Vec<Finding>,
) -> Result<(), NoMemory> {
    for member in members {
        look_at_member(member, findings)?;
    }
    Ok(())
}

#[cycle(statement)]
fn look_at_member(member: &Member, findings: &mut Vec<Finding>) -> Result<(), NoMemory> {
    match member {
        Member::Fields(declared) => look_at_variables(declared, findings),
        Member::Init(block) => look_at_block(block, None, findings),
        Member::Helper(kind, name, _, block) => {
            let lacks_value = gives_value(kind) && !returns(block);
            find_if(lacks_value, Doubt::NoReturn, name.place(), findings)?;
            look_at_block(block, None, findings)
        }
        Member::Prework(rates, block) | Member::Work(rates, block) => {
            look_at_rates(rates, findings)?;
            look_at_block(block, None, findings)
        }
    }
}

/// Whether a helper function gives a value.
fn gives_value(kind: &HelperType) -> bool {
    match kind {
        HelperType::Int | HelperType::Boolean => true,
        HelperType::Void => false,
    }
}

/// A doubt of what is written here, where there is reason for it.
fn find_if(
    is_doubtful: bool,
    doubt: Doubt,
    place: Option<Span>,
    findings: &mut Vec<Finding>,
) -> Result<(), NoMemory> {
    if is_doubtful {
        findings.push(Finding { place, doubt })?;
    }
    Ok(())
}

/// Looks at the rates of a body.
fn look_at_rates(rates: &[RateTree], findings: &mut Vec<Finding>) -> Result<(), NoMemory> {
    for rate in rates {
        look_at_value(&rate.rate, Some(rate.place), findings)?;
    }
    Ok(())
}

/// Looks at what is between brackets, where they are written.
fn look_at_written(
    values: &Option<Vec<Expr>>,
    place: Option<Span>,
    findings: &mut Vec<Finding>,
) -> Result<(), NoMemory> {
    match values {
        Some(values) => look_at_values(values, place, findings),
        None => Ok(()),
    }
}
