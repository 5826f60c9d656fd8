// The code of helper functions.

ghost use Rattle.std.specs.Prelude.{◌≡◌, IfOk, IfSome, OnOk};
ghost use Rattle.strc_parse_tree.specs.View.{block_view, member_view};
ghost use Rattle.strc_work_meaning.specs.Filters.{members_of};
ghost use Rattle.strc_work_meaning.specs.Scoping.{with_parameters};
ghost use Rattle.strc_work_code.specs.Helpers.{IsHelper, IsHelperOf, AreHelpers};
ghost use Rattle.strc_work_code.specs.Links.{IsLinked, AreLinkedCodes};

use crate::builder::Builder;
use crate::layout::Layout;
use crate::statement_code::emit_block;
use std::alloc::Global;
use strc_lex_names::memory::NoMemory;
use strc_lex_names::name::Name;
use strc_parse_tree::tree::{Member, Stmt};
use strc_work_code::helper::HelperCode;
use strc_work_linearization::linearize::linearize;
use strc_work_linearization::links::Links;

/// The code of the helper functions among members, in order.
pub fn emit_helpers(
    alloc: Global,
    names: &mut Layout,
    links: &Links,
    members: &[Member],
) -> Result<Vec<HelperCode>, NoMemory>
    ensures codes { IfOk result (λ codes. AreHelpers names.old (members_of members.now)
        codes.items) }
    ensures linked { IfOk result (λ codes. AreLinkedCodes links.now codes.items) }
    ensures names { OnOk result (names.new ≡ names.old) }
{
    let mut codes = Vec::new(alloc);
    for member in members {
        if let Some(code) = emit_member(alloc, names, links, member)? {
            codes.push(code)?;
        }
    }
    Ok(codes)
}

/// The code of a member that is a helper function.
fn emit_member(
    alloc: Global,
    names: &mut Layout,
    links: &Links,
    member: &Member,
) -> Result<Option<HelperCode>, NoMemory>
    ensures code { IfOk result (λ found. IsHelperOf names.old (member_view member.now) found) }
    ensures linked { IfOk result (λ found. IfSome found (λ code. IsLinked links.now code.flat)) }
    ensures names { OnOk result (names.new ≡ names.old) }
{
    match member {
        Member::Helper(_, name, parameters, block) => {
            let code = emit_helper(alloc, names, links, name, parameters, block)?;
            Ok(Some(code))
        }
        Member::Fields(_) | Member::Init(_) | Member::Prework(_, _) | Member::Work(_, _) => {
            Ok(None)
        }
    }
}

/// The code of a helper function: its variables are its parameters, inside its answer.
fn emit_helper(
    alloc: Global,
    names: &mut Layout,
    links: &Links,
    name: &Name,
    parameters: &[Name],
    block: &[Stmt],
) -> Result<HelperCode, NoMemory>
    ensures code { IfOk result (λ code. IsHelper names.old name.now parameters.now
        (block_view block.now) code) }
    ensures linked { IfOk result (λ code. IsLinked links.now code.flat) }
    ensures names { OnOk result (names.new ≡ names.old) }
{
    let start = names.len();
    let answer = Name::new(Vec::new(alloc));
    names.declare(&answer, 2)?;
    declare_parameters(names, parameters)?;
    let variables = names.total() as usize;
    let mut code = Builder::new(alloc);
    emit_block(&mut code, names, block)?;
    names.leave(start);
    let block = code.finish()?;
    let flat = linearize(alloc, links, &block)?;
    let slots = variables.max(block.slot_count());
    Ok(HelperCode {
        name: name.copy()?,
        parameters: parameters.len(),
        code: block,
        flat,
        slots,
    })
}

/// More variables, each a number, the last one innermost.
fn declare_parameters(names: &mut Layout, parameters: &[Name]) -> Result<(), NoMemory>
    ensures { OnOk result (names.new ≡ with_parameters names.old parameters.now) }
{
    for parameter in parameters {
        names.declare(parameter, 1)?;
    }
    Ok(())
}
