// What an anonymous stream sees of its surroundings.

ghost use Rattle.std.specs.Prelude.{◌≡◌, ◌<◌, ◌+◌, ◌-◌, ◌^◌, suc, IfOk, OnOk, length, slice_get};
ghost use Rattle.strc_lex_names.specs.Names.{plain_names};
ghost use Rattle.strc_elab_statements.specs.Texts as texts;
ghost use Rattle.strc_elab_statements.specs.Captures.{captured, unshadowed_one};

use crate::variables::Variables;
use std::alloc::Global;
use strc_lex_names::memory::NoMemory;
use strc_lex_names::name::Name;
use strc_work_meaning::constants::Constants;
use strc_work_meaning::types::ValueType;

/// The numbers that can be seen at a place of a body, as constants: the variables' values at this
/// moment, and the body's own constants, but for those that a variable shadows.
pub fn captures(
    alloc: Global,
    variables: &Variables,
    constants: &Constants,
) -> Result<Constants, NoMemory>
    ensures { IfOk result (λ captures. captures
        ≡ texts.captures variables.now.names variables.now.variables
        constants.now) }
{
    let mut captures = unshadowed(alloc, variables, constants)?;
    for number in 0..variables.count() {
        capture(alloc, variables, number, &mut captures)?;
    }
    Ok(captures)
}

/// The constants whose names no variable has.
fn unshadowed(
    alloc: Global,
    variables: &Variables,
    constants: &Constants,
) -> Result<Constants, NoMemory>
    ensures { IfOk result (λ left. left ≡ texts.unshadowed
        (plain_names variables.now.names) constants.now) }
{
    let mut left = Constants::new(alloc);
    for number in 0..constants.len() {
        keep_unless_hidden(alloc, variables, constants, number, &mut left)?;
    }
    Ok(left)
}

/// Adds a constant to those that are left, where no variable has its name.
fn keep_unless_hidden(
    alloc: Global,
    variables: &Variables,
    constants: &Constants,
    number: usize,
    left: &mut Constants,
) -> Result<(), NoMemory>
    requires within { number < length constants.now }
    ensures { OnOk result (left.new ≡ unshadowed_one (plain_names variables.now.names)
        (slice_get constants.now (length constants.now - suc number)) left.old) }
{
    let (name, value) = constants.at(number);
    let name = Name::new(name.to_vec(alloc)?);
    if !variables.names().has_since(0, &name) {
        left.push(&name, value)?;
    }
    Ok(())
}

/// Adds a variable to the constants, where it is a number and no inner one has its name.
fn capture(
    alloc: Global,
    variables: &Variables,
    number: usize,
    captures: &mut Constants,
) -> Result<(), NoMemory>
    requires within { number < length variables.now.names }
    requires few { number + 1 < 2 ^ 64 }
    ensures { OnOk result (captures.new
        ≡ captured variables.now.names variables.now.variables number
        captures.old) }
{
    let (name, kind) = variables.names().at(number);
    if kind == ValueType::Int {
        let name = Name::new(name.to_vec(alloc)?);
        if !variables.names().has_since(number + 1, &name) {
            captures.push(&name, variables.first_cell(number))?;
        }
    }
    Ok(())
}
