// The rules on names that are written.

ghost use Rattle.std.specs.Prelude.{◌≡◌, ℕ, List};
ghost use Rattle.strc_work_rules.specs.Resolution as judged;
ghost use Rattle.strc_work_rules.specs.Verdicts.{IsVerdict, context_of};

use crate::context::Context;
use crate::error::LowerError;
use crate::site::Mismatch;
use strc_lex_names::name::Name;
use strc_work_meaning::typed_scope::TypedScope;
use strc_work_meaning::types::{self, ValueType};

/// The type of a name that is written: that of its innermost variable. A constant isn't written.
pub fn resolve_written(
    context: &Context,
    names: &TypedScope,
    name: &Name,
) -> Result<ValueType, LowerError>
    ensures { IsVerdict (λ (kind : ValueType). kind)
        (judged.write_resolved (context_of context.now) names.now name.now)
        result }
{
    if let Some(kind) = names.type_of(name) {
        return Ok(kind);
    }
    match context.constants.value_of(name) {
        Some(_) => Err(LowerError::mismatch(Mismatch::ConstantWritten)),
        None => {
            let name = name.copy()?;
            Err(LowerError::unknown(name))
        }
    }
}

/// A name that is stepped: a variable that holds a number.
pub fn resolve_stepped(
    context: &Context,
    names: &TypedScope,
    name: &Name,
) -> Result<Name, LowerError>
    ensures { IsVerdict (λ (name : List ℕ). name)
        (judged.step_resolved (context_of context.now) names.now name.now)
        result }
{
    if context.constants_only {
        return Err(LowerError::mismatch(Mismatch::VariableInConstant));
    }
    let kind = resolve_written(context, names, name)?;
    if !types::same_type(kind, ValueType::Int) {
        return Err(LowerError::mismatch(Mismatch::Value(ValueType::Int, kind)));
    }
    let name = name.copy()?;
    Ok(name)
}

/// The name of an array, of which an element is read or written.
pub fn resolve_array(context: &Context, names: &TypedScope, name: &Name) -> Result<Name, LowerError>
    ensures { IsVerdict (λ (name : List ℕ). name)
        (judged.array_resolved (context_of context.now) names.now name.now)
        result }
{
    if context.constants_only {
        return Err(LowerError::mismatch(Mismatch::VariableInConstant));
    }
    let kind = resolve_written(context, names, name)?;
    if !types::is_array(kind) {
        return Err(LowerError::mismatch(Mismatch::NoArray));
    }
    let name = name.copy()?;
    Ok(name)
}
