// The rules on declared types.

ghost use Rattle.std.specs.Prelude.{◌≡◌, IfOk};
ghost use Rattle.strc_parse_tree.specs.View.{type_view};
ghost use Rattle.strc_work_meaning.specs.Typing as typing;
ghost use Rattle.strc_work_meaning.specs.declared.types.ValueType.TheVariants.{Array};
ghost use Rattle.strc_work_rules.specs.Resolution as judged;
ghost use Rattle.strc_work_rules.specs.Verdicts.{IsVerdict, declared_view};

use crate::error::LowerError;
use crate::rates;
use std::alloc::Global;
use strc_parse_tree::tree::{Expr, VariableType};
use strc_work_meaning::constants::Constants;
use strc_work_meaning::fault::Cause;
use strc_work_meaning::typed_scope::TypedScope;
use strc_work_meaning::types::ValueType;

/// How many elements an array may have.
pub const LENGTH_LIMIT: i32 = 65_536;

/// A declared type: what a name of it stands for, and how it is written, with a number as its
/// length.
#[derive(Drop)]
pub struct ResolvedType {
    pub kind: ValueType,
    pub written: VariableType,
}

/// A declared type, with the constants and the names that can be seen where it is.
pub fn resolve_type(
    alloc: Global,
    constants: &Constants,
    names: &TypedScope,
    declared: &VariableType,
) -> Result<ResolvedType, LowerError>
    ensures verdict { IsVerdict declared_view
        (judged.type_resolved constants.now names.now (type_view declared.now))
        result }
    ensures kind { IfOk result (λ r. r.kind ≡ typing.type_of (type_view declared.now)) }
{
    match declared {
        VariableType::Boolean => Ok(ResolvedType {
            kind: ValueType::Boolean,
            written: VariableType::Boolean,
        }),
        VariableType::Int => Ok(ResolvedType {
            kind: ValueType::Int,
            written: VariableType::Int,
        }),
        VariableType::Array(length) => {
            let number = rates::resolve_number(alloc, constants, names, length)?;
            array_type(number)
        }
    }
}

/// An array of this length has a cell, and at most as many as an array may have.
///
/// # Errors
/// `ConstFault` by `Index` where the length is below 1 or above the limit.
fn array_type(number: i32) -> Result<ResolvedType, LowerError>
    ensures verdict { IsVerdict declared_view (judged.array_type number) result }
    ensures kind { IfOk result (λ r. r.kind ≡ Array) }
{
    if number < 1 || number > LENGTH_LIMIT {
        return Err(LowerError::fault(Cause::Index));
    }
    Ok(ResolvedType {
        kind: ValueType::Array,
        written: VariableType::Array(Expr::Number(number)),
    })
}
