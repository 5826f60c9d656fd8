// The types of values.

ghost use Rattle.std.specs.Prelude.{◌≡◌};
ghost use Rattle.strc_parse_tree.specs.View.{type_view};
ghost use Rattle.strc_work_meaning.specs.Typing as typing;

use strc_parse_tree::tree::VariableType;

/// What a name stands for, and what a value is.
#[derive(Clone, Copy)]
pub enum ValueType {
    /// A number of 32 bits.
    Int,
    /// A truth value.
    Boolean,
    /// An array of numbers. No value is one.
    Array,
}

/// Whether two values have one type. The name of an array stands for no value.
pub fn same_type(first: ValueType, second: ValueType) -> bool
    ensures { result ≡ typing.same_type first second }
{
    match (first, second) {
        (ValueType::Int, ValueType::Int) | (ValueType::Boolean, ValueType::Boolean) => true,
        _ => false,
    }
}

/// Whether a name stands for an array.
pub fn is_array(kind: ValueType) -> bool
    ensures { result ≡ typing.is_array kind }
{
    match kind {
        ValueType::Array => true,
        _ => false,
    }
}

/// The type of variables.
pub fn type_of(kind: &VariableType) -> ValueType
    ensures { result ≡ typing.type_of (type_view kind.now) }
{
    match kind {
        VariableType::Boolean => ValueType::Boolean,
        VariableType::Int => ValueType::Int,
        VariableType::Array(_) => ValueType::Array,
    }
}
