// The operators that tokens are.

ghost use Rattle.std.specs.Prelude.{◌≡◌};
ghost use Rattle.strc_parse_grammar.specs.Grammar.{kinds, precedence};
ghost use Rattle.strc_parse_grammar.specs.Reading as spec;

use crate::lookahead::punctuation_at;
use strc_lex::token::{Punctuation, Token};
use strc_parse_tree::tree::{AssignOperator, BinaryOperator, StepOperator};

/// The precedence of an operator: the one that binds tightest has 1.
fn precedence_of(operator: BinaryOperator) -> usize
    ensures { result ≡ precedence operator }
{
    match operator {
        BinaryOperator::LogicalOr => 10,
        BinaryOperator::LogicalAnd => 9,
        BinaryOperator::Or => 8,
        BinaryOperator::ExclusiveOr => 7,
        BinaryOperator::And => 6,
        BinaryOperator::Equal | BinaryOperator::NotEqual => 5,
        BinaryOperator::Less
        | BinaryOperator::LessOrEqual
        | BinaryOperator::Greater
        | BinaryOperator::GreaterOrEqual => 4,
        BinaryOperator::ShiftLeft | BinaryOperator::ShiftRight => 3,
        BinaryOperator::Add | BinaryOperator::Subtract => 2,
        BinaryOperator::Multiply | BinaryOperator::Divide | BinaryOperator::Remainder => 1,
    }
}

/// The operator that a punctuation mark is between two operands.
fn binary_of(punctuation: Punctuation) -> Option<BinaryOperator>
    ensures { result ≡ spec.binary_of punctuation }
{
    match punctuation {
        Punctuation::OrOr => Some(BinaryOperator::LogicalOr),
        Punctuation::AndAnd => Some(BinaryOperator::LogicalAnd),
        Punctuation::Or => Some(BinaryOperator::Or),
        Punctuation::Caret => Some(BinaryOperator::ExclusiveOr),
        Punctuation::And => Some(BinaryOperator::And),
        Punctuation::Equal => Some(BinaryOperator::Equal),
        Punctuation::NotEqual => Some(BinaryOperator::NotEqual),
        Punctuation::Less => Some(BinaryOperator::Less),
        Punctuation::LessEqual => Some(BinaryOperator::LessOrEqual),
        Punctuation::Greater => Some(BinaryOperator::Greater),
        Punctuation::GreaterEqual => Some(BinaryOperator::GreaterOrEqual),
        Punctuation::ShiftLeft => Some(BinaryOperator::ShiftLeft),
        Punctuation::ShiftRight => Some(BinaryOperator::ShiftRight),
        Punctuation::Plus => Some(BinaryOperator::Add),
        Punctuation::Minus => Some(BinaryOperator::Subtract),
        Punctuation::Star => Some(BinaryOperator::Multiply),
        Punctuation::Slash => Some(BinaryOperator::Divide),
        Punctuation::Percent => Some(BinaryOperator::Remainder),
        _ => None,
    }
}

/// The operator of a precedence that comes first.
#[tactic(auto, unfolding(crate::specs::Reading::operator))]
pub(crate) fn operator_at(rank: usize, tokens: &[Token]) -> Option<BinaryOperator>
    ensures { result ≡ spec.operator rank (kinds tokens.now) }
{
    let punctuation = punctuation_at(tokens)?;
    let operator = binary_of(punctuation)?;
    if precedence_of(operator) == rank {
        Some(operator)
    } else {
        None
    }
}

/// The step that comes first, after its variable or element.
#[tactic(auto, unfolding(crate::specs::Reading::step_after))]
pub(crate) fn step_after(tokens: &[Token]) -> Option<StepOperator>
    ensures { result ≡ spec.step_after (kinds tokens.now) }
{
    match punctuation_at(tokens) {
        Some(Punctuation::PlusPlus) => Some(StepOperator::IncrementAfter),
        Some(Punctuation::MinusMinus) => Some(StepOperator::DecrementAfter),
        _ => None,
    }
}

/// The operator of an assignment that comes first.
#[tactic(auto, unfolding(crate::specs::Reading::assign_at))]
pub fn assign_at(tokens: &[Token]) -> Option<AssignOperator>
    ensures { result ≡ spec.assign_at (kinds tokens.now) }
{
    match punctuation_at(tokens) {
        Some(Punctuation::Assign) => Some(AssignOperator::Set),
        Some(Punctuation::PlusAssign) => Some(AssignOperator::Add),
        Some(Punctuation::MinusAssign) => Some(AssignOperator::Subtract),
        Some(Punctuation::StarAssign) => Some(AssignOperator::Multiply),
        Some(Punctuation::SlashAssign) => Some(AssignOperator::Divide),
        Some(Punctuation::PercentAssign) => Some(AssignOperator::Remainder),
        _ => None,
    }
}
