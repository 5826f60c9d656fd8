// Expressions with no operator between operands.

ghost use Rattle.std.specs.Prelude.{◌≡◌, ◌-◌, ◌<◌};
ghost use Rattle.std.specs.Option.{option_map};
ghost use Rattle.strc_parse_tree.specs.View.{expr_view};
ghost use Rattle.strc_parse_grammar.specs.Grammar.{kinds};
ghost use Rattle.strc_parse_grammar.specs.Seen.{parsed};
ghost use Rattle.strc_parse_grammar.specs.Reading as spec;
ghost use Rattle.strc_parse_grammar.specs.Reading.{Gives};
ghost use Rattle.strc_parse_grammar.specs.Readers.{ReadsExpressions};

use crate::ReadError;
use crate::argument::closed_arguments;
use crate::expression::ExpressionRules;
use crate::lookahead::{expect, is_punctuation, name, peek, tail, unexpected};
use crate::operator::step_after;
use crate::part::raise;
use crate::place::origin_of;
use crate::rule_result::Parsed;
use std::alloc::Global;
use strc_lex::token::{Keyword, Punctuation, Token, TokenKind};
use strc_lex_names::name::Name;
use strc_parse_tree::node::{call_of, group_of, peek_of, read_of, step_of, unary_of};
use strc_parse_tree::operator::Origin;
use strc_parse_tree::tree::{Expr, StepOperator, UnaryOperator};

/// `x` or `x++`, `x[i]` or `x[i]++`: after the name and its index.
#[tactic(auto, unfolding(crate::specs::Reading::after_place))]
fn after_place<'t>(
    alloc: Global,
    depth: usize,
    name: Name,
    index: Option<Expr>,
    height: usize,
    tokens: &'t [Token],
) -> Result<Parsed<'t, Expr>, ReadError>
    ensures { Gives (parsed expr_view) result
        (spec.after_place depth name (option_map expr_view index) height (kinds tokens.now)) }
{
    match step_after(tokens) {
        None => Ok(Parsed::new(read_of(alloc, name, index)?, height, tokens)),
        Some(operator) => {
            let (place, height) = raise(depth, (name, index), height)?;
            let (name, index) = place;
            Ok(Parsed::new(step_of(alloc, operator, name, index)?, height, tail(tokens)))
        }
    }
}

/// `pop()`: after the keyword.
#[tactic(auto, unfolding(crate::specs::Reading::pop_brackets))]
fn pop_brackets(tokens: &[Token]) -> Result<Parsed<'_, Expr>, ReadError>
    ensures { Gives (parsed expr_view) result (spec.pop_brackets (kinds tokens.now)) }
{
    let inside = expect(Punctuation::OpenParen, tokens)?;
    let rest = expect(Punctuation::CloseParen, inside)?;
    Ok(Parsed::new(Expr::Pop, 1, rest))
}

impl<F: Fn(Global, usize, usize, &[Token]) -> Result<Parsed<'_, Expr>, ReadError>> ExpressionRules<
    F,
> {
    #[tactic(auto, unfolding(crate::specs::Reading::operand))]
    pub(crate) fn operand<'t>(&self, tokens: &'t [Token]) -> Result<Parsed<'t, Expr>, ReadError>
        requires deep { 0 < self.now.depth }
        requires reads { ReadsExpressions (self.now.depth - 1)
            (F.pre self.now.reader) (F.post self.now.reader) }
        ensures { Gives (parsed expr_view) result
            (spec.operand self.now.depth (spec.expression (self.now.depth - 1))
            (kinds tokens.now)) }
    {
        match peek(tokens) {
            Some(TokenKind::Number(value)) => Ok(Parsed::new(
                Expr::Number(*value),
                1,
                tail(tokens),
            )),
            Some(TokenKind::Name(name)) => self.after_name(name.copy()?, tail(tokens)),
            Some(TokenKind::Keyword(keyword)) => self.keyword_operand(*keyword, tokens),
            Some(TokenKind::Punctuation(punctuation)) => self.punctuation_operand(
                *punctuation,
                tokens,
            ),
            Some(TokenKind::StringLiteral(_)) | None => Err(unexpected(tokens)),
        }
    }

    /// An operand that begins with this keyword.
    #[tactic(auto, unfolding(crate::specs::Reading::keyword_operand))]
    fn keyword_operand<'t>(
        &self,
        keyword: Keyword,
        tokens: &'t [Token],
    ) -> Result<Parsed<'t, Expr>, ReadError>
        requires deep { 0 < self.now.depth }
        requires reads { ReadsExpressions (self.now.depth - 1)
            (F.pre self.now.reader) (F.post self.now.reader) }
        ensures { Gives (parsed expr_view) result
            (spec.keyword_operand self.now.depth (spec.expression (self.now.depth - 1)) keyword
            (kinds tokens.now)) }
    {
        match keyword {
            Keyword::True => Ok(Parsed::new(Expr::Truth(true), 1, tail(tokens))),
            Keyword::False => Ok(Parsed::new(Expr::Truth(false), 1, tail(tokens))),
            Keyword::Pop => pop_brackets(tail(tokens)),
            Keyword::Peek => self.peek_brackets(origin_of(tokens), tail(tokens)),
            _ => Err(unexpected(tokens)),
        }
    }

    /// An operand that begins with this punctuation mark.
    #[tactic(auto, unfolding(crate::specs::Reading::punctuation_operand))]
    fn punctuation_operand<'t>(
        &self,
        punctuation: Punctuation,
        tokens: &'t [Token],
    ) -> Result<Parsed<'t, Expr>, ReadError>
        requires deep { 0 < self.now.depth }
        requires reads { ReadsExpressions (self.now.depth - 1)
            (F.pre self.now.reader) (F.post self.now.reader) }
        ensures { Gives (parsed expr_view) result
            (spec.punctuation_operand self.now.depth (spec.expression (self.now.depth - 1))
            punctuation (kinds tokens.now)) }
    {
        match punctuation {
            Punctuation::OpenParen => self.group(tail(tokens)),
            Punctuation::Minus => self.sign(UnaryOperator::Negate, tail(tokens)),
            Punctuation::Not => self.sign(UnaryOperator::Not, tail(tokens)),
            Punctuation::Tilde => self.sign(UnaryOperator::Complement, tail(tokens)),
            Punctuation::PlusPlus => self.step_first(StepOperator::IncrementFirst, tail(tokens)),
            Punctuation::MinusMinus => self.step_first(StepOperator::DecrementFirst, tail(tokens)),
            _ => Err(unexpected(tokens)),
        }
    }

    /// `[i]`, if it comes next, and the height of what has the index: after the name.
    #[tactic(auto, unfolding(crate::specs::Reading::index))]
    fn index<'t>(&self, tokens: &'t [Token]) -> Result<Parsed<'t, Option<Expr>>, ReadError>
        requires deep { 0 < self.now.depth }
        requires reads { ReadsExpressions (self.now.depth - 1)
            (F.pre self.now.reader) (F.post self.now.reader) }
        ensures { Gives (parsed (option_map expr_view)) result
            (spec.index self.now.depth (spec.expression (self.now.depth - 1)) (kinds tokens.now)) }
    {
        if !is_punctuation(Punctuation::OpenBracket, tokens) {
            return Ok(Parsed::new(None, 1, tokens));
        }
        let index = self
            .closed(Punctuation::CloseBracket, tail(tokens))?
            .raise(self.depth)?;
        Ok(Parsed::new(Some(index.value), index.height, index.rest))
    }

    /// A variable or an element, and the step after it: after the name.
    #[tactic(auto, unfolding(crate::specs::Reading::after_variable))]
    fn after_variable<'t>(
        &self,
        name: Name,
        tokens: &'t [Token],
    ) -> Result<Parsed<'t, Expr>, ReadError>
        requires deep { 0 < self.now.depth }
        requires reads { ReadsExpressions (self.now.depth - 1)
            (F.pre self.now.reader) (F.post self.now.reader) }
        ensures { Gives (parsed expr_view) result
            (spec.after_variable self.now.depth (spec.expression (self.now.depth - 1)) name
            (kinds tokens.now)) }
    {
        let index = self.index(tokens)?;
        after_place(
            self.alloc,
            self.depth,
            name,
            index.value,
            index.height,
            index.rest,
        )
    }

    /// `f(1, 2)`: after the bracket that opens. The arguments are one depth below.
    #[tactic(auto, unfolding(crate::specs::Reading::call))]
    fn call<'t>(&self, name: Name, tokens: &'t [Token]) -> Result<Parsed<'t, Expr>, ReadError>
        requires deep { 0 < self.now.depth }
        requires reads { ReadsExpressions (self.now.depth - 1)
            (F.pre self.now.reader) (F.post self.now.reader) }
        ensures { Gives (parsed expr_view) result
            (spec.call self.now.depth (spec.expression (self.now.depth - 1)) name
            (kinds tokens.now)) }
    {
        let given = closed_arguments(self.alloc, self.depth - 1, &self.reader, tokens)?;
        let given = given.raise(self.depth)?;
        Ok(Parsed::new(call_of(name, given.value), given.height, given.rest))
    }

    /// A call, or a variable or an element and the step after it: after the name.
    #[tactic(auto, unfolding(crate::specs::Reading::after_name))]
    fn after_name<'t>(&self, name: Name, tokens: &'t [Token]) -> Result<Parsed<'t, Expr>, ReadError>
        requires deep { 0 < self.now.depth }
        requires reads { ReadsExpressions (self.now.depth - 1)
            (F.pre self.now.reader) (F.post self.now.reader) }
        ensures { Gives (parsed expr_view) result
            (spec.after_name self.now.depth (spec.expression (self.now.depth - 1)) name
            (kinds tokens.now)) }
    {
        if is_punctuation(Punctuation::OpenParen, tokens) {
            self.call(name, tail(tokens))
        } else {
            self.after_variable(name, tokens)
        }
    }

    /// `++x` or `++x[i]`: after the punctuation.
    #[tactic(auto, unfolding(crate::specs::Reading::step_first))]
    fn step_first<'t>(
        &self,
        operator: StepOperator,
        tokens: &'t [Token],
    ) -> Result<Parsed<'t, Expr>, ReadError>
        requires deep { 0 < self.now.depth }
        requires reads { ReadsExpressions (self.now.depth - 1)
            (F.pre self.now.reader) (F.post self.now.reader) }
        ensures { Gives (parsed expr_view) result
            (spec.step_first self.now.depth (spec.expression (self.now.depth - 1)) operator
            (kinds tokens.now)) }
    {
        let (name, rest) = name(tokens)?;
        let index = self.index(rest)?;
        let (place, height) = raise(self.depth, (name, index.value), index.height)?;
        let (name, at) = place;
        Ok(Parsed::new(step_of(self.alloc, operator, name, at)?, height, index.rest))
    }

    /// `peek(i)`: after the keyword.
    #[tactic(auto, unfolding(crate::specs::Reading::peek_brackets))]
    fn peek_brackets<'t>(
        &self,
        origin: Origin,
        tokens: &'t [Token],
    ) -> Result<Parsed<'t, Expr>, ReadError>
        requires deep { 0 < self.now.depth }
        requires reads { ReadsExpressions (self.now.depth - 1)
            (F.pre self.now.reader) (F.post self.now.reader) }
        ensures { Gives (parsed expr_view) result
            (spec.peek_brackets self.now.depth (spec.expression (self.now.depth - 1))
            (kinds tokens.now)) }
    {
        let inside = expect(Punctuation::OpenParen, tokens)?;
        let index = self
            .closed(Punctuation::CloseParen, inside)?
            .raise(self.depth)?;
        Ok(Parsed::new(
            peek_of(self.alloc, origin, index.value)?,
            index.height,
            index.rest,
        ))
    }

    /// `(e)`: after the bracket.
    #[tactic(auto, unfolding(crate::specs::Reading::group))]
    fn group<'t>(&self, tokens: &'t [Token]) -> Result<Parsed<'t, Expr>, ReadError>
        requires deep { 0 < self.now.depth }
        requires reads { ReadsExpressions (self.now.depth - 1)
            (F.pre self.now.reader) (F.post self.now.reader) }
        ensures { Gives (parsed expr_view) result
            (spec.group self.now.depth (spec.expression (self.now.depth - 1)) (kinds tokens.now)) }
    {
        let inner = self
            .closed(Punctuation::CloseParen, tokens)?
            .raise(self.depth)?;
        Ok(Parsed::new(group_of(self.alloc, inner.value)?, inner.height, inner.rest))
    }

    /// `-e`: after the punctuation.
    #[tactic(auto, unfolding(crate::specs::Reading::sign))]
    fn sign<'t>(
        &self,
        operator: UnaryOperator,
        tokens: &'t [Token],
    ) -> Result<Parsed<'t, Expr>, ReadError>
        requires deep { 0 < self.now.depth }
        requires reads { ReadsExpressions (self.now.depth - 1)
            (F.pre self.now.reader) (F.post self.now.reader) }
        ensures { Gives (parsed expr_view) result
            (spec.sign self.now.depth (spec.expression (self.now.depth - 1)) operator
            (kinds tokens.now)) }
    {
        let inner = self.below(0, tokens)?.raise(self.depth)?;
        let made = unary_of(self.alloc, operator, inner.value)?;
        Ok(Parsed::new(made, inner.height, inner.rest))
    }
}
