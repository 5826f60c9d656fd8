// Expressions, by climbing over the precedences of their operators. The rules of a depth are made
// of the reader of the depth below, which they take as a value, so that each is proved by itself.

ghost use Rattle.std.specs.Prelude.{◌≡◌, ◌+◌, ◌-◌, ◌<◌, length};
ghost use Rattle.strc_parse_tree.specs.View.{expr_view};
ghost use Rattle.strc_parse_grammar.specs.Grammar.{kinds};
ghost use Rattle.strc_parse_grammar.specs.Seen.{parsed};
ghost use Rattle.strc_parse_grammar.specs.Reading as spec;
ghost use Rattle.strc_parse_grammar.specs.Reading.{Gives};
ghost use Rattle.strc_parse_grammar.specs.Readers.{ReadsExpressions};

use crate::lookahead::{is_punctuation, tail};
use crate::operator::operator_at;
use crate::part::{beside, raise};
use crate::place::origin_of;
use crate::rule_result::Parsed;
use crate::{Fault, ReadError};
use std::alloc::Global;
use strc_lex::token::{Punctuation, Token};
use strc_parse_tree::node::{binary_of, conditional_of};
use strc_parse_tree::operator::Operator;
use strc_parse_tree::tree::Expr;

/// The lowest precedence, which `c ? a : b` has.
pub const LOWEST_PRECEDENCE: usize = 11;

/// The lowest precedence of a binary operator.
const LOWEST_BINARY_PRECEDENCE: usize = 10;

/// The rules of expressions of at most this height, by a reader of those of one less.
#[derive(Clone, Copy)]
pub(crate) struct ExpressionRules<F> {
    pub(crate) alloc: Global,
    pub(crate) depth: usize,
    pub(crate) reader: F,
}

/// An expression of at most this height and precedence, its height and what follows it.
#[tactic(auto, unfolding(crate::specs::Reading::expression))]
pub fn expression(
    alloc: Global,
    depth: usize,
    rank: usize,
    tokens: &[Token],
) -> Result<Parsed<'_, Expr>, ReadError>
    ensures { Gives (parsed expr_view) result (spec.expression depth rank (kinds tokens.now)) }
{
    if depth == 0 {
        return Err(ReadError::Fault(Fault::Nesting));
    }
    let rules = ExpressionRules {
        alloc,
        depth,
        reader: expression,
    };
    rules.ranked(rank, tokens)
}

/// An expression of at most this height, and the punctuation that closes it.
#[tactic(auto, unfolding(crate::specs::Reading::closed))]
pub fn closed(
    alloc: Global,
    depth: usize,
    closing: Punctuation,
    tokens: &[Token],
) -> Result<Parsed<'_, Expr>, ReadError>
    ensures { Gives (parsed expr_view) result
        (spec.closed (spec.expression depth) closing (kinds tokens.now)) }
{
    expression(alloc, depth, LOWEST_PRECEDENCE, tokens)?.before(closing)
}

impl<F: Fn(Global, usize, usize, &[Token]) -> Result<Parsed<'_, Expr>, ReadError>> ExpressionRules<
    F,
> {
    /// An expression of at most this precedence, one depth below.
    pub(crate) fn below<'t>(
        &self,
        rank: usize,
        tokens: &'t [Token],
    ) -> Result<Parsed<'t, Expr>, ReadError>
        requires deep { 0 < self.now.depth }
        requires reads { ReadsExpressions (self.now.depth - 1)
            (F.pre self.now.reader) (F.post self.now.reader) }
        ensures { Gives (parsed expr_view) result
            (spec.expression (self.now.depth - 1) rank (kinds tokens.now)) }
    {
        (self.reader)(self.alloc, self.depth - 1, rank, tokens)
    }

    /// An expression one depth below, and the punctuation that closes it.
    #[tactic(auto, unfolding(crate::specs::Reading::closed))]
    pub(crate) fn closed<'t>(
        &self,
        closing: Punctuation,
        tokens: &'t [Token],
    ) -> Result<Parsed<'t, Expr>, ReadError>
        requires deep { 0 < self.now.depth }
        requires reads { ReadsExpressions (self.now.depth - 1)
            (F.pre self.now.reader) (F.post self.now.reader) }
        ensures { Gives (parsed expr_view) result
            (spec.closed (spec.expression (self.now.depth - 1)) closing (kinds tokens.now)) }
    {
        self.below(LOWEST_PRECEDENCE, tokens)?.before(closing)
    }

    #[tactic(auto, unfolding(crate::specs::Reading::ranked))]
    fn ranked<'t>(&self, rank: usize, tokens: &'t [Token]) -> Result<Parsed<'t, Expr>, ReadError>
        requires deep { 0 < self.now.depth }
        requires reads { ReadsExpressions (self.now.depth - 1)
            (F.pre self.now.reader) (F.post self.now.reader) }
        ensures { Gives (parsed expr_view) result
            (spec.ranked self.now.depth (spec.expression (self.now.depth - 1)) rank
            (kinds tokens.now)) }
    {
        if rank == LOWEST_PRECEDENCE {
            self.conditional(tokens)
        } else {
            self.climb(rank, tokens)
        }
    }

    /// `c ? a : b`, or c alone.
    #[tactic(auto, unfolding(crate::specs::Reading::conditional))]
    fn conditional<'t>(&self, tokens: &'t [Token]) -> Result<Parsed<'t, Expr>, ReadError>
        requires deep { 0 < self.now.depth }
        requires reads { ReadsExpressions (self.now.depth - 1)
            (F.pre self.now.reader) (F.post self.now.reader) }
        ensures { Gives (parsed expr_view) result
            (spec.conditional self.now.depth (spec.expression (self.now.depth - 1))
            (kinds tokens.now)) }
    {
        let condition = self.climb(LOWEST_BINARY_PRECEDENCE, tokens)?;
        if is_punctuation(Punctuation::Question, condition.rest) {
            self.choice(condition.value, condition.height, tail(condition.rest))
        } else {
            Ok(condition)
        }
    }

    /// `a : b`: after the question mark.
    #[tactic(auto, unfolding(crate::specs::Reading::choice))]
    fn choice<'t>(
        &self,
        condition: Expr,
        height: usize,
        tokens: &'t [Token],
    ) -> Result<Parsed<'t, Expr>, ReadError>
        requires deep { 0 < self.now.depth }
        requires reads { ReadsExpressions (self.now.depth - 1)
            (F.pre self.now.reader) (F.post self.now.reader) }
        ensures { Gives (parsed expr_view) result
            (spec.choice self.now.depth (spec.expression (self.now.depth - 1))
            (expr_view condition) height (kinds tokens.now)) }
    {
        let chosen = self.closed(Punctuation::Colon, tokens);
        let (condition, chosen) = beside(condition, chosen)?;
        let parts = (condition, chosen.value);
        let (parts, other) = beside(parts, self.below(LOWEST_PRECEDENCE, chosen.rest))?;
        let height = height.max(chosen.height.max(other.height));
        let rest = other.rest;
        let (parts, height) = raise(self.depth, (parts, other.value), height)?;
        let ((condition, chosen), other) = parts;
        let whole = conditional_of(self.alloc, condition, chosen, other)?;
        Ok(Parsed::new(whole, height, rest))
    }

    /// An expression of at most this precedence, of operands and binary operators.
    #[tactic(auto, unfolding(crate::specs::Reading::climb))]
    fn climb<'t>(&self, rank: usize, tokens: &'t [Token]) -> Result<Parsed<'t, Expr>, ReadError>
        requires deep { 0 < self.now.depth }
        requires reads { ReadsExpressions (self.now.depth - 1)
            (F.pre self.now.reader) (F.post self.now.reader) }
        ensures { Gives (parsed expr_view) result
            (spec.climb self.now.depth (spec.expression (self.now.depth - 1)) rank
            (kinds tokens.now)) }
    {
        if rank == 0 {
            return self.operand(tokens);
        }
        let left = self.climb(rank - 1, tokens)?;
        self.chain(rank, left.value, left.height, left.rest)
    }

    /// Goes on after an operand with operators of one precedence, which group to the left.
    #[tactic(auto, unfolding(crate::specs::Reading::chain))]
    fn chain<'t>(
        &self,
        rank: usize,
        first: Expr,
        first_height: usize,
        tokens: &'t [Token],
    ) -> Result<Parsed<'t, Expr>, ReadError>
        requires deep { 0 < self.now.depth }
        requires some { 0 < rank }
        requires reads { ReadsExpressions (self.now.depth - 1)
            (F.pre self.now.reader) (F.post self.now.reader) }
        ensures { Gives (parsed expr_view) result
            (spec.chain self.now.depth (spec.expression (self.now.depth - 1)) rank
            (length (kinds tokens.entry.now)) (expr_view first) first_height
            (kinds tokens.entry.now)) }
    {
        let mut left = first;
        let mut height = first_height;
        let mut rest = tokens;
        while let Some(operator) = operator_at(rank, rest) {
            let (kept, right) = beside(left, self.below(rank - 1, tail(rest)))?;
            let parts = (kept, right.value);
            let (parts, higher) = raise(self.depth, parts, height.max(right.height))?;
            let (kept, other) = parts;
            let operator = Operator::new(operator, origin_of(rest));
            left = binary_of(self.alloc, operator, kept, other)?;
            height = higher;
            rest = right.rest;
        }
        Ok(Parsed::new(left, height, rest))
    }
}
