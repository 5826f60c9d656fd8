// Statements with others in them. The rules of a depth are made of the reader of the depth below,
// which they take as a value, so that each is proved by itself.

ghost use Rattle.std.specs.Prelude.{◌≡◌, ◌∷◌, ◌-◌, ◌<◌, max, map, true, IfOk};
ghost use Rattle.strc_parse_tree.specs.View.{expr_view, stmt_view, member_view};
ghost use Rattle.strc_parse_grammar.specs.Grammar.{kinds};
ghost use Rattle.strc_parse_grammar.specs.Seen.{parsed, parsed_all};
ghost use Rattle.strc_parse_grammar.specs.Streams as spec;
ghost use Rattle.strc_parse_grammar.specs.Reading as reading;
ghost use Rattle.strc_parse_grammar.specs.Reading.{Gives, is_keyword};
ghost use Rattle.strc_lex.specs.declared.token.TokenKind.TheVariants as token;
ghost use Rattle.strc_lex.specs.declared.token.Keyword.TheVariants as keyword;
ghost use Rattle.strc_lex.specs.declared.token.Punctuation.TheVariants as punctuation;
ghost use Rattle.strc_parse.specs.Placed.{ArePartsPlaced, IsBlockPlaced, IsPlaced};
ghost use Rattle.strc_parse.specs.Placed.{IsPlacedWithin, IsReadAt};
ghost use Rattle.strc_parse.specs.Readers.{ReadsStatements};

use crate::place::placed;
use crate::simple::{argument, bracketed, ended, for_heading, return_value};
use std::alloc::Global;
use strc_lex::token::{Keyword, Punctuation, Token, TokenKind};
use strc_parse_grammar::lookahead::{is_keyword, is_punctuation, peek, raised, tail, unexpected};
use strc_parse_grammar::rule_result::Parsed;
use strc_parse_grammar::sequence::{
    node_of, node_of_three, node_of_two, with_next, with_node_height,
};
use strc_parse_grammar::{Fault, ReadError};
use strc_parse_tree::node::{block_of, for_of, if_else_of, if_of, while_of};
use strc_parse_tree::tree::{Expr, Member, Stmt};

/// The rules of statements of at most this height, by a reader of those of one less, in a text of
/// these tokens. What is read is among the last of them.
#[derive(Clone, Copy)]
pub(crate) struct StatementRules<'t, F> {
    pub(crate) alloc: Global,
    pub(crate) all: &'t [Token],
    pub(crate) depth: usize,
    pub(crate) reader: F,
}

/// A statement of at most this height, its height and what follows it.
#[tactic(auto, unfolding(strc_parse_grammar::specs::Streams::statement))]
fn statement<'t>(
    alloc: Global,
    all: &'t [Token],
    depth: usize,
    tokens: &'t [Token],
) -> Result<Parsed<'t, Stmt>, ReadError>
    ensures gives { Gives (parsed stmt_view) result (spec.statement depth (kinds tokens.now)) }
    ensures placed { IfOk result (λ r. IsPlacedWithin all.now r.value (kinds r.rest.now)) }
{
    if depth == 0 {
        return Err(ReadError::Fault(Fault::Nesting));
    }
    let rules = StatementRules {
        alloc,
        all,
        depth,
        reader: statement,
    };
    rules.shallow(tokens)
}

/// Statements up to the brace that closes them, each of at most this height, and the height of the
/// highest or 0.
#[tactic(auto, unfolding(strc_parse_grammar::specs::Streams::statements))]
pub(crate) fn statements<'t>(
    alloc: Global,
    all: &'t [Token],
    depth: usize,
    tokens: &'t [Token],
) -> Result<Parsed<'t, Vec<Stmt>>, ReadError>
    requires bound { depth < 1000 }
    ensures gives { Gives (parsed_all stmt_view) result
        (spec.statements (spec.statement depth) (kinds tokens.now)) }
    ensures placed { IfOk result (λ r. IsBlockPlaced all.now r.value.items
        (token.Punctuation punctuation.CloseBrace ∷ kinds r.rest.now)) }
{
    let rules = StatementRules {
        alloc,
        all,
        depth: depth + 1,
        reader: statement,
    };
    rules.statements(tokens)
}

/// The members of a filter up to the brace that closes it, their statements and expressions each of
/// at most this height, and the height of the highest or 0.
pub(crate) fn members<'t>(
    alloc: Global,
    all: &'t [Token],
    depth: usize,
    tokens: &'t [Token],
) -> Result<Parsed<'t, Vec<Member>>, ReadError>
    requires bound { depth < 1000 }
    ensures gives { Gives (parsed_all member_view) result
        (spec.members depth (spec.statement depth) (kinds tokens.now)) }
    ensures placed { IfOk result (λ r. ArePartsPlaced all.now r.value.items
        (token.Punctuation punctuation.CloseBrace ∷ kinds r.rest.now)) }
{
    let rules = StatementRules {
        alloc,
        all,
        depth: depth + 1,
        reader: statement,
    };
    rules.members(tokens)
}

impl<'t, F> StatementRules<'t, F>
where
    F: Fn(Global, &'t [Token], usize, &'t [Token]) -> Result<Parsed<'t, Stmt>, ReadError>,
{
    /// A statement one depth below, with its place in the text.
    #[tactic(auto, using(crate::proofs::Placed::read_at_its_place))]
    fn below(&self, tokens: &'t [Token]) -> Result<Parsed<'t, Stmt>, ReadError>
        requires deep { 0 < self.now.depth }
        requires reads { ReadsStatements self.now.all.now (self.now.depth - 1)
            (F.pre self.now.reader) (F.post self.now.reader) }
        ensures gives { Gives (parsed stmt_view) result
            (spec.statement (self.now.depth - 1) (kinds tokens.now)) }
        ensures placed { IfOk result (IsReadAt self.now.all.now tokens.now) }
    {
        let read = (self.reader)(self.alloc, self.all, self.depth - 1, tokens)?;
        placed(self.alloc, self.all, tokens, read)
    }

    #[tactic(auto, unfolding(strc_parse_grammar::specs::Streams::shallow))]
    fn shallow(&self, tokens: &'t [Token]) -> Result<Parsed<'t, Stmt>, ReadError>
        requires deep { 0 < self.now.depth }
        requires reads { ReadsStatements self.now.all.now (self.now.depth - 1)
            (F.pre self.now.reader) (F.post self.now.reader) }
        ensures gives { Gives (parsed stmt_view) result
            (spec.shallow self.now.depth (spec.statement (self.now.depth - 1)) (kinds tokens.now)) }
        ensures placed { IfOk result (λ r.
            IsPlacedWithin self.now.all.now r.value (kinds r.rest.now)) }
    {
        match peek(tokens) {
            Some(TokenKind::Punctuation(Punctuation::OpenBrace)) => self.block(tail(tokens)),
            Some(TokenKind::Keyword(keyword)) => self.keyword_statement(*keyword, tokens),
            _ => ended(self.alloc, self.depth, tokens),
        }
    }

    /// A statement that begins with this keyword.
    #[tactic(auto, unfolding(strc_parse_grammar::specs::Streams::keyword_statement))]
    fn keyword_statement(
        &self,
        keyword: Keyword,
        tokens: &'t [Token],
    ) -> Result<Parsed<'t, Stmt>, ReadError>
        requires deep { 0 < self.now.depth }
        requires reads { ReadsStatements self.now.all.now (self.now.depth - 1)
            (F.pre self.now.reader) (F.post self.now.reader) }
        ensures gives { Gives (parsed stmt_view) result
            (spec.keyword_statement self.now.depth (spec.statement (self.now.depth - 1)) keyword
            (kinds tokens.now)) }
        ensures placed { IfOk result (λ r.
            IsPlacedWithin self.now.all.now r.value (kinds r.rest.now)) }
    {
        match keyword {
            Keyword::If => self.branch(tail(tokens)),
            Keyword::While => self.while_loop(tail(tokens)),
            Keyword::For => self.for_loop(tail(tokens)),
            Keyword::Push => node_of(argument(self.alloc, self.depth, tail(tokens)), Stmt::Push),
            Keyword::Print => node_of(argument(self.alloc, self.depth, tail(tokens)), Stmt::Print),
            Keyword::Println => node_of(
                argument(self.alloc, self.depth, tail(tokens)),
                Stmt::Println,
            ),
            Keyword::Return => return_value(self.alloc, self.depth, tail(tokens)),
            Keyword::Add
            | Keyword::Body
            | Keyword::Loop
            | Keyword::Split
            | Keyword::Join
            | Keyword::Enqueue => self.compose(keyword, tokens),
            _ => ended(self.alloc, self.depth, tokens),
        }
    }

    /// `if`: after the keyword.
    #[tactic(auto, unfolding(strc_parse_grammar::specs::Streams::branch))]
    fn branch(&self, tokens: &'t [Token]) -> Result<Parsed<'t, Stmt>, ReadError>
        requires deep { 0 < self.now.depth }
        requires reads { ReadsStatements self.now.all.now (self.now.depth - 1)
            (F.pre self.now.reader) (F.post self.now.reader) }
        ensures gives { Gives (parsed stmt_view) result
            (spec.branch self.now.depth (spec.statement (self.now.depth - 1)) (kinds tokens.now)) }
        ensures placed { IfOk result (λ r.
            IsPlacedWithin self.now.all.now r.value (kinds r.rest.now)) }
    {
        let condition = bracketed(self.alloc, self.depth, tokens)?;
        let chosen = self.below(condition.rest)?;
        self.after_branch(condition, chosen)
    }

    /// What follows a branch, to which an `else` belongs that comes next.
    #[tactic(auto, unfolding(strc_parse_grammar::specs::Streams::after_branch))]
    fn after_branch(
        &self,
        condition: Parsed<'t, Expr>,
        chosen: Parsed<'t, Stmt>,
    ) -> Result<Parsed<'t, Stmt>, ReadError>
        requires deep { 0 < self.now.depth }
        requires reads { ReadsStatements self.now.all.now (self.now.depth - 1)
            (F.pre self.now.reader) (F.post self.now.reader) }
        requires placed { IsPlaced self.now.all.now chosen.value (kinds chosen.rest.now) }
        ensures gives { Gives (parsed stmt_view) result
            (spec.after_branch self.now.depth (spec.statement (self.now.depth - 1))
            (expr_view condition.entry.value) (stmt_view chosen.entry.value)
            (max condition.entry.height chosen.entry.height) (kinds chosen.entry.rest.now)) }
        ensures placed { IfOk result (λ r.
            IsPlacedWithin self.now.all.now r.value (kinds r.rest.now)) }
    {
        if is_keyword(Keyword::Else, chosen.rest) {
            self.other_branch(condition, chosen)
        } else {
            node_of_two(self.alloc, self.depth, condition, Ok(chosen), if_of)
        }
    }

    /// The branch after the `else` that comes next, with what is before it.
    #[tactic(auto, unfolding(strc_parse_grammar::specs::Streams::other_branch))]
    fn other_branch(
        &self,
        condition: Parsed<'t, Expr>,
        chosen: Parsed<'t, Stmt>,
    ) -> Result<Parsed<'t, Stmt>, ReadError>
        requires deep { 0 < self.now.depth }
        requires reads { ReadsStatements self.now.all.now (self.now.depth - 1)
            (F.pre self.now.reader) (F.post self.now.reader) }
        requires placed { IsPlaced self.now.all.now chosen.value (kinds chosen.rest.now) }
        requires joins { is_keyword keyword.Else (kinds chosen.rest.now) ≡ true }
        ensures gives { Gives (parsed stmt_view) result
            (spec.other_branch self.now.depth (spec.statement (self.now.depth - 1))
            (expr_view condition.entry.value) (stmt_view chosen.entry.value)
            (max condition.entry.height chosen.entry.height)
            (reading.tail (kinds chosen.entry.rest.now))) }
        ensures placed { IfOk result (λ r.
            IsPlacedWithin self.now.all.now r.value (kinds r.rest.now)) }
    {
        let other = self.below(tail(chosen.rest));
        node_of_three(self.alloc, self.depth, condition, chosen, other, if_else_of)
    }

    /// `while`: after the keyword.
    #[tactic(auto, unfolding(strc_parse_grammar::specs::Streams::while_loop))]
    fn while_loop(&self, tokens: &'t [Token]) -> Result<Parsed<'t, Stmt>, ReadError>
        requires deep { 0 < self.now.depth }
        requires reads { ReadsStatements self.now.all.now (self.now.depth - 1)
            (F.pre self.now.reader) (F.post self.now.reader) }
        ensures gives { Gives (parsed stmt_view) result
            (spec.while_loop self.now.depth (spec.statement (self.now.depth - 1))
            (kinds tokens.now)) }
        ensures placed { IfOk result (λ r.
            IsPlacedWithin self.now.all.now r.value (kinds r.rest.now)) }
    {
        let condition = bracketed(self.alloc, self.depth, tokens)?;
        let body = self.below(condition.rest);
        node_of_two(self.alloc, self.depth, condition, body, while_of)
    }

    /// `for`: after the keyword.
    #[tactic(auto, unfolding(strc_parse_grammar::specs::Streams::for_loop))]
    fn for_loop(&self, tokens: &'t [Token]) -> Result<Parsed<'t, Stmt>, ReadError>
        requires deep { 0 < self.now.depth }
        requires reads { ReadsStatements self.now.all.now (self.now.depth - 1)
            (F.pre self.now.reader) (F.post self.now.reader) }
        ensures gives { Gives (parsed stmt_view) result
            (spec.for_loop self.now.depth (spec.statement (self.now.depth - 1))
            (kinds tokens.now)) }
        ensures placed { IfOk result (λ r.
            IsPlacedWithin self.now.all.now r.value (kinds r.rest.now)) }
    {
        let heading = for_heading(self.alloc, self.all, self.depth, tokens)?;
        let body = self.below(heading.rest)?;
        let height = raised(self.depth, heading.height.max(body.height))?;
        let (first, (condition, step)) = heading.value;
        let node = for_of(self.alloc, first, condition, step, body.value)?;
        Ok(Parsed::new(node, height, body.rest))
    }

    /// A block as a statement: after its brace.
    #[tactic(auto, unfolding(strc_parse_grammar::specs::Streams::block))]
    fn block(&self, tokens: &'t [Token]) -> Result<Parsed<'t, Stmt>, ReadError>
        requires deep { 0 < self.now.depth }
        requires reads { ReadsStatements self.now.all.now (self.now.depth - 1)
            (F.pre self.now.reader) (F.post self.now.reader) }
        ensures gives { Gives (parsed stmt_view) result
            (spec.block self.now.depth (spec.statement (self.now.depth - 1)) (kinds tokens.now)) }
        ensures placed { IfOk result (λ r.
            IsPlacedWithin self.now.all.now r.value (kinds r.rest.now)) }
    {
        node_of(
            with_node_height(self.depth, self.statements(tokens)),
            block_of,
        )
    }

    /// Statements one depth below, up to the brace that closes them, and the height of the highest
    /// or 0.
    #[tactic(auto, unfolding(strc_parse_grammar::specs::Streams::statements))]
    pub(crate) fn statements(&self, tokens: &'t [Token]) -> Result<Parsed<'t, Vec<Stmt>>, ReadError>
        requires deep { 0 < self.now.depth }
        requires reads { ReadsStatements self.now.all.now (self.now.depth - 1)
            (F.pre self.now.reader) (F.post self.now.reader) }
        ensures gives { Gives (parsed_all stmt_view) result
            (spec.statements (spec.statement (self.now.depth - 1)) (kinds tokens.entry.now)) }
        ensures placed { IfOk result (λ r. IsBlockPlaced self.now.all.now r.value.items
            (token.Punctuation punctuation.CloseBrace ∷ kinds r.rest.now)) }
    {
        let mut read = Parsed::new(Vec::new(self.alloc), 0, tokens);
        for _turn in 0..tokens.len() {
            if is_punctuation(Punctuation::CloseBrace, read.rest) {
                return Ok(Parsed::new(read.value, read.height, tail(read.rest)));
            }
            let next = self.below(read.rest);
            read = with_next(read, next)?;
        }
        Err(unexpected(read.rest))
    }
}
