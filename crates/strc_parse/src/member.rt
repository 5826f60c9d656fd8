// The members of filters. Blocks in them are read by the rules of statements.

ghost use Rattle.std.specs.Prelude.{◌≡◌, ◌∷◌, ◌-◌, ◌<◌, map, IfOk};
ghost use Rattle.strc_lex.specs.declared.token.TokenKind.TheVariants as token;
ghost use Rattle.strc_lex.specs.declared.token.Punctuation.TheVariants as punctuation;
ghost use Rattle.strc_parse_tree.specs.View.{expr_view, rate_view, member_view};
ghost use Rattle.strc_parse_grammar.specs.Grammar.{kinds};
ghost use Rattle.strc_parse_grammar.specs.Seen.{parsed, parsed_all};
ghost use Rattle.strc_parse.specs.Seen.{block_view, phase_view, seen_rate};
ghost use Rattle.strc_parse_grammar.specs.Streams as spec;
ghost use Rattle.strc_parse_grammar.specs.Reading.{Gives};
ghost use Rattle.strc_parse.specs.Placed.{ArePartsPlaced, AreRatesPlaced, IsBlockPlaced};
ghost use Rattle.strc_parse.specs.Placed.{IsMemberPlaced, IsPhasePlaced};
ghost use Rattle.strc_parse.specs.Readers.{ReadsStatements};
ghost use Rattle.strc_parse.specs.Parts as parts;

use crate::control::StatementRules;
use crate::place::place_between;
use std::alloc::Global;
use strc_lex::token::{Keyword, Punctuation, Token, TokenKind};
use strc_parse_grammar::ReadError;
use strc_parse_grammar::expression::{LOWEST_PRECEDENCE, expression};
use strc_parse_grammar::lookahead::{
    expect, is_heading, is_punctuation, name, peek, tail, unexpected,
};
use strc_parse_grammar::parameter::closed_parameters;
use strc_parse_grammar::part::{before, beside};
use strc_parse_grammar::rule_result::Parsed;
use strc_parse_grammar::sequence::{both, with_mark, with_next};
use strc_parse_grammar::variable::declared;
use strc_parse_tree::node::{helper_of, init_of, prework_of, work_of};
use strc_parse_tree::tree::{Expr, HelperType, Member, RateKind, RateTree, Stmt};

/// The kind of rate whose keyword comes first.
#[tactic(auto, unfolding(strc_parse_grammar::specs::Streams::rate_kind))]
fn rate_kind(tokens: &[Token]) -> Option<RateKind>
    ensures { result ≡ spec.rate_kind (kinds tokens.now) }
{
    match peek(tokens) {
        Some(TokenKind::Keyword(Keyword::Push)) => Some(RateKind::Push),
        Some(TokenKind::Keyword(Keyword::Pop)) => Some(RateKind::Pop),
        Some(TokenKind::Keyword(Keyword::Peek)) => Some(RateKind::Peek),
        _ => None,
    }
}

/// Whether a rate of this kind is among these.
fn has_rate(kind: RateKind, rates: &[RateTree]) -> bool
    ensures { result ≡ seen_rate kind rates.now }
{
    rates.iter().any(|rate| rate.kind == kind)
}

/// A rate of this kind, which the rates so far don't have: at its keyword.
#[tactic(auto, unfolding(strc_parse_grammar::specs::Streams::rate_of))]
fn rate_of<'t>(
    alloc: Global,
    limit: usize,
    kind: RateKind,
    so_far: &[RateTree],
    tokens: &'t [Token],
) -> Result<Parsed<'t, Expr>, ReadError>
    ensures { Gives (parsed expr_view) result
        (spec.rate_of limit kind (map rate_view so_far.now) (kinds tokens.now)) }
{
    if has_rate(kind, so_far) {
        return Err(unexpected(tokens));
    }
    expression(alloc, limit, LOWEST_PRECEDENCE, tail(tokens))
}

/// The rates of a work, each at most once, and the height of the highest or 0.
#[tactic(auto, unfolding(strc_parse_grammar::specs::Streams::rates))]
fn rates<'t>(
    alloc: Global,
    all: &'t [Token],
    limit: usize,
    tokens: &'t [Token],
) -> Result<Parsed<'t, Vec<RateTree>>, ReadError>
    ensures gives { Gives (parsed_all rate_view) result
        (spec.rates limit (kinds tokens.entry.now)) }
    ensures placed { IfOk result (λ r. AreRatesPlaced all.now r.value.items (kinds r.rest.now)) }
{
    let mut found = Vec::new(alloc);
    let mut highest = 0;
    let mut rest = tokens;
    while let Some(kind) = rate_kind(rest) {
        let rate = rate_of(alloc, limit, kind, &found, rest)?;
        found.push(RateTree {
            kind,
            rate: rate.value,
            place: place_between(all, rest.len(), rate.rest.len()),
        })?;
        highest = highest.max(rate.height);
        rest = rate.rest;
    }
    Ok(Parsed::new(found, highest, rest))
}

/// Fields of one type, and the height of the highest expression or 0.
#[tactic(auto, unfolding(strc_parse_grammar::specs::Streams::fields))]
fn fields<'t>(
    alloc: Global,
    all: &'t [Token],
    limit: usize,
    tokens: &'t [Token],
) -> Result<Parsed<'t, Member>, ReadError>
    ensures gives { Gives (parsed member_view) result (spec.fields limit (kinds tokens.now)) }
    ensures placed { IfOk result (λ r. IsMemberPlaced all.now r.value (kinds r.rest.now)) }
{
    let declared = declared(alloc, limit, tokens)?;
    let place = place_between(all, tokens.len(), declared.rest.len());
    let declared = with_mark(Punctuation::Semicolon, Ok(declared))?;
    let mut fields = declared.value;
    fields.place = place;
    Ok(Parsed::new(Member::Fields(fields), declared.height, declared.rest))
}

// Statements and expressions of a member are read one depth below, and the heights are those of its
// highest part, or 0.
impl<'t, F> StatementRules<'t, F>
where
    F: Fn(Global, &'t [Token], usize, &'t [Token]) -> Result<Parsed<'t, Stmt>, ReadError>,
{
    /// A block with its braces.
    #[tactic(auto, unfolding(strc_parse_grammar::specs::Streams::braced))]
    pub(crate) fn braced(&self, tokens: &'t [Token]) -> Result<Parsed<'t, Vec<Stmt>>, ReadError>
        requires deep { 0 < self.now.depth }
        requires reads { ReadsStatements self.now.all.now (self.now.depth - 1)
            (F.pre self.now.reader) (F.post self.now.reader) }
        ensures gives { Gives (parsed block_view) result
            (spec.braced (spec.statement (self.now.depth - 1)) (kinds tokens.now)) }
        ensures placed { IfOk result (λ r. IsBlockPlaced self.now.all.now r.value.items
            (token.Punctuation punctuation.CloseBrace ∷ kinds r.rest.now)) }
    {
        let opened = expect(Punctuation::OpenBrace, tokens)?;
        self.statements(opened)
    }

    /// An initialisation: after the keyword.
    #[tactic(auto, unfolding(strc_parse_grammar::specs::Streams::init))]
    fn init(&self, tokens: &'t [Token]) -> Result<Parsed<'t, Member>, ReadError>
        requires deep { 0 < self.now.depth }
        requires reads { ReadsStatements self.now.all.now (self.now.depth - 1)
            (F.pre self.now.reader) (F.post self.now.reader) }
        ensures gives { Gives (parsed member_view) result
            (spec.init (spec.statement (self.now.depth - 1)) (kinds tokens.now)) }
        ensures placed { IfOk result (λ r.
            IsMemberPlaced self.now.all.now r.value (kinds r.rest.now)) }
    {
        let block = self.braced(tokens)?;
        Ok(Parsed::new(init_of(block.value), block.height, block.rest))
    }

    /// Rates and a block.
    #[tactic(auto, unfolding(strc_parse_grammar::specs::Streams::phase))]
    fn phase(
        &self,
        tokens: &'t [Token],
    ) -> Result<Parsed<'t, (Vec<RateTree>, Vec<Stmt>)>, ReadError>
        requires deep { 0 < self.now.depth }
        requires reads { ReadsStatements self.now.all.now (self.now.depth - 1)
            (F.pre self.now.reader) (F.post self.now.reader) }
        ensures gives { Gives (parsed phase_view) result
            (spec.phase (self.now.depth - 1) (spec.statement (self.now.depth - 1))
            (kinds tokens.now)) }
        ensures placed { IfOk result (λ r.
            IsPhasePlaced self.now.all.now r.value (kinds r.rest.now)) }
    {
        let read = rates(self.alloc, self.all, self.depth - 1, tokens)?;
        both(read.value, read.height, self.braced(read.rest))
    }

    /// `prework`: after the keyword.
    #[tactic(auto, using(crate::proofs::Placed::prework_placed))]
    fn prework(&self, tokens: &'t [Token]) -> Result<Parsed<'t, Member>, ReadError>
        requires deep { 0 < self.now.depth }
        requires reads { ReadsStatements self.now.all.now (self.now.depth - 1)
            (F.pre self.now.reader) (F.post self.now.reader) }
        ensures gives { Gives (parsed member_view) result
            (parts.prework (self.now.depth - 1) (spec.statement (self.now.depth - 1))
            (kinds tokens.now)) }
        ensures placed { IfOk result (λ r.
            IsMemberPlaced self.now.all.now r.value (kinds r.rest.now)) }
    {
        let phase = self.phase(tokens)?;
        let (rates, block) = phase.value;
        Ok(Parsed::new(prework_of(rates, block), phase.height, phase.rest))
    }

    /// `work`: after the keyword.
    #[tactic(auto, using(crate::proofs::Placed::work_placed))]
    fn work(&self, tokens: &'t [Token]) -> Result<Parsed<'t, Member>, ReadError>
        requires deep { 0 < self.now.depth }
        requires reads { ReadsStatements self.now.all.now (self.now.depth - 1)
            (F.pre self.now.reader) (F.post self.now.reader) }
        ensures gives { Gives (parsed member_view) result
            (parts.work (self.now.depth - 1) (spec.statement (self.now.depth - 1))
            (kinds tokens.now)) }
        ensures placed { IfOk result (λ r.
            IsMemberPlaced self.now.all.now r.value (kinds r.rest.now)) }
    {
        let phase = self.phase(tokens)?;
        let (rates, block) = phase.value;
        Ok(Parsed::new(work_of(rates, block), phase.height, phase.rest))
    }

    /// A helper function: after its type.
    #[tactic(auto, unfolding(strc_parse_grammar::specs::Streams::helper_function))]
    fn helper_function(
        &self,
        kind: HelperType,
        tokens: &'t [Token],
    ) -> Result<Parsed<'t, Member>, ReadError>
        requires deep { 0 < self.now.depth }
        requires reads { ReadsStatements self.now.all.now (self.now.depth - 1)
            (F.pre self.now.reader) (F.post self.now.reader) }
        ensures gives { Gives (parsed member_view) result
            (spec.helper_function (spec.statement (self.now.depth - 1)) kind (kinds tokens.now)) }
        ensures placed { IfOk result (λ r.
            IsMemberPlaced self.now.all.now r.value (kinds r.rest.now)) }
    {
        let (name, rest) = name(tokens)?;
        let (name, rest) = before(Punctuation::OpenParen, name, rest)?;
        let (name, given) = beside(name, closed_parameters(self.alloc, rest))?;
        let (parameters, rest) = given;
        let (heading, block) = beside((name, parameters), self.braced(rest))?;
        let (name, parameters) = heading;
        let whole = helper_of(kind, name, parameters, block.value);
        Ok(Parsed::new(whole, block.height, block.rest))
    }

    /// Fields or a helper function of this type: at the type's keyword.
    #[tactic(auto, unfolding(strc_parse_grammar::specs::Streams::typed_member))]
    fn typed_member(
        &self,
        kind: HelperType,
        tokens: &'t [Token],
    ) -> Result<Parsed<'t, Member>, ReadError>
        requires deep { 0 < self.now.depth }
        requires reads { ReadsStatements self.now.all.now (self.now.depth - 1)
            (F.pre self.now.reader) (F.post self.now.reader) }
        ensures gives { Gives (parsed member_view) result
            (spec.typed_member (self.now.depth - 1) (spec.statement (self.now.depth - 1)) kind
            (kinds tokens.now)) }
        ensures placed { IfOk result (λ r.
            IsMemberPlaced self.now.all.now r.value (kinds r.rest.now)) }
    {
        if is_heading(tail(tokens)) {
            self.helper_function(kind, tail(tokens))
        } else {
            fields(self.alloc, self.all, self.depth - 1, tokens)
        }
    }

    #[tactic(auto, unfolding(strc_parse_grammar::specs::Streams::member))]
    fn member(&self, tokens: &'t [Token]) -> Result<Parsed<'t, Member>, ReadError>
        requires deep { 0 < self.now.depth }
        requires reads { ReadsStatements self.now.all.now (self.now.depth - 1)
            (F.pre self.now.reader) (F.post self.now.reader) }
        ensures gives { Gives (parsed member_view) result
            (spec.member (self.now.depth - 1) (spec.statement (self.now.depth - 1))
            (kinds tokens.now)) }
        ensures placed { IfOk result (λ r.
            IsMemberPlaced self.now.all.now r.value (kinds r.rest.now)) }
    {
        match peek(tokens) {
            Some(TokenKind::Keyword(Keyword::Boolean)) => {
                self.typed_member(HelperType::Boolean, tokens)
            }
            Some(TokenKind::Keyword(Keyword::Int)) => self.typed_member(HelperType::Int, tokens),
            Some(TokenKind::Keyword(Keyword::Void)) => {
                self.helper_function(HelperType::Void, tail(tokens))
            }
            Some(TokenKind::Keyword(Keyword::Init)) => self.init(tail(tokens)),
            Some(TokenKind::Keyword(Keyword::Prework)) => self.prework(tail(tokens)),
            Some(TokenKind::Keyword(Keyword::Work)) => self.work(tail(tokens)),
            _ => Err(unexpected(tokens)),
        }
    }

    /// The members of a filter, up to the brace that closes it.
    #[tactic(auto, unfolding(strc_parse_grammar::specs::Streams::members))]
    pub(crate) fn members(&self, tokens: &'t [Token]) -> Result<Parsed<'t, Vec<Member>>, ReadError>
        requires deep { 0 < self.now.depth }
        requires reads { ReadsStatements self.now.all.now (self.now.depth - 1)
            (F.pre self.now.reader) (F.post self.now.reader) }
        ensures gives { Gives (parsed_all member_view) result
            (spec.members (self.now.depth - 1) (spec.statement (self.now.depth - 1))
            (kinds tokens.entry.now)) }
        ensures placed { IfOk result (λ r. ArePartsPlaced self.now.all.now r.value.items
            (token.Punctuation punctuation.CloseBrace ∷ kinds r.rest.now)) }
    {
        let mut read = Parsed::new(Vec::new(self.alloc), 0, tokens);
        while !is_punctuation(Punctuation::CloseBrace, read.rest) {
            let next = self.member(read.rest);
            read = with_next(read, next)?;
        }
        Ok(Parsed::new(read.value, read.height, tail(read.rest)))
    }
}
