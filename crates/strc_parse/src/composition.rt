// Statements of composite streams, and the streams without names in them. A child is a node below
// its statement.

ghost use Rattle.std.specs.Prelude.{◌≡◌, ◌-◌, ◌<◌, List, IfOk};
ghost use Rattle.strc_lex.specs.declared.token.Token.{Token};
ghost use Rattle.strc_lex.specs.declared.token.TokenKind.{TokenKind};
ghost use Rattle.strc_parse_grammar.specs.Grammar.{kinds};
ghost use Rattle.strc_parse_tree.specs.View.{weights_view, stmt_view, child_view};
ghost use Rattle.strc_parse_tree.specs.View.{splitter_view, composition_view};
ghost use Rattle.strc_parse_grammar.specs.Seen.{parsed};
ghost use Rattle.strc_parse_grammar.specs.Streams as spec;
ghost use Rattle.strc_parse_grammar.specs.Reading.{Gives};
ghost use Rattle.strc_parse.specs.Placed.{IsChildPlaced, IsPartPlaced, IsPlacedWithin};
ghost use Rattle.strc_parse.specs.Readers.{ReadsStatements};

use crate::control::StatementRules;
use std::alloc::Global;
use strc_lex::token::{Keyword, Punctuation, Token, TokenKind};
use strc_lex_names::name::Name;
use strc_parse_grammar::ReadError;
use strc_parse_grammar::argument::{arguments, empty_brackets};
use strc_parse_grammar::expression::closed;
use strc_parse_grammar::lookahead::{expect, expect_keyword, is_keyword, peek, tail, unexpected};
use strc_parse_grammar::rule_result::Parsed;
use strc_parse_grammar::sequence::{leaf_of, node_of, with_mark, with_node_height};
use strc_parse_grammar::stream_type::{composite_kind, file, int_items, stream_type};
use strc_parse_tree::node::{composite_of, filter_of};
use strc_parse_tree::tree::{Child, Composition, Expr, Role, Splitter, Stmt, StreamType};

/// `A(1, 2);`: after the name. The height is the highest argument's, or 0.
#[tactic(auto, unfolding(strc_parse_grammar::specs::Streams::named_child))]
fn named_child<'t>(
    alloc: Global,
    limit: usize,
    name: Name,
    tokens: &'t [Token],
) -> Result<Parsed<'t, Child>, ReadError>
    ensures gives { Gives (parsed child_view) result
        (spec.named_child limit name (kinds tokens.now)) }
    ensures plain { IfOk result (λ r. (all : List Token) (rest : List TokenKind)
        → IsChildPlaced all r.value rest) }
{
    let given = with_mark(Punctuation::Semicolon, arguments(alloc, limit, tokens))?;
    Ok(Parsed::new(Child::Named(name, given.value), given.height, given.rest))
}

/// `<int>();`: after the keyword.
#[tactic(auto, unfolding(strc_parse_grammar::specs::Streams::identity))]
fn identity(tokens: &[Token]) -> Result<Parsed<'_, Child>, ReadError>
    ensures gives { Gives (parsed child_view) result (spec.identity (kinds tokens.now)) }
    ensures plain { IfOk result (λ r. (all : List Token) (rest : List TokenKind)
        → IsChildPlaced all r.value rest) }
{
    let opened = int_items(tokens)?;
    let brackets = leaf_of(empty_brackets(opened), Child::Identity);
    with_mark(Punctuation::Semicolon, brackets)
}

/// `roundrobin(1, 2)`, and the height of the highest weight or 0.
#[tactic(auto, unfolding(strc_parse_grammar::specs::Streams::weights))]
fn weights(
    alloc: Global,
    limit: usize,
    tokens: &[Token],
) -> Result<Parsed<'_, Option<Vec<Expr>>>, ReadError>
    ensures { Gives (parsed weights_view) result (spec.weights limit (kinds tokens.now)) }
{
    let rest = expect_keyword(Keyword::Roundrobin, tokens)?;
    arguments(alloc, limit, rest)
}

/// How items are split, and the height of the highest weight or 0.
#[tactic(auto, unfolding(strc_parse_grammar::specs::Streams::splitter))]
fn splitter(
    alloc: Global,
    limit: usize,
    tokens: &[Token],
) -> Result<Parsed<'_, Splitter>, ReadError>
    ensures { Gives (parsed splitter_view) result (spec.splitter limit (kinds tokens.now)) }
{
    if is_keyword(Keyword::Duplicate, tokens) {
        let (brackets, rest) = empty_brackets(tail(tokens))?;
        return Ok(Parsed::new(Splitter::Duplicate(brackets), 0, rest));
    }
    let weights = weights(alloc, limit, tokens)?;
    Ok(Parsed::new(
        Splitter::Roundrobin(weights.value),
        weights.height,
        weights.rest,
    ))
}

/// `split`: after the keyword.
#[tactic(auto, unfolding(strc_parse_grammar::specs::Streams::split))]
fn split(
    alloc: Global,
    depth: usize,
    tokens: &[Token],
) -> Result<Parsed<'_, Composition>, ReadError>
    requires { 0 < depth }
    ensures gives { Gives (parsed composition_view) result (spec.split depth (kinds tokens.now)) }
    ensures plain { IfOk result (λ r. (all : List Token) (rest : List TokenKind)
        → IsPartPlaced all r.value rest) }
{
    let splitter = splitter(alloc, depth - 1, tokens);
    let splitter = with_mark(Punctuation::Semicolon, splitter);
    node_of(with_node_height(depth, splitter), Composition::Split)
}

/// `join`: after the keyword.
#[tactic(auto, unfolding(strc_parse_grammar::specs::Streams::join))]
fn join(alloc: Global, depth: usize, tokens: &[Token]) -> Result<Parsed<'_, Composition>, ReadError>
    requires { 0 < depth }
    ensures gives { Gives (parsed composition_view) result (spec.join depth (kinds tokens.now)) }
    ensures plain { IfOk result (λ r. (all : List Token) (rest : List TokenKind)
        → IsPartPlaced all r.value rest) }
{
    let weights = weights(alloc, depth - 1, tokens);
    let weights = with_mark(Punctuation::Semicolon, weights);
    node_of(with_node_height(depth, weights), Composition::Join)
}

/// `enqueue`: after the keyword.
#[tactic(auto, unfolding(strc_parse_grammar::specs::Streams::enqueue))]
fn enqueue(
    alloc: Global,
    depth: usize,
    tokens: &[Token],
) -> Result<Parsed<'_, Composition>, ReadError>
    requires { 0 < depth }
    ensures gives { Gives (parsed composition_view) result (spec.enqueue depth (kinds tokens.now)) }
    ensures plain { IfOk result (λ r. (all : List Token) (rest : List TokenKind)
        → IsPartPlaced all r.value rest) }
{
    let value = closed(alloc, depth - 1, Punctuation::Semicolon, tokens);
    node_of(value, Composition::Enqueue)
}

// Children come with the height of their highest part, or 0.
impl<'t, F> StatementRules<'t, F>
where
    F: Fn(Global, &'t [Token], usize, &'t [Token]) -> Result<Parsed<'t, Stmt>, ReadError>,
{
    /// A filter without a name: after its keyword.
    #[tactic(auto, unfolding(strc_parse_grammar::specs::Streams::anonymous_filter))]
    fn anonymous_filter(
        &self,
        types: StreamType,
        tokens: &'t [Token],
    ) -> Result<Parsed<'t, Child>, ReadError>
        requires deep { 0 < self.now.depth }
        requires reads { ReadsStatements self.now.all.now (self.now.depth - 1)
            (F.pre self.now.reader) (F.post self.now.reader) }
        ensures gives { Gives (parsed child_view) result (spec.anonymous_filter (self.now.depth - 1)
            (spec.statement (self.now.depth - 1)) types (kinds tokens.now)) }
        ensures placed { IfOk result (λ r.
            IsChildPlaced self.now.all.now r.value (kinds r.rest.now)) }
    {
        let opened = expect(Punctuation::OpenBrace, tokens)?;
        let members = self.members(opened)?;
        Ok(Parsed::new(
            filter_of(types, members.value),
            members.height,
            members.rest,
        ))
    }

    /// A composite stream without a name: at its kind.
    #[tactic(auto, unfolding(strc_parse_grammar::specs::Streams::anonymous_composite))]
    fn anonymous_composite(
        &self,
        types: Option<StreamType>,
        tokens: &'t [Token],
    ) -> Result<Parsed<'t, Child>, ReadError>
        requires deep { 0 < self.now.depth }
        requires reads { ReadsStatements self.now.all.now (self.now.depth - 1)
            (F.pre self.now.reader) (F.post self.now.reader) }
        ensures gives { Gives (parsed child_view) result
            (spec.anonymous_composite (spec.statement (self.now.depth - 1)) types
            (kinds tokens.now)) }
        ensures placed { IfOk result (λ r.
            IsChildPlaced self.now.all.now r.value (kinds r.rest.now)) }
    {
        match composite_kind(tokens) {
            None => Err(unexpected(tokens)),
            Some(kind) => {
                let block = self.braced(tail(tokens))?;
                Ok(Parsed::new(
                    composite_of(types, kind, block.value),
                    block.height,
                    block.rest,
                ))
            }
        }
    }

    /// A stream without a name: after its type.
    #[tactic(auto, unfolding(strc_parse_grammar::specs::Streams::after_type))]
    fn after_type(
        &self,
        types: StreamType,
        tokens: &'t [Token],
    ) -> Result<Parsed<'t, Child>, ReadError>
        requires deep { 0 < self.now.depth }
        requires reads { ReadsStatements self.now.all.now (self.now.depth - 1)
            (F.pre self.now.reader) (F.post self.now.reader) }
        ensures gives { Gives (parsed child_view) result (spec.after_type (self.now.depth - 1)
            (spec.statement (self.now.depth - 1)) types (kinds tokens.now)) }
        ensures placed { IfOk result (λ r.
            IsChildPlaced self.now.all.now r.value (kinds r.rest.now)) }
    {
        if is_keyword(Keyword::Filter, tokens) {
            self.anonymous_filter(types, tail(tokens))
        } else {
            self.anonymous_composite(Some(types), tokens)
        }
    }

    /// The same with its type.
    #[tactic(auto, unfolding(strc_parse_grammar::specs::Streams::typed_child))]
    fn typed_child(&self, tokens: &'t [Token]) -> Result<Parsed<'t, Child>, ReadError>
        requires deep { 0 < self.now.depth }
        requires reads { ReadsStatements self.now.all.now (self.now.depth - 1)
            (F.pre self.now.reader) (F.post self.now.reader) }
        ensures gives { Gives (parsed child_view) result (spec.typed_child (self.now.depth - 1)
            (spec.statement (self.now.depth - 1)) (kinds tokens.now)) }
        ensures placed { IfOk result (λ r.
            IsChildPlaced self.now.all.now r.value (kinds r.rest.now)) }
    {
        let (types, rest) = stream_type(tokens)?;
        self.after_type(types, rest)
    }

    /// A child that begins with this keyword.
    #[tactic(auto, unfolding(strc_parse_grammar::specs::Streams::keyword_child))]
    fn keyword_child(
        &self,
        keyword: Keyword,
        tokens: &'t [Token],
    ) -> Result<Parsed<'t, Child>, ReadError>
        requires deep { 0 < self.now.depth }
        requires reads { ReadsStatements self.now.all.now (self.now.depth - 1)
            (F.pre self.now.reader) (F.post self.now.reader) }
        ensures gives { Gives (parsed child_view) result (spec.keyword_child (self.now.depth - 1)
            (spec.statement (self.now.depth - 1)) keyword (kinds tokens.now)) }
        ensures placed { IfOk result (λ r.
            IsChildPlaced self.now.all.now r.value (kinds r.rest.now)) }
    {
        match keyword {
            Keyword::Identity => identity(tail(tokens)),
            Keyword::FileReader => leaf_of(file(tail(tokens)), Child::FileReader),
            Keyword::FileWriter => leaf_of(file(tail(tokens)), Child::FileWriter),
            Keyword::Int => self.typed_child(tokens),
            Keyword::Void => self.typed_child(tokens),
            _ => self.anonymous_composite(None, tokens),
        }
    }

    /// A child, with its semicolon where it has one.
    #[tactic(auto, unfolding(strc_parse_grammar::specs::Streams::child))]
    fn child(&self, tokens: &'t [Token]) -> Result<Parsed<'t, Child>, ReadError>
        requires deep { 0 < self.now.depth }
        requires reads { ReadsStatements self.now.all.now (self.now.depth - 1)
            (F.pre self.now.reader) (F.post self.now.reader) }
        ensures gives { Gives (parsed child_view) result (spec.child (self.now.depth - 1)
            (spec.statement (self.now.depth - 1)) (kinds tokens.now)) }
        ensures placed { IfOk result (λ r.
            IsChildPlaced self.now.all.now r.value (kinds r.rest.now)) }
    {
        match peek(tokens) {
            Some(TokenKind::Name(name)) => {
                named_child(self.alloc, self.depth - 1, name.copy()?, tail(tokens))
            }
            Some(TokenKind::Keyword(keyword)) => self.keyword_child(*keyword, tokens),
            _ => Err(unexpected(tokens)),
        }
    }

    /// A child for this, and its height: after the keyword.
    #[tactic(auto, unfolding(strc_parse_grammar::specs::Streams::child_for))]
    fn child_for(
        &self,
        role: Role,
        tokens: &'t [Token],
    ) -> Result<Parsed<'t, Composition>, ReadError>
        requires deep { 0 < self.now.depth }
        requires reads { ReadsStatements self.now.all.now (self.now.depth - 1)
            (F.pre self.now.reader) (F.post self.now.reader) }
        ensures gives { Gives (parsed composition_view) result (spec.child_for self.now.depth
            (spec.statement (self.now.depth - 1)) role (kinds tokens.now)) }
        ensures placed { IfOk result (λ r.
            IsPartPlaced self.now.all.now r.value (kinds r.rest.now)) }
    {
        let child = with_node_height(self.depth, self.child(tokens))?;
        Ok(Parsed::new(
            Composition::Child(role, child.value),
            child.height,
            child.rest,
        ))
    }

    /// A statement of a composite stream that begins with this keyword, and the height of its part.
    #[tactic(auto, unfolding(strc_parse_grammar::specs::Streams::composition))]
    fn composition(
        &self,
        keyword: Keyword,
        tokens: &'t [Token],
    ) -> Result<Parsed<'t, Composition>, ReadError>
        requires deep { 0 < self.now.depth }
        requires reads { ReadsStatements self.now.all.now (self.now.depth - 1)
            (F.pre self.now.reader) (F.post self.now.reader) }
        ensures gives { Gives (parsed composition_view) result (spec.composition self.now.depth
            (spec.statement (self.now.depth - 1)) keyword (kinds tokens.now)) }
        ensures placed { IfOk result (λ r.
            IsPartPlaced self.now.all.now r.value (kinds r.rest.now)) }
    {
        match keyword {
            Keyword::Add => self.child_for(Role::Add, tail(tokens)),
            Keyword::Body => self.child_for(Role::Body, tail(tokens)),
            Keyword::Loop => self.child_for(Role::Loop, tail(tokens)),
            Keyword::Split => split(self.alloc, self.depth, tail(tokens)),
            Keyword::Join => join(self.alloc, self.depth, tail(tokens)),
            Keyword::Enqueue => enqueue(self.alloc, self.depth, tail(tokens)),
            _ => Err(unexpected(tokens)),
        }
    }

    /// The same as a statement, and its height.
    #[tactic(auto, unfolding(strc_parse_grammar::specs::Streams::compose))]
    pub(crate) fn compose(
        &self,
        keyword: Keyword,
        tokens: &'t [Token],
    ) -> Result<Parsed<'t, Stmt>, ReadError>
        requires deep { 0 < self.now.depth }
        requires reads { ReadsStatements self.now.all.now (self.now.depth - 1)
            (F.pre self.now.reader) (F.post self.now.reader) }
        ensures gives { Gives (parsed stmt_view) result (spec.compose self.now.depth
            (spec.statement (self.now.depth - 1)) keyword (kinds tokens.now)) }
        ensures placed { IfOk result (λ r.
            IsPlacedWithin self.now.all.now r.value (kinds r.rest.now)) }
    {
        let composition = with_node_height(self.depth, self.composition(keyword, tokens))?;
        Ok(Parsed::new(
            Stmt::Compose(composition.value),
            composition.height,
            composition.rest,
        ))
    }
}
