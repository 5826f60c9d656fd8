// Where statements, rates and fields are in the text.

ghost use Rattle.std.specs.Prelude.{◌≡◌, IfOk, IfErr, length};
ghost use Rattle.strc_parse_tree.specs.View.{stmt_view};
ghost use Rattle.strc_parse_grammar.specs.Seen.{parsed};
ghost use Rattle.strc_parse_grammar.specs.declared.error.ReadError.TheVariants.{Memory};
ghost use Rattle.strc_parse.specs.Placed as spec;
ghost use Rattle.strc_parse.specs.Placed.{IsFrom};

use std::alloc::Global;
use strc_lex::token::Token;
use strc_lex_names::place::Span;
use strc_parse_grammar::ReadError;
use strc_parse_grammar::place::span_of;
use strc_parse_grammar::rule_result::Parsed;
use strc_parse_tree::node::placed_of;
use strc_parse_tree::tree::Stmt;

/// The place in a text of these tokens from where so many of them are left up to where so many are.
pub(crate) fn place_between(all: &[Token], from: usize, after: usize) -> Span
    ensures { result ≡ spec.place_between all.now from after }
{
    span_of(
        &all[all.len().saturating_sub(from)..],
        &all[all.len().saturating_sub(after)..],
    )
}

/// A statement that was read from the front of these tokens, the last of a text, with its place. An
/// empty one has none: no rule refuses it.
pub(crate) fn placed<'t>(
    alloc: Global,
    all: &'t [Token],
    tokens: &'t [Token],
    read: Parsed<'t, Stmt>,
) -> Result<Parsed<'t, Stmt>, ReadError>
    ensures same { IfOk result (λ r. parsed stmt_view r ≡ parsed stmt_view read.entry) }
    ensures placed { IfOk result (IsFrom all.now (length tokens.now) read.entry) }
    ensures memory { IfErr result (λ e. e ≡ Memory) }
{
    if let Stmt::Empty = &read.value {
        return Ok(read);
    }
    let place = place_between(all, tokens.len(), read.rest.len());
    let node = placed_of(alloc, place, read.value)?;
    Ok(Parsed::new(node, read.height, read.rest))
}
