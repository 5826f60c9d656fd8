// Steps past a value that was read and is kept: where one of them stops, the value is dropped.
// They are generic, so that what becomes of the value is said and proved once, and not at each of
// its types.

ghost use Rattle.strc_parse_grammar.specs.Grammar.{kinds};
ghost use Rattle.strc_parse_grammar.specs.Reading as spec;
ghost use Rattle.strc_parse_grammar.specs.Part.{Raises, Goes, Holds};

use crate::ReadError;
use crate::lookahead::{expect, raised};
use strc_lex::token::{Punctuation, Token};

/// A part that was read, with the height of the node that it becomes part of.
pub fn raise<T: Drop>(depth: usize, part: T, height: usize) -> Result<(T, usize), ReadError>
    ensures { Raises part result (spec.raised depth height) }
{
    let height = raised(depth, height)?;
    Ok((part, height))
}

/// A part that was read, and the tokens past the punctuation mark that has to follow it.
pub fn before<T: Drop>(
    wanted: Punctuation,
    part: T,
    tokens: &[Token],
) -> Result<(T, &[Token]), ReadError>
    ensures { Goes part result (spec.expect wanted (kinds tokens.now)) }
{
    let rest = expect(wanted, tokens)?;
    Ok((part, rest))
}

/// A part that was read, and the next one, if that was read too.
pub fn beside<T: Drop, U>(part: T, next: Result<U, ReadError>) -> Result<(T, U), ReadError>
    ensures { Holds part next result }
{
    let next = next?;
    Ok((part, next))
}
