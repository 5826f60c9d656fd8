// What a rule gives, and the steps past it: where one of them stops, the value is dropped.

ghost use Rattle.std.specs.Prelude.{◌≡◌};
ghost use Rattle.strc_parse_grammar.specs.Grammar.{kinds};
ghost use Rattle.strc_parse_grammar.specs.Reading as spec;
ghost use Rattle.strc_parse_grammar.specs.Part.{IsRaised, IsClosed};

use crate::ReadError;
use crate::lookahead::{expect, raised};
use strc_lex::token::{Punctuation, Token};

/// What a rule read: a value, the height of its highest tree or 0, and the tokens past it.
#[derive(Drop)]
pub struct Parsed<'t, T> {
    pub value: T,
    pub height: usize,
    pub rest: &'t [Token],
}

impl<'t, T> Parsed<'t, T> {
    pub fn new(value: T, height: usize, rest: &'t [Token]) -> Parsed<'t, T>
        ensures { result ≡ record { value = value; height = height; rest = rest.entry } }
    {
        Parsed {
            value,
            height,
            rest,
        }
    }
}

impl<'t, T: Drop> Parsed<'t, T> {
    /// The same with the height of the node that it becomes part of.
    pub fn raise(self, depth: usize) -> Result<Parsed<'t, T>, ReadError>
        ensures { IsRaised self.entry result (spec.raised depth self.entry.height) }
    {
        let height = raised(depth, self.height)?;
        Ok(Parsed::new(self.value, height, self.rest))
    }

    /// The same with the punctuation mark that has to follow it.
    pub fn before(self, wanted: Punctuation) -> Result<Parsed<'t, T>, ReadError>
        ensures { IsClosed self.entry result (spec.expect wanted (kinds self.entry.rest.now)) }
    {
        let rest = expect(wanted, self.rest)?;
        Ok(Parsed::new(self.value, self.height, rest))
    }
}
