// Signs and words of expressions that know where they are written.

use crate::tree::BinaryOperator;
use std::marker::Model;
use strc_lex_names::name::Name;

/// Where a sign or a word begins in its text, if it comes from one. Contracts see nothing of it.
#[derive(Drop)]
pub struct Origin {
    /// One more than the number of its byte; 0 where there is none.
    mark: u32,
}

impl Model for Origin {
    ghost Value = { Unit {0} };

    ghost view = { λ p. tt };
}

impl Origin {
    /// At this byte of a text. It is as good as none from byte 4294967295 on.
    pub fn at(byte: usize) -> Origin {
        Origin {
            mark: mark_of(byte),
        }
    }

    /// Of what isn't written in a text.
    pub fn none() -> Origin {
        Origin { mark: 0 }
    }

    /// One more than the number of its byte; 0 where there is none.
    pub fn mark(&self) -> u32 {
        self.mark
    }

    /// The same origin.
    pub fn copy(&self) -> Origin {
        Origin { mark: self.mark }
    }
}

/// Where a name begins, as `Origin::mark` tells it.
pub fn mark_of_name(name: &Name) -> u32 {
    match name.place() {
        Some(place) => mark_of(place.start),
        None => 0,
    }
}

/// One more than the number of a byte; 0 where that is no u32.
fn mark_of(byte: usize) -> u32 {
    match u32::try_from(byte) {
        Ok(byte) => byte.checked_add(1).unwrap_or(0),
        Err(_) => 0,
    }
}

/// An operator between its operands, and where it is written. Contracts see the operator alone.
#[derive(Drop)]
pub struct Operator {
    kind: BinaryOperator,
    origin: Origin,
}

impl Model for Operator {
    ghost use Rattle.strc_parse_tree.specs.declared.tree.BinaryOperator.{BinaryOperator};

    ghost Value = { BinaryOperator };

    ghost view = { λ o. o.kind };
}

impl Operator {
    ghost use Rattle.std.specs.Prelude.{◌≡◌};

    /// The operator, written at this place.
    pub fn new(kind: BinaryOperator, origin: Origin) -> Operator
        ensures { result ≡ kind }
    {
        Operator { kind, origin }
    }

    /// Which operator it is.
    #[inline]
    pub fn kind(&self) -> BinaryOperator
        ensures { result ≡ self.now }
    {
        self.kind
    }

    /// Where it is written.
    pub fn origin(&self) -> &Origin {
        &self.origin
    }

    /// An equal operator, written at the same place.
    pub fn copy(&self) -> Operator
        ensures { result ≡ self.now }
    {
        Operator {
            kind: self.kind,
            origin: self.origin.copy(),
        }
    }
}
