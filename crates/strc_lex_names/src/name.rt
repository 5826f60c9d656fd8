// Names and strings of programs.

use crate::place::Span;
use std::alloc::AllocError;
use std::marker::Model;

/// A name: a letter or `_`, then letters, digits and `_`. Contracts see it as the list of its
/// bytes, and nothing of where it is written.
#[derive(Debug)]
pub struct Name {
    bytes: Vec<u8>,
    at: Option<u32>,
}

impl Drop for Name {
    fn drop(self) {
        let Name { bytes: _, at: _ } = self;
    }
}

impl Model for Name {
    ghost use Rattle.std.specs.Prelude.{List, ℕ};

    ghost Value = { List ℕ };

    ghost view = { λ n. n.bytes.items };
}

impl Name {
    ghost use Rattle.std.specs.Prelude.{◌≡◌, IfOk, IsTrue, ◌↔◌};

    /// The name that these bytes are. It takes no memory.
    pub fn new(bytes: Vec<u8>) -> Name
        ensures { result ≡ bytes.items }
    {
        Name { bytes, at: None }
    }

    /// The name that these bytes are, written at this byte of a text. It takes no memory.
    pub fn written_at(bytes: Vec<u8>, at: usize) -> Name
        ensures { result ≡ bytes.items }
    {
        Name {
            bytes,
            at: u32::try_from(at).ok(),
        }
    }

    /// Where the name is written, if it comes from a text.
    pub fn place(&self) -> Option<Span> {
        let start = self.at? as usize;
        Some(Span {
            start,
            end: start.saturating_add(self.bytes.len()),
        })
    }

    /// The bytes of the name.
    pub fn as_bytes(&self) -> &[u8]
        ensures { result.now ≡ self.now }
    {
        self.bytes.as_slice()
    }

    /// An equal name, written at the same place.
    pub fn copy(&self) -> Result<Name, AllocError>
        ensures { IfOk result (λ name. name ≡ self.now) }
    {
        Ok(Name {
            bytes: self.bytes.clone()?,
            at: self.at,
        })
    }

    /// Whether the two names are the same.
    pub fn is(&self, other: &Name) -> bool
        ensures { IsTrue result ↔ (self.now ≡ other.now) }
    {
        self.as_bytes() == other.as_bytes()
    }
}

/// What a string has between its quotes. Contracts see it as the list of its bytes.
pub struct StringLiteral {
    bytes: Vec<u8>,
}

impl Drop for StringLiteral {
    fn drop(self) {
        let StringLiteral { bytes: _ } = self;
    }
}

impl Model for StringLiteral {
    ghost use Rattle.std.specs.Prelude.{List, ℕ};

    ghost Value = { List ℕ };

    ghost view = { λ t. t.bytes.items };
}

impl StringLiteral {
    ghost use Rattle.std.specs.Prelude.{◌≡◌, IfOk};

    /// The text that these bytes are. It takes no memory.
    pub fn new(bytes: Vec<u8>) -> StringLiteral
        ensures { result ≡ bytes.items }
    {
        StringLiteral { bytes }
    }

    /// The bytes of the text.
    pub fn as_bytes(&self) -> &[u8]
        ensures { result.now ≡ self.now }
    {
        &self.bytes
    }

    /// An equal text.
    pub fn copy(&self) -> Result<StringLiteral, AllocError>
        ensures { IfOk result (λ text. text ≡ self.now) }
    {
        Ok(StringLiteral::new(self.bytes.clone()?))
    }
}
