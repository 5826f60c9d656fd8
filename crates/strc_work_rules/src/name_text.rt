// A name in a sentence.

use std::fmt;
use strc_lex_names::name::Name;

/// A name as it is in a text.
#[derive(Drop)]
pub struct NameText<'a> {
    name: &'a Name,
}

/// A name as it is in a text.
pub fn spelled(name: &Name) -> NameText<'_> {
    NameText { name }
}

impl fmt::Display for NameText<'_> {
    fn fmt<W: fmt::Write>(&self, f: &mut fmt::Formatter<W>) -> fmt::Result {
        for byte in self.name.as_bytes() {
            f.write_char(char::from(*byte))?;
        }
        Ok(())
    }
}
