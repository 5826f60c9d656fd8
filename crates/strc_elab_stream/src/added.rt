// What a person is told of a stream that is added to another one.

use strc_lex_names::name::Name;
use strc_lex_names::place::Span;

/// How a stream is added: what names it in a path. What a stream means has no part of it.
pub struct Added {
    /// The statement that adds it; none adds the main stream.
    pub place: Option<Span>,
    /// The name by which it is declared; an anonymous stream has none.
    pub name: Option<Name>,
    /// The values of its parameters, in their order.
    pub arguments: Vec<i32>,
}

impl Drop for Added {
    fn drop(self) {
        let Added {
            place: _,
            name: _,
            arguments: _,
        } = self;
    }
}
