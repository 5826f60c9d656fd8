// The statements of a composite stream's body that a refusal can be reported at.

ghost use Rattle.std.specs.Prelude.{◌≡◌};
ghost use Rattle.strc_elab.specs.Places as places;

use strc_lex_names::place::Span;
use strc_parse_tree::tree::StreamType;

/// The places of statements, each where it is known: of the innermost one that runs, or that was
/// refused; of those that said `split` and `join`; and of those that added the first and the last
/// child of `add`.
#[derive(Clone, Copy)]
pub(crate) struct Trace {
    pub(crate) here: Option<Span>,
    pub(crate) split: Option<Span>,
    pub(crate) join: Option<Span>,
    pub(crate) first: Option<Span>,
    pub(crate) last: Option<Span>,
}

impl Trace {
    /// Before any statement runs.
    pub(crate) fn none() -> Trace
        ensures { result ≡ places.no_trace }
    {
        Trace {
            here: None,
            split: None,
            join: None,
            first: None,
            last: None,
        }
    }

    /// The statement that runs adds a child, after children of these types.
    pub(crate) fn with_child(self, earlier: &[StreamType]) -> Trace
        ensures { result ≡ places.with_child earlier.now self }
    {
        let first = match earlier {
            [] => self.here,
            [_, ..] => self.first,
        };
        Trace {
            here: self.here,
            split: self.split,
            join: self.join,
            first,
            last: self.here,
        }
    }
}
