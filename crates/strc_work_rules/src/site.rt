// Which part of a text breaks a rule, and which rule that is. It is for the messages that people
// read: no contract says that it is the one.

use strc_lex_names::place::Span;
use strc_parse_tree::tree::CompositeKind;
use strc_work_meaning::fault::Trapped;
use strc_work_meaning::types::ValueType;

/// The part of a text that breaks a rule, which rule of types, kinds and parts it breaks, and what
/// trapped where a filter faults at its start, as far as these are known.
#[derive(Clone, Copy)]
pub struct Site {
    pub place: Option<Span>,
    pub mismatch: Option<Mismatch>,
    pub trapped: Trapped,
}

impl Site {
    /// Nothing is known.
    pub fn unknown() -> Site {
        Site {
            place: None,
            mismatch: None,
            trapped: Trapped::nothing(),
        }
    }

    /// The rule is known alone.
    pub fn of(mismatch: Mismatch) -> Site {
        Site {
            place: None,
            mismatch: Some(mismatch),
            trapped: Trapped::nothing(),
        }
    }

    /// What trapped is known alone.
    pub fn trapped(trapped: Trapped) -> Site {
        Site {
            place: None,
            mismatch: None,
            trapped,
        }
    }

    /// The same; at this place, where none was known.
    pub fn or_at(self, place: Option<Span>) -> Site {
        Site {
            place: match self.place {
                Some(_) => self.place,
                None => place,
            },
            mismatch: self.mismatch,
            trapped: self.trapped,
        }
    }
}

/// A rule on types, kinds and parts that is broken.
#[derive(Clone, Copy)]
pub enum Mismatch {
    /// A filter has no `work`.
    NoWork,
    /// A filter has a second `work`.
    SecondWork,
    /// A filter has a second `prework`.
    SecondPrework,
    /// A filter has a second `init`.
    SecondInit,
    /// A name is declared twice in one block, among a filter's fields, or as a parameter.
    DeclaredTwice,
    /// A value of the first type is wanted where one of the second is.
    Value(ValueType, ValueType),
    /// A constant is assigned or stepped.
    ConstantWritten,
    /// A variable is used in a rate or in the length of an array.
    VariableInConstant,
    /// An element is taken of what is no array.
    NoArray,
    /// An array is used without an index.
    WholeArray,
    /// `pop` or `peek` where no items come in: in a filter that takes none, or outside of `work`.
    NoInput,
    /// `push` where no items go out: in a filter that gives none, or outside of `work`.
    NoOutput,
    /// `print` or `println` outside of `work`.
    NoPrinting,
    /// A rate above 0 on a side without items.
    RateWithoutItems,
    /// A call where none may stand: in a rate, in the length of an array, or outside of a filter.
    NoCalls,
    /// A call of a helper function that gives nothing, where a value is wanted.
    NothingGiven,
    /// `pop`, `peek`, `push` or `print` in a helper function.
    FlowInHelper,
    /// `return` outside of a helper function.
    NoHelper,
    /// `return` without a value in a helper function that gives one.
    ValueMissing,
    /// `return` with a value in a helper function that gives none.
    ValueUnwanted,
    /// A statement of composite streams in a filter.
    StreamStatement,
    /// A statement of filters in a composite stream.
    FilterStatement,
    /// Streams of this kind have no statements of this part.
    Foreign(CompositeKind, Part),
    /// A stream of this kind has a second statement of this part.
    Second(CompositeKind, Part),
    /// A stream of this kind has no statement of this part.
    Missing(CompositeKind, Part),
    /// A child of a pipeline takes other than what the child before it gives.
    Follows,
    /// The first child of a pipeline takes other than what the pipeline takes.
    First,
    /// The last child of a pipeline gives other than what the pipeline gives.
    Last,
    /// The children of a split-join take other than what it takes, or give other than what it
    /// gives.
    Sides,
    /// The weights of a feedback loop don't go with what it takes and gives.
    LoopSides,
    /// The body or the loop of a feedback loop doesn't take items, or gives none.
    LoopChild,
    /// A second declaration of a stream has the name of the one at this place.
    StreamTwice(Option<Span>),
}

/// What a statement of a composite stream is for.
#[derive(Clone, Copy, PartialEq)]
pub enum Part {
    Add,
    Body,
    Loop,
    Split,
    Join,
    Enqueue,
}
