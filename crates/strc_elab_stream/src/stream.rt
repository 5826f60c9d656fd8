// A stream of instances: what a program's text becomes when its composite streams have run.

use crate::added::Added;
use strc_elab_graph::graph::Splitter;
use strc_elab_graph::instance::Instance;
use strc_lex_names::name::StringLiteral;

/// A stream, with its constants substituted (StreamIt specification 2.1, "Streams").
pub enum Stream {
    /// A filter.
    Filter(Instance),
    /// What comes in goes out, item by item.
    Identity,
    /// What gives the program's input; what is between its brackets.
    FileReader(StringLiteral),
    /// What writes each item; what is between its brackets.
    FileWriter(StringLiteral),
    /// Streams in a row: what one gives is what the next one takes.
    Pipeline(Vec<Stream>),
    /// Streams side by side, between a splitter, where they take items, and a joiner, where they
    /// give some; the joiner takes so many items of each in turn.
    SplitJoin(Option<Splitter>, Vec<Stream>, Option<Vec<u32>>),
    /// The joiner's weights, the body, the splitter, the loop, and the items that are enqueued on
    /// the channel from the loop to the joiner.
    FeedbackLoop(Vec<u32>, Box<Stream>, Splitter, Box<Stream>, Vec<i32>),
    /// A stream and how it is added. Contracts see the stream alone.
    Placed(Added, Box<Stream>),
}

impl Drop for Stream {
    fn drop(self) {
        match self {
            Stream::Filter(_)
            | Stream::Identity
            | Stream::FileReader(_)
            | Stream::FileWriter(_)
            | Stream::Pipeline(_)
            | Stream::SplitJoin(_, _, _)
            | Stream::FeedbackLoop(_, _, _, _, _)
            | Stream::Placed(_, _) => {}
        }
    }
}
