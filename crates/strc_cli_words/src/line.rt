// What a command line asks for.

use thiserror::Error;

/// What the program is to do.
#[derive(Drop)]
pub enum Command {
    /// Run the program for so many rounds, or for as many as its input allows, by so many workers.
    Run {
        /// 0 to 4,294,967,295 rounds, where a number is given.
        rounds: Option<u32>,
        /// 0 to 4,294,967,295 workers: those from 1 to 64 can run it.
        workers: u32,
        /// A filter without state is split among at most so many copies, 1 to 64.
        ways: u32,
        /// Two neighbouring units become one where their list has at most so many entries, 0 to
        /// 65,536.
        fuse: u32,
        /// How many rounds each worker runs at a time, 1 to 4,096, where a number is given.
        batch: Option<u32>,
        /// Is the time of each stage to be written to standard error?
        stats: bool,
        /// The name of the main stream, where one is given.
        main: Option<String>,
    },
    /// Tell how large the program's flat graph is.
    Check {
        /// The name of the main stream, where one is given.
        main: Option<String>,
    },
    /// Tell how often each node fires before the first round and in a round, and how large the
    /// buffer of each channel is.
    Plan {
        /// Are the path, the work and the buffers of each node to be told too?
        long: bool,
        /// By what nodes are told in order, where it is given.
        sort: Option<SortKey>,
        /// The name of the main stream, where one is given.
        main: Option<String>,
    },
    /// Write the program as C.
    Emit {
        /// The name of the main stream, where one is given.
        main: Option<String>,
    },
    /// Draw the program's flat graph, as a text for Graphviz; or the graph and the stages that run,
    /// where one of the three numbers is given.
    Graph {
        /// 0 to 4,294,967,295 workers, where a number is given: those from 1 to 64 can run it.
        workers: Option<u32>,
        /// The number of copies, 1 to 64, where one is given.
        ways: Option<u32>,
        /// The number of entries, 0 to 65,536, where one is given.
        fuse: Option<u32>,
        /// Composite streams in so many others are single boxes, where a number is given.
        depth: Option<u32>,
        /// What a run wrote of the time of its nodes; no bytes where there is nothing of it. The
        /// words of a command line give none: it is for whoever reads the file.
        times: Vec<u8>,
        /// The name of the main stream, where one is given.
        main: Option<String>,
    },
}

/// By what nodes are told in order, the largest first.
#[derive(Clone, Copy)]
pub enum SortKey {
    /// By the work of a round.
    Work,
    /// By the items that fit in the buffers behind them.
    Size,
}

/// In which form it is told what is wrong with a text, and what may be a mistake in it.
#[derive(Clone, Copy)]
pub enum Format {
    /// In lines for a person.
    Text,
    /// In a line of JSON for each message.
    Json,
}

/// A tape that goes to a file of its own.
#[derive(Drop)]
pub struct Out {
    /// The name of the tape. It isn't empty, and has no `=`.
    pub tape: String,
    /// The file. Its name isn't empty.
    pub file: String,
}

/// A line of words that was understood.
#[derive(Drop)]
pub struct Line {
    /// The file of the program's text; without one it comes from standard input.
    pub file: Option<String>,
    pub command: Command,
    /// Is a run to go on while its input comes?
    pub live: bool,
    /// Is a person to be told what may be mistakes in a text that is accepted?
    pub lint: bool,
    /// In which form is that told, and why a text is refused?
    pub format: Format,
    /// The tapes of a run that go to files, in the order of the words; no two have one name or one
    /// file, and there are none where a run is live.
    pub outs: Vec<Out>,
    /// The file of what a run wrote of the time of its nodes, where one is given.
    pub times: Option<String>,
}

/// Why a line of words was not understood.
#[derive(Clone, Copy, Debug, PartialEq, Eq, Error)]
pub enum LineFault {
    /// The words are none that the program knows.
    #[error("the words are no command of strc: `strc --help` lists them")]
    Words,
    /// What follows `--sort` is nothing that nodes can be sorted by.
    #[error("'--sort' takes `work` or `size`")]
    BadSort,
    /// What follows `--format` is no form of messages.
    #[error("'--format' takes `text` or `json`")]
    BadFormat,
    /// What follows a `--out` isn't two names that are not empty, with a `=` between.
    #[error("'--out' takes NAME=FILE: the name of a tape, and that of the file for its words")]
    BadOut,
    /// Two `--out` name one tape, or one file.
    #[error("'--out' is given twice for one tape, or for one file")]
    TapeTwice,
    /// `--out` stands beside `--live`.
    #[error("the argument '--live' cannot be used with '--out <NAME=FILE>'")]
    LiveOut,
    /// Memory ran out.
    #[error("the machine has no more memory to give for the words of the command line")]
    Memory,
}
