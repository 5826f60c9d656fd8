// The rounds of a live run, and what is written of them.

ghost use Rattle.std.specs.Prelude.{◌≡◌, ◌≢◌, ◌<◌, ◌++◌, ℕ, Option, List, true, false, Ok, Err};
ghost use Rattle.std.specs.Prelude.{None};
ghost use Rattle.strc_elab_dataflow.specs.Streams as trees;
ghost use Rattle.strc_elab_graph.specs.Graphs.{NodeCode};
ghost use Rattle.strc_sched.specs.Serving.{round_limit};
ghost use Rattle.strc_run.specs.Rounds.{plan_reads};
ghost use Rattle.strc_work_meaning.specs.declared.word.Word as word;
ghost use Rattle.strc_cli_output.specs.Output as spec;
ghost use Rattle.strc_cli.specs.Executes.{Device, device_of};
ghost use Rattle.strc_live_feeds.specs.Beginning.{HasBegunSo};
ghost use Rattle.strc_live_feeds.specs.Feeding.{IsFeeding};
ghost use Rattle.strc_live_answers.specs.Laws.{IsOneTapeOf};
ghost use Rattle.strc_live.specs.Rounds.{GoesLive, IsFaultOf, IsGoing, StepsTo, WritesWords};

use crate::ends::LiveEnd;
use std::alloc::Global;
use strc_cli::execute::{CliError, write_all};
use strc_cli_input::device::{Sink, Source};
use strc_cli_messages::fault::FaultSite;
use strc_cli_output::outcome::{leaves_line_open, push_words};
use strc_cli_output::stop::Stop;
use strc_live_answers::{
    live_feeds_are_cut_off, live_feeds_end, live_feeds_fault, live_feeds_fault_at_first,
    live_feeds_reach_the_limit, live_feeds_write,
};
use strc_live_feeds::begin::{Begun, begin};
use strc_live_feeds::live_feed::{Fed, LiveFeed};
use strc_run::compile::Plan;
use strc_run::run::{Outcome, Round, RunRefusal};
use strc_stage::old_names::renamed;
use strc_work_meaning::fault::LocatedCause;
use strc_work_meaning::word::Word;

/// What is written of a run's words, in memory that is used again.
#[derive(Drop)]
pub(crate) struct Tape {
    text: Vec<u8>,
    /// Whether the words that are written leave their line open.
    pub(crate) leaves_open: bool,
}

impl Tape {
    /// Nothing is written.
    pub(crate) fn new(alloc: Global) -> Tape
        ensures { result.leaves_open ≡ false }
    {
        Tape {
            text: Vec::new(alloc),
            leaves_open: false,
        }
    }

    /// Writes words. Whether there was memory for their text: else nothing is written.
    fn write<O: Sink>(&mut self, words: &[Word], output: &mut O) -> Result<bool, CliError>
        ensures { WritesWords words.now result self.old.leaves_open self.new.leaves_open
            (device_of (O.contents output.old) (O.has_failed output.old))
            (device_of (O.contents output.new) (O.has_failed output.new)) }
    {
        self.text.clear();
        if push_words(&mut self.text, words).is_err() {
            return Ok(false);
        }
        self.leaves_open = open_after(self.leaves_open, words);
        write_all(output, &self.text)?;
        Ok(true)
    }
}

// Whether a line is open after further words.
#[tactic(auto, using(crate::proofs::Writing::opens_after, crate::proofs::Writing::opens_as_before))]
fn open_after(leaves_open: bool, words: &[Word]) -> bool
    ensures { (past : List word.Word) → leaves_open ≡ spec.leaves_open past
        → result ≡ spec.leaves_open (past ++ words.now) }
{
    if words.is_empty() {
        leaves_open
    } else {
        leaves_line_open(words)
    }
}

/// Runs a plan that reads the program's input, over the input while it comes: each round as soon as
/// its items are there, and its words are written before more is read.
pub(crate) fn run_live<I: Source, O: Sink>(
    alloc: Global,
    plan: &Plan,
    tape: &mut Tape,
    input: &mut I,
    output: &mut O,
) -> Result<LiveEnd, CliError>
    requires reads { plan_reads plan.now ≡ true }
    requires fresh { tape.old.leaves_open ≡ false }
    ensures goes { (tree : trees.Stream NodeCode) → IsOneTapeOf tree plan.now
        → GoesLive tree plan.now (I.remaining input.old) (I.remaining input.new) result
        tape.new.leaves_open (device_of (O.contents output.old) (O.has_failed output.old))
        (device_of (O.contents output.new) (O.has_failed output.new)) }
    ensures failed { result ≡ Err CliError.Read → I.has_failed input.new ≡ true }
    ensures steady { result ≢ Err CliError.Read → I.has_failed input.new ≡ I.has_failed input.old }
{
    live_feeds_fault_at_first();
    match begin(alloc, plan, input) {
        Begun::Goes(feed) => run_begun(alloc, plan, feed, tape, input, output),
        Begun::Faulted {
            node,
            firing,
            cause,
        } => Ok(LiveEnd::Faulted(FaultSite {
            node,
            firing,
            round: Round::Startup,
            cause,
        })),
        Begun::Short { need, got } => Ok(LiveEnd::Stopped(Stop::NotRun(RunRefusal::InputShort {
            need,
            got,
        }))),
        Begun::Wrong { word } => Ok(LiveEnd::Stopped(Stop::BadInput { word })),
        Begun::ReadFailed => Err(CliError::Read),
        Begun::NoMemory => Ok(LiveEnd::no_memory()),
    }
}

/// Writes the words of start-up, and goes on with the rounds.
fn run_begun<I: Source, O: Sink>(
    alloc: Global,
    plan: &Plan,
    feed: LiveFeed,
    tape: &mut Tape,
    input: &mut I,
    output: &mut O,
) -> Result<LiveEnd, CliError>
    requires feeding { IsFeeding (I.remaining input.old) feed }
    requires fresh { tape.old.leaves_open ≡ false }
    ensures goes { (tree : trees.Stream NodeCode) (first : Option (List ℕ))
        → IsOneTapeOf tree plan.now → HasBegunSo plan.now first (I.remaining input.old) feed
        → GoesLive tree plan.now first (I.remaining input.new) result
        tape.new.leaves_open (device_of (O.contents output.old) (O.has_failed output.old))
        (device_of (O.contents output.new) (O.has_failed output.new)) }
    ensures failed { result ≡ Err CliError.Read → I.has_failed input.new ≡ true }
    ensures steady { result ≢ Err CliError.Read → I.has_failed input.new ≡ I.has_failed input.old }
{
    live_feeds_write();
    if !tape.write(feed.words(), output)? {
        return Ok(LiveEnd::no_memory());
    }
    run_rounds(alloc, plan, feed, tape, input, output)
}

/// The rounds, until the input ends.
fn run_rounds<I: Source, O: Sink>(
    alloc: Global,
    plan: &Plan,
    feed: LiveFeed,
    tape: &mut Tape,
    input: &mut I,
    output: &mut O,
) -> Result<LiveEnd, CliError>
    requires feeding { IsFeeding (I.remaining input.old) feed }
    ensures goes { (tree : trees.Stream NodeCode) (first : Option (List ℕ)) (before : Device)
        → IsOneTapeOf tree plan.now
        → IsGoing plan.now first (I.remaining input.old) 0 feed tape.old.leaves_open before
        (device_of (O.contents output.old) (O.has_failed output.old))
        → GoesLive tree plan.now first (I.remaining input.new) result tape.new.leaves_open before
        (device_of (O.contents output.new) (O.has_failed output.new)) }
    ensures failed { result ≡ Err CliError.Read → I.has_failed input.new ≡ true }
    ensures steady { result ≢ Err CliError.Read → I.has_failed input.new ≡ I.has_failed input.old }
{
    live_feeds_reach_the_limit();
    live_feeds_write();
    let mut feed = feed;
    for _round in 0..u32::MAX {
        if let Some(end) = step(alloc, plan, &mut feed, tape, input, output)? {
            return Ok(end);
        }
    }
    Ok(LiveEnd::Done)
}

/// One more round, whose words are written; or why there is none.
fn step<I: Source, O: Sink>(
    alloc: Global,
    plan: &Plan,
    feed: &mut LiveFeed,
    tape: &mut Tape,
    input: &mut I,
    output: &mut O,
) -> Result<Option<LiveEnd>, CliError>
    requires feeding { IsFeeding (I.remaining input.old) feed.old }
    ensures step { (tree : trees.Stream NodeCode) (first : Option (List ℕ)) (before : Device)
        (rounds : ℕ) → IsOneTapeOf tree plan.now → rounds < round_limit
        → IsGoing plan.now first (I.remaining input.old) rounds feed.old tape.old.leaves_open
        before (device_of (O.contents output.old) (O.has_failed output.old))
        → StepsTo tree plan.now first (I.remaining input.new) rounds result feed.new
        tape.new.leaves_open before
        (device_of (O.contents output.new) (O.has_failed output.new)) }
    ensures feeding { result ≡ Ok None → IsFeeding (I.remaining input.new) feed.new }
    ensures failed { result ≡ Err CliError.Read → I.has_failed input.new ≡ true }
    ensures steady { result ≢ Err CliError.Read → I.has_failed input.new ≡ I.has_failed input.old }
{
    live_feeds_write();
    live_feeds_end();
    live_feeds_fault();
    live_feeds_are_cut_off();
    let done = feed.done();
    match feed.advance(input) {
        Fed::Round => {
            if tape.write(feed.words(), output)? {
                Ok(None)
            } else {
                Ok(Some(LiveEnd::no_memory()))
            }
        }
        Fed::Ended | Fed::Limit => Ok(Some(LiveEnd::Done)),
        Fed::Wrong { word } => Ok(Some(LiveEnd::Stopped(Stop::BadInput { word }))),
        Fed::ReadFailed => Err(CliError::Read),
        Fed::Faulted {
            node,
            firing,
            cause,
        } => Ok(Some(faulted(alloc, plan, node, firing, done, cause))),
        Fed::NoMemory => Ok(Some(LiveEnd::no_memory())),
    }
}

/// A fault of a round, by the nodes before fission.
fn faulted(
    alloc: Global,
    plan: &Plan,
    node: u32,
    firing: u64,
    round: u32,
    cause: LocatedCause,
) -> LiveEnd
    ensures { IsFaultOf plan.now node firing round cause result }
{
    let own = Outcome::Fault {
        node,
        firing,
        round: Round::At(round),
        cause,
        tapes: Vec::new(alloc),
    };
    match renamed(plan, own) {
        Outcome::Fault {
            node,
            firing,
            round,
            cause,
            tapes: _tapes,
        } => LiveEnd::Faulted(FaultSite {
            node,
            firing,
            round,
            cause,
        }),
        Outcome::Done(_) => LiveEnd::Done,
    }
}
