// A live run that is fed from the input.

ghost use Rattle.std.specs.Prelude.{◌≡◌, ◌≢◌, ◌+◌, ◌<◌, ◌^◌, ℕ, ℤ, List, Option, length, true};
ghost use Rattle.strc_work_meaning.specs.declared.word.Word as word;
ghost use Rattle.strc_stage_plan.specs.Plans.{PlanParts};
ghost use Rattle.strc_live_plans.specs.Readers.{each_of};
ghost use Rattle.strc_live_runs.specs.Runs.{IsLiveRun, IsWired};
ghost use Rattle.strc_live_feeds.specs.Feeding.{HasFed, IsFedBy, IsFeeding, IsRoundOf};
ghost use Rattle.strc_live_feeds.specs.Feeding.{KeepsFeeding};

use strc_cli_input::device::Source;
use strc_cli_input::input::ReadStop;
use strc_cli_input::number_reader::NumberReader;
use strc_live_runs::laws::live_runs_read_on;
use strc_live_runs::live_run::LiveRun;
use strc_sched_outcome::stop::Stop;
use strc_work_meaning::fault::LocatedCause;
use strc_work_meaning::word::Word;

/// A live run after start-up and the numbers of its input, with memory that rounds use again.
#[derive(Drop)]
pub struct LiveFeed {
    pub(crate) run: LiveRun,
    pub(crate) numbers: NumberReader,
    /// How many numbers each round reads.
    pub(crate) each: usize,
    pub(crate) window: Vec<i32>,
    /// Those of start-up, or of the last round.
    pub(crate) words: Vec<Word>,
}

/// What comes next of a live run.
pub enum Fed {
    /// A round is done.
    Round,
    /// The input has ended, with fewer numbers than another round reads.
    Ended,
    /// A word of the input writes no number; its number, from 0.
    Wrong {
        word: u64,
    },
    /// A read failed.
    ReadFailed,
    /// A firing of the next round, by its node after fission, faulted.
    Faulted {
        node: u32,
        firing: u64,
        cause: LocatedCause,
    },
    /// Memory ran out.
    NoMemory,
    /// 4,294,967,295 rounds are done: there are no more.
    Limit,
}

impl LiveFeed {
    /// The next round, as soon as the input has given what it reads. It reads no more than that of
    /// the input, but to the end of a piece.
    pub fn advance<I: Source>(&mut self, input: &mut I) -> Fed
        requires feeding { IsFeeding (I.remaining input.old) self.old }
        ensures fed { (plan : PlanParts) (first : Option (List ℕ)) (read : List ℤ)
            (past : ℕ → List word.Word)
            → HasFed plan first (I.remaining input.old) read past self.old
            → IsFedBy plan first (I.remaining input.new) read past self.old result self.new }
        ensures feeding { KeepsFeeding (I.remaining input.new) result self.new }
        ensures failed { result ≡ Fed.ReadFailed → I.has_failed input.new ≡ true }
        ensures steady { result ≢ Fed.ReadFailed
            → I.has_failed input.new ≡ I.has_failed input.old }
    {
        live_runs_read_on();
        if self.run.done() == u32::MAX {
            return Fed::Limit;
        }
        match self.numbers.fill(input, &mut self.window, self.each) {
            Ok(true) => self.round(),
            Ok(false) => Fed::Ended,
            Err(ReadStop::BadInput { word }) => Fed::Wrong { word },
            Err(ReadStop::Failed) => Fed::ReadFailed,
            Err(ReadStop::NoMemory) => Fed::NoMemory,
        }
    }

    /// A round over the numbers in the window.
    fn round(&mut self) -> Fed
        requires wired { IsWired self.old.run }
        requires limit { self.old.run.done + 1 < 2 ^ 32 }
        ensures round { (plan : PlanParts) (read : List ℤ) (past : ℕ → List word.Word)
            → IsLiveRun plan read past self.old.run
            → length self.old.window.items ≡ each_of plan
            → IsRoundOf plan read past self.old result self.new }
        ensures wired { IsWired self.new.run }
        ensures numbers { self.new.numbers ≡ self.old.numbers }
        ensures each { self.new.each ≡ self.old.each }
    {
        match self.run.round(&mut self.window, &mut self.words) {
            Ok(()) => Fed::Round,
            Err(
                Stop::Fault {
                    node,
                    firing,
                    cause,
                },
            ) => Fed::Faulted {
                node,
                firing,
                cause,
            },
            Err(Stop::NoMemory) => Fed::NoMemory,
        }
    }

    /// The words of the last round, or those of start-up before the first one.
    pub fn words(&self) -> &[Word]
        ensures { result.now ≡ self.now.words.items }
    {
        &self.words
    }

    /// How many rounds are done.
    pub fn done(&self) -> u32
        ensures { result ≡ self.now.run.done }
    {
        self.run.done()
    }
}
