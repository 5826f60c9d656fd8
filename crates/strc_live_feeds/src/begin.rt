// The start of a live run over the input.

ghost use Rattle.std.specs.Prelude.{◌≡◌, ◌≢◌, ◌-◌, ℕ, List, Option, true};
ghost use Rattle.std.specs.List.{list_any};
ghost use Rattle.strc_elab_graph.specs.Graphs as graphs;
ghost use Rattle.strc_stage_plan.specs.Plans.{graph_of};
ghost use Rattle.strc_stage_steps.specs.Plans.{need_of};
ghost use Rattle.strc_cli_input.specs.NumberReading.{HasPulled, IsWithin};
ghost use Rattle.strc_live_runs.specs.Starts.{CanBeginWith};
ghost use Rattle.strc_live_feeds.specs.Beginning.{IsBegun};

use crate::live_feed::LiveFeed;
use std::alloc::Global;
use strc_cli_input::device::Source;
use strc_cli_input::input::ReadStop;
use strc_cli_input::number_reader::NumberReader;
use strc_live_runs::laws::live_runs_read_on;
use strc_live_runs::start::{Started, start};
use strc_sched::plain::input_needed;
use strc_stage_plan::plan::Plan;
use strc_work_meaning::fault::LocatedCause;

/// What comes of the start of a live run.
#[derive(Drop)]
pub enum Begun {
    /// Start-up is done, with these words, and the rounds can go on.
    Goes(LiveFeed),
    /// A firing of start-up faulted.
    Faulted {
        node: u32,
        firing: u64,
        cause: LocatedCause,
    },
    /// The input has ended, with fewer numbers than start-up reads.
    Short {
        need: u64,
        got: u64,
    },
    /// A word of the input writes no number; its number, from 0.
    Wrong {
        word: u64,
    },
    /// A read failed.
    ReadFailed,
    /// Memory ran out.
    NoMemory,
}

/// Start-up of a plan that reads the program's input, as soon as the input has given what it reads.
pub fn begin<I: Source>(alloc: Global, plan: &Plan, input: &mut I) -> Begun
    requires reads { list_any graphs.reads_input (graph_of plan.now).nodes ≡ true }
    ensures begun { IsBegun plan.now (I.remaining input.old) (I.remaining input.new) result }
    ensures failed { result ≡ Begun.ReadFailed → I.has_failed input.new ≡ true }
    ensures steady { result ≢ Begun.ReadFailed → I.has_failed input.new ≡ I.has_failed input.old }
{
    let need = needed(plan, 0);
    let each = needed(plan, 1).saturating_sub(need);
    let Ok(mut numbers) = NumberReader::new(alloc) else {
        return Begun::NoMemory;
    };
    let mut window = Vec::new(alloc);
    match numbers.fill(input, &mut window, need as usize) {
        Ok(true) => started(alloc, plan, numbers, window, each as usize),
        Ok(false) => Begun::Short {
            need,
            got: window.len() as u64,
        },
        Err(ReadStop::BadInput { word }) => Begun::Wrong { word },
        Err(ReadStop::Failed) => Begun::ReadFailed,
        Err(ReadStop::NoMemory) => Begun::NoMemory,
    }
}

/// Start-up over these numbers, which the reader gave.
fn started(
    alloc: Global,
    plan: &Plan,
    numbers: NumberReader,
    window: Vec<i32>,
    each: usize,
) -> Begun
    requires can { CanBeginWith plan.now window.items }
    requires within { IsWithin numbers }
    requires each { each ≡ need_of plan.now 1 - need_of plan.now 0 }
    ensures begun { (first left : Option (List ℕ)) → HasPulled first left window.items numbers
        → IsBegun plan.now first left result }
    ensures read { result ≢ Begun.ReadFailed }
{
    live_runs_read_on();
    let mut words = Vec::new(alloc);
    match start(alloc, plan, &window, &mut words) {
        Ok(Started::Goes(run)) => Begun::Goes(LiveFeed {
            run,
            numbers,
            each,
            window,
            words,
        }),
        Ok(
            Started::Faulted {
                node,
                firing,
                cause,
            },
        ) => Begun::Faulted {
            node,
            firing,
            cause,
        },
        Err(_) => Begun::NoMemory,
    }
}

/// How many numbers start-up and so many rounds read.
fn needed(plan: &Plan, rounds: u32) -> u64
    ensures { result ≡ need_of plan.now rounds }
{
    input_needed(plan.graph(), plan.schedule(), rounds)
}
