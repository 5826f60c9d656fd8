// Programs of filters that look ahead, and how often their source fires before the first round.

ghost use Rattle.std.specs.Prelude.{All};
ghost use Rattle.strc_balance.specs.Rates.{IsRated, equations_of};
ghost use Rattle.strc_elab_graph.specs.NodeView.{graph_view};

use std::io;
use std::io::ErrorKind;
use std::time::{Duration, Instant};
use strc_balance::condition::can_balance;
use strc_balance::counts::Counts;
use strc_elab_graph::graph::Graph;
use strc_run::compile::{Plan, compile};
use strc_run::options::Options;
use strc_run::refusal::Refusal;
use strc_startup::error::StartupError;
use strc_startup::startup::startup;

/// A source, so many filters in a row that look at so many items and pop one, and a sink.
#[derive(Clone, Copy)]
pub(crate) struct Peeks {
    pub filters: u32,
    pub peek: u32,
}

/// How often the source fires before the first round, or that there are no such counts; and the
/// least of so many times that finding it took.
#[derive(Clone, Copy)]
pub(crate) struct Primed {
    pub source: Option<u32>,
    pub took: Duration,
}

/// The start-up of a program.
pub(crate) fn prime(rt: &HostRuntime, peeks: Peeks, repeats: u32) -> io::Result<Primed> {
    let Some(plan) = plan_of(rt, peeks)? else {
        return Ok(Primed {
            source: None,
            took: Duration::ZERO,
        });
    };
    let graph = plan.graph();
    match can_balance(rt.alloc(), graph) {
        Ok(true) => {}
        Ok(false) => return Err(io::Error::new(ErrorKind::InvalidData, "not to be balanced")),
        Err(_) => return Err(io::Error::from(ErrorKind::OutOfMemory)),
    }
    timed_startup(rt, graph, plan.round_counts(), repeats)
}

/// The start-up of a graph, and the least of so many times that finding it took.
fn timed_startup(
    rt: &HostRuntime,
    graph: &Graph,
    round: &Counts,
    repeats: u32,
) -> io::Result<Primed>
    requires { All IsRated (equations_of (graph_view graph.now)) }
{
    let mut least = Duration::MAX;
    let mut source = None;
    for _ in 0..repeats {
        let begun = Instant::now(rt)?;
        let answer = startup(rt.alloc(), graph, round);
        least = least.min(begun.elapsed(rt)?);
        source = source_of(answer)?;
    }
    Ok(Primed {
        source,
        took: least,
    })
}

/// The plan of the program's text, unless it has no start-up counts.
fn plan_of(rt: &HostRuntime, peeks: Peeks) -> io::Result<Option<Plan>> {
    let text = format!(in rt.alloc();
        "void->int filter Source {{ work push 1 {{ push(0); }} }}
         int->int filter Ahead(int n) {{ work push 1 pop 1 peek n {{ push(pop()); }} }}
         int->void filter Sink {{ work pop 1 {{ println(pop()); }} }}
         void->void pipeline Main {{
             add Source;
             for (int i = 0; i < {}; i++) add Ahead({});
             add Sink;
         }}",
        peeks.filters, peeks.peek
    )?;
    match compile(
        rt.alloc(),
        text.as_bytes(),
        &Options {
            main: None,
            ways: 1,
            fuse: 0,
        },
    ) {
        Ok(plan) => Ok(Some(plan)),
        Err(Refusal::StartupUnbounded) => Ok(None),
        Err(_) => Err(io::Error::new(ErrorKind::InvalidData, "the text is refused")),
    }
}

/// How often the first node fires.
fn source_of(answer: Result<Counts, StartupError>) -> io::Result<Option<u32>> {
    match answer {
        Ok(counts) => Ok(counts.as_slice().first().copied()),
        Err(StartupError::Unbounded) => Ok(None),
        Err(StartupError::NoMemory) => Err(io::Error::from(ErrorKind::OutOfMemory)),
    }
}
