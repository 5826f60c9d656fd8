// Steps of stages in threads, as `--stats` measures them: by several workers a text's run has a
// thread for each of them, or for each group of nodes where these are fewer.

use std::alloc::AllocError;
use std::io;
use std::sync::Wait;
use std::thread::Threads;
use strc_cli::execute::{Status, execute};
use strc_cli_input::device::Told;
use strc_cli_words::line::Command;
use strc_run_links::{STAGE_LIMIT, StageTimes};

/// A chain of six nodes.
const CHAIN: &str = "void->int filter Numbers { int x; work push 1 { push(x++); } }
int->int filter Negative { work push 1 pop 1 { push(-pop()); } }
int->void filter Line { work pop 1 { println(pop()); } }
void->void pipeline Chain {
    add Numbers;
    for (int i = 0; i < 4; i++) add Negative;
    add Line;
}
";

const ROUNDS: u32 = 4;

const PRINTED: &[u8] = b"0\n1\n2\n3\n";

/// So many workers, and how many stages step in threads; one worker has none.
const RUNS: [(u32, usize); 5] = [(1, 0), (2, 2), (3, 3), (5, 5), (64, 6)];

/// How many runs there are, and how many of them have other steps; a line says which.
pub(crate) fn run_stages<T: Threads + Wait + Sync>(
    rt: &HostRuntime,
    threads: &T,
) -> io::Result<(usize, usize)> {
    let mut different: usize = 0;
    for (workers, stages) in RUNS {
        if !steps_in_threads(rt, threads, workers, stages)? {
            println!(rt; "{workers} workers: not the steps of {stages} stages")?;
            different = different.saturating_add(1);
        }
    }
    Ok((RUNS.len(), different))
}

/// Whether each of so many stages steps once a round, and no other one.
fn steps_in_threads<T: Threads + Wait + Sync>(
    rt: &HostRuntime,
    threads: &T,
    workers: u32,
    stages: usize,
) -> Result<bool, AllocError> {
    let alloc = rt.alloc();
    let command = Command::Run {
        rounds: Some(ROUNDS),
        workers,
        ways: 1,
        fuse: 0,
        batch: Some(1),
        stats: true,
        main: None,
    };
    let nothing: &[u8] = &[];
    let mut input = Told::new(nothing);
    let mut output = Told::new(Vec::new(alloc));
    let times = StageTimes::new(alloc, rt)?;
    let outcome = execute(
        threads,
        alloc,
        CHAIN.as_bytes(),
        &command,
        &mut input,
        &mut output,
        &times,
    );
    let printed = output.into_device();
    let has_steps = (0..STAGE_LIMIT).all(|at| {
        let wanted = if at < stages { ROUNDS } else { 0 };
        times.stage(at).steps == u64::from(wanted)
    });
    Ok(outcome == Ok(Status::Done) && printed.as_slice() == PRINTED && has_steps)
}
