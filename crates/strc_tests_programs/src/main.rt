// The program `strc_tests_programs`: runs whole programs in memory, and compares what they write
// with what they are to write.
// Takes the files of the folder that it runs in. A case is a text NAME.str and its words NAME.args,
// the command first; its input NAME.in, if it has one; what it writes, NAME.out; the status it ends
// with, NAME.status, if that isn't 0; what a person reads of it, NAME.message, if there is one; and
// where tapes go to files, NAME.files, each file's text after a line with its name.
// Where a case's text is run by one worker, it is to come to the same by several, with copies, with
// fused units and by batches of rounds. A case with a file NAME.pieces is broken at each place too:
// its text cut at each byte, and devices that take so many bytes at a time failing at each call. A
// file NAME.refused is for scripts/refuse-memory.
// Gives a line for each case that differs, and at the end how many do; and the same of the places
// at which cases were broken, of devices that fail or take little at a time, and of runs whose
// stages step in threads. There is no theorem here; the values are those of the language's rules.
// Stands on strc_cli and strc_out_files, whose `execute_explained` and `execute_out` it calls.
#![tactic(auto)]

mod broken;
mod devices;
mod stage_steps;

use crate::broken::run_broken;
use crate::devices::run_devices;
use crate::stage_steps::run_stages;
use std::alloc::Global;
use std::io::ErrorKind;
use std::process::ExitCode;
use std::sync::Wait;
use std::thread::{Builder, Threads};
use std::{fs, io, thread};
use strc_cli::answer::main_name;
use strc_cli::execute::Status;
use strc_cli::explanation::{Explained, execute_explained};
use strc_cli_diagnostics::message::Message;
use strc_cli_diagnostics::message_json::{Severity, message_json};
use strc_cli_diagnostics::message_text::message_text;
use strc_cli_input::device::{Sink, Source, Told};
use strc_cli_input::watched_input::WatchedInput;
use strc_cli_lint::lint::lint_messages;
use strc_cli_words::line::{Command, Format, Line, LineFault, Out};
use strc_cli_words::words::command;
use strc_out_files::execute_out::execute_out;
use strc_run_links::{Gate, OpenGate, StageTimes};
use strc_stage_steps::Stage;

// The status of a command line that isn't understood, as of the program's.
const WORDS: u8 = 1;

// The words with which a case is run besides: it comes to the same.
const RUNS: [&str; 12] = [
    "--workers 2",
    "--workers 3 --fuse 2",
    "--workers 64 --fuse 8",
    "--fuse 1000",
    "--workers 3 --ways 2",
    "--workers 4 --ways 64 --fuse 2",
    "--batch 1",
    "--batch 2",
    "--batch 2 --workers 3",
    "--batch 4 --workers 5 --ways 2 --fuse 2",
    "--batch 3 --ways 2",
    "--batch 7 --fuse 8",
];

// The statuses of this program where not all cases are as they are to be.
const DIFFERENT: u8 = 1;

const NO_MEMORY: u8 = 4;

const FAILED: u8 = 5;

// The room for calls in one another, as of the program: the deepest texts need it.
const STACK: usize = 0x2000_0000;

/// What a program writes, the status that it ends with, and what a person reads of it.
#[derive(Drop)]
struct Answer {
    output: Vec<u8>,
    status: u8,
    message: Vec<u8>,
    /// The text of each file after a line with its name.
    files: Vec<u8>,
}

// Runs on a thread with the room that the program gives itself.
fn main(rt: HostRuntime) -> ExitCode {
    let status = thread::scope(thread::scope_env(), &rt, |scope| {
        match Builder::new()
            .stack_size(STACK)
            .spawn_scoped(scope, || status_of(&rt, &rt))
        {
            Ok(handle) => handle.join(&rt),
            Err(_) => status_of(&rt, &rt),
        }
    });
    ExitCode::from(status)
}

/// Runs the cases. 0 where all are as they are to be.
fn status_of<T: Threads + Wait + Sync>(rt: &HostRuntime, threads: &T) -> u8 {
    match run_all(rt, threads) {
        Ok(true) => 0,
        Ok(false) => DIFFERENT,
        Err(error) => {
            let _ = eprintln!(rt; "strc_tests_programs: {error}");
            match error.kind() {
                ErrorKind::OutOfMemory => NO_MEMORY,
                _ => FAILED,
            }
        }
    }
}

/// Whether no case and no device differs. An error is out of memory, or a folder or an output that
/// fails.
fn run_all<T: Threads + Wait + Sync>(rt: &HostRuntime, threads: &T) -> io::Result<bool> {
    let names = case_names(rt)?;
    let cases_are_as_wanted = run_cases(rt, threads, &names)?;
    let broken = run_broken(rt, threads, &names)?;
    println!(rt;
        "{} places broken, {} differ",
        broken.places, broken.different
    )?;
    let (devices, different) = run_devices(rt, threads)?;
    println!(rt; "{devices} devices, {different} differ")?;
    let (runs, other_steps) = run_stages(rt, threads)?;
    println!(rt; "{runs} runs by stages, {other_steps} differ")?;
    Ok(cases_are_as_wanted && broken.different == 0 && different == 0 && other_steps == 0)
}

/// Whether no case differs.
fn run_cases<T: Threads + Wait + Sync>(
    rt: &HostRuntime,
    threads: &T,
    names: &[String],
) -> io::Result<bool> {
    let mut different: usize = 0;
    for name in names {
        if !is_as_wanted(rt, threads, name)? {
            different = different.saturating_add(1);
        }
    }
    println!(rt; "{} cases, {different} differ", names.len())?;
    Ok(different == 0)
}

/// The names of the cases, in order, so that each run prints the same.
fn case_names(rt: &HostRuntime) -> io::Result<Vec<String>> {
    let mut names = Vec::new(rt.alloc());
    for entry in fs::read_dir(rt, ".")? {
        if let Some(name) = entry?.file_name().strip_suffix(".str") {
            names.push(String::from_str(rt.alloc(), name)?)?;
        }
    }
    names.sort()?;
    Ok(names)
}

/// Whether a case is as its files say; a line says the first difference. A file that can't be read
/// is one, so that no case is passed over.
fn is_as_wanted<T: Threads + Wait + Sync>(
    rt: &HostRuntime,
    threads: &T,
    name: &str,
) -> io::Result<bool> {
    match compare(rt, threads, name) {
        Err(error) if error.kind() != ErrorKind::OutOfMemory => {
            println!(rt; "{name}: {error}")?;
            Ok(false)
        }
        outcome => outcome,
    }
}

fn compare<T: Threads + Wait + Sync>(
    rt: &HostRuntime,
    threads: &T,
    name: &str,
) -> io::Result<bool> {
    let wanted = Answer {
        output: part(rt, name, "out")?,
        status: wanted_status(rt, name)?,
        message: part_if_there(rt, name, "message")?,
        files: part_if_there(rt, name, "files")?,
    };
    let given = String::from_utf8_lossy(rt.alloc(), &part(rt, name, "args")?)?;
    if !is_answer(rt, name, &wanted, &found_answer(rt, threads, name, &given)?)? {
        return Ok(false);
    }
    if !comes_to_a_run(&given, &wanted) {
        return Ok(true);
    }
    is_same_otherwise(rt, threads, name, &given, &wanted)
}

/// Whether a case's words leave workers, copies, fusion and batches open, and its text comes to a
/// run: one that is refused is so before there are workers.
fn comes_to_a_run(given: &str, wanted: &Answer) -> bool {
    given.split_whitespace().next() == Some("run")
        && !given.contains("--workers")
        && !given.contains("--ways")
        && !given.contains("--fuse")
        && !given.contains("--batch")
        && wanted.status != WORDS
        && !wanted.output.starts_with(b"refused E")
}

/// Whether several workers, copies, fused units and batches come to the same.
fn is_same_otherwise<T: Threads + Wait + Sync>(
    rt: &HostRuntime,
    threads: &T,
    name: &str,
    given: &str,
    wanted: &Answer,
) -> io::Result<bool> {
    for more in RUNS {
        let words = format!(in rt.alloc(); "{given} {more}")?;
        let title = format!(in rt.alloc(); "{name} with {more}")?;
        if !is_answer(
            rt,
            &title,
            wanted,
            &found_answer(rt, threads, name, &words)?,
        )? {
            return Ok(false);
        }
    }
    Ok(true)
}

/// Whether an answer is the wanted one; a line with this title says the first difference.
fn is_answer(rt: &HostRuntime, title: &str, wanted: &Answer, found: &Answer) -> io::Result<bool> {
    // No case asks for more memory than there is.
    if found.status == NO_MEMORY && wanted.status != NO_MEMORY {
        return Err(io::Error::from(ErrorKind::OutOfMemory));
    }
    if found.output != wanted.output {
        print_difference(rt, title, &wanted.output, &found.output)?;
        return Ok(false);
    }
    if found.files != wanted.files {
        print_difference(rt, title, &wanted.files, &found.files)?;
        return Ok(false);
    }
    if found.status != wanted.status {
        println!(rt;
            "{title}: wanted status {}, got {}",
            wanted.status, found.status
        )?;
        return Ok(false);
    }
    // A case without a message says nothing of it.
    if !wanted.message.is_empty() && found.message != wanted.message {
        print_difference(rt, title, &wanted.message, &found.message)?;
        return Ok(false);
    }
    Ok(true)
}

/// Prints the first line of one text that isn't the other's. A text that ends too soon has none.
fn print_difference(rt: &HostRuntime, title: &str, wanted: &[u8], found: &[u8]) -> io::Result<()> {
    let wanted = String::from_utf8_lossy(rt.alloc(), wanted)?;
    let found = String::from_utf8_lossy(rt.alloc(), found)?;
    let mut lines = found.split('\n');
    for line in wanted.split('\n') {
        let got = lines.next();
        if got != Some(line) {
            return println!(rt; "{title}: wanted {line:?}, got {got:?}");
        }
    }
    println!(rt; "{title}: wanted no more, got {:?}", lines.next())
}

/// What the program does with a case's text and input, for these words.
fn found_answer<T: Threads + Wait + Sync>(
    rt: &HostRuntime,
    threads: &T,
    name: &str,
    given: &str,
) -> io::Result<Answer> {
    let Some(line) = line_of(rt, name, given)? else {
        return Ok(Answer {
            output: Vec::new(rt.alloc()),
            status: WORDS,
            message: Vec::new(rt.alloc()),
            files: Vec::new(rt.alloc()),
        });
    };
    let text = part(rt, name, "str")?;
    let input = part_if_there(rt, name, "in")?;
    answer_to(rt, threads, name, &text, &input, &line)
}

/// What a case's words ask for; nothing where they aren't understood.
fn line_of(rt: &HostRuntime, name: &str, given: &str) -> io::Result<Option<Line>> {
    let alloc = rt.alloc();
    let file = format!(in alloc; "{name}.str")?;
    let mut given = given.split_whitespace();
    let mut words = vec![in alloc; "strc", given.next().unwrap_or(""), file.as_str()]?;
    for word in given {
        words.push(word)?;
    }
    match command(alloc, &words) {
        Ok(line) => Ok(Some(line)),
        Err(LineFault::Memory) => Err(io::Error::from(ErrorKind::OutOfMemory)),
        Err(_) => Ok(None),
    }
}

/// What the program does with a text and an input.
fn answer_to<T: Threads + Wait + Sync>(
    rt: &HostRuntime,
    threads: &T,
    name: &str,
    text: &[u8],
    input: &[u8],
    line: &Line,
) -> io::Result<Answer> {
    let alloc = rt.alloc();
    let command = &line.command;
    let mut input = WatchedInput::new(alloc, Told::new(input));
    let mut output = Told::new(Vec::new(alloc));
    let file = format!(in alloc; "{name}.str")?;
    // The gate that measures lets each step through as the open one does.
    let (explained, files) = if let Command::Run { stats: true, .. } = command {
        let times = StageTimes::new(alloc, rt)?;
        executed(rt, threads, text, line, &mut input, &mut output, &times)?
    } else {
        executed(rt, threads, text, line, &mut input, &mut output, &OpenGate)?
    };
    let mut message = Vec::new(alloc);
    if let Some(told) = &explained.message {
        let code = explained.code.as_deref().unwrap_or(b"");
        let telling = (Severity::Error, code);
        message.extend_from_slice(&written(alloc, line.format, &file, text, telling, told)?)?;
    }
    if let Ok(Status::Refused) = explained.result {
        message.extend_from_slice(&input.wrong_word_line(alloc)?)?;
    }
    if line.lint && matches!(explained.result, Ok(Status::Done)) {
        let Ok(doubts) = lint_messages(alloc, text, main_name(command)) else {
            return Err(io::Error::from(ErrorKind::OutOfMemory));
        };
        for doubt in &doubts {
            let telling = (Severity::Warning, b"lint".as_slice());
            message.extend_from_slice(&written(alloc, line.format, &file, text, telling, doubt)?)?;
        }
    }
    match explained.result {
        Ok(status) => Ok(Answer {
            output: output.into_device(),
            status: status.number(),
            message,
            files,
        }),
        // Devices in memory fail only where there is no more of it.
        Err(_) => Err(io::Error::from(ErrorKind::OutOfMemory)),
    }
}

/// A message in this form, with its severity and its code.
fn written(
    alloc: Global,
    format: Format,
    file: &str,
    text: &[u8],
    (severity, code): (Severity, &[u8]),
    message: &Message,
) -> io::Result<Vec<u8>> {
    match format {
        Format::Text => Ok(message_text(alloc, file, text, message)?),
        Format::Json => Ok(message_json(alloc, file, text, severity, code, message)?),
    }
}

/// What is told of a text and an input, and the files that are written.
fn executed<G: Gate<Stage>, T: Threads + Wait + Sync, I: Source, O: Sink>(
    rt: &HostRuntime,
    threads: &T,
    text: &[u8],
    line: &Line,
    input: &mut I,
    output: &mut O,
    gate: &G,
) -> io::Result<(Explained, Vec<u8>)> {
    let alloc = rt.alloc();
    let command = &line.command;
    if line.outs.is_empty() {
        let explained = execute_explained(threads, alloc, text, command, input, output, gate);
        return Ok((explained, Vec::new(alloc)));
    }
    let outs = &line.outs;
    let report = execute_out(threads, alloc, text, command, outs, input, output, gate);
    let files = files_text(rt, outs, &report.texts)?;
    Ok((report.explained, files))
}

/// The text of each file that is written, after a line with its name.
fn files_text(rt: &HostRuntime, outs: &[Out], texts: &[Vec<u8>]) -> io::Result<Vec<u8>> {
    let mut files = Vec::new(rt.alloc());
    for (out, text) in outs.iter().zip(texts) {
        let title = format!(in rt.alloc(); "file {}\n", out.file.as_str())?;
        files.extend_from_slice(title.as_bytes())?;
        files.extend_from_slice(text)?;
    }
    Ok(files)
}

/// The status that the case is to end with.
fn wanted_status(rt: &HostRuntime, name: &str) -> io::Result<u8> {
    let digits = part_if_there(rt, name, "status")?;
    let digits = String::from_utf8_lossy(rt.alloc(), &digits)?;
    match digits.trim() {
        "" => Ok(0),
        digits => match digits.parse() {
            Ok(status) => Ok(status),
            Err(_) => Err(io::Error::new(ErrorKind::InvalidData, "no status")),
        },
    }
}

/// The bytes of the case's file with this ending.
fn part(rt: &HostRuntime, name: &str, ending: &str) -> io::Result<Vec<u8>> {
    let path = format!(in rt.alloc(); "{name}.{ending}")?;
    fs::read(rt, path.as_str())
}

/// The bytes of the case's file with this ending, and none where there is no such file.
fn part_if_there(rt: &HostRuntime, name: &str, ending: &str) -> io::Result<Vec<u8>> {
    match part(rt, name, ending) {
        Err(error) if error.kind() == ErrorKind::NotFound => Ok(Vec::new(rt.alloc())),
        outcome => outcome,
    }
}
