// The program `strc`: the words of the command line, a file's text, and the two standard streams,
// handed to the library that does the work; and how long the stages of a plan took.
#![tactic(auto)]

mod node_shares;
mod times;
mod usage;

use crate::times::times_message;
use crate::usage::print_usage;
use std::fs::File;
use std::io::{ErrorKind, Write};
use std::process::ExitCode;
use std::sync::Wait;
use std::thread::{Builder, Threads};
use std::{env, fs, thread};
use strc_cli::answer::main_name;
use strc_cli::execute::{CliError, Status};
use strc_cli::explanation::{Explained, RunPlan, execute_explained};
use strc_cli_diagnostics::message::Message;
use strc_cli_diagnostics::message_json::{Severity, message_json};
use strc_cli_diagnostics::message_text::message_text;
use strc_cli_input::device::{Sink, Source, Told};
use strc_cli_input::watched_input::WatchedInput;
use strc_cli_input::watched_output::WatchedOutput;
use strc_cli_lint::lint::lint_messages;
use strc_cli_words::line::{Command, Format, Line, LineFault, Out};
use strc_cli_words::words::command;
use strc_lex::program_text::{TextFault, read_text};
use strc_live::execute_live::execute_live;
use strc_live::explanation::live_message;
use strc_out_files::execute_out::execute_out;
use strc_run::run::numbers_read;
use strc_run_links::{Gate, OpenGate, StageTimes};
use strc_stage_steps::Stage;

// The exit statuses that no answer of `execute_explained` has.
const DONE: u8 = 0;

const WORDS: u8 = 1;

const NO_MEMORY: u8 = 4;

const FAILED: u8 = 5;

// The room for calls in one another, in bytes. Streams may be added in one another 64 deep, each by
// statements 256 deep, and the walk over them calls itself for each.
const STACK: usize = 0x2000_0000;

// Runs on a thread with that much room; out of memory where there can't be such a thread.
fn main(rt: HostRuntime) -> ExitCode {
    let status = thread::scope(thread::scope_env(), &rt, |scope| {
        match Builder::new()
            .stack_size(STACK)
            .spawn_scoped(scope, || run(&rt, &rt))
        {
            Ok(handle) => handle.join(&rt),
            Err(_) => out_of_memory(&rt),
        }
    });
    ExitCode::from(status)
}

fn run<T: Threads + Wait + Sync>(rt: &HostRuntime, threads: &T) -> u8 {
    let words: Vec<String> = match env::args(rt) {
        Ok(words) => match words.collect(rt.alloc()) {
            Ok(words) => words,
            Err(_) => return out_of_memory(rt),
        },
        Err(error) => {
            if error.kind() == ErrorKind::OutOfMemory {
                return out_of_memory(rt);
            }
            let _ = eprintln!(rt; "strc: cannot read the command line: {error}");
            return FAILED;
        }
    };
    let words: Vec<&str> = match words.iter().map(|word| word.as_str()).collect(rt.alloc()) {
        Ok(words) => words,
        Err(_) => return out_of_memory(rt),
    };
    match command(rt.alloc(), &words) {
        Ok(line) if draws_both(&line) => {
            let _ = eprintln!(rt;
                "error: '--depth' and '--times' draw the graph of the program, and '--workers', \
                '--ways' and '--fuse' what is run: leave one kind out"
            );
            WORDS
        }
        Ok(mut line) => match read_times(rt, &mut line) {
            Ok(()) => run_line(rt, threads, &line),
            Err(status) => status,
        },
        Err(LineFault::Memory) => out_of_memory(rt),
        Err(LineFault::Words) => print_usage(rt, &words),
        Err(fault) => {
            let _ = eprintln!(rt; "error: {fault}\n\nFor more information, try '--help'.");
            WORDS
        }
    }
}

// Whether a picture is asked for both of the program's graph, with details, and of what is run.
fn draws_both(line: &Line) -> bool {
    match &line.command {
        Command::Graph {
            workers,
            ways,
            fuse,
            depth,
            ..
        } => {
            (workers.is_some() || ways.is_some() || fuse.is_some())
                && (depth.is_some() || line.times.is_some())
        }
        _ => false,
    }
}

// Reads the file of times that the line names, for its command. An error is the exit status.
fn read_times(rt: &HostRuntime, line: &mut Line) -> Result<(), u8> {
    let Line { command, times, .. } = line;
    let (Some(name), Command::Graph { times, .. }) = (times.as_ref(), command) else {
        return Ok(());
    };
    match File::open(rt, name.as_str()) {
        Ok(mut file) => match read_text(rt.alloc(), &mut file) {
            Ok(text) => {
                *times = text;
                Ok(())
            }
            Err(TextFault::NoMemory) => Err(out_of_memory(rt)),
            Err(TextFault::Failed(error)) => {
                let _ = eprintln!(rt; "strc: cannot read {name}: {error}");
                Err(FAILED)
            }
        },
        Err(error) => {
            let _ = eprintln!(rt; "strc: cannot open {name}: {error}");
            Err(FAILED)
        }
    }
}

// Reads the text that the line names, and executes it.
fn run_line<T: Threads + Wait + Sync>(rt: &HostRuntime, threads: &T, line: &Line) -> u8 {
    let name = match &line.file {
        Some(file) => file.as_str(),
        None => "standard input",
    };
    let text = match &line.file {
        Some(file) if file.as_str() == "-" => read_text(rt.alloc(), &mut rt.stdin()),
        Some(file) => match File::open(rt, file.as_str()) {
            Ok(mut file) => read_text(rt.alloc(), &mut file),
            Err(error) => {
                let _ = eprintln!(rt; "strc: cannot open {name}: {error}");
                return FAILED;
            }
        },
        None => read_text(rt.alloc(), &mut rt.stdin()),
    };
    match text {
        Ok(text) => execute_text(rt, threads, name, line, &text),
        Err(TextFault::NoMemory) => out_of_memory(rt),
        Err(TextFault::Failed(error)) => {
            let _ = eprintln!(rt; "strc: cannot read {name}: {error}");
            FAILED
        }
    }
}

// Executes it, and tells on standard error what is wrong with it, and how long the stages of its
// plan took, where that is asked for and there is memory to measure them.
fn execute_text<T: Threads + Wait + Sync>(
    rt: &HostRuntime,
    threads: &T,
    name: &str,
    line: &Line,
    text: &[u8],
) -> u8 {
    let telling = Telling {
        name,
        text,
        format: line.format,
    };
    if line.live {
        return live_by(rt, telling, line);
    }
    if let Command::Run {
        workers,
        stats: true,
        ..
    } = &line.command
    {
        if let Ok(times) = StageTimes::new(rt.alloc(), rt) {
            let (status, ran) = explained_by(rt, threads, telling, line, &times);
            if let Some(ran) = &ran {
                let is_done = status == DONE;
                tell_no_round(rt, &line.command, ran);
                let lines = times_message(rt.alloc(), ran, *workers, is_done, &times);
                let _ = rt.stderr().write_all(&lines);
            }
            return status;
        }
    }
    let (status, ran) = explained_by(rt, threads, telling, line, &OpenGate);
    if let Some(ran) = &ran {
        tell_no_round(rt, &line.command, ran);
    }
    if line.lint && status == DONE {
        telling.tell_doubts(rt, main_name(&line.command));
    }
    status
}

// Tells a person that a run which was to have as many rounds as its input serves had none.
fn tell_no_round(rt: &HostRuntime, command: &Command, ran: &RunPlan) {
    if let (Command::Run { rounds: None, .. }, 0) = (command, ran.batches.rounds) {
        let need = numbers_read(&ran.plan, 1);
        let _ = eprintln!(rt;
            "strc: no round was run: start-up and a round read {need} numbers of the input"
        );
    }
}

// A program's text, what its file is called, and in which form it is told what is wrong with it.
#[derive(Clone, Copy)]
struct Telling<'a> {
    name: &'a str,
    text: &'a [u8],
    format: Format,
}

impl Telling<'_> {
    // Tells what a message says, where there is memory to write it.
    fn tell(self, rt: &HostRuntime, severity: Severity, code: &[u8], message: &Message) {
        let Telling { name, text, format } = self;
        let written = match format {
            Format::Text => message_text(rt.alloc(), name, text, message),
            Format::Json => message_json(rt.alloc(), name, text, severity, code, message),
        };
        if let Ok(written) = written {
            let _ = rt.stderr().write_all(&written);
        }
    }

    // Tells why there is no answer, or how a run ended early.
    fn tell_error(self, rt: &HostRuntime, code: Option<&[u8]>, message: Option<&Message>) {
        if let Some(message) = message {
            self.tell(rt, Severity::Error, code.unwrap_or(b""), message);
        }
    }

    // Tells what may be mistakes in a text that is accepted.
    fn tell_doubts(self, rt: &HostRuntime, main: Option<&str>) {
        if let Ok(doubts) = lint_messages(rt.alloc(), self.text, main) {
            for doubt in &doubts {
                self.tell(rt, Severity::Warning, b"lint", doubt);
            }
        }
    }
}

// Executes it, each step of a stage by the gate, and tells what is wrong with it. What it gives is
// the exit status, and what was run, if anything was.
fn explained_by<G: Gate<Stage>, T: Threads + Wait + Sync>(
    rt: &HostRuntime,
    threads: &T,
    telling: Telling<'_>,
    line: &Line,
    gate: &G,
) -> (u8, Option<RunPlan>) {
    let mut input = WatchedInput::new(rt.alloc(), Told::new(rt.stdin()));
    let mut output = WatchedOutput::new(Told::new(rt.stdout()));
    let (command, text) = (&line.command, telling.text);
    if line.outs.is_empty() {
        let explained = execute_explained(
            threads,
            rt.alloc(),
            text,
            command,
            &mut input,
            &mut output,
            gate,
        );
        return tell_explained(rt, telling, explained, &input, &output);
    }
    let report = execute_out(
        threads,
        rt.alloc(),
        text,
        command,
        &line.outs,
        &mut input,
        &mut output,
        gate,
    );
    let (status, ran) = tell_explained(rt, telling, report.explained, &input, &output);
    if write_files(rt, &line.outs, &report.texts) {
        (status, ran)
    } else {
        (FAILED, ran)
    }
}

// Tells what is wrong. What it gives is the exit status, and what was run, if anything was.
fn tell_explained<I: Source, O: Sink>(
    rt: &HostRuntime,
    telling: Telling<'_>,
    explained: Explained,
    input: &WatchedInput<I>,
    output: &WatchedOutput<O>,
) -> (u8, Option<RunPlan>) {
    telling.tell_error(rt, explained.code.as_deref(), explained.message.as_ref());
    let status = status_of(rt, explained.result, input, output);
    (status, explained.ran)
}

// Writes the text of each tape that goes to a file, where there are texts, and tells which file
// can't be written. Whether all could.
fn write_files(rt: &HostRuntime, outs: &[Out], texts: &[Vec<u8>]) -> bool {
    let mut are_written = true;
    for (out, text) in outs.iter().zip(texts) {
        let file = out.file.as_str();
        if let Err(error) = fs::write(rt, file, text) {
            let _ = eprintln!(rt; "strc: writing the output to {file} failed: {error}");
            are_written = false;
        }
    }
    are_written
}

// Runs it over the input while it comes, and tells what is wrong with it.
fn live_by(rt: &HostRuntime, telling: Telling<'_>, line: &Line) -> u8 {
    let mut input = WatchedInput::new(rt.alloc(), Told::new(rt.stdin()));
    let mut output = WatchedOutput::new(Told::new(rt.stdout()));
    let (command, text) = (&line.command, telling.text);
    let report = execute_live(rt.alloc(), text, command, &mut input, &mut output);
    let message = live_message(rt.alloc(), text, main_name(command), &report);
    telling.tell_error(rt, None, message.as_ref());
    status_of(rt, report.result, &input, &output)
}

// The exit status of a call, and what a person reads where it failed, or where its input has a word
// that is no number. Nothing is said where the output's reader has gone away, as `head` does.
fn status_of<I: Source, O: Sink>(
    rt: &HostRuntime,
    told: Result<Status, CliError>,
    input: &WatchedInput<I>,
    output: &WatchedOutput<O>,
) -> u8 {
    match told {
        Ok(Status::Refused) => {
            if let Ok(line) = input.wrong_word_line(rt.alloc()) {
                let _ = rt.stderr().write_all(&line);
            }
            Status::Refused.number()
        }
        Ok(status) => status.number(),
        Err(CliError::Memory) => out_of_memory(rt),
        Err(CliError::Read) => {
            let _ = eprintln!(rt; "strc: reading the input from standard input failed");
            FAILED
        }
        Err(CliError::Write) if output.lost_reader() => FAILED,
        Err(CliError::Write) => {
            let _ = eprintln!(rt; "strc: writing the output to standard output failed");
            FAILED
        }
    }
}

fn out_of_memory(rt: &HostRuntime) -> u8 {
    let _ = eprintln!(rt; "strc: out of memory");
    NO_MEMORY
}
