// Readers and writers that fail, and that take little at a time: what no case shows.

use std::alloc::{AllocError, Global};
use std::io;
use std::io::{ErrorKind, Read, Write};
use std::sync::Wait;
use std::thread::Threads;
use strc_cli::execute::{CliError, Status, execute};
use strc_cli_input::device::{Sink, Source, Told};
use strc_cli_words::line::Command;
use strc_lex::program_text::{TextFault, read_text};
use strc_run_links::OpenGate;

// A source and a printer in a pipeline.
const MINIMAL: &str = "void->int filter IntSource { int x; work push 1 { push(x++); } }
int->void filter IntPrinter { work pop 1 { println(pop()); } }
void->void pipeline Minimal { add IntSource; add IntPrinter; }
";

// The command that runs so many rounds.
fn rounds(count: u32) -> Command {
    Command::Run {
        rounds: Some(count),
        workers: 1,
        ways: 1,
        fuse: 0,
        batch: None,
        stats: false,
        main: None,
    }
}

// Takes at most so many bytes at a time, and fails or takes none after so many calls.
#[derive(Drop)]
pub(crate) struct Writer {
    pub(crate) taken: Vec<u8>,
    at_once: usize,
    calls_left: u32,
    fails: bool,
}

impl Write for Writer {
    fn write(&mut self, bytes: &[u8]) -> io::Result<usize> {
        if self.calls_left == 0 {
            return if self.fails {
                Err(io::Error::from(ErrorKind::BrokenPipe))
            } else {
                Ok(0)
            };
        }
        self.calls_left -= 1;
        let count = self.at_once.min(bytes.len());
        if self.taken.extend_from_slice(&bytes[..count]).is_err() {
            return Err(io::Error::from(ErrorKind::OutOfMemory));
        }
        Ok(count)
    }

    fn flush(&mut self) -> io::Result<()> {
        Ok(())
    }
}

/// Such a writer, before its first call.
pub(crate) fn told_writer(
    alloc: Global,
    at_once: usize,
    calls_left: u32,
    fails: bool,
) -> Result<Told<Writer>, AllocError> {
    Ok(Told::new(Writer {
        taken: Vec::with_capacity(alloc, 64)?,
        at_once,
        calls_left,
        fails,
    }))
}

// Gives at most so many bytes at a time, and fails at one call.
#[derive(Drop)]
pub(crate) struct Reader<'a> {
    pub(crate) rest: &'a [u8],
    pub(crate) at_once: usize,
    pub(crate) calls_left: u32,
}

impl Read for Reader<'_> {
    fn read(&mut self, buffer: &mut [u8]) -> io::Result<usize> {
        if self.calls_left == 0 {
            return Err(io::Error::from(ErrorKind::BrokenPipe));
        }
        self.calls_left -= 1;
        let count = self.at_once.min(buffer.len()).min(self.rest.len());
        let (front, rest) = self.rest.split_at(count);
        buffer[..count].copy_from_slice(front);
        self.rest = rest;
        Ok(count)
    }
}

/// How many ways of failing there are, and how many of them aren't reported as they are to be; a
/// line says which.
pub(crate) fn run_devices<T: Threads + Wait + Sync>(
    rt: &HostRuntime,
    threads: &T,
) -> io::Result<(usize, usize)> {
    let alloc = rt.alloc();
    let devices = [
        (
            "a partial write goes on",
            goes_on_after_partial_writes(threads, alloc)?,
        ),
        (
            "a writer that fails",
            reports_failed_writes(threads, alloc, true)?,
        ),
        (
            "a writer that takes nothing",
            reports_failed_writes(threads, alloc, false)?,
        ),
        ("a text in pieces", reads_text_in_pieces(alloc)?),
        ("a text without an end", stops_at_the_limit(alloc)?),
        ("a text that fails", reports_failed_texts(alloc)),
        ("reads that are counted", counts_reads()),
        (
            "input in pieces of any size",
            takes_input_in_pieces(threads, alloc)?,
        ),
    ];
    let mut different: usize = 0;
    for (name, is_as_wanted) in devices {
        if !is_as_wanted {
            println!(rt; "{name}: not as it is to be")?;
            different = different.saturating_add(1);
        }
    }
    Ok((devices.len(), different))
}

fn goes_on_after_partial_writes<T: Threads + Wait + Sync>(
    threads: &T,
    alloc: Global,
) -> Result<bool, AllocError> {
    let nothing: &[u8] = &[];
    let mut input = Told::new(nothing);
    let mut output = told_writer(alloc, 3, 1000, true)?;
    let text = MINIMAL.as_bytes();
    let outcome = execute(
        threads,
        alloc,
        text,
        &rounds(5),
        &mut input,
        &mut output,
        &OpenGate,
    );
    let is_quiet = !output.failed() && !input.failed() && input.left() == 4294967296;
    let taken = output.into_device().taken;
    Ok(outcome == Ok(Status::Done) && is_quiet && taken.as_slice() == b"0\n1\n2\n3\n4\n".as_slice())
}

/// After each number of calls.
fn reports_failed_writes<T: Threads + Wait + Sync>(
    threads: &T,
    alloc: Global,
    fails: bool,
) -> Result<bool, AllocError> {
    for calls in 0..4 {
        let nothing: &[u8] = &[];
        let mut input = Told::new(nothing);
        let mut output = told_writer(alloc, 3, calls, fails)?;
        let text = MINIMAL.as_bytes();
        let outcome = execute(
            threads,
            alloc,
            text,
            &rounds(5),
            &mut input,
            &mut output,
            &OpenGate,
        );
        let is_reported = outcome == Err(CliError::Write) && output.failed();
        if !is_reported || output.write(b"x").is_ok() || !output.failed() {
            return Ok(false);
        }
    }
    Ok(true)
}

fn reads_text_in_pieces(alloc: Global) -> Result<bool, AllocError> {
    let mut reader = Reader {
        rest: MINIMAL.as_bytes(),
        at_once: 7,
        calls_left: 1000,
    };
    Ok(match read_text(alloc, &mut reader) {
        Ok(text) => text.as_slice() == MINIMAL.as_bytes(),
        Err(TextFault::NoMemory) => return Err(AllocError),
        Err(TextFault::Failed(_)) => false,
    })
}

/// One byte above the limit is read, and no more.
fn stops_at_the_limit(alloc: Global) -> Result<bool, AllocError> {
    let endless = vec![in alloc; b' '; 2000000]?;
    Ok(match read_text(alloc, &mut endless.as_slice()) {
        Ok(text) => text.len() == 1048577,
        Err(TextFault::NoMemory) => return Err(AllocError),
        Err(TextFault::Failed(_)) => false,
    })
}

/// After each number of calls.
fn reports_failed_texts(alloc: Global) -> bool {
    for calls_left in 0..4 {
        let mut reader = Reader {
            rest: MINIMAL.as_bytes(),
            at_once: 50,
            calls_left,
        };
        match read_text(alloc, &mut reader) {
            Err(TextFault::Failed(_)) => {}
            Err(TextFault::NoMemory) | Ok(_) => return false,
        }
    }
    true
}

/// Also of the call that fails.
fn counts_reads() -> bool {
    let mut input = Told::new(Reader {
        rest: b"12",
        at_once: 1,
        calls_left: 2,
    });
    let mut buffer = [0u8; 4];
    let first = input.read(&mut buffer).ok();
    let second = input.read(&mut buffer).ok();
    let is_counted = input.left() == 4294967294 && !input.failed();
    let third = input.read(&mut buffer);
    first == Some(1) && second == Some(1) && is_counted && third.is_err() && input.failed()
}

/// Prints each number of the input.
const ECHO: &str = "void->void pipeline Echo {
    add FileReader<int>(\"in\");
    add FileWriter<int>(\"out\");
}";

fn takes_input_in_pieces<T: Threads + Wait + Sync>(
    threads: &T,
    alloc: Global,
) -> Result<bool, AllocError> {
    let all = Command::Run {
        rounds: None,
        workers: 1,
        ways: 1,
        fuse: 0,
        batch: None,
        stats: false,
        main: None,
    };
    for at_once in [1, 2, 3, 5, 1000] {
        let mut input = Told::new(Reader {
            rest: b" 12 -345\n6",
            at_once,
            calls_left: 1000,
        });
        let mut output = told_writer(alloc, 1000, 1000, true)?;
        let outcome = execute(
            threads,
            alloc,
            ECHO.as_bytes(),
            &all,
            &mut input,
            &mut output,
            &OpenGate,
        );
        let taken = output.into_device().taken;
        if outcome != Ok(Status::Done) || taken.as_slice() != b"12\n-345\n6\n".as_slice() {
            return Ok(false);
        }
    }
    Ok(true)
}
