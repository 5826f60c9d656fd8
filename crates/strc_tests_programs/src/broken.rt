// Cases that are broken at each place: their texts cut at each byte, and their devices failing at
// each call. Such a case has a file NAME.pieces, with how many bytes its devices take at a time.

use crate::devices::{Reader, told_writer};
use crate::{answer_to, line_of, part, part_if_there, wanted_status};
use std::io;
use std::io::ErrorKind;
use std::sync::Wait;
use std::thread::Threads;
use strc_cli::execute::{CliError, execute};
use strc_cli_input::device::{Sink, Source, Told};
use strc_cli_words::line::Line;
use strc_run_links::OpenGate;

// The status of a text that is refused.
const REFUSED: u8 = 2;

// More calls than any of these cases makes.
const MOST: u32 = 100_000;

/// At how many places cases were broken, and how many of these weren't reported as they are to be.
#[derive(Clone, Copy)]
pub(crate) struct Tally {
    pub(crate) places: usize,
    pub(crate) different: usize,
}

/// A case, and what it comes to where nothing is broken.
#[derive(Drop)]
struct Whole<'a> {
    name: &'a str,
    text: Vec<u8>,
    input: Vec<u8>,
    line: Line,
    output: Vec<u8>,
    status: u8,
}

impl Tally {
    /// Counts a place; a line names it where it isn't reported as it is to be.
    fn count(
        &mut self,
        rt: &HostRuntime,
        is_as_wanted: bool,
        name: &str,
        what: &str,
        at: usize,
    ) -> io::Result<()> {
        self.places = self.places.saturating_add(1);
        if is_as_wanted {
            return Ok(());
        }
        self.different = self.different.saturating_add(1);
        println!(rt; "{name}, {what} {at}: not as it is to be")
    }
}

/// Breaks each case that is to be broken.
pub(crate) fn run_broken<T: Threads + Wait + Sync>(
    rt: &HostRuntime,
    threads: &T,
    names: &[String],
) -> io::Result<Tally> {
    let mut tally = Tally {
        places: 0,
        different: 0,
    };
    for name in names {
        let pieces = part_if_there(rt, name, "pieces")?;
        if !pieces.is_empty() {
            let whole = whole_case(rt, name)?;
            cut_text(rt, threads, &whole, &mut tally)?;
            break_devices(rt, threads, &whole, &pieces, &mut tally)?;
        }
    }
    Ok(tally)
}

fn whole_case<'a>(rt: &HostRuntime, name: &'a str) -> io::Result<Whole<'a>> {
    let given = String::from_utf8_lossy(rt.alloc(), &part(rt, name, "args")?)?;
    let Some(line) = line_of(rt, name, &given)? else {
        return Err(io::Error::new(ErrorKind::InvalidData, "no command"));
    };
    Ok(Whole {
        name,
        text: part(rt, name, "str")?,
        input: part_if_there(rt, name, "in")?,
        line,
        output: part(rt, name, "out")?,
        status: wanted_status(rt, name)?,
    })
}

/// Each beginning of the text is refused by one line; one that lacks white space alone comes to
/// what the whole text does.
fn cut_text<T: Threads + Wait + Sync>(
    rt: &HostRuntime,
    threads: &T,
    whole: &Whole<'_>,
    tally: &mut Tally,
) -> io::Result<()> {
    for length in 0..whole.text.len() {
        let (beginning, rest) = whole.text.split_at(length);
        let input = whole.input.as_slice();
        let found = answer_to(rt, threads, whole.name, beginning, input, &whole.line)?;
        let is_as_wanted = if rest.iter().all(|byte| byte.is_ascii_whitespace()) {
            found.status == whole.status && found.output == whole.output
        } else {
            found.status == REFUSED && is_refusal(&found.output)
        };
        tally.count(rt, is_as_wanted, whole.name, "cut at byte", length)?;
    }
    Ok(())
}

/// Whether this is the one line that names why a text is refused.
fn is_refusal(output: &[u8]) -> bool {
    output.starts_with(b"refused E")
        && output.ends_with(b"\n")
        && output.iter().filter(|byte| **byte == b'\n').count() == 1
}

/// For each number of bytes at a time that the case's file names.
fn break_devices<T: Threads + Wait + Sync>(
    rt: &HostRuntime,
    threads: &T,
    whole: &Whole<'_>,
    pieces: &[u8],
    tally: &mut Tally,
) -> io::Result<()> {
    let pieces = String::from_utf8_lossy(rt.alloc(), pieces)?;
    for word in pieces.split_whitespace() {
        let Ok(at_once) = word.parse() else {
            return Err(io::Error::new(ErrorKind::InvalidData, "no number of bytes"));
        };
        fail_reads(rt, threads, whole, at_once, tally)?;
        fail_writes(rt, threads, whole, at_once, true, tally)?;
        fail_writes(rt, threads, whole, at_once, false, tally)?;
    }
    Ok(())
}

/// Fails each read in turn, until the run has read all that it reads. Nothing is written then.
fn fail_reads<T: Threads + Wait + Sync>(
    rt: &HostRuntime,
    threads: &T,
    whole: &Whole<'_>,
    at_once: usize,
    tally: &mut Tally,
) -> io::Result<()> {
    for calls_left in 0..MOST {
        let mut input = Told::new(Reader {
            rest: &whole.input,
            at_once,
            calls_left,
        });
        let mut output = Told::new(Vec::new(rt.alloc()));
        let result = execute(
            threads,
            rt.alloc(),
            &whole.text,
            &whole.line.command,
            &mut input,
            &mut output,
            &OpenGate,
        );
        let failed = input.failed();
        let written = output.into_device();
        let (is_as_wanted, has_ended) = match result {
            Ok(status) => {
                let is_same = status.number() == whole.status && written == whole.output;
                (is_same && !failed, true)
            }
            Err(CliError::Read) => (failed && written.is_empty(), false),
            Err(CliError::Write | CliError::Memory) => (false, true),
        };
        tally.count(
            rt,
            is_as_wanted,
            whole.name,
            "failing at read",
            calls_left as usize,
        )?;
        if has_ended {
            return Ok(());
        }
    }
    Err(io::Error::new(ErrorKind::InvalidData, "too many reads"))
}

/// Fails each write in turn, or has it take nothing, until the run has written all. What was
/// written before is a beginning of what the whole run writes.
fn fail_writes<T: Threads + Wait + Sync>(
    rt: &HostRuntime,
    threads: &T,
    whole: &Whole<'_>,
    at_once: usize,
    fails: bool,
    tally: &mut Tally,
) -> io::Result<()> {
    for calls_left in 0..MOST {
        let mut input = Told::new(whole.input.as_slice());
        let mut output = told_writer(rt.alloc(), at_once, calls_left, fails)?;
        let result = execute(
            threads,
            rt.alloc(),
            &whole.text,
            &whole.line.command,
            &mut input,
            &mut output,
            &OpenGate,
        );
        let failed = output.failed();
        let taken = output.into_device().taken;
        let (is_as_wanted, has_ended) = match result {
            Ok(status) => {
                let is_same = status.number() == whole.status && taken == whole.output;
                (is_same && !failed, true)
            }
            Err(CliError::Write) => {
                let is_beginning = taken.len() < whole.output.len()
                    && whole.output.starts_with(taken.as_slice());
                (is_beginning && failed, false)
            }
            Err(CliError::Read | CliError::Memory) => (false, true),
        };
        tally.count(
            rt,
            is_as_wanted,
            whole.name,
            "failing at write",
            calls_left as usize,
        )?;
        if has_ended {
            return Ok(());
        }
    }
    Err(io::Error::new(ErrorKind::InvalidData, "too many writes"))
}
