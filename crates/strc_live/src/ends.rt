// How a live run ends, and the line that it ends with.

ghost use Rattle.std.specs.Prelude.{◌≡◌, [], IfOk, false, if◌then◌else◌};
ghost use Rattle.strc_cli.specs.Executes.{Writes, device_of};
ghost use Rattle.strc_cli_output.specs.Output.{line_end};
ghost use Rattle.strc_live.specs.Ends.{IsEndOf, TellsEnd, end_status, fault_of, last_text};
ghost use Rattle.strc_live.specs.Ends.{no_memory};

use std::alloc::{AllocError, Global};
use strc_cli::answer::Answer;
use strc_cli::execute::{CliError, Status, tell, write_all};
use strc_cli_input::device::Sink;
use strc_cli_messages::fault::FaultSite;
use strc_cli_output::outcome::outcome_text;
use strc_cli_output::stop::Stop;
use strc_run::compile::Plan;
use strc_run::run::{Outcome, RunRefusal};

/// How a live run ends.
#[derive(Drop)]
pub enum LiveEnd {
    /// The input ended, or as many rounds are done as there may be.
    Done,
    /// A firing faulted, by its node before fission.
    Faulted(FaultSite),
    /// Nothing was run, or nothing more, for this reason.
    Stopped(Stop),
    /// The program has several tapes, of which a live run could write just one.
    SeveralTapes,
    /// A number of rounds was given, where the input says how many there are.
    RoundsGiven,
    /// A number of rounds at a time was given, where each is run as soon as it can be.
    BatchGiven,
}

impl LiveEnd {
    /// Memory ran out.
    pub fn no_memory() -> LiveEnd
        ensures { result ≡ no_memory }
    {
        LiveEnd::Stopped(Stop::NotRun(RunRefusal::NoMemory))
    }
}

/// An end that was told, and its status.
#[derive(Drop)]
pub(crate) struct ToldEnd {
    pub(crate) status: Status,
    pub(crate) end: LiveEnd,
}

/// Writes the line of an end, before it a line feed where the words leave their line open. Where
/// memory runs out, it is the line that says so.
pub(crate) fn tell_end<O: Sink>(
    alloc: Global,
    plan: &Plan,
    leaves_open: bool,
    end: LiveEnd,
    output: &mut O,
) -> Result<ToldEnd, CliError>
    ensures { TellsEnd leaves_open end result
        (device_of (O.contents output.old) (O.has_failed output.old))
        (device_of (O.contents output.new) (O.has_failed output.new)) }
{
    if let LiveEnd::Done = end {
        return Ok(told_done());
    }
    close_line(leaves_open, output)?;
    tell_line(alloc, plan, end, output)
}

// Closes the line that the words leave open.
fn close_line<O: Sink>(leaves_open: bool, output: &mut O) -> Result<(), CliError>
    ensures { Writes (if leaves_open then line_end else []) result
        (device_of (O.contents output.old) (O.has_failed output.old))
        (device_of (O.contents output.new) (O.has_failed output.new)) }
{
    if leaves_open {
        return write_all(output, b"\n");
    }
    Ok(())
}

// The end of a run of which just the words are written.
fn told_done() -> ToldEnd
    ensures { result ≡ record { status = Status.Done; end = LiveEnd.Done } }
{
    ToldEnd {
        status: Status::Done,
        end: LiveEnd::Done,
    }
}

// Writes the line of an end, where it has one.
fn tell_line<O: Sink>(
    alloc: Global,
    plan: &Plan,
    end: LiveEnd,
    output: &mut O,
) -> Result<ToldEnd, CliError>
    ensures { TellsEnd false end result
        (device_of (O.contents output.old) (O.has_failed output.old))
        (device_of (O.contents output.new) (O.has_failed output.new)) }
{
    match end {
        LiveEnd::Done => Ok(told_done()),
        LiveEnd::Faulted(site) => tell_fault(alloc, plan, site, output),
        LiveEnd::Stopped(stop) => tell_stop(alloc, stop, output),
        LiveEnd::SeveralTapes => {
            tell_unfit(b"refused S8 SeveralTapes\n", LiveEnd::SeveralTapes, output)
        }
        LiveEnd::RoundsGiven => {
            tell_unfit(b"refused S9 RoundsGiven\n", LiveEnd::RoundsGiven, output)
        }
        LiveEnd::BatchGiven => {
            tell_unfit(b"refused S10 BatchGiven\n", LiveEnd::BatchGiven, output)
        }
    }
}

// Writes the line of a fault.
fn tell_fault<O: Sink>(
    alloc: Global,
    plan: &Plan,
    site: FaultSite,
    output: &mut O,
) -> Result<ToldEnd, CliError>
    ensures { TellsEnd false (LiveEnd.Faulted site) result
        (device_of (O.contents output.old) (O.has_failed output.old))
        (device_of (O.contents output.new) (O.has_failed output.new)) }
{
    let Ok(text) = fault_text(alloc, plan, &site) else {
        return tell_no_memory(output);
    };
    write_line(&text, Status::Fault, LiveEnd::Faulted(site), output)
}

// Writes the line of a refusal.
fn tell_stop<O: Sink>(alloc: Global, stop: Stop, output: &mut O) -> Result<ToldEnd, CliError>
    ensures { TellsEnd false (LiveEnd.Stopped stop) result
        (device_of (O.contents output.old) (O.has_failed output.old))
        (device_of (O.contents output.new) (O.has_failed output.new)) }
{
    let answer = Answer::Stopped(stop);
    match tell(alloc, &answer, output) {
        Ok(status) => Ok(ToldEnd {
            status,
            end: end_of(answer),
        }),
        Err(CliError::Memory) => tell_no_memory(output),
        Err(CliError::Read) => Err(CliError::Read),
        Err(CliError::Write) => Err(CliError::Write),
    }
}

// Writes the line of a run that can't be live.
fn tell_unfit<O: Sink>(line: &[u8], end: LiveEnd, output: &mut O) -> Result<ToldEnd, CliError>
    requires line { line.now ≡ last_text false end }
    requires status { end_status end ≡ Status.Refused }
    ensures { TellsEnd false end result
        (device_of (O.contents output.old) (O.has_failed output.old))
        (device_of (O.contents output.new) (O.has_failed output.new)) }
{
    write_line(line, Status::Refused, end, output)
}

// Writes that memory ran out, which takes none.
fn tell_no_memory<O: Sink>(output: &mut O) -> Result<ToldEnd, CliError>
    ensures { TellsEnd false no_memory result
        (device_of (O.contents output.old) (O.has_failed output.old))
        (device_of (O.contents output.new) (O.has_failed output.new)) }
{
    let end = LiveEnd::Stopped(Stop::NotRun(RunRefusal::NoMemory));
    write_line(b"refused S3 NoMemory\n", Status::NoMemory, end, output)
}

// Writes a line, which is that of this end, with this status.
fn write_line<O: Sink>(
    line: &[u8],
    status: Status,
    end: LiveEnd,
    output: &mut O,
) -> Result<ToldEnd, CliError>
    requires line { line.now ≡ last_text false end }
    requires status { status ≡ end_status end }
    ensures { TellsEnd false end result
        (device_of (O.contents output.old) (O.has_failed output.old))
        (device_of (O.contents output.new) (O.has_failed output.new)) }
{
    write_all(output, line)?;
    Ok(ToldEnd { status, end })
}

/// The end of a run whose answer is a refusal.
pub(crate) fn end_of(answer: Answer) -> LiveEnd
    ensures { IsEndOf answer result }
{
    match answer {
        Answer::Stopped(stop) => LiveEnd::Stopped(stop),
        _ => LiveEnd::Done,
    }
}

// The line of a fault.
fn fault_text(alloc: Global, plan: &Plan, site: &FaultSite) -> Result<Vec<u8>, AllocError>
    ensures { IfOk result (λ text. text.items ≡ fault_of site.now) }
{
    let outcome = Outcome::Fault {
        node: site.node,
        firing: site.firing,
        round: site.round,
        cause: site.cause.copy(),
        tapes: Vec::new(alloc),
    };
    outcome_text(alloc, plan.graph(), &outcome)
}
