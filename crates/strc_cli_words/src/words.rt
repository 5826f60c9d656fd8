// The words of the command line.

ghost use Rattle.std.specs.Prelude.{◌≡◌, ◌≢◌, ◌<◌, ◌≤◌, IfErr, IfOk, Ok, Err, [], false, length};
ghost use Rattle.std.specs.Prelude.{◌++◌, ◌∷◌, ◌⊎◌, Bool, IsOkAnd, Some, map};
ghost use Rattle.std.specs.List.{list_any};
ghost use Rattle.std.specs.Str.{bytes_eq};
ghost use Rattle.std.specs.Prelude.{codes, option_map, string_bytes};
ghost use Rattle.clap.specs.Words.{app_of, found_of, kind_of, new_app, rows_of, rule_of};
ghost use Rattle.clap.specs.Words.{subcommand_rows_of, with_rule};
ghost use Rattle.clap.specs.Walk.{all_of, one_of, texts};
ghost use Rattle.clap.specs.declared.builder.command.Command.TheViews.{out-Command as fields_of};
ghost use Rattle.strc_cli_words.specs.Lines.{AsksFor, HasDrawing, HasNumbers, HasSort, batch_app};
ghost use Rattle.strc_cli_words.specs.Lines.{IsBadCommand, IsBadLine, IsDefault, IsRefusedFor};
ghost use Rattle.strc_cli_words.specs.Lines.{IsSort, IsSortOf, depth_rule, sort_rule, times_rule};
ghost use Rattle.strc_cli_words.specs.Lines.{IsCommandOf, IsFlagOf, IsKnown, IsLineIn, IsNumber};
ghost use Rattle.strc_cli_words.specs.Lines.{IsFormat, IsFormatOf, format_rule};
ghost use Rattle.strc_cli_words.specs.Lines.{IsNumberOf, check_app, fault_by};
ghost use Rattle.strc_cli_words.specs.Lines.{file_rule, fuse_rule, graph_app, long_rule, main_of};
ghost use Rattle.strc_cli_words.specs.Lines.{main_rule};
ghost use Rattle.strc_cli_words.specs.Lines.{number_rule, plan_app, rounds_app, rounds_rule};
ghost use Rattle.strc_cli_words.specs.Lines.{batch_rule, emit_app, run_app};
ghost use Rattle.strc_cli_words.specs.Lines.{lint_rule, live_rule, stats_rule, strc_app, ways_rule};
ghost use Rattle.strc_cli_words.specs.Lines.{out_rule, with_sharing, workers_rule};
ghost use Rattle.strc_cli_words.specs.Outs as spec;
ghost use Rattle.strc_cli_words.specs.Outs.{AreBadOuts, AreOuts, AreOutsFor, IsNoOut, names_of};
ghost use Rattle.strc_cli_words.specs.Outs.{out_of, shares_name};

use crate::line::{Command, Format, Line, LineFault, Out, SortKey};
use clap::error::ErrorKind;
use clap::{Arg, ArgAction, ArgMatches, Error, value_parser};
use std::alloc::{AllocError, Global};

/// What `--version` says after the program's name.
pub const VERSION: &str = "0.9.0";

// How many rounds the program runs with no words after its name.
const BARE_ROUNDS: u32 = 5;

/// How many workers run it where no number is given.
pub const BARE_WORKERS: u32 = 1;

/// Among how many copies a filter is split where no number is given: none is split.
pub const BARE_WAYS: u32 = 1;

/// How long the list of a fused unit may be where no number is given: no units are fused.
pub const BARE_FUSE: u32 = 0;

/// The greatest number of copies that can be asked for.
pub const WAYS_LIMIT: u32 = 64;

/// The greatest length of a fused unit's list that can be asked for.
pub const FUSE_LIMIT: u32 = 65_536;

/// The greatest number of rounds at a time that can be asked for.
pub const BATCH_LIMIT: u32 = 4_096;

/// Reads the words of a command line, the program's name first.
///
/// With no words after the name the text comes from standard input and runs for 5 rounds.
/// Words that the program doesn't know, or a number past its bounds, are `Words`.
pub fn command<'a>(alloc: Global, words: &'a [&'a str]) -> Result<Line, LineFault>
    ensures bare { length words.now ≤ 1 → IsOkAnd result IsDefault }
    ensures answered { 1 < length words.now → IfOk result (AsksFor (texts words.now)) }
    ensures refused { 1 < length words.now
        → IfErr result (λ fault. IsRefusedFor fault (texts words.now)) }
{
    if words.len() <= 1 {
        return Ok(Line {
            file: None,
            command: Command::Run {
                rounds: Some(BARE_ROUNDS),
                workers: BARE_WORKERS,
                ways: BARE_WAYS,
                fuse: BARE_FUSE,
                batch: None,
                stats: false,
                main: None,
            },
            live: false,
            lint: false,
            format: Format::Text,
            outs: Vec::new(alloc),
            times: None,
        });
    }
    let Ok(parser) = parser(alloc) else {
        return Err(LineFault::Memory);
    };
    match parser.try_get_matches_from(words) {
        Ok(matches) => line_of(alloc, &matches),
        Err(error) => Err(fault_of(&error)),
    }
}

/// What is wrong with words that `command` doesn't understand, and how the program is called.
pub fn usage_error<'a>(alloc: Global, words: &'a [&'a str]) -> Result<String, AllocError> {
    match parser(alloc)?.try_get_matches_from(words).err() {
        Some(error) => error.to_string(alloc),
        None => Ok(String::new(alloc)),
    }
}

/// Whether words that `command` doesn't understand ask for help, so that what `usage_error` says of
/// them is no error.
pub fn asks_for_help<'a>(alloc: Global, words: &'a [&'a str]) -> Result<bool, AllocError> {
    match parser(alloc)?.try_get_matches_from(words).err() {
        Some(error) => Ok(!error.use_stderr()),
        None => Ok(false),
    }
}

/// Whether words ask for the version, wherever they do so.
pub fn asks_for_version(words: &[&str]) -> bool {
    words
        .iter()
        .any(|word| *word == "--version" || *word == "-V")
}

// The words that the program knows.
fn parser<'a>(alloc: Global) -> Result<clap::Command<'a>, AllocError>
    ensures { IfOk result (λ parser. app_of parser ≡ strc_app) }
{
    let subcommands = subcommands(alloc)?;
    clap::Command::new(alloc, "strc")
        .about("A compiler of StreamIt programs")
        .subcommand_required(true)
        .subcommands(subcommands)
}

// The words of each subcommand.
fn subcommands<'a>(alloc: Global) -> Result<Vec<clap::Command<'a>>, AllocError>
    ensures { IfOk result (λ all. map app_of all.items
        ≡ run_app ∷ check_app ∷ plan_app ∷ emit_app ∷ graph_app ∷ []) }
{
    let run = with_last(Ok(Vec::new(alloc)), run_command(alloc));
    let check = with_last(run, check_command(alloc));
    let plan = with_last(check, plan_command(alloc));
    let emit = with_last(plan, emit_command(alloc));
    with_last(emit, graph_command(alloc))
}

// The items and one more, where there are both. For any type, so that what is dropped where one is
// missing is no part of the callers.
fn with_last<T: Drop>(
    items: Result<Vec<T>, AllocError>,
    last: Result<T, AllocError>,
) -> Result<Vec<T>, AllocError>
    ensures { IfOk result (λ longer. IsOkAnd items (λ before. IsOkAnd last (λ item.
        longer.items ≡ before.items ++ item ∷ []))) }
{
    let mut items = items?;
    items.push(last?)?;
    Ok(items)
}

// The words `run FILE [--rounds N] [--workers N] [--ways N] [--fuse N] [--batch N] [--stats]
// [--live] [--out NAME=FILE].. [--main NAME]`.
fn run_command<'a>(alloc: Global) -> Result<clap::Command<'a>, AllocError>
    ensures app { IfOk result (λ run. app_of run ≡ run_app) }
    ensures local { IfOk result (λ run. (fields_of run).has_globals ≡ false) }
{
    batch_command(alloc)?
        .arg(stats_option(alloc))?
        .arg(live_option(alloc))?
        .arg(out_option(alloc))?
        .arg(main_option(alloc))
}

// The words `run FILE [--rounds N] [--workers N] [--ways N] [--fuse N] [--batch N]`.
fn batch_command<'a>(alloc: Global) -> Result<clap::Command<'a>, AllocError>
    ensures app { IfOk result (λ run. app_of run ≡ batch_app) }
    ensures local { IfOk result (λ run. (fields_of run).has_globals ≡ false) }
{
    let rounds = rounds_command(alloc)?;
    with_sharing_options(alloc, rounds)?.arg(batch_option(alloc))
}

// The words `run FILE [--rounds N]`.
fn rounds_command<'a>(alloc: Global) -> Result<clap::Command<'a>, AllocError>
    ensures app { IfOk result (λ run. app_of run ≡ rounds_app) }
    ensures local { IfOk result (λ run. (fields_of run).has_globals ≡ false) }
{
    file_command(alloc, "run", "Runs a StreamIt program")?.arg(rounds_option(alloc))
}

// These words and `[--workers N] [--ways N] [--fuse N]`: how a round is shared among workers.
fn with_sharing_options<'a>(
    alloc: Global,
    command: clap::Command<'a>,
) -> Result<clap::Command<'a>, AllocError>
    requires { (fields_of command).has_globals ≡ false }
    ensures app { IfOk result (λ longer. app_of longer ≡ with_sharing (app_of command.entry)) }
    ensures local { IfOk result (λ longer. (fields_of longer).has_globals ≡ false) }
{
    command
        .arg(workers_option(alloc))?
        .arg(ways_option(alloc))?
        .arg(fuse_option(alloc))
}

// The words `check FILE [--lint] [--format FORMAT] [--main NAME]`.
fn check_command<'a>(alloc: Global) -> Result<clap::Command<'a>, AllocError>
    ensures app { IfOk result (λ check. app_of check ≡ check_app) }
    ensures local { IfOk result (λ check. (fields_of check).has_globals ≡ false) }
{
    file_command(alloc, "check", "Checks a StreamIt program")?
        .arg(lint_option(alloc))?
        .arg(format_option(alloc))?
        .arg(main_option(alloc))
}

// The words `plan FILE [--long] [--sort KEY] [--main NAME]`.
fn plan_command<'a>(alloc: Global) -> Result<clap::Command<'a>, AllocError>
    ensures app { IfOk result (λ plan. app_of plan ≡ plan_app) }
    ensures local { IfOk result (λ plan. (fields_of plan).has_globals ≡ false) }
{
    let about = "Tells how often each node of a StreamIt program fires";
    file_command(alloc, "plan", about)?
        .arg(long_option(alloc))?
        .arg(sort_option(alloc))?
        .arg(main_option(alloc))
}

// The words `emit FILE [--main NAME]`.
fn emit_command<'a>(alloc: Global) -> Result<clap::Command<'a>, AllocError>
    ensures app { IfOk result (λ emit. app_of emit ≡ emit_app) }
    ensures local { IfOk result (λ emit. (fields_of emit).has_globals ≡ false) }
{
    main_command(alloc, "emit", "Writes a StreamIt program as C")
}

// The words `graph FILE [--workers N] [--ways N] [--fuse N] [--depth N] [--times FILE]
// [--main NAME]`.
fn graph_command<'a>(alloc: Global) -> Result<clap::Command<'a>, AllocError>
    ensures app { IfOk result (λ graph. app_of graph ≡ graph_app) }
    ensures local { IfOk result (λ graph. (fields_of graph).has_globals ≡ false) }
{
    let about = "Draws the flat graph of a StreamIt program, for Graphviz";
    let graph = file_command(alloc, "graph", about)?;
    with_sharing_options(alloc, graph)?
        .arg(depth_option(alloc))?
        .arg(times_option(alloc))?
        .arg(main_option(alloc))
}

// The words `NAME FILE [--main NAME]`.
fn main_command<'a>(
    alloc: Global,
    name: &'a str,
    about: &'a str,
) -> Result<clap::Command<'a>, AllocError>
    ensures app { IfOk result (λ command. app_of command
        ≡ with_rule (with_rule (new_app name.entry.now) file_rule) main_rule) }
    ensures local { IfOk result (λ command. (fields_of command).has_globals ≡ false) }
{
    file_command(alloc, name, about)?.arg(main_option(alloc))
}

// The words `NAME FILE`.
fn file_command<'a>(
    alloc: Global,
    name: &'a str,
    about: &'a str,
) -> Result<clap::Command<'a>, AllocError>
    ensures app { IfOk result (λ command. app_of command
        ≡ with_rule (new_app name.entry.now) file_rule) }
    ensures local { IfOk result (λ command. (fields_of command).has_globals ≡ false) }
{
    clap::Command::new(alloc, name)
        .about(about)
        .arg(file_argument(alloc))
}

fn file_argument<'a>(alloc: Global) -> Arg<'a>
    ensures rule { rule_of result ≡ file_rule }
    ensures local { result.global ≡ false }
{
    Arg::new(alloc, "FILE")
        .required(true)
        .help("The file of the program's text")
}

fn rounds_option<'a>(alloc: Global) -> Arg<'a>
    ensures rule { rule_of result ≡ rounds_rule }
    ensures local { result.global ≡ false }
{
    number_option(alloc, "rounds").help("How many rounds to run after start-up")
}

fn workers_option<'a>(alloc: Global) -> Arg<'a>
    ensures rule { rule_of result ≡ workers_rule }
    ensures local { result.global ≡ false }
{
    number_option(alloc, "workers").help("How many workers run them, 1 to 64")
}

fn ways_option<'a>(alloc: Global) -> Arg<'a>
    ensures rule { rule_of result ≡ ways_rule }
    ensures local { result.global ≡ false }
{
    number_option(alloc, "ways")
        .value_parser(value_parser!(u32).range(1..=i64::from(WAYS_LIMIT)))
        .help("A filter without state is split among at most N copies, 1 to 64")
}

fn fuse_option<'a>(alloc: Global) -> Arg<'a>
    ensures rule { rule_of result ≡ fuse_rule }
    ensures local { result.global ≡ false }
{
    number_option(alloc, "fuse")
        .value_parser(value_parser!(u32).range(..=i64::from(FUSE_LIMIT)))
        .help("Two neighbouring units become one where their list has at most N entries")
}

fn batch_option<'a>(alloc: Global) -> Arg<'a>
    ensures rule { rule_of result ≡ batch_rule }
    ensures local { result.global ≡ false }
{
    number_option(alloc, "batch")
        .value_parser(value_parser!(u32).range(1..=i64::from(BATCH_LIMIT)))
        .help("How many rounds each worker runs at a time, 1 to 4,096")
}

fn stats_option<'a>(alloc: Global) -> Arg<'a>
    ensures rule { rule_of result ≡ stats_rule }
    ensures local { result.global ≡ false }
{
    Arg::new(alloc, "stats")
        .long("stats")
        .action(ArgAction::SetTrue)
        .help("Write the steps and the time of each stage to standard error")
}

fn live_option<'a>(alloc: Global) -> Arg<'a>
    ensures rule { rule_of result ≡ live_rule }
    ensures local { result.global ≡ false }
{
    Arg::new(alloc, "live")
        .long("live")
        .action(ArgAction::SetTrue)
        .help("Run each round, and write its words, as soon as its input has come")
}

fn out_option<'a>(alloc: Global) -> Arg<'a>
    ensures rule { rule_of result ≡ out_rule }
    ensures local { result.global ≡ false }
{
    Arg::new(alloc, "out")
        .long("out")
        .value_name("NAME=FILE")
        .action(ArgAction::Append)
        .help("Write the words of this tape to a file; may be given for several tapes")
}

fn lint_option<'a>(alloc: Global) -> Arg<'a>
    ensures rule { rule_of result ≡ lint_rule }
    ensures local { result.global ≡ false }
{
    Arg::new(alloc, "lint")
        .long("lint")
        .action(ArgAction::SetTrue)
        .help("Tell what may be mistakes in a program that is accepted")
}

fn format_option<'a>(alloc: Global) -> Arg<'a>
    ensures rule { rule_of result ≡ format_rule }
    ensures local { result.global ≡ false }
{
    Arg::new(alloc, "format")
        .long("format")
        .value_name("FORMAT")
        .help("How to tell what is wrong: `text` for a person, `json` for a program")
}

fn long_option<'a>(alloc: Global) -> Arg<'a>
    ensures rule { rule_of result ≡ long_rule }
    ensures local { result.global ≡ false }
{
    Arg::new(alloc, "long")
        .long("long")
        .action(ArgAction::SetTrue)
        .help("Tell the path, the estimated work and the buffers of each node too")
}

fn sort_option<'a>(alloc: Global) -> Arg<'a>
    ensures rule { rule_of result ≡ sort_rule }
    ensures local { result.global ≡ false }
{
    Arg::new(alloc, "sort").long("sort").value_name("KEY").help(
        "Tell that of the nodes with the most work, or the largest size, first",
    )
}

fn depth_option<'a>(alloc: Global) -> Arg<'a>
    ensures rule { rule_of result ≡ depth_rule }
    ensures local { result.global ≡ false }
{
    number_option(alloc, "depth").help(
        "Draw streams in N others as single boxes (not with --workers, --ways or --fuse)",
    )
}

fn times_option<'a>(alloc: Global) -> Arg<'a>
    ensures rule { rule_of result ≡ times_rule }
    ensures local { result.global ≡ false }
{
    Arg::new(alloc, "times")
        .long("times")
        .value_name("FILE")
        .help("Colour nodes by their share of the time, as `run --stats` wrote it into FILE")
}

fn number_option<'a>(alloc: Global, name: &'a str) -> Arg<'a>
    ensures rule { rule_of result ≡ number_rule name.entry.now }
    ensures local { result.global ≡ false }
{
    Arg::new(alloc, name)
        .long(name)
        .value_name("N")
        .value_parser(value_parser!(u32))
}

fn main_option<'a>(alloc: Global) -> Arg<'a>
    ensures rule { rule_of result ≡ main_rule }
    ensures local { result.global ≡ false }
{
    Arg::new(alloc, "main")
        .long("main")
        .value_name("NAME")
        .help("The main stream, where several could be it")
}

// The line that the matches of the words are.
fn line_of(alloc: Global, matches: &ArgMatches) -> Result<Line, LineFault>
    ensures answered { IfOk result (IsLineIn (subcommand_rows_of matches.now)) }
    ensures refused { IfErr result (λ fault.
        IsBadLine fault (subcommand_rows_of matches.now)) }
{
    let Some((name, found)) = matches.subcommand() else {
        return Err(LineFault::Words);
    };
    let Some(file) = found.get_str("FILE") else {
        return Err(LineFault::Words);
    };
    let file = owned(alloc, file)?;
    let main = owned_if_given(alloc, found.get_str("main"))?;
    let times = owned_if_given(alloc, found.get_str("times"))?;
    let command = match command_of(alloc, name, found, main) {
        Ok(command) => command,
        Err(fault) => return Err(fault),
    };
    let format = match format_of(found.get_str("format")) {
        Ok(format) => format,
        Err(fault) => return Err(fault),
    };
    let live = is_set(found, "live");
    match outs_of(alloc, found, live) {
        Ok(outs) => Ok(Line {
            file: Some(file),
            command,
            live,
            lint: is_set(found, "lint"),
            format,
            outs,
            times,
        }),
        Err(fault) => Err(fault),
    }
}

// The tapes that go to files, by what was found for the options of a run that is live or not.
fn outs_of(alloc: Global, found: &ArgMatches, live: bool) -> Result<Vec<Out>, LineFault>
    ensures answered { IfOk result (λ outs. AreOutsFor live
        (all_of (codes "out") (rows_of (found_of found.now))) outs.items) }
    ensures refused { IfErr result (λ fault. AreBadOuts fault live
        (all_of (codes "out") (rows_of (found_of found.now)))) }
{
    let Some(words) = found.get_strs("out") else {
        return Ok(Vec::new(alloc));
    };
    let outs = match outs_in(alloc, words) {
        Ok(outs) => outs,
        Err(fault) => return Err(fault),
    };
    if has_twice(&outs) {
        return Err(LineFault::TapeTwice);
    }
    if live && !outs.is_empty() {
        return Err(LineFault::LiveOut);
    }
    Ok(outs)
}

// The tape and the file of each word NAME=FILE.
fn outs_in(alloc: Global, words: &[&str]) -> Result<Vec<Out>, LineFault>
    ensures answered { IfOk result (λ outs. AreOuts (texts words.now) outs.items) }
    ensures refused { (live : Bool) → IfErr result (λ fault.
        AreBadOuts fault live (Some (texts words.now))) }
{
    let mut outs = Vec::new(alloc);
    for word in words {
        match out_in(alloc, word) {
            Ok(out) => {
                if outs.push(out).is_err() {
                    return Err(LineFault::Memory);
                }
            }
            Err(fault) => return Err(fault),
        }
    }
    Ok(outs)
}

// The tape and the file of a word NAME=FILE.
fn out_in(alloc: Global, word: &str) -> Result<Out, LineFault>
    ensures answered { IfOk result (λ out. out_of word.now ≡ Some (names_of out)) }
    ensures refused { IfErr result (λ fault. IsNoOut fault word.now) }
{
    let Some((tape, file)) = word.split_once('=') else {
        return Err(LineFault::BadOut);
    };
    if tape.is_empty() || file.is_empty() {
        return Err(LineFault::BadOut);
    }
    Ok(Out {
        tape: owned(alloc, tape)?,
        file: owned(alloc, file)?,
    })
}

// Whether two of them name one tape, or one file.
fn has_twice(outs: &[Out]) -> bool
    ensures { result ≡ spec.has_twice (map names_of outs.now) }
{
    for place in 0..outs.len() {
        let Out { tape, file } = &outs[place];
        if is_named(&outs[place + 1..], tape.as_str(), file.as_str()) {
            return true;
        }
    }
    false
}

// Whether one of them names this tape, or this file.
fn is_named(outs: &[Out], tape: &str, file: &str) -> bool
    ensures { result ≡ list_any (λ names. shares_name names (tape.now, file.now))
        (map names_of outs.now) }
{
    for out in outs {
        if out.tape.as_str() == tape || out.file.as_str() == file {
            return true;
        }
    }
    false
}

// The command of this name, with what was found for its options.
fn command_of(
    alloc: Global,
    name: &str,
    found: &ArgMatches,
    main: Option<String>,
) -> Result<Command, LineFault>
    ensures answered { IfOk result (λ command. IsCommandOf name.now (rows_of (found_of found.now))
        command × (main_of command ≡ option_map string_bytes main)) }
    ensures refused { IfErr result (λ fault. IsBadCommand fault name.now
        (rows_of (found_of found.now))) }
{
    match name {
        "run" => run_of(found, main),
        "check" => Ok(Command::Check { main }),
        "plan" => plan_of(found, main),
        "emit" => Ok(Command::Emit { main }),
        "graph" => graph_of(alloc, found, main),
        _ => Err(LineFault::Words),
    }
}

// The command `run`, with what was found for its options.
fn run_of(found: &ArgMatches, main: Option<String>) -> Result<Command, LineFault>
    ensures answered { IfOk result (λ command. IsCommandOf (codes "run")
        (rows_of (found_of found.now)) command
        × (main_of command ≡ option_map string_bytes main)) }
    ensures refused { IfErr result (λ fault. HasNumbers (rows_of (found_of found.now)) → ⊥) }
    ensures words { IfErr result (λ fault. fault ≡ LineFault.Words) }
{
    let rounds = number_of(found, "rounds")?;
    let workers = number_of(found, "workers")?.unwrap_or(BARE_WORKERS);
    let ways = number_of(found, "ways")?.unwrap_or(BARE_WAYS);
    let fuse = number_of(found, "fuse")?.unwrap_or(BARE_FUSE);
    let batch = number_of(found, "batch")?;
    let stats = is_set(found, "stats");
    Ok(Command::Run {
        rounds,
        workers,
        ways,
        fuse,
        batch,
        stats,
        main,
    })
}

// The command `plan`, with what was found for its options.
fn plan_of(found: &ArgMatches, main: Option<String>) -> Result<Command, LineFault>
    ensures answered { IfOk result (λ command. IsCommandOf (codes "plan")
        (rows_of (found_of found.now)) command
        × (main_of command ≡ option_map string_bytes main)) }
    ensures refused { IfErr result (λ fault. HasSort (rows_of (found_of found.now)) → ⊥) }
    ensures sort { IfErr result (λ fault. fault ≡ LineFault.BadSort) }
{
    match sort_of(found.get_str("sort")) {
        Ok(sort) => Ok(Command::Plan {
            long: is_set(found, "long"),
            sort,
            main,
        }),
        Err(fault) => Err(fault),
    }
}

// What a word says to sort by, where one is given.
fn sort_of(word: Option<&str>) -> Result<Option<SortKey>, LineFault>
    ensures answered { IfOk result (IsSortOf (option_map (λ w. w.now) word.entry)) }
    ensures refused { IfErr result (λ fault. IsSort (option_map (λ w. w.now) word.entry) → ⊥) }
    ensures sort { IfErr result (λ fault. fault ≡ LineFault.BadSort) }
{
    match word {
        None => Ok(None),
        Some("work") => Ok(Some(SortKey::Work)),
        Some("size") => Ok(Some(SortKey::Size)),
        Some(_) => Err(LineFault::BadSort),
    }
}

// The form of messages that a word names; that for a person where none is given.
fn format_of(word: Option<&str>) -> Result<Format, LineFault>
    ensures answered { IfOk result (IsFormatOf (option_map (λ w. w.now) word.entry)) }
    ensures refused { IfErr result (λ fault. IsFormat (option_map (λ w. w.now) word.entry) → ⊥) }
    ensures format { IfErr result (λ fault. fault ≡ LineFault.BadFormat) }
{
    match word {
        None | Some("text") => Ok(Format::Text),
        Some("json") => Ok(Format::Json),
        Some(_) => Err(LineFault::BadFormat),
    }
}

// The command `graph`, with what was found for its options.
fn graph_of(alloc: Global, found: &ArgMatches, main: Option<String>) -> Result<Command, LineFault>
    ensures answered { IfOk result (λ command. IsCommandOf (codes "graph")
        (rows_of (found_of found.now)) command
        × (main_of command ≡ option_map string_bytes main)) }
    ensures refused { IfErr result (λ fault. HasDrawing (rows_of (found_of found.now)) → ⊥) }
    ensures words { IfErr result (λ fault. fault ≡ LineFault.Words) }
{
    let workers = number_of(found, "workers")?;
    let ways = number_of(found, "ways")?;
    let fuse = number_of(found, "fuse")?;
    let depth = number_of(found, "depth")?;
    Ok(Command::Graph {
        workers,
        ways,
        fuse,
        depth,
        times: Vec::new(alloc),
        main,
    })
}

// The number that was found for an option, where one is given.
fn number_of(found: &ArgMatches, option: &str) -> Result<Option<u32>, LineFault>
    ensures answered { IfOk result (IsNumberOf (one_of option.now (rows_of (found_of found.now)))) }
    ensures refused { IfErr result (λ fault.
        IsNumber (one_of option.now (rows_of (found_of found.now))) → ⊥) }
    ensures words { IfErr result (λ fault. fault ≡ LineFault.Words) }
{
    match found.try_get_one::<u32>(option) {
        Ok(number) => Ok(number),
        Err(_) => Err(LineFault::Words),
    }
}

// Whether a flag was found to be set.
fn is_set(found: &ArgMatches, flag: &str) -> bool
    ensures { IsFlagOf (one_of flag.now (rows_of (found_of found.now))) result }
{
    found.get_one::<bool>(flag).unwrap_or(false)
}

fn owned_if_given(alloc: Global, text: Option<&str>) -> Result<Option<String>, LineFault>
    ensures same { IfOk result (λ owned.
        option_map string_bytes owned ≡ option_map (λ given. given.now) text.entry) }
    ensures memory { IfErr result (λ fault. fault ≡ LineFault.Memory) }
{
    match text {
        Some(text) => Ok(Some(owned(alloc, text)?)),
        None => Ok(None),
    }
}

fn owned(alloc: Global, text: &str) -> Result<String, LineFault>
    ensures same { IfOk result (λ owned. string_bytes owned ≡ text.now) }
    ensures memory { IfErr result (λ fault. fault ≡ LineFault.Memory) }
{
    match String::from_str(alloc, text) {
        Ok(text) => Ok(text),
        Err(_) => Err(LineFault::Memory),
    }
}

fn fault_of(error: &Error) -> LineFault
    ensures kind { result ≡ fault_by (kind_of error.now) }
    ensures two { (result ≡ LineFault.Words) ⊎ (result ≡ LineFault.Memory) }
{
    match error.kind() {
        ErrorKind::OutOfMemory => LineFault::Memory,
        _ => LineFault::Words,
    }
}
