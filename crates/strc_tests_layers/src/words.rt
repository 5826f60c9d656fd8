// The forms of the command line.

use std::alloc::{AllocError, Global};
use std::process::Abort;
use std::test::Fail;
use strc_cli_words::line::{Command, Line, LineFault, SortKey};
use strc_cli_words::words::{asks_for_help, asks_for_version, command, usage_error};

// What is asked for, in one line: the command and its values, `-` where one isn't given.
fn reported(alloc: Global, line: &Line) -> Result<String, AllocError> {
    let file = name_of(&line.file);
    match &line.command {
        Command::Run {
            rounds,
            workers,
            ways,
            fuse,
            batch,
            stats,
            main,
        } => {
            let rounds = number_of(alloc, *rounds)?;
            let batch = number_of(alloc, *batch)?;
            format!(in alloc;
                "run {file} {rounds} {workers} {ways} {fuse} {batch} {stats} {}",
                name_of(main)
            )
        }
        Command::Check { main } => format!(in alloc; "check {file} {}", name_of(main)),
        Command::Plan { long, sort, main } => {
            let key = match sort {
                None => "-",
                Some(SortKey::Work) => "work",
                Some(SortKey::Size) => "size",
            };
            format!(in alloc; "plan {file} {long} {key} {}", name_of(main))
        }
        Command::Emit { main } => format!(in alloc; "emit {file} {}", name_of(main)),
        Command::Graph {
            workers,
            ways,
            fuse,
            depth,
            times: _,
            main,
        } => {
            let workers = number_of(alloc, *workers)?;
            let ways = number_of(alloc, *ways)?;
            let fuse = number_of(alloc, *fuse)?;
            let depth = number_of(alloc, *depth)?;
            format!(in alloc;
                "graph {file} {workers} {ways} {fuse} {depth} {}",
                name_of(main)
            )
        }
    }
}

fn number_of(alloc: Global, number: Option<u32>) -> Result<String, AllocError> {
    match number {
        Some(number) => format!(in alloc; "{number}"),
        None => String::from_str(alloc, "-"),
    }
}

fn name_of(name: &Option<String>) -> &str {
    match name {
        Some(name) => name.as_str(),
        None => "-",
    }
}

// The words of a line, with a blank between two.
fn words_of(alloc: Global, line: &str) -> Result<Vec<&str>, AllocError> {
    let mut words = Vec::new(alloc);
    for word in line.split(' ') {
        words.push(word)?;
    }
    Ok(words)
}

// A row a line: the words, and what is asked for.
const UNDERSTOOD: &str = "\
strc => run - 5 1 1 0 - false -
strc run a.str => run a.str - 1 1 0 - false -
strc run a.str --rounds=0 => run a.str 0 1 1 0 - false -
strc run --main M a.str => run a.str - 1 1 0 - false M
strc run a.str --workers 0 => run a.str - 0 1 0 - false -
strc run --workers=64 a.str => run a.str - 64 1 0 - false -
strc run a.str --ways 1 => run a.str - 1 1 0 - false -
strc run --ways=64 a.str => run a.str - 1 64 0 - false -
strc run a.str --fuse 0 => run a.str - 1 1 0 - false -
strc run --fuse=65536 a.str => run a.str - 1 1 65536 - false -
strc run a.str --stats => run a.str - 1 1 0 - true -
strc run --stats a.str --rounds 3 => run a.str 3 1 1 0 - true -
strc run --rounds 4294967295 a.str --main M => run a.str 4294967295 1 1 0 - false M
strc run --workers 4294967295 a.str --main M --rounds 2 => run a.str 2 4294967295 1 0 - false M
strc run --stats --fuse 7 --main M a --ways 3 --workers 2 --rounds 5 => run a 5 2 3 7 - true M
strc run a.str --batch 64 => run a.str - 1 1 0 64 false -
strc run --batch=1 a.str => run a.str - 1 1 0 1 false -
strc run --batch=4096 a.str --rounds 9 => run a.str 9 1 1 0 4096 false -
strc check a.str => check a.str -
strc check a.str --main M => check a.str M
strc plan a.str => plan a.str false - -
strc plan --main=M a.str => plan a.str false - M
strc plan a.str --long => plan a.str true - -
strc plan --long --main M a.str => plan a.str true - M
strc plan --sort work a.str => plan a.str false work -
strc plan --long --sort=size a.str => plan a.str true size -
strc emit a.str => emit a.str -
strc emit --main=M a.str => emit a.str M
strc graph a.str => graph a.str - - - - -
strc graph a.str --main M => graph a.str - - - - M
strc graph --workers 0 a.str => graph a.str 0 - - - -
strc graph --depth 2 a.str --times t => graph a.str - - - 2 -
strc graph a.str --ways 64 => graph a.str - 64 - - -
strc graph a.str --fuse 65536 => graph a.str - - 65536 - -
strc graph --fuse 7 --main M a.str --ways 3 --workers 2 => graph a.str 2 3 7 - M
";

#[test]
fn each_form_is_understood(rt: HostRuntime) -> Result<(), Fail> {
    for row in UNDERSTOOD.lines() {
        let (text, wanted) = row.split_once(" => ").ok_or("a row without two parts")?;
        let words = words_of(rt.alloc(), text)?;
        let line = command(rt.alloc(), words.as_slice())?;
        let found = reported(rt.alloc(), &line)?;
        assert_eq!(rt; found.as_str(), wanted, "at {text}");
    }
    Ok(())
}

const OTHERS: &str = "\
strc go
strc run
strc run a.str b.str
strc run a.str --rounds 4294967296
strc run a.str --rounds -1
strc run a.str --rounds many
strc run a.str --rounds
strc run a.str --workers 4294967296
strc run a.str --workers -1
strc run a.str --workers many
strc run a.str --workers
strc run a.str --workers 2 --workers 2
strc run a.str --fuse 65537
strc run a.str --fuse 4294967296
strc run a.str --fuse -1
strc run a.str --fuse many
strc run a.str --fuse
strc run a.str --fuse 2 --fuse 2
strc run a.str --batch 0
strc run a.str --batch 4097
strc run a.str --batch -1
strc run a.str --batch many
strc run a.str --batch
strc run a.str --batch 2 --batch 2
strc run a.str --stats=true
strc run a.str --stats --stats
strc run a.str --statistics
strc run a.str --ways 0
strc run a.str --ways 65
strc run a.str --ways 4294967296
strc run a.str --ways -1
strc run a.str --ways many
strc run a.str --ways
strc run a.str --ways 2 --ways 2
strc run a.str --out
strc check a.str --out T=f
strc graph a.str --out T=f
strc emit
strc emit a.str --rounds 2
strc emit a.str b.str
strc check
strc check a.str --rounds 2
strc check a.str --workers 2
strc check a.str --ways 2
strc check a.str --fuse 2
strc plan a.str --stats
strc plan a.str --long=true
strc plan a.str --long --long
strc check a.str --long
strc plan a.str --ways 2
strc plan --main M
strc plan a.str b.str
strc graph a.str --rounds 2
strc graph a.str --stats
strc graph a.str --ways 0
strc graph a.str --ways 65
strc graph a.str --fuse 65537
strc graph a.str --workers many
";

// Words that aren't understood, and what is said of them.
fn refused<'a>(rt: &impl Abort, alloc: Global, words: &'a [&'a str]) -> Result<String, AllocError> {
    let fault = command(alloc, words).err();
    assert_eq!(rt; fault, Some(LineFault::Words), "at {words:?}");
    usage_error(alloc, words)
}

#[test]
fn other_words_are_not(rt: HostRuntime) -> Result<(), Fail> {
    for text in OTHERS.lines() {
        let words = words_of(rt.alloc(), text)?;
        let said = refused(&rt, rt.alloc(), words.as_slice())?;
        assert!(rt; !said.as_str().is_empty(), "at {text}");
    }
    Ok(())
}

// Words that ask for help, and those that are a mistake; and a part of what is said of them.
const HELPFUL: &str = "\
strc --help => Usage: strc <COMMAND>
strc run --help => --rounds <N>
strc run --help => --workers <N>
strc run --help => --ways <N>
strc run --help => --fuse <N>
strc run --help => --stats
strc run --help => --out <NAME=FILE>
strc graph -h => Graphviz
strc graph -h => --ways <N>
";

const MISTAKEN: &str = "\
strc plna a.str => plan
strc run a.str --round 3 => --rounds
";

// Compares what is said of the words of each row, and whether they ask for help.
fn compare(rt: &impl Abort, alloc: Global, rows: &str, help: bool) -> Result<(), Fail> {
    for row in rows.lines() {
        let (text, part) = row.split_once(" => ").ok_or("a row without two parts")?;
        let words = words_of(alloc, text)?;
        let words = words.as_slice();
        assert_eq!(rt; asks_for_help(alloc, words)?, help, "at {text}");
        let said = refused(rt, alloc, words)?;
        assert!(rt; said.as_str().contains(part), "at {text}: {said}");
    }
    Ok(())
}

#[test]
fn help_is_no_mistake(rt: HostRuntime) -> Result<(), Fail> {
    compare(&rt, rt.alloc(), HELPFUL, true)?;
    compare(&rt, rt.alloc(), MISTAKEN, false)
}

#[test]
fn the_version_is_asked_for_anywhere(rt: HostRuntime) -> Result<(), Fail> {
    assert!(rt; asks_for_version(&["strc", "--version"]));
    assert!(rt; asks_for_version(&["strc", "run", "-V"]));
    assert!(rt; !asks_for_version(&["strc", "run", "version"]));
    Ok(())
}

// The tapes that go to files, each with its file.
const OUTS: &str = "\
strc run a.str --out T=f => T to f
strc run --out T=f a.str --out U=g --rounds 2 => T to f, U to g
strc run a.str --out=T.2=f=g --live=false => -
strc run a.str --out T.2=f=g => T.2 to f=g
strc run a.str --out=U==g => U to =g
strc run a.str --live => none
strc check a.str => none
";

// Tapes that can't go to files, by a part of what is said of them.
const OTHER_OUTS: &str = "\
strc run a.str --out T => NAME=FILE
strc run a.str --out =f => NAME=FILE
strc run a.str --out T= => NAME=FILE
strc run a.str --out T=f --out = => NAME=FILE
strc run a.str --out T=f --out U=g --out T=h => one tape
strc run a.str --out T=f --live => '--live'
";

fn outs_told(alloc: Global, line: &Line) -> Result<String, AllocError> {
    let mut told = String::new(alloc);
    for out in line.outs.iter() {
        if !told.is_empty() {
            told.push_str(", ")?;
        }
        told.push_str(out.tape.as_str())?;
        told.push_str(" to ")?;
        told.push_str(out.file.as_str())?;
    }
    if told.is_empty() {
        told.push_str("none")?;
    }
    Ok(told)
}

#[test]
fn tapes_go_to_files(rt: HostRuntime) -> Result<(), Fail> {
    for row in OUTS.lines() {
        let (text, wanted) = row.split_once(" => ").ok_or("a row without two parts")?;
        let words = words_of(rt.alloc(), text)?;
        let told = match command(rt.alloc(), words.as_slice()) {
            Ok(line) => outs_told(rt.alloc(), &line)?,
            Err(_) => String::from_str(rt.alloc(), "-")?,
        };
        assert_eq!(rt; told.as_str(), wanted, "at {text}");
    }
    for row in OTHER_OUTS.lines() {
        let (text, part) = row.split_once(" => ").ok_or("a row without two parts")?;
        let words = words_of(rt.alloc(), text)?;
        let fault = command(rt.alloc(), words.as_slice())
            .err()
            .ok_or("no fault")?;
        let said = format!(in rt.alloc(); "{fault}")?;
        assert!(rt; said.as_str().contains(part), "at {text}: {said}");
    }
    Ok(())
}
