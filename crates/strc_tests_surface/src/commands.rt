// From the words of a command line, a text and the input's bytes to the output's.

use std::alloc::Global;
use std::test::Fail;
use strc_cli::device::{Sink, Source, Told};
use strc_cli::execute::{CliError, Status, execute};
use strc_cli::line::{Command, Line, LineFault};
use strc_cli::words::command;
use strc_run::OpenGate;

/// A source and a printer.
const MINIMAL: &str = "\
void->int filter IntSource { int x; work push 1 { push(x++); } }
int->void filter IntPrinter { work pop 1 { println(pop()); } }
void->void pipeline Minimal { add IntSource; add IntPrinter; }
";

#[test]
fn words_are_a_command(rt: HostRuntime) -> Result<(), Fail> {
    let words = ["strc", "run", "F.str", "--rounds", "5", "--ways", "2"];
    let line: Result<Line, LineFault> = command(rt.alloc(), &words);
    let line = line.ok().ok_or("a fault")?;
    let file: Option<&str> = line.file.as_deref();
    assert_eq!(rt; file, Some("F.str"));
    let is_run = matches!(
        line.command,
        Command::Run {
            rounds: Some(5),
            workers: 1,
            ways: 2,
            fuse: 0,
            ..
        }
    );
    assert!(rt; is_run);
    let faulty = command(rt.alloc(), &["strc", "run", "--rounds", "x"]);
    assert!(rt; matches!(faulty, Err(LineFault::Words)));
    Ok(())
}

#[test]
fn a_command_is_executed(rt: HostRuntime) -> Result<(), Fail> {
    let alloc = rt.alloc();
    let line = command(alloc, &["strc", "run", "F.str", "--rounds", "5"]).ok();
    let line = line.ok_or("a fault")?;
    let nothing: &[u8] = &[];
    let mut input = Told::new(nothing);
    let mut output = Told::new(Vec::new(alloc));
    let text = MINIMAL.as_bytes();
    let ended: Result<Status, CliError> = execute(
        &rt,
        alloc,
        text,
        &line.command,
        &mut input,
        &mut output,
        &OpenGate,
    );
    assert!(rt; matches!(ended, Ok(Status::Done)));
    assert!(rt; !input.failed() && !output.failed());
    assert_eq!(rt; input.left(), 4294967296);
    assert_eq!(rt;
        output.into_device().as_slice(),
        b"0\n1\n2\n3\n4\n".as_slice()
    );
    Ok(())
}
