// What a person reads where the words of the command line aren't understood.

use crate::{DONE, FAILED, WORDS, out_of_memory};
use strc_cli_words::words::{VERSION, asks_for_help, asks_for_version, usage_error};

/// Prints help, or the version, where the words ask for it; else what is wrong with them.
pub(crate) fn print_usage(rt: &HostRuntime, words: &[&str]) -> u8 {
    if asks_for_version(words) {
        return match println!(rt; "strc {VERSION}") {
            Ok(()) => DONE,
            Err(_) => FAILED,
        };
    }
    let Ok(text) = usage_error(rt.alloc(), words) else {
        return out_of_memory(rt);
    };
    if let Ok(true) = asks_for_help(rt.alloc(), words) {
        return match print!(rt; "{text}") {
            Ok(()) => DONE,
            Err(_) => FAILED,
        };
    }
    if let Some(negative) = negative_number(words) {
        print_negative(rt, &negative);
        return WORDS;
    }
    let _ = eprintln!(rt; "{text}");
    if let Some(file) = program_in_place_of_command(words) {
        let _ = eprintln!(rt; "  tip: to run a program, use 'strc run {file}'");
    }
    WORDS
}

// The file of a program, where it stands in the place of a command.
fn program_in_place_of_command<'a>(words: &[&'a str]) -> Option<&'a str> {
    match words.get(1) {
        Some(word) if word.strip_suffix(".str").is_some() => Some(*word),
        _ => None,
    }
}

// A negative number that is given to an option, and the numbers that the option takes.
#[derive(Drop)]
struct Negative<'a> {
    option: &'a str,
    number: &'a str,
    range: &'static str,
}

// The first negative number that is given to an option: clap takes it for an option.
fn negative_number<'a>(words: &[&'a str]) -> Option<Negative<'a>> {
    for at in 1..words.len() {
        if let Some(range) = range_of(words[at - 1]) {
            if is_negative(words[at]) {
                return Some(Negative {
                    option: words[at - 1],
                    number: words[at],
                    range,
                });
            }
        }
    }
    None
}

// The numbers that an option takes.
fn range_of(option: &str) -> Option<&'static str> {
    match option {
        "--rounds" => Some("0 to 4,294,967,295"),
        "--workers" | "--ways" => Some("1 to 64"),
        "--fuse" => Some("0 to 65,536"),
        "--batch" => Some("1 to 4,096"),
        _ => None,
    }
}

// Whether a word is a minus sign before digits.
fn is_negative(word: &str) -> bool {
    match word.strip_prefix('-') {
        Some(digits) => !digits.is_empty() && digits.bytes().all(|byte| byte.is_ascii_digit()),
        None => false,
    }
}

fn print_negative(rt: &HostRuntime, negative: &Negative<'_>) {
    let Negative {
        option,
        number,
        range,
    } = negative;
    let _ = eprintln!(rt;
        "error: invalid value '{number}' for '{option} <N>': it takes a number from {range}"
    );
    if *option == "--rounds" {
        let _ = eprintln!(rt;
            "\n  tip: leave '--rounds' out to run as many as the input serves, \
            or use '--live' to run them as it comes"
        );
    }
    let _ = eprintln!(rt; "\nFor more information, try '--help'.");
}
