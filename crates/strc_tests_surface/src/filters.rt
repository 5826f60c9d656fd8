// A filter's code: its rates, its start, and its firings.

use crate::front::program_of;
use std::alloc::Global;
use std::process::Abort;
use std::test::Fail;
use strc_parse::tree::{FilterTree, StreamTree};
use strc_rate::rates::{RateError, Rates, check};
use strc_rate::stateless::stateless;
use strc_work::body::Body;
use strc_work::code::Code;
use strc_work::constants::Constants;
use strc_work::error::LowerError;
use strc_work::fault::{Cause, Halt};
use strc_work::firing::{Fire, StartError};
use strc_work::frame::Frame;
use strc_work::lowering::lower;
use strc_work::shifted_window::Shifted;
use strc_work::state::State;
use strc_work::window::{RingWindow, Window};
use strc_work::word::Word;

/// A peek by what another peek gives.
const PEEKS: &str = "work push 1 pop 1 peek 3 { push(peek(peek(0))); pop(); }";

/// A number for each item, whose sum is kept.
const TOTAL: &str = "int total; init { total = 40; } \
    work push 1 pop 1 { total += pop(); println(total); push(total); }";

/// The code of a filter with these members.
fn code_of(alloc: Global, members: &str) -> Result<Code, Fail> {
    let text = format!(in alloc; "int->int filter F {{ {members} }}")?;
    let program = program_of(alloc, &text)?;
    let [only] = program.declarations.as_slice() else {
        return Err(Fail::from("several streams"));
    };
    let StreamTree::Filter(filter) = &only.stream else {
        return Err(Fail::from("a pipeline"));
    };
    lowered(alloc, filter)
}

fn lowered(alloc: Global, filter: &FilterTree) -> Result<Code, Fail> {
    let constants = Constants::new(alloc);
    let code: Result<Code, LowerError> = lower(alloc, filter, &constants);
    Ok(code.ok().ok_or("no code")?)
}

/// What a first firing over a window pushes first, or how it halts.
fn pushed<W: Window>(rt: &impl Abort, alloc: Global, code: &Code, window: &W) -> Result<i32, Halt> {
    let mut state: State = code.start(alloc).expect(rt, "a start");
    let mut frame: Frame = code.frame(alloc).expect(rt, "a frame");
    let mut words: Vec<Word> = Vec::new(alloc);
    code.fire(Body::Work, &mut state, &mut frame, window, &mut words)?;
    Ok(frame.pushes().first().copied().unwrap_or(0))
}

#[test]
fn firings_look_at_windows(rt: HostRuntime) -> Result<(), Fail> {
    let alloc = rt.alloc();
    let code = code_of(alloc, PEEKS)?.copy()?;
    let items: [i32; 5] = [1, 2, 5, 9, 9];
    let window = items.as_slice();
    assert!(rt; matches!(pushed(&rt, alloc, &code, &window), Ok(2)));
    let second = Shifted::new(&window, 1);
    assert!(rt; matches!(pushed(&rt, alloc, &code, &second), Ok(9)));
    let third = RingWindow {
        front: &items[2..4],
        back: &items[4..],
    };
    let outside = pushed(&rt, alloc, &code, &third);
    assert!(rt; matches!(outside, Err(Halt::Fault(Cause::PeekRange))));
    Ok(())
}

#[test]
fn firings_keep_fields_and_print(rt: HostRuntime) -> Result<(), Fail> {
    let alloc = rt.alloc();
    let code = code_of(alloc, TOTAL)?;
    let mut state = code.start(alloc).ok().ok_or("no start")?;
    let mut frame = code.frame(alloc).ok().ok_or("no frame")?;
    let mut words = Vec::new(alloc);
    let window: &[i32] = &[1];
    let first = code.fire(Body::Work, &mut state, &mut frame, &window, &mut words);
    assert!(rt; first.is_ok());
    let second = code.fire(Body::Work, &mut state, &mut frame, &window, &mut words);
    assert!(rt; second.is_ok());
    assert_eq!(rt; frame.pushes(), [42].as_slice());
    assert_eq!(rt; words.len(), 2);
    assert_eq!(rt; (words[0].value, words[0].ends_line), (41, true));
    Ok(())
}

#[test]
fn a_start_may_fault(rt: HostRuntime) -> Result<(), Fail> {
    let alloc = rt.alloc();
    let code = code_of(alloc, "int x = 1 / 0; work push 1 pop 1 { push(pop()); }")?;
    let Err(StartError::ConstFault { cause }) = code.start(alloc) else {
        return Err("the division by zero has a value".into());
    };
    assert_eq!(rt; cause.cause(), Cause::DivZero);
    assert!(rt; cause.byte().is_some());
    Ok(())
}

#[test]
fn rates_are_checked(rt: HostRuntime) -> Result<(), Fail> {
    let alloc = rt.alloc();
    let code = code_of(alloc, PEEKS)?;
    let rates: Rates = check(alloc, &code).ok().ok_or("refused")?;
    assert!(rt; rates.prework.is_none());
    assert_eq!(rt;
        (rates.work.push, rates.work.pop, rates.work.window),
        (1, 1, 3)
    );
    assert_eq!(rt; rates.work.closed.as_slice(), [true, false].as_slice());
    assert!(rt; stateless(&code));
    assert!(rt; !stateless(&code_of(alloc, TOTAL)?));
    let wrong = code_of(alloc, "work push 2 pop 1 { push(pop()); }")?;
    let is_refused = matches!(
        check(alloc, &wrong),
        Err(RateError::RateMismatch {
            declared: 2,
            counted: 1
        })
    );
    assert!(rt; is_refused);
    Ok(())
}
