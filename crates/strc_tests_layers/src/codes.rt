// Codes of filters: one firing over a given window, what they tell of themselves, and copies.

use crate::texts::code;
use std::alloc::{AllocError, Global};
use std::process::Abort;
use std::test::Fail;
use strc_work::firing::Fire;
use strc_work_code::code::Code;
use strc_work_meaning::body::Body;
use strc_work_meaning::fault::{Cause, Halt};
use strc_work_meaning::word::Word;

/// What a first firing of a body over a window pushes, or how it halts.
fn fired(
    rt: &impl Abort,
    alloc: Global,
    code: &Code,
    which: Body,
    window: &[i32],
) -> Result<Result<Vec<i32>, Halt>, AllocError> {
    let mut state = code.start(alloc).expect(rt, "start");
    let mut frame = code.frame(alloc).expect(rt, "frame");
    let mut words = Vec::new(alloc);
    let ended = code.fire(which, &mut state, &mut frame, &window, &mut words);
    given(alloc, ended, frame.pushes())
}

// The pushes of a firing that ended so.
fn given(
    alloc: Global,
    ended: Result<(), Halt>,
    pushes: &[i32],
) -> Result<Result<Vec<i32>, Halt>, AllocError> {
    match ended {
        Ok(()) => Ok(Ok(Vec::from_slice(alloc, pushes)?)),
        Err(halt) => Ok(Err(halt)),
    }
}

// A copy of the code of a text, which is dropped.
fn copied(rt: &impl Abort, alloc: Global, text: &str) -> Result<Code, Fail> {
    Ok(code(alloc, text)?.copy().expect(rt, "copy"))
}

/// The first item that a firing of a filter with these members pushes over a window, as a text, or
/// how the firing halts.
fn first_push(
    rt: &impl Abort,
    alloc: Global,
    members: &str,
    window: &[i32],
) -> Result<String, Fail> {
    let text = format!(in alloc; "int->int filter F {{ {members} }}")?;
    let code = code(alloc, &text)?;
    let shown = match fired(rt, alloc, &code, Body::Work, window)? {
        Ok(pushes) => format!(in alloc; "{}", pushes.first().copied().unwrap_or(0))?,
        Err(Halt::Fault(Cause::PeekRange)) => String::from_str(alloc, "outside")?,
        Err(Halt::Fault(Cause::Calls)) => String::from_str(alloc, "calls")?,
        Err(_) => String::from_str(alloc, "another halt")?,
    };
    Ok(shown)
}

/// The items of a text.
fn items_of(alloc: Global, text: &str) -> Result<Vec<i32>, Fail> {
    let mut items = Vec::new(alloc);
    for word in text.split_whitespace() {
        let item: Option<i32> = word.parse().ok();
        items.push(item.ok_or("no item")?)?;
    }
    Ok(items)
}

// A row a line: the members, the window, and what is pushed. A peek is tested after its index.
const FIRINGS: &str = "\
work push 1 pop 3 { push(pop()); } over 10 20 30 => 10
work push 1 pop 3 { push(pop() - pop()); } over 10 20 30 => -10
work push 1 pop 0 { push(pop()); } over 10 20 30 => outside
work push 1 pop 1 peek 3 { push(peek(pop())); } over 1 2 5 => 5
work push 1 pop 1 peek 3 { push(peek(pop())); } over 0 2 5 => 2
work push 1 pop 1 peek 3 { push(peek(pop())); } over 2 5 9 => outside
work push 1 pop 1 peek 3 { push(peek(pop())); } over 9 2 5 => outside
work push 1 pop 1 peek 3 { push(peek(pop())); } over -1 2 5 => outside
work push 1 pop 1 peek 3 { push(peek(peek(0))); pop(); } over 1 2 5 => 2
work push 1 pop 1 peek 3 { push(peek(peek(0))); pop(); } over 2 5 9 => 9
work push 1 pop 1 peek 3 { push(peek(peek(0))); pop(); } over 5 9 9 => outside
int f(int n) { return n * 2; } work push 1 pop 1 { push(f(pop())); } over 21 => 42
int f(int a, int b) { return a - b; } work push 1 pop 2 { push(f(pop(), pop())); } over 7 5 => 2
int x; int f(int n) { x = n; return 1; } work push 1 pop 1 { push(f(pop()) + x); } over 5 => 6
int x; int f() { x = 5; return 1; } work push 1 pop 1 { push(x + f() + pop()); } over 2 => 3
int f(int n) { n += 1; return n; } work push 1 pop 1 { int n = 7; f(pop()); push(n); } over 2 => 7
int f(int n) { return n > 1 ? f(n - 1) : n; } work push 1 pop 1 { push(f(pop())); } over 64 => 1
int f(int n) { return n > 1 ? f(n - 1) : n; } work push 1 pop 1 { push(f(pop())); } over 65 => calls
";

#[test]
fn items_are_taken_and_looked_at(rt: HostRuntime) -> Result<(), Fail> {
    let alloc = rt.alloc();
    for row in FIRINGS.lines() {
        let (given, want) = row.split_once(" => ").ok_or("a row without two parts")?;
        let (members, window) = given.split_once(" over ").ok_or("a row without a window")?;
        let window = items_of(alloc, window)?;
        let found = first_push(&rt, alloc, members, &window)?;
        assert_eq!(rt; found.as_str(), want, "{row}");
    }
    Ok(())
}

#[test]
fn codes_tell_their_declaration(rt: HostRuntime) -> Result<(), Fail> {
    let alloc = rt.alloc();
    let first = "prework push 2 { push(7); push(8); }";
    let then = "work push 1 pop 1 { push(-pop()); }";
    let text = format!(in alloc; "int->int filter F {{ {first} {then} }}")?;
    let code = copied(&rt, alloc, &text)?;
    tells_rates_and_blocks(&rt, &code);
    bodies_push(&rt, alloc, &code)
}

// A firing of the prework pushes 7 and 8, and one of the work over 5 pushes its negative.
fn bodies_push(rt: &impl Abort, alloc: Global, code: &Code) -> Result<(), Fail> {
    pushes_are(rt, alloc, code, Body::Prework, &[], &[7, 8])?;
    pushes_are(rt, alloc, code, Body::Work, &[5], &[-5])
}

// One firing of a body of a code pushes these items.
fn pushes_are(
    rt: &impl Abort,
    alloc: Global,
    code: &Code,
    body: Body,
    window: &[i32],
    want: &[i32],
) -> Result<(), Fail> {
    let pushes = fired(rt, alloc, code, body, window)?.expect(rt, "a value");
    assert_eq!(rt; pushes.as_slice(), want);
    Ok(())
}

fn tells_rates_and_blocks(rt: &impl Abort, code: &Code) {
    assert!(rt; code.has_prework() && !code.prints());
    let prework = code.rates(Body::Prework);
    let work = code.rates(Body::Work);
    assert!(rt; prework.push == 2 && work.pop == 1 && work.peek == 1);
    assert!(rt; code.window(Body::Prework) == 0 && code.window(Body::Work) == 1);
    assert!(rt; code.block(Body::Prework).len() == 2 && code.tree().members.len() == 2);
}

#[test]
fn fields_are_kept_and_words_are_printed(rt: HostRuntime) -> Result<(), Fail> {
    let alloc = rt.alloc();
    let text = "void->void filter F { int x = limit; work { print(x); x++; println(-x); } }";
    let code = copied(&rt, alloc, text)?;
    prints_in_both_bodies(&rt, alloc, &code);
    Ok(())
}

// Without a prework each body is the work.
fn prints_in_both_bodies(rt: &impl Abort, alloc: Global, code: &Code) {
    assert!(rt; code.prints() && !code.has_prework());
    let mut state = code.start(alloc).expect(rt, "start");
    let mut frame = code.frame(alloc).expect(rt, "frame");
    let mut words = Vec::new(alloc);
    let window: &[i32] = &[];
    let first = code.fire(Body::Prework, &mut state, &mut frame, &window, &mut words);
    let second = code.fire(Body::Work, &mut state, &mut frame, &window, &mut words);
    assert!(rt; first.is_ok() && second.is_ok());
    words_are(
        rt,
        &words,
        &[(8, false), (-9, true), (9, false), (-10, true)],
    );
}

fn words_are(rt: &impl Abort, words: &[Word], want: &[(i32, bool)]) {
    assert_eq!(rt; words.len(), want.len());
    for (word, (value, ends_line)) in words.iter().zip(want) {
        assert_eq!(rt; word.value, *value);
        assert_eq!(rt; word.ends_line, *ends_line);
    }
}

// The code of a text is copied and dropped, and the copy fired.
fn copy_pushes(rt: &impl Abort, alloc: Global, text: &str, want: i32) -> Result<(), Fail> {
    let copy = copied(rt, alloc, text)?;
    pushes_are(rt, alloc, &copy, Body::Work, &[], &[want])
}

const BEGIN: &str = "void->int filter F { work push 1 { int x; ";

// Nearly a mebibyte of branches.
fn branches(alloc: Global) -> Result<String, AllocError> {
    let mut text = String::from_str(alloc, BEGIN)?;
    for _ in 0..69895 {
        text.push_str("x++;if(x>9)x=0;")?;
    }
    text.push_str("push(x); } }")?;
    Ok(text)
}

// 300 locals.
fn locals(alloc: Global) -> Result<String, AllocError> {
    let mut text = String::from_str(alloc, BEGIN)?;
    for i in 1..300u32 {
        write!(text, "int x{i} = x + {i}; ")?;
    }
    text.push_str("push(x1 + x299); } }")?;
    Ok(text)
}

// 20 arrays of the greatest length.
fn arrays(alloc: Global) -> Result<String, AllocError> {
    let mut text = String::from_str(alloc, BEGIN)?;
    for i in 0..20u32 {
        write!(text, "int[65536] t{i}; t{i}[65535 - {i}] = {i}; ")?;
    }
    text.push_str("push(t7[65528] + t19[65516]); } }")?;
    Ok(text)
}

#[test]
fn large_codes_are_copied(rt: HostRuntime) -> Result<(), Fail> {
    let alloc = rt.alloc();
    copy_pushes(&rt, alloc, &branches(alloc)?, 5)?;
    copy_pushes(&rt, alloc, &locals(alloc)?, 300)?;
    copy_pushes(&rt, alloc, &arrays(alloc)?, 26)
}
