// Rates of filters, and which peeks always stay within their window.

use crate::texts::code;
use std::alloc::Global;
use std::test::Fail;
use strc_rate::rates::{Rates, check};

/// The rates of `int->int filter F { int f; BODIES }`.
fn rates_of(alloc: Global, bodies: &str) -> Result<Rates, Fail> {
    let text = format!(in alloc; "int->int filter F {{ int f; {bodies} }}")?;
    let code = code(alloc, &text)?;
    match check(alloc, &code) {
        Ok(rates) => Ok(rates),
        Err(_) => Err(Fail::from("refused")),
    }
}

// A row a line: the rates of the work and its block, and `c` for each peek that is closed, `o` for
// others.
const CLOSED: &str = "\
push 1 pop 1 peek 3 { push(peek(0) + peek(2)); pop(); } => cc
push 1 pop 1 { push(peek(f)); pop(); } => o
push 1 pop 1 { if (1 < 0) f = peek(9); else f = peek(f); push(peek(0)); pop(); } => ooc
push 1 pop 1 { push(peek(peek(0))); pop(); } => co
push 1 pop 1 { push(peek(1 / 0)); pop(); } => o
push 1 pop 4 { f = 0; for (int i = 0; i < 4; i++) f += peek(i); \
    for (int i = 0; i < 4; i++) pop(); push(f); } => c
push 2 pop 2 peek 3 { for (int i = 0; i < 2; i++) { push(peek(1)); pop(); } } => c
push 2 pop 2 { for (int i = 0; i < 2; i++) { push(peek(1)); pop(); } } => o
push 1 pop 2 peek 3 { pop(); push(peek(1)); pop(); } => c
push 1 pop 1 peek 6 { for (int i = 0; i < 3; i++) f = peek(2 * i + 1); push(pop()); } => c
push 1 pop 1 peek 5 { for (int i = 0; i < 3; i++) f = peek(2 * i + 1); push(pop()); } => o
push 1 pop 1 peek 4 { for (int i = 3; i >= 0; i--) f = peek(3 - i) + peek(-i + 3); \
    push(pop()); } => cc
push 1 pop 1 peek 9 { for (int i = 0; i < 2; i++) { int i = f; f = peek(i); } push(pop()); } => o
push 1 pop 1 peek 9 { int i; for (i = 0; i < 2; i++) f = peek(i); push(peek(i)); pop(); } => co
push 1 pop 1 peek 2 { while (f > 0) f = peek(1); push(pop()); } => c
push 1 pop 1 peek 9 { for (int i = 0; i < 2; i++) for (int j = i; j < 2; j++) \
    f = peek(i) + peek(j); push(pop()); } => co
";

#[test]
fn peeks_are_closed_by_their_index(rt: HostRuntime) -> Result<(), Fail> {
    for row in CLOSED.lines() {
        let (work, closed) = row.split_once(" => ").ok_or("a row without two parts")?;
        let bodies = format!(in rt.alloc(); "work {work}")?;
        let rates = rates_of(rt.alloc(), &bodies)?;
        let mut reported = String::new(rt.alloc());
        for is_closed in &rates.work.closed {
            reported.push(if *is_closed { 'c' } else { 'o' })?;
        }
        assert_eq!(rt; reported.as_str(), closed, "{bodies}");
        assert!(rt; rates.prework.is_none(), "{bodies}");
    }
    Ok(())
}

#[test]
fn a_prework_has_rates_of_its_own(rt: HostRuntime) -> Result<(), Fail> {
    let first = "prework pop 2 peek 4 { pop(); f = peek(2) + peek(f); pop(); }";
    let bodies = format!(in rt.alloc(); "{first} work push 1 pop 1 {{ push(pop()); }}")?;
    let rates = rates_of(rt.alloc(), &bodies)?;
    let prework = rates.prework.expect(&rt, "a prework");
    assert_eq!(rt; (prework.push, prework.pop, prework.window), (0, 2, 4));
    assert_eq!(rt; prework.closed.as_slice(), [true, false].as_slice());
    assert_eq!(rt;
        (rates.work.push, rates.work.pop, rates.work.window),
        (1, 1, 1)
    );
    Ok(())
}
