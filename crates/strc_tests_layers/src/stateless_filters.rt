// Small filters with a field and an array of fields, and whether they have no state.

use crate::texts::code;
use std::alloc::Global;
use std::test::Fail;
use strc_rate::stateless::stateless;

// A row a line: the members of a filter after its fields, and whether it has no state.
const ROWS: &str = "\
work push 1 pop 1 { push(pop() + x + a[1]); } => true
init { x = 1; a[1] = 2; } work push 1 pop 1 { push(pop() + x); } => true
work push 1 pop 1 { x = pop(); push(x); } => false
work push 1 pop 1 { int x = pop(); x += 1; push(x); } => true
work push 1 pop 1 { { int x = 1; x++; } x++; push(pop()); } => false
work push 1 pop 1 { int x = x++; push(pop() + x); } => false
work push 1 pop 1 { for (int x = 0; x < 3; x++) { int y = x; } push(pop()); } => true
work push 1 pop 1 { for (x = 0; x < 3; x++) { int y = x; } push(pop()); } => false
work push 1 pop 1 { if (pop() > 0) { int[2] a; a[0] = 1; } push(1); } => true
work push 1 pop 1 { a[1] += pop(); push(a[1]); } => false
work push 1 pop 1 peek 4 { push(peek(a[1]++)); pop(); } => false
work push 1 pop 1 { println(1); push(pop()); } => false
prework push 1 { push(1); } work push 1 pop 1 { push(pop()); } => false
int f(int n) { return n + x; } work push 1 pop 1 { push(f(pop())); } => true
void f() { x++; } work push 1 pop 1 { push(pop()); } => true
void f() { x++; } work push 1 pop 1 { f(); push(pop()); } => false
void f() { x++; } void g() { f(); } work push 1 pop 1 { g(); push(pop()); } => false
void g() { f(); } void f() { x++; } work push 1 pop 1 { g(); push(pop()); } => false
int f(int x) { x = 1; return x; } work push 1 pop 1 { push(f(pop())); } => true
void f() { if (x > 0) g(); } void g() { f(); } work push 1 pop 1 { f(); push(pop()); } => true
void f() { g(); } void g() { x = 1; f(); } work push 1 pop 1 { f(); push(pop()); } => false
";

// How long chains of helper functions are, each called by the one before it.
const CHAINS: [usize; 6] = [1, 2, 63, 64, 65, 300];

#[test]
fn a_filter_without_state_writes_no_field(rt: HostRuntime) -> Result<(), Fail> {
    let alloc = rt.alloc();
    for row in ROWS.lines() {
        let (members, expected) = row.split_once(" => ").ok_or("a row without two parts")?;
        let text = format!(in alloc; "int->int filter F {{ int x; int[4] a; {members} }}")?;
        let is_stateless = stateless(&code(alloc, &text)?);
        assert_eq!(rt; is_stateless, expected == "true", "{members}");
    }
    Ok(())
}

/// The text of a filter whose work calls the first of so many helper functions, each of which calls
/// the next one. The last has this statement.
fn chain(alloc: Global, length: usize, last: &str) -> Result<String, Fail> {
    let mut text = String::from_str(alloc, "int->int filter F { int x; ")?;
    for number in 1..length {
        let next = number.saturating_add(1);
        text.push_str(&format!(in alloc; "void f{number}() {{ f{next}(); }} ")?)?;
    }
    text.push_str(&format!(in alloc; "void f{length}() {{ {last} }} ")?)?;
    text.push_str("work push 1 pop 1 { f1(); push(pop()); } }")?;
    Ok(text)
}

#[test]
fn a_write_is_seen_through_however_many_calls(rt: HostRuntime) -> Result<(), Fail> {
    let alloc = rt.alloc();
    for length in CHAINS {
        let writes = chain(alloc, length, "x = 1;")?;
        assert!(rt;
            !stateless(&code(alloc, &writes)?),
            "a chain of {length} that writes"
        );
        let reads = chain(alloc, length, "int y = x;")?;
        assert!(rt;
            stateless(&code(alloc, &reads)?),
            "a chain of {length} that reads"
        );
    }
    Ok(())
}
