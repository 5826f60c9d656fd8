// Where filters and programs are refused: at the innermost statement, rate or declaration of fields
// around what breaks a rule.

use crate::texts::program;
use std::alloc::Global;
use std::test::Fail;
use strc_elab::elaborate::elaborate_placed;
use strc_lex_names::place::Span;
use strc_parse_tree::tree::StreamTree;
use strc_work::lowering::lower_parts;
use strc_work_meaning::constants::Constants;

/// Where the only filter of a text is refused.
fn refused_at(alloc: Global, text: &str) -> Result<Option<Span>, Fail> {
    let program = program(alloc, text)?;
    let [only] = program.declarations.as_slice() else {
        return Err(Fail::from("several streams"));
    };
    let StreamTree::Filter(filter) = &only.stream else {
        return Err(Fail::from("a pipeline"));
    };
    let constants = Constants::new(alloc);
    let mut here = None;
    let (input, output) = (filter.input, filter.output);
    match lower_parts(alloc, input, output, &filter.members, &constants, &mut here) {
        Ok(_) => Err(Fail::from("accepted")),
        Err(_) => Ok(here),
    }
}

// A row a line: members of a filter int->int, and the part of them where it is refused.
const REFUSED: &str = "\
work push 1 pop 1 { push(pop() + true); } => push(pop() + true);
work push 1 pop 1 { int x = 1; { x = true; } push(pop()); } => x = true;
work push 1 pop 1 { if (pop()) { push(1); } } => if (pop()) { push(1); }
work push 1 pop 1 { if (true) push(true); else push(pop()); } => push(true);
work push 1 pop 1 { if (true) push(1); else push(y); } => push(y);
work push 1 pop 1 { while (1) { } push(pop()); } => while (1) { }
work push 1 pop 1 { while (true) { push(x); } } => push(x);
work push 1 pop 1 { for (int i = true; i < 2; i++) { } } => int i = true;
work push 1 pop 1 { for (int i = 0; i < 2; i++) { i = false; } } => i = false;
work push 1 pop 1 { for (int i = 0; i < 2; j++) { } } => j++
work push 1 pop 1 { for (; 1; ) { } push(pop()); } => for (; 1; ) { }
work push 1 pop 1 { push(pop()); int x = 1; int x = 2; } => int x = 2;
work push 1 pop y { push(pop()); } => pop y
int a, b = true; work push 1 pop 1 { push(pop()); } => int a, b = true
init { pop(); } work push 1 pop 1 { push(pop()); } => pop();
int f(int n) { n = 2; return true; } work push 1 pop 1 { push(pop()); } => return true;
prework push 1 { push(f(2)); } work push 1 pop 1 { push(pop()); } => push(f(2));
";

#[test]
fn the_innermost_statement_is_refused(rt: HostRuntime) -> Result<(), Fail> {
    let alloc = rt.alloc();
    for row in REFUSED.lines() {
        let (members, want) = row.split_once(" => ").ok_or("a row without two parts")?;
        let text = format!(in alloc; "int->int filter F {{ {members} }}")?;
        let place = refused_at(alloc, &text)?.ok_or("no place")?;
        let part = text.as_bytes().get(place.start..place.end);
        assert_eq!(rt; part.ok_or("a place outside")?, want.as_bytes(), "{row}");
    }
    Ok(())
}

#[test]
fn a_filter_with_two_works_is_refused_as_a_whole(rt: HostRuntime) -> Result<(), Fail> {
    let text = "int->int filter F { work push 1 pop 1 { push(1); } work { push(true); } }";
    assert!(rt; refused_at(rt.alloc(), text)?.is_none());
    Ok(())
}

/// Where a text's main stream is refused.
fn program_refused_at(alloc: Global, text: &str) -> Result<Option<Span>, Fail> {
    let program = program(alloc, text)?;
    match elaborate_placed(alloc, &program, None) {
        Ok(_) => Err(Fail::from("accepted")),
        Err(refused) => Ok(refused.place),
    }
}

const ENDS: &str = "void->int filter S { work push 1 { push(1); } } \
    int->void filter T { work pop 1 { print(pop()); } } void->void pipeline P ";

// A row a line: a pipeline between these ends, other streams, and the part where it is refused.
const REFUSED_PROGRAMS: &str = "\
{ add S; for (int i = 0; i < 3; i++) { add T; int k = 1 / (1 - i); } } => add T;
{ add S; for (int i = 0; i < 3; i++) { int k = 1 / (1 - i); } } => int k = 1 / (1 - i);
{ add S; if (true) { add T(1); } } => add T(1);
{ add S; add F(2); } int->void filter F(int n) { work pop n { print(!n); } } => print(!n);
{ add S; add int->void filter { work pop 1 { print(pop() + y); } }; } => print(pop() + y);
{ add S; add E; add T; } int->int pipeline E { } => add E;
{ add S; add E; } int->void pipeline E { while (true) { push(1); } } => push(1);
{ add splitjoin { split roundrobin(true); join roundrobin; }; } => split roundrobin(true);
{ add S; while (true) { } } => while (true) { }
{ add S; add splitjoin { split roundrobin(1, 2); add E; join roundrobin; }; add T; } \
    int->int pipeline E { add Identity<int>; } => split roundrobin(1, 2);
{ add S; add splitjoin { split duplicate; add E; join roundrobin(-1); }; add T; } \
    int->int pipeline E { add Identity<int>; } => join roundrobin(-1);
{ add S; add E; } int->void pipeline E { add Identity<int>; } => add Identity<int>;
{ add E; add T; } void->int pipeline E { add Identity<int>; } => add Identity<int>;
";

#[test]
fn the_innermost_statement_of_a_program_is_refused(rt: HostRuntime) -> Result<(), Fail> {
    let alloc = rt.alloc();
    for row in REFUSED_PROGRAMS.lines() {
        let (streams, want) = row.split_once(" => ").ok_or("a row without two parts")?;
        let text = format!(in alloc; "{ENDS}{streams}")?;
        let place = program_refused_at(alloc, &text)?.ok_or("no place")?;
        let part = text.as_bytes().get(place.start..place.end);
        assert_eq!(rt; part.ok_or("a place outside")?, want.as_bytes(), "{row}");
    }
    Ok(())
}
