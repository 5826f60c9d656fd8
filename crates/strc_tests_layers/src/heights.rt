// Texts at the limit of heights, and long texts that are not high.

use std::alloc::{AllocError, Global};
use std::process::Abort;
use std::test::Fail;
use strc_lex::lexer::lex;
use strc_parse::{ParseError, one_tree, parse};

// A text with a part that is written so many times in a row, and another one after what follows it.
fn repeated(
    alloc: Global,
    front: &str,
    level: (&str, &str),
    times: usize,
    inner: &str,
    back: &str,
) -> Result<String, AllocError> {
    let (open, close) = level;
    let mut text = String::from_str(alloc, front)?;
    for _ in 0..times {
        text.push_str(open)?;
    }
    text.push_str(inner)?;
    for _ in 0..times {
        text.push_str(close)?;
    }
    text.push_str(back)?;
    Ok(text)
}

// A text with a level, which is written so many times.
#[derive(Clone, Copy)]
struct Row<'a> {
    front: &'a str,
    level: (&'a str, &'a str),
    most: usize,
    inner: &'a str,
    back: &'a str,
}

// The row of a line: before, what opens and closes a level, the number of levels, between, after.
fn row_of(line: &str) -> Option<Row<'_>> {
    let mut parts = line.split('@');
    let front = parts.next()?;
    let open = parts.next()?;
    let close = parts.next()?;
    let most = parts.next()?.parse().ok()?;
    let inner = parts.next()?;
    let back = parts.next()?;
    Some(Row {
        front,
        level: (open, close),
        most,
        inner,
        back,
    })
}

// Why a text is no tree, where it is none.
fn failure(alloc: Global, text: &str) -> Result<Option<ParseError>, Fail> {
    let tokens = lex(alloc, text.as_bytes())?;
    Ok(parse(alloc, &tokens).err())
}

// Compares each row at its greatest number of levels, and at one less and one more.
fn compare(rt: &impl Abort, alloc: Global, begin: &str, rows: &str, end: &str) -> Result<(), Fail> {
    for line in rows.lines() {
        let row = row_of(line).ok_or("a row without six parts")?;
        let front = format!(in alloc; "{begin}{}", row.front)?;
        for times in [
            usize::saturating_sub(row.most, 1),
            row.most,
            usize::saturating_add(row.most, 1),
        ] {
            compare_at(rt, alloc, times, &front, &row, end)?;
        }
    }
    Ok(())
}

// Compares a row, of which the text begins so, at this number of levels.
fn compare_at(
    rt: &impl Abort,
    alloc: Global,
    times: usize,
    front: &str,
    row: &Row<'_>,
    end: &str,
) -> Result<(), Fail> {
    let mut text = repeated(alloc, front, row.level, times, row.inner, row.back)?;
    text.push_str(end)?;
    let want = (times > row.most).then_some(ParseError::Nesting);
    assert_eq!(rt; failure(alloc, &text)?, want, "{times} times at {front}");
    Ok(())
}

const STATEMENTS: &str = "\
push(@(@)@254@1@);
@{@}@256@@
x =@- @@254@1@;
@1 +@@254@1@;
@1 +@@254@(1@);
a = 1 &&@b ||@@253@c@;
@b ? 1 :@@254@2@;
@b ?@: 2@254@1@;
@a[@]@254@i@;
@a[@]@253@i@++;
++@a[@]@253@i@;
@a[@]@254@i@= 1;
b[0] =@a[@]@254@i@;
@peek(@)@254@i@;
int[@(@)@254@2@] a;
int a, b = 1, c =@(@)@254@2@, d;
@if (b) @@255@;@
@if (b) x; else @@254@x;@
@if (b) ; else @@255@;@
@if (b) @@255@;@else ;
@while (b) @@255@;@
@for (;;) @@255@;@
for (@(@)@253@1@;;) ;
for (;@(@)@254@1@;) ;
for (;;@(@)@253@1@) ;
while (@(@)@254@1@) ;
";

#[test]
fn heights_of_statements_are_limited(rt: HostRuntime) -> Result<(), Fail> {
    let begin = "void->int filter A { work push 1 { ";
    compare(&rt, rt.alloc(), begin, STATEMENTS, " } }")
}

// A member has the height of its highest statement or expression.
const MEMBERS: &str = "\
int x =@- @@255@1@;
int[@- @@255@1@] x;
work push@- @@255@1@{ }
prework pop 1 peek@- @@255@1@{ }
";

// A child is a node below its statement, and its own statements and expressions are below it.
const CHILDREN: &str = "\
@add pipeline {@}@128@@
@add int->int splitjoin {@}@128@@
@add pipeline {@}@127@;@
@add int->int filter { work {@} }@128@@
@add int->int filter { init { {@} } }@85@@
@{@}@254@add A;@
@{@}@254@join roundrobin;@
add A(@- @@253@1@);
add A(1,@- @@253@1@);
enqueue @- @@254@1@;
split roundrobin(@- @@253@1@);
join roundrobin(@- @@253@1@, 2);
add int->int filter { work push @- @@253@1@{ } }
";

#[test]
fn heights_of_members_and_children_are_limited(rt: HostRuntime) -> Result<(), Fail> {
    compare(&rt, rt.alloc(), "int->void filter A { ", MEMBERS, " }")?;
    compare(&rt, rt.alloc(), "void->void pipeline P { ", CHILDREN, " }")
}

const LONG: &str = "\
void->int filter A { work push 1 {@if (a[1] < 2) x += 1; else y--;@@30000@} }@
int->int filter A { int a@, b = 2@@50000@; }@
int->int filter F(int a@, int b@@30000@) { }@
int->int pipeline P { add A(0@, 1@@30000@); }@
int->int pipeline P {@add A;@@10000@}@
int->int pipeline P {@add pipeline { }@@20000@}@
";

#[test]
fn long_texts_are_not_high(rt: HostRuntime) -> Result<(), Fail> {
    let alloc = rt.alloc();
    for line in LONG.lines() {
        let row = row_of(line).ok_or("a row without six parts")?;
        let text = repeated(alloc, row.front, row.level, row.most, row.inner, row.back)?;
        assert_eq!(rt; failure(alloc, &text)?, None, "{line}");
    }
    one_tree();
    Ok(())
}
