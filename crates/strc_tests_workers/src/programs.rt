// Programs of different shapes, and what each comes to.

use std::alloc::Global;
use std::test::Fail;
use strc_run::compile::{Plan, compile};
use strc_run::options::Options;

/// What the programs are made of.
const FILTERS: &str = "\
void->int pipeline R { add FileReader<int>(\"in\"); }
int->void pipeline W { add FileWriter<int>(\"out\"); }
void->int filter Numbers { int x; work push 1 { push(x++); } }
int->void filter Line { work pop 1 { println(pop()); } }
int->int filter Show { work push 1 pop 1 { print(peek(0)); push(pop()); } }
int->int filter MovSum(int n) {
    work push 1 pop 1 peek n { int s; for (int i = 0; i < n; i++) s += peek(i); push(s); pop(); }
}
int->int filter Sum(int n) {
    work push 1 pop n { int s; for (int i = 0; i < n; i++) s += pop(); push(s); }
}
int->int filter Negative { work push 1 pop 1 { push(-pop()); } }
int->int filter Delay { prework push 1 { push(0); } work push 1 pop 1 { push(pop()); } }
int->int filter Inv { work push 1 pop 1 { push(100 / pop()); } }
int->int filter Shifted { work push 1 pop 1 { push(100 / (pop() - 50)); } }
void->int filter Falling { int x; work push 1 { push(7 / (20 - x)); x++; } }
int->int filter Rising { work push 1 pop 1 { push(7 / (20 - pop())); } }
int->int feedbackloop Running {
    join roundrobin(1, 1);
    body Sum(2);
    loop Identity<int>;
    split duplicate;
    enqueue 0;
}
int->int filter Next { work push 1 pop 1 peek 2 { push(peek(1) + pop()); } }
void->int feedbackloop Fibonacci {
    join roundrobin(0, 1);
    body Next;
    loop Identity<int>;
    split duplicate;
    enqueue 0;
    enqueue 1;
}
";

/// A program a row: its name, how many rounds it has, its input, its outcome and its children.
pub const PROGRAMS: [&str; 14] = [
    // Windows and rates above 1.
    "moving sums|2|1 2 3 4 5 6 7 8 9 10|42/90/\
    |add R; add MovSum(3); add Sum(4); add W;",
    "no faults|3|1 1 1|2/2/2/\
    |add R; add Inv; add Shifted; add W;",
    // The second filter faults in round 1, the first one in round 2, which is not told.
    "faults of two nodes|10|1 2 0 1 1 1 1 1 1 1|2/ fault DivZero node 2 firing 1 round 1\
    |add R; add Inv; add Shifted; add W;",
    // Here the first filter's fault is in the last round, so that its parcel is the last one too.
    "faults of two nodes in few rounds|3|1 2 0|2/ fault DivZero node 2 firing 1 round 1\
    |add R; add Inv; add Shifted; add W;",
    "weights|2|1 2 3 4 5 6|1/2/-3/4/5/-6/\
    |add R; add splitjoin { split roundrobin(2, 1); add Identity<int>; add Negative; \
    join roundrobin(2, 1); }; add W;",
    "a loop between nodes|6|1 2 3 4 5 6|1/3/6/10/15/21/\
    |add R; add Running; add W;",
    "three tapes|4|1 2 3 4 5 6 7 8|1 2 3 4 5 6 7 8 ;3 7 11 15 ;3/7/11/15/\
    |add R; add Show; add Sum(2); add Show; add W;",
    // The first sums are 3 5 7 9 11 13 15.
    "peeks after peeks|5|1 2 3 4 5 6 7 8|15/21/27/33/39/\
    |add R; add MovSum(2); add MovSum(3); add W;",
    "preworks|6|7 8 9 4 5 6|0 7 8 9 4 5 ;0/0/7/8/9/4/\
    |add R; add Delay; add Show; add Delay; add W;",
    "a fault in a late round|30||0/0/0/0/0/0/0/0/0/0/0/0/0/1/1/1/1/2/3/7/ \
    fault DivZero node 1 firing 20 round 20\
    |add Numbers; add Rising; add Line;",
    "faults of two nodes in one round|6|1 2 4 0 3 5|100/100/50/50/25/25/ \
    fault DivZero node 2 firing 3 round 3\
    |add R; add splitjoin { split duplicate; add Inv; add Inv; join roundrobin; }; add W;",
    "a loop in a split-join|4|1 2 3 4|1/1/3/2/6/3/10/4/\
    |add R; add splitjoin { split duplicate; add Running; add Identity<int>; \
    join roundrobin; }; add W;",
    "a loop without input|8||1/2/3/5/8/13/21/34/\
    |add Fibonacci; add Line;",
    "a fault of start-up|1|0 1 2| fault DivZero node 1 firing 0 startup\
    |add R; add Inv; add MovSum(3); add W;",
];

/// A program's plan, what it is run with, and what that comes to.
#[derive(Drop)]
pub struct Case<'a> {
    pub name: &'a str,
    pub plan: Plan,
    pub input: Vec<i32>,
    pub rounds: u32,
    pub wanted: &'a str,
}

/// The case of a row.
pub fn case_of(alloc: Global, row: &str) -> Result<Case<'_>, Fail> {
    case_with(alloc, row, 1, 0)
}

/// The case of a row, with two copies of each filter that can have them, and with fused units.
pub fn split_case_of(alloc: Global, row: &str) -> Result<Case<'_>, Fail> {
    case_with(alloc, row, 2, 8)
}

/// The case of a row, with so many ways, and with units fused up to so many entries.
fn case_with(alloc: Global, row: &str, ways: u32, fuse: u32) -> Result<Case<'_>, Fail> {
    let (name, rest) = row.split_once("|").ok_or("no rounds")?;
    let (rounds, rest) = rest.split_once("|").ok_or("no input")?;
    let (input, rest) = rest.split_once("|").ok_or("no outcome")?;
    let (wanted, children) = rest.split_once("|").ok_or("no children")?;
    let rounds: Option<u32> = rounds.parse().ok();
    Ok(Case {
        name,
        plan: plan_of(alloc, children, ways, fuse)?,
        input: items_of(alloc, input)?,
        rounds: rounds.ok_or("no number of rounds")?,
        wanted,
    })
}

/// The plan of a pipeline of these children.
fn plan_of(alloc: Global, children: &str, ways: u32, fuse: u32) -> Result<Plan, Fail> {
    let text = format!(in alloc; "{FILTERS}void->void pipeline Main {{ {children} }}\n")?;
    let options = Options {
        main: None,
        ways,
        fuse,
    };
    let plan = compile(alloc, text.as_bytes(), &options).ok();
    Ok(plan.ok_or("no plan")?)
}

/// The numbers of a text.
fn items_of(alloc: Global, text: &str) -> Result<Vec<i32>, Fail> {
    let mut items = Vec::new(alloc);
    for word in text.split_whitespace() {
        let item: Option<i32> = word.parse().ok();
        items.push(item.ok_or("no item")?)?;
    }
    Ok(items)
}
