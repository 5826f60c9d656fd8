// The units, sizes and stages of a program with lists of so many entries.

use std::alloc::Global;
use std::process::Abort;
use std::test::Fail;
use strc_run::compile::{Plan, compile};
use strc_run::options::Options;
use strc_stage_plan::bounds::stage_bounds;

/// A reader, a filter that gives two items for one, one that takes three, and a writer.
const TEXT: &[u8] = b"
int->int filter Pair { work push 2 pop 1 { int x = pop(); push(x); push(-x); } }
int->int filter Sum { work push 1 pop 3 { push(pop() + pop() + pop()); } }
void->void pipeline Main {
    add FileReader<int>(\"in\");
    add Pair;
    add Sum;
    add FileWriter<int>(\"out\");
}
";

/// How many entries a list may have, then the units, the sizes, and the stages of 64 workers.
const ROWS: [&str; 8] = [
    "0|3x0 3x1 2x2 2x3|3 6 2|0 1 2 3 4",
    "1|3x0 3x1 2x2 2x3|3 6 2|0 1 2 3 4",
    "2|3x0.1 2x2.3|1 6 1|0 2 4",
    "7|3x0.1 2x2.3|1 6 1|0 2 4",
    "8|1x0.1.0.1.0.1.2.2 2x3|1 6 2|0 3 4",
    "9|1x0.1.0.1.0.1.2.2 2x3|1 6 2|0 3 4",
    "10|1x0.1.0.1.0.1.2.2.3.3|1 6 2|0 4",
    "65536|1x0.1.0.1.0.1.2.2.3.3|1 6 2|0 4",
];

/// Numbers with a mark between them.
fn listed(alloc: Global, numbers: &[usize], mark: &str) -> Result<String, Fail> {
    let mut text = String::new(alloc);
    for (place, number) in numbers.iter().enumerate() {
        let before = if place == 0 { "" } else { mark };
        text.push_str(&format!(in alloc; "{before}{number}")?)?;
    }
    Ok(text)
}

/// Small numbers, as they are indexed.
fn widened(alloc: Global, numbers: &[u32]) -> Result<Vec<usize>, Fail> {
    let mut wide = Vec::with_capacity(alloc, numbers.len())?;
    for number in numbers {
        wide.push(*number as usize)?;
    }
    Ok(wide)
}

/// The units of the round that is run.
fn units_of(alloc: Global, plan: &Plan) -> Result<String, Fail> {
    let mut text = String::new(alloc);
    for (place, unit) in plan.transformed_schedule().round().iter().enumerate() {
        let before = if place == 0 { "" } else { " " };
        let turns = unit.turns;
        let nodes = listed(alloc, &widened(alloc, &unit.nodes)?, ".")?;
        text.push_str(&format!(in alloc; "{before}{turns}x{nodes}")?)?;
    }
    Ok(text)
}

/// A row with these numbers is what the program's plan comes to.
fn compare_row(rt: &impl Abort, alloc: Global, row: &str) -> Result<(), Fail> {
    let (threshold, wanted) = row.split_once("|").ok_or("no threshold")?;
    let fuse: Option<u32> = threshold.parse().ok();
    let options = Options {
        main: None,
        ways: 1,
        fuse: fuse.ok_or("no number")?,
    };
    let plan = compile(alloc, TEXT, &options).ok().ok_or("no plan")?;
    let units = units_of(alloc, &plan)?;
    let sizes = listed(alloc, &widened(alloc, plan.transformed_sizes())?, " ")?;
    plan.known();
    let round = plan.transformed_schedule().round();
    let bounds = stage_bounds(alloc, plan.transformed_graph(), round, 64)?;
    let bounds = listed(alloc, &bounds, " ")?;
    let found = format!(in alloc; "{units}|{sizes}|{bounds}")?;
    assert_eq!(rt; found.as_str(), wanted, "{threshold}");
    let before = listed(alloc, &widened(alloc, plan.sizes())?, " ")?;
    assert_eq!(rt; before.as_str(), "3 6 2", "{threshold}");
    Ok(())
}

#[test]
fn units_are_fused_up_to_a_list_of_so_many_entries(rt: HostRuntime) -> Result<(), Fail> {
    let alloc = rt.alloc();
    for row in ROWS {
        compare_row(&rt, alloc, row)?;
    }
    Ok(())
}
