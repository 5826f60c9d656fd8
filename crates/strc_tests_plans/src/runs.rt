// The words that runs of small graphs write, each worked out by hand from what its nodes do: a
// reader gives the input item by item, a writer ends a line after each item, a splitter deals its
// items to its ports in turn, and a joiner takes them in turn.

ghost use Rattle.std.specs.Prelude.{◌↔◌, map, All, IfOk, IsTrue};
ghost use Rattle.strc_elab_graph.specs.Connections.{IsConnected};
ghost use Rattle.strc_elab_graph.specs.NodeView.{graph_view, node_view};
ghost use Rattle.strc_balance.specs.Rates.{IsRated, equations_of};
ghost use Rattle.strc_sched_laws.specs.Planned.{IsPlanned};
ghost use Rattle.strc_tests_plans.specs.Movers.{PassesOn};

use crate::small_graphs::{ends_of, graph_with, items_of, nodes_of, row_of};
use std::alloc::{AllocError, Global};
use std::process::Abort;
use std::test::Fail;
use strc_balance::balance::balance;
use strc_balance::condition::can_balance;
use strc_elab_graph::graph::{Graph, Node};
use strc_sched::outcome::{Outcome, Tape};
use strc_sched::plain::run_plain;
use strc_sched::run_refusal::RunRefusal;
use strc_sched_orders::laws::schedules_are_runnable;
use strc_sched_orders::parts::Schedule;
use strc_sched_orders::scheduler::schedule;
use strc_startup::startup::startup;
use strc_work_meaning::word::Word;

/// Each graph, after `graph`: its nodes, its channels and the items that are enqueued on the last
/// one. Below it a row a line: the input, so many rounds, and the answer, in which `/` ends a line.
const CASES: &str = "\
graph reader writer|0.0-1.0|
5 -3 8|3=5/-3/8/
-2147483648 2147483647|2=-2147483648/2147483647/
# No rounds, and no input where there is nothing to read.
1 2|0=
|0=
# What the rounds don't read is left.
1 2 3|2=1/2/
# An input with one item too few.
|1=needs 1 and got 0
1 2|3=needs 3 and got 2
graph reader identity writer|0.0-1.0 1.0-2.0|
5 -3 8 0 5|5=5/-3/8/0/5/
# Enqueued items come before the first item of the input.
graph reader writer|0.0-1.0|8 9
1 2 3 4|4=8/9/1/2/
|0=
1|2=needs 2 and got 1
graph reader identity|0.0-1.0|
1 2|2=
graph ||
|3=
# A splitter and a joiner with the same weights, with weights in the same ratio, and with the
# branches crossed.
graph reader split:2:1 identity identity join:2:1 writer \
    |0.0-1.0 1.0-2.0 1.1-3.0 2.0-4.0 3.0-4.1 4.0-5.0|
1 2 3 4 5|1=1/2/3/
1 2 3 4 5|2=needs 6 and got 5
1 2 3 4 5 6|2=1/2/3/4/5/6/
# Of each two items of the input the first goes round the loop.
graph reader join:2:1 identity split:1:2 identity writer \
    |0.0-1.0 1.0-2.0 2.0-3.0 3.1-5.0 3.0-4.0 4.0-1.1|10
1 2 3|2=needs 4 and got 3
# It gives 1 2 10, 3 4 1 and 5 6 3.
1 2 3 4 5 6|3=2/10/4/1/6/3/
# Of three items one goes to port 0 and two to port 1; at the other port there is no channel.
graph reader split:1:2 writer|0.0-1.0 1.0-2.0|
# 1,000,000,000 rounds read 3,000,000,000 items.
1|1000000000=needs 3000000000 and got 1
1 2 3 4 5 6|2=1/4/
graph reader split:1:2 writer|0.0-1.0 1.1-2.0|
1 2 3 4 5 6|2=2/3/5/6/
# Each item on both branches, joined item by item, and two by two.
graph reader duplicate identity identity join:1:1 writer \
    |0.0-1.0 1.0-2.0 1.1-3.0 2.0-4.0 3.0-4.1 4.0-5.0|
1 2 3|3=1/1/2/2/3/3/
graph reader duplicate identity identity join:2:2 writer \
    |0.0-1.0 1.0-2.0 1.1-3.0 2.0-4.0 3.0-4.1 4.0-5.0|
1 2 3 4|2=1/2/1/2/3/4/3/4/
# Each of two writers has a tape of its own.
graph reader duplicate writer writer|0.0-1.0 1.0-2.0 1.1-3.0|
7 8|2=7/8/;7/8/
7 8|0=;
# The second branch hands the first of each two items on.
graph reader duplicate identity split:1:1 join:2:1 writer \
    |0.0-1.0 1.0-2.0 1.1-3.0 2.0-4.0 3.0-4.1 4.0-5.0|
1 2 3 4|2=1/2/1/3/4/3/
graph reader split:2:1 identity identity join:4:2 writer \
    |0.0-1.0 1.0-2.0 1.1-3.0 2.0-4.0 3.0-4.1 4.0-5.0|
# The branches hold 1 2 4 5 7 8 10 11 and 3 6 9 12.
1 2 3 4 5 6 7 8 9 10 11 12|2=1/2/4/5/3/6/7/8/10/11/9/12/
graph reader split:4:2 identity identity join:2:1 writer \
    |0.0-1.0 1.0-2.0 1.1-3.0 2.0-4.0 3.0-4.1 4.0-5.0|
# They hold 1 2 3 4 7 8 9 10 and 5 6 11 12.
1 2 3 4 5 6 7 8 9 10 11 12|2=1/2/5/3/4/6/7/8/11/9/10/12/
graph reader split:2:2 identity identity join:3:3 writer \
    |0.0-1.0 1.0-2.0 1.1-3.0 2.0-4.0 3.0-4.1 4.0-5.0|
# They hold 1 2 5 6 9 10 and 3 4 7 8 11 12.
1 2 3 4 5 6 7 8 9 10 11 12|1=1/2/5/3/4/7/6/9/10/8/11/12/
graph reader split:2:1 identity identity join:1:2 writer \
    |0.0-1.0 1.0-2.0 1.1-3.0 2.0-4.1 3.0-4.0 4.0-5.0|
# The joiner takes 3 6 at port 0 and 1 2 4 5 at port 1.
1 2 3 4 5 6|2=3/1/2/6/4/5/
# A port of weight 0 has no channel.
graph reader split:2:0 identity join:3:0 writer|0.0-1.0 1.0-2.0 2.0-3.0 3.0-4.0|
1 2 3 4 5 6|1=1/2/3/4/5/6/
graph reader split:0:2 identity join:0:3 writer|0.0-1.0 1.1-2.0 2.0-3.1 3.0-4.0|
1 2 3 4 5 6|1=1/2/3/4/5/6/
# A loop whose enqueued item comes back to its joiner each time, and one that gives it out and
# takes an item of the input in its place.
graph reader join:1:1 identity split:1:1 identity writer \
    |0.0-1.0 1.0-2.0 2.0-3.0 3.0-5.0 3.1-4.0 4.0-1.1|10
# The joiner gives 1 10, 2 10 and 3 10, and each 10 goes round.
1 2 3|3=1/2/3/
graph reader join:1:1 identity split:1:1 identity writer \
    |0.0-1.0 1.0-2.0 2.0-3.0 3.1-5.0 3.0-4.0 4.0-1.1|10
# It gives 1 10, 2 1 and 3 2, and the first of each two goes round.
1 2 3|3=10/1/2/
1 2 3|0=
graph reader join:1:1 identity split:1:1 identity writer \
    |0.0-1.0 1.0-2.0 2.0-3.0 3.1-5.0 3.0-4.0 4.0-1.1|10 20
# It gives 1 10, 2 20, 3 1 and 4 2.
1 2 3 4|4=10/20/1/2/
# Of three items on the loop two are taken at once, so that they can lie at both ends of its
# ring.
graph reader join:1:2 identity split:2:1 identity writer \
    |0.0-1.0 1.0-2.0 2.0-3.0 3.1-5.0 3.0-4.0 4.0-1.1|10 20 30
# It gives 1 10 20, 2 30 1, 3 10 2, 4 30 3 and 5 10 4.
1 2 3 4 5|5=20/1/2/3/4/
# Two items that go round, without any input.
graph duplicate identity writer|0.0-1.0 0.1-2.0 1.0-0.0|7 8
|5=7/8/7/8/7/
1|0=
";

/// Whether no node is a filter, nor one of a filter's fission.
fn pass_on(nodes: &[Node]) -> bool
    ensures { IsTrue result ↔ All PassesOn (map node_view nodes.now) }
{
    for node in nodes {
        if !passes_on(node) {
            return false;
        }
    }
    true
}

fn passes_on(node: &Node) -> bool
    ensures { IsTrue result ↔ PassesOn (node_view node.now) }
{
    match node {
        Node::Identity
        | Node::FileReader(_)
        | Node::FileWriter(_)
        | Node::Splitter(_)
        | Node::Joiner(_) => true,
        Node::Filter(_) | Node::Scatter(_) | Node::Copy(_, _) | Node::Gather(_) => false,
    }
}

/// The schedule of a graph's least counts.
fn plan(alloc: Global, graph: &Graph) -> Result<Schedule, Fail>
    requires pass_on { All PassesOn (map node_view graph.now.nodes) }
    requires rated { All IsRated (equations_of (graph_view graph.now)) }
    requires connected { IsConnected (graph_view graph.now) }
    ensures { IfOk result (IsPlanned (graph_view graph.now)) }
{
    let Ok(round) = balance(alloc, graph) else {
        return Err(Fail::from("no counts of a round"));
    };
    let Ok(before) = startup(alloc, graph, &round) else {
        return Err(Fail::from("no counts of start-up"));
    };
    schedules_are_runnable();
    match schedule(alloc, graph, &before, &round) {
        Ok(schedule) => Ok(schedule),
        Err(_) => Err(Fail::from("no schedule")),
    }
}

/// What so many rounds write, or the number of items that they need and that they got.
fn answer_of(alloc: Global, graph: &Graph, input: &[i32], rounds: u32) -> Result<String, Fail> {
    if !pass_on(graph.nodes()) {
        return Err(Fail::from("a filter"));
    }
    let Ok(true) = can_balance(alloc, graph) else {
        return Err(Fail::from("outside the condition"));
    };
    let schedule = plan(alloc, graph)?;
    match run_plain(alloc, graph, &schedule, input, rounds) {
        Ok(Outcome::Done(tapes)) => Ok(tapes_of(alloc, &tapes)?),
        Ok(Outcome::Fault { .. }) => Err(Fail::from("a fault")),
        Err(RunRefusal::InputShort { need, got }) => {
            Ok(format!(in alloc; "needs {need} and got {got}")?)
        }
        Err(_) => Err(Fail::from("no run")),
    }
}

/// Tapes as a text, each after the first one behind a semicolon.
fn tapes_of(alloc: Global, tapes: &[Tape]) -> Result<String, AllocError> {
    let mut text = String::new(alloc);
    for (number, tape) in tapes.iter().enumerate() {
        if number > 0 {
            text.push_str(";")?;
        }
        text.push_str(&lines_of(alloc, &tape.words)?)?;
    }
    Ok(text)
}

/// Words as a text, each with a slash after it where it ends its line, or else a space.
fn lines_of(alloc: Global, words: &[Word]) -> Result<String, AllocError> {
    let mut text = String::new(alloc);
    for word in words {
        let end = if word.ends_line { "/" } else { " " };
        text.push_str(&format!(in alloc; "{}{end}", word.value)?)?;
    }
    Ok(text)
}

/// The graph of a text: its nodes, its channels and the items on the last channel.
fn graph_of(rt: &impl Abort, alloc: Global, text: &str) -> Result<Graph, Fail> {
    let (nodes, rest) = text.split_once("|").ok_or("no channels")?;
    let (ends, items) = rest.split_once("|").ok_or("no items")?;
    let (nodes, ends) = (nodes_of(alloc, nodes)?, ends_of(alloc, ends)?);
    let items = items_of(alloc, items)?;
    Ok(graph_with(rt, alloc, nodes, &ends, &items)?)
}

/// What a graph writes for the input and the rounds of a text.
fn answer_for(alloc: Global, graph: &Graph, given: &str) -> Result<String, Fail> {
    let (input, rounds) = given.split_once("|").ok_or("no rounds")?;
    let rounds: Option<u32> = rounds.parse().ok();
    let input = items_of(alloc, input)?;
    answer_of(alloc, graph, &input, rounds.ok_or("no number of rounds")?)
}

#[test]
fn runs(rt: HostRuntime) -> Result<(), Fail> {
    let alloc = rt.alloc();
    let mut graph = graph_of(&rt, alloc, "||")?;
    for line in CASES.lines() {
        if let Some(text) = line.strip_prefix("graph ") {
            graph = graph_of(&rt, alloc, text)?;
            continue;
        }
        let Some((given, expected)) = row_of(line)? else {
            continue;
        };
        let answer = answer_for(alloc, &graph, given)?;
        assert_eq!(rt; answer.as_str(), expected, "{line}");
    }
    Ok(())
}
