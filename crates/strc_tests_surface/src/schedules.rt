// From a graph to its counts and its schedules, before and after fusion and fission, and its run on
// one thread.

ghost use Rattle.std.specs.Prelude.{All, IfOk};
ghost use Rattle.strc_balance.specs.Rates.{IsRated, equations_of};
ghost use Rattle.strc_elab_graph.specs.Connections.{IsConnected};
ghost use Rattle.strc_elab_graph.specs.NodeView.{graph_view};
ghost use Rattle.strc_fuse.specs.Laws.{CanBeFused};

use crate::front::graph_of;
use crate::programs::{MOVING_SUMS, PAIRS, SUMS_OF_SUMS, plan_of, text_of, values_of};
use std::alloc::Global;
use std::test::Fail;
use strc_balance::balance::balance;
use strc_balance::condition::can_balance;
use strc_balance::counts::Counts;
use strc_balance::error::BalanceError;
use strc_elab::graph::Graph;
use strc_fiss::error::FissError;
use strc_fiss::fission::fission;
use strc_fiss::split::{Origin, Split};
use strc_fuse::error::FuseError;
use strc_fuse::fuse::fuse;
use strc_fuse::laws::schedules_can_be_fused;
use strc_sched::buffer_sizes::sizes;
use strc_sched::error::ScheduleError;
use strc_sched::outcome::Outcome;
use strc_sched::parts::Schedule;
use strc_sched::plain::run_plain;
use strc_sched::run_refusal::RunRefusal;
use strc_sched::scheduler::schedule;
use strc_sched::unit::Unit;
use strc_startup::error::StartupError;
use strc_startup::startup::startup;

/// A graph's counts, before the first round and in each, and its schedule.
#[derive(Drop)]
struct Planned {
    startup: Counts,
    round: Counts,
    schedule: Schedule,
}

/// The graph of a pipeline of these children, and what is planned of it.
fn planned_of(alloc: Global, graph: &Graph) -> Result<Planned, Fail>
    requires rated { All IsRated (equations_of (graph_view graph.now)) }
    requires connected { IsConnected (graph_view graph.now) }
    ensures { IfOk result (λ planned. CanBeFused (graph_view graph.now) planned.schedule) }
{
    let Ok(round): Result<Counts, BalanceError> = balance(alloc, graph) else {
        return Err(Fail::from("no counts of a round"));
    };
    let Ok(before): Result<Counts, StartupError> = startup(alloc, graph, &round) else {
        return Err(Fail::from("no counts of start-up"));
    };
    schedules_can_be_fused();
    match schedule(alloc, graph, &before, &round) {
        Ok(schedule) => Ok(Planned {
            startup: before,
            round,
            schedule,
        }),
        Err(error) => Err(no_schedule(&error)),
    }
}

/// What a test says where there is no schedule.
fn no_schedule(_error: &ScheduleError) -> Fail {
    Fail::from("no schedule")
}

/// A unit's turns and its nodes.
fn unit_of(unit: &Unit) -> (u32, &[u32]) {
    (unit.turns, unit.nodes.as_slice())
}

#[test]
fn windows_are_filled_before_the_first_round(rt: HostRuntime) -> Result<(), Fail> {
    let alloc = rt.alloc();
    let graph = graph_of(alloc, &text_of(alloc, MOVING_SUMS)?)?;
    let Ok(true) = can_balance(alloc, &graph) else {
        return Err(Fail::from("outside the condition"));
    };
    let planned = planned_of(alloc, &graph)?;
    assert_eq!(rt; planned.startup.as_slice(), [2, 0, 0].as_slice());
    assert_eq!(rt; planned.round.as_slice(), [1, 1, 1].as_slice());
    let before = planned.schedule.startup();
    assert_eq!(rt; before.len(), 1);
    assert_eq!(rt; unit_of(&before[0]), (2, [0].as_slice()));
    assert_eq!(rt; planned.schedule.greatest(), [2, 0].as_slice());
    assert_eq!(rt; planned.schedule.last(), [2, 0].as_slice());
    assert_eq!(rt; planned.schedule.sizes(), [3, 1].as_slice());
    Ok(())
}

#[test]
fn units_are_fused(rt: HostRuntime) -> Result<(), Fail> {
    let alloc = rt.alloc();
    let graph = graph_of(alloc, &text_of(alloc, PAIRS)?)?;
    let Ok(true) = can_balance(alloc, &graph) else {
        return Err(Fail::from("outside the condition"));
    };
    let planned = planned_of(alloc, &graph)?;
    assert_eq!(rt; planned.round.as_slice(), [3, 3, 2, 2].as_slice());
    let mut schedule = planned.schedule;
    assert_eq!(rt; schedule.sizes(), [3, 6, 2].as_slice());
    let fused: Result<(), FuseError> = fuse(alloc, &graph, &mut schedule, 2);
    assert!(rt; fused.is_ok());
    let units = schedule.round();
    assert_eq!(rt; units.len(), 2);
    assert_eq!(rt; unit_of(&units[0]), (3, [0, 1].as_slice()));
    assert_eq!(rt; unit_of(&units[1]), (2, [2, 3].as_slice()));
    assert_eq!(rt; schedule.sizes(), [1, 6, 1].as_slice());
    Ok(())
}

#[test]
fn filters_are_split(rt: HostRuntime) -> Result<(), Fail> {
    let alloc = rt.alloc();
    let graph = graph_of(alloc, &text_of(alloc, SUMS_OF_SUMS)?)?;
    let Ok(true) = can_balance(alloc, &graph) else {
        return Err(Fail::from("outside the condition"));
    };
    let planned = planned_of(alloc, &graph)?;
    let split: Result<Split, FissError> = fission(
        alloc,
        &graph,
        &planned.round,
        &planned.schedule,
        2,
    );
    let split = split.ok().ok_or("no split")?;
    assert_eq!(rt; split.graph().nodes().len(), 7);
    assert_eq!(rt; split.schedule().round().len(), 7);
    let origins: &[Origin] = split.origins();
    assert_eq!(rt; origins.len(), 7);
    assert_eq!(rt; (origins[2].node, origins[2].first), (1, 0));
    assert_eq!(rt; (origins[3].node, origins[3].first), (1, 2));
    Ok(())
}

#[test]
fn buffers_are_sized_by_an_order(rt: HostRuntime) -> Result<(), Fail> {
    let alloc = rt.alloc();
    let graph = graph_of(alloc, &text_of(alloc, PAIRS)?)?;
    let Ok(true) = can_balance(alloc, &graph) else {
        return Err(Fail::from("outside the condition"));
    };
    let planned = planned_of(alloc, &graph)?;
    let schedule = &planned.schedule;
    let (before, fill) = (schedule.greatest(), schedule.last());
    let found: Result<Vec<u32>, ScheduleError> = sizes(
        alloc,
        &graph,
        before,
        fill,
        schedule.round(),
    );
    let found = found.ok().ok_or("no sizes")?;
    assert_eq!(rt; found.as_slice(), schedule.sizes());
    Ok(())
}

#[test]
fn a_schedule_is_made_of_its_parts(rt: HostRuntime) -> Result<(), Fail> {
    let alloc = rt.alloc();
    let mut round = Vec::new(alloc);
    round.push(Unit {
        turns: 2,
        nodes: Vec::from_elem(alloc, 0, 1)?,
    })?;
    let (greatest, last) = (Vec::from_elem(alloc, 1, 1)?, Vec::from_elem(alloc, 0, 1)?);
    let sizes = Vec::from_elem(alloc, 4, 1)?;
    let schedule = Schedule::new(Vec::new(alloc), round, greatest, last, sizes);
    assert!(rt; schedule.startup().is_empty());
    assert_eq!(rt; unit_of(&schedule.round()[0]), (2, [0].as_slice()));
    assert_eq!(rt; schedule.greatest(), [1].as_slice());
    assert_eq!(rt; schedule.last(), [0].as_slice());
    assert_eq!(rt; schedule.sizes(), [4].as_slice());
    Ok(())
}

#[test]
fn a_plan_runs_on_one_thread(rt: HostRuntime) -> Result<(), Fail> {
    let alloc = rt.alloc();
    let plan = plan_of(alloc, MOVING_SUMS, 1, 0)?;
    let input = [1, 2, 3, 4, 5];
    let outcome: Result<Outcome, RunRefusal> = run_plain(
        alloc,
        plan.graph(),
        plan.schedule(),
        &input,
        3,
    );
    let outcome = outcome.ok().ok_or("refused")?;
    assert_eq!(rt;
        values_of(alloc, &outcome)?.as_slice(),
        [6, 9, 12].as_slice()
    );
    let short = run_plain(alloc, plan.graph(), plan.schedule(), &input, 4);
    assert!(rt; matches!(short, Err(RunRefusal::InputShort { need: 6, got: 5 })));
    Ok(())
}
