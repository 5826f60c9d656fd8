// A filter as it runs.

ghost use Rattle.std.specs.Prelude.{◌≡◌, ◌<◌, Ok, IfOk, IfSome, length};
ghost use Rattle.strc_work_meaning.specs.Closed.{IsClosedFilter};
ghost use Rattle.strc_work_meaning.specs.Filters.{body_prints, filter_of};
ghost use Rattle.strc_work_meaning.specs.Firing.{started};
ghost use Rattle.strc_sched_machine.specs.Actors.{CanStart, IsFilterActor, IsTakingOf};
ghost use Rattle.strc_sched_laws.specs.Steps as steps;
ghost use Rattle.strc_sched_machine.specs.Copies.{copied_step};
ghost use Rattle.strc_elab_graph.specs.Rates as rates;
ghost use Rattle.strc_sched_rings.specs.Answers.{HasStepped};
ghost use Rattle.strc_sched_rings.specs.Words.{WantsWordOfStep};

use crate::lanes::MOST_PARTED;
use std::alloc::Global;
use strc_elab_graph::graph::Fission;
use strc_elab_graph::rates::body_at;
use strc_lex_names::memory::NoMemory;
use strc_parse_tree::tree::ItemType;
use strc_sched_filters::lanes::frame::LaneFrame;
use strc_sched_rings::copy::copy_pops;
use strc_sched_rings::ring::{Ring, count_at, give_to, take_from, window_at};
use strc_work::firing::{Fire, StartError};
use strc_work::frame::Frame;
use strc_work::state::State;
use strc_work_code::code::Code;
use strc_work_meaning::body::Body;
use strc_work_meaning::fault::Halt;
use strc_work_meaning::word::Word;

/// What a filter keeps between firings, room for what a firing pushes, and what firings take.
#[derive(Drop)]
pub(crate) struct FilterActor {
    pub(crate) state: State,
    pub(crate) frame: Frame,
    /// What the first firing takes.
    pub(crate) first: Taking,
    /// What each later one does.
    pub(crate) later: Taking,
    /// Room for firings in lanes; none where they are never tried.
    pub(crate) lanes: LaneFrame,
    /// How often in a row firings in lanes were tried in vain.
    pub(crate) parted: u32,
    /// From which firing on they may be tried again.
    pub(crate) again: u64,
}

/// How many items a firing looks at, and how many of them it pops.
#[derive(Clone, Copy)]
pub(crate) struct Taking {
    pub(crate) window: u32,
    pub(crate) pops: u32,
}

/// A filter before its first firing, with room for firings in lanes where they are to be tried.
pub(crate) fn start_filter(
    alloc: Global,
    code: &Code,
    in_lanes: bool,
) -> Result<FilterActor, NoMemory>
    requires starts { CanStart (filter_of code.now) }
    ensures actor { IfOk result (IsFilterActor (filter_of code.now)) }
    ensures fields { IfOk result (λ actor. started (filter_of code.now) ≡ Ok actor.state.fields) }
    ensures known { IfOk result (λ actor. IsClosedFilter (filter_of code.now)) }
{
    let first = taking_of(code, Body::Prework);
    let later = taking_of(code, Body::Work);
    let state = match code.start(alloc) {
        Ok(state) => state,
        Err(StartError::ConstFault { .. }) => unreachable!(),
        Err(StartError::NoMemory) => return Err(NoMemory),
    };
    let frame = code.frame(alloc)?;
    let (lanes, parted) = if in_lanes {
        (LaneFrame::new(alloc, code)?, 0)
    } else {
        (LaneFrame::without_room(alloc), MOST_PARTED)
    };
    Ok(FilterActor {
        state,
        frame,
        first,
        later,
        lanes,
        parted,
        again: 0,
    })
}

/// What the firings of a body take.
pub(crate) fn taking_of(code: &Code, body: Body) -> Taking
    ensures taking { IsTakingOf (filter_of code.now) body result }
    ensures known { IsClosedFilter (filter_of code.now) }
{
    let window = match code.tree().input {
        ItemType::Int => code.window(body),
        ItemType::Void => 0,
    };
    let pop = code.rates(body).pop;
    let pops = if pop < 0 { 0 } else { pop as u32 };
    Taking { window, pops }
}

/// One firing of a filter, by its number. Whether it found its window; if not, it leaves all as it
/// was.
#[inline]
pub(crate) fn fire_filter(
    code: &Code,
    firing: u64,
    actor: &mut FilterActor,
    rings: &mut [Ring],
    input: Option<usize>,
    output: Option<usize>,
    words: &mut Vec<Word>,
) -> Result<bool, Halt>
    requires actor { IsFilterActor (filter_of code.now) actor.old }
    requires input { IfSome input (λ number. number < length rings.old) }
    requires output { IfSome output (λ number. number < length rings.old) }
    ensures actor { IsFilterActor (filter_of code.now) actor.new }
    ensures rings { length rings.new ≡ length rings.old }
    ensures step { HasStepped (steps.filter_step (filter_of code.now) firing
        actor.old.state.fields input output rings.old) result actor.old.state.fields
        actor.new.state.fields rings.old rings.new words.old.items words.new.items }
    ensures memory { WantsWordOfStep (body_prints (rates.body_at firing) (filter_of code.now))
        (steps.filter_step (filter_of code.now) firing actor.old.state.fields input output
        rings.old) result }
{
    let taking = if firing == 0 {
        actor.first
    } else {
        actor.later
    };
    fire_taking(code, firing, taking, actor, rings, input, output, words)
}

/// One firing of a copy of a filter, as `fire_filter` has one: with its last firing of a round it
/// pops its whole window.
#[inline]
pub(crate) fn fire_copy(
    code: &Code,
    fission: &Fission,
    firing: u64,
    actor: &mut FilterActor,
    rings: &mut [Ring],
    input: Option<usize>,
    output: Option<usize>,
    words: &mut Vec<Word>,
) -> Result<bool, Halt>
    requires actor { IsFilterActor (filter_of code.now) actor.old }
    requires input { IfSome input (λ number. number < length rings.old) }
    requires output { IfSome output (λ number. number < length rings.old) }
    ensures actor { IsFilterActor (filter_of code.now) actor.new }
    ensures rings { length rings.new ≡ length rings.old }
    ensures step { HasStepped (copied_step (filter_of code.now) fission.now firing
        actor.old.state.fields input output rings.old) result actor.old.state.fields
        actor.new.state.fields rings.old rings.new words.old.items words.new.items }
    ensures memory { WantsWordOfStep (body_prints (rates.body_at firing) (filter_of code.now))
        (copied_step (filter_of code.now) fission.now firing actor.old.state.fields input output
        rings.old) result }
{
    let window = match code.tree().input {
        ItemType::Int => fission.window,
        ItemType::Void => 0,
    };
    let pops = copy_pops(fission, firing);
    let taking = Taking { window, pops };
    fire_taking(code, firing, taking, actor, rings, input, output, words)
}

/// One firing of a filter that takes so many items.
#[inline(always)]
fn fire_taking(
    code: &Code,
    firing: u64,
    taking: Taking,
    actor: &mut FilterActor,
    rings: &mut [Ring],
    input: Option<usize>,
    output: Option<usize>,
    words: &mut Vec<Word>,
) -> Result<bool, Halt>
    requires actor { IsFilterActor (filter_of code.now) actor.old }
    requires input { IfSome input (λ number. number < length rings.old) }
    requires output { IfSome output (λ number. number < length rings.old) }
    ensures actor { IsFilterActor (filter_of code.now) actor.new }
    ensures rings { length rings.new ≡ length rings.old }
    ensures step { HasStepped (steps.looking_step (filter_of code.now) firing taking.window
        taking.pops actor.old.state.fields input output rings.old) result
        actor.old.state.fields actor.new.state.fields rings.old rings.new words.old.items
        words.new.items }
    ensures memory { WantsWordOfStep (body_prints (rates.body_at firing) (filter_of code.now))
        (steps.looking_step (filter_of code.now) firing taking.window taking.pops
        actor.old.state.fields input output rings.old) result }
{
    if count_at(rings, input) < taking.window as usize {
        return Ok(false);
    }
    let window = window_at(rings, input);
    match code.fire(
        body_at(firing),
        &mut actor.state,
        &mut actor.frame,
        &window,
        words,
    ) {
        Ok(()) => {}
        Err(halt) => return Err(halt),
    }
    take_from(rings, input, taking.pops as usize);
    give_to(rings, output, actor.frame.pushes());
    Ok(true)
}
