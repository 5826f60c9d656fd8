// From the text to the plan, or the first refusal.

ghost use Rattle.std.specs.Prelude.{◌≡◌, ℕ, List, Err, IfOk, IfErr};
ghost use Rattle.std.specs.Option.{option_map};
ghost use Rattle.strc_parse_tree.specs.View.{program_view};
ghost use Rattle.strc_parse.specs.Texts.{Spells};
ghost use Rattle.strc_run.specs.Choices.{choice_of};
ghost use Rattle.strc_run.specs.Compiled.{HasCompiled};
ghost use Rattle.strc_run.specs.Located.{HasPlacedPlan, IsKnownOf, IsLocated, IsMainStream, IsRead};
ghost use Rattle.strc_run.specs.Located.{refusal_in};
ghost use Rattle.strc_elab.specs.Elaboration.{elaborated};
ghost use Rattle.strc_elab.specs.Sound.{IsElaborated};
ghost use Rattle.strc_elab_stream.specs.View.{stream_view};
ghost use Rattle.strc_run.specs.Plans.{HasPlan};
ghost use Rattle.strc_run.specs.Refuses.{HasNoBalance, IsReadRefusal};
ghost use Rattle.strc_run_refusal.specs.declared.refusal.Refusal.TheVariants as refused;

use crate::options::Options;
use crate::rates::check_rates;
use crate::refusal::Refusal;
use crate::transformations::transformed;
use std::alloc::Global;
use strc_balance::balance::balance;
use strc_elab::elaborate::elaborate_placed;
use strc_elab_flattening::flatten::flatten;
use strc_elab_paths::paths::paths_of;
use strc_elab_stream::laws::nodes_deal;
use strc_elab_stream::stream::Stream;
use strc_fuse::laws::schedules_can_be_fused;
use strc_lex::error::LexError;
use strc_lex::lexer::lex;
use strc_lex_names::memory::NoMemory;
use strc_parse::{ParseError, parse};
use strc_parse_tree::tree::Program;
use strc_run_refusal::placed_refusal::PlacedRefusal;
use strc_sched_orders::scheduler::schedule;
pub use strc_stage_plan::plan::Plan;
use strc_stage_plan::split_laws::greedy_rounds_deal_all;
use strc_startup::startup::startup;

/// The plan of the program's main stream, or the refusal of the first rule that is broken, as
/// `compile_or_where` has it.
pub fn compile(alloc: Global, text: &[u8], options: &Options) -> Result<Plan, Refusal>
    ensures plan { HasPlan text.now (choice_of options.now) result }
    // No positive counts balance a graph that is answered to be inconsistent.
    ensures inconsistent { (channel : ℕ) → result ≡ Err (refused.Inconsistent channel)
        → HasNoBalance text.now (choice_of options.now) }
{
    match compile_or_where(alloc, text, options) {
        Ok(plan) => Ok(plan),
        Err(placed) => Err(placed.into_refusal()),
    }
}

/// The plan of the program's main stream, or the refusal with where its rule is broken.
///
/// The first rule that is broken refuses the text: those of its tokens, its tree, its elaboration,
/// its flat graph, its rates, its balance, its start-up, its schedule, and the nodes and the sizes
/// after fission and fusion. `NoMemory` can come in place of any answer.
pub fn compile_or_where(
    alloc: Global,
    text: &[u8],
    options: &Options,
) -> Result<Plan, PlacedRefusal>
    ensures plan { HasPlacedPlan text.now (choice_of options.now) result }
    // No positive counts balance a graph that is answered to be inconsistent.
    ensures inconsistent { (channel : ℕ) → refusal_in result ≡ Err (refused.Inconsistent channel)
        → HasNoBalance text.now (choice_of options.now) }
    // The statement is that of the elaboration, where the tokens of the text spell it; stream and
    // graph are the program's.
    ensures located { IfErr result (IsLocated text.now (choice_of options.now)) }
{
    match compile_whole(alloc, text, options) {
        Ok(Compiled { plan, stream: _ }) => Ok(plan),
        Err(placed) => Err(placed),
    }
}

/// A text's plan, and the main stream that it is the plan of.
#[derive(Drop)]
pub struct Compiled {
    pub plan: Plan,
    pub stream: Stream,
}

/// As `compile_or_where`, with the main stream.
pub fn compile_whole(
    alloc: Global,
    text: &[u8],
    options: &Options,
) -> Result<Compiled, PlacedRefusal>
    ensures compiled { HasCompiled text.now (choice_of options.now) result }
    // The statement is that of the elaboration, where the tokens of the text spell it; stream and
    // graph are the program's.
    ensures located { IfErr result (IsLocated text.now (choice_of options.now)) }
{
    let program = read_program(alloc, text)?;
    let main = options.main_name();
    compile_program(alloc, &program, main, options.ways, options.fuse)
}

// The plan of a program that was read, of whatever text spells it; or the refusal, with what is
// known of the program.
fn compile_program(
    alloc: Global,
    program: &Program,
    main: Option<&str>,
    ways: u32,
    fuse: u32,
) -> Result<Compiled, PlacedRefusal>
    ensures compiled { (text : List ℕ) → Spells text (program_view program.now)
        → HasCompiled text (record
        { main = option_map (λ n. n.now) main.entry; ways = ways; fuse = fuse }) result }
    ensures known { IfErr result (IsKnownOf program.now (option_map (λ n. n.now) main.entry)) }
{
    // The nodes of a stream move items, which their rates stand on.
    nodes_deal();
    // A greedy schedule can be fused, and all firings of each node can be dealt.
    schedules_can_be_fused();
    greedy_rounds_deal_all();
    let stream = main_stream(alloc, program, main)?;
    let graph = match flatten(alloc, &stream) {
        Ok(graph) => graph,
        Err(error) => return Err(PlacedRefusal::of_stream(error, stream)),
    };
    if let Err(refusal) = check_rates(alloc, graph.nodes()) {
        return Err(PlacedRefusal::of_graph(refusal, stream, graph));
    }
    let round_counts = match balance(alloc, &graph) {
        Ok(counts) => counts,
        Err(error) => return Err(PlacedRefusal::of_graph(Refusal::from(error), stream, graph)),
    };
    let startup_counts = match startup(alloc, &graph, &round_counts) {
        Ok(counts) => counts,
        Err(error) => return Err(PlacedRefusal::of_graph(Refusal::from(error), stream, graph)),
    };
    let schedule = match schedule(alloc, &graph, &startup_counts, &round_counts) {
        Ok(schedule) => schedule,
        Err(error) => return Err(PlacedRefusal::of_graph(Refusal::from(error), stream, graph)),
    };
    let split = match transformed(alloc, &graph, &round_counts, &schedule, ways, fuse) {
        Ok(split) => split,
        Err(refusal) => return Err(PlacedRefusal::of_graph(refusal, stream, graph)),
    };
    let paths = paths_in(alloc, &stream)?;
    let plan = Plan::new(
        alloc,
        graph,
        startup_counts,
        round_counts,
        schedule,
        split,
        paths,
    )?;
    Ok(Compiled { plan, stream })
}

// The main stream of a program; or the refusal, at the statement that it was in.
fn main_stream(
    alloc: Global,
    program: &Program,
    main: Option<&str>,
) -> Result<Stream, PlacedRefusal>
    ensures verdict { IsMainStream (elaborated (program_view program.now)
        (option_map (λ n. n.now) main.entry)) result }
    ensures sound { IfOk result (λ stream. IsElaborated (stream_view stream)) }
    ensures known { IfErr result (IsKnownOf program.now (option_map (λ n. n.now) main.entry)) }
{
    match elaborate_placed(alloc, program, main) {
        Ok(stream) => Ok(stream),
        Err(placed) => Err(PlacedRefusal::at(placed.error, placed.place)),
    }
}

// The paths of a stream's nodes.
fn paths_in(alloc: Global, stream: &Stream) -> Result<Vec<Vec<u8>>, NoMemory> {
    Ok(paths_of(alloc, stream)?)
}

// The program that the text spells.
fn read_program(alloc: Global, text: &[u8]) -> Result<Program, Refusal>
    ensures read { IfOk result (λ program. Spells text.now (program_view program)) }
    ensures placed { IfOk result (IsRead text.now) }
    ensures refused { IfErr result (λ e. IsReadRefusal text.now e) }
{
    let tokens = match lex(alloc, text) {
        Ok(tokens) => tokens,
        Err(LexError::Lex { at }) => return Err(Refusal::Lex { at }),
        Err(LexError::TextTooLong) => return Err(Refusal::TextTooLong),
        Err(LexError::NoMemory) => return Err(Refusal::NoMemory),
    };
    match parse(alloc, &tokens) {
        Ok(program) => Ok(program),
        Err(ParseError::Parse { token }) => Err(Refusal::Parse { token }),
        Err(ParseError::Nesting) => Err(Refusal::Nesting),
        Err(ParseError::NoMemory) => Err(Refusal::NoMemory),
    }
}
