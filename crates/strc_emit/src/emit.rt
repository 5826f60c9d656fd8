// From a plan to C.

ghost use Rattle.std.specs.Prelude.{◌≡◌, IfOk};
ghost use Rattle.strc_emit_program.specs.Programs.{IsProgramText};
ghost use Rattle.strc_emit.specs.Emitting.{IsEmitted, IsPlanNetwork};
ghost use Rattle.strc_emit.specs.Networks.{HasParts};

use crate::ports::rows;
use crate::slots::total_items;
use std::alloc::Global;
use strc_emit_moves::places::Network;
use strc_emit_program::program::program_text;
use strc_lex_names::memory::NoMemory;
use strc_sched_rings::circuit::Circuit;
use strc_stage_plan::plan::Plan;
use thiserror::Error;

/// How many items the arrays of a program's channels and the slots of its filters may be together.
pub const ITEM_LIMIT: u64 = 268_435_456;

/// Why a plan has no C.
#[derive(Clone, Copy, Debug, Error)]
pub enum EmitError {
    /// The arrays of its channels and the slots of its filters would be so many items, more than
    /// there may be.
    #[error("channels and filters would have {items} items, more than 268,435,456")]
    ArrayLimit { items: u64 },
    /// Memory was refused.
    #[error("out of memory for the text of the program")]
    NoMemory,
}

impl From<NoMemory> for EmitError {
    ghost use Rattle.strc_emit.specs.declared.emit.EmitError.TheVariants as refused;

    ghost from_gives = { λ _ e. e ≡ refused.NoMemory };

    fn from(_error: NoMemory) -> EmitError {
        EmitError::NoMemory
    }
}

/// The C of a plan's program, before fission and fusion.
pub fn emit(alloc: Global, plan: &Plan) -> Result<Vec<u8>, EmitError>
    ensures { IsEmitted plan.now result }
{
    let graph = plan.graph();
    let circuit = Circuit::new(alloc, graph, &[])?;
    let inputs = rows(alloc, &circuit.inputs, graph.nodes().len())?;
    let outputs = rows(alloc, &circuit.outputs, graph.nodes().len())?;
    program_of(alloc, plan, &network_of(plan, &inputs, &outputs))
}

// The network of a plan, where these are the channels at each port.
fn network_of<'a>(
    plan: &'a Plan,
    inputs: &'a [Vec<Option<usize>>],
    outputs: &'a [Vec<Option<usize>>],
) -> Network<'a>
    ensures parts { HasParts plan.now.graph plan.now.startup_counts plan.now.round_counts
        plan.now.schedule result }
    ensures inputs { result.inputs.now ≡ inputs.now }
    ensures outputs { result.outputs.now ≡ outputs.now }
{
    let graph = plan.graph();
    Network {
        nodes: graph.nodes(),
        channels: graph.channels(),
        inputs,
        outputs,
        left: plan.schedule().last(),
        startup: plan.startup_counts().as_slice(),
        round: plan.round_counts().as_slice(),
    }
}

// The C of a plan, which the network is of.
fn program_of(alloc: Global, plan: &Plan, network: &Network<'_>) -> Result<Vec<u8>, EmitError>
    requires { IsPlanNetwork plan.now network.now }
    ensures { IsEmitted plan.now result }
{
    let items = total_items(network);
    if items > ITEM_LIMIT {
        return Err(EmitError::ArrayLimit { items });
    }
    Ok(text_of(alloc, plan, network)?)
}

// The text of the program of a plan, which the network is of.
fn text_of(alloc: Global, plan: &Plan, network: &Network<'_>) -> Result<Vec<u8>, NoMemory>
    requires { IsPlanNetwork plan.now network.now }
    ensures { IfOk result (λ text. IsProgramText network.now plan.now.schedule text.items) }
{
    program_text(alloc, plan.graph(), network, plan.schedule())
}
