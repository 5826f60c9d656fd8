// What is written: the lines of a check or a plan, or the line of a refusal.

ghost use Rattle.std.specs.Prelude.{◌≡◌, ◌++◌, IfOk, OnOk, decimal, length};
ghost use Rattle.strc_elab_graph.specs.NodeView.{node_names};
ghost use Rattle.strc_cli_output.specs.Output as spec;

use crate::outcome::cause_name;
use crate::stop::Stop;
use crate::text::Piece::{Bytes, Number};
use crate::text::{push_bytes, push_number, push_pieces};
use std::alloc::{AllocError, Global};
use strc_elab_graph::graph::Channel;
use strc_run_refusal::refusal::Refusal;
use strc_sched_outcome::run_refusal::RunRefusal;
use strc_stage_plan::plan::Plan;

/// The line that tells how many nodes and channels there are.
pub fn check_text(alloc: Global, nodes: usize, channels: usize) -> Result<Vec<u8>, AllocError>
    ensures { IfOk result (λ text. text.items ≡ spec.check_line nodes channels) }
{
    let mut text = Vec::new(alloc);
    push_pieces(
        &mut text,
        &[
            Bytes(b"ok nodes "),
            Number(nodes as u64),
            Bytes(b" channels "),
            Number(channels as u64),
            Bytes(b"\n"),
        ],
    )?;
    Ok(text)
}

/// The lines of a plan: one for each node, then one for each node's start-up, then one for each
/// channel, in order of their numbers.
pub fn plan_text(alloc: Global, plan: &Plan) -> Result<Vec<u8>, AllocError>
    ensures { IfOk result (λ text. text.items ≡ spec.plan_text plan.now) }
{
    let mut text = Vec::new(alloc);
    push_nodes(&mut text, plan)?;
    push_starts(&mut text, plan.startup_counts().as_slice())?;
    push_channels(&mut text, plan.graph().channels(), plan.sizes())?;
    Ok(text)
}

// The lines of all nodes.
fn push_nodes(text: &mut Vec<u8>, plan: &Plan) -> Result<(), AllocError>
    ensures { OnOk result (text.new.items ≡ text.old.items
        ++ spec.node_lines 0 (node_names plan.now.graph) plan.now.round_counts) }
{
    let graph = plan.graph();
    let counts = plan.round_counts();
    for node in 0..graph.nodes().len() {
        push_node(text, node, graph.name(node), counts.at(node))?;
    }
    Ok(())
}

// The line of a node: its number, its name, and how often it fires in a round.
fn push_node(text: &mut Vec<u8>, node: usize, name: &[u8], count: u32) -> Result<(), AllocError>
    ensures { OnOk result (text.new.items ≡ text.old.items ++ spec.node_line node name.now count) }
{
    push_pieces(
        text,
        &[
            Bytes(b"node "),
            Number(node as u64),
            Bytes(b" "),
            Bytes(name),
            Bytes(b" round "),
            Number(u64::from(count)),
            Bytes(b"\n"),
        ],
    )
}

// The lines of the start-up of nodes that fire so often before the first round.
fn push_starts(text: &mut Vec<u8>, counts: &[u32]) -> Result<(), AllocError>
    ensures { OnOk result (text.new.items ≡ text.old.items ++ spec.start_lines 0 counts.now) }
{
    for node in 0..counts.len() {
        push_start(text, node, counts[node])?;
    }
    Ok(())
}

// The line of a node's start-up: its number, and how often it fires before the first round.
fn push_start(text: &mut Vec<u8>, node: usize, count: u32) -> Result<(), AllocError>
    ensures { OnOk result (text.new.items ≡ text.old.items ++ spec.start_line node count) }
{
    push_pieces(
        text,
        &[
            Bytes(b"start "),
            Number(node as u64),
            Bytes(b" "),
            Number(u64::from(count)),
            Bytes(b"\n"),
        ],
    )
}

// The lines of all channels.
fn push_channels(text: &mut Vec<u8>, channels: &[Channel], sizes: &[u32]) -> Result<(), AllocError>
    requires { length sizes.now ≡ length channels.now }
    ensures { OnOk result (text.new.items ≡ text.old.items
        ++ spec.channel_lines 0 channels.now sizes.now) }
{
    for number in 0..channels.len() {
        push_channel(text, number, &channels[number], sizes[number])?;
    }
    Ok(())
}

// The line of a channel: its number, the nodes at its ends, and the size of its buffer.
fn push_channel(
    text: &mut Vec<u8>,
    number: usize,
    channel: &Channel,
    size: u32,
) -> Result<(), AllocError>
    ensures { OnOk result (text.new.items ≡ text.old.items
        ++ spec.channel_line number channel.now.source.node channel.now.target.node size) }
{
    push_pieces(
        text,
        &[
            Bytes(b"channel "),
            Number(number as u64),
            Bytes(b" from "),
            Number(u64::from(channel.source.node)),
            Bytes(b" to "),
            Number(u64::from(channel.target.node)),
            Bytes(b" size "),
            Number(u64::from(size)),
            Bytes(b"\n"),
        ],
    )
}

/// The line that tells why there is no answer.
pub fn stop_text(alloc: Global, stop: &Stop) -> Result<Vec<u8>, AllocError>
    ensures { IfOk result (λ text. text.items ≡ spec.stop_line stop.now) }
{
    let mut text = Vec::new(alloc);
    push_bytes(&mut text, b"refused ")?;
    push_stop(&mut text, stop)?;
    push_bytes(&mut text, b"\n")?;
    Ok(text)
}

// Why there is no answer: a refusal of the text, of a word of its input, or of its run.
fn push_stop(text: &mut Vec<u8>, stop: &Stop) -> Result<(), AllocError>
    ensures { OnOk result (text.new.items ≡ text.old.items ++ spec.stop_words stop.now) }
{
    match stop {
        Stop::Refused(placed) => push_refusal(text, &placed.refusal),
        Stop::BadInput { word } => push_field(text, b"S6 BadInput", b" word ", *word),
        Stop::NotRun(refusal) => push_run_refusal(text, *refusal),
        Stop::ArrayLimit { items } => push_field(text, b"S7 ArrayLimit", b" items ", *items),
    }
}

// The number and the name of a refusal, and its fields, each after its name.
fn push_refusal(text: &mut Vec<u8>, refusal: &Refusal) -> Result<(), AllocError>
    ensures { OnOk result (text.new.items ≡ text.old.items ++ spec.refusal_words refusal.now) }
{
    match refusal {
        Refusal::Lex { at } => push_field(text, b"E1 Lex", b" at ", *at as u64),
        Refusal::Parse { token } => push_field(text, b"E2 Parse", b" token ", *token as u64),
        Refusal::TextTooLong => push_bytes(text, b"E3 TextTooLong"),
        Refusal::UnknownName { name } => push_named(
            text,
            b"E4 UnknownName",
            b" name ",
            name.as_bytes(),
        ),
        Refusal::TypeMismatch { stream } => {
            push_field(text, b"E5 TypeMismatch", b" stream ", *stream as u64)
        }
        Refusal::NoMain => push_bytes(text, b"E6 NoMain"),
        Refusal::ManyMains => push_bytes(text, b"E7 ManyMains"),
        Refusal::DepthLimit => push_bytes(text, b"E8 DepthLimit"),
        Refusal::NodeLimit => push_bytes(text, b"E9 NodeLimit"),
        Refusal::BadArguments { stream } => {
            push_field(text, b"E10 BadArguments", b" stream ", *stream as u64)
        }
        Refusal::BadWeights { stream } => {
            push_field(text, b"E11 BadWeights", b" stream ", *stream as u64)
        }
        Refusal::ConstFault { cause } => {
            push_named(text, b"E12 ConstFault", b" cause ", cause_name(*cause))
        }
        Refusal::RateUnknown { node } => {
            push_field(text, b"E13 RateUnknown", b" node ", *node as u64)
        }
        Refusal::RateMismatch {
            node,
            declared,
            counted,
        } => push_mismatch(
            text,
            *node as u64,
            u64::from(*declared),
            u64::from(*counted),
        ),
        Refusal::PeekOutside { node } => {
            push_field(text, b"E15 PeekOutside", b" node ", *node as u64)
        }
        Refusal::RateLimit { node } => push_field(text, b"E16 RateLimit", b" node ", *node as u64),
        Refusal::TwoInputs => push_bytes(text, b"E17 TwoInputs"),
        Refusal::TapeTwice { node } => push_field(text, b"E27 TapeTwice", b" node ", *node as u64),
        Refusal::Disconnected => push_bytes(text, b"E19 Disconnected"),
        Refusal::CountsTooLarge => push_bytes(text, b"E20 CountsTooLarge"),
        Refusal::Inconsistent { channel } => {
            push_field(text, b"E21 Inconsistent", b" channel ", *channel as u64)
        }
        Refusal::StartupUnbounded => push_bytes(text, b"E22 StartupUnbounded"),
        Refusal::Deadlock { in_startup: true } => push_bytes(text, b"E23 Deadlock startup"),
        Refusal::Deadlock { in_startup: false } => push_bytes(text, b"E23 Deadlock round"),
        Refusal::BufferLimit { channel } => {
            push_field(text, b"E24 BufferLimit", b" channel ", *channel as u64)
        }
        Refusal::NoMemory => push_bytes(text, b"E25 NoMemory"),
        Refusal::Nesting => push_bytes(text, b"E26 Nesting"),
    }
}

// A refusal with one number.
fn push_field<'a>(
    text: &mut Vec<u8>,
    refusal: &'a [u8],
    field: &'a [u8],
    value: u64,
) -> Result<(), AllocError>
    ensures { OnOk result (text.new.items ≡ text.old.items
        ++ (refusal.now ++ field.now ++ decimal value)) }
{
    push_pieces(text, &[Bytes(refusal), Bytes(field), Number(value)])
}

// A refusal with one name.
fn push_named<'a>(
    text: &mut Vec<u8>,
    refusal: &'a [u8],
    field: &'a [u8],
    name: &'a [u8],
) -> Result<(), AllocError>
    ensures { OnOk result (text.new.items ≡ text.old.items
        ++ (refusal.now ++ field.now ++ name.now)) }
{
    push_pieces(text, &[Bytes(refusal), Bytes(field), Bytes(name)])
}

// A declared rate that isn't the counted one.
fn push_mismatch(
    text: &mut Vec<u8>,
    node: u64,
    declared: u64,
    counted: u64,
) -> Result<(), AllocError>
    ensures { OnOk result (text.new.items ≡ text.old.items
        ++ spec.mismatch_words node declared counted) }
{
    push_bytes(text, b"E14 RateMismatch node ")?;
    push_number(text, node)?;
    push_bytes(text, b" declared ")?;
    push_number(text, declared)?;
    push_bytes(text, b" counted ")?;
    push_number(text, counted)
}

// The number and the name of a refusal of a run, and its fields.
fn push_run_refusal(text: &mut Vec<u8>, refusal: RunRefusal) -> Result<(), AllocError>
    ensures { OnOk result (text.new.items ≡ text.old.items ++ spec.run_refusal_words refusal) }
{
    match refusal {
        RunRefusal::InputShort { need, got } => push_short(text, need, got),
        RunRefusal::BadWorkers => push_bytes(text, b"S2 BadWorkers"),
        RunRefusal::NoMemory => push_bytes(text, b"S3 NoMemory"),
        RunRefusal::NoWorker => push_bytes(text, b"S4 NoWorker"),
        RunRefusal::RoundsNeeded => push_bytes(text, b"S5 RoundsNeeded"),
    }
}

// An input that is shorter than what the rounds read.
fn push_short(text: &mut Vec<u8>, need: u64, got: u64) -> Result<(), AllocError>
    ensures { OnOk result (text.new.items ≡ text.old.items ++ spec.short_words need got) }
{
    push_bytes(text, b"S1 InputShort need ")?;
    push_number(text, need)?;
    push_bytes(text, b" got ")?;
    push_number(text, got)
}
