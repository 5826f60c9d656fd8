// A firing of a node that keeps nothing between firings, whatever its kind.

ghost use Rattle.std.specs.Prelude.{◌≡◌, [], length};
ghost use Rattle.strc_elab_graph.specs.NodeView.{node_view};
ghost use Rattle.strc_sched_laws.specs.Steps as steps;
ghost use Rattle.strc_sched_rings.specs.Answers.{AreRings, HasStepped, MovesBy};
ghost use Rattle.strc_sched_machine.specs.Passing.{IsMover, IsPassive};
ghost use Rattle.strc_sched_rings.specs.Words.{WantsWordOfStep};
ghost use Rattle.strc_sched_machine.specs.Memory.{node_prints};

use strc_elab_graph::graph::Node;
use strc_sched_rings::gather::fire_gather;
use strc_sched_rings::movers::{
    fire_identity, fire_joiner, fire_reader, fire_splitter, fire_writer, ring_of,
};
use strc_sched_rings::ring::Ring;
use strc_sched_rings::scatter::fire_scatter;
use strc_work_meaning::fault::Halt;
use strc_work_meaning::word::Word;

/// One firing, by its number. Whether it found its windows; if not, it leaves all as it was.
pub(crate) fn fire_passive(
    node: &Node,
    firing: u64,
    inputs: &[Option<usize>],
    outputs: &[Option<usize>],
    input: &[i32],
    rings: &mut [Ring],
    words: &mut Vec<Word>,
) -> Result<bool, Halt>
    requires passive { IsPassive (node_view node.now) }
    requires inputs { AreRings (length rings.old) inputs.now }
    requires outputs { AreRings (length rings.old) outputs.now }
    ensures rings { length rings.new ≡ length rings.old }
    ensures step { HasStepped (steps.node_step (node_view node.now) firing [] inputs.now outputs.now
        input.now rings.old) result [] [] rings.old rings.new words.old.items words.new.items }
    ensures memory { WantsWordOfStep (node_prints (node_view node.now) firing)
        (steps.node_step (node_view node.now) firing [] inputs.now outputs.now input.now
        rings.old) result }
{
    if let Node::FileWriter(_) = node {
        return fire_writer(rings, ring_of(inputs, 0), words);
    }
    Ok(fire_mover(node, firing, inputs, outputs, input, rings))
}

/// The same for a node that prints nothing.
fn fire_mover(
    node: &Node,
    firing: u64,
    inputs: &[Option<usize>],
    outputs: &[Option<usize>],
    input: &[i32],
    rings: &mut [Ring],
) -> bool
    requires mover { IsMover (node_view node.now) }
    requires inputs { AreRings (length rings.old) inputs.now }
    requires outputs { AreRings (length rings.old) outputs.now }
    ensures rings { length rings.new ≡ length rings.old }
    ensures step { MovesBy (steps.node_step (node_view node.now) firing [] inputs.now outputs.now
        input.now rings.old) result rings.old rings.new }
{
    match node {
        Node::Identity => fire_identity(rings, ring_of(inputs, 0), ring_of(outputs, 0)),
        Node::FileReader(_) => fire_reader(rings, firing, ring_of(outputs, 0), input),
        Node::Splitter(splitter) => { fire_splitter(rings, splitter, ring_of(inputs, 0), outputs) }
        Node::Joiner(weights) => fire_joiner(rings, weights, inputs, ring_of(outputs, 0)),
        Node::Scatter(fission) => fire_scatter(rings, fission, ring_of(inputs, 0), outputs),
        Node::Gather(fission) => fire_gather(rings, fission, inputs, ring_of(outputs, 0)),
        Node::Filter(_) | Node::FileWriter(_) | Node::Copy(_, _) => false,
    }
}
