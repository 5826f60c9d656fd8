// Outcomes of rounds after fission, by the nodes before it.

ghost use Rattle.std.specs.Prelude.{◌≡◌, map};
ghost use Rattle.strc_sched_outcome.specs.Tapes.{tape_view};
ghost use Rattle.strc_stage_plan.specs.Named as names;
ghost use Rattle.strc_stage.specs.Naming.{AreRenamed, IsRenamed, renamed_tape};

use crate::firings::old_firing;
use strc_fiss::split::Origin;
use strc_sched_outcome::outcome::{Outcome, Round, Tape};
use strc_stage_plan::plan::Plan;

/// The outcome of a plan's rounds, which names nodes after fission, by the nodes before it. It
/// takes no memory.
pub fn renamed(plan: &Plan, outcome: Outcome) -> Outcome
    ensures { IsRenamed plan.now outcome result }
{
    match outcome {
        Outcome::Done(tapes) => Outcome::Done(renamed_tapes(plan.origins(), tapes)),
        Outcome::Fault {
            node,
            firing,
            round,
            cause,
            tapes,
        } => match round {
            Round::Startup => Outcome::Fault {
                node,
                firing,
                round: Round::Startup,
                cause,
                tapes,
            },
            Round::At(number) => Outcome::Fault {
                node: old_node(plan.origins(), node),
                firing: old_firing(plan, node, firing),
                round: Round::At(number),
                cause,
                tapes: renamed_tapes(plan.origins(), tapes),
            },
        },
    }
}

/// The tapes of the nodes that these stand for.
fn renamed_tapes(origins: &[Origin], tapes: Vec<Tape>) -> Vec<Tape>
    ensures { AreRenamed origins.now tapes.items result.items }
{
    let mut renamed = tapes;
    for number in 0..renamed.len() {
        rename(origins, &mut renamed[number]);
    }
    renamed
}

/// A tape becomes that of the node that its node stands for.
fn rename(origins: &[Origin], tape: &mut Tape)
    ensures { tape_view tape.new ≡ renamed_tape origins.now (tape_view tape.old) }
{
    tape.node = old_node(origins, tape.node);
}

/// The node that a node stands for.
pub fn old_node(origins: &[Origin], number: u32) -> u32
    ensures { result ≡ names.old_node origins.now number }
{
    let place = number as usize;
    if place < origins.len() {
        origins[place].node
    } else {
        0
    }
}
