// Tapes of which some go to files of their own.

ghost use Rattle.std.specs.Prelude.{◌≡◌, ℕ, List, IfOk, [], if◌then◌else◌, map};
ghost use Rattle.strc_sched_outcome.specs.declared.outcome.Tape as declared;
ghost use Rattle.strc_cli_tapes.specs.Parted as spec;
ghost use Rattle.strc_cli_tapes.specs.Parted.{is_given, staying_from, staying_tapes};

use std::alloc::{AllocError, Global};
use strc_sched_outcome::outcome::Tape;
use strc_work_meaning::word::Word;

/// A tape, and its number among all tapes.
#[derive(Clone, Copy)]
pub struct NumberedTape<'a> {
    pub number: usize,
    pub tape: &'a Tape,
}

/// The tapes that stay where those of these nodes go elsewhere, in order.
pub fn staying<'a>(
    alloc: Global,
    tapes: &'a [Tape],
    given: &[usize],
) -> Result<Vec<NumberedTape<'a>>, AllocError>
    ensures { IfOk result (λ all. map (λ it. (it.number, it.tape.now)) all.items
        ≡ staying_from given.now 0 tapes.now) }
{
    let mut all = Vec::new(alloc);
    for number in 0..tapes.len() {
        let tape = &tapes[number];
        if !is_given(given, tape.node as usize) {
            all.push(NumberedTape { number, tape })?;
        }
    }
    Ok(all)
}

/// The words of a node's tape; none where it has no tape.
pub fn words_of(tapes: &[Tape], node: usize) -> &[Word]
    ensures { result.now ≡ spec.words_of tapes.now node }
{
    for tape in tapes {
        if tape.node as usize == node {
            return &tape.words;
        }
    }
    &[]
}

/// Each tape stays, or goes where the tapes of these nodes go, and not both: of what stays a node
/// has the words that it had, or none where it is one of these nodes.
pub fn parted_tapes()
    ensures { (given : List ℕ) (tapes : List declared.Tape) (node : ℕ)
        → spec.words_of (staying_tapes given tapes) node
        ≡ (if is_given given node then [] else spec.words_of tapes node) }
{}

// Whether a node is one of these.
fn is_given(given: &[usize], node: usize) -> bool
    ensures { result ≡ spec.is_given given.now node }
{
    for other in given {
        if *other == node {
            return true;
        }
    }
    false
}
