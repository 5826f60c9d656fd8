// What the styles of a picture mean.

ghost use Rattle.std.specs.Prelude.{◌≡◌, ◌++◌, OnOk};
ghost use Rattle.strc_cli_pictures.specs.Legends as spec;

use std::alloc::AllocError;
use strc_cli_output::text::push_bytes;

/// Adds what the styles mean of a picture in stages.
pub(crate) fn push_stage_legend(text: &mut Vec<u8>) -> Result<(), AllocError>
    ensures { OnOk result (text.new.items ≡ text.old.items ++ spec.stage_legend) }
{
    push_bytes(
        text,
        b"  subgraph cluster_legend {\n  label=\"legend\";\n  legend [shape=plaintext, label=\"\
bold arrow: goes from one stage to another\\l\
trapezium: deals items to the copies of a filter\\l\
box in 3D: one of these copies\\l\
trapezium upside down: takes up what they give\\l\
box in a stage: fires in turn, so many times a round\\l\"];\n  }\n",
    )
}

/// Adds what the styles mean of a picture with folded composite streams or with shares of the time;
/// nothing where it has neither.
pub(crate) fn push_legend(
    text: &mut Vec<u8>,
    is_folded: bool,
    has_shares: bool,
) -> Result<(), AllocError>
    ensures { OnOk result (text.new.items ≡ text.old.items
        ++ spec.legend is_folded has_shares) }
{
    if is_folded || has_shares {
        push_meanings(text, is_folded, has_shares)
    } else {
        Ok(())
    }
}

/// What the styles mean of one with either.
fn push_meanings(text: &mut Vec<u8>, is_folded: bool, has_shares: bool) -> Result<(), AllocError>
    ensures { OnOk result (text.new.items ≡ text.old.items
        ++ spec.meanings is_folded has_shares) }
{
    push_bytes(
        text,
        b"  subgraph cluster_legend {\n  label=\"legend\";\n  legend [shape=plaintext, label=\"",
    )?;
    push_folded_meaning(text, is_folded)?;
    push_share_meaning(text, has_shares)?;
    push_bytes(text, b"\"];\n  }\n")
}

/// What a folded composite stream is.
fn push_folded_meaning(text: &mut Vec<u8>, is_folded: bool) -> Result<(), AllocError>
    ensures { OnOk result (text.new.items ≡ text.old.items ++ spec.folded_words is_folded) }
{
    if is_folded {
        push_bytes(
            text,
            b"box with two tabs: a composite stream, its nodes not drawn\\l",
        )
    } else {
        Ok(())
    }
}

/// What the red of a node is.
fn push_share_meaning(text: &mut Vec<u8>, has_shares: bool) -> Result<(), AllocError>
    ensures { OnOk result (text.new.items ≡ text.old.items ++ spec.share_words has_shares) }
{
    if has_shares {
        push_bytes(text, b"red: the more of the time, the deeper\\l")
    } else {
        Ok(())
    }
}
