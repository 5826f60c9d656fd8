// The labels and the paths of nodes.

ghost use Rattle.std.specs.Prelude.{◌≡◌, ◌++◌, [], IfOk, map};
ghost use Rattle.strc_elab_paths.specs.Outlines.{outline};
ghost use Rattle.strc_elab_paths.specs.Paths as spec;

use crate::outline::{Part, outline_of};
use std::alloc::{AllocError, Global};
use strc_elab_stream::stream::Stream;

/// The label of each node among parts, in order of their numbers.
pub fn labels_of(alloc: Global, parts: &[Part]) -> Result<Vec<Vec<u8>>, AllocError>
    ensures { IfOk result (λ labels. map (λ l. l.items) labels.items ≡ spec.labels_of parts.now) }
{
    let mut labels = Vec::new(alloc);
    for part in parts {
        if let Part::Node(label) = part {
            labels.push(label.as_bytes().to_vec(alloc)?)?;
        }
    }
    Ok(labels)
}

/// The path of each node of a stream, in order of their numbers: the labels of the streams that it
/// is in, the outermost first, and its own, with ` / ` between them.
pub fn paths_of(alloc: Global, stream: &Stream) -> Result<Vec<Vec<u8>>, AllocError>
    ensures { IfOk result (λ paths. map (λ p. p.items) paths.items
        ≡ spec.paths_of (outline [] stream.now)) }
{
    let parts = outline_of(alloc, stream)?;
    node_paths(alloc, &parts)
}

/// The path of each node among parts.
fn node_paths(alloc: Global, parts: &[Part]) -> Result<Vec<Vec<u8>>, AllocError>
    ensures { IfOk result (λ paths. map (λ p. p.items) paths.items ≡ spec.paths_of parts.now) }
{
    let mut paths = Vec::new(alloc);
    let mut around = Vec::new(alloc);
    for part in parts {
        match part {
            Part::Node(label) => paths.push(joined(alloc, &around, label.as_bytes())?)?,
            Part::Open(label) => {
                let mut inner = joined(alloc, &around, label.as_bytes())?;
                inner.extend_from_slice(b" / ")?;
                around.push(inner)?;
            }
            Part::Close => {
                let _ = around.pop();
            }
        }
    }
    Ok(paths)
}

/// A label after what the innermost of these composite streams has before its parts.
fn joined(alloc: Global, around: &[Vec<u8>], label: &[u8]) -> Result<Vec<u8>, AllocError>
    ensures { IfOk result (λ path. path.items
        ≡ spec.before (map (λ a. a.items) around.now) ++ label.now) }
{
    let mut path = before(around).to_vec(alloc)?;
    path.extend_from_slice(label)?;
    Ok(path)
}

/// What the innermost of these composite streams has before its parts.
#[tactic(auto, using(crate::proofs::Lasts::last_text, crate::proofs::Lasts::no_text))]
fn before(around: &[Vec<u8>]) -> &[u8]
    ensures { result.now ≡ spec.before (map (λ a. a.items) around.now) }
{
    match around.last() {
        Some(text) => text.as_slice(),
        None => b"",
    }
}
