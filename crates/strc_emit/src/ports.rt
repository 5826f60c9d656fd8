// The channel at each port of each node.

ghost use Rattle.std.specs.Prelude.{◌≡◌, IfOk, length, map, vec_items};

use std::alloc::Global;
use strc_lex_names::memory::NoMemory;
use strc_sched_rings::port_rings::PortRings;

/// The rows of a table of so many nodes.
pub(crate) fn rows(
    alloc: Global,
    ports: &PortRings,
    nodes: usize,
) -> Result<Vec<Vec<Option<usize>>>, NoMemory>
    requires { length ports.now ≡ nodes }
    ensures { IfOk result (λ rows. map vec_items rows.items ≡ ports.now) }
{
    let mut rows = Vec::with_capacity(alloc, nodes)?;
    for node in 0..nodes {
        rows.push(ports.at(node).to_vec(alloc)?)?;
    }
    Ok(rows)
}
