// Which ring is at each port of a graph's nodes.

ghost use Rattle.std.specs.Prelude.{◌≡◌, ◌<◌, ◌∷◌, length, map, take, replicate, None, Some};
ghost use Rattle.std.specs.Prelude.{slice_set, slice_index_or, All, IfOk};
ghost use Rattle.std.specs.Vec.{vec_items};
ghost use Rattle.strc_sched_laws.specs.Wiring.{unwired, ports_at, HasPort, IsWired};

use std::alloc::{AllocError, Global};
use std::marker::Model;
use strc_elab_graph::graph::Port;

/// For each port of each node the number of the ring that is there. Contracts see lists.
#[derive(Drop)]
pub struct PortRings {
    rings: Vec<Vec<Option<usize>>>,
}

impl Model for PortRings {
    ghost use Rattle.std.specs.Prelude.{ℕ, List, Option, map};

    ghost Value = { List (List (Option ℕ)) };

    ghost view = { λ p. map (λ rings. rings.items) p.rings.items };
}

impl PortRings {
    /// A ring for each of these ends of channels, by their numbers, at nodes with so many ports.
    pub(crate) fn wired(
        alloc: Global,
        counts: &[usize],
        ends: &[Port],
    ) -> Result<PortRings, AllocError>
        requires ends { All (HasPort counts.now) ends.now }
        ensures wired { IfOk result (IsWired ends.now) }
        ensures nodes { IfOk result (λ rings. length rings ≡ length counts.now) }
    {
        let mut rings = PortRings::unwired(alloc, counts)?;
        for number in 0..ends.len() {
            let end = ends[number];
            rings.put(end.node as usize, end.port as usize, number);
        }
        Ok(rings)
    }

    /// No ring is at any of so many ports of each node.
    fn unwired(alloc: Global, counts: &[usize]) -> Result<PortRings, AllocError>
        ensures { IfOk result (λ rings. rings ≡ unwired counts.now) }
    {
        let mut rings = Vec::with_capacity(alloc, counts.len())?;
        for count in counts {
            rings.push(Vec::from_elem(alloc, None, *count)?)?;
        }
        Ok(PortRings { rings })
    }

    /// Equal ones.
    pub(crate) fn copy(&self, alloc: Global) -> Result<PortRings, AllocError>
        ensures { IfOk result (λ copy. copy ≡ self.now) }
    {
        Ok(PortRings {
            rings: copy_ports(alloc, &self.rings)?,
        })
    }

    /// A ring is at a port.
    fn put(&mut self, node: usize, port: usize, ring: usize)
        requires node { node < length self.old }
        requires port { port < length (ports_at self.old node) }
        ensures { self.new ≡ slice_set self.old node
            (slice_set (ports_at self.old node) port (Some ring)) }
    {
        self.rings[node][port] = Some(ring);
    }

    /// The rings at a node's ports.
    pub fn at(&self, node: usize) -> &[Option<usize>]
        requires { node < length self.now }
        ensures { result.now ≡ ports_at self.now node }
    {
        self.rings[node].as_slice()
    }
}

/// Equal rings of all nodes' ports.
fn copy_ports(
    alloc: Global,
    rings: &[Vec<Option<usize>>],
) -> Result<Vec<Vec<Option<usize>>>, AllocError>
    ensures { IfOk result (λ copy. map vec_items copy.items ≡ map vec_items rings.now) }
{
    let mut copy = Vec::with_capacity(alloc, rings.len())?;
    for ports in rings {
        copy.push(ports.to_vec(alloc)?)?;
    }
    Ok(copy)
}
