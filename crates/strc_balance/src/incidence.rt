// The channels at each node.

ghost use Rattle.std.specs.Prelude.{◌≡◌, ℕ, ◌<◌, [], ◌∷◌, ◌++◌, length, replicate, All, IfOk, OnOk};
ghost use Rattle.std.specs.Prelude.{slice_set};
ghost use Rattle.strc_balance.specs.Balance.{HasRates};
ghost use Rattle.strc_balance.specs.Frontiers.{channels_at, IsIncidence};

use crate::equation::Equation;
use std::alloc::{AllocError, Global};
use std::marker::Model;

/// For each node the channels that have an end there.
#[derive(Drop)]
pub(crate) struct Incidence {
    channels: Vec<Vec<usize>>,
}

impl Model for Incidence {
    ghost use Rattle.std.specs.Prelude.{ℕ, List, map};

    ghost Value = { List (List ℕ) };

    ghost view = { λ i. map (λ channels. channels.items) i.channels.items };
}

impl Incidence {
    /// So many nodes without channels.
    fn new(alloc: Global, size: usize) -> Result<Incidence, AllocError>
        ensures { IfOk result (λ lists. lists ≡ replicate size []) }
    {
        let mut channels = Vec::new(alloc);
        for _node in 0..size {
            channels.push(Vec::new(alloc))?;
        }
        Ok(Incidence { channels })
    }

    /// Adds a channel at a node.
    fn add(&mut self, node: usize, channel: usize) -> Result<(), AllocError>
        requires { node < length self.old }
        ensures { OnOk result (self.new ≡ slice_set self.old node
            (channels_at self.old node ++ channel ∷ [])) }
    {
        self.channels[node].push(channel)?;
        Ok(())
    }

    /// The channels at a node.
    pub(crate) fn at(&self, node: usize) -> &[usize]
        requires { node < length self.now }
        ensures { result.now ≡ channels_at self.now node }
    {
        self.channels[node].as_slice()
    }
}

/// The channels at each of so many nodes.
pub(crate) fn incidence_of(
    alloc: Global,
    equations: &[Equation],
    size: usize,
) -> Result<Incidence, AllocError>
    requires { All (HasRates size) equations.now }
    ensures listed { IfOk result (λ lists. IsIncidence lists equations.now) }
    ensures numbers { IfOk result (λ lists. (node : ℕ) →
        All (λ channel. channel < length equations.now) (channels_at lists node)) }
    ensures size { IfOk result (λ lists. length lists ≡ size) }
{
    let mut incidence = Incidence::new(alloc, size)?;
    for channel in 0..equations.len() {
        let equation = equations[channel];
        incidence.add(equation.source, channel)?;
        incidence.add(equation.target, channel)?;
    }
    Ok(incidence)
}
