//! What a look shows of a node.

ghost use Rattle.std.specs.Prelude.{◌≡◌};
ghost use Rattle.pls_report.specs.Look.{told_ports};

use pls_sim::{Outcome, PortNumbers};
use std::marker::Model;

/// What a look shows of a node, seen as its identity, its outcome and the numbers of its stale
/// ports.
#[derive(Drop)]
pub struct LookRow {
    id: u32,
    outcome: Outcome,
    stale: PortNumbers,
}

impl Model for LookRow {
    ghost use Rattle.std.specs.Prelude.{ℕ, List};
    ghost use Rattle.pls_sim.specs.declared.outcome.Outcome.{Outcome};

    ghost Value = { ℕ × Outcome × List ℕ };

    ghost view = { λ row. (row.id, row.outcome, row.stale) };
}

impl LookRow {
    /// What is shown of the node of this identity.
    pub fn new(id: u32, outcome: Outcome, stale: PortNumbers) -> LookRow
        ensures { result ≡ (id, outcome, stale) }
    {
        LookRow { id, outcome, stale }
    }

    /// The identity of the node.
    pub fn id(&self) -> u32
        ensures { result ≡ self.now.0 }
    {
        self.id
    }

    /// What has become of the node.
    pub fn outcome(&self) -> &Outcome
        ensures { result.now ≡ self.now.1 }
    {
        &self.outcome
    }

    /// What has become of the node, without the rest.
    pub fn into_outcome(self) -> Outcome
        ensures { result ≡ self.1 }
    {
        self.outcome
    }

    /// The numbers of its ports whose label is not the neighbour's newest, in rising order.
    pub fn stale(&self) -> &[u32]
        ensures { result.now ≡ self.now.2 }
    {
        self.stale.as_slice()
    }

    /// Shows other ports as stale.
    pub(crate) fn set_stale(&mut self, stale: PortNumbers)
        ensures { self.new ≡ (self.old.0, self.old.1, stale) }
    {
        self.stale = stale;
    }
}

/// The stale ports that a node's line tells of.
pub(crate) fn told_ports<'a>(outcome: &Outcome, stale: &'a [u32]) -> &'a [u32]
    ensures { result.now ≡ told_ports outcome.now stale.now }
{
    match outcome {
        Outcome::Decided(_) => stale,
        Outcome::Waiting(_) => &[],
    }
}
