//! A network and its labels while they are edited.

ghost use Rattle.std.specs.Prelude.{◌≡◌, length, replicate, IfOk};
ghost use Rattle.pls_configuration.specs.declared.verdict.Verdict.{Verdict};
ghost use Rattle.pls_configuration.specs.Configuration.{ids_of};
ghost use Rattle.pls_labels.specs.Seen.{Seen};
ghost use Rattle.pls_recheck.specs.Snapshot.{IsCurrent};
ghost use Rattle.pls_recheck.specs.inner.Flags.{set_among};

use pls_configuration::Verdict;
use pls_facts::is_valid;
use pls_graph::Network;
use pls_graph_edits::note_places;
use pls_labels::LabelStore;
use pls_streams::NoMemory;
use std::alloc::Global;
use std::marker::Model;

/// A network and its labels while they are edited, with the nodes that are touched and the verdicts
/// of the last rounds, seen as the record `Snapshot`.
#[derive(Drop)]
pub struct EditedNetwork {
    pub(crate) net: Network,
    pub(crate) labels: LabelStore,
    // For each node whether it is touched.
    pub(crate) flags: Vec<bool>,
    // For each node whether it and its neighbours are known to be touched.
    pub(crate) around: Vec<bool>,
    // For each node what it answered last, with its identity.
    pub(crate) kept: Vec<(u32, Verdict)>,
}

impl Model for EditedNetwork {
    ghost use Rattle.pls_configuration.specs.Configuration.{ids_of};
    ghost use Rattle.pls_recheck.specs.Snapshot.{Snapshot};
    ghost use Rattle.pls_recheck.specs.inner.Flags.{MatchRows, marked};

    ghost Value = { Snapshot };

    ghost view = { λ snapshot. record {
      network = snapshot.net;
      labels = snapshot.labels;
      touched = marked (ids_of snapshot.net) snapshot.flags.items;
      kept = snapshot.kept.items;
    } };

    ghost invariant = { λ snapshot. MatchRows snapshot.net snapshot.labels snapshot.flags.items
        snapshot.around.items snapshot.kept.items };
}

impl EditedNetwork {
    /// The network with these labels, one a node, and all nodes touched. The one error is want of
    /// memory.
    pub fn start(
        alloc: Global,
        mut net: Network,
        labels: LabelStore,
    ) -> Result<EditedNetwork, NoMemory>
        requires { length labels ≡ length net }
        ensures network { IfOk result (λ snapshot. snapshot.network ≡ net) }
        ensures labels { IfOk result (λ snapshot. snapshot.labels ≡ labels) }
        ensures all { IfOk result (λ snapshot. snapshot.touched ≡ ids_of net) }
        ensures current { IfOk result
            (λ snapshot. (judge : Seen → Verdict) → IsCurrent judge snapshot) }
    {
        note_places(&mut net);
        EditedNetwork::begin(alloc, net, labels)
    }

    // As `start`, but without noting the places of the network first.
    fn begin(alloc: Global, net: Network, labels: LabelStore) -> Result<EditedNetwork, NoMemory>
        requires { length labels ≡ length net }
        ensures network { IfOk result (λ snapshot. snapshot.network ≡ net) }
        ensures labels { IfOk result (λ snapshot. snapshot.labels ≡ labels) }
        ensures all { IfOk result (λ snapshot. snapshot.touched ≡ ids_of net) }
        ensures current { IfOk result
            (λ snapshot. (judge : Seen → Verdict) → IsCurrent judge snapshot) }
    {
        let nodes = net.len();
        let flags = flags_of(alloc, true, nodes)?;
        let around = flags_of(alloc, false, nodes)?;
        let kept = vec![in alloc; (0, Verdict::Accept); nodes]?;
        Ok(EditedNetwork {
            net,
            labels,
            flags,
            around,
            kept,
        })
    }

    /// The network as it is now.
    pub fn network(&self) -> &Network
        ensures { result.now ≡ self.now.network }
    {
        &self.net
    }

    /// The labels as they are now, one a node.
    pub fn labels(&self) -> &LabelStore
        ensures labels { result.now ≡ self.now.labels }
        ensures lengths { length result.now ≡ length self.now.network }
    {
        &self.labels
    }

    /// How many nodes are touched.
    pub fn touched_count(&self) -> u32
        ensures { result ≡ length self.now.touched }
    {
        is_valid(&self.net);
        count_set(self.flags.as_slice()) as u32
    }
}

fn flags_of(alloc: Global, flag: bool, count: usize) -> Result<Vec<bool>, NoMemory>
    ensures { IfOk result (λ flags. flags.items ≡ replicate count flag) }
{
    Ok(vec![in alloc; flag; count]?)
}

fn count_set(flags: &[bool]) -> usize
    ensures { result ≡ set_among (length flags.now) flags.now }
{
    flags.iter().filter(|flag| **flag).count()
}
