//! A network and its labels with a checker that remembers what they say.

ghost use Rattle.std.specs.Prelude.{◌≡◌, ◌≤◌, [], length, map, None, IfNone, IfOk, IfSome, OnErr, OnOk};
ghost use Rattle.pls_configuration.specs.Configuration.{ids_of};
ghost use Rattle.pls_streams.specs.Steps.{up_by};
ghost use Rattle.pls_scheme.specs.Judging.{round_by};
ghost use Rattle.pls_recheck.specs.Snapshot.{EndsEarly};

use crate::bench::Bench;
use crate::by_memory::ByMemory;
use crate::edited_network::EditedNetwork;
use pls_configuration::Verdict;
use pls_edits::{Edit, EditError};
use pls_graph::Network;
use pls_labels::LabelStore;
use pls_scheme::Remembers;
use pls_streams::{NoMemory, Steps};
use std::alloc::Global;
use std::marker::Model;

/// An [`EditedNetwork`] with the checker of all its rounds, and what it remembers of each label, so
/// that none is read again in each round. Seen as the record `Rechecked`, the checker being the
/// judge.
#[derive(Drop)]
pub struct Monitor<K: Remembers> {
    pub(crate) checker: K,
    pub(crate) core: EditedNetwork,
    // For each node what is remembered of its label.
    pub(crate) memories: Vec<K::Memory>,
}

impl<K: Remembers> Model for Monitor<K> {
    ghost use Rattle.std.specs.Prelude.{◌≡◌, map};
    ghost use Rattle.pls_recheck.specs.Rechecked.{Rechecked};
    ghost use Rattle.pls_recheck.specs.Snapshot.{IsCurrent};

    ghost Value = { Rechecked K };

    ghost view = { λ monitor. record {
      network = monitor.core.network;
      labels = monitor.core.labels;
      judge = monitor.checker;
      touched = monitor.core.touched;
    } };

    ghost invariant = { λ monitor. IsCurrent (K.judge monitor.checker) monitor.core
        × (monitor.memories.items ≡ map (K.told monitor.checker) monitor.core.labels) };
}

impl<K: Remembers + Drop> Monitor<K> {
    /// The network with these labels, one a node, and this checker, which looks at each label. All
    /// nodes are touched. The one error is want of memory: all three values are dropped then.
    pub fn start(
        alloc: Global,
        net: Network,
        labels: LabelStore,
        checker: K,
    ) -> Result<Monitor<K>, NoMemory>
        requires { length labels ≡ length net }
        ensures network { IfOk result (λ monitor. monitor.network ≡ net) }
        ensures labels { IfOk result (λ monitor. monitor.labels ≡ labels) }
        ensures judge { IfOk result (λ monitor. monitor.judge ≡ checker) }
        ensures all { IfOk result (λ monitor. monitor.touched ≡ ids_of net) }
    {
        let memories = remember_all(alloc, &checker, &labels)?;
        let core = EditedNetwork::start(alloc, net, labels)?;
        Ok(Monitor {
            checker,
            core,
            memories,
        })
    }
}

impl<K: Remembers> Monitor<K> {
    /// Asks the bench once for each touched node and for no other, in the order of the nodes, about
    /// the checker at its place, and gives their number. None is touched afterwards. The one error
    /// is want of memory: the nodes that were not checked are touched still.
    pub fn round<B: Bench>(
        &mut self,
        alloc: Global,
        bench: &mut B,
        steps: &mut Steps,
    ) -> Result<u32, NoMemory>
        ensures network { self.new.network ≡ self.old.network }
        ensures labels { self.new.labels ≡ self.old.labels }
        ensures judge { self.new.judge ≡ self.old.judge }
        ensures number { IfOk result (λ checked. checked ≡ length self.old.touched) }
        ensures none { OnOk result (self.new.touched ≡ []) }
        ensures asked { IfOk result
            (λ checked. B.asked bench.new ≡ up_by checked (B.asked bench.old)) }
        ensures steps { IfOk result (λ checked. steps.new ≡ up_by checked steps.old) }
        ensures refused { OnErr result (EndsEarly self.old.touched self.new.touched
            (B.asked bench.old) (B.asked bench.new) steps.old steps.new) }
    {
        let asks = ByMemory {
            checker: &self.checker,
            memories: self.memories.as_slice(),
        };
        self.core.round_by(alloc, &asks, bench, steps)
    }

    /// The identity of each node and the checker's verdict on its view, as a full round of the
    /// network and the labels gives them, or `None` where a node is touched. It takes no memory.
    pub fn verdicts(&self) -> Option<&[(u32, Verdict)]>
        ensures touched { IfNone result (1 ≤ length self.now.touched) }
        ensures none { IfSome result (λ _. self.now.touched ≡ []) }
        ensures all { IfSome result (λ found. found.now
            ≡ round_by (K.judge self.now.judge) self.now.network self.now.labels) }
    {
        self.core.verdicts()
    }

    /// The network as it is now.
    pub fn network(&self) -> &Network
        ensures { result.now ≡ self.now.network }
    {
        self.core.network()
    }

    /// The labels as they are now, one a node.
    pub fn labels(&self) -> &LabelStore
        ensures labels { result.now ≡ self.now.labels }
        ensures lengths { length result.now ≡ length self.now.network }
    {
        self.core.labels()
    }

    /// How many nodes are touched.
    pub fn touched_count(&self) -> u32
        ensures { result ≡ length self.now.touched }
    {
        self.core.touched_count()
    }
}

fn remember_all<K: Remembers>(
    alloc: Global,
    checker: &K,
    labels: &LabelStore,
) -> Result<Vec<K::Memory>, NoMemory>
    ensures { IfOk result (λ memories. memories.items ≡ map (K.told checker.now) labels.now) }
{
    let mut memories = Vec::with_capacity(alloc, labels.len())?;
    for i in 0..labels.len() {
        memories.push(checker.remember(alloc, &labels.bits(i))?)?;
    }
    Ok(memories)
}
