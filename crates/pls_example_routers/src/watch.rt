//! What the nodes find, and what follows where none of them rejects.

ghost use Rattle.std.specs.Prelude.{◌≡◌, ◌<◌, length, IfOk, IsTrue};
ghost use Rattle.pls_configuration.specs.Walk.{IsConnected};
ghost use Rattle.pls_facts.specs.SpanningTree.{IsTree};

use pls_bits::Gamma;
use pls_configuration::Verdict;
use pls_graph::Network;
use pls_labels::{LabelStore, View};
use pls_pointer::Tree;
use pls_scheme::certifies;
use pls_streams::{NoMemory, Steps};
use std::alloc::Global;

/// The verdict of the node at place i on what it sees: itself, its label and its neighbours'
/// labels.
pub(crate) fn verdict_at(
    alloc: Global,
    net: &Network,
    labels: &LabelStore,
    i: usize,
) -> Result<Verdict, NoMemory>
    requires place { i < length net.now }
    requires each { length labels.now ≡ length net.now }
{
    let view = View::of(alloc, net, labels, i)?;
    Ok(Tree::<Gamma>::new().judge(&view))
}

/// Whether all nodes accept. Then the pointers are a spanning tree, whoever made the labels.
pub(crate) fn is_a_tree(alloc: Global, net: &Network, labels: &LabelStore) -> Result<bool, NoMemory>
    requires connected { IsConnected net.now }
    requires each { length labels.now ≡ length net.now }
    ensures { IfOk result (λ yes. IsTrue yes → IsTree net.now) }
{
    certifies(alloc, &Tree::<Gamma>::new(), net, labels, &mut Steps::new())
}
