//! Laws without a body: a node sees in its component what it sees in the network, and where all
//! nodes of a component accept, the component has the property.

ghost use Rattle.std.specs.Prelude.{◌≡◌, ◌<◌, ℕ, List, Contains, Some, length, slice_get};
ghost use Rattle.pls_labels.specs.Seen.{views};
ghost use Rattle.pls_scheme.specs.Judging.{verdicts_by};
ghost use Rattle.pls_components.specs.Components.{AreComponents, items_at};
ghost use Rattle.pls_components.specs.Parts.{AcceptAt};

use crate::component_list::Components;
use pls_facts::is_valid;
use pls_graph::Network;
use pls_labels::LabelStore;
use pls_scheme::{Checker, Scheme};

/// A node's view in its component by itself, with the labels there, is its view in the network, and
/// so the verdicts on both are the same. The node is that at place `i`; it stands at place `j` of
/// its component.
pub fn local_parts<K: Checker>(
    checker: &K,
    net: &Network,
    labels: &LabelStore,
    parts: &Components,
    i: usize,
)
    requires made { AreComponents net.now parts.now }
    requires each { length labels.now ≡ length net.now }
    requires within { i < length net.now }
    ensures views { (places : List ℕ) (j : ℕ) → Contains parts.now places
        → slice_get places j ≡ Some i
        → slice_get (views (items_at net.now places) (items_at labels.now places)) j
        ≡ slice_get (views net.now labels.now) i }
    ensures verdicts { (places : List ℕ) (j : ℕ) → Contains parts.now places
        → slice_get places j ≡ Some i
        → slice_get (verdicts_by (K.judge checker.now) (items_at net.now places)
        (items_at labels.now places)) j
        ≡ slice_get (verdicts_by (K.judge checker.now) net.now labels.now) i }
{
    is_valid(net);
}

/// Component `k` has the property where its nodes all accept, whatever the other nodes answer.
pub fn sound_parts<S: Scheme>(
    scheme: &S,
    net: &Network,
    labels: &LabelStore,
    parts: &Components,
    k: usize,
)
    requires made { AreComponents net.now parts.now }
    requires each { length labels.now ≡ length net.now }
    requires within { k < length parts.now }
    ensures { (places : List ℕ) → slice_get parts.now k ≡ Some places
        → AcceptAt (S.judge scheme.now) net.now labels.now places
        → S.holds scheme.now (items_at net.now places) }
{
    is_valid(net);
}
