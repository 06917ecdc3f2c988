//! Whether rule 6 holds at each port of a network, before anything is written.

ghost use Rattle.std.specs.Prelude.{◌≡◌, ◌↔◌, ℕ, ◌<◌, ◌||◌, length, map, slice_get, Some, Contains, IsTrue, true};
ghost use Rattle.std.specs.List.{list_any, zip};
ghost use Rattle.pls_configuration.specs.declared.row.NodeRow.{NodeRow};
ghost use Rattle.pls_graph.specs.Places.{named_places};
ghost use Rattle.pls_scheme.specs.Marked.{AreSaidBy};
ghost use Rattle.pls_scheme.specs.Reading.{port_where, port_with, read_where, reading};
ghost use Rattle.pls_scheme.specs.inner.Holding.{AreKnown};
ghost use Rattle.pls_pathmax.specs.Labels.{PathMaxLabel};
ghost use Rattle.pls_levels.specs.Rules.{is_in_tree};
ghost use Rattle.pls_pathmax.specs.Rules.{meet_lightly, other_edges_are_heavy};

use crate::comparing::meet_lightly;
use crate::levels::PathMaxLabel;
use pls_centroid::CentroidList;
use pls_configuration::{Port, State};
use pls_graph::Network;
use pls_levels::is_in_tree;

// Whether rule 6 holds at every node.
pub(crate) fn other_edges_are_heavy(net: &Network, labels: &[PathMaxLabel]) -> bool
    requires { length labels.now ≡ length net.now }
    ensures { (say : ℕ → PathMaxLabel) → AreSaidBy say net.now labels.now → IsTrue result
        ↔ ((row : NodeRow) → Contains net.now row
        → other_edges_are_heavy (read_where say row) ≡ true) }
{
    for i in 0..net.len() {
        if !are_heavy_at(net, labels, i) {
            return false;
        }
    }
    true
}

fn are_heavy_at(net: &Network, labels: &[PathMaxLabel], i: usize) -> bool
    requires each { length labels.now ≡ length net.now }
    requires within { i < length net.now }
    ensures { (say : ℕ → PathMaxLabel) → AreSaidBy say net.now labels.now → (row : NodeRow)
        → slice_get net.now i ≡ Some row → result ≡ other_edges_are_heavy (read_where say row) }
{
    let (_, state) = net.node(i);
    are_heavy(net, labels, state, &labels[i], net.ports(i), net.places(i))
}

fn are_heavy(
    net: &Network,
    labels: &[PathMaxLabel],
    state: State,
    own: &PathMaxLabel,
    ports: &[Port],
    places: &[u32],
) -> bool
    requires each { length labels.now ≡ length net.now }
    requires known { AreKnown net.now ports.now }
    requires places { places.now ≡ named_places net.now ports.now }
    ensures { (say : ℕ → PathMaxLabel) → AreSaidBy say net.now labels.now → (id : ℕ) → result
        ≡ other_edges_are_heavy (reading id state own.now (map (port_where say) ports.now)) }
{
    for (p, port) in ports.iter().enumerate() {
        if !is_heavy(state.up, own, p, port.weight, &labels[places[p] as usize]) {
            return false;
        }
    }
    true
}

// Also true where the edge is in the tree.
fn is_heavy(
    up: Option<u32>,
    own: &PathMaxLabel,
    number: usize,
    weight: u32,
    theirs: &PathMaxLabel,
) -> bool
    ensures { result ≡ (is_in_tree up own.now number (port_with weight theirs.now)
        || list_any (λ both. meet_lightly weight both.0 both.1)
        (zip own.now.levels theirs.now.levels)) }
{
    is_in_tree(up, number, own.own, theirs.parent)
        || meet_on_some(&own.levels, &theirs.levels, u64::from(weight))
}

fn meet_on_some(mine: &CentroidList, theirs: &CentroidList, weight: u64) -> bool
    ensures { result ≡ list_any (λ both. meet_lightly weight both.0 both.1)
        (zip mine.now theirs.now) }
{
    for i in 0..mine.len().min(theirs.len()) {
        if meet_lightly(weight, &mine.at(i), &theirs.at(i)) {
            return true;
        }
    }
    false
}
