//! Whether the edges of a network join all nodes when any one of them is left out, decided in a
//! time that grows with nodes and ports. A search in depth gives each edge a direction, and a
//! second one finds the nodes from which the directions lead back to the first. Nothing is proved
//! of what the two find, and it is checked: where the check passes, no edge is a bridge. Else an
//! edge that leads to a node without a way back is judged, by a search from each of its ends; it is
//! a bridge exactly where it alone leads from the nodes nearer to its one end to the others. Were
//! that edge no bridge either, each edge would be judged so.

ghost use Rattle.std.specs.Prelude.{◌≡◌, ◌<◌, ◌==◌, ◌↔◌, length, Contains, IfOk, IsTrue};
ghost use Rattle.std.specs.List.{list_any};
ghost use Rattle.pls_configuration.specs.Walk.{IsConnected};
ghost use Rattle.pls_graph.specs.Levels.{AreLevels};
ghost use Rattle.pls_graph.specs.Places.{beside};
ghost use Rattle.pls_diameter_bridges.specs.Bridgeless.{IsBridgeless};
ghost use Rattle.pls_diameter_bridges.specs.inner.Crossing.{HasWayRound, HaveWaysRound};

use crate::crossing::is_only_crossing;
use crate::descent::{Descent, descend, entry_at};
use crate::orientation::{is_strong, ranks_home};
use pls_facts::is_valid;
use pls_graph::Network;
use pls_scheme::Property;
use pls_search::levels;
use pls_streams::NoMemory;
use std::alloc::Global;

/// The property that for each edge the other edges join all nodes, so that no edge is a bridge.
#[derive(Clone, Copy, Debug, PartialEq, Eq)]
pub struct Bridgeless;

impl Bridgeless {
    /// The property that no edge is a bridge.
    pub fn new() -> Bridgeless {
        Bridgeless
    }
}

impl Property for Bridgeless {
    ghost holds = { λ _. IsBridgeless };

    fn decide(&self, alloc: Global, net: &Network) -> Result<bool, NoMemory> {
        is_bridgeless(alloc, net)
    }
}

fn is_bridgeless(alloc: Global, net: &Network) -> Result<bool, NoMemory>
    requires { IsConnected net.now }
    ensures { IfOk result (λ yes. IsTrue yes ↔ IsBridgeless net.now) }
{
    is_valid(net);
    let Descent { numbers, parents } = descend(alloc, net)?;
    let homes = ranks_home(alloc, net, &numbers, &parents)?;
    if is_strong(net, &numbers, &parents, &homes) {
        return Ok(true);
    }
    if has_bridge_down(alloc, net, &parents, &homes)? {
        return Ok(false);
    }
    all_have_ways_round(alloc, net)
}

// Whether the first tree edge from a ranked place to an unranked one is a bridge.
fn has_bridge_down(
    alloc: Global,
    net: &Network,
    parents: &[usize],
    homes: &[usize],
) -> Result<bool, NoMemory>
    requires { IsConnected net.now }
    ensures { IfOk result (λ yes. IsTrue yes → IsBridgeless net.now → ⊥) }
{
    for place in 0..net.len() {
        let parent = entry_at(parents, place);
        if entry_at(homes, place) == 0 && entry_at(homes, parent) > 0 {
            return is_bridge(alloc, net, place, parent);
        }
    }
    Ok(false)
}

// `false` where the two places are not neighbours.
fn is_bridge(alloc: Global, net: &Network, place: usize, other: usize) -> Result<bool, NoMemory>
    requires joined { IsConnected net.now }
    requires within { place < length net.now }
    ensures { IfOk result (λ yes. IsTrue yes → IsBridgeless net.now → ⊥) }
{
    is_valid(net);
    if !is_beside(net, place, other) {
        return Ok(false);
    }
    let round = ends_have_way_round(alloc, net, place, other)?;
    Ok(!round)
}

fn is_beside(net: &Network, place: usize, other: usize) -> bool
    requires { place < length net.now }
    ensures { result ≡ list_any (λ k. k == other) (beside net.now place) }
{
    let places = net.places(place);
    places.iter().any(|k| *k as usize == other)
}

fn all_have_ways_round(alloc: Global, net: &Network) -> Result<bool, NoMemory>
    requires { IsConnected net.now }
    ensures { IfOk result (λ yes. IsTrue yes ↔ IsBridgeless net.now) }
{
    for place in 0..net.len() {
        if !have_ways_round(alloc, net, place)? {
            return Ok(false);
        }
    }
    Ok(true)
}

// Tests only the edges to later places.
fn have_ways_round(alloc: Global, net: &Network, place: usize) -> Result<bool, NoMemory>
    requires joined { IsConnected net.now }
    requires within { place < length net.now }
    ensures { IfOk result (λ yes. IsTrue yes ↔ HaveWaysRound net.now place) }
{
    for other in net.places(place) {
        let other = *other as usize;
        if !later_has_way_round(alloc, net, place, other)? {
            return Ok(false);
        }
    }
    Ok(true)
}

// `true` where `other` is earlier: that edge is tested from there.
fn later_has_way_round(
    alloc: Global,
    net: &Network,
    place: usize,
    other: usize,
) -> Result<bool, NoMemory>
    requires joined { IsConnected net.now }
    requires within { place < length net.now }
    requires beside { Contains (beside net.now place) other }
    requires inside { other < length net.now }
    ensures { IfOk result (λ yes. IsTrue yes ↔ (place < other → HasWayRound net.now place other)) }
{
    if other <= place {
        return Ok(true);
    }
    ends_have_way_round(alloc, net, place, other)
}

// Searches from both places, which must be neighbours.
fn ends_have_way_round(
    alloc: Global,
    net: &Network,
    place: usize,
    other: usize,
) -> Result<bool, NoMemory>
    requires joined { IsConnected net.now }
    requires within { place < length net.now }
    requires beside { Contains (beside net.now place) other }
    requires inside { other < length net.now }
    ensures { IfOk result (λ yes. IsTrue yes ↔ HasWayRound net.now place other) }
{
    let near = levels(alloc, net, place)?;
    let far = levels(alloc, net, other)?;
    Ok(has_way_round(net, place, &near, other, &far))
}

// `near` and `far` are the levels from `place` and from `other`.
fn has_way_round(
    net: &Network,
    place: usize,
    near: &[Option<u32>],
    other: usize,
    far: &[Option<u32>],
) -> bool
    requires joined { IsConnected net.now }
    requires within { place < length net.now }
    requires beside { Contains (beside net.now place) other }
    requires near { AreLevels net.now place near.now }
    requires far { AreLevels net.now other far.now }
    ensures { IsTrue result ↔ HasWayRound net.now place other }
{
    !is_only_crossing(net, place, near, other, far)
}
