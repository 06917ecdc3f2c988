//! Levels upon levels, until one fragment holds all nodes.

ghost use Rattle.std.specs.Prelude.{◌≡◌, ◌<◌, ◌≤◌, ◌^◌, List, replicate, length, All, IfOk, IfSome, IfNone, true, false};
ghost use Rattle.pls_configuration.specs.Configuration.{ids_of};
ghost use Rattle.pls_configuration.specs.Walk.{Edge, edges_of};
ghost use Rattle.pls_facts.specs.Lightest.{IsLightest, weight_of};
ghost use Rattle.pls_facts.specs.SpanningTree.{IsSpanningTree, IsTree, pointed_edges};
ghost use Rattle.pls_boruvka.specs.Boruvka.{AreLevelLists};
ghost use Rattle.pls_boruvka.specs.inner.Chosen.{AreOne, SomeApart};

use crate::choosing::{choices_of, no_choices};
use crate::level_lists::LevelLists;
use crate::round::Round;
use crate::tops::{none_noted, parents_of, tops_with};
use pls_graph::Network;
use pls_streams::NoMemory;
use std::alloc::Global;

/// The levels of each node, in the order of the nodes, or `None` where some spanning tree is
/// lighter than the pointed edges. There are at most log2 n levels of n nodes, and each takes one
/// pass over nodes and ports. The one error is want of memory.
pub fn boruvka_levels(alloc: Global, net: &Network) -> Result<Option<LevelLists>, NoMemory>
    requires tree { IsTree net.now }
    ensures levels { IfOk result (λ found. IfSome found (λ lists.
        AreLevelLists net.now lists)) }
    ensures few { IfOk result (λ found. IfSome found (λ lists.
        All (λ list. 2 ^ length list ≤ length net.now) lists)) }
    ensures lightest { IfOk result (λ found. IfSome found (λ lists.
        IsLightest (edges_of net.now) (pointed_edges net.now) (ids_of net.now))) }
    ensures lighter { IfOk result (λ found. IfNone found ((other : List Edge)
        × IsSpanningTree (edges_of net.now) other (ids_of net.now)
        × (weight_of other < weight_of (pointed_edges net.now)))) }
{
    let mut rounds = Vec::new(alloc);
    let parents = parents_of(alloc, net)?;
    let parents = parents.as_slice();
    let mut joined = none_joined(alloc, net.len())?;
    let joined = joined.as_mut_slice();
    let mut noted = none_noted(alloc, net.len())?;
    let noted = noted.as_mut_slice();
    let mut choices = no_choices(alloc, net.len())?;
    let choices = choices.as_mut_slice();
    loop {
        let tops = tops_with(alloc, parents, joined, noted)?;
        let tops = tops.as_slice();
        if are_one(tops) {
            let lists = LevelLists::of_rounds(alloc, rounds, net.len())?;
            return Ok(Some(lists));
        }
        choices_of(net, parents, tops, choices);
        let Some(round) = Round::of(alloc, net, tops, choices, noted)? else {
            return Ok(None);
        };
        round.join(joined);
        rounds.push(round)?;
    }
}

fn are_one(tops: &[u32]) -> bool
    requires { 0 < length tops.now }
    ensures one { result ≡ true → AreOne tops.now }
    ensures apart { result ≡ false → SomeApart tops.now }
{
    for top in tops {
        if *top != tops[0] {
            return false;
        }
    }
    true
}

fn none_joined(alloc: Global, count: usize) -> Result<Vec<bool>, NoMemory>
    ensures { IfOk result (λ joined. joined.items ≡ replicate count false) }
{
    Ok(vec![in alloc; false; count]?)
}
