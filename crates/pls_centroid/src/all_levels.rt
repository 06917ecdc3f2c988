//! Level upon level, until each node has been a centroid.

ghost use Rattle.std.specs.Prelude.{◌≡◌, ◌≤◌, ◌*◌, ◌^◌, All, length, map, IfOk};
ghost use Rattle.std.specs.List.{list_all};
ghost use Rattle.pls_facts.specs.Parents.{NoParentsReturn};
ghost use Rattle.pls_facts.specs.SpanningTree.{IsTree};
ghost use Rattle.pls_search.specs.SubtreeSizes.{AreParentsWithin, HasParentAt};
ghost use Rattle.pls_centroid.specs.Levels.{AreCentroidLists};
ghost use Rattle.pls_centroid.specs.inner.Rooted.{AreBehindParents};
ghost use Rattle.pls_centroid.specs.inner.Rounds.{AreAllRounds, IsRooted};

use crate::centroid_lists::CentroidLists;
use crate::level_entry::LevelEntry;
use crate::rooted::{order_of, parents_of, weights_of};
use crate::round::round_of;
use pls_graph::Network;
use pls_search::pointer_depths;
use pls_streams::NoMemory;
use std::alloc::Global;

/// The centroid levels of each node, in the order of the nodes, of a network whose pointers make a
/// tree. A node of n has at most log2 n + 1 of them, rounded down. The one error is want of memory.
pub fn centroid_levels(alloc: Global, net: &Network) -> Result<CentroidLists, NoMemory>
    requires tree { IsTree net.now }
    ensures levels { IfOk result (λ lists. AreCentroidLists net.now lists) }
    ensures few { IfOk result (λ lists.
        All (λ list. 2 ^ length list ≤ 2 * length net.now) lists) }
{
    let count = net.len();
    let Some(depths) = pointer_depths(alloc, net)? else {
        // No chain of pointers of a tree returns.
        unreachable!()
    };
    let depths = depths.as_slice();
    let order = order_of(alloc, depths)?;
    let order = order.as_slice();
    let parents = parents_of(alloc, net)?;
    let parents = parents.as_slice();
    let weights = weights_of(alloc, net)?;
    let weights = weights.as_slice();
    let rounds = all_rounds(alloc, net, order, parents, weights)?;
    let lists = CentroidLists::of_rounds(alloc, rounds, count)?;
    Ok(lists)
}

// Until each node has been a centroid.
fn all_rounds(
    alloc: Global,
    net: &Network,
    order: &[usize],
    parents: &[Option<usize>],
    weights: &[u32],
) -> Result<Vec<Vec<LevelEntry>>, NoMemory>
    requires rooted { IsRooted net.now parents.now weights.now }
    requires few { length parents.now ≤ 32768 }
    requires each { length parents.now ≡ length net.now }
    requires weights { length weights.now ≡ length parents.now }
    requires inside { AreParentsWithin parents.now }
    requires never_returns { NoParentsReturn (HasParentAt parents.now) }
    requires order { AreBehindParents parents.now order.now }
    ensures { IfOk result (λ rounds.
        AreAllRounds net.now (map (λ round. round.items) rounds.items)) }
{
    let mut rounds = Vec::new(alloc);
    let mut taken = vec![in alloc; false; parents.len()]?;
    for _ in 0..parents.len() {
        if are_all(taken.as_slice()) {
            return Ok(rounds);
        }
        let round = round_of(alloc, net, order, parents, weights, taken.as_slice())?;
        rounds.push(round.said)?;
        taken = round.taken;
    }
    Ok(rounds)
}

fn are_all(taken: &[bool]) -> bool
    ensures { result ≡ list_all (λ flag. flag) taken.now }
{
    taken.iter().all(|flag| *flag)
}
