//! One level of all nodes.

ghost use Rattle.std.specs.Prelude.{◌≡◌, ◌<◌, ◌≤◌, All, ℕ, suc, length, IfOk, Some, slice_get};
ghost use Rattle.pls_facts.specs.Parents.{NoParentsReturn};
ghost use Rattle.pls_search.specs.SubtreeSizes.{AreParentsWithin, HasParentAt};
ghost use Rattle.pls_centroid.specs.inner.Rooted.{AreBehindParents};
ghost use Rattle.pls_centroid.specs.inner.Rounds.{AreSaidAt, AreTaken, AreTakenToo, IsRooted, IsRound, is_own, said_at};

use crate::level_entry::LevelEntry;
use crate::reaching::{Way, ways_of};
use crate::splitting::{centroids_of, parents_left, tops_of};
use pls_graph::Network;
use pls_streams::NoMemory;
use std::alloc::Global;

// What a level says of each node, and which nodes have been centroids then.
#[derive(Drop)]
pub(crate) struct Round {
    // Of each node its level, or nothing where it has been a centroid before.
    pub(crate) said: Vec<LevelEntry>,
    // Whether it has been a centroid, on this level or before.
    pub(crate) taken: Vec<bool>,
}

// `taken` are the nodes that have been centroids before.
pub(crate) fn round_of(
    alloc: Global,
    net: &Network,
    order: &[usize],
    parents: &[Option<usize>],
    weights: &[u32],
    taken: &[bool],
) -> Result<Round, NoMemory>
    requires few { length parents.now ≤ 32768 }
    requires each { length parents.now ≡ length net.now }
    requires weights { length weights.now ≡ length parents.now }
    requires taken { length taken.now ≡ length parents.now }
    requires inside { AreParentsWithin parents.now }
    requires never_returns { NoParentsReturn (HasParentAt parents.now) }
    requires order { AreBehindParents parents.now order.now }
    ensures said { IfOk result (λ round. (number : ℕ)
        → IsRooted net.now parents.now weights.now → AreTaken net.now number taken.now
        → IsRound net.now number round.said.items) }
    ensures taken { IfOk result (λ round. (number : ℕ)
        → IsRooted net.now parents.now weights.now → AreTaken net.now number taken.now
        → AreTaken net.now (suc number) round.taken.items) }
    ensures each { IfOk result (λ round. length round.taken.items ≡ length parents.now) }
{
    let left = parents_left(alloc, parents, taken)?;
    let left = left.as_slice();
    let tops = tops_of(alloc, order, left)?;
    let tops = tops.as_slice();
    let centroids = centroids_of(alloc, left, tops)?;
    let centroids = centroids.as_slice();
    let ways = ways_of(alloc, order, weights, left, tops, centroids)?;
    let said = levels_of_places(alloc, net, taken, tops, centroids, ways.as_slice())?;
    let taken = with_centroids(alloc, tops, centroids, taken)?;
    Ok(Round { said, taken })
}

fn levels_of_places(
    alloc: Global,
    net: &Network,
    taken: &[bool],
    tops: &[usize],
    centroids: &[Option<usize>],
    ways: &[Option<Way>],
) -> Result<Vec<LevelEntry>, NoMemory>
    requires taken { length taken.now ≡ length net.now }
    requires each { length tops.now ≡ length net.now }
    requires centroids { length centroids.now ≡ length net.now }
    requires ways { length ways.now ≡ length net.now }
    requires tops { All (λ top. top < length centroids.now) tops.now }
    requires inside { (place c : ℕ) → slice_get centroids.now place ≡ Some (Some c)
        → c < length net.now }
    ensures { IfOk result (λ said.
        AreSaidAt net.now taken.now tops.now centroids.now ways.now said.items) }
{
    let mut said = Vec::with_capacity(alloc, net.len())?;
    for place in 0..net.len() {
        said.push(level_of_place(net, taken, tops, centroids, ways, place))?;
    }
    Ok(said)
}

// Nothing where the place is taken away.
fn level_of_place(
    net: &Network,
    taken: &[bool],
    tops: &[usize],
    centroids: &[Option<usize>],
    ways: &[Option<Way>],
    place: usize,
) -> LevelEntry
    requires within { place < length net.now }
    requires taken { length taken.now ≡ length net.now }
    requires each { length tops.now ≡ length net.now }
    requires ways { length ways.now ≡ length net.now }
    requires tops { All (λ top. top < length centroids.now) tops.now }
    requires inside { (place c : ℕ) → slice_get centroids.now place ≡ Some (Some c)
        → c < length net.now }
    ensures { result ≡ said_at net.now taken.now tops.now centroids.now ways.now place }
{
    if taken[place] {
        return LevelEntry::nothing();
    }
    match centroids[tops[place]] {
        Some(c) => match ways[place] {
            Some(way) => {
                let (id, _) = net.node(c);
                LevelEntry::of_way(id, way)
            }
            None => LevelEntry::nothing(),
        },
        None => LevelEntry::nothing(),
    }
}

// The nodes of `taken`, and the centroids of this level.
fn with_centroids(
    alloc: Global,
    tops: &[usize],
    centroids: &[Option<usize>],
    taken: &[bool],
) -> Result<Vec<bool>, NoMemory>
    requires tops { All (λ top. top < length centroids.now) tops.now }
    requires each { length tops.now ≡ length taken.now }
    ensures { IfOk result (λ flags. AreTakenToo tops.now centroids.now taken.now flags.items) }
{
    let mut flags = Vec::with_capacity(alloc, taken.len())?;
    for place in 0..taken.len() {
        let own = is_own(tops, centroids, place);
        flags.push(taken[place] || own)?;
    }
    Ok(flags)
}

// Whether a place is the centroid of its piece.
fn is_own(tops: &[usize], centroids: &[Option<usize>], place: usize) -> bool
    requires tops { All (λ top. top < length centroids.now) tops.now }
    requires within { place < length tops.now }
    ensures { result ≡ is_own tops.now centroids.now place }
{
    match centroids[tops[place]] {
        Some(c) => c == place,
        None => false,
    }
}
