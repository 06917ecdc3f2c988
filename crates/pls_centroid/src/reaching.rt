//! The ways from the places of a piece to its centroid: first up from each centroid, then down to
//! all others.

ghost use Rattle.std.specs.Prelude.{◌≡◌, ◌<◌, All, List, length, IfOk};
ghost use Rattle.pls_configuration.specs.declared.row.NodeRow.{NodeRow};
ghost use Rattle.pls_configuration.specs.Walk.{Edge};
ghost use Rattle.pls_search.specs.SubtreeSizes.{AreParentsWithin};
ghost use Rattle.pls_centroid.specs.inner.Reaching.{AreStarted, AreWaysOf, IsNotedDown, IsNotedUp, behind, start_at, way_by};
ghost use Rattle.pls_centroid.specs.inner.Rooted.{AreBehindParents, AreCentroidsOf, AreWeightsUp, IsStage};

use pls_streams::NoMemory;
use std::alloc::Global;

// The way from a place to the centroid of its piece.
#[derive(Clone, Copy)]
pub(crate) struct Way {
    // How many edges it has.
    pub(crate) hops: u32,
    // The greatest weight of these.
    pub(crate) greatest: u32,
}

impl Way {
    // The way with one edge more in front.
    fn behind(self, weight: u32) -> Way
        ensures { result ≡ behind self weight }
    {
        Way {
            hops: self.hops.saturating_add(1),
            greatest: self.greatest.max(weight),
        }
    }
}

// `left` are the remaining parents, `weights` those of the edges to parents.
pub(crate) fn ways_of(
    alloc: Global,
    order: &[usize],
    weights: &[u32],
    left: &[Option<usize>],
    tops: &[usize],
    centroids: &[Option<usize>],
) -> Result<Vec<Option<Way>>, NoMemory>
    requires order { AreBehindParents left.now order.now }
    requires weights { length weights.now ≡ length left.now }
    requires inside { AreParentsWithin left.now }
    requires each { length tops.now ≡ length left.now }
    requires tops { All (λ top. top < length left.now) tops.now }
    requires centroids { length centroids.now ≡ length left.now }
    ensures each { IfOk result (λ ways. length ways.items ≡ length left.now) }
    ensures ways { IfOk result (λ ways. (rows : List NodeRow) (edges : List Edge)
        → IsStage rows edges left.now tops.now → AreCentroidsOf rows edges tops.now centroids.now
        → AreWeightsUp rows left.now weights.now
        → AreWaysOf rows tops.now centroids.now ways.items) }
{
    let mut ways = start_ways(alloc, tops, centroids)?;
    let noted = ways.as_mut_slice();
    note_up(order, weights, left, noted);
    note_down(order, weights, left, noted);
    Ok(ways)
}

fn start_ways(
    alloc: Global,
    tops: &[usize],
    centroids: &[Option<usize>],
) -> Result<Vec<Option<Way>>, NoMemory>
    requires tops { All (λ top. top < length centroids.now) tops.now }
    ensures { IfOk result (λ ways. AreStarted tops.now centroids.now ways.items) }
{
    let mut ways = Vec::with_capacity(alloc, tops.len())?;
    for place in 0..tops.len() {
        ways.push(start_at(tops, centroids, place))?;
    }
    Ok(ways)
}

// `None` where the place is not the centroid of its piece.
fn start_at(tops: &[usize], centroids: &[Option<usize>], place: usize) -> Option<Way>
    requires tops { All (λ top. top < length centroids.now) tops.now }
    requires within { place < length tops.now }
    ensures { result ≡ start_at tops.now centroids.now place }
{
    match centroids[tops[place]] {
        Some(c) => {
            if c == place {
                Some(Way {
                    hops: 0,
                    greatest: 0,
                })
            } else {
                None
            }
        }
        None => None,
    }
}

// Sets the ways of the centroids' ancestors, going back from the end of `order`.
fn note_up(order: &[usize], weights: &[u32], left: &[Option<usize>], ways: &mut [Option<Way>])
    requires order { AreBehindParents left.now order.now }
    requires weights { length weights.now ≡ length left.now }
    requires inside { AreParentsWithin left.now }
    requires ways { length ways.old ≡ length left.now }
    ensures { IsNotedUp left.now order.now weights.now (length order.now) ways.old ways.new }
{
    for back in 0..order.len() {
        let place = order[order.len() - 1 - back];
        if let Some(parent) = left[place] {
            if let Some(way) = ways[place] {
                ways[parent] = Some(way.behind(weights[place]));
            }
        }
    }
}

// Sets the ways of all other places, each through its parent.
fn note_down(order: &[usize], weights: &[u32], left: &[Option<usize>], ways: &mut [Option<Way>])
    requires order { AreBehindParents left.now order.now }
    requires weights { length weights.now ≡ length left.now }
    requires inside { AreParentsWithin left.now }
    requires ways { length ways.old ≡ length left.now }
    ensures { IsNotedDown left.now order.now weights.now (length order.now) ways.old ways.new }
{
    for place in order {
        let way = way_by(weights, left, ways, *place);
        ways[*place] = way;
    }
}

// Its own way, or else one through its parent.
fn way_by(
    weights: &[u32],
    left: &[Option<usize>],
    ways: &[Option<Way>],
    place: usize,
) -> Option<Way>
    requires within { place < length left.now }
    requires weights { length weights.now ≡ length left.now }
    requires ways { length ways.now ≡ length left.now }
    requires inside { AreParentsWithin left.now }
    ensures { result ≡ way_by left.now weights.now ways.now place }
{
    match ways[place] {
        Some(way) => Some(way),
        None => match left[place] {
            Some(parent) => match ways[parent] {
                Some(way) => Some(way.behind(weights[place])),
                None => None,
            },
            None => None,
        },
    }
}
