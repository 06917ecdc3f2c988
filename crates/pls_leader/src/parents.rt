//! The parent of each node: of its neighbours one edge nearer to the first node, the first.

ghost use Rattle.std.specs.Prelude.{◌≡◌, ◌<◌, length, IfOk};
ghost use Rattle.pls_graph.specs.Places.{beside};
ghost use Rattle.pls_leader.specs.inner.Nearest.{AreNearest, IsLeast, is_level_nearer, lesser};

use pls_graph::Network;
use pls_streams::NoMemory;
use std::alloc::Global;

// For each node its neighbour of smallest identity one level nearer to the first; `None` without
// one.
pub(crate) fn nearest_above(
    alloc: Global,
    net: &Network,
    levels: &[u32],
) -> Result<Vec<Option<usize>>, NoMemory>
    requires { length levels.now ≡ length net.now }
    ensures { IfOk result (λ parents. AreNearest net.now levels.now parents.items) }
{
    let mut parents = Vec::new(alloc);
    for place in 0..net.len() {
        parents.push(nearest_at(net, levels, place))?;
    }
    Ok(parents)
}

// The smallest neighbouring place one level nearer; `None` where there is none.
fn nearest_at(net: &Network, levels: &[u32], place: usize) -> Option<usize>
    requires each { length levels.now ≡ length net.now }
    requires within { place < length net.now }
    ensures { IsLeast (is_level_nearer levels.now place) (beside net.now place) result }
{
    let mut nearest = None;
    for other in net.places(place) {
        let other = *other as usize;
        if is_above(levels, place, other) {
            nearest = Some(lesser(nearest, other));
        }
    }
    nearest
}

// Whether `other` is exactly one level nearer than `place`.
fn is_above(levels: &[u32], place: usize, other: usize) -> bool
    requires within { place < length levels.now }
    requires inside { other < length levels.now }
    ensures { result ≡ is_level_nearer levels.now place other }
{
    u64::from(levels[place]) == u64::from(levels[other]) + 1
}

fn lesser(found: Option<usize>, other: usize) -> usize
    ensures { result ≡ lesser found other }
{
    match found {
        Some(found) => found.min(other),
        None => other,
    }
}
