//! Directions of the edges, by a search in depth: an edge along which a place was entered leads
//! down to it, and each other edge up, to the place that was entered earlier. Where along them each
//! place is reached from the first, and the first from each, no edge is a bridge (H. E. Robbins,
//! "A theorem on graphs, with an application to a problem of traffic control", 1939). That is what
//! is checked here, by two ranks that fall on the way.

ghost use Rattle.std.specs.Prelude.{◌≡◌, ◌<◌, length, All, OnOk};
ghost use Rattle.std.specs.Bool.{OnTrue};
ghost use Rattle.std.specs.List.{list_any};
ghost use Rattle.pls_graph.specs.Places.{beside};
ghost use Rattle.pls_diameter_bridges.specs.inner.Orientation.{IsStrong, is_way_home, is_way_in, leads};

use crate::descent::entry_at;
use pls_graph::Network;
use pls_streams::NoMemory;
use std::alloc::Global;

// Search from the first place (rank 1) against the directions; 0 where it does not reach.
pub(crate) fn ranks_home(
    alloc: Global,
    net: &Network,
    numbers: &[usize],
    parents: &[usize],
) -> Result<Vec<usize>, NoMemory> {
    let mut homes = vec![in alloc; 0; net.len()]?;
    let mut reached = Vec::new(alloc);
    homes[0] = 1;
    reached.push(0)?;
    for rank in 0..net.len() {
        if rank < reached.len() {
            let to = reached[rank];
            reach_beside(net, numbers, parents, to, &mut homes, &mut reached)?;
        }
    }
    Ok(homes)
}

// Ranks the unranked neighbours from which the directions lead to `to`.
fn reach_beside(
    net: &Network,
    numbers: &[usize],
    parents: &[usize],
    to: usize,
    homes: &mut Vec<usize>,
    reached: &mut Vec<usize>,
) -> Result<(), NoMemory>
    requires to { to < length net.now }
    requires sized { length homes.old.items ≡ length net.now }
    requires within { All (λ place. place < length net.now) reached.old.items }
    ensures sized { OnOk result (length homes.new.items ≡ length net.now) }
    ensures within { OnOk result (All (λ place. place < length net.now) reached.new.items) }
{
    for from in net.places(to) {
        let from = *from as usize;
        if homes[from] == 0 && leads(numbers, parents, from, to) {
            reached.push(from)?;
            homes[from] = reached.len();
        }
    }
    Ok(())
}

// Each place but the first needs a way in and a way home.
pub(crate) fn is_strong(
    net: &Network,
    numbers: &[usize],
    parents: &[usize],
    homes: &[usize],
) -> bool
    ensures { OnTrue result (IsStrong net.now numbers.now parents.now homes.now) }
{
    for place in 1..net.len() {
        if !has_way_in(net, numbers, parents, place)
            || !has_way_home(net, numbers, parents, homes, place)
        {
            return false;
        }
    }
    true
}

// A way in comes from a neighbour that was entered earlier.
fn has_way_in(net: &Network, numbers: &[usize], parents: &[usize], place: usize) -> bool
    requires { place < length net.now }
    ensures { result ≡ list_any (is_way_in numbers.now parents.now place) (beside net.now place) }
{
    let places = net.places(place);
    places
        .iter()
        .any(|from| is_way_in(numbers, parents, place, *from as usize))
}

fn is_way_in(numbers: &[usize], parents: &[usize], place: usize, from: usize) -> bool
    ensures { result ≡ is_way_in numbers.now parents.now place from }
{
    leads(numbers, parents, from, place) && entry_at(numbers, from) < entry_at(numbers, place)
}

// A way home leads to a neighbour of smaller rank.
fn has_way_home(
    net: &Network,
    numbers: &[usize],
    parents: &[usize],
    homes: &[usize],
    place: usize,
) -> bool
    requires { place < length net.now }
    ensures { result ≡ list_any (is_way_home numbers.now parents.now homes.now place)
        (beside net.now place) }
{
    let places = net.places(place);
    places.iter().any(|to| is_way_home(numbers, parents, homes, place, *to as usize))
}

fn is_way_home(
    numbers: &[usize],
    parents: &[usize],
    homes: &[usize],
    place: usize,
    to: usize,
) -> bool
    ensures { result ≡ is_way_home numbers.now parents.now homes.now place to }
{
    leads(numbers, parents, place, to) && entry_at(homes, to) < entry_at(homes, place)
}

// Tree edges are directed down, all others up.
fn leads(numbers: &[usize], parents: &[usize], from: usize, to: usize) -> bool
    ensures { result ≡ leads numbers.now parents.now from to }
{
    let (earlier, later) = (entry_at(numbers, from), entry_at(numbers, to));
    (earlier < later && entry_at(parents, to) == from)
        || (later < earlier && entry_at(parents, from) != to)
}
