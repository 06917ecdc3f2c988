//! A search in depth from the first node. Nothing is claimed of what it finds but that it names
//! places: what is made of it is checked.

ghost use Rattle.std.specs.Prelude.{◌≡◌, ◌<◌, length, IfSome};
ghost use Rattle.pls_diameter_bridges.specs.inner.Orientation.{entry_at};

use pls_graph::Network;
use pls_streams::NoMemory;
use std::alloc::Global;

// What a search in depth found.
#[derive(Drop)]
pub(crate) struct Descent {
    // For each place the turn in which it was entered, 1 at the first place; 0 where it was not.
    pub(crate) numbers: Vec<usize>,
    // For each place the one from which it was entered; 0 where there is none.
    pub(crate) parents: Vec<usize>,
}

// Depth-first search from the first node; two turns per node (enter or go back) suffice.
pub(crate) fn descend(alloc: Global, net: &Network) -> Result<Descent, NoMemory> {
    let mut numbers = vec![in alloc; 0; net.len()]?;
    let mut parents = vec![in alloc; 0; net.len()]?;
    let mut looked = vec![in alloc; 0; net.len()]?;
    numbers[0] = 1;
    let mut place = 0;
    for turn in 2..2 * net.len() {
        let places = net.places(place);
        match next_new(places, &numbers, looked[place]) {
            Some(port) => {
                let next = places[port] as usize;
                looked[place] = port;
                parents[next] = place;
                numbers[next] = turn;
                place = next;
            }
            None => {
                looked[place] = places.len();
                place = parents[place];
            }
        }
    }
    Ok(Descent { numbers, parents })
}

// The first port from `from` on that leads to a place not yet entered.
fn next_new(places: &[u32], numbers: &[usize], from: usize) -> Option<usize>
    ensures { IfSome result (λ port. port < length places.now) }
{
    for port in from..places.len() {
        if entry_at(numbers, places[port] as usize) == 0 {
            return Some(port);
        }
    }
    None
}

// 0 where `place` has no entry.
pub(crate) fn entry_at(entries: &[usize], place: usize) -> usize
    ensures { result ≡ entry_at entries.now place }
{
    match entries.get(place) {
        Some(entry) => *entry,
        None => 0,
    }
}
