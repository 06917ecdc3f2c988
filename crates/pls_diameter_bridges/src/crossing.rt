//! Which ports lead from the nodes that are nearer to one end of an edge to the others.

ghost use Rattle.std.specs.Prelude.{◌≡◌, ◌<◌, ◌||◌, length};
ghost use Rattle.std.specs.Bool.{OnFalse, OnTrue};
ghost use Rattle.std.specs.List.{list_all};
ghost use Rattle.pls_configuration.specs.Configuration.{IsNetwork};
ghost use Rattle.pls_graph.specs.Places.{beside};
ghost use Rattle.pls_diameter_bridges.specs.inner.Crossing.{IsCrossedElsewhere, IsOnlyCrossing, is_allowed, is_nearer, level_at};

use pls_graph::Network;

// Whether only the port from `place` to `other` leaves the nodes nearer to `place`.
pub(crate) fn is_only_crossing(
    net: &Network,
    place: usize,
    near: &[Option<u32>],
    other: usize,
    far: &[Option<u32>],
) -> bool
    ensures only { OnTrue result (IsOnlyCrossing net.now near.now far.now place other) }
    ensures another { OnFalse result (IsCrossedElsewhere net.now near.now far.now place other) }
    ensures valid { IsNetwork net.now }
{
    for from in 0..net.len() {
        if !all_allowed(net, place, near, other, far, from) {
            return false;
        }
    }
    true
}

fn all_allowed(
    net: &Network,
    place: usize,
    near: &[Option<u32>],
    other: usize,
    far: &[Option<u32>],
    from: usize,
) -> bool
    requires { from < length net.now }
    ensures { result
        ≡ list_all (is_allowed near.now far.now place other from) (beside net.now from) }
{
    let places = net.places(from);
    places.iter().all(|to| is_allowed(place, near, other, far, from, *to as usize))
}

// Whether the port does not cross, or is the one from `place` to `other`.
fn is_allowed(
    place: usize,
    near: &[Option<u32>],
    other: usize,
    far: &[Option<u32>],
    from: usize,
    to: usize,
) -> bool
    ensures { result ≡ is_allowed near.now far.now place other from to }
{
    !is_nearer(near, far, from) || is_nearer(near, far, to) || (from == place && to == other)
}

fn is_nearer(near: &[Option<u32>], far: &[Option<u32>], place: usize) -> bool
    ensures { result ≡ is_nearer near.now far.now place }
{
    level_at(near, place) < level_at(far, place)
}

// 0 where no level was found.
fn level_at(found: &[Option<u32>], place: usize) -> u32
    ensures { result ≡ level_at found.now place }
{
    match found.get(place) {
        Some(Some(level)) => *level,
        _ => 0,
    }
}
