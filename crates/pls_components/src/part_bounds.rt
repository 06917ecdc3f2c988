//! How long the labels of a network are, whose components are marked each by itself.

ghost use Rattle.std.specs.Prelude.{◌≡◌};
ghost use Rattle.pls_streams.specs.Steps.{capped};
ghost use Rattle.pls_components.specs.Components.{AreComponents};
ghost use Rattle.pls_components.specs.Parts.{bound_of_parts, room_of_parts};

use crate::component_list::Components;
use crate::part_size::size_at;
use pls_facts::is_valid;
use pls_graph::Network;
use pls_scheme::Scheme;

/// The greatest number of bits of a marked label, where each component is marked by itself: the
/// greatest of the scheme's bounds for the components, or `u64::MAX` where it is greater. It takes
/// no memory.
pub fn bound_parts<S: Scheme>(scheme: &S, net: &Network, parts: &Components) -> u64
    requires { AreComponents net.now parts.now }
    ensures { result ≡ capped (bound_of_parts (S.longest scheme.now) net.now parts.now) }
{
    is_valid(net);
    if parts.len() == 1 {
        return scheme.bound(&net.size());
    }
    let mut most: u64 = 0;
    for k in 0..parts.len() {
        let size = size_at(net, parts.members(k));
        most = most.max(scheme.bound(&size));
    }
    most
}

/// The greatest number of bits of all marked labels together: the sum over the components of nodes
/// times bound, or `u64::MAX` where it is greater. It takes no memory.
pub fn room_parts<S: Scheme>(scheme: &S, net: &Network, parts: &Components) -> u64
    requires { AreComponents net.now parts.now }
    ensures { result ≡ capped (room_of_parts (S.longest scheme.now) net.now parts.now) }
{
    let nodes = net.len() as u64;
    if parts.len() == 1 {
        let bound = scheme.bound(&net.size());
        return bound.saturating_mul(nodes);
    }
    let mut room: u64 = 0;
    for k in 0..parts.len() {
        let places = parts.members(k);
        let bound = scheme.bound(&size_at(net, places));
        room = room.saturating_add(bound.saturating_mul(places.len() as u64));
    }
    room
}
