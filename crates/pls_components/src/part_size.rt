//! How large a component is by itself, counted where its nodes stand in the whole network.

ghost use Rattle.std.specs.Prelude.{◌≡◌, ◌<◌, ◌≤◌, ◌^◌, ◌++◌, ◌∷◌, [], List, Some, All, length, map, slice_get};
ghost use Rattle.pls_configuration.specs.declared.limits.TheConstants.{MAX_PORTS};
ghost use Rattle.pls_configuration.specs.declared.row.NodeRow.{NodeRow};
ghost use Rattle.pls_configuration.specs.Configuration.{IsNetwork};
ghost use Rattle.pls_graph.specs.Size.{greatest, size_of};
ghost use Rattle.pls_components.specs.Components.{items_at};

use pls_configuration::Port;
use pls_graph::{Network, Size};

pub(crate) fn size_at(net: &Network, places: &[u32]) -> Size
    requires within { All (λ place. place < length net.now) places.now }
    requires network { IsNetwork (items_at net.now places.now) }
    ensures { result ≡ size_of (items_at net.now places.now) }
{
    let mut size = Size {
        nodes: 0,
        ports: 0,
        max_id: 0,
        max_weight: 0,
        max_degree: 0,
        max_mark: 0,
        max_num: 0,
    };
    for place in places {
        size = with_row(size, net, *place as usize);
    }
    size
}

fn with_row(size: Size, net: &Network, place: usize) -> Size
    requires within { place < length net.now }
    requires few_nodes { size.nodes < 2 ^ 32 }
    requires few_ports { size.ports ≤ MAX_PORTS }
    ensures { (rows : List NodeRow) (row : NodeRow) → size ≡ size_of rows
        → slice_get net.now place ≡ Some row → result ≡ size_of (rows ++ row ∷ []) }
{
    let (id, state) = net.node(place);
    let ports = net.ports(place);
    Size {
        nodes: size.nodes + 1,
        ports: size.ports + ports.len() as u64,
        max_id: size.max_id.max(id),
        max_weight: size.max_weight.max(max_weight(ports)),
        max_degree: size.max_degree.max(ports.len() as u32),
        max_mark: size.max_mark.max(state.mark),
        max_num: size.max_num.max(state.num),
    }
}

// 0 where there are no ports.
fn max_weight(ports: &[Port]) -> u32
    ensures { result ≡ greatest (map (λ port. port.weight) ports.now) }
{
    ports.iter().fold(0, |most, port| most.max(port.weight))
}
