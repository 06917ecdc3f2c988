//! The rows of a network: a node's identity, its state and its ports.

ghost use Rattle.std.specs.Prelude.{◌≡◌};

use std::marker::Model;

/// The state of a node.
#[derive(Clone, Copy, Debug, PartialEq, Eq)]
pub struct State {
    /// The number of the port that the node points at, from 0, or `None` where it points at none.
    pub up: Option<u32>,
    /// A mark that a property may speak of.
    pub mark: u32,
    /// A number that a property may speak of, at most 2^62 in a network.
    pub num: u64,
}

/// One end of an edge: the neighbour at the other end, and the edge's weight.
#[derive(Clone, Copy, Debug, PartialEq, Eq)]
pub struct Port {
    /// The identity of the neighbour.
    pub nbr: u32,
    /// The weight of the edge.
    pub weight: u32,
}

/// The ports of a node in their order, seen as a list.
#[derive(Drop)]
pub struct NodePorts {
    items: Vec<Port>,
}

impl Model for NodePorts {
    ghost use Rattle.std.specs.Prelude.{List};
    ghost use Rattle.pls_configuration.specs.declared.row.Port.{Port};

    ghost Value = { List Port };

    ghost view = { λ ports. ports.items.items };
}

impl NodePorts {
    /// The ports of a vector, in its order. It takes no memory.
    pub fn from_vec(items: Vec<Port>) -> Self
        ensures { result ≡ items.items }
    {
        NodePorts { items }
    }

    /// The ports in order.
    pub fn as_slice(&self) -> &[Port]
        ensures { result.now ≡ self.now }
    {
        self.items.as_slice()
    }
}

/// One node of a network.
#[derive(Drop)]
pub struct NodeRow {
    /// The node's identity.
    pub id: u32,
    /// The node's state.
    pub state: State,
    /// The node's ports; the port of number p is at place p.
    pub ports: NodePorts,
}
