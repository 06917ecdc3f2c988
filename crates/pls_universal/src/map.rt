//! Maps of networks, as labels state them.

ghost use Rattle.std.specs.Prelude.{◌≡◌};

use std::marker::Model;

/// The ports of a record in their order, each the neighbour and the weight, seen as a list.
#[derive(Drop)]
pub struct PortList {
    ports: Vec<(u64, u64)>,
}

impl Model for PortList {
    ghost use Rattle.std.specs.Prelude.{ℕ, List};

    ghost Value = { List (ℕ × ℕ) };

    ghost view = { λ list. list.ports.items };
}

impl PortList {
    /// The ports of a vector, in its order. It takes no memory.
    pub fn from_vec(ports: Vec<(u64, u64)>) -> PortList
        ensures { result ≡ ports.items }
    {
        PortList { ports }
    }

    /// The ports in order.
    pub fn as_slice(&self) -> &[(u64, u64)]
        ensures { result.now ≡ self.now }
    {
        self.ports.as_slice()
    }
}

/// The record of one node. Its numbers are those that the map states, and may be beyond the limits
/// of a network.
#[derive(Drop)]
pub struct MapRow {
    /// The node's identity.
    pub id: u64,
    /// The number of the port that the node points at and one more, or 0 where it points at none.
    pub up: u64,
    /// The node's mark.
    pub mark: u64,
    /// The node's number.
    pub num: u64,
    /// The node's ports.
    pub ports: PortList,
}

/// The records of a map in their order, seen as a list.
#[derive(Drop)]
pub struct RowList {
    rows: Vec<MapRow>,
}

impl Model for RowList {
    ghost use Rattle.std.specs.Prelude.{List};
    ghost use Rattle.pls_universal.specs.declared.map.MapRow.{MapRow};

    ghost Value = { List MapRow };

    ghost view = { λ list. list.rows.items };
}

impl RowList {
    /// The records of a vector, in its order. It takes no memory.
    pub fn from_vec(rows: Vec<MapRow>) -> RowList
        ensures { result ≡ rows.items }
    {
        RowList { rows }
    }

    /// The records in order.
    pub fn as_slice(&self) -> &[MapRow]
        ensures { result.now ≡ self.now }
    {
        self.rows.as_slice()
    }
}

/// What a label of the universal scheme says.
#[derive(Drop)]
pub struct MapLabel {
    /// The identity of the node itself.
    pub own: u64,
    /// The map.
    pub rows: RowList,
}
