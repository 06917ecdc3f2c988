//! Where emits arrive.

/// Where an emit arrives: the port of the neighbour that leads back.
#[derive(Clone, Copy, Debug, PartialEq, Eq)]
pub struct Target {
    /// The number of the port, where the ports of all nodes are numbered through from 0.
    pub port: u32,
    /// The place of the node that has the port, from 0 in the order of the nodes.
    pub place: u32,
}
