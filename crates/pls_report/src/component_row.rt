//! What a report says of a component.

/// What a report says of one component of a network.
#[derive(Clone, Copy, Debug, PartialEq, Eq)]
pub struct ComponentRow {
    /// The smallest identity in it.
    pub id: u32,
    /// How many nodes it has.
    pub nodes: u32,
    /// How many of them reject.
    pub rejecting: u32,
    /// How many of them wait.
    pub waiting: u32,
}
