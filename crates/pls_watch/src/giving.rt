//! What is kept of the labels that are given.

/// A label that a node is given.
#[derive(Clone, Copy)]
pub(crate) struct Giving {
    /// The identity of the node.
    pub(crate) node: u32,
    /// How many events of the round were before.
    pub(crate) behind: u32,
    /// The number of the label that the node had before.
    pub(crate) earlier: u32,
}
