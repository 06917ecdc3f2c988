//! What labels with levels say.

/// What a label says: where the node stands in a tree, and what it has on each level.
#[derive(Drop)]
pub struct LevelLabel<S> {
    /// The identity of the root.
    pub root: u64,
    /// The identity of the node itself.
    pub own: u64,
    /// The identity of the node that the node points at, and at the root its own.
    pub parent: u64,
    /// How many pointers lead from the node to the root.
    pub depth: u64,
    /// What the node has on each level, from the first on.
    pub levels: S,
}

/// What stands in a label in front of its levels.
#[derive(Clone, Copy, Debug, PartialEq, Eq)]
pub struct LevelHead {
    /// The identity of the root.
    pub root: u64,
    /// The identity of the node itself.
    pub own: u64,
    /// The identity of the node's parent.
    pub parent: u64,
    /// How many pointers lead from the node to the root.
    pub depth: u64,
    /// How many levels follow.
    pub count: u64,
}
