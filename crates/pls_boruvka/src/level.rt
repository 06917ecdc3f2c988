//! What a node has on a level.

/// What a node has on one level of a run of Borůvka: its fragment, which is a connected part of the
/// tree so far, and the edge out of the fragment that it chose, by which it joins another: a
/// lightest one, and of these an edge of the tree before others.
#[derive(Clone, Copy, Debug, PartialEq, Eq)]
pub struct Level {
    /// The fragment, by the identity of its node of least depth.
    pub fragment: u64,
    /// The weight of the chosen edge.
    pub weight: u64,
    /// The smaller identity of the chosen edge's ends.
    pub a: u64,
    /// The greater identity of the chosen edge's ends.
    pub b: u64,
}
