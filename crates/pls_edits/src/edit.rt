//! Edits of a network and its labels.

use pls_bits::BitBuf;
use pls_configuration::State;

/// One edit. Nodes are named by their identities.
#[derive(Drop)]
pub enum Edit {
    /// The node's state becomes this one.
    State {
        /// The node.
        id: u32,
        /// Its new state, whose number is at most 2^62.
        state: State,
    },
    /// The edge between two nodes gets another weight.
    Weight {
        /// One end of the edge.
        a: u32,
        /// The other end.
        b: u32,
        /// The new weight.
        weight: u32,
    },
    /// An edge is put between two nodes, by a new last port at both.
    Link {
        /// One end of the edge.
        a: u32,
        /// The other end.
        b: u32,
        /// The weight of the edge.
        weight: u32,
    },
    /// The edge between two nodes goes, with its two ports.
    Unlink {
        /// One end of the edge.
        a: u32,
        /// The other end.
        b: u32,
    },
    /// A node comes, without ports and pointer and with an empty label.
    Join {
        /// The identity of the new node.
        id: u32,
        /// Its mark.
        mark: u32,
        /// Its number, at most 2^62.
        num: u64,
    },
    /// A node without ports goes, with its label.
    Leave {
        /// The node.
        id: u32,
    },
    /// The node's label becomes this one.
    Label {
        /// The node.
        id: u32,
        /// Its new label.
        bits: BitBuf,
    },
}
