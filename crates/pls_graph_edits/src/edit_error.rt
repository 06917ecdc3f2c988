//! Why an edit is refused.

ghost use Rattle.std.specs.Prelude.{◌≡◌};
ghost use Rattle.pls_graph_edits.specs.declared.edit_error.EditError.TheVariants.{NoMemory};

use std::alloc::{AllocError, AllocFailed};
use thiserror::Error;

/// Why an edit is refused. Where several causes hold, the one named first here is answered.
#[derive(Clone, Copy, Debug, PartialEq, Eq, Error)]
pub enum EditError {
    /// A node is not there, or two are not linked.
    #[error("no such node or edge")]
    Absent,
    /// The two ends are one node.
    #[error("a node is not linked to itself")]
    SelfLink,
    /// The node or the edge is there already.
    #[error("it is there already")]
    Present,
    /// The state points at no port of the node.
    #[error("the pointer names no port")]
    Pointer,
    /// The node has a port.
    #[error("the node has ports")]
    HasPorts,
    /// It is the only node.
    #[error("the last node stays")]
    Last,
    /// There is no room for one more node, for two more ports, or for the bits of the label.
    #[error("the network is full")]
    Full,
    /// There was no memory.
    #[error("out of memory")]
    NoMemory,
}

impl From<AllocError> for EditError {
    ghost from_gives = { λ _ error. error ≡ NoMemory };

    fn from(_: AllocError) -> Self {
        EditError::NoMemory
    }
}

impl<T: Drop> From<AllocFailed<T>> for EditError {
    ghost from_gives = { λ _ error. error ≡ NoMemory };

    fn from(_: AllocFailed<T>) -> Self {
        EditError::NoMemory
    }
}
