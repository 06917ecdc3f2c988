//! Why no network was made of a list of rows.

ghost use Rattle.std.specs.Prelude.{◌≡◌};
ghost use Rattle.pls_configuration.specs.declared.refusal.BuildError.TheVariants.{NoMemory};

use std::alloc::{AllocError, AllocFailed};
use thiserror::Error;

/// Why no network was made of a list of rows: the first of these conditions that occurs somewhere,
/// with the identity of the first row at which it does; or there was no memory to find out.
#[derive(Clone, Copy, Debug, PartialEq, Eq, Error)]
pub enum BuildError {
    /// The identity is not above the one in the row before.
    #[error("node {0} is not above the node before it")]
    Order(u32),
    /// A port names its own node.
    #[error("node {0} is linked to itself")]
    SelfLink(u32),
    /// Two ports of the node name one node.
    #[error("node {0} names a neighbour twice")]
    Twice(u32),
    /// A port names a node that is not there.
    #[error("node {0} names an unknown neighbour")]
    Unknown(u32),
    /// A port leads to a node from which none leads back.
    #[error("node {0} has a port without a way back")]
    OneWay(u32),
    /// A port and the one that leads back have two weights.
    #[error("node {0} has a port whose two weights differ")]
    Weights(u32),
    /// The node points at a port that it does not have.
    #[error("node {0} points at no port of its own")]
    Pointer(u32),
    /// There was no memory.
    #[error("out of memory")]
    NoMemory,
}

impl From<AllocError> for BuildError {
    ghost from_gives = { λ _ error. error ≡ NoMemory };

    fn from(_: AllocError) -> Self {
        BuildError::NoMemory
    }
}

impl<T: Drop> From<AllocFailed<T>> for BuildError {
    ghost from_gives = { λ _ error. error ≡ NoMemory };

    fn from(_: AllocFailed<T>) -> Self {
        BuildError::NoMemory
    }
}
