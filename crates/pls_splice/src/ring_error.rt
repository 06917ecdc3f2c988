//! Why a network is no ring.

ghost use Rattle.std.specs.Prelude.{◌≡◌};
ghost use Rattle.pls_splice.specs.declared.ring_error.RingError.TheVariants.{NoMemory as OutOfMemory};

use pls_streams::NoMemory;
use thiserror::Error;

/// Why a network is no ring.
#[derive(Clone, Copy, Debug, PartialEq, Eq, Error)]
pub enum RingError {
    /// It is no ring. The identity is that of the first node whose number of ports is not two, or,
    /// where all have two, the smallest that no walk joins to the smallest of all.
    #[error("node {0} shows that the network is no ring")]
    NotRing(u32),
    /// There was no memory.
    #[error("out of memory")]
    NoMemory,
}

impl From<NoMemory> for RingError {
    ghost from_gives = { λ _ error. error ≡ OutOfMemory };

    fn from(_: NoMemory) -> Self {
        RingError::NoMemory
    }
}
