//! Why a text is refused.

ghost use Rattle.std.specs.Prelude.{◌≡◌};
ghost use Rattle.pls_streams.specs.declared.text_error.TextError.TheVariants.{NoMemory as OutOfMemory};

use crate::memory::NoMemory;
use std::alloc::{AllocError, AllocFailed};
use std::fmt;
use thiserror::Error;

/// A quantity that is limited.
#[derive(Clone, Copy, Debug, PartialEq, Eq)]
pub enum Quantity {
    /// The bytes of the input.
    Input,
    /// The nodes of a network.
    Nodes,
    /// The ports of all nodes together.
    Ports,
    /// The bits of all labels together.
    Bits,
    /// The lines of a schedule, of edits or of a watch.
    Events,
    /// The lines `round` of edits, or `look` of a watch.
    Rounds,
    /// The bits that marked labels may have: nodes times bound, summed over the components.
    Labels,
}

impl fmt::Display for Quantity {
    ghost use Rattle.std.specs.Prelude.{Some};
    ghost use Rattle.pls_streams.specs.Quantity.{quantity_text};

    ghost output = { λ quantity. Some (quantity_text quantity) };

    fn fmt<W: fmt::Write>(&self, f: &mut fmt::Formatter<W>) -> fmt::Result {
        f.write_str(match self {
            Quantity::Input => "input",
            Quantity::Nodes => "nodes",
            Quantity::Ports => "ports",
            Quantity::Bits => "bits",
            Quantity::Events => "events",
            Quantity::Rounds => "rounds",
            Quantity::Labels => "labels",
        })
    }
}

/// Why a text is refused.
#[derive(Clone, Copy, Debug, PartialEq, Eq, Error)]
pub enum TextError {
    /// The line of this number, counted from 1, is the first that is not of the form that is due.
    #[error("refused form at {0}")]
    Form(u64),
    /// There is more of a quantity than its limit.
    #[error("limit {0}")]
    Limit(Quantity),
    /// The lines are of the form, but make no sense together.
    #[error("refused {number} at {place}")]
    Sense {
        /// The number of the refusal.
        number: u8,
        /// The identity or the line that it names.
        place: u64,
    },
    /// There was no memory.
    #[error("out of memory")]
    NoMemory,
}

impl From<AllocError> for TextError {
    ghost from_gives = { λ _ error. error ≡ OutOfMemory };

    fn from(_: AllocError) -> Self {
        TextError::NoMemory
    }
}

impl<T: Drop> From<AllocFailed<T>> for TextError {
    ghost from_gives = { λ _ error. error ≡ OutOfMemory };

    fn from(_: AllocFailed<T>) -> Self {
        TextError::NoMemory
    }
}

impl From<NoMemory> for TextError {
    ghost from_gives = { λ _ error. error ≡ OutOfMemory };

    fn from(_: NoMemory) -> Self {
        TextError::NoMemory
    }
}
