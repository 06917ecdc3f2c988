//! What a node judges by.

ghost use Rattle.std.specs.Prelude.{◌≡◌, Bool, List};
ghost use Rattle.pls_scheme.specs.Reading.{Read};

use pls_bits::NumCode;
use pls_numbers::Format;

/// What a node judges by: how labels are written, and numbered rules on what it reads. Rule 1 is
/// that its own label can be read, rule 2 that each neighbour's can; the rules here are numbered
/// from 3. How they are tried is said by [`Rules`](crate::Rules) or
/// [`JudgesInPlace`](crate::JudgesInPlace).
pub trait Judgement {
    /// The number code in which labels are written.
    type Code: NumCode;

    /// How labels are lists of numbers.
    type Format: Format;

    // How these labels are lists of numbers.
    ghost format: { Self → Self.Format };

    // Whether each rule holds, in the order of their numbers.
    ghost rules: { Self → Read Self.Format.Label → List Bool };

    /// How labels are lists of numbers.
    fn format(&self) -> &Self::Format
        ensures { result.now ≡ format self.now };
}
