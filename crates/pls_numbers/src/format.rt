//! How labels are read and written.

ghost use Rattle.std.specs.Prelude.{◌≡◌, ◌++◌, IfOk, OnOk};
ghost use Rattle.pls_numbers.specs.Shape.{AreItsNumbers, IsWritable, Shape, said_by, spelling};

use pls_bits::{BitBuf, Bits, NumCode};
use pls_streams::NoMemory;
use std::alloc::Global;

/// How labels are read and written: as a list of numbers, each in a number code or as one bit. A
/// format is a value, so that a text may state one, and it is the same in every number code.
pub trait Format {
    /// What a label says.
    type Label: Drop;

    // Which numbers a label is.
    ghost shape: { Self → Shape Self.Label };

    /// What the bits say, or `None` where they are no label, read to their last bit. The one error
    /// is want of memory.
    fn read<C: NumCode>(
        &self,
        alloc: Global,
        bits: &Bits<'_>,
    ) -> Result<Option<Self::Label>, NoMemory>
        ensures { IfOk result (λ found. found ≡ said_by (shape self.now) C.takes bits.now) };

    /// Appends the spelling of a label. The one error is want of memory; nothing is known then of
    /// what `bits` holds.
    fn append<C: NumCode>(&self, bits: &mut BitBuf, label: &Self::Label) -> Result<(), NoMemory>
        requires { IsWritable (shape self.now) label.now }
        ensures { OnOk result
            (bits.new ≡ bits.old ++ spelling (shape self.now) C.code label.now) };

    // Numbers are a label exactly where they are those of a proper one.
    ghost numbers_law: { (s : Self) → AreItsNumbers (shape s) };
}

/// A format whose labels are read without memory.
pub trait ReadsInPlace: Format {
    /// What the bits say, or `None` where they are no label, read to their last bit. It takes no
    /// memory.
    fn read_in_place<C: NumCode>(&self, bits: &Bits<'_>) -> Option<Self::Label>
        ensures { result ≡ said_by (Self.shape self.now) C.takes bits.now };
}
