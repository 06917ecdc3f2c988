//! Labels, wherever their bits lie.

ghost use Rattle.std.specs.Prelude.{◌≡◌, ◌<◌, Bool, List, Some, length, slice_get};

use pls_bits::Bits;

/// One label for each node, in the order of the nodes, wherever the bits lie: a
/// [`LabelStore`](crate::LabelStore) holds them, and [`LentLabels`](crate::LentLabels) are parts of
/// labels that lie elsewhere.
pub trait Labels {
    // The labels.
    ghost listed: { Self → List (List Bool) };

    /// How many labels there are.
    fn len(&self) -> usize
        ensures { result ≡ length (listed self.now) };

    /// The bits of the label at place `i`, lent. It takes no memory.
    fn bits(&self, i: usize) -> Bits<'_>
        requires { i < length (listed self.now) }
        ensures { slice_get (listed self.now) i ≡ Some result };
}
