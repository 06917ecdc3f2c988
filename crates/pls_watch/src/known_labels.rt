//! The labels that a node knows, where they lie.

ghost use Rattle.std.specs.Prelude.{◌≡◌, ◌<◌, All, length};
ghost use Rattle.pls_watch.specs.inner.Known.{known_labels};

use pls_bits::Bits;
use pls_labels::{LabelRoom, Labels};
use std::marker::Model;

/// One label for each node, in the order of the nodes, each by its number in a store, and lent from
/// there; seen as the list of them.
#[derive(Drop)]
pub(crate) struct KnownLabels<'a> {
    labels: &'a LabelRoom,
    numbers: &'a [u32],
}

impl<'a> Model for KnownLabels<'a> {
    ghost use Rattle.std.specs.Prelude.{◌<◌, All, Bool, List, length};
    ghost use Rattle.pls_watch.specs.inner.Known.{known_labels};

    ghost Value = { List (List Bool) };

    ghost view = { λ known. known_labels known.labels.now.labels known.numbers.now };

    ghost invariant = { λ known.
        All (λ number. number < length known.labels.now.labels) known.numbers.now };
}

impl<'a> KnownLabels<'a> {
    pub(crate) fn of(labels: &'a LabelRoom, numbers: &'a [u32]) -> Self
        requires { All (λ number. number < length labels.now.labels) numbers.now }
        ensures { result ≡ known_labels labels.now.labels numbers.now }
    {
        KnownLabels { labels, numbers }
    }
}

impl<'a> Labels for KnownLabels<'a> {
    ghost listed = { λ labels. labels };

    #[inline(always)]
    fn len(&self) -> usize {
        self.numbers.len()
    }

    #[inline(always)]
    fn bits(&self, i: usize) -> Bits<'_> {
        self.labels.bits(self.numbers[i] as usize)
    }
}
