//! Parts that are any items of a kind under a heading of one word.

ghost use Rattle.std.specs.Prelude.{◌≡◌, ℕ, List, All};
ghost use Rattle.pls_lines.specs.Counted.{IsHeadingWord, counted};

use crate::line_kind::LineKind;
use crate::list_tally::{Keep, ListTally};
use crate::words::after_line;
use pls_streams::NoMemory;
use std::alloc::Global;
use std::marker::PhantomData;

/// A word that is the heading of a part, alone in its line.
pub trait HeadingWord: Drop {
    /// The bytes of the word.
    ghost word: { List ℕ };

    /// The word, as texts are read and written with it.
    fn word() -> &'static [u8]
        ensures { result.now ≡ word };

    /// The word is plain, and not `end`.
    ghost word_law: { IsHeadingWord word };
}

/// What a heading says that is one word alone: nothing but that its part begins.
#[derive(Drop)]
pub struct BareHeading<W> {
    of: PhantomData<W>,
}

impl<'a, W: HeadingWord> LineKind<'a> for BareHeading<W> {
    ghost use Rattle.pls_lines.specs.LineKind.{Always, alone};
    ghost use Rattle.pls_lines.specs.laws.CountedLaws.{heading_kind};

    ghost written = { alone W.word };

    ghost Fits = { Always };

    ghost kind_law = { heading_kind W.word W.word_law (λ a b. λ _. a) };

    fn read(text: &'a [u8]) -> Option<(Self, &'a [u8])> {
        let rest = after_line(text, W::word())?;
        Some((BareHeading { of: PhantomData }, rest))
    }
}

/// How many items a part has, and `u64::MAX` at the most. The part has any items of the kind, in
/// any order and number.
#[derive(Drop)]
pub struct Count<W, K> {
    /// The number of items.
    pub items: u64,
    of: PhantomData<(W, K)>,
}

impl<'a, W: HeadingWord, K: LineKind<'a>> ListTally<'a> for Count<W, K> {
    ghost use Rattle.std.specs.Prelude.{All};
    ghost use Rattle.pls_lines.specs.laws.CountedLaws.{counted_list};

    type Heading = BareHeading<W>;

    type Item = K;

    ghost Are = { All K.Fits };

    ghost tally = { λ items. record { items = counted items; of = record {} } };

    ghost list_law = { counted_list (record { of = record {} }) K.Fits };

    fn none() -> Self {
        Count {
            items: 0,
            of: PhantomData,
        }
    }

    fn take(&mut self, _item: &K) -> bool {
        self.items = self.items.saturating_add(1);
        true
    }

    fn is_whole(&self) -> bool {
        true
    }
}

/// The items themselves are kept.
impl<'a, W: HeadingWord, K: LineKind<'a>> Keep<'a> for Count<W, K> {
    type Line = K;

    ghost line = { λ item. item };

    fn line_of(_alloc: Global, item: K) -> Result<K, NoMemory> {
        Ok(item)
    }
}
