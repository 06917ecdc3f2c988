//! Parts whose last line closes them, and what is counted of their lines.

use crate::closing_line::{ClosingLine, OwnLine};
use pls_lines::{BareHeading, HeadingWord, Keep, ListTally};
use pls_streams::NoMemory;
use std::alloc::Global;
use std::marker::PhantomData;

/// How many lines a part has, how many of them close, and how many bits the labels have that they
/// give, each `u64::MAX` at the most; and whether the last line closes.
///
/// The part has any lines of the kind under a heading of one word, of which the last one closes.
#[derive(Drop)]
pub struct ClosingTally<W, K> {
    /// The number of lines.
    pub lines: u64,
    /// The number of lines that close.
    pub closing: u64,
    /// The number of bits.
    pub bits: u64,
    /// Whether the last line closes, or there may be none.
    pub closed: bool,
    of: PhantomData<(W, K)>,
}

impl<'a, W: HeadingWord, K: ClosingLine<'a>> ListTally<'a> for ClosingTally<W, K> {
    ghost use Rattle.std.specs.Prelude.{length, filter, sum_by};
    ghost use Rattle.pls_streams.specs.Steps.{capped};
    ghost use Rattle.pls_lines.specs.Counted.{counted};
    ghost use Rattle.pls_closing.specs.Closing.{AreClosed, closing_of, is_closed};
    ghost use Rattle.pls_closing.specs.laws.ClosedLists.{closed_list};

    type Heading = BareHeading<W>;

    type Item = K;

    ghost Are = { AreClosed K.Fits K.closes K.may_lack };

    ghost tally = { λ items. record {
      lines = counted items;
      closing = counted (closing_of K.closes items);
      bits = capped (sum_by K.bits items);
      closed = is_closed K.closes K.may_lack items;
      of = record {};
    } };

    ghost list_law = { closed_list (record { of = record {} }) K.Fits K.closes K.may_lack
        K.closing_law };

    fn none() -> Self {
        ClosingTally {
            lines: 0,
            closing: 0,
            bits: 0,
            closed: K::may_lack(),
            of: PhantomData,
        }
    }

    fn take(&mut self, item: &K) -> bool {
        K::closing_laws();
        self.lines = self.lines.saturating_add(1);
        self.bits = self.bits.saturating_add(item.bits());
        self.closed = item.closes();
        if self.closed {
            self.closing = self.closing.saturating_add(1);
        }
        true
    }

    fn is_whole(&self) -> bool {
        self.closed
    }
}

impl<'a, W: HeadingWord, K: OwnLine<'a>> Keep<'a> for ClosingTally<W, K> {
    type Line = K::Line;

    ghost line = { K.line };

    fn line_of(alloc: Global, item: K) -> Result<K::Line, NoMemory> {
        item.into_line(alloc)
    }
}
