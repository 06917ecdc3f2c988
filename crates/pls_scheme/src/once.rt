//! Rules on labels that are read, as rules that are tried in place.

use crate::in_place::{JudgesInPlace, LabelGlance};
use crate::judgement::Judgement;
use crate::rules::Rules;
use pls_bits::Bits;
use pls_configuration::{State, Verdict};
use pls_numbers::{Format, ReadsInPlace};

/// Rules by which each label is read once, and kept whole.
#[derive(Clone, Copy, Debug, PartialEq, Eq)]
pub struct Once<R> {
    /// The rules.
    pub rules: R,
}

impl<R: Default> Default for Once<R> {
    fn default() -> Self {
        Once {
            rules: R::default(),
        }
    }
}

impl<R: Judgement> Judgement for Once<R> {
    type Code = R::Code;

    type Format = R::Format;

    ghost format = { λ s. R.format s.rules };

    ghost rules = { λ s view. R.rules s.rules view };

    fn format(&self) -> &Self::Format {
        self.rules.format()
    }
}

impl<R: Rules> JudgesInPlace for Once<R> {
    type Glance = <R::Format as Format>::Label;

    type Memory = Option<<R::Format as Format>::Label>;

    type Tally = R::Tally;

    ghost glance = { λ _ label. label };

    ghost tally_of = { λ s view. R.tallied s.rules view.own view.ports };

    fn look(&self, bits: &Bits<'_>) -> Option<Self::Glance> {
        self.rules.format().read_in_place::<R::Code>(bits)
    }

    fn open(&self, own: &Self::Glance) -> Self::Tally {
        self.rules.start(own)
    }

    fn pass(
        &self,
        _up: Option<u32>,
        own: &LabelGlance<'_, Self::Glance>,
        tally: Self::Tally,
        _place: usize,
        weight: u32,
        label: &LabelGlance<'_, Self::Glance>,
    ) -> Self::Tally {
        self.rules.add(own.glance, tally, weight, label.glance)
    }

    fn close(
        &self,
        id: u32,
        state: State,
        own: &LabelGlance<'_, Self::Glance>,
        above: Option<&Self::Glance>,
        tally: Self::Tally,
    ) -> Verdict {
        self.rules.verdict(id, state, own.glance, above, tally)
    }
}
