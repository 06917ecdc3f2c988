//! The rules of the scheme `spt`: the label is the root's identity, the node's depth, and its
//! distance from the root.

use crate::gathering::PortTally;
use pls_bits::{Bits, NumCode};
use pls_configuration::{State, Verdict};
use pls_scheme::{
    Basic, Judgement, JudgesInPlace, LabelGlance, NumbersFormat, OfNumbers, ReadsInPlace,
    judged_from,
};
use std::marker::PhantomData;

/// What a label says.
#[derive(Clone, Copy, Debug, PartialEq, Eq)]
pub struct SptLabel {
    /// The identity of the root.
    pub root: u64,
    /// How many pointers lead from the node to the root.
    pub depth: u64,
    /// What the edges along these pointers weigh together.
    pub dist: u64,
}

impl OfNumbers<3> for SptLabel {
    ghost use Rattle.std.specs.Prelude.{refl};
    ghost use Rattle.pls_distance.specs.Spt.{numbers_of_spt, spt_label};
    ghost use Rattle.pls_numbers.specs.laws.FixedLaws.{are_numbers};

    ghost numbers = { numbers_of_spt };

    ghost of_numbers = { spt_label };

    fn numbers(&self) -> [u64; 3] {
        [self.root, self.depth, self.dist]
    }

    fn of_numbers(list: &[u64; 3]) -> SptLabel {
        let [root, depth, dist] = *list;
        SptLabel { root, depth, dist }
    }

    ghost numbers_law = { are_numbers 3 numbers_of_spt spt_label refl (λ _. refl) (λ _. refl)
        (λ _. refl) };
}

/// The scheme of shortest-path trees, whose labels are written in the number code `C`.
pub type Spt<C> = Basic<SptRules<C>>;

/// The rules of shortest-path trees.
#[derive(Clone, Copy, Debug, PartialEq, Eq)]
pub struct SptRules<C> {
    format: NumbersFormat<SptLabel, 3>,
    code: PhantomData<C>,
}

impl<C> Default for SptRules<C> {
    fn default() -> Self {
        SptRules {
            format: NumbersFormat::default(),
            code: PhantomData,
        }
    }
}

impl<C: NumCode> Judgement for SptRules<C> {
    ghost use Rattle.pls_distance.specs.Spt.{spt_rules};

    type Code = C;

    type Format = NumbersFormat<SptLabel, 3>;

    ghost format = { λ s. s.format };

    ghost rules = { λ _. spt_rules };

    fn format(&self) -> &NumbersFormat<SptLabel, 3> {
        &self.format
    }
}

// The rules need the weight of the port that the node points at, so they gather of each port what
// they ask of it.
impl<C: NumCode> JudgesInPlace for SptRules<C> {
    ghost use Rattle.pls_distance.specs.inner.Gathering.{spt_tally};

    type Glance = SptLabel;

    type Memory = Option<SptLabel>;

    type Tally = PortTally;

    ghost glance = { λ _ label. label };

    ghost tally_of = { λ _ view. spt_tally view };

    fn look(&self, bits: &Bits<'_>) -> Option<SptLabel> {
        self.format.read_in_place::<C>(bits)
    }

    fn open(&self, own: &SptLabel) -> PortTally {
        PortTally::before(*own)
    }

    fn pass(
        &self,
        up: Option<u32>,
        _own: &LabelGlance<'_, SptLabel>,
        tally: PortTally,
        place: usize,
        weight: u32,
        label: &LabelGlance<'_, SptLabel>,
    ) -> PortTally {
        tally.with(up, place, weight, *label.glance)
    }

    fn close(
        &self,
        id: u32,
        state: State,
        _own: &LabelGlance<'_, SptLabel>,
        _above: Option<&SptLabel>,
        tally: PortTally,
    ) -> Verdict {
        judged_from(3, &tally.rules(id, state))
    }
}
