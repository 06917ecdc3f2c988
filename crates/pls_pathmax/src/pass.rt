//! The rules of the scheme `pathmax` in one pass over the ports.

ghost use Rattle.std.specs.Prelude.{◌≡◌};

use crate::gathering::{PortTally, has_ways, with_port};
use crate::glance::{PathMaxGlance, glance_in, head_above};
use crate::levels::{PathMaxFormat, PathMaxLevels};
use pls_bits::{Bits, NumCode};
use pls_configuration::{State, Verdict};
use pls_levels::is_placed;
use pls_scheme::{BoxedGlance, Judgement, JudgesInPlace, LabelGlance, judged_from};
use std::marker::PhantomData;

// The rules of spanning trees of least weight by centroids, of which rule 5 is asked of up to 64
// levels: what can be told without memory in one pass over the ports.
#[derive(Clone, Copy, Debug, PartialEq, Eq)]
pub(crate) struct PathMaxPass<C, const N: usize> {
    code: PhantomData<C>,
    format: PathMaxFormat,
    // The number of the first of these levels.
    first: u64,
}

impl<C, const N: usize> PathMaxPass<C, N> {
    // Asks rule 5 of the levels from `first` on.
    pub(crate) fn from_level(first: u64) -> Self
        ensures { result.first ≡ first }
    {
        PathMaxPass {
            code: PhantomData,
            format: PathMaxFormat::default(),
            first,
        }
    }
}

impl<C: NumCode, const N: usize> Judgement for PathMaxPass<C, N> {
    ghost use Rattle.pls_pathmax.specs.inner.OnePass.{one_pass_rules};

    type Code = C;

    type Format = PathMaxFormat;

    ghost format = { λ s. s.format };

    ghost rules = { λ s. one_pass_rules s.first };

    fn format(&self) -> &PathMaxFormat {
        &self.format
    }
}

impl<C: NumCode, const N: usize> JudgesInPlace for PathMaxPass<C, N> {
    ghost use Rattle.pls_pathmax.specs.inner.OnePass.{gathered_from};
    ghost use Rattle.pls_pathmax.specs.inner.Glance.{glance_said};

    type Glance = PathMaxGlance<N>;

    type Memory = BoxedGlance<PathMaxGlance<N>>;

    type Tally = PortTally;

    ghost glance = { λ _ label. glance_said N label };

    ghost tally_of = { λ s view. gathered_from s.first view };

    fn look(&self, bits: &Bits<'_>) -> Option<PathMaxGlance<N>> {
        glance_in::<C, N>(bits)
    }

    fn open(&self, _own: &PathMaxGlance<N>) -> PortTally {
        PortTally::before()
    }

    fn pass(
        &self,
        up: Option<u32>,
        own: &LabelGlance<'_, PathMaxGlance<N>>,
        tally: PortTally,
        place: usize,
        weight: u32,
        label: &LabelGlance<'_, PathMaxGlance<N>>,
    ) -> PortTally {
        with_port::<C, N>(self.first, up, own, tally, place, weight, label)
    }

    fn early_verdict(
        &self,
        id: u32,
        state: State,
        own: &LabelGlance<'_, PathMaxGlance<N>>,
        above: Option<&PathMaxGlance<N>>,
    ) -> Option<Verdict> {
        if is_placed::<PathMaxLevels>(id, state, &own.glance.head, head_above(above)) {
            None
        } else {
            Some(Verdict::Reject { leaf: 1, rule: 3 })
        }
    }

    fn close(
        &self,
        id: u32,
        state: State,
        own: &LabelGlance<'_, PathMaxGlance<N>>,
        above: Option<&PathMaxGlance<N>>,
        tally: PortTally,
    ) -> Verdict {
        let placed = is_placed::<PathMaxLevels>(id, state, &own.glance.head, head_above(above));
        let ways = has_ways::<C, N>(self.first, own, &tally.led_on);
        judged_from(3, &[placed, tally.agrees, ways, tally.heavy])
    }
}
