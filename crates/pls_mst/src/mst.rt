//! The rules of the scheme `mst`: a label says where the node stands in the tree, and for each
//! level its fragment and the edge that the fragment chose. Each label is looked at once; then, in
//! one pass over the ports, the levels of the node and of each neighbour are compared side by side.

ghost use Rattle.std.specs.Prelude.{◌≡◌, option_map};
ghost use Rattle.std.specs.Option.{option_copied};
ghost use Rattle.pls_mst.specs.declared.glance.MstGlance.{MstGlance};

use crate::gathering::{PortTally, with_port};
use crate::glance::{MstGlance, glance_at};
use crate::levels::{MstFormat, MstLevels};
use pls_bits::{Bits, NumCode};
use pls_configuration::{State, Verdict};
use pls_levels::{LevelHead, is_placed};
use pls_scheme::{Basic, BoxedGlance, Judgement, JudgesInPlace, LabelGlance, judged_from};
use std::marker::PhantomData;

/// The scheme of spanning trees of least weight, whose labels are written in the number code `C`.
pub type Mst<C> = Basic<MstRules<C>>;

/// The rules of spanning trees of least weight.
#[derive(Clone, Copy, Debug, PartialEq, Eq)]
pub struct MstRules<C> {
    code: PhantomData<C>,
    format: MstFormat,
}

impl<C> Default for MstRules<C> {
    fn default() -> Self {
        MstRules {
            code: PhantomData,
            format: MstFormat::default(),
        }
    }
}

impl<C: NumCode> Judgement for MstRules<C> {
    ghost use Rattle.pls_mst.specs.Rules.{mst_rules};

    type Code = C;

    type Format = MstFormat;

    ghost format = { λ s. s.format };

    ghost rules = { λ _. mst_rules };

    fn format(&self) -> &MstFormat {
        &self.format
    }
}

impl<C: NumCode> JudgesInPlace for MstRules<C> {
    ghost use Rattle.pls_mst.specs.inner.Gathering.{mst_tally};
    ghost use Rattle.pls_mst.specs.inner.Glance.{glance_of};

    type Glance = MstGlance;

    type Memory = BoxedGlance<MstGlance>;

    type Tally = PortTally;

    ghost glance = { λ _ label. glance_of label };

    ghost tally_of = { λ _ view. mst_tally view };

    fn look(&self, bits: &Bits<'_>) -> Option<MstGlance> {
        glance_at::<C>(bits)
    }

    fn open(&self, _own: &MstGlance) -> PortTally {
        PortTally::before()
    }

    fn pass(
        &self,
        up: Option<u32>,
        own: &LabelGlance<'_, MstGlance>,
        tally: PortTally,
        place: usize,
        weight: u32,
        label: &LabelGlance<'_, MstGlance>,
    ) -> PortTally {
        with_port::<C>(up, own, tally, place, weight, label)
    }

    fn early_verdict(
        &self,
        id: u32,
        state: State,
        own: &LabelGlance<'_, MstGlance>,
        above: Option<&MstGlance>,
    ) -> Option<Verdict> {
        if is_placed::<MstLevels>(id, state, &own.glance.head, head_above(above)) {
            None
        } else {
            Some(Verdict::Reject { leaf: 1, rule: 3 })
        }
    }

    fn close(
        &self,
        id: u32,
        state: State,
        own: &LabelGlance<'_, MstGlance>,
        above: Option<&MstGlance>,
        tally: PortTally,
    ) -> Verdict {
        let placed = is_placed::<MstLevels>(id, state, &own.glance.head, head_above(above));
        judged_from(3, &tally.rules::<C>(placed, state, own))
    }
}

#[inline(always)]
fn head_above(above: Option<&MstGlance>) -> Option<&LevelHead>
    ensures { option_copied result
        ≡ option_map (λ (glance : MstGlance). glance.head) (option_copied above.entry) }
{
    match above {
        Some(above) => Some(&above.head),
        None => None,
    }
}
