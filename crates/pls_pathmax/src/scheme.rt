//! Spanning trees of least weight by centroids, as a scheme.

ghost use Rattle.std.specs.Prelude.{◌≡◌, IfOk};
ghost use Rattle.pls_numbers.specs.Shape.{recoded};
ghost use Rattle.pls_scheme.specs.Basic.{verdict_by};
ghost use Rattle.pls_pathmax.specs.Labels.{pathmax_shape};
ghost use Rattle.pls_pathmax.specs.Rules.{pathmax_rules};

use crate::glance::{LONG_FRONT, PathMaxGlance, SHORT_FRONT, glance_in};
use crate::in_memory::verdict_of_node;
use crate::levels::{PathMaxFormat, PathMaxLabel};
use crate::pathmax::{PathMaxRules, are_short, judge_view, pass_from};
use pls_bits::{BitBuf, Bits, NumCode};
use pls_configuration::Verdict;
use pls_graph::{Network, Size};
use pls_labels::{LabelStore, Labels, View};
use pls_numbers::{Format, recode};
use pls_scheme::{
    BoxedGlance, Checker, GlanceMemory, Marker, Property, Remembers, Scheme, labels_of,
};
use pls_streams::{NoMemory, Steps};
use std::alloc::Global;

/// The scheme of spanning trees of least weight by centroids, whose labels are written in the
/// number code `C`.
#[derive(Clone, Copy, Debug, PartialEq, Eq)]
pub struct PathMax<C> {
    /// The rules, with what labels are right.
    pub rules: PathMaxRules<C>,
}

impl<C> PathMax<C> {
    /// The scheme. It takes no memory.
    pub fn new() -> Self {
        PathMax {
            rules: PathMaxRules::default(),
        }
    }
}

impl<C: NumCode> PathMax<C> {
    /// The verdict on a view: [`Checker::verify`] without an error, and without a step that is
    /// counted. It takes no memory.
    pub fn judge(&self, view: &View<'_>) -> Verdict
        ensures { result ≡ verdict_by pathmax_shape pathmax_rules C.takes view.now }
    {
        judge_view::<C>(view)
    }

    /// The label that the bits are, written in the number code `D`, or `None` where they are no
    /// label. The one error is want of memory.
    pub fn convert_label<D: NumCode>(
        &self,
        alloc: Global,
        bits: &Bits<'_>,
    ) -> Result<Option<BitBuf>, NoMemory>
        ensures { IfOk result (λ found. found ≡ recoded pathmax_shape C.takes D.code bits.now) }
    {
        recode::<PathMaxFormat, C, D>(&PathMaxFormat::default(), alloc, bits)
    }
}

impl<C: NumCode> Checker for PathMax<C> {
    ghost use Rattle.std.specs.Prelude.{true, false, refl};
    ghost use Rattle.pls_numbers.specs.Shape.{said_by};
    ghost use Rattle.pls_scheme.specs.Basic.{verdict_by};
    ghost use Rattle.pls_scheme.specs.laws.LeafLaws.{judge_by-leaf};
    ghost use Rattle.pls_pathmax.specs.Labels.{pathmax_shape};
    ghost use Rattle.pls_pathmax.specs.Rules.{pathmax_rules};

    ghost judge = { λ _ view. verdict_by pathmax_shape pathmax_rules C.takes view };

    ghost leaves = { λ _. 1 };

    ghost lends = { λ _. true };

    ghost TAKES_MEMORY = { false };

    const TAKES_MEMORY: bool = false;

    fn leaves(&self) -> u8 {
        1
    }

    fn lends(&self) -> bool {
        true
    }

    fn verify(
        &self,
        _alloc: Global,
        view: &View<'_>,
        steps: &mut Steps,
    ) -> Result<Verdict, NoMemory> {
        steps.tick();
        Ok(self.judge(view))
    }

    fn round<L: Labels>(
        &self,
        alloc: Global,
        net: &Network,
        labels: &L,
        steps: &mut Steps,
    ) -> Result<Vec<Verdict>, NoMemory> {
        let first = if are_short::<C, L>(net, labels) {
            pass_from::<C, SHORT_FRONT>(0).round(alloc, net, labels, steps)?
        } else {
            pass_from::<C, LONG_FRONT>(0).round(alloc, net, labels, steps)?
        };
        let first = first.as_slice();
        let mut verdicts = Vec::with_capacity(alloc, net.len())?;
        for i in 0..net.len() {
            let verdict = verdict_of_node::<C, L>(alloc, net, labels, i, first[i])?;
            verdicts.push(verdict)?;
        }
        Ok(verdicts)
    }

    ghost leaf_law = { λ _. judge_by-leaf (said_by pathmax_shape C.takes) pathmax_rules };

    ghost lends_law = { λ _ _. refl };
}

impl<C: NumCode> Remembers for PathMax<C> {
    ghost use Rattle.pls_numbers.specs.Shape.{said_by};
    ghost use Rattle.pls_scheme.specs.inner.Looks.{seen_in};
    ghost use Rattle.pls_pathmax.specs.Labels.{pathmax_shape};
    ghost use Rattle.pls_pathmax.specs.declared.glance.TheConstants.{LONG_FRONT};
    ghost use Rattle.pls_pathmax.specs.inner.Glance.{glance_said};

    type Memory = BoxedGlance<PathMaxGlance<LONG_FRONT>>;

    ghost told = { λ _ bits. seen_in (said_by pathmax_shape C.takes) (glance_said LONG_FRONT) bits };

    fn remember(
        &self,
        alloc: Global,
        bits: &Bits<'_>,
    ) -> Result<BoxedGlance<PathMaxGlance<LONG_FRONT>>, NoMemory> {
        BoxedGlance::keep(alloc, glance_in::<C, LONG_FRONT>(bits))
    }

    fn verdict_at(
        &self,
        alloc: Global,
        net: &Network,
        labels: &LabelStore,
        memories: &[BoxedGlance<PathMaxGlance<LONG_FRONT>>],
        i: usize,
    ) -> Result<Verdict, NoMemory> {
        let verdict = pass_from::<C, LONG_FRONT>(0).verdict_at(alloc, net, labels, memories, i)?;
        verdict_of_node::<C, LabelStore>(alloc, net, labels, i, verdict)
    }
}

impl<C: NumCode> Property for PathMax<C> {
    ghost use Rattle.pls_facts.specs.MinimumSpanningTree.{IsMinimumSpanningTree};

    ghost holds = { λ _ rows. IsMinimumSpanningTree rows };

    fn decide(&self, alloc: Global, net: &Network) -> Result<bool, NoMemory> {
        self.rules.decide(alloc, net)
    }
}

impl<C: NumCode> Scheme for PathMax<C> {
    ghost use Rattle.pls_numbers.specs.Shape.{IsSpelled, IsWritable, said_by};
    ghost use Rattle.pls_numbers.specs.laws.FormatLaws.{has_spelling, one_spelling, said_spells};
    ghost use Rattle.pls_facts.specs.MinimumSpanningTree.{IsMinimumSpanningTree};
    ghost use Rattle.pls_scheme.specs.Basic.{AreMarkedBy};
    ghost use Rattle.pls_scheme.specs.laws.Marking.{marked_once, one_said, sound_by};
    ghost use Rattle.pls_pathmax.specs.Labels.{pathmax_shape};
    ghost use Rattle.pls_pathmax.specs.PathMax.{PathMaxSays, longest_pathmax};
    ghost use Rattle.pls_pathmax.specs.Rules.{pathmax_rules};
    ghost use Rattle.pls_pathmax.specs.laws.LabelLaws.{pathmax_numbers};
    ghost use Rattle.pls_pathmax.specs.laws.PathMaxLaws.{pathmax_one_right, pathmax_show};

    type Label = PathMaxLabel;

    ghost layout = { λ _ bits label. IsSpelled pathmax_shape C.code bits label };

    ghost writable = { λ _ label. IsWritable pathmax_shape label };

    ghost marked = { λ _ rows labels. AreMarkedBy pathmax_shape PathMaxSays C.code rows labels };

    ghost longest = { λ _ size. longest_pathmax C.code size };

    fn read_label(&self, alloc: Global, bits: Bits<'_>) -> Result<Option<PathMaxLabel>, NoMemory> {
        PathMaxFormat::default().read::<C>(alloc, &bits)
    }

    fn write_label(&self, alloc: Global, label: &PathMaxLabel) -> Result<BitBuf, NoMemory> {
        let mut bits = BitBuf::new(alloc);
        PathMaxFormat::default().append::<C>(&mut bits, label)?;
        Ok(bits)
    }

    fn bound(&self, size: &Size) -> u64 {
        self.rules.longest(size)
    }

    fn mark(&self, alloc: Global, net: &Network) -> Result<Option<LabelStore>, NoMemory> {
        // Its identities, weights and marks are numbers of 32 bits.
        net.size();
        let Some(said) = self.rules.right_labels(alloc, net)? else {
            return Ok(None);
        };
        let labels = labels_of::<PathMaxFormat, C>(alloc, &PathMaxFormat::default(), &said)?;
        Ok(Some(labels))
    }

    ghost reads_back_law = { λ _. has_spelling pathmax_shape C.code };

    ghost one_spelling_law = { λ _. one_spelling pathmax_shape C.code };

    ghost one_label_law = { λ _. one_said (said_by pathmax_shape C.takes)
        (IsSpelled pathmax_shape C.code)
        (said_spells pathmax_shape pathmax_numbers C.code C.takes C.takes_codes C.takes_only) };

    ghost sound_law = { λ _. sound_by (said_by pathmax_shape C.takes) pathmax_rules
        IsMinimumSpanningTree pathmax_show };

    ghost one_marking_law = { λ _. marked_once (IsSpelled pathmax_shape C.code)
        IsMinimumSpanningTree PathMaxSays (one_spelling pathmax_shape C.code) pathmax_one_right };
}
