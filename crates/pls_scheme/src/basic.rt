//! Basic schemes: rules and a marker, as a scheme.

ghost use Rattle.std.specs.Prelude.{◌≡◌, IfOk};
ghost use Rattle.pls_numbers.specs.Shape.{recoded};
ghost use Rattle.pls_scheme.specs.Basic.{verdict_by};

use crate::checker::Checker;
use crate::in_place::JudgesInPlace;
use crate::judgement::Judgement;
use crate::labels::labels_of;
use crate::marker::Marker;
use crate::once::Once;
use crate::property::Property;
use crate::round::verdicts_of;
use crate::scheme::Scheme;
use crate::view_judged::judge_view;
use pls_bits::{BitBuf, Bits, NumCode};
use pls_configuration::Verdict;
use pls_graph::{Network, Size};
use pls_labels::{LabelStore, Labels, View};
use pls_numbers::{Format, recode};
use pls_streams::{NoMemory, Steps};
use std::alloc::Global;

/// A basic scheme, by rules that are tried in place and a marker: a verifier of one leaf that takes
/// no memory, and a marker that writes the labels that are right.
#[derive(Clone, Copy, Debug, PartialEq, Eq)]
pub struct Basic<R> {
    /// The rules by which a node is judged, and for which the marker writes labels.
    pub rules: R,
}

/// A basic scheme by rules that read each label of a view once.
pub type RuleScheme<R> = Basic<Once<R>>;

impl<R: Default> Basic<R> {
    /// The scheme whose rules are the usual ones. It takes no memory.
    pub fn new() -> Self {
        Basic {
            rules: R::default(),
        }
    }
}

impl<R: Judgement> Basic<R> {
    /// The label that the bits are, written in the number code `D`, or `None` where they are no
    /// label. The one error is want of memory.
    pub fn convert_label<D: NumCode>(
        &self,
        alloc: Global,
        bits: &Bits<'_>,
    ) -> Result<Option<BitBuf>, NoMemory>
        ensures { IfOk result (λ found. found ≡ recoded (R.Format.shape (R.format self.now.rules))
            R.Code.takes D.code bits.now) }
    {
        recode::<R::Format, R::Code, D>(self.rules.format(), alloc, bits)
    }
}

impl<R: JudgesInPlace> Basic<R> {
    /// The verdict on a view: [`Checker::verify`] without memory, without an error, and without a
    /// step that is counted.
    pub fn judge(&self, view: &View<'_>) -> Verdict
        ensures { result ≡ verdict_by (R.Format.shape (R.format self.now.rules))
            (R.rules self.now.rules) R.Code.takes view.now }
    {
        judge_view(&self.rules, view)
    }
}

impl<R: JudgesInPlace> Checker for Basic<R> {
    ghost use Rattle.std.specs.Prelude.{true, false, refl};
    ghost use Rattle.pls_numbers.specs.Shape.{said_by};
    ghost use Rattle.pls_scheme.specs.Basic.{verdict_by};
    ghost use Rattle.pls_scheme.specs.laws.LeafLaws.{judge_by-leaf};

    ghost judge = { λ s view. verdict_by (R.Format.shape (R.format s.rules)) (R.rules s.rules)
        R.Code.takes view };

    ghost leaves = { λ _. 1 };

    ghost lends = { λ _. true };

    ghost TAKES_MEMORY = { false };

    const TAKES_MEMORY: bool = false;

    fn leaves(&self) -> u8 {
        1
    }

    fn lends(&self) -> bool {
        true
    }

    fn verify(
        &self,
        _alloc: Global,
        view: &View<'_>,
        steps: &mut Steps,
    ) -> Result<Verdict, NoMemory> {
        steps.tick();
        Ok(self.judge(view))
    }

    fn round<L: Labels>(
        &self,
        alloc: Global,
        net: &Network,
        labels: &L,
        steps: &mut Steps,
    ) -> Result<Vec<Verdict>, NoMemory> {
        verdicts_of(alloc, &self.rules, net, labels, steps)
    }

    ghost leaf_law = { λ s. judge_by-leaf
        (said_by (R.Format.shape (R.format s.rules)) R.Code.takes) (R.rules s.rules) };

    ghost lends_law = { λ _ _. refl };
}

impl<R: Marker> Property for Basic<R> {
    ghost holds = { λ s rows. R.holds s.rules rows };

    fn decide(&self, alloc: Global, net: &Network) -> Result<bool, NoMemory> {
        self.rules.decide(alloc, net)
    }
}

impl<R: JudgesInPlace + Marker> Scheme for Basic<R> {
    ghost use Rattle.pls_numbers.specs.Shape.{IsSpelled, IsWritable, said_by};
    ghost use Rattle.pls_numbers.specs.laws.FormatLaws.{has_spelling, one_spelling, said_spells};
    ghost use Rattle.pls_scheme.specs.Basic.{AreMarkedBy};
    ghost use Rattle.pls_scheme.specs.laws.Marking.{marked_once, one_said, sound_by};

    type Label = <R::Format as Format>::Label;

    ghost layout = { λ s bits label. IsSpelled (R.Format.shape (R.format s.rules)) R.Code.code bits
        label };

    ghost writable = { λ s label. IsWritable (R.Format.shape (R.format s.rules)) label };

    ghost marked = { λ s rows labels. AreMarkedBy (R.Format.shape (R.format s.rules))
        (R.says s.rules) R.Code.code rows labels };

    ghost longest = { λ s size. R.longest s.rules size };

    fn read_label(&self, alloc: Global, bits: Bits<'_>) -> Result<Option<Self::Label>, NoMemory> {
        self.rules.format().read::<R::Code>(alloc, &bits)
    }

    fn write_label(&self, alloc: Global, label: &Self::Label) -> Result<BitBuf, NoMemory> {
        let mut bits = BitBuf::new(alloc);
        self.rules.format().append::<R::Code>(&mut bits, label)?;
        Ok(bits)
    }

    fn bound(&self, size: &Size) -> u64 {
        self.rules.longest(size)
    }

    fn mark(&self, alloc: Global, net: &Network) -> Result<Option<LabelStore>, NoMemory> {
        // Its identities, weights and marks are numbers of 32 bits.
        net.size();
        let Some(said) = self.rules.right_labels(alloc, net)? else {
            return Ok(None);
        };
        let labels = labels_of::<R::Format, R::Code>(alloc, self.rules.format(), &said)?;
        Ok(Some(labels))
    }

    ghost reads_back_law = { λ s. has_spelling (R.Format.shape (R.format s.rules)) R.Code.code };

    ghost one_spelling_law = { λ s. one_spelling (R.Format.shape (R.format s.rules)) R.Code.code };

    ghost one_label_law = { λ s. one_said (said_by (R.Format.shape (R.format s.rules)) R.Code.takes)
        (IsSpelled (R.Format.shape (R.format s.rules)) R.Code.code)
        (said_spells (R.Format.shape (R.format s.rules)) (R.Format.numbers_law (R.format s.rules))
        R.Code.code R.Code.takes R.Code.takes_codes R.Code.takes_only) };

    ghost sound_law = { λ s. sound_by (said_by (R.Format.shape (R.format s.rules)) R.Code.takes)
        (R.rules s.rules) (R.holds s.rules) (R.show_law s.rules) };

    ghost one_marking_law = { λ s.
        marked_once (IsSpelled (R.Format.shape (R.format s.rules)) R.Code.code) (R.holds s.rules)
        (R.says s.rules) (one_spelling (R.Format.shape (R.format s.rules)) R.Code.code)
        (R.one_right_law s.rules) };
}

impl<R: Marker> Marker for Once<R> {
    ghost holds = { λ s rows. R.holds s.rules rows };

    ghost says = { λ s rows row label. R.says s.rules rows row label };

    ghost longest = { λ s size. R.longest s.rules size };

    fn longest(&self, size: &Size) -> u64 {
        self.rules.longest(size)
    }

    fn right_labels(
        &self,
        alloc: Global,
        net: &Network,
    ) -> Result<Option<Vec<<R::Format as Format>::Label>>, NoMemory> {
        self.rules.right_labels(alloc, net)
    }

    fn decide(&self, alloc: Global, net: &Network) -> Result<bool, NoMemory> {
        self.rules.decide(alloc, net)
    }

    ghost show_law = { λ s. R.show_law s.rules };

    ghost met_law = { λ s. R.met_law s.rules };

    ghost one_right_law = { λ s. R.one_right_law s.rules };

    ghost fits_law = { λ s. R.fits_law s.rules };
}
