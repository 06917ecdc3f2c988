//! A scheme from its property on: the nodes with mark 1 are a maximal independent set. No edge
//! joins two of them, and each other node is adjacent to one. The label is the node's mark, since a
//! node sees its neighbours' labels and not their states.

ghost use Rattle.std.specs.Prelude.{◌≡◌, ◌==◌, ◌&&◌, ◌||◌, map, not, IfOk};
ghost use Rattle.pls_scheme_tests.specs.IndependentSet.{mark_of};

use pls_bits::NumCode;
use pls_configuration::State;
use pls_facts::is_valid;
use pls_graph::{Network, Size};
use pls_scheme::{
    Judgement, Marker, NumbersFormat, OfNumbers, RuleScheme, Rules, Verdict, codes_length,
    hold_everywhere, judged_from,
};
use pls_streams::NoMemory;
use std::alloc::Global;
use std::marker::PhantomData;

/// What a label says.
#[derive(Clone, Copy, Debug, PartialEq, Eq)]
pub struct MarkLabel {
    /// The node's mark.
    pub mark: u64,
}

impl OfNumbers<1> for MarkLabel {
    ghost use Rattle.std.specs.Prelude.{refl};
    ghost use Rattle.pls_numbers.specs.laws.FixedLaws.{are_numbers};
    ghost use Rattle.pls_scheme_tests.specs.IndependentSet.{mark_label, numbers_of_mark};

    ghost numbers = { numbers_of_mark };

    ghost of_numbers = { mark_label };

    fn numbers(&self) -> [u64; 1] {
        [self.mark]
    }

    fn of_numbers(list: &[u64; 1]) -> MarkLabel {
        let [mark] = *list;
        MarkLabel { mark }
    }

    ghost numbers_law = { are_numbers 1 numbers_of_mark mark_label refl (λ _. refl) (λ _. refl)
        (λ _. refl) };
}

/// The scheme of maximal independent sets, whose labels are written in the number code `C`.
pub type IndependentSet<C> = RuleScheme<IndependentRules<C>>;

/// The rules of maximal independent sets.
#[derive(Clone, Copy, Debug, PartialEq, Eq)]
pub struct IndependentRules<C> {
    format: NumbersFormat<MarkLabel, 1>,
    code: PhantomData<C>,
}

impl<C> Default for IndependentRules<C> {
    fn default() -> Self {
        IndependentRules {
            format: NumbersFormat::default(),
            code: PhantomData,
        }
    }
}

impl<C: NumCode> Judgement for IndependentRules<C> {
    ghost use Rattle.pls_scheme_tests.specs.IndependentSet.{independent_rules};

    type Code = C;

    type Format = NumbersFormat<MarkLabel, 1>;

    ghost format = { λ s. s.format };

    ghost rules = { λ _. independent_rules };

    fn format(&self) -> &NumbersFormat<MarkLabel, 1> {
        &self.format
    }
}

impl<C: NumCode> Rules for IndependentRules<C> {
    ghost use Rattle.std.specs.List.{list_any};
    ghost use Rattle.pls_scheme_tests.specs.IndependentSet.{is_inside};

    // Whether one of the neighbours so far is in the set.
    type Tally = bool;

    ghost tallied = { λ _ _ ports. list_any is_inside ports };

    fn start(&self, _own: &MarkLabel) -> bool {
        false
    }

    fn add(&self, _own: &MarkLabel, some: bool, _weight: u32, label: &MarkLabel) -> bool {
        some || label.mark == 1
    }

    fn verdict(
        &self,
        _id: u32,
        state: State,
        own: &MarkLabel,
        _above: Option<&MarkLabel>,
        some: bool,
    ) -> Verdict {
        judged_from(
            3,
            &[
                own.mark == u64::from(state.mark),
                !(own.mark == 1 && some),
                own.mark == 1 || some,
            ],
        )
    }
}

impl<C: NumCode> Marker for IndependentRules<C> {
    ghost use Rattle.pls_scheme_tests.specs.IndependentSet.{IsMaximalIndependent, independent_limits, independent_says, mark_shape};
    ghost use Rattle.pls_scheme.specs.Basic.{longest_by};
    ghost use Rattle.pls_scheme_tests.specs.laws.IndependentSetLaws.{independent_fits, independent_met, independent_one_right, independent_show};

    ghost holds = { λ _ rows. IsMaximalIndependent rows };

    ghost says = { λ _ rows row label. independent_says rows row label };

    ghost longest = { λ _. longest_by mark_shape independent_limits C.code };

    fn longest(&self, size: &Size) -> u64 {
        codes_length::<C>(&[u64::from(size.max_mark)])
    }

    fn right_labels(
        &self,
        alloc: Global,
        net: &Network,
    ) -> Result<Option<Vec<MarkLabel>>, NoMemory> {
        is_valid(net);
        let labels = marks_of(alloc, net)?;
        if hold_everywhere(self, net, &labels) {
            Ok(Some(labels))
        } else {
            Ok(None)
        }
    }

    ghost show_law = { λ _. independent_show };

    ghost met_law = { λ _. independent_met };

    ghost one_right_law = { λ _. independent_one_right };

    ghost fits_law = { λ _. independent_fits C.code C.grows_law C.short_law };
}

fn marks_of(alloc: Global, net: &Network) -> Result<Vec<MarkLabel>, NoMemory>
    ensures { IfOk result (λ labels. labels.items ≡ map mark_of net.now) }
{
    let mut labels = Vec::with_capacity(alloc, net.len())?;
    for i in 0..net.len() {
        let (_, state) = net.node(i);
        labels.push(MarkLabel {
            mark: u64::from(state.mark),
        })?;
    }
    Ok(labels)
}
