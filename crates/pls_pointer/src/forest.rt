//! The rules of the scheme `forest`: the label is the node's depth.

ghost use Rattle.std.specs.Prelude.{◌≡◌, ◌==◌, ◌||◌};
ghost use Rattle.std.specs.Option.{is_some};

use crate::deeper::is_one_deeper;
use pls_bits::NumCode;
use pls_configuration::State;
use pls_scheme::{Judgement, NumbersFormat, OfNumbers, RuleScheme, Rules, Verdict, judged_from};
use std::marker::PhantomData;

/// What a label says.
#[derive(Clone, Copy, Debug, PartialEq, Eq)]
pub struct ForestLabel {
    /// How many pointers the node's chain has.
    pub depth: u64,
}

impl OfNumbers<1> for ForestLabel {
    ghost use Rattle.std.specs.Prelude.{refl};
    ghost use Rattle.pls_pointer.specs.Forest.{forest_label, numbers_of_forest};
    ghost use Rattle.pls_numbers.specs.laws.FixedLaws.{are_numbers};

    ghost numbers = { numbers_of_forest };

    ghost of_numbers = { forest_label };

    fn numbers(&self) -> [u64; 1] {
        [self.depth]
    }

    fn of_numbers(list: &[u64; 1]) -> ForestLabel {
        let [depth] = *list;
        ForestLabel { depth }
    }

    ghost numbers_law = { are_numbers 1 numbers_of_forest forest_label refl (λ _. refl) (λ _. refl)
        (λ _. refl) };
}

/// The scheme of forests of pointers, whose labels are written in the number code `C`.
pub type Forest<C> = RuleScheme<ForestRules<C>>;

/// The rules of forests of pointers.
#[derive(Clone, Copy, Debug, PartialEq, Eq)]
pub struct ForestRules<C> {
    format: NumbersFormat<ForestLabel, 1>,
    code: PhantomData<C>,
}

impl<C> Default for ForestRules<C> {
    fn default() -> Self {
        ForestRules {
            format: NumbersFormat::default(),
            code: PhantomData,
        }
    }
}

impl<C: NumCode> Judgement for ForestRules<C> {
    ghost use Rattle.pls_pointer.specs.Forest.{forest_rules};

    type Code = C;

    type Format = NumbersFormat<ForestLabel, 1>;

    ghost format = { λ s. s.format };

    ghost rules = { λ _. forest_rules };

    fn format(&self) -> &NumbersFormat<ForestLabel, 1> {
        &self.format
    }
}

impl<C: NumCode> Rules for ForestRules<C> {
    // Of the other neighbours the rules need nothing.
    type Tally = ();

    ghost tallied = { λ _ _ _. tt };

    fn start(&self, _own: &ForestLabel) {}

    fn add(&self, _own: &ForestLabel, _tally: (), _weight: u32, _label: &ForestLabel) {}

    fn verdict(
        &self,
        _id: u32,
        state: State,
        own: &ForestLabel,
        above: Option<&ForestLabel>,
        _tally: (),
    ) -> Verdict {
        judged_from(
            3,
            &[
                points_or_is_at_0(state, own),
                is_one_deeper(own.depth, above.map(|above| above.depth)),
            ],
        )
    }
}

// Rule 3: the node points at a port, or its depth is 0.
fn points_or_is_at_0(state: State, own: &ForestLabel) -> bool
    ensures { result ≡ (is_some state.up || own.now.depth == 0) }
{
    state.up.is_some() || own.depth == 0
}
