//! The rules of the scheme `acyclic`: the label is the node's depth.

ghost use Rattle.std.specs.Prelude.{◌≡◌};
ghost use Rattle.pls_colour.specs.Acyclic.{is_above, is_beside};
ghost use Rattle.pls_scheme.specs.Reading.{port_with};

use pls_bits::NumCode;
use pls_configuration::State;
use pls_scheme::{
    Judgement, NumbersFormat, OfNumbers, RuleScheme, Rules, Verdict, is_one_more, judged_from,
};
use std::marker::PhantomData;

/// What a label says.
#[derive(Clone, Copy, Debug, PartialEq, Eq)]
pub struct AcyclicLabel {
    /// How many edges lead to the node from the node of smallest identity.
    pub depth: u64,
}

impl OfNumbers<1> for AcyclicLabel {
    ghost use Rattle.std.specs.Prelude.{refl};
    ghost use Rattle.pls_colour.specs.Acyclic.{acyclic_label, numbers_of_acyclic};
    ghost use Rattle.pls_numbers.specs.laws.FixedLaws.{are_numbers};

    ghost numbers = { numbers_of_acyclic };

    ghost of_numbers = { acyclic_label };

    fn numbers(&self) -> [u64; 1] {
        [self.depth]
    }

    fn of_numbers(list: &[u64; 1]) -> AcyclicLabel {
        let [depth] = *list;
        AcyclicLabel { depth }
    }

    ghost numbers_law = { are_numbers 1 numbers_of_acyclic acyclic_label refl (λ _. refl) (λ _. refl)
        (λ _. refl) };
}

/// The scheme of networks without cycle, whose labels are written in the number code `C`.
pub type Acyclic<C> = RuleScheme<AcyclicRules<C>>;

/// The rules of networks without cycle.
#[derive(Clone, Copy, Debug, PartialEq, Eq)]
pub struct AcyclicRules<C> {
    format: NumbersFormat<AcyclicLabel, 1>,
    code: PhantomData<C>,
}

impl<C> Default for AcyclicRules<C> {
    fn default() -> Self {
        AcyclicRules {
            format: NumbersFormat::default(),
            code: PhantomData,
        }
    }
}

impl<C: NumCode> Judgement for AcyclicRules<C> {
    ghost use Rattle.pls_colour.specs.Acyclic.{acyclic_rules};

    type Code = C;

    type Format = NumbersFormat<AcyclicLabel, 1>;

    ghost format = { λ s. s.format };

    ghost rules = { λ _. acyclic_rules };

    fn format(&self) -> &NumbersFormat<AcyclicLabel, 1> {
        &self.format
    }
}

/// What the rules need of the neighbours.
#[derive(Clone, Copy, Debug, PartialEq, Eq)]
pub struct AcyclicTally {
    /// Whether each is one deeper, or one less deep.
    pub differ: bool,
    /// How many are one less deep, and 2 where more are.
    pub above: u32,
}

impl<C: NumCode> Rules for AcyclicRules<C> {
    ghost use Rattle.std.specs.Prelude.{count_by, min};
    ghost use Rattle.std.specs.List.{list_all};
    ghost use Rattle.pls_colour.specs.Acyclic.{is_above, is_beside};

    type Tally = AcyclicTally;

    ghost tallied = { λ _ own ports. record {
      differ = list_all (is_beside own.depth) ports;
      above = min (count_by (is_above own.depth) ports) 2;
    } };

    fn start(&self, _own: &AcyclicLabel) -> AcyclicTally {
        AcyclicTally {
            differ: true,
            above: 0,
        }
    }

    fn add(
        &self,
        own: &AcyclicLabel,
        tally: AcyclicTally,
        weight: u32,
        label: &AcyclicLabel,
    ) -> AcyclicTally {
        let above = if is_above(own, weight, label) {
            tally.above.saturating_add(1).min(2)
        } else {
            tally.above
        };
        AcyclicTally {
            differ: tally.differ && is_beside(own, weight, label),
            above,
        }
    }

    fn verdict(
        &self,
        _id: u32,
        _state: State,
        _own: &AcyclicLabel,
        _above: Option<&AcyclicLabel>,
        tally: AcyclicTally,
    ) -> Verdict {
        judged_from(3, &[tally.differ, tally.above <= 1])
    }
}

// Whether the depths differ by one.
fn is_beside(own: &AcyclicLabel, weight: u32, label: &AcyclicLabel) -> bool
    ensures { result ≡ is_beside own.now.depth (port_with weight label.now) }
{
    is_one_more(label.depth, own.depth) || is_one_more(own.depth, label.depth)
}

// Whether the neighbour is one less deep.
fn is_above(own: &AcyclicLabel, weight: u32, label: &AcyclicLabel) -> bool
    ensures { result ≡ is_above own.now.depth (port_with weight label.now) }
{
    is_one_more(own.depth, label.depth)
}
