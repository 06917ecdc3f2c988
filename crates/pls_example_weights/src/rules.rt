//! The rules of same weights.

ghost use Rattle.std.specs.Prelude.{◌≡◌};
ghost use Rattle.std.specs.Str.{bytes_eq};

use crate::format::WeightsFormat;
use crate::weights::Weights;
use pls_bits::NumCode;
use pls_configuration::State;
use pls_scheme::{Judgement, RuleScheme, Rules, Verdict, judged_from};
use std::marker::PhantomData;

/// The scheme of same weights, whose labels are written in the number code `C`.
pub type SameWeights<C> = RuleScheme<SameWeightsRules<C>>;

/// The rules of same weights.
#[derive(Clone, Copy, Debug, PartialEq, Eq)]
pub struct SameWeightsRules<C> {
    format: WeightsFormat,
    code: PhantomData<C>,
}

impl<C> Default for SameWeightsRules<C> {
    fn default() -> Self {
        SameWeightsRules {
            format: WeightsFormat,
            code: PhantomData,
        }
    }
}

impl<C: NumCode> Judgement for SameWeightsRules<C> {
    ghost use Rattle.pls_example_weights.specs.SameWeights.{same_weights_rules};

    type Code = C;

    type Format = WeightsFormat;

    ghost format = { λ s. s.format };

    ghost rules = { λ _. same_weights_rules };

    fn format(&self) -> &WeightsFormat {
        &self.format
    }
}

/// What the rules need of the ports.
#[derive(Drop)]
pub struct SeenWeights {
    /// The weights at the first of them.
    pub weights: Weights,
    /// Whether each neighbour says the own weights.
    pub agree: bool,
}

impl<C: NumCode> Rules for SameWeightsRules<C> {
    ghost use Rattle.std.specs.List.{list_all};
    ghost use Rattle.pls_example_weights.specs.SameWeights.{says_weights, seen_weights};

    type Tally = SeenWeights;

    ghost tallied = { λ _ own ports.
        record { weights = seen_weights ports; agree = list_all (says_weights own) ports } };

    fn start(&self, _own: &Weights) -> SeenWeights {
        SeenWeights {
            weights: Weights::none(),
            agree: true,
        }
    }

    fn add(&self, own: &Weights, tally: SeenWeights, weight: u32, label: &Weights) -> SeenWeights {
        let SeenWeights { mut weights, agree } = tally;
        weights.push(u64::from(weight));
        SeenWeights {
            weights,
            agree: agree && are_same(label, own),
        }
    }

    fn verdict(
        &self,
        _id: u32,
        _state: State,
        own: &Weights,
        _above: Option<&Weights>,
        tally: SeenWeights,
    ) -> Verdict {
        judged_from(3, &[are_same(own, &tally.weights), tally.agree])
    }
}

fn are_same(one: &Weights, other: &Weights) -> bool
    ensures { result ≡ bytes_eq one.now other.now }
{
    one.as_slice() == other.as_slice()
}
