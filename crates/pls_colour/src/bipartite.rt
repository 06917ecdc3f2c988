//! The rules of the scheme `bipartite`: the label is one colour, and differs across each edge.

ghost use Rattle.std.specs.Prelude.{◌≡◌};
ghost use Rattle.pls_facts.specs.Bipartite.{differ};

use crate::colour_format::{ColourFormat, ColourLabel};
use pls_bits::{Gamma, NumCode};
use pls_configuration::State;
use pls_scheme::{Judgement, RuleScheme, Rules, Verdict, judged_from};
use std::marker::PhantomData;

/// The scheme of two-colourings. A label is one bit, the node's colour, in whatever number code `C`
/// the labels of other schemes are.
pub type Bipartite<C = Gamma> = RuleScheme<BipartiteRules<C>>;

/// The rules of two-colourings.
#[derive(Clone, Copy, Debug, PartialEq, Eq)]
pub struct BipartiteRules<C> {
    format: ColourFormat,
    code: PhantomData<C>,
}

impl<C> Default for BipartiteRules<C> {
    fn default() -> Self {
        BipartiteRules {
            format: ColourFormat,
            code: PhantomData,
        }
    }
}

impl<C: NumCode> Judgement for BipartiteRules<C> {
    ghost use Rattle.pls_colour.specs.Bipartite.{bipartite_rules};

    type Code = C;

    type Format = ColourFormat;

    ghost format = { λ s. s.format };

    ghost rules = { λ _. bipartite_rules };

    fn format(&self) -> &ColourFormat {
        &self.format
    }
}

impl<C: NumCode> Rules for BipartiteRules<C> {
    ghost use Rattle.std.specs.List.{list_all};
    ghost use Rattle.pls_colour.specs.Bipartite.{differs_from};

    // Whether the colours of the neighbours so far differ from the own one.
    type Tally = bool;

    ghost tallied = { λ _ own ports. list_all (differs_from own.colour) ports };

    fn start(&self, _own: &ColourLabel) -> bool {
        true
    }

    fn add(&self, own: &ColourLabel, differ: bool, _weight: u32, label: &ColourLabel) -> bool {
        differ && colours_differ(own.colour, label.colour)
    }

    fn verdict(
        &self,
        _id: u32,
        _state: State,
        _own: &ColourLabel,
        _above: Option<&ColourLabel>,
        differ: bool,
    ) -> Verdict {
        judged_from(3, &[differ])
    }
}

fn colours_differ(one: bool, other: bool) -> bool
    ensures { result ≡ differ one other }
{
    one != other
}
