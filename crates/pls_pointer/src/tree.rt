//! The rules of the scheme `tree`: the label is the root's identity and the node's depth.

ghost use Rattle.std.specs.Prelude.{◌≡◌, ◌==◌, ◌&&◌, ◌||◌};
ghost use Rattle.std.specs.Option.{is_some};

use crate::deeper::is_one_deeper;
use pls_bits::NumCode;
use pls_configuration::State;
use pls_scheme::{Judgement, NumbersFormat, OfNumbers, RuleScheme, Rules, Verdict, judged_from};
use std::marker::PhantomData;

/// What a label says.
#[derive(Clone, Copy, Debug, PartialEq, Eq)]
pub struct TreeLabel {
    /// The identity of the root.
    pub root: u64,
    /// How many pointers lead from the node to the root.
    pub depth: u64,
}

impl OfNumbers<2> for TreeLabel {
    ghost use Rattle.std.specs.Prelude.{refl};
    ghost use Rattle.pls_pointer.specs.Tree.{numbers_of_tree, tree_label};
    ghost use Rattle.pls_numbers.specs.laws.FixedLaws.{are_numbers};

    ghost numbers = { numbers_of_tree };

    ghost of_numbers = { tree_label };

    fn numbers(&self) -> [u64; 2] {
        [self.root, self.depth]
    }

    fn of_numbers(list: &[u64; 2]) -> TreeLabel {
        let [root, depth] = *list;
        TreeLabel { root, depth }
    }

    ghost numbers_law = { are_numbers 2 numbers_of_tree tree_label refl (λ _. refl) (λ _. refl)
        (λ _. refl) };
}

/// The scheme of trees of pointers, whose labels are written in the number code `C`.
pub type Tree<C> = RuleScheme<TreeRules<C>>;

/// The rules of trees of pointers.
#[derive(Clone, Copy, Debug, PartialEq, Eq)]
pub struct TreeRules<C> {
    format: NumbersFormat<TreeLabel, 2>,
    code: PhantomData<C>,
}

impl<C> Default for TreeRules<C> {
    fn default() -> Self {
        TreeRules {
            format: NumbersFormat::default(),
            code: PhantomData,
        }
    }
}

impl<C: NumCode> Judgement for TreeRules<C> {
    ghost use Rattle.pls_pointer.specs.Tree.{tree_rules};

    type Code = C;

    type Format = NumbersFormat<TreeLabel, 2>;

    ghost format = { λ s. s.format };

    ghost rules = { λ _. tree_rules };

    fn format(&self) -> &NumbersFormat<TreeLabel, 2> {
        &self.format
    }
}

impl<C: NumCode> Rules for TreeRules<C> {
    ghost use Rattle.std.specs.List.{list_all};
    ghost use Rattle.pls_scheme.specs.Reading.{has_number};

    // Whether the neighbours so far name the own root.
    type Tally = bool;

    ghost tallied = { λ _ own ports. list_all (has_number (λ label. label.root) own.root) ports };

    fn start(&self, _own: &TreeLabel) -> bool {
        true
    }

    fn add(&self, own: &TreeLabel, agrees: bool, _weight: u32, label: &TreeLabel) -> bool {
        agrees && label.root == own.root
    }

    fn verdict(
        &self,
        id: u32,
        state: State,
        own: &TreeLabel,
        above: Option<&TreeLabel>,
        agrees: bool,
    ) -> Verdict {
        judged_from(
            3,
            &[
                agrees,
                points_or_is_root(id, state, own),
                is_one_deeper(own.depth, above.map(|above| above.depth)),
            ],
        )
    }
}

// Rule 4: the node points at a port, or it is the root, of depth 0.
fn points_or_is_root(id: u32, state: State, own: &TreeLabel) -> bool
    ensures { result ≡ (is_some state.up || (own.now.depth == 0 && id == own.now.root)) }
{
    state.up.is_some() || (own.depth == 0 && u64::from(id) == own.root)
}
