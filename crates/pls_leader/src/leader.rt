//! The rules of the scheme `leader`: the label is the root's identity and the node's depth.

ghost use Rattle.std.specs.Prelude.{◌≡◌, ◌==◌, ◌||◌};
ghost use Rattle.std.specs.Bool.{beq};

use crate::rooted::is_0_at_root_alone;
use pls_bits::NumCode;
use pls_configuration::State;
use pls_scheme::{
    Judgement, NumbersFormat, OfNumbers, RuleScheme, Rules, Verdict, is_one_more, judged_from,
};
use std::marker::PhantomData;

/// What a label says.
#[derive(Clone, Copy, Debug, PartialEq, Eq)]
pub struct LeaderLabel {
    /// The identity of the root, which is the leader.
    pub root: u64,
    /// How many edges lead from the root to the node.
    pub depth: u64,
}

impl OfNumbers<2> for LeaderLabel {
    ghost use Rattle.std.specs.Prelude.{refl};
    ghost use Rattle.pls_leader.specs.Leader.{leader_label, numbers_of_leader};
    ghost use Rattle.pls_numbers.specs.laws.FixedLaws.{are_numbers};

    ghost numbers = { numbers_of_leader };

    ghost of_numbers = { leader_label };

    fn numbers(&self) -> [u64; 2] {
        [self.root, self.depth]
    }

    fn of_numbers(list: &[u64; 2]) -> LeaderLabel {
        let [root, depth] = *list;
        LeaderLabel { root, depth }
    }

    ghost numbers_law = { are_numbers 2 numbers_of_leader leader_label refl (λ _. refl) (λ _. refl)
        (λ _. refl) };
}

/// The scheme of one leader, whose labels are written in the number code `C`.
pub type Leader<C> = RuleScheme<LeaderRules<C>>;

/// The rules of one leader.
#[derive(Clone, Copy, Debug, PartialEq, Eq)]
pub struct LeaderRules<C> {
    format: NumbersFormat<LeaderLabel, 2>,
    code: PhantomData<C>,
}

impl<C> Default for LeaderRules<C> {
    fn default() -> Self {
        LeaderRules {
            format: NumbersFormat::default(),
            code: PhantomData,
        }
    }
}

impl<C: NumCode> Judgement for LeaderRules<C> {
    ghost use Rattle.pls_leader.specs.Leader.{leader_rules};

    type Code = C;

    type Format = NumbersFormat<LeaderLabel, 2>;

    ghost format = { λ s. s.format };

    ghost rules = { λ _. leader_rules };

    fn format(&self) -> &NumbersFormat<LeaderLabel, 2> {
        &self.format
    }
}

/// What the rules need of the neighbours.
#[derive(Clone, Copy, Debug, PartialEq, Eq)]
pub struct LeaderTally {
    /// Whether each names the own root.
    pub agree: bool,
    /// Whether some is one less deep.
    pub falls: bool,
}

impl<C: NumCode> Rules for LeaderRules<C> {
    ghost use Rattle.std.specs.List.{list_all, list_any};
    ghost use Rattle.pls_leader.specs.Leader.{is_one_less_deep};
    ghost use Rattle.pls_scheme.specs.Reading.{has_number};

    type Tally = LeaderTally;

    ghost tallied = { λ _ own ports. record {
      agree = list_all (has_number (λ label. label.root) own.root) ports;
      falls = list_any (is_one_less_deep own.depth) ports;
    } };

    fn start(&self, _own: &LeaderLabel) -> LeaderTally {
        LeaderTally {
            agree: true,
            falls: false,
        }
    }

    fn add(
        &self,
        own: &LeaderLabel,
        tally: LeaderTally,
        _weight: u32,
        label: &LeaderLabel,
    ) -> LeaderTally {
        LeaderTally {
            agree: tally.agree && label.root == own.root,
            falls: tally.falls || is_one_more(own.depth, label.depth),
        }
    }

    fn verdict(
        &self,
        id: u32,
        state: State,
        own: &LeaderLabel,
        _above: Option<&LeaderLabel>,
        tally: LeaderTally,
    ) -> Verdict {
        judged_from(
            3,
            &[
                tally.agree,
                is_0_at_root_alone(id, own.root, own.depth),
                is_root_or_falls(own, tally.falls),
                is_marked_at_0_alone(state, own),
            ],
        )
    }
}

// Rule 5: the depth is 0, or some neighbour is one less deep.
fn is_root_or_falls(own: &LeaderLabel, falls: bool) -> bool
    ensures { result ≡ (own.now.depth == 0 || falls) }
{
    own.depth == 0 || falls
}

// Rule 6: the mark is 1 exactly where the depth is 0.
fn is_marked_at_0_alone(state: State, own: &LeaderLabel) -> bool
    ensures { result ≡ beq (state.mark == 1) (own.now.depth == 0) }
{
    (state.mark == 1) == (own.depth == 0)
}
